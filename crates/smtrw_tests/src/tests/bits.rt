//! Checks over bit vectors as checks over truth values, and their models carried back.

use super::carried_models::all_carry;
use std::test::Fail;

#[test]
fn bits_and_words(rt: HostRuntime) -> Result<(), Fail> {
    all_carry(&rt, rt.alloc(), ROWS)
}

const ROWS: &str = "0%blast -%(declare-fun x () (_ BitVec 1))
(assert (= (bvadd x #b1) #b0))
(check-sat)
%%(declare-fun FV0 () Bool)
(assert (let ((.def_0 (xor FV0 true))) (let ((.def_1 (xor .def_0 false))) (let ((.def_2 (= .def_1 false))) .def_2))))
(check-sat)
%$0%unblast - model%(declare-fun x () (_ BitVec 1))
(assert (= (bvadd x #b1) #b0))
(check-sat)
%((define-fun FV0 () Bool true))%(
(define-fun x () (_ BitVec 1) #b1)
)
%$8%blast -%(declare-fun x () Int)
(assert (< x 3))
(check-sat)
%%%smtrw: pass refused: 90 NotBits in assertion 1
$8%unblast - model%(declare-fun x () Int)
(assert (< x 3))
(check-sat)
%nothing%%smtrw: pass refused: 90 NotBits in assertion 1
$0%blast -%(declare-fun x () Int)
(declare-fun p () Bool)
(push 1)
(assert (< x 3))
(pop 1)
(assert p)
(check-sat)
%%(declare-fun p () Bool)
(assert p)
(check-sat)
%$0%blast --check 2 -%(declare-fun p () Bool)
(declare-fun q () Bool)
(assert p)
(check-sat)
(assert q)
(check-sat)
(assert (not p))
%%(declare-fun p () Bool)
(declare-fun q () Bool)
(assert p)
(assert q)
(check-sat)
%$0%blast -%(declare-fun p () Bool)
(declare-fun q () Bool)
(assert p)
(check-sat-assuming ((not q)))
%%(declare-fun p () Bool)
(declare-fun q () Bool)
(assert p)
(assert (let ((.def_0 (not q))) .def_0))
(check-sat)
%$2%blast --check 3 -%(declare-fun x () (_ BitVec 1))
(assert (= (bvadd x #b1) #b0))
(check-sat)
%%%smtrw: usage: check 3 of 1
$2%unblast --check 3 - model%(declare-fun x () (_ BitVec 1))
(assert (= (bvadd x #b1) #b0))
(check-sat)
%()%%smtrw: usage: check 3 of 1
$2%blast --passes rules -%%%%smtrw: usage: word 3: BadPass
$6%unblast - model%(declare-fun x () (_ BitVec 1))
(assert (= (bvadd x #b1) #b0))
(check-sat)
%((define-fun FV0 () Int 1))%%smtrw: model refused: 61 ModelSort at line 1, byte 1
$0%unblast - model%(declare-fun x () (_ BitVec 4))
(declare-fun p () Bool)
(declare-fun n () Int)
(assert p)
(check-sat)
%((define-fun p () Bool true))%(
(define-fun x () (_ BitVec 4) #x0)
(define-fun p () Bool true)
(define-fun n () Int 0)
)
%$0%unblast - model%(declare-fun x () (_ BitVec 8))
(assert (bvult x #x10))
(check-sat)
%((define-fun FV0 () Bool true) (define-fun FV2 () Bool true))%(
(define-fun x () (_ BitVec 8) #x05)
)
%";

//! Models carried over passes.

use super::{gives, input_of};
use std::alloc::Global;
use std::process::Abort;
use std::test::Fail;

/// Tries rows, with `$` between them: the status's number, the words, the script, the model's text, and what goes out on both
/// streams, with `%` between these.
pub(super) fn all_carry(rt: &impl Abort, alloc: Global, rows: &str) -> Result<(), Fail> {
    for row in rows.split('$') {
        let mut parts = row.split('%');
        match (
            parts.next(),
            parts.next(),
            parts.next(),
            parts.next(),
            parts.next(),
            parts.next(),
        ) {
            (Some(number), Some(words), Some(script), Some(model), Some(sent), Some(said)) => {
                let mut inputs = input_of(alloc, script.as_bytes(), 997)?;
                inputs.add("model", model.as_bytes())?;
                gives(rt, alloc, words, inputs, number, sent, said)?;
            }
            _ => panic!(rt; "a row lacks a part"),
        }
    }
    Ok(())
}

#[test]
fn models_and_words(rt: HostRuntime) -> Result<(), Fail> {
    all_carry(&rt, rt.alloc(), ROWS)
}

const ROWS: &str = "0%translate --check 2 - model%(push 1)
(declare-fun x () Int)
(assert (< x 3))
(check-sat)
(pop 1)
(declare-fun x () (_ BitVec 8))
(assert (bvult x #x03))
(check-sat)
%((define-fun x () (_ BitVec 8) #b00000001))%(
(define-fun x () (_ BitVec 8) #x01)
)
%$6%translate --check 1 - model%(push 1)
(declare-fun x () Int)
(assert (< x 3))
(check-sat)
(pop 1)
(declare-fun x () (_ BitVec 8))
(assert (bvult x #x03))
(check-sat)
%((define-fun x () (_ BitVec 8) #b00000001))%%smtrw: model refused: 61 ModelSort at line 1, byte 1
$2%translate --check 3 - model%(push 1)
(declare-fun x () Int)
(assert (< x 3))
(check-sat)
(pop 1)
(declare-fun x () (_ BitVec 8))
(assert (bvult x #x03))
(check-sat)
%%%smtrw: usage: check 3 of 2
$2%translate - -%(push 1)
(declare-fun x () Int)
(assert (< x 3))
(check-sat)
(pop 1)
(declare-fun x () (_ BitVec 8))
(assert (bvult x #x03))
(check-sat)
%%%smtrw: usage: word 3: TwoInputs
$0%translate --passes simplify - model%(declare-fun x () (_ BitVec 8))
(declare-fun y () Int)
(assert (= (bvudiv #x05 #x00) x))
(assert (= y (div 7 0)))
(check-sat)
%((define-fun y () Int 4) (define-fun x () (_ BitVec 8) #xff) (define-fun @div0 ((n Int)) Int (ite (= n 7) 4 0)))%(
(define-fun x () (_ BitVec 8) #xff)
(define-fun y () Int 4)
(define-fun @div0 ((x!0 Int)) Int (ite (= x!0 7) 4 0))
)
%$0%extend --passes ite,cnf - model%(declare-fun p () Bool)
(declare-fun x () (_ BitVec 8))
(declare-fun y () (_ BitVec 8))
(assert (bvult (ite p x y) #x03))
(check-sat)
%sat
((define-fun p () Bool true) (define-fun y () (_ BitVec 8) #xff) (define-fun x () (_ BitVec 8) (_ bv2 8)))
%(
(define-fun p () Bool true)
(define-fun x () (_ BitVec 8) #x02)
(define-fun y () (_ BitVec 8) #xff)
(define-fun FV0 () (_ BitVec 8) #x02)
(define-fun FV1 () Bool true)
(define-fun FV2 () Bool true)
)
%$0%translate --passes ite,cnf - model%(declare-fun p () Bool)
(declare-fun x () (_ BitVec 8))
(declare-fun y () (_ BitVec 8))
(assert (bvult (ite p x y) #x03))
(check-sat)
%(
(define-fun p () Bool true)
(define-fun x () (_ BitVec 8) #x02)
(define-fun y () (_ BitVec 8) #xff)
(define-fun FV0 () (_ BitVec 8) #x02)
(define-fun FV1 () Bool true)
(define-fun FV2 () Bool true)
)
%(
(define-fun p () Bool true)
(define-fun x () (_ BitVec 8) #x02)
(define-fun y () (_ BitVec 8) #xff)
)
%$0%extend --passes cnf - model%(set-option :global-declarations true)
(push 1)
(declare-fun p () Bool)
(assert (not (and p p)))
(pop 1)
(assert p)
(check-sat)
%((define-fun p () Bool true))%(
(define-fun p () Bool true)
(define-fun FV0 () Bool false)
)
%$7%extend --passes ite - model%(declare-fun p () Bool)
(declare-fun x () Int)
(assert (= (ite p (* x x) 0) 0))
(check-sat)
%((define-fun p () Bool false) (define-fun x () Int 18446744073709551616))%%smtrw: value beyond 128 bits in assertion 1
$0%extend --passes ite - model%(declare-fun p () Bool)
(declare-fun x () Int)
(assert (= (ite p (* x x) 0) 0))
(check-sat)
%((define-fun p () Bool false) (define-fun x () Int 3))%(
(define-fun p () Bool false)
(define-fun x () Int 3)
(define-fun FV0 () Int 0)
)
%$8%extend --passes cnf - model%(declare-fun p () Bool)
(assert (or (not (and p (forall ((v (_ BitVec 17))) (= v v)))) p))
(check-sat)
%((define-fun p () Bool true))%%smtrw: pass refused: 71 EvalWidth in assertion 1
$0%extend --passes cnf - model%(declare-fun p () Bool)
(assert (or (not (and p (forall ((v (_ BitVec 16))) (= v v)))) p))
(check-sat)
%((define-fun p () Bool true))%(
(define-fun p () Bool true)
(define-fun FV0 () Bool true)
(define-fun FV1 () Bool true)
)
%$0%translate --check 2 --passes ackermann - model%(declare-fun g (Int) Int)
(assert (= (g 1) 2))
(push 1)
(assert (= (g 2) 3))
(check-sat)
(pop 1)
(assert (= (g 2) 4))
(check-sat)
%((define-fun FV0 () Int 2) (define-fun FV2 () Int 4))%(
(define-fun g ((x!0 Int)) Int (ite (= x!0 1) 2 (ite (= x!0 2) 4 0)))
)
%$0%extend --check 2 --passes ackermann - model%(declare-fun g (Int) Int)
(assert (= (g 1) 2))
(push 1)
(assert (= (g 2) 3))
(check-sat)
(pop 1)
(assert (= (g 2) 4))
(check-sat)
%((define-fun g ((n Int)) Int (ite (= n 1) 2 (ite (= n 2) 4 7))))%(
(define-fun FV0 () Int 2)
(define-fun FV2 () Int 4)
)
%$0%translate --passes ackermann - model%(declare-sort U 0)
(declare-fun f (U) U)
(declare-fun x () U)
(declare-fun y () U)
(assert (= (f (f x)) x))
(assert (= (f y) x))
(check-sat)
%((define-fun x () U (as @e U)) (define-fun y () U (as @g U)) (define-fun FV0 () U (as @g U)) (define-fun FV1 () U (as @e U)) (define-fun FV2 () U (as @e U)))%(
(@sort U (as @U_0 U) (as @U_1 U))
(define-fun f ((x!0 U)) U (ite (= x!0 (as @U_0 U)) (as @U_1 U) (ite (= x!0 (as @U_1 U)) (as @U_0 U) (as @U_0 U))))
(define-fun x () U (as @U_0 U))
(define-fun y () U (as @U_1 U))
)
%$7%translate --passes ackermann - model%(declare-fun x () Int)
(declare-fun y () Int)
(declare-fun f (Int) Int)
(assert (= (f (* x y)) 0))
(check-sat)
%((define-fun x () Int 18446744073709551616) (define-fun y () Int 9223372036854775808))%%smtrw: value beyond 128 bits in assertion 1
$0%translate --passes ackermann - model%(declare-fun x () Int)
(declare-fun y () Int)
(declare-fun f (Int) Int)
(assert (= (f (* x y)) 0))
(check-sat)
%((define-fun x () Int 18446744073709551616) (define-fun y () Int 9223372036854775807))%(
(define-fun x () Int 18446744073709551616)
(define-fun y () Int 9223372036854775807)
(define-fun f ((x!0 Int)) Int (ite (= x!0 170141183460469231713240559642174554112) 0 0))
)
%$8%extend --passes ackermann - model%(declare-fun g (Bool) Bool)
(assert (forall ((z Bool)) (= (g z) z)))
(check-sat)
%(%%smtrw: pass refused: 50 QuantifiedUse in assertion 1
$2%translate --check 2 --passes ackermann - model%(declare-fun g (Bool) Bool)
(assert (forall ((z Bool)) (= (g z) z)))
(check-sat)
%(%%smtrw: usage: check 2 of 1
$6%translate - model%(declare-fun x () Int)
(check-sat)
%sat
(model (define-fun x () Int 2) (define-fun zz () Int 9) (define-fun x () Int 3))%%smtrw: model refused: 64 ModelTwice at line 2, byte 60
$0%extend - model%(declare-sort U 0)
(declare-fun f (U Bool) U)
(declare-fun m () (Array Bool U))
(check-sat)
%((@sort U (as @a U)) (define-fun f ((u U) (b Bool)) U (ite (and b (= (as @b U) u)) (as @c U) (as @a U))) (define-fun m () (Array Bool U) (store ((as const (Array Bool U)) (as @b U)) true (as @c U))))%(
(@sort U (as @U_0 U) (as @U_1 U) (as @U_2 U))
(define-fun f ((x!0 U) (x!1 Bool)) U (ite (and (= x!0 (as @U_1 U)) (= x!1 true)) (as @U_2 U) (as @U_0 U)))
(define-fun m () (Array Bool U) (store ((as const (Array Bool U)) (as @U_1 U)) true (as @U_2 U)))
)
%$0%extend --passes cnf - model%(declare-fun a () Bool)
(declare-fun b () Bool)
(push)
(declare-fun c () Bool)
(assert (or (and a b) (and (not a) c)))
(check-sat)
(pop)
(assert (= (and a b) (or a b)))
(check-sat)
%(
(define-fun a () Bool true)
(define-fun b () Bool true)
(define-fun c () Bool false)
)
%(
(define-fun a () Bool true)
(define-fun b () Bool true)
(define-fun c () Bool false)
(define-fun FV0 () Bool true)
(define-fun FV1 () Bool false)
(define-fun FV2 () Bool true)
)
%$0%translate --passes cnf - model%(declare-fun a () Bool)
(declare-fun b () Bool)
(push)
(declare-fun c () Bool)
(assert (or (and a b) (and (not a) c)))
(check-sat)
(pop)
(assert (= (and a b) (or a b)))
(check-sat)
%(
(define-fun a () Bool true)
(define-fun b () Bool true)
(define-fun c () Bool false)
(define-fun FV0 () Bool true)
(define-fun FV1 () Bool false)
(define-fun FV2 () Bool true)
)
%(
(define-fun a () Bool true)
(define-fun b () Bool true)
(define-fun c () Bool false)
)
%$0%extend --check 2 --passes cnf - model%(declare-fun a () Bool)
(declare-fun b () Bool)
(push)
(declare-fun c () Bool)
(assert (or (and a b) (and (not a) c)))
(check-sat)
(pop)
(assert (= (and a b) (or a b)))
(check-sat)
%(
(define-fun a () Bool false)
(define-fun b () Bool false)
)
%(
(define-fun a () Bool false)
(define-fun b () Bool false)
(define-fun FV3 () Bool false)
(define-fun FV4 () Bool false)
(define-fun FV5 () Bool true)
)
%$0%translate --check 2 --passes cnf - model%(declare-fun a () Bool)
(declare-fun b () Bool)
(push)
(declare-fun c () Bool)
(assert (or (and a b) (and (not a) c)))
(check-sat)
(pop)
(assert (= (and a b) (or a b)))
(check-sat)
%(
(define-fun a () Bool false)
(define-fun b () Bool false)
(define-fun FV3 () Bool false)
(define-fun FV4 () Bool false)
(define-fun FV5 () Bool true)
)
%(
(define-fun a () Bool false)
(define-fun b () Bool false)
)
%";

//! Checks taken for clauses, and solvers' answers carried back.

use super::carried_models::all_carry;
use std::test::Fail;

#[test]
fn clauses_and_words(rt: HostRuntime) -> Result<(), Fail> {
    all_carry(&rt, rt.alloc(), ROWS)
}

const ROWS: &str = "0%dimacs -%(declare-fun a () Bool)
(declare-fun b () Bool)
(assert (or (not a) b))
(assert a)
(check-sat)
%%p cnf 2 2
-1 2 0
1 0
%$0%answer - model%(declare-fun a () Bool)
(declare-fun b () Bool)
(assert (or (not a) b))
(assert a)
(check-sat)
%s SATISFIABLE
v 1 2 0
%(
(define-fun a () Bool true)
(define-fun b () Bool true)
)
%$6%answer - model%(declare-fun a () Bool)
(declare-fun b () Bool)
(assert (or (not a) b))
(assert a)
(check-sat)
%s SATISFIABLE
v 1 3 0
%%smtrw: model refused: 95 DimacsForm at line 2, byte 18
$0%answer - model%(declare-fun a () Bool)
(declare-fun b () Bool)
(assert (or (not a) b))
(assert a)
(check-sat)
%c x

s UNSATISFIABLE%unsat
%$0%answer - model%(declare-fun a () Bool)
(declare-fun b () Bool)
(assert (or (not a) b))
(assert a)
(check-sat)
%s UNKNOWN
%unknown
%$0%dimacs --passes cnf -%(declare-fun FV0 () Bool)
(assert (let ((.def_0 (xor FV0 true))) (let ((.def_1 (xor .def_0 false))) (let ((.def_2 (= .def_1 false))) .def_2))))
(check-sat)
%%p cnf 4 6
-2 -1 0
2 1 0
-3 2 0
3 -2 0
-4 -3 0
4 0
%$0%answer --passes cnf - model%(declare-fun FV0 () Bool)
(assert (let ((.def_0 (xor FV0 true))) (let ((.def_1 (xor .def_0 false))) (let ((.def_2 (= .def_1 false))) .def_2))))
(check-sat)
%s SATISFIABLE
v 1 -2 -3 4 0
%(
(define-fun FV0 () Bool true)
)
%$8%dimacs -%(declare-fun a () Bool)
(declare-fun b () Bool)
(assert (and a b))
(check-sat)
%%%smtrw: pass refused: 96 NotClauses in assertion 1
$8%answer - model%(declare-fun a () Bool)
(declare-fun b () Bool)
(assert a)
(assert (and a b))
(check-sat)
%nothing%%smtrw: pass refused: 96 NotClauses in assertion 2
$0%dimacs -%(declare-fun a () Bool)
(assert (or a true))
(assert (or a false))
(assert false)
(check-sat)
%%p cnf 1 2
1 0
0
%$2%dimacs --check 2 -%(declare-fun a () Bool)
(declare-fun b () Bool)
(assert (or (not a) b))
(assert a)
(check-sat)
%%%smtrw: usage: check 2 of 1
$2%dimacs --passes rules -%%%%smtrw: usage: word 3: BadPass
";

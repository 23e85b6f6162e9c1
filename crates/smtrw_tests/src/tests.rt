//! The program on texts and devices in memory.

ghost use Rattle.std.specs.Prelude.{◌<◌};

use smt_io::{Inputs, MemInputs, MemSink};
use smtrw_answers::Status;
use smtrw_run::run_with_eight;
use std::alloc::{AllocError, Global};
use std::process::Abort;
use std::test::Fail;

mod bits;
mod carried_models;
mod clauses;
mod demonstrations;
mod devices;
mod endless;
mod large;
mod prefixes;

/// Words that ask for a rewriting.
const WORDS: &str = "rewrite --passes nnf -";

/// A script whose assertion negates an `and`.
const NEGATED: &[u8] = b"(declare-fun a () Bool)
(declare-fun b () Bool)
(declare-fun c () Bool)
(assert (not (and a (or b (not c)))))
(check-sat)
";

/// The same with the negations at the constants.
const NORMAL: &[u8] = b"(declare-fun a () Bool)
(declare-fun b () Bool)
(declare-fun c () Bool)
(assert (or (not a) (and (not b) c)))
(check-sat)
";

/// Room for what is written.
const ROOM: usize = 16_777_216;

/// What the program answers to words with one space between them.
fn answer<I: Inputs>(
    alloc: Global,
    words: &str,
    inputs: &mut I,
    out: &mut MemSink,
    err: &mut MemSink,
) -> Result<Status, AllocError> {
    let mut all = Vec::new(alloc);
    for word in words.split(' ') {
        all.push(String::from_str(alloc, word)?)?;
    }
    Ok(run_with_eight(alloc, all.as_slice(), inputs, out, err))
}

/// Standard input with this text, read so many bytes at a time.
fn input_of(alloc: Global, text: &[u8], step: usize) -> Result<MemInputs, AllocError>
    requires { 0 < step }
{
    let mut inputs = MemInputs::new(alloc, step);
    inputs.add("-", text)?;
    Ok(inputs)
}

fn number_of(digit: &str) -> u8 {
    match digit {
        "0" => 0,
        "1" => 1,
        "2" => 2,
        "6" => 6,
        "7" => 7,
        _ => 8,
    }
}

/// Runs the program on these inputs, and tells whether it ends with this number and writes these texts.
fn gives(
    rt: &impl Abort,
    alloc: Global,
    words: &str,
    mut inputs: MemInputs,
    number: &str,
    sent: &str,
    said: &str,
) -> Result<(), Fail> {
    let mut out = MemSink::new(alloc, 997, ROOM)?;
    let mut err = MemSink::new(alloc, 997, ROOM)?;
    let status = answer(alloc, words, &mut inputs, &mut out, &mut err)?;
    assert!(rt; out.bytes() == sent.as_bytes());
    assert!(rt; err.bytes() == said.as_bytes());
    assert!(rt; status.number() == number_of(number));
    Ok(())
}

/// Tries rows, with `@` between them: the status's number, the words, the script, and what goes out on both streams,
/// with `%` between these.
fn all_hold(rt: &impl Abort, alloc: Global, rows: &str) -> Result<(), Fail> {
    for row in rows.split('@') {
        let mut parts = row.split('%');
        match (
            parts.next(),
            parts.next(),
            parts.next(),
            parts.next(),
            parts.next(),
        ) {
            (Some(number), Some(words), Some(script), Some(sent), Some(said)) => {
                let inputs = input_of(alloc, script.as_bytes(), 997)?;
                gives(rt, alloc, words, inputs, number, sent, said)?;
            }
            _ => panic!(rt; "a row lacks a part"),
        }
    }
    Ok(())
}

#[test]
fn scripts_and_words(rt: HostRuntime) -> Result<(), Fail> {
    all_hold(&rt, rt.alloc(), ROWS)
}

const ROWS: &str = "0%rewrite -%%%@0%rewrite --passes nnf -%(declare-fun a () Bool)
(declare-fun b () Bool)
(declare-fun c () Bool)
(assert (not (and a (or b (not c)))))
(check-sat)
%(declare-fun a () Bool)
(declare-fun b () Bool)
(declare-fun c () Bool)
(assert (or (not a) (and (not b) c)))
(check-sat)
%@0%rewrite -%(declare-const |let| Bool) (declare-fun |abc| () Bool) (assert (or |let| abc))%(declare-fun |let| () Bool)
(declare-fun abc () Bool)
(assert (or |let| abc))
%@0%rewrite -%(declare-fun x () Int)
(declare-fun y () Int)
(assert (let ((x y) (y x)) (< x (+ y 1))))%(declare-fun x () Int)
(declare-fun y () Int)
(assert (< y (+ x 1)))
%@0%stats -%(declare-fun x () Int)
(declare-fun y () Int)
(assert (let ((x y) (y x)) (< x (+ y 1))))%commands 3
declarations 2
assertions 1
checks 0
nodes 5
%@0%rewrite -%(assert (forall ((x Bool)) (let ((y x)) (exists ((x Bool)) (xor x y)))))%(assert (forall ((x Bool)) (exists ((FV0 Bool)) (xor FV0 x))))
%@0%rewrite -%(define-fun f ((a Bool)) Bool (exists ((x Bool)) (xor x a)))(assert (forall ((x Bool)) (f x)))%(assert (forall ((x Bool)) (exists ((FV0 Bool)) (xor FV0 x))))
%@0%rewrite -%(declare-fun x () Int)
(assert (< x (+ 170141183460469231731687303715884105727 1)))
%(declare-fun x () Int)
(assert (< x (+ 170141183460469231731687303715884105727 1)))
%@0%rewrite -%(declare-fun x () Int)
(assert (< x (- 170141183460469231731687303715884105727)))
%(declare-fun x () Int)
(assert (< x (- 170141183460469231731687303715884105727)))
%@0%rewrite -%(declare-fun u () (_ BitVec 64))
(declare-fun v () (_ BitVec 64))
(assert (= (concat u v) (concat u v)))
%(declare-fun u () (_ BitVec 64))
(declare-fun v () (_ BitVec 64))
(assert (= (concat u v) (concat u v)))
%@0%rewrite --passes prenex -%(declare-fun a () Bool)
(declare-fun b () Bool)
(assert (and (exists ((x Bool)) (or x a)) (forall ((x Bool)) (xor x b))))
%(declare-fun a () Bool)
(declare-fun b () Bool)
(assert (exists ((FV0 Bool)) (forall ((FV1 Bool)) (and (or FV0 a) (or (and FV1 (not b)) (and (not FV1) b))))))
%@0%rewrite --passes shannon -%(declare-fun a () Bool)
(declare-fun b () Bool)
(assert (exists ((x Bool)) (xor x a)))
%(declare-fun a () Bool)
(declare-fun b () Bool)
(assert (or (xor true a) (xor false a)))
%@0%rewrite --passes selfsub -%(declare-fun a () Bool)
(declare-fun b () Bool)
(assert (exists ((x Bool)) (xor x a)))
%(declare-fun a () Bool)
(declare-fun b () Bool)
(assert (xor (xor true a) a))
%@0%rewrite --passes aig -%(declare-fun a () Bool)
(declare-fun b () Bool)
(assert (or a b))
%(declare-fun a () Bool)
(declare-fun b () Bool)
(assert (not (and (not a) (not b))))
%@0%rewrite --passes simplify -%(declare-fun x () (_ BitVec 8))
(declare-fun y () Int)
(assert (= (bvudiv #x05 #x00) x))
(assert (= y (div 7 0)))
(check-sat)
%(declare-fun x () (_ BitVec 8))
(declare-fun y () Int)
(assert (= #xff x))
(assert (= y (div 7 0)))
(check-sat)
%@0%rewrite --passes simplify -%(declare-fun x () Int)
(declare-fun p () Bool)
(assert (< (+ 1 x (- 1)) (* x 0)))
(assert (and p (or (not p) p p)))
(assert (< x (+ 170141183460469231731687303715884105727 1)))
%(declare-fun x () Int)
(declare-fun p () Bool)
(assert (< x 0))
(assert p)
(assert (< x (+ 170141183460469231731687303715884105727 1)))
%@0%rewrite --passes rules -%(declare-fun p () Bool)
(declare-fun q () Bool)
(declare-fun v () (_ BitVec 8))
(declare-fun w () (_ BitVec 8))
(assert (= (bvurem v #x08) w))
(assert (= (bvudiv v #x01) w))
(assert (and p (or q p)))
%(declare-fun p () Bool)
(declare-fun q () Bool)
(declare-fun v () (_ BitVec 8))
(declare-fun w () (_ BitVec 8))
(assert (= (bvand v #x07) w))
(assert (= (bvudiv v #x01) w))
(assert p)
%@0%rewrite --passes reads -%(declare-fun m () (Array Int Int))
(declare-fun i () Int)
(declare-fun y () Int)
(declare-fun z () Int)
(assert (= (select (store (store m 1 y) i z) 1) 0))
%(declare-fun m () (Array Int Int))
(declare-fun i () Int)
(declare-fun y () Int)
(declare-fun z () Int)
(assert (= (ite (= i 1) z y) 0))
%@0%rewrite --passes simplify -%(declare-fun p () Bool)
(declare-fun q () Bool)
(declare-fun x () Int)
(declare-fun y () Int)
(declare-fun v () (_ BitVec 8))
(declare-fun w () (_ BitVec 8))
(declare-fun m () (Array Int Int))
(assert (not (not p)))
(assert (or p q p false))
(assert (and p q (not p)))
(assert (xor p true))
(assert (=> p false))
(assert (= false (not p)))
(assert (distinct p q (not p)))
(assert (ite p false true))
(assert (< (- x x) (- (- y))))
(assert (= (* 2 x 3) (+ x 0)))
(assert (= (div x 1) (mod y (- 1))))
(assert (<= x x))
(assert (= (bvand v #xff) (bvor w #x00)))
(assert (= (bvxor v v) w))
(assert (= (bvmul v #x01) (bvsub w #x00)))
(assert (= (bvurem v #x00) (bvudiv w #x00)))
(assert (= (bvshl v #x00) (bvnot (bvnot w))))
(assert (= ((_ extract 7 0) v) ((_ rotate_left 0) w)))
(assert (= (bvcomp v v) ((_ extract 0 0) w)))
(assert (= (select (store (store m 1 x) 2 y) 1) (select ((as const (Array Int Int)) 7) x)))
(assert (= (store (store m x 1) x 2) (store m y (select m y))))
(assert (exists ((b Bool) (c Bool)) (or c p)))
(assert (forall ((b Bool)) p))
(assert (bvult v v))
(assert (= (bvadd #xff #x01) (concat #x0 #xf)))
%(declare-fun p () Bool)
(declare-fun q () Bool)
(declare-fun x () Int)
(declare-fun y () Int)
(declare-fun v () (_ BitVec 8))
(declare-fun w () (_ BitVec 8))
(declare-fun m () (Array Int Int))
(assert p)
(assert (or p q))
(assert false)
(assert (not p))
(assert (not p))
(assert p)
(assert false)
(assert (not p))
(assert (< 0 y))
(assert (= (* x 6) x))
(assert (= x 0))
(assert true)
(assert (= v w))
(assert (= #x00 w))
(assert (= v w))
(assert (= v #xff))
(assert (= v w))
(assert (= v w))
(assert (= #b1 ((_ extract 0 0) w)))
(assert (= x 7))
(assert (= (store m x 2) m))
(assert (exists ((c Bool)) (or c p)))
(assert p)
(assert false)
(assert false)
%@0%rewrite --passes reads -%(declare-fun p () Bool)
(declare-fun q () Bool)
(declare-fun x () Int)
(declare-fun y () Int)
(declare-fun v () (_ BitVec 8))
(declare-fun w () (_ BitVec 8))
(declare-fun m () (Array Int Int))
(assert (= (select (store (store m 1 x) 2 y) 1) (- (select ((as const (Array Int Int)) 5) y))))
(assert (forall ((b Bool)) (= (select (store m x y) 1) 0)))
(assert (= (select (store (store m x 1) y 2) y) 3))
(assert (= (select (store (store m x 1) y 2) 3) 3))
%(declare-fun p () Bool)
(declare-fun q () Bool)
(declare-fun x () Int)
(declare-fun y () Int)
(declare-fun v () (_ BitVec 8))
(declare-fun w () (_ BitVec 8))
(declare-fun m () (Array Int Int))
(assert (= x (- 5)))
(assert (forall ((b Bool)) (= (ite (= x 1) y (select m 1)) 0)))
(assert (= 2 3))
(assert (= (ite (= y 3) 2 (ite (= x 3) 1 (select m 3))) 3))
%@0%rewrite --passes cnf -%(declare-fun a () Bool)
(declare-fun b () Bool)
(declare-fun c () Bool)
(declare-fun d () Bool)
(assert (= (and a b) (or c d)))
(declare-fun FV0 () Bool)
(check-sat)
%(declare-fun a () Bool)
(declare-fun b () Bool)
(declare-fun c () Bool)
(declare-fun d () Bool)
(declare-fun FV1 () Bool)
(declare-fun FV2 () Bool)
(declare-fun FV3 () Bool)
(assert (or (not FV1) a))
(assert (or (not FV1) b))
(assert (or FV1 (not a) (not b)))
(assert (or (not FV2) c d))
(assert (or FV2 (not c)))
(assert (or FV2 (not d)))
(assert (or (not FV3) (not FV1) FV2))
(assert (or (not FV3) FV1 (not FV2)))
(assert FV3)
(declare-fun FV0 () Bool)
(check-sat)
%@0%rewrite --passes simplify,ite,cnf -%(set-info :source |written by hand; x: |)
(set-logic QF_BV)
(declare-fun p () Bool)
(declare-fun x () (_ BitVec 8))
(declare-fun y () (_ BitVec 8))
(assert (let ((.def_0 (ite p x y))) (let ((.def_1 (bvult .def_0 (_ bv3 8)))) .def_1)))
(check-sat)
(exit)
 ]] not examined
%(set-info :source |written by hand; x: |)
(set-logic QF_BV)
(declare-fun p () Bool)
(declare-fun x () (_ BitVec 8))
(declare-fun y () (_ BitVec 8))
(declare-fun FV0 () (_ BitVec 8))
(declare-fun FV1 () Bool)
(assert (or (not FV1) (not p) (= FV0 x)))
(assert FV1)
(declare-fun FV2 () Bool)
(assert (or (not FV2) p (= FV0 y)))
(assert FV2)
(assert (bvult FV0 #x03))
(check-sat)
(exit)
%@0%rewrite --passes cnf -%(set-option :global-declarations true)
(push 1)
(declare-fun p () Bool)
(assert (not (and p p)))
(pop 1)
(assert p)
(check-sat)
%(set-option :global-declarations true)
(push 1)
(declare-fun p () Bool)
(declare-fun FV0 () Bool)
(assert (or FV0 (not p) (not p)))
(assert (not FV0))
(pop 1)
(assert p)
(check-sat)
%@0%rewrite --passes cnf -%(declare-fun p () Bool)
(declare-fun q () Bool)
(declare-fun r () Bool)
(declare-fun x () Int)
(assert (=> (not (xor p q)) (distinct p q r)))
(assert (ite p (and q (not true)) (or (not (and p q)) false)))
(assert (distinct p (and q r)))
(assert (or p (not q) (< x 1)))
(assert (not (=> p (or q r))))
(assert (or (exists ((b Bool)) (and b p)) (and p (exists ((b Bool)) (and b p)))))
%(declare-fun p () Bool)
(declare-fun q () Bool)
(declare-fun r () Bool)
(declare-fun x () Int)
(declare-fun FV0 () Bool)
(declare-fun FV1 () Bool)
(declare-fun FV2 () Bool)
(assert (or (not FV0) p q))
(assert (or (not FV0) (not p) (not q)))
(assert (not FV1))
(assert (or (not FV2) FV0 FV1))
(assert FV2)
(declare-fun FV3 () Bool)
(declare-fun FV4 () Bool)
(declare-fun FV5 () Bool)
(declare-fun FV6 () Bool)
(assert (or (not FV3) q))
(assert (or (not FV3) false))
(assert (or FV4 (not p) (not q)))
(assert (or (not FV5) (not FV4) false))
(assert (or (not FV6) (not p) FV3))
(assert (or (not FV6) p FV5))
(assert FV6)
(declare-fun FV7 () Bool)
(declare-fun FV8 () Bool)
(assert (or (not FV7) q))
(assert (or (not FV7) r))
(assert (or FV7 (not q) (not r)))
(assert (or (not FV8) p FV7))
(assert (or (not FV8) (not p) (not FV7)))
(assert FV8)
(assert (or p (not q) (< x 1)))
(declare-fun FV9 () Bool)
(declare-fun FV10 () Bool)
(assert (or FV9 (not q)))
(assert (or FV9 (not r)))
(assert (or FV10 p))
(assert (or FV10 (not FV9)))
(assert (not FV10))
(declare-fun FV11 () Bool)
(declare-fun FV12 () Bool)
(assert (or (not FV11) p))
(assert (or (not FV11) (exists ((b Bool)) (and b p))))
(assert (or (not FV12) (exists ((b Bool)) (and b p)) FV11))
(assert FV12)
%@0%rewrite --passes ite -%(declare-fun p () Bool)
(declare-fun q () Bool)
(declare-fun x () Int)
(declare-fun y () Int)
(declare-fun z () Int)
(assert (= (ite p x y) (ite (= (ite q x 0) 1) z (ite q x 0))))
(assert (forall ((b Bool)) (= (ite b x y) 0)))
(assert (ite p q (not q)))
%(declare-fun p () Bool)
(declare-fun q () Bool)
(declare-fun x () Int)
(declare-fun y () Int)
(declare-fun z () Int)
(declare-fun FV0 () Int)
(declare-fun FV1 () Int)
(declare-fun FV2 () Int)
(assert (=> p (= FV0 x)))
(assert (=> (not p) (= FV0 y)))
(assert (=> q (= FV1 x)))
(assert (=> (not q) (= FV1 0)))
(assert (=> (= FV1 1) (= FV2 z)))
(assert (=> (not (= FV1 1)) (= FV2 FV1)))
(assert (= FV0 FV2))
(assert (forall ((b Bool)) (= (ite b x y) 0)))
(assert (ite p q (not q)))
%@0%rewrite --passes ackermann -%(declare-fun a () (Array Bool Int))
(declare-fun b () (Array Bool Int))
(declare-fun f ((Array Bool Int)) Int)
(assert (= (f a) 0))
(assert (distinct (f b) 0))
(check-sat)
%(declare-fun a () (Array Bool Int))
(declare-fun b () (Array Bool Int))
(declare-fun FV0 () Int)
(assert (= FV0 0))
(declare-fun FV1 () Int)
(assert (=> (= a b) (= FV0 FV1)))
(assert (distinct FV1 0))
(check-sat)
%@0%rewrite --passes ackermann -%(declare-sort U 0)
(declare-fun f (U) U)
(declare-fun x () U)
(declare-fun y () U)
(assert (= (f (f x)) x))
(assert (= (f y) x))
(check-sat)
%(declare-sort U 0)
(declare-fun x () U)
(declare-fun y () U)
(declare-fun FV0 () U)
(declare-fun FV1 () U)
(assert (=> (= x FV0) (= FV0 FV1)))
(assert (= FV1 x))
(declare-fun FV2 () U)
(assert (=> (= x y) (= FV0 FV2)))
(assert (=> (= FV0 y) (= FV1 FV2)))
(assert (= FV2 x))
(check-sat)
%@0%rewrite --passes ackermann -%(declare-fun g (Int) Int)
(assert (= (g 1) 2))
(push 1)
(assert (= (g 2) 3))
(check-sat)
(pop 1)
(assert (= (g 2) 4))
(check-sat)
%(declare-fun FV0 () Int)
(assert (= FV0 2))
(push 1)
(declare-fun FV1 () Int)
(assert (=> (= 1 2) (= FV0 FV1)))
(assert (= FV1 3))
(check-sat)
(pop 1)
(declare-fun FV2 () Int)
(assert (=> (= 1 2) (= FV0 FV2)))
(assert (= FV2 4))
(check-sat)
%@8%rewrite --passes ackermann -%(declare-fun g (Bool) Bool) (assert (forall ((z Bool)) (= (g z) z)))%%smtrw: pass refused: 50 QuantifiedUse in assertion 1
@0%stats -%(declare-fun a () Bool)
(declare-fun b () Bool)
(assert (or a b))
(check-sat-assuming ((not a) b))
%commands 4
declarations 2
assertions 1
checks 1
nodes 3
%@1%rewrite -%(push 1)
(pop 2)
%%smtrw: script refused: 36 PopTooFar at command 2, line 2, byte 9
@1%rewrite -%(declare-fun x () Int)
(assert (< x (- 170141183460469231731687303715884105728)))
%%smtrw: script refused: 37 NumberLimit at command 2, line 2, byte 39
@1%rewrite -%(declare-fun u () (_ BitVec 65))
(declare-fun v () (_ BitVec 64))
(assert (= (concat u v) (concat u v)))
%%smtrw: script refused: 22 WidthLimit at command 3, line 3, byte 77
@1%rewrite -%(assert a%%smtrw: script refused: 13 Unbalanced at command 0, line 1, byte 9
@1%rewrite -%)%%smtrw: script refused: 13 Unbalanced at command 0, line 1, byte 0
@1%rewrite -%007%%smtrw: script refused: 11 BadToken at command 0, line 1, byte 0
@1%rewrite -%[%%smtrw: script refused: 10 BadByte at command 0, line 1, byte 0
@1%rewrite -%|a\\b|%%smtrw: script refused: 10 BadByte at command 0, line 1, byte 2
@1%rewrite -%(echo \"x)%%smtrw: script refused: 12 OpenText at command 0, line 1, byte 6
@1%rewrite -%(declare-fun a () Bool)
(check-sat-assuming (a (not (not a))))
%%smtrw: script refused: 32 BadForm at command 2, line 2, byte 47
@1%rewrite -%(set-option :global-declarations true)
(push 1)
(declare-fun p () Bool)
(assert (not (and p p)))
(pop 1)
(declare-fun p () Bool)
(check-sat)
%%smtrw: script refused: 34 Redeclared at command 6, line 6, byte 118
@0%rewrite -%(set-info :source |written by hand; x: |)
(set-logic QF_BV)
(declare-fun p () Bool)
(declare-fun x () (_ BitVec 8))
(declare-fun y () (_ BitVec 8))
(assert (let ((.def_0 (ite p x y))) (let ((.def_1 (bvult .def_0 (_ bv3 8)))) .def_1)))
(check-sat)
(exit)
 ]] not examined
%(set-info :source |written by hand; x: |)
(set-logic QF_BV)
(declare-fun p () Bool)
(declare-fun x () (_ BitVec 8))
(declare-fun y () (_ BitVec 8))
(assert (bvult (ite p x y) #x03))
(check-sat)
(exit)
%@0%rewrite --passes nnf,aig --layout=dag -%(declare-fun a () Bool)(assert (not (=> a (xor a a))))%(declare-fun a () Bool)
(assert (let ((.def_0 (not a))) (let ((.def_1 (and a .def_0))) (let ((.def_2 (not .def_1))) (let ((.def_3 (and .def_0 a))) (let ((.def_4 (not .def_3))) (let ((.def_5 (and .def_2 .def_4))) (let ((.def_6 (and a .def_5))) .def_6))))))))
%@2%print -%%%smtrw: usage: word 1: UnknownCommand
@2%rewrite --passes=nnf%%%smtrw: usage: word 3: Missing
@2%rewrite --passes nnf,foo -%%%smtrw: usage: word 3: BadPass
@2%rewrite --passes rules,cnf -%%%smtrw: usage: word 3: AfterRules
@2%rewrite --passes rules,ackermann -%%%smtrw: usage: word 3: AfterRules
@2%rewrite --passes=cnf%%%smtrw: usage: word 3: Missing
@2%rewrite --passes=nnf --passes=nnf -%%%smtrw: usage: word 3: Repeated
@2%rewrite --layout wide -%%%smtrw: usage: word 3: BadValue
@2%stats - -%%%smtrw: usage: word 3: Extra
@2%rewrite --fast -%%%smtrw: usage: word 2: BadOption
";

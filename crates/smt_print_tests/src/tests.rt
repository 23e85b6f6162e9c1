//! The texts of terms, symbols and commands, and of terms that are far larger as trees than as nodes. Expected texts were
//! written by hand.

mod commands;
mod terms;

use smt_terms::Op;
use std::test::Fail;
use terms::{assert_lengths, assert_named, assert_printed, assert_shared, assert_written};

// An operator, the letters of its operands, and its text.
const WRITTEN: [(Op, &[u8], &[u8]); 57] = [
    (Op::Truth(true), b"", b"true"),
    (Op::Truth(false), b"", b"false"),
    (Op::Whole(0), b"", b"0"),
    (Op::Whole(1234567890), b"", b"1234567890"),
    (Op::Whole(-5), b"", b"(- 5)"),
    (Op::Bits { width: 1, bits: 1 }, b"", b"#b1"),
    (Op::Bits { width: 4, bits: 15 }, b"", b"#xf"),
    (Op::Bits { width: 5, bits: 5 }, b"", b"#b00101"),
    (Op::Bits { width: 8, bits: 10 }, b"", b"#x0a"),
    (Op::Not, b"a", b"(not a)"),
    (Op::And, b"ab", b"(and a b)"),
    (Op::Or, b"abp", b"(or a b p)"),
    (Op::Xor, b"ab", b"(xor a b)"),
    (Op::Implies, b"ab", b"(=> a b)"),
    (Op::Equal, b"mn", b"(= m n)"),
    (Op::Distinct, b"mnm", b"(distinct m n m)"),
    (Op::Ite, b"amn", b"(ite a m n)"),
    (Op::Neg, b"m", b"(- m)"),
    (Op::Sub, b"mn", b"(- m n)"),
    (Op::Add, b"mnm", b"(+ m n m)"),
    (Op::Mul, b"mn", b"(* m n)"),
    (Op::Div, b"mn", b"(div m n)"),
    (Op::Mod, b"mn", b"(mod m n)"),
    (Op::Abs, b"m", b"(abs m)"),
    (Op::Le, b"mn", b"(<= m n)"),
    (Op::Lt, b"mn", b"(< m n)"),
    (Op::Concat, b"vw", b"(concat v w)"),
    (
        Op::Extract { high: 6, low: 2 },
        b"v",
        b"((_ extract 6 2) v)",
    ),
    (Op::BvNot, b"v", b"(bvnot v)"),
    (Op::BvNeg, b"v", b"(bvneg v)"),
    (Op::BvAnd, b"vw", b"(bvand v w)"),
    (Op::BvOr, b"vw", b"(bvor v w)"),
    (Op::BvXor, b"vw", b"(bvxor v w)"),
    (Op::BvAdd, b"vw", b"(bvadd v w)"),
    (Op::BvMul, b"vw", b"(bvmul v w)"),
    (Op::BvSub, b"vw", b"(bvsub v w)"),
    (Op::BvUdiv, b"vw", b"(bvudiv v w)"),
    (Op::BvUrem, b"vw", b"(bvurem v w)"),
    (Op::BvSdiv, b"vw", b"(bvsdiv v w)"),
    (Op::BvSrem, b"vw", b"(bvsrem v w)"),
    (Op::BvSmod, b"vw", b"(bvsmod v w)"),
    (Op::BvShl, b"vw", b"(bvshl v w)"),
    (Op::BvLshr, b"vw", b"(bvlshr v w)"),
    (Op::BvAshr, b"vw", b"(bvashr v w)"),
    (Op::BvComp, b"vw", b"(bvcomp v w)"),
    (Op::BvUlt, b"vw", b"(bvult v w)"),
    (Op::BvUle, b"vw", b"(bvule v w)"),
    (Op::BvSlt, b"vw", b"(bvslt v w)"),
    (Op::BvSle, b"vw", b"(bvsle v w)"),
    (Op::ZeroExt(3), b"v", b"((_ zero_extend 3) v)"),
    (Op::SignExt(0), b"v", b"((_ sign_extend 0) v)"),
    (Op::RotL(3), b"v", b"((_ rotate_left 3) v)"),
    (Op::RotR(7), b"v", b"((_ rotate_right 7) v)"),
    (Op::Select, b"tm", b"(select t m)"),
    (Op::Store, b"tma", b"(store t m a)"),
    (Op::Forall, b"pa", b"(forall ((p Bool)) a)"),
    (
        Op::Exists,
        b"pva",
        b"(exists ((p Bool) (v (_ BitVec 8))) a)",
    ),
];

const NAMING: [(Op, &[u8], &[u8]); 2] = [
    (Op::Equal, b"tc", b"(= t ((as const (Array Int Bool)) a))"),
    (Op::Not, b"f", b"(not (f m))"),
];

// A symbol, and its text.
const NAMED: [(&[u8], &[u8]); 11] = [
    (b"x", b"x"),
    (b"~!@$%^&*_-+=<>.?/9", b"~!@$%^&*_-+=<>.?/9"),
    (b"", b"||"),
    (b"a b", b"|a b|"),
    (b"9x", b"|9x|"),
    (b"(", b"|(|"),
    (b"let", b"|let|"),
    (b"_", b"|_|"),
    (b"assert", b"|assert|"),
    (b"lets", b"lets"),
    (b"bvadd", b"bvadd"),
];

// Lines, each an operator and the letters of its operands.
const SHARED: [(Op, &[u8]); 4] = [
    (Op::Whole(-5), b""),
    (Op::Equal, b"AA"),
    (Op::And, b"aB"),
    (Op::And, b"CC"),
];

const QUANTIFIED: [(Op, &[u8]); 4] = [
    (Op::Not, b"p"),
    (Op::And, b"AA"),
    (Op::Forall, b"pB"),
    (Op::And, b"ACC"),
];

#[test]
fn each_operator_has_its_name(rt: HostRuntime) -> Result<(), Fail> {
    assert_written(&rt, rt.alloc(), &WRITTEN)?;
    Ok(())
}

#[test]
fn heads_that_name_sorts_and_symbols(rt: HostRuntime) -> Result<(), Fail> {
    assert_written(&rt, rt.alloc(), &NAMING)?;
    Ok(())
}

#[test]
fn symbols_have_bars_where_they_need_them(rt: HostRuntime) -> Result<(), Fail> {
    assert_named(&rt, rt.alloc(), &NAMED)?;
    Ok(())
}

#[test]
fn a_shared_term_stands_once_in_a_dag(rt: HostRuntime) -> Result<(), Fail> {
    let tree = b"(and (and a (= (- 5) (- 5))) (and a (= (- 5) (- 5))))";
    let dag =
        b"(let ((.def_0 (= (- 5) (- 5)))) (let ((.def_1 (and a .def_0))) (let ((.def_2 (and .def_1 .def_1))) .def_2)))";
    assert_printed(&rt, rt.alloc(), &SHARED, tree, dag)?;
    Ok(())
}

#[test]
fn definitions_stay_inside_their_quantifier(rt: HostRuntime) -> Result<(), Fail> {
    let tree =
        b"(and (not p) (forall ((p Bool)) (and (not p) (not p))) (forall ((p Bool)) (and (not p) (not p))))";
    let dag =
        b"(let ((.def_0 (not p))) (let ((.def_1 (forall ((p Bool)) (let ((.def_0 (not p))) (let ((.def_1 (and .def_0 .def_0))) .def_1))))) (let ((.def_2 (and .def_0 .def_1 .def_1))) .def_2)))";
    assert_printed(&rt, rt.alloc(), &QUANTIFIED, tree, dag)?;
    Ok(())
}

#[test]
fn a_hundred_shared_levels(rt: HostRuntime) -> Result<(), Fail> {
    let begin =
        b"(let ((.def_0 (or p a))) (let ((.def_1 (or p b))) (let ((.def_2 (and .def_0 .def_1))) (let ((.def_3 (or .def_2 a))) ";
    assert_shared(&rt, rt.alloc(), 100, begin, 11_038)?;
    Ok(())
}

#[test]
fn a_million_nested_negations(rt: HostRuntime) -> Result<(), Fail> {
    assert_lengths(&rt, rt.alloc(), 1_000_000, 6_000_001, 39_777_781)?;
    Ok(())
}

//! Large scripts and models' texts.

use super::{ROOM, answer, input_of};
use smt_io::MemSink;
use std::alloc::{AllocError, Global};
use std::fmt::Write;
use std::process::Abort;
use std::test::Fail;

/// Runs the program on a script, and tells whether it ends with this number, writes at most so many bytes, and says this.
fn ends(
    rt: &impl Abort,
    alloc: Global,
    words: &str,
    script: &str,
    number: u8,
    most: usize,
    said: &str,
) -> Result<(), Fail> {
    let mut inputs = input_of(alloc, script.as_bytes(), 65_536)?;
    let mut out = MemSink::new(alloc, 65_536, ROOM)?;
    let mut err = MemSink::new(alloc, 65_536, ROOM)?;
    let status = answer(alloc, words, &mut inputs, &mut out, &mut err)?;
    assert!(rt; status.number() == number);
    assert!(rt; out.bytes().len() <= most);
    assert!(rt; err.bytes() == said.as_bytes());
    Ok(())
}

/// Appends a part so many times.
fn repeat(text: &mut String, part: &str, times: u32) -> Result<(), AllocError> {
    for _ in 0..times {
        text.push_str(part)?;
    }
    Ok(())
}

/// A script that begins and ends so, with two parts so many times each around what stands within.
fn nested(
    alloc: Global,
    begin: &str,
    open: &str,
    times: u32,
    within: &str,
    close: &str,
    end: &str,
) -> Result<String, AllocError> {
    let mut text = String::from_str(alloc, begin)?;
    repeat(&mut text, open, times)?;
    text.push_str(within)?;
    repeat(&mut text, close, times)?;
    text.push_str(end)?;
    Ok(text)
}

const DECLARED: &str = "(declare-fun a () Bool)(assert ";

#[test]
fn a_million_negations(rt: HostRuntime) -> Result<(), Fail> {
    let script = nested(rt.alloc(), DECLARED, "(not ", 1_000_000, "a", ")", ")")?;
    ends(
        &rt,
        rt.alloc(),
        "rewrite --passes=nnf -",
        script.as_str(),
        0,
        40,
        "",
    )?;
    ends(
        &rt,
        rt.alloc(),
        "rewrite -",
        script.as_str(),
        0,
        6_000_040,
        "",
    )
}

#[test]
fn lets_and_sorts_are_nested_deep(rt: HostRuntime) -> Result<(), Fail> {
    let script = nested(
        rt.alloc(),
        DECLARED,
        "(let ((a (not a))) ",
        100_000,
        "a",
        ")",
        ")",
    )?;
    ends(
        &rt,
        rt.alloc(),
        "rewrite -",
        script.as_str(),
        0,
        600_040,
        "",
    )?;
    let script = nested(
        rt.alloc(),
        "(declare-fun f () ",
        "(Array Int ",
        1000,
        "Int",
        ")",
        ")",
    )?;
    ends(&rt, rt.alloc(), "rewrite -", script.as_str(), 0, 12_040, "")
}

#[test]
fn a_million_operands(rt: HostRuntime) -> Result<(), Fail> {
    let script = nested(rt.alloc(), DECLARED, "", 0, "(and", "", "")?;
    let script = nested(rt.alloc(), script.as_str(), " a", 1_000_000, "))", "", "")?;
    ends(
        &rt,
        rt.alloc(),
        "rewrite -",
        script.as_str(),
        0,
        2_000_050,
        "",
    )
}

#[test]
fn numbers_have_limits(rt: HostRuntime) -> Result<(), Fail> {
    ends(&rt, rt.alloc(), "rewrite -", "(push 1000000)", 0, 15, "")?;
    let said = "smtrw: script refused: 37 NumberLimit at command 1, line 1, byte 6\n";
    ends(&rt, rt.alloc(), "rewrite -", "(push 1000001)", 1, 0, said)?;
    let script = nested(
        rt.alloc(),
        "(declare-fun x () Int)(assert (< x ",
        "9",
        1_000_000,
        "",
        "",
        "))",
    )?;
    let said = "smtrw: script refused: 37 NumberLimit at command 2, line 1, byte 35\n";
    ends(&rt, rt.alloc(), "rewrite -", script.as_str(), 1, 0, said)?;
    let script = nested(
        rt.alloc(),
        "(assert (= #xf #x",
        "f",
        1_000_000,
        "",
        "",
        "))",
    )?;
    let said = "smtrw: script refused: 22 WidthLimit at command 1, line 1, byte 15\n";
    ends(&rt, rt.alloc(), "rewrite -", script.as_str(), 1, 0, said)
}

/// A script with a `let` of so many names.
fn wide_let(alloc: Global, names: u32) -> Result<String, AllocError> {
    let mut text = String::from_str(alloc, "(declare-fun a () Bool)(assert (let (")?;
    for i in 0..names {
        write!(text, "(x{i} a)")?;
    }
    text.push_str(") x7))")?;
    Ok(text)
}

/// A script with so many nested lets, each over the one before twice, up to its last parenthesis.
fn nested_lets(alloc: Global, lets: u32) -> Result<String, AllocError> {
    let mut text = String::from_str(
        alloc,
        "(declare-fun p () Bool)\n(declare-fun a () Bool)\n(declare-fun b () Bool)\n(assert (let ((x1 (and (or p a) (or p b)))) ",
    )?;
    let mut last = 1;
    for next in 2..=lets {
        write!(
            text,
            "(let ((x{next} (and (or x{last} a) (or x{last} b)))) "
        )?;
        last = next;
    }
    write!(text, "x{last}")?;
    repeat(&mut text, ")", lets)?;
    Ok(text)
}

#[test]
fn names_and_shared_terms(rt: HostRuntime) -> Result<(), Fail> {
    let script = wide_let(rt.alloc(), 200_000)?;
    ends(&rt, rt.alloc(), "rewrite -", script.as_str(), 0, 40, "")?;
    let mut script = nested_lets(rt.alloc(), 100)?;
    let said = "smtrw: script refused: 13 Unbalanced at command 0, line 4, byte 4254\n";
    ends(&rt, rt.alloc(), "rewrite -", script.as_str(), 1, 0, said)?;
    script.push(')')?;
    let end = nested(rt.alloc(), ".def_299", ")", 301, "\n", "", "")?;
    sends(&rt, rt.alloc(), script.as_str(), SHARED, end.as_str())
}

/// How the dag of a hundred nested lets begins.
const SHARED: &str = "(declare-fun p () Bool)
(declare-fun a () Bool)
(declare-fun b () Bool)
(assert (let ((.def_0 (or p a))) (let ((.def_1 (or p b))) (let ((.def_2 (and .def_0 .def_1))) (let ((.def_3 (or .def_2 a))) ";

/// Brings a script into negation normal form, as a dag, and tells whether what is written begins and ends so.
fn sends(rt: &impl Abort, alloc: Global, script: &str, begin: &str, end: &str) -> Result<(), Fail> {
    let mut inputs = input_of(alloc, script.as_bytes(), 65_536)?;
    let mut out = MemSink::new(alloc, 65_536, ROOM)?;
    let mut err = MemSink::new(alloc, 65_536, ROOM)?;
    let words = "rewrite --passes=nnf --layout=dag -";
    let status = answer(alloc, words, &mut inputs, &mut out, &mut err)?;
    assert!(rt; status.number() == 0);
    assert!(rt; out.bytes().starts_with(begin.as_bytes()));
    assert!(rt; out.bytes().ends_with(end.as_bytes()));
    Ok(())
}

#[test]
fn the_longest_script_is_read(rt: HostRuntime) -> Result<(), Fail> {
    let mut script = nested(rt.alloc(), "", "        ", 8_388_608, "", "", "")?;
    ends(&rt, rt.alloc(), "rewrite -", script.as_str(), 0, 0, "")?;
    script.push(' ')?;
    let said = "smtrw: script refused: 2 TooLong at command 0, line 0, byte 67108864\n";
    ends(&rt, rt.alloc(), "rewrite -", script.as_str(), 1, 0, said)
}

/// Runs the program on these texts, and tells whether it ends well and writes this.
fn writes(
    rt: &impl Abort,
    alloc: Global,
    words: &str,
    script: &str,
    model: &str,
    text: &str,
) -> Result<(), Fail> {
    let mut inputs = input_of(alloc, script.as_bytes(), 65_536)?;
    inputs.add("model", model.as_bytes())?;
    let mut out = MemSink::new(alloc, 65_536, ROOM)?;
    let mut err = MemSink::new(alloc, 65_536, ROOM)?;
    let status = answer(alloc, words, &mut inputs, &mut out, &mut err)?;
    assert!(rt; status.number() == 0);
    assert!(rt; out.bytes() == text.as_bytes());
    Ok(())
}

/// Tells whether a script is printed as it stands.
fn script_stands(rt: &impl Abort, alloc: Global, script: &str) -> Result<(), Fail> {
    writes(rt, alloc, "rewrite -", script, "", script)
}

/// Tells whether a model's text at the only check of a script is printed as it stands.
fn model_stands(rt: &impl Abort, alloc: Global, script: &str, model: &str) -> Result<(), Fail> {
    writes(rt, alloc, "translate - model", script, model, model)
}

#[test]
fn a_passed_command_is_nested_deep(rt: HostRuntime) -> Result<(), Fail> {
    let script = nested(
        rt.alloc(),
        "(set-info :nested ",
        "(",
        50_000,
        "a",
        ")",
        ")\n",
    )?;
    script_stands(&rt, rt.alloc(), script.as_str())
}

const ASSERTED: &str = "(declare-fun a () Bool)\n(assert ";

#[test]
fn nested_formulas_stand(rt: HostRuntime) -> Result<(), Fail> {
    let script = nested(rt.alloc(), ASSERTED, "(not ", 100_000, "a", ")", ")\n")?;
    script_stands(&rt, rt.alloc(), script.as_str())?;
    let script = nested(
        rt.alloc(),
        ASSERTED,
        "(ite a (not a) ",
        100_000,
        "a",
        ")",
        ")\n",
    )?;
    script_stands(&rt, rt.alloc(), script.as_str())
}

/// A model's text with a function of so many rows.
fn many_rows(alloc: Global, rows: u32) -> Result<String, AllocError> {
    let mut text = String::from_str(alloc, "(\n(define-fun f ((x!0 Int)) Int ")?;
    for i in 0..rows {
        write!(text, "(ite (= x!0 {i}) 1 ")?;
    }
    text.push('0')?;
    repeat(&mut text, ")", rows)?;
    text.push_str(")\n)\n")?;
    Ok(text)
}

#[test]
fn a_body_of_many_rows_stands(rt: HostRuntime) -> Result<(), Fail> {
    let model = many_rows(rt.alloc(), 100_000)?;
    let script = "(declare-fun f (Int) Int)(check-sat)";
    model_stands(&rt, rt.alloc(), script, model.as_str())
}

/// Appends the sort of arrays of numbers in so many levels.
fn push_sort(text: &mut String, levels: u32) -> Result<(), AllocError> {
    repeat(text, "(Array Int ", levels)?;
    text.push_str("Int")?;
    repeat(text, ")", levels)
}

/// A script with a check of a constant of that sort.
fn array_script(alloc: Global, levels: u32) -> Result<String, AllocError> {
    let mut text = String::from_str(alloc, "(declare-fun m () ")?;
    push_sort(&mut text, levels)?;
    text.push_str(")(check-sat)")?;
    Ok(text)
}

/// A model's text with a value of that sort, which is the same at all indices.
fn array_model(alloc: Global, levels: u32) -> Result<String, AllocError> {
    let mut text = String::from_str(alloc, "(\n(define-fun m () ")?;
    push_sort(&mut text, levels)?;
    text.push(' ')?;
    for outer in 0..levels {
        text.push_str("((as const ")?;
        push_sort(&mut text, levels - outer)?;
        text.push_str(") ")?;
    }
    text.push('7')?;
    repeat(&mut text, ")", levels)?;
    text.push_str(")\n)\n")?;
    Ok(text)
}

#[test]
fn an_array_in_arrays_stands(rt: HostRuntime) -> Result<(), Fail> {
    let script = array_script(rt.alloc(), 200)?;
    let model = array_model(rt.alloc(), 200)?;
    model_stands(&rt, rt.alloc(), script.as_str(), model.as_str())
}

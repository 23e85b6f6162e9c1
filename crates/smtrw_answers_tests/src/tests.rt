//! Words with what they ask for or their first fault, and the line about a file.

use smt_io::MemSink;
use smt_print::Layout;
use smtrw_answers::{Asked, Source, Status, Usage, Why, WordsFault, complain, parse_words};
use std::alloc::{AllocError, Global};
use std::test::Fail;

/// The words of a line, with a blank between each two.
fn words_of(alloc: Global, line: &str) -> Result<Vec<String>, AllocError> {
    let mut words = Vec::new(alloc);
    for word in line.split(' ') {
        words.push(String::from_str(alloc, word)?)?;
    }
    Ok(words)
}

fn has_fault(alloc: Global, line: &str, fault: Usage) -> Result<bool, AllocError> {
    let words = words_of(alloc, line)?;
    match parse_words(alloc, words.as_slice()) {
        Err(WordsFault::Usage(found)) => Ok(found == fault),
        _ => Ok(false),
    }
}

const FAULTS: [(&str, u32, Why); 46] = [
    ("rewrite", 2, Why::Missing),
    ("show 1 2", 1, Why::UnknownCommand),
    ("rewrite a --check=1", 3, Why::BadOption),
    ("rewrite --passes nnf --passes=aig a", 4, Why::Repeated),
    ("rewrite --layout --passes a", 3, Why::BadValue),
    ("rewrite --passes=nnf,foo a", 2, Why::BadPass),
    ("rewrite - -", 3, Why::Extra),
    ("stats a ", 3, Why::BadValue),
    ("stats --layout=dag a", 2, Why::BadOption),
    ("rewrite a --layout", 4, Why::Missing),
    ("translate", 2, Why::Missing),
    ("extend a", 3, Why::Missing),
    ("translate a b --check", 5, Why::Missing),
    ("translate a b --layout tree", 4, Why::BadOption),
    ("extend --check 1 a --check=2 b", 5, Why::Repeated),
    ("translate a b --check 0", 5, Why::BadValue),
    ("translate --check=01 a b", 2, Why::BadValue),
    ("extend --check x a b", 3, Why::BadValue),
    ("extend --check=+1 a b", 2, Why::BadValue),
    ("extend --check 1234567890123456789 a b", 3, Why::BadValue),
    ("translate a  b", 3, Why::BadValue),
    ("translate a b ", 4, Why::BadValue),
    ("translate a b c", 4, Why::Extra),
    ("translate - -", 3, Why::TwoInputs),
    ("extend - a -", 4, Why::Extra),
    ("extend --passes foo a b", 3, Why::BadPass),
    ("translate --passes=rules,ackermann a b", 2, Why::AfterRules),
    ("blast --passes rules -", 3, Why::BadPass),
    ("blast --layout dag -", 2, Why::BadOption),
    ("blast a b", 3, Why::Extra),
    ("blast --check=0 a", 2, Why::BadValue),
    ("unblast --passes=rules,cnf s m", 2, Why::BadPass),
    ("unblast - -", 3, Why::TwoInputs),
    ("unblast s", 3, Why::Missing),
    ("dimacs --passes=rules -", 2, Why::BadPass),
    ("dimacs a b", 3, Why::Extra),
    ("dimacs", 2, Why::Missing),
    ("answer --passes rules,cnf s m", 3, Why::BadPass),
    ("answer - -", 3, Why::TwoInputs),
    ("answer s --check=1", 4, Why::Missing),
    ("demo 5", 3, Why::Missing),
    ("demo 1 0", 3, Why::BadValue),
    ("demo 1 10001", 3, Why::BadValue),
    ("demo 01 1", 2, Why::BadValue),
    ("demo 1 2 3", 4, Why::Extra),
    ("demo -5 1", 2, Why::BadOption),
];

#[test]
fn faults(rt: HostRuntime) -> Result<(), Fail> {
    for (line, word, why) in &FAULTS {
        let fault = Usage {
            word: *word,
            why: *why,
        };
        assert!(rt; has_fault(rt.alloc(), line, fault)?, "{line}");
    }
    Ok(())
}

/// Whether a line asks for so many passes and the layout of a file, which is its word of this number.
fn asks_for(
    alloc: Global,
    line: &str,
    count: usize,
    layout: Layout,
    number: u32,
    name: &str,
) -> Result<bool, AllocError> {
    let words = words_of(alloc, line)?;
    match parse_words(alloc, words.as_slice()) {
        Ok(
            Asked::Rewrite {
                passes,
                layout: found,
                file,
            },
        ) => Ok(
            passes.len() == count && found == layout && file.word == number && file.name == name,
        ),
        _ => Ok(false),
    }
}

const REWRITES: [(&str, usize, Layout, u32, &str); 4] = [
    ("rewrite -", 0, Layout::Tree, 2, "-"),
    (
        "rewrite --layout dag a.smt2 --passes=nnf,aig",
        2,
        Layout::Dag,
        4,
        "a.smt2",
    ),
    (
        "rewrite --passes ackermann --layout=tree -",
        1,
        Layout::Tree,
        5,
        "-",
    ),
    (
        "rewrite a=b --passes nnf --layout dag",
        1,
        Layout::Dag,
        2,
        "a=b",
    ),
];

#[test]
fn rewrites(rt: HostRuntime) -> Result<(), Fail> {
    for (line, count, layout, number, name) in &REWRITES {
        assert!(rt;
            asks_for(rt.alloc(), line, *count, *layout, *number, name)?,
            "{line}"
        );
    }
    Ok(())
}

/// What a line of `translate`, `extend`, `unblast` or `answer` asks for.
struct Carry {
    command: &'static str,
    passes: usize,
    check: u64,
    script: (u32, &'static str),
    model: (u32, &'static str),
}

fn asks_to_carry(alloc: Global, line: &str, carry: &Carry) -> Result<bool, AllocError> {
    let words = words_of(alloc, line)?;
    let (command, carried) = match parse_words(alloc, words.as_slice()) {
        Ok(Asked::Translate(carried)) => ("translate", carried),
        Ok(Asked::Extend(carried)) => ("extend", carried),
        Ok(Asked::Unblast(carried)) => ("unblast", carried),
        Ok(Asked::Answer(carried)) => ("answer", carried),
        _ => return Ok(false),
    };
    Ok(
        command == carry.command
            && carried.passes.len() == carry.passes
            && carried.check == carry.check
            && (carried.script.word, carried.script.name) == carry.script
            && (carried.model.word, carried.model.name) == carry.model,
    )
}

const CARRIES: [(&str, Carry); 6] = [
    (
        "translate a -",
        Carry {
            command: "translate",
            passes: 0,
            check: 1,
            script: (2, "a"),
            model: (3, "-"),
        },
    ),
    (
        "translate --check 12 a --passes ite,cnf,rules a",
        Carry {
            command: "translate",
            passes: 3,
            check: 12,
            script: (4, "a"),
            model: (7, "a"),
        },
    ),
    (
        "extend - m --check=2",
        Carry {
            command: "extend",
            passes: 0,
            check: 2,
            script: (2, "-"),
            model: (3, "m"),
        },
    ),
    (
        "extend --passes=nnf a.smt2 --check 999999999999999999 b",
        Carry {
            command: "extend",
            passes: 1,
            check: 999_999_999_999_999_999,
            script: (3, "a.smt2"),
            model: (6, "b"),
        },
    ),
    (
        "unblast a - --passes=simplify,ite --check 3",
        Carry {
            command: "unblast",
            passes: 2,
            check: 3,
            script: (2, "a"),
            model: (3, "-"),
        },
    ),
    (
        "answer - --check=2 a --passes ite,cnf",
        Carry {
            command: "answer",
            passes: 2,
            check: 2,
            script: (2, "-"),
            model: (4, "a"),
        },
    ),
];

#[test]
fn carried_models(rt: HostRuntime) -> Result<(), Fail> {
    for (line, carry) in &CARRIES {
        assert!(rt; asks_to_carry(rt.alloc(), line, carry)?, "{line}");
    }
    Ok(())
}

/// Whether a line asks for so many passes and a check of a file, over bits or as clauses; the file is its word of this number.
fn asks_to_blast(
    alloc: Global,
    line: &str,
    count: usize,
    check: u64,
    number: u32,
    name: &str,
) -> Result<bool, AllocError> {
    let words = words_of(alloc, line)?;
    let (command, checked) = match parse_words(alloc, words.as_slice()) {
        Ok(Asked::Blast(checked)) => ("blast", checked),
        Ok(Asked::Dimacs(checked)) => ("dimacs", checked),
        _ => return Ok(false),
    };
    Ok(
        line.starts_with(command)
            && checked.passes.len() == count
            && checked.check == check
            && (checked.script.word, checked.script.name) == (number, name),
    )
}

const BLASTS: [(&str, usize, u64, u32, &str); 4] = [
    ("blast -", 0, 1, 2, "-"),
    ("blast --check 2 --passes=simplify,ite a", 2, 2, 5, "a"),
    ("dimacs -", 0, 1, 2, "-"),
    ("dimacs --passes ite,cnf a --check=3", 2, 3, 4, "a"),
];

#[test]
fn blasts(rt: HostRuntime) -> Result<(), Fail> {
    for (line, count, check, number, name) in &BLASTS {
        assert!(rt;
            asks_to_blast(rt.alloc(), line, *count, *check, *number, name)?,
            "{line}"
        );
    }
    Ok(())
}

#[test]
fn the_script_is_the_file(rt: HostRuntime) -> Result<(), Fail> {
    let words = words_of(rt.alloc(), "extend --check 2 a b")?;
    let file = match parse_words(rt.alloc(), words.as_slice()) {
        Ok(asked) => match asked.source() {
            Source::File(file) => file.name,
            Source::Drawn { .. } => "",
        },
        Err(_) => "",
    };
    assert!(rt; file == "a");
    Ok(())
}

#[test]
fn statistics(rt: HostRuntime) -> Result<(), Fail> {
    let words = words_of(rt.alloc(), "stats x")?;
    let file = match parse_words(rt.alloc(), words.as_slice()) {
        Ok(Asked::Stats { file }) => file.name,
        _ => "",
    };
    assert!(rt; file == "x");
    Ok(())
}

/// Whether a line asks for a script of so many steps that are drawn from a seed.
fn asks_to_draw(alloc: Global, line: &str, seed: u64, size: u64) -> Result<bool, AllocError> {
    let words = words_of(alloc, line)?;
    match parse_words(alloc, words.as_slice()) {
        Ok(asked) => match asked.source() {
            Source::Drawn {
                seed: found_seed,
                size: found_size,
            } => Ok(found_seed == seed && found_size == size),
            Source::File(_) => Ok(false),
        },
        Err(_) => Ok(false),
    }
}

const DEMONSTRATIONS: [(&str, u64, u64); 3] = [
    ("demo 1 2", 1, 2),
    ("demo 0 10000", 0, 10_000),
    ("demo 999999999999999999 1", 999_999_999_999_999_999, 1),
];

#[test]
fn demonstrations(rt: HostRuntime) -> Result<(), Fail> {
    for (line, seed, size) in &DEMONSTRATIONS {
        assert!(rt; asks_to_draw(rt.alloc(), line, *seed, *size)?, "{line}");
    }
    Ok(())
}

#[test]
fn an_unread_file_is_named(rt: HostRuntime) -> Result<(), Fail> {
    let words = words_of(rt.alloc(), "stats model.txt")?;
    let mut sink = MemSink::new(rt.alloc(), 7, 100)?;
    complain(&mut sink, &Status::ReadFailed { word: 2 }, words.as_slice());
    assert!(rt; sink.bytes() == b"smtrw: reading model.txt failed\n".as_slice());
    Ok(())
}

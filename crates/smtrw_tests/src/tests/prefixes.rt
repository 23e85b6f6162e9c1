//! Texts that break off, as they are and closed again.

use super::{answer, input_of};
use smt_io::MemSink;
use smtrw_answers::Status;
use std::alloc::{AllocError, Global};
use std::process::Abort;
use std::test::Fail;

/// A script of twelve commands.
const SCRIPT: &[u8] = b"(set-info :source |a b| )
(declare-sort U 0)
(define-sort V () (Array Int U))
(declare-fun f (Int V) U) ; a symbol
(declare-fun |b c| () (_ BitVec 4))
(declare-const p Bool)
(define-fun g ((x Bool)) Bool (exists ((y Bool)) (xor x y)))
(push)
(assert (! (let ((z (bvadd |b c| #x3))) (and (g true) (= z (_ bv5 4)))) :named n))
(check-sat-assuming ((not p)))
(pop 1)
(echo \"a \"\"b\"\" c\")
";

/// How many prefixes of it are scripts: the empty one, two behind each command, and eleven that break off in the comment.
const SCRIPTS: u64 = 36;

/// A script with what the model's text speaks of.
const DECLARED: &[u8] = b"(declare-sort U 0)
(declare-fun x () Int)
(declare-fun v () (_ BitVec 4))
(declare-fun f (U Bool) Int)
(declare-fun m () (Array Int Bool))
(check-sat)
";

/// A model's text.
const MODEL: &[u8] = b"sat ; and a model
(model
(declare-sort U 0)
(@sort U (as @a U) (as @b U))
(define-fun x () Int (- 5))
(define-fun |v| () (_ BitVec 4) (_ bv7 4))
(define-fun f ((u U) (p Bool)) Int (ite (and p (= u (as @a U))) 3 (ite (and (= (as @b U) u) (not p)) 4 5)))
(define-fun m () (Array Int Bool) (store ((as const (Array Int Bool)) false) 1 true))
(define-fun @div0 ((n Int)) Int (ite (= n 7) 1 0))
)
";

/// How many prefixes of it are models' texts: those without and with the end of the last line.
const MODELS: u64 = 2;

/// Room for what is written of these texts.
const ROOM: usize = 65_536;

/// How many lines a text has.
fn lines(text: &[u8]) -> u64 {
    let mut lines: u64 = 1;
    for byte in text {
        if *byte == b'\n' {
            lines = lines.saturating_add(1);
        }
    }
    lines
}

/// Whether this is the line of a byte of the text, or of its end.
fn is_place(text: &[u8], line: u64, byte: u64) -> bool {
    byte <= text.len() as u64 && line == lines(&text[..byte as usize])
}

/// Whether this is the status of a run that ends well, or refuses one of these texts at a place of it. No line of the script has
/// two commands.
fn is_within(status: Status, script: &[u8], model: &[u8]) -> bool {
    match status {
        Status::Done => true,
        Status::Refused(refusal) => {
            refusal.command <= lines(script) && is_place(script, refusal.line, refusal.byte)
        }
        Status::ModelRefused { line, byte, .. } => is_place(model, line, byte),
        _ => false,
    }
}

/// Runs the program on these texts, and tells whether it ends well. Else it refuses one of them at a place of it, and sends nothing.
fn ends_well(
    rt: &impl Abort,
    alloc: Global,
    words: &str,
    script: &[u8],
    model: &[u8],
) -> Result<bool, Fail> {
    let mut inputs = input_of(alloc, script, 997)?;
    inputs.add("model", model)?;
    let mut out = MemSink::new(alloc, 997, ROOM)?;
    let mut err = MemSink::new(alloc, 997, ROOM)?;
    let status = answer(alloc, words, &mut inputs, &mut out, &mut err)?;
    let is_done = status == Status::Done;
    assert!(rt; is_within(status, script, model));
    assert!(rt; is_done || out.bytes().is_empty());
    assert!(rt; is_done == err.bytes().is_empty());
    Ok(is_done)
}

/// A text with a `)` for each `(` that is left open. No other token has a parenthesis in it.
fn closed(alloc: Global, text: &[u8]) -> Result<Vec<u8>, AllocError> {
    let mut closed = Vec::from_slice(alloc, text)?;
    let mut open: u64 = 0;
    for byte in text {
        match *byte {
            b'(' => open = open.saturating_add(1),
            b')' => open = open.saturating_sub(1),
            _ => {}
        }
    }
    for _ in 0..open {
        closed.push(b')')?;
    }
    Ok(closed)
}

/// Runs the program on the prefixes of the script, and tells how many end well.
fn scripts_that_end_well(rt: &impl Abort, alloc: Global) -> Result<u64, Fail> {
    let mut well: u64 = 0;
    for length in 0..=SCRIPT.len() {
        let script = &SCRIPT[..length];
        if ends_well(rt, alloc, "rewrite --passes nnf -", script, b"")? {
            well = well.saturating_add(1);
        }
    }
    Ok(well)
}

/// Runs the program on the prefixes of the model's text, and tells how many end well.
fn models_that_end_well(rt: &impl Abort, alloc: Global) -> Result<u64, Fail> {
    let mut well: u64 = 0;
    for length in 0..=MODEL.len() {
        if ends_well(rt, alloc, "translate - model", DECLARED, &MODEL[..length])? {
            well = well.saturating_add(1);
        }
    }
    Ok(well)
}

/// Runs the program on the prefixes of the script, each closed again.
fn closed_scripts_end(rt: &impl Abort, alloc: Global) -> Result<(), Fail> {
    for length in 0..=SCRIPT.len() {
        let script = closed(alloc, &SCRIPT[..length])?;
        ends_well(rt, alloc, "rewrite --passes nnf -", &script, b"")?;
    }
    Ok(())
}

/// Runs the program on the prefixes of the model's text, each closed again.
fn closed_models_end(rt: &impl Abort, alloc: Global) -> Result<(), Fail> {
    for length in 0..=MODEL.len() {
        let model = closed(alloc, &MODEL[..length])?;
        ends_well(rt, alloc, "translate - model", DECLARED, &model)?;
    }
    Ok(())
}

#[test]
fn scripts_break_off(rt: HostRuntime) -> Result<(), Fail> {
    let well = scripts_that_end_well(&rt, rt.alloc())?;
    assert!(&rt; well == SCRIPTS);
    closed_scripts_end(&rt, rt.alloc())
}

#[test]
fn models_break_off(rt: HostRuntime) -> Result<(), Fail> {
    let well = models_that_end_well(&rt, rt.alloc())?;
    assert!(&rt; well == MODELS);
    closed_models_end(&rt, rt.alloc())
}

//! Scripts that the program makes itself.

use super::{ROOM, answer};
use smt_io::{MemInputs, MemSink};
use std::alloc::Global;
use std::process::Abort;
use std::test::Fail;

/// What the program sends for words that name no file.
fn shown(rt: &impl Abort, alloc: Global, words: &str) -> Result<MemSink, Fail> {
    let mut inputs = MemInputs::new(alloc, 1);
    let mut out = MemSink::new(alloc, 997, ROOM)?;
    let mut err = MemSink::new(alloc, 997, ROOM)?;
    let status = answer(alloc, words, &mut inputs, &mut out, &mut err)?;
    assert!(rt; status.number() == 0);
    assert!(rt; err.bytes().is_empty());
    Ok(out)
}

const ONE_STEP: &str = "demo seed 1 size 1: 267 bytes in, 6 assertions out, 761 bytes out\n";

#[test]
fn one_step(rt: HostRuntime) -> Result<(), Fail> {
    let line = shown(&rt, rt.alloc(), "demo 1 1")?;
    assert!(&rt; line.bytes() == ONE_STEP.as_bytes());
    Ok(())
}

#[test]
fn as_many_steps_as_there_may_be(rt: HostRuntime) -> Result<(), Fail> {
    let line = shown(&rt, rt.alloc(), "demo 7 10000")?;
    let again = shown(&rt, rt.alloc(), "demo 7 10000")?;
    assert!(&rt; line.bytes().starts_with(b"demo seed 7 size 10000: "));
    assert!(&rt; line.bytes() == again.bytes());
    Ok(())
}

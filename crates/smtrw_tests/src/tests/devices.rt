//! Devices that fail.

ghost use Rattle.std.specs.Prelude.{◌<◌};

use super::{NEGATED, NORMAL, ROOM, WORDS, answer, input_of};
use script_read::Refusal;
use smt_io::MemSink;
use smtrw_answers::Status;
use std::alloc::Global;
use std::process::Abort;
use std::test::Fail;

/// Which call fails.
#[derive(Clone, Copy)]
enum Failing {
    Begin(u64),
    Read(u64),
    Write(u64),
    Flush(u64),
}

/// The words of a run, the script and the model's text that it may read, and what it sends where no device fails.
struct Run<'a> {
    words: &'a str,
    script: &'a [u8],
    model: &'a [u8],
    text: &'a [u8],
}

/// The small script.
const SMALL: Run<'static> = Run {
    words: WORDS,
    script: NEGATED,
    model: b"",
    text: NORMAL,
};

/// A script with levels in levels and three checks.
const LEVELS: Run<'static> = Run {
    words: WORDS,
    script: b"(set-logic QF_UF)(declare-const a Bool)
(push)
(declare-fun b () Bool)
(assert (not (and a b)))
(push 2)
(assert (not (or a (not b))))
(check-sat) ; the first of three
(pop 2)
(check-sat-assuming (a (not b)))
(pop)
(assert (not (not a)))
(check-sat)
",
    model: b"",
    text: b"(set-logic QF_UF)
(declare-fun a () Bool)
(push 1)
(declare-fun b () Bool)
(assert (or (not a) (not b)))
(push 2)
(assert (and (not a) b))
(check-sat)
(pop 2)
(check-sat-assuming (a (not b)))
(pop 1)
(assert a)
(check-sat)
",
};

/// A model of a check on an inner level, carried back.
const CARRIED: Run<'static> = Run {
    words: "translate --check 2 --passes cnf - model",
    script: b"(declare-fun a () Bool)
(push)
(declare-fun b () Bool)
(check-sat)
(push)
(assert (or a (and a b)))
(check-sat)
(pop 2)
(check-sat)
",
    model: b"((define-fun FV0 () Bool true) (define-fun a () Bool true) (define-fun b () Bool true))",
    text: b"(
(define-fun a () Bool true)
(define-fun b () Bool true)
)
",
};

/// Does a run over devices that move so many bytes at a time, with one failing call, and tells whether it ends so and writes
/// these texts.
fn ends(
    rt: &impl Abort,
    alloc: Global,
    run: &Run<'_>,
    step: usize,
    failing: Failing,
    status: Status,
    sent: &[u8],
    said: &[u8],
) -> Result<(), Fail>
    requires { 0 < step }
{
    let mut inputs = input_of(alloc, run.script, step)?;
    inputs.add("model", run.model)?;
    let mut out = MemSink::new(alloc, step, ROOM)?;
    let mut err = MemSink::new(alloc, step, ROOM)?;
    match failing {
        Failing::Begin(call) => inputs.fail_begin(call)?,
        Failing::Read(call) => inputs.fail_read(call)?,
        Failing::Write(call) => out.fail_write(call)?,
        Failing::Flush(call) => out.fail_flush(call)?,
    }
    let status_is = answer(alloc, run.words, &mut inputs, &mut out, &mut err)?;
    assert!(rt; status_is == status);
    assert!(rt; out.bytes() == sent);
    assert!(rt; err.bytes() == said);
    Ok(())
}

/// How many calls it takes to move so many bytes.
fn calls(bytes: usize, step: usize) -> u64
    requires { 0 < step }
{
    bytes.div_ceil(step) as u64
}

/// How many calls it takes to read so many bytes to the end.
fn reads(bytes: usize, step: usize) -> u64
    requires { 0 < step }
{
    calls(bytes, step).saturating_add(1)
}

const READING: &[u8] = b"smtrw: reading - failed\n";

const READING_MODEL: &[u8] = b"smtrw: reading model failed\n";

const WRITING: &[u8] = b"smtrw: writing failed\n";

/// Lets the reads of the script fail in turn, whose file is this word.
fn reads_fail_in_turn(
    rt: &impl Abort,
    alloc: Global,
    run: &Run<'_>,
    word: u32,
    step: usize,
) -> Result<(), Fail>
    requires { 0 < step }
{
    let failed = Status::ReadFailed { word };
    ends(
        rt,
        alloc,
        run,
        step,
        Failing::Begin(1),
        failed,
        b"",
        READING,
    )?;
    for call in 1..=reads(run.script.len(), step) {
        ends(
            rt,
            alloc,
            run,
            step,
            Failing::Read(call),
            failed,
            b"",
            READING,
        )?;
    }
    Ok(())
}

/// Lets the reads of the model's text fail in turn, whose file is this word, and then one behind the last.
fn model_reads_fail_in_turn(
    rt: &impl Abort,
    alloc: Global,
    run: &Run<'_>,
    word: u32,
    step: usize,
) -> Result<(), Fail>
    requires { 0 < step }
{
    let failed = Status::ReadFailed { word };
    let said = READING_MODEL;
    ends(rt, alloc, run, step, Failing::Begin(2), failed, b"", said)?;
    let before = reads(run.script.len(), step);
    let last = before.saturating_add(reads(run.model.len(), step));
    for call in before.saturating_add(1)..=last {
        ends(rt, alloc, run, step, Failing::Read(call), failed, b"", said)?;
    }
    let behind = Failing::Read(last.saturating_add(1));
    ends(rt, alloc, run, step, behind, Status::Done, run.text, b"")
}

/// Lets the writes fail in turn, then one behind the last, and then the flush.
fn writes_fail_in_turn(
    rt: &impl Abort,
    alloc: Global,
    run: &Run<'_>,
    step: usize,
) -> Result<(), Fail>
    requires { 0 < step }
{
    let failed = Status::WriteFailed;
    let last = calls(run.text.len(), step);
    for call in 1..=last {
        let sent = ((call - 1) as usize)
            .saturating_mul(step)
            .min(run.text.len());
        ends(
            rt,
            alloc,
            run,
            step,
            Failing::Write(call),
            failed,
            &run.text[..sent],
            WRITING,
        )?;
    }
    let behind = Failing::Write(last.saturating_add(1));
    ends(rt, alloc, run, step, behind, Status::Done, run.text, b"")?;
    let flush = Failing::Flush(1);
    ends(rt, alloc, run, step, flush, failed, run.text, WRITING)
}

/// Does a run whose script is read in so many calls, of which one behind the last would fail.
fn reads_end_well(rt: &impl Abort, alloc: Global, run: &Run<'_>, step: usize) -> Result<(), Fail>
    requires { 0 < step }
{
    let behind = Failing::Read(reads(run.script.len(), step).saturating_add(1));
    ends(rt, alloc, run, step, behind, Status::Done, run.text, b"")
}

#[test]
fn failing_reads(rt: HostRuntime) -> Result<(), Fail> {
    reads_fail_in_turn(&rt, rt.alloc(), &SMALL, 4, 1)?;
    reads_end_well(&rt, rt.alloc(), &SMALL, 1)?;
    reads_fail_in_turn(&rt, rt.alloc(), &SMALL, 4, 7)?;
    reads_end_well(&rt, rt.alloc(), &SMALL, 7)
}

#[test]
fn failing_writes(rt: HostRuntime) -> Result<(), Fail> {
    writes_fail_in_turn(&rt, rt.alloc(), &SMALL, 1)?;
    writes_fail_in_turn(&rt, rt.alloc(), &SMALL, 7)
}

#[test]
fn devices_fail_between_levels_and_checks(rt: HostRuntime) -> Result<(), Fail> {
    reads_fail_in_turn(&rt, rt.alloc(), &LEVELS, 4, 5)?;
    reads_end_well(&rt, rt.alloc(), &LEVELS, 5)?;
    writes_fail_in_turn(&rt, rt.alloc(), &LEVELS, 5)
}

#[test]
fn devices_fail_as_a_model_is_carried(rt: HostRuntime) -> Result<(), Fail> {
    reads_fail_in_turn(&rt, rt.alloc(), &CARRIED, 6, 5)?;
    model_reads_fail_in_turn(&rt, rt.alloc(), &CARRIED, 7, 5)?;
    writes_fail_in_turn(&rt, rt.alloc(), &CARRIED, 5)
}

#[test]
fn a_failing_error_stream_changes_no_status(rt: HostRuntime) -> Result<(), Fail> {
    let alloc = rt.alloc();
    let mut inputs = input_of(alloc, b"[", 7)?;
    let mut out = MemSink::new(alloc, 7, ROOM)?;
    let mut err = MemSink::new(alloc, 7, ROOM)?;
    err.fail_write(2)?;
    let status = answer(alloc, WORDS, &mut inputs, &mut out, &mut err)?;
    let bad_byte = Refusal {
        code: 10,
        command: 0,
        line: 1,
        byte: 0,
    };
    assert!(rt; status == Status::Refused(bad_byte));
    assert!(rt; out.bytes().is_empty());
    let said: &[u8] = b"smtrw: ";
    assert!(rt; err.bytes() == said);
    Ok(())
}

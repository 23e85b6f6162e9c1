//! Runs over memory and the host, with each call failing in turn.
ghost use Rattle.std.specs.Prelude.{◌<◌};

use smt_io::{
    Failed, HostInputs, HostSink, MemInputs, MemSink, Pieces, ReadFault, read_all, send_all,
    send_pieces,
};
use std::alloc::{AllocError, Global};
use std::test::Fail;

const TEXT: &[u8] = b"(check-sat)\n(exit)\n";

// Reads the text with one call of `begin` and one of `read` named to fail.
fn read_with(
    alloc: Global,
    step: usize,
    begin: u64,
    read: u64,
    name: &str,
) -> Result<Result<Vec<u8>, ReadFault>, AllocError>
    requires { 0 < step }
{
    let mut inputs = MemInputs::new(alloc, step);
    inputs.add("a", b"another")?;
    inputs.add("-", b"an earlier text")?;
    inputs.add("-", TEXT)?;
    inputs.fail_begin(begin)?;
    inputs.fail_read(read)?;
    Ok(read_all(alloc, &mut inputs, name))
}

#[test]
fn reads_fail_where_they_are_named(rt: HostRuntime) -> Result<(), Fail> {
    let alloc = rt.alloc();
    for (step, reads) in [(1, 20), (7, 4)] {
        assert!(rt; step > 0);
        for call in 1..=reads {
            let read = read_with(alloc, step, 0, call, "-")?;
            assert!(rt; read == Err(ReadFault::Failed), "step {step}, read {call}");
        }
        let whole = read_with(alloc, step, 2, reads + 1, "-")?;
        assert!(rt;
            whole.is_ok_and(|bytes| bytes.as_slice() == TEXT),
            "step {step}"
        );
        let refused = read_with(alloc, step, 1, 0, "-")?;
        assert!(rt; refused == Err(ReadFault::Failed), "step {step}");
        let unknown = read_with(alloc, step, 0, 0, "b")?;
        assert!(rt; unknown == Err(ReadFault::Failed), "step {step}");
    }
    Ok(())
}

// What is sent of the text with one call of `write` and one of `flush` named to fail.
fn send_with(
    alloc: Global,
    step: usize,
    write: u64,
    flush: u64,
) -> Result<(Result<(), Failed>, usize), AllocError>
    requires { 0 < step }
{
    let mut sink = MemSink::new(alloc, step, TEXT.len())?;
    sink.fail_write(write)?;
    sink.fail_flush(flush)?;
    let sent = send_all(&mut sink, TEXT);
    let is_prefix = TEXT.starts_with(sink.bytes());
    Ok((
        sent,
        if is_prefix {
            sink.bytes().len()
        } else {
            usize::MAX
        },
    ))
}

#[test]
fn writes_fail_where_they_are_named(rt: HostRuntime) -> Result<(), Fail> {
    let alloc = rt.alloc();
    for (step, write, flush, want) in [
        (1, 1, 0, 0),
        (1, 19, 0, 18),
        (7, 2, 0, 7),
        (7, 3, 0, 14),
        (7, 0, 1, 19),
    ] {
        assert!(rt; step > 0);
        let (sent, len) = send_with(alloc, step, write, flush)?;
        assert_eq!(rt;
            sent,
            Err(Failed),
            "step {step}, write {write}, flush {flush}"
        );
        assert_eq!(rt; len, want, "step {step}, write {write}, flush {flush}");
    }
    for step in [1, 7] {
        assert!(rt; step > 0);
        let (sent, len) = send_with(alloc, step, 20, 2)?;
        assert_eq!(rt; sent, Ok(()), "step {step}");
        assert_eq!(rt; len, 19, "step {step}");
    }
    Ok(())
}

#[test]
fn pieces_are_sent_whole(rt: HostRuntime) -> Result<(), Fail> {
    let alloc = rt.alloc();
    let long = vec![in alloc; 120u8; 70_000]?;
    let mut text = Pieces::new(alloc);
    text.push(b"begin ")?;
    text.push(&long)?;
    text.push(&long)?;
    assert_eq!(rt; text.len(), 140_006);
    let mut sink = MemSink::new(alloc, 4_096, 140_006)?;
    assert_eq!(rt; send_pieces(&mut sink, &text), Ok(()));
    assert!(rt; sink.bytes().starts_with(b"begin xxx"));
    assert_eq!(rt; sink.bytes().len(), 140_006);
    Ok(())
}

#[test]
fn a_text_is_written_over_another(rt: HostRuntime) -> Result<(), Fail> {
    let alloc = rt.alloc();
    let long = vec![in alloc; 120u8; 70_000]?;
    let mut text = Pieces::over(alloc, vec![in alloc; 45u8; 10]?);
    text.push(b"begin ")?;
    text.push(&long)?;
    let mut sink = MemSink::new(alloc, 4_096, 70_006)?;
    assert_eq!(rt; send_pieces(&mut sink, &text), Ok(()));
    assert!(rt; sink.bytes().starts_with(b"begin xxx"));
    assert_eq!(rt; sink.bytes().len(), 70_006);
    Ok(())
}

#[test]
fn a_text_is_taken_over_whole(rt: HostRuntime) -> Result<(), Fail> {
    let alloc = rt.alloc();
    let mut text = Pieces::of(alloc, vec![in alloc; 120u8; 70_000]?);
    assert_eq!(rt; text.len(), 70_000);
    text.push(b" end")?;
    let mut sink = MemSink::new(alloc, 4_096, 70_004)?;
    assert_eq!(rt; send_pieces(&mut sink, &text), Ok(()));
    assert!(rt; sink.bytes().ends_with(b"xxx end"));
    assert_eq!(rt; sink.bytes().len(), 70_004);
    Ok(())
}

#[test]
fn the_host_is_read_by_name(rt: HostRuntime) {
    let alloc = rt.alloc();
    let mut inputs = HostInputs::new(alloc, rt);
    let empty = read_all(alloc, &mut inputs, "/dev/null");
    assert!(rt; empty.is_ok_and(|bytes| bytes.is_empty()));
    for name in ["/dev/null/missing", "/"] {
        let refused = read_all(alloc, &mut inputs, name);
        assert!(rt; refused == Err(ReadFault::Failed), "{name}");
    }
    let mut sink = HostSink::new(rt.stderr());
    assert_eq!(rt; send_all(&mut sink, b"sent to standard error\n"), Ok(()));
}

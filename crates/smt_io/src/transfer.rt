//! The calls that move a whole text.
ghost use Rattle.std.specs.Prelude.{◌≡◌, ℕ, ◌+◌, ◌<◌, ◌≤◌, List, take, drop, length, vec_len, IfOk, IfSome, OnOk, OnErr, IsErrOf, IsSome, unwrap_or, [], ◌≢◌, MatchResult};
ghost use Rattle.smt_io.specs.Counts.{NeverFalls, Rose, raised_by};
ghost use Rattle.smt_io.specs.Told.{with_bytes, behind, IsAtEnd, longest_text, TookMore};

use crate::inputs::{Inputs, ReadFault};
use crate::sink::{Failed, Sink};
use std::alloc::{AllocError, Global};

/// The most bytes of a text that is read.
pub const LONGEST_TEXT: usize = 67_108_864;

// The room for the first read of a text, in bytes.
const FIRST_BLOCK: usize = 65_536;

// The most bytes of room that one read has. Room is cleared before it is read into, so more would be cleared for nothing.
const LARGEST_BLOCK: usize = 262_144;

/// Reads the whole text of that name, up to its end. After an answer it has at most 67,108,864
/// bytes, whether the text is told or not.
///
/// # Errors
///
/// `Failed` where a call on the source failed, `TooLong` where the text has more than 67,108,864
/// bytes, and `Memory`.
pub fn read_all<I: Inputs>(alloc: Global, inputs: &mut I, name: &str) -> Result<Vec<u8>, ReadFault>
    ensures whole { IfOk result (λ bytes. IfSome (I.text inputs.old name.now) (λ text. bytes.items ≡ text)) }
    ensures bounded { IfOk result (λ bytes. vec_len bytes ≤ longest_text) }
    ensures end { OnOk result (IsAtEnd (I.rest inputs.new)) }
    ensures too_long { IsErrOf result ReadFault.TooLong → TookMore (I.text inputs.old name.now)
        (I.rest inputs.new) (I.given inputs.old) (I.given inputs.new) }
    ensures long { IsSome (I.text inputs.old name.now) → TookMore (I.text inputs.old name.now)
        (I.rest inputs.new) (I.given inputs.old) (I.given inputs.new) → IsErrOf result ReadFault.TooLong }
    ensures failed { IsErrOf result ReadFault.Failed
        → Rose (I.faults inputs.old name.now) (I.faults inputs.new name.now) }
    ensures texts { (n : List ℕ) → I.text inputs.new n ≡ I.text inputs.old n }
    ensures counts { (n : List ℕ) → NeverFalls (I.faults inputs.old n) (I.faults inputs.new n) }
{
    inputs.begin(alloc, name)?;
    let mut bytes = Vec::new(alloc);
    let mut filled = 0;
    while filled <= LONGEST_TEXT {
        match read_block(inputs, &mut bytes, filled)? {
            0 => {
                bytes.truncate(filled);
                return Ok(bytes);
            }
            n => filled += n,
        }
    }
    Err(ReadFault::TooLong)
}

// One read into the room behind what is filled, which is made first.
fn read_block<I: Inputs>(
    inputs: &mut I,
    bytes: &mut Vec<u8>,
    filled: usize,
) -> Result<usize, ReadFault>
    requires within { filled ≤ vec_len bytes.old }
    requires below { filled ≤ longest_text }
    requires most { vec_len bytes.old ≤ longest_text + 1 }
    ensures front { take filled bytes.new.items ≡ take filled bytes.old.items }
    ensures fits { IfOk result (λ n. filled + n ≤ vec_len bytes.new) }
    ensures most { vec_len bytes.new ≤ longest_text + 1 }
    ensures bytes { MatchResult result
        (λ n. I.rest inputs.old ≡ behind (take n (drop filled bytes.new.items)) (I.rest inputs.new))
        (λ _. I.rest inputs.new ≡ I.rest inputs.old) }
    ensures end { IfOk result (λ n. n ≡ 0 → IsAtEnd (I.rest inputs.old)) }
    ensures given { MatchResult result
        (λ n. I.given inputs.new ≡ raised_by n (I.given inputs.old))
        (λ _. I.given inputs.new ≡ I.given inputs.old) }
    ensures begun { I.begun inputs.new ≡ I.begun inputs.old }
    ensures failed { IsErrOf result ReadFault.Failed → Rose (I.faults inputs.old (unwrap_or (I.begun inputs.old) []))
        (I.faults inputs.new (unwrap_or (I.begun inputs.old) [])) }
    ensures not_long { result ≢ Err ReadFault.TooLong }
    ensures texts { (n : List ℕ) → I.text inputs.new n ≡ I.text inputs.old n }
    ensures counts { (n : List ℕ) → NeverFalls (I.faults inputs.old n) (I.faults inputs.new n) }
{
    make_room(bytes, filled)?;
    match inputs.read(&mut bytes[filled..]) {
        Ok(n) => Ok(n),
        Err(Failed) => Err(ReadFault::Failed),
    }
}

// Leaves room behind what is filled: more is made only where there is none, and then twice as much as before, up to a
// block. A vector that grows doubles the memory that it has, so what is copied stays linear.
fn make_room(bytes: &mut Vec<u8>, filled: usize) -> Result<(), AllocError>
    requires within { filled ≤ vec_len bytes.old }
    requires below { filled ≤ longest_text }
    requires most { vec_len bytes.old ≤ longest_text + 1 }
    ensures front { take filled bytes.new.items ≡ take filled bytes.old.items }
    ensures within { filled ≤ vec_len bytes.new }
    ensures room { OnOk result (filled < vec_len bytes.new) }
    ensures most { vec_len bytes.new ≤ longest_text + 1 }
{
    if filled < bytes.len() {
        return Ok(());
    }
    let block = filled.max(FIRST_BLOCK).min(LARGEST_BLOCK);
    bytes.resize((filled + block).min(LONGEST_TEXT + 1), 0)
}

/// Sends all bytes, and flushes. After an error a prefix of the bytes was sent. It takes no memory.
pub fn send_all<S: Sink>(sink: &mut S, bytes: &[u8]) -> Result<(), Failed>
    ensures ok { OnOk result (S.sent sink.new ≡ with_bytes (S.sent sink.old) bytes.now) }
    ensures flushed { OnOk result (S.flushed sink.new ≡ S.sent sink.new) }
    ensures prefix { OnErr result ((n : ℕ) × (n ≤ length bytes.now)
        × (S.sent sink.new ≡ with_bytes (S.sent sink.old) (take n bytes.now))) }
    ensures counts { NeverFalls (S.faults sink.old) (S.faults sink.new) }
    ensures cause { OnErr result (Rose (S.faults sink.old) (S.faults sink.new)) }
{
    write_whole(sink, bytes)?;
    sink.flush()?;
    Ok(())
}

// Writes all bytes, at least one in each turn.
pub(crate) fn write_whole<S: Sink>(sink: &mut S, bytes: &[u8]) -> Result<(), Failed>
    ensures ok { OnOk result (S.sent sink.new ≡ with_bytes (S.sent sink.old) bytes.now) }
    ensures prefix { OnErr result ((n : ℕ) × (n ≤ length bytes.now)
        × (S.sent sink.new ≡ with_bytes (S.sent sink.old) (take n bytes.now))) }
    ensures flushed { S.flushed sink.new ≡ S.flushed sink.old }
    ensures counts { NeverFalls (S.faults sink.old) (S.faults sink.new) }
    ensures cause { OnErr result (Rose (S.faults sink.old) (S.faults sink.new)) }
{
    let mut done = 0;
    while done < bytes.len() {
        done += sink.write(&bytes[done..])?;
    }
    Ok(())
}

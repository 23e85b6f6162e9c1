//! A long text in pieces.
ghost use Rattle.std.specs.Prelude.{◌≡◌, ℕ, ◌+◌, ◌<◌, ◌≤◌, [], ◌++◌, length, take, vec_len, IfOk, OnOk, OnErr, List};
ghost use Rattle.std.specs.List.{flat_map};
ghost use Rattle.smt_io.specs.Counts.{NeverFalls, Rose};
ghost use Rattle.smt_io.specs.Told.{with_bytes};

use crate::sink::{Failed, Sink};
use crate::transfer::write_whole;
use std::alloc::{AllocError, Global};
use std::marker::Model;
use std::mem;

// The bytes of a piece that is taken anew.
const PIECE: usize = 65_536;

/// A text in pieces, so that a long text is never copied as a whole. A piece has 65,536 bytes, the last one at most so
/// many; where memory was given to begin with, the first piece fills that instead, however long it is. Contracts see the
/// list of the bytes.
#[derive(Drop)]
pub struct Pieces {
    alloc: Global,
    full: Vec<Vec<u8>>,
    last: Vec<u8>,
    // How many bytes the last piece takes.
    room: usize,
    len: usize,
}

impl Model for Pieces {
    ghost Value = { List ℕ };

    ghost view = { λ p. flat_map (λ piece. piece.items) p.full.items ++ p.last.items };

    ghost invariant = { λ p. p.len ≡ length (flat_map (λ piece. piece.items) p.full.items ++ p.last.items) };
}

impl Pieces {
    /// An empty text, which takes no memory.
    pub fn new(alloc: Global) -> Pieces
        ensures { result ≡ [] }
    {
        Pieces {
            alloc,
            full: Vec::new(alloc),
            last: Vec::new(alloc),
            room: PIECE,
            len: 0,
        }
    }

    /// A text of exactly these bytes, which are taken over and not copied. It takes no memory.
    pub fn of(alloc: Global, bytes: Vec<u8>) -> Pieces
        ensures { result ≡ bytes.items }
    {
        Pieces {
            alloc,
            full: Vec::new(alloc),
            room: bytes.capacity(),
            len: bytes.len(),
            last: bytes,
        }
    }

    /// An empty text that is written over these bytes, whose memory was touched before, and behind them into memory of its
    /// own. It takes no memory.
    pub fn over(alloc: Global, mut bytes: Vec<u8>) -> Pieces
        ensures { result ≡ [] }
    {
        bytes.clear();
        Pieces::of(alloc, bytes)
    }

    /// The number of bytes.
    pub fn len(&self) -> usize
        ensures { result ≡ length self.now }
    {
        self.len
    }

    /// Appends the bytes. After a refusal a prefix of them was appended.
    pub fn push(&mut self, bytes: &[u8]) -> Result<(), AllocError>
        ensures ok { OnOk result (self.new ≡ self.old ++ bytes.now) }
        ensures prefix { OnErr result ((n : ℕ) × (n ≤ length bytes.now) × (self.new ≡ self.old ++ take n bytes.now)) }
    {
        let mut done = 0;
        while done < bytes.len() {
            done += self.push_some(&bytes[done..])?;
        }
        Ok(())
    }

    // Appends as much as the last piece has room for, after a new piece where it is full.
    fn push_some(&mut self, bytes: &[u8]) -> Result<usize, AllocError>
        requires { 0 < length bytes.now }
        ensures some { IfOk result (λ n. 0 < n) }
        ensures bound { IfOk result (λ n. n ≤ length bytes.now) }
        ensures ok { IfOk result (λ n. self.new ≡ self.old ++ take n bytes.now) }
        ensures err { OnErr result (self.new ≡ self.old) }
    {
        make_room(self.alloc, &mut self.full, &mut self.last, &mut self.room)?;
        let n = bytes.len().min(self.room - self.last.len());
        let len = self.len.checked_add(n).ok_or(AllocError)?;
        self.last.extend_from_slice(&bytes[..n])?;
        self.len = len;
        Ok(n)
    }
}

// Leaves room in the last piece: where it is full, it goes to the full ones, and a new one begins.
fn make_room(
    alloc: Global,
    full: &mut Vec<Vec<u8>>,
    last: &mut Vec<u8>,
    room: &mut usize,
) -> Result<(), AllocError>
    ensures bytes { flat_map (λ piece. piece.items) full.new.items ++ last.new.items
        ≡ flat_map (λ piece. piece.items) full.old.items ++ last.old.items }
    ensures room { OnOk result (vec_len last.new < room.new) }
{
    if last.len() < *room {
        return Ok(());
    }
    let next = Vec::with_capacity(alloc, PIECE)?;
    match full.push(mem::replace(last, next)) {
        Ok(()) => {
            *room = PIECE;
            Ok(())
        }
        Err(refused) => {
            *last = refused.value;
            Err(AllocError)
        }
    }
}

/// Sends all bytes of the text, and flushes once. After an error a prefix of the bytes was sent. It
/// takes no memory.
pub fn send_pieces<S: Sink>(sink: &mut S, text: &Pieces) -> Result<(), Failed>
    ensures ok { OnOk result (S.sent sink.new ≡ with_bytes (S.sent sink.old) text.now) }
    ensures flushed { OnOk result (S.flushed sink.new ≡ S.sent sink.new) }
    ensures prefix { OnErr result ((n : ℕ) × (n ≤ length text.now)
        × (S.sent sink.new ≡ with_bytes (S.sent sink.old) (take n text.now))) }
    ensures counts { NeverFalls (S.faults sink.old) (S.faults sink.new) }
    ensures cause { OnErr result (Rose (S.faults sink.old) (S.faults sink.new)) }
{
    write_pieces(sink, &text.full)?;
    write_whole(sink, &text.last)?;
    sink.flush()?;
    Ok(())
}

// Writes the bytes of all pieces.
fn write_pieces<S: Sink>(sink: &mut S, pieces: &[Vec<u8>]) -> Result<(), Failed>
    ensures ok { OnOk result (S.sent sink.new ≡ with_bytes (S.sent sink.old) (flat_map (λ piece. piece.items) pieces.now)) }
    ensures prefix { OnErr result ((n : ℕ) × (n ≤ length (flat_map (λ piece. piece.items) pieces.now))
        × (S.sent sink.new ≡ with_bytes (S.sent sink.old) (take n (flat_map (λ piece. piece.items) pieces.now)))) }
    ensures counts { NeverFalls (S.faults sink.old) (S.faults sink.new) }
    ensures cause { OnErr result (Rose (S.faults sink.old) (S.faults sink.new)) }
{
    for piece in pieces {
        write_whole(sink, piece)?;
    }
    Ok(())
}

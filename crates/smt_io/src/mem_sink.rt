//! A sink that keeps its bytes in memory.
ghost use Rattle.std.specs.Prelude.{◌≡◌, ◌<◌, ◌≤◌, ◌↔◌, length, take, vec_len, vec_capacity, IfOk, OnOk, OnErr, MatchResult, IsErr, IsTrue};
ghost use Rattle.smt_io.specs.Counts.{NeverFalls, Rose};
ghost use Rattle.smt_io.specs.Told.{with_bytes};
ghost use Rattle.smt_io.specs.Calls.{is_next_named, with_failing};
ghost use Rattle.smt_io.specs.MemorySink.{MemorySink, new_sink, write_fails, written_length, after_write, after_flush, told_sent, told_flushed};

use crate::calls::Calls;
use crate::sink::{Failed, Sink};
use std::alloc::{AllocError, Global};
use std::marker::Model;

/// A sink that keeps its bytes in memory. A write moves at most the step, and at most the room that
/// is left; it fails exactly where its call is named, or where a piece that isn't empty finds no
/// room. A flush fails exactly where its call is named. Neither takes memory.
#[derive(Drop)]
pub struct MemSink {
    bytes: Vec<u8>,
    flushed: usize,
    step: usize,
    room: usize,
    writes: Calls,
    flushes: Calls,
    faults: u64,
}

impl Model for MemSink {
    ghost Value = { MemorySink };

    ghost view = { λ s. record {
      sent = s.bytes.items;
      flushed = s.flushed;
      step = s.step;
      room = s.room;
      writes = s.writes;
      flushes = s.flushes;
      faults = s.faults;
    } };

    ghost invariant = { λ s. (0 < s.step) × (s.flushed ≤ vec_len s.bytes) × (vec_len s.bytes ≤ s.room) × (s.room ≤ vec_capacity s.bytes) };
}

impl MemSink {
    /// Makes an empty sink, and takes memory for `room` bytes at once. The step, in bytes, is at
    /// least 1.
    pub fn new(alloc: Global, step: usize, room: usize) -> Result<MemSink, AllocError>
        requires { 0 < step }
        ensures { IfOk result (λ sink. sink ≡ new_sink step room) }
    {
        let bytes = Vec::with_capacity(alloc, room)?;
        Ok(MemSink {
            bytes,
            flushed: 0,
            step,
            room,
            writes: Calls::new(alloc),
            flushes: Calls::new(alloc),
            faults: 0,
        })
    }

    /// Names a call of `write` that fails, counted from 1. A refusal leaves the sink as before.
    pub fn fail_write(&mut self, call: u64) -> Result<(), AllocError>
        ensures ok { OnOk result (self.new ≡ record self.old { writes = with_failing call self.old.writes }) }
        ensures err { OnErr result (self.new ≡ self.old) }
    {
        self.writes.fail(call)?;
        Ok(())
    }

    /// Names a call of `flush` that fails, counted from 1. A refusal leaves the sink as before.
    pub fn fail_flush(&mut self, call: u64) -> Result<(), AllocError>
        ensures ok { OnOk result (self.new ≡ record self.old { flushes = with_failing call self.old.flushes }) }
        ensures err { OnErr result (self.new ≡ self.old) }
    {
        self.flushes.fail(call)?;
        Ok(())
    }

    /// The bytes sent.
    pub fn bytes(&self) -> &[u8]
        ensures { result.now ≡ self.now.sent }
    {
        self.bytes.as_slice()
    }
}

impl Sink for MemSink {
    ghost sent = { told_sent };

    ghost flushed = { told_flushed };

    ghost faults = { λ s. s.faults };

    fn write(&mut self, piece: &[u8]) -> Result<usize, Failed>
        ensures fails { IsErr result ↔ IsTrue (write_fails self.old piece.now) }
        ensures length { IfOk result (λ n. n ≡ written_length self.old piece.now) }
        ensures after { self.new ≡ after_write self.old piece.now }

        ensures bound { IfOk result (λ n. n ≤ length piece.now) }
        ensures some { IfOk result (λ n. 0 < length piece.now → 0 < n) }
        ensures bytes { MatchResult result
            (λ n. told_sent self.new ≡ with_bytes (told_sent self.old) (take n piece.now))
            (λ _. told_sent self.new ≡ told_sent self.old) }
        ensures flushed { told_flushed self.new ≡ told_flushed self.old }
        ensures counts { NeverFalls self.old.faults self.new.faults }
        ensures cause { OnErr result (Rose self.old.faults self.new.faults) }
    {
        let is_named = self.writes.next_fails();
        let left = self.room - self.bytes.len();
        if is_named || (!piece.is_empty() && left == 0) {
            self.faults = self.faults.saturating_add(1);
            return Err(Failed);
        }
        let n = piece.len().min(self.step.min(left));
        self.bytes.extend_from_slice(&piece[..n]).unwrap();
        Ok(n)
    }

    fn flush(&mut self) -> Result<(), Failed>
        ensures fails { IsErr result ↔ IsTrue (is_next_named self.old.flushes) }
        ensures after { self.new ≡ after_flush self.old }

        ensures bytes { told_sent self.new ≡ told_sent self.old }
        ensures ok { OnOk result (told_flushed self.new ≡ told_sent self.old) }
        ensures err { OnErr result (told_flushed self.new ≡ told_flushed self.old) }
        ensures counts { NeverFalls self.old.faults self.new.faults }
        ensures cause { OnErr result (Rose self.old.faults self.new.faults) }
    {
        if self.flushes.next_fails() {
            self.faults = self.faults.saturating_add(1);
            return Err(Failed);
        }
        self.flushed = self.bytes.len();
        Ok(())
    }
}

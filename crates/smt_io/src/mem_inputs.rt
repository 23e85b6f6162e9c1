//! A source of texts that are held in memory.
ghost use Rattle.std.specs.Prelude.{◌≡◌, ◌↔◌, ℕ, ◌<◌, ◌≤◌, List, [], ◌∷◌, ◌++◌, None, Some, Option, slice_set, length, take, unwrap_or, IfOk, OnOk, OnErr, IsErr, IsErrOf, IsTrue, MatchResult};
ghost use Rattle.smt_io.specs.Counts.{NeverFalls, Rose, raised_by};
ghost use Rattle.smt_io.specs.Told.{behind, IsAtEnd};
ghost use Rattle.smt_io.specs.Calls.{is_next_named, with_failing};
ghost use Rattle.smt_io.specs.NameCounts.{place_of, with_new_place};
ghost use Rattle.smt_io.specs.Memory.{Memory, new_memory, told_text, told_begun, told_rest, told_faults, begin_fails, after_begin, read_length, after_read, after_add};

use crate::calls::Calls;
use crate::fault_counts::FaultCounts;
use crate::inputs::{Inputs, StartFault};
use crate::sink::Failed;
use std::alloc::{AllocError, Global};
use std::marker::Model;

/// A source of texts that are held in memory. `begin` fails exactly where its call is named or the
/// name isn't held, and takes no memory. `read` fails exactly where its call is named, and gives at
/// most the step. Names that aren't held share one count of faults, from which such a name goes on
/// once it is added.
#[derive(Drop)]
pub struct MemInputs {
    alloc: Global,
    counts: FaultCounts,
    texts: Vec<Vec<u8>>,
    step: usize,
    begun: Option<usize>,
    taken: usize,
    given: u64,
    begins: Calls,
    reads: Calls,
}

impl Model for MemInputs {
    ghost use Rattle.std.specs.Prelude.{map};
    ghost use Rattle.smt_io.specs.Memory.{Memory, IsHeld};

    ghost Value = { Memory };

    ghost view = { λ s. record {
      counts = s.counts;
      texts = map (λ text. text.items) s.texts.items;
      step = s.step;
      begun = s.begun;
      taken = s.taken;
      given = s.given;
      begins = s.begins;
      reads = s.reads;
    } };

    ghost invariant = { λ s. IsHeld s.counts (map (λ text. text.items) s.texts.items) s.step s.begun s.taken };
}

impl MemInputs {
    /// A source that holds no text. The step, the most bytes that one read gives, is at least 1.
    pub fn new(alloc: Global, step: usize) -> MemInputs
        requires { 0 < step }
        ensures { result ≡ new_memory step }
    {
        MemInputs {
            alloc,
            counts: FaultCounts::new(alloc),
            texts: Vec::new(alloc),
            step,
            begun: None,
            taken: 0,
            given: 0,
            begins: Calls::new(alloc),
            reads: Calls::new(alloc),
        }
    }

    /// Adds a text, which takes the place of an earlier one of that name. After it no text is begun.
    /// A refusal leaves the source as before.
    pub fn add(&mut self, name: &str, bytes: &[u8]) -> Result<(), AllocError>
        ensures ok { OnOk result (self.new ≡ after_add self.old name.now bytes.now) }
        ensures err { OnErr result (self.new ≡ self.old) }
    {
        let text = Vec::from_slice(self.alloc, bytes)?;
        match self.counts.place(name) {
            Some(place) => {
                self.replace_text(place, text);
                Ok(())
            }
            None => self.add_text(name, text),
        }
    }

    // Puts a text at a place, and begins none.
    fn replace_text(&mut self, place: usize, text: Vec<u8>)
        requires { place < length self.old.texts }
        ensures { self.new ≡ record self.old { texts = slice_set self.old.texts place text.items; begun = None; taken = 0 } }
    {
        self.texts[place] = text;
        self.begun = None;
        self.taken = 0;
    }

    // Adds a text under a name that has none, and begins none.
    fn add_text(&mut self, name: &str, text: Vec<u8>) -> Result<(), AllocError>
        requires { place_of name.now self.old.counts ≡ None }
        ensures ok { OnOk result (self.new ≡ record self.old {
          counts = with_new_place name.now self.old.counts;
          texts = self.old.texts ++ text.items ∷ [];
          begun = None;
          taken = 0;
        }) }
        ensures err { OnErr result (self.new ≡ self.old) }
    {
        self.texts.reserve(1)?;
        self.counts.add(name)?;
        self.texts.push(text).unwrap();
        self.begun = None;
        self.taken = 0;
        Ok(())
    }

    /// Names a call of `begin` that fails, counted from 1. A refusal leaves the source as before.
    pub fn fail_begin(&mut self, call: u64) -> Result<(), AllocError>
        ensures ok { OnOk result (self.new ≡ record self.old { begins = with_failing call self.old.begins }) }
        ensures err { OnErr result (self.new ≡ self.old) }
    {
        self.begins.fail(call)?;
        Ok(())
    }

    /// Names a call of `read` that fails, counted from 1. A refusal leaves the source as before.
    pub fn fail_read(&mut self, call: u64) -> Result<(), AllocError>
        ensures ok { OnOk result (self.new ≡ record self.old { reads = with_failing call self.old.reads }) }
        ensures err { OnErr result (self.new ≡ self.old) }
    {
        self.reads.fail(call)?;
        Ok(())
    }
}

impl Inputs for MemInputs {
    ghost text = { told_text };

    ghost begun = { told_begun };

    ghost rest = { told_rest };

    ghost faults = { told_faults };

    ghost given = { λ s. s.given };

    fn begin(&mut self, _alloc: Global, name: &str) -> Result<(), StartFault>
        ensures fails { IsErr result ↔ IsTrue (begin_fails self.old name.now) }
        ensures after { self.new ≡ after_begin self.old name.now }
        ensures no_memory { OnErr result (IsErrOf result StartFault.Failed) }

        ensures begun { MatchResult result (λ _. told_begun self.new ≡ Some name.now) (λ _. told_begun self.new ≡ None) }
        ensures rest { MatchResult result (λ _. told_rest self.new ≡ told_text self.old name.now) (λ _. told_rest self.new ≡ None) }
        ensures texts { (n : List ℕ) → told_text self.new n ≡ told_text self.old n }
        ensures given { self.new.given ≡ self.old.given }
        ensures counts { (n : List ℕ) → NeverFalls (told_faults self.old n) (told_faults self.new n) }
        ensures cause { IsErrOf result StartFault.Failed → Rose (told_faults self.old name.now) (told_faults self.new name.now) }
    {
        let is_named = self.begins.next_fails();
        let place = self.counts.place(name);
        self.taken = 0;
        if is_named || place.is_none() {
            self.begun = None;
            self.counts.raise_at(place);
            return Err(StartFault::Failed);
        }
        self.begun = place;
        Ok(())
    }

    fn read(&mut self, buf: &mut [u8]) -> Result<usize, Failed>
        ensures fails { IsErr result ↔ IsTrue (is_next_named self.old.reads) }
        ensures length { IfOk result (λ n. n ≡ read_length self.old (length buf.old)) }
        ensures after { self.new ≡ after_read self.old (length buf.old) }

        ensures bound { IfOk result (λ n. n ≤ length buf.new) }
        ensures bytes { MatchResult result
            (λ n. told_rest self.old ≡ behind (take n buf.new) (told_rest self.new))
            (λ _. told_rest self.new ≡ told_rest self.old) }
        ensures end { IfOk result (λ n. n ≡ 0 → 0 < length buf.new → IsAtEnd (told_rest self.old)) }
        ensures idle { told_begun self.old ≡ None → IfOk result (λ n. n ≡ 0) }
        ensures begun { told_begun self.new ≡ told_begun self.old }
        ensures texts { (n : List ℕ) → told_text self.new n ≡ told_text self.old n }
        ensures given { MatchResult result
            (λ n. self.new.given ≡ raised_by n self.old.given)
            (λ _. self.new.given ≡ self.old.given) }
        ensures counts { (n : List ℕ) → NeverFalls (told_faults self.old n) (told_faults self.new n) }
        ensures cause { OnErr result (Rose (told_faults self.old (unwrap_or (told_begun self.old) []))
            (told_faults self.new (unwrap_or (told_begun self.old) []))) }
    {
        if self.reads.next_fails() {
            let place = match self.begun {
                Some(place) => Some(place),
                None => self.counts.place(""),
            };
            self.counts.raise_at(place);
            return Err(Failed);
        }
        let Some(place) = self.begun else {
            return Ok(0);
        };
        let rest = &self.texts[place][self.taken..];
        let n = buf.len().min(self.step).min(rest.len());
        buf[..n].copy_from_slice(&rest[..n]);
        self.taken += n;
        self.given = self.given.saturating_add(n as u64);
        Ok(n)
    }
}

//! Calls of one kind, some of which are named to fail.
ghost use Rattle.std.specs.Prelude.{◌≡◌, OnOk, OnErr};
ghost use Rattle.smt_io.specs.Calls.{no_calls, is_next_named, after_call, with_failing};

use std::alloc::{AllocError, Global};
use std::marker::Model;

// The calls of one kind that were made, and the numbers of those that fail, counted from 1.
#[derive(Drop)]
pub(crate) struct Calls {
    made: u64,
    failing: Vec<u64>,
}

impl Model for Calls {
    ghost use Rattle.smt_io.specs.Calls.{NamedCalls};

    ghost Value = { NamedCalls };

    ghost view = { λ c. record { made = c.made; failing = c.failing.items } };
}

impl Calls {
    pub(crate) fn new(alloc: Global) -> Calls
        ensures { result ≡ no_calls }
    {
        Calls {
            made: 0,
            failing: Vec::new(alloc),
        }
    }

    // Names a call that fails.
    pub(crate) fn fail(&mut self, call: u64) -> Result<(), AllocError>
        ensures ok { OnOk result (self.new ≡ with_failing call self.old) }
        ensures err { OnErr result (self.new ≡ self.old) }
    {
        self.failing.push(call)?;
        Ok(())
    }

    // Makes one more call, and answers whether it fails.
    pub(crate) fn next_fails(&mut self) -> bool
        ensures answer { result ≡ is_next_named self.old }
        ensures after { self.new ≡ after_call self.old }
    {
        let made = self.made;
        self.made = made.saturating_add(1);
        self.failing
            .iter()
            .any(|call| call.saturating_sub(made) == 1)
    }
}

//! Where texts come from.
ghost use Rattle.std.specs.Prelude.{◌≡◌, ℕ, ◌<◌, ◌≤◌, List, [], None, Some, Option, length, take, unwrap_or, IfOk, OnErr, IsErrOf, MatchResult};
ghost use Rattle.smt_io.specs.Counts.{NeverFalls, Rose, raised_by};
ghost use Rattle.smt_io.specs.Told.{behind, IsAtEnd};

use crate::sink::Failed;
use std::alloc::{AllocError, Global};
use thiserror::Error;

/// Why a text wasn't begun.
#[derive(Clone, Copy, Debug, PartialEq, Eq, Error)]
pub enum StartFault {
    /// The text can't be had, and the count of its name rose.
    #[error("the text can't be had")]
    Failed,
    /// Want of memory.
    #[error("want of memory")]
    Memory,
}

/// Why a text wasn't read whole.
#[derive(Clone, Copy, Debug, PartialEq, Eq, Error)]
pub enum ReadFault {
    /// A call on the source failed, and the count of the text's name rose.
    #[error("the text can't be read")]
    Failed,
    /// The text has more than 67,108,864 bytes.
    #[error("the text has more than 67,108,864 bytes")]
    TooLong,
    /// Want of memory.
    #[error("want of memory")]
    Memory,
}

impl From<StartFault> for ReadFault {
    ghost use Rattle.smt_io.specs.declared.inputs.ReadFault.{ReadFault};
    ghost use Rattle.smt_io.specs.declared.inputs.StartFault.{StartFault};
    ghost use Rattle.std.specs.Prelude.{◌≡◌};

    ghost from_gives = { λ fault given. (fault ≡ StartFault.Failed → given ≡ ReadFault.Failed)
        × (fault ≡ StartFault.Memory → given ≡ ReadFault.Memory) };

    fn from(fault: StartFault) -> ReadFault {
        match fault {
            StartFault::Failed => ReadFault::Failed,
            StartFault::Memory => ReadFault::Memory,
        }
    }
}

impl From<AllocError> for ReadFault {
    ghost use Rattle.smt_io.specs.declared.inputs.ReadFault.{ReadFault};
    ghost use Rattle.std.specs.Prelude.{◌≡◌};

    ghost from_gives = { λ _ given. given ≡ ReadFault.Memory };

    fn from(_: AllocError) -> ReadFault {
        ReadFault::Memory
    }
}

/// A source of named texts. It tells its texts, one a name, and the rest of the text that is begun,
/// or it doesn't; no call changes the texts, or whether they are told. For each name it has a count
/// of faults that never falls and stands still at `u64::MAX`, as does the number of bytes given.
pub trait Inputs {
    // The text of a name, where it is told.
    ghost text: { Self → List ℕ → Option (List ℕ) };

    // The name of the text that is begun.
    ghost begun: { Self → Option (List ℕ) };

    // What is left of the text that is begun, where it is told.
    ghost rest: { Self → Option (List ℕ) };

    // The count of faults of a name.
    ghost faults: { Self → List ℕ → ℕ };

    // The number of bytes that the reads gave.
    ghost given: { Self → ℕ };

    /// Begins the text of that name, and gives up a text begun earlier. After a refusal no text is
    /// begun. The name `-` is standard input.
    fn begin(&mut self, alloc: Global, name: &str) -> Result<(), StartFault>
        ensures begun { MatchResult result (λ _. begun self.new ≡ Some name.now) (λ _. begun self.new ≡ None) }
        ensures rest { MatchResult result (λ _. rest self.new ≡ text self.old name.now) (λ _. rest self.new ≡ None) }
        ensures texts { (n : List ℕ) → text self.new n ≡ text self.old n }
        ensures given { given self.new ≡ given self.old }
        ensures counts { (n : List ℕ) → NeverFalls (faults self.old n) (faults self.new n) }
        ensures cause { IsErrOf result StartFault.Failed → Rose (faults self.old name.now) (faults self.new name.now) };

    /// Moves the next bytes of the text that is begun into the front of `buf` and answers how many:
    /// 0 where no text is begun, and for a `buf` with room exactly at the end of the text. After an
    /// error the rest is as before.
    fn read(&mut self, buf: &mut [u8]) -> Result<usize, Failed>
        ensures bound { IfOk result (λ n. n ≤ length buf.new) }
        ensures bytes { MatchResult result
            (λ n. rest self.old ≡ behind (take n buf.new) (rest self.new))
            (λ _. rest self.new ≡ rest self.old) }
        ensures end { IfOk result (λ n. n ≡ 0 → 0 < length buf.new → IsAtEnd (rest self.old)) }
        ensures idle { begun self.old ≡ None → IfOk result (λ n. n ≡ 0) }
        ensures begun { begun self.new ≡ begun self.old }
        ensures texts { (n : List ℕ) → text self.new n ≡ text self.old n }
        ensures given { MatchResult result
            (λ n. given self.new ≡ raised_by n (given self.old))
            (λ _. given self.new ≡ given self.old) }
        ensures counts { (n : List ℕ) → NeverFalls (faults self.old n) (faults self.new n) }
        ensures cause { OnErr result (Rose (faults self.old (unwrap_or (begun self.old) []))
            (faults self.new (unwrap_or (begun self.old) []))) };
}

//! Where text goes.
ghost use Rattle.std.specs.Prelude.{◌≡◌, ℕ, ◌<◌, ◌≤◌, List, length, take, IfOk, OnOk, OnErr, MatchResult, Option};
ghost use Rattle.smt_io.specs.Counts.{NeverFalls, Rose};
ghost use Rattle.smt_io.specs.Told.{with_bytes};

use thiserror::Error;

/// A call on a source or a sink failed, and its count of faults rose.
#[derive(Clone, Copy, Debug, PartialEq, Eq, Error)]
#[error("a call on a source or a sink failed")]
pub struct Failed;

/// Where text goes. A sink tells the list of the bytes sent, or doesn't, and no call changes which.
/// It has a count of faults that never falls and stands still at `u64::MAX`.
pub trait Sink {
    // The bytes sent, where they are told.
    ghost sent: { Self → Option (List ℕ) };

    // The bytes that had been sent at the last flush that didn't fail, where they are told.
    ghost flushed: { Self → Option (List ℕ) };

    ghost faults: { Self → ℕ };

    /// Appends a prefix of the piece and answers its length, at least 1 where the piece isn't empty.
    /// After an error nothing was appended.
    fn write(&mut self, piece: &[u8]) -> Result<usize, Failed>
        ensures bound { IfOk result (λ n. n ≤ length piece.now) }
        ensures some { IfOk result (λ n. 0 < length piece.now → 0 < n) }
        ensures bytes { MatchResult result
            (λ n. sent self.new ≡ with_bytes (sent self.old) (take n piece.now))
            (λ _. sent self.new ≡ sent self.old) }
        ensures flushed { flushed self.new ≡ flushed self.old }
        ensures counts { NeverFalls (faults self.old) (faults self.new) }
        ensures cause { OnErr result (Rose (faults self.old) (faults self.new)) };

    /// Hands on what was sent, and leaves the bytes as they are.
    fn flush(&mut self) -> Result<(), Failed>
        ensures bytes { sent self.new ≡ sent self.old }
        ensures ok { OnOk result (flushed self.new ≡ sent self.old) }
        ensures err { OnErr result (flushed self.new ≡ flushed self.old) }
        ensures counts { NeverFalls (faults self.old) (faults self.new) }
        ensures cause { OnErr result (Rose (faults self.old) (faults self.new)) };
}

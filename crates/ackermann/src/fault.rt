//! Why the applications of an assertion aren't removed.

use std::alloc::AllocError;

/// Why the applications of an assertion aren't removed.
#[derive(Clone, Copy, Debug, PartialEq, Eq)]
pub enum AckFault {
    /// An application stands below a quantifier.
    QuantifiedUse,
    /// There is no memory.
    Memory,
}

impl From<AllocError> for AckFault {
    ghost use Rattle.std.specs.Prelude.{◌≡◌};
    ghost use Rattle.ackermann.specs.declared.fault.AckFault.TheVariants.{Memory};

    ghost from_gives = { λ _ made. made ≡ Memory };

    fn from(_error: AllocError) -> AckFault {
        AckFault::Memory
    }
}

//! Why a node isn't made.

ghost use Rattle.std.specs.Prelude.{◌≡◌};

use std::alloc::{AllocError, AllocFailed};
use term_table::RankFault;
use thiserror::Error;

/// Why a node isn't made.
#[derive(Clone, Copy, Debug, PartialEq, Eq, Error)]
pub enum MakeFault {
    /// The operator has no rank over these operands.
    #[error(transparent)]
    Rank(RankFault),
    /// There is no memory.
    #[error("want of memory")]
    Memory,
}

impl From<RankFault> for MakeFault {
    ghost use Rattle.sort_check.specs.declared.fault.MakeFault.TheVariants.{Rank};

    ghost from_gives = { λ fault made. made ≡ Rank fault };

    fn from(fault: RankFault) -> MakeFault {
        MakeFault::Rank(fault)
    }
}

impl From<AllocError> for MakeFault {
    ghost use Rattle.sort_check.specs.declared.fault.MakeFault.TheVariants.{Memory};

    ghost from_gives = { λ _ made. made ≡ Memory };

    fn from(_error: AllocError) -> MakeFault {
        MakeFault::Memory
    }
}

impl<T: Drop> From<AllocFailed<T>> for MakeFault {
    ghost use Rattle.sort_check.specs.declared.fault.MakeFault.TheVariants.{Memory};

    ghost from_gives = { λ _ made. made ≡ Memory };

    fn from(_error: AllocFailed<T>) -> MakeFault {
        MakeFault::Memory
    }
}

//! Refusals of scripts, inside the reader and as its caller sees them.

use crate::causes::Cause;
use std::alloc::{AllocError, AllocFailed};
use thiserror::Error;

/// What is wrong, and the first byte of the form that it is wrong with.
#[derive(Clone, Copy, Debug, PartialEq, Eq)]
pub struct Fault {
    /// What is wrong.
    pub cause: Cause,
    /// The form's first byte, counted from 0.
    pub place: u32,
}

/// Why a part of a script isn't read.
#[derive(Clone, Copy, Debug, PartialEq, Eq)]
pub enum ReadFault {
    /// It is refused.
    Refused(Fault),
    /// There is no memory.
    Memory,
}

impl From<Fault> for ReadFault {
    ghost use Rattle.std.specs.Prelude.{◌≡◌};
    ghost use Rattle.script_terms.specs.declared.faults.ReadFault.TheVariants.{Refused};

    ghost from_gives = { λ fault made. made ≡ Refused fault };

    fn from(fault: Fault) -> ReadFault {
        ReadFault::Refused(fault)
    }
}

impl From<AllocError> for ReadFault {
    ghost use Rattle.std.specs.Prelude.{◌≡◌};
    ghost use Rattle.script_terms.specs.declared.faults.ReadFault.TheVariants.{Memory};

    ghost from_gives = { λ _ made. made ≡ Memory };

    fn from(_error: AllocError) -> ReadFault {
        ReadFault::Memory
    }
}

impl<T: Drop> From<AllocFailed<T>> for ReadFault {
    ghost use Rattle.std.specs.Prelude.{◌≡◌};
    ghost use Rattle.script_terms.specs.declared.faults.ReadFault.TheVariants.{Memory};

    ghost from_gives = { λ _ made. made ≡ Memory };

    fn from(_error: AllocFailed<T>) -> ReadFault {
        ReadFault::Memory
    }
}

/// Why a script is refused: the number of the cause, the command from 1 on, and the line from 1 on and the byte from 0 on
/// of the form that it is wrong with.
#[derive(Clone, Copy, Debug, PartialEq, Eq, Error)]
#[error("line {line}, byte {byte}: command {command} is refused with {code}")]
pub struct Refusal {
    /// The number of the cause.
    pub code: u16,
    /// The command, counted from 1; 0 where the text as a whole is refused.
    pub command: u64,
    /// The line, counted from 1; 0 for a text that is too long.
    pub line: u64,
    /// The byte of the text, counted from 0.
    pub byte: u64,
}

/// Why a script isn't read.
#[derive(Clone, Copy, Debug, PartialEq, Eq, Error)]
pub enum ScriptFault {
    /// The first refusal.
    #[error(transparent)]
    Refused(Refusal),
    /// There is no memory.
    #[error("want of memory")]
    Memory,
}

impl From<AllocError> for ScriptFault {
    ghost use Rattle.std.specs.Prelude.{◌≡◌};
    ghost use Rattle.script_terms.specs.declared.faults.ScriptFault.TheVariants.{Memory};

    ghost from_gives = { λ _ made. made ≡ Memory };

    fn from(_error: AllocError) -> ScriptFault {
        ScriptFault::Memory
    }
}

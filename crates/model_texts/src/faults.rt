//! Why a model's text is refused.

use std::alloc::{AllocError, AllocFailed};
use thiserror::Error;

/// Why a model's text is refused, each with the line and the first byte of the form that it is wrong with. Lines count from 1,
/// bytes from 0.
#[derive(Clone, Copy, Debug, PartialEq, Eq, Error)]
pub enum ModelFault {
    /// A form that doesn't belong where it stands.
    #[error("a form out of place at line {line}, byte {byte}")]
    ModelForm { line: u64, byte: u64 },
    /// Another sort than the one that is wanted.
    #[error("another sort at line {line}, byte {byte}")]
    ModelSort { line: u64, byte: u64 },
    /// Neither a value nor a table.
    #[error("neither a value nor a table at line {line}, byte {byte}")]
    NotATable { line: u64, byte: u64 },
    /// A number outside the range, or too great for its width.
    #[error("a number beyond its limit at line {line}, byte {byte}")]
    ModelNumber { line: u64, byte: u64 },
    /// A second entry for one name.
    #[error("a second entry at line {line}, byte {byte}")]
    ModelTwice { line: u64, byte: u64 },
    /// There is no memory.
    #[error("want of memory")]
    Memory,
}

/// What is wrong with a form.
#[derive(Clone, Copy, Debug, PartialEq, Eq)]
pub(crate) enum Cause {
    ModelForm,
    ModelSort,
    NotATable,
    ModelNumber,
    ModelTwice,
}

/// The same with the first byte of the form, before its line is known.
#[derive(Clone, Copy, Debug, PartialEq, Eq)]
pub(crate) enum TextFault {
    Refused { cause: Cause, byte: u64 },
    Memory,
}

impl From<AllocError> for TextFault {
    ghost use Rattle.std.specs.Prelude.{◌≡◌};
    ghost use Rattle.model_texts.specs.declared.faults.TextFault.TheVariants.{Memory};

    ghost from_gives = { λ _ made. made ≡ Memory };

    fn from(_error: AllocError) -> TextFault {
        TextFault::Memory
    }
}

impl<T: Drop> From<AllocFailed<T>> for TextFault {
    ghost use Rattle.std.specs.Prelude.{◌≡◌};
    ghost use Rattle.model_texts.specs.declared.faults.TextFault.TheVariants.{Memory};

    ghost from_gives = { λ _ made. made ≡ Memory };

    fn from(_error: AllocFailed<T>) -> TextFault {
        TextFault::Memory
    }
}

impl From<AllocError> for ModelFault {
    ghost use Rattle.std.specs.Prelude.{◌≡◌};
    ghost use Rattle.model_texts.specs.declared.faults.ModelFault.TheVariants.{Memory};

    ghost from_gives = { λ _ made. made ≡ Memory };

    fn from(_error: AllocError) -> ModelFault {
        ModelFault::Memory
    }
}

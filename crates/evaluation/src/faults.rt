//! Why a formula isn't evaluated.

use smt_terms::NodeId;
use std::alloc::AllocError;
use thiserror::Error;

/// Why a formula isn't evaluated.
#[derive(Clone, Copy, Debug, PartialEq, Eq, Error)]
pub enum EvalFault {
    /// A subterm has a whole number outside the range as its value, for some values of the variables bound above it.
    #[error("a whole number of more than 127 bits at node {node:?}")]
    Beyond128 { node: NodeId },
    /// Quantifiers bind more than 16 bits on a path; at most so many, or 4,294,967,295 where they are more.
    #[error("{bits} bits under quantifiers")]
    EvalWidth { bits: u32 },
    /// There is no memory.
    #[error("want of memory")]
    Memory,
}

/// Why a formula that binds at most 16 bits on each path has no value.
#[derive(Clone, Copy, Debug, PartialEq, Eq, Error)]
pub enum ValueFault {
    /// A subterm has a whole number outside the range as its value, for some values of the variables bound above it.
    #[error("a whole number of more than 127 bits at node {node:?}")]
    Beyond128 { node: NodeId },
    /// There is no memory.
    #[error("want of memory")]
    Memory,
}

impl From<AllocError> for EvalFault {
    ghost use Rattle.std.specs.Prelude.{◌≡◌};
    ghost use Rattle.evaluation.specs.declared.faults.EvalFault.TheVariants.{Memory};

    ghost from_gives = { λ _ made. made ≡ Memory };

    fn from(_error: AllocError) -> EvalFault {
        EvalFault::Memory
    }
}

impl From<AllocError> for ValueFault {
    ghost use Rattle.std.specs.Prelude.{◌≡◌};
    ghost use Rattle.evaluation.specs.declared.faults.ValueFault.TheVariants.{Memory};

    ghost from_gives = { λ _ made. made ≡ Memory };

    fn from(_error: AllocError) -> ValueFault {
        ValueFault::Memory
    }
}

impl From<ValueFault> for EvalFault {
    ghost use Rattle.std.specs.Prelude.{◌≡◌};
    ghost use Rattle.evaluation.specs.Evaluated.{fault_of};

    ghost from_gives = { λ fault made. made ≡ fault_of fault };

    fn from(fault: ValueFault) -> EvalFault {
        match fault {
            ValueFault::Beyond128 { node } => EvalFault::Beyond128 { node },
            ValueFault::Memory => EvalFault::Memory,
        }
    }
}

//! The forms of a formula as nodes.

ghost use Rattle.std.specs.Prelude.{◌≡◌, IfOk};
ghost use Rattle.normal_forms.specs.FormNodes.{positive_of, negative_of};

use smt_terms::NodeId;
use std::alloc::AllocError;

/// What a formula becomes where it stands, and where its negation stands. The two nodes take half the memory of their
/// numbers: no table has 2^32 nodes.
#[derive(Clone, Copy)]
pub struct Forms {
    positive: u32,
    negative: u32,
}

impl Forms {
    // A number that needs more than 4 bytes, which no table has, is want of memory.
    pub(crate) fn new(positive: NodeId, negative: NodeId) -> Result<Forms, AllocError>
        ensures positive { IfOk result (λ f. positive_of f ≡ positive) }
        ensures negative { IfOk result (λ f. negative_of f ≡ negative) }
    {
        match (u32::try_from(positive.0), u32::try_from(negative.0)) {
            (Ok(positive), Ok(negative)) => Ok(Forms { positive, negative }),
            _ => Err(AllocError),
        }
    }

    pub(crate) fn positive(self) -> NodeId
        ensures { result ≡ positive_of self }
    {
        NodeId(u64::from(self.positive))
    }

    pub(crate) fn negative(self) -> NodeId
        ensures { result ≡ negative_of self }
    {
        NodeId(u64::from(self.negative))
    }
}

//! Why an operator doesn't go with its operands.

use smt_terms::SortId;
use thiserror::Error;

/// The first reason why an operator has no rank over its operands, in the order of the variants.
#[derive(Clone, Copy, Debug, PartialEq, Eq, Error)]
pub enum RankFault {
    /// Another number of operands.
    #[error("another number of operands is wanted")]
    WrongArity,
    /// The operand of this number, counted from 0, has the first sort where the second is wanted.
    #[error("operand {arg} has another sort than is wanted")]
    WrongSort {
        arg: u64,
        have: SortId,
        want: SortId,
    },
    /// An index, or a constant, outside its range.
    #[error("an index or a constant outside its range")]
    BadIndex,
    /// A result of more than 128 bits.
    #[error("a result of more than 128 bits")]
    WidthLimit,
}

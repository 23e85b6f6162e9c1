//! Heads of applications (SMT-LIB 2.6, section 3.6).

use smt_terms::{SortId, SymId};
use sort_check::Operator;

/// What the head of an application calls.
#[derive(Clone, Copy)]
pub enum Callee {
    /// A written operator, with its indices.
    Written(Operator),
    /// The constant array of a sort.
    ArrayOf(SortId),
    /// A declared symbol.
    Called(SymId),
    /// The definition of this number.
    Defined(usize),
    /// What takes no operands.
    Operandless,
}

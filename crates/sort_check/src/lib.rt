//! Makes nodes of a table, by an operator or by a written operator, which a name finds. A call tests the operands by the
//! operator's rank: it makes a node exactly where there is one, and answers the first fault where there is none.
//! Written operators are those of the SMT-LIB theories Core, Ints, FixedSizeBitVectors and ArraysEx and of the logic
//! QF_BV; chains, associative operators and those with no node of their own become the nodes that they stand for.

#![tactic(auto)]

mod alike;
mod chains;
pub mod fault;
mod folds;
mod making;
mod operators;
mod vectors;
mod written;

pub use fault::MakeFault;
pub use making::make;
pub use operators::make_form;
pub use written::{Form, Operator, form_named};

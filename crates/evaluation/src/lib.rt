//! Values of formulas in a model, within 128 bits: the value of a node, the widths that its quantifiers bind, and the refusals where
//! these are too many or a whole number lies outside the range. Each answer is the one of the definition over trees (SMT-LIB 2.6,
//! section 5.3), and each node of a formula is valued once for each choice of the variables that are bound above it.

#![tactic(auto)]

mod bindings;
mod bounds;
mod evaluating;
mod faults;
mod operators;
mod orders;
mod quantifiers;
mod results;

pub use bounds::bits_bound;
pub use evaluating::{eval, value_of};
pub use faults::{EvalFault, ValueFault};

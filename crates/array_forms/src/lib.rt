//! Arrays in formulas: an element read from an array that was written to, told by the indices, and the term of an array's
//! value.

#![tactic(auto)]

pub mod laws;
mod over_write;
mod reading;
pub mod value_terms;

pub use over_write::read_over_write;
pub use value_terms::array_value;

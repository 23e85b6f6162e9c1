//! Reads terms of SMT-LIB 2.6: sorts, bound names and terms, in which `let`, definitions and names of terms are replaced,
//! and what is live while a script is read.

#![tactic(auto)]

pub mod binders;
pub mod causes;
pub mod constants;
pub mod faults;
mod levels;
pub mod lists;
pub mod locals;
pub mod names;
pub mod node_sorts;
mod numbers;
pub mod places;
pub mod scopes;
pub mod sofar;
pub mod sorts;
pub mod terms;

//! Conjunctive normal form by names for subformulas, with the clauses that the polarities of their occurrences ask for.

#![tactic(auto)]

pub mod clauses;
mod complement;
mod defining;
pub mod laws;
mod literals;
mod polarities;
mod shapes;

pub use clauses::cnf;

//! Formulas without quantified truth values: Shannon's expansion and self-substitution, over the nodes of a table. Each takes
//! the Bool variables of a quantifier out of its formula, and leaves its other variables.

#![tactic(auto)]

mod occurrences;
mod replacing;
pub mod self_substitution;
pub mod shannon_expansion;
mod truths;
mod work;

pub use self_substitution::self_subst;
pub use shannon_expansion::shannon;

//! Models over the signature of a script's check: the sorts and symbols that are live there, the values of the symbols as
//! tables of rows, the sizes of the sorts, and the results of `div` and `mod` by zero (SMT-LIB 2.6, sections 5.2 and 5.3).

#![tactic(auto)]

mod graph;
mod laws;
mod live_roots;
mod live_terms;
mod model;
mod numbers;
mod row_keys;
mod signature;

pub use graph::Graph;
pub use laws::models_stay;
pub use live_roots::{flags_at, is_flag, roots_of};
pub use live_terms::live;
pub use model::{Division, Model};
pub use numbers::NumberGraph;
pub use signature::{Signature, signature_at};

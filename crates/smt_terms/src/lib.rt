//! Formulas of SMT-LIB 2.6 as plain trees, and what they mean: sorts, operators, terms, the rank of an
//! operator, values, models, the value of a term, free symbols, supplies of fresh names and substitution.
//! The crate is a base of definitions, which every other crate's contracts cite; its code is only the list of
//! node operators, the numbers by which a table names its nodes, symbols and sorts, and a hasher for names.

#![tactic(auto)]

pub mod ids;
pub mod laws;
pub mod name_hash;
pub mod op;

pub use ids::{MOST_BITS, NodeId, SortId, SymId};
pub use name_hash::{BuildNameHasher, NameHasher};
pub use op::Op;

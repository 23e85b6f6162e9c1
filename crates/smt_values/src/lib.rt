//! Sorts and values as a program holds them: sorts that are numbers of a table, the sizes of declared sorts, scalars of at
//! most 128 bits with the operators of the theories on them, and arrays as a default with pairs. Every answer is the one of
//! the definitions over plain values.

#![tactic(auto)]

pub mod apply;
pub mod array;
pub mod flat_keys;
pub mod laws;
pub mod scalar;
pub mod sizes;
pub mod sort_table;
pub mod value;

pub use apply::{Beyond128, apply_scalar};
pub use array::{copy_value, default_value, same, select, store};
pub use flat_keys::{FlatKey, flat_key};
pub use scalar::Scalar;
pub use sizes::Sizes;
pub use smt_terms::{Op, SortId, SymId};
pub use sort_table::SortTable;
pub use value::{ArrayValue, Value};

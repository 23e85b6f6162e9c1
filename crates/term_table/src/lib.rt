//! The table of formulas. A formula is a numbered node: an operator over nodes with smaller numbers. Equal operators
//! over equal operands have one number, so that a formula is compared, kept and shared by its number alone.

#![tactic(auto)]

pub mod fault;
mod hashing;
pub mod laws;
pub mod lists;
pub mod rank;
pub mod table;
pub mod text;

pub use fault::RankFault;
pub use laws::know_table;
pub use lists::{Bytes, Nodes, Syms};
pub use smt_terms::NodeId;
pub use table::Table;
pub use text::{scalar_text, sort_text};

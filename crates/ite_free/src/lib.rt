//! Removal of `ite` over terms: each `ite` of another sort than Bool gets a constant, and two assertions that say what
//! it is.

#![tactic(auto)]

pub mod laws;
pub mod removal;

pub use removal::remove_ite;

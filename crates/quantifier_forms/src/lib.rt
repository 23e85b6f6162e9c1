//! Prenex form, formulas whose quantifiers stand in front, over the nodes of a table. And what passes over quantifiers share:
//! the subterms of a node in order, results that are kept, nodes over other operands, and quantifiers over some variables.

#![tactic(auto)]

mod exchanging;
pub mod listing;
pub mod memo;
pub mod prenex_form;
mod pulling;
pub mod quantifying;
mod reaching;
pub mod rebuilding;
mod tasks;

pub use prenex_form::prenex;

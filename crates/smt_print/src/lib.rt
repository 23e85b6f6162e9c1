//! Prints terms and scripts of SMT-LIB 2.6, each command on a line of its own, with terms either as trees or with each
//! shared subterm written once.

#![tactic(auto)]

mod commands;
mod dag;
mod draft;
mod heads;
mod laws;
mod layout;
mod names;
mod numbers;
mod output;
mod page;
mod scope;
mod scripts;
mod terms;
mod tree;

pub use laws::printing_reads_back;
pub use layout::Layout;
pub use scripts::{script_into, script_text};
pub use terms::term_text;

//! The passes over the assertions of a script, what each makes of a script's commands, and how models are carried over a list of
//! them: definitions, and their laws as the contracts of functions that do nothing. `passes` does what is defined here.

#![tactic(auto)]

pub mod laws;
mod names;

pub use names::{ListFault, Pass};

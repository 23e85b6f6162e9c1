//! Removal of applications of functions: each application gets a constant, and two constants of one function are equal
//! where the arguments are. Constants live on the levels of a script.

#![tactic(auto)]

mod applications;
mod entering;
pub mod fault;
pub mod laws;
pub mod live;
mod pairs;
mod quantified;
mod removal;
mod replacing;
mod uses;

pub use fault::AckFault;
pub use live::Ack;
pub use quantified::has_quantified_use;

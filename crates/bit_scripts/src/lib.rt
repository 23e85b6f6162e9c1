//! Scripts over truth values in the place of a check of a script over bit vectors, and models carried both ways between them.

#![tactic(auto)]

pub mod laws;
pub mod lifting;
pub mod scripts;

pub use lifting::lift;
pub use scripts::{BlastScriptFault, Blasting, blast_check};

//! Lists of passes over scripts: how a list is written, the script that its passes make of a script, one after the other,
//! and how models are carried from the one script to the other and back.

#![tactic(auto)]

mod carrying;
mod grouping;
mod list;
mod plan;
mod removing;
mod rewriters;
mod running;
mod searching;
mod tables;

pub use carrying::{CarryFault, back, forth};
pub use list::{Passes, parse_list};
pub use plan::Plan;
pub use running::{PassFault, run_passes};

//! Walks over the formulas of a table. A formula shares its subterms, so that as a tree it may be exponentially larger
//! than as nodes: a walk visits each node once, from below, and keeps one result for each.

#![tactic(auto)]

pub mod binders;
pub mod count;
mod frames;
pub mod free;
pub mod kept;
pub mod meeting;
pub mod node_step;
pub mod stacks;
pub mod steps;
pub mod walks;

pub use binders::is_binder;
pub use count::count_nodes;
pub use free::free_symbols;
pub use kept::Kept;
pub use node_step::NodeStep;
pub use stacks::Stack;
pub use steps::Steps;
pub use walks::{walk, walk_all};

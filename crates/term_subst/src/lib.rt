//! Substitution of terms for constants, without capture, over the nodes of a table; and the fresh names that it draws,
//! which stand nowhere yet.

#![tactic(auto)]

mod by_node;
mod chosen;
mod cut;
mod findings;
pub mod fresh;
mod machine;
pub mod maps;
pub mod names;
mod nodes;
pub mod noted;
mod renaming;
pub mod substitution;
mod survey;
mod todo;

pub use fresh::{Fresh, begins_as_drawn};
pub use maps::{Definition, Group, SymMap, SymPairs};
pub use names::NameSet;
pub use noted::NotedNames;
pub use substitution::{expand, substitute};

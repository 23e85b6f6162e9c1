//! Stored rules for formulas: a rule is shown a part of a formula, its operator with what stands one and two steps below it, and
//! may answer a template that takes its place. The book keeps only rules that are proved to keep the value of what they are
//! shown, so a formula keeps its value whatever rules are in the book.

#![tactic(auto)]

mod applying;
mod book;
pub mod eight_rules;
mod filling;
pub mod laws;
mod templates;
mod viewing;
mod views;

pub use applying::apply;
pub use book::{AddFault, Named, Rule, RuleBook};
pub use templates::{Parts, Piece, Tmpl};
pub use views::{Cell, Cells, View};

//! Checks whose assertions are clauses as DIMACS text, and solvers' answers as models.

#![tactic(auto)]

mod answer_models;
mod answers;
mod checks;
mod clauses;
mod items;
pub mod laws;
mod literals;
mod numbers;
mod pieces;
mod progress;
mod reading;
mod truths;

pub use answer_models::answer_model;
pub use answers::{Answer, AnswerFault, read_answer};
pub use checks::{LinkCheckFault, clause_constants, link_check};
pub use clauses::{LinkFault, dimacs_text};
pub use truths::Truths;

//! Normal forms of formulas: negation normal form, and-inverter form, prenex form, and the two ways of doing without
//! quantified truth values, Shannon's expansion and self-substitution.

#![tactic(auto)]

pub mod and_inverter_form;
pub mod binding;
pub mod comparing;
pub mod connective;
mod forms;
pub mod laws;
pub mod literals;
pub mod making;
pub mod negation_normal_form;
pub mod node_forms;
pub mod opposites;
pub mod results;
pub mod room;
pub mod shapes;

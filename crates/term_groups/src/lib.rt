//! Groups: what passes with new symbols put in the place of an assertion. It has the parts of a formula that they look into, the
//! constants that they draw for terms and put in the places of these, and what it means that a group takes the place of a formula,
//! with the laws that follow for names.

#![tactic(auto)]

pub mod constants;
pub mod laws;
pub mod making;
pub mod parts;
pub mod replacing;

//! The simplifier: formulas made smaller from below, by the values of operators over constants and by the laws of each
//! operator, without a change of their value in any model. It knows nothing of scripts: a formula goes in, a formula comes out.

#![tactic(auto)]

mod arrays;
mod constants;
mod folding;
mod junctions;
pub mod laws;
mod logic;
mod numbers;
mod occurrence;
mod operands;
mod quantifying;
mod reduction;
mod simplification;
mod vectors;

pub use simplification::simplify;

//! Bit-blasting: formulas over bit vectors become formulas over truth values. Each constant of a bit vector gives way to new
//! constants, one for each of its bits, and each operator to its circuit of connectives. Every model of what is made gives one
//! of the formulas, and the other way round.

#![tactic(auto)]

mod bit_lists;
pub mod blasting;
mod checking;
mod constants;
mod division;
mod gates;
pub mod laws;
mod operators;
mod orders;
mod parts;
mod products;
mod shifts;
mod signed;
mod subterms;
mod sums;
mod vectors;

pub use blasting::{BlastFault, blast};

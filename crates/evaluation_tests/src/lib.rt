//! Tests of `evaluation`: formulas that hold in a model or don't, quantifiers that bind too many bits, and a number that leaves
//! the range. They are a crate of their own, because tests inside a crate are proved together with all functions of the crate
//! once more.

#![tactic(auto)]

#[cfg(test)]
mod tests;

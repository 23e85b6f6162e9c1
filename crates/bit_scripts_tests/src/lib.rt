//! Tests of `bit_scripts`: a check over bit vectors as a printed script over truth values, and one that is refused. They are a
//! crate of their own, because tests inside a crate are proved together with all functions of the crate once more.

#![tactic(auto)]

#[cfg(test)]
mod tests;

//! Tests of `smt_values`: each operator against tables of values, and arrays that are stored to, read and compared. They are a crate of
//! their own, because tests inside a crate are proved together with all functions of the crate once more.

#![tactic(auto)]

#[cfg(test)]
mod tests;

//! Tests of `term_walk`: walks that answer each node once, counts, and free symbols. They are a crate of
//! their own, because tests inside a crate are proved together with all functions of the crate once more.

#![tactic(auto)]

#[cfg(test)]
mod tests;

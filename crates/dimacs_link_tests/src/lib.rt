//! Tests of `dimacs_link`: solvers' answers, or the places of their faults. They are a crate of
//! their own, because tests inside a crate are proved together with all functions of the crate once more.

#![tactic(auto)]

#[cfg(test)]
mod tests;

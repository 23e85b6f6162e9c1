//! Tests of `term_table`: nodes that are made once, ranks and their faults, and texts of scalars and sorts. They are a crate of
//! their own, because tests inside a crate are proved together with all functions of the crate once more.

#![tactic(auto)]

#[cfg(test)]
mod tests;

//! Tests of `sort_check`: terms over operands of good and of bad sorts. They are a crate of
//! their own, because tests inside a crate are proved together with all functions of the crate once more.

#![tactic(auto)]

#[cfg(test)]
mod tests;

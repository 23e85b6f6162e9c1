//! Tests of `rule_book`: books of a few rules, which are applied to terms. They are a crate of
//! their own, because tests inside a crate are proved together with all functions of the crate once more.

#![tactic(auto)]

#[cfg(test)]
mod tests;

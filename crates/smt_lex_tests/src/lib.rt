//! Tests of `smt_lex`: texts with their tokens, or with the place of their first fault. They are a crate of
//! their own, because tests inside a crate are proved together with all functions of the crate once more.

#![tactic(auto)]

#[cfg(test)]
mod tests;

//! Tests of `term_subst`: names that are drawn, and substitution in small formulas and in deep ones. They are a crate of
//! their own, because tests inside a crate are proved together with all functions of the crate once more.

#![tactic(auto)]

#[cfg(test)]
mod tests;

//! Tests of `quantifier_forms` and of `boolean_quantifiers`: prenex form, Shannon's expansion and self-substitution of small
//! formulas and of deep ones. They are a crate of their own, because tests inside a crate are proved together with all
//! functions of the crate once more.

#![tactic(auto)]

#[cfg(test)]
mod tests;

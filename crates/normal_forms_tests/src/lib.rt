//! Tests of `normal_forms`: terms with their negation normal form and their and-inverter form, and deep ones. They are a crate of
//! their own, because tests inside a crate are proved together with all functions of the crate once more.

#![tactic(auto)]

#[cfg(test)]
mod tests;

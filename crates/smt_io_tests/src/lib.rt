//! Tests of `smt_io`: runs over memory and the host, with each call failing in turn. They are a crate of
//! their own, because tests inside a crate are proved together with all functions of the crate once more.

#![tactic(auto)]

#[cfg(test)]
mod tests;

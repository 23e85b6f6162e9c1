//! Tests of `smt_print`: the texts of terms and of scripts, as trees and as dags. They are a crate of
//! their own, because tests inside a crate are proved together with all functions of the crate once more.

#![tactic(auto)]

#[cfg(test)]
mod tests;

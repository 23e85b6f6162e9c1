//! Tests of `array_forms`: terms of arrays with the values that they stand for. They are a crate of
//! their own, because tests inside a crate are proved together with all functions of the crate once more.

#![tactic(auto)]

#[cfg(test)]
mod tests;

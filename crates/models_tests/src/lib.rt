//! Tests of `models`: what is live at checks of scripts, functions with rows, and divisions by zero. They are a crate of
//! their own, because tests inside a crate are proved together with all functions of the crate once more.

#![tactic(auto)]

#[cfg(test)]
mod tests;

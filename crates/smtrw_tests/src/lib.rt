//! Tests of `smtrw_run`: the whole program on texts and devices in memory. They are a crate of their own, because tests inside a
//! crate are proved together with all functions of the crate once more.

#![tactic(auto)]

#[cfg(test)]
mod tests;

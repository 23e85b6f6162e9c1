//! Tests of `smtrw_answers`: words with what they ask for or their first fault, and the line about a file. They are a crate of
//! their own, because tests inside a crate are proved together with all functions of the crate once more.

#![tactic(auto)]

#[cfg(test)]
mod tests;

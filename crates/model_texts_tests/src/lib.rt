//! Tests of `model_texts`: texts that give models, printed again, and texts that give none. They are a crate
//! of their own, because tests inside a crate are proved together with all functions of the crate once more.

#![tactic(auto)]

#[cfg(test)]
mod tests;

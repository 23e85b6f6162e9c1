//! The laws of the definitions, each the contract of a function that does nothing.

ghost use Rattle.smt_terms.specs.Keeps.{KeepsValues};
ghost use Rattle.simplify.specs.Simplify.{simp};

/// The simplifier keeps the value of every well-sorted term in every model.
pub fn simplify_keeps_values()
    ensures { KeepsValues simp }
{}

//! The laws of values, each the contract of a function that does nothing.

ghost use Rattle.smt_values.specs.Laws.{SameIsReflexive, SameIsSymmetric, SameIsTransitive, SameArraysReadAlike, StoredIsRead, OthersReadAsBefore};

/// Sameness of values of a table's sort is an equivalence.
pub fn same_is_an_equivalence()
    ensures reflexive { SameIsReflexive }
    ensures symmetric { SameIsSymmetric }
    ensures transitive { SameIsTransitive }
{}

/// Arrays that are the same have values that are the same at every key.
pub fn same_arrays_read_alike()
    ensures { SameArraysReadAlike }
{}

/// A key that a value was stored at reads as that value, and every other key as before.
pub fn stored_values_are_read()
    ensures stored { StoredIsRead }
    ensures others { OthersReadAsBefore }
{}

//! The laws of drawn constants, as the contract of a function that does nothing.

ghost use Rattle.term_groups.specs.Drawing.{ConstantsAreNew};

/// Each of these terms gets one constant of its sort, in order; no two of these have one name, no name is one that the supply
/// doesn't give, and none is given again.
pub fn constants_are_new()
    ensures { ConstantsAreNew }
{}

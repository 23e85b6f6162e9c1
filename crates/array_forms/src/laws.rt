//! The laws of the definitions, each the contract of a function that does nothing.

ghost use Rattle.smt_terms.specs.Keeps.{KeepsValues};
ghost use Rattle.array_forms.specs.Reads.{reads};
ghost use Rattle.array_forms.specs.ValueLaws.{TermsDenoteValues};

/// Reading over writing keeps the value of every well-sorted term in every model.
pub fn reads_keep_values()
    ensures { KeepsValues reads }
{}

/// The term of a value is closed, has the value's sort, and is this very value in every model. A value has a term exactly
/// where it holds no element of a declared sort and no whole number outside the range.
pub fn terms_of_values_have_these_values()
    ensures { TermsDenoteValues }
{}

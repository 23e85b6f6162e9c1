//! The laws of models, each the contract of a function that does nothing.

ghost use Rattle.models.specs.Laws.{ModelsStay};

/// A model stays the same as its table gains nodes, symbols and sorts.
pub fn models_stay()
    ensures { ModelsStay }
{}

//! The laws of model texts, each the contract of a function that does nothing.

ghost use Rattle.model_texts.specs.Laws.{ModelsReadBack, SignaturesAreWritable, SignaturesAreProper};

/// What is printed of a model reads back as the model, if the model's whole numbers lie in the range and the names of the
/// signature can be written: the symbols' names are distinct, and none is that of a table of `div` or `mod` by zero.
pub fn printed_models_read_back()
    ensures { ModelsReadBack }
{}

/// The signature at each point of a printable script can be written.
pub fn printable_signatures_are_writable()
    ensures { SignaturesAreWritable }
{}

/// The signature at each point of a printable script is one over which texts of models can be read: no two of its symbols have
/// one name, none has that of a table of `div` or `mod` by zero, and their ranks speak of its sorts alone.
pub fn printable_signatures_are_proper()
    ensures { SignaturesAreProper }
{}

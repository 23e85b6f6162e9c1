//! The laws of reading, each the contract of a function that does nothing.

ghost use Rattle.script_read.specs.Laws.{PrintedSymbolsAreRead, WrittenTokensAreRead, ReadingNames, SameCommands, PointsAgree, ReadingAnswers, WrittenMeaning, ReadingKeepsMeaning, EachTermKeepsMeaning, ReadTermsAreClear, NamesLeftAreNew, ReadScriptsArePrintable};

/// A symbol, as it is printed, is read as that one symbol; and the tokens of a text's forms, written one after the other
/// with a space behind each, are read as the same tokens.
pub fn written_tokens_are_read()
    ensures symbols { PrintedSymbolsAreRead }
    ensures tokens { WrittenTokensAreRead }
{}

/// A text is accepted exactly where there is no reason against it.
pub fn reading_answers()
    ensures { ReadingAnswers }
{}

/// Reading a term binds the names that its form gives, and nothing else.
pub fn reading_binds_names()
    ensures { ReadingNames }
{}

/// The commands with terms of an accepted text are those with its forms, one by one; so they have the same points, with
/// the same signatures and as many live assertions.
pub fn terms_and_forms_agree()
    ensures commands { SameCommands }
    ensures points { PointsAgree }
{}

/// A written operator means over values what the term means that reading makes of it: chains, sequences from the left or
/// the right, exchanged operands, repetitions and rotations included.
pub fn written_operators_keep_meaning()
    ensures { WrittenMeaning }
{}

/// Reading keeps meaning: at every point of an accepted text and in every model, each live assertion's term and each
/// literal has the value and the sort that its form means, where nothing is put in the place of anything else; and each is
/// a well-sorted truth value. Everywhere, the same is true of all terms that the text asserts, live at a point or not, and
/// of all literals of its checks.
pub fn reading_keeps_meaning()
    ensures points { ReadingKeepsMeaning }
    ensures everywhere { EachTermKeepsMeaning }
{}

/// The terms that reading gives have clear names: each symbol, where it occurs, is the innermost quantified variable of its
/// name there, or no quantifier above it binds its name, and no two free symbols of a term have one name.
pub fn read_terms_are_clear()
    ensures { ReadTermsAreClear }
{}

/// The names that are left behind an accepted text are new: the supply gives, next or later, no name of a symbol that is
/// declared, or that stands in an assertion or a literal, quantified variables included.
pub fn names_left_are_new()
    ensures { NamesLeftAreNew }
{}

/// What reading gives can be printed: nothing that reading would refuse is among the commands of an accepted text.
pub fn reading_gives_a_printable_script()
    ensures { ReadScriptsArePrintable }
{}

//! Why a script is refused.

ghost use Rattle.std.specs.Prelude.{◌≡◌};
ghost use Rattle.script_terms.specs.Refusals.{code_of};

/// The cause of a refusal.
#[derive(Clone, Copy, Debug, PartialEq, Eq)]
pub enum Cause {
    /// A function has another number of operands than it takes.
    WrongArity,
    /// A term has another sort than the one that is wanted.
    WrongSort,
    /// A bit vector would have more than 128 bits.
    WidthLimit,
    /// An index, or a bit-vector constant, is outside its range.
    BadIndex,
    /// The first word is no command's name.
    UnknownCommand,
    /// The command is one of the standard's that isn't supported.
    UnsupportedCommand,
    /// The form isn't one that may stand at its place.
    BadForm,
    /// The name means nothing here.
    UnknownName,
    /// The name is live already, or is given twice.
    Redeclared,
    /// The name is one of the theories', or begins with `@` or `.`.
    ReservedName,
    /// A `pop` of more levels than are open.
    PopTooFar,
    /// A number is beyond its limit: 2^127 - 1 for numerals and indices, 1,000,000 for levels.
    NumberLimit,
    /// The sort `Real`, a decimal, or a function of the theory of reals.
    RealSort,
    /// A quantifier over another sort than `Bool` and the bit vectors.
    QuantifiedSort,
    /// An array sort whose index sort is an array sort.
    IndexSort,
    /// A sort with parameters.
    SortArity,
    /// `:global-declarations` with another value than `true` and `false`, or behind a command that it would change.
    UnsupportedOption,
}

impl Cause {
    /// Its number in the program's messages: 20 to 23 for faults of terms, 30 to 42 for those of commands and forms.
    pub fn code(self) -> u16
        ensures { result ≡ code_of self }
    {
        match self {
            Cause::WrongArity => 20,
            Cause::WrongSort => 21,
            Cause::WidthLimit => 22,
            Cause::BadIndex => 23,
            Cause::UnknownCommand => 30,
            Cause::UnsupportedCommand => 31,
            Cause::BadForm => 32,
            Cause::UnknownName => 33,
            Cause::Redeclared => 34,
            Cause::ReservedName => 35,
            Cause::PopTooFar => 36,
            Cause::NumberLimit => 37,
            Cause::RealSort => 38,
            Cause::QuantifiedSort => 39,
            Cause::IndexSort => 40,
            Cause::SortArity => 41,
            Cause::UnsupportedOption => 42,
        }
    }
}

//! How a run of the program ends.

ghost use Rattle.std.specs.Prelude.{◌≡◌};
ghost use Rattle.smtrw_answers.specs.Answers.{number_of};

use script_read::Refusal;
use thiserror::Error;

/// What is wrong with the program's words.
#[derive(Clone, Copy, Debug, PartialEq, Eq)]
pub enum Why {
    /// The words end before the command has what it needs, or before an option's value.
    Missing,
    /// The first word is no command's name.
    UnknownCommand,
    /// The word begins with `-`, and the command has no such option.
    BadOption,
    /// The option was given before.
    Repeated,
    /// The word is no value of its option, no number that the command takes, or empty.
    BadValue,
    /// A name in the list isn't that of a pass, or there are more than 32 names.
    BadPass,
    /// `ite`, `cnf` or `ackermann` stands behind `rules` in the list.
    AfterRules,
    /// The command takes no further word.
    Extra,
    /// Standard input is named twice.
    TwoInputs,
    /// The script has fewer checks than this one's number.
    NoSuchCheck {
        /// The number that was asked for.
        check: u64,
        /// How many checks there are.
        checks: u64,
    },
}

/// A fault of the program's words: the number of the word, counted from 1 (0 for a check that isn't there), and why.
#[derive(Clone, Copy, Debug, PartialEq, Eq, Error)]
#[error("word {word}: {why:?}")]
pub struct Usage {
    /// The number of the word, counted from 1; 0 for a check that isn't there.
    pub word: u32,
    /// What is wrong with it.
    pub why: Why,
}

/// How a run ends. Each status has a number, with which the program exits.
#[derive(Clone, Copy, Debug, PartialEq, Eq)]
pub enum Status {
    /// The whole text was sent.
    Done,
    /// The script isn't accepted.
    Refused(Refusal),
    /// The words aren't ones that the program takes.
    Usage(Usage),
    /// A read of the file at this word, counted from 1, failed.
    ReadFailed { word: u32 },
    /// A write failed; a prefix of the text was sent.
    WriteFailed,
    /// There was no memory for the work; nothing was sent.
    OutOfMemory,
    /// The model's text is refused: the number of its cause, with line and byte as for a script.
    ModelRefused { code: u16, line: u64, byte: u64 },
    /// A term of this assertion that has to be evaluated is a whole number beyond 2^127 - 1 in magnitude.
    Beyond128 { assertion: u64 },
    /// A pass, or the evaluation of a term for it, refuses this assertion.
    PassRefused { code: u16, assertion: u64 },
}

impl Status {
    /// The number of the status.
    pub fn number(&self) -> u8
        ensures { result ≡ number_of self.now }
    {
        match self {
            Status::Done => 0,
            Status::Refused(_) => 1,
            Status::Usage(_) => 2,
            Status::ReadFailed { .. } => 3,
            Status::WriteFailed => 4,
            Status::OutOfMemory => 5,
            Status::ModelRefused { .. } => 6,
            Status::Beyond128 { .. } => 7,
            Status::PassRefused { .. } => 8,
        }
    }
}

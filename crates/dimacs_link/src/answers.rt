//! The answers of solvers.

ghost use Rattle.std.specs.Prelude.{◌≡◌, Ok, IfOk, IfErr};
ghost use Rattle.dimacs_link.specs.AnswerTexts.{reading, HasValues, IsFaultOf};

use crate::progress::Progress;
use crate::reading::answer_in;
use crate::truths::Truths;
use smt_lex::line_of;
use std::alloc::{AllocError, Global};
use thiserror::Error;

/// What a solver answers.
#[derive(Drop)]
pub enum Answer {
    /// These truth values, one for each constant, make all clauses true.
    Sat(Truths),
    /// No truth values do.
    Unsat,
    /// The solver doesn't say.
    Unknown,
}

/// Why a text is no answer.
#[derive(Clone, Copy, Debug, PartialEq, Eq, Error)]
pub enum AnswerFault {
    /// The first wrong line or word is at this byte, counted from 0, of this line, counted from 1; where a part is missing, the byte
    /// is the text's length.
    #[error("line {line}: no answer of a solver, at {byte}")]
    Form { line: u64, byte: u64 },
    /// There is no memory.
    #[error("want of memory")]
    Memory,
}

impl From<AllocError> for AnswerFault {
    ghost use Rattle.std.specs.Prelude.{◌≡◌};
    ghost use Rattle.dimacs_link.specs.declared.answers.AnswerFault.TheVariants.{Memory};

    ghost from_gives = { λ _ made. made ≡ Memory };

    fn from(_error: AllocError) -> AnswerFault {
        AnswerFault::Memory
    }
}

/// Reads the answer of a solver about clauses over so many constants. Lines end with LF, or CR and LF, or with the text. One that is
/// empty or begins with `c` says nothing; exactly one is `s SATISFIABLE`, `s UNSATISFIABLE` or `s UNKNOWN`. Only with the first are
/// there lines of `v` and words, one or more spaces before each: numbers of constants from 1 on, with `-` before a constant that is
/// false, and behind them all one `0`. No constant is named with both signs, and one that isn't named is false.
///
/// It takes time in proportion to the text and the constants, and two bytes for each constant.
///
/// # Errors
///
/// `Form` exactly where the text isn't an answer, with the place of the first wrong line or word, or the text's length where the line
/// of `s` or the `0` is missing; and `Memory`.
pub fn read_answer(alloc: Global, bytes: &[u8], constants: u64) -> Result<Answer, AnswerFault>
    ensures answer { IfOk result (λ a. reading constants bytes.now ≡ Ok a) }
    ensures values { IfOk result (HasValues constants) }
    ensures fault { IfErr result (IsFaultOf constants bytes.now) }
{
    let progress = Progress::new(alloc, constants)?;
    match answer_in(progress, bytes) {
        Ok(answer) => Ok(answer),
        Err(place) => Err(AnswerFault::Form {
            line: line_of(bytes, place),
            byte: place as u64,
        }),
    }
}

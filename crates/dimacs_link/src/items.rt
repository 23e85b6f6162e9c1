//! The lines and words of an answer.

ghost use Rattle.std.specs.Prelude.{◌≡◌, ℕ, ◌<◌, ◌≤◌, true, [], ◌∷◌, length, MatchOption};
ghost use Rattle.std.specs.Str.Parse.{digits_value};
ghost use Rattle.dimacs_link.specs.AnswerTexts.{is_number, are_words, literal_item, word_items_at, status_item};
ghost use Rattle.dimacs_link.specs.Readings.{IsWithin};

use crate::literals::Literal;
use smt_lex::are_digits;

/// How a search ended.
#[derive(Clone, Copy, Debug, PartialEq, Eq)]
pub(crate) enum Ending {
    Satisfiable,
    Unsatisfiable,
    Unknown,
}

/// A line or a word of an answer.
#[derive(Clone, Copy, Debug, PartialEq, Eq)]
pub(crate) enum Item {
    /// A line that says how the search ended.
    Status(Ending),
    /// A line of values.
    Values,
    /// A word for the literal that is true.
    Number(Literal),
    /// The word that ends the values.
    End,
    /// No line or word of an answer.
    Wrong,
}

// Whether these are digits, the first of which isn't 0.
fn is_number(word: &[u8]) -> bool
    ensures { result ≡ is_number word.now }
{
    are_digits(word) && word[0] != b'0'
}

// The number that these digits are, or None where it is above the limit.
fn number(digits: &[u8], limit: u64) -> Option<u64>
    requires { is_number digits.now ≡ true }
    ensures { MatchOption result (limit < digits_value 10 digits.now) (λ n. (n ≡ digits_value 10 digits.now) × (n ≤ limit)) }
{
    let mut number: u64 = 0;
    for digit in digits {
        let more = 10 * u128::from(number) + u128::from(*digit - b'0');
        if more > u128::from(limit) {
            return None;
        }
        number = more as u64;
    }
    Some(number)
}

// The literal of one of so many constants that a word gives by its number.
fn literal_item(digits: &[u8], constants: u64, positive: bool) -> Item
    ensures item { result ≡ literal_item constants positive digits.now }
    ensures within { IsWithin constants result }
{
    if !is_number(digits) {
        return Item::Wrong;
    }
    match number(digits, constants) {
        Some(constant) => Item::Number(Literal { positive, constant }),
        None => Item::Wrong,
    }
}

// What a word is, where there are so many constants.
pub(crate) fn word_item(word: &[u8], constants: u64) -> Item
    requires { 0 < length word.now }
    ensures item { (place : ℕ) → word_items_at constants place word.now ≡ (place, result) ∷ [] }
    ensures within { IsWithin constants result }
{
    match word {
        [b'0'] => Item::End,
        [b'-', digits @ ..] => literal_item(digits, constants, false),
        _ => literal_item(word, constants, true),
    }
}

// What a line is that begins neither with `c` nor with `v`.
pub(crate) fn status_item(line: &[u8]) -> Item
    ensures item { result ≡ status_item line.now }
{
    if line == b"s SATISFIABLE".as_slice() {
        Item::Status(Ending::Satisfiable)
    } else if line == b"s UNSATISFIABLE".as_slice() {
        Item::Status(Ending::Unsatisfiable)
    } else if line == b"s UNKNOWN".as_slice() {
        Item::Status(Ending::Unknown)
    } else {
        Item::Wrong
    }
}

// Whether this is nothing, or words with one or more spaces before each.
pub(crate) fn are_words(text: &[u8]) -> bool
    ensures { result ≡ are_words text.now }
{
    text.is_empty() || (text[0] == b' ' && text[text.len() - 1] != b' ')
}

//! How a list begins that may be a term.

ghost use Rattle.std.specs.Prelude.{◌≡◌, ℕ, List, Some};
ghost use Rattle.smt_lex.specs.Lex.{Token};
ghost use Rattle.script_terms.specs.Parts.{opening, opening_word};
ghost use Rattle.script_terms.specs.Openings.{opening_seen};
ghost use Rattle.script_terms.specs.Places.{IsForm, form_from};

use crate::terms::frames::Quantifier;
use smt_lex::{Forest, Item};

/// The first form of a list that may be a term.
#[derive(Clone, Copy, Debug, PartialEq, Eq)]
pub enum Opening {
    Let,
    Quantifier(Quantifier),
    /// `!`
    Annotation,
    /// `_`
    Index,
    /// Anything else: the head of an application.
    Head,
}

/// How a list begins whose first form begins at token `first`.
pub fn opening_of(forest: &Forest, first: usize) -> Opening
    requires { IsForm forest.now.tokens first }
    ensures { opening_seen forest.now.tokens first result ≡ opening (form_from forest.now.tokens first) }
{
    match forest.item(first) {
        Item::Word => opening_by(forest.text(first)),
        _ => Opening::Head,
    }
}

// How a list begins whose first form is this word.
fn opening_by(word: &[u8]) -> Opening
    ensures { (ts : List Token) (first : ℕ) → opening_seen ts first result ≡ opening_word (form_from ts first) (Some word.now) }
{
    if word == b"let".as_slice() {
        return Opening::Let;
    }
    if word == b"forall".as_slice() {
        return Opening::Quantifier(Quantifier::Universal);
    }
    if word == b"exists".as_slice() {
        return Opening::Quantifier(Quantifier::Existential);
    }
    if word == b"!".as_slice() {
        return Opening::Annotation;
    }
    if word == b"_".as_slice() {
        return Opening::Index;
    }
    Opening::Head
}

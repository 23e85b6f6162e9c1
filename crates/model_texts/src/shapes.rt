//! What a form of a model text is as a value, before its sort is known.

ghost use Rattle.std.specs.Prelude.{◌≡◌, List, true, false, Option, Some, None, MatchOption};
ghost use Rattle.smt_lex.specs.Lex.{Token, name_of};
ghost use Rattle.smt_lex.specs.Forms.{Form};
ghost use Rattle.smt_lex.specs.Forest.{token_at};
ghost use Rattle.script_terms.specs.Parts.{symbol_in, numeral_in};
ghost use Rattle.script_terms.specs.Places.{IsForm, form_from};
ghost use Rattle.model_texts.specs.Literals.{MatchLiteral};
ghost use Rattle.model_texts.specs.ValueForms as forms;
ghost use Rattle.model_texts.specs.ValueForms.{negative_literal, filled_sort};
ghost use Rattle.model_texts.specs.Shapes.{shape_of, constant_or_other, pair_shape, element_shape, triple_shape, store_shape, element, other, IsShapeAt};

use crate::literals::{Literal, indexed_literal, negative_literal, token_literal};
use crate::places::is_named;
use script_terms::lists::{Few, few_from};
use script_terms::places::{inside, is_symbol, is_word};
use smt_lex::Forest;

/// What a form is. Parts of it are named by the numbers of their first tokens.
#[derive(Clone, Copy)]
pub(crate) enum Shape {
    Constant(Literal),
    /// `(as @name SORT)`
    Element {
        name: usize,
        sort: usize,
    },
    /// `((as const SORT) VALUE)`
    Filled {
        sort: usize,
        value: usize,
    },
    /// `(store ARRAY KEY VALUE)`
    Store {
        array: usize,
        key: usize,
        value: usize,
    },
    /// No value.
    Other,
}

/// What the form at a token is.
pub(crate) fn shape_at(forest: &Forest, at: usize) -> Shape
    requires { IsForm forest.now.tokens at }
    ensures { IsShapeAt forest.now.tokens (shape_of (form_from forest.now.tokens at)) result }
{
    let Some(first) = inside(forest, at) else {
        return constant_or_other(token_literal(forest, at));
    };
    match few_from(forest, first) {
        Few::Two(head, operand) => pair_shape(forest, head, operand),
        Few::Three(word, name, last) => triple_shape(forest, word, name, last),
        Few::Four(head, array, key, value) => store_or_other(forest, head, array, key, value),
        _ => Shape::Other,
    }
}

fn constant_or_other(literal: Option<Literal>) -> Shape
    ensures { (ts : List Token) (l : Option forms.Literal) → MatchLiteral l literal → IsShapeAt ts (constant_or_other l) result }
{
    match literal {
        Some(literal) => Shape::Constant(literal),
        None => Shape::Other,
    }
}

// What a list of two forms is.
fn pair_shape(forest: &Forest, head: usize, operand: usize) -> Shape
    requires head { IsForm forest.now.tokens head }
    requires operand { IsForm forest.now.tokens operand }
    ensures { IsShapeAt forest.now.tokens (pair_shape (negative_literal (symbol_in (form_from forest.now.tokens head)) (numeral_in (form_from forest.now.tokens operand))) (filled_sort (form_from forest.now.tokens head)) (form_from forest.now.tokens operand)) result }
{
    if let Some(literal) = negative_literal(forest, head, operand) {
        return Shape::Constant(literal);
    }
    match filled_sort(forest, head) {
        Some(sort) => Shape::Filled {
            sort,
            value: operand,
        },
        None => Shape::Other,
    }
}

// The sort of `(as const SORT)`.
fn filled_sort(forest: &Forest, at: usize) -> Option<usize>
    requires { IsForm forest.now.tokens at }
    ensures { MatchOption result (filled_sort (form_from forest.now.tokens at) ≡ None) (λ i. IsForm forest.now.tokens i × (filled_sort (form_from forest.now.tokens at) ≡ Some (form_from forest.now.tokens i))) }
{
    let Few::Three(word, name, sort) = few_from(forest, inside(forest, at)?) else {
        return None;
    };
    (is_word(forest, word, b"as") && is_named(forest, name, b"const")).then_some(sort)
}

// What a list of three forms is.
fn triple_shape(forest: &Forest, word: usize, name: usize, last: usize) -> Shape
    requires word { IsForm forest.now.tokens word }
    requires name { IsForm forest.now.tokens name }
    requires last { IsForm forest.now.tokens last }
    ensures { IsShapeAt forest.now.tokens (triple_shape (form_from forest.now.tokens word) (form_from forest.now.tokens name) (form_from forest.now.tokens last)) result }
{
    if is_word(forest, word, b"_") {
        return constant_or_other(indexed_literal(forest, name, last));
    }
    if is_word(forest, word, b"as") && is_abstract(forest, name) {
        return Shape::Element { name, sort: last };
    }
    Shape::Other
}

// Whether the form is a symbol that begins with `@`.
fn is_abstract(forest: &Forest, at: usize) -> bool
    requires { IsForm forest.now.tokens at }
    ensures yes { result ≡ true → (s : Form) → element_shape (symbol_in (form_from forest.now.tokens at)) s ≡ element (name_of (token_at forest.now.tokens at)) s }
    ensures no { result ≡ false → (s : Form) → element_shape (symbol_in (form_from forest.now.tokens at)) s ≡ other }
{
    is_symbol(forest, at) && forest.name(at).starts_with(b"@")
}

// What a list of four forms is.
fn store_or_other(forest: &Forest, head: usize, array: usize, key: usize, value: usize) -> Shape
    requires head { IsForm forest.now.tokens head }
    requires array { IsForm forest.now.tokens array }
    requires key { IsForm forest.now.tokens key }
    requires value { IsForm forest.now.tokens value }
    ensures { IsShapeAt forest.now.tokens (store_shape (form_from forest.now.tokens head) (form_from forest.now.tokens array) (form_from forest.now.tokens key) (form_from forest.now.tokens value)) result }
{
    if is_named(forest, head, b"store") {
        return Shape::Store { array, key, value };
    }
    Shape::Other
}

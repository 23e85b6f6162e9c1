//! Shapes of lists that bind names.

ghost use Rattle.smt_lex.specs.Forest.{after_at};
ghost use Rattle.script_terms.specs.Openings.{BindsAt, AnnotatesAt};
ghost use Rattle.script_terms.specs.Places.{IsForm, forms_from};

use crate::faults::Fault;
use crate::places::{bad_form, begins, inside};
use crate::terms::attributes::are_attributes;
use smt_lex::Forest;

/// The first bound part and the body of the list of token `list`, in which a `let` or a quantifier is the form of token
/// `first`: a list that isn't empty and one form more.
pub fn bound_and_body(forest: &Forest, list: usize, first: usize) -> Result<(usize, usize), Fault>
    requires list { IsForm forest.now.tokens list }
    requires first { IsForm forest.now.tokens first }
    ensures { BindsAt forest.now.tokens list (forms_from forest.now.tokens (after_at forest.now.tokens first)) result }
{
    let bound = forest.after(first);
    if !begins(forest, bound) {
        return Err(bad_form(forest, list));
    }
    let Some(part) = inside(forest, bound) else {
        return Err(bad_form(forest, list));
    };
    if !begins(forest, part) {
        return Err(bad_form(forest, list));
    }
    let body = forest.after(bound);
    if !begins(forest, body) || begins(forest, forest.after(body)) {
        return Err(bad_form(forest, list));
    }
    Ok((part, body))
}

/// The term and the first attribute of the annotation of token `list`, whose `!` is token `first`.
pub fn annotated_parts(forest: &Forest, list: usize, first: usize) -> Result<(usize, usize), Fault>
    requires list { IsForm forest.now.tokens list }
    requires first { IsForm forest.now.tokens first }
    ensures { AnnotatesAt forest.now.tokens list (forms_from forest.now.tokens (after_at forest.now.tokens first)) result }
{
    let term = forest.after(first);
    if !begins(forest, term) {
        return Err(bad_form(forest, list));
    }
    let attributes = forest.after(term);
    if !are_attributes(forest, attributes) {
        return Err(bad_form(forest, list));
    }
    Ok((term, attributes))
}

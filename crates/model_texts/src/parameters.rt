//! The parameters of functions in model texts.

ghost use Rattle.std.specs.Prelude.{◌≡◌, ◌<◌, length, map, slice_get, Some, IfOk, IfSome, IsTrue};
ghost use Rattle.script_terms.specs.Places.{IsForm, form_from};
ghost use Rattle.model_texts.specs.Whole.{IsWhole};
ghost use Rattle.model_texts.specs.GivenParameters.{place_named, AreParametersIn, IsParameterIn};
ghost use Rattle.model_texts.specs.Proper.{are_distinct};

use crate::places::symbol_at;
use indexmap::IndexMap;
use script_terms::lists::{Few, few_from};
use script_terms::places::{begins, inside};
use smt_lex::Forest;
use smt_terms::BuildNameHasher;
use std::alloc::{AllocError, Global};
use std::marker::Model;

/// Parameters with distinct names, in order, each with the first token of its sort.
#[derive(Drop)]
pub(crate) struct Parameters<'a> {
    sorts: IndexMap<&'a [u8], usize, BuildNameHasher>,
}

impl<'a> Model for Parameters<'a> {
    ghost use Rattle.std.specs.Prelude.{map};
    ghost use Rattle.model_texts.specs.GivenParameters.{NamedSorts};

    ghost Value = { NamedSorts };

    ghost view = { λ p. map (λ e. (e.0.now, e.1)) p.sorts.entries };
}

impl<'a> Parameters<'a> {
    /// How many there are.
    pub(crate) fn len(&self) -> usize
        ensures len { result ≡ length self.now }
        ensures distinct { IsTrue (are_distinct (map (λ p. p.0) self.now)) }
    {
        self.sorts.len()
    }

    /// The place of the parameter of this name.
    pub(crate) fn place(&self, name: &[u8]) -> Option<usize>
        ensures place { result ≡ place_named self.now name.now }
        ensures within { IfSome result (λ i. i < length self.now) }
    {
        self.sorts.get_index_of(name)
    }

    /// The first token of the sort of a parameter.
    pub(crate) fn sort(&self, place: usize) -> usize
        requires { place < length self.now }
        ensures { (name : _) × (slice_get self.now place ≡ Some (name, result)) }
    {
        let Some((_, sort)) = self.sorts.get_index(place) else {
            unreachable!()
        };
        *sort
    }
}

/// The parameters that a list names, each `(NAME SORT)`; None where the list isn't one of parameters with distinct names.
pub(crate) fn parameters_at<'a>(
    alloc: Global,
    forest: &'a Forest,
    at: usize,
) -> Result<Option<Parameters<'a>>, AllocError>
    requires whole { IsWhole forest.now }
    requires form { IsForm forest.now.tokens at }
    ensures { IfOk result (AreParametersIn forest.now.tokens at) }
{
    let mut sorts = IndexMap::with_hasher(alloc, BuildNameHasher::new());
    let Some(mut next) = inside(forest, at) else {
        return Ok(None);
    };
    while begins(forest, next) {
        let Some((name, sort)) = parameter_at(forest, next) else {
            return Ok(None);
        };
        if sorts.insert(name, sort)?.is_some() {
            return Ok(None);
        }
        next = forest.after(next);
    }
    Ok(Some(Parameters { sorts }))
}

// The name of a parameter, and the first token of its sort.
fn parameter_at<'a>(forest: &'a Forest, at: usize) -> Option<(&'a [u8], usize)>
    requires { IsForm forest.now.tokens at }
    ensures { IsParameterIn forest.now.tokens (form_from forest.now.tokens at) result }
{
    match few_from(forest, inside(forest, at)?) {
        Few::Two(name, sort) => Some((symbol_at(forest, name)?, sort)),
        _ => None,
    }
}

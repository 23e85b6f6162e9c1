//! Indices of heads (SMT-LIB 2.6, section 3.3).

ghost use Rattle.std.specs.Prelude.{◌≡◌, ◌≤◌, [], length, Some, option_map, IfOk};
ghost use Rattle.script_terms.specs.HeadClauses.{AreIndices, ReadsIndices, beyond_in};
ghost use Rattle.script_terms.specs.Parts.{numeral_in};
ghost use Rattle.script_terms.specs.Places.{IsForm, form_from, forms_from, capped};
ghost use Rattle.smt_lex.specs.Forms.{none, ◌⨾◌};

use crate::places::{GREATEST, begins, numeral_at, place_of};
use smallvec::SmallVec;
use smt_lex::Forest;
use std::alloc::{AllocError, Global};

/// The indices of a head. Those that are greater than an index may be are all alike.
#[derive(Drop)]
pub struct Indices {
    pub values: SmallVec<u128, 2>,
    /// The place of the first that is greater than it may be.
    pub beyond: Option<u32>,
}

impl Indices {
    /// No indices. It takes no memory.
    pub fn none(alloc: Global) -> Indices
        ensures { AreIndices none [] result }
    {
        Indices {
            values: SmallVec::new(alloc),
            beyond: None,
        }
    }

    /// The one or more numerals from token `i` to the end of their list; None where there is no form, or one that is no
    /// numeral.
    pub fn read(alloc: Global, forest: &Forest, i: usize) -> Result<Option<Indices>, AllocError>
        requires { i ≤ length forest.now.tokens }
        ensures { IfOk result (ReadsIndices (forms_from forest.now.tokens i)) }
    {
        let mut values = SmallVec::new(alloc);
        let mut beyond = None;
        let mut next = i;
        while begins(forest, next) {
            let Some(value) = numeral_at(forest, next) else {
                return Ok(None);
            };
            values.push(value)?;
            beyond = beyond.or(place_beyond(forest, next, value));
            next = forest.after(next);
        }
        if values.is_empty() {
            return Ok(None);
        }
        Ok(Some(Indices { values, beyond }))
    }
}

// The place of the numeral of token `i`, which was read as this value, where it is greater than one may be.
fn place_beyond(forest: &Forest, i: usize, value: u128) -> Option<u32>
    requires form { IsForm forest.now.tokens i }
    requires value { option_map capped (numeral_in (form_from forest.now.tokens i)) ≡ Some value }
    ensures { result ≡ beyond_in (form_from forest.now.tokens i ⨾ none) }
{
    if value == GREATEST {
        Some(place_of(forest, i))
    } else {
        None
    }
}

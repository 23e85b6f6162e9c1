//! Names and refusals of forms, by the numbers of their first tokens.

ghost use Rattle.std.specs.Prelude.{◌≡◌, ◌&&◌, option_map};
ghost use Rattle.smt_lex.specs.Forest.{token_at};
ghost use Rattle.script_terms.specs.Parts.{place_of, symbol_in, is_name};
ghost use Rattle.script_terms.specs.Places.{IsForm, form_from};
ghost use Rattle.model_texts.specs.Named.{is_token};
ghost use Rattle.model_texts.specs.declared.faults.TextFault.TheVariants.{Refused};

use crate::faults::{Cause, TextFault};
use script_terms::places::{inside, is_symbol, place_of};
use smt_lex::Forest;

/// Whether the form is the symbol of this name.
pub(crate) fn is_named(forest: &Forest, at: usize, name: &[u8]) -> bool
    requires { IsForm forest.now.tokens at }
    ensures { result ≡ is_name name.now (symbol_in (form_from forest.now.tokens at)) }
{
    is_symbol(forest, at) && forest.name(at) == name
}

/// Whether the form is a token that has this name, bars aside.
pub(crate) fn is_token(forest: &Forest, at: usize, name: &[u8]) -> bool
    requires { IsForm forest.now.tokens at }
    ensures { result ≡ is_token name.now (form_from forest.now.tokens at) }
{
    inside(forest, at).is_none() && forest.name(at) == name
}

/// The refusal of the form.
pub(crate) fn refused(forest: &Forest, at: usize, cause: Cause) -> TextFault
    requires { IsForm forest.now.tokens at }
    ensures { result ≡ Refused cause (place_of (form_from forest.now.tokens at)) }
{
    TextFault::Refused {
        cause,
        byte: u64::from(place_of(forest, at)),
    }
}

/// The symbol that the form is.
pub(crate) fn symbol_at<'a>(forest: &'a Forest, at: usize) -> Option<&'a [u8]>
    requires { IsForm forest.now.tokens at }
    ensures { option_map (λ n. n.now) result ≡ symbol_in (form_from forest.now.tokens at) }
{
    if !is_symbol(forest, at) {
        return None;
    }
    Some(forest.name(at))
}

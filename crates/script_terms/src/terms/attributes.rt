//! Attributes (SMT-LIB 2.6, section 3.4).

ghost use Rattle.std.specs.Prelude.{◌≡◌, ◌≤◌, length};
ghost use Rattle.script_terms.specs.Parts.{are_attributes};
ghost use Rattle.script_terms.specs.Places.{forms_from};

use crate::places::{begins, is_keyword};
use smt_lex::Forest;

/// Whether the forms from token `first` to the end of their list are one or more attributes: keywords, each with at most
/// one form behind it that isn't a keyword.
pub fn are_attributes(forest: &Forest, first: usize) -> bool
    requires { first ≤ length forest.now.tokens }
    ensures { result ≡ are_attributes (forms_from forest.now.tokens first) }
{
    if !begins(forest, first) {
        return false;
    }
    let mut i = first;
    let mut may_be_value = false;
    while begins(forest, i) {
        let keyword = is_keyword(forest, i);
        if !keyword && !may_be_value {
            return false;
        }
        may_be_value = keyword;
        i = forest.after(i);
    }
    true
}

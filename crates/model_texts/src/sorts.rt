//! Sorts in model texts, which are told token by token.

ghost use Rattle.std.specs.Prelude.{◌≡◌, Bool, false, IfSome};
ghost use Rattle.smt_lex.specs.Forms.{Form};
ghost use Rattle.smt_terms.specs.Rank.{is_array};
ghost use Rattle.smt_terms.specs.Sorts.{bit_vector};
ghost use Rattle.smt_values.specs.SortIds.{sort_at, IsSortId};
ghost use Rattle.script_terms.specs.Places.{IsForm, form_from};
ghost use Rattle.model_texts.specs.Named.{is_list_of_three, three_pass, AreForms};
ghost use Rattle.model_texts.specs.ValueForms.{is_sort_form};

use crate::places::is_token;
use itoa::Buffer;
use script_terms::lists::{Few, few_from};
use script_terms::places::inside;
use smt_lex::Forest;
use smt_terms::SortId;
use smt_values::SortTable;
use term_table::Table;

/// Whether the form is the sort, bars aside. It takes as much stack as the sort is deep.
pub(crate) fn is_sort_at(table: &Table, sort: SortId, forest: &Forest, at: usize) -> bool
    requires sort { IsSortId table.now.sorts sort }
    requires form { IsForm forest.now.tokens at }
    ensures { result ≡ is_sort_form (sort_at table.now.sorts sort) (form_from forest.now.tokens at) }
{
    let sorts = table.sorts();
    let Some((index, element)) = sorts.parts(sort) else {
        return is_plain_sort(sorts, sort, forest, at);
    };
    match three_inside(forest, at) {
        Some((head, first, second)) => {
            is_token(forest, head, b"Array")
                && is_sort_at(table, index, forest, first)
                && is_sort_at(table, element, forest, second)
        }
        None => false,
    }
}

// The three forms of a list, and None for another form.
fn three_inside(forest: &Forest, at: usize) -> Option<(usize, usize, usize)>
    requires { IsForm forest.now.tokens at }
    ensures passes { (p q r : Form → Bool) → is_list_of_three p q r (form_from forest.now.tokens at) ≡ three_pass forest.now.tokens p q r result }
    ensures forms { IfSome result (AreForms forest.now.tokens) }
{
    match few_from(forest, inside(forest, at)?) {
        Few::Three(first, second, third) => Some((first, second, third)),
        _ => None,
    }
}

// Whether the form is the sort, which is no array sort.
fn is_plain_sort(sorts: &SortTable, sort: SortId, forest: &Forest, at: usize) -> bool
    requires sort { IsSortId sorts.now sort }
    requires plain { is_array (sort_at sorts.now sort) ≡ false }
    requires form { IsForm forest.now.tokens at }
    ensures { result ≡ is_sort_form (sort_at sorts.now sort) (form_from forest.now.tokens at) }
{
    if let Some(name) = sorts.name(sort) {
        return is_token(forest, at, name);
    }
    match sort.width() {
        Some(width) => is_vector_sort(width, forest, at),
        None if sort == SortId::BOOL => is_token(forest, at, b"Bool"),
        None => is_token(forest, at, b"Int"),
    }
}

// Whether the form is the sort of the bit vectors of this width.
fn is_vector_sort(width: u32, forest: &Forest, at: usize) -> bool
    requires { IsForm forest.now.tokens at }
    ensures { result ≡ is_sort_form (bit_vector width) (form_from forest.now.tokens at) }
{
    let Some((head, name, index)) = three_inside(forest, at) else {
        return false;
    };
    let mut buffer = Buffer::new();
    is_token(forest, head, b"_")
        && is_token(forest, name, b"BitVec")
        && is_token(forest, index, buffer.format(width).as_bytes())
}

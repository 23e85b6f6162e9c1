//! Values in model texts: constants, elements of declared sorts, and arrays that are constant but for some places.

ghost use Rattle.std.specs.Prelude.{◌≡◌, ◌&&◌, false, List, IfOk};
ghost use Rattle.smt_terms.specs.Rank.{is_array};
ghost use Rattle.smt_terms.specs.Sorts.{Sort, array};
ghost use Rattle.smt_values.specs.Meaning.{meaning, IsHeld};
ghost use Rattle.smt_values.specs.SortIds.{sort_at, is_free, IsSortId, IsSortList};
ghost use Rattle.script_terms.specs.Places.{IsForm, form_from};
ghost use Rattle.model_texts.specs.Chains.{IsChainOf, IsInnermost, ReadsEverywhere};
ghost use Rattle.model_texts.specs.Met.{names_kept, Gains, IsMetValue};
ghost use Rattle.model_texts.specs.Reading.{Element};
ghost use Rattle.model_texts.specs.Replies.{AreElementsOf, Replies};
ghost use Rattle.model_texts.specs.ValueForms.{value_in, is_sort_form};
ghost use Rattle.model_texts.specs.Whole.{IsWhole};

use crate::elements::Elements;
use crate::faults::{Cause, TextFault};
use crate::literals::scalar_of;
use crate::places::refused;
use crate::shapes::{Shape, shape_at};
use crate::sorts::is_sort_at;
use smt_lex::Forest;
use smt_terms::SortId;
use smt_values::{ArrayValue, Sizes, Value, store};
use std::alloc::{AllocError, Global};
use term_table::Table;

// What is stored in an array, by the numbers of the first tokens.
#[derive(Clone, Copy)]
struct Stored {
    key: usize,
    value: usize,
}

// An array as it is written: an innermost form, and what is stored in it, the last one first.
#[derive(Drop)]
struct Chain {
    stores: Vec<Stored>,
    innermost: usize,
}

/// The value that the form at a token is, at the sort that is wanted. It takes as much stack as the sort is deep.
pub(crate) fn read_value<'a>(
    alloc: Global,
    table: &Table,
    forest: &'a Forest,
    at: usize,
    sort: SortId,
    elements: &mut Elements<'a>,
) -> Result<Value, TextFault>
    requires whole { IsWhole forest.now }
    requires form { IsForm forest.now.tokens at }
    requires sort { IsSortId table.now.sorts sort }
    ensures value { (es : List Element) → AreElementsOf table.now (names_kept elements.old) es → Replies (λ v w. IsHeld v × (meaning v ≡ w)) (AreElementsOf table.now (names_kept elements.new)) (value_in (form_from forest.now.tokens at) (sort_at table.now.sorts sort) es) result }
    ensures valid { IfOk result (IsMetValue table.now elements.new sort) }
    ensures gains { Gains elements.old elements.new }
{
    let Some((index, element)) = table.sorts().parts(sort) else {
        return read_simple(table, forest, at, sort, elements);
    };
    let mut chain = chain_at(alloc, forest, at)?;
    let everywhere = filled_value(table, forest, chain.innermost, sort)?;
    let value = read_value(alloc, table, forest, everywhere, element, elements)?;
    let mut array = ArrayValue::new(alloc, value);
    let mut sizes = Sizes::new(alloc);
    while let Some(stored) = chain.stores.pop() {
        let key = read_value(alloc, table, forest, stored.key, index, elements)?;
        let value = read_value(alloc, table, forest, stored.value, element, elements)?;
        sizes.set(index, elements.size(index))?;
        array = store(alloc, array, key, value, table.sorts(), index, &sizes)?;
    }
    Ok(Value::Array(Box::new(alloc, array)?))
}

// The value of a sort that is no array sort.
fn read_simple<'a>(
    table: &Table,
    forest: &'a Forest,
    at: usize,
    sort: SortId,
    elements: &mut Elements<'a>,
) -> Result<Value, TextFault>
    requires form { IsForm forest.now.tokens at }
    requires sorts { IsSortList table.now.sorts }
    requires sort { IsSortId table.now.sorts sort }
    requires simple { is_array (sort_at table.now.sorts sort) ≡ false }
    ensures value { (es : List Element) → AreElementsOf table.now (names_kept elements.old) es → Replies (λ v w. IsHeld v × (meaning v ≡ w)) (AreElementsOf table.now (names_kept elements.new)) (value_in (form_from forest.now.tokens at) (sort_at table.now.sorts sort) es) result }
    ensures valid { IfOk result (IsMetValue table.now elements.new sort) }
    ensures gains { Gains elements.old elements.new }
{
    match shape_at(forest, at) {
        Shape::Constant(literal) => match scalar_of(literal, sort) {
            Ok(scalar) => Ok(Value::Scalar(scalar)),
            Err(cause) => Err(refused(forest, at, cause)),
        },
        Shape::Element {
            name,
            sort: written,
        } => {
            if !is_declared_sort_at(table, sort, forest, written) {
                return Err(refused(forest, at, Cause::ModelSort));
            }
            Ok(Value::Element(elements.meet(sort, forest.name(name))?))
        }
        Shape::Filled { .. } | Shape::Store { .. } => Err(refused(forest, at, Cause::ModelSort)),
        Shape::Other => Err(refused(forest, at, Cause::NotATable)),
    }
}

// Whether the sort is a declared one, and the form is the sort.
fn is_declared_sort_at(table: &Table, sort: SortId, forest: &Forest, at: usize) -> bool
    requires sort { IsSortId table.now.sorts sort }
    requires form { IsForm forest.now.tokens at }
    ensures { result ≡ (is_free (sort_at table.now.sorts sort) && is_sort_form (sort_at table.now.sorts sort) (form_from forest.now.tokens at)) }
{
    table.sorts().name(sort).is_some() && is_sort_at(table, sort, forest, at)
}

// The array that the form at a token is, before its sort is known. However long a chain of `store`s is, it takes no stack.
fn chain_at(alloc: Global, forest: &Forest, at: usize) -> Result<Chain, AllocError>
    requires { IsForm forest.now.tokens at }
    ensures { IfOk result (IsChainOf forest.now.tokens (form_from forest.now.tokens at)) }
{
    let mut stores = Vec::new(alloc);
    let mut innermost = at;
    while let Shape::Store { array, key, value } = shape_at(forest, innermost) {
        stores.push(Stored { key, value })?;
        innermost = array;
    }
    Ok(Chain { stores, innermost })
}

// The value that a form has everywhere, which is to be `((as const SORT) VALUE)` of this array sort.
fn filled_value(table: &Table, forest: &Forest, at: usize, sort: SortId) -> Result<usize, TextFault>
    requires form { IsForm forest.now.tokens at }
    requires sort { IsSortId table.now.sorts sort }
    requires innermost { IsInnermost (form_from forest.now.tokens at) }
    ensures { (i e : Sort) → sort_at table.now.sorts sort ≡ array i e → ReadsEverywhere forest.now.tokens e (value_in (form_from forest.now.tokens at) (array i e)) result }
{
    match shape_at(forest, at) {
        Shape::Filled {
            sort: written,
            value,
        } => {
            if !is_sort_at(table, sort, forest, written) {
                return Err(refused(forest, at, Cause::ModelSort));
            }
            Ok(value)
        }
        Shape::Other => Err(refused(forest, at, Cause::NotATable)),
        _ => Err(refused(forest, at, Cause::ModelSort)),
    }
}

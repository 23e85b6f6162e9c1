//! The term of a value: a constant, or an array as stores over a constant array.

ghost use Rattle.std.specs.Prelude.{◌≡◌, Some, IfOk, IfSome, IsTrue, option_map};
ghost use Rattle.smt_terms.specs.Constants.{constant_term};
ghost use Rattle.smt_terms.specs.Rank.{sort_of};
ghost use Rattle.smt_terms.specs.Sorts as plain;
ghost use Rattle.smt_terms.specs.Values.{Sizes, every_pair, is_value};
ghost use Rattle.smt_values.specs.Meaning.{meaning, scalar_value, scalar_sort, IsScalar};
ghost use Rattle.smt_values.specs.SortIds.{sort_at, IsSortId};
ghost use Rattle.smt_values.specs.Tables.{as_value};
ghost use Rattle.smt_values.specs.Valid.{IsValue, HasPairs};
ghost use Rattle.term_table.specs.Formulas.{tree, IsNode};
ghost use Rattle.term_walk.specs.Walking.{GrowsTo};
ghost use Rattle.array_forms.specs.ValueTerm.{stored, stores, value_term};

use normal_forms::literals::node_of;
use smt_terms::NodeId;
use smt_values::{ArrayValue, Op, Scalar, SortId, Value};
use std::alloc::{AllocError, Global};
use term_table::Table;

/// The term of a value of a sort: a constant, or stores over a constant array, the first pair innermost. None exactly
/// where the value holds an element of a declared sort.
pub fn array_value(
    _alloc: Global,
    table: &mut Table,
    value: &Value,
    sort: SortId,
) -> Result<Option<NodeId>, AllocError>
    requires sort { IsSortId table.old.sorts sort }
    requires value { (sizes : Sizes) × IsValue (sort_at table.old.sorts sort) sizes value.now }
    ensures node { IfOk result (λ found. IfSome found (IsNode table.new)) }
    ensures term { IfOk result (λ found. option_map (tree table.new) found ≡ value_term (sort_at table.old.sorts sort) (meaning value.now)) }
    ensures grows { GrowsTo table.old table.new }
    ensures symbols { table.new.symbols ≡ table.old.symbols }
    ensures sorts { table.new.sorts ≡ table.old.sorts }
{
    term_of(table, value, sort)
}

// The term of a value, as a node of its sort.
#[cycle(nesting)]
fn term_of(table: &mut Table, value: &Value, sort: SortId) -> Result<Option<NodeId>, AllocError>
    requires sort { IsSortId table.old.sorts sort }
    requires value { (sizes : Sizes) × IsValue (sort_at table.old.sorts sort) sizes value.now }
    ensures node { IfOk result (λ found. IfSome found (IsNode table.new)) }
    ensures sort { IfOk result (λ found. IfSome found (λ k. sort_of (tree table.new k) ≡ Some (sort_at table.old.sorts sort))) }
    ensures term { IfOk result (λ found. option_map (tree table.new) found ≡ value_term (sort_at table.old.sorts sort) (meaning value.now)) }
    ensures grows { GrowsTo table.old table.new }
    ensures symbols { table.new.symbols ≡ table.old.symbols }
    ensures sorts { table.new.sorts ≡ table.old.sorts }
{
    match value {
        Value::Scalar(scalar) => {
            let id = node_of(table, *scalar)?;
            Ok(Some(id))
        }
        Value::Element(_) => Ok(None),
        Value::Array(array) => term_of_array(table, array, sort),
    }
}

#[cycle(nesting)]
#[tactic(auto, unfolding(term_table::specs::Formulas::kind))]
fn term_of_array(
    table: &mut Table,
    array: &ArrayValue,
    sort: SortId,
) -> Result<Option<NodeId>, AllocError>
    requires sort { IsSortId table.old.sorts sort }
    requires array { (sizes : Sizes) × IsTrue (is_value (sort_at table.old.sorts sort) sizes (as_value array.now)) }
    ensures node { IfOk result (λ found. IfSome found (IsNode table.new)) }
    ensures sort { IfOk result (λ found. IfSome found (λ k. sort_of (tree table.new k) ≡ Some (sort_at table.old.sorts sort))) }
    ensures term { IfOk result (λ found. option_map (tree table.new) found ≡ value_term (sort_at table.old.sorts sort) (as_value array.now)) }
    ensures grows { GrowsTo table.old table.new }
    ensures symbols { table.new.symbols ≡ table.old.symbols }
    ensures sorts { table.new.sorts ≡ table.old.sorts }
{
    let Some((index, element)) = table.sorts().parts(sort) else {
        return Ok(None);
    };
    let Some(fallback) = term_of(table, array.fallback(), element)? else {
        return Ok(None);
    };
    let filled = table.intern(Op::ConstArray(sort), &[fallback])?;
    with_pairs(table, filled, array, index, element)
}

// The pairs of an array stored over an array, the first of them innermost.
#[cycle(nesting)]
fn with_pairs(
    table: &mut Table,
    filled: NodeId,
    array: &ArrayValue,
    index: SortId,
    element: SortId,
) -> Result<Option<NodeId>, AllocError>
    requires index { IsSortId table.old.sorts index }
    requires element { IsSortId table.old.sorts element }
    requires node { IsNode table.old filled }
    requires sort { sort_of (tree table.old filled) ≡ Some (plain.array (sort_at table.old.sorts index) (sort_at table.old.sorts element)) }
    requires pairs { (sizes : Sizes) × HasPairs (sort_at table.old.sorts index) (sort_at table.old.sorts element) sizes array.now.pairs }
    ensures node { IfOk result (λ found. IfSome found (IsNode table.new)) }
    ensures sort { IfOk result (λ found. IfSome found (λ k. sort_of (tree table.new k) ≡ Some (plain.array (sort_at table.old.sorts index) (sort_at table.old.sorts element)))) }
    ensures term { IfOk result (λ found. option_map (tree table.new) found ≡ stores (value_term (sort_at table.old.sorts index)) (value_term (sort_at table.old.sorts element)) (Some (tree table.old filled)) array.now.pairs) }
    ensures grows { GrowsTo table.old table.new }
    ensures symbols { table.new.symbols ≡ table.old.symbols }
    ensures sorts { table.new.sorts ≡ table.old.sorts }
{
    let mut stored = filled;
    for i in 0..array.len() {
        let (key, value) = array.pair(i);
        let Some(next) = with_pair(table, stored, key, value, index, element)? else {
            return Ok(None);
        };
        stored = next;
    }
    Ok(Some(stored))
}

// A pair stored in an array.
#[cycle(nesting)]
#[tactic(auto, unfolding(term_table::specs::Formulas::kind))]
fn with_pair(
    table: &mut Table,
    before: NodeId,
    key: &Value,
    value: &Value,
    index: SortId,
    element: SortId,
) -> Result<Option<NodeId>, AllocError>
    requires index { IsSortId table.old.sorts index }
    requires element { IsSortId table.old.sorts element }
    requires node { IsNode table.old before }
    requires sort { sort_of (tree table.old before) ≡ Some (plain.array (sort_at table.old.sorts index) (sort_at table.old.sorts element)) }
    requires key { (sizes : Sizes) × IsValue (sort_at table.old.sorts index) sizes key.now }
    requires value { (sizes : Sizes) × IsValue (sort_at table.old.sorts element) sizes value.now }
    ensures node { IfOk result (λ found. IfSome found (IsNode table.new)) }
    ensures sort { IfOk result (λ found. IfSome found (λ k. sort_of (tree table.new k) ≡ Some (plain.array (sort_at table.old.sorts index) (sort_at table.old.sorts element)))) }
    ensures term { IfOk result (λ found. option_map (tree table.new) found ≡ stored (Some (tree table.old before)) (value_term (sort_at table.old.sorts index) (meaning key.now)) (value_term (sort_at table.old.sorts element) (meaning value.now))) }
    ensures grows { GrowsTo table.old table.new }
    ensures symbols { table.new.symbols ≡ table.old.symbols }
    ensures sorts { table.new.sorts ≡ table.old.sorts }
{
    let Some(key) = term_of(table, key, index)? else {
        return Ok(None);
    };
    let Some(value) = term_of(table, value, element)? else {
        return Ok(None);
    };
    let id = table.intern(Op::Store, &[before, key, value])?;
    Ok(Some(id))
}

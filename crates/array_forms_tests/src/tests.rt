//! The terms of an array and of an element, which were worked out by hand.

ghost use Rattle.std.specs.Prelude.{◌≡◌, pos, IfOk, IsTrue};
ghost use Rattle.smt_terms.specs.Sorts.{bool, int, array};
ghost use Rattle.smt_terms.specs.Values.{truth, whole, store};
ghost use Rattle.smt_values.specs.SizeTable.{sizes_by};
ghost use Rattle.smt_values.specs.SortIds.{IsSortId};
ghost use Rattle.smt_values.specs.Tables.{as_value};
ghost use Rattle.smt_values.specs.Valid.{IsValue, HasKeys};
ghost use Rattle.term_table.specs.Formulas.{AreNodes, IsOpOf};

use array_forms::array_value;
use smt_terms::NodeId;
use smt_values::{ArrayValue, Op, Scalar, Sizes, SortId, Value, store};
use std::alloc::{AllocError, Global};
use std::process::Abort;
use std::test::Fail;
use term_table::Table;

// Whether these are nodes of the table.
fn are_nodes(table: &Table, ids: &[NodeId]) -> bool
    ensures { IsTrue result → AreNodes table.now ids.now }
{
    for id in ids {
        if id.0 >= table.len() {
            return false;
        }
    }
    true
}

// The node of an operator over nodes, which the table has.
fn known(rt: &impl Abort, table: &Table, op: Op, kids: &[NodeId]) -> Result<NodeId, AllocError>
    requires { IsOpOf table.now op }
{
    assert!(rt; are_nodes(table, kids));
    match table.find(op, kids)? {
        Some(id) => Ok(id),
        None => panic!(rt; "the table has no such node"),
    }
}

// An array of Int over Bool with 1 stored at a key.
fn with_one(
    alloc: Global,
    table: &Table,
    array: ArrayValue,
    key: bool,
    sizes: &Sizes,
) -> Result<ArrayValue, AllocError>
    requires { HasKeys bool (sizes_by table.now.sorts sizes.now) array.pairs }
    ensures { IfOk result (λ a. as_value a ≡ store bool (sizes_by table.now.sorts sizes.now) (as_value array) (truth key) (whole (pos 1))) }
{
    let key = Value::Scalar(Scalar::Truth(key));
    let one = Value::Scalar(Scalar::Whole(1));
    store(alloc, array, key, one, table.sorts(), SortId::BOOL, sizes)
}

// The whole number 0, with 1 stored at true and then at false.
fn ones(alloc: Global, table: &Table) -> Result<Value, AllocError>
    ensures { IfOk result (IsValue (array bool int) (λ _. 1)) }
{
    let sizes = Sizes::new(alloc);
    let zeros = ArrayValue::new(alloc, Value::Scalar(Scalar::Whole(0)));
    let half = with_one(alloc, table, zeros, true, &sizes)?;
    let ones = with_one(alloc, table, half, false, &sizes)?;
    Ok(Value::Array(Box::new(alloc, ones)?))
}

// The node of `(store (store ((as const (Array Bool Int)) 0) true 1) false 1)`.
#[tactic(auto, unfolding(term_table::specs::Formulas::kind))]
fn stores(rt: &impl Abort, table: &Table, sort: SortId) -> Result<NodeId, AllocError>
    requires { IsSortId table.now.sorts sort }
{
    let zero = known(rt, table, Op::Whole(0), &[])?;
    let one = known(rt, table, Op::Whole(1), &[])?;
    let filled = known(rt, table, Op::ConstArray(sort), &[zero])?;
    let on = known(rt, table, Op::Truth(true), &[])?;
    let first = known(rt, table, Op::Store, &[filled, on, one])?;
    let off = known(rt, table, Op::Truth(false), &[])?;
    known(rt, table, Op::Store, &[first, off, one])
}

#[test]
fn terms_of_values(rt: HostRuntime) -> Result<(), Fail> {
    let mut table = Table::new(rt.alloc());
    an_array_is_stores(&rt, rt.alloc(), &mut table)?;
    an_element_has_none(&rt, rt.alloc(), &mut table)?;
    Ok(())
}

fn an_array_is_stores(rt: &impl Abort, alloc: Global, table: &mut Table) -> Result<(), AllocError> {
    let sort = table.array_sort(SortId::BOOL, SortId::INT)?;
    let value = ones(alloc, table)?;
    let found = array_value(alloc, table, &value, sort)?;
    assert!(rt; found == Some(stores(rt, table, sort)?));
    Ok(())
}

fn an_element_has_none(
    rt: &impl Abort,
    alloc: Global,
    table: &mut Table,
) -> Result<(), AllocError> {
    let sort = table.declared_sort(b"U")?;
    let found = array_value(alloc, table, &Value::Element(0), sort)?;
    assert!(rt; found.is_none());
    Ok(())
}

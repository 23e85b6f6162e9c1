//! The laws of `select` and `store`.

ghost use Rattle.std.specs.Prelude.{◌≡◌, ◌<◌, ◌∷◌, [], Some, IfOk, MatchOption};
ghost use Rattle.smt_terms.specs.ArrayTerms.{selected};
ghost use Rattle.smt_terms.specs.Constants.{are_different_constants};
ghost use Rattle.smt_terms.specs.declared.op.Op.TheVariants.{Select, Store};
ghost use Rattle.smt_terms.specs.Equal.{term_eq};
ghost use Rattle.smt_terms.specs.Term.{Term};
ghost use Rattle.term_table.specs.Formulas.{tree, trees_at, operands, IsNode, Makes};
ghost use Rattle.term_walk.specs.Walking.{GrowsTo};
ghost use Rattle.simplify.specs.ArrayNodes.{IsStored, IsLayer, Reads, IsElement, IsHidden, IsBare};
ghost use Rattle.simplify.specs.Arrays as plain;
ghost use Rattle.simplify.specs.Folding.{two, three};
ghost use Rattle.simplify.specs.Reduced.{Names, Answers};

use crate::constants::constant;
use normal_forms::comparing::are_same;
use smt_terms::NodeId;
use smt_values::Op;
use std::alloc::AllocError;
use term_table::Table;

// The outermost layer of an array: a constant array, with its element, a store, or another term.
#[derive(Clone, Copy)]
enum Layer {
    Filled(NodeId),
    Stored {
        array: NodeId,
        index: NodeId,
        value: NodeId,
    },
    Opaque,
}

// What the outermost layer of an array says of an element.
#[derive(Clone, Copy)]
enum Reading {
    Found(NodeId),
    // It is the element of the array before a store.
    Before(NodeId),
    Unknown,
}

// An element: a node that there is, or the `select` of an array.
#[derive(Clone, Copy)]
enum Element {
    Known(NodeId),
    Of(NodeId),
}

// The outermost layer of a node over one operand.
#[tactic(auto, unfolding(term_table::specs::Formulas::kind))]
fn over_one(table: &Table, id: NodeId, value: NodeId) -> Layer
    requires node { IsNode table.now id }
    requires value { IsNode table.now value }
    requires kids { operands (tree table.now id) ≡ tree table.now value ∷ [] }
    ensures { IsLayer table.now id result }
{
    match table.op(id) {
        Op::ConstArray(_) => Layer::Filled(value),
        _ => Layer::Opaque,
    }
}

// The outermost layer of a node over three operands.
#[tactic(auto, unfolding(term_table::specs::Formulas::kind))]
fn over_three(table: &Table, id: NodeId, array: NodeId, index: NodeId, value: NodeId) -> Layer
    requires node { IsNode table.now id }
    requires array { IsNode table.now array }
    requires index { IsNode table.now index }
    requires value { IsNode table.now value }
    requires below { array.0 < id.0 }
    requires kids { operands (tree table.now id) ≡ tree table.now array ∷ tree table.now index ∷ tree table.now value ∷ [] }
    ensures { IsLayer table.now id result }
{
    match table.op(id) {
        Op::Store => Layer::Stored {
            array,
            index,
            value,
        },
        _ => Layer::Opaque,
    }
}

// The outermost layer of a node.
fn outermost(table: &Table, id: NodeId) -> Layer
    requires { IsNode table.now id }
    ensures { IsLayer table.now id result }
{
    match table.kids(id) {
        [value] => over_one(table, id, *value),
        [array, index, value] => over_three(table, id, *array, *index, *value),
        _ => Layer::Opaque,
    }
}

// Whether two nodes are constants, and not the same one.
fn are_different(table: &Table, a: NodeId, b: NodeId) -> bool
    requires a { IsNode table.now a }
    requires b { IsNode table.now b }
    ensures { result ≡ are_different_constants (tree table.now a) (tree table.now b) }
{
    constant(table, a).is_some() && constant(table, b).is_some() && !are_same(table, a, b)
}

// Reads at an index from a store.
fn read_store(
    table: &Table,
    store: NodeId,
    array: NodeId,
    at: NodeId,
    value: NodeId,
    index: NodeId,
) -> Reading
    requires store { IsNode table.now store }
    requires stored { IsStored table.now store array at value }
    requires index { IsNode table.now index }
    ensures { Reads table.now store index result }
{
    if are_same(table, at, index) {
        return Reading::Found(value);
    }
    if are_different(table, at, index) {
        return Reading::Before(array);
    }
    Reading::Unknown
}

// Reads at an index from the outermost layer of an array.
fn read(table: &Table, array: NodeId, index: NodeId) -> Reading
    requires array { IsNode table.now array }
    requires index { IsNode table.now index }
    ensures { Reads table.now array index result }
{
    match outermost(table, array) {
        Layer::Filled(value) => Reading::Found(value),
        Layer::Stored {
            array: before,
            index: at,
            value,
        } => read_store(table, array, before, at, value, index),
        Layer::Opaque => Reading::Unknown,
    }
}

// Looks an element up, past stores at other constants.
fn look_up(table: &Table, array: NodeId, index: NodeId) -> Element
    requires array { IsNode table.now array }
    requires index { IsNode table.now index }
    ensures { IsElement table.now array index result }
{
    let mut reached = array;
    loop {
        match read(table, reached, index) {
            Reading::Found(value) => return Element::Known(value),
            Reading::Before(before) => reached = before,
            Reading::Unknown => return Element::Of(reached),
        }
    }
}

// The element of an array at an index.
#[tactic(auto, unfolding(term_table::specs::Formulas::kind))]
fn select(table: &mut Table, array: NodeId, index: NodeId) -> Result<NodeId, AllocError>
    requires { Makes table.old Select (array ∷ index ∷ []) }
    ensures names { IfOk result (Names table.new (plain.selection (tree table.old array) (tree table.old index))) }
    ensures grows { GrowsTo table.old table.new }
    ensures symbols { table.new.symbols ≡ table.old.symbols }
    ensures sorts { table.new.sorts ≡ table.old.sorts }
{
    match look_up(table, array, index) {
        Element::Known(value) => Ok(value),
        Element::Of(reached) => {
            let id = table.intern(Op::Select, &[reached, index])?;
            Ok(id)
        }
    }
}

/// What a `select` of these operands comes to. It takes time up to the number of stores that the array is made by.
pub(crate) fn selection(table: &mut Table, ids: &[NodeId]) -> Result<Option<NodeId>, AllocError>
    requires { Makes table.old Select ids.now }
    ensures found { IfOk result (Answers table.new (two (λ a j. Some (plain.selection a j)) (trees_at table.old ids.now))) }
    ensures grows { GrowsTo table.old table.new }
    ensures symbols { table.new.symbols ≡ table.old.symbols }
    ensures sorts { table.new.sorts ≡ table.old.sorts }
{
    match ids {
        [array, index] => {
            let id = select(table, *array, *index)?;
            Ok(Some(id))
        }
        _ => Ok(None),
    }
}

// The array before a store at this index, where the array is one.
fn hidden(table: &Table, array: NodeId, index: NodeId) -> Option<NodeId>
    requires array { IsNode table.now array }
    requires index { IsNode table.now index }
    ensures { MatchOption result ((v : Term) → plain.storing (tree table.now array) (tree table.now index) v ≡ plain.storing_anew (tree table.now array) (tree table.now index) v) (λ b. IsHidden table.now array index b) }
{
    match outermost(table, array) {
        Layer::Filled(_) => None,
        Layer::Stored {
            array: before,
            index: at,
            ..
        } => {
            if are_same(table, index, at) {
                return Some(before);
            }
            None
        }
        Layer::Opaque => None,
    }
}

// The array before the stores at this index, which a later store there hides.
fn bare(table: &Table, array: NodeId, index: NodeId) -> NodeId
    requires array { IsNode table.now array }
    requires index { IsNode table.now index }
    ensures { IsBare table.now array index result }
{
    let mut reached = array;
    while let Some(before) = hidden(table, reached, index) {
        reached = before;
    }
    reached
}

// Whether a value is the element of an array at an index, written as its `select`.
#[tactic(auto, unfolding(term_table::specs::Formulas::kind))]
fn is_element(
    table: &Table,
    array: NodeId,
    index: NodeId,
    value: NodeId,
) -> Result<bool, AllocError>
    requires array { IsNode table.now array }
    requires index { IsNode table.now index }
    requires value { IsNode table.now value }
    ensures { IfOk result (λ is. is ≡ term_eq (tree table.now value) (selected (tree table.now array) (tree table.now index))) }
{
    match table.find(Op::Select, &[array, index])? {
        Some(element) => Ok(are_same(table, value, element)),
        None => Ok(false),
    }
}

// The array with this element at an index.
#[tactic(auto, unfolding(term_table::specs::Formulas::kind))]
fn store(
    table: &mut Table,
    array: NodeId,
    index: NodeId,
    value: NodeId,
) -> Result<NodeId, AllocError>
    requires { Makes table.old Store (array ∷ index ∷ value ∷ []) }
    ensures names { IfOk result (Names table.new (plain.storing (tree table.old array) (tree table.old index) (tree table.old value))) }
    ensures grows { GrowsTo table.old table.new }
    ensures symbols { table.new.symbols ≡ table.old.symbols }
    ensures sorts { table.new.sorts ≡ table.old.sorts }
{
    let reached = bare(table, array, index);
    if is_element(table, reached, index, value)? {
        return Ok(reached);
    }
    let id = table.intern(Op::Store, &[reached, index, value])?;
    Ok(id)
}

/// What a `store` of these operands comes to. It takes time up to the number of stores that the array is made by.
pub(crate) fn storing(table: &mut Table, ids: &[NodeId]) -> Result<Option<NodeId>, AllocError>
    requires { Makes table.old Store ids.now }
    ensures found { IfOk result (Answers table.new (three (λ a i v. Some (plain.storing a i v)) (trees_at table.old ids.now))) }
    ensures grows { GrowsTo table.old table.new }
    ensures symbols { table.new.symbols ≡ table.old.symbols }
    ensures sorts { table.new.sorts ≡ table.old.sorts }
{
    match ids {
        [array, index, value] => {
            let id = store(table, *array, *index, *value)?;
            Ok(Some(id))
        }
        _ => Ok(None),
    }
}

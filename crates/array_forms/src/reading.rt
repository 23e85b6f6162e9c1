//! What is read from an array at an index j. Over what is read before the array's last write:
//!
//! - of a constant array, its element
//! - after v was written at j itself, v
//! - after a write at another constant, where j is a constant, what is read before it
//! - after v was written at another i, `(ite (= i j) v w)`, where w is read before it
//! - of any other array a, `(select a j)`

ghost use Rattle.std.specs.Prelude.{◌≡◌, [], List, All, IfOk, IfSome, OnOk, MatchOption, Option, false};
ghost use Rattle.smt_terms.specs.ArrayTerms.{selected, stored};
ghost use Rattle.smt_terms.specs.Connectives.{equal};
ghost use Rattle.smt_terms.specs.Constants as plain;
ghost use Rattle.smt_terms.specs.Equal.{term_eq};
ghost use Rattle.smt_terms.specs.Rank.{sort_of, IsWellSorted};
ghost use Rattle.smt_terms.specs.Sorts.{Sort};
ghost use Rattle.smt_terms.specs.Term.{Term};
ghost use Rattle.term_table.specs.Formulas.{tree, IsNode};
ghost use Rattle.term_walk.specs.Walking.{GrowsTo};
ghost use Rattle.array_forms.specs.Reads.{where_equal, over_store, read};
ghost use Rattle.array_forms.specs.Writes.{IsLastWrite, EndsAt, over_writes, Suits};

use normal_forms::comparing::are_same;
use smt_terms::NodeId;
use smt_values::Op;
use std::alloc::{AllocError, Global};
use term_table::{Table, know_table};

// A write: the array before it, and which element it put where.
#[derive(Clone, Copy)]
struct Write {
    before: NodeId,
    index: NodeId,
    value: NodeId,
}

// Whether a node is a constant of Bool, Int or bit vectors.
#[tactic(auto, unfolding(term_table::specs::Formulas::kind))]
fn is_constant(table: &Table, id: NodeId) -> bool
    requires { IsNode table.now id }
    ensures { result ≡ plain.is_constant (tree table.now id) }
{
    match table.op(id) {
        Op::Truth(_) | Op::Whole(_) | Op::Bits { .. } => true,
        _ => false,
    }
}

// Whether two nodes are different constants.
fn are_different_constants(table: &Table, a: NodeId, b: NodeId) -> bool
    requires a { IsNode table.now a }
    requires b { IsNode table.now b }
    ensures { result ≡ plain.are_different_constants (tree table.now a) (tree table.now b) }
{
    is_constant(table, a) && is_constant(table, b) && !are_same(table, a, b)
}

// The last write of an array, if it is written out.
#[tactic(auto, unfolding(term_table::specs::Formulas::kind))]
fn last_write(table: &Table, array: NodeId) -> Option<Write>
    requires { IsNode table.now array }
    ensures { MatchOption result ((b i v : Term) → tree table.now array ≡ stored b i v → ⊥) (IsLastWrite table.now array) }
{
    match table.op(array) {
        Op::Store => {
            let kids = table.kids(array);
            Some(Write {
                before: kids[0],
                index: kids[1],
                value: kids[2],
            })
        }
        _ => None,
    }
}

// The last write of an array, unless it is at this index.
fn write_elsewhere(table: &Table, array: NodeId, index: NodeId) -> Option<Write>
    requires array { IsNode table.now array }
    requires index { IsNode table.now index }
    ensures write { MatchOption result (EndsAt (tree table.now array) (tree table.now index)) (IsLastWrite table.now array) }
    ensures other { IfSome result (λ w. term_eq (tree table.now w.index) (tree table.now index) ≡ false) }
{
    let write = last_write(table, array)?;
    if are_same(table, write.index, index) {
        return None;
    }
    Some(write)
}

// Puts a write behind those that may be at the index, unless it can't be there.
fn pass(
    table: &Table,
    write: Write,
    index: NodeId,
    passed: &mut Vec<Write>,
) -> Result<(), AllocError>
    requires index { IsNode table.now index }
    requires place { IsNode table.now write.index }
    requires other { term_eq (tree table.now write.index) (tree table.now index) ≡ false }
    ensures term { (e : Term) → OnOk result (over_writes table.now (tree table.now index) passed.new.items e ≡ over_writes table.now (tree table.now index) passed.old.items (over_store (tree table.now write.index) (tree table.now index) (tree table.now write.value) e)) }
    ensures suit { (s : Option Sort) → All (Suits table.now (tree table.now index) s) passed.old.items → Suits table.now (tree table.now index) s write → OnOk result (All (Suits table.now (tree table.now index) s) passed.new.items) }
{
    if are_different_constants(table, write.index, index) {
        return Ok(());
    }
    passed.push(write)?;
    Ok(())
}

// The way down: over an array's writes to one at the index, or to an array that isn't written out further. The writes
// that may be at the index are left in the order in which they were passed.
fn go_down(
    table: &Table,
    array: NodeId,
    index: NodeId,
    passed: &mut Vec<Write>,
) -> Result<NodeId, AllocError>
    requires array { IsNode table.now array }
    requires index { IsNode table.now index }
    requires sorted { IsWellSorted (selected (tree table.now array) (tree table.now index)) }
    requires none_passed { passed.old.items ≡ [] }
    ensures node { IfOk result (IsNode table.now) }
    ensures sorted { IfOk result (λ k. IsWellSorted (selected (tree table.now k) (tree table.now index))) }
    ensures sort { IfOk result (λ k. sort_of (selected (tree table.now k) (tree table.now index)) ≡ sort_of (selected (tree table.now array) (tree table.now index))) }
    ensures ends { IfOk result (λ k. EndsAt (tree table.now k) (tree table.now index)) }
    ensures suit { OnOk result (All (Suits table.now (tree table.now index) (sort_of (selected (tree table.now array) (tree table.now index)))) passed.new.items) }
    ensures term { IfOk result (λ k. read (tree table.now array) (tree table.now index) ≡ over_writes table.now (tree table.now index) passed.new.items (read (tree table.now k) (tree table.now index))) }
{
    let mut reached = array;
    while let Some(write) = write_elsewhere(table, reached, index) {
        pass(table, write, index, passed)?;
        reached = write.before;
    }
    Ok(reached)
}

// `(select a j)`.
#[tactic(auto, unfolding(term_table::specs::Formulas::kind))]
fn selection(table: &mut Table, array: NodeId, index: NodeId) -> Result<NodeId, AllocError>
    requires array { IsNode table.old array }
    requires index { IsNode table.old index }
    requires sorted { IsWellSorted (selected (tree table.old array) (tree table.old index)) }
    ensures node { IfOk result (IsNode table.new) }
    ensures term { IfOk result (λ k. tree table.new k ≡ selected (tree table.old array) (tree table.old index)) }
    ensures grows { GrowsTo table.old table.new }
    ensures symbols { table.new.symbols ≡ table.old.symbols }
    ensures sorts { table.new.sorts ≡ table.old.sorts }
{
    let id = table.intern(Op::Select, &[array, index])?;
    Ok(id)
}

// What is read from an array that isn't written to last.
#[tactic(auto, unfolding(term_table::specs::Formulas::kind))]
fn read_unwritten(table: &mut Table, array: NodeId, index: NodeId) -> Result<NodeId, AllocError>
    requires array { IsNode table.old array }
    requires index { IsNode table.old index }
    requires sorted { IsWellSorted (selected (tree table.old array) (tree table.old index)) }
    requires unwritten { (b i v : Term) → tree table.old array ≡ stored b i v → ⊥ }
    ensures node { IfOk result (IsNode table.new) }
    ensures term { IfOk result (λ k. tree table.new k ≡ read (tree table.old array) (tree table.old index)) }
    ensures grows { GrowsTo table.old table.new }
    ensures symbols { table.new.symbols ≡ table.old.symbols }
    ensures sorts { table.new.sorts ≡ table.old.sorts }
{
    match table.op(array) {
        Op::ConstArray(_) => Ok(table.kids(array)[0]),
        _ => {
            let id = selection(table, array, index)?;
            Ok(id)
        }
    }
}

// What is read at the end of the way down.
fn read_at_end(table: &mut Table, array: NodeId, index: NodeId) -> Result<NodeId, AllocError>
    requires array { IsNode table.old array }
    requires index { IsNode table.old index }
    requires sorted { IsWellSorted (selected (tree table.old array) (tree table.old index)) }
    requires ends { EndsAt (tree table.old array) (tree table.old index) }
    ensures node { IfOk result (IsNode table.new) }
    ensures term { IfOk result (λ k. tree table.new k ≡ read (tree table.old array) (tree table.old index)) }
    ensures grows { GrowsTo table.old table.new }
    ensures symbols { table.new.symbols ≡ table.old.symbols }
    ensures sorts { table.new.sorts ≡ table.old.sorts }
{
    match last_write(table, array) {
        Some(write) => Ok(write.value),
        None => {
            let id = read_unwritten(table, array, index)?;
            Ok(id)
        }
    }
}

// `(= a b)`.
#[tactic(auto, unfolding(term_table::specs::Formulas::kind))]
fn equation(table: &mut Table, a: NodeId, b: NodeId) -> Result<NodeId, AllocError>
    requires a { IsNode table.old a }
    requires b { IsNode table.old b }
    requires same_sort { sort_of (tree table.old a) ≡ sort_of (tree table.old b) }
    ensures node { IfOk result (IsNode table.new) }
    ensures term { IfOk result (λ k. tree table.new k ≡ equal (tree table.old a) (tree table.old b)) }
    ensures grows { GrowsTo table.old table.new }
    ensures symbols { table.new.symbols ≡ table.old.symbols }
    ensures sorts { table.new.sorts ≡ table.old.sorts }
{
    know_table(table);
    let id = table.intern(Op::Equal, &[a, b])?;
    Ok(id)
}

// The element that a write put where its index is the one asked for, else the other one.
#[tactic(auto, unfolding(term_table::specs::Formulas::kind))]
fn choice(
    table: &mut Table,
    write: Write,
    index: NodeId,
    other: NodeId,
) -> Result<NodeId, AllocError>
    requires index { IsNode table.old index }
    requires other { IsNode table.old other }
    requires suits { Suits table.old (tree table.old index) (sort_of (tree table.old other)) write }
    ensures node { IfOk result (IsNode table.new) }
    ensures term { IfOk result (λ k. tree table.new k ≡ where_equal (tree table.old write.index) (tree table.old index) (tree table.old write.value) (tree table.old other)) }
    ensures sort { IfOk result (λ k. sort_of (tree table.new k) ≡ sort_of (tree table.old other)) }
    ensures grows { GrowsTo table.old table.new }
    ensures symbols { table.new.symbols ≡ table.old.symbols }
    ensures sorts { table.new.sorts ≡ table.old.sorts }
{
    know_table(table);
    let same = equation(table, write.index, index)?;
    let id = table.intern(Op::Ite, &[same, write.value, other])?;
    Ok(id)
}

// The way back: what is read over these writes, of what is read below them.
fn go_back(
    table: &mut Table,
    index: NodeId,
    mut passed: Vec<Write>,
    mut element: NodeId,
) -> Result<NodeId, AllocError>
    requires index { IsNode table.old index }
    requires element { IsNode table.old element }
    requires suit { All (Suits table.old (tree table.old index) (sort_of (tree table.old element))) passed.items }
    ensures node { IfOk result (IsNode table.new) }
    ensures term { IfOk result (λ k. tree table.new k ≡ over_writes table.old (tree table.old index) passed.items (tree table.old element)) }
    ensures grows { GrowsTo table.old table.new }
    ensures symbols { table.new.symbols ≡ table.old.symbols }
    ensures sorts { table.new.sorts ≡ table.old.sorts }
{
    while let Some(write) = passed.pop() {
        element = choice(table, write, index, element)?;
    }
    Ok(element)
}

/// What is read from an array at an index.
pub(crate) fn read(
    alloc: Global,
    table: &mut Table,
    array: NodeId,
    index: NodeId,
) -> Result<NodeId, AllocError>
    requires array { IsNode table.old array }
    requires index { IsNode table.old index }
    requires sorted { IsWellSorted (selected (tree table.old array) (tree table.old index)) }
    ensures node { IfOk result (IsNode table.new) }
    ensures term { IfOk result (λ k. tree table.new k ≡ read (tree table.old array) (tree table.old index)) }
    ensures grows { GrowsTo table.old table.new }
    ensures symbols { table.new.symbols ≡ table.old.symbols }
    ensures sorts { table.new.sorts ≡ table.old.sorts }
{
    let mut passed = Vec::new(alloc);
    let end = go_down(table, array, index, &mut passed)?;
    let element = read_at_end(table, end, index)?;
    let id = go_back(table, index, passed, element)?;
    Ok(id)
}

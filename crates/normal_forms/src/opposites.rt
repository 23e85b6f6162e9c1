//! Formulas and their opposites.

ghost use Rattle.std.specs.Prelude.{◌≡◌, ◌<◌, length, map, All, Some, IfOk, MatchOption};
ghost use Rattle.smt_terms.specs.Connectives.{both, negated, opposite};
ghost use Rattle.term_table.specs.Formulas.{tree, trees_at};
ghost use Rattle.term_walk.specs.Walking.{GrowsTo};
ghost use Rattle.normal_forms.specs.Nodes.{IsFormula};

use crate::making::{both, negation};
use smt_terms::NodeId;
use smt_values::Op;
use std::alloc::{AllocError, Global};
use term_table::Table;

// The operand of a `not`, and None for another formula.
#[tactic(auto, unfolding(term_table::specs::Formulas::kind))]
fn under_not(table: &Table, id: NodeId) -> Option<NodeId>
    requires { IsFormula table.now id }
    ensures { MatchOption result (opposite (tree table.now id) ≡ negated (tree table.now id)) (λ k. IsFormula table.now k × (tree table.now k ≡ opposite (tree table.now id))) }
{
    match table.op(id) {
        Op::Not => Some(table.kids(id)[0]),
        _ => None,
    }
}

/// The formula without its `not`, or else with one.
pub fn opposite(table: &mut Table, id: NodeId) -> Result<NodeId, AllocError>
    requires { IsFormula table.old id }
    ensures formula { IfOk result (IsFormula table.new) }
    ensures term { IfOk result (λ k. tree table.new k ≡ opposite (tree table.old id)) }
    ensures grows { GrowsTo table.old table.new }
    ensures symbols { table.new.symbols ≡ table.old.symbols }
    ensures sorts { table.new.sorts ≡ table.old.sorts }
{
    match under_not(table, id) {
        Some(kid) => Ok(kid),
        None => negation(table, id),
    }
}

// `(not (and a b))`.
pub(crate) fn not_both(table: &mut Table, a: NodeId, b: NodeId) -> Result<NodeId, AllocError>
    requires a { IsFormula table.old a }
    requires b { IsFormula table.old b }
    ensures formula { IfOk result (IsFormula table.new) }
    ensures term { IfOk result (λ k. tree table.new k ≡ opposite (both (tree table.old a) (tree table.old b))) }
    ensures grows { GrowsTo table.old table.new }
    ensures symbols { table.new.symbols ≡ table.old.symbols }
    ensures sorts { table.new.sorts ≡ table.old.sorts }
{
    let all = both(table, a, b)?;
    opposite(table, all)
}

// `(not (and a b'))`, with b' the opposite of b.
pub(crate) fn implication(table: &mut Table, a: NodeId, b: NodeId) -> Result<NodeId, AllocError>
    requires a { IsFormula table.old a }
    requires b { IsFormula table.old b }
    ensures formula { IfOk result (IsFormula table.new) }
    ensures term { IfOk result (λ k. tree table.new k ≡ opposite (both (tree table.old a) (opposite (tree table.old b)))) }
    ensures grows { GrowsTo table.old table.new }
    ensures symbols { table.new.symbols ≡ table.old.symbols }
    ensures sorts { table.new.sorts ≡ table.old.sorts }
{
    let other = opposite(table, b)?;
    not_both(table, a, other)
}

// `(not (and a' b))`, with a' the opposite of a.
fn converse(table: &mut Table, a: NodeId, b: NodeId) -> Result<NodeId, AllocError>
    requires a { IsFormula table.old a }
    requires b { IsFormula table.old b }
    ensures formula { IfOk result (IsFormula table.new) }
    ensures term { IfOk result (λ k. tree table.new k ≡ opposite (both (opposite (tree table.old a)) (tree table.old b))) }
    ensures grows { GrowsTo table.old table.new }
    ensures symbols { table.new.symbols ≡ table.old.symbols }
    ensures sorts { table.new.sorts ≡ table.old.sorts }
{
    let other = opposite(table, a)?;
    not_both(table, other, b)
}

// Both implications.
pub(crate) fn same_sides(table: &mut Table, a: NodeId, b: NodeId) -> Result<NodeId, AllocError>
    requires a { IsFormula table.old a }
    requires b { IsFormula table.old b }
    ensures formula { IfOk result (IsFormula table.new) }
    ensures term { IfOk result (λ k. tree table.new k ≡ both (opposite (both (tree table.old a) (opposite (tree table.old b)))) (opposite (both (opposite (tree table.old a)) (tree table.old b)))) }
    ensures grows { GrowsTo table.old table.new }
    ensures symbols { table.new.symbols ≡ table.old.symbols }
    ensures sorts { table.new.sorts ≡ table.old.sorts }
{
    let left = implication(table, a, b)?;
    let right = converse(table, a, b)?;
    both(table, left, right)
}

// a where c holds, and b elsewhere.
pub(crate) fn choice(
    table: &mut Table,
    c: NodeId,
    a: NodeId,
    b: NodeId,
) -> Result<NodeId, AllocError>
    requires c { IsFormula table.old c }
    requires a { IsFormula table.old a }
    requires b { IsFormula table.old b }
    ensures formula { IfOk result (IsFormula table.new) }
    ensures term { IfOk result (λ k. tree table.new k ≡ both (opposite (both (tree table.old c) (opposite (tree table.old a)))) (opposite (both (opposite (tree table.old c)) (opposite (tree table.old b))))) }
    ensures grows { GrowsTo table.old table.new }
    ensures symbols { table.new.symbols ≡ table.old.symbols }
    ensures sorts { table.new.sorts ≡ table.old.sorts }
{
    let left = implication(table, c, a)?;
    let other = opposite(table, b)?;
    let right = converse(table, c, other)?;
    both(table, left, right)
}

// The opposites of these formulas.
pub(crate) fn opposites(
    alloc: Global,
    table: &mut Table,
    ids: &[NodeId],
) -> Result<Vec<NodeId>, AllocError>
    requires { All (IsFormula table.old) ids.now }
    ensures formulas { IfOk result (λ ks. All (IsFormula table.new) ks.items) }
    ensures terms { IfOk result (λ ks. trees_at table.new ks.items ≡ map opposite (trees_at table.old ids.now)) }
    ensures number { IfOk result (λ ks. length ks.items ≡ length ids.now) }
    ensures grows { GrowsTo table.old table.new }
    ensures symbols { table.new.symbols ≡ table.old.symbols }
    ensures sorts { table.new.sorts ≡ table.old.sorts }
{
    let mut opposites = Vec::with_capacity(alloc, ids.len())?;
    for id in ids {
        let other = opposite(table, *id)?;
        opposites.push(other)?;
    }
    Ok(opposites)
}

//! The laws of `and` and `or`.

ghost use Rattle.std.specs.Prelude.{◌≡◌, ◌≤◌, ◌++◌, ◌∷◌, [], length, not, All, IfOk, OnOk, filter};
ghost use Rattle.smt_terms.specs.declared.op.Op.TheVariants.{And, Or};
ghost use Rattle.smt_terms.specs.Connectives.{truth_term};
ghost use Rattle.smt_terms.specs.Term.{op, over};
ghost use Rattle.term_table.specs.Formulas.{tree, trees_at, IsNode, AreNodes, Makes};
ghost use Rattle.term_walk.specs.Walking.{GrowsTo};
ghost use Rattle.normal_forms.specs.Nodes.{IsFormula};
ghost use Rattle.simplify.specs.Folding as plain;
ghost use Rattle.simplify.specs.Joined.{operator, denies, is_clash};
ghost use Rattle.simplify.specs.Logic as logic;

use crate::constants::is_truth;
use crate::operands::{once, only_operand};
use indexmap::IndexSet;
use normal_forms::making;
use smt_terms::NodeId;
use smt_values::Op;
use std::alloc::{AllocError, Global};
use term_table::{Table, know_table};

// Whether a node is the `not` of one of these.
#[tactic(auto, unfolding(term_table::specs::Formulas::kind))]
fn denies_one(table: &Table, operands: &IndexSet<NodeId>, id: NodeId) -> bool
    requires node { IsNode table.now id }
    requires operands { AreNodes table.now operands.now.keys }
    ensures { result ≡ denies (trees_at table.now operands.now.keys) (tree table.now id) }
{
    know_table(table);
    match only_operand(table, Op::Not, id) {
        Some(kid) => operands.contains(&kid),
        None => false,
    }
}

// Whether a node is the other constant than the neutral one, or the `not` of one of these.
fn is_clash(table: &Table, neutral: bool, operands: &IndexSet<NodeId>, id: NodeId) -> bool
    requires node { IsNode table.now id }
    requires operands { AreNodes table.now operands.now.keys }
    ensures { result ≡ is_clash neutral (trees_at table.now operands.now.keys) (tree table.now id) }
{
    if is_truth(table, id, !neutral) {
        return true;
    }
    denies_one(table, operands, id)
}

// Whether some of these clash.
fn clash(table: &Table, neutral: bool, operands: &IndexSet<NodeId>) -> bool
    requires { AreNodes table.now operands.now.keys }
    ensures { result ≡ logic.clashes neutral (trees_at table.now operands.now.keys) }
{
    let ids = operands.as_slice();
    for id in ids {
        if is_clash(table, neutral, operands, *id) {
            return true;
        }
    }
    false
}

// Puts a node last, where it isn't the neutral constant.
fn leave(table: &Table, neutral: bool, left: &mut Vec<NodeId>, id: NodeId) -> Result<(), AllocError>
    requires node { IsNode table.now id }
    requires left { AreNodes table.now left.old.items }
    ensures terms { OnOk result (trees_at table.now left.new.items ≡ trees_at table.now left.old.items ++ filter (λ t. not (plain.is_truth neutral t)) (tree table.now id ∷ [])) }
    ensures nodes { OnOk result (AreNodes table.now left.new.items) }
{
    if is_truth(table, id, neutral) {
        return Ok(());
    }
    left.push(id)?;
    Ok(())
}

// What is left of these nodes without the neutral constant.
fn without(
    alloc: Global,
    table: &Table,
    neutral: bool,
    ids: &[NodeId],
) -> Result<Vec<NodeId>, AllocError>
    requires { AreNodes table.now ids.now }
    ensures terms { IfOk result (λ ks. trees_at table.now ks.items ≡ filter (λ t. not (plain.is_truth neutral t)) (trees_at table.now ids.now)) }
    ensures nodes { IfOk result (λ ks. AreNodes table.now ks.items) }
{
    let mut left = Vec::new(alloc);
    for id in ids {
        leave(table, neutral, &mut left, *id)?;
    }
    Ok(left)
}

// The `and`, or the `or`, of two formulas or more.
fn over_several(table: &mut Table, neutral: bool, ids: &[NodeId]) -> Result<NodeId, AllocError>
    requires formulas { All (IsFormula table.old) ids.now }
    requires several { 2 ≤ length ids.now }
    ensures node { IfOk result (IsNode table.new) }
    ensures term { IfOk result (λ k. tree table.new k ≡ over (op (operator neutral)) (trees_at table.old ids.now)) }
    ensures grows { GrowsTo table.old table.new }
    ensures symbols { table.new.symbols ≡ table.old.symbols }
    ensures sorts { table.new.sorts ≡ table.old.sorts }
{
    if neutral {
        let id = making::conjunction(table, ids)?;
        return Ok(id);
    }
    let id = making::disjunction(table, ids)?;
    Ok(id)
}

// The operator over what is left.
fn over_left(table: &mut Table, neutral: bool, ids: &[NodeId]) -> Result<NodeId, AllocError>
    requires { All (IsFormula table.old) ids.now }
    ensures node { IfOk result (IsNode table.new) }
    ensures term { IfOk result (λ k. tree table.new k ≡ plain.over_left (operator neutral) (truth_term neutral) (trees_at table.old ids.now)) }
    ensures grows { GrowsTo table.old table.new }
    ensures symbols { table.new.symbols ≡ table.old.symbols }
    ensures sorts { table.new.sorts ≡ table.old.sorts }
{
    match ids {
        [] => {
            let id = making::truth(table, neutral)?;
            Ok(id)
        }
        [id] => Ok(*id),
        _ => over_several(table, neutral, ids),
    }
}

// The law of `and` where the neutral constant is true, and else that of `or`.
fn junction(
    alloc: Global,
    table: &mut Table,
    neutral: bool,
    ids: &[NodeId],
) -> Result<NodeId, AllocError>
    requires { All (IsFormula table.old) ids.now }
    ensures node { IfOk result (IsNode table.new) }
    ensures term { IfOk result (λ k. tree table.new k ≡ logic.junction (operator neutral) neutral (trees_at table.old ids.now)) }
    ensures grows { GrowsTo table.old table.new }
    ensures symbols { table.new.symbols ≡ table.old.symbols }
    ensures sorts { table.new.sorts ≡ table.old.sorts }
{
    let operands = once(alloc, table, ids)?;
    if clash(table, neutral, &operands) {
        let other = making::truth(table, !neutral)?;
        return Ok(other);
    }
    let left = without(alloc, table, neutral, operands.as_slice())?;
    let id = over_left(table, neutral, &left)?;
    Ok(id)
}

/// The law of `and`, in time and memory up to the number of the operands.
pub(crate) fn conjunction(
    alloc: Global,
    table: &mut Table,
    ids: &[NodeId],
) -> Result<NodeId, AllocError>
    requires { Makes table.old And ids.now }
    ensures node { IfOk result (IsNode table.new) }
    ensures term { IfOk result (λ k. tree table.new k ≡ logic.conjunction (trees_at table.old ids.now)) }
    ensures grows { GrowsTo table.old table.new }
    ensures symbols { table.new.symbols ≡ table.old.symbols }
    ensures sorts { table.new.sorts ≡ table.old.sorts }
{
    know_table(table);
    junction(alloc, table, true, ids)
}

/// The law of `or`, in time and memory up to the number of the operands.
pub(crate) fn disjunction(
    alloc: Global,
    table: &mut Table,
    ids: &[NodeId],
) -> Result<NodeId, AllocError>
    requires { Makes table.old Or ids.now }
    ensures node { IfOk result (IsNode table.new) }
    ensures term { IfOk result (λ k. tree table.new k ≡ logic.disjunction (trees_at table.old ids.now)) }
    ensures grows { GrowsTo table.old table.new }
    ensures symbols { table.new.symbols ≡ table.old.symbols }
    ensures sorts { table.new.sorts ≡ table.old.sorts }
{
    know_table(table);
    junction(alloc, table, false, ids)
}

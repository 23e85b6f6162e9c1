//! Operands of nodes, one and without copies.

ghost use Rattle.std.specs.Prelude.{◌≡◌, IfOk, OnOk, MatchOption};
ghost use Rattle.smt_terms.specs.Term.{Term, apply, op as head, none, ◌⨾◌};
ghost use Rattle.term_table.specs.Formulas.{kind, theory, tree, trees_at, IsNode, AreNodes};
ghost use Rattle.term_walk.specs.FreeLists.{with_node};
ghost use Rattle.simplify.specs.Folding as plain;

use indexmap::IndexSet;
use smt_terms::NodeId;
use smt_values::Op;
use std::alloc::{AllocError, Global};
use term_table::{Table, know_table};

/// The operand of a node that has this operator and one operand; None for another node.
pub(crate) fn only_operand(table: &Table, op: Op, id: NodeId) -> Option<NodeId>
    requires node { IsNode table.now id }
    requires theory { kind op ≡ theory op }
    ensures { MatchOption result ((u : Term) → tree table.now id ≡ apply (head op) (u ⨾ none) → ⊥) (λ k. IsNode table.now k × (tree table.now id ≡ apply (head op) (tree table.now k ⨾ none))) }
{
    if !table.op(id).is(op) {
        return None;
    }
    match table.kids(id) {
        [kid] => Some(*kid),
        _ => None,
    }
}

// Puts a node last, where it isn't there.
fn put(kept: &mut IndexSet<NodeId>, id: NodeId) -> Result<(), AllocError>
    ensures { OnOk result (kept.new.keys ≡ with_node kept.old.keys id) }
{
    kept.insert(id)?;
    Ok(())
}

/// These nodes in order, without later copies.
pub(crate) fn once(
    alloc: Global,
    table: &Table,
    ids: &[NodeId],
) -> Result<IndexSet<NodeId>, AllocError>
    requires { AreNodes table.now ids.now }
    ensures terms { IfOk result (λ s. trees_at table.now s.keys ≡ plain.once (trees_at table.now ids.now)) }
    ensures nodes { IfOk result (λ s. AreNodes table.now s.keys) }
{
    know_table(table);
    let mut kept = IndexSet::new(alloc);
    for id in ids {
        put(&mut kept, *id)?;
    }
    Ok(kept)
}

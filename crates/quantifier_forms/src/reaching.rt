//! What is reached from the root of a formula through `and` and `or` alone.

ghost use Rattle.std.specs.Prelude.{◌≡◌, true, false, None, Some, IfOk, MatchOption, IfSome};
ghost use Rattle.term_table.specs.Formulas.{tree, trees_at, IsNode, AreNodes};
ghost use Rattle.normal_forms.specs.Prenex.{leftmost};
ghost use Rattle.term_walk.specs.Binders.{is_quantified};
ghost use Rattle.quantifier_forms.specs.Reaching.{is_junction, parts_of, first_quantified, IsBinder, AreBare, AreReached};

use crate::listing::{Choice, list};
use indexmap::IndexSet;
use smt_terms::NodeId;
use smt_values::Op;
use std::alloc::{AllocError, Global};
use term_table::{Table, know_table};
use term_walk::is_binder;

// Whether a node is an `and` or an `or`.
#[tactic(auto, unfolding(term_table::specs::Formulas::kind, smt_terms::specs::Connectives::operator_kind))]
pub(crate) fn is_junction(table: &Table, id: NodeId) -> bool
    requires { IsNode table.now id }
    ensures { result ≡ is_junction (tree table.now id) }
{
    match table.op(id) {
        Op::And | Op::Or => true,
        _ => false,
    }
}

// Whether no quantified formula is reached from a node that isn't one.
pub(crate) fn is_bare(table: &Table, bare: &IndexSet<NodeId>, id: NodeId) -> bool
    requires node { IsNode table.now id }
    requires applied { is_quantified (tree table.now id) ≡ false }
    requires bare { AreBare table.now bare.now.keys }
    ensures yes { result ≡ true → leftmost (tree table.now id) ≡ None }
    ensures no { result ≡ false → is_junction (tree table.now id) ≡ true }
{
    if !is_junction(table, id) {
        return true;
    }
    for kid in table.kids(id) {
        if !bare.contains(kid) {
            return false;
        }
    }
    true
}

// The nodes that are known to be bare.
#[derive(Drop)]
struct Known<'a> {
    bare: &'a IndexSet<NodeId>,
}

impl<'a> Choice for Known<'a> {
    ghost use Rattle.term_table.specs.Formulas.{tree};
    ghost use Rattle.term_walk.specs.FreeLists.{has_node};
    ghost use Rattle.quantifier_forms.specs.Reaching.{is_junction};

    ghost skips = { λ s. has_node s.bare.now.keys };

    ghost opens = { λ _ t k. is_junction (tree t k) };

    fn skips(&self, id: NodeId) -> bool {
        self.bare.contains(&id)
    }

    fn opens(&self, table: &Table, id: NodeId) -> bool {
        is_junction(table, id)
    }
}

// What is reached from a node, each behind its operands, but for the nodes that are known to be bare.
pub(crate) fn reached(
    alloc: Global,
    table: &Table,
    bare: &IndexSet<NodeId>,
    root: NodeId,
) -> Result<Vec<NodeId>, AllocError>
    requires root { IsNode table.now root }
    requires bare { AreBare table.now bare.now.keys }
    ensures { IfOk result (λ ks. AreReached table.now bare.now.keys root ks.items) }
{
    know_table(table);
    let order = list(alloc, table, &Known { bare }, root)?;
    Ok(order)
}

// The first of these nodes that is quantified.
pub(crate) fn first_binder(table: &Table, ids: &[NodeId]) -> Option<NodeId>
    requires { AreNodes table.now ids.now }
    ensures first { MatchOption result (first_quantified (trees_at table.now ids.now) ≡ None) (λ k. first_quantified (trees_at table.now ids.now) ≡ Some (parts_of (tree table.now k))) }
    ensures binder { IfSome result (IsBinder table.now) }
{
    know_table(table);
    for id in ids {
        if is_binder(table, *id) {
            return Some(*id);
        }
    }
    None
}

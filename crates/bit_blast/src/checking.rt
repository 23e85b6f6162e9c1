//! Which subterms of formulas are over bits.

ghost use Rattle.std.specs.Prelude.{◌≡◌, ◌&&◌, true, not, position, All, IfOk, OnOk, MatchOption};
ghost use Rattle.std.specs.List.{list_any};
ghost use Rattle.bit_blast.specs.Blasted.{is_bits_sort, is_bits};
ghost use Rattle.bit_blast.specs.Faults.{IsFirstFault};
ghost use Rattle.bit_blast.specs.Subterms.{is_open, is_plain, AreInOrder, AreSubterms};
ghost use Rattle.smt_terms.specs.declared.ids.NodeId.{NodeId};
ghost use Rattle.smt_terms.specs.Groups.{has_term};
ghost use Rattle.smt_terms.specs.Rank.{sort_of};
ghost use Rattle.term_groups.specs.Parts.{operands_of};
ghost use Rattle.term_table.specs.Formulas.{tree, trees_at, IsNode, AreNodes};
ghost use Rattle.term_walk.specs.FreeLists.{has_node, with_node};

use indexmap::IndexSet;
use smt_terms::{NodeId, Op, SortId};
use std::alloc::{AllocError, Global};
use term_table::{Table, know_table};

// Whether a node is neither quantified nor a symbol with arguments.
#[tactic(auto, unfolding(term_table::specs::Formulas::kind))]
fn is_plain(table: &Table, id: NodeId) -> bool
    requires { IsNode table.now id }
    ensures { result ≡ is_plain (tree table.now id) }
{
    match table.op(id) {
        Op::Forall | Op::Exists => false,
        Op::Sym(symbol) => table.symbol_rank(symbol).0.is_empty(),
        _ => true,
    }
}

// Whether a node is a truth value or a bit vector.
fn has_bits(table: &Table, id: NodeId) -> bool
    requires { IsNode table.now id }
    ensures { result ≡ is_bits_sort (sort_of (tree table.now id)) }
{
    let sort = table.sort_of(id);
    sort == SortId::BOOL || sort.width().is_some()
}

// Whether one of these nodes is among the faults.
fn any_fault(faults: &IndexSet<NodeId>, ids: &[NodeId]) -> bool
    ensures { result ≡ list_any (has_node faults.now.keys) ids.now }
{
    ids.iter().any(|id| faults.contains(id))
}

// The place of the first node that is among the faults.
fn first_among(faults: &IndexSet<NodeId>, ids: &[NodeId]) -> Option<usize>
    ensures { result ≡ position (has_node faults.now.keys) ids.now }
{
    ids.iter().position(|id| faults.contains(id))
}

// Whether a node is over bits, where of its operands those that aren't are among the faults.
fn is_over_bits(table: &Table, faults: &IndexSet<NodeId>, id: NodeId) -> bool
    requires node { IsNode table.now id }
    requires operands { is_open (tree table.now id) ≡ true → (k : NodeId) → IsNode table.now k → has_term (operands_of (tree table.now id)) (tree table.now k) ≡ true → has_node faults.now.keys k ≡ not (is_bits (tree table.now k)) }
    ensures { result ≡ is_bits (tree table.now id) }
{
    is_plain(table, id) && has_bits(table, id) && !any_fault(faults, table.kids(id))
}

// Puts a node among the faults.
fn note(faults: &mut IndexSet<NodeId>, id: NodeId) -> Result<(), AllocError>
    ensures { OnOk result (faults.new.keys ≡ with_node faults.old.keys id) }
{
    faults.insert(id)?;
    Ok(())
}

// Those of these nodes that aren't over bits.
fn all_faults(
    alloc: Global,
    table: &Table,
    order: &[NodeId],
) -> Result<IndexSet<NodeId>, AllocError>
    requires { AreInOrder table.now order.now }
    ensures { IfOk result (λ s. (k : NodeId) → IsNode table.now k → has_node s.keys k ≡ (has_node order.now k && not (is_bits (tree table.now k)))) }
{
    know_table(table);
    let mut faults = IndexSet::new(alloc);
    for id in order {
        if !is_over_bits(table, &faults, *id) {
            note(&mut faults, *id)?;
        }
    }
    Ok(faults)
}

/// The place of the first root that isn't over bits, and None where all are.
pub(crate) fn first_fault(
    alloc: Global,
    table: &Table,
    order: &[NodeId],
    roots: &[NodeId],
) -> Result<Option<usize>, AllocError>
    requires order { AreSubterms table.now (trees_at table.now roots.now) order.now }
    requires roots { AreNodes table.now roots.now }
    ensures { IfOk result (λ r. MatchOption r (All (λ u. is_bits u ≡ true) (trees_at table.now roots.now)) (IsFirstFault (trees_at table.now roots.now))) }
{
    know_table(table);
    let faults = all_faults(alloc, table, order)?;
    Ok(first_among(&faults, roots))
}

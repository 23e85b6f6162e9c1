//! The number of subterms.

ghost use Rattle.std.specs.Prelude.{◌≡◌, ℕ, ◌<◌, ◌≤◌, ◌||◌, List, All, IfOk, false, suc, length};
ghost use Rattle.smt_terms.specs.declared.ids.NodeId.{NodeId};
ghost use Rattle.term_table.specs.Formulas.{trees_at, IsNode, AreNodes, IsTable};
ghost use Rattle.term_walk.specs.Marks.{is_marked, has_number, marked_below, AreMarkedFrom};
ghost use Rattle.term_walk.specs.Subterms.{all_subterms};

use smt_terms::NodeId;
use std::alloc::{AllocError, Global};
use term_table::Table;

// The least number above those of all these nodes.
fn number_above(ids: &[NodeId], most: u64) -> u64
    requires { All (λ k. k.0 < most) ids.now }
    ensures above { All (λ k. k.0 < result) ids.now }
    ensures within { result ≤ most }
{
    let mut above = 0;
    for id in ids {
        if above <= id.0 {
            above = id.0 + 1;
        }
    }
    above
}

// This many numbers without a mark.
fn no_marks(alloc: Global, len: usize) -> Result<Vec<bool>, AllocError>
    ensures len { IfOk result (λ ms. length ms.items ≡ len) }
    ensures none { IfOk result (λ ms. (i : ℕ) → is_marked ms.items i ≡ false) }
{
    let mut marks = Vec::with_capacity(alloc, len)?;
    for _ in 0..len {
        marks.push(false)?;
    }
    Ok(marks)
}

// Marks these nodes.
fn mark(marks: &mut Vec<bool>, ids: &[NodeId])
    requires { All (λ k. k.0 < length marks.old.items) ids.now }
    ensures len { length marks.new.items ≡ length marks.old.items }
    ensures marks { (i : ℕ) → is_marked marks.new.items i ≡ (is_marked marks.old.items i || has_number ids.now i) }
{
    for id in ids {
        marks[id.0 as usize] = true;
    }
}

// Marks the operands of this node, where it has a mark itself.
fn mark_operands(table: &Table, marks: &mut Vec<bool>, id: NodeId)
    requires node { IsNode table.now id }
    requires mark { id.0 < length marks.old.items }
    ensures len { length marks.new.items ≡ length marks.old.items }
    ensures marks { (roots : List NodeId) → AreMarkedFrom table.now roots (suc id.0) marks.old.items → AreMarkedFrom table.now roots id.0 marks.new.items }
{
    if marks[id.0 as usize] {
        mark(marks, table.kids(id));
    }
}

// A mark at each subterm of these nodes, and at no other node.
pub(crate) fn mark_subterms(
    alloc: Global,
    table: &Table,
    roots: &[NodeId],
) -> Result<Vec<bool>, AllocError>
    requires { AreNodes table.now roots.now }
    ensures len { IfOk result (λ ms. length ms.items ≤ length table.now.trees) }
    ensures marks { IfOk result (λ ms. AreMarkedFrom table.now roots.now 0 ms.items) }
    ensures table { IsTable table.now }
{
    let above = number_above(roots, table.len());
    let mut marks = no_marks(alloc, above as usize)?;
    mark(&mut marks, roots);
    for number in (0..above).rev() {
        mark_operands(table, &mut marks, NodeId(number));
    }
    Ok(marks)
}

fn count_marks(marks: &[bool]) -> u64
    ensures { result ≡ marked_below marks.now (length marks.now) }
{
    let mut count = 0;
    for mark in marks {
        if *mark {
            count += 1;
        }
    }
    count
}

/// The number of distinct subterms of these nodes. It takes time and memory up to the greatest of their numbers.
pub fn count_nodes(alloc: Global, table: &Table, roots: &[NodeId]) -> Result<u64, AllocError>
    requires { AreNodes table.now roots.now }
    ensures { IfOk result (λ n. n ≡ length (all_subterms (trees_at table.now roots.now))) }
{
    let marks = mark_subterms(alloc, table, roots)?;
    Ok(count_marks(marks.as_slice()))
}

//! Associative operators, by two operands at a time.

ghost use Rattle.std.specs.Prelude.{◌≡◌, ◌<◌, ◌∷◌, length, IfOk, IsTrue};
ghost use Rattle.smt_terms.specs.Rank.{shape};
ghost use Rattle.smt_terms.specs.Written.{left_associative, right_associative, apply_to_both, from_left, from_right, associated};
ghost use Rattle.term_table.specs.Formulas.{tree, trees_at, AreNodes, IsNode};
ghost use Rattle.sort_check.specs.Forms.{is_fold};
ghost use Rattle.sort_check.specs.Making.{term_algebra, Extends, Builds};
ghost use Rattle.sort_check.specs.Operands.{TakesEach};

use crate::alike::alike;
use crate::fault::MakeFault;
use crate::making::{node, pair};
use smt_terms::{NodeId, Op};
use std::alloc::AllocError;
use term_table::Table;

/// A left associative operator over its operands.
pub fn left_associative(table: &mut Table, op: Op, kids: &[NodeId]) -> Result<NodeId, MakeFault>
    requires kids { AreNodes table.old kids.now }
    requires apt { IsTrue (is_fold (shape op)) }
    ensures { Builds table.old table.new (left_associative op) kids.now result }
{
    if kids.len() == 2 {
        return node(table, op, kids);
    }
    left_fold(table, op, kids)
}

// The same, for any number of operands. Never inlined, so that its caller, which mostly has two, can be.
#[inline(never)]
fn left_fold(table: &mut Table, op: Op, kids: &[NodeId]) -> Result<NodeId, MakeFault>
    requires kids { AreNodes table.old kids.now }
    requires apt { IsTrue (is_fold (shape op)) }
    ensures { Builds table.old table.new (left_associative op) kids.now result }
{
    alike(table, op, kids)?;
    let all = from_left(table, op, kids[0], &kids[1..])?;
    Ok(all)
}

/// A right associative operator over its operands.
pub fn right_associative(table: &mut Table, op: Op, kids: &[NodeId]) -> Result<NodeId, MakeFault>
    requires kids { AreNodes table.old kids.now }
    requires apt { IsTrue (is_fold (shape op)) }
    ensures { Builds table.old table.new (right_associative op) kids.now result }
{
    if kids.len() == 2 {
        return node(table, op, kids);
    }
    right_fold(table, op, kids)
}

// The same, for any number of operands. Never inlined, so that its caller, which mostly has two, can be.
#[inline(never)]
fn right_fold(table: &mut Table, op: Op, kids: &[NodeId]) -> Result<NodeId, MakeFault>
    requires kids { AreNodes table.old kids.now }
    requires apt { IsTrue (is_fold (shape op)) }
    ensures { Builds table.old table.new (right_associative op) kids.now result }
{
    alike(table, op, kids)?;
    let all = from_right(table, op, kids)?;
    Ok(all)
}

fn from_left(
    table: &mut Table,
    op: Op,
    first: NodeId,
    rest: &[NodeId],
) -> Result<NodeId, AllocError>
    requires takes { TakesEach table.old op (first ∷ rest.now) }
    requires apt { IsTrue (is_fold (shape op)) }
    ensures node { IfOk result (λ k. IsNode table.new k) }
    ensures term { IfOk result (λ k. tree table.new k ≡ from_left (apply_to_both term_algebra op) (tree table.old first) (trees_at table.old rest.now)) }
    ensures extends { Extends table.old table.new }
{
    let mut all = first;
    for kid in rest {
        all = pair(table, op, all, *kid)?;
    }
    Ok(all)
}

fn from_right(table: &mut Table, op: Op, kids: &[NodeId]) -> Result<NodeId, AllocError>
    requires takes { TakesEach table.old op kids.now }
    requires apt { IsTrue (is_fold (shape op)) }
    requires some { 0 < length kids.now }
    ensures node { IfOk result (λ k. IsNode table.new k) }
    ensures term { IfOk result (λ k. tree table.new k ≡ associated term_algebra op (from_right (apply_to_both term_algebra op)) (trees_at table.old kids.now)) }
    ensures extends { Extends table.old table.new }
{
    let last = kids.len() - 1;
    let mut all = kids[last];
    for k in (0..last).rev() {
        all = pair(table, op, kids[k], all)?;
    }
    Ok(all)
}

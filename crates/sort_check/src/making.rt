//! Nodes by their operators.

ghost use Rattle.std.specs.Prelude.{◌≡◌, ◌≢◌, IfOk, IsOk, OnErr, Ok};
ghost use Rattle.smt_terms.specs.declared.op.Op.TheVariants.{Neg};
ghost use Rattle.term_table.specs.Formulas.{tree, trees_at, rank_over, AreNodes, IsNode, IsOpOf, Adds, GrowsByOne, IsUnchanged};
ghost use Rattle.smt_terms.specs.Written.{apply_to_both};
ghost use Rattle.smt_values.specs.SortIds.{sort_at, IsSortId};
ghost use Rattle.sort_check.specs.Making.{made_over, term_algebra, FollowsRank, Extends};
ghost use Rattle.sort_check.specs.Operands.{rank_pair, node_sort};

use crate::fault::MakeFault;
use smt_terms::{NodeId, Op, SortId};
use std::alloc::{AllocError, Global};
use term_table::Table;

/// Makes the node of an operator over operands: exactly where the operator has a rank over them, memory aside. A unary
/// minus over an integer constant is made as the constant. After a refusal the table is as before.
pub fn make(_alloc: Global, table: &mut Table, op: Op, kids: &[NodeId]) -> Result<NodeId, MakeFault>
    requires kids { AreNodes table.old kids.now }
    requires numbers { IsOpOf table.old op }
    ensures rank { FollowsRank table.old.sorts (rank_over table.old op (trees_at table.old kids.now)) result }
    ensures node { IfOk result (λ k. IsNode table.new k) }
    ensures term { IfOk result (λ k. tree table.new k ≡ made_over table.old op (trees_at table.old kids.now)) }
    ensures grows { GrowsByOne table.old.trees table.new.trees }
    ensures added { Adds table.old.trees table.new.trees (made_over table.old op (trees_at table.old kids.now)) }
    ensures symbols { table.new.symbols ≡ table.old.symbols }
    ensures sorts { table.new.sorts ≡ table.old.sorts }
    ensures err { OnErr result (IsUnchanged table.old table.new) }
{
    match op {
        Op::Neg => negated(table, kids),
        _ => node(table, op, kids),
    }
}

/// The node of an operator other than the unary minus over these operands. Never inlined, so that its callers can be.
#[inline(never)]
pub fn node(table: &mut Table, op: Op, kids: &[NodeId]) -> Result<NodeId, MakeFault>
    requires other { op ≢ Neg }
    requires kids { AreNodes table.old kids.now }
    requires numbers { IsOpOf table.old op }
    ensures rank { FollowsRank table.old.sorts (rank_over table.old op (trees_at table.old kids.now)) result }
    ensures node { IfOk result (λ k. IsNode table.new k) }
    ensures term { IfOk result (λ k. tree table.new k ≡ made_over table.old op (trees_at table.old kids.now)) }
    ensures grows { GrowsByOne table.old.trees table.new.trees }
    ensures added { Adds table.old.trees table.new.trees (made_over table.old op (trees_at table.old kids.now)) }
    ensures symbols { table.new.symbols ≡ table.old.symbols }
    ensures sorts { table.new.sorts ≡ table.old.sorts }
    ensures err { OnErr result (IsUnchanged table.old table.new) }
{
    let sort = table.rank(op, kids)?;
    Ok(table.intern_of_sort(op, kids, sort)?)
}

// The unary minus over these operands. Never inlined, so that `make` is small.
#[inline(never)]
#[tactic(auto, unfolding(term_table::specs::Formulas::kind))]
fn negated(table: &mut Table, kids: &[NodeId]) -> Result<NodeId, MakeFault>
    requires kids { AreNodes table.old kids.now }
    ensures rank { FollowsRank table.old.sorts (rank_over table.old Neg (trees_at table.old kids.now)) result }
    ensures node { IfOk result (λ k. IsNode table.new k) }
    ensures term { IfOk result (λ k. tree table.new k ≡ made_over table.old Neg (trees_at table.old kids.now)) }
    ensures grows { GrowsByOne table.old.trees table.new.trees }
    ensures added { Adds table.old.trees table.new.trees (made_over table.old Neg (trees_at table.old kids.now)) }
    ensures symbols { table.new.symbols ≡ table.old.symbols }
    ensures sorts { table.new.sorts ≡ table.old.sorts }
    ensures err { OnErr result (IsUnchanged table.old table.new) }
{
    table.rank(Op::Neg, kids)?;
    Ok(table.minus(kids[0])?)
}

/// The node of an operator that takes these two operands.
pub fn pair(table: &mut Table, op: Op, left: NodeId, right: NodeId) -> Result<NodeId, AllocError>
    requires left { IsNode table.old left }
    requires right { IsNode table.old right }
    requires ranked { IsOk (rank_pair op (node_sort table.old left) (node_sort table.old right)) }
    ensures node { IfOk result (λ k. IsNode table.new k) }
    ensures term { IfOk result (λ k. tree table.new k ≡ apply_to_both term_algebra op (tree table.old left) (tree table.old right)) }
    ensures extends { Extends table.old table.new }
{
    let node = table.intern(op, &[left, right])?;
    Ok(node)
}

/// As `pair`, where the sort of the node is known.
pub fn pair_of_sort(
    table: &mut Table,
    op: Op,
    left: NodeId,
    right: NodeId,
    sort: SortId,
) -> Result<NodeId, AllocError>
    requires left { IsNode table.old left }
    requires right { IsNode table.old right }
    requires ranked { rank_pair op (node_sort table.old left) (node_sort table.old right) ≡ Ok (sort_at table.old.sorts sort) }
    requires sort { IsSortId table.old.sorts sort }
    ensures node { IfOk result (λ k. IsNode table.new k) }
    ensures term { IfOk result (λ k. tree table.new k ≡ apply_to_both term_algebra op (tree table.old left) (tree table.old right)) }
    ensures extends { Extends table.old table.new }
{
    let node = table.intern_of_sort(op, &[left, right], sort)?;
    Ok(node)
}

//! Nodes by the names of written operators.

ghost use Rattle.std.specs.Prelude.{◌≡◌, ◌<◌, ◌^◌, IfOk, IsTrue};
ghost use Rattle.smt_terms.specs.Rank.{shape};
ghost use Rattle.smt_terms.specs.Written.{plain, over_all, subtraction, divisibility, whole_in, written_rank, build};
ghost use Rattle.term_table.specs.Formulas.{tree, trees_at, AreNodes, IsNode, Grows};
ghost use Rattle.term_table.specs.ShapeRank.{kid_sorts};
ghost use Rattle.sort_check.specs.Forms.{written_seen, is_apt, is_several, is_theory};
ghost use Rattle.sort_check.specs.Making.{term_algebra, FollowsRank, OnRefusal, Extends, Builds};

use crate::chains::{chain, exchanged};
use crate::fault::MakeFault;
use crate::folds::{left_associative, right_associative};
use crate::making::{make, pair};
use crate::vectors::{
    complemented, extraction, left_rotation, repetition, right_rotation, sign_extension,
    zero_extension,
};
use crate::written::Operator;
use smt_terms::{NodeId, Op};
use std::alloc::{AllocError, Global};
use term_table::{RankFault, Table};

/// Makes what the written operator stands for over these operands: exactly where it has a rank over them, memory aside.
/// The operator is one that `form_named` answers, with its indices. Nodes that were made before want of memory stay;
/// after another refusal the table is as before.
pub fn make_form(
    alloc: Global,
    table: &mut Table,
    operator: Operator,
    kids: &[NodeId],
) -> Result<NodeId, MakeFault>
    requires apt { IsTrue (is_apt (written_seen operator)) }
    requires kids { AreNodes table.old kids.now }
    ensures rank { FollowsRank table.old.sorts (written_rank (written_seen operator) (kid_sorts table.old kids.now)) result }
    ensures node { IfOk result (λ k. IsNode table.new k) }
    ensures term { IfOk result (λ k. tree table.new k ≡ build term_algebra (written_seen operator) (trees_at table.old kids.now)) }
    ensures grows { Grows table.old.trees table.new.trees }
    ensures symbols { table.new.symbols ≡ table.old.symbols }
    ensures sorts { table.new.sorts ≡ table.old.sorts }
    ensures refused { OnRefusal result (table.new.trees ≡ table.old.trees) }
{
    build(alloc, table, operator, kids)
}

#[tactic(auto, unfolding(crate::specs::Forms::is_apt))]
fn build(
    alloc: Global,
    table: &mut Table,
    operator: Operator,
    kids: &[NodeId],
) -> Result<NodeId, MakeFault>
    requires apt { IsTrue (is_apt (written_seen operator)) }
    requires kids { AreNodes table.old kids.now }
    ensures { Builds table.old table.new (written_seen operator) kids.now result }
{
    match operator {
        Operator::Plain(op) => plain(alloc, table, op, kids),
        Operator::OverAll(op) => over_all(alloc, table, op, kids),
        Operator::LeftAssociative(op) => left_associative(table, op, kids),
        Operator::RightAssociative(op) => right_associative(table, op, kids),
        Operator::Chainable(op) => chain(alloc, table, op, false, kids),
        Operator::ChainableExchanged(op) => chain(alloc, table, op, true, kids),
        Operator::Exchanged(op) => exchanged(table, op, kids),
        Operator::Complemented(op) => complemented(alloc, table, op, kids),
        Operator::Subtraction => subtraction(alloc, table, kids),
        Operator::Divisibility(n) => divisibility(table, n, kids),
        Operator::Repetition(count) => repetition(table, count, kids),
        Operator::LeftRotation(by) => left_rotation(alloc, table, by, kids),
        Operator::RightRotation(by) => right_rotation(alloc, table, by, kids),
        Operator::ZeroExtension(by) => zero_extension(alloc, table, by, kids),
        Operator::SignExtension(by) => sign_extension(alloc, table, by, kids),
        Operator::Extraction { high, low } => extraction(alloc, table, high, low, kids),
    }
}

// The operator over its operands.
fn plain(alloc: Global, table: &mut Table, op: Op, kids: &[NodeId]) -> Result<NodeId, MakeFault>
    requires kids { AreNodes table.old kids.now }
    requires apt { IsTrue (is_theory (shape op)) }
    ensures { Builds table.old table.new (plain op) kids.now result }
{
    make(alloc, table, op, kids)
}

// The operator over its operands; one operand stands for itself.
#[tactic(auto, unfolding(term_table::specs::Formulas::kind))]
fn over_all(alloc: Global, table: &mut Table, op: Op, kids: &[NodeId]) -> Result<NodeId, MakeFault>
    requires kids { AreNodes table.old kids.now }
    requires apt { IsTrue (is_several (shape op)) }
    ensures { Builds table.old table.new (over_all op) kids.now result }
{
    if kids.len() != 1 {
        return make(alloc, table, op, kids);
    }
    table.rank(op, &[kids[0], kids[0]])?;
    Ok(kids[0])
}

#[tactic(auto, unfolding(term_table::specs::Formulas::kind))]
fn subtraction(alloc: Global, table: &mut Table, kids: &[NodeId]) -> Result<NodeId, MakeFault>
    requires { AreNodes table.old kids.now }
    ensures { Builds table.old table.new subtraction kids.now result }
{
    if kids.len() < 2 {
        return make(alloc, table, Op::Neg, kids);
    }
    left_associative(table, Op::Sub, kids)
}

// Whether what is left of the operand divided by n is 0.
#[tactic(auto, unfolding(term_table::specs::Formulas::kind))]
fn divisibility(table: &mut Table, n: u128, kids: &[NodeId]) -> Result<NodeId, MakeFault>
    requires kids { AreNodes table.old kids.now }
    requires number { n < 2 ^ 127 }
    ensures { Builds table.old table.new (divisibility n) kids.now result }
{
    table.rank(Op::Neg, kids)?;
    if n == 0 {
        return Err(MakeFault::Rank(RankFault::BadIndex));
    }
    let divisor = whole(table, n)?;
    let rest = pair(table, Op::Mod, kids[0], divisor)?;
    let zero = whole(table, 0)?;
    let node = pair(table, Op::Equal, rest, zero)?;
    Ok(node)
}

fn whole(table: &mut Table, n: u128) -> Result<NodeId, AllocError>
    requires { n < 2 ^ 127 }
    ensures node { IfOk result (λ k. IsNode table.new k) }
    ensures term { IfOk result (λ k. tree table.new k ≡ whole_in term_algebra n) }
    ensures extends { Extends table.old table.new }
{
    let node = table.intern(Op::Whole(n as i128), &[])?;
    Ok(node)
}

//! Operators over bit vectors whose indices the operands' widths bound.

ghost use Rattle.std.specs.Prelude.{◌≡◌, ◌<◌, ◌≤◌, ◌%◌, ◌^◌, ◌-◌, length, IfOk, IsTrue, min};
ghost use Rattle.smt_terms.specs.declared.op.Op.TheVariants.{Extract, ZeroExt, SignExt};
ghost use Rattle.smt_terms.specs.Rank.{shape, width, operand, is_sort};
ghost use Rattle.smt_terms.specs.Written.{plain, complemented, repetition, left_rotation, right_rotation, copies};
ghost use Rattle.term_table.specs.Formulas.{tree, AreNodes, IsNode};
ghost use Rattle.term_table.specs.ShapeRank.{kid_sorts};
ghost use Rattle.sort_check.specs.Forms.{is_bitwise_pair};
ghost use Rattle.sort_check.specs.Making.{term_algebra, Extends, Builds};
ghost use Rattle.sort_check.specs.Operands.{Repeats};

use crate::fault::MakeFault;
use crate::making::{make, pair};
use smt_terms::{MOST_BITS, NodeId, Op};
use std::alloc::{AllocError, Global};
use term_table::{RankFault, Table};

/// The complement of an operator over two operands.
pub fn complemented(
    alloc: Global,
    table: &mut Table,
    op: Op,
    kids: &[NodeId],
) -> Result<NodeId, MakeFault>
    requires kids { AreNodes table.old kids.now }
    requires apt { IsTrue (is_bitwise_pair (shape op)) }
    ensures { Builds table.old table.new (complemented op) kids.now result }
{
    let inner = make(alloc, table, op, kids)?;
    let node = table.intern(Op::BvNot, &[inner])?;
    Ok(node)
}

/// So many copies of the operand behind one another.
#[tactic(auto, unfolding(term_table::specs::Formulas::kind))]
pub fn repetition(table: &mut Table, count: u128, kids: &[NodeId]) -> Result<NodeId, MakeFault>
    requires { AreNodes table.old kids.now }
    ensures { Builds table.old table.new (repetition count) kids.now result }
{
    let width = operand_width(table, kids);
    table.rank(Op::BvNot, kids)?;
    if count == 0 {
        return Err(MakeFault::Rank(RankFault::BadIndex));
    }
    if count > MOST_BITS as u128 / width as u128 {
        return Err(MakeFault::Rank(RankFault::WidthLimit));
    }
    let node = copies(table, kids[0], count as u64 - 1)?;
    Ok(node)
}

// So many more copies in front of the operand.
fn copies(table: &mut Table, kid: NodeId, more: u64) -> Result<NodeId, AllocError>
    requires { Repeats table.old kid more }
    ensures node { IfOk result (λ k. IsNode table.new k) }
    ensures term { IfOk result (λ k. tree table.new k ≡ copies term_algebra more (tree table.old kid)) }
    ensures extends { Extends table.old table.new }
{
    let mut all = kid;
    for _ in 0..more {
        all = pair(table, Op::Concat, kid, all)?;
    }
    Ok(all)
}

/// Rotation to the left.
#[tactic(auto, unfolding(term_table::specs::Formulas::kind))]
pub fn left_rotation(
    alloc: Global,
    table: &mut Table,
    by: u128,
    kids: &[NodeId],
) -> Result<NodeId, MakeFault>
    requires { AreNodes table.old kids.now }
    ensures { Builds table.old table.new (left_rotation by) kids.now result }
{
    let width = operand_width(table, kids);
    make(alloc, table, Op::RotL(reduced(by, width)), kids)
}

/// Rotation to the right.
#[tactic(auto, unfolding(term_table::specs::Formulas::kind))]
pub fn right_rotation(
    alloc: Global,
    table: &mut Table,
    by: u128,
    kids: &[NodeId],
) -> Result<NodeId, MakeFault>
    requires { AreNodes table.old kids.now }
    ensures { Builds table.old table.new (right_rotation by) kids.now result }
{
    let width = operand_width(table, kids);
    make(alloc, table, Op::RotR(reduced(by, width)), kids)
}

/// Extension by zeros.
#[tactic(auto, unfolding(term_table::specs::Formulas::kind))]
pub fn zero_extension(
    alloc: Global,
    table: &mut Table,
    by: u128,
    kids: &[NodeId],
) -> Result<NodeId, MakeFault>
    requires { AreNodes table.old kids.now }
    ensures { Builds table.old table.new (plain (ZeroExt by)) kids.now result }
{
    make(alloc, table, Op::ZeroExt(clamped(by)), kids)
}

/// Extension by copies of the highest bit.
#[tactic(auto, unfolding(term_table::specs::Formulas::kind))]
pub fn sign_extension(
    alloc: Global,
    table: &mut Table,
    by: u128,
    kids: &[NodeId],
) -> Result<NodeId, MakeFault>
    requires { AreNodes table.old kids.now }
    ensures { Builds table.old table.new (plain (SignExt by)) kids.now result }
{
    make(alloc, table, Op::SignExt(clamped(by)), kids)
}

/// The bits between two places.
#[tactic(auto, unfolding(term_table::specs::Formulas::kind))]
pub fn extraction(
    alloc: Global,
    table: &mut Table,
    high: u128,
    low: u128,
    kids: &[NodeId],
) -> Result<NodeId, MakeFault>
    requires { AreNodes table.old kids.now }
    ensures { Builds table.old table.new (plain (Extract high low)) kids.now result }
{
    let width = operand_width(table, kids);
    let op = Op::Extract {
        high: within(high, width),
        low: within(low, width),
    };
    make(alloc, table, op, kids)
}

// The number of bits to extend by, or the greatest that an operator holds, which is too large as each greater one is.
fn clamped(by: u128) -> u32
    ensures { result ≡ min by (2 ^ 32 - 1) }
{
    if by > u32::MAX as u128 {
        u32::MAX
    } else {
        by as u32
    }
}

// The index, or the width, which is out of range as each greater index is.
fn within(index: u128, width: u32) -> u32
    ensures { result ≡ min index width }
{
    if index > width as u128 {
        width
    } else {
        index as u32
    }
}

// The number modulo the width, if there is one.
fn reduced(by: u128, width: u32) -> u32
    ensures { 0 < width → result ≡ by % width }
{
    if width == 0 {
        return 0;
    }
    (by % width as u128) as u32
}

// The width of the only operand, and 0 where there is none or where it is no bit vector.
fn operand_width(table: &Table, kids: &[NodeId]) -> u32
    requires { AreNodes table.now kids.now }
    ensures width { length kids.now ≡ 1 → result ≡ width (operand 0 (kid_sorts table.now kids.now)) }
    ensures sort { length kids.now ≡ 1 → IsTrue (is_sort (operand 0 (kid_sorts table.now kids.now))) }
    ensures most { result ≤ 128 }
{
    if kids.len() != 1 {
        return 0;
    }
    table.sort_of(kids[0]).width().unwrap_or(0)
}

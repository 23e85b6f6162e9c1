//! Sums: with x_i = `(xor a_i b_i)`, bit i is `(xor x_i c_i)` and the carry c_(i+1) is `(or (and a_i b_i) (and c_i x_i))`.
//! A difference is the sum with the inverse bits and a carry of `true`.

ghost use Rattle.std.specs.Prelude.{◌≡◌, length, All, IfOk};
ghost use Rattle.bit_blast.specs.BitLoops.{IsBit};
ghost use Rattle.bit_blast.specs.BitNodes.{AreBits};
ghost use Rattle.bit_blast.specs.Blasted.{term_gates};
ghost use Rattle.bit_blast.specs.Circuits as plain;
ghost use Rattle.normal_forms.specs.Nodes.{IsFormula};
ghost use Rattle.term_table.specs.Formulas.{tree, trees_at};
ghost use Rattle.term_walk.specs.Walking.{GrowsTo};

use crate::gates::{Gate, inverses, pair, repeated};
use normal_forms::making::truth;
use smt_terms::NodeId;
use std::alloc::{AllocError, Global};
use term_table::Table;

// The bit of the sum of two bits and a carry, and the next carry.
fn add_bits(
    table: &mut Table,
    a: NodeId,
    b: NodeId,
    carry: NodeId,
) -> Result<(NodeId, NodeId), AllocError>
    requires a { IsFormula table.old a }
    requires b { IsFormula table.old b }
    requires carry { IsFormula table.old carry }
    ensures bit { IfOk result (λ r. IsBit table.new r.0 (plain.differ term_gates (plain.differ term_gates (tree table.old a) (tree table.old b)) (tree table.old carry))) }
    ensures carry { IfOk result (λ r. IsBit table.new r.1 (plain.carry term_gates (tree table.old a) (tree table.old b) (tree table.old carry))) }
    ensures grows { GrowsTo table.old table.new }
    ensures symbols { table.new.symbols ≡ table.old.symbols }
    ensures sorts { table.new.sorts ≡ table.old.sorts }
{
    let differ = pair(table, Gate::Differ, a, b)?;
    let bit = pair(table, Gate::Differ, differ, carry)?;
    let both = pair(table, Gate::Both, a, b)?;
    let one = pair(table, Gate::Both, carry, differ)?;
    let next = pair(table, Gate::Either, both, one)?;
    Ok((bit, next))
}

/// The sum of two vectors and a carry.
pub(crate) fn add(
    alloc: Global,
    table: &mut Table,
    a: &[NodeId],
    b: &[NodeId],
    carry: NodeId,
) -> Result<Vec<NodeId>, AllocError>
    requires a { All (IsFormula table.old) a.now }
    requires b { All (IsFormula table.old) b.now }
    requires same { length a.now ≡ length b.now }
    requires carry { IsFormula table.old carry }
    ensures bits { IfOk result (λ ks. AreBits table.new ks.items (plain.add term_gates (trees_at table.old a.now) (trees_at table.old b.now) (tree table.old carry))) }
    ensures grows { GrowsTo table.old table.new }
    ensures symbols { table.new.symbols ≡ table.old.symbols }
    ensures sorts { table.new.sorts ≡ table.old.sorts }
{
    let mut bits = Vec::with_capacity(alloc, a.len())?;
    let mut carry = carry;
    for (x, y) in a.iter().zip(b) {
        let (bit, next) = add_bits(table, *x, *y, carry)?;
        bits.push(bit)?;
        carry = next;
    }
    Ok(bits)
}

/// The sum of two vectors.
pub(crate) fn sum(
    alloc: Global,
    table: &mut Table,
    a: &[NodeId],
    b: &[NodeId],
) -> Result<Vec<NodeId>, AllocError>
    requires a { All (IsFormula table.old) a.now }
    requires b { All (IsFormula table.old) b.now }
    requires same { length a.now ≡ length b.now }
    ensures bits { IfOk result (λ ks. AreBits table.new ks.items (plain.sum term_gates (trees_at table.old a.now) (trees_at table.old b.now))) }
    ensures grows { GrowsTo table.old table.new }
    ensures symbols { table.new.symbols ≡ table.old.symbols }
    ensures sorts { table.new.sorts ≡ table.old.sorts }
{
    let carry = truth(table, false)?;
    add(alloc, table, a, b, carry)
}

/// The difference of two vectors.
pub(crate) fn difference(
    alloc: Global,
    table: &mut Table,
    a: &[NodeId],
    b: &[NodeId],
) -> Result<Vec<NodeId>, AllocError>
    requires a { All (IsFormula table.old) a.now }
    requires b { All (IsFormula table.old) b.now }
    requires same { length a.now ≡ length b.now }
    ensures bits { IfOk result (λ ks. AreBits table.new ks.items (plain.difference term_gates (trees_at table.old a.now) (trees_at table.old b.now))) }
    ensures grows { GrowsTo table.old table.new }
    ensures symbols { table.new.symbols ≡ table.old.symbols }
    ensures sorts { table.new.sorts ≡ table.old.sorts }
{
    let others = inverses(alloc, table, b)?;
    let carry = truth(table, true)?;
    add(alloc, table, a, &others, carry)
}

/// Zero less a vector.
pub(crate) fn opposite(
    alloc: Global,
    table: &mut Table,
    a: &[NodeId],
) -> Result<Vec<NodeId>, AllocError>
    requires a { All (IsFormula table.old) a.now }
    ensures bits { IfOk result (λ ks. AreBits table.new ks.items (plain.opposite term_gates (trees_at table.old a.now))) }
    ensures grows { GrowsTo table.old table.new }
    ensures symbols { table.new.symbols ≡ table.old.symbols }
    ensures sorts { table.new.sorts ≡ table.old.sorts }
{
    let zero = truth(table, false)?;
    let zeros = repeated(alloc, zero, a.len())?;
    difference(alloc, table, &zeros, a)
}

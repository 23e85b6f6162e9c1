//! Constants, and vectors of bits that are there: concatenation, extraction, extension and rotation make no connectives.

ghost use Rattle.std.specs.Prelude.{◌≡◌, ◌≤◌, ◌<◌, ◌+◌, ◌-◌, ◌∷◌, [], ◌++◌, map, length, take, drop, replicate, cond, false, All, IfOk};
ghost use Rattle.smt_terms.specs.BitVectors.{nat2bv};
ghost use Rattle.bit_blast.specs.BitNodes.{AreBits};
ghost use Rattle.bit_blast.specs.Blasted.{term_gates};
ghost use Rattle.bit_blast.specs.Circuits as plain;
ghost use Rattle.normal_forms.specs.Nodes.{IsFormula};
ghost use Rattle.term_table.specs.Formulas.{trees_at};
ghost use Rattle.term_walk.specs.Walking.{GrowsTo};

use crate::gates::repeated;
use crate::orders::top;
use normal_forms::making::truth;
use smt_terms::NodeId;
use std::alloc::{AllocError, Global};
use term_table::Table;

/// A vector of one bit.
pub(crate) fn alone(alloc: Global, bit: NodeId) -> Result<Vec<NodeId>, AllocError>
    ensures { IfOk result (λ ks. ks.items ≡ bit ∷ []) }
{
    Ok(vec![in alloc; bit]?)
}

// The lowest bits of a number, so many, with these nodes for 0 and 1.
fn digits(
    alloc: Global,
    zero: NodeId,
    one: NodeId,
    width: u32,
    number: u128,
) -> Result<Vec<NodeId>, AllocError>
    ensures { IfOk result (λ ks. ks.items ≡ map (λ b. cond b one zero) (nat2bv width number)) }
{
    let mut nodes = Vec::with_capacity(alloc, width as usize)?;
    let mut rest = number;
    for _ in 0..width {
        nodes.push(if rest % 2 == 1 { one } else { zero })?;
        rest /= 2;
    }
    Ok(nodes)
}

/// The constant of this width and number.
pub(crate) fn constant(
    alloc: Global,
    table: &mut Table,
    width: u32,
    number: u128,
) -> Result<Vec<NodeId>, AllocError>
    ensures bits { IfOk result (λ ks. AreBits table.new ks.items (map (plain.constant term_gates) (nat2bv width number))) }
    ensures grows { GrowsTo table.old table.new }
    ensures symbols { table.new.symbols ≡ table.old.symbols }
    ensures sorts { table.new.sorts ≡ table.old.sorts }
{
    let zero = truth(table, false)?;
    let one = truth(table, true)?;
    digits(alloc, zero, one, width, number)
}

/// A vector with another above it.
pub(crate) fn joined(
    alloc: Global,
    low: &[NodeId],
    high: &[NodeId],
) -> Result<Vec<NodeId>, AllocError>
    ensures { IfOk result (λ ks. ks.items ≡ low.now ++ high.now) }
{
    let mut bits = Vec::from_slice(alloc, low)?;
    bits.extend_from_slice(high)?;
    Ok(bits)
}

/// The bits from number `low` to number `high`, both included.
pub(crate) fn part(
    alloc: Global,
    a: &[NodeId],
    high: u32,
    low: u32,
) -> Result<Vec<NodeId>, AllocError>
    requires order { low ≤ high }
    requires within { high < length a.now }
    ensures { IfOk result (λ ks. ks.items ≡ take (high + 1 - low) (drop low a.now)) }
{
    Vec::from_slice(alloc, &a[low as usize..high as usize + 1])
}

/// The bits from number `cut` on, and then those below.
pub(crate) fn turned(alloc: Global, a: &[NodeId], cut: usize) -> Result<Vec<NodeId>, AllocError>
    requires { cut ≤ length a.now }
    ensures { IfOk result (λ ks. ks.items ≡ drop cut a.now ++ take cut a.now) }
{
    joined(alloc, &a[cut..], &a[..cut])
}

// The vector with so many of this bit above it.
fn extended(alloc: Global, a: &[NodeId], bit: NodeId, n: u32) -> Result<Vec<NodeId>, AllocError>
    ensures { IfOk result (λ ks. ks.items ≡ a.now ++ replicate n bit) }
{
    let above = repeated(alloc, bit, n as usize)?;
    joined(alloc, a, &above)
}

/// The vector with so many zeros above it.
pub(crate) fn zero_extended(
    alloc: Global,
    table: &mut Table,
    a: &[NodeId],
    n: u32,
) -> Result<Vec<NodeId>, AllocError>
    requires { All (IsFormula table.old) a.now }
    ensures bits { IfOk result (λ ks. AreBits table.new ks.items (trees_at table.old a.now ++ replicate n (plain.constant term_gates false))) }
    ensures grows { GrowsTo table.old table.new }
    ensures symbols { table.new.symbols ≡ table.old.symbols }
    ensures sorts { table.new.sorts ≡ table.old.sorts }
{
    let zero = truth(table, false)?;
    extended(alloc, a, zero, n)
}

/// The vector with so many of its highest bit above it.
pub(crate) fn sign_extended(
    alloc: Global,
    table: &mut Table,
    a: &[NodeId],
    n: u32,
) -> Result<Vec<NodeId>, AllocError>
    requires { All (IsFormula table.old) a.now }
    ensures bits { IfOk result (λ ks. AreBits table.new ks.items (trees_at table.old a.now ++ replicate n (plain.top term_gates (trees_at table.old a.now)))) }
    ensures grows { GrowsTo table.old table.new }
    ensures symbols { table.new.symbols ≡ table.old.symbols }
    ensures sorts { table.new.sorts ≡ table.old.sorts }
{
    let sign = top(table, a)?;
    extended(alloc, a, sign, n)
}

//! Comparisons: a is less than b, from the lowest bit on, with l_0 = `false` and
//! l_(i+1) = `(or (and (not a_i) b_i) (and (= a_i b_i) l_i))`. Numbers in two's complement are compared with their highest bits
//! turned. Vectors are equal where all their bits are, and several are apart where no two of them are equal.

ghost use Rattle.std.specs.Prelude.{◌≡◌, ℕ, ◌<◌, ◌≤◌, ◌∷◌, [], ◌++◌, map, length, All, IfOk, OnOk};
ghost use Rattle.bit_blast.specs.BitNodes.{AreBits};
ghost use Rattle.bit_blast.specs.Blasted.{term_gates};
ghost use Rattle.bit_blast.specs.Circuits as plain;
ghost use Rattle.normal_forms.specs.Nodes.{IsFormula};
ghost use Rattle.term_table.specs.Formulas.{tree, trees_at};
ghost use Rattle.term_walk.specs.Walking.{GrowsTo};

use crate::gates::{Gate, all_of, pair, pairs};
use normal_forms::making::{negation, truth};
use smt_terms::NodeId;
use std::alloc::{AllocError, Global};
use term_table::Table;

/// The highest bit of a vector.
pub(crate) fn top(table: &mut Table, a: &[NodeId]) -> Result<NodeId, AllocError>
    requires a { All (IsFormula table.old) a.now }
    ensures formula { IfOk result (IsFormula table.new) }
    ensures term { IfOk result (λ k. tree table.new k ≡ plain.top term_gates (trees_at table.old a.now)) }
    ensures grows { GrowsTo table.old table.new }
    ensures symbols { table.new.symbols ≡ table.old.symbols }
    ensures sorts { table.new.sorts ≡ table.old.sorts }
{
    match a.last() {
        Some(bit) => Ok(*bit),
        None => truth(table, false),
    }
}

/// Whether two vectors are equal.
pub(crate) fn equal(
    alloc: Global,
    table: &mut Table,
    a: &[NodeId],
    b: &[NodeId],
) -> Result<NodeId, AllocError>
    requires a { All (IsFormula table.old) a.now }
    requires b { All (IsFormula table.old) b.now }
    requires same { length a.now ≡ length b.now }
    requires some { 0 < length a.now }
    ensures formula { IfOk result (IsFormula table.new) }
    ensures term { IfOk result (λ k. tree table.new k ≡ plain.equal term_gates (trees_at table.old a.now) (trees_at table.old b.now)) }
    ensures grows { GrowsTo table.old table.new }
    ensures symbols { table.new.symbols ≡ table.old.symbols }
    ensures sorts { table.new.sorts ≡ table.old.sorts }
{
    let bits = pairs(alloc, table, Gate::Alike, a, b)?;
    all_of(table, &bits)
}

// Whether the first number is less, by these bits and what the lower ones tell.
fn less_with(table: &mut Table, a: NodeId, b: NodeId, lower: NodeId) -> Result<NodeId, AllocError>
    requires a { IsFormula table.old a }
    requires b { IsFormula table.old b }
    requires lower { IsFormula table.old lower }
    ensures formula { IfOk result (IsFormula table.new) }
    ensures term { IfOk result (λ k. tree table.new k ≡ plain.less_from term_gates (tree table.old a ∷ []) (tree table.old b ∷ []) (tree table.old lower)) }
    ensures grows { GrowsTo table.old table.new }
    ensures symbols { table.new.symbols ≡ table.old.symbols }
    ensures sorts { table.new.sorts ≡ table.old.sorts }
{
    let zero = negation(table, a)?;
    let here = pair(table, Gate::Both, zero, b)?;
    let same = pair(table, Gate::Alike, a, b)?;
    let below = pair(table, Gate::Both, same, lower)?;
    pair(table, Gate::Either, here, below)
}

/// Whether the first number is less than the second.
pub(crate) fn less(table: &mut Table, a: &[NodeId], b: &[NodeId]) -> Result<NodeId, AllocError>
    requires a { All (IsFormula table.old) a.now }
    requires b { All (IsFormula table.old) b.now }
    requires same { length a.now ≡ length b.now }
    ensures formula { IfOk result (IsFormula table.new) }
    ensures term { IfOk result (λ k. tree table.new k ≡ plain.less term_gates (trees_at table.old a.now) (trees_at table.old b.now)) }
    ensures grows { GrowsTo table.old table.new }
    ensures symbols { table.new.symbols ≡ table.old.symbols }
    ensures sorts { table.new.sorts ≡ table.old.sorts }
{
    let mut lower = truth(table, false)?;
    for (x, y) in a.iter().zip(b) {
        lower = less_with(table, *x, *y, lower)?;
    }
    Ok(lower)
}

/// The vector with its highest bit turned.
fn with_top_turned(
    alloc: Global,
    table: &mut Table,
    a: &[NodeId],
) -> Result<Vec<NodeId>, AllocError>
    requires a { All (IsFormula table.old) a.now }
    ensures bits { IfOk result (λ ks. AreBits table.new ks.items (plain.with_top_turned term_gates (trees_at table.old a.now))) }
    ensures grows { GrowsTo table.old table.new }
    ensures symbols { table.new.symbols ≡ table.old.symbols }
    ensures sorts { table.new.sorts ≡ table.old.sorts }
{
    let mut bits = Vec::from_slice(alloc, a)?;
    let Some(highest) = bits.pop() else {
        return Ok(bits);
    };
    let turned = negation(table, highest)?;
    bits.push(turned)?;
    Ok(bits)
}

/// Whether the first number in two's complement is less than the second.
pub(crate) fn signed_less(
    alloc: Global,
    table: &mut Table,
    a: &[NodeId],
    b: &[NodeId],
) -> Result<NodeId, AllocError>
    requires a { All (IsFormula table.old) a.now }
    requires b { All (IsFormula table.old) b.now }
    requires same { length a.now ≡ length b.now }
    ensures formula { IfOk result (IsFormula table.new) }
    ensures term { IfOk result (λ k. tree table.new k ≡ plain.signed_less term_gates (trees_at table.old a.now) (trees_at table.old b.now)) }
    ensures grows { GrowsTo table.old table.new }
    ensures symbols { table.new.symbols ≡ table.old.symbols }
    ensures sorts { table.new.sorts ≡ table.old.sorts }
{
    let first = with_top_turned(alloc, table, a)?;
    let second = with_top_turned(alloc, table, b)?;
    less(table, &first, &second)
}

// The inverse of `equal` of this vector and each of these, behind the bits that are there.
fn push_apart(
    alloc: Global,
    table: &mut Table,
    a: &[NodeId],
    others: &[&[NodeId]],
    bits: &mut Vec<NodeId>,
) -> Result<(), AllocError>
    requires a { All (IsFormula table.old) a.now }
    requires others { All (λ b. All (IsFormula table.old) b.now) others.now }
    requires same { All (λ b. length a.now ≡ length b.now) others.now }
    requires some { 0 < length a.now }
    requires bits { All (IsFormula table.old) bits.old.items }
    ensures bits { OnOk result (AreBits table.new bits.new.items (trees_at table.old bits.old.items ++ map (λ b. plain.inverse term_gates (plain.equal term_gates (trees_at table.old a.now) (trees_at table.old b.now))) others.now)) }
    ensures grows { GrowsTo table.old table.new }
    ensures symbols { table.new.symbols ≡ table.old.symbols }
    ensures sorts { table.new.sorts ≡ table.old.sorts }
{
    for b in others {
        let same = equal(alloc, table, a, b)?;
        let apart = negation(table, same)?;
        bits.push(apart)?;
    }
    Ok(())
}

/// Whether no two of these vectors are equal.
pub(crate) fn apart(
    alloc: Global,
    table: &mut Table,
    vectors: &[&[NodeId]],
) -> Result<NodeId, AllocError>
    requires vectors { All (λ a. All (IsFormula table.old) a.now) vectors.now }
    requires several { 2 ≤ length vectors.now }
    requires width { (n : ℕ) × (0 < n) × All (λ a. length a.now ≡ n) vectors.now }
    ensures formula { IfOk result (IsFormula table.new) }
    ensures term { IfOk result (λ k. tree table.new k ≡ plain.joined term_gates (plain.apart term_gates (map (λ a. trees_at table.old a.now) vectors.now))) }
    ensures grows { GrowsTo table.old table.new }
    ensures symbols { table.new.symbols ≡ table.old.symbols }
    ensures sorts { table.new.sorts ≡ table.old.sorts }
{
    let mut bits = Vec::new(alloc);
    for (i, a) in vectors.iter().enumerate() {
        push_apart(alloc, table, a, &vectors[i + 1..], &mut bits)?;
    }
    all_of(table, &bits)
}

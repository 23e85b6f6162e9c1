//! The connectives that circuits are made of, over formulas of a table.

ghost use Rattle.std.specs.Prelude.{◌≡◌, ◌<◌, ◌∷◌, [], map, length, replicate, All, IfOk, Ok};
ghost use Rattle.smt_terms.specs.Sorts.{bool};
ghost use Rattle.smt_terms.specs.Term.{op as operator};
ghost use Rattle.smt_terms.specs.Rank.{rank};
ghost use Rattle.bit_blast.specs.BitNodes.{AreBits, gate_op};
ghost use Rattle.bit_blast.specs.Blasted.{term_gates};
ghost use Rattle.bit_blast.specs.Circuits as plain;
ghost use Rattle.normal_forms.specs.Nodes.{IsFormula};
ghost use Rattle.term_table.specs.Formulas.{tree, trees_at};
ghost use Rattle.term_walk.specs.Walking.{GrowsTo};

use normal_forms::making::{conjunction, negation};
use smt_terms::{NodeId, Op};
use smt_values::SortId;
use std::alloc::{AllocError, Global};
use term_table::Table;

/// A connective of two formulas.
#[derive(Clone, Copy)]
pub(crate) enum Gate {
    /// `and`.
    Both,
    /// `or`.
    Either,
    /// `xor`.
    Differ,
    /// `=`.
    Alike,
}

// The operator of a connective.
fn op_of(gate: Gate) -> Op
    ensures { result ≡ gate_op gate }
{
    match gate {
        Gate::Both => Op::And,
        Gate::Either => Op::Or,
        Gate::Differ => Op::Xor,
        Gate::Alike => Op::Equal,
    }
}

/// This connective of two formulas.
pub(crate) fn pair(
    table: &mut Table,
    gate: Gate,
    a: NodeId,
    b: NodeId,
) -> Result<NodeId, AllocError>
    requires a { IsFormula table.old a }
    requires b { IsFormula table.old b }
    ensures formula { IfOk result (IsFormula table.new) }
    ensures term { IfOk result (λ k. tree table.new k ≡ term_gates (gate_op gate) (tree table.old a ∷ tree table.old b ∷ [])) }
    ensures grows { GrowsTo table.old table.new }
    ensures symbols { table.new.symbols ≡ table.old.symbols }
    ensures sorts { table.new.sorts ≡ table.old.sorts }
{
    connective(table, op_of(gate), &[a, b])
}

/// `(ite c a b)`.
pub(crate) fn choice(
    table: &mut Table,
    c: NodeId,
    a: NodeId,
    b: NodeId,
) -> Result<NodeId, AllocError>
    requires c { IsFormula table.old c }
    requires a { IsFormula table.old a }
    requires b { IsFormula table.old b }
    ensures formula { IfOk result (IsFormula table.new) }
    ensures term { IfOk result (λ k. tree table.new k ≡ plain.choose term_gates (tree table.old c) (tree table.old a) (tree table.old b)) }
    ensures grows { GrowsTo table.old table.new }
    ensures symbols { table.new.symbols ≡ table.old.symbols }
    ensures sorts { table.new.sorts ≡ table.old.sorts }
{
    connective(table, Op::Ite, &[c, a, b])
}

/// A connective of formulas, or `true` or `false`.
pub(crate) fn connective(table: &mut Table, op: Op, kids: &[NodeId]) -> Result<NodeId, AllocError>
    requires kids { All (IsFormula table.old) kids.now }
    requires rank { rank (operator op) (map (λ _. bool) kids.now) ≡ Ok bool }
    ensures formula { IfOk result (IsFormula table.new) }
    ensures term { IfOk result (λ k. tree table.new k ≡ term_gates op (trees_at table.old kids.now)) }
    ensures grows { GrowsTo table.old table.new }
    ensures symbols { table.new.symbols ≡ table.old.symbols }
    ensures sorts { table.new.sorts ≡ table.old.sorts }
{
    let id = table.intern_of_sort(op, kids, SortId::BOOL)?;
    Ok(id)
}

/// The `and` of bits, and of one bit this alone.
pub(crate) fn all_of(table: &mut Table, bits: &[NodeId]) -> Result<NodeId, AllocError>
    requires bits { All (IsFormula table.old) bits.now }
    requires some { 0 < length bits.now }
    ensures formula { IfOk result (IsFormula table.new) }
    ensures term { IfOk result (λ k. tree table.new k ≡ plain.joined term_gates (trees_at table.old bits.now)) }
    ensures grows { GrowsTo table.old table.new }
    ensures symbols { table.new.symbols ≡ table.old.symbols }
    ensures sorts { table.new.sorts ≡ table.old.sorts }
{
    match bits {
        [bit] => Ok(*bit),
        _ => conjunction(table, bits),
    }
}

/// A connective of two vectors, bit by bit.
pub(crate) fn pairs(
    alloc: Global,
    table: &mut Table,
    gate: Gate,
    a: &[NodeId],
    b: &[NodeId],
) -> Result<Vec<NodeId>, AllocError>
    requires a { All (IsFormula table.old) a.now }
    requires b { All (IsFormula table.old) b.now }
    requires same { length a.now ≡ length b.now }
    ensures bits { IfOk result (λ ks. AreBits table.new ks.items (plain.each (λ u v. term_gates (gate_op gate) (u ∷ v ∷ [])) (trees_at table.old a.now) (trees_at table.old b.now))) }
    ensures grows { GrowsTo table.old table.new }
    ensures symbols { table.new.symbols ≡ table.old.symbols }
    ensures sorts { table.new.sorts ≡ table.old.sorts }
{
    let mut bits = Vec::with_capacity(alloc, a.len())?;
    for (x, y) in a.iter().zip(b) {
        let bit = pair(table, gate, *x, *y)?;
        bits.push(bit)?;
    }
    Ok(bits)
}

/// The one vector or the other, bit by bit.
pub(crate) fn choices(
    alloc: Global,
    table: &mut Table,
    c: NodeId,
    a: &[NodeId],
    b: &[NodeId],
) -> Result<Vec<NodeId>, AllocError>
    requires c { IsFormula table.old c }
    requires a { All (IsFormula table.old) a.now }
    requires b { All (IsFormula table.old) b.now }
    requires same { length a.now ≡ length b.now }
    ensures bits { IfOk result (λ ks. AreBits table.new ks.items (plain.chosen term_gates (tree table.old c) (trees_at table.old a.now) (trees_at table.old b.now))) }
    ensures grows { GrowsTo table.old table.new }
    ensures symbols { table.new.symbols ≡ table.old.symbols }
    ensures sorts { table.new.sorts ≡ table.old.sorts }
{
    let mut bits = Vec::with_capacity(alloc, a.len())?;
    for (x, y) in a.iter().zip(b) {
        let bit = choice(table, c, *x, *y)?;
        bits.push(bit)?;
    }
    Ok(bits)
}

/// The `not` of each bit.
pub(crate) fn inverses(
    alloc: Global,
    table: &mut Table,
    a: &[NodeId],
) -> Result<Vec<NodeId>, AllocError>
    requires a { All (IsFormula table.old) a.now }
    ensures bits { IfOk result (λ ks. AreBits table.new ks.items (plain.inverses term_gates (trees_at table.old a.now))) }
    ensures grows { GrowsTo table.old table.new }
    ensures symbols { table.new.symbols ≡ table.old.symbols }
    ensures sorts { table.new.sorts ≡ table.old.sorts }
{
    let mut bits = Vec::with_capacity(alloc, a.len())?;
    for x in a {
        let bit = negation(table, *x)?;
        bits.push(bit)?;
    }
    Ok(bits)
}

/// So many bits, all of them this one.
pub(crate) fn repeated(alloc: Global, bit: NodeId, n: usize) -> Result<Vec<NodeId>, AllocError>
    ensures { IfOk result (λ ks. ks.items ≡ replicate n bit) }
{
    vec![in alloc; bit; n]
}

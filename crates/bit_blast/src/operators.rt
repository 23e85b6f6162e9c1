//! The bits of a term, of its operands' bits: each operator is its circuit (SMT-LIB 2.6, theories Core and FixedSizeBitVectors and
//! logic QF_BV).

ghost use Rattle.std.specs.Prelude.{◌≡◌, ◌<◌, true, map, length, get_or, All, IfOk, Ok};
ghost use Rattle.smt_terms.specs.Groups.{Named};
ghost use Rattle.smt_terms.specs.Operators.{first_sort};
ghost use Rattle.smt_terms.specs.Rank.{rank};
ghost use Rattle.smt_terms.specs.Sorts.{bool};
ghost use Rattle.smt_terms.specs.Term.{op as operator};
ghost use Rattle.bit_blast.specs.BitNodes.{AreBits};
ghost use Rattle.bit_blast.specs.Blasted.{is_bits, bits, term_gates};
ghost use Rattle.bit_blast.specs.Circuits as plain;
ghost use Rattle.bit_blast.specs.KeptBits.{HaveBits, HaveSomeBits, IsNoVector};
ghost use Rattle.bit_blast.specs.OperandBits.{nodes_of, no_node, first_of, HasNodes, operand_bits, widths, AllOfOneWidth, TakesBits};
ghost use Rattle.term_table.specs.Formulas.{tree, trees_at, sorts_in, IsNode, AreNodes, IsTable};
ghost use Rattle.term_walk.specs.Walking.{GrowsTo};

use crate::bit_lists::BitLists;
use crate::gates::{choices, connective};
use crate::orders::apart;
use crate::parts::{alone, constant};
use crate::vectors::{of_vector, of_vectors};
use normal_forms::shapes::is_formula;
use smt_terms::{NodeId, Op};
use std::alloc::{AllocError, Global};
use term_table::Table;

// The first bit of each of these nodes.
fn first_bits(alloc: Global, lists: &BitLists, kids: &[NodeId]) -> Result<Vec<NodeId>, AllocError>
    requires { All (λ k. 0 < length (nodes_of lists.now k)) kids.now }
    ensures { IfOk result (λ ks. ks.items ≡ map (first_of lists.now) kids.now) }
{
    let mut bits = Vec::with_capacity(alloc, kids.len())?;
    for kid in kids {
        bits.push(lists.of(*kid)[0])?;
    }
    Ok(bits)
}

// The bits of each of these nodes.
fn all_bits<'a>(
    alloc: Global,
    lists: &'a BitLists,
    kids: &[NodeId],
) -> Result<Vec<&'a [NodeId]>, AllocError>
    requires { All (λ k. 0 < length (nodes_of lists.now k)) kids.now }
    ensures { IfOk result (λ vs. map (λ v. v.now) vs.items ≡ map (nodes_of lists.now) kids.now) }
{
    let mut vectors = Vec::with_capacity(alloc, kids.len())?;
    for kid in kids {
        vectors.push(lists.of(*kid))?;
    }
    Ok(vectors)
}

// A connective over truth values, or `true` or `false`.
fn connected(
    alloc: Global,
    table: &mut Table,
    op: Op,
    lists: &BitLists,
    kids: &[NodeId],
) -> Result<Vec<NodeId>, AllocError>
    requires kids { All (HasNodes table.old lists.now) kids.now }
    requires rank { rank (operator op) (map (λ _. bool) kids.now) ≡ Ok bool }
    ensures bits { IfOk result (λ ks. AreBits table.new ks.items (plain.connective term_gates op (operand_bits table.old lists.now kids.now))) }
    ensures grows { GrowsTo table.old table.new }
    ensures symbols { table.new.symbols ≡ table.old.symbols }
    ensures sorts { table.new.sorts ≡ table.old.sorts }
{
    let operands = first_bits(alloc, lists, kids)?;
    let bit = connective(table, op, &operands)?;
    alone(alloc, bit)
}

// `distinct`: of truth values a connective, of bit vectors that those of each pair differ.
fn distinct(
    alloc: Global,
    table: &mut Table,
    lists: &BitLists,
    kids: &[NodeId],
) -> Result<Vec<NodeId>, AllocError>
    requires table { IsTable table.old }
    requires nodes { AreNodes table.old kids.now }
    requires kids { All (HasNodes table.old lists.now) kids.now }
    requires same { AllOfOneWidth (widths lists.now kids.now) }
    ensures bits { IfOk result (λ ks. AreBits table.new ks.items (plain.distinct term_gates (first_sort (sorts_in (trees_at table.old kids.now))) (operand_bits table.old lists.now kids.now))) }
    ensures grows { GrowsTo table.old table.new }
    ensures symbols { table.new.symbols ≡ table.old.symbols }
    ensures sorts { table.new.sorts ≡ table.old.sorts }
{
    if is_formula(table, kids[0]) {
        return connected(alloc, table, Op::Distinct, lists, kids);
    }
    let vectors = all_bits(alloc, lists, kids)?;
    let bit = apart(alloc, table, &vectors)?;
    alone(alloc, bit)
}

// The bits of operand number i.
fn operand<'a>(lists: &'a BitLists, kids: &[NodeId], i: usize) -> &'a [NodeId]
    requires within { i < length kids.now }
    requires bits { All (λ k. 0 < length (nodes_of lists.now k)) kids.now }
    ensures { result.now ≡ nodes_of lists.now (get_or kids.now i no_node) }
{
    lists.of(kids[i])
}

// The circuit of an operator over the bits of these operands.
#[tactic(auto, unfolding(crate::specs::Circuits::circuit))]
fn circuit(
    alloc: Global,
    table: &mut Table,
    op: Op,
    lists: &BitLists,
    kids: &[NodeId],
) -> Result<Vec<NodeId>, AllocError>
    requires table { IsTable table.old }
    requires nodes { AreNodes table.old kids.now }
    requires kids { All (HasNodes table.old lists.now) kids.now }
    requires takes { TakesBits op (widths lists.now kids.now) }
    ensures bits { IfOk result (λ ks. AreBits table.new ks.items (plain.circuit term_gates op (sorts_in (trees_at table.old kids.now)) (operand_bits table.old lists.now kids.now))) }
    ensures grows { GrowsTo table.old table.new }
    ensures symbols { table.new.symbols ≡ table.old.symbols }
    ensures sorts { table.new.sorts ≡ table.old.sorts }
{
    match op {
        Op::Bits { width, bits } => constant(alloc, table, width, bits),
        Op::Distinct => distinct(alloc, table, lists, kids),
        Op::Ite => choices(
            alloc,
            table,
            operand(lists, kids, 0)[0],
            operand(lists, kids, 1),
            operand(lists, kids, 2),
        ),
        Op::Truth(_) | Op::Not | Op::And | Op::Or | Op::Xor | Op::Implies => {
            connected(alloc, table, op, lists, kids)
        }
        Op::Extract { .. }
        | Op::BvNot
        | Op::BvNeg
        | Op::ZeroExt(_)
        | Op::SignExt(_)
        | Op::RotL(_)
        | Op::RotR(_) => of_vector(alloc, table, op, operand(lists, kids, 0)),
        _ => of_vectors(
            alloc,
            table,
            op,
            operand(lists, kids, 0),
            operand(lists, kids, 1),
        ),
    }
}

/// The bits of a node whose operands have theirs. It isn't the constant of a bit vector, whose bits are new constants.
pub(crate) fn operator_bits(
    alloc: Global,
    table: &mut Table,
    lists: &BitLists,
    id: NodeId,
) -> Result<Vec<NodeId>, AllocError>
    requires node { IsNode table.old id }
    requires vectors { is_bits (tree table.old id) ≡ true }
    requires operator { IsNoVector (tree table.old id) }
    requires operands { HaveSomeBits table.old lists.now id }
    ensures bits { (ns : Named) → HaveBits table.old ns lists.now id → IfOk result (λ ks. AreBits table.new ks.items (bits ns (tree table.old id))) }
    ensures grows { GrowsTo table.old table.new }
    ensures symbols { table.new.symbols ≡ table.old.symbols }
    ensures sorts { table.new.sorts ≡ table.old.sorts }
{
    let op = table.op(id);
    if let Op::Sym(_) = op {
        return alone(alloc, id);
    }
    let kids = Vec::from_slice(alloc, table.kids(id))?;
    circuit(alloc, table, op, lists, &kids)
}

//! The bits of an operator of one bit vector or of two, of the bits of its operands.

ghost use Rattle.std.specs.Prelude.{◌≡◌, ◌∷◌, [], List, length, All, IfOk};
ghost use Rattle.smt_terms.specs.Sorts.{Sort};
ghost use Rattle.bit_blast.specs.BitNodes.{AreBits};
ghost use Rattle.bit_blast.specs.Blasted.{term_gates};
ghost use Rattle.bit_blast.specs.Circuits as plain;
ghost use Rattle.bit_blast.specs.OperandBits.{TakesVector, TakesVectors, Compares};
ghost use Rattle.normal_forms.specs.Nodes.{IsFormula};
ghost use Rattle.term_table.specs.Formulas.{tree, trees_at};
ghost use Rattle.term_walk.specs.Walking.{GrowsTo};

use crate::division::{quotient, remainder};
use crate::gates::{Gate, inverses, pairs};
use crate::orders::{equal, less, signed_less};
use crate::parts::{alone, joined, part, sign_extended, turned, zero_extended};
use crate::products::product;
use crate::shifts::{shift_left, shift_right, signed_shift_right};
use crate::signed::{signed_modulus, signed_quotient, signed_remainder};
use crate::sums::{difference, opposite, sum};
use normal_forms::making::negation;
use smt_terms::{NodeId, Op};
use std::alloc::{AllocError, Global};
use term_table::Table;

/// The bits of an operator of one bit vector, of which the last is `bvneg`.
#[tactic(auto, unfolding(crate::specs::Circuits::circuit))]
pub(crate) fn of_vector(
    alloc: Global,
    table: &mut Table,
    op: Op,
    a: &[NodeId],
) -> Result<Vec<NodeId>, AllocError>
    requires a { All (IsFormula table.old) a.now }
    requires takes { TakesVector op (length a.now) }
    ensures bits { (ss : List Sort) → IfOk result (λ ks. AreBits table.new ks.items (plain.circuit term_gates op ss (trees_at table.old a.now ∷ []))) }
    ensures grows { GrowsTo table.old table.new }
    ensures symbols { table.new.symbols ≡ table.old.symbols }
    ensures sorts { table.new.sorts ≡ table.old.sorts }
{
    match op {
        Op::Extract { high, low } => part(alloc, a, high, low),
        Op::ZeroExt(n) => zero_extended(alloc, table, a, n),
        Op::SignExt(n) => sign_extended(alloc, table, a, n),
        Op::RotL(n) => turned(alloc, a, a.len() - n as usize),
        Op::RotR(n) => turned(alloc, a, n as usize),
        Op::BvNot => inverses(alloc, table, a),
        _ => opposite(alloc, table, a),
    }
}

// Whether two vectors are equal, or compare as the operator says.
#[tactic(auto, unfolding(crate::specs::Circuits::circuit))]
fn compared(
    alloc: Global,
    table: &mut Table,
    op: Op,
    a: &[NodeId],
    b: &[NodeId],
) -> Result<NodeId, AllocError>
    requires a { All (IsFormula table.old) a.now }
    requires b { All (IsFormula table.old) b.now }
    requires takes { Compares op (length a.now) (length b.now) }
    ensures formula { IfOk result (IsFormula table.new) }
    ensures term { (ss : List Sort) → IfOk result (λ k. tree table.new k ∷ [] ≡ plain.circuit term_gates op ss (trees_at table.old a.now ∷ trees_at table.old b.now ∷ [])) }
    ensures grows { GrowsTo table.old table.new }
    ensures symbols { table.new.symbols ≡ table.old.symbols }
    ensures sorts { table.new.sorts ≡ table.old.sorts }
{
    match op {
        Op::BvUlt => less(table, a, b),
        Op::BvUle => {
            let more = less(table, b, a)?;
            negation(table, more)
        }
        Op::BvSlt => signed_less(alloc, table, a, b),
        Op::BvSle => {
            let more = signed_less(alloc, table, b, a)?;
            negation(table, more)
        }
        _ => equal(alloc, table, a, b),
    }
}

// The one bit of a comparison.
fn comparison(
    alloc: Global,
    table: &mut Table,
    op: Op,
    a: &[NodeId],
    b: &[NodeId],
) -> Result<Vec<NodeId>, AllocError>
    requires a { All (IsFormula table.old) a.now }
    requires b { All (IsFormula table.old) b.now }
    requires takes { Compares op (length a.now) (length b.now) }
    ensures bits { (ss : List Sort) → IfOk result (λ ks. AreBits table.new ks.items (plain.circuit term_gates op ss (trees_at table.old a.now ∷ trees_at table.old b.now ∷ []))) }
    ensures grows { GrowsTo table.old table.new }
    ensures symbols { table.new.symbols ≡ table.old.symbols }
    ensures sorts { table.new.sorts ≡ table.old.sorts }
{
    let bit = compared(alloc, table, op, a, b)?;
    alone(alloc, bit)
}

/// The bits of an operator of two bit vectors.
#[tactic(auto, unfolding(crate::specs::Circuits::circuit))]
pub(crate) fn of_vectors(
    alloc: Global,
    table: &mut Table,
    op: Op,
    a: &[NodeId],
    b: &[NodeId],
) -> Result<Vec<NodeId>, AllocError>
    requires a { All (IsFormula table.old) a.now }
    requires b { All (IsFormula table.old) b.now }
    requires takes { TakesVectors op (length a.now) (length b.now) }
    ensures bits { (ss : List Sort) → IfOk result (λ ks. AreBits table.new ks.items (plain.circuit term_gates op ss (trees_at table.old a.now ∷ trees_at table.old b.now ∷ []))) }
    ensures grows { GrowsTo table.old table.new }
    ensures symbols { table.new.symbols ≡ table.old.symbols }
    ensures sorts { table.new.sorts ≡ table.old.sorts }
{
    match op {
        Op::Concat => joined(alloc, b, a),
        Op::BvAnd => pairs(alloc, table, Gate::Both, a, b),
        Op::BvOr => pairs(alloc, table, Gate::Either, a, b),
        Op::BvXor => pairs(alloc, table, Gate::Differ, a, b),
        Op::BvAdd => sum(alloc, table, a, b),
        Op::BvSub => difference(alloc, table, a, b),
        Op::BvMul => product(alloc, table, a, b),
        Op::BvUdiv => quotient(alloc, table, a, b),
        Op::BvUrem => remainder(alloc, table, a, b),
        Op::BvSdiv => signed_quotient(alloc, table, a, b),
        Op::BvSrem => signed_remainder(alloc, table, a, b),
        Op::BvSmod => signed_modulus(alloc, table, a, b),
        Op::BvShl => shift_left(alloc, table, a, b),
        Op::BvLshr => shift_right(alloc, table, a, b),
        Op::BvAshr => signed_shift_right(alloc, table, a, b),
        _ => comparison(alloc, table, op, a, b),
    }
}

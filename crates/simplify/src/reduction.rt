//! An operator over simplified operands.

ghost use Rattle.std.specs.Prelude.{◌≡◌, None, IfOk};
ghost use Rattle.smt_terms.specs.Term as term;
ghost use Rattle.smt_terms.specs.Term.{terms};
ghost use Rattle.term_table.specs.Formulas.{tree, trees_at, kind, theory, IsNode, Makes};
ghost use Rattle.term_walk.specs.Walking.{GrowsTo};
ghost use Rattle.simplify.specs.Reduced.{IsOver, Answers};
ghost use Rattle.simplify.specs.Simplify as plain;
ghost use Rattle.simplify.specs.Simplify.{folded_or_law, red};

use crate::folding::fold;
use crate::{arrays, junctions, logic, numbers, vectors};
use smt_terms::NodeId;
use smt_values::Op;
use std::alloc::{AllocError, Global};
use term_table::{Table, know_table};

// What the operator's law makes of its operands; None where no law applies.
fn law(
    alloc: Global,
    table: &mut Table,
    op: Op,
    ids: &[NodeId],
) -> Result<Option<NodeId>, AllocError>
    requires makes { Makes table.old op ids.now }
    requires theory { kind op ≡ theory op }
    ensures found { IfOk result (Answers table.new (plain.law op (trees_at table.old ids.now))) }
    ensures grows { GrowsTo table.old table.new }
    ensures symbols { table.new.symbols ≡ table.old.symbols }
    ensures sorts { table.new.sorts ≡ table.old.sorts }
{
    match op {
        Op::Not => Ok(logic::twice(table, op, ids)),
        Op::And => {
            let id = junctions::conjunction(alloc, table, ids)?;
            Ok(Some(id))
        }
        Op::Or => {
            let id = junctions::disjunction(alloc, table, ids)?;
            Ok(Some(id))
        }
        Op::Xor => logic::exclusive(table, ids),
        Op::Implies => logic::implication(table, ids),
        Op::Equal => logic::equation(table, ids),
        Op::Distinct => logic::distinctness(alloc, table, ids),
        Op::Ite => logic::choice(table, ids),
        Op::Neg => Ok(logic::twice(table, op, ids)),
        Op::Sub => numbers::subtraction(table, ids),
        Op::Add => numbers::addition(alloc, table, ids),
        Op::Mul => numbers::multiplication(alloc, table, ids),
        Op::Div => Ok(numbers::division(table, ids)),
        Op::Mod => numbers::remainder(table, ids),
        Op::Le => numbers::with_itself(table, op, true, ids),
        Op::Lt => numbers::with_itself(table, op, false, ids),
        Op::Extract { high, low } => Ok(vectors::extraction(table, high, low, ids)),
        Op::BvNot => Ok(logic::twice(table, op, ids)),
        Op::BvNeg => Ok(logic::twice(table, op, ids)),
        Op::BvAnd => Ok(vectors::bit_and(table, ids)),
        Op::BvOr => Ok(vectors::bit_or(table, ids)),
        Op::BvXor => vectors::bit_exclusive(table, ids),
        Op::BvAdd => Ok(vectors::addition(table, ids)),
        Op::BvMul => Ok(vectors::multiplication(table, ids)),
        Op::BvSub => vectors::subtraction(table, ids),
        Op::BvUdiv => vectors::division(table, ids),
        Op::BvUrem => vectors::remainder(table, ids),
        Op::BvShl => Ok(vectors::shift(table, op, ids)),
        Op::BvLshr => Ok(vectors::shift(table, op, ids)),
        Op::BvAshr => Ok(vectors::shift(table, op, ids)),
        Op::BvComp => vectors::comparison(table, ids),
        Op::BvUlt => numbers::with_itself(table, op, false, ids),
        Op::BvUle => numbers::with_itself(table, op, true, ids),
        Op::BvSlt => numbers::with_itself(table, op, false, ids),
        Op::BvSle => numbers::with_itself(table, op, true, ids),
        Op::ZeroExt(i) => Ok(vectors::movement(table, op, i, ids)),
        Op::SignExt(i) => Ok(vectors::movement(table, op, i, ids)),
        Op::RotL(i) => Ok(vectors::movement(table, op, i, ids)),
        Op::RotR(i) => Ok(vectors::movement(table, op, i, ids)),
        Op::Select => arrays::selection(table, ids),
        Op::Store => arrays::storing(table, ids),
        _ => Ok(None),
    }
}

// An operator over operands that aren't all constants, by its law, or else made anew.
fn unfolded(alloc: Global, table: &mut Table, op: Op, ids: &[NodeId]) -> Result<NodeId, AllocError>
    requires makes { Makes table.old op ids.now }
    requires theory { kind op ≡ theory op }
    ensures node { IfOk result (IsNode table.new) }
    ensures term { IfOk result (λ k. tree table.new k ≡ folded_or_law None (plain.law op (trees_at table.old ids.now)) (term.apply (term.op op) (terms (trees_at table.old ids.now)))) }
    ensures grows { GrowsTo table.old table.new }
    ensures symbols { table.new.symbols ≡ table.old.symbols }
    ensures sorts { table.new.sorts ≡ table.old.sorts }
{
    match law(alloc, table, op, ids)? {
        Some(id) => Ok(id),
        None => {
            let id = table.intern(op, ids)?;
            Ok(id)
        }
    }
}

/// An operator over simplified operands.
pub(crate) fn reduce(
    alloc: Global,
    table: &mut Table,
    op: Op,
    ids: &[NodeId],
) -> Result<NodeId, AllocError>
    requires over { IsOver table.old op ids.now }
    requires theory { kind op ≡ theory op }
    ensures node { IfOk result (IsNode table.new) }
    ensures term { IfOk result (λ k. tree table.new k ≡ red (term.op op) (terms (trees_at table.old ids.now))) }
    ensures grows { GrowsTo table.old table.new }
    ensures symbols { table.new.symbols ≡ table.old.symbols }
    ensures sorts { table.new.sorts ≡ table.old.sorts }
{
    know_table(table);
    match fold(alloc, table, op, ids)? {
        Some(id) => Ok(id),
        None => unfolded(alloc, table, op, ids),
    }
}

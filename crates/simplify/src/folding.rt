//! Operators of the theories over constants alone: the constants of their values.

ghost use Rattle.std.specs.Prelude.{◌≡◌, map, pos, All, IfOk, MatchOption};
ghost use Rattle.std.specs.Ordering.{int_eq};
ghost use Rattle.smt_terms.specs.Operators.{second_value};
ghost use Rattle.smt_terms.specs.Values.{number};
ghost use Rattle.smt_values.specs.Applied.{TakesOperands};
ghost use Rattle.smt_values.specs.Operands as operands;
ghost use Rattle.smt_values.specs.Meaning.{scalar_value, scalar_sort, IsScalar};
ghost use Rattle.term_table.specs.Formulas.{trees_at, sorts_in, kind, theory, AreNodes};
ghost use Rattle.term_walk.specs.Walking.{GrowsTo};
ghost use Rattle.simplify.specs.Folding as plain;
ghost use Rattle.simplify.specs.Folding.{folded, folded_values};
ghost use Rattle.simplify.specs.Scalars.{AreConstants, AreUnfolded};
ghost use Rattle.simplify.specs.Reduced.{IsOver, Answers};

use crate::constants::constant;
use normal_forms::literals::node_of;
use smt_terms::NodeId;
use smt_values::{Op, Scalar, apply_scalar};
use std::alloc::{AllocError, Global};
use term_table::Table;

// The constants that some operands are; None where one of them is none, or there are no operands.
fn constants_of(
    alloc: Global,
    table: &Table,
    ids: &[NodeId],
) -> Result<Option<Vec<Scalar>>, AllocError>
    requires { AreNodes table.now ids.now }
    ensures { IfOk result (λ found. MatchOption found (AreUnfolded (trees_at table.now ids.now)) (λ constants. AreConstants (trees_at table.now ids.now) constants.items)) }
{
    if ids.is_empty() {
        return Ok(None);
    }
    let mut constants = Vec::new(alloc);
    for id in ids {
        match constant(table, *id) {
            Some(scalar) => constants.push(scalar)?,
            None => return Ok(None),
        }
    }
    Ok(Some(constants))
}

// Whether a constant's number is zero, as which one that is no whole number reads.
fn is_zero(scalar: Scalar) -> bool
    requires { IsScalar scalar }
    ensures { result ≡ operands.is_zero scalar }
{
    match scalar {
        Scalar::Whole(n) => n == 0,
        _ => true,
    }
}

// Whether the second operand's number is zero.
fn is_over_zero(args: &[Scalar]) -> bool
    requires { All IsScalar args.now }
    ensures { result ≡ int_eq (number (second_value (map scalar_value args.now))) (pos 0) }
{
    match args.get(1) {
        Some(divisor) => is_zero(*divisor),
        None => true,
    }
}

// Whether whole numbers are divided by zero.
fn divides_by_zero(op: Op, args: &[Scalar]) -> bool
    requires { All IsScalar args.now }
    ensures { result ≡ plain.divides_by_zero op (map scalar_value args.now) }
{
    match op {
        Op::Div => is_over_zero(args),
        Op::Mod => is_over_zero(args),
        _ => false,
    }
}

// The constant of an operator's value at constants; None where whole numbers are divided by zero, or the value is outside
// the range.
fn value_of(table: &mut Table, op: Op, args: &[Scalar]) -> Result<Option<NodeId>, AllocError>
    requires scalars { All IsScalar args.now }
    requires operands { TakesOperands op args.now }
    ensures found { IfOk result (Answers table.new (folded_values op (map scalar_sort args.now) (map scalar_value args.now))) }
    ensures grows { GrowsTo table.old table.new }
    ensures symbols { table.new.symbols ≡ table.old.symbols }
    ensures sorts { table.new.sorts ≡ table.old.sorts }
{
    if divides_by_zero(op, args) {
        return Ok(None);
    }
    match apply_scalar(op, args) {
        Ok(value) => {
            let id = node_of(table, value)?;
            Ok(Some(id))
        }
        Err(_) => Ok(None),
    }
}

/// An operator of the theories over constants alone: the constant of its value, where that is in the range and nothing is
/// divided by zero; else None.
pub(crate) fn fold(
    alloc: Global,
    table: &mut Table,
    op: Op,
    ids: &[NodeId],
) -> Result<Option<NodeId>, AllocError>
    requires over { IsOver table.old op ids.now }
    requires theory { kind op ≡ theory op }
    ensures found { IfOk result (Answers table.new (folded op (sorts_in (trees_at table.old ids.now)) (trees_at table.old ids.now))) }
    ensures grows { GrowsTo table.old table.new }
    ensures symbols { table.new.symbols ≡ table.old.symbols }
    ensures sorts { table.new.sorts ≡ table.old.sorts }
{
    match constants_of(alloc, table, ids)? {
        Some(constants) => value_of(table, op, &constants),
        None => Ok(None),
    }
}

//! The operators that take scalars alone.

ghost use Rattle.std.specs.Prelude.{◌≡◌, ◌<◌, ◌^◌, All, IfOk, IfSome, IfNone, IsFalse, List, unsigned_abs};
ghost use Rattle.smt_terms.specs.Val.{value_in_range};
ghost use Rattle.smt_terms.specs.Values as plain;
ghost use Rattle.smt_terms.specs.Values.{number};
ghost use Rattle.smt_values.specs.Applied.{TakesOperands, HasDivisor};
ghost use Rattle.smt_values.specs.Meaning.{meaning, scalar_value, IsHeld, IsScalar};
ghost use Rattle.smt_values.specs.Operands.{operand};
ghost use Rattle.term_table.specs.Formulas.{Formulas};
ghost use Rattle.models.specs.ModelView.{model_at};
ghost use Rattle.evaluation.specs.ScalarOperands.{scalars_in, scalar_result, division};

use models::{Division, Model};
use smt_values::{Op, Scalar, Value, apply_scalar};
use std::alloc::{AllocError, Global};

// The scalars among these values.
fn scalars_of(alloc: Global, args: &[Value]) -> Result<Vec<Scalar>, AllocError>
    ensures { IfOk result (λ scalars. scalars.items ≡ scalars_in args.now) }
{
    let mut scalars = Vec::with_capacity(alloc, args.len())?;
    for arg in args {
        if let Value::Scalar(scalar) = arg {
            scalars.push(*scalar)?;
        }
    }
    Ok(scalars)
}

// The part of division that an operator gives.
fn part_of(op: Op) -> Option<Division>
    ensures part { IfSome result (λ part. op ≡ division part) }
    ensures none { (args : List Scalar) → IfNone result (HasDivisor op args) }
{
    match op {
        Op::Div => Some(Division::Quotient),
        Op::Mod => Some(Division::Remainder),
        _ => None,
    }
}

// The whole number at a place; an operand that isn't there or is of another kind reads as 0.
fn whole_at(args: &[Scalar], place: usize) -> i128
    ensures { result ≡ number (operand args.now place) }
{
    match args.get(place) {
        Some(scalar) => whole(*scalar),
        None => 0,
    }
}

fn whole(scalar: Scalar) -> i128
    ensures { result ≡ number (scalar_value scalar) }
{
    match scalar {
        Scalar::Whole(n) => n,
        _ => 0,
    }
}

// What the model says of an operator that divides by zero.
fn by_zero(model: &Model, op: Op, args: &[Scalar]) -> Option<i128>
    ensures value { (t : Formulas) → IfSome result (λ n. scalar_result (model_at t model.now) op args.now ≡ plain.whole n) }
    ensures within { IfSome result (λ n. unsigned_abs n < 2 ^ 127) }
    ensures none { IfNone result (HasDivisor op args.now) }
{
    let part = part_of(op)?;
    if whole_at(args, 1) != 0 {
        return None;
    }
    Some(model.by_zero(part).value_at(whole_at(args, 0)))
}

/// The value of an operator that takes scalars alone. None where it is a whole number outside the range.
pub(crate) fn value_at_scalars(
    alloc: Global,
    model: &Model,
    op: Op,
    args: &[Value],
) -> Result<Option<Value>, AllocError>
    requires operands { TakesOperands op (scalars_in args.now) }
    requires scalars { All IsScalar (scalars_in args.now) }
    ensures value { (t : Formulas) → IfOk result (λ found. IfSome found (λ v. meaning v ≡ scalar_result (model_at t model.now) op (scalars_in args.now))) }
    ensures held { IfOk result (λ found. IfSome found IsHeld) }
    ensures beyond { (t : Formulas) → IfOk result (λ found. IfNone found (IsFalse (value_in_range (scalar_result (model_at t model.now) op (scalars_in args.now))))) }
{
    let scalars = scalars_of(alloc, args)?;
    if let Some(n) = by_zero(model, op, scalars.as_slice()) {
        return Ok(Some(Value::Scalar(Scalar::Whole(n))));
    }
    match apply_scalar(op, scalars.as_slice()) {
        Ok(scalar) => Ok(Some(Value::Scalar(scalar))),
        Err(_) => Ok(None),
    }
}

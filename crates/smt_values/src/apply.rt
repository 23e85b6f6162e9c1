//! The operators of the theories on scalars.

ghost use Rattle.std.specs.Prelude.{◌≡◌, All, IfOk, IfErr, IfSome, IfNone, IsErr, Ok, Some};
ghost use Rattle.smt_values.specs.Meaning.{scalar_value, IsScalar};
ghost use Rattle.smt_values.specs.Applied.{TakesOperands, HasDivisor, HasValue, IsBeyond};
ghost use Rattle.smt_values.specs.WordShapes.{TakesWords, TakesPair};

mod integers;
mod logic;
mod operands;
mod word;

use crate::scalar::Scalar;
use integers::{difference, modulus, product, quotient, sum};
use logic::{are_distinct, chosen, equal, exclusive, implies};
use operands::{all_true, any_true, pair_at, truth_at, whole_at, word_at};
use smt_terms::Op;
use thiserror::Error;

/// The exact value is a whole number of a magnitude above 2^127 - 1.
#[derive(Clone, Copy, Debug, PartialEq, Eq, Error)]
#[error("a whole number of more than 127 bits")]
pub struct Beyond128;

/// The value of an operator at scalars. It asks that the operator takes scalars of these sorts, and that `div` and `mod`
/// have a divisor other than 0. The answer is exact: `Beyond128` comes where the value lies outside the range of whole
/// numbers, and only there, whatever the sums and products on the way are. It takes no memory.
pub fn apply_scalar(op: Op, args: &[Scalar]) -> Result<Scalar, Beyond128>
    requires scalars { All IsScalar args.now }
    requires operands { TakesOperands op args.now }
    requires divisor { HasDivisor op args.now }
    ensures value { IfOk result (λ r. HasValue op args.now (scalar_value r)) }
    ensures scalar { IfOk result IsScalar }
    ensures beyond { IfErr result (λ _. IsBeyond op args.now) }
{
    match op {
        Op::Truth(truth) => Ok(Scalar::Truth(truth)),
        Op::Whole(n) => Ok(Scalar::Whole(n)),
        Op::Bits { width, bits } => Ok(Scalar::Bits { width, bits }),
        Op::Not => Ok(Scalar::Truth(!truth_at(args, 0))),
        Op::And => Ok(Scalar::Truth(all_true(args))),
        Op::Or => Ok(Scalar::Truth(any_true(args))),
        Op::Xor => Ok(Scalar::Truth(exclusive(args))),
        Op::Implies => Ok(Scalar::Truth(implies(args))),
        Op::Equal => Ok(Scalar::Truth(equal(args))),
        Op::Distinct => Ok(Scalar::Truth(are_distinct(args))),
        Op::Ite => Ok(chosen(args)),
        Op::Neg => Ok(Scalar::Whole(-whole_at(args, 0))),
        Op::Sub => within(difference(args)),
        Op::Add => within(sum(args)),
        Op::Mul => within(product(args)),
        Op::Div => Ok(Scalar::Whole(quotient(args))),
        Op::Mod => Ok(Scalar::Whole(modulus(args))),
        Op::Abs => Ok(Scalar::Whole(whole_at(args, 0).abs())),
        Op::Le => Ok(Scalar::Truth(whole_at(args, 0) <= whole_at(args, 1))),
        Op::Lt => Ok(Scalar::Truth(whole_at(args, 0) < whole_at(args, 1))),
        _ => Ok(on_words(op, args)),
    }
}

// A whole number where there is one.
fn within(n: Option<i128>) -> Result<Scalar, Beyond128>
    ensures some { IfSome n (λ m. result ≡ Ok (Scalar.Whole m)) }
    ensures none { IfNone n (IsErr result) }
{
    match n {
        Some(n) => Ok(Scalar::Whole(n)),
        None => Err(Beyond128),
    }
}

// An operator that takes bit vectors.
fn on_words(op: Op, args: &[Scalar]) -> Scalar
    requires words { TakesWords op }
    requires scalars { All IsScalar args.now }
    requires operands { TakesOperands op args.now }
    ensures value { HasValue op args.now (scalar_value result) }
    ensures scalar { IsScalar result }
{
    let word = word_at(args, 0);
    match op {
        Op::Concat => word.concat(word_at(args, 1)).scalar(),
        Op::Extract { high, low } => word.extract(high, low).scalar(),
        Op::BvNot => word.bvnot().scalar(),
        Op::BvNeg => word.bvneg().scalar(),
        Op::ZeroExt(more) => word.zero_extend(more).scalar(),
        Op::SignExt(more) => word.sign_extend(more).scalar(),
        Op::RotL(places) => word.rotate_left(places).scalar(),
        Op::RotR(places) => word.rotate_right(places).scalar(),
        _ => on_pairs(op, args),
    }
}

// An operator that takes two bit vectors of one width.
fn on_pairs(op: Op, args: &[Scalar]) -> Scalar
    requires pair { TakesPair op }
    requires scalars { All IsScalar args.now }
    requires operands { TakesOperands op args.now }
    ensures value { HasValue op args.now (scalar_value result) }
    ensures scalar { IsScalar result }
{
    let (first, second) = pair_at(args);
    match op {
        Op::BvAnd => first.bvand(second).scalar(),
        Op::BvOr => first.bvor(second).scalar(),
        Op::BvXor => first.bvxor(second).scalar(),
        Op::BvAdd => first.bvadd(second).scalar(),
        Op::BvMul => first.bvmul(second).scalar(),
        Op::BvSub => first.bvsub(second).scalar(),
        Op::BvUdiv => first.bvudiv(second).scalar(),
        Op::BvUrem => first.bvurem(second).scalar(),
        Op::BvSdiv => first.bvsdiv(second).scalar(),
        Op::BvSrem => first.bvsrem(second).scalar(),
        Op::BvSmod => first.bvsmod(second).scalar(),
        Op::BvShl => first.bvshl(second).scalar(),
        Op::BvLshr => first.bvlshr(second).scalar(),
        Op::BvAshr => first.bvashr(second).scalar(),
        Op::BvComp => first.bvcomp(second).scalar(),
        Op::BvUlt => Scalar::Truth(first.bvult(second)),
        Op::BvUle => Scalar::Truth(first.bvule(second)),
        Op::BvSlt => Scalar::Truth(first.bvslt(second)),
        Op::BvSle => Scalar::Truth(first.bvsle(second)),
        _ => unreachable!(),
    }
}

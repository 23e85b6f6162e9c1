//! The operands of an operator as what they are. An operand that isn't there or is of another kind reads as the first
//! value of its kind: no operator that takes its operands meets one.

ghost use Rattle.std.specs.Prelude.{◌≡◌, ◌<◌, ◌^◌, All, unsigned_abs, Some, slice_get};
ghost use Rattle.std.specs.List.{list_all, list_any};
ghost use Rattle.smt_terms.specs.Values.{is_true, number};
ghost use Rattle.smt_values.specs.Meaning.{scalar_value, IsScalar};
ghost use Rattle.smt_values.specs.Operands.{operand, IsWordAt, IsPair};

use super::word::Word;
use crate::scalar::Scalar;

pub(crate) fn truth(scalar: Scalar) -> bool
    ensures { result ≡ is_true (scalar_value scalar) }
{
    match scalar {
        Scalar::Truth(truth) => truth,
        _ => false,
    }
}

pub(crate) fn whole(scalar: Scalar) -> i128
    requires { IsScalar scalar }
    ensures number { result ≡ number (scalar_value scalar) }
    ensures range { unsigned_abs result < 2 ^ 127 }
{
    match scalar {
        Scalar::Whole(n) => n,
        _ => 0,
    }
}

pub(crate) fn truth_at(args: &[Scalar], i: usize) -> bool
    ensures { result ≡ is_true (operand args.now i) }
{
    match args.get(i) {
        Some(scalar) => truth(*scalar),
        None => false,
    }
}

pub(crate) fn whole_at(args: &[Scalar], i: usize) -> i128
    requires { All IsScalar args.now }
    ensures number { result ≡ number (operand args.now i) }
    ensures range { unsigned_abs result < 2 ^ 127 }
{
    match args.get(i) {
        Some(scalar) => whole(*scalar),
        None => 0,
    }
}

pub(crate) fn all_true(args: &[Scalar]) -> bool
    ensures { result ≡ list_all (λ a. is_true (scalar_value a)) args.now }
{
    args.iter().all(|arg| truth(*arg))
}

pub(crate) fn any_true(args: &[Scalar]) -> bool
    ensures { result ≡ list_any (λ a. is_true (scalar_value a)) args.now }
{
    args.iter().any(|arg| truth(*arg))
}

pub(crate) fn word_at(args: &[Scalar], i: usize) -> Word
    requires scalars { All IsScalar args.now }
    requires word { IsWordAt args.now i }
    ensures { slice_get args.now i ≡ Some (Scalar.Bits result.width result.bits) }
{
    match args.get(i) {
        Some(Scalar::Bits { width, bits }) => Word {
            width: *width,
            bits: *bits,
        },
        _ => unreachable!(),
    }
}

/// Two bit vectors of one width.
pub(crate) fn pair_at(args: &[Scalar]) -> (Word, Word)
    requires scalars { All IsScalar args.now }
    requires pair { IsPair args.now }
    ensures first { slice_get args.now 0 ≡ Some (Scalar.Bits result.0.width result.0.bits) }
    ensures second { slice_get args.now 1 ≡ Some (Scalar.Bits result.1.width result.1.bits) }
    ensures width { result.1.width ≡ result.0.width }
{
    (word_at(args, 0), word_at(args, 1))
}

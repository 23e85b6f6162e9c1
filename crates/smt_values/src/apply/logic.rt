//! The operators of the theory Core.

ghost use Rattle.std.specs.Prelude.{◌≡◌, ◌<◌, All, length, map, cond, not, ◌||◌};
ghost use Rattle.std.specs.Bool.{beq};
ghost use Rattle.smt_terms.specs.Sorts.{Sort};
ghost use Rattle.smt_terms.specs.Values.{is_true, same, Sizes};
ghost use Rattle.smt_terms.specs.Operators.{first_value, second_value, third_value, all_distinct};
ghost use Rattle.smt_values.specs.Meaning.{scalar_value, scalar_sort, IsScalar};

use super::operands::truth_at;
use crate::scalar::Scalar;

pub(crate) fn exclusive(args: &[Scalar]) -> bool
    ensures { result ≡ not (beq (is_true (first_value (map scalar_value args.now))) (is_true (second_value (map scalar_value args.now)))) }
{
    truth_at(args, 0) != truth_at(args, 1)
}

pub(crate) fn implies(args: &[Scalar]) -> bool
    ensures { result ≡ (not (is_true (first_value (map scalar_value args.now))) || is_true (second_value (map scalar_value args.now))) }
{
    !truth_at(args, 0) || truth_at(args, 1)
}

/// Whether the first two operands, of one sort, are equal.
pub(crate) fn equal(args: &[Scalar]) -> bool
    requires scalars { All IsScalar args.now }
    requires two { 1 < length args.now }
    ensures { (s : Sort) (sizes : Sizes) → All (λ a. scalar_sort a ≡ s) args.now → result ≡ same s sizes (first_value (map scalar_value args.now)) (second_value (map scalar_value args.now)) }
{
    args[0] == args[1]
}

/// The second operand where the first is true, else the third.
pub(crate) fn chosen(args: &[Scalar]) -> Scalar
    requires scalars { All IsScalar args.now }
    requires three { 2 < length args.now }
    ensures value { scalar_value result ≡ cond (is_true (first_value (map scalar_value args.now))) (second_value (map scalar_value args.now)) (third_value (map scalar_value args.now)) }
    ensures scalar { IsScalar result }
{
    if truth_at(args, 0) {
        return args[1];
    }
    args[2]
}

/// Whether no operand equals a later one.
pub(crate) fn are_distinct(args: &[Scalar]) -> bool
    requires { All IsScalar args.now }
    ensures { (s : Sort) (sizes : Sizes) → All (λ a. scalar_sort a ≡ s) args.now → result ≡ all_distinct (same s sizes) (map scalar_value args.now) }
{
    for (i, arg) in args.iter().enumerate() {
        if args[i + 1..].contains(arg) {
            return false;
        }
    }
    true
}

//! Whole numbers within the range of magnitudes up to 2^127 - 1.

ghost use Rattle.std.specs.Prelude.{◌≡◌, ◌+◌, ◌*◌, ◌^◌, ◌<◌, ◌≤◌, ◌≢◌, All, map, unsigned_abs, pos, ◌+ℤ◌, ◌-ℤ◌};
ghost use Rattle.std.specs.Int.{int_div_euclid, int_rem_euclid};
ghost use Rattle.std.specs.List.{list_any};
ghost use Rattle.smt_terms.specs.Values.{number};
ghost use Rattle.smt_terms.specs.Operators.{first_value, second_value, sum_of, product_of};
ghost use Rattle.smt_values.specs.Applied.{IsWithin};
ghost use Rattle.smt_values.specs.Operands.{is_zero};
ghost use Rattle.smt_values.specs.Meaning.{scalar_value, IsScalar};

use super::operands::{whole, whole_at};
use crate::scalar::Scalar;

// The number where it lies in the range, which -2^127 doesn't.
fn in_range(n: i128) -> Option<i128>
    ensures { IsWithin result n }
{
    (n != i128::MIN).then_some(n)
}

pub(crate) fn difference(args: &[Scalar]) -> Option<i128>
    requires { All IsScalar args.now }
    ensures { IsWithin result (number (first_value (map scalar_value args.now)) -ℤ number (second_value (map scalar_value args.now))) }
{
    in_range(whole_at(args, 0).checked_sub(whole_at(args, 1))?)
}

/// The quotient whose remainder is not negative.
pub(crate) fn quotient(args: &[Scalar]) -> i128
    requires scalars { All IsScalar args.now }
    requires divisor { number (second_value (map scalar_value args.now)) ≢ pos 0 }
    ensures value { result ≡ int_div_euclid (number (first_value (map scalar_value args.now))) (number (second_value (map scalar_value args.now))) }
    ensures range { unsigned_abs result < 2 ^ 127 }
{
    whole_at(args, 0).div_euclid(whole_at(args, 1))
}

/// That remainder.
pub(crate) fn modulus(args: &[Scalar]) -> i128
    requires scalars { All IsScalar args.now }
    requires divisor { number (second_value (map scalar_value args.now)) ≢ pos 0 }
    ensures value { result ≡ int_rem_euclid (number (first_value (map scalar_value args.now))) (number (second_value (map scalar_value args.now))) }
    ensures range { unsigned_abs result < 2 ^ 127 }
{
    whole_at(args, 0).rem_euclid(whole_at(args, 1))
}

// The sum of two numbers in 128 bits, and how often it went above and below them: 2^128 is left out, or one too many.
fn carrying_add(m: i128, n: i128) -> (i128, usize, usize)
    ensures sum { result.0 +ℤ pos (result.1 * 2 ^ 128) ≡ (m +ℤ n) +ℤ pos (result.2 * 2 ^ 128) }
    ensures once { result.1 + result.2 ≤ 1 }
{
    let (sum, overflows) = m.overflowing_add(n);
    if !overflows {
        (sum, 0, 0)
    } else if 0 < n {
        (sum, 1, 0)
    } else {
        (sum, 0, 1)
    }
}

/// The sum of the operands. It is exact although sums on the way may leave 128 bits and come back.
pub(crate) fn sum(args: &[Scalar]) -> Option<i128>
    requires { All IsScalar args.now }
    ensures { IsWithin result (sum_of (map scalar_value args.now)) }
{
    let mut low: i128 = 0;
    let mut above: usize = 0;
    let mut below: usize = 0;
    for arg in args {
        let (sum, up, down) = carrying_add(low, whole(*arg));
        low = sum;
        above += up;
        below += down;
    }
    if above == below { in_range(low) } else { None }
}

fn has_zero(args: &[Scalar]) -> bool
    requires { All IsScalar args.now }
    ensures { result ≡ list_any is_zero args.now }
{
    args.iter().any(|arg| whole(*arg) == 0)
}

/// The product of the operands. Without a zero among them no product on the way comes back into the range.
pub(crate) fn product(args: &[Scalar]) -> Option<i128>
    requires { All IsScalar args.now }
    ensures { IsWithin result (product_of (map scalar_value args.now)) }
{
    if has_zero(args) {
        return Some(0);
    }
    let mut product: i128 = 1;
    for arg in args {
        product = product.checked_mul(whole(*arg))?;
    }
    in_range(product)
}

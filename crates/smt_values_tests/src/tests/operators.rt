//! Values of the operators against tables that `bench/operator_values.py` works out with unbounded integers from the
//! equations of the standard, apart from the program.

ghost use Rattle.std.specs.Prelude.{◌≢◌, ◌≤◌, ◌∷◌, [], All, Bool, false, ℕ, ℤ, pos};
ghost use Rattle.smt_values.specs.Applied.{TakesOperands, HasDivisor};
ghost use Rattle.smt_values.specs.Meaning.{IsScalar};

use smt_terms::Op;
use smt_values::{Beyond128, Scalar, apply_scalar};
use std::process::Abort;

mod comparisons;
mod pairs_of_words;
mod single_words;
mod truths;
mod whole_numbers;

const FOUR: [(u128, u128); 8] = [
    (7, 3),
    (9, 3),
    (7, 13),
    (9, 13),
    (8, 3),
    (8, 15),
    (7, 0),
    (9, 0),
];

const SIXTEEN: [(u128, u128); 6] = [
    (65535, 1),
    (32768, 65535),
    (32767, 32767),
    (32769, 15),
    (32769, 16),
    (5, 0),
];

const WIDE: [(u128, u128); 6] = [
    (
        170141183460469231731687303715884105728,
        340282366920938463463374607431768211455,
    ),
    (
        340282366920938463463374607431768211455,
        340282366920938463463374607431768211455,
    ),
    (170141183460469231731687303715884105727, 2),
    (170141183460469231731687303715884105729, 127),
    (170141183460469231731687303715884105729, 128),
    (170141183460469231731687303715884105728, 0),
];

const WHOLES: [(i128, i128); 10] = [
    (7, 2),
    (-7, 2),
    (7, -2),
    (-7, -2),
    (170141183460469231731687303715884105727, -1),
    (-170141183460469231731687303715884105727, -1),
    (
        -170141183460469231731687303715884105727,
        170141183460469231731687303715884105727,
    ),
    (
        170141183460469231731687303715884105727,
        -170141183460469231731687303715884105727,
    ),
    (0, 5),
    (-1, 170141183460469231731687303715884105727),
];

const TRUTHS: [(bool, bool); 4] = [(false, false), (false, true), (true, false), (true, true)];

const TRIPLES: [(bool, bool, bool); 8] = [
    (false, false, false),
    (false, false, true),
    (false, true, false),
    (false, true, true),
    (true, false, false),
    (true, false, true),
    (true, true, false),
    (true, true, true),
];

fn number(value: Result<Scalar, Beyond128>) -> Option<u128> {
    match value {
        Ok(Scalar::Truth(truth)) => Some(u128::from(truth)),
        Ok(Scalar::Bits { bits, .. }) => Some(bits),
        _ => None,
    }
}

fn whole(value: Result<Scalar, Beyond128>) -> Option<i128> {
    match value {
        Ok(Scalar::Truth(truth)) => Some(i128::from(truth)),
        Ok(Scalar::Whole(n)) => Some(n),
        _ => None,
    }
}

// An operator over two bit vectors of one width.
fn pair(rt: &impl Abort, op: Op, width: u32, operands: (u128, u128), value: u128)
    requires some { 1 ≤ width }
    requires narrow { width ≤ 128 }
    requires operands { TakesOperands op (Scalar.Bits width 0 ∷ Scalar.Bits width 0 ∷ []) }
    requires divisor { (w m n : ℕ) → HasDivisor op (Scalar.Bits w m ∷ Scalar.Bits w n ∷ []) }
{
    let (m, n) = operands;
    let mask = u128::MAX >> (128 - width);
    let args = [
        Scalar::Bits {
            width,
            bits: m & mask,
        },
        Scalar::Bits {
            width,
            bits: n & mask,
        },
    ];
    assert_eq!(rt;
        number(apply_scalar(op, &args)),
        Some(value),
        "{op:?} of {m} and {n}"
    );
}

fn pairs(rt: &impl Abort, op: Op, four: [u128; 8], sixteen: [u128; 6], wide: [u128; 6])
    requires four { TakesOperands op (Scalar.Bits 4 0 ∷ Scalar.Bits 4 0 ∷ []) }
    requires sixteen { TakesOperands op (Scalar.Bits 16 0 ∷ Scalar.Bits 16 0 ∷ []) }
    requires wide { TakesOperands op (Scalar.Bits 128 0 ∷ Scalar.Bits 128 0 ∷ []) }
    requires divisor { (w m n : ℕ) → HasDivisor op (Scalar.Bits w m ∷ Scalar.Bits w n ∷ []) }
{
    for (operands, value) in FOUR.iter().zip(four.iter()) {
        pair(rt, op, 4, *operands, *value);
    }
    for (operands, value) in SIXTEEN.iter().zip(sixteen.iter()) {
        pair(rt, op, 16, *operands, *value);
    }
    for (operands, value) in WIDE.iter().zip(wide.iter()) {
        pair(rt, op, 128, *operands, *value);
    }
}

fn several(rt: &impl Abort, op: Op, operands: [i128; 3], value: Option<i128>)
    requires operands { TakesOperands op (Scalar.Whole (pos 0) ∷ Scalar.Whole (pos 0) ∷ Scalar.Whole (pos 0) ∷ []) }
    requires divisor { (l m n : ℤ) → HasDivisor op (Scalar.Whole l ∷ Scalar.Whole m ∷ Scalar.Whole n ∷ []) }
{
    let [l, m, n] = operands;
    assert!(rt; l != i128::MIN);
    assert!(rt; m != i128::MIN);
    assert!(rt; n != i128::MIN);
    let args = [Scalar::Whole(l), Scalar::Whole(m), Scalar::Whole(n)];
    assert_eq!(rt;
        whole(apply_scalar(op, &args)),
        value,
        "{op:?} of {l}, {m} and {n}"
    );
}

fn wholes(rt: &impl Abort, op: Op, values: [Option<i128>; 10])
    requires operands { TakesOperands op (Scalar.Whole (pos 0) ∷ Scalar.Whole (pos 0) ∷ []) }
    requires divisor { (m n : ℤ) → n ≢ pos 0 → HasDivisor op (Scalar.Whole m ∷ Scalar.Whole n ∷ []) }
{
    for ((m, n), value) in WHOLES.iter().zip(values.iter()) {
        assert!(rt; *m != i128::MIN);
        assert!(rt; *n != i128::MIN);
        assert!(rt; *n != 0);
        let args = [Scalar::Whole(*m), Scalar::Whole(*n)];
        assert_eq!(rt;
            whole(apply_scalar(op, &args)),
            *value,
            "{op:?} of {m} and {n}"
        );
    }
}

// An operator at scalars, with all of its value.
fn row(rt: &impl Abort, op: Op, args: &[Scalar], value: Scalar)
    requires scalars { All IsScalar args.now }
    requires operands { TakesOperands op args.now }
    requires divisor { HasDivisor op args.now }
{
    assert_eq!(rt; apply_scalar(op, args), Ok(value), "{op:?} of {args:?}");
}

fn word(rt: &impl Abort, op: Op, width: u32, bits: u128, value: Scalar)
    requires some { 1 ≤ width }
    requires narrow { width ≤ 128 }
    requires operand { TakesOperands op (Scalar.Bits width 0 ∷ []) }
    requires divisor { (w n : ℕ) → HasDivisor op (Scalar.Bits w n ∷ []) }
{
    let mask = u128::MAX >> (128 - width);
    let args = [Scalar::Bits {
        width,
        bits: bits & mask,
    }];
    row(rt, op, &args, value);
}

// An operator over one bit vector: its width, that of the values, and operands with their values.
fn words(rt: &impl Abort, op: Op, width: u32, out: u32, rows: &[(u128, u128)])
    requires some { 1 ≤ width }
    requires narrow { width ≤ 128 }
    requires operand { TakesOperands op (Scalar.Bits width 0 ∷ []) }
    requires divisor { (w n : ℕ) → HasDivisor op (Scalar.Bits w n ∷ []) }
{
    for (bits, value) in rows.iter() {
        word(
            rt,
            op,
            width,
            *bits,
            Scalar::Bits {
                width: out,
                bits: *value,
            },
        );
    }
}

// Two bit vectors and the whole, each as its width and bits.
fn concatenation(rt: &impl Abort, high: (u32, u128), low: (u32, u128), value: (u32, u128))
    requires high { IsScalar (Scalar.Bits high.0 high.1) }
    requires low { IsScalar (Scalar.Bits low.0 low.1) }
    requires operands { TakesOperands Op.Concat (Scalar.Bits high.0 0 ∷ Scalar.Bits low.0 0 ∷ []) }
{
    let args = [
        Scalar::Bits {
            width: high.0,
            bits: high.1,
        },
        Scalar::Bits {
            width: low.0,
            bits: low.1,
        },
    ];
    let value = Scalar::Bits {
        width: value.0,
        bits: value.1,
    };
    row(rt, Op::Concat, &args, value);
}

fn truth_pair(rt: &impl Abort, op: Op, operands: (bool, bool), value: bool)
    requires operands { TakesOperands op (Scalar.Truth false ∷ Scalar.Truth false ∷ []) }
    requires divisor { (a b : Bool) → HasDivisor op (Scalar.Truth a ∷ Scalar.Truth b ∷ []) }
{
    let (a, b) = operands;
    let args = [Scalar::Truth(a), Scalar::Truth(b)];
    row(rt, op, &args, Scalar::Truth(value));
}

fn truth_pairs(rt: &impl Abort, op: Op, values: [bool; 4])
    requires operands { TakesOperands op (Scalar.Truth false ∷ Scalar.Truth false ∷ []) }
    requires divisor { (a b : Bool) → HasDivisor op (Scalar.Truth a ∷ Scalar.Truth b ∷ []) }
{
    for (operands, value) in TRUTHS.iter().zip(values.iter()) {
        truth_pair(rt, op, *operands, *value);
    }
}

fn truth_triple(rt: &impl Abort, op: Op, operands: (bool, bool, bool), value: bool)
    requires operands { TakesOperands op (Scalar.Truth false ∷ Scalar.Truth false ∷ Scalar.Truth false ∷ []) }
    requires divisor { (a b c : Bool) → HasDivisor op (Scalar.Truth a ∷ Scalar.Truth b ∷ Scalar.Truth c ∷ []) }
{
    let (a, b, c) = operands;
    let args = [Scalar::Truth(a), Scalar::Truth(b), Scalar::Truth(c)];
    row(rt, op, &args, Scalar::Truth(value));
}

fn truth_triples(rt: &impl Abort, op: Op, values: [bool; 8])
    requires operands { TakesOperands op (Scalar.Truth false ∷ Scalar.Truth false ∷ Scalar.Truth false ∷ []) }
    requires divisor { (a b c : Bool) → HasDivisor op (Scalar.Truth a ∷ Scalar.Truth b ∷ Scalar.Truth c ∷ []) }
{
    for (operands, value) in TRIPLES.iter().zip(values.iter()) {
        truth_triple(rt, op, *operands, *value);
    }
}

//! Operators over whole numbers.

use super::{row, several, wholes};
use smt_terms::Op;
use smt_values::Scalar;

#[test]
#[tactic(auto, unfolding(smt_terms::specs::Rank::rank, smt_terms::specs::Rank::shape))]
fn whole_numbers(rt: HostRuntime) {
    several(
        &rt,
        Op::Add,
        [170141183460469231731687303715884105727, 1, -1],
        Some(170141183460469231731687303715884105727),
    );
    several(
        &rt,
        Op::Add,
        [
            170141183460469231731687303715884105727,
            170141183460469231731687303715884105727,
            -170141183460469231731687303715884105727,
        ],
        Some(170141183460469231731687303715884105727),
    );
    several(
        &rt,
        Op::Add,
        [
            -170141183460469231731687303715884105727,
            -170141183460469231731687303715884105727,
            170141183460469231731687303715884105727,
        ],
        Some(-170141183460469231731687303715884105727),
    );
    several(
        &rt,
        Op::Add,
        [170141183460469231731687303715884105727, 1, 0],
        None,
    );
    several(
        &rt,
        Op::Add,
        [-170141183460469231731687303715884105727, -1, 0],
        None,
    );
    several(
        &rt,
        Op::Add,
        [
            170141183460469231731687303715884105727,
            170141183460469231731687303715884105727,
            170141183460469231731687303715884105727,
        ],
        None,
    );
    several(&rt, Op::Add, [2, 3, -7], Some(-2));
    several(
        &rt,
        Op::Mul,
        [170141183460469231731687303715884105727, 1, -1],
        Some(-170141183460469231731687303715884105727),
    );
    several(
        &rt,
        Op::Mul,
        [9223372036854775808, 18446744073709551616, 0],
        Some(0),
    );
    several(
        &rt,
        Op::Mul,
        [9223372036854775808, 18446744073709551616, 1],
        None,
    );
    several(
        &rt,
        Op::Mul,
        [9223372036854775808, -18446744073709551616, 1],
        None,
    );
    several(
        &rt,
        Op::Mul,
        [
            170141183460469231731687303715884105727,
            170141183460469231731687303715884105727,
            0,
        ],
        Some(0),
    );
    several(
        &rt,
        Op::Mul,
        [
            0,
            170141183460469231731687303715884105727,
            170141183460469231731687303715884105727,
        ],
        Some(0),
    );
    several(&rt, Op::Mul, [-3, -5, -7], Some(-105));
    wholes(
        &rt,
        Op::Sub,
        [
            Some(5),
            Some(-9),
            Some(9),
            Some(-5),
            None,
            Some(-170141183460469231731687303715884105726),
            None,
            None,
            Some(-5),
            None,
        ],
    );
    wholes(
        &rt,
        Op::Div,
        [
            Some(3),
            Some(-4),
            Some(-3),
            Some(4),
            Some(-170141183460469231731687303715884105727),
            Some(170141183460469231731687303715884105727),
            Some(-1),
            Some(-1),
            Some(0),
            Some(-1),
        ],
    );
    wholes(
        &rt,
        Op::Mod,
        [
            Some(1),
            Some(1),
            Some(1),
            Some(1),
            Some(0),
            Some(0),
            Some(0),
            Some(0),
            Some(0),
            Some(170141183460469231731687303715884105726),
        ],
    );
    wholes(
        &rt,
        Op::Le,
        [
            Some(0),
            Some(1),
            Some(0),
            Some(1),
            Some(0),
            Some(1),
            Some(1),
            Some(0),
            Some(1),
            Some(1),
        ],
    );
    wholes(
        &rt,
        Op::Lt,
        [
            Some(0),
            Some(1),
            Some(0),
            Some(1),
            Some(0),
            Some(1),
            Some(1),
            Some(0),
            Some(1),
            Some(1),
        ],
    );
}

#[test]
#[tactic(auto, unfolding(smt_terms::specs::Rank::rank, smt_terms::specs::Rank::shape))]
fn magnitudes(rt: HostRuntime) {
    row(
        &rt,
        Op::Neg,
        &[Scalar::Whole(170141183460469231731687303715884105727)],
        Scalar::Whole(-170141183460469231731687303715884105727),
    );
    row(
        &rt,
        Op::Neg,
        &[Scalar::Whole(-170141183460469231731687303715884105727)],
        Scalar::Whole(170141183460469231731687303715884105727),
    );
    row(&rt, Op::Neg, &[Scalar::Whole(7)], Scalar::Whole(-7));
    row(&rt, Op::Neg, &[Scalar::Whole(-7)], Scalar::Whole(7));
    row(&rt, Op::Neg, &[Scalar::Whole(0)], Scalar::Whole(0));
    row(
        &rt,
        Op::Abs,
        &[Scalar::Whole(170141183460469231731687303715884105727)],
        Scalar::Whole(170141183460469231731687303715884105727),
    );
    row(
        &rt,
        Op::Abs,
        &[Scalar::Whole(-170141183460469231731687303715884105727)],
        Scalar::Whole(170141183460469231731687303715884105727),
    );
    row(&rt, Op::Abs, &[Scalar::Whole(7)], Scalar::Whole(7));
    row(&rt, Op::Abs, &[Scalar::Whole(-7)], Scalar::Whole(7));
    row(&rt, Op::Abs, &[Scalar::Whole(0)], Scalar::Whole(0));
}

#[test]
#[tactic(auto, unfolding(smt_terms::specs::Rank::rank, smt_terms::specs::Rank::shape))]
fn whole_equations(rt: HostRuntime) {
    row(
        &rt,
        Op::Equal,
        &[
            Scalar::Whole(170141183460469231731687303715884105727),
            Scalar::Whole(170141183460469231731687303715884105727),
        ],
        Scalar::Truth(true),
    );
    row(
        &rt,
        Op::Distinct,
        &[
            Scalar::Whole(170141183460469231731687303715884105727),
            Scalar::Whole(170141183460469231731687303715884105727),
        ],
        Scalar::Truth(false),
    );
    row(
        &rt,
        Op::Equal,
        &[
            Scalar::Whole(-170141183460469231731687303715884105727),
            Scalar::Whole(-170141183460469231731687303715884105727),
        ],
        Scalar::Truth(true),
    );
    row(
        &rt,
        Op::Distinct,
        &[
            Scalar::Whole(-170141183460469231731687303715884105727),
            Scalar::Whole(-170141183460469231731687303715884105727),
        ],
        Scalar::Truth(false),
    );
    row(
        &rt,
        Op::Equal,
        &[
            Scalar::Whole(170141183460469231731687303715884105727),
            Scalar::Whole(-170141183460469231731687303715884105727),
        ],
        Scalar::Truth(false),
    );
    row(
        &rt,
        Op::Distinct,
        &[
            Scalar::Whole(170141183460469231731687303715884105727),
            Scalar::Whole(-170141183460469231731687303715884105727),
        ],
        Scalar::Truth(true),
    );
    row(
        &rt,
        Op::Equal,
        &[Scalar::Whole(0), Scalar::Whole(0)],
        Scalar::Truth(true),
    );
    row(
        &rt,
        Op::Distinct,
        &[Scalar::Whole(0), Scalar::Whole(0)],
        Scalar::Truth(false),
    );
}

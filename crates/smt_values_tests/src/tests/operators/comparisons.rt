//! Equations, choices and constants of every sort.

use super::{pairs, row, several};
use smt_terms::Op;
use smt_values::Scalar;

#[test]
#[tactic(auto, unfolding(smt_terms::specs::Rank::rank, smt_terms::specs::Rank::shape))]
fn equations(rt: HostRuntime) {
    pairs(
        &rt,
        Op::Equal,
        [0, 0, 0, 0, 0, 0, 0, 0],
        [0, 0, 1, 0, 0, 0],
        [0, 1, 0, 0, 0, 0],
    );
    pairs(
        &rt,
        Op::Distinct,
        [1, 1, 1, 1, 1, 1, 1, 1],
        [1, 1, 0, 1, 1, 1],
        [1, 0, 1, 1, 1, 1],
    );
    several(&rt, Op::Distinct, [1, 2, 3], Some(1));
    several(&rt, Op::Distinct, [1, 1, 2], Some(0));
    several(&rt, Op::Distinct, [1, 2, 1], Some(0));
    several(&rt, Op::Distinct, [2, 1, 1], Some(0));
    several(
        &rt,
        Op::Distinct,
        [
            0,
            170141183460469231731687303715884105727,
            -170141183460469231731687303715884105727,
        ],
        Some(1),
    );
    several(
        &rt,
        Op::Distinct,
        [
            -170141183460469231731687303715884105727,
            0,
            -170141183460469231731687303715884105727,
        ],
        Some(0),
    );
}

#[test]
#[tactic(auto, unfolding(smt_terms::specs::Rank::rank, smt_terms::specs::Rank::shape))]
fn distinct_words(rt: HostRuntime) {
    row(
        &rt,
        Op::Distinct,
        &[
            Scalar::Bits { width: 4, bits: 15 },
            Scalar::Bits { width: 4, bits: 7 },
            Scalar::Bits { width: 4, bits: 8 },
        ],
        Scalar::Truth(true),
    );
    row(
        &rt,
        Op::Distinct,
        &[
            Scalar::Bits { width: 4, bits: 8 },
            Scalar::Bits { width: 4, bits: 7 },
            Scalar::Bits { width: 4, bits: 8 },
        ],
        Scalar::Truth(false),
    );
    row(
        &rt,
        Op::Distinct,
        &[
            Scalar::Bits { width: 16, bits: 1 },
            Scalar::Bits { width: 16, bits: 1 },
            Scalar::Bits { width: 16, bits: 0 },
        ],
        Scalar::Truth(false),
    );
    row(
        &rt,
        Op::Distinct,
        &[
            Scalar::Bits {
                width: 128,
                bits: 340282366920938463463374607431768211455,
            },
            Scalar::Bits {
                width: 128,
                bits: 170141183460469231731687303715884105728,
            },
            Scalar::Bits {
                width: 128,
                bits: 170141183460469231731687303715884105727,
            },
        ],
        Scalar::Truth(true),
    );
    row(
        &rt,
        Op::Distinct,
        &[
            Scalar::Bits {
                width: 128,
                bits: 0,
            },
            Scalar::Bits {
                width: 128,
                bits: 170141183460469231731687303715884105728,
            },
            Scalar::Bits {
                width: 128,
                bits: 170141183460469231731687303715884105728,
            },
        ],
        Scalar::Truth(false),
    );
}

#[test]
#[tactic(auto, unfolding(smt_terms::specs::Rank::rank, smt_terms::specs::Rank::shape))]
fn choices(rt: HostRuntime) {
    row(
        &rt,
        Op::Ite,
        &[
            Scalar::Truth(true),
            Scalar::Whole(170141183460469231731687303715884105727),
            Scalar::Whole(-170141183460469231731687303715884105727),
        ],
        Scalar::Whole(170141183460469231731687303715884105727),
    );
    row(
        &rt,
        Op::Ite,
        &[
            Scalar::Truth(false),
            Scalar::Whole(170141183460469231731687303715884105727),
            Scalar::Whole(-170141183460469231731687303715884105727),
        ],
        Scalar::Whole(-170141183460469231731687303715884105727),
    );
    row(
        &rt,
        Op::Ite,
        &[
            Scalar::Truth(true),
            Scalar::Bits { width: 4, bits: 15 },
            Scalar::Bits { width: 4, bits: 0 },
        ],
        Scalar::Bits { width: 4, bits: 15 },
    );
    row(
        &rt,
        Op::Ite,
        &[
            Scalar::Truth(false),
            Scalar::Bits { width: 4, bits: 15 },
            Scalar::Bits { width: 4, bits: 0 },
        ],
        Scalar::Bits { width: 4, bits: 0 },
    );
    row(
        &rt,
        Op::Ite,
        &[
            Scalar::Truth(true),
            Scalar::Bits {
                width: 16,
                bits: 32768,
            },
            Scalar::Bits { width: 16, bits: 1 },
        ],
        Scalar::Bits {
            width: 16,
            bits: 32768,
        },
    );
    row(
        &rt,
        Op::Ite,
        &[
            Scalar::Truth(false),
            Scalar::Bits {
                width: 16,
                bits: 32768,
            },
            Scalar::Bits { width: 16, bits: 1 },
        ],
        Scalar::Bits { width: 16, bits: 1 },
    );
    row(
        &rt,
        Op::Ite,
        &[
            Scalar::Truth(true),
            Scalar::Bits {
                width: 128,
                bits: 340282366920938463463374607431768211455,
            },
            Scalar::Bits {
                width: 128,
                bits: 170141183460469231731687303715884105728,
            },
        ],
        Scalar::Bits {
            width: 128,
            bits: 340282366920938463463374607431768211455,
        },
    );
    row(
        &rt,
        Op::Ite,
        &[
            Scalar::Truth(false),
            Scalar::Bits {
                width: 128,
                bits: 340282366920938463463374607431768211455,
            },
            Scalar::Bits {
                width: 128,
                bits: 170141183460469231731687303715884105728,
            },
        ],
        Scalar::Bits {
            width: 128,
            bits: 170141183460469231731687303715884105728,
        },
    );
}

#[test]
#[tactic(auto, unfolding(smt_terms::specs::Rank::rank, smt_terms::specs::Rank::shape))]
fn constants(rt: HostRuntime) {
    row(&rt, Op::Truth(true), &[], Scalar::Truth(true));
    row(&rt, Op::Truth(false), &[], Scalar::Truth(false));
    row(&rt, Op::Whole(0), &[], Scalar::Whole(0));
    row(
        &rt,
        Op::Whole(170141183460469231731687303715884105727),
        &[],
        Scalar::Whole(170141183460469231731687303715884105727),
    );
    row(
        &rt,
        Op::Whole(-170141183460469231731687303715884105727),
        &[],
        Scalar::Whole(-170141183460469231731687303715884105727),
    );
    row(
        &rt,
        Op::Bits { width: 1, bits: 1 },
        &[],
        Scalar::Bits { width: 1, bits: 1 },
    );
    row(
        &rt,
        Op::Bits { width: 4, bits: 15 },
        &[],
        Scalar::Bits { width: 4, bits: 15 },
    );
    row(
        &rt,
        Op::Bits {
            width: 16,
            bits: 32768,
        },
        &[],
        Scalar::Bits {
            width: 16,
            bits: 32768,
        },
    );
    row(
        &rt,
        Op::Bits {
            width: 128,
            bits: 0,
        },
        &[],
        Scalar::Bits {
            width: 128,
            bits: 0,
        },
    );
    row(
        &rt,
        Op::Bits {
            width: 128,
            bits: 170141183460469231731687303715884105728,
        },
        &[],
        Scalar::Bits {
            width: 128,
            bits: 170141183460469231731687303715884105728,
        },
    );
    row(
        &rt,
        Op::Bits {
            width: 128,
            bits: 340282366920938463463374607431768211455,
        },
        &[],
        Scalar::Bits {
            width: 128,
            bits: 340282366920938463463374607431768211455,
        },
    );
}

//! Operators over truth values.

use super::{row, truth_pairs, truth_triples};
use smt_terms::Op;
use smt_values::Scalar;

#[test]
#[tactic(auto, unfolding(smt_terms::specs::Rank::rank, smt_terms::specs::Rank::shape))]
fn truth_values(rt: HostRuntime) {
    row(&rt, Op::Not, &[Scalar::Truth(false)], Scalar::Truth(true));
    row(&rt, Op::Not, &[Scalar::Truth(true)], Scalar::Truth(false));
    truth_pairs(&rt, Op::And, [false, false, false, true]);
    truth_pairs(&rt, Op::Or, [false, true, true, true]);
    truth_pairs(&rt, Op::Xor, [false, true, true, false]);
    truth_pairs(&rt, Op::Implies, [true, true, false, true]);
    truth_pairs(&rt, Op::Equal, [true, false, false, true]);
    truth_pairs(&rt, Op::Distinct, [false, true, true, false]);
}

#[test]
#[tactic(auto, unfolding(smt_terms::specs::Rank::rank, smt_terms::specs::Rank::shape))]
fn truth_choices(rt: HostRuntime) {
    truth_triples(
        &rt,
        Op::And,
        [false, false, false, false, false, false, false, true],
    );
    truth_triples(
        &rt,
        Op::Or,
        [false, true, true, true, true, true, true, true],
    );
    truth_triples(
        &rt,
        Op::Distinct,
        [false, false, false, false, false, false, false, false],
    );
    truth_triples(
        &rt,
        Op::Ite,
        [false, true, false, true, false, false, true, true],
    );
}

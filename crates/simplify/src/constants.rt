//! Constants: which one a node is.

ghost use Rattle.std.specs.Prelude.{◌≡◌, ◌+◌, ◌≤◌, ◌^◌, Some, IfSome, option_map};
ghost use Rattle.smt_terms.specs.Constants.{constant_value};
ghost use Rattle.smt_terms.specs.Rank.{sort_of};
ghost use Rattle.smt_values.specs.Meaning.{scalar_value, scalar_sort, IsScalar};
ghost use Rattle.term_table.specs.Formulas.{tree, IsNode};
ghost use Rattle.simplify.specs.Folding as plain;

use smt_terms::NodeId;
use smt_values::{Op, Scalar};
use term_table::Table;

/// The constant that a node is; None for another term.
#[tactic(auto, unfolding(term_table::specs::Formulas::kind))]
pub(crate) fn constant(table: &Table, id: NodeId) -> Option<Scalar>
    requires { IsNode table.now id }
    ensures value { option_map scalar_value result ≡ constant_value (tree table.now id) }
    ensures scalar { IfSome result IsScalar }
    ensures sort { IfSome result (λ s. sort_of (tree table.now id) ≡ Some (scalar_sort s)) }
{
    match table.op(id) {
        Op::Truth(truth) => Some(Scalar::Truth(truth)),
        Op::Whole(n) => Some(Scalar::Whole(n)),
        Op::Bits { width, bits } => Some(Scalar::Bits { width, bits }),
        _ => None,
    }
}

/// Whether a node is `true`, or `false`.
#[tactic(auto, unfolding(term_table::specs::Formulas::kind))]
pub(crate) fn is_truth(table: &Table, id: NodeId, value: bool) -> bool
    requires { IsNode table.now id }
    ensures { result ≡ plain.is_truth value (tree table.now id) }
{
    match table.op(id) {
        Op::Truth(truth) => truth == value,
        _ => false,
    }
}

/// Whether a node is this whole number.
#[tactic(auto, unfolding(term_table::specs::Formulas::kind))]
pub(crate) fn is_whole(table: &Table, id: NodeId, n: i128) -> bool
    requires { IsNode table.now id }
    ensures { result ≡ plain.is_whole n (tree table.now id) }
{
    match table.op(id) {
        Op::Whole(m) => m == n,
        _ => false,
    }
}

/// Whether a node is a bit vector of this number, of any width.
#[tactic(auto, unfolding(term_table::specs::Formulas::kind))]
pub(crate) fn is_bits(table: &Table, id: NodeId, n: u128) -> bool
    requires { IsNode table.now id }
    ensures { result ≡ plain.is_bits n (tree table.now id) }
{
    match table.op(id) {
        Op::Bits { bits, .. } => bits == n,
        _ => false,
    }
}

/// The number of so many ones.
pub(crate) fn all_ones(width: u32) -> u128
    requires some { 1 ≤ width }
    requires most { width ≤ 128 }
    ensures { result + 1 ≡ 2 ^ width }
{
    u128::MAX >> (128 - width)
}

/// Whether a node is a bit vector of ones alone.
#[tactic(auto, unfolding(term_table::specs::Formulas::kind))]
pub(crate) fn is_ones(table: &Table, id: NodeId) -> bool
    requires { IsNode table.now id }
    ensures { result ≡ plain.is_ones (tree table.now id) }
{
    match table.op(id) {
        Op::Bits { width, bits } => bits == all_ones(width),
        _ => false,
    }
}

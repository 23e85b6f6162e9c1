//! Division of numbers in two's complement, by their magnitudes and signs.

ghost use Rattle.std.specs.Prelude.{◌≡◌, ◌<◌, ◌∷◌, [], false, map, length, All, IfOk, Ok};
ghost use Rattle.smt_terms.specs.Sorts.{bool};
ghost use Rattle.smt_terms.specs.Term.{op as operator};
ghost use Rattle.smt_terms.specs.Rank.{rank};
ghost use Rattle.bit_blast.specs.BitNodes.{AreBits, AreDivided, gate_op};
ghost use Rattle.bit_blast.specs.Blasted.{term_gates};
ghost use Rattle.bit_blast.specs.Circuits as plain;
ghost use Rattle.bit_blast.specs.Signs.{by_signs};
ghost use Rattle.normal_forms.specs.Nodes.{IsFormula};
ghost use Rattle.term_table.specs.Formulas.{tree, trees_at};
ghost use Rattle.term_walk.specs.Walking.{GrowsTo};

use crate::division::{quotient, remainder};
use crate::gates::{Gate, choices, pair, repeated};
use crate::orders::{equal, top};
use crate::sums::{opposite, sum};
use normal_forms::making::{negation, truth};
use smt_terms::NodeId;
use std::alloc::{AllocError, Global};
use term_table::Table;

/// The opposite of a number where this bit is set, and else the number itself.
fn with_sign(
    alloc: Global,
    table: &mut Table,
    sign: NodeId,
    a: &[NodeId],
) -> Result<Vec<NodeId>, AllocError>
    requires sign { IsFormula table.old sign }
    requires a { All (IsFormula table.old) a.now }
    ensures bits { IfOk result (λ ks. AreBits table.new ks.items (plain.chosen term_gates (tree table.old sign) (plain.opposite term_gates (trees_at table.old a.now)) (trees_at table.old a.now))) }
    ensures grows { GrowsTo table.old table.new }
    ensures symbols { table.new.symbols ≡ table.old.symbols }
    ensures sorts { table.new.sorts ≡ table.old.sorts }
{
    let turned = opposite(alloc, table, a)?;
    choices(alloc, table, sign, &turned, a)
}

/// The magnitude of a number.
fn absolute(alloc: Global, table: &mut Table, a: &[NodeId]) -> Result<Vec<NodeId>, AllocError>
    requires a { All (IsFormula table.old) a.now }
    ensures bits { IfOk result (λ ks. AreBits table.new ks.items (plain.absolute term_gates (trees_at table.old a.now))) }
    ensures grows { GrowsTo table.old table.new }
    ensures symbols { table.new.symbols ≡ table.old.symbols }
    ensures sorts { table.new.sorts ≡ table.old.sorts }
{
    let sign = top(table, a)?;
    with_sign(alloc, table, sign, a)
}

/// The quotient of the magnitudes of two numbers.
fn quotient_of_magnitudes(
    alloc: Global,
    table: &mut Table,
    a: &[NodeId],
    b: &[NodeId],
) -> Result<Vec<NodeId>, AllocError>
    requires a { All (IsFormula table.old) a.now }
    requires b { All (IsFormula table.old) b.now }
    requires same { length a.now ≡ length b.now }
    ensures bits { IfOk result (λ ks. AreBits table.new ks.items (plain.quotient term_gates (plain.absolute term_gates (trees_at table.old a.now)) (plain.absolute term_gates (trees_at table.old b.now)))) }
    ensures grows { GrowsTo table.old table.new }
    ensures symbols { table.new.symbols ≡ table.old.symbols }
    ensures sorts { table.new.sorts ≡ table.old.sorts }
{
    let dividend = absolute(alloc, table, a)?;
    let divisor = absolute(alloc, table, b)?;
    quotient(alloc, table, &dividend, &divisor)
}

/// The remainder of the magnitudes of two numbers.
fn remainder_of_magnitudes(
    alloc: Global,
    table: &mut Table,
    a: &[NodeId],
    b: &[NodeId],
) -> Result<Vec<NodeId>, AllocError>
    requires a { All (IsFormula table.old) a.now }
    requires b { All (IsFormula table.old) b.now }
    requires same { length a.now ≡ length b.now }
    ensures bits { IfOk result (λ ks. AreBits table.new ks.items (plain.remainder term_gates (plain.absolute term_gates (trees_at table.old a.now)) (plain.absolute term_gates (trees_at table.old b.now)))) }
    ensures grows { GrowsTo table.old table.new }
    ensures symbols { table.new.symbols ≡ table.old.symbols }
    ensures sorts { table.new.sorts ≡ table.old.sorts }
{
    let dividend = absolute(alloc, table, a)?;
    let divisor = absolute(alloc, table, b)?;
    remainder(alloc, table, &dividend, &divisor)
}

/// Whether a number is zero.
fn is_zero(alloc: Global, table: &mut Table, a: &[NodeId]) -> Result<NodeId, AllocError>
    requires a { All (IsFormula table.old) a.now }
    requires some { 0 < length a.now }
    ensures formula { IfOk result (IsFormula table.new) }
    ensures term { IfOk result (λ k. tree table.new k ≡ plain.is_zero term_gates (trees_at table.old a.now)) }
    ensures grows { GrowsTo table.old table.new }
    ensures symbols { table.new.symbols ≡ table.old.symbols }
    ensures sorts { table.new.sorts ≡ table.old.sorts }
{
    let none = truth(table, false)?;
    let zero = repeated(alloc, none, a.len())?;
    equal(alloc, table, a, &zero)
}

/// The first number where both bits are set, and else the second.
fn where_both(
    alloc: Global,
    table: &mut Table,
    s: NodeId,
    t: NodeId,
    a: &[NodeId],
    b: &[NodeId],
) -> Result<Vec<NodeId>, AllocError>
    requires s { IsFormula table.old s }
    requires t { IsFormula table.old t }
    requires a { All (IsFormula table.old) a.now }
    requires b { All (IsFormula table.old) b.now }
    requires same { length a.now ≡ length b.now }
    ensures bits { IfOk result (λ ks. AreBits table.new ks.items (plain.chosen term_gates (plain.both term_gates (tree table.old s) (tree table.old t)) (trees_at table.old a.now) (trees_at table.old b.now))) }
    ensures grows { GrowsTo table.old table.new }
    ensures symbols { table.new.symbols ≡ table.old.symbols }
    ensures sorts { table.new.sorts ≡ table.old.sorts }
{
    let both = pair(table, Gate::Both, s, t)?;
    choices(alloc, table, both, a, b)
}

/// The sum of two numbers where both bits are set, and else another number.
fn sum_where_both(
    alloc: Global,
    table: &mut Table,
    s: NodeId,
    t: NodeId,
    a: &[NodeId],
    b: &[NodeId],
    other: &[NodeId],
) -> Result<Vec<NodeId>, AllocError>
    requires s { IsFormula table.old s }
    requires t { IsFormula table.old t }
    requires a { All (IsFormula table.old) a.now }
    requires b { All (IsFormula table.old) b.now }
    requires other { All (IsFormula table.old) other.now }
    requires same { length a.now ≡ length b.now }
    requires as_wide { length a.now ≡ length other.now }
    ensures bits { IfOk result (λ ks. AreBits table.new ks.items (plain.chosen term_gates (plain.both term_gates (tree table.old s) (tree table.old t)) (plain.sum term_gates (trees_at table.old a.now) (trees_at table.old b.now)) (trees_at table.old other.now))) }
    ensures grows { GrowsTo table.old table.new }
    ensures symbols { table.new.symbols ≡ table.old.symbols }
    ensures sorts { table.new.sorts ≡ table.old.sorts }
{
    let total = sum(alloc, table, a, b)?;
    where_both(alloc, table, s, t, &total, other)
}

/// A modulus by b that is not zero, with b's sign: of the remainder u of the magnitudes and of its opposite, by the signs s of the
/// dividend and t of b.
fn by_signs(
    alloc: Global,
    table: &mut Table,
    s: NodeId,
    t: NodeId,
    u: &[NodeId],
    turned: &[NodeId],
    b: &[NodeId],
) -> Result<Vec<NodeId>, AllocError>
    requires s { IsFormula table.old s }
    requires t { IsFormula table.old t }
    requires u { All (IsFormula table.old) u.now }
    requires turned { All (IsFormula table.old) turned.now }
    requires b { All (IsFormula table.old) b.now }
    requires same { length u.now ≡ length b.now }
    requires as_wide { length turned.now ≡ length b.now }
    ensures bits { IfOk result (λ ks. AreBits table.new ks.items (by_signs (tree table.old s) (tree table.old t) (trees_at table.old u.now) (trees_at table.old turned.now) (trees_at table.old b.now))) }
    ensures grows { GrowsTo table.old table.new }
    ensures symbols { table.new.symbols ≡ table.old.symbols }
    ensures sorts { table.new.sorts ≡ table.old.sorts }
{
    let not_s = negation(table, s)?;
    let not_t = negation(table, t)?;
    let first = sum_where_both(alloc, table, not_s, t, u, b, turned)?;
    let second = sum_where_both(alloc, table, s, not_t, turned, b, &first)?;
    where_both(alloc, table, not_s, not_t, u, &second)
}

/// The modulus by b, with b's sign: of the remainder u of the magnitudes, by the signs s of the dividend and t of b.
fn floored(
    alloc: Global,
    table: &mut Table,
    s: NodeId,
    t: NodeId,
    u: &[NodeId],
    b: &[NodeId],
) -> Result<Vec<NodeId>, AllocError>
    requires s { IsFormula table.old s }
    requires t { IsFormula table.old t }
    requires u { All (IsFormula table.old) u.now }
    requires b { All (IsFormula table.old) b.now }
    requires same { length u.now ≡ length b.now }
    requires some { 0 < length u.now }
    ensures bits { IfOk result (λ ks. AreBits table.new ks.items (plain.floored term_gates (tree table.old s) (tree table.old t) (trees_at table.old u.now) (trees_at table.old b.now))) }
    ensures grows { GrowsTo table.old table.new }
    ensures symbols { table.new.symbols ≡ table.old.symbols }
    ensures sorts { table.new.sorts ≡ table.old.sorts }
{
    let turned = opposite(alloc, table, u)?;
    let signed = by_signs(alloc, table, s, t, u, &turned, b)?;
    let zero = is_zero(alloc, table, u)?;
    choices(alloc, table, zero, u, &signed)
}

/// Whether the signs of two numbers differ.
fn signs_differ(table: &mut Table, a: &[NodeId], b: &[NodeId]) -> Result<NodeId, AllocError>
    requires a { All (IsFormula table.old) a.now }
    requires b { All (IsFormula table.old) b.now }
    ensures formula { IfOk result (IsFormula table.new) }
    ensures term { IfOk result (λ k. tree table.new k ≡ plain.differ term_gates (plain.top term_gates (trees_at table.old a.now)) (plain.top term_gates (trees_at table.old b.now))) }
    ensures grows { GrowsTo table.old table.new }
    ensures symbols { table.new.symbols ≡ table.old.symbols }
    ensures sorts { table.new.sorts ≡ table.old.sorts }
{
    let s = top(table, a)?;
    let t = top(table, b)?;
    pair(table, Gate::Differ, s, t)
}

/// `bvsdiv`.
pub(crate) fn signed_quotient(
    alloc: Global,
    table: &mut Table,
    a: &[NodeId],
    b: &[NodeId],
) -> Result<Vec<NodeId>, AllocError>
    requires a { All (IsFormula table.old) a.now }
    requires b { All (IsFormula table.old) b.now }
    requires same { length a.now ≡ length b.now }
    requires some { 0 < length a.now }
    ensures bits { IfOk result (λ ks. AreBits table.new ks.items (plain.signed_quotient term_gates (trees_at table.old a.now) (trees_at table.old b.now))) }
    ensures grows { GrowsTo table.old table.new }
    ensures symbols { table.new.symbols ≡ table.old.symbols }
    ensures sorts { table.new.sorts ≡ table.old.sorts }
{
    let u = quotient_of_magnitudes(alloc, table, a, b)?;
    let sign = signs_differ(table, a, b)?;
    with_sign(alloc, table, sign, &u)
}

/// `bvsrem`.
pub(crate) fn signed_remainder(
    alloc: Global,
    table: &mut Table,
    a: &[NodeId],
    b: &[NodeId],
) -> Result<Vec<NodeId>, AllocError>
    requires a { All (IsFormula table.old) a.now }
    requires b { All (IsFormula table.old) b.now }
    requires same { length a.now ≡ length b.now }
    requires some { 0 < length a.now }
    ensures bits { IfOk result (λ ks. AreBits table.new ks.items (plain.signed_remainder term_gates (trees_at table.old a.now) (trees_at table.old b.now))) }
    ensures grows { GrowsTo table.old table.new }
    ensures symbols { table.new.symbols ≡ table.old.symbols }
    ensures sorts { table.new.sorts ≡ table.old.sorts }
{
    let u = remainder_of_magnitudes(alloc, table, a, b)?;
    let sign = top(table, a)?;
    with_sign(alloc, table, sign, &u)
}

/// `bvsmod`.
pub(crate) fn signed_modulus(
    alloc: Global,
    table: &mut Table,
    a: &[NodeId],
    b: &[NodeId],
) -> Result<Vec<NodeId>, AllocError>
    requires a { All (IsFormula table.old) a.now }
    requires b { All (IsFormula table.old) b.now }
    requires same { length a.now ≡ length b.now }
    requires some { 0 < length a.now }
    ensures bits { IfOk result (λ ks. AreBits table.new ks.items (plain.signed_modulus term_gates (trees_at table.old a.now) (trees_at table.old b.now))) }
    ensures grows { GrowsTo table.old table.new }
    ensures symbols { table.new.symbols ≡ table.old.symbols }
    ensures sorts { table.new.sorts ≡ table.old.sorts }
{
    let u = remainder_of_magnitudes(alloc, table, a, b)?;
    let s = top(table, a)?;
    let t = top(table, b)?;
    floored(alloc, table, s, t, &u, b)
}

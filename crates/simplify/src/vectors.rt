//! The laws of the operators on bit vectors, over operands that are simplified already.

ghost use Rattle.std.specs.Prelude.{◌≡◌, ◌≤◌, IfOk};
ghost use Rattle.smt_terms.specs.declared.op.Op.TheVariants.{BvAnd, BvOr, BvXor, BvAdd, BvMul, BvSub, BvUdiv, BvUrem, BvComp, Extract};
ghost use Rattle.term_table.specs.Formulas.{tree, trees_at, Makes};
ghost use Rattle.term_walk.specs.Walking.{GrowsTo};
ghost use Rattle.simplify.specs.Folding.{one, two};
ghost use Rattle.simplify.specs.NodesOfSorts.{IsVector};
ghost use Rattle.simplify.specs.Reduced.{Names, Answers};
ghost use Rattle.simplify.specs.Vectors as vectors;

use crate::constants::{all_ones, is_bits, is_ones};
use normal_forms::comparing::are_same;
use normal_forms::literals::node_of;
use smt_terms::NodeId;
use smt_values::{Op, Scalar};
use std::alloc::AllocError;
use term_table::Table;

// The width of a bit vector.
fn width_of(table: &Table, id: NodeId) -> u32
    requires { IsVector table.now id }
    ensures width { result ≡ vectors.width_of (tree table.now id) }
    ensures some { 1 ≤ result }
    ensures most { result ≤ 128 }
{
    table.sort_of(id).width().unwrap()
}

// Zero, of the width of a bit vector.
fn zero_like(table: &mut Table, id: NodeId) -> Result<NodeId, AllocError>
    requires { IsVector table.old id }
    ensures zero { IfOk result (Names table.new (vectors.zero_like (tree table.old id))) }
    ensures grows { GrowsTo table.old table.new }
    ensures symbols { table.new.symbols ≡ table.old.symbols }
    ensures sorts { table.new.sorts ≡ table.old.sorts }
{
    let width = width_of(table, id);
    node_of(table, Scalar::Bits { width, bits: 0 })
}

// All ones, of the width of a bit vector.
fn ones_like(table: &mut Table, id: NodeId) -> Result<NodeId, AllocError>
    requires { IsVector table.old id }
    ensures ones { IfOk result (Names table.new (vectors.ones_like (tree table.old id))) }
    ensures grows { GrowsTo table.old table.new }
    ensures symbols { table.new.symbols ≡ table.old.symbols }
    ensures sorts { table.new.sorts ≡ table.old.sorts }
{
    let width = width_of(table, id);
    let bits = all_ones(width);
    node_of(table, Scalar::Bits { width, bits })
}

/// The law of `bvand`.
pub(crate) fn bit_and(table: &Table, ids: &[NodeId]) -> Option<NodeId>
    requires { Makes table.now BvAnd ids.now }
    ensures { Answers table.now (two vectors.bit_and (trees_at table.now ids.now)) result }
{
    let [a, b] = *ids else { return None };
    if is_bits(table, a, 0) {
        return Some(a);
    }
    if is_bits(table, b, 0) {
        return Some(b);
    }
    if is_ones(table, a) {
        return Some(b);
    }
    if is_ones(table, b) {
        return Some(a);
    }
    if are_same(table, a, b) {
        return Some(a);
    }
    None
}

/// The law of `bvor`.
pub(crate) fn bit_or(table: &Table, ids: &[NodeId]) -> Option<NodeId>
    requires { Makes table.now BvOr ids.now }
    ensures { Answers table.now (two vectors.bit_or (trees_at table.now ids.now)) result }
{
    let [a, b] = *ids else { return None };
    if is_ones(table, a) {
        return Some(a);
    }
    if is_ones(table, b) {
        return Some(b);
    }
    if is_bits(table, a, 0) {
        return Some(b);
    }
    if is_bits(table, b, 0) {
        return Some(a);
    }
    if are_same(table, a, b) {
        return Some(a);
    }
    None
}

/// The law of `bvxor`.
pub(crate) fn bit_exclusive(table: &mut Table, ids: &[NodeId]) -> Result<Option<NodeId>, AllocError>
    requires { Makes table.old BvXor ids.now }
    ensures found { IfOk result (Answers table.new (two vectors.bit_exclusive (trees_at table.old ids.now))) }
    ensures grows { GrowsTo table.old table.new }
    ensures symbols { table.new.symbols ≡ table.old.symbols }
    ensures sorts { table.new.sorts ≡ table.old.sorts }
{
    let [a, b] = *ids else { return Ok(None) };
    if are_same(table, a, b) {
        let zero = zero_like(table, a)?;
        return Ok(Some(zero));
    }
    if is_bits(table, a, 0) {
        return Ok(Some(b));
    }
    if is_bits(table, b, 0) {
        return Ok(Some(a));
    }
    Ok(None)
}

/// The law of `bvadd`.
pub(crate) fn addition(table: &Table, ids: &[NodeId]) -> Option<NodeId>
    requires { Makes table.now BvAdd ids.now }
    ensures { Answers table.now (two vectors.addition (trees_at table.now ids.now)) result }
{
    let [a, b] = *ids else { return None };
    if is_bits(table, a, 0) {
        return Some(b);
    }
    if is_bits(table, b, 0) {
        return Some(a);
    }
    None
}

/// The law of `bvsub`.
pub(crate) fn subtraction(table: &mut Table, ids: &[NodeId]) -> Result<Option<NodeId>, AllocError>
    requires { Makes table.old BvSub ids.now }
    ensures found { IfOk result (Answers table.new (two vectors.subtraction (trees_at table.old ids.now))) }
    ensures grows { GrowsTo table.old table.new }
    ensures symbols { table.new.symbols ≡ table.old.symbols }
    ensures sorts { table.new.sorts ≡ table.old.sorts }
{
    let [a, b] = *ids else { return Ok(None) };
    if is_bits(table, b, 0) {
        return Ok(Some(a));
    }
    if are_same(table, a, b) {
        let zero = zero_like(table, a)?;
        return Ok(Some(zero));
    }
    Ok(None)
}

/// The law of `bvmul`.
pub(crate) fn multiplication(table: &Table, ids: &[NodeId]) -> Option<NodeId>
    requires { Makes table.now BvMul ids.now }
    ensures { Answers table.now (two vectors.multiplication (trees_at table.now ids.now)) result }
{
    let [a, b] = *ids else { return None };
    if is_bits(table, a, 0) {
        return Some(a);
    }
    if is_bits(table, b, 0) {
        return Some(b);
    }
    if is_bits(table, a, 1) {
        return Some(b);
    }
    if is_bits(table, b, 1) {
        return Some(a);
    }
    None
}

/// The law of `bvudiv`.
pub(crate) fn division(table: &mut Table, ids: &[NodeId]) -> Result<Option<NodeId>, AllocError>
    requires { Makes table.old BvUdiv ids.now }
    ensures found { IfOk result (Answers table.new (two vectors.division (trees_at table.old ids.now))) }
    ensures grows { GrowsTo table.old table.new }
    ensures symbols { table.new.symbols ≡ table.old.symbols }
    ensures sorts { table.new.sorts ≡ table.old.sorts }
{
    let [a, b] = *ids else { return Ok(None) };
    if is_bits(table, b, 0) {
        let ones = ones_like(table, b)?;
        return Ok(Some(ones));
    }
    if is_bits(table, b, 1) {
        return Ok(Some(a));
    }
    Ok(None)
}

/// The law of `bvurem`.
pub(crate) fn remainder(table: &mut Table, ids: &[NodeId]) -> Result<Option<NodeId>, AllocError>
    requires { Makes table.old BvUrem ids.now }
    ensures found { IfOk result (Answers table.new (two vectors.remainder (trees_at table.old ids.now))) }
    ensures grows { GrowsTo table.old table.new }
    ensures symbols { table.new.symbols ≡ table.old.symbols }
    ensures sorts { table.new.sorts ≡ table.old.sorts }
{
    let [a, b] = *ids else { return Ok(None) };
    if is_bits(table, b, 0) {
        return Ok(Some(a));
    }
    if is_bits(table, b, 1) {
        let zero = zero_like(table, b)?;
        return Ok(Some(zero));
    }
    Ok(None)
}

/// The law of the shifts.
pub(crate) fn shift(table: &Table, _op: Op, ids: &[NodeId]) -> Option<NodeId>
    requires { Makes table.now _op ids.now }
    ensures { Answers table.now (two vectors.shift (trees_at table.now ids.now)) result }
{
    let [a, b] = *ids else { return None };
    if is_bits(table, b, 0) {
        return Some(a);
    }
    None
}

/// The law of `bvcomp`.
pub(crate) fn comparison(table: &mut Table, ids: &[NodeId]) -> Result<Option<NodeId>, AllocError>
    requires { Makes table.old BvComp ids.now }
    ensures found { IfOk result (Answers table.new (two vectors.comparison (trees_at table.old ids.now))) }
    ensures grows { GrowsTo table.old table.new }
    ensures symbols { table.new.symbols ≡ table.old.symbols }
    ensures sorts { table.new.sorts ≡ table.old.sorts }
{
    let [a, b] = *ids else { return Ok(None) };
    if are_same(table, a, b) {
        let one = node_of(table, Scalar::Bits { width: 1, bits: 1 })?;
        return Ok(Some(one));
    }
    Ok(None)
}

/// The law of `extract`, from the high to the low place.
pub(crate) fn extraction(table: &Table, high: u32, low: u32, ids: &[NodeId]) -> Option<NodeId>
    requires { Makes table.now (Extract high low) ids.now }
    ensures { Answers table.now (one (vectors.extraction high low) (trees_at table.now ids.now)) result }
{
    let [a] = *ids else { return None };
    if low == 0 && width_of(table, a) == high + 1 {
        return Some(a);
    }
    None
}

/// The law of the extensions and the rotations, by so many bits.
pub(crate) fn movement(table: &Table, _op: Op, by: u32, ids: &[NodeId]) -> Option<NodeId>
    requires { Makes table.now _op ids.now }
    ensures { Answers table.now (one (vectors.movement by) (trees_at table.now ids.now)) result }
{
    let [a] = *ids else { return None };
    if by == 0 {
        return Some(a);
    }
    None
}

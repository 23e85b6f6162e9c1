//! Shifts: for each bit k of the distance, from the lowest on, the vector moved by 2^k places where the bit is set, and else as it
//! was. Bits that leave at one end are lost, and others come in.

ghost use Rattle.std.specs.Prelude.{◌≡◌, ◌<◌, ◌∷◌, [], false, map, length, All, IfOk, Ok};
ghost use Rattle.smt_terms.specs.Sorts.{bool};
ghost use Rattle.smt_terms.specs.Term.{op as operator};
ghost use Rattle.smt_terms.specs.Rank.{rank};
ghost use Rattle.bit_blast.specs.BitNodes.{AreBits, AreDivided, gate_op};
ghost use Rattle.bit_blast.specs.Blasted.{term_gates};
ghost use Rattle.bit_blast.specs.Circuits as plain;
ghost use Rattle.bit_blast.specs.ShiftWays.{moved};
ghost use Rattle.normal_forms.specs.Nodes.{IsFormula};
ghost use Rattle.term_table.specs.Formulas.{tree, trees_at};
ghost use Rattle.term_walk.specs.Walking.{GrowsTo};

use crate::gates::{choices, repeated};
use crate::orders::top;
use normal_forms::making::truth;
use smt_terms::NodeId;
use std::alloc::{AllocError, Global};
use term_table::Table;

/// The vector moved toward its highest bit by n places, with this bit coming in.
pub(crate) fn up(
    alloc: Global,
    bit: NodeId,
    n: usize,
    a: &[NodeId],
) -> Result<Vec<NodeId>, AllocError>
    ensures { IfOk result (λ ks. ks.items ≡ plain.up bit n a.now) }
{
    let places = n.min(a.len());
    let mut moved = repeated(alloc, bit, places)?;
    moved.extend_from_slice(&a[..a.len() - places])?;
    Ok(moved)
}

/// The vector moved toward its lowest bit by n places, with this bit coming in.
pub(crate) fn down(
    alloc: Global,
    bit: NodeId,
    n: usize,
    a: &[NodeId],
) -> Result<Vec<NodeId>, AllocError>
    ensures { IfOk result (λ ks. ks.items ≡ plain.down bit n a.now) }
{
    let places = n.min(a.len());
    let coming = repeated(alloc, bit, places)?;
    let mut moved = Vec::from_slice(alloc, &a[places..])?;
    moved.extend_from_slice(&coming)?;
    Ok(moved)
}

/// Which way a shift moves.
#[derive(Clone, Copy)]
enum Way {
    /// Toward the highest bit.
    Up,
    /// Toward the lowest bit.
    Down,
}

/// The vector moved this way by n places, with this bit coming in.
fn moved(
    alloc: Global,
    way: Way,
    bit: NodeId,
    n: usize,
    a: &[NodeId],
) -> Result<Vec<NodeId>, AllocError>
    ensures { IfOk result (λ ks. ks.items ≡ moved way bit n a.now) }
{
    match way {
        Way::Up => up(alloc, bit, n, a),
        Way::Down => down(alloc, bit, n, a),
    }
}

/// The vector shifted this way by a distance, with this bit coming in. All distances of the width or more are one: where twice as
/// far is too far to count, the greatest number does.
fn shifted(
    alloc: Global,
    table: &mut Table,
    way: Way,
    bit: NodeId,
    a: &[NodeId],
    b: &[NodeId],
) -> Result<Vec<NodeId>, AllocError>
    requires bit { IsFormula table.old bit }
    requires a { All (IsFormula table.old) a.now }
    requires b { All (IsFormula table.old) b.now }
    ensures bits { IfOk result (λ ks. AreBits table.new ks.items (plain.shifted term_gates (moved way (tree table.old bit)) 0 (trees_at table.old b.now) (trees_at table.old a.now))) }
    ensures grows { GrowsTo table.old table.new }
    ensures symbols { table.new.symbols ≡ table.old.symbols }
    ensures sorts { table.new.sorts ≡ table.old.sorts }
{
    let mut bits = Vec::from_slice(alloc, a)?;
    let mut distance: usize = 1;
    for moves in b {
        let far = moved(alloc, way, bit, distance, &bits)?;
        bits = choices(alloc, table, *moves, &far, &bits)?;
        distance = distance.saturating_mul(2);
    }
    Ok(bits)
}

/// `bvshl`.
pub(crate) fn shift_left(
    alloc: Global,
    table: &mut Table,
    a: &[NodeId],
    b: &[NodeId],
) -> Result<Vec<NodeId>, AllocError>
    requires a { All (IsFormula table.old) a.now }
    requires b { All (IsFormula table.old) b.now }
    requires same { length a.now ≡ length b.now }
    ensures bits { IfOk result (λ ks. AreBits table.new ks.items (plain.shifted term_gates (plain.up (plain.constant term_gates false)) 0 (trees_at table.old b.now) (trees_at table.old a.now))) }
    ensures grows { GrowsTo table.old table.new }
    ensures symbols { table.new.symbols ≡ table.old.symbols }
    ensures sorts { table.new.sorts ≡ table.old.sorts }
{
    let bit = truth(table, false)?;
    shifted(alloc, table, Way::Up, bit, a, b)
}

/// `bvlshr`.
pub(crate) fn shift_right(
    alloc: Global,
    table: &mut Table,
    a: &[NodeId],
    b: &[NodeId],
) -> Result<Vec<NodeId>, AllocError>
    requires a { All (IsFormula table.old) a.now }
    requires b { All (IsFormula table.old) b.now }
    requires same { length a.now ≡ length b.now }
    ensures bits { IfOk result (λ ks. AreBits table.new ks.items (plain.shifted term_gates (plain.down (plain.constant term_gates false)) 0 (trees_at table.old b.now) (trees_at table.old a.now))) }
    ensures grows { GrowsTo table.old table.new }
    ensures symbols { table.new.symbols ≡ table.old.symbols }
    ensures sorts { table.new.sorts ≡ table.old.sorts }
{
    let bit = truth(table, false)?;
    shifted(alloc, table, Way::Down, bit, a, b)
}

/// `bvashr`.
pub(crate) fn signed_shift_right(
    alloc: Global,
    table: &mut Table,
    a: &[NodeId],
    b: &[NodeId],
) -> Result<Vec<NodeId>, AllocError>
    requires a { All (IsFormula table.old) a.now }
    requires b { All (IsFormula table.old) b.now }
    requires same { length a.now ≡ length b.now }
    ensures bits { IfOk result (λ ks. AreBits table.new ks.items (plain.shifted term_gates (plain.down (plain.top term_gates (trees_at table.old a.now))) 0 (trees_at table.old b.now) (trees_at table.old a.now))) }
    ensures grows { GrowsTo table.old table.new }
    ensures symbols { table.new.symbols ≡ table.old.symbols }
    ensures sorts { table.new.sorts ≡ table.old.sorts }
{
    let bit = top(table, a)?;
    shifted(alloc, table, Way::Down, bit, a, b)
}

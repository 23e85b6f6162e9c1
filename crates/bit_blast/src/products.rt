//! Products: the sum, over the bits b_i, of a moved up by i places, each bit of it in an `and` with b_i.

ghost use Rattle.std.specs.Prelude.{◌≡◌, ◌<◌, ◌∷◌, [], false, map, length, All, IfOk, Ok};
ghost use Rattle.smt_terms.specs.Sorts.{bool};
ghost use Rattle.smt_terms.specs.Term.{op as operator};
ghost use Rattle.smt_terms.specs.Rank.{rank};
ghost use Rattle.bit_blast.specs.BitNodes.{AreBits, AreDivided, gate_op};
ghost use Rattle.bit_blast.specs.Blasted.{term_gates};
ghost use Rattle.bit_blast.specs.Circuits as plain;
ghost use Rattle.normal_forms.specs.Nodes.{IsFormula};
ghost use Rattle.term_table.specs.Formulas.{tree, trees_at};
ghost use Rattle.term_walk.specs.Walking.{GrowsTo};

use crate::gates::{Gate, pairs, repeated};
use crate::shifts::up;
use crate::sums::sum;
use normal_forms::making::truth;
use smt_terms::NodeId;
use std::alloc::{AllocError, Global};
use term_table::Table;

/// Each bit of a row in an `and` with this bit.
fn row_where(
    alloc: Global,
    table: &mut Table,
    bit: NodeId,
    row: &[NodeId],
) -> Result<Vec<NodeId>, AllocError>
    requires bit { IsFormula table.old bit }
    requires row { All (IsFormula table.old) row.now }
    ensures bits { IfOk result (λ ks. AreBits table.new ks.items (map (plain.both term_gates (tree table.old bit)) (trees_at table.old row.now))) }
    ensures grows { GrowsTo table.old table.new }
    ensures symbols { table.new.symbols ≡ table.old.symbols }
    ensures sorts { table.new.sorts ≡ table.old.sorts }
{
    let bits = repeated(alloc, bit, row.len())?;
    pairs(alloc, table, Gate::Both, &bits, row)
}

/// `bvmul`.
pub(crate) fn product(
    alloc: Global,
    table: &mut Table,
    a: &[NodeId],
    b: &[NodeId],
) -> Result<Vec<NodeId>, AllocError>
    requires a { All (IsFormula table.old) a.now }
    requires b { All (IsFormula table.old) b.now }
    requires same { length a.now ≡ length b.now }
    ensures bits { IfOk result (λ ks. AreBits table.new ks.items (plain.product term_gates (trees_at table.old a.now) (trees_at table.old b.now))) }
    ensures grows { GrowsTo table.old table.new }
    ensures symbols { table.new.symbols ≡ table.old.symbols }
    ensures sorts { table.new.sorts ≡ table.old.sorts }
{
    let none = truth(table, false)?;
    let mut total = repeated(alloc, none, a.len())?;
    for (place, bit) in b.iter().enumerate() {
        let moved = up(alloc, none, place, a)?;
        let row = row_where(alloc, table, *bit, &moved)?;
        total = sum(alloc, table, &total, &row)?;
    }
    Ok(total)
}

//! What equal operands say of the constants of two applications of one function. Where u is the constant of an earlier one, whose
//! operands became r1 .. rn, and v that of a new one, whose operands became q1 .. qn, it is
//!
//! - `(=> (and (= r1 q1) .. (= rn qn)) (= u v))`, of one operand `(=> (= r1 q1) (= u v))`.

ghost use Rattle.std.specs.Prelude.{◌≡◌, ◌<◌, ◌∷◌, ◌++◌, [], length, map, slice_get, Some, All, IfOk, OnOk};
ghost use Rattle.smt_terms.specs.Rank.{sort_of};
ghost use Rattle.normal_forms.specs.Nodes.{IsFormula};
ghost use Rattle.term_table.specs.Formulas.{tree, trees_at, AreNodes};
ghost use Rattle.term_walk.specs.Walking.{GrowsTo};
ghost use Rattle.ackermann.specs.Ackermann.{all_equal};
ghost use Rattle.ackermann.specs.LiveUses.{uses_of, IsUseIn, equal_each, said};
ghost use Rattle.ackermann.specs.declared.uses.LiveUse.{LiveUse};

use crate::uses::{LiveUse, LiveUses};
use normal_forms::making::conjunction;
use smt_terms::NodeId;
use std::alloc::{AllocError, Global};
use term_groups::making::{equation, implication};
use term_table::{Nodes, Table, know_table};

// The equations of operands that stand at the same places.
fn equations(
    alloc: Global,
    table: &mut Table,
    first: &[NodeId],
    second: &[NodeId],
) -> Result<Vec<NodeId>, AllocError>
    requires first { AreNodes table.old first.now }
    requires second { AreNodes table.old second.now }
    requires sorts { map sort_of (trees_at table.old first.now) ≡ map sort_of (trees_at table.old second.now) }
    ensures formulas { IfOk result (λ ks. All (IsFormula table.new) ks.items) }
    ensures terms { IfOk result (λ ks. trees_at table.new ks.items ≡ equal_each (trees_at table.old first.now) (trees_at table.old second.now)) }
    ensures grows { GrowsTo table.old table.new }
    ensures symbols { table.new.symbols ≡ table.old.symbols }
{
    let mut equations = Vec::new(alloc);
    for i in 0..first.len() {
        let equal = equation(table, first[i], second[i])?;
        equations.push(equal)?;
    }
    Ok(equations)
}

// That all of these hold.
fn all_of(table: &mut Table, equations: &[NodeId]) -> Result<NodeId, AllocError>
    requires formulas { All (IsFormula table.old) equations.now }
    requires some { 0 < length equations.now }
    ensures formula { IfOk result (IsFormula table.new) }
    ensures term { IfOk result (λ k. tree table.new k ≡ all_equal (trees_at table.old equations.now)) }
    ensures grows { GrowsTo table.old table.new }
    ensures symbols { table.new.symbols ≡ table.old.symbols }
{
    if equations.len() == 1 {
        return Ok(equations[0]);
    }
    let all = conjunction(table, equations)?;
    Ok(all)
}

// That all operands are equal.
fn equal_operands(
    alloc: Global,
    table: &mut Table,
    first: &[NodeId],
    second: &[NodeId],
) -> Result<NodeId, AllocError>
    requires first { AreNodes table.old first.now }
    requires second { AreNodes table.old second.now }
    requires sorts { map sort_of (trees_at table.old first.now) ≡ map sort_of (trees_at table.old second.now) }
    requires some { 0 < length first.now }
    ensures formula { IfOk result (IsFormula table.new) }
    ensures term { IfOk result (λ k. tree table.new k ≡ all_equal (equal_each (trees_at table.old first.now) (trees_at table.old second.now))) }
    ensures grows { GrowsTo table.old table.new }
    ensures symbols { table.new.symbols ≡ table.old.symbols }
{
    let equations = equations(alloc, table, first, second)?;
    let all = all_of(table, &equations)?;
    Ok(all)
}

// Puts last what equal operands say of the constants of two applications of one function.
fn push_pair(
    alloc: Global,
    table: &mut Table,
    earlier: &LiveUse,
    new: &LiveUse,
    asserts: &mut Nodes,
) -> Result<(), AllocError>
    requires earlier { IsUseIn table.old earlier.now }
    requires new { IsUseIn table.old new.now }
    requires function { earlier.now.function.0 ≡ new.now.function.0 }
    requires asserts { AreNodes table.old asserts.old }
    ensures nodes { OnOk result (AreNodes table.new asserts.new) }
    ensures terms { OnOk result (trees_at table.new asserts.new ≡ trees_at table.old asserts.old ++ said table.old earlier.now new.now ∷ []) }
    ensures grows { GrowsTo table.old table.new }
    ensures symbols { table.new.symbols ≡ table.old.symbols }
{
    know_table(table);
    let premise = equal_operands(alloc, table, &earlier.operands, &new.operands)?;
    let conclusion = equation(table, earlier.constant, new.constant)?;
    let pair = implication(table, premise, conclusion)?;
    asserts.push(pair)?;
    Ok(())
}

// The same for those at these places, in order.
fn push_pairs_at(
    alloc: Global,
    table: &mut Table,
    uses: &LiveUses,
    places: &[usize],
    new: &LiveUse,
    asserts: &mut Nodes,
) -> Result<(), AllocError>
    requires uses { All (IsUseIn table.old) uses.now }
    requires places { map (slice_get uses.now) places.now ≡ map (λ (u : LiveUse). Some u) (uses_of new.now.function uses.now) }
    requires new { IsUseIn table.old new.now }
    requires asserts { AreNodes table.old asserts.old }
    ensures nodes { OnOk result (AreNodes table.new asserts.new) }
    ensures terms { OnOk result (trees_at table.new asserts.new ≡ trees_at table.old asserts.old ++ map (λ u. said table.old u new.now) (uses_of new.now.function uses.now)) }
    ensures grows { GrowsTo table.old table.new }
    ensures symbols { table.new.symbols ≡ table.old.symbols }
{
    for place in places {
        push_pair(alloc, table, uses.at(*place), new, asserts)?;
    }
    Ok(())
}

/// Puts last what equal operands say of the constant of an application and of each live one of its function, in order.
pub(crate) fn push_pairs(
    alloc: Global,
    table: &mut Table,
    uses: &LiveUses,
    new: &LiveUse,
    asserts: &mut Nodes,
) -> Result<(), AllocError>
    requires uses { All (IsUseIn table.old) uses.now }
    requires new { IsUseIn table.old new.now }
    requires asserts { AreNodes table.old asserts.old }
    ensures nodes { OnOk result (AreNodes table.new asserts.new) }
    ensures terms { OnOk result (trees_at table.new asserts.new ≡ trees_at table.old asserts.old ++ map (λ u. said table.old u new.now) (uses_of new.now.function uses.now)) }
    ensures grows { GrowsTo table.old table.new }
    ensures symbols { table.new.symbols ≡ table.old.symbols }
{
    let places = uses.places_of(alloc, new.function)?;
    push_pairs_at(alloc, table, uses, &places, new, asserts)?;
    Ok(())
}

//! What becomes of the nodes of an assertion: R of an application is its constant, a live one or a new one, and R of any other
//! term is as `term_groups::replacing` has it.

ghost use Rattle.std.specs.Prelude.{◌≡◌, true, is_some, None, Some, All, IfOk, OnOk};
ghost use Rattle.smt_terms.specs.declared.ids.NodeId.{NodeId};
ghost use Rattle.smt_terms.specs.Groups.{Named};
ghost use Rattle.quantifier_forms.specs.Memos.{result_in};
ghost use Rattle.term_groups.specs.Replacing.{AreInOrder, IsReplaced, AreReplaced, IsDone};
ghost use Rattle.term_table.specs.Formulas.{Formulas, trees_at, AreNodes};
ghost use Rattle.term_walk.specs.Walking.{GrowsTo};
ghost use Rattle.ackermann.specs.LiveUses.{constant_in, IsUseIn};
ghost use Rattle.ackermann.specs.Replacing.{AreNewConstants, all_named};

use crate::uses::LiveUses;
use quantifier_forms::memo::Memo;
use smt_terms::NodeId;
use std::alloc::{AllocError, Global};
use term_groups::constants::Constants;
use term_groups::replacing::{keep_constants, replace_all};
use term_table::{Table, know_table};

// The constant of a node that is live, as its result.
fn keep_live(uses: &LiveUses, memo: &mut Memo, id: NodeId) -> Result<(), AllocError>
    ensures replaced { (t : Formulas) (ns : Named) → AreReplaced t ns memo.old → ((r : NodeId) → constant_in uses.now id ≡ Some r → IsReplaced t ns id r) → OnOk result (AreReplaced t ns memo.new) }
    ensures live { OnOk result (result_in memo.new 0 id ≡ None → constant_in uses.now id ≡ None) }
    ensures stay { OnOk result ((k : NodeId) → is_some (result_in memo.old 0 k) ≡ true → is_some (result_in memo.new 0 k) ≡ true) }
{
    if let Some(constant) = uses.constant_of(id) {
        memo.set(0, id, constant)?;
    }
    Ok(())
}

// The same for each of these nodes.
fn keep_all_live(uses: &LiveUses, memo: &mut Memo, order: &[NodeId]) -> Result<(), AllocError>
    ensures replaced { (t : Formulas) (ns : Named) → AreReplaced t ns memo.old → All (λ k. (r : NodeId) → constant_in uses.now k ≡ Some r → IsReplaced t ns k r) order.now → OnOk result (AreReplaced t ns memo.new) }
    ensures live { OnOk result (All (λ k. result_in memo.new 0 k ≡ None → constant_in uses.now k ≡ None) order.now) }
    ensures stay { OnOk result ((k : NodeId) → is_some (result_in memo.old 0 k) ≡ true → is_some (result_in memo.new 0 k) ≡ true) }
{
    for id in order {
        keep_live(uses, memo, *id)?;
    }
    Ok(())
}

/// What becomes of these nodes with the constants in place, the live ones and the new ones.
pub(crate) fn replace_uses(
    alloc: Global,
    table: &mut Table,
    order: &[NodeId],
    uses: &LiveUses,
    constants: &Constants,
) -> Result<Memo, AllocError>
    requires nodes { AreNodes table.old order.now }
    requires order { AreInOrder (trees_at table.old order.now) }
    requires uses { All (IsUseIn table.old) uses.now }
    requires constants { AreNewConstants table.old uses.now constants.now }
    ensures done { IfOk result (λ m. All (IsDone table.new (all_named table.old uses.now constants.now) m) order.now) }
    ensures grows { GrowsTo table.old table.new }
    ensures symbols { table.new.symbols ≡ table.old.symbols }
{
    know_table(table);
    let mut memo = keep_constants(alloc, constants)?;
    keep_all_live(uses, &mut memo, order)?;
    replace_all(alloc, table, order, &mut memo)?;
    Ok(memo)
}

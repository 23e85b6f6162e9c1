//! What becomes of the nodes of a formula where constants take the places of terms: R of a term that has a constant is this
//! constant, R of another `(f t ..)` is `(f R(t) ..)`, and R of a quantified formula is the formula itself.

ghost use Rattle.std.specs.Prelude.{◌≡◌, Bool, true, length, is_some, None, All, IfOk, OnOk};
ghost use Rattle.quantifier_forms.specs.Memos.{result_in};
ghost use Rattle.smt_terms.specs.declared.ids.NodeId.{NodeId};
ghost use Rattle.smt_terms.specs.Groups.{Named, constant_for, with_constants};
ghost use Rattle.smt_terms.specs.Term.{Term, constant};
ghost use Rattle.term_groups.specs.Replacing.{AreInOrder, AreConstantsFor, IsReplaced, AreReplaced, AreOperandsReplaced, IsDone, AreStarted, AreStartedForSome, AreOperandsFit};
ghost use Rattle.term_groups.specs.Seen.{named_at};
ghost use Rattle.term_table.specs.Formulas.{Formulas, tree, trees_at, IsNode, AreNodes};
ghost use Rattle.term_walk.specs.Walking.{GrowsTo};

use crate::constants::Constants;
use quantifier_forms::memo::Memo;
use quantifier_forms::rebuilding::rebuilt;
use smt_terms::NodeId;
use std::alloc::{AllocError, Global};
use term_table::{Table, know_table};
use term_walk::is_binder;

/// The constants, as the results of the nodes that they stand for. They are right among any constants that make each term its own.
pub fn keep_constants(alloc: Global, constants: &Constants) -> Result<Memo, AllocError>
    requires { length constants.now.nodes ≡ length constants.now.symbols }
    ensures replaced { (t : Formulas) (wanted : Term → Bool) (ns : Named) → AreConstantsFor t wanted constants.now → All (λ n. with_constants ns n.1 ≡ constant n.0) (named_at t constants.now.symbols)
        → IfOk result (AreReplaced t ns) }
    ensures kept { IfOk result (λ m. All (λ p. is_some (result_in m 0 p.1) ≡ true) constants.now.symbols) }
{
    let mut memo = Memo::new(alloc);
    for i in 0..constants.symbols.len() {
        memo.set(0, constants.symbols.get(i).1, constants.nodes.get(i))?;
    }
    Ok(memo)
}

// What becomes of a node that has no constant and whose operands are done.
fn replaced(alloc: Global, table: &mut Table, memo: &Memo, id: NodeId) -> Result<NodeId, AllocError>
    requires node { IsNode table.old id }
    requires fit { AreOperandsFit table.old memo.now id }
    ensures replaced { (ns : Named) → AreOperandsReplaced table.old ns memo.now id → constant_for ns (tree table.old id) ≡ None → IfOk result (IsReplaced table.new ns id) }
    ensures grows { GrowsTo table.old table.new }
    ensures symbols { table.new.symbols ≡ table.old.symbols }
{
    if is_binder(table, id) {
        return Ok(id);
    }
    let kids = memo.known_all(alloc, 0, table.kids(id))?;
    let result = rebuilt(table, id, &kids)?;
    Ok(result)
}

// Keeps what becomes of a node whose operands are done, where it has no result yet.
fn settle(alloc: Global, table: &mut Table, memo: &mut Memo, id: NodeId) -> Result<(), AllocError>
    requires node { IsNode table.old id }
    requires fit { AreOperandsFit table.old memo.old id }
    ensures replaced { (ns : Named) → AreReplaced table.old ns memo.old → AreOperandsReplaced table.old ns memo.old id → (result_in memo.old 0 id ≡ None → constant_for ns (tree table.old id) ≡ None)
        → OnOk result (AreReplaced table.new ns memo.new) }
    ensures done { OnOk result (is_some (result_in memo.new 0 id) ≡ true) }
    ensures stay { OnOk result ((k : NodeId) → is_some (result_in memo.old 0 k) ≡ true → is_some (result_in memo.new 0 k) ≡ true) }
    ensures grows { GrowsTo table.old table.new }
    ensures symbols { table.new.symbols ≡ table.old.symbols }
{
    if memo.get(0, id).is_some() {
        return Ok(());
    }
    let result = replaced(alloc, table, memo, id)?;
    memo.set(0, id, result)?;
    Ok(())
}

/// What becomes of these nodes, each behind its operands: the results of those that have constants are there, and those of the
/// others are put beside them.
pub fn replace_all(
    alloc: Global,
    table: &mut Table,
    order: &[NodeId],
    memo: &mut Memo,
) -> Result<(), AllocError>
    requires nodes { AreNodes table.old order.now }
    requires order { AreInOrder (trees_at table.old order.now) }
    requires started { AreStartedForSome table.old memo.old order.now }
    ensures done { (ns : Named) → AreStarted table.old ns memo.old order.now → OnOk result (All (IsDone table.new ns memo.new) order.now) }
    ensures grows { GrowsTo table.old table.new }
    ensures symbols { table.new.symbols ≡ table.old.symbols }
{
    know_table(table);
    for id in order {
        settle(alloc, table, memo, *id)?;
    }
    Ok(())
}

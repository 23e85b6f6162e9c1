//! Walks.

ghost use Rattle.std.specs.Prelude.{◌≡◌, ◌≢◌, ℕ, ◌+◌, ◌^◌, ◌<◌, ◌≤◌, ◌∷◌, [], List, All, IsSome, IfSome, OnOk, MatchOption, length, true};
ghost use Rattle.smt_terms.specs.declared.ids.NodeId.{NodeId};
ghost use Rattle.smt_terms.specs.Groups.{has_term};
ghost use Rattle.smt_terms.specs.Term.{Term};
ghost use Rattle.term_table.specs.Formulas.{tree_in, tree, trees_at, operands, IsNode, AreNodes, IsTable};
ghost use Rattle.term_walk.specs.Places.{result_at, is_closed_at, results};
ghost use Rattle.term_walk.specs.Stacks.{IsReady, Wait, Leads, IsNextOperand, IsCounted, open_costs, looked_up, looked};
ghost use Rattle.term_walk.specs.Subterms.{all_subterms, places};
ghost use Rattle.term_walk.specs.Walking.{GrowsTo, HasClosed, Fits, Stay, StayClosed, GainsBelow, GainsUnder, AllHaveResults};

use crate::frames::{Frame, Frames};
use crate::kept::Kept;
use crate::node_step::NodeStep;
use crate::steps::Steps;
use smt_terms::NodeId;
use std::alloc::{AllocError, Global};
use std::sync::ledger::Ledger;
use term_table::{Table, know_table};

// Gives a node whose operands are closed a result, where it has none.
fn give_result<S: NodeStep, L: Ledger>(
    table: &mut Table,
    step: &mut S,
    kept: &mut Kept<S::Out>,
    id: NodeId,
    steps: &mut Steps<L>,
) -> Result<(), AllocError>
    requires table { IsTable table.old }
    requires fits { Fits (S.related (S.meaning step.old)) table.old kept.old }
    requires node { IsNode table.old id }
    requires kids { All (HasClosed table.old.trees kept.old) (operands (tree table.old id)) }
    ensures ok { OnOk result (IsSome (result_at kept.new id.0)) }
    ensures fits { Fits (S.related (S.meaning step.old)) table.new kept.new }
    ensures grows { GrowsTo table.old table.new }
    ensures symbols { table.new.symbols ≡ table.old.symbols }
    ensures sorts { table.new.sorts ≡ table.old.sorts }
    ensures meaning { S.meaning step.new ≡ S.meaning step.old }
    ensures stay { Stay kept.old kept.new }
    ensures others { (k : NodeId) → k.0 ≢ id.0 → result_at kept.new k.0 ≡ result_at kept.old k.0 }
    ensures closed { (k : NodeId) → is_closed_at kept.new k.0 ≡ is_closed_at kept.old k.0 }
    ensures most { steps.new ≤ steps.old + 1 }
    ensures least { results kept.new + steps.old ≤ results kept.old + steps.new }
{
    if kept.get(id).is_some() {
        return Ok(());
    }
    let out = step.step(table, id, kept, steps)?;
    kept.put(id, out)?;
    Ok(())
}

// Closes a node whose operands are closed.
fn finish<S: NodeStep, L: Ledger>(
    table: &mut Table,
    step: &mut S,
    kept: &mut Kept<S::Out>,
    id: NodeId,
    steps: &mut Steps<L>,
) -> Result<(), AllocError>
    requires table { IsTable table.old }
    requires fits { Fits (S.related (S.meaning step.old)) table.old kept.old }
    requires node { IsNode table.old id }
    requires kids { All (HasClosed table.old.trees kept.old) (operands (tree table.old id)) }
    ensures ok { OnOk result (is_closed_at kept.new id.0 ≡ true) }
    ensures fits { Fits (S.related (S.meaning step.old)) table.new kept.new }
    ensures grows { GrowsTo table.old table.new }
    ensures symbols { table.new.symbols ≡ table.old.symbols }
    ensures sorts { table.new.sorts ≡ table.old.sorts }
    ensures meaning { S.meaning step.new ≡ S.meaning step.old }
    ensures stay { Stay kept.old kept.new }
    ensures others { (k : NodeId) → k.0 ≢ id.0 → result_at kept.new k.0 ≡ result_at kept.old k.0 }
    ensures closed { (k : NodeId) → k.0 ≢ id.0 → is_closed_at kept.new k.0 ≡ is_closed_at kept.old k.0 }
    ensures most { steps.new ≤ steps.old + 1 }
    ensures least { results kept.new + steps.old ≤ results kept.old + steps.new }
{
    give_result(table, step, kept, id, steps)?;
    kept.close(id);
    Ok(())
}

// The operand of a frame that is looked up next, or None behind the last one.
fn next_operand(table: &Table, frame: Frame) -> Option<NodeId>
    requires { IsNode table.now frame.id }
    ensures operand { MatchOption result (length (operands (tree table.now frame.id)) ≤ frame.next) (IsNextOperand table.now.trees frame) }
    ensures small { IfSome result (λ _. frame.next + 1 < 2 ^ 64) }
    ensures table { IsTable table.now }
{
    table.kids(frame.id).get(frame.next).copied()
}

// Looks up the next operand of a frame, and puts it on the stack where it isn't closed.
fn look_up<T, L: Ledger>(
    kept: &Kept<T>,
    stack: &mut Frames,
    frame: Frame,
    kid: NodeId,
    steps: &mut Steps<L>,
) -> Result<(), AllocError>
    requires { frame.next + 1 < 2 ^ 64 }
    ensures ok { OnOk result (stack.new ≡ looked (is_closed_at kept.now kid.0) kid frame stack.old) }
    ensures cost { steps.new ≡ steps.old + 1 }
{
    steps.tick();
    stack.push(Frame {
        id: frame.id,
        next: frame.next + 1,
    })?;
    if kept.is_closed(kid) {
        return Ok(());
    }
    stack.push(Frame { id: kid, next: 0 })?;
    Ok(())
}

// One turn of a walk, at a frame that was taken off the stack.
fn turn<S: NodeStep, L: Ledger>(
    table: &mut Table,
    step: &mut S,
    kept: &mut Kept<S::Out>,
    stack: &mut Frames,
    frame: Frame,
    steps: &mut Steps<L>,
) -> Result<(), AllocError>
    requires fits { Fits (S.related (S.meaning step.old)) table.old kept.old }
    requires ready { IsReady table.old.trees kept.old frame }
    ensures leads { (root : NodeId) → Wait table.old.trees kept.old root frame.id stack.old → OnOk result (Leads table.new.trees kept.new root stack.new) }
    ensures nearer { (us ts : List Term) (n : ℕ) → frame.id.0 < n → has_term us (tree_in ts frame.id) ≡ true → tree_in ts frame.id ≡ tree table.old frame.id → OnOk result (open_costs us ts kept.new n + (frame.next + looked_up stack.old) + 1 ≡ open_costs us ts kept.old n + looked_up stack.new) }
    ensures fits { Fits (S.related (S.meaning step.old)) table.new kept.new }
    ensures grows { GrowsTo table.old table.new }
    ensures symbols { table.new.symbols ≡ table.old.symbols }
    ensures sorts { table.new.sorts ≡ table.old.sorts }
    ensures meaning { S.meaning step.new ≡ S.meaning step.old }
    ensures stay { Stay kept.old kept.new }
    ensures others { (k : NodeId) → k.0 ≢ frame.id.0 → result_at kept.new k.0 ≡ result_at kept.old k.0 }
    ensures closed { (k : NodeId) → k.0 ≢ frame.id.0 → is_closed_at kept.new k.0 ≡ is_closed_at kept.old k.0 }
    ensures most { steps.new ≤ steps.old + 1 }
    ensures least { results kept.new + steps.old ≤ results kept.old + steps.new }
{
    match next_operand(table, frame) {
        Some(kid) => {
            look_up(kept, stack, frame, kid, steps)?;
            Ok(())
        }
        None => {
            finish(table, step, kept, frame.id, steps)?;
            Ok(())
        }
    }
}

// Closes a node, and all below it.
fn visit<S: NodeStep, L: Ledger>(
    alloc: Global,
    table: &mut Table,
    step: &mut S,
    kept: &mut Kept<S::Out>,
    root: NodeId,
    steps: &mut Steps<L>,
) -> Result<(), AllocError>
    requires fits { Fits (S.related (S.meaning step.old)) table.old kept.old }
    requires root { IsNode table.old root }
    ensures ok { OnOk result (is_closed_at kept.new root.0 ≡ true) }
    ensures fits { Fits (S.related (S.meaning step.old)) table.new kept.new }
    ensures grows { GrowsTo table.old table.new }
    ensures symbols { table.new.symbols ≡ table.old.symbols }
    ensures sorts { table.new.sorts ≡ table.old.sorts }
    ensures meaning { S.meaning step.new ≡ S.meaning step.old }
    ensures stay { Stay kept.old kept.new }
    ensures closed { StayClosed kept.old kept.new }
    ensures gained { GainsUnder table.old root kept.old kept.new }
    ensures nearer { (us ts : List Term) → IsCounted us ts table.old.trees root → OnOk result (steps.new + open_costs us ts kept.new (length ts) ≤ steps.old + open_costs us ts kept.old (length ts)) }
    ensures most { (us ts : List Term) → IsCounted us ts table.old.trees root → steps.new ≤ steps.old + open_costs us ts kept.old (length ts) }
    ensures least { results kept.new + steps.old ≤ results kept.old + steps.new }
{
    if kept.is_closed(root) {
        return Ok(());
    }
    let mut stack = Frames::new(alloc);
    stack.push(Frame { id: root, next: 0 })?;
    while let Some(frame) = stack.pop() {
        turn(table, step, kept, &mut stack, frame, steps)?;
    }
    Ok(())
}

/// Gives each subterm of these nodes a result, by one step for each that has none. Results that were there stay, no
/// other node gains one, and each operand is looked up once, which counts as a step.
pub fn walk_all<S: NodeStep, L: Ledger>(
    alloc: Global,
    table: &mut Table,
    step: &mut S,
    kept: &mut Kept<S::Out>,
    roots: &[NodeId],
    steps: &mut Steps<L>,
) -> Result<(), AllocError>
    requires fits { Fits (S.related (S.meaning step.old)) table.old kept.old }
    requires roots { AreNodes table.old roots.now }
    ensures roots { OnOk result (All (λ k. IsSome (result_at kept.new k.0)) roots.now) }
    ensures all { OnOk result (AllHaveResults table.new (trees_at table.old roots.now) kept.new) }
    ensures fits { Fits (S.related (S.meaning step.old)) table.new kept.new }
    ensures stay { Stay kept.old kept.new }
    ensures gained { GainsBelow table.old (trees_at table.old roots.now) kept.old kept.new }
    ensures grows { GrowsTo table.old table.new }
    ensures symbols { table.new.symbols ≡ table.old.symbols }
    ensures sorts { table.new.sorts ≡ table.old.sorts }
    ensures meaning { S.meaning step.new ≡ S.meaning step.old }
    ensures most { steps.new ≤ steps.old + places (all_subterms (trees_at table.old roots.now)) }
    ensures least { results kept.new + steps.old ≤ results kept.old + steps.new }
{
    know_table(table);
    for root in roots {
        visit(alloc, table, step, kept, *root, steps)?;
    }
    Ok(())
}

/// Gives each subterm of a node a result, as `walk_all` does for several.
pub fn walk<S: NodeStep, L: Ledger>(
    alloc: Global,
    table: &mut Table,
    step: &mut S,
    kept: &mut Kept<S::Out>,
    root: NodeId,
    steps: &mut Steps<L>,
) -> Result<(), AllocError>
    requires fits { Fits (S.related (S.meaning step.old)) table.old kept.old }
    requires root { IsNode table.old root }
    ensures root { OnOk result (IsSome (result_at kept.new root.0)) }
    ensures all { OnOk result (AllHaveResults table.new (tree table.old root ∷ []) kept.new) }
    ensures fits { Fits (S.related (S.meaning step.old)) table.new kept.new }
    ensures stay { Stay kept.old kept.new }
    ensures gained { GainsBelow table.old (tree table.old root ∷ []) kept.old kept.new }
    ensures grows { GrowsTo table.old table.new }
    ensures symbols { table.new.symbols ≡ table.old.symbols }
    ensures sorts { table.new.sorts ≡ table.old.sorts }
    ensures meaning { S.meaning step.new ≡ S.meaning step.old }
    ensures most { steps.new ≤ steps.old + places (all_subterms (tree table.old root ∷ [])) }
    ensures least { results kept.new + steps.old ≤ results kept.old + steps.new }
{
    walk_all(alloc, table, step, kept, &[root], steps)?;
    Ok(())
}

//! The subterms of a node in the order in which their results are made.

ghost use Rattle.std.specs.Prelude.{◌≡◌, ℕ, suc, ◌<◌, ◌≤◌, ◌+◌, ◌++◌, ◌∷◌, [], List, All, Bool, true, false, not, IfOk, OnOk, length};
ghost use Rattle.smt_terms.specs.declared.ids.NodeId.{NodeId};
ghost use Rattle.smt_terms.specs.Term.{Term};
ghost use Rattle.smt_terms.specs.Groups.{has_term};
ghost use Rattle.term_table.specs.Formulas.{Formulas, tree, trees_at, operands, IsNode, AreNodes};
ghost use Rattle.term_walk.specs.FreeLists.{has_node, with_node};
ghost use Rattle.quantifier_forms.specs.Listing.{listed};
ghost use Rattle.quantifier_forms.specs.Orders.{IsOrdered};
ghost use Rattle.quantifier_forms.specs.Tasks.{task_node, after_tasks, TellAlike, Stands, work_left};
ghost use Rattle.quantifier_forms.specs.declared.tasks.Task.{Task};

use crate::tasks::{Task, enter_all};
use indexmap::IndexSet;
use smt_terms::NodeId;
use std::alloc::{AllocError, Global};
use term_table::{Table, know_table};
use term_walk::Stack;
use term_walk::meeting::meet;

/// Which nodes a listing skips, with all that stands below them alone, and at which it looks at the operands.
pub trait Choice {
    ghost skips: { Self → NodeId → Bool };

    ghost opens: { Self → Formulas → NodeId → Bool };

    /// Whether a node is skipped.
    fn skips(&self, id: NodeId) -> bool
        ensures { result ≡ skips self.now id };

    /// Whether the operands of a node are looked at.
    fn opens(&self, table: &Table, id: NodeId) -> bool
        requires { IsNode table.now id }
        ensures { result ≡ opens self.now table.now id };
}

// Opens a node that is met for the first time: it is left when what it opens is listed.
fn open<C: Choice>(
    table: &Table,
    choice: &C,
    tasks: &mut Stack<Task>,
    id: NodeId,
) -> Result<(), AllocError>
    requires { IsNode table.now id }
    ensures stands { (met ls : List NodeId) → has_node met id ≡ false → Stands table.now (Task.Enter id ∷ tasks.old) met ls → OnOk result (Stands table.now tasks.new (met ++ id ∷ []) ls) }
    ensures rest { (skips opens : Term → Bool) (ts : List Term) → TellAlike table.now (C.opens choice.now table.now) opens → skips (tree table.now id) ≡ false → has_term ts (tree table.now id) ≡ false → OnOk result (after_tasks skips opens table.now tasks.new ts ≡ after_tasks skips opens table.now (Task.Enter id ∷ tasks.old) ts) }
    ensures few { OnOk result (length tasks.new ≤ suc (length (operands (tree table.now id))) + length tasks.old) }
{
    tasks.push(Task::Leave(id))?;
    if choice.opens(table, id) {
        enter_all(tasks, table.kids(id))?;
        return Ok(());
    }
    Ok(())
}

// Enters a node: it is opened where it isn't skipped and is met for the first time.
fn enter<C: Choice>(
    table: &Table,
    choice: &C,
    tasks: &mut Stack<Task>,
    met: &mut IndexSet<NodeId>,
    id: NodeId,
) -> Result<(), AllocError>
    requires { IsNode table.now id }
    ensures stands { (ls : List NodeId) → Stands table.now (Task.Enter id ∷ tasks.old) met.old.keys ls → OnOk result (Stands table.now tasks.new met.new.keys ls) }
    ensures rest { (skips opens : Term → Bool) (ls : List NodeId) → TellAlike table.now (C.skips choice.now) skips → TellAlike table.now (C.opens choice.now table.now) opens → Stands table.now (Task.Enter id ∷ tasks.old) met.old.keys ls → OnOk result (after_tasks skips opens table.now tasks.new (trees_at table.now ls) ≡ after_tasks skips opens table.now (Task.Enter id ∷ tasks.old) (trees_at table.now ls)) }
    ensures nearer { (n : ℕ) → id.0 < n → OnOk result (work_left table.now met.new.keys n + length tasks.new ≤ work_left table.now met.old.keys n + length tasks.old) }
{
    know_table(table);
    if choice.skips(id) {
        return Ok(());
    }
    if meet(met, id)? {
        open(table, choice, tasks, id)?;
        return Ok(());
    }
    Ok(())
}

// Does a task that was taken off the stack.
fn turn<C: Choice>(
    table: &Table,
    choice: &C,
    tasks: &mut Stack<Task>,
    met: &mut IndexSet<NodeId>,
    done: &mut Vec<NodeId>,
    task: Task,
) -> Result<(), AllocError>
    requires { Stands table.now (task ∷ tasks.old) met.old.keys done.old.items }
    ensures stands { OnOk result (Stands table.now tasks.new met.new.keys done.new.items) }
    ensures rest { (skips opens : Term → Bool) → TellAlike table.now (C.skips choice.now) skips → TellAlike table.now (C.opens choice.now table.now) opens → OnOk result (after_tasks skips opens table.now tasks.new (trees_at table.now done.new.items) ≡ after_tasks skips opens table.now (task ∷ tasks.old) (trees_at table.now done.old.items)) }
    ensures nearer { (n : ℕ) → (task_node task).0 < n → OnOk result (work_left table.now met.new.keys n + length tasks.new ≤ work_left table.now met.old.keys n + length tasks.old) }
{
    match task {
        Task::Enter(id) => {
            enter(table, choice, tasks, met, id)?;
            Ok(())
        }
        Task::Leave(id) => {
            done.push(id)?;
            Ok(())
        }
    }
}

/// The subterms of a node that aren't skipped, each once and behind its operands, these from left to right.
pub fn list<C: Choice>(
    alloc: Global,
    table: &Table,
    choice: &C,
    root: NodeId,
) -> Result<Vec<NodeId>, AllocError>
    requires { IsNode table.now root }
    ensures nodes { IfOk result (λ ks. AreNodes table.now ks.items) }
    ensures terms { (skips opens : Term → Bool) → TellAlike table.now (C.skips choice.now) skips → TellAlike table.now (C.opens choice.now table.now) opens → IfOk result (λ ks. trees_at table.now ks.items ≡ listed skips opens (tree table.now root) []) }
{
    let mut tasks = Stack::new(alloc);
    tasks.push(Task::Enter(root))?;
    let mut met = IndexSet::new(alloc);
    let mut done = Vec::new(alloc);
    while let Some(task) = tasks.pop() {
        turn(table, choice, &mut tasks, &mut met, &mut done, task)?;
    }
    Ok(done)
}

// All nodes, and their operands.
#[derive(Clone, Copy)]
struct Everything;

impl Choice for Everything {
    ghost skips = { λ _ _. false };

    ghost opens = { λ _ _ _. true };

    fn skips(&self, _id: NodeId) -> bool {
        false
    }

    fn opens(&self, _table: &Table, _id: NodeId) -> bool {
        true
    }
}

/// The subterms of a node, each once and behind its operands, these from left to right.
pub fn list_all(alloc: Global, table: &Table, root: NodeId) -> Result<Vec<NodeId>, AllocError>
    requires { IsNode table.now root }
    ensures order { IfOk result (λ ks. IsOrdered table.now (λ _. false) root ks.items) }
    ensures terms { IfOk result (λ ks. trees_at table.now ks.items ≡ listed (λ _. false) (λ _. true) (tree table.now root) []) }
{
    know_table(table);
    let order = list(alloc, table, &Everything, root)?;
    Ok(order)
}

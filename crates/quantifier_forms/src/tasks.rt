//! What there is to do in a listing.

ghost use Rattle.std.specs.Prelude.{◌≡◌, ◌++◌, OnOk, map};

use smt_terms::NodeId;
use std::alloc::AllocError;
use term_walk::Stack;

// What is left to do: to enter a node, or to leave it, when all below it is listed.
#[derive(Clone, Copy)]
pub(crate) enum Task {
    Enter(NodeId),
    Leave(NodeId),
}

// Enters these nodes before all else, in their order.
pub(crate) fn enter_all(tasks: &mut Stack<Task>, ids: &[NodeId]) -> Result<(), AllocError>
    ensures { OnOk result (tasks.new ≡ map (λ k. Task.Enter k) ids.now ++ tasks.old) }
{
    for place in (0..ids.len()).rev() {
        tasks.push(Task::Enter(ids[place]))?;
    }
    Ok(())
}

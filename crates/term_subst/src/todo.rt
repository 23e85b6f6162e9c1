//! What a substitution still has to do.

ghost use Rattle.std.specs.Prelude.{◌≡◌, ◌++◌, map, OnOk};
ghost use Rattle.term_subst.specs.declared.todo.Frame.TheVariants.{Visit};

use crate::SymMap;
use crate::by_node::ByNode;
use crate::chosen::Key;
use smt_terms::NodeId;
use std::alloc::AllocError;
use term_walk::Stack;

// A map, and the results of nodes under it.
#[derive(Drop)]
pub(crate) struct Level {
    pub(crate) map: SymMap,
    pub(crate) kept: ByNode<NodeId>,
}

// A quantified node whose body's result is to come: its variables after renaming, and the level outside.
#[derive(Drop)]
pub(crate) struct Opened {
    pub(crate) key: Key,
    pub(crate) variables: Vec<NodeId>,
    pub(crate) outer: Level,
}

// A step to do.
#[derive(Drop)]
pub(crate) enum Frame {
    // Find the result of a node.
    Visit(NodeId),
    // Make the result of a node of those of its operands, which are the last values.
    Build(NodeId),
    // Make the result of a quantified node of that of its body, which is the last value.
    Close(Opened),
}

// Puts visits of these nodes before the other steps, in their order.
pub(crate) fn push_visits(todo: &mut Stack<Frame>, nodes: &[NodeId]) -> Result<(), AllocError>
    ensures { OnOk result (todo.new ≡ map Visit nodes.now ++ todo.old) }
{
    for place in (0..nodes.len()).rev() {
        todo.push(Frame::Visit(nodes[place]))?;
    }
    Ok(())
}

//! What is found of nodes, by their numbers.

ghost use Rattle.std.specs.Prelude.{◌≡◌, ◌==◌, [], Some, OnOk, option_copied, if◌then◌else◌};
ghost use Rattle.smt_terms.specs.declared.ids.NodeId.{NodeId};
ghost use Rattle.term_subst.specs.ByNode.{found_in};

use indexmap::IndexMap;
use smt_terms::NodeId;
use std::alloc::{AllocError, Global};
use std::marker::Model;

// What some nodes have. It takes memory for these nodes alone.
#[derive(Drop)]
pub(crate) struct ByNode<T> {
    entries: IndexMap<NodeId, T>,
}

impl<T> Model for ByNode<T> {
    ghost use Rattle.std.specs.Prelude.{List};
    ghost use Rattle.smt_terms.specs.declared.ids.NodeId.{NodeId};

    ghost Value = { List (NodeId × T) };

    ghost view = { λ m. m.entries.entries };
}

impl<T> ByNode<T> {
    pub(crate) fn new(alloc: Global) -> ByNode<T>
        ensures { result ≡ [] }
    {
        ByNode {
            entries: IndexMap::new(alloc),
        }
    }

    pub(crate) fn get(&self, node: NodeId) -> Option<&T>
        ensures { option_copied result ≡ found_in self.now node }
    {
        self.entries.get(&node)
    }
}

impl<T: Drop> ByNode<T> {
    // Gives a node this, in the place of what it had.
    pub(crate) fn put(&mut self, node: NodeId, value: T) -> Result<(), AllocError>
        ensures { OnOk result ((n : NodeId) → found_in self.new n ≡ (if n.0 == node.0 then Some value else found_in self.old n)) }
    {
        self.entries.insert(node, value)?;
        Ok(())
    }
}

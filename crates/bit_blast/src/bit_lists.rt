//! The bits that are kept of nodes.

ghost use Rattle.std.specs.Prelude.{◌≡◌, [], Some, is_some, IsSome, OnOk, OnErr};
ghost use Rattle.bit_blast.specs.KeptBits.{list_of, Sets};

use indexmap::IndexMap;
use smt_terms::NodeId;
use std::alloc::{AllocError, Global};
use std::marker::Model;

/// The bits of nodes, the lowest first; of a formula one.
#[derive(Drop)]
pub(crate) struct BitLists {
    lists: IndexMap<NodeId, Vec<NodeId>>,
}

impl Model for BitLists {
    ghost use Rattle.std.specs.Prelude.{map};
    ghost use Rattle.bit_blast.specs.KeptBits.{Lists};

    ghost Value = { Lists };

    ghost view = { λ m. map (λ e. (e.0, e.1.items)) m.lists.entries };
}

impl BitLists {
    /// No bits.
    pub(crate) fn new(alloc: Global) -> BitLists
        ensures { result ≡ [] }
    {
        BitLists {
            lists: IndexMap::new(alloc),
        }
    }

    /// Whether a node has bits.
    pub(crate) fn has(&self, id: NodeId) -> bool
        ensures { result ≡ is_some (list_of self.now id) }
    {
        self.lists.contains_key(&id)
    }

    /// The bits of a node that has some.
    pub(crate) fn of(&self, id: NodeId) -> &[NodeId]
        requires { IsSome (list_of self.now id) }
        ensures { list_of self.now id ≡ Some result.now }
    {
        self.lists.get(&id).unwrap().as_slice()
    }

    /// Keeps the bits of a node. Where it is refused, all is as before.
    pub(crate) fn set(&mut self, id: NodeId, bits: Vec<NodeId>) -> Result<(), AllocError>
        ensures ok { OnOk result (Sets self.old self.new id bits.items) }
        ensures err { OnErr result (self.new ≡ self.old) }
    {
        self.lists.insert(id, bits)?;
        Ok(())
    }
}

//! Results of quantified nodes, one for each map that is cut down to the node's free symbols.

ghost use Rattle.std.specs.Prelude.{◌≡◌, ◌∷◌, [], None, OnOk};
ghost use Rattle.term_subst.specs.Keys.{chosen_in};

use indexmap::IndexMap;
use smt_terms::{NodeId, SymId};
use std::alloc::{AllocError, Global};
use std::marker::Model;

// A quantified node, and the map that is cut down to its free symbols, in their order.
#[derive(Debug, PartialEq, Eq, Hash, Drop)]
pub(crate) struct Key {
    pub(crate) node: NodeId,
    pub(crate) cut: Vec<(SymId, NodeId)>,
}

// Of which contracts see the last first.
#[derive(Drop)]
pub(crate) struct Chosen {
    results: IndexMap<Key, NodeId>,
}

impl Model for Chosen {
    ghost use Rattle.std.specs.Prelude.{List, reverse};
    ghost use Rattle.smt_terms.specs.declared.ids.NodeId.{NodeId};
    ghost use Rattle.term_subst.specs.declared.chosen.Key.{Key};
    ghost use Rattle.term_subst.specs.Keys.{ReadsAlike};

    ghost Value = { List (Key × NodeId) };

    ghost view = { λ c. reverse c.results.entries };

    ghost invariant = { λ c. ReadsAlike c.results.entries };
}

impl Chosen {
    pub(crate) fn new(alloc: Global) -> Chosen
        ensures { result ≡ [] }
    {
        Chosen {
            results: IndexMap::new(alloc),
        }
    }

    pub(crate) fn get(&self, key: &Key) -> Option<NodeId>
        ensures { result ≡ chosen_in self.now key.now.node key.now.cut.items }
    {
        self.results.get(key).copied()
    }

    // Keeps the result of a key that has none.
    pub(crate) fn put(&mut self, key: Key, value: NodeId) -> Result<(), AllocError>
        requires { chosen_in self.old key.node key.cut.items ≡ None }
        ensures { OnOk result (self.new ≡ (key, value) ∷ self.old) }
    {
        self.results.insert(key, value)?;
        Ok(())
    }
}

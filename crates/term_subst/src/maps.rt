//! Maps from symbols to terms, and what is made of them.

ghost use Rattle.std.specs.Prelude.{◌≡◌, ◌<◌, ◌++◌, ◌∷◌, [], length, Some, slice_get, IfOk, OnOk, OnErr};
ghost use Rattle.term_subst.specs.Maps.{image_in, with_image};

use indexmap::IndexMap;
use smt_terms::{NodeId, SymId};
use std::alloc::{AllocError, Global};
use std::marker::Model;
use term_table::{Nodes, Syms};

/// What takes the place of which symbol, in the order in which the symbols got their first images.
#[derive(Drop)]
pub struct SymMap {
    images: IndexMap<SymId, NodeId>,
}

impl Model for SymMap {
    ghost use Rattle.std.specs.Prelude.{List};
    ghost use Rattle.smt_terms.specs.declared.ids.NodeId.{NodeId};
    ghost use Rattle.smt_terms.specs.declared.ids.SymId.{SymId};

    ghost Value = { List (SymId × NodeId) };

    ghost view = { λ m. m.images.entries };
}

impl SymMap {
    /// The map that replaces nothing. It takes no memory.
    pub fn new(alloc: Global) -> SymMap
        ensures { result ≡ [] }
    {
        SymMap {
            images: IndexMap::new(alloc),
        }
    }

    /// Gives a symbol this image, in the place of an earlier one. Where it is refused, the map is as before.
    pub fn set(&mut self, from: SymId, to: NodeId) -> Result<(), AllocError>
        ensures set { OnOk result (self.new ≡ with_image self.old from to) }
        ensures err { OnErr result (self.new ≡ self.old) }
    {
        self.images.insert(from, to)?;
        Ok(())
    }

    // A second map with the same images.
    pub(crate) fn copy(&self) -> Result<SymMap, AllocError>
        ensures { IfOk result (λ m. m ≡ self.now) }
    {
        Ok(SymMap {
            images: self.images.clone()?,
        })
    }

    /// The image of a symbol.
    pub fn get(&self, from: SymId) -> Option<NodeId>
        ensures { result ≡ image_in self.now from }
    {
        self.images.get(&from).copied()
    }
}

/// A list of symbols, each with a term.
#[derive(Drop)]
pub struct SymPairs {
    items: Vec<(SymId, NodeId)>,
}

impl Model for SymPairs {
    ghost use Rattle.std.specs.Prelude.{List};
    ghost use Rattle.smt_terms.specs.declared.ids.NodeId.{NodeId};
    ghost use Rattle.smt_terms.specs.declared.ids.SymId.{SymId};

    ghost Value = { List (SymId × NodeId) };

    ghost view = { λ p. p.items.items };
}

impl SymPairs {
    /// The empty list. It takes no memory.
    pub fn new(alloc: Global) -> SymPairs
        ensures { result ≡ [] }
    {
        SymPairs {
            items: Vec::new(alloc),
        }
    }

    /// Puts a pair last. Where it is refused, the list is as before.
    pub fn push(&mut self, pair: (SymId, NodeId)) -> Result<(), AllocError>
        ensures ok { OnOk result (self.new ≡ self.old ++ pair ∷ []) }
        ensures err { OnErr result (self.new ≡ self.old) }
    {
        self.items.push(pair)?;
        Ok(())
    }

    /// The number of pairs.
    pub fn len(&self) -> usize
        ensures { result ≡ length self.now }
    {
        self.items.len()
    }

    /// The pair at a place.
    pub fn get(&self, i: usize) -> (SymId, NodeId)
        requires { i < length self.now }
        ensures { slice_get self.now i ≡ Some result }
    {
        self.items[i]
    }
}

/// A term with parameters, which are symbols without arguments.
#[derive(Drop)]
pub struct Definition {
    pub params: Syms,
    pub body: NodeId,
}

/// What takes the place of one assertion: new symbols, each with the term that it stands for, and the assertions.
#[derive(Drop)]
pub struct Group {
    pub symbols: SymPairs,
    pub asserts: Nodes,
}

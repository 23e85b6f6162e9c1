//! The live applications, in the order in which their constants were drawn.

ghost use Rattle.std.specs.Prelude.{◌≡◌, List, ℕ, ◌<◌, ◌-◌, ◌∷◌, ◌++◌, [], length, map, take, slice_get, Some, None, IfOk, OnOk, OnErr};
ghost use Rattle.ackermann.specs.LiveUses.{constant_in, uses_of, reach};
ghost use Rattle.ackermann.specs.declared.uses.LiveUse.{LiveUse};

use indexmap::IndexMap;
use smt_terms::{NodeId, SymId};
use std::alloc::{AllocError, Global};
use std::marker::Model;

/// An application, its constant, as a symbol and as a node, and what became of its operands.
#[derive(Drop)]
pub(crate) struct LiveUse {
    pub(crate) node: NodeId,
    pub(crate) function: SymId,
    pub(crate) symbol: SymId,
    pub(crate) constant: NodeId,
    pub(crate) operands: Vec<NodeId>,
}

// A live application, and how many there are up to the one of its function before it, or 0 where it is the first.
#[derive(Drop)]
pub(crate) struct Entry {
    pub(crate) live: LiveUse,
    pub(crate) earlier: usize,
}

/// The live applications. No node stands twice.
#[derive(Drop)]
pub(crate) struct LiveUses {
    entries: IndexMap<NodeId, Entry>,
    // how many there are up to the last one of each function
    reaches: IndexMap<SymId, usize>,
}

impl Model for LiveUses {
    ghost use Rattle.std.specs.Prelude.{List};
    ghost use Rattle.ackermann.specs.KeptUses.{uses_in, AreKept};
    ghost use Rattle.ackermann.specs.declared.uses.LiveUse.{LiveUse};

    ghost Value = { List LiveUse };

    ghost view = { λ u. uses_in u.entries.entries };

    ghost invariant = { λ u. AreKept u.entries.entries u.reaches.entries };
}

impl LiveUses {
    /// None. It takes no memory.
    pub(crate) fn new(alloc: Global) -> LiveUses
        ensures { result ≡ [] }
    {
        LiveUses {
            entries: IndexMap::new(alloc),
            reaches: IndexMap::new(alloc),
        }
    }

    pub(crate) fn len(&self) -> usize
        ensures { result ≡ length self.now }
    {
        self.entries.len()
    }

    /// The constant of a node.
    pub(crate) fn constant_of(&self, node: NodeId) -> Option<NodeId>
        ensures { result ≡ constant_in self.now node }
    {
        match self.entries.get(&node) {
            Some(entry) => Some(entry.live.constant),
            None => None,
        }
    }

    pub(crate) fn at(&self, place: usize) -> &LiveUse
        requires { place < length self.now }
        ensures { slice_get self.now place ≡ Some result.now }
    {
        let (_, entry) = self.entries.get_index(place).unwrap();
        &entry.live
    }

    // How many there are up to the last one of a function.
    fn reach(&self, function: SymId) -> usize
        ensures { result ≡ reach function self.now }
    {
        self.reaches.get(&function).copied().unwrap_or(0)
    }

    // How many there are up to the one of the same function before this one.
    fn earlier(&self, place: usize) -> usize
        requires { place < length self.now }
        ensures { (u : LiveUse) → slice_get self.now place ≡ Some u → result ≡ reach u.function (take place self.now) }
    {
        let (_, entry) = self.entries.get_index(place).unwrap();
        entry.earlier
    }

    /// The places of the applications of a function.
    pub(crate) fn places_of(&self, alloc: Global, function: SymId) -> Result<Vec<usize>, AllocError>
        ensures { IfOk result (λ ps. map (slice_get self.now) ps.items ≡ map (λ (u : LiveUse). Some u) (uses_of function self.now)) }
    {
        let mut places = Vec::new(alloc);
        let mut left = self.reach(function);
        while left > 0 {
            places.push(left - 1)?;
            left = self.earlier(left - 1);
        }
        places.reverse();
        Ok(places)
    }

    /// Puts one last. Where it is refused, all is as before.
    pub(crate) fn push(&mut self, live: LiveUse) -> Result<(), AllocError>
        requires { constant_in self.old live.node ≡ None }
        ensures ok { OnOk result (self.new ≡ self.old ++ live ∷ []) }
        ensures err { OnErr result (self.new ≡ self.old) }
    {
        let function = live.function;
        let earlier = self.reach(function);
        self.reaches.insert(function, earlier)?;
        self.entries.insert(live.node, Entry { live, earlier })?;
        let all = self.entries.len();
        self.reaches.insert(function, all)?;
        Ok(())
    }

    // Takes the last one away.
    fn pop(&mut self)
        requires { 0 < length self.old }
        ensures { self.new ≡ take (length self.old - 1) self.old }
    {
        let (_, last) = self.entries.pop().unwrap();
        let _ = self.reaches.insert(last.live.function, last.earlier);
    }

    /// Leaves the first `len`. Each one that goes costs the same, however many stay.
    pub(crate) fn truncate(&mut self, len: usize)
        ensures { self.new ≡ take len self.old }
    {
        while self.len() > len {
            self.pop();
        }
    }
}

//! The names of definitions.

ghost use Rattle.std.specs.Prelude.{◌≡◌, ◌<◌, ◌≤◌, ◌∷◌, [], OnOk, MatchOption, All, length, reverse, true, false};
ghost use Rattle.smt_print.specs.Defined.{has_node, number_of, place_in, taken_back};

use smt_terms::NodeId;
use std::alloc::{AllocError, Global};
use std::marker::Model;
use std::mem;

// A node that has a definition, and its place in the scopes around, where it has one there.
#[derive(Drop)]
struct Defined {
    node: NodeId,
    around: u32,
}

// The nodes that have a definition in the current scope, which is that of the innermost quantifier's body, and in those
// around it. The number of a definition is how many stand before it in its scope. Contracts see the latest first.
#[derive(Drop)]
pub(crate) struct Scopes {
    // For each node that has a definition in the current scope its place there, in four bytes; for another node any number.
    places: Vec<u32>,
    current: Vec<Defined>,
    outer: Vec<Vec<Defined>>,
}

impl Model for Scopes {
    ghost use Rattle.std.specs.Prelude.{map, reverse};
    ghost use Rattle.smt_print.specs.Defined.{Nodes, nodes_of, IsScoped};

    ghost Value = { Nodes };

    ghost view = { λ s. record { current = nodes_of s.current.items; outer = map (λ v. nodes_of v.items) (reverse s.outer.items) } };

    ghost invariant = { λ s. IsScoped s.places.items s.current.items (map (λ v. v.items) (reverse s.outer.items)) };
}

impl Scopes {
    pub(crate) fn new(alloc: Global) -> Scopes
        ensures current { result.current ≡ [] }
        ensures outer { result.outer ≡ [] }
    {
        Scopes {
            places: Vec::new(alloc),
            current: Vec::new(alloc),
            outer: Vec::new(alloc),
        }
    }

    // Begins anew, with no definitions.
    pub(crate) fn clear(&mut self)
        ensures current { self.new.current ≡ [] }
        ensures outer { self.new.outer ≡ [] }
    {
        self.current.clear();
        self.outer.clear();
    }

    // How many definitions there are in the current scope.
    pub(crate) fn len(&self) -> usize
        ensures { result ≡ length self.now.current }
    {
        self.current.len()
    }

    // The number of a node's definition in the current scope.
    pub(crate) fn number(&self, id: NodeId) -> Option<usize>
        ensures { MatchOption result (has_node self.now.current id ≡ false) (λ k. (has_node self.now.current id ≡ true) × (k ≡ number_of self.now.current id)) }
    {
        let Some(place) = self.places.get(id.0 as usize) else {
            return None;
        };
        let Some(defined) = self.current.get(*place as usize) else {
            return None;
        };
        if defined.node.0 == id.0 {
            return Some(*place as usize);
        }
        None
    }

    // Gives a node a definition in the current scope.
    pub(crate) fn define(&mut self, id: NodeId) -> Result<(), AllocError>
        ensures current { OnOk result (self.new.current ≡ id ∷ self.old.current) }
        ensures outer { OnOk result (self.new.outer ≡ self.old.outer) }
    {
        let Ok(number) = u32::try_from(self.current.len()) else {
            return Err(AllocError);
        };
        let node = id.0 as usize;
        make_room(&mut self.places, node)?;
        self.current.push(Defined {
            node: id,
            around: self.places[node],
        })?;
        self.places[node] = number;
        Ok(())
    }

    // Begins a scope inside the current one.
    pub(crate) fn enter(&mut self, alloc: Global) -> Result<(), AllocError>
        ensures current { OnOk result (self.new.current ≡ []) }
        ensures outer { OnOk result (self.new.outer ≡ self.old.current ∷ self.old.outer) }
    {
        match self
            .outer
            .push(mem::replace(&mut self.current, Vec::new(alloc)))
        {
            Ok(()) => Ok(()),
            Err(refused) => {
                self.current = refused.value;
                Err(AllocError)
            }
        }
    }

    // Gives the current scope up for the one around it.
    pub(crate) fn leave(&mut self)
        requires { 0 < length self.old.outer }
        ensures { self.old.outer ≡ self.new.current ∷ self.new.outer }
    {
        take_back(&mut self.places, &mut self.current);
        self.current = self.outer.pop().unwrap();
    }
}

// How many places are made at once.
const PLACES: usize = 1024;

// Makes room for the place of a node.
fn make_room(places: &mut Vec<u32>, node: usize) -> Result<(), AllocError>
    ensures room { OnOk result (node < length places.new.items) }
    ensures same { place_in places.new.items ≡ place_in places.old.items }
    ensures longer { length places.old.items ≤ length places.new.items }
{
    if node < places.len() {
        return Ok(());
    }
    let len = node.checked_add(PLACES).ok_or(AllocError)?;
    places.resize(len, 0)?;
    Ok(())
}

// Takes definitions back, so that each node has the place again that it had before.
fn take_back(places: &mut Vec<u32>, definitions: &mut Vec<Defined>)
    requires { All (λ d. d.node.0 < length places.old.items) definitions.old.items }
    ensures none { definitions.new.items ≡ [] }
    ensures places { place_in places.new.items ≡ taken_back (place_in places.old.items) (reverse definitions.old.items) }
    ensures long { length places.new.items ≡ length places.old.items }
{
    while let Some(defined) = definitions.pop() {
        places[defined.node.0 as usize] = defined.around;
    }
}

//! Results, one for each node.

ghost use Rattle.std.specs.Prelude.{◌≡◌, ℕ, ◌+◌, ◌≤◌, [], length, true, false, is_some, is_none, option_copied, OnOk, OnErr};
ghost use Rattle.smt_terms.specs.declared.ids.NodeId.{NodeId};
ghost use Rattle.term_walk.specs.Places.{place_at, result_at, is_closed_at, results, Puts, Closes};

use smt_terms::NodeId;
use std::alloc::{AllocError, Global};
use std::marker::Model;

/// What is kept of a node.
#[derive(Drop)]
struct Place<T> {
    result: Option<T>,
    /// Whether each subterm of the node is known to have a result.
    is_closed: bool,
}

/// Results of nodes, at most one for each. It takes memory up to the greatest number of a node that has one.
#[derive(Drop)]
pub struct Kept<T> {
    places: Vec<Place<T>>,
    count: usize,
}

impl<T> Model for Kept<T> {
    ghost use Rattle.std.specs.Prelude.{List, ◌≡◌};
    ghost use Rattle.term_walk.specs.declared.kept.Place.{Place};

    ghost Value = { List (Place T) };

    ghost use Rattle.term_walk.specs.Places.{results};

    ghost view = { λ k. k.places.items };

    ghost invariant = { λ k. k.count ≡ results k.places.items };
}

impl<T> Kept<T> {
    /// No results. It takes no memory.
    pub fn new(alloc: Global) -> Kept<T>
        ensures { result ≡ [] }
    {
        Kept {
            places: Vec::new(alloc),
            count: 0,
        }
    }

    /// The result of a node, or None where it has none. It takes no memory.
    pub fn get(&self, id: NodeId) -> Option<&T>
        ensures { option_copied result ≡ result_at self.now id.0 }
    {
        match self.places.get(id.0 as usize) {
            Some(place) => place.result.as_ref(),
            None => None,
        }
    }

    /// The number of nodes with a result.
    pub fn len(&self) -> usize
        ensures { result ≡ results self.now }
    {
        self.count
    }

    /// Whether each subterm of a node is known to have a result.
    pub(crate) fn is_closed(&self, id: NodeId) -> bool
        ensures { result ≡ is_closed_at self.now id.0 }
    {
        match self.places.get(id.0 as usize) {
            Some(place) => place.is_closed,
            None => false,
        }
    }

    /// Marks a node that has a result as one whose subterms all have results.
    pub(crate) fn close(&mut self, id: NodeId)
        requires { is_some (result_at self.old id.0) ≡ true }
        ensures { Closes self.old self.new id.0 }
    {
        let place = &mut self.places[id.0 as usize];
        place.is_closed = true;
    }
}

impl<T: Drop> Kept<T> {
    /// Keeps the result of a node, in the place of an earlier one. Where it is refused, all is as before.
    pub fn put(&mut self, id: NodeId, value: T) -> Result<(), AllocError>
        ensures ok { OnOk result (Puts self.old self.new id.0 value) }
        ensures err { OnErr result (self.new ≡ self.old) }
    {
        let Some(len) = (id.0 as usize).checked_add(1) else {
            return Err(AllocError);
        };
        pad(&mut self.places, len)?;
        let place = &mut self.places[len - 1];
        if place.result.is_none() {
            self.count += 1;
        }
        place.result = Some(value);
        Ok(())
    }
}

// Puts places without a result behind the others, up to this number of places.
fn pad<T: Drop>(places: &mut Vec<Place<T>>, len: usize) -> Result<(), AllocError>
    ensures ok { OnOk result (len ≤ length places.new.items) }
    ensures same { (i : ℕ) → place_at places.new.items i ≡ place_at places.old.items i }
    ensures results { results places.new.items ≡ results places.old.items }
    ensures err { OnErr result (places.new.items ≡ places.old.items) }
{
    let now = places.len();
    if len <= now {
        return Ok(());
    }
    places.reserve(len - now)?;
    for _ in now..len {
        places.push(Place {
            result: None,
            is_closed: false,
        })?;
    }
    Ok(())
}

//! Counts of faults by name.
ghost use Rattle.std.specs.Prelude.{◌≡◌, ℕ, ◌<◌, List, IfOk, None, Some, length, OnOk, OnErr, IfSome};
ghost use Rattle.std.specs.Str.{bytes_eq};
ghost use Rattle.smt_io.specs.NameCounts.{no_counts, place_of, count_of, raised_place, raise_at, with_new_place};

use std::alloc::{AllocError, Global};
use std::marker::Model;

// A name with its count of faults.
#[derive(Drop)]
struct Place {
    name: String,
    faults: u64,
}

impl Model for Place {
    ghost use Rattle.std.specs.Prelude.{string_bytes};
    ghost use Rattle.smt_io.specs.NameCounts.{NamedCount};

    ghost Value = { NamedCount };

    ghost view = { λ p. record { name = string_bytes p.name; faults = p.faults } };
}

impl Place {
    fn raise(&mut self)
        ensures { self.new ≡ raised_place self.old }
    {
        self.faults = self.faults.saturating_add(1);
    }

    fn has_name(&self, name: &str) -> bool
        ensures { result ≡ bytes_eq self.now.name name.now }
    {
        self.name.as_str() == name
    }
}

// Counts of faults: one for each name that has a place, and one that all other names share.
#[derive(Drop)]
pub(crate) struct FaultCounts {
    alloc: Global,
    places: Vec<Place>,
    others: u64,
}

impl Model for FaultCounts {
    ghost use Rattle.smt_io.specs.NameCounts.{NameCounts};

    ghost Value = { NameCounts };

    ghost view = { λ c. record { places = c.places.items; others = c.others } };
}

impl FaultCounts {
    pub(crate) fn new(alloc: Global) -> FaultCounts
        ensures { result ≡ no_counts }
    {
        FaultCounts {
            alloc,
            places: Vec::new(alloc),
            others: 0,
        }
    }

    // The place of a name, if it has one.
    pub(crate) fn place(&self, name: &str) -> Option<usize>
        ensures value { result ≡ place_of name.now self.now }
        ensures within { IfSome result (λ i. i < length self.now.places) }
    {
        self.places.iter().position(|place| place.has_name(name))
    }

    // Raises the count at a place, or the shared one.
    pub(crate) fn raise_at(&mut self, place: Option<usize>)
        requires { IfSome place (λ i. i < length self.old.places) }
        ensures { self.new ≡ raise_at place self.old }
    {
        match place {
            Some(i) => {
                let place = &mut self.places[i];
                place.raise();
            }
            None => self.others = self.others.saturating_add(1),
        }
    }

    // Makes a place for a name that has none. Its count goes on from the shared one.
    pub(crate) fn add(&mut self, name: &str) -> Result<(), AllocError>
        requires { place_of name.now self.old ≡ None }
        ensures ok { OnOk result (self.new ≡ with_new_place name.now self.old) }
        ensures err { OnErr result (self.new ≡ self.old) }
    {
        let name = String::from_str(self.alloc, name)?;
        let faults = self.others;
        self.places.push(Place { name, faults })?;
        Ok(())
    }

    // The place of a name, which is made where it has none. No count changes.
    pub(crate) fn place_for(&mut self, name: &str) -> Result<usize, AllocError>
        ensures place { IfOk result (λ i. place_of name.now self.new ≡ Some i) }
        ensures within { IfOk result (λ i. i < length self.new.places) }
        ensures counts { (n : List ℕ) → count_of n self.new ≡ count_of n self.old }
    {
        if let Some(place) = self.place(name) {
            return Ok(place);
        }
        let place = self.len();
        self.add(name)?;
        Ok(place)
    }

    fn len(&self) -> usize
        ensures { result ≡ length self.now.places }
    {
        self.places.len()
    }
}

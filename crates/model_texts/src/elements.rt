//! The elements of declared sorts that a text names.

ghost use Rattle.std.specs.Prelude.{◌≡◌, ◌==◌, [], max, length, if◌then◌else◌, IfOk, OnOk, OnErr};
ghost use Rattle.smt_terms.specs.declared.ids.SortId.{SortId};
ghost use Rattle.model_texts.specs.Reading.{place_among};
ghost use Rattle.model_texts.specs.Met.{names_kept, with_name, Gains};

use indexmap::{IndexMap, IndexSet};
use smt_terms::{BuildNameHasher, SortId};
use std::alloc::{AllocError, Global};
use std::marker::Model;

/// The elements of declared sorts that were met so far, numbered in each sort in the order in which they were first met.
#[derive(Drop)]
pub(crate) struct Elements<'a> {
    alloc: Global,
    names: IndexMap<SortId, IndexSet<&'a [u8], BuildNameHasher>>,
}

impl<'a> Model for Elements<'a> {
    ghost use Rattle.std.specs.Prelude.{map};
    ghost use Rattle.model_texts.specs.Met.{MetNames, names_read};

    ghost Value = { MetNames };

    ghost view = { λ e. map (λ m. (m.0, names_read m.1.keys)) e.names.entries };
}

impl<'a> Elements<'a> {
    /// Nothing was met. It takes no memory.
    pub(crate) fn new(alloc: Global) -> Elements<'a>
        ensures { result ≡ [] }
    {
        Elements {
            alloc,
            names: IndexMap::new(alloc),
        }
    }

    /// The number of the sort's element of this name, which is met now if it wasn't before.
    pub(crate) fn meet(&mut self, sort: SortId, name: &'a [u8]) -> Result<u64, AllocError>
        ensures number { IfOk result (λ n. n ≡ place_among (names_kept self.old sort) name.now) }
        ensures met { OnOk result ((s : SortId) → names_kept self.new s ≡ (if s.0 == sort.0 then with_name name.now (names_kept self.old s) else names_kept self.old s)) }
        ensures err { OnErr result ((s : SortId) → names_kept self.new s ≡ names_kept self.old s) }
        ensures gains { Gains self.old self.new }
    {
        if let Some(names) = self.names.get_mut(&sort) {
            let (number, _) = names.insert_full(name)?;
            return Ok(number as u64);
        }
        let mut names = IndexSet::with_hasher(self.alloc, BuildNameHasher::new());
        names.insert(name)?;
        self.names.insert(sort, names)?;
        Ok(0)
    }

    /// How many elements of the sort were met, and at least 1.
    pub(crate) fn size(&self, sort: SortId) -> u64
        ensures { result ≡ max 1 (length (names_kept self.now sort)) }
    {
        match self.names.get(&sort) {
            Some(names) => (names.len() as u64).max(1),
            None => 1,
        }
    }
}

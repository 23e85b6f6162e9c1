//! Sets of names.

ghost use Rattle.std.specs.Prelude.{◌≡◌, [], OnOk, OnErr, IfOk};
ghost use Rattle.smt_terms.specs.Free.{name_among};
ghost use Rattle.term_subst.specs.Names.{with_name};

use indexmap::IndexSet;
use smt_terms::BuildNameHasher;
use std::alloc::{AllocError, Global};
use std::marker::Model;

/// A set of names, in the order in which they were added.
#[derive(Drop)]
pub struct NameSet {
    alloc: Global,
    names: IndexSet<Vec<u8>, BuildNameHasher>,
}

impl Model for NameSet {
    ghost use Rattle.std.specs.Prelude.{List, map};
    ghost use Rattle.smt_terms.specs.Sorts.{Name};

    ghost Value = { List Name };

    ghost view = { λ s. map (λ n. n.items) s.names.keys };
}

impl NameSet {
    /// The empty set. It takes no memory.
    pub fn new(alloc: Global) -> NameSet
        ensures { result ≡ [] }
    {
        NameSet {
            alloc,
            names: IndexSet::with_hasher(alloc, BuildNameHasher::new()),
        }
    }

    /// Puts a name into the set, which takes no memory where it is there. Where it is refused, the set is as before.
    pub fn add(&mut self, name: &[u8]) -> Result<(), AllocError>
        ensures ok { OnOk result (self.new ≡ with_name self.old name.now) }
        ensures err { OnErr result (self.new ≡ self.old) }
    {
        if self.has(name) {
            return Ok(());
        }
        let name = Vec::from_slice(self.alloc, name)?;
        self.names.insert(name)?;
        Ok(())
    }

    /// Whether the set has this name.
    pub fn has(&self, name: &[u8]) -> bool
        ensures { result ≡ name_among self.now name.now }
    {
        self.names.contains(name)
    }

    // A second set of the same names.
    pub(crate) fn copy(&self) -> Result<NameSet, AllocError>
        ensures { IfOk result (λ s. s ≡ self.now) }
    {
        Ok(NameSet {
            alloc: self.alloc,
            names: self.names.clone()?,
        })
    }
}

//! The sizes of declared sorts.

ghost use Rattle.std.specs.Prelude.{◌≡◌, ◌<◌, ◌==◌, [], OnOk, OnErr, if◌then◌else◌};
ghost use Rattle.smt_terms.specs.declared.ids.SortId.{SortId};
ghost use Rattle.smt_values.specs.SizeTable.{size_at};

use indexmap::IndexMap;
use smt_terms::SortId;
use std::alloc::{AllocError, Global};
use std::marker::Model;

/// How many elements each declared sort has: 1 where no size was set.
#[derive(Drop)]
pub struct Sizes {
    sizes: IndexMap<SortId, u64>,
}

impl Model for Sizes {
    ghost use Rattle.std.specs.Prelude.{List, ℕ};
    ghost use Rattle.smt_terms.specs.declared.ids.SortId.{SortId};

    ghost Value = { List (SortId × ℕ) };

    ghost use Rattle.smt_values.specs.SizeTable.{ArePositive};

    ghost view = { λ s. s.sizes.entries };

    ghost invariant = { λ s. ArePositive s.sizes.entries };
}

impl Sizes {
    /// Size 1 for every sort. It takes no memory.
    pub fn new(alloc: Global) -> Sizes
        ensures { result ≡ [] }
    {
        Sizes {
            sizes: IndexMap::new(alloc),
        }
    }

    /// Gives a sort this size, in the place of an earlier one.
    pub fn set(&mut self, sort: SortId, size: u64) -> Result<(), AllocError>
        requires { 0 < size }
        ensures set { OnOk result ((s : SortId) → size_at self.new s ≡ (if s.0 == sort.0 then size else size_at self.old s)) }
        ensures err { OnErr result (self.new ≡ self.old) }
    {
        self.sizes.insert(sort, size)?;
        Ok(())
    }

    /// The size of a sort, at least 1.
    pub fn of(&self, sort: SortId) -> u64
        ensures size { result ≡ size_at self.now sort }
        ensures positive { 0 < result }
    {
        self.sizes.get(&sort).copied().unwrap_or(1)
    }
}

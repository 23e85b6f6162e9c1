//! The table of sorts: equal sorts have one number.

ghost use Rattle.std.specs.Prelude.{◌≡◌, ◌<◌, [], false, IfOk, IfSome, IfNone, OnErr, MatchOption};
ghost use Rattle.smt_terms.specs.Sorts.{array, free_sort};
ghost use Rattle.smt_terms.specs.Rank.{is_array};
ghost use Rattle.smt_values.specs.SortIds.{sort_at, is_free, IsSortId, IsPlain, IsSortList, AddsSort};

use indexmap::IndexSet;
use smt_terms::SortId;
use std::alloc::{AllocError, Global};
use std::marker::Model;

/// The least number of an array sort or a declared sort.
const FIRST_COMPOUND: u64 = 130;

/// A sort that isn't one of the basic sorts, whose numbers are fixed.
#[derive(Debug, PartialEq, Eq, Hash, Drop)]
enum Compound {
    Array(SortId, SortId),
    Declared(Vec<u8>),
}

/// The array sorts and the declared sorts that were made so far. Equal sorts have one number, and a number stays valid
/// as the table grows.
#[derive(Drop)]
pub struct SortTable {
    alloc: Global,
    compounds: IndexSet<Compound>,
}

impl Model for SortTable {
    ghost use Rattle.std.specs.Prelude.{List};
    ghost use Rattle.smt_terms.specs.Sorts.{Sort};
    ghost use Rattle.smt_values.specs.Codes.{coded_sorts};
    ghost use Rattle.smt_values.specs.Compounds.{sorts_of, AreSorts};

    ghost Value = { List Sort };

    ghost coded = { coded_sorts };

    ghost view = { λ t. sorts_of t.compounds.keys };

    ghost invariant = { λ t. AreSorts t.compounds.keys (sorts_of t.compounds.keys) };
}

impl SortTable {
    ghost use Rattle.smt_values.specs.Compounds.{compound_sort, Fits, IsBelow};

    /// The table with the basic sorts alone. It takes no memory.
    pub fn new(alloc: Global) -> SortTable
        ensures { result ≡ [] }
    {
        SortTable {
            alloc,
            compounds: IndexSet::new(alloc),
        }
    }

    /// The number of the array sort of this index, which is no array, and this element. It is made last where the table
    /// hasn't got it.
    pub fn array(&mut self, index: SortId, element: SortId) -> Result<SortId, AllocError>
        requires index { IsSortId self.old index }
        requires element { IsSortId self.old element }
        requires no_array { is_array (sort_at self.old index) ≡ false }
        ensures within { IfOk result (λ s. IsSortId self.new s) }
        ensures sort { IfOk result (λ s. sort_at self.new s ≡ array (sort_at self.old index) (sort_at self.old element)) }
        ensures grows { AddsSort self.old self.new (array (sort_at self.old index) (sort_at self.old element)) }
        ensures table { IsSortList self.new }
        ensures err { OnErr result (self.new ≡ self.old) }
    {
        self.number_of(Compound::Array(index, element))
    }

    /// The number of the declared sort of this name, which has neither `|` nor `\`. It is made last where the table hasn't
    /// got it.
    pub fn declared(&mut self, name: &[u8]) -> Result<SortId, AllocError>
        requires { IsPlain name.now }
        ensures within { IfOk result (λ s. IsSortId self.new s) }
        ensures sort { IfOk result (λ s. sort_at self.new s ≡ free_sort name.now) }
        ensures grows { AddsSort self.old self.new (free_sort name.now) }
        ensures table { IsSortList self.new }
        ensures err { OnErr result (self.new ≡ self.old) }
    {
        let name = Vec::from_slice(self.alloc, name)?;
        self.number_of(Compound::Declared(name))
    }

    fn number_of(&mut self, compound: Compound) -> Result<SortId, AllocError>
        requires { Fits self.old compound }
        ensures within { IfOk result (λ s. IsSortId self.new s) }
        ensures sort { IfOk result (λ s. sort_at self.new s ≡ compound_sort self.old compound) }
        ensures grows { AddsSort self.old self.new (compound_sort self.old compound) }
        ensures table { IsSortList self.new }
        ensures err { OnErr result (self.new ≡ self.old) }
    {
        prove!(self.compounds.len() < 0x8000_0000_0000_0000);
        let (place, _) = self.compounds.insert_full(compound)?;
        Ok(SortId(FIRST_COMPOUND + place as u64))
    }

    fn compound(&self, sort: SortId) -> Option<&Compound>
        requires { IsSortId self.now sort }
        ensures basic { IfNone result (sort.0 < 130) }
        ensures compound { IfSome result (λ c. sort_at self.now sort ≡ compound_sort self.now c.now) }
        ensures below { IfSome result (λ c. IsBelow sort.0 c.now) }
        ensures table { IsSortList self.now }
    {
        prove!(self.compounds.len() < 0x8000_0000_0000_0000);
        if sort.0 < FIRST_COMPOUND {
            return None;
        }
        self.compounds.get_index((sort.0 - FIRST_COMPOUND) as usize)
    }

    /// The index and the element of an array sort, and None exactly for another sort. It takes no memory.
    pub fn parts(&self, sort: SortId) -> Option<(SortId, SortId)>
        requires { IsSortId self.now sort }
        ensures parts { MatchOption result (is_array (sort_at self.now sort) ≡ false) (λ p. sort_at self.now sort ≡ array (sort_at self.now p.0) (sort_at self.now p.1)) }
        ensures index { IfSome result (λ p. p.0.0 < sort.0) }
        ensures element { IfSome result (λ p. p.1.0 < sort.0) }
        ensures table { IsSortList self.now }
    {
        match self.compound(sort) {
            Some(Compound::Array(index, element)) => Some((*index, *element)),
            _ => None,
        }
    }

    /// The name of a declared sort, and None exactly for another sort. It takes no memory.
    pub fn name(&self, sort: SortId) -> Option<&[u8]>
        requires { IsSortId self.now sort }
        ensures name { MatchOption result (is_free (sort_at self.now sort) ≡ false) (λ n. sort_at self.now sort ≡ free_sort n.now) }
        ensures table { IsSortList self.now }
    {
        match self.compound(sort) {
            Some(Compound::Declared(name)) => Some(name.as_slice()),
            _ => None,
        }
    }
}

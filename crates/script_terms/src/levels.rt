//! Names in order of declaration, cut into levels.

ghost use Rattle.std.specs.Prelude.{◌≡◌, ◌≤◌, ◌<◌, ◌∷◌, ◌++◌, [], length, replicate, take, count_by, Some, None, OnOk, OnErr};
ghost use Rattle.script_terms.specs.Scope.{opened, popped, emptied};
ghost use Rattle.script_terms.specs.Known.{find, is_mark, is_symbol_entry, declared_among};
ghost use Rattle.script_terms.specs.Laid.{starts_of, AreOpen};

use crate::scopes::Entry;
use indexmap::IndexMap;
use smt_terms::BuildNameHasher;
use std::alloc::{AllocError, Global};
use std::marker::Model;

// Levels that were opened at once: how many of them are open, and how many names stand below each of them.
#[derive(Clone, Copy)]
struct Run {
    levels: u32,
    below: usize,
}

/// Names, each with what it stands for, on levels. No name stands twice.
#[derive(Drop)]
pub struct Leveled<'a, T> {
    entries: IndexMap<&'a [u8], T, BuildNameHasher>,
    // the open levels, those that were opened at once together, the latest last
    marks: Vec<Run>,
    // how many levels are open
    levels: usize,
}

impl<'a, T> Model for Leveled<'a, T> {
    ghost use Rattle.std.specs.Prelude.{List};
    ghost use Rattle.script_terms.specs.Known.{Scoped};
    ghost use Rattle.script_terms.specs.Laid.{borrowed, laid, starts_of, IsCut};

    ghost Value = { List (Scoped T) };

    ghost view = { λ s. laid (starts_of s.marks.items) (borrowed s.entries.entries) };

    ghost invariant = { λ s. IsCut s.marks.items s.levels (borrowed s.entries.entries) };
}

impl<'a, T: Copy + Drop> Leveled<'a, T> {
    /// No names, and no open level. It takes no memory.
    pub fn new(alloc: Global) -> Leveled<'a, T>
        ensures { result ≡ [] }
    {
        Leveled {
            entries: IndexMap::with_hasher(alloc, BuildNameHasher::new()),
            marks: Vec::new(alloc),
            levels: 0,
        }
    }

    /// What a name stands for.
    pub fn find(&self, name: &[u8]) -> Option<T>
        ensures { result ≡ find self.now name.now }
    {
        self.entries.get(name).copied()
    }

    /// The number of open levels.
    pub fn levels(&self) -> usize
        ensures { result ≡ count_by is_mark self.now }
    {
        self.levels
    }

    /// Gives a name that stands for nothing this meaning. Where it is refused, all is as before.
    pub fn bind(&mut self, name: &'a [u8], value: T) -> Result<(), AllocError>
        requires { find self.old name.now ≡ None }
        ensures ok { OnOk result (self.new ≡ Some (name.now, value) ∷ self.old) }
        ensures err { OnErr result (self.new ≡ self.old) }
    {
        self.entries.insert(name, value)?;
        Ok(())
    }

    /// Opens n levels. They take the memory of one. Where it is refused, all is as before.
    pub fn open(&mut self, n: u32) -> Result<(), AllocError>
        ensures ok { OnOk result (self.new ≡ opened None n self.old) }
        ensures err { OnErr result (self.new ≡ self.old) }
    {
        if n == 0 {
            return Ok(());
        }
        let levels = self.levels.checked_add(n as usize).ok_or(AllocError)?;
        let below = self.entries.len();
        self.marks.push(Run { levels: n, below })?;
        self.levels = levels;
        Ok(())
    }

    /// Closes n levels; their names go, or are kept on the level below. It takes no memory, and no longer than there are
    /// names to go and calls that opened these levels.
    pub fn close(&mut self, n: u32, keeps: bool)
        requires { n ≤ count_by is_mark self.old }
        ensures { self.new ≡ popped is_mark keeps n self.old }
    {
        let mut left = n;
        while left > 0 {
            left -= self.close_latest(left, keeps);
        }
    }

    // Closes the latest of the levels that were opened at once, so many at most, and tells how many.
    fn close_latest(&mut self, most: u32, keeps: bool) -> u32
        requires some { 0 < most }
        requires levels { 0 < count_by is_mark self.old }
        ensures some { 0 < result }
        ensures most { result ≤ most }
        ensures within { result ≤ count_by is_mark self.old }
        ensures popped { self.new ≡ popped is_mark keeps result self.old }
    {
        let ended = end_latest(&mut self.marks, most);
        self.levels -= ended.levels as usize;
        if keeps {
            return ended.levels;
        }
        cut(&mut self.entries, ended.below);
        ended.levels
    }

    /// Closes all levels; all names go, or are kept. It takes no memory.
    pub fn empty(&mut self, keeps: bool)
        ensures { self.new ≡ emptied is_mark keeps self.old }
    {
        self.marks.clear();
        self.levels = 0;
        if keeps {
            return;
        }
        self.entries.clear();
    }
}

/// Whether a declared symbol has this name.
pub fn is_declared(names: &Leveled<Entry>, name: &[u8]) -> bool
    ensures { result ≡ declared_among names.now name.now }
{
    match names.entries.get(name) {
        Some(entry) => is_symbol(*entry),
        None => false,
    }
}

fn is_symbol(entry: Entry) -> bool
    ensures { result ≡ is_symbol_entry entry }
{
    match entry {
        Entry::Symbol(_) | Entry::Constant(_) => true,
        Entry::Definition(_) | Entry::Term(_) => false,
    }
}

// Ends the latest of the levels that were opened at once, so many at most, and gives those that it ended.
fn end_latest(marks: &mut Vec<Run>, most: u32) -> Run
    requires some { 0 < most }
    requires levels { 0 < length (starts_of marks.old.items) }
    requires runs { AreOpen marks.old.items }
    ensures some { 0 < result.levels }
    ensures most { result.levels ≤ most }
    ensures starts { starts_of marks.old.items ≡ replicate result.levels result.below ++ starts_of marks.new.items }
    ensures runs { AreOpen marks.new.items }
{
    let latest = *marks.last().unwrap();
    if latest.levels <= most {
        marks.pop();
        return latest;
    }
    let last = marks.len() - 1;
    marks[last] = Run {
        levels: latest.levels - most,
        below: latest.below,
    };
    Run {
        levels: most,
        below: latest.below,
    }
}

// Leaves the first `len` entries. Each one that goes costs the same, however many stay.
fn cut<T: Drop>(entries: &mut IndexMap<&[u8], T, BuildNameHasher>, len: usize)
    ensures { entries.new.entries ≡ take len entries.old.entries }
{
    while entries.len() > len {
        entries.pop();
    }
}

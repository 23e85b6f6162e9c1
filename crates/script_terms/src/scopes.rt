//! The live bindings: names of terms and names of sorts, with levels.

ghost use Rattle.std.specs.Prelude.{◌≡◌, ◌<◌, ◌≤◌, length, slice_get, Some, None, OnOk};
ghost use Rattle.script_terms.specs.Scope.{opened, popped, emptied};
ghost use Rattle.script_terms.specs.Known.{Scoping, nothing_known, find, is_mark, with_entry, with_sort, with_definition, declared_among, levels_in};

use crate::levels::{self, Leveled};
use crate::locals::Constant;
use smt_terms::{NodeId, SortId, SymId};
use std::alloc::{AllocError, Global};
use std::marker::Model;
use term_subst::Definition;

/// What a live name stands for.
#[derive(Clone, Copy, Debug, PartialEq, Eq)]
pub enum Entry {
    /// A declared symbol that takes arguments.
    Symbol(SymId),
    /// A declared symbol that takes none.
    Constant(Constant),
    /// A definition, by its number.
    Definition(usize),
    /// A named term.
    Term(NodeId),
}

/// The live names. Functions, definitions and names of terms share one name space, sorts have another; no two live names of
/// one name space are equal. Declarations stand in order, with the levels that they were made on.
#[derive(Drop)]
pub struct Scope<'a> {
    terms: Leveled<'a, Entry>,
    sorts: Leveled<'a, SortId>,
    definitions: Vec<Definition>,
}

impl<'a> Model for Scope<'a> {
    ghost use Rattle.std.specs.Prelude.{◌≤◌, count_by};
    ghost use Rattle.script_terms.specs.Known.{Scoping, is_mark};

    ghost Value = { Scoping };

    ghost view = { λ s. record { terms = s.terms; sorts = s.sorts; definitions = s.definitions.items } };

    ghost invariant = { λ s. count_by is_mark s.terms ≤ count_by is_mark s.sorts };
}

impl<'a> Scope<'a> {
    /// Nothing is live. It takes no memory.
    pub fn new(alloc: Global) -> Scope<'a>
        ensures { result ≡ nothing_known }
    {
        Scope {
            terms: Leveled::new(alloc),
            sorts: Leveled::new(alloc),
            definitions: Vec::new(alloc),
        }
    }

    /// What a name of the functions, definitions and names of terms stands for.
    pub fn find(&self, name: &[u8]) -> Option<Entry>
        ensures { result ≡ find self.now.terms name.now }
    {
        self.terms.find(name)
    }

    /// The sort that a name of a sort stands for.
    pub fn find_sort(&self, name: &[u8]) -> Option<SortId>
        ensures { result ≡ find self.now.sorts name.now }
    {
        self.sorts.find(name)
    }

    /// Whether a declared symbol has this name.
    pub fn is_declared(&self, name: &[u8]) -> bool
        ensures { result ≡ declared_among self.now.terms name.now }
    {
        levels::is_declared(&self.terms, name)
    }

    /// The definition of this number.
    pub fn definition(&self, number: usize) -> &Definition
        requires { number < length self.now.definitions }
        ensures { slice_get self.now.definitions number ≡ Some result.now }
    {
        &self.definitions[number]
    }

    /// The number of open levels.
    pub fn levels(&self) -> usize
        ensures { result ≡ levels_in self.now }
    {
        self.terms.levels()
    }

    /// Gives a name that isn't live this meaning.
    pub fn bind(&mut self, name: &'a [u8], entry: Entry) -> Result<(), AllocError>
        requires { find self.old.terms name.now ≡ None }
        ensures entry { OnOk result (self.new ≡ with_entry name.now entry self.old) }
        ensures definitions { self.new.definitions ≡ self.old.definitions }
    {
        self.terms.bind(name, entry)
    }

    /// Gives a name of a sort that isn't live this sort.
    pub fn bind_sort(&mut self, name: &'a [u8], sort: SortId) -> Result<(), AllocError>
        requires { find self.old.sorts name.now ≡ None }
        ensures { OnOk result (self.new ≡ with_sort name.now sort self.old) }
    {
        self.sorts.bind(name, sort)
    }

    /// Gives a name that isn't live this definition, which gets the next number.
    pub fn define(&mut self, name: &'a [u8], definition: Definition) -> Result<(), AllocError>
        requires { find self.old.terms name.now ≡ None }
        ensures { OnOk result (self.new ≡ with_definition name.now definition self.old) }
    {
        let number = self.definitions.len();
        self.terms.bind(name, Entry::Definition(number))?;
        self.definitions.push(definition)?;
        Ok(())
    }

    /// Opens n levels.
    pub fn push(&mut self, n: u32) -> Result<(), AllocError>
        ensures { OnOk result (self.new ≡ record { terms = opened None n self.old.terms; sorts = opened None n self.old.sorts; definitions = self.old.definitions }) }
    {
        self.sorts.open(n)?;
        self.terms.open(n)
    }

    /// Closes n levels; what they bound goes, or stays where declarations are global. It takes no memory, and no longer
    /// than the levels have bindings and there were calls that opened them.
    pub fn pop(&mut self, n: u32, global: bool)
        requires { n ≤ levels_in self.old }
        ensures { self.new ≡ record { terms = popped is_mark global n self.old.terms; sorts = popped is_mark global n self.old.sorts; definitions = self.old.definitions } }
    {
        self.terms.close(n, global);
        self.sorts.close(n, global);
    }

    /// Closes all levels; all bindings go, or stay where declarations are global. It takes no memory.
    pub fn empty(&mut self, global: bool)
        ensures { self.new ≡ record { terms = emptied is_mark global self.old.terms; sorts = emptied is_mark global self.old.sorts; definitions = self.old.definitions } }
    {
        self.terms.empty(global);
        self.sorts.empty(global);
    }

    /// Closes all levels, and all bindings and definitions go. It takes no memory.
    pub fn clear(&mut self)
        ensures { self.new ≡ nothing_known }
    {
        self.terms.empty(false);
        self.sorts.empty(false);
        self.definitions.clear();
    }
}

//! The sorts and symbols of a signature by their names.

ghost use Rattle.std.specs.Prelude.{◌≡◌, All, IfOk};
ghost use Rattle.term_table.specs.Formulas.{IsSymbol};
ghost use Rattle.models.specs.LiveNumbers.{IsFreeSort, AreLiveNumbersOf};
ghost use Rattle.model_texts.specs.SignatureNames.{AreNamesOf, AreSortsNamed, AreSymbolsNamed, owner_of_name, part_named, sort_of_name, by_name};

use indexmap::IndexMap;
use models::{Division, Signature};
use smt_terms::{BuildNameHasher, SortId, SymId};
use std::alloc::{AllocError, Global};
use std::marker::Model;
use term_table::Table;

/// What a table is for: a symbol, or a part of the results of division by zero.
#[derive(Clone, Copy, Debug, PartialEq, Eq)]
pub(crate) enum Owner {
    Symbol(SymId),
    Numbers(Division),
}

/// The sorts and symbols of a signature by their names. Of symbols of one name it has the first.
#[derive(Drop)]
pub(crate) struct Names<'a> {
    sorts: IndexMap<&'a [u8], SortId, BuildNameHasher>,
    symbols: IndexMap<&'a [u8], SymId, BuildNameHasher>,
}

impl<'a> Model for Names<'a> {
    ghost use Rattle.model_texts.specs.SignatureNames.{SignatureNames, by_name};

    ghost Value = { SignatureNames };

    ghost view = { λ n. record { sorts = by_name n.sorts.entries; symbols = by_name n.symbols.entries } };
}

impl<'a> Names<'a> {
    /// The names of a signature.
    pub(crate) fn new(
        alloc: Global,
        table: &'a Table,
        signature: &Signature,
    ) -> Result<Names<'a>, AllocError>
        requires { AreLiveNumbersOf table.now signature.now }
        ensures { IfOk result (AreNamesOf table.now signature.now) }
    {
        Ok(Names {
            sorts: names_of_sorts(alloc, table, signature.sorts())?,
            symbols: names_of_symbols(alloc, table, signature.symbols())?,
        })
    }

    /// The sort of this name.
    pub(crate) fn sort(&self, name: &[u8]) -> Option<SortId>
        ensures { result ≡ sort_of_name self.now name.now }
    {
        self.sorts.get(name).copied()
    }

    /// What a table of this name is for.
    pub(crate) fn owner(&self, name: &[u8]) -> Option<Owner>
        ensures { result ≡ owner_of_name self.now name.now }
    {
        if let Some(part) = part_named(name) {
            return Some(Owner::Numbers(part));
        }
        Some(Owner::Symbol(*self.symbols.get(name)?))
    }
}

// The part of the results of division by zero whose table has this name.
fn part_named(name: &[u8]) -> Option<Division>
    ensures { result ≡ part_named name.now }
{
    if name == b"@div0".as_slice() {
        return Some(Division::Quotient);
    }
    (name == b"@mod0".as_slice()).then_some(Division::Remainder)
}

// The sorts of these numbers, by their names.
fn names_of_sorts<'a>(
    alloc: Global,
    table: &'a Table,
    sorts: &[SortId],
) -> Result<IndexMap<&'a [u8], SortId, BuildNameHasher>, AllocError>
    requires { All (IsFreeSort table.now) sorts.now }
    ensures { IfOk result (λ names. AreSortsNamed table.now sorts.now (by_name names.entries)) }
{
    let mut names = IndexMap::with_hasher(alloc, BuildNameHasher::new());
    for sort in sorts {
        if let Some(name) = table.sorts().name(*sort) {
            names.insert(name, *sort)?;
        }
    }
    Ok(names)
}

// The symbols of these numbers, by their names. Of symbols of one name it has the first.
fn names_of_symbols<'a>(
    alloc: Global,
    table: &'a Table,
    symbols: &[SymId],
) -> Result<IndexMap<&'a [u8], SymId, BuildNameHasher>, AllocError>
    requires { All (IsSymbol table.now) symbols.now }
    ensures { IfOk result (λ names. AreSymbolsNamed table.now symbols.now (by_name names.entries)) }
{
    let mut names = IndexMap::with_hasher(alloc, BuildNameHasher::new());
    for symbol in symbols.iter().rev() {
        names.insert(table.symbol_name(*symbol), *symbol)?;
    }
    Ok(names)
}

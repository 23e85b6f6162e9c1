//! A text on its way out.

ghost use Rattle.std.specs.Prelude.{◌≡◌, ◌++◌, ◌∷◌, ◌+◌, ◌≤◌, [], length, take, OnErr, OnOk, vec_len};
ghost use Rattle.smt_lex.specs.FormText.{form_text};
ghost use Rattle.smt_lex.specs.Names.{printed_symbol, IsName};
ghost use Rattle.smt_values.specs.Meaning.{IsScalar};
ghost use Rattle.smt_values.specs.SortIds.{sort_at, IsSortId};
ghost use Rattle.term_table.specs.WrittenForms.{scalar_form, sort_form};

use smt_lex::symbol_text;
use smt_values::{Scalar, SortId};
use std::alloc::{AllocError, Global};
use std::marker::Model;
use term_table::{Table, scalar_text, sort_text};

// How many bytes of room are made at least.
const ROOM: usize = 32_768;

// A text, and behind it room that is filled with any bytes, where a short part is written without a call. Contracts see
// the text.
#[derive(Drop)]
pub(crate) struct Page {
    bytes: Vec<u8>,
    len: usize,
    // Memory for a part that is made elsewhere.
    part: Vec<u8>,
}

impl Model for Page {
    ghost use Rattle.std.specs.Prelude.{ℕ, List, ◌≤◌, take, vec_len};

    ghost Value = { List ℕ };

    ghost view = { λ p. take p.len p.bytes.items };

    ghost invariant = { λ p. p.len ≤ vec_len p.bytes };
}

impl Page {
    pub(crate) fn new(alloc: Global) -> Page
        ensures { result ≡ [] }
    {
        Page {
            bytes: Vec::new(alloc),
            len: 0,
            part: Vec::new(alloc),
        }
    }

    pub(crate) fn len(&self) -> usize
        ensures { result ≡ length self.now }
    {
        self.len
    }

    pub(crate) fn as_slice(&self) -> &[u8]
        ensures { result.now ≡ self.now }
    {
        &self.bytes[..self.len]
    }

    pub(crate) fn clear(&mut self)
        ensures { self.new ≡ [] }
    {
        self.len = 0;
    }

    // Appends a byte.
    #[inline(always)]
    pub(crate) fn push(&mut self, byte: u8) -> Result<(), AllocError>
        ensures { OnOk result (self.new ≡ self.old ++ byte ∷ []) }
    {
        make_room(&mut self.bytes, self.len, 1)?;
        self.bytes[self.len] = byte;
        self.len += 1;
        Ok(())
    }

    // Appends a few bytes, of which it is known how many they are.
    #[inline(always)]
    pub(crate) fn push_short<const N: usize>(&mut self, part: &[u8; N]) -> Result<(), AllocError>
        ensures { OnOk result (self.new ≡ self.old ++ part.now) }
    {
        make_room(&mut self.bytes, self.len, N)?;
        let end = self.len + N;
        self.bytes[self.len..end].copy_from_slice(part);
        self.len = end;
        Ok(())
    }

    // Appends bytes.
    pub(crate) fn extend_from_slice(&mut self, part: &[u8]) -> Result<(), AllocError>
        ensures ok { OnOk result (self.new ≡ self.old ++ part.now) }
        ensures refused { OnErr result (self.new ≡ self.old) }
    {
        extend(&mut self.bytes, &mut self.len, part)
    }

    // Appends a constant.
    pub(crate) fn push_scalar(&mut self, alloc: Global, scalar: Scalar) -> Result<(), AllocError>
        requires { IsScalar scalar }
        ensures { OnOk result (self.new ≡ self.old ++ form_text (scalar_form scalar)) }
    {
        self.part.clear();
        scalar_text(alloc, scalar, &mut self.part)?;
        extend(&mut self.bytes, &mut self.len, &self.part)
    }

    // Appends a sort.
    pub(crate) fn push_sort(
        &mut self,
        alloc: Global,
        table: &Table,
        sort: SortId,
    ) -> Result<(), AllocError>
        requires { IsSortId table.now.sorts sort }
        ensures { OnOk result (self.new ≡ self.old ++ form_text (sort_form (sort_at table.now.sorts sort))) }
    {
        self.part.clear();
        sort_text(alloc, table, sort, &mut self.part)?;
        extend(&mut self.bytes, &mut self.len, &self.part)
    }

    // Appends a symbol, in bars where it needs them.
    pub(crate) fn push_symbol(&mut self, alloc: Global, name: &[u8]) -> Result<(), AllocError>
        requires { IsName name.now }
        ensures { OnOk result (self.new ≡ self.old ++ printed_symbol name.now) }
    {
        self.part.clear();
        symbol_text(alloc, name, &mut self.part)?;
        extend(&mut self.bytes, &mut self.len, &self.part)
    }
}

// Writes bytes behind so many, which they are then more.
fn extend(bytes: &mut Vec<u8>, len: &mut usize, part: &[u8]) -> Result<(), AllocError>
    requires { len.old ≤ vec_len bytes.old }
    ensures within { len.new ≤ vec_len bytes.new }
    ensures ok { OnOk result (take len.new bytes.new.items ≡ take len.old bytes.old.items ++ part.now) }
    ensures refused { OnErr result (take len.new bytes.new.items ≡ take len.old bytes.old.items) }
{
    make_room(bytes, *len, part.len())?;
    let end = *len + part.len();
    bytes[*len..end].copy_from_slice(part);
    *len = end;
    Ok(())
}

// Makes room for n bytes behind so many.
#[inline(always)]
fn make_room(bytes: &mut Vec<u8>, len: usize, n: usize) -> Result<(), AllocError>
    requires { len ≤ vec_len bytes.old }
    ensures room { OnOk result (len + n ≤ vec_len bytes.new) }
    ensures same { take len bytes.new.items ≡ take len bytes.old.items }
    ensures longer { vec_len bytes.old ≤ vec_len bytes.new }
{
    if n <= bytes.len() - len {
        return Ok(());
    }
    grow(bytes, len, n)
}

// Makes room for n bytes and some more behind so many.
#[cold]
#[inline(never)]
fn grow(bytes: &mut Vec<u8>, len: usize, n: usize) -> Result<(), AllocError>
    requires { len ≤ vec_len bytes.old }
    ensures room { OnOk result (len + n ≤ vec_len bytes.new) }
    ensures same { take len bytes.new.items ≡ take len bytes.old.items }
    ensures longer { vec_len bytes.old ≤ vec_len bytes.new }
{
    let len = bytes.len().checked_add(n.max(ROOM)).ok_or(AllocError)?;
    bytes.resize(len, 0)
}

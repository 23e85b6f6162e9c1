//! The forms of a text, as a flat list of tokens.

ghost use Rattle.std.specs.Prelude.{◌≡◌, ◌<◌, ◌≤◌, ◌^◌, length, Ok, IfOk, IfErr, slice_range, vec_len};
ghost use Rattle.smt_lex.specs.Lex.{name_of};
ghost use Rattle.smt_lex.specs.Forms.{tokens_of, forms_of, forms_until};
ghost use Rattle.smt_lex.specs.Forest.{IsScanned, Refuses, token_at, end_of, after_at};

use crate::builders::tokens_of;
use crate::entries::Entry;
use crate::faults::LexFault;
use crate::items::{Item, Span, Until};
use std::alloc::Global;
use std::marker::Model;

/// The forms of a text: its bytes, and its tokens in order. The form that begins at token `i` is that token,
/// or where it is a `(` the list up to its `)`; the first form inside begins at `i + 1`, and the one behind
/// it at `after(i)`.
#[derive(Drop)]
pub struct Forest {
    bytes: Vec<u8>,
    entries: Vec<Entry>,
}

impl Model for Forest {
    ghost use Rattle.smt_lex.specs.Forest.{Source};
    ghost use Rattle.smt_lex.specs.Building.{IsForest, source};

    ghost Value = { Source };

    ghost view = { λ f. source f.bytes.items f.entries.items };

    ghost invariant = { λ f. IsForest f.bytes.items f.entries.items };
}

/// The forms of a text of fewer than 2^32 bytes, or of its part up to and including the first form `(exit)`
/// that stands in no other; or the first fault of these bytes.
pub fn scan(alloc: Global, bytes: Vec<u8>, until: Until) -> Result<Forest, LexFault>
    requires { vec_len bytes < 2 ^ 32 }
    ensures forms { IfOk result (λ forest. forms_until until bytes.items ≡ Ok (forms_of forest.tokens)) }
    ensures tokens { IfOk result (λ forest. tokens_of until bytes.items ≡ Ok forest.tokens) }
    ensures bytes { IfOk result (λ forest. forest.bytes ≡ bytes.items) }
    ensures fault { IfErr result (Refuses bytes.items (forms_until until bytes.items)) }
{
    let entries = tokens_of(alloc, bytes.as_slice(), until)?;
    Ok(Forest { bytes, entries })
}

impl Forest {
    /// The number of tokens.
    pub fn len(&self) -> usize
        ensures count { result ≡ length self.now.tokens }
        ensures scanned { IsScanned self.now }
    {
        self.entries.len()
    }

    /// The bytes that `scan` was given.
    pub fn bytes(&self) -> &[u8]
        ensures { result.now ≡ self.now.bytes }
    {
        self.bytes.as_slice()
    }

    /// The bytes that `scan` was given. The tokens are given up.
    pub fn into_bytes(self) -> Vec<u8>
        ensures { result.items ≡ self.bytes }
    {
        self.bytes
    }

    /// The kind of token `i`.
    pub fn item(&self, i: usize) -> Item
        requires { i < length self.now.tokens }
        ensures { result ≡ (token_at self.now.tokens i).item }
    {
        self.entries[i].item
    }

    /// Where token `i` stands.
    pub fn span(&self, i: usize) -> Span
        requires { i < length self.now.tokens }
        ensures start { result.start ≡ (token_at self.now.tokens i).start }
        ensures end { result.end ≡ end_of (token_at self.now.tokens i) }
    {
        let entry = self.entries[i];
        Span {
            start: entry.start,
            end: entry.end(),
        }
    }

    /// The bytes of token `i`.
    pub fn text(&self, i: usize) -> &[u8]
        requires { i < length self.now.tokens }
        ensures text { result.now ≡ (token_at self.now.tokens i).text }
        ensures slice { result.now ≡ slice_range self.now.bytes (token_at self.now.tokens i).start (end_of (token_at self.now.tokens i)) }
        ensures bars { (token_at self.now.tokens i).item ≡ Item.Quoted → 2 ≤ length result.now }
    {
        let entry = self.entries[i];
        &self.bytes[entry.start as usize..entry.end() as usize]
    }

    /// The number of the token behind the form that begins at token `i`; behind a `)` its own and one.
    pub fn after(&self, i: usize) -> usize
        requires { i < length self.now.tokens }
        ensures behind { result ≡ after_at self.now.tokens i }
        ensures within { (i < result) × (result ≤ length self.now.tokens) }
    {
        self.entries[i].after(i)
    }

    /// The symbol that token `i` is, without bars, and its bytes where it is none.
    pub fn name(&self, i: usize) -> &[u8]
        requires { i < length self.now.tokens }
        ensures { result.now ≡ name_of (token_at self.now.tokens i) }
    {
        let text = self.text(i);
        match self.item(i) {
            Item::Quoted => &text[1..text.len() - 1],
            _ => text,
        }
    }
}

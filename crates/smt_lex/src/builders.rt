//! The tokens of a text, as far as it was examined.

ghost use Rattle.std.specs.Prelude.{◌≡◌, ◌≢◌, ◌<◌, ◌≤◌, ◌+◌, ◌^◌, ◌&&◌, ◌==◌, [], Ok, length, slice_index, IfOk, OnOk, IfErr, vec_len, vec_capacity};
ghost use Rattle.smt_lex.specs.Lex.{line_at};
ghost use Rattle.smt_lex.specs.Forms.{tokens_of, is_exit_word};
ghost use Rattle.smt_lex.specs.Forest.{Refuses};
ghost use Rattle.smt_lex.specs.ByteClasses.{class_of};
ghost use Rattle.smt_lex.specs.Building.{Going, Nests, Spans, Stands, Puts, IsAtom, is_exit, names_exit, token_of, tokens_in};

use crate::classes::{Class, class_of, is_run_byte, symbols_end};
use crate::entries::{Entry, is_left};
use crate::faults::{LexFault, bad_byte, bad_token, open_text, unbalanced};
use crate::fronts::{Front, front_of};
use crate::items::{Item, Until};
use std::alloc::Global;

// How many bytes are gone through after room was made for as many tokens.
const STRETCH: usize = 4096;

// The tokens of the text before a place, and the numbers of the `(` of the lists that are open.
#[derive(Drop)]
struct Builder {
    place: usize,
    entries: Vec<Entry>,
    lists: Vec<u32>,
}

impl Builder {
    // Takes what the next bytes of the text begin.
    fn take_stretch(&mut self, bytes: &[u8], until: Until) -> Result<(), LexFault>
        requires small { length bytes.now < 2 ^ 32 }
        requires more { self.old.place < length bytes.now }
        requires going { Going until bytes.now self.old.place self.old.entries.items self.old.lists.items }
        ensures progress { OnOk result (self.old.place < self.new.place) }
        ensures going { OnOk result (Going until bytes.now self.new.place self.new.entries.items self.new.lists.items) }
        ensures fault { IfErr result (Refuses bytes.now (tokens_of until bytes.now)) }
    {
        let limit = bytes.len().min(self.place + STRETCH);
        self.entries.reserve(limit - self.place)?;
        self.lists.reserve(limit - self.place)?;
        while self.place < limit {
            match class_of(bytes[self.place]) {
                Class::Blank => self.place += 1,
                Class::Letter => {
                    let end = symbols_end(bytes, self.place + 1);
                    if end < bytes.len() && is_run_byte(bytes[end]) {
                        return Err(bad_token(bytes, self.place));
                    }
                    self.add_atom(Item::Word, end);
                }
                Class::Left => self.add_left(),
                Class::Right => {
                    if self.lists.is_empty() {
                        return Err(unbalanced(bytes, self.place));
                    }
                    self.take_right(bytes, until);
                }
                _ => self.take_other(bytes, until)?,
            }
        }
        Ok(())
    }

    // Takes what stands here, where that is no word, parenthesis or white space.
    fn take_other(&mut self, bytes: &[u8], until: Until) -> Result<(), LexFault>
        requires small { length bytes.now < 2 ^ 32 }
        requires more { self.old.place < length bytes.now }
        requires left { class_of (slice_index bytes.now self.old.place) ≢ Class.Left }
        requires right { class_of (slice_index bytes.now self.old.place) ≢ Class.Right }
        requires blank { class_of (slice_index bytes.now self.old.place) ≢ Class.Blank }
        requires letter { class_of (slice_index bytes.now self.old.place) ≢ Class.Letter }
        requires room { vec_len self.old.entries < vec_capacity self.old.entries }
        requires going { Going until bytes.now self.old.place self.old.entries.items self.old.lists.items }
        ensures progress { OnOk result (self.old.place < self.new.place) }
        ensures going { OnOk result (Going until bytes.now self.new.place self.new.entries.items self.new.lists.items) }
        ensures count { OnOk result (vec_len self.new.entries ≤ vec_len self.old.entries + 1) }
        ensures capacity { OnOk result (vec_capacity self.new.entries ≡ vec_capacity self.old.entries) }
        ensures lists { OnOk result (self.new.lists ≡ self.old.lists) }
        ensures fault { IfErr result (Refuses bytes.now (tokens_of until bytes.now)) }
    {
        let place = self.place;
        match front_of(&bytes[place..]) {
            Front::Gap(length) => self.place = place + length,
            Front::Lexeme(item, length) => self.add_atom(item, place + length),
            Front::BadByte(skipped) => return Err(bad_byte(bytes, place + skipped)),
            Front::BadToken => return Err(bad_token(bytes, place)),
            Front::OpenText => return Err(open_text(bytes, place)),
        }
        Ok(())
    }

    // Takes the `)` that stands here. Behind a form `(exit)` that stands in no other, nothing is left to take.
    fn take_right(&mut self, bytes: &[u8], until: Until)
        requires small { length bytes.now < 2 ^ 32 }
        requires more { self.old.place < length bytes.now }
        requires here { class_of (slice_index bytes.now self.old.place) ≡ Class.Right }
        requires closes { 0 < vec_len self.old.lists }
        requires room { vec_len self.old.entries < vec_capacity self.old.entries }
        requires going { Going until bytes.now self.old.place self.old.entries.items self.old.lists.items }
        ensures progress { self.old.place < self.new.place }
        ensures going { Going until bytes.now self.new.place self.new.entries.items self.new.lists.items }
        ensures count { vec_len self.new.entries ≡ vec_len self.old.entries + 1 }
        ensures capacity { vec_capacity self.new.entries ≡ vec_capacity self.old.entries }
        ensures fewer { vec_len self.new.lists ≤ vec_len self.old.lists }
        ensures same_room { vec_capacity self.new.lists ≡ vec_capacity self.old.lists }
    {
        let is_exit = self.closes_exit(bytes, until);
        self.add_right();
        if is_exit {
            self.place = bytes.len();
        }
    }

    // Whether a `)` behind the last token ends a form `(exit)` up to which the text is examined.
    fn closes_exit(&self, bytes: &[u8], until: Until) -> bool
        requires spans { Spans (length bytes.now) self.now.entries.items }
        ensures { result ≡ (length self.now.lists.items == 1 && (is_exit until && names_exit (tokens_in bytes.now self.now.entries.items))) }
    {
        self.lists.len() == 1 && self.names_exit(bytes, until)
    }

    // Whether the last two tokens are `(` and `exit`, and the text is examined up to `(exit)`.
    fn names_exit(&self, bytes: &[u8], until: Until) -> bool
        requires spans { Spans (length bytes.now) self.now.entries.items }
        ensures { result ≡ (is_exit until && names_exit (tokens_in bytes.now self.now.entries.items)) }
    {
        let count = self.entries.len();
        match until {
            Until::End => false,
            Until::Exit => {
                count > 1
                    && is_left(self.entries[count - 2].item)
                    && is_exit_word(self.entries[count - 1], bytes)
            }
        }
    }

    fn add_atom(&mut self, item: Item, end: usize)
        requires small { end < 2 ^ 32 }
        requires some { self.old.place < end }
        requires bars { item ≡ Item.Quoted → self.old.place + 1 < end }
        requires atom { IsAtom item }
        requires room { vec_len self.old.entries < vec_capacity self.old.entries }
        requires nests { Nests self.old.entries.items self.old.lists.items }
        ensures place { self.new.place ≡ end }
        ensures puts { Puts item self.old.place end self.old.entries.items self.new.entries.items self.old.lists.items self.new.lists.items }
        ensures count { vec_len self.new.entries ≡ vec_len self.old.entries + 1 }
        ensures capacity { vec_capacity self.new.entries ≡ vec_capacity self.old.entries }
        ensures lists { self.new.lists ≡ self.old.lists }
    {
        self.entries.push_reserved(Entry {
            start: self.place as u32,
            link: end as u32,
            item,
        });
        self.place = end;
    }

    fn add_left(&mut self)
        requires small { self.old.place + 1 < 2 ^ 32 }
        requires fewer { vec_len self.old.entries ≤ self.old.place }
        requires room { vec_len self.old.entries < vec_capacity self.old.entries }
        requires list_room { vec_len self.old.lists < vec_capacity self.old.lists }
        requires nests { Nests self.old.entries.items self.old.lists.items }
        ensures place { self.new.place ≡ self.old.place + 1 }
        ensures puts { Puts Item.Left self.old.place self.new.place self.old.entries.items self.new.entries.items self.old.lists.items self.new.lists.items }
        ensures count { vec_len self.new.entries ≡ vec_len self.old.entries + 1 }
        ensures capacity { vec_capacity self.new.entries ≡ vec_capacity self.old.entries }
        ensures list_count { vec_len self.new.lists ≡ vec_len self.old.lists + 1 }
        ensures list_capacity { vec_capacity self.new.lists ≡ vec_capacity self.old.lists }
    {
        self.lists.push_reserved(self.entries.len() as u32);
        self.entries.push_reserved(Entry {
            start: self.place as u32,
            link: 0,
            item: Item::Left,
        });
        self.place += 1;
    }

    fn add_right(&mut self)
        requires small { self.old.place + 1 < 2 ^ 32 }
        requires fewer { vec_len self.old.entries ≤ self.old.place }
        requires closes { 0 < vec_len self.old.lists }
        requires room { vec_len self.old.entries < vec_capacity self.old.entries }
        requires nests { Nests self.old.entries.items self.old.lists.items }
        ensures place { self.new.place ≡ self.old.place + 1 }
        ensures puts { Puts Item.Right self.old.place self.new.place self.old.entries.items self.new.entries.items self.old.lists.items self.new.lists.items }
        ensures count { vec_len self.new.entries ≡ vec_len self.old.entries + 1 }
        ensures capacity { vec_capacity self.new.entries ≡ vec_capacity self.old.entries }
        ensures list_count { vec_len self.new.lists + 1 ≡ vec_len self.old.lists }
        ensures list_capacity { vec_capacity self.new.lists ≡ vec_capacity self.old.lists }
    {
        let left = self.lists.pop().unwrap() as usize;
        let start = self.place as u32;
        self.entries.push_reserved(Entry {
            start,
            link: start + 1,
            item: Item::Right,
        });
        self.entries[left].link = self.entries.len() as u32;
        self.place += 1;
    }

    // The tokens, unless a list is still open at the end of the text.
    fn finish(self, bytes: &[u8]) -> Result<Vec<Entry>, LexFault>
        requires small { length bytes.now < 2 ^ 32 }
        ensures ok { IfOk result (λ entries. (entries.items ≡ self.entries.items) × (self.lists.items ≡ [])) }
        ensures fault { IfErr result (λ fault. (0 < vec_len self.lists) × (fault ≡ LexFault.Unbalanced (length bytes.now) (line_at bytes.now (length bytes.now)))) }
    {
        if !self.lists.is_empty() {
            return Err(unbalanced(bytes, bytes.len()));
        }
        Ok(self.entries)
    }
}

// Whether the token is the word `exit`.
fn is_exit_word(entry: Entry, bytes: &[u8]) -> bool
    requires stands { Stands (length bytes.now) entry }
    ensures { result ≡ is_exit_word entry.item (token_of bytes.now entry).text }
{
    match entry.item {
        Item::Word => &bytes[entry.start as usize..entry.end() as usize] == b"exit".as_slice(),
        _ => false,
    }
}

/// The tokens of the text, as far as it is examined.
#[inline(never)]
pub(crate) fn tokens_of(alloc: Global, bytes: &[u8], until: Until) -> Result<Vec<Entry>, LexFault>
    requires { length bytes.now < 2 ^ 32 }
    ensures spans { IfOk result (λ entries. Spans (length bytes.now) entries.items) }
    ensures ends { IfOk result (λ entries. Nests entries.items []) }
    ensures tokens { IfOk result (λ entries. tokens_of until bytes.now ≡ Ok (tokens_in bytes.now entries.items)) }
    ensures fault { IfErr result (Refuses bytes.now (tokens_of until bytes.now)) }
{
    let mut builder = Builder {
        place: 0,
        entries: Vec::new(alloc),
        lists: Vec::new(alloc),
    };
    while builder.place < bytes.len() {
        builder.take_stretch(bytes, until)?;
    }
    builder.finish(bytes)
}

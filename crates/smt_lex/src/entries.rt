//! The tokens of a text as they are kept.

ghost use Rattle.std.specs.Prelude.{◌≡◌, ◌<◌, ◌^◌};
ghost use Rattle.smt_lex.specs.Forms.{is_left};

use crate::items::Item;

/// A token: its first byte, its kind, and its link. That is for a `(` the number of the token behind its list, and
/// for any other token the byte behind it.
#[derive(Clone, Copy)]
pub(crate) struct Entry {
    pub(crate) start: u32,
    pub(crate) link: u32,
    pub(crate) item: Item,
}

const _: () = prove!(size_of::<Entry>() <= 12);

pub(crate) fn is_left(item: Item) -> bool
    ensures { result ≡ is_left item }
{
    matches!(item, Item::Left)
}

impl Entry {
    ghost use Rattle.smt_lex.specs.Building.{entry_end, entry_after};

    /// The byte behind the token.
    pub(crate) fn end(self) -> u32
        requires { entry_end self < 2 ^ 32 }
        ensures { result ≡ entry_end self }
    {
        if is_left(self.item) {
            self.start + 1
        } else {
            self.link
        }
    }

    /// The number of the token behind the form that begins here, where this token has that number.
    pub(crate) fn after(self, number: usize) -> usize
        requires { number < 2 ^ 32 }
        ensures { result ≡ entry_after self number }
    {
        if is_left(self.item) {
            self.link as usize
        } else {
            number + 1
        }
    }
}

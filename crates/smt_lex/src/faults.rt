//! Why a text isn't a list of forms.

ghost use Rattle.std.specs.Prelude.{◌≡◌, ◌≤◌, ◌<◌, ◌^◌, length};
ghost use Rattle.smt_lex.specs.Lex.{line_at};
ghost use Rattle.smt_lex.specs.declared.faults.LexFault.TheVariants.{Memory};

use std::alloc::{AllocError, AllocFailed};
use thiserror::Error;

/// The first fault of a text. A place counts bytes from 0, a line counts from 1.
#[derive(Clone, Copy, Debug, PartialEq, Eq, Error)]
pub enum LexFault {
    /// A byte that may not stand where it does.
    #[error("line {line}: a byte that may not stand here, at {place}")]
    BadByte { place: u32, line: u64 },
    /// A run of symbol bytes, `:` and `#` that is no token.
    #[error("line {line}: no token, at {place}")]
    BadToken { place: u32, line: u64 },
    /// A string literal or quoted symbol that isn't closed, at its first byte.
    #[error("line {line}: a string or quoted symbol that isn't closed, at {place}")]
    OpenText { place: u32, line: u64 },
    /// A `)` without its `(`, or at the end of the text a `(` without its `)`.
    #[error("line {line}: a parenthesis without its other one, at {place}")]
    Unbalanced { place: u32, line: u64 },
    /// There was not enough memory.
    #[error("want of memory")]
    Memory,
}

impl From<AllocError> for LexFault {
    ghost from_gives = { λ _ e. e ≡ Memory };

    fn from(_error: AllocError) -> LexFault {
        LexFault::Memory
    }
}

impl<T: Drop> From<AllocFailed<T>> for LexFault {
    ghost from_gives = { λ _ e. e ≡ Memory };

    fn from(_error: AllocFailed<T>) -> LexFault {
        LexFault::Memory
    }
}

/// The line of the byte at this place: 1 and the number of LF before it.
pub fn line_of(bytes: &[u8], place: usize) -> u64
    requires { place ≤ length bytes.now }
    ensures { result ≡ line_at bytes.now place }
{
    let mut line = 1;
    for byte in &bytes[..place] {
        if *byte == b'\n' {
            line += 1;
        }
    }
    line
}

#[cold]
#[inline(never)]
pub(crate) fn bad_byte(bytes: &[u8], place: usize) -> LexFault
    requires within { place ≤ length bytes.now }
    requires small { length bytes.now < 2 ^ 32 }
    ensures { result ≡ LexFault.BadByte place (line_at bytes.now place) }
{
    LexFault::BadByte {
        place: place as u32,
        line: line_of(bytes, place),
    }
}

#[cold]
#[inline(never)]
pub(crate) fn bad_token(bytes: &[u8], place: usize) -> LexFault
    requires within { place ≤ length bytes.now }
    requires small { length bytes.now < 2 ^ 32 }
    ensures { result ≡ LexFault.BadToken place (line_at bytes.now place) }
{
    LexFault::BadToken {
        place: place as u32,
        line: line_of(bytes, place),
    }
}

#[cold]
#[inline(never)]
pub(crate) fn open_text(bytes: &[u8], place: usize) -> LexFault
    requires within { place ≤ length bytes.now }
    requires small { length bytes.now < 2 ^ 32 }
    ensures { result ≡ LexFault.OpenText place (line_at bytes.now place) }
{
    LexFault::OpenText {
        place: place as u32,
        line: line_of(bytes, place),
    }
}

#[cold]
#[inline(never)]
pub(crate) fn unbalanced(bytes: &[u8], place: usize) -> LexFault
    requires within { place ≤ length bytes.now }
    requires small { length bytes.now < 2 ^ 32 }
    ensures { result ≡ LexFault.Unbalanced place (line_at bytes.now place) }
{
    LexFault::Unbalanced {
        place: place as u32,
        line: line_of(bytes, place),
    }
}

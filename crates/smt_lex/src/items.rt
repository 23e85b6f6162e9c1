//! What a text is cut into.

/// How far a text is examined.
#[derive(Clone, Copy, Debug, PartialEq, Eq)]
pub enum Until {
    /// To its end.
    End,
    /// Up to and including the first form `(exit)` that stands in no other, or to the end where there is none.
    Exit,
}

/// The kinds of tokens (SMT-LIB 2.6, section 3.1).
#[derive(Clone, Copy, Debug, PartialEq, Eq)]
#[repr(u8)]
pub enum Item {
    /// `(`
    Left,
    /// `)`
    Right,
    /// `0`, or digits that begin with another digit than 0.
    Numeral,
    /// A numeral, a dot and one or more digits.
    Decimal,
    /// `#x` and one or more hexadecimal digits of either case.
    Hex,
    /// `#b` and one or more binary digits.
    Bin,
    /// A string literal with its quotes.
    Text,
    /// A simple symbol or a reserved word.
    Word,
    /// A quoted symbol with its bars.
    Quoted,
    /// `:` and one or more symbol bytes.
    Keyword,
}

/// A part of a text: from the byte at `start` to the one before `end`, counted from 0.
#[derive(Clone, Copy, Debug, PartialEq, Eq)]
pub struct Span {
    /// The first byte.
    pub start: u32,
    /// The byte behind the last one.
    pub end: u32,
}

//! What a text begins with.

ghost use Rattle.std.specs.Prelude.{◌≡◌, ◌≢◌, ◌+◌, ◌<◌, ◌≤◌, true, false, length, slice_index, slice_index_or, IfSome};
ghost use Rattle.smt_lex.specs.ByteClasses.{class_of};
ghost use Rattle.smt_lex.specs.Lexicon.{is_run_byte};
ghost use Rattle.smt_lex.specs.Lex.{front, run_front, literal_front, literal_length, quoted_front};
ghost use Rattle.smt_lex.specs.Building.{FitsIn, HasAtom};

use crate::classes::{
    Class, binary_length, class_of, digits_length, hexadecimal_length, is_run_byte, length_until,
    line_length, run_length,
};
use crate::items::Item;
use crate::runs::run_item;

/// What a text begins with, and how many bytes of it that is.
#[derive(Clone, Copy)]
pub(crate) enum Front {
    /// White space, or a comment.
    Gap(usize),
    /// A token.
    Lexeme(Item, usize),
    /// A byte that may not stand where it does, behind this many bytes.
    BadByte(usize),
    /// A run that is no token.
    BadToken,
    /// A literal or quoted symbol that isn't closed.
    OpenText,
}

/// What the text begins with, where that is no word, parenthesis or white space.
#[inline(never)]
pub(crate) fn front_of(text: &[u8]) -> Front
    requires some { 0 < length text.now }
    requires left { class_of (slice_index text.now 0) ≢ Class.Left }
    requires right { class_of (slice_index text.now 0) ≢ Class.Right }
    requires blank { class_of (slice_index text.now 0) ≢ Class.Blank }
    requires letter { class_of (slice_index text.now 0) ≢ Class.Letter }
    ensures within { FitsIn (length text.now) result }
    ensures atom { HasAtom result }
    ensures value { result ≡ front text.now }
{
    match class_of(text[0]) {
        Class::Semicolon => Front::Gap(1 + line_length(&text[1..])),
        Class::Quote => literal_front(&text[1..]),
        Class::Bar => quoted_front(&text[1..]),
        Class::Digit => digit_front(text),
        Class::Hash => hash_front(text),
        Class::Colon => run_front(text),
        _ => Front::BadByte(0),
    }
}

// What the run is that the text begins with, whose first byte is a digit.
fn digit_front(text: &[u8]) -> Front
    requires some { 0 < length text.now }
    requires digit { class_of (slice_index text.now 0) ≡ Class.Digit }
    ensures within { FitsIn (length text.now) result }
    ensures atom { HasAtom result }
    ensures value { result ≡ run_front text.now }
{
    let length = digits_length(text);
    if ends_run(text, length) && (length == 1 || text[0] != b'0') {
        Front::Lexeme(Item::Numeral, length)
    } else {
        run_front(text)
    }
}

// What the run is that the text begins with, whose first byte is a `#`.
fn hash_front(text: &[u8]) -> Front
    ensures within { FitsIn (length text.now) result }
    ensures atom { HasAtom result }
    ensures value { result ≡ run_front text.now }
{
    if text.starts_with(b"#x") {
        let length = 2 + hexadecimal_length(&text[2..]);
        if length > 2 && ends_run(text, length) {
            return Front::Lexeme(Item::Hex, length);
        }
    } else if text.starts_with(b"#b") {
        let length = 2 + binary_length(&text[2..]);
        if length > 2 && ends_run(text, length) {
            return Front::Lexeme(Item::Bin, length);
        }
    }
    run_front(text)
}

// Whether a run that goes up to here ends here.
fn ends_run(text: &[u8], at: usize) -> bool
    requires { at ≤ length text.now }
    ensures ends { result ≡ true → at < length text.now → is_run_byte (slice_index_or text.now at 0) ≡ false }
{
    at == text.len() || !is_run_byte(text[at])
}

// What the run is that the text begins with.
fn run_front(text: &[u8]) -> Front
    ensures within { FitsIn (length text.now) result }
    ensures atom { HasAtom result }
    ensures value { result ≡ run_front text.now }
{
    let length = run_length(text);
    match run_item(&text[..length]) {
        Some(item) => Front::Lexeme(item, length),
        None => Front::BadToken,
    }
}

// The literal whose first quote stands before the text.
fn literal_front(text: &[u8]) -> Front
    ensures within { FitsIn (length text.now + 1) result }
    ensures atom { HasAtom result }
    ensures value { result ≡ literal_front text.now }
{
    match literal_length(text) {
        Some(length) => Front::Lexeme(Item::Text, 1 + length),
        None => Front::OpenText,
    }
}

// How many bytes there are up to and including the quote that ends a literal: the first that isn't doubled.
fn literal_length(text: &[u8]) -> Option<usize>
    ensures within { IfSome result (λ n. n ≤ length text.now) }
    ensures closed { result ≡ literal_length text.now }
{
    let mut at = 0;
    while at < text.len() {
        if text[at] != b'"' {
            at += 1;
        } else if at + 1 < text.len() && text[at + 1] == b'"' {
            at += 2;
        } else {
            return Some(at + 1);
        }
    }
    None
}

// The quoted symbol whose first bar stands before the text.
fn quoted_front(text: &[u8]) -> Front
    ensures within { FitsIn (length text.now + 1) result }
    ensures atom { HasAtom result }
    ensures value { result ≡ quoted_front text.now }
{
    let length = length_until(text, b'|');
    if length == text.len() {
        return Front::OpenText;
    }
    let clean = length_until(&text[..length], b'\\');
    if clean < length {
        Front::BadByte(1 + clean)
    } else {
        Front::Lexeme(Item::Quoted, 2 + length)
    }
}

//! Which token a run is.

ghost use Rattle.std.specs.Prelude.{◌≡◌, IfSome, slice_index_or, true};
ghost use Rattle.std.specs.Char.{is_ascii_digit, is_ascii_hexdigit};
ghost use Rattle.smt_lex.specs.Lexicon.{hash, is_word, is_numeral, is_keyword, is_decimal, is_hexadecimal, is_binary, is_some_of, is_symbol_byte, is_binary_digit, starts_as, run_item};
ghost use Rattle.smt_lex.specs.Building.{IsAtom};

use crate::classes::{digits_length, is_binary_digit, is_symbol_byte};
use crate::items::Item;

/// The token that the run is, or None where it is none.
pub(crate) fn run_item(run: &[u8]) -> Option<Item>
    ensures item { result ≡ run_item run.now }
    ensures atom { IfSome result IsAtom }
{
    let [first, ..] = run else { return None };
    match *first {
        b'#' => hash_item(run),
        b':' => is_keyword(run).then_some(Item::Keyword),
        b'0'..=b'9' => number_item(run),
        _ => is_word(run).then_some(Item::Word),
    }
}

// The token that the run is, which begins with a `#`.
fn hash_item(run: &[u8]) -> Option<Item>
    requires { slice_index_or run.now 0 0 ≡ hash }
    ensures item { result ≡ run_item run.now }
    ensures atom { IfSome result IsAtom }
{
    if is_hexadecimal(run) {
        Some(Item::Hex)
    } else {
        is_binary(run).then_some(Item::Bin)
    }
}

// The token that the run is, which begins with a digit.
fn number_item(run: &[u8]) -> Option<Item>
    requires { starts_as is_ascii_digit run.now ≡ true }
    ensures item { result ≡ run_item run.now }
    ensures atom { IfSome result IsAtom }
{
    if is_numeral(run) {
        Some(Item::Numeral)
    } else {
        is_decimal(run).then_some(Item::Decimal)
    }
}

/// Symbol bytes that don't begin with a digit.
pub(crate) fn is_word(run: &[u8]) -> bool
    ensures { result ≡ is_word run.now }
{
    !starts_with_digit(run) && is_symbol_bytes(run)
}

/// Whether the text is `0`, or digits that begin with another digit than 0: a numeral of SMT-LIB 2.6, section 3.1.
pub fn is_numeral(run: &[u8]) -> bool
    ensures { result ≡ is_numeral run.now }
{
    are_digits(run) && (!run.starts_with(b"0") || run.len() == 1)
}

// `:` and one or more symbol bytes.
fn is_keyword(run: &[u8]) -> bool
    ensures { result ≡ is_keyword run.now }
{
    run.starts_with(b":") && is_symbol_bytes(&run[1..])
}

// A numeral, a dot and one or more digits.
fn is_decimal(run: &[u8]) -> bool
    ensures { result ≡ is_decimal run.now }
{
    let whole = digits_length(run);
    is_numeral(&run[..whole]) && run[whole..].starts_with(b".") && are_digits(&run[whole + 1..])
}

// `#x` and one or more hexadecimal digits.
fn is_hexadecimal(run: &[u8]) -> bool
    ensures { result ≡ is_hexadecimal run.now }
{
    run.starts_with(b"#x") && is_hexadecimal_digits(&run[2..])
}

// `#b` and one or more binary digits.
fn is_binary(run: &[u8]) -> bool
    ensures { result ≡ is_binary run.now }
{
    run.starts_with(b"#b") && is_binary_digits(&run[2..])
}

fn starts_with_digit(text: &[u8]) -> bool
    ensures { result ≡ starts_as is_ascii_digit text.now }
{
    !text.is_empty() && text[0].is_ascii_digit()
}

// One or more symbol bytes.
fn is_symbol_bytes(text: &[u8]) -> bool
    ensures { result ≡ is_some_of is_symbol_byte text.now }
{
    for byte in text {
        if !is_symbol_byte(*byte) {
            return false;
        }
    }
    !text.is_empty()
}

/// Whether the text is one or more digits.
pub fn are_digits(text: &[u8]) -> bool
    ensures { result ≡ is_some_of is_ascii_digit text.now }
{
    for byte in text {
        if !byte.is_ascii_digit() {
            return false;
        }
    }
    !text.is_empty()
}

// One or more hexadecimal digits.
fn is_hexadecimal_digits(text: &[u8]) -> bool
    ensures { result ≡ is_some_of is_ascii_hexdigit text.now }
{
    for byte in text {
        if !byte.is_ascii_hexdigit() {
            return false;
        }
    }
    !text.is_empty()
}

// One or more binary digits.
fn is_binary_digits(text: &[u8]) -> bool
    ensures { result ≡ is_some_of is_binary_digit text.now }
{
    for byte in text {
        if !is_binary_digit(*byte) {
            return false;
        }
    }
    !text.is_empty()
}

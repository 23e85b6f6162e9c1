//! The classes of bytes, and how many bytes of a class a text begins with.

ghost use Rattle.std.specs.Prelude.{◌≡◌, ◌≤◌, ◌==◌, ◌+◌, drop, length, not};
ghost use Rattle.std.specs.Char.{is_ascii_digit, is_ascii_hexdigit};
ghost use Rattle.smt_lex.specs.Lexicon.{is_symbol_byte, is_run_byte, is_binary_digit, is_line_end, length_while};
ghost use Rattle.smt_lex.specs.ByteClasses.{class_of};

use self::Class::{Bar, Blank, Colon, Digit, Hash, Left, Letter, Other, Quote, Right, Semicolon};

/// The classes of bytes.
#[derive(Clone, Copy)]
pub(crate) enum Class {
    /// A letter or mark of simple symbols.
    Letter,
    /// A digit.
    Digit,
    /// `:`
    Colon,
    /// `#`
    Hash,
    /// White space.
    Blank,
    /// `(`
    Left,
    /// `)`
    Right,
    /// `"`
    Quote,
    /// `|`
    Bar,
    /// `;`
    Semicolon,
    /// A byte that no token begins with.
    Other,
}

static CLASSES: [Class; 256] = [
    Other, Other, Other, Other, Other, Other, Other, Other, Other, Blank, Blank, Other, Other,
    Blank, Other, Other, Other, Other, Other, Other, Other, Other, Other, Other, Other, Other,
    Other, Other, Other, Other, Other, Other, Blank, Letter, Quote, Hash, Letter, Letter, Letter,
    Other, Left, Right, Letter, Letter, Other, Letter, Letter, Letter, Digit, Digit, Digit, Digit,
    Digit, Digit, Digit, Digit, Digit, Digit, Colon, Semicolon, Letter, Letter, Letter, Letter,
    Letter, Letter, Letter, Letter, Letter, Letter, Letter, Letter, Letter, Letter, Letter, Letter,
    Letter, Letter, Letter, Letter, Letter, Letter, Letter, Letter, Letter, Letter, Letter, Letter,
    Letter, Letter, Letter, Other, Other, Other, Letter, Letter, Other, Letter, Letter, Letter,
    Letter, Letter, Letter, Letter, Letter, Letter, Letter, Letter, Letter, Letter, Letter, Letter,
    Letter, Letter, Letter, Letter, Letter, Letter, Letter, Letter, Letter, Letter, Letter, Other,
    Bar, Other, Letter, Other, Other, Other, Other, Other, Other, Other, Other, Other, Other,
    Other, Other, Other, Other, Other, Other, Other, Other, Other, Other, Other, Other, Other,
    Other, Other, Other, Other, Other, Other, Other, Other, Other, Other, Other, Other, Other,
    Other, Other, Other, Other, Other, Other, Other, Other, Other, Other, Other, Other, Other,
    Other, Other, Other, Other, Other, Other, Other, Other, Other, Other, Other, Other, Other,
    Other, Other, Other, Other, Other, Other, Other, Other, Other, Other, Other, Other, Other,
    Other, Other, Other, Other, Other, Other, Other, Other, Other, Other, Other, Other, Other,
    Other, Other, Other, Other, Other, Other, Other, Other, Other, Other, Other, Other, Other,
    Other, Other, Other, Other, Other, Other, Other, Other, Other, Other, Other, Other, Other,
    Other, Other, Other, Other, Other, Other, Other, Other, Other, Other, Other, Other, Other,
    Other, Other,
];

pub(crate) fn class_of(byte: u8) -> Class
    ensures { result ≡ class_of byte }
{
    CLASSES[byte as usize]
}

/// A byte that a simple symbol may contain: a letter, a digit or one of `~!@$%^&*_-+=<>.?/`.
pub(crate) fn is_symbol_byte(byte: u8) -> bool
    ensures { result ≡ is_symbol_byte byte }
{
    matches!(class_of(byte), Class::Letter | Class::Digit)
}

/// A byte of a run: of a symbol, `:` or `#`.
pub(crate) fn is_run_byte(byte: u8) -> bool
    ensures { result ≡ is_run_byte byte }
{
    matches!(
        class_of(byte),
        Class::Letter | Class::Digit | Class::Colon | Class::Hash
    )
}

/// The first place from here on where no symbol byte stands.
pub(crate) fn symbols_end(bytes: &[u8], from: usize) -> usize
    requires { from ≤ length bytes.now }
    ensures within { (from ≤ result) × (result ≤ length bytes.now) }
    ensures longest { result ≡ from + length_while is_symbol_byte (drop from bytes.now) }
{
    let mut at = from;
    while at < bytes.len() && is_symbol_byte(bytes[at]) {
        at += 1;
    }
    at
}

/// How many bytes of a run the text begins with.
pub(crate) fn run_length(text: &[u8]) -> usize
    ensures within { result ≤ length text.now }
    ensures longest { result ≡ length_while is_run_byte text.now }
{
    for (i, byte) in text.iter().enumerate() {
        if !is_run_byte(*byte) {
            return i;
        }
    }
    text.len()
}

/// How many digits the text begins with.
pub(crate) fn digits_length(text: &[u8]) -> usize
    ensures within { result ≤ length text.now }
    ensures longest { result ≡ length_while is_ascii_digit text.now }
{
    for (i, byte) in text.iter().enumerate() {
        if !byte.is_ascii_digit() {
            return i;
        }
    }
    text.len()
}

/// How many hexadecimal digits the text begins with.
pub(crate) fn hexadecimal_length(text: &[u8]) -> usize
    ensures within { result ≤ length text.now }
    ensures longest { result ≡ length_while is_ascii_hexdigit text.now }
{
    for (i, byte) in text.iter().enumerate() {
        if !byte.is_ascii_hexdigit() {
            return i;
        }
    }
    text.len()
}

/// How many binary digits the text begins with.
pub(crate) fn binary_length(text: &[u8]) -> usize
    ensures within { result ≤ length text.now }
    ensures longest { result ≡ length_while is_binary_digit text.now }
{
    for (i, byte) in text.iter().enumerate() {
        if !is_binary_digit(*byte) {
            return i;
        }
    }
    text.len()
}

/// How many bytes the text has before the first LF or CR.
pub(crate) fn line_length(text: &[u8]) -> usize
    ensures within { result ≤ length text.now }
    ensures longest { result ≡ length_while (λ b. not (is_line_end b)) text.now }
{
    for (i, byte) in text.iter().enumerate() {
        if *byte == b'\n' || *byte == b'\r' {
            return i;
        }
    }
    text.len()
}

/// How many bytes the text has before the first byte of this kind.
pub(crate) fn length_until(text: &[u8], stop: u8) -> usize
    ensures within { result ≤ length text.now }
    ensures longest { result ≡ length_while (λ b. not (b == stop)) text.now }
{
    for (i, byte) in text.iter().enumerate() {
        if *byte == stop {
            return i;
        }
    }
    text.len()
}

/// `0` or `1`.
pub(crate) fn is_binary_digit(byte: u8) -> bool
    ensures { result ≡ is_binary_digit byte }
{
    byte == b'0' || byte == b'1'
}

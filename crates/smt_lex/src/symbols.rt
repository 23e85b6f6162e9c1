//! Reserved words, and how symbols are printed.

ghost use Rattle.std.specs.Prelude.{◌≡◌, [], ◌∷◌, ◌++◌, map, IfOk, OnOk, OnErr};
ghost use Rattle.smt_lex.specs.Lexicon.{bar};
ghost use Rattle.smt_lex.specs.Names.{is_among, is_command_word, is_reserved, is_simple, IsName, printed_symbol};
ghost use Rattle.smt_lex.specs.Lex.{IsOneSymbol};

use crate::runs::is_word;
use std::alloc::{AllocError, Global};

// The commands that begin with each letter, where there are several.
static COMMANDS_WITH_C: [&[u8]; 2] = [b"check-sat", b"check-sat-assuming"];

static COMMANDS_WITH_D: [&[u8]; 9] = [
    b"declare-const",
    b"declare-datatype",
    b"declare-datatypes",
    b"declare-fun",
    b"declare-sort",
    b"define-fun",
    b"define-fun-rec",
    b"define-funs-rec",
    b"define-sort",
];

static COMMANDS_WITH_E: [&[u8]; 2] = [b"echo", b"exit"];

static COMMANDS_WITH_G: [&[u8]; 9] = [
    b"get-assertions",
    b"get-assignment",
    b"get-info",
    b"get-model",
    b"get-option",
    b"get-proof",
    b"get-unsat-assumptions",
    b"get-unsat-core",
    b"get-value",
];

static COMMANDS_WITH_P: [&[u8]; 2] = [b"pop", b"push"];

static COMMANDS_WITH_R: [&[u8]; 2] = [b"reset", b"reset-assertions"];

static COMMANDS_WITH_S: [&[u8]; 3] = [b"set-info", b"set-logic", b"set-option"];

// The reserved words that begin with each letter, where some belong to the syntax and some name commands.
static RESERVED_WITH_A: [&[u8]; 2] = [b"as", b"assert"];

static RESERVED_WITH_E: [&[u8]; 3] = [b"exists", b"echo", b"exit"];

static RESERVED_WITH_P: [&[u8]; 3] = [b"par", b"pop", b"push"];

// Whether the name is a symbol without bars.
fn is_simple(name: &[u8]) -> bool
    ensures { result ≡ is_simple name.now }
{
    is_word(name) && !is_reserved(name)
}

/// Whether the word belongs to the syntax or names a command.
pub fn is_reserved(word: &[u8]) -> bool
    ensures { result ≡ is_reserved word.now }
{
    let [first, ..] = word else { return false };
    match *first {
        b'!' => word == b"!".as_slice(),
        b'B' => word == b"BINARY".as_slice(),
        b'D' => word == b"DECIMAL".as_slice(),
        b'H' => word == b"HEXADECIMAL".as_slice(),
        b'N' => word == b"NUMERAL".as_slice(),
        b'S' => word == b"STRING".as_slice(),
        b'_' => word == b"_".as_slice(),
        b'a' => is_among(&RESERVED_WITH_A, word),
        b'c' => is_among(&COMMANDS_WITH_C, word),
        b'd' => is_among(&COMMANDS_WITH_D, word),
        b'e' => is_among(&RESERVED_WITH_E, word),
        b'f' => word == b"forall".as_slice(),
        b'g' => is_among(&COMMANDS_WITH_G, word),
        b'l' => word == b"let".as_slice(),
        b'm' => word == b"match".as_slice(),
        b'p' => is_among(&RESERVED_WITH_P, word),
        b'r' => is_among(&COMMANDS_WITH_R, word),
        b's' => is_among(&COMMANDS_WITH_S, word),
        _ => false,
    }
}

/// Whether the word names a command.
pub fn is_command_word(word: &[u8]) -> bool
    ensures { result ≡ is_command_word word.now }
{
    let [first, ..] = word else { return false };
    match *first {
        b'a' => word == b"assert".as_slice(),
        b'c' => is_among(&COMMANDS_WITH_C, word),
        b'd' => is_among(&COMMANDS_WITH_D, word),
        b'e' => is_among(&COMMANDS_WITH_E, word),
        b'g' => is_among(&COMMANDS_WITH_G, word),
        b'p' => is_among(&COMMANDS_WITH_P, word),
        b'r' => is_among(&COMMANDS_WITH_R, word),
        b's' => is_among(&COMMANDS_WITH_S, word),
        _ => false,
    }
}

/// Whether it is one of the words.
pub fn is_among(words: &[&[u8]], word: &[u8]) -> bool
    ensures { result ≡ is_among (map (λ other. other.now) words.now) word.now }
{
    for other in words {
        if word == *other {
            return true;
        }
    }
    false
}

/// Appends the symbol of this name as it is printed: with bars unless the name is a word that isn't reserved.
/// A name has no `|` and no `\`. A refusal leaves `out` as before.
pub fn symbol_text(alloc: Global, name: &[u8], out: &mut Vec<u8>) -> Result<(), AllocError>
    requires { IsName name.now }
    ensures ok { OnOk result (out.new.items ≡ out.old.items ++ printed_symbol name.now) }
    ensures refused { OnErr result (out.new.items ≡ out.old.items) }
    ensures one { IsOneSymbol (printed_symbol name.now) name.now }
{
    if is_simple(name) {
        return out.extend_from_slice(name);
    }
    let text = quoted(alloc, name)?;
    out.extend_from_slice(&text)
}

// The name between bars.
fn quoted(alloc: Global, name: &[u8]) -> Result<Vec<u8>, AllocError>
    ensures { IfOk result (λ text. text.items ≡ bar ∷ name.now ++ bar ∷ []) }
{
    let mut text = Vec::new(alloc);
    text.push(b'|')?;
    text.extend_from_slice(name)?;
    text.push(b'|')?;
    Ok(text)
}

//! The forms of a text by the numbers of their first tokens.

ghost use Rattle.std.specs.Prelude.{◌≡◌, ◌+◌, ◌*◌, ◌^◌, ◌<◌, ◌≤◌, true, false, length, Some, None, option_map, IfSome};
ghost use Rattle.std.specs.Char.{digit_value};
ghost use Rattle.std.specs.Str.Parse.{digits_value};
ghost use Rattle.smt_lex.specs.Lex.{symbol_of, name_of};
ghost use Rattle.smt_lex.specs.Forest.{token_at};
ghost use Rattle.smt_lex.specs.Forms.{none};
ghost use Rattle.smt_lex.specs.Names.{is_reserved};
ghost use Rattle.script_terms.specs.Parts.{place_of, symbol_in, word_in, is_name, is_keyword, keyword_in, numeral_in};
ghost use Rattle.script_terms.specs.Places.{IsForm, form_from, forms_from, pair_in, two_from, capped};
ghost use Rattle.script_terms.specs.PlaceClauses.{BeginsForm, IsListAt, AreTwo};

use crate::causes::Cause;
use crate::faults::Fault;
use crate::numbers::{FEW, digit_value, short_number};
use smt_lex::{Forest, Item, is_reserved};

/// The least number that no numeral may have.
pub const GREATEST: u128 = 1 << 127;

/// Whether a form begins at token `i`, which else is a `)` or past the last.
pub fn begins(forest: &Forest, i: usize) -> bool
    requires { i ≤ length forest.now.tokens }
    ensures yes { result ≡ true → BeginsForm forest.now.tokens i }
    ensures no { result ≡ false → forms_from forest.now.tokens i ≡ none }
{
    if i >= forest.len() {
        return false;
    }
    match forest.item(i) {
        Item::Right => false,
        _ => true,
    }
}

/// The first token inside the list that begins at token `i`; None where no list begins there.
pub fn inside(forest: &Forest, i: usize) -> Option<usize>
    requires { IsForm forest.now.tokens i }
    ensures { IsListAt forest.now.tokens i result }
{
    let _ = forest.len();
    match forest.item(i) {
        Item::Left => Some(i + 1),
        _ => None,
    }
}

/// The two forms of the list that begins at token `i`; None where it isn't a list of two.
pub fn two_inside(forest: &Forest, i: usize) -> Option<(usize, usize)>
    requires { IsForm forest.now.tokens i }
    ensures forms { option_map (two_from forest.now.tokens) result ≡ pair_in (form_from forest.now.tokens i) }
    ensures within { IfSome result (AreTwo forest.now.tokens i) }
{
    let first = inside(forest, i)?;
    if !begins(forest, first) {
        return None;
    }
    let second = forest.after(first);
    if !begins(forest, second) || begins(forest, forest.after(second)) {
        return None;
    }
    Some((first, second))
}

/// The first byte of the form that begins at token `i`.
pub fn place_of(forest: &Forest, i: usize) -> u32
    requires { IsForm forest.now.tokens i }
    ensures place { result ≡ place_of (form_from forest.now.tokens i) }
    ensures start { result ≡ (token_at forest.now.tokens i).start }
{
    forest.span(i).start
}

/// The fault of a form that may not stand at its place.
pub fn bad_form(forest: &Forest, i: usize) -> Fault
    requires { IsForm forest.now.tokens i }
    ensures cause { result.cause ≡ Cause.BadForm }
    ensures place { result.place ≡ place_of (form_from forest.now.tokens i) }
    ensures start { result.place ≡ (token_at forest.now.tokens i).start }
{
    fault(forest, i, Cause::BadForm)
}

/// The fault of this cause at the form that begins at token `i`.
pub fn fault(forest: &Forest, i: usize, cause: Cause) -> Fault
    requires { IsForm forest.now.tokens i }
    ensures cause { result.cause ≡ cause }
    ensures place { result.place ≡ place_of (form_from forest.now.tokens i) }
    ensures start { result.place ≡ (token_at forest.now.tokens i).start }
{
    Fault {
        cause,
        place: place_of(forest, i),
    }
}

/// Whether the form that begins at token `i` is a symbol, whose name is the token's.
pub fn is_symbol(forest: &Forest, i: usize) -> bool
    requires { IsForm forest.now.tokens i }
    ensures yes { result ≡ true → symbol_in (form_from forest.now.tokens i) ≡ Some (name_of (token_at forest.now.tokens i)) }
    ensures token { result ≡ true → symbol_of (token_at forest.now.tokens i) ≡ Some (name_of (token_at forest.now.tokens i)) }
    ensures no { result ≡ false → symbol_in (form_from forest.now.tokens i) ≡ None }
{
    match forest.item(i) {
        Item::Word => !is_reserved_word(forest.text(i)),
        Item::Quoted => true,
        _ => false,
    }
}

// Whether a word is reserved, as none is that ends in a digit.
fn is_reserved_word(word: &[u8]) -> bool
    ensures { result ≡ is_reserved word.now }
{
    match word {
        [.., last] if last.is_ascii_digit() => false,
        _ => is_reserved(word),
    }
}

/// Whether the form that begins at token `i` is a symbol, or a reserved word.
pub fn is_name(forest: &Forest, i: usize) -> bool
    requires { IsForm forest.now.tokens i }
    ensures yes { result ≡ true → is_reserved (name_of (token_at forest.now.tokens i)) ≡ false → symbol_in (form_from forest.now.tokens i) ≡ Some (name_of (token_at forest.now.tokens i)) }
    ensures no { result ≡ false → symbol_in (form_from forest.now.tokens i) ≡ None }
{
    match forest.item(i) {
        Item::Word | Item::Quoted => true,
        _ => false,
    }
}

/// Whether the form that begins at token `i` is this word, reserved or not, without bars.
pub fn is_word(forest: &Forest, i: usize, word: &[u8]) -> bool
    requires { IsForm forest.now.tokens i }
    ensures { result ≡ is_name word.now (word_in (form_from forest.now.tokens i)) }
{
    match forest.item(i) {
        Item::Word => forest.text(i) == word,
        _ => false,
    }
}

/// The numeral that begins at token `i`, or 2^127 where it is greater; None where none begins there.
pub fn numeral_at(forest: &Forest, i: usize) -> Option<u128>
    requires { IsForm forest.now.tokens i }
    ensures { result ≡ option_map capped (numeral_in (form_from forest.now.tokens i)) }
{
    match forest.item(i) {
        Item::Numeral => Some(capped_value(forest.text(i))),
        _ => None,
    }
}

// The number of these digits, or 2^127 where it is greater.
fn capped_value(digits: &[u8]) -> u128
    ensures { result ≡ capped (digits_value 10 digits.now) }
{
    if digits.len() <= FEW {
        return u128::from(short_number(10, digits));
    }
    let mut value = 0;
    for digit in digits {
        value = with_digit(value, *digit);
    }
    value
}

// The number with one digit more, or 2^127 where it is greater.
fn with_digit(value: u128, digit: u8) -> u128
    requires { value ≤ 2 ^ 127 }
    ensures { result ≡ capped (value * 10 + digit_value digit) }
{
    if value > GREATEST / 10 {
        return GREATEST;
    }
    (value * 10 + u128::from(digit_value(digit))).min(GREATEST)
}

/// The keyword that the form of token `i` is.
pub fn keyword_at(forest: &Forest, i: usize) -> Option<&[u8]>
    requires { IsForm forest.now.tokens i }
    ensures { option_map (λ k. k.now) result ≡ keyword_in (form_from forest.now.tokens i) }
{
    match forest.item(i) {
        Item::Keyword => Some(forest.text(i)),
        _ => None,
    }
}

/// Whether the form of token `i` is a keyword.
pub fn is_keyword(forest: &Forest, i: usize) -> bool
    requires { IsForm forest.now.tokens i }
    ensures { result ≡ is_keyword (form_from forest.now.tokens i) }
{
    keyword_at(forest, i).is_some()
}

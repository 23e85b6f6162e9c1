//! Constants of the theories, as model texts write them.

ghost use Rattle.std.specs.Prelude.{◌≡◌, ◌≤◌, ◌<◌, ◌*◌, ◌^◌, ℕ, List, length, drop, true, false, pos, Some, option_map, MatchOption, IfOk};
ghost use Rattle.std.specs.Char.{digit_value};
ghost use Rattle.std.specs.Str.Parse.{digits_value};
ghost use Rattle.smt_lex.specs.Forms.{atom};
ghost use Rattle.smt_lex.specs.Forest.{token_at};
ghost use Rattle.smt_terms.specs.Sorts.{Sort, bit_vector};
ghost use Rattle.smt_values.specs.Meaning.{scalar_sort};
ghost use Rattle.smt_values.specs.SortIds.{sort_at, IsSortId, IsSortList};
ghost use Rattle.script_terms.specs.Heads.{is_vector_name};
ghost use Rattle.script_terms.specs.Parts.{symbol_in, numeral_in};
ghost use Rattle.script_terms.specs.Places.{IsForm, form_from};
ghost use Rattle.script_read.specs.Script.{truth_named};
ghost use Rattle.model_texts.specs.ValueForms.{atom_literal, vector_literal, negative_literal, indexed_literal, literal_value};
ghost use Rattle.model_texts.specs.ValueForms as forms;
ghost use Rattle.model_texts.specs.Literals.{IsNumberOf, IsLiteral, MatchLiteral, GivesScalar};

use crate::faults::Cause;
use crate::places::is_named;
use script_terms::places::{GREATEST, is_symbol, numeral_at};
use smt_lex::{Forest, Item, is_numeral};
use smt_terms::SortId;
use smt_values::Scalar;
use term_table::rank::fits;

/// A constant as it is written. Its number may be beyond what its sort has, and is None where no sort has it.
#[derive(Clone, Copy)]
pub(crate) enum Literal {
    Truth(bool),
    Whole(Option<i128>),
    Vector { width: u128, bits: Option<u128> },
}

/// The constant that a token is.
pub(crate) fn token_literal(forest: &Forest, at: usize) -> Option<Literal>
    requires form { IsForm forest.now.tokens at }
    requires token { form_from forest.now.tokens at ≡ atom (token_at forest.now.tokens at) }
    ensures { MatchLiteral (atom_literal (token_at forest.now.tokens at)) result }
{
    match forest.item(at) {
        Item::Numeral => whole_literal(forest, at),
        Item::Hex => Some(digits_literal(16, 4, behind_mark(forest.text(at)))),
        Item::Bin => Some(digits_literal(2, 1, behind_mark(forest.text(at)))),
        _ => truth_literal(forest, at),
    }
}

// `true` and `false`
fn truth_literal(forest: &Forest, at: usize) -> Option<Literal>
    requires { IsForm forest.now.tokens at }
    ensures { MatchLiteral (option_map forms.truth_literal (truth_named (symbol_in (form_from forest.now.tokens at)))) result }
{
    if is_named(forest, at, b"true") {
        return Some(Literal::Truth(true));
    }
    is_named(forest, at, b"false").then_some(Literal::Truth(false))
}

// A numeral.
fn whole_literal(forest: &Forest, at: usize) -> Option<Literal>
    requires { IsForm forest.now.tokens at }
    ensures { MatchLiteral (option_map (λ n. forms.whole_literal (pos n)) (numeral_in (form_from forest.now.tokens at))) result }
{
    match numeral_at(forest, at) {
        Some(number) => Some(Literal::Whole(in_range(number))),
        None => None,
    }
}

// The number, unless it is beyond the range of whole numbers.
fn in_range(number: u128) -> Option<i128>
    ensures { MatchOption result (2 ^ 127 ≤ number) (λ n. (n ≡ pos number) × (number < 2 ^ 127)) }
{
    if number < GREATEST {
        return Some(number as i128);
    }
    None
}

// The bit vector that these digits to a radix stand for, each of so many bits.
fn digits_literal(radix: u128, bits_each: u128, digits: &[u8]) -> Literal
    requires radix { 1 ≤ radix }
    requires bits { bits_each ≤ 4 }
    ensures { IsLiteral (vector_literal (bits_each * length digits.now) (digits_value radix digits.now)) result }
{
    Literal::Vector {
        width: bits_each * digits.len() as u128,
        bits: number_of(radix, digits),
    }
}

// The digits behind the `#x` or `#b` of a token.
fn behind_mark(text: &[u8]) -> &[u8]
    ensures { result.now ≡ drop 2 text.now }
{
    match text {
        [_, _, digits @ ..] => digits,
        _ => &[],
    }
}

// The number of these digits to a radix; None where it has more than 128 bits. Digits behind these bits aren't read.
fn number_of(radix: u128, digits: &[u8]) -> Option<u128>
    requires { 1 ≤ radix }
    ensures { MatchOption result (2 ^ 128 ≤ digits_value radix digits.now) (λ n. n ≡ digits_value radix digits.now) }
{
    let mut number: u128 = 0;
    for digit in digits {
        let shifted = number.checked_mul(radix)?;
        number = shifted.checked_add(u128::from(digit_value(*digit)))?;
    }
    Some(number)
}

/// `(- NUMERAL)`, from its two parts.
pub(crate) fn negative_literal(forest: &Forest, sign: usize, numeral: usize) -> Option<Literal>
    requires sign { IsForm forest.now.tokens sign }
    requires numeral { IsForm forest.now.tokens numeral }
    ensures { MatchLiteral (negative_literal (symbol_in (form_from forest.now.tokens sign)) (numeral_in (form_from forest.now.tokens numeral))) result }
{
    let number = numeral_at(forest, numeral)?;
    if !is_named(forest, sign, b"-") {
        return None;
    }
    match in_range(number) {
        Some(magnitude) => Some(Literal::Whole(Some(-magnitude))),
        None => Some(Literal::Whole(None)),
    }
}

/// `(_ bvX WIDTH)`, from what is behind the `_`.
pub(crate) fn indexed_literal(forest: &Forest, name: usize, width: usize) -> Option<Literal>
    requires name { IsForm forest.now.tokens name }
    requires width { IsForm forest.now.tokens width }
    ensures { MatchLiteral (indexed_literal (symbol_in (form_from forest.now.tokens name)) (numeral_in (form_from forest.now.tokens width))) result }
{
    if !is_symbol(forest, name) {
        return None;
    }
    let digits = vector_digits(forest.name(name))?;
    let width = numeral_at(forest, width)?;
    Some(Literal::Vector {
        width,
        bits: number_of(10, digits),
    })
}

/// The constant as a scalar of the sort that is wanted.
pub(crate) fn scalar_of(literal: Literal, sort: SortId) -> Result<Scalar, Cause>
    ensures scalar { (ss : List Sort) (l : forms.Literal) → IsSortList ss → IsSortId ss sort → IsLiteral l literal → GivesScalar (λ place. literal_value place (sort_at ss sort) (Some l)) result }
    ensures sort { (ss : List Sort) → IfOk result (λ s. scalar_sort s ≡ sort_at ss sort) }
{
    match literal {
        Literal::Truth(truth) => {
            if sort != SortId::BOOL {
                return Err(Cause::ModelSort);
            }
            Ok(Scalar::Truth(truth))
        }
        Literal::Whole(number) => {
            if sort != SortId::INT {
                return Err(Cause::ModelSort);
            }
            match number {
                Some(number) => Ok(Scalar::Whole(number)),
                None => Err(Cause::ModelNumber),
            }
        }
        Literal::Vector { width, bits } => {
            let Some(wanted) = sort.width() else {
                return Err(Cause::ModelSort);
            };
            if width != u128::from(wanted) {
                return Err(Cause::ModelSort);
            }
            vector_scalar(wanted, bits)
        }
    }
}

// The bit vector of this number, unless it is too great for the width.
fn vector_scalar(width: u32, bits: Option<u128>) -> Result<Scalar, Cause>
    requires { (1 ≤ width) × (width ≤ 128) }
    ensures scalar { (n : ℕ) → IsNumberOf n bits → GivesScalar (λ place. literal_value place (bit_vector width) (Some (vector_literal width n))) result }
    ensures sort { IfOk result (λ s. scalar_sort s ≡ bit_vector width) }
{
    let Some(bits) = bits else {
        return Err(Cause::ModelNumber);
    };
    if !fits(bits, width) {
        return Err(Cause::ModelNumber);
    }
    Ok(Scalar::Bits { width, bits })
}

// The digits X of a name `bvX`, where they are a numeral.
fn vector_digits(name: &[u8]) -> Option<&[u8]>
    ensures { MatchOption result (is_vector_name (Some name.now) ≡ false) (λ digits. (is_vector_name (Some name.now) ≡ true) × (digits.now ≡ drop 2 name.now)) }
{
    match name {
        [b'b', b'v', digits @ ..] if is_numeral(digits) => Some(digits),
        _ => None,
    }
}

// The value of a digit; a byte that is no digit counts as one of value 36.
fn digit_value(digit: u8) -> u8
    ensures value { result ≡ digit_value digit }
    ensures small { result ≤ 36 }
{
    match digit {
        b'0'..=b'9' => digit - b'0',
        b'A'..=b'Z' => digit - b'A' + 10,
        b'a'..=b'z' => digit - b'a' + 10,
        _ => 36,
    }
}

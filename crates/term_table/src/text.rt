//! The texts of sorts and of scalars.

ghost use Rattle.std.specs.Prelude.{◌≡◌, ◌<◌, ◌≤◌, ◌*◌, ◌^◌, ◌++◌, ◌+◌, [], false, vec_len, vec_capacity, IfOk, IsOk, OnOk, OnErr};
ghost use Rattle.std.specs.Char.{digit_char};
ghost use Rattle.smt_lex.specs.FormText.{form_text};
ghost use Rattle.smt_terms.specs.Rank.{is_array};
ghost use Rattle.smt_terms.specs.Sorts.{bit_vector};
ghost use Rattle.smt_values.specs.Meaning.{IsScalar};
ghost use Rattle.smt_values.specs.SortIds.{sort_at, IsSortId};
ghost use Rattle.term_table.specs.WrittenForms.{sort_form, scalar_form, integer_form, vector_form, last_digits};

use crate::table::Table;
use itoa::Buffer;
use smt_lex::symbol_text;
use smt_values::{Scalar, SortId, SortTable};
use std::alloc::{AllocError, Global};

/// Appends the text of a sort of the table: `Bool`, `Int`, `(_ BitVec 8)`, `(Array Int Bool)`, or the name of a free
/// sort, with bars where it needs them. A refusal leaves `out` as before.
pub fn sort_text(
    alloc: Global,
    table: &Table,
    sort: SortId,
    out: &mut Vec<u8>,
) -> Result<(), AllocError>
    requires { IsSortId table.now.sorts sort }
    ensures ok { OnOk result (out.new.items ≡ out.old.items ++ form_text (sort_form (sort_at table.now.sorts sort))) }
    ensures refused { OnErr result (out.new.items ≡ out.old.items) }
{
    if table.sorts().parts(sort).is_none() {
        return push_plain_sort(alloc, table.sorts(), sort, out);
    }
    let text = written_sort(alloc, table.sorts(), sort)?;
    out.extend_from_slice(&text)
}

// The text of a sort. An index is no array sort, so that arrays stand inside one another by their elements alone.
fn written_sort(alloc: Global, sorts: &SortTable, sort: SortId) -> Result<Vec<u8>, AllocError>
    requires { IsSortId sorts.now sort }
    ensures { IfOk result (λ text. text.items ≡ form_text (sort_form (sort_at sorts.now sort))) }
{
    let mut text = Vec::new(alloc);
    let mut inner = sort;
    let mut open: u64 = 0;
    while let Some((index, element)) = sorts.parts(inner) {
        text.extend_from_slice(b"(Array ")?;
        push_plain_sort(alloc, sorts, index, &mut text)?;
        text.push(b' ')?;
        inner = element;
        open += 1;
    }
    push_plain_sort(alloc, sorts, inner, &mut text)?;
    for _ in 0..open {
        text.push(b')')?;
    }
    Ok(text)
}

// Appends the text of a sort that is no array sort. A refusal leaves `out` as before.
fn push_plain_sort(
    alloc: Global,
    sorts: &SortTable,
    sort: SortId,
    out: &mut Vec<u8>,
) -> Result<(), AllocError>
    requires sort { IsSortId sorts.now sort }
    requires plain { is_array (sort_at sorts.now sort) ≡ false }
    ensures ok { OnOk result (out.new.items ≡ out.old.items ++ form_text (sort_form (sort_at sorts.now sort))) }
    ensures refused { OnErr result (out.new.items ≡ out.old.items) }
{
    if let Some(name) = sorts.name(sort) {
        return symbol_text(alloc, name, out);
    }
    match sort.width() {
        Some(width) => push_width(width, out),
        None if sort == SortId::BOOL => out.extend_from_slice(b"Bool"),
        None => out.extend_from_slice(b"Int"),
    }
}

// Appends the sort of the bit vectors of a width. A refusal leaves `out` as before.
fn push_width(width: u32, out: &mut Vec<u8>) -> Result<(), AllocError>
    ensures ok { OnOk result (out.new.items ≡ out.old.items ++ form_text (sort_form (bit_vector width))) }
    ensures refused { OnErr result (out.new.items ≡ out.old.items) }
{
    let mut buffer = Buffer::new();
    let digits = buffer.format(width).as_bytes();
    out.reserve(11 + digits.len())?;
    out.extend_from_slice(b"(_ BitVec ")?;
    out.extend_from_slice(digits)?;
    out.push(b')')?;
    Ok(())
}

/// Appends the text of a valid scalar: `true` or `false`; a whole number in decimal digits, a negative one as `(- 5)`;
/// bits in hexadecimal digits, as `#xff`, where 4 divides the width, and else in binary ones, as `#b101`. A refusal
/// leaves `out` as before.
pub fn scalar_text(alloc: Global, scalar: Scalar, out: &mut Vec<u8>) -> Result<(), AllocError>
    requires { IsScalar scalar }
    ensures ok { OnOk result (out.new.items ≡ out.old.items ++ form_text (scalar_form scalar)) }
    ensures refused { OnErr result (out.new.items ≡ out.old.items) }
{
    match scalar {
        Scalar::Truth(true) => out.extend_from_slice(b"true"),
        Scalar::Truth(false) => out.extend_from_slice(b"false"),
        Scalar::Whole(n) => push_integer(n, out),
        Scalar::Bits { width, bits } => push_bits(width, bits, out),
    }
}

// Appends a whole number in decimal digits, a negative one as the unary minus of its magnitude. A refusal leaves `out` as
// before.
fn push_integer(n: i128, out: &mut Vec<u8>) -> Result<(), AllocError>
    ensures ok { OnOk result (out.new.items ≡ out.old.items ++ form_text (integer_form n)) }
    ensures refused { OnErr result (out.new.items ≡ out.old.items) }
{
    let mut buffer = Buffer::new();
    let digits = buffer.format(n.unsigned_abs()).as_bytes();
    if n >= 0 {
        out.extend_from_slice(digits)?;
        return Ok(());
    }
    out.reserve(4 + digits.len())?;
    out.extend_from_slice(b"(- ")?;
    out.extend_from_slice(digits)?;
    out.push(b')')?;
    Ok(())
}

// Appends the bit vector of this width that is this number. A refusal leaves `out` as before.
fn push_bits(width: u32, bits: u128, out: &mut Vec<u8>) -> Result<(), AllocError>
    requires { width ≤ 128 }
    ensures ok { OnOk result (out.new.items ≡ out.old.items ++ form_text (vector_form width bits)) }
    ensures refused { OnErr result (out.new.items ≡ out.old.items) }
{
    if width % 4 == 0 {
        out.reserve(2 + width as usize / 4)?;
        out.extend_from_slice(b"#x")?;
        push_digits(4, width / 4, bits, out)?;
        return Ok(());
    }
    out.reserve(2 + width as usize)?;
    out.extend_from_slice(b"#b")?;
    push_digits(1, width, bits, out)?;
    Ok(())
}

// Appends the last digits of a number, so many, highest first, each of which stands for this many bits.
fn push_digits(size: u32, count: u32, bits: u128, out: &mut Vec<u8>) -> Result<(), AllocError>
    requires small { (1 ≤ size) × (size ≤ 4) }
    requires within { size * count ≤ 128 }
    ensures ok { OnOk result (out.new.items ≡ out.old.items ++ last_digits (2 ^ size) count bits []) }
    ensures room { vec_len out.old + count ≤ vec_capacity out.old → IsOk result }
{
    for k in 0..count {
        let lower = size * (count - 1 - k);
        let digit = (bits >> lower) % (1 << size);
        out.push(digit_of(digit as u8))?;
    }
    Ok(())
}

// The digit of a value below 16.
fn digit_of(value: u8) -> u8
    requires { value < 16 }
    ensures { result ≡ digit_char value }
{
    if value < 10 {
        b'0' + value
    } else {
        b'a' + (value - 10)
    }
}

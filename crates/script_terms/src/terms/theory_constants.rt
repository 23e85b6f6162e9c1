//! Constants of the theories: numerals, and bit vectors in hexadecimal, binary and decimal digits (SMT-LIB 2.6, section 3.1,
//! and the theories Ints and FixedSizeBitVectors).

ghost use Rattle.std.specs.Prelude.{◌≡◌, ◌≤◌, ◌<◌, ◌^◌, drop, length, IfOk};
ghost use Rattle.std.specs.Str.Parse.{digits_value, IsNumeral};
ghost use Rattle.smt_terms.specs.declared.op.Op.TheVariants.{Bits};
ghost use Rattle.smt_terms.specs.Fresh.{Supply};
ghost use Rattle.smt_terms.specs.Term.{op, apply, none};
ghost use Rattle.term_table.specs.Formulas.{tree, IsNode};
ghost use Rattle.term_walk.specs.Walking.{GrowsTo};
ghost use Rattle.script_terms.specs.ConstantClauses.{IsConstantOp, HasDigits, GivesConstant, whole_in, hexadecimal_in, binary_in, constant_in};
ghost use Rattle.script_terms.specs.Heads.{vector_of_width};
ghost use Rattle.script_terms.specs.Known.{IsSpared};

use crate::causes::Cause;
use crate::numbers::number_of;
use crate::places::GREATEST;
use smt_lex::Item;
use smt_terms::{MOST_BITS, NodeId, Op};
use std::alloc::AllocError;
use term_table::Table;
use term_table::rank::fits;

/// The node of a constant.
pub fn constant(table: &mut Table, constant: Op) -> Result<NodeId, AllocError>
    requires { IsConstantOp constant }
    ensures node { IfOk result (IsNode table.new) }
    ensures term { IfOk result (λ k. tree table.new k ≡ apply (op constant) none) }
    ensures spared { (supply : Supply) → IfOk result (IsSpared table.new supply) }
    ensures grows { GrowsTo table.old table.new }
{
    let node = table.intern(constant, &[])?;
    Ok(node)
}

/// The constant that a token of this kind is, which is no symbol.
pub fn constant_of(item: Item, text: &[u8]) -> Result<Op, Cause>
    requires { HasDigits item text.now }
    ensures constant { GivesConstant (λ place. constant_in place item text.now) result }
    ensures is { IfOk result IsConstantOp }
{
    match item {
        Item::Numeral => whole(text),
        Item::Hex => hexadecimal(digits_of(text)),
        Item::Bin => binary(digits_of(text)),
        Item::Decimal => Err(Cause::RealSort),
        _ => Err(Cause::BadForm),
    }
}

/// The bit-vector constant of the number that these decimal digits stand for.
pub fn vector(digits: &[u8], width: u128) -> Result<Op, Cause>
    ensures constant { GivesConstant (λ place. vector_of_width place (digits_value 10 digits.now) width) result }
    ensures is { IfOk result IsConstantOp }
{
    if width == 0 {
        return Err(Cause::BadIndex);
    }
    if width > MOST_BITS as u128 {
        return Err(Cause::WidthLimit);
    }
    let width = width as u32;
    let Some(bits) = number_of(10, digits) else {
        return Err(Cause::BadIndex);
    };
    if !fits(bits, width) {
        return Err(Cause::BadIndex);
    }
    Ok(Op::Bits { width, bits })
}

fn whole(digits: &[u8]) -> Result<Op, Cause>
    ensures constant { GivesConstant (λ place. whole_in place digits.now) result }
    ensures is { IfOk result IsConstantOp }
{
    match number_of(10, digits) {
        Some(number) if number < GREATEST => Ok(Op::Whole(number as i128)),
        _ => Err(Cause::NumberLimit),
    }
}

fn hexadecimal(digits: &[u8]) -> Result<Op, Cause>
    requires { IsNumeral 16 digits.now }
    ensures constant { GivesConstant (λ place. hexadecimal_in place digits.now) result }
    ensures is { IfOk result IsConstantOp }
{
    if digits.len() > 32 {
        return Err(Cause::WidthLimit);
    }
    Ok(bits(16, 4 * digits.len() as u32, digits))
}

fn binary(digits: &[u8]) -> Result<Op, Cause>
    requires { IsNumeral 2 digits.now }
    ensures constant { GivesConstant (λ place. binary_in place digits.now) result }
    ensures is { IfOk result IsConstantOp }
{
    if digits.len() > 128 {
        return Err(Cause::WidthLimit);
    }
    Ok(bits(2, digits.len() as u32, digits))
}

// The bit vector of these digits to a radix, as wide as they are.
fn bits(radix: u128, width: u32, digits: &[u8]) -> Op
    requires radix { 1 ≤ radix }
    requires digits { IsNumeral radix digits.now }
    requires width { radix ^ length digits.now ≡ 2 ^ width }
    requires some { 1 ≤ width }
    requires most { width ≤ 128 }
    ensures bits { result ≡ Bits width (digits_value radix digits.now) }
    ensures small { digits_value radix digits.now < 2 ^ width }
{
    Op::Bits {
        width,
        bits: number_of(radix, digits).unwrap(),
    }
}

// The digits behind the `#x` or `#b` of a token.
fn digits_of(text: &[u8]) -> &[u8]
    ensures { result.now ≡ drop 2 text.now }
{
    match text {
        [_, _, digits @ ..] => digits,
        _ => &[],
    }
}

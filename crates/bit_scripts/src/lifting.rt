//! Models of scripts over truth values as models of bit vectors: a truth value is as it is, a bit vector has the bits that the new
//! constants are, and all else is its sort's default.

ghost use Rattle.std.specs.Prelude.{◌≡◌, ◌≤◌, ◌<◌, ◌^◌, true, [], map, IfOk, OnOk, All};
ghost use Rattle.smt_terms.specs.Models.{IsModel, symbol_value};
ghost use Rattle.smt_terms.specs.Sorts.{bit_vector};
ghost use Rattle.smt_terms.specs.Values.{is_true};
ghost use Rattle.smt_values.specs.Meaning.{meaning};
ghost use Rattle.bit_blast.specs.Blasted.{is_vector, width_of};
ghost use Rattle.bit_blast.specs.Carried.{lifted};
ghost use Rattle.bit_scripts.specs.Bits.{AreBitsOf};
ghost use Rattle.bit_scripts.specs.Lifting.{with_flags, with_vector, HasBit, IsBitAt};
ghost use Rattle.models.specs.LiveNumbers.{signature_of, AreLiveNumbersOf};
ghost use Rattle.models.specs.ModelView.{model_at, IsModelOf};
ghost use Rattle.term_groups.specs.Seen.{named_at, ArePairs};
ghost use Rattle.term_table.specs.Formulas.{symbol_at, tree, IsNode, IsSymbol};

use models::{Model, Signature, is_flag};
use smt_terms::{NodeId, SymId};
use smt_values::{Op, Scalar, Value};
use std::alloc::{AllocError, Global};
use term_subst::SymPairs;
use term_table::{Table, know_table};

/// The model over what is declared at a check that a model of the script over truth values stands for; `bits` are the new
/// constants of that script, each with the bit that it stands for.
pub fn lift(
    alloc: Global,
    table: &Table,
    signature: &Signature,
    bits: &SymPairs,
    model: &Model,
) -> Result<Model, AllocError>
    requires signature { AreLiveNumbersOf table.now signature.now }
    requires pairs { ArePairs table.now bits.now }
    requires bits { AreBitsOf (signature_of table.now signature.now).symbols (named_at table.now bits.now) }
    requires model { IsModelOf table.now model.now }
    requires valid { IsModel (model_at table.now model.now) }
    ensures model { IfOk result (λ m. model_at table.now m ≡ lifted (signature_of table.now signature.now).symbols (named_at table.now bits.now) (model_at table.now model.now)) }
    ensures numbers { IfOk result (IsModelOf table.now) }
{
    let mut lifted = Model::new(alloc, table, signature)?;
    lift_flags(table, signature.symbols(), model, &mut lifted)?;
    lift_bits(table, signature, bits, model, &mut lifted)?;
    Ok(lifted)
}

// Whether a symbol is the true value in a model.
fn is_true_in(table: &Table, model: &Model, symbol: SymId) -> bool
    requires symbol { IsSymbol table.now symbol }
    requires valid { IsModel (model_at table.now model.now) }
    ensures { result ≡ is_true (symbol_value (model_at table.now model.now) (symbol_at table.now symbol) []) }
{
    know_table(table);
    match model.otherwise(symbol) {
        Some(value) => is_true(value),
        None => false,
    }
}

// Whether a value is the true one.
fn is_true(value: &Value) -> bool
    ensures { result ≡ is_true (meaning value.now) }
{
    match value {
        Value::Scalar(Scalar::Truth(truth)) => *truth,
        _ => false,
    }
}

// Gives the truth values without arguments among these symbols what a model has for them.
fn lift_flags(
    table: &Table,
    symbols: &[SymId],
    model: &Model,
    made: &mut Model,
) -> Result<(), AllocError>
    requires symbols { All (IsSymbol table.now) symbols.now }
    requires valid { IsModel (model_at table.now model.now) }
    ensures model { OnOk result (model_at table.now made.new ≡ with_flags (map (symbol_at table.now) symbols.now) (model_at table.now model.now) (model_at table.now made.old)) }
    ensures numbers { OnOk result (IsModelOf table.now made.old → IsModelOf table.now made.new) }
{
    for symbol in symbols {
        if is_flag(table, *symbol) {
            let value = is_true_in(table, model, *symbol);
            made.define(table, *symbol, Value::Scalar(Scalar::Truth(value)))?;
        }
    }
    Ok(())
}

// The bit at a place of a constant.
#[derive(Clone, Copy)]
struct Bit {
    constant: SymId,
    place: u32,
}

// The bit that a node is.
fn bit_at(table: &Table, id: NodeId) -> Bit
    requires node { IsNode table.now id }
    requires bit { HasBit (tree table.now id) }
    ensures { IsBitAt table.now id result }
{
    let part = table.kids(id)[0];
    let Op::Extract { low, .. } = table.op(part) else {
        unreachable!()
    };
    let variable = table.kids(part)[0];
    let Op::Sym(constant) = table.op(variable) else {
        unreachable!()
    };
    Bit {
        constant,
        place: low,
    }
}

// The width of a bit vector.
fn width_of(table: &Table, constant: SymId) -> u32
    requires symbol { IsSymbol table.now constant }
    requires vector { is_vector (symbol_at table.now constant) ≡ true }
    ensures vector { (symbol_at table.now constant).result ≡ bit_vector result }
    ensures some { 1 ≤ result }
    ensures narrow { result ≤ 128 }
{
    let (_, sort) = table.symbol_rank(constant);
    sort.width().unwrap()
}

// Gives a bit vector the bits that a number is.
fn define_vector(
    table: &Table,
    constant: SymId,
    number: u128,
    made: &mut Model,
) -> Result<(), AllocError>
    requires symbol { IsSymbol table.now constant }
    requires vector { is_vector (symbol_at table.now constant) ≡ true }
    requires fits { number < 2 ^ width_of (symbol_at table.now constant).result }
    ensures model { OnOk result (model_at table.now made.new ≡ with_vector (symbol_at table.now constant) number (model_at table.now made.old)) }
    ensures numbers { OnOk result (IsModelOf table.now made.old → IsModelOf table.now made.new) }
{
    let width = width_of(table, constant);
    let value = Value::Scalar(Scalar::Bits {
        width,
        bits: number,
    });
    made.define(table, constant, value)
}

// Gives the bit vectors that have bits these, each bit what its new constant is in a model. They are gone through from the last
// one back, which is each vector's highest bit first, so that of two constants for one bit the first counts.
fn lift_bits(
    table: &Table,
    signature: &Signature,
    bits: &SymPairs,
    model: &Model,
    made: &mut Model,
) -> Result<(), AllocError>
    requires signature { AreLiveNumbersOf table.now signature.now }
    requires pairs { ArePairs table.now bits.now }
    requires bits { AreBitsOf (signature_of table.now signature.now).symbols (named_at table.now bits.now) }
    requires valid { IsModel (model_at table.now model.now) }
    requires flags { model_at table.now made.old ≡ lifted (signature_of table.now signature.now).symbols [] (model_at table.now model.now) }
    ensures model { OnOk result (model_at table.now made.new ≡ lifted (signature_of table.now signature.now).symbols (named_at table.now bits.now) (model_at table.now model.now)) }
    ensures numbers { OnOk result (IsModelOf table.now made.old → IsModelOf table.now made.new) }
{
    know_table(table);
    let mut number: u128 = 0;
    for place in (0..bits.len()).rev() {
        let (symbol, node) = bits.get(place);
        let bit = bit_at(table, node);
        number = u128::from(is_true_in(table, model, symbol)) + 2 * number;
        if bit.place == 0 {
            define_vector(table, bit.constant, number, made)?;
            number = 0;
        }
    }
    Ok(())
}

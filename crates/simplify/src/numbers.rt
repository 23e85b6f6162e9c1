//! The laws of the operators on whole numbers, and of comparisons, over operands that are simplified already.

ghost use Rattle.std.specs.Prelude.{◌≡◌, ◌<◌, ◌≤◌, ◌^◌, [], ◌∷◌, ◌++◌, length, All, filter, map, ℤ, pos, unsigned_abs, IfOk, OnOk};
ghost use Rattle.std.specs.List.{list_any};
ghost use Rattle.smt_terms.specs.declared.op.Op.TheVariants.{Add, Mul, Sub, Div, Mod};
ghost use Rattle.smt_terms.specs.Constants.{whole_term};
ghost use Rattle.smt_terms.specs.Values.{whole};
ghost use Rattle.smt_values.specs.Applied.{IsWithin};
ghost use Rattle.smt_values.specs.Meaning.{scalar_value};
ghost use Rattle.term_table.specs.Formulas.{tree, trees_at, AreNodes, Makes};
ghost use Rattle.term_walk.specs.Walking.{GrowsTo};
ghost use Rattle.simplify.specs.Folding as plain;
ghost use Rattle.simplify.specs.Folding.{over_left, two};
ghost use Rattle.simplify.specs.Numbers as numbers;
ghost use Rattle.simplify.specs.Numbers.{unless_neutral};
ghost use Rattle.simplify.specs.Gathering.{Gathers, IsWhole, is_other, combined_values, gathered_number, values_in};
ghost use Rattle.simplify.specs.NodesOfSorts.{IsNumber};
ghost use Rattle.simplify.specs.Reduced.{Names, Answers};

use crate::constants::{constant, is_whole};
use normal_forms::comparing::are_same;
use normal_forms::literals::node_of;
use normal_forms::making::truth;
use smt_terms::NodeId;
use smt_values::{Op, Scalar, apply_scalar};
use std::alloc::{AllocError, Global};
use term_table::Table;

// Adds an operand that is no constant.
fn add_other(table: &Table, others: &mut Vec<NodeId>, id: NodeId) -> Result<(), AllocError>
    requires id { IsNumber table.now id }
    requires others { All (IsNumber table.now) others.old.items }
    ensures terms { OnOk result (trees_at table.now others.new.items ≡ trees_at table.now others.old.items ++ filter is_other (tree table.now id ∷ [])) }
    ensures others { OnOk result (All (IsNumber table.now) others.new.items) }
{
    if constant(table, id).is_some() {
        return Ok(());
    }
    others.push(id)?;
    Ok(())
}

// The operands that are no constants.
fn others(alloc: Global, table: &Table, ids: &[NodeId]) -> Result<Vec<NodeId>, AllocError>
    requires { All (IsNumber table.now) ids.now }
    ensures terms { IfOk result (λ ks. trees_at table.now ks.items ≡ filter is_other (trees_at table.now ids.now)) }
    ensures numbers { IfOk result (λ ks. All (IsNumber table.now) ks.items) }
{
    let mut others = Vec::new(alloc);
    for id in ids {
        add_other(table, &mut others, *id)?;
    }
    Ok(others)
}

// Adds an operand that is a constant.
fn add_constant(table: &Table, constants: &mut Vec<Scalar>, id: NodeId) -> Result<(), AllocError>
    requires id { IsNumber table.now id }
    requires constants { All IsWhole constants.old.items }
    ensures values { OnOk result (map scalar_value constants.new.items ≡ map scalar_value constants.old.items ++ values_in (tree table.now id ∷ [])) }
    ensures constants { OnOk result (All IsWhole constants.new.items) }
{
    let Some(scalar) = constant(table, id) else {
        return Ok(());
    };
    constants.push(scalar)?;
    Ok(())
}

// The operands that are constants, behind two neutral ones.
fn constants(
    alloc: Global,
    table: &Table,
    neutral: i128,
    ids: &[NodeId],
) -> Result<Vec<Scalar>, AllocError>
    requires ids { All (IsNumber table.now) ids.now }
    requires neutral { unsigned_abs neutral < 2 ^ 127 }
    ensures values { IfOk result (λ ss. map scalar_value ss.items ≡ whole neutral ∷ whole neutral ∷ values_in (trees_at table.now ids.now)) }
    ensures constants { IfOk result (λ ss. All IsWhole ss.items) }
{
    let mut constants = vec![in alloc; Scalar::Whole(neutral), Scalar::Whole(neutral)]?;
    for id in ids {
        add_constant(table, &mut constants, *id)?;
    }
    Ok(constants)
}

// The number of a scalar that is one.
fn number_of(scalar: Scalar) -> i128
    requires { IsWhole scalar }
    ensures { scalar ≡ Scalar.Whole result }
{
    match scalar {
        Scalar::Whole(number) => number,
        _ => unreachable!(),
    }
}

// The sum or the product of whole numbers, where it is in the range.
fn combined(op: Op, numbers: &[Scalar]) -> Option<i128>
    requires gathers { (neutral : ℤ) × Gathers op neutral }
    requires numbers { All IsWhole numbers.now }
    requires several { 2 ≤ length numbers.now }
    ensures { IsWithin result (combined_values op (map scalar_value numbers.now)) }
{
    match apply_scalar(op, numbers) {
        Ok(scalar) => Some(number_of(scalar)),
        Err(_) => None,
    }
}

// The constants among the operands taken together, where their number is in the range.
fn together(
    alloc: Global,
    table: &Table,
    op: Op,
    neutral: i128,
    ids: &[NodeId],
) -> Result<Option<i128>, AllocError>
    requires ids { All (IsNumber table.now) ids.now }
    requires gathers { Gathers op neutral }
    ensures { IfOk result (λ n. IsWithin n (gathered_number op neutral (trees_at table.now ids.now))) }
{
    let constants = constants(alloc, table, neutral, ids)?;
    let number = combined(op, &constants);
    Ok(number)
}

// The operands that are no constants, and behind them a number that isn't the neutral one.
fn left(
    alloc: Global,
    table: &mut Table,
    neutral: i128,
    number: i128,
    ids: &[NodeId],
) -> Result<Vec<NodeId>, AllocError>
    requires ids { All (IsNumber table.old) ids.now }
    requires number { unsigned_abs number < 2 ^ 127 }
    ensures terms { IfOk result (λ ks. trees_at table.new ks.items ≡ filter is_other (trees_at table.old ids.now) ++ unless_neutral neutral number) }
    ensures numbers { IfOk result (λ ks. All (IsNumber table.new) ks.items) }
    ensures grows { GrowsTo table.old table.new }
    ensures symbols { table.new.symbols ≡ table.old.symbols }
    ensures sorts { table.new.sorts ≡ table.old.sorts }
{
    let mut left = others(alloc, table, ids)?;
    if number == neutral {
        return Ok(left);
    }
    let constant = node_of(table, Scalar::Whole(number))?;
    left.push(constant)?;
    Ok(left)
}

// The operator over the operands that are left: nothing is the neutral number, and one operand is itself.
fn over(table: &mut Table, op: Op, neutral: i128, ids: &[NodeId]) -> Result<NodeId, AllocError>
    requires ids { All (IsNumber table.old) ids.now }
    requires gathers { Gathers op neutral }
    ensures over { IfOk result (Names table.new (over_left op (whole_term neutral) (trees_at table.old ids.now))) }
    ensures grows { GrowsTo table.old table.new }
    ensures symbols { table.new.symbols ≡ table.old.symbols }
    ensures sorts { table.new.sorts ≡ table.old.sorts }
{
    match ids {
        [] => node_of(table, Scalar::Whole(neutral)),
        [id] => Ok(*id),
        _ => table.intern(op, ids),
    }
}

// The law of `+` and of `*`: the constants become one behind the others.
fn gathered(
    alloc: Global,
    table: &mut Table,
    op: Op,
    neutral: i128,
    ids: &[NodeId],
) -> Result<Option<NodeId>, AllocError>
    requires makes { Makes table.old op ids.now }
    requires gathers { Gathers op neutral }
    ensures found { IfOk result (Answers table.new (numbers.gathered op neutral (gathered_number op neutral (trees_at table.old ids.now)) (trees_at table.old ids.now))) }
    ensures grows { GrowsTo table.old table.new }
    ensures symbols { table.new.symbols ≡ table.old.symbols }
    ensures sorts { table.new.sorts ≡ table.old.sorts }
{
    let Some(number) = together(alloc, table, op, neutral, ids)? else {
        return Ok(None);
    };
    let left = left(alloc, table, neutral, number, ids)?;
    let id = over(table, op, neutral, &left)?;
    Ok(Some(id))
}

/// The law of `+`.
pub(crate) fn addition(
    alloc: Global,
    table: &mut Table,
    ids: &[NodeId],
) -> Result<Option<NodeId>, AllocError>
    requires { Makes table.old Add ids.now }
    ensures found { IfOk result (Answers table.new (numbers.addition (trees_at table.old ids.now))) }
    ensures grows { GrowsTo table.old table.new }
    ensures symbols { table.new.symbols ≡ table.old.symbols }
    ensures sorts { table.new.sorts ≡ table.old.sorts }
{
    gathered(alloc, table, Op::Add, 0, ids)
}

// Whether an operand is the constant 0.
fn has_zero(table: &Table, ids: &[NodeId]) -> bool
    requires { AreNodes table.now ids.now }
    ensures { result ≡ list_any (plain.is_whole (pos 0)) (trees_at table.now ids.now) }
{
    for id in ids {
        if is_whole(table, *id, 0) {
            return true;
        }
    }
    false
}

/// The law of `*`.
pub(crate) fn multiplication(
    alloc: Global,
    table: &mut Table,
    ids: &[NodeId],
) -> Result<Option<NodeId>, AllocError>
    requires { Makes table.old Mul ids.now }
    ensures found { IfOk result (Answers table.new (numbers.multiplication (trees_at table.old ids.now))) }
    ensures grows { GrowsTo table.old table.new }
    ensures symbols { table.new.symbols ≡ table.old.symbols }
    ensures sorts { table.new.sorts ≡ table.old.sorts }
{
    if has_zero(table, ids) {
        let zero = node_of(table, Scalar::Whole(0))?;
        return Ok(Some(zero));
    }
    gathered(alloc, table, Op::Mul, 1, ids)
}

/// The law of `-` over two operands.
pub(crate) fn subtraction(table: &mut Table, ids: &[NodeId]) -> Result<Option<NodeId>, AllocError>
    requires { Makes table.old Sub ids.now }
    ensures found { IfOk result (Answers table.new (two numbers.subtraction (trees_at table.old ids.now))) }
    ensures grows { GrowsTo table.old table.new }
    ensures symbols { table.new.symbols ≡ table.old.symbols }
    ensures sorts { table.new.sorts ≡ table.old.sorts }
{
    let [a, b] = *ids else { return Ok(None) };
    if is_whole(table, b, 0) {
        return Ok(Some(a));
    }
    if are_same(table, a, b) {
        let zero = node_of(table, Scalar::Whole(0))?;
        return Ok(Some(zero));
    }
    Ok(None)
}

/// The law of `div`.
pub(crate) fn division(table: &Table, ids: &[NodeId]) -> Option<NodeId>
    requires { Makes table.now Div ids.now }
    ensures { Answers table.now (two numbers.division (trees_at table.now ids.now)) result }
{
    let [a, b] = *ids else { return None };
    if is_whole(table, b, 1) {
        return Some(a);
    }
    None
}

/// The law of `mod`.
pub(crate) fn remainder(table: &mut Table, ids: &[NodeId]) -> Result<Option<NodeId>, AllocError>
    requires { Makes table.old Mod ids.now }
    ensures found { IfOk result (Answers table.new (two numbers.remainder (trees_at table.old ids.now))) }
    ensures grows { GrowsTo table.old table.new }
    ensures symbols { table.new.symbols ≡ table.old.symbols }
    ensures sorts { table.new.sorts ≡ table.old.sorts }
{
    let [_, b] = *ids else { return Ok(None) };
    if is_whole(table, b, 1) || is_whole(table, b, -1) {
        let zero = node_of(table, Scalar::Whole(0))?;
        return Ok(Some(zero));
    }
    Ok(None)
}

/// The law of a comparison, which has this value where an operand is compared with itself.
pub(crate) fn with_itself(
    table: &mut Table,
    _op: Op,
    value: bool,
    ids: &[NodeId],
) -> Result<Option<NodeId>, AllocError>
    requires { Makes table.old _op ids.now }
    ensures found { IfOk result (Answers table.new (two (numbers.with_itself value) (trees_at table.old ids.now))) }
    ensures grows { GrowsTo table.old table.new }
    ensures symbols { table.new.symbols ≡ table.old.symbols }
    ensures sorts { table.new.sorts ≡ table.old.sorts }
{
    let [a, b] = *ids else { return Ok(None) };
    if are_same(table, a, b) {
        let id = truth(table, value)?;
        return Ok(Some(id));
    }
    Ok(None)
}

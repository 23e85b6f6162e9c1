//! A function of whole numbers with rows, also with so many that they are found by hashing, and divisions by zero.

ghost use Rattle.std.specs.Prelude.{◌≡◌, [], ◌∷◌, ◌≤◌, IfOk, OnOk, pos};
ghost use Rattle.smt_terms.specs.Models.{IsModel};
ghost use Rattle.smt_terms.specs.Sorts.{int};
ghost use Rattle.smt_values.specs.declared.scalar.Scalar.TheVariants.{Whole};
ghost use Rattle.smt_values.specs.declared.value.Value.TheVariants.{Scalar as OfScalar};
ghost use Rattle.term_table.specs.Formulas.{symbol_at, IsSymbol};
ghost use Rattle.script_read.specs.declared.scripts.Command.TheVariants as command;
ghost use Rattle.models.specs.LiveNumbers.{AreLiveNumbersOf};
ghost use Rattle.models.specs.ModelView.{model_at, IsModelOf};

use models::{Division, Model, NumberGraph, Signature, signature_at};
use script_read::{Command, Commands, Script};
use smt_terms::SymId;
use smt_values::{Scalar, SortId, Value};
use std::alloc::{AllocError, Global};
use std::process::Abort;
use std::test::Fail;
use term_table::Table;

// What the function has where no row says more.
const OTHERWISE: u8 = 255;

// The script with one check and nothing else.
fn only_check(alloc: Global) -> Result<Script, AllocError>
    ensures { IfOk result (λ s. s.commands ≡ command.Check ∷ []) }
{
    let mut commands = Commands::new(alloc);
    commands.push(Command::Check)?;
    Ok(Script { commands })
}

// The signature without sorts and symbols.
fn nothing_live(alloc: Global, table: &Table) -> Result<Signature, AllocError>
    ensures { IfOk result (AreLiveNumbersOf table.now) }
{
    let script = only_check(alloc)?;
    signature_at(alloc, table, &script, 1)
}

// The model without symbols.
fn empty_model(alloc: Global, table: &Table) -> Result<Model, AllocError>
    ensures { IfOk result (λ m. IsModel (model_at table.now m)) }
{
    let signature = nothing_live(alloc, table)?;
    Model::new(alloc, table, &signature)
}

fn whole(number: u8) -> Value
    ensures { result ≡ OfScalar (Whole (pos number)) }
{
    Value::Scalar(Scalar::Whole(i128::from(number)))
}

fn keys(alloc: Global, number: u8) -> Result<Vec<Value>, AllocError>
    ensures { IfOk result (λ values. values.items ≡ OfScalar (Whole (pos number)) ∷ []) }
{
    let mut values = Vec::new(alloc);
    values.push(whole(number))?;
    Ok(values)
}

// Puts a row last for the function, unless there is one for this number.
fn add(
    rt: &impl Abort,
    alloc: Global,
    table: &Table,
    model: &mut Model,
    f: SymId,
    row: (u8, u8),
) -> Result<(), AllocError>
    requires symbol { IsSymbol table.now f }
    requires arguments { (symbol_at table.now f).args ≡ int ∷ [] }
    requires to { (symbol_at table.now f).result ≡ int }
    requires valid { IsModel (model_at table.now model.old) }
    ensures valid { OnOk result (IsModel (model_at table.now model.new)) }
{
    assert!(rt; model.graph(f).is_some());
    let keys = keys(alloc, row.0)?;
    model.add_row(table, f, keys, whole(row.1))
}

// Asserts what the function has at a number.
fn has(rt: &impl Abort, table: &Table, model: &Model, f: SymId, row: (u8, u8))
    requires symbol { IsSymbol table.now f }
    requires arguments { (symbol_at table.now f).args ≡ int ∷ [] }
    requires valid { IsModel (model_at table.now model.now) }
{
    match model.value_at(table, f, &[whole(row.0)]) {
        Some(Value::Scalar(Scalar::Whole(value))) => assert!(rt; *value == i128::from(row.1)),
        _ => panic!(rt; "no number"),
    }
}

// Gives the function at each number below this one the number that is a hundred above it.
fn fill(
    rt: &impl Abort,
    alloc: Global,
    table: &Table,
    model: &mut Model,
    f: SymId,
    end: u8,
) -> Result<(), AllocError>
    requires symbol { IsSymbol table.now f }
    requires arguments { (symbol_at table.now f).args ≡ int ∷ [] }
    requires to { (symbol_at table.now f).result ≡ int }
    requires few { end ≤ 100 }
    requires valid { IsModel (model_at table.now model.old) }
    ensures valid { OnOk result (IsModel (model_at table.now model.new)) }
{
    for number in 0..end {
        add(rt, alloc, table, model, f, (number, number + 100))?;
    }
    Ok(())
}

// Asserts that the function has so many rows, and at each number what `fill` gives it.
fn is_filled(rt: &impl Abort, table: &Table, model: &Model, f: SymId, end: u8)
    requires symbol { IsSymbol table.now f }
    requires arguments { (symbol_at table.now f).args ≡ int ∷ [] }
    requires few { end ≤ 100 }
    requires valid { IsModel (model_at table.now model.now) }
{
    assert!(rt; rows(model, f) == usize::from(end));
    for number in 0..end {
        has(rt, table, model, f, (number, number + 100));
        has(rt, table, model, f, (number + end, OTHERWISE));
    }
}

// The number of rows of a function.
fn rows(model: &Model, f: SymId) -> usize {
    match model.graph(f) {
        Some(graph) => graph.len(),
        None => 0,
    }
}

// Fills the function, gives it another row for 0, and asserts that it is filled still.
fn keeps_first_rows(
    rt: &impl Abort,
    alloc: Global,
    table: &Table,
    model: &mut Model,
    f: SymId,
    end: u8,
) -> Result<(), AllocError>
    requires symbol { IsSymbol table.now f }
    requires arguments { (symbol_at table.now f).args ≡ int ∷ [] }
    requires to { (symbol_at table.now f).result ≡ int }
    requires few { end ≤ 100 }
    requires valid { IsModel (model_at table.now model.old) }
{
    model.define(table, f, whole(OTHERWISE))?;
    fill(rt, alloc, table, model, f, end)?;
    add(rt, alloc, table, model, f, (0, 7))?;
    is_filled(rt, table, model, f, end);
    Ok(())
}

// The same of a function `f` in a model that has no symbol before.
fn a_function_keeps_first_rows(
    rt: &impl Abort,
    alloc: Global,
    table: &mut Table,
    end: u8,
) -> Result<(), AllocError>
    requires { end ≤ 100 }
{
    let f = table.symbol(b"f", &[SortId::INT], SortId::INT)?;
    let mut model = empty_model(alloc, table)?;
    keeps_first_rows(rt, alloc, table, &mut model, f, end)
}

#[test]
fn the_first_row_counts(rt: HostRuntime) -> Result<(), Fail> {
    let mut table = Table::new(rt.alloc());
    Ok(a_function_keeps_first_rows(&rt, rt.alloc(), &mut table, 1)?)
}

#[test]
fn many_rows_are_found(rt: HostRuntime) -> Result<(), Fail> {
    let mut table = Table::new(rt.alloc());
    for end in [15, 16, 20] {
        a_function_keeps_first_rows(&rt, rt.alloc(), &mut table, end)?;
    }
    Ok(())
}

// Two numbers with a row each.
fn two_rows(rt: &impl Abort, alloc: Global) -> Result<NumberGraph, AllocError> {
    let mut numbers = NumberGraph::new(alloc, 0);
    numbers.add_row(2, 5)?;
    numbers.add_row(-1, 7)?;
    numbers.add_row(2, 6)?;
    assert!(rt; numbers.len() == 2);
    assert!(rt; numbers.row(1) == (-1, 7));
    Ok(numbers)
}

// Gives a model the remainders by zero, and asserts what it has then.
fn divides(rt: &impl Abort, model: &mut Model, remainders: NumberGraph) {
    model.set_by_zero(Division::Remainder, remainders);
    assert!(rt; model.by_zero(Division::Remainder).value_at(2) == 5);
    assert!(rt; model.by_zero(Division::Remainder).value_at(3) == 0);
    assert!(rt; model.by_zero(Division::Quotient).value_at(2) == 0);
}

// The same of the model without symbols.
fn empty_model_divides(rt: &impl Abort, alloc: Global, table: &Table) -> Result<(), AllocError> {
    let mut model = empty_model(alloc, table)?;
    let remainders = two_rows(rt, alloc)?;
    divides(rt, &mut model, remainders);
    Ok(())
}

#[test]
fn a_division_has_a_row_for_a_number(rt: HostRuntime) -> Result<(), Fail> {
    let table = Table::new(rt.alloc());
    Ok(empty_model_divides(&rt, rt.alloc(), &table)?)
}

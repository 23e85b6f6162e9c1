//! The texts of the tables of functions.

ghost use Rattle.std.specs.Prelude.{◌≡◌, ◌==◌, ◌++◌, ◌∷◌, [], if◌then◌else◌, not, map, flat_map, All, OnOk};
ghost use Rattle.smt_lex.specs.FormText.{form_text};
ghost use Rattle.smt_lex.specs.Lexicon.{space};
ghost use Rattle.smt_lex.specs.Names.{IsName};
ghost use Rattle.smt_terms.specs.Sorts.{int};
ghost use Rattle.smt_terms.specs.Values.{whole};
ghost use Rattle.smt_values.specs.Meaning.{meaning};
ghost use Rattle.smt_values.specs.SortIds.{sort_at, IsSortId};
ghost use Rattle.smt_values.specs.Valid.{IsValue};
ghost use Rattle.term_table.specs.Formulas.{symbol_at, IsSymbol};
ghost use Rattle.term_table.specs.WrittenForms.{list_form, word_form, variable_form};
ghost use Rattle.models.specs.GraphRows.{meanings};
ghost use Rattle.model_texts.specs.ModelLines.{parameter_name, parameters, equation_forms, condition_form, rows_form, value_form, function_form, row_of, is_there, table_entries, line_of};
ghost use Rattle.model_texts.specs.Printing.{IsOfSort, AreOfSorts, AreRowsOf, IsGraphOf, equation_form};

use crate::print_values::{push_number, push_repeated, push_value};
use models::{Graph, NumberGraph};
use smt_lex::symbol_text;
use smt_values::{Scalar, SortId, SymId, Value};
use std::alloc::{AllocError, Global};
use term_table::{Table, scalar_text, sort_text};

// Appends the name of a parameter, as `x!0`.
fn push_parameter_name(place: usize, out: &mut Vec<u8>) -> Result<(), AllocError>
    ensures { OnOk result (out.new.items ≡ out.old.items ++ parameter_name place) }
{
    out.extend_from_slice(b"x!")?;
    push_number(place as u64, out)
}

// Appends a parameter, as `(x!0 Int)`.
fn push_parameter(
    alloc: Global,
    table: &Table,
    place: usize,
    sort: SortId,
    out: &mut Vec<u8>,
) -> Result<(), AllocError>
    requires { IsSortId table.now.sorts sort }
    ensures { OnOk result (out.new.items ≡ out.old.items ++ form_text (variable_form (record { name = parameter_name place; sort = sort_at table.now.sorts sort }))) }
{
    out.push(b'(')?;
    push_parameter_name(place, out)?;
    out.push(b' ')?;
    sort_text(alloc, table, sort, out)?;
    out.push(b')')?;
    Ok(())
}

// Appends what stands in front of the part of a list at this place.
fn push_separator(place: usize, out: &mut Vec<u8>) -> Result<(), AllocError>
    ensures { OnOk result (out.new.items ≡ out.old.items ++ (if place == 0 then [] else space ∷ [])) }
{
    if place == 0 {
        return Ok(());
    }
    out.push(b' ')?;
    Ok(())
}

// Appends parameters of these sorts, as `((x!0 Int) (x!1 Bool))`.
fn push_parameters(
    alloc: Global,
    table: &Table,
    sorts: &[SortId],
    out: &mut Vec<u8>,
) -> Result<(), AllocError>
    requires { All (IsSortId table.now.sorts) sorts.now }
    ensures { OnOk result (out.new.items ≡ out.old.items ++ form_text (list_form (map variable_form (parameters 0 (map (sort_at table.now.sorts) sorts.now))))) }
{
    out.push(b'(')?;
    for (place, sort) in sorts.iter().enumerate() {
        push_separator(place, out)?;
        push_parameter(alloc, table, place, *sort, out)?;
    }
    out.push(b')')?;
    Ok(())
}

// Appends the equation of a parameter and a value, as `(= x!0 5)`.
fn push_equation(
    alloc: Global,
    table: &Table,
    place: usize,
    sort: SortId,
    value: &Value,
    out: &mut Vec<u8>,
) -> Result<(), AllocError>
    requires sort { IsSortId table.now.sorts sort }
    requires value { IsOfSort (sort_at table.now.sorts sort) value.now }
    ensures { OnOk result (out.new.items ≡ out.old.items ++ form_text (equation_form place (sort_at table.now.sorts sort) (meaning value.now))) }
{
    out.extend_from_slice(b"(= ")?;
    push_parameter_name(place, out)?;
    out.push(b' ')?;
    push_value(alloc, table, sort, value, out)?;
    out.push(b')')?;
    Ok(())
}

// Appends the equations of all parameters, one alone or several under `and`.
fn push_condition(
    alloc: Global,
    table: &Table,
    sorts: &[SortId],
    keys: &[Value],
    out: &mut Vec<u8>,
) -> Result<(), AllocError>
    requires sorts { All (IsSortId table.now.sorts) sorts.now }
    requires keys { AreOfSorts (map (sort_at table.now.sorts) sorts.now) keys.now }
    ensures { OnOk result (out.new.items ≡ out.old.items ++ form_text (condition_form (equation_forms (parameters 0 (map (sort_at table.now.sorts) sorts.now)) (meanings keys.now)))) }
{
    if keys.len() == 1 {
        push_equation(alloc, table, 0, sorts[0], &keys[0], out)?;
        return Ok(());
    }
    out.extend_from_slice(b"(and")?;
    for (place, key) in keys.iter().enumerate() {
        out.push(b' ')?;
        push_equation(alloc, table, place, sorts[place], key, out)?;
    }
    out.push(b')')?;
    Ok(())
}

// Appends the rows of a function as `ite`s, each inside the one before, around the value everywhere else.
fn push_rows(
    alloc: Global,
    table: &Table,
    sorts: &[SortId],
    to: SortId,
    graph: &Graph,
    out: &mut Vec<u8>,
) -> Result<(), AllocError>
    requires sorts { All (IsSortId table.now.sorts) sorts.now }
    requires to { IsSortId table.now.sorts to }
    requires rows { AreRowsOf (map (sort_at table.now.sorts) sorts.now) (sort_at table.now.sorts to) graph.now }
    ensures { OnOk result (out.new.items ≡ out.old.items ++ form_text (rows_form (parameters 0 (map (sort_at table.now.sorts) sorts.now)) (sort_at table.now.sorts to) graph.now.rows (value_form (sort_at table.now.sorts to) graph.now.otherwise))) }
{
    for i in 0..graph.len() {
        let (keys, result) = graph.row(i);
        out.extend_from_slice(b"(ite ")?;
        push_condition(alloc, table, sorts, keys, out)?;
        out.push(b' ')?;
        push_value(alloc, table, to, result, out)?;
        out.push(b' ')?;
    }
    push_value(alloc, table, to, graph.otherwise(), out)?;
    push_repeated(b")", graph.len(), out)?;
    Ok(())
}

// Appends the definition of a symbol as this function.
pub(crate) fn push_function(
    alloc: Global,
    table: &Table,
    symbol: SymId,
    graph: &Graph,
    out: &mut Vec<u8>,
) -> Result<(), AllocError>
    requires symbol { IsSymbol table.now symbol }
    requires graph { IsGraphOf (symbol_at table.now symbol) graph.now }
    ensures { OnOk result (out.new.items ≡ out.old.items ++ form_text (function_form (symbol_at table.now symbol) graph.now)) }
{
    let (sorts, to) = table.symbol_rank(symbol);
    out.extend_from_slice(b"(define-fun ")?;
    symbol_text(alloc, table.symbol_name(symbol), out)?;
    out.push(b' ')?;
    push_parameters(alloc, table, sorts, out)?;
    out.push(b' ')?;
    sort_text(alloc, table, to, out)?;
    out.push(b' ')?;
    push_rows(alloc, table, sorts, to, graph, out)?;
    out.push(b')')?;
    Ok(())
}

// Appends the rows of a function of whole numbers as `ite`s around the number everywhere else.
fn push_number_rows(
    alloc: Global,
    numbers: &NumberGraph,
    out: &mut Vec<u8>,
) -> Result<(), AllocError>
    ensures { OnOk result (out.new.items ≡ out.old.items ++ form_text (rows_form (parameters 0 (int ∷ [])) int (map row_of numbers.now.rows) (value_form int (whole numbers.now.otherwise)))) }
{
    for i in 0..numbers.len() {
        let (key, result) = numbers.row(i);
        out.extend_from_slice(b"(ite (= x!0 ")?;
        scalar_text(alloc, Scalar::Whole(key), out)?;
        out.extend_from_slice(b") ")?;
        scalar_text(alloc, Scalar::Whole(result), out)?;
        out.push(b' ')?;
    }
    scalar_text(alloc, Scalar::Whole(numbers.otherwise()), out)?;
    push_repeated(b")", numbers.len(), out)?;
    Ok(())
}

// Whether the function is 0 everywhere without a row.
fn is_zero(numbers: &NumberGraph) -> bool
    ensures { result ≡ not (is_there numbers.now numbers.now.rows) }
{
    numbers.len() == 0 && numbers.otherwise() == 0
}

// Appends the line of a table of this name, unless it is 0 everywhere.
pub(crate) fn push_numbers(
    alloc: Global,
    name: &[u8],
    numbers: &NumberGraph,
    out: &mut Vec<u8>,
) -> Result<(), AllocError>
    requires { IsName name.now }
    ensures { OnOk result (out.new.items ≡ out.old.items ++ flat_map line_of (table_entries name.now numbers.now)) }
{
    if is_zero(numbers) {
        return Ok(());
    }
    out.extend_from_slice(b"(define-fun ")?;
    symbol_text(alloc, name, out)?;
    out.extend_from_slice(b" ((x!0 Int)) Int ")?;
    push_number_rows(alloc, numbers, out)?;
    out.extend_from_slice(b")\n")?;
    Ok(())
}

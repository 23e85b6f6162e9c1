//! The text of a model.

ghost use Rattle.std.specs.Prelude.{◌≡◌, ◌++◌, map, flat_map, All, IfOk, OnOk};
ghost use Rattle.smt_lex.specs.FormText.{form_text};
ghost use Rattle.smt_terms.specs.Models.{IsModelOver};
ghost use Rattle.smt_values.specs.SizeTable.{sizes_by};
ghost use Rattle.smt_values.specs.SortIds.{sort_at};
ghost use Rattle.term_table.specs.Formulas.{symbol_at, IsSymbol};
ghost use Rattle.script_read.specs.CommandLists.{free_name};
ghost use Rattle.models.specs.LiveNumbers.{signature_of, IsFreeSort, AreLiveNumbersOf};
ghost use Rattle.models.specs.ModelView.{model_at};
ghost use Rattle.model_texts.specs.ModelLines.{sort_entry, symbol_entry, line_of, model_lines};
ghost use Rattle.model_texts.specs.Printing.{HasGraph};

use crate::print_tables::{push_function, push_numbers};
use crate::print_values::push_element;
use models::{Division, Model, Signature};
use smt_lex::symbol_text;
use smt_values::{Sizes, SortId, SymId};
use std::alloc::{AllocError, Global};
use term_table::{Table, know_table};

// Appends a declared sort with its elements, as `(@sort S (as @S_0 S))`.
fn push_elements(
    alloc: Global,
    table: &Table,
    sizes: &Sizes,
    sort: SortId,
    out: &mut Vec<u8>,
) -> Result<(), AllocError>
    requires { IsFreeSort table.now sort }
    ensures { OnOk result (out.new.items ≡ out.old.items ++ form_text (sort_entry (sizes_by table.now.sorts sizes.now) (free_name (sort_at table.now.sorts sort)))) }
{
    let Some(name) = table.sorts().name(sort) else {
        unreachable!()
    };
    out.extend_from_slice(b"(@sort ")?;
    symbol_text(alloc, name, out)?;
    for number in 0..sizes.of(sort) {
        out.push(b' ')?;
        push_element(alloc, name, number, out)?;
    }
    out.push(b')')?;
    Ok(())
}

// Appends the lines of the declared sorts.
fn push_sorts(
    alloc: Global,
    table: &Table,
    sizes: &Sizes,
    sorts: &[SortId],
    out: &mut Vec<u8>,
) -> Result<(), AllocError>
    requires { All (IsFreeSort table.now) sorts.now }
    ensures { OnOk result (out.new.items ≡ out.old.items ++ flat_map line_of (map (sort_entry (sizes_by table.now.sorts sizes.now)) (map (λ s. free_name (sort_at table.now.sorts s)) sorts.now))) }
{
    for sort in sorts {
        push_elements(alloc, table, sizes, *sort, out)?;
        out.push(b'\n')?;
    }
    Ok(())
}

// Appends the lines of the symbols.
fn push_symbols(
    alloc: Global,
    table: &Table,
    model: &Model,
    symbols: &[SymId],
    out: &mut Vec<u8>,
) -> Result<(), AllocError>
    requires symbols { All (IsSymbol table.now) symbols.now }
    requires functions { All (λ s. HasGraph (model_at table.now model.now) (symbol_at table.now s)) symbols.now }
    ensures { OnOk result (out.new.items ≡ out.old.items ++ flat_map line_of (map (symbol_entry (model_at table.now model.now)) (map (symbol_at table.now) symbols.now))) }
{
    know_table(table);
    for symbol in symbols {
        let Some(graph) = model.graph(*symbol) else {
            unreachable!()
        };
        push_function(alloc, table, *symbol, graph, out)?;
        out.push(b'\n')?;
    }
    Ok(())
}

/// The text of a model over a signature: the elements of the declared sorts, the symbols in order of declaration, and the tables
/// of `div` and `mod` by zero where they aren't 0 everywhere, a line each.
pub fn model_text(
    alloc: Global,
    table: &Table,
    model: &Model,
    signature: &Signature,
) -> Result<Vec<u8>, AllocError>
    requires signature { AreLiveNumbersOf table.now signature.now }
    requires over { IsModelOver (signature_of table.now signature.now).sorts (signature_of table.now signature.now).symbols (model_at table.now model.now) }
    ensures { IfOk result (λ text. text.items ≡ model_lines (model_at table.now model.now) (signature_of table.now signature.now)) }
{
    let mut text = Vec::new(alloc);
    text.extend_from_slice(b"(\n")?;
    push_sorts(alloc, table, model.sizes(), signature.sorts(), &mut text)?;
    push_symbols(alloc, table, model, signature.symbols(), &mut text)?;
    push_numbers(
        alloc,
        b"@div0",
        model.by_zero(Division::Quotient),
        &mut text,
    )?;
    push_numbers(
        alloc,
        b"@mod0",
        model.by_zero(Division::Remainder),
        &mut text,
    )?;
    text.extend_from_slice(b")\n")?;
    Ok(text)
}

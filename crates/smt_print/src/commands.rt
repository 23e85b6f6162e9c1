//! Commands that hold no terms.

ghost use Rattle.std.specs.Prelude.{◌≡◌, ◌++◌, ◌∷◌, [], All, OnOk, map, false};
ghost use Rattle.smt_lex.specs.Forms.{Form};
ghost use Rattle.smt_lex.specs.FormText.{form_text};
ghost use Rattle.smt_lex.specs.Names.{printed_symbol};
ghost use Rattle.smt_terms.specs.Term.{Term};
ghost use Rattle.smt_values.specs.SortIds.{sort_at, IsSortId};
ghost use Rattle.term_table.specs.Formulas.{symbol_at, IsSymbol};
ghost use Rattle.term_table.specs.WrittenForms.{list_form, numeral_form, sort_form};
ghost use Rattle.script_read.specs.CommandLists.{free_name, command_of, IsCommandOf};
ghost use Rattle.smt_print.specs.Text.{command_form, command_text, declaration, sort_declaration, globals_option};
ghost use Rattle.smt_print.specs.CommandTexts.{holds_terms};

use crate::names::Printed;
use crate::numbers::{push_number, push_separator};
use crate::page::Page;
use script_read::Command;
use smt_values::{SortId, SymId};
use std::alloc::{AllocError, Global};
use term_table::Bytes;

// Appends bytes.
fn push_bytes(bytes: &Bytes, out: &mut Page) -> Result<(), AllocError>
    ensures { OnOk result (out.new ≡ out.old ++ bytes.now) }
{
    for i in 0..bytes.len() {
        out.push(bytes.get(i))?;
    }
    Ok(())
}

// Appends the name of a free sort; another sort has the empty name.
fn push_sort_name(
    alloc: Global,
    table: &Printed,
    sort: SortId,
    out: &mut Page,
) -> Result<(), AllocError>
    requires { IsSortId table.now.sorts sort }
    ensures { OnOk result (out.new ≡ out.old ++ printed_symbol (free_name (sort_at table.now.sorts sort))) }
{
    match table.sorts().name(sort) {
        Some(name) => out.push_symbol(alloc, name),
        None => out.push_symbol(alloc, b""),
    }
}

// Appends `(declare-sort S 0)`.
fn push_sort_declaration(
    alloc: Global,
    table: &Printed,
    sort: SortId,
    out: &mut Page,
) -> Result<(), AllocError>
    requires { IsSortId table.now.sorts sort }
    ensures { OnOk result (out.new ≡ out.old ++ form_text (sort_declaration (free_name (sort_at table.now.sorts sort)))) }
{
    out.push_short(b"(declare-sort ")?;
    push_sort_name(alloc, table, sort, out)?;
    out.push_short(b" 0)")?;
    Ok(())
}

// Appends `(SORT ..)`.
fn push_sorts(
    alloc: Global,
    table: &Printed,
    sorts: &[SortId],
    out: &mut Page,
) -> Result<(), AllocError>
    requires { All (IsSortId table.now.sorts) sorts.now }
    ensures { OnOk result (out.new ≡ out.old ++ form_text (list_form (map sort_form (map (sort_at table.now.sorts) sorts.now)))) }
{
    out.push(b'(')?;
    for (place, sort) in sorts.iter().enumerate() {
        push_separator(place, out)?;
        table.push_sort(alloc, *sort, out)?;
    }
    out.push(b')')?;
    Ok(())
}

// Appends `(declare-fun f (SORT ..) SORT)`.
fn push_declaration(
    alloc: Global,
    table: &Printed,
    symbol: SymId,
    out: &mut Page,
) -> Result<(), AllocError>
    requires { IsSymbol table.now symbol }
    ensures { OnOk result (out.new ≡ out.old ++ form_text (declaration (symbol_at table.now symbol))) }
{
    let (args, to) = table.symbol_rank(symbol);
    out.push_short(b"(declare-fun ")?;
    table.push_symbol(alloc, symbol, out)?;
    out.push(b' ')?;
    push_sorts(alloc, table, args, out)?;
    out.push(b' ')?;
    table.push_sort(alloc, to, out)?;
    out.push(b')')?;
    Ok(())
}

// Appends a command over a number of levels.
fn push_levels(name: &[u8], levels: u32, out: &mut Page) -> Result<(), AllocError>
    ensures { OnOk result (out.new ≡ out.old ++ form_text (command_form name.now (numeral_form levels ∷ []))) }
{
    out.push(b'(')?;
    out.extend_from_slice(name)?;
    out.push(b' ')?;
    push_number(u64::from(levels), out)?;
    out.push(b')')?;
    Ok(())
}

// Appends `(set-option :global-declarations BOOL)`.
fn push_globals(value: bool, out: &mut Page) -> Result<(), AllocError>
    ensures { OnOk result (out.new ≡ out.old ++ form_text (globals_option value)) }
{
    match value {
        true => out.push_short(b"(set-option :global-declarations true)")?,
        false => out.push_short(b"(set-option :global-declarations false)")?,
    }
    Ok(())
}

// Appends a command that holds no terms.
pub(crate) fn push_command(
    alloc: Global,
    table: &Printed,
    command: &Command,
    out: &mut Page,
) -> Result<(), AllocError>
    requires numbers { IsCommandOf table.now command.now }
    requires plain { holds_terms command.now ≡ false }
    ensures { (form : Term → Form) → OnOk result (out.new ≡ out.old ++ command_text form (command_of table.now command.now)) }
{
    match command {
        Command::Passed(text) => push_bytes(text, out),
        Command::DeclareSort(sort) => push_sort_declaration(alloc, table, *sort, out),
        Command::Declare(symbol) => push_declaration(alloc, table, *symbol, out),
        Command::Assert { .. } | Command::CheckAssuming(_) => unreachable!(),
        Command::Check => out.push_short(b"(check-sat)"),
        Command::Push(levels) => push_levels(b"push", *levels, out),
        Command::Pop(levels) => push_levels(b"pop", *levels, out),
        Command::Reset => out.push_short(b"(reset)"),
        Command::ResetAssertions => out.push_short(b"(reset-assertions)"),
        Command::Globals(value) => push_globals(*value, out),
        Command::Exit => out.push_short(b"(exit)"),
    }
}

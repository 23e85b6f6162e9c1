//! Whole model texts.

ghost use Rattle.std.specs.Prelude.{◌≡◌, ◌≤◌, ◌==◌, [], ◌∷◌, max, length, List, IsTrue, Some, if◌then◌else◌, IfOk, OnOk};
ghost use Rattle.std.specs.List.{list_any};
ghost use Rattle.smt_terms.specs.declared.ids.SortId.{SortId};
ghost use Rattle.smt_terms.specs.Models.{IsModel, IsModelOver};
ghost use Rattle.smt_terms.specs.Sorts.{int};
ghost use Rattle.smt_terms.specs.Values as values;
ghost use Rattle.smt_terms.specs.Values.{number, is_value};
ghost use Rattle.smt_values.specs.Meaning.{meaning, IsHeld};
ghost use Rattle.smt_values.specs.SizeTable.{size_at, sizes_by};
ghost use Rattle.term_table.specs.Formulas.{symbol_at, IsSymbol};
ghost use Rattle.script_terms.specs.Places.{forms_from};
ghost use Rattle.models.specs.LiveNumbers.{LiveNumbers, signature_of, AreLiveNumbersOf};
ghost use Rattle.models.specs.ModelView.{model_at, with_graph, IsModelOf};
ghost use Rattle.models.specs.NumberRows.{IsWithin};
ghost use Rattle.model_texts.specs.Entries.{table_symbol};
ghost use Rattle.model_texts.specs.GivenEntries.{tables_given, AreNamedBy, AreNamesIn, AreTablesOf};
ghost use Rattle.model_texts.specs.GivenFits.{table_fits};
ghost use Rattle.model_texts.specs.GivenTables.{graph_given, IsHeldTable};
ghost use Rattle.model_texts.specs.Met.{names_kept};
ghost use Rattle.model_texts.specs.ModelText.{model_over, number_graph, with_first_rows, without_word};
ghost use Rattle.model_texts.specs.Proper.{IsProper};
ghost use Rattle.model_texts.specs.Reading.{Element, sizes};
ghost use Rattle.model_texts.specs.Replies.{AreElementsOf, Replies};
ghost use Rattle.model_texts.specs.SignatureNames.{AreNamesOf};
ghost use Rattle.model_texts.specs.TextTables.{tables_in, AreOfText, fault_in};
ghost use Rattle.model_texts.specs.ReadModel.{ReadsModel};
ghost use Rattle.model_texts.specs.Whole.{IsWhole};

use crate::elements::Elements;
use crate::entries::{GivenTables, read_entries};
use crate::faults::{Cause, ModelFault, TextFault};
use crate::names::{Names, Owner};
use crate::places::refused;
use crate::tables::GivenTable;
use indexmap::IndexMap;
use models::{Division, Model, NumberGraph, Signature};
use script_terms::places::{begins, inside, is_word};
use smt_lex::{Forest, line_of};
use smt_terms::{BuildNameHasher, SymId};
use smt_values::{Scalar, Sizes, Value};
use std::alloc::{AllocError, Global};
use term_table::Table;

/// The model over a signature that a text gives. A text is the word `sat` or nothing, and one list of the word `model` or
/// nothing and of entries. The refusal is the first one, from left to right.
pub fn read_model(
    alloc: Global,
    table: &Table,
    forest: &Forest,
    signature: &Signature,
) -> Result<Model, ModelFault>
    requires whole { IsWhole forest.now }
    requires signature { AreLiveNumbersOf table.now signature.now }
    requires proper { IsProper (signature_of table.now signature.now) }
    ensures { ReadsModel table.now forest.now.bytes (signature_of table.now signature.now) result }
{
    // A table's symbols have sorts of the table.
    prove!(table.len() <= u64::MAX);
    let names = Names::new(alloc, table, signature)?;
    let mut given = IndexMap::with_hasher(alloc, BuildNameHasher::new());
    let mut elements = Elements::new(alloc);
    match read_text(alloc, table, forest, &names, &mut given, &mut elements) {
        Ok(()) => Ok(model_over(alloc, table, signature, given, &elements)?),
        Err(fault) => Err(with_line(forest, fault)),
    }
}

fn read_text<'a>(
    alloc: Global,
    table: &Table,
    forest: &'a Forest,
    names: &Names,
    given: &mut GivenTables<'a>,
    elements: &mut Elements<'a>,
) -> Result<(), TextFault>
    requires whole { IsWhole forest.now }
    requires names { AreNamesIn table.now names.now }
    requires given { given.old.entries ≡ [] }
    requires elements { elements.old ≡ [] }
    ensures text { (live : LiveNumbers) → AreNamesOf table.now live names.now → Replies (λ _ gs. gs ≡ tables_given given.new.entries) (AreElementsOf table.now (names_kept elements.new)) (tables_in (signature_of table.now live) (length forest.now.bytes) (forms_from forest.now.tokens 0)) result }
    ensures given { IfOk result (λ _. AreNamedBy names.now given.new.entries) }
{
    let list = behind_word(forest, 0, b"sat");
    if !begins(forest, list) {
        return Err(TextFault::Refused {
            cause: Cause::ModelForm,
            byte: forest.bytes().len() as u64,
        });
    }
    let Some(first) = inside(forest, list) else {
        return Err(refused(forest, list, Cause::ModelForm));
    };
    let entries = behind_word(forest, first, b"model");
    read_entries(alloc, table, forest, entries, names, given, elements)?;
    let behind = forest.after(list);
    if begins(forest, behind) {
        return Err(refused(forest, behind, Cause::ModelForm));
    }
    Ok(())
}

// The token behind a word, where it stands here, or else this one.
fn behind_word(forest: &Forest, at: usize, word: &[u8]) -> usize
    requires { at ≤ length forest.now.tokens }
    ensures forms { forms_from forest.now.tokens result ≡ without_word word.now (forms_from forest.now.tokens at) }
    ensures within { result ≤ length forest.now.tokens }
{
    if begins(forest, at) && is_word(forest, at, word) {
        return forest.after(at);
    }
    at
}

// The model of the tables that are given.
fn model_over(
    alloc: Global,
    table: &Table,
    signature: &Signature,
    given: GivenTables,
    elements: &Elements,
) -> Result<Model, AllocError>
    requires signature { AreLiveNumbersOf table.now signature.now }
    requires proper { IsProper (signature_of table.now signature.now) }
    requires tables { AreTablesOf table.now (signature_of table.now signature.now) given.entries }
    requires text { (es : List Element) × AreOfText table.now signature.now given.entries elements.now es }
    ensures model { IfOk result (λ m. (es : List Element) → AreOfText table.now signature.now given.entry.entries elements.now es → model_at table.now m ≡ model_over (signature_of table.now signature.now) (tables_given given.entry.entries) (sizes es)) }
    ensures over { IfOk result (λ m. IsModelOver (signature_of table.now signature.now).sorts (signature_of table.now signature.now).symbols (model_at table.now m)) }
    ensures numbers { IfOk result (IsModelOf table.now) }
{
    // No two sorts of a table are equal.
    prove!(table.len() <= u64::MAX);
    let sizes = sizes_of(alloc, signature, elements)?;
    let mut model = Model::with_sizes(alloc, table, signature, sizes)?;
    for given in given.into_values() {
        match given.owner {
            Owner::Symbol(symbol) => give(table, &mut model, symbol, given.table)?,
            Owner::Numbers(part) => model.set_by_zero(part, numbers_of(alloc, given.table)?),
        }
    }
    Ok(model)
}

// How many elements each sort of the signature has.
fn sizes_of(alloc: Global, signature: &Signature, elements: &Elements) -> Result<Sizes, AllocError>
    ensures { IfOk result (λ ns. (s : SortId) → size_at ns s ≡ (if list_any (λ sort. s.0 == sort.0) signature.now.sorts then max 1 (length (names_kept elements.now s)) else 1)) }
{
    let mut sizes = Sizes::new(alloc);
    for sort in signature.sorts() {
        sizes.set(*sort, elements.size(*sort))?;
    }
    Ok(sizes)
}

// Gives a symbol its table.
fn give(
    table: &Table,
    model: &mut Model,
    symbol: SymId,
    given: GivenTable,
) -> Result<(), AllocError>
    requires symbol { IsSymbol table.now symbol }
    requires held { IsHeldTable given }
    requires fits { IsTrue (table_fits (symbol_at table.now symbol) (sizes_by table.now.sorts model.old.sizes) (graph_given given)) }
    requires valid { IsModel (model_at table.now model.old) }
    ensures model { OnOk result (model_at table.now model.new ≡ with_graph (symbol_at table.now symbol) (Some (with_first_rows (symbol_at table.now symbol).args (sizes_by table.now.sorts model.old.sizes) (graph_given given))) (model_at table.now model.old)) }
    ensures valid { OnOk result (IsModel (model_at table.now model.new)) }
    ensures sizes { model.new.sizes ≡ model.old.sizes }
    ensures numbers { OnOk result (IsModelOf table.now model.old → IsModelOf table.now model.new) }
{
    // No two symbols of a table are equal.
    prove!(table.len() <= u64::MAX);
    model.define(table, symbol, given.otherwise)?;
    for row in given.rows {
        model.add_row(table, symbol, row.keys, row.value)?;
    }
    Ok(())
}

// The table as rows of whole numbers.
fn numbers_of(alloc: Global, given: GivenTable) -> Result<NumberGraph, AllocError>
    requires held { IsHeldTable given }
    requires fits { IsTrue (table_fits (table_symbol []) (λ _. 1) (graph_given given)) }
    ensures { IfOk result (λ g. (counts : values.Sizes) → g ≡ number_graph (with_first_rows (int ∷ []) counts (graph_given given))) }
{
    let mut numbers = NumberGraph::new(alloc, whole(&given.otherwise));
    for row in &given.rows {
        numbers.add_row(whole(&row.keys[0]), whole(&row.value))?;
    }
    Ok(numbers)
}

// The number that a value of sort Int is.
fn whole(value: &Value) -> i128
    requires held { IsHeld value.now }
    requires whole { IsTrue (is_value int (λ _. 1) (meaning value.now)) }
    ensures number { result ≡ number (meaning value.now) }
    ensures within { IsWithin result }
{
    match value {
        Value::Scalar(Scalar::Whole(n)) => *n,
        _ => unreachable!(),
    }
}

// The fault with the line of its byte.
fn with_line(forest: &Forest, fault: TextFault) -> ModelFault
    ensures { result ≡ fault_in forest.now.bytes fault }
{
    let TextFault::Refused { cause, byte } = fault else {
        return ModelFault::Memory;
    };
    let bytes = forest.bytes();
    let line = line_of(bytes, (byte as usize).min(bytes.len()));
    match cause {
        Cause::ModelForm => ModelFault::ModelForm { line, byte },
        Cause::ModelSort => ModelFault::ModelSort { line, byte },
        Cause::NotATable => ModelFault::NotATable { line, byte },
        Cause::ModelNumber => ModelFault::ModelNumber { line, byte },
        Cause::ModelTwice => ModelFault::ModelTwice { line, byte },
    }
}

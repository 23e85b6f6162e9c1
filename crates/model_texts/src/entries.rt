//! The entries of model texts: functions, names of sorts, and elements of sorts.

ghost use Rattle.std.specs.Prelude.{◌≡◌, ◌≤◌, ◌&&◌, length, map, All, List, None, Some, true, if◌then◌else◌, IfOk};
ghost use Rattle.smt_values.specs.SortIds.{sort_at, IsSortId};
ghost use Rattle.script_terms.specs.Parts.{place_of};
ghost use Rattle.script_terms.specs.Places.{IsForm, form_from, forms_from};
ghost use Rattle.models.specs.LiveNumbers.{LiveNumbers, signature_of};
ghost use Rattle.model_texts.specs.Entries as plain;
ghost use Rattle.model_texts.specs.Entries.{symbol_named, have_sorts, function_given, elements_met, sort_given, entry_in, entry_given, entries_given, function_in, sort_name_in};
ghost use Rattle.model_texts.specs.GivenEntries.{IsFunctionAt, IsFunctionIn, IsEntryAt, tables_given, AreNamedBy, AreNamesIn};
ghost use Rattle.model_texts.specs.GivenParameters.{NamedSorts, parameters_of};
ghost use Rattle.model_texts.specs.Met.{names_kept};
ghost use Rattle.model_texts.specs.Reading.{Element};
ghost use Rattle.model_texts.specs.Replies.{AreElementsOf, Replies};
ghost use Rattle.model_texts.specs.SignatureNames.{AreNamesOf, owned, IsOwnerOf};
ghost use Rattle.model_texts.specs.ValueForms.{is_sort_form};
ghost use Rattle.model_texts.specs.Whole.{IsWhole};

use crate::elements::Elements;
use crate::faults::{Cause, TextFault};
use crate::names::{Names, Owner};
use crate::parameters::{Parameters, parameters_at};
use crate::places::{is_named, refused, symbol_at};
use crate::sorts::is_sort_at;
use crate::tables::{GivenTable, read_body};
use crate::values::read_value;
use indexmap::IndexMap;
use script_terms::lists::{Few, few_from};
use script_terms::places::{begins, inside, is_word, numeral_at};
use smt_lex::Forest;
use smt_terms::{BuildNameHasher, SortId};
use std::alloc::{AllocError, Global};
use term_table::Table;

/// A table that a text gives, and what it is for.
#[derive(Drop)]
pub(crate) struct Given {
    pub(crate) owner: Owner,
    pub(crate) table: GivenTable,
}

/// The tables that a text gives, by their names, in order.
pub(crate) type GivenTables<'a> = IndexMap<&'a [u8], Given, BuildNameHasher>;

// An entry. Parts are named by the numbers of their first tokens.
#[derive(Drop)]
enum Entry<'a> {
    Function(Function<'a>),
    SortName,
    Elements { sort: usize, first: usize },
}

// `(define-fun NAME PARAMETERS SORT BODY)`
#[derive(Drop)]
struct Function<'a> {
    name: &'a [u8],
    parameters: Parameters<'a>,
    to: usize,
    body: usize,
}

/// Reads all entries to the end of the list that they stand in.
pub(crate) fn read_entries<'a>(
    alloc: Global,
    table: &Table,
    forest: &'a Forest,
    first: usize,
    names: &Names,
    given: &mut GivenTables<'a>,
    elements: &mut Elements<'a>,
) -> Result<(), TextFault>
    requires whole { IsWhole forest.now }
    requires first { first ≤ length forest.now.tokens }
    requires names { AreNamesIn table.now names.now }
    requires given { AreNamedBy names.now given.old.entries }
    ensures entries { (live : LiveNumbers) (es : List Element) → AreNamesOf table.now live names.now → AreElementsOf table.now (names_kept elements.old) es → Replies (λ _ gs. gs ≡ tables_given given.new.entries) (AreElementsOf table.now (names_kept elements.new)) (entries_given (signature_of table.now live) (tables_given given.old.entries) (forms_from forest.now.tokens first) es) result }
    ensures given { IfOk result (λ _. AreNamedBy names.now given.new.entries) }
{
    let mut next = first;
    while begins(forest, next) {
        read_entry(alloc, table, forest, next, names, given, elements)?;
        next = forest.after(next);
    }
    Ok(())
}

fn read_entry<'a>(
    alloc: Global,
    table: &Table,
    forest: &'a Forest,
    at: usize,
    names: &Names,
    given: &mut GivenTables<'a>,
    elements: &mut Elements<'a>,
) -> Result<(), TextFault>
    requires whole { IsWhole forest.now }
    requires form { IsForm forest.now.tokens at }
    requires names { AreNamesIn table.now names.now }
    requires given { AreNamedBy names.now given.old.entries }
    ensures entry { (live : LiveNumbers) (es : List Element) → AreNamesOf table.now live names.now → AreElementsOf table.now (names_kept elements.old) es → Replies (λ _ gs. gs ≡ tables_given given.new.entries) (AreElementsOf table.now (names_kept elements.new)) (entry_given (signature_of table.now live) (tables_given given.old.entries) (place_of (form_from forest.now.tokens at)) (entry_in (form_from forest.now.tokens at)) es) result }
    ensures given { IfOk result (λ _. AreNamedBy names.now given.new.entries) }
{
    match entry_at(alloc, forest, at)? {
        None => Err(refused(forest, at, Cause::ModelForm)),
        Some(Entry::SortName) => Ok(()),
        Some(Entry::Elements { sort, first }) => {
            read_elements(alloc, table, forest, sort, first, names, elements)
        }
        Some(Entry::Function(function)) => {
            read_function(alloc, table, forest, at, function, names, given, elements)
        }
    }
}

// Reads the elements of a sort, where the signature has it.
fn read_elements<'a>(
    alloc: Global,
    table: &Table,
    forest: &'a Forest,
    sort: usize,
    first: usize,
    names: &Names,
    elements: &mut Elements<'a>,
) -> Result<(), TextFault>
    requires whole { IsWhole forest.now }
    requires sort { IsForm forest.now.tokens sort }
    requires first { first ≤ length forest.now.tokens }
    requires names { AreNamesIn table.now names.now }
    ensures { (live : LiveNumbers) (gs : List plain.Given) (es : List Element) → AreNamesOf table.now live names.now → AreElementsOf table.now (names_kept elements.old) es → Replies (λ _ hs. hs ≡ gs) (AreElementsOf table.now (names_kept elements.new)) (sort_given (signature_of table.now live).sorts (form_from forest.now.tokens sort) (forms_from forest.now.tokens first) gs es) result }
{
    if inside(forest, sort).is_some() {
        return Ok(());
    }
    let Some(sort) = names.sort(forest.name(sort)) else {
        return Ok(());
    };
    read_values(alloc, table, forest, first, sort, elements)
}

// Reads all forms to the end of the list as values of this sort.
fn read_values<'a>(
    alloc: Global,
    table: &Table,
    forest: &'a Forest,
    first: usize,
    sort: SortId,
    elements: &mut Elements<'a>,
) -> Result<(), TextFault>
    requires whole { IsWhole forest.now }
    requires first { first ≤ length forest.now.tokens }
    requires sort { IsSortId table.now.sorts sort }
    ensures { (gs : List plain.Given) (es : List Element) → AreElementsOf table.now (names_kept elements.old) es → Replies (λ _ hs. hs ≡ gs) (AreElementsOf table.now (names_kept elements.new)) (elements_met (sort_at table.now.sorts sort) (forms_from forest.now.tokens first) gs es) result }
{
    let mut next = first;
    while begins(forest, next) {
        read_value(alloc, table, forest, next, sort, elements)?;
        next = forest.after(next);
    }
    Ok(())
}

// Reads a function, where its name is one of the signature's or of the tables of division by zero.
fn read_function<'a>(
    alloc: Global,
    table: &Table,
    forest: &'a Forest,
    at: usize,
    function: Function<'a>,
    names: &Names,
    given: &mut GivenTables<'a>,
    elements: &mut Elements<'a>,
) -> Result<(), TextFault>
    requires whole { IsWhole forest.now }
    requires form { IsForm forest.now.tokens at }
    requires function { IsFunctionAt forest.now.tokens function }
    requires names { AreNamesIn table.now names.now }
    requires given { AreNamedBy names.now given.old.entries }
    ensures function { (live : LiveNumbers) (es : List Element) → AreNamesOf table.now live names.now → AreElementsOf table.now (names_kept elements.old) es → Replies (λ _ gs. gs ≡ tables_given given.new.entries) (AreElementsOf table.now (names_kept elements.new)) (function_given (place_of (form_from forest.now.tokens at)) (tables_given given.old.entries) (symbol_named (signature_of table.now live) function.entry.name.now) (parameters_of forest.now.tokens function.entry.parameters) (form_from forest.now.tokens function.entry.to) (form_from forest.now.tokens function.entry.body) es) result }
    ensures given { IfOk result (λ _. AreNamedBy names.now given.new.entries) }
{
    let Some(owner) = names.owner(function.name) else {
        return Ok(());
    };
    if given.contains_key(function.name) {
        return Err(refused(forest, at, Cause::ModelTwice));
    }
    let (sorts, to) = rank_of(table, owner);
    if !has_rank(table, forest, &function, sorts, to) {
        return Err(refused(forest, at, Cause::ModelSort));
    }
    let table = read_body(
        alloc,
        table,
        forest,
        function.body,
        &function.parameters,
        sorts,
        to,
        elements,
    )?;
    given.insert(function.name, Given { owner, table })?;
    Ok(())
}

// The sorts of the arguments and of the result.
fn rank_of(table: &Table, owner: Owner) -> (&[SortId], SortId)
    requires { IsOwnerOf table.now owner }
    ensures sorts { map (sort_at table.now.sorts) result.0.now ≡ (owned table.now owner).args }
    ensures to { sort_at table.now.sorts result.1 ≡ (owned table.now owner).result }
    ensures sorts_within { All (IsSortId table.now.sorts) result.0.now }
    ensures to_within { IsSortId table.now.sorts result.1 }
{
    match owner {
        Owner::Symbol(symbol) => table.symbol_rank(symbol),
        Owner::Numbers(_) => (&[SortId::INT], SortId::INT),
    }
}

// Whether the sorts of the parameters and of the result are these.
fn has_rank(
    table: &Table,
    forest: &Forest,
    function: &Function,
    sorts: &[SortId],
    to: SortId,
) -> bool
    requires sorts { All (IsSortId table.now.sorts) sorts.now }
    requires to { IsSortId table.now.sorts to }
    requires function { IsFunctionAt forest.now.tokens function.now }
    ensures rank { result ≡ (have_sorts (map (sort_at table.now.sorts) sorts.now) (parameters_of forest.now.tokens function.now.parameters) && is_sort_form (sort_at table.now.sorts to) (form_from forest.now.tokens function.now.to)) }
    ensures count { result ≡ true → length sorts.now ≡ length function.now.parameters }
{
    have_sorts(table, forest, &function.parameters, sorts)
        && is_sort_at(table, to, forest, function.to)
}

fn have_sorts(table: &Table, forest: &Forest, parameters: &Parameters, sorts: &[SortId]) -> bool
    requires sorts { All (IsSortId table.now.sorts) sorts.now }
    requires forms { All (λ p. IsForm forest.now.tokens p.1) parameters.now }
    ensures sorts { result ≡ have_sorts (map (sort_at table.now.sorts) sorts.now) (parameters_of forest.now.tokens parameters.now) }
    ensures count { result ≡ true → length sorts.now ≡ length parameters.now }
{
    if parameters.len() != sorts.len() {
        return false;
    }
    for place in 0..sorts.len() {
        if !is_sort_at(table, sorts[place], forest, parameters.sort(place)) {
            return false;
        }
    }
    true
}

// The entry that a form is.
fn entry_at<'a>(
    alloc: Global,
    forest: &'a Forest,
    at: usize,
) -> Result<Option<Entry<'a>>, AllocError>
    requires whole { IsWhole forest.now }
    requires form { IsForm forest.now.tokens at }
    ensures { IfOk result (IsEntryAt forest.now.tokens (entry_in (form_from forest.now.tokens at))) }
{
    let Some(word) = inside(forest, at) else {
        return Ok(None);
    };
    if !begins(forest, word) {
        return Ok(None);
    }
    let first = forest.after(word);
    if is_word(forest, word, b"define-fun") {
        return Ok(function_at(alloc, forest, first)?.map(Entry::Function));
    }
    if is_word(forest, word, b"declare-sort") {
        return Ok(is_sort_name(forest, first).then_some(Entry::SortName));
    }
    if is_named(forest, word, b"@sort") && begins(forest, first) {
        return Ok(Some(Entry::Elements {
            sort: first,
            first: forest.after(first),
        }));
    }
    Ok(None)
}

// The function whose parts stand from this token on.
fn function_at<'a>(
    alloc: Global,
    forest: &'a Forest,
    first: usize,
) -> Result<Option<Function<'a>>, AllocError>
    requires whole { IsWhole forest.now }
    requires first { first ≤ length forest.now.tokens }
    ensures { IfOk result (IsFunctionIn forest.now.tokens (function_in (forms_from forest.now.tokens first))) }
{
    let Few::Four(name, parameters, to, body) = few_from(forest, first) else {
        return Ok(None);
    };
    let Some(name) = symbol_at(forest, name) else {
        return Ok(None);
    };
    let Some(parameters) = parameters_at(alloc, forest, parameters)? else {
        return Ok(None);
    };
    Ok(Some(Function {
        name,
        parameters,
        to,
        body,
    }))
}

// Whether the forms from this token on are a symbol and the number 0.
fn is_sort_name(forest: &Forest, first: usize) -> bool
    requires { first ≤ length forest.now.tokens }
    ensures { sort_name_in (forms_from forest.now.tokens first) ≡ (if result then Some plain.sort_name else None) }
{
    match few_from(forest, first) {
        Few::Two(name, arity) => {
            symbol_at(forest, name).is_some() && numeral_at(forest, arity) == Some(0)
        }
        _ => false,
    }
}

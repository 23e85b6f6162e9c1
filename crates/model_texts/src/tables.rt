//! The bodies of functions in model texts: a value, or `(ite CONDITION VALUE BODY)`.

ghost use Rattle.std.specs.Prelude.{◌≡◌, length, All, List, None, IfOk, MatchOption};
ghost use Rattle.smt_values.specs.SortIds.{sort_at, IsSortId};
ghost use Rattle.script_terms.specs.Places.{IsForm, form_from};
ghost use Rattle.model_texts.specs.Choices.{choice_in, IsChoiceAt};
ghost use Rattle.model_texts.specs.GivenParameters.{variables_at};
ghost use Rattle.model_texts.specs.GivenTables.{IsHeldTable, IsGivenGraph};
ghost use Rattle.model_texts.specs.Met.{names_kept};
ghost use Rattle.model_texts.specs.Reading.{Element};
ghost use Rattle.model_texts.specs.Replies.{AreElementsOf, Replies};
ghost use Rattle.model_texts.specs.Tables.{body_in};
ghost use Rattle.model_texts.specs.Whole.{IsWhole};

use crate::conditions::read_condition;
use crate::elements::Elements;
use crate::faults::TextFault;
use crate::parameters::Parameters;
use crate::places::is_named;
use crate::values::read_value;
use script_terms::lists::{Few, few_from};
use script_terms::places::inside;
use smt_lex::Forest;
use smt_terms::SortId;
use smt_values::Value;
use std::alloc::Global;
use term_table::Table;

/// The result at arguments, as a text gives it.
#[derive(Drop)]
pub(crate) struct GivenRow {
    pub(crate) keys: Vec<Value>,
    pub(crate) value: Value,
}

/// A table as a text gives it: of rows for the same arguments the first counts.
#[derive(Drop)]
pub(crate) struct GivenTable {
    pub(crate) rows: Vec<GivenRow>,
    pub(crate) otherwise: Value,
}

// The parts of an `ite`, by the numbers of their first tokens.
#[derive(Clone, Copy)]
struct Choice {
    condition: usize,
    value: usize,
    otherwise: usize,
}

/// The table that a body is, of parameters of these sorts and with results of this sort. However many rows it has, it takes
/// no stack.
pub(crate) fn read_body<'a>(
    alloc: Global,
    table: &Table,
    forest: &'a Forest,
    at: usize,
    parameters: &Parameters<'a>,
    sorts: &[SortId],
    to: SortId,
    elements: &mut Elements<'a>,
) -> Result<GivenTable, TextFault>
    requires whole { IsWhole forest.now }
    requires form { IsForm forest.now.tokens at }
    requires sorts { All (IsSortId table.now.sorts) sorts.now }
    requires count { length sorts.now ≡ length parameters.now }
    requires to { IsSortId table.now.sorts to }
    ensures table { (es : List Element) → AreElementsOf table.now (names_kept elements.old) es → Replies IsGivenGraph (AreElementsOf table.now (names_kept elements.new)) (body_in (form_from forest.now.tokens at) (variables_at table.now forest.now.tokens sorts.now parameters.now) (sort_at table.now.sorts to) es) result }
    ensures held { IfOk result IsHeldTable }
{
    let mut rows = Vec::new(alloc);
    let mut rest = at;
    while let Some(choice) = choice_at(forest, rest) {
        let keys = read_condition(
            alloc,
            table,
            forest,
            choice.condition,
            parameters,
            sorts,
            elements,
        )?;
        let value = read_value(alloc, table, forest, choice.value, to, elements)?;
        rows.push(GivenRow { keys, value })?;
        rest = choice.otherwise;
    }
    let otherwise = read_value(alloc, table, forest, rest, to, elements)?;
    Ok(GivenTable { rows, otherwise })
}

// The parts of the `ite` that the form is.
fn choice_at(forest: &Forest, at: usize) -> Option<Choice>
    requires { IsForm forest.now.tokens at }
    ensures { MatchOption result (choice_in (form_from forest.now.tokens at) ≡ None) (IsChoiceAt forest.now.tokens (form_from forest.now.tokens at)) }
{
    match few_from(forest, inside(forest, at)?) {
        Few::Four(word, condition, value, otherwise) if is_named(forest, word, b"ite") => {
            Some(Choice {
                condition,
                value,
                otherwise,
            })
        }
        _ => None,
    }
}

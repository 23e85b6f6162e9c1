//! The conditions of rows: each parameter is equal to a value, in any order.

ghost use Rattle.std.specs.Prelude.{◌≡◌, ◌<◌, ◌≤◌, ◌==◌, ◌↔◌, codes, length, map, replicate, if◌then◌else◌, false, Some, None, option_map, option_and_then, MatchOption, IfOk, IfSome, IsTrue, All, List};
ghost use Rattle.std.specs.List.{list_all};
ghost use Rattle.smt_lex.specs.Forms.{none, ◌⨾◌};
ghost use Rattle.smt_terms.specs.Sorts.{Variable};
ghost use Rattle.smt_values.specs.Meaning.{meaning, IsHeld};
ghost use Rattle.smt_values.specs.SortIds.{sort_at, IsSortId};
ghost use Rattle.smt_values.specs.declared.scalar.Scalar.TheVariants.{Truth};
ghost use Rattle.smt_values.specs.declared.value.Value.TheVariants.{Scalar as OfScalar};
ghost use Rattle.models.specs.GraphRows.{meanings};
ghost use Rattle.script_terms.specs.Parts.{symbol_in, is_name};
ghost use Rattle.script_terms.specs.Places.{IsForm, form_from, forms_from};
ghost use Rattle.model_texts.specs.Conditions.{equations_at, side_at, AreSortsOf, AreVariablesOf, IsEquationAt, IsSideAt, NamesEachOnce, GivesEquation, GivesEquations};
ghost use Rattle.model_texts.specs.GivenParameters.{place_named, variables_at};
ghost use Rattle.model_texts.specs.Met.{names_kept, Gains, IsMetValue, AreMetValues};
ghost use Rattle.model_texts.specs.Proper.{are_distinct};
ghost use Rattle.model_texts.specs.Reading.{Element};
ghost use Rattle.model_texts.specs.Replies.{AreElementsOf, Replies};
ghost use Rattle.model_texts.specs.Tables as plain;
ghost use Rattle.model_texts.specs.Whole.{IsWhole};

use crate::elements::Elements;
use crate::faults::{Cause, TextFault};
use crate::parameters::Parameters;
use crate::places::{is_named, refused, symbol_at};
use crate::values::read_value;
use script_terms::lists::{Few, few_from};
use script_terms::places::{begins, inside};
use smt_lex::Forest;
use smt_terms::SortId;
use smt_values::{Scalar, Value};
use std::alloc::{AllocError, Global};
use term_table::{Table, know_table};

/// What a parameter is equal to: a truth value, or the value that the form at a token is.
#[derive(Clone, Copy)]
enum Side {
    Holds(bool),
    Written(usize),
}

/// What a parameter is equal to, by the parameter's place.
#[derive(Clone, Copy)]
struct Equation {
    parameter: usize,
    side: Side,
}

/// The values of the parameters, in their order, which a condition says: an equation, or an `and` of equations, that names
/// each of them exactly once.
pub(crate) fn read_condition<'a>(
    alloc: Global,
    table: &Table,
    forest: &'a Forest,
    at: usize,
    parameters: &Parameters<'a>,
    sorts: &[SortId],
    elements: &mut Elements<'a>,
) -> Result<Vec<Value>, TextFault>
    requires whole { IsWhole forest.now }
    requires form { IsForm forest.now.tokens at }
    requires sorts { All (IsSortId table.now.sorts) sorts.now }
    requires count { length sorts.now ≡ length parameters.now }
    ensures values { (es : List Element) → AreElementsOf table.now (names_kept elements.old) es → Replies (λ vs ws. All IsHeld vs.items × (meanings vs.items ≡ ws)) (AreElementsOf table.now (names_kept elements.new)) (plain.condition (variables_at table.now forest.now.tokens sorts.now parameters.now) (form_from forest.now.tokens at) es) result }
    ensures valid { IfOk result (λ vs. AreMetValues table.now elements.new sorts.now vs.items) }
    ensures gains { Gains elements.old elements.new }
{
    know_table(table);
    let Some(equations) = equations_of(alloc, forest, at, parameters, sorts)? else {
        return Err(refused(forest, at, Cause::NotATable));
    };
    read_keys(alloc, table, forest, equations.as_slice(), sorts, elements)
}

// The values of equations that name each parameter once, from left to right, put in the order of the parameters.
fn read_keys<'a>(
    alloc: Global,
    table: &Table,
    forest: &'a Forest,
    equations: &[Equation],
    sorts: &[SortId],
    elements: &mut Elements<'a>,
) -> Result<Vec<Value>, TextFault>
    requires whole { IsWhole forest.now }
    requires sorts { AreSortsOf table.now sorts.now }
    requires equations { All (IsEquationAt forest.now.tokens sorts.now) equations.now }
    requires once { NamesEachOnce (length sorts.now) equations.now }
    ensures values { (xs : List Variable) → AreVariablesOf table.now.sorts sorts.now xs → (es : List Element) → AreElementsOf table.now (names_kept elements.old) es → Replies (λ vs ws. All IsHeld vs.items × (meanings vs.items ≡ ws)) (AreElementsOf table.now (names_kept elements.new)) (plain.keys_in_order xs (equations_at forest.now.tokens xs equations.now) es) result }
    ensures valid { IfOk result (λ vs. AreMetValues table.now elements.new sorts.now vs.items) }
    ensures gains { Gains elements.old elements.new }
{
    let mut keys = falsehoods(alloc, sorts.len())?;
    for equation in equations {
        let sort = sorts[equation.parameter];
        keys[equation.parameter] = read_side(alloc, table, forest, equation.side, sort, elements)?;
    }
    Ok(keys)
}

// So many times `false`.
fn falsehoods(alloc: Global, count: usize) -> Result<Vec<Value>, AllocError>
    ensures { IfOk result (λ vs. vs.items ≡ replicate count (OfScalar (Truth false))) }
{
    let mut values = Vec::with_capacity(alloc, count)?;
    for _ in 0..count {
        values.push(Value::Scalar(Scalar::Truth(false)))?;
    }
    Ok(values)
}

// The value that a parameter of this sort is equal to.
fn read_side<'a>(
    alloc: Global,
    table: &Table,
    forest: &'a Forest,
    side: Side,
    sort: SortId,
    elements: &mut Elements<'a>,
) -> Result<Value, TextFault>
    requires whole { IsWhole forest.now }
    requires sort { IsSortId table.now.sorts sort }
    requires side { IsSideAt forest.now.tokens sort side }
    ensures value { (es : List Element) → AreElementsOf table.now (names_kept elements.old) es → Replies (λ v w. IsHeld v × (meaning v ≡ w)) (AreElementsOf table.now (names_kept elements.new)) (plain.side_value (sort_at table.now.sorts sort) (side_at forest.now.tokens side) es) result }
    ensures valid { IfOk result (IsMetValue table.now elements.new sort) }
    ensures gains { Gains elements.old elements.new }
{
    match side {
        Side::Holds(truth) => Ok(Value::Scalar(Scalar::Truth(truth))),
        Side::Written(at) => read_value(alloc, table, forest, at, sort, elements),
    }
}

// The equations of a condition that names each parameter exactly once.
fn equations_of(
    alloc: Global,
    forest: &Forest,
    at: usize,
    parameters: &Parameters,
    sorts: &[SortId],
) -> Result<Option<Vec<Equation>>, AllocError>
    requires form { IsForm forest.now.tokens at }
    requires count { length sorts.now ≡ length parameters.now }
    ensures equations { IfOk result (λ o. GivesEquations forest.now.tokens sorts.now parameters.now (λ xs. plain.equations xs (form_from forest.now.tokens at)) (option_map (λ v. v.items) o)) }
    ensures once { IfOk result (λ o. IfSome o (λ v. NamesEachOnce (length sorts.now) v.items)) }
    ensures distinct { IfOk result (λ o. IfSome o (λ _. IsTrue (are_distinct (map (λ p. p.0) parameters.now)))) }
{
    let Some(equations) = all_equations(alloc, forest, at, parameters, sorts)? else {
        return Ok(None);
    };
    if !name_each_once(alloc, equations.as_slice(), parameters.len())? {
        return Ok(None);
    }
    Ok(Some(equations))
}

// The equations of a condition.
fn all_equations(
    alloc: Global,
    forest: &Forest,
    at: usize,
    parameters: &Parameters,
    sorts: &[SortId],
) -> Result<Option<Vec<Equation>>, AllocError>
    requires form { IsForm forest.now.tokens at }
    requires count { length sorts.now ≡ length parameters.now }
    ensures { IfOk result (λ o. GivesEquations forest.now.tokens sorts.now parameters.now (λ xs. plain.all_equations xs (plain.conjuncts (form_from forest.now.tokens at))) (option_map (λ v. v.items) o)) }
{
    match conjuncts(forest, at) {
        Some(first) => equations_from(alloc, forest, first, parameters, sorts),
        None => one_equation(alloc, forest, at, parameters, sorts),
    }
}

// The first of the forms that an `and` is over, where it is over any.
fn conjuncts(forest: &Forest, at: usize) -> Option<usize>
    requires { IsForm forest.now.tokens at }
    ensures { MatchOption result (plain.conjuncts (form_from forest.now.tokens at) ≡ form_from forest.now.tokens at ⨾ none) (λ i. (i ≤ length forest.now.tokens) × (plain.conjuncts (form_from forest.now.tokens at) ≡ forms_from forest.now.tokens i)) }
{
    let head = inside(forest, at)?;
    if !begins(forest, head) {
        return None;
    }
    let first = forest.after(head);
    if !begins(forest, first) {
        return None;
    }
    if is_named(forest, head, b"and") {
        return Some(first);
    }
    None
}

// All forms to the end of the list as equations.
fn equations_from(
    alloc: Global,
    forest: &Forest,
    first: usize,
    parameters: &Parameters,
    sorts: &[SortId],
) -> Result<Option<Vec<Equation>>, AllocError>
    requires within { first ≤ length forest.now.tokens }
    requires count { length sorts.now ≡ length parameters.now }
    ensures { IfOk result (λ o. GivesEquations forest.now.tokens sorts.now parameters.now (λ xs. plain.all_equations xs (forms_from forest.now.tokens first)) (option_map (λ v. v.items) o)) }
{
    let mut equations = Vec::new(alloc);
    let mut next = first;
    while begins(forest, next) {
        let Some(equation) = equation_of(forest, next, parameters, sorts) else {
            return Ok(None);
        };
        equations.push(equation)?;
        next = forest.after(next);
    }
    Ok(Some(equations))
}

// The form as the only equation.
fn one_equation(
    alloc: Global,
    forest: &Forest,
    at: usize,
    parameters: &Parameters,
    sorts: &[SortId],
) -> Result<Option<Vec<Equation>>, AllocError>
    requires form { IsForm forest.now.tokens at }
    requires count { length sorts.now ≡ length parameters.now }
    ensures { IfOk result (λ o. GivesEquations forest.now.tokens sorts.now parameters.now (λ xs. plain.all_equations xs (form_from forest.now.tokens at ⨾ none)) (option_map (λ v. v.items) o)) }
{
    let Some(equation) = equation_of(forest, at, parameters, sorts) else {
        return Ok(None);
    };
    let mut equations = Vec::new(alloc);
    equations.push(equation)?;
    Ok(Some(equations))
}

// The equation that a form is: `(= x V)`, `(= V x)`, `x` or `(not x)`.
fn equation_of(
    forest: &Forest,
    at: usize,
    parameters: &Parameters,
    sorts: &[SortId],
) -> Option<Equation>
    requires form { IsForm forest.now.tokens at }
    requires count { length sorts.now ≡ length parameters.now }
    ensures { GivesEquation forest.now.tokens sorts.now parameters.now (λ xs. plain.equation xs (form_from forest.now.tokens at)) result }
{
    let Some(first) = inside(forest, at) else {
        return truth_equation(forest, at, parameters, sorts, true);
    };
    match few_from(forest, first) {
        Few::Two(word, operand) => denial(forest, word, operand, parameters, sorts),
        Few::Three(word, left, right) => equality(forest, word, left, right, parameters, sorts),
        _ => None,
    }
}

// That the parameter that a form names is this truth value, which it may be.
fn truth_equation(
    forest: &Forest,
    at: usize,
    parameters: &Parameters,
    sorts: &[SortId],
    truth: bool,
) -> Option<Equation>
    requires form { IsForm forest.now.tokens at }
    requires count { length sorts.now ≡ length parameters.now }
    ensures { GivesEquation forest.now.tokens sorts.now parameters.now (λ xs. plain.truth_equation truth (plain.parameter_in xs (form_from forest.now.tokens at))) result }
{
    let parameter = parameter_of(forest, at, parameters)?;
    if !is_bool(sorts[parameter]) {
        return None;
    }
    Some(Equation {
        parameter,
        side: Side::Holds(truth),
    })
}

// Whether the sort is `Bool`.
fn is_bool(sort: SortId) -> bool
    ensures { result ≡ (sort.0 == 0) }
{
    sort == SortId::BOOL
}

// `(not x)`, from its two parts.
fn denial(
    forest: &Forest,
    word: usize,
    operand: usize,
    parameters: &Parameters,
    sorts: &[SortId],
) -> Option<Equation>
    requires word { IsForm forest.now.tokens word }
    requires operand { IsForm forest.now.tokens operand }
    requires count { length sorts.now ≡ length parameters.now }
    ensures { GivesEquation forest.now.tokens sorts.now parameters.now (λ xs. if is_name (codes "not") (symbol_in (form_from forest.now.tokens word)) then plain.truth_equation false (plain.parameter_in xs (form_from forest.now.tokens operand)) else None) result }
{
    if !is_named(forest, word, b"not") {
        return None;
    }
    truth_equation(forest, operand, parameters, sorts, false)
}

// `(= x V)` or `(= V x)`, from its three parts.
fn equality(
    forest: &Forest,
    word: usize,
    left: usize,
    right: usize,
    parameters: &Parameters,
    sorts: &[SortId],
) -> Option<Equation>
    requires word { IsForm forest.now.tokens word }
    requires left { IsForm forest.now.tokens left }
    requires right { IsForm forest.now.tokens right }
    requires count { length sorts.now ≡ length parameters.now }
    ensures { GivesEquation forest.now.tokens sorts.now parameters.now (λ xs. if is_name (codes "=") (symbol_in (form_from forest.now.tokens word)) then plain.equation_of (plain.parameter_in xs (form_from forest.now.tokens left)) (plain.parameter_in xs (form_from forest.now.tokens right)) (form_from forest.now.tokens left) (form_from forest.now.tokens right) else None) result }
{
    if !is_named(forest, word, b"=") {
        return None;
    }
    if let Some(parameter) = parameter_of(forest, left, parameters) {
        return Some(Equation {
            parameter,
            side: Side::Written(right),
        });
    }
    Some(Equation {
        parameter: parameter_of(forest, right, parameters)?,
        side: Side::Written(left),
    })
}

// The parameter that a form names.
fn parameter_of(forest: &Forest, at: usize, parameters: &Parameters) -> Option<usize>
    requires { IsForm forest.now.tokens at }
    ensures place { result ≡ option_and_then (place_named parameters.now) (symbol_in (form_from forest.now.tokens at)) }
    ensures within { IfSome result (λ i. i < length parameters.now) }
{
    parameters.place(symbol_at(forest, at)?)
}

// Whether each of so many parameters is named exactly once.
fn name_each_once(
    alloc: Global,
    equations: &[Equation],
    parameters: usize,
) -> Result<bool, AllocError>
    requires { All (λ e. e.parameter < parameters) equations.now }
    ensures { IfOk result (λ b. IsTrue b ↔ NamesEachOnce parameters equations.now) }
{
    let mut named = vec![in alloc; false; parameters]?;
    for equation in equations {
        if named[equation.parameter] {
            return Ok(false);
        }
        named[equation.parameter] = true;
    }
    Ok(are_all(named.as_slice()))
}

// Whether each of these holds.
fn are_all(truths: &[bool]) -> bool
    ensures { result ≡ list_all (λ b. b) truths.now }
{
    truths.iter().all(|truth| *truth)
}

//! Sorted variables, `(x SORT)`, of quantifiers and of definitions, and the constants that they are read as (SMT-LIB 2.6,
//! sections 3.6 and 4.2.3).

ghost use Rattle.std.specs.Prelude.{◌≡◌, ◌<◌, ◌≤◌, [], List, Some, length, map, All, IfOk, OnOk};
ghost use Rattle.smt_terms.specs.Fresh.{Supply, NeverGives};
ghost use Rattle.smt_terms.specs.Subst.{parameter};
ghost use Rattle.smt_terms.specs.Term.{constant_of};
ghost use Rattle.smt_terms.specs.Rank.{is_quantifiable};
ghost use Rattle.smt_lex.specs.Lex.{symbol_of};
ghost use Rattle.smt_lex.specs.Forest.{token_at};
ghost use Rattle.smt_lex.specs.Names.{Name};
ghost use Rattle.smt_values.specs.SortIds.{sort_at, IsSortId};
ghost use Rattle.term_table.specs.Formulas.{symbol_at, IsSymbol};
ghost use Rattle.term_subst.specs.Substituting.{IsLater};
ghost use Rattle.term_walk.specs.Walking.{GrowsTo};
ghost use Rattle.script_terms.specs.Variables.{may_have, variable_in, variables_in};
ghost use Rattle.script_terms.specs.Read.{constant_names, renamed};
ghost use Rattle.script_terms.specs.Known.{AreScopedSorts, sorts_known, parameters_of, IsConstant, IsOwnName};
ghost use Rattle.script_terms.specs.Bound.{name_at, variable_seen, variables_seen, is_taken_in, symbols_seen};
ghost use Rattle.script_terms.specs.BinderClauses.{binder_seen, IsSortedName, AreSortedNames};
ghost use Rattle.script_terms.specs.BinderSteps.{SameNames, IsNewName, drawn_for};
ghost use Rattle.script_terms.specs.Parts.{place_of};
ghost use Rattle.script_terms.specs.Places.{IsRead, IsForm, SparesText, form_from, forms_from};
ghost use Rattle.script_terms.specs.Replies.{Follows};

use crate::causes::Cause;
use crate::constants::constant;
use crate::faults::{Fault, ReadFault};
use crate::locals::{Constant, Locals};
use crate::names::is_reserved_for_declaring;
use crate::places::{bad_form, begins, fault, is_symbol, two_inside};
use crate::scopes::Scope;
use crate::sorts::read_sort;
use smt_lex::Forest;
use smt_terms::{SortId, SymId};
use std::alloc::{AllocError, Global};
use term_subst::{Fresh, NameSet};
use term_table::Table;

/// What binds variables.
#[derive(Clone, Copy, Debug, PartialEq, Eq)]
pub enum Binder {
    /// `forall` or `exists`, over truth values and bit vectors alone.
    Quantifier,
    /// `define-fun`.
    Definition,
}

/// A name, by its token, with its sort.
#[derive(Clone, Copy, Debug, PartialEq, Eq)]
pub struct SortedName {
    pub name: usize,
    pub sort: SortId,
}

// Whether a quantifier may be over this sort: over `Bool` and the bit vectors it may.
fn is_quantifiable(table: &Table, sort: SortId) -> bool
    requires { IsSortId table.now.sorts sort }
    ensures { result ≡ is_quantifiable (sort_at table.now.sorts sort) }
{
    let sorts = table.sorts();
    sort != SortId::INT && sorts.parts(sort).is_none() && sorts.name(sort).is_none()
}

// Whether a variable may have this sort.
fn may_have(table: &Table, binder: Binder, sort: SortId) -> bool
    requires { IsSortId table.now.sorts sort }
    ensures { result ≡ may_have (binder_seen binder) (sort_at table.now.sorts sort) }
{
    match binder {
        Binder::Quantifier => is_quantifiable(table, sort),
        Binder::Definition => true,
    }
}

// Whether the name of token `i`, which stands in the form of token `part`, is new behind these.
fn check_name(forest: &Forest, part: usize, i: usize, names: &NameSet) -> Result<(), Fault>
    requires part { IsForm forest.now.tokens part }
    requires form { IsForm forest.now.tokens i }
    ensures new { (earlier : List Name) → SameNames earlier names.now → IsNewName forest.now.tokens earlier (place_of (form_from forest.now.tokens part)) i result }
    ensures symbol { OnOk result (symbol_of (token_at forest.now.tokens i) ≡ Some (name_at forest.now.tokens i)) }
    ensures own { OnOk result (IsOwnName (name_at forest.now.tokens i)) }
{
    if !is_symbol(forest, i) {
        return Err(bad_form(forest, part));
    }
    let name = forest.name(i);
    if is_reserved_for_declaring(name) {
        return Err(fault(forest, i, Cause::ReservedName));
    }
    if names.has(name) {
        return Err(fault(forest, i, Cause::Redeclared));
    }
    Ok(())
}

// The variable that the form of token `i` is, behind others of these names.
fn read_variable(
    alloc: Global,
    table: &mut Table,
    forest: &Forest,
    i: usize,
    scope: &Scope,
    binder: Binder,
    names: &NameSet,
) -> Result<SortedName, ReadFault>
    requires read { IsRead forest.now }
    requires form { IsForm forest.now.tokens i }
    requires scope { AreScopedSorts table.old.sorts scope.now.sorts }
    ensures variable { (earlier : List Name) → SameNames earlier names.now → Follows (variable_in (binder_seen binder) (sorts_known table.old scope.now) earlier (form_from forest.now.tokens i)) (variable_seen table.new forest.now.tokens) result }
    ensures within { IfOk result (IsSortedName table.new forest.now.tokens) }
    ensures grows { GrowsTo table.old table.new }
    ensures symbols { table.new.symbols ≡ table.old.symbols }
    ensures trees { table.new.trees ≡ table.old.trees }
{
    let Some((name, written)) = two_inside(forest, i) else {
        return Err(ReadFault::Refused(bad_form(forest, i)));
    };
    check_name(forest, i, name, names)?;
    let sort = read_sort(alloc, table, forest, written, scope)?;
    if !may_have(table, binder, sort) {
        return Err(ReadFault::Refused(fault(forest, written, Cause::QuantifiedSort)));
    }
    Ok(SortedName { name, sort })
}

/// The variables that the forms from token `i` to the end of their list are.
pub fn read_variables(
    alloc: Global,
    table: &mut Table,
    forest: &Forest,
    i: usize,
    scope: &Scope,
    binder: Binder,
) -> Result<Vec<SortedName>, ReadFault>
    requires read { IsRead forest.now }
    requires within { i ≤ length forest.now.tokens }
    requires scope { AreScopedSorts table.old.sorts scope.now.sorts }
    ensures variables { Follows (variables_in (binder_seen binder) (sorts_known table.old scope.now) [] (forms_from forest.now.tokens i)) (λ xs. variables_seen table.new forest.now.tokens xs.items) result }
    ensures within { IfOk result (λ xs. AreSortedNames table.new forest.now.tokens xs.items) }
    ensures grows { GrowsTo table.old table.new }
    ensures symbols { table.new.symbols ≡ table.old.symbols }
    ensures trees { table.new.trees ≡ table.old.trees }
{
    let mut names = NameSet::new(alloc);
    let mut variables = Vec::new(alloc);
    let mut next = i;
    while begins(forest, next) {
        let variable = read_variable(alloc, table, forest, next, scope, binder, &names)?;
        names.add(forest.name(variable.name))?;
        variables.push(variable)?;
        next = forest.after(next);
    }
    Ok(variables)
}

// Whether a declared symbol or a quantifier around the place has the name of token `i`.
fn is_taken(forest: &Forest, i: usize, scope: &Scope, locals: &Locals) -> bool
    requires { i < length forest.now.tokens }
    ensures { result ≡ is_taken_in scope.now locals.now (name_at forest.now.tokens i) }
{
    let name = forest.name(i);
    scope.is_declared(name) || locals.is_quantified(name)
}

// The symbol that a variable is read as.
fn drawn_symbol(
    table: &mut Table,
    forest: &Forest,
    variable: SortedName,
    scope: &Scope,
    locals: &Locals,
    fresh: &mut Fresh,
) -> Result<SymId, AllocError>
    requires read { IsRead forest.now }
    requires text { SparesText forest.now.tokens fresh.old }
    requires variable { IsSortedName table.old forest.now.tokens variable }
    ensures within { IfOk result (IsSymbol table.new) }
    ensures symbol { IfOk result (λ f. symbol_at table.new f ≡ (drawn_for (is_taken_in scope.now locals.now) (variable_seen table.old forest.now.tokens variable) fresh.old).0) }
    ensures left { OnOk result (fresh.new ≡ (drawn_for (is_taken_in scope.now locals.now) (variable_seen table.old forest.now.tokens variable) fresh.old).1) }
    ensures spared { IfOk result (λ f. NeverGives fresh.new (symbol_at table.new f).name) }
    ensures args { IfOk result (λ f. (symbol_at table.new f).args ≡ []) }
    ensures later { IsLater fresh.old fresh.new }
    ensures grows { GrowsTo table.old table.new }
    ensures sorts { table.new.sorts ≡ table.old.sorts }
{
    if is_taken(forest, variable.name, scope, locals) {
        let symbol = fresh.next(table, variable.sort)?;
        return Ok(symbol);
    }
    let symbol = table.symbol(forest.name(variable.name), &[], variable.sort)?;
    Ok(symbol)
}

/// The constants that quantified names are read as: a fresh one for each name that a declared symbol or a quantifier around
/// it has, else that of the name.
pub fn draw_constants(
    alloc: Global,
    table: &mut Table,
    forest: &Forest,
    variables: &[SortedName],
    scope: &Scope,
    locals: &Locals,
    fresh: &mut Fresh,
) -> Result<Vec<Constant>, AllocError>
    requires read { IsRead forest.now }
    requires text { SparesText forest.now.tokens fresh.old }
    requires variables { AreSortedNames table.old forest.now.tokens variables.now }
    ensures names { OnOk result (fresh.new ≡ (constant_names (is_taken_in scope.now locals.now) (variables_seen table.old forest.now.tokens variables.now) fresh.old).1) }
    ensures symbols { IfOk result (λ cs. symbols_seen table.new cs.items ≡ map constant_of (renamed (variables_seen table.old forest.now.tokens variables.now) (constant_names (is_taken_in scope.now locals.now) (variables_seen table.old forest.now.tokens variables.now) fresh.old).0)) }
    ensures constants { IfOk result (λ cs. All (IsConstant table.new fresh.new) cs.items) }
    ensures later { IsLater fresh.old fresh.new }
    ensures grows { GrowsTo table.old table.new }
    ensures sorts { table.new.sorts ≡ table.old.sorts }
{
    let mut constants = Vec::new(alloc);
    for variable in variables {
        let symbol = drawn_symbol(table, forest, *variable, scope, locals, fresh)?;
        constants.push(constant(table, symbol)?)?;
    }
    Ok(constants)
}

// The symbol of the parameter of this number.
fn parameter_symbol(
    alloc: Global,
    table: &mut Table,
    number: usize,
    sort: SortId,
) -> Result<SymId, AllocError>
    requires { IsSortId table.old.sorts sort }
    ensures within { IfOk result (IsSymbol table.new) }
    ensures symbol { IfOk result (λ f. symbol_at table.new f ≡ parameter number (sort_at table.old.sorts sort)) }
    ensures grows { GrowsTo table.old table.new }
    ensures sorts { table.new.sorts ≡ table.old.sorts }
{
    let name = format!(in alloc; "@p{number}")?;
    let symbol = table.symbol(name.as_bytes(), &[], sort)?;
    Ok(symbol)
}

/// The constants that the parameters of a definition are read as, by their numbers.
pub fn parameter_constants(
    alloc: Global,
    table: &mut Table,
    variables: &[SortedName],
) -> Result<Vec<Constant>, AllocError>
    requires { All (λ x. IsSortId table.old.sorts x.sort) variables.now }
    ensures symbols { IfOk result (λ cs. symbols_seen table.new cs.items ≡ parameters_of 0 (map (λ x. sort_at table.old.sorts x.sort) variables.now)) }
    ensures constants { (supply : Supply) → IfOk result (λ cs. All (IsConstant table.new supply) cs.items) }
    ensures grows { GrowsTo table.old table.new }
    ensures sorts { table.new.sorts ≡ table.old.sorts }
{
    let mut constants = Vec::new(alloc);
    for (number, variable) in variables.iter().enumerate() {
        let symbol = parameter_symbol(alloc, table, number, variable.sort)?;
        constants.push(constant(table, symbol)?)?;
    }
    Ok(constants)
}

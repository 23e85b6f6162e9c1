//! `define-fun` (SMT-LIB 2.6, section 4.2.3).

ghost use Rattle.std.specs.Prelude.{◌≡◌, ◌<◌, [], None, length, map, All, IfOk};
ghost use Rattle.smt_terms.specs.Fresh.{Supply};
ghost use Rattle.smt_values.specs.SortIds.{sort_at, IsSortId};
ghost use Rattle.term_table.specs.Formulas.{Formulas};
ghost use Rattle.term_subst.specs.Substituting.{IsLater};
ghost use Rattle.term_walk.specs.Walking.{GrowsTo};
ghost use Rattle.script_terms.specs.BinderClauses.{AreSortedNames};
ghost use Rattle.script_terms.specs.Bound.{name_at, variables_seen, symbols_seen, ShowsLocals};
ghost use Rattle.script_terms.specs.Heads.{parameters_from};
ghost use Rattle.script_terms.specs.Known.{AreScopedSorts, find, sorts_known, IsConstant, IsOwnName};
ghost use Rattle.script_terms.specs.Places.{IsRead, IsForm, SparesText, form_from, forms_from};
ghost use Rattle.script_terms.specs.Replies.{Follows};
ghost use Rattle.script_read.specs.Script.{Standing, parameters_read, read_body, defines_symbol};
ghost use Rattle.script_read.specs.ShapeClauses.{IsNameAt, IsPlaceIn, named_at};
ghost use Rattle.script_read.specs.Steps.{StandsAt, StepsTo, header_in, no_command};

use crate::session::Session;
use crate::session::new_names::check_new_name;
use script_terms::binders::{Binder, SortedName, parameter_constants, read_variables};
use script_terms::causes::Cause;
use script_terms::faults::ReadFault;
use script_terms::locals::{Constant, Local, Locals};
use script_terms::node_sorts::has_sort;
use script_terms::places::fault;
use script_terms::scopes::Scope;
use script_terms::sorts::read_sort;
use script_terms::terms::read_term;
use script_terms::terms::term_reader::TermReader;
use smt_lex::Forest;
use smt_terms::SortId;
use std::alloc::{AllocError, Global};
use term_subst::Definition;
use term_table::{Syms, Table};

/// What stands before the body of a definition.
#[derive(Drop)]
pub struct Header {
    pub parameters: Vec<SortedName>,
    pub sort: SortId,
}

/// `(define-fun name (parameter ..) sort body)`
pub fn define_symbol<'a>(
    reader: &mut TermReader<'a>,
    table: &mut Table,
    forest: &'a Forest,
    name: usize,
    parameters: usize,
    sort: usize,
    body: usize,
    session: &mut Session<'a>,
) -> Result<(), ReadFault>
    requires read { IsRead forest.now }
    requires text { SparesText forest.now.tokens session.old.sofar.fresh }
    requires name { IsNameAt forest.now.tokens name }
    requires parameters { IsPlaceIn forest.now.tokens parameters }
    requires sort { IsForm forest.now.tokens sort }
    requires body { IsForm forest.now.tokens body }
    requires known { (s : Standing) × StandsAt table.old session.old s }
    ensures step { (s : Standing) → StandsAt table.old session.old s → StepsTo no_command table.new session.new (defines_symbol (named_at forest.now.tokens name) (forms_from forest.now.tokens parameters) (form_from forest.now.tokens sort) (form_from forest.now.tokens body) s) result }
    ensures later { IsLater session.old.sofar.fresh session.new.sofar.fresh }
    ensures asserted { session.new.asserted ≡ session.old.asserted }
    ensures grows { GrowsTo table.old table.new }
{
    check_new_name(forest, name, &session.sofar.scope)?;
    let alloc = reader.alloc;
    let header = read_header(alloc, table, forest, parameters, sort, &session.sofar.scope)?;
    define_body(reader, table, forest, name, body, &header, session)?;
    Ok(())
}

// The parameters of a definition, and then its sort.
fn read_header(
    alloc: Global,
    table: &mut Table,
    forest: &Forest,
    parameters: usize,
    sort: usize,
    scope: &Scope,
) -> Result<Header, ReadFault>
    requires read { IsRead forest.now }
    requires parameters { IsPlaceIn forest.now.tokens parameters }
    requires sort { IsForm forest.now.tokens sort }
    requires scope { AreScopedSorts table.old.sorts scope.now.sorts }
    ensures header { Follows (header_in (sorts_known table.old scope.now) (forms_from forest.now.tokens parameters) (form_from forest.now.tokens sort)) (λ h. (variables_seen table.new forest.now.tokens h.parameters.items, sort_at table.new.sorts h.sort)) result }
    ensures parameters { IfOk result (λ h. AreSortedNames table.new forest.now.tokens h.parameters.items) }
    ensures sort { IfOk result (λ h. IsSortId table.new.sorts h.sort) }
    ensures grows { GrowsTo table.old table.new }
{
    let parameters = read_variables(alloc, table, forest, parameters, scope, Binder::Definition)?;
    let sort = read_sort(alloc, table, forest, sort, scope)?;
    Ok(Header { parameters, sort })
}

// Reads the body of a definition below its parameters, and gives the name that definition.
fn define_body<'a>(
    reader: &mut TermReader<'a>,
    table: &mut Table,
    forest: &'a Forest,
    name: usize,
    body: usize,
    header: &Header,
    session: &mut Session<'a>,
) -> Result<(), ReadFault>
    requires read { IsRead forest.now }
    requires text { SparesText forest.now.tokens session.old.sofar.fresh }
    requires name { IsNameAt forest.now.tokens name }
    requires body { IsForm forest.now.tokens body }
    requires parameters { AreSortedNames table.old forest.now.tokens header.now.parameters.items }
    requires sort { IsSortId table.old.sorts header.now.sort }
    requires known { (s : Standing) × StandsAt table.old session.old s }
    requires free { find session.old.sofar.scope.terms (name_at forest.now.tokens name) ≡ None }
    requires own { IsOwnName (name_at forest.now.tokens name) }
    ensures step { (s : Standing) → StandsAt table.old session.old s → StepsTo no_command table.new session.new (read_body (name_at forest.now.tokens name) (variables_seen table.old forest.now.tokens header.now.parameters.items) (sort_at table.old.sorts header.now.sort) (form_from forest.now.tokens body) s) result }
    ensures later { IsLater session.old.sofar.fresh session.new.sofar.fresh }
    ensures asserted { session.new.asserted ≡ session.old.asserted }
    ensures grows { GrowsTo table.old table.new }
{
    let alloc = reader.alloc;
    let constants = parameter_constants(alloc, table, &header.parameters)?;
    let locals = bind_parameters(alloc, forest, &header.parameters, &constants)?;
    let node = read_term(
        reader,
        table,
        forest,
        body,
        &mut session.sofar,
        locals,
        Some(name),
    )?;
    if !has_sort(table, node, header.sort) {
        return Err(fault(forest, body, Cause::WrongSort).into());
    }
    let params = symbols(alloc, &constants)?;
    let definition = Definition { params, body: node };
    session.sofar.scope.define(forest.name(name), definition)?;
    session.begun = true;
    Ok(())
}

// The names of the parameters, bound to their constants.
fn bind_parameters<'a>(
    alloc: Global,
    forest: &'a Forest,
    parameters: &[SortedName],
    constants: &[Constant],
) -> Result<Locals<'a>, AllocError>
    requires names { All (λ x. x.name < length forest.now.tokens) parameters.now }
    requires own { All (λ x. IsOwnName (name_at forest.now.tokens x.name)) parameters.now }
    requires constants { length constants.now ≡ length parameters.now }
    ensures { (s t : Formulas) (supply : Supply) → symbols_seen t constants.now ≡ parameters_from 0 (variables_seen s forest.now.tokens parameters.now) → All (IsConstant t supply) constants.now → IfOk result (λ locals. ShowsLocals t supply locals (parameters_read (variables_seen s forest.now.tokens parameters.now) (parameters_from 0 (variables_seen s forest.now.tokens parameters.now)) [])) }
{
    let mut locals = Locals::new(alloc);
    for i in 0..parameters.len() {
        locals.enter(
            forest.name(parameters[i].name),
            Local::Parameter(constants[i]),
        )?;
    }
    Ok(locals)
}

// The symbols of these constants.
fn symbols(alloc: Global, constants: &[Constant]) -> Result<Syms, AllocError>
    ensures { IfOk result (λ fs. fs ≡ map (λ c. c.symbol) constants.now) }
{
    let mut symbols = Syms::new(alloc);
    for constant in constants {
        symbols.push(constant.symbol)?;
    }
    Ok(symbols)
}

//! `declare-sort` and `define-sort` (SMT-LIB 2.6, section 4.2.3).

ghost use Rattle.std.specs.Prelude.{◌≡◌, IfOk};
ghost use Rattle.term_walk.specs.Walking.{GrowsTo};
ghost use Rattle.script_read.specs.Script.{Standing, declares_sort, defines_sort};
ghost use Rattle.script_read.specs.CommandLists.{IsCommandOf};
ghost use Rattle.script_terms.specs.Places.{IsRead, IsForm, form_from, forms_from};
ghost use Rattle.script_read.specs.ShapeClauses.{IsNameAt, IsNumeralAt, IsPlaceIn, named_at, counted_at};
ghost use Rattle.script_read.specs.Steps.{StandsAt, StepsTo, one, no_command};

use crate::scripts::Command;
use crate::session::Session;
use crate::session::new_names::check_new_sort_name;
use crate::session::numerals::numeral;
use script_terms::causes::Cause;
use script_terms::faults::ReadFault;
use script_terms::places::{begins, fault};
use script_terms::sorts::read_sort;
use smt_lex::Forest;
use std::alloc::Global;
use term_table::Table;

/// `(declare-sort name arity)`
pub fn declare_sort<'a>(
    table: &mut Table,
    forest: &'a Forest,
    name: usize,
    arity: usize,
    session: &mut Session<'a>,
) -> Result<Command, ReadFault>
    requires read { IsRead forest.now }
    requires name { IsNameAt forest.now.tokens name }
    requires arity { IsNumeralAt forest.now.tokens arity }
    ensures step { (s : Standing) → StandsAt table.old session.old s → StepsTo one table.new session.new (declares_sort (named_at forest.now.tokens name) (counted_at forest.now.tokens arity) s) result }
    ensures command { IfOk result (IsCommandOf table.new) }
    ensures fresh { session.new.sofar.fresh ≡ session.old.sofar.fresh }
    ensures asserted { session.new.asserted ≡ session.old.asserted }
    ensures grows { GrowsTo table.old table.new }
{
    check_new_sort_name(forest, name, &session.sofar.scope)?;
    if numeral(forest, arity) != 0 {
        return Err(fault(forest, arity, Cause::SortArity).into());
    }
    let sort = table.declared_sort(forest.name(name))?;
    session.sofar.scope.bind_sort(forest.name(name), sort)?;
    session.begun = true;
    Ok(Command::DeclareSort(sort))
}

/// `(define-sort name () sort)`
pub fn define_sort<'a>(
    alloc: Global,
    table: &mut Table,
    forest: &'a Forest,
    name: usize,
    parameters: usize,
    sort: usize,
    session: &mut Session<'a>,
) -> Result<(), ReadFault>
    requires read { IsRead forest.now }
    requires name { IsNameAt forest.now.tokens name }
    requires parameters { IsPlaceIn forest.now.tokens parameters }
    requires sort { IsForm forest.now.tokens sort }
    requires known { (s : Standing) × StandsAt table.old session.old s }
    ensures step { (s : Standing) → StandsAt table.old session.old s → StepsTo no_command table.new session.new (defines_sort (named_at forest.now.tokens name) (forms_from forest.now.tokens parameters) (form_from forest.now.tokens sort) s) result }
    ensures fresh { session.new.sofar.fresh ≡ session.old.sofar.fresh }
    ensures asserted { session.new.asserted ≡ session.old.asserted }
    ensures grows { GrowsTo table.old table.new }
{
    check_new_sort_name(forest, name, &session.sofar.scope)?;
    if begins(forest, parameters) {
        return Err(fault(forest, parameters, Cause::SortArity).into());
    }
    let sort = read_sort(alloc, table, forest, sort, &session.sofar.scope)?;
    session.sofar.scope.bind_sort(forest.name(name), sort)?;
    session.begun = true;
    Ok(())
}

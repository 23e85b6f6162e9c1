//! `declare-const` and `declare-fun` (SMT-LIB 2.6, section 4.2.3).

ghost use Rattle.std.specs.Prelude.{◌≡◌, List, map, All, IfOk};
ghost use Rattle.smt_terms.specs.Fresh.{Supply, NeverGives};
ghost use Rattle.smt_values.specs.SortIds.{sort_at, IsSortId};
ghost use Rattle.term_table.specs.Formulas.{symbol_at, IsSymbol};
ghost use Rattle.term_subst.specs.declared.maps.Definition.{Definition};
ghost use Rattle.term_walk.specs.Walking.{GrowsTo};
ghost use Rattle.script_read.specs.Script.{Standing, declares_symbol};
ghost use Rattle.script_terms.specs.SortForms.{sorts_in};
ghost use Rattle.script_read.specs.CommandLists.{IsCommandOf};
ghost use Rattle.script_terms.specs.Known.{AreScopedSorts, IsEntry, meant_by, symbol_meant, sorts_known};
ghost use Rattle.script_terms.specs.Places.{IsRead, IsForm, SparesText, form_from};
ghost use Rattle.script_terms.specs.Replies.{Follows};
ghost use Rattle.script_read.specs.ShapeClauses.{IsNameAt, IsPlaceIn, IfGiven, named_at, listed_at};
ghost use Rattle.script_read.specs.Steps.{StandsAt, StepsTo, one};

use crate::scripts::Command;
use crate::session::Session;
use crate::session::new_names::check_new_name;
use script_terms::constants::constant;
use script_terms::faults::ReadFault;
use script_terms::scopes::{Entry, Scope};
use script_terms::sorts::{read_sort, read_sorts};
use smt_lex::Forest;
use smt_terms::{SortId, SymId};
use std::alloc::{AllocError, Global};
use term_table::Table;

/// `(declare-fun name (argument ..) sort)`, and `(declare-const name sort)` without a list of arguments.
pub fn declare_symbol<'a>(
    alloc: Global,
    table: &mut Table,
    forest: &'a Forest,
    name: usize,
    arguments: Option<usize>,
    sort: usize,
    session: &mut Session<'a>,
) -> Result<Command, ReadFault>
    requires read { IsRead forest.now }
    requires text { SparesText forest.now.tokens session.old.sofar.fresh }
    requires name { IsNameAt forest.now.tokens name }
    requires arguments { IfGiven (IsPlaceIn forest.now.tokens) arguments }
    requires sort { IsForm forest.now.tokens sort }
    requires known { (s : Standing) × StandsAt table.old session.old s }
    ensures step { (s : Standing) → StandsAt table.old session.old s → StepsTo one table.new session.new (declares_symbol (named_at forest.now.tokens name) (listed_at forest.now.tokens arguments) (form_from forest.now.tokens sort) s) result }
    ensures command { IfOk result (IsCommandOf table.new) }
    ensures fresh { session.new.sofar.fresh ≡ session.old.sofar.fresh }
    ensures asserted { session.new.asserted ≡ session.old.asserted }
    ensures grows { GrowsTo table.old table.new }
{
    check_new_name(forest, name, &session.sofar.scope)?;
    let arguments = argument_sorts(alloc, table, forest, arguments, &session.sofar.scope)?;
    let sort = read_sort(alloc, table, forest, sort, &session.sofar.scope)?;
    let symbol = table.symbol(forest.name(name), &arguments, sort)?;
    let entry = symbol_entry(table, symbol)?;
    let scope = &mut session.sofar.scope;
    scope.bind(forest.name(name), entry)?;
    session.begun = true;
    Ok(Command::Declare(symbol))
}

// What the name of a declared symbol stands for.
fn symbol_entry(table: &mut Table, symbol: SymId) -> Result<Entry, AllocError>
    requires { IsSymbol table.old symbol }
    ensures entry { (supply : Supply) (ds : List Definition) → NeverGives supply (symbol_at table.old symbol).name → IfOk result (IsEntry table.new supply ds (symbol_at table.old symbol).name) }
    ensures meant { (ds : List Definition) → IfOk result (λ e. meant_by table.new ds e ≡ symbol_meant (symbol_at table.old symbol)) }
    ensures grows { GrowsTo table.old table.new }
{
    let (arguments, _) = table.symbol_rank(symbol);
    if !arguments.is_empty() {
        return Ok(Entry::Symbol(symbol));
    }
    let constant = constant(table, symbol)?;
    Ok(Entry::Constant(constant))
}

// The sorts of the arguments; none where no list is written.
fn argument_sorts(
    alloc: Global,
    table: &mut Table,
    forest: &Forest,
    arguments: Option<usize>,
    scope: &Scope,
) -> Result<Vec<SortId>, ReadFault>
    requires read { IsRead forest.now }
    requires within { IfGiven (IsPlaceIn forest.now.tokens) arguments }
    requires scope { AreScopedSorts table.old.sorts scope.now.sorts }
    ensures sorts { Follows (sorts_in (sorts_known table.old scope.now) (listed_at forest.now.tokens arguments)) (λ ks. map (sort_at table.new.sorts) ks.items) result }
    ensures within { IfOk result (λ ks. All (IsSortId table.new.sorts) ks.items) }
    ensures grows { GrowsTo table.old table.new }
{
    match arguments {
        Some(i) => read_sorts(alloc, table, forest, i, scope),
        None => Ok(Vec::new(alloc)),
    }
}

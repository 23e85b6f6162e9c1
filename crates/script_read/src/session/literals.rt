//! `check-sat-assuming` (SMT-LIB 2.6, section 4.2.5).

ghost use Rattle.std.specs.Prelude.{◌≡◌, List, IfOk, IfSome, option_map, codes};
ghost use Rattle.smt_terms.specs.Fresh.{Supply};
ghost use Rattle.term_table.specs.Formulas.{tree, symbol_at, IsNode};
ghost use Rattle.term_walk.specs.Walking.{GrowsTo};
ghost use Rattle.script_read.specs.Script.{Standing, assumes, literal, declared_constant, boolean_constant};
ghost use Rattle.script_terms.specs.Reading.{ReadBinding};
ghost use Rattle.script_read.specs.CommandLists.{IsCommandOf};
ghost use Rattle.script_terms.specs.Known.{Shows, IsConstant, find};
ghost use Rattle.script_terms.specs.Parts.{symbol_in, is_name, place_of};
ghost use Rattle.script_terms.specs.Refusals.{given};
ghost use Rattle.script_terms.specs.Replies.{Follows};
ghost use Rattle.script_terms.specs.Places.{IsForm, form_from, forms_from};
ghost use Rattle.script_read.specs.ShapeClauses.{IsPlaceIn};
ghost use Rattle.script_read.specs.LiteralClauses.{IsBoolean, constant_of_entry};
ghost use Rattle.script_read.specs.Steps.{StandsAt, StepsTo, one};

use crate::scripts::Command;
use crate::session::Session;
use script_terms::causes::Cause;
use script_terms::constants::negation_node;
use script_terms::faults::ReadFault;
use script_terms::locals::Constant;
use script_terms::places::{begins, fault, is_symbol, two_inside};
use script_terms::scopes::{Entry, Scope};
use smt_lex::Forest;
use smt_terms::{NodeId, SortId};
use std::alloc::{AllocError, Global};
use term_table::{Nodes, Table};

/// `(check-sat-assuming (literal ..))`, whose literals are the forms from token `i` to the end of their list.
pub fn assume(
    alloc: Global,
    table: &mut Table,
    forest: &Forest,
    i: usize,
    session: &mut Session,
) -> Result<Command, ReadFault>
    requires within { IsPlaceIn forest.now.tokens i }
    requires known { (s : Standing) × StandsAt table.old session.old s }
    ensures step { (s : Standing) → StandsAt table.old session.old s → StepsTo one table.new session.new (assumes (forms_from forest.now.tokens i) s) result }
    ensures command { IfOk result (IsCommandOf table.new) }
    ensures fresh { session.new.sofar.fresh ≡ session.old.sofar.fresh }
    ensures asserted { session.new.asserted ≡ session.old.asserted }
    ensures grows { GrowsTo table.old table.new }
{
    let mut literals = Nodes::new(alloc);
    let mut at = i;
    while begins(forest, at) {
        let literal = read_literal(table, forest, at, &session.sofar.scope)?;
        literals.push(literal)?;
        at = forest.after(at);
    }
    session.begun = true;
    Ok(Command::CheckAssuming(literals))
}

// The literal that the form of token `i` is.
fn read_literal(
    table: &mut Table,
    forest: &Forest,
    i: usize,
    scope: &Scope,
) -> Result<NodeId, ReadFault>
    requires form { IsForm forest.now.tokens i }
    requires known { (supply : Supply) × (live : List ReadBinding) × Shows table.old supply scope.now live }
    ensures literal { (supply : Supply) (live : List ReadBinding) → Shows table.old supply scope.now live → Follows (given Cause.BadForm (place_of (form_from forest.now.tokens i)) (literal live (form_from forest.now.tokens i))) (tree table.new) result }
    ensures node { IfOk result (IsNode table.new) }
    ensures grows { GrowsTo table.old table.new }
{
    match literal(table, forest, i, scope)? {
        Some(id) => Ok(id),
        None => Err(fault(forest, i, Cause::BadForm).into()),
    }
}

// The literal that the form of token `i` is: a declared constant of sort Bool, or the negation of one.
fn literal(
    table: &mut Table,
    forest: &Forest,
    i: usize,
    scope: &Scope,
) -> Result<Option<NodeId>, AllocError>
    requires form { IsForm forest.now.tokens i }
    requires known { (supply : Supply) × (live : List ReadBinding) × Shows table.old supply scope.now live }
    ensures literal { (supply : Supply) (live : List ReadBinding) → Shows table.old supply scope.now live → IfOk result (λ found. option_map (tree table.new) found ≡ literal live (form_from forest.now.tokens i)) }
    ensures node { IfOk result (λ found. IfSome found (IsNode table.new)) }
    ensures grows { GrowsTo table.old table.new }
{
    let Some((head, inner)) = two_inside(forest, i) else {
        return Ok(declared_constant(table, forest, i, scope));
    };
    if !is_not(forest, head) {
        return Ok(None);
    }
    match declared_constant(table, forest, inner, scope) {
        Some(id) => {
            let negation = negation_node(table, id)?;
            Ok(Some(negation))
        }
        None => Ok(None),
    }
}

// The constant that the form of token `i` is, of those that are declared and of sort Bool.
fn declared_constant(table: &Table, forest: &Forest, i: usize, scope: &Scope) -> Option<NodeId>
    requires form { IsForm forest.now.tokens i }
    requires known { (supply : Supply) × (live : List ReadBinding) × Shows table.now supply scope.now live }
    ensures constant { (supply : Supply) (live : List ReadBinding) → Shows table.now supply scope.now live → option_map (tree table.now) result ≡ declared_constant live (symbol_in (form_from forest.now.tokens i)) }
    ensures node { IfSome result (IsBoolean table.now) }
{
    if !is_symbol(forest, i) {
        return None;
    }
    match constant_named(scope, forest.name(i)) {
        Some(constant) => boolean_node(table, constant),
        None => None,
    }
}

// The constant that is declared by this name.
fn constant_named(scope: &Scope, name: &[u8]) -> Option<Constant>
    ensures { result ≡ constant_of_entry (find scope.now.terms name.now) }
{
    match scope.find(name) {
        Some(Entry::Constant(constant)) => Some(constant),
        _ => None,
    }
}

// The node of a constant of sort Bool.
fn boolean_node(table: &Table, constant: Constant) -> Option<NodeId>
    requires { (supply : Supply) × IsConstant table.now supply constant }
    ensures constant { option_map (tree table.now) result ≡ boolean_constant (symbol_at table.now constant.symbol) (symbol_at table.now constant.symbol).args }
    ensures node { IfSome result (IsBoolean table.now) }
{
    let (_, sort) = table.symbol_rank(constant.symbol);
    if sort != SortId::BOOL {
        return None;
    }
    Some(constant.node)
}

// Whether the form that begins at token `i` is the symbol `not`.
fn is_not(forest: &Forest, i: usize) -> bool
    requires { IsForm forest.now.tokens i }
    ensures { result ≡ is_name (codes "not") (symbol_in (form_from forest.now.tokens i)) }
{
    is_symbol(forest, i) && forest.name(i) == b"not".as_slice()
}

//! Tokens as terms: constants, and symbols that stand alone (SMT-LIB 2.6, section 3.6).

ghost use Rattle.std.specs.Prelude.{◌≡◌, List, None, Some, IfOk};
ghost use Rattle.smt_lex.specs.Forms.{atom};
ghost use Rattle.smt_lex.specs.Forest.{token_at};
ghost use Rattle.smt_terms.specs.Fresh.{Supply};
ghost use Rattle.smt_terms.specs.Term.{op, apply, none};
ghost use Rattle.term_walk.specs.Walking.{GrowsTo};
ghost use Rattle.script_terms.specs.ConstantClauses.{IsConstantOp, constant_in};
ghost use Rattle.script_terms.specs.Heads.{atom_term, live_symbol, symbol_term, theory_symbol};
ghost use Rattle.script_terms.specs.Reading.{ReadBinding, ReadLocal, bound_as, entry_of};
ghost use Rattle.script_terms.specs.Bound.{ShowsLocals, name_at, node_of};
ghost use Rattle.script_terms.specs.Known.{Shows, find};
ghost use Rattle.script_terms.specs.Replies.{Agrees};
ghost use Rattle.script_terms.specs.TermClauses.{ReadsAlone, SomeKnown};
ghost use Rattle.script_terms.specs.SymbolClauses.{GivesTruth};
ghost use Rattle.script_terms.specs.Places.{IsRead, IsForm, form_from};

use crate::causes::Cause;
use crate::faults::{Fault, ReadFault};
use crate::locals::{Local, Locals};
use crate::names::{is_real_name, is_theory_name};
use crate::places::{fault, is_symbol};
use crate::scopes::{Entry, Scope};
use crate::terms::theory_constants::{constant, constant_of};
use smt_lex::Forest;
use smt_terms::{NodeId, Op};
use term_table::Table;

/// The term that token `i` is.
pub fn read_atom(
    table: &mut Table,
    forest: &Forest,
    i: usize,
    scope: &Scope,
    locals: &Locals,
) -> Result<NodeId, ReadFault>
    requires read { IsRead forest.now }
    requires form { IsForm forest.now.tokens i }
    requires token { form_from forest.now.tokens i ≡ atom (token_at forest.now.tokens i) }
    requires known { SomeKnown table.old scope.now locals.now }
    ensures term { (supply : Supply) (live : List ReadBinding) (bound : List ReadLocal) → Shows table.old supply scope.now live → ShowsLocals table.old supply locals.now bound → ReadsAlone table.new supply (atom_term bound (token_at forest.now.tokens i) live) result }
    ensures grows { GrowsTo table.old table.new }
{
    if is_symbol(forest, i) {
        let term = read_symbol(table, forest, i, scope, locals)?;
        return Ok(term);
    }
    let op = token_constant(forest, i)?;
    let node = constant(table, op)?;
    Ok(node)
}

// The constant that token `i` is, which is no symbol.
fn token_constant(forest: &Forest, i: usize) -> Result<Op, Fault>
    requires read { IsRead forest.now }
    requires form { IsForm forest.now.tokens i }
    ensures constant { Agrees (constant_in (token_at forest.now.tokens i).start (token_at forest.now.tokens i).item (token_at forest.now.tokens i).text) (λ o. apply (op o) none) result }
    ensures is { IfOk result IsConstantOp }
{
    match constant_of(forest.item(i), forest.text(i)) {
        Ok(op) => Ok(op),
        Err(cause) => Err(fault(forest, i, cause)),
    }
}

// The term that the symbol of token `i` is: what is bound locally comes before what is live.
fn read_symbol(
    table: &mut Table,
    forest: &Forest,
    i: usize,
    scope: &Scope,
    locals: &Locals,
) -> Result<NodeId, ReadFault>
    requires form { IsForm forest.now.tokens i }
    requires known { SomeKnown table.old scope.now locals.now }
    ensures term { (supply : Supply) (live : List ReadBinding) (bound : List ReadLocal) → Shows table.old supply scope.now live → ShowsLocals table.old supply locals.now bound → ReadsAlone table.new supply (symbol_term (token_at forest.now.tokens i).start (name_at forest.now.tokens i) (bound_as bound (name_at forest.now.tokens i)) (entry_of live (name_at forest.now.tokens i))) result }
    ensures grows { GrowsTo table.old table.new }
{
    match locals.find(forest.name(i)) {
        Some(local) => Ok(node_of(local)),
        None => {
            let node = live_symbol(table, forest, i, scope)?;
            Ok(node)
        }
    }
}

// The node that a name is read as that is bound locally.
fn node_of(local: Local) -> NodeId
    ensures { result ≡ node_of local }
{
    match local {
        Local::Let(node) => node,
        Local::Quantified(constant) | Local::Parameter(constant) => constant.node,
    }
}

// The term that the symbol of token `i` is, which isn't bound locally.
fn live_symbol(
    table: &mut Table,
    forest: &Forest,
    i: usize,
    scope: &Scope,
) -> Result<NodeId, ReadFault>
    requires form { IsForm forest.now.tokens i }
    requires known { (supply : Supply) × (live : List ReadBinding) × Shows table.old supply scope.now live }
    ensures term { (supply : Supply) (live : List ReadBinding) → Shows table.old supply scope.now live → ReadsAlone table.new supply (live_symbol (token_at forest.now.tokens i).start (name_at forest.now.tokens i) (entry_of live (name_at forest.now.tokens i))) result }
    ensures grows { GrowsTo table.old table.new }
{
    match scope.find(forest.name(i)) {
        Some(Entry::Constant(constant)) => Ok(constant.node),
        Some(Entry::Symbol(_)) => Err(fault(forest, i, Cause::WrongArity).into()),
        Some(Entry::Definition(number)) => {
            let definition = scope.definition(number);
            if definition.params.len() > 0 {
                return Err(fault(forest, i, Cause::WrongArity).into());
            }
            Ok(definition.body)
        }
        Some(Entry::Term(node)) => Ok(node),
        None => {
            let node = theory_symbol(table, forest, i)?;
            Ok(node)
        }
    }
}

// The term that the symbol of token `i` is, which nothing binds.
fn theory_symbol(table: &mut Table, forest: &Forest, i: usize) -> Result<NodeId, ReadFault>
    requires form { IsForm forest.now.tokens i }
    ensures term { (supply : Supply) → ReadsAlone table.new supply (theory_symbol (token_at forest.now.tokens i).start (name_at forest.now.tokens i)) result }
    ensures grows { GrowsTo table.old table.new }
{
    let truth = match theory_constant(forest.name(i)) {
        Ok(truth) => truth,
        Err(cause) => return Err(fault(forest, i, cause).into()),
    };
    let node = constant(table, Op::Truth(truth))?;
    Ok(node)
}

// The truth value of this name, or why it is no term.
fn theory_constant(name: &[u8]) -> Result<bool, Cause>
    ensures { GivesTruth (λ place. theory_symbol place name.now) result }
{
    if name == b"true".as_slice() {
        return Ok(true);
    }
    if name == b"false".as_slice() {
        return Ok(false);
    }
    if is_real_name(name) {
        return Err(Cause::RealSort);
    }
    if is_theory_name(name) {
        return Err(Cause::WrongArity);
    }
    Err(Cause::UnknownName)
}

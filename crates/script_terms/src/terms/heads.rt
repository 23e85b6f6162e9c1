//! The head of an application is read.

ghost use Rattle.std.specs.Prelude.{◌≡◌, ◌≤◌, ℕ, List, [], length, IsTrue, None, Some};
ghost use Rattle.smt_lex.specs.Lex.{Token};
ghost use Rattle.smt_lex.specs.Names.{Name};
ghost use Rattle.smt_lex.specs.Forest.{token_at};
ghost use Rattle.smt_lex.specs.Forms.{Forms, atom, node, none};
ghost use Rattle.smt_terms.specs.Fresh.{Supply};
ghost use Rattle.smt_terms.specs.Written.{at_indices, operator_named};
ghost use Rattle.sort_check.specs.Forms.{form_seen, is_apt_at};
ghost use Rattle.term_table.specs.Formulas.{Formulas};
ghost use Rattle.term_walk.specs.Walking.{GrowsTo};
ghost use Rattle.script_terms.specs.Heads.{callee_of, named_head, live_head, theory_head, written_at, constant_head, filling_head};
ghost use Rattle.script_terms.specs.HeadClauses.{AreIndices, SomeIndices, is_constant_with, world_of, indexed_list};
ghost use Rattle.script_terms.specs.Reading.{ReadBinding, ReadLocal, entry_of};
ghost use Rattle.script_terms.specs.Bound.{ShowsLocals, name_at};
ghost use Rattle.script_terms.specs.Known.{Scoping, Shows, AreScopedSorts, find};
ghost use Rattle.script_terms.specs.TermClauses.{SomeKnown};
ghost use Rattle.script_terms.specs.Waiting.{World, ReadsCallee};
ghost use Rattle.script_terms.specs.Places.{IsRead, IsForm, form_from, forms_from};

use crate::causes::Cause;
use crate::faults::{Fault, ReadFault};
use crate::lists::{Few, few_from};
use crate::locals::Locals;
use crate::names::{is_bit_vector_constant, is_real_name, is_theory_name, takes_no_index};
use crate::places::{bad_form, begins, inside, is_name, is_symbol, is_word, place_of};
use crate::scopes::{Entry, Scope};
use crate::sorts::read_sort;
use crate::terms::callees::Callee;
use crate::terms::indices::Indices;
use smt_lex::Forest;
use sort_check::{Form, form_named};
use std::alloc::Global;
use term_table::Table;

/// What the head calls that the form of token `i` is.
pub fn read_callee(
    alloc: Global,
    table: &mut Table,
    forest: &Forest,
    i: usize,
    scope: &Scope,
    locals: &Locals,
) -> Result<Callee, ReadFault>
    requires read { IsRead forest.now }
    requires form { IsForm forest.now.tokens i }
    requires known { SomeKnown table.old scope.now locals.now }
    ensures callee { (supply : Supply) (live : List ReadBinding) (bound : List ReadLocal) → Shows table.old supply scope.now live → ShowsLocals table.old supply locals.now bound → ReadsCallee forest.now.tokens (record { table = table.new; supply = supply; definitions = scope.now.definitions }) (callee_of bound (form_from forest.now.tokens i) live) result }
    ensures grows { GrowsTo table.old table.new }
{
    match inside(forest, i) {
        Some(first) => list_callee(alloc, table, forest, i, first, scope, locals),
        None => token_callee(alloc, forest, i, scope, locals),
    }
}

// What the token `i` calls.
fn token_callee(
    alloc: Global,
    forest: &Forest,
    i: usize,
    scope: &Scope,
    locals: &Locals,
) -> Result<Callee, ReadFault>
    requires form { IsForm forest.now.tokens i }
    requires token { form_from forest.now.tokens i ≡ atom (token_at forest.now.tokens i) }
    ensures { (t : Formulas) (supply : Supply) (live : List ReadBinding) (bound : List ReadLocal) → Shows t supply scope.now live → ShowsLocals t supply locals.now bound → ReadsCallee forest.now.tokens (world_of t supply scope.now) (callee_of bound (form_from forest.now.tokens i) live) result }
{
    if !is_name(forest, i) {
        return Err(ReadFault::Refused(bad_form(forest, i)));
    }
    let name = forest.name(i);
    let place = place_of(forest, i);
    // no reserved word is the name of an operator
    if let Some(form) = form_named(name) {
        return plain_callee(form, place);
    }
    if !is_symbol(forest, i) {
        return Err(ReadFault::Refused(bad_form(forest, i)));
    }
    other_callee(name, &Indices::none(alloc), place, scope, locals)
}

// The written operator of this form, without an index.
fn plain_callee(form: Form, place: u32) -> Result<Callee, ReadFault>
    requires { IsTrue (is_apt_at (form_seen form)) }
    ensures { (ts : List Token) (w : World) → ReadsCallee ts w (written_at place none (at_indices (form_seen form) [])) result }
{
    match form {
        Form::WithoutIndex(operator) => Ok(Callee::Written(operator)),
        _ => Err(refused(Cause::BadForm, place)),
    }
}

// What the list of token `i` calls, whose forms begin at token `first`.
fn list_callee(
    alloc: Global,
    table: &mut Table,
    forest: &Forest,
    i: usize,
    first: usize,
    scope: &Scope,
    locals: &Locals,
) -> Result<Callee, ReadFault>
    requires read { IsRead forest.now }
    requires form { IsForm forest.now.tokens i }
    requires first { first ≤ length forest.now.tokens }
    requires known { SomeKnown table.old scope.now locals.now }
    ensures callee { (supply : Supply) (live : List ReadBinding) (bound : List ReadLocal) → Shows table.old supply scope.now live → ShowsLocals table.old supply locals.now bound → ReadsCallee forest.now.tokens (world_of table.new supply scope.now) (callee_of bound (node (token_at forest.now.tokens i).start (forms_from forest.now.tokens first)) live) result }
    ensures grows { GrowsTo table.old table.new }
{
    if begins(forest, first) {
        let behind = forest.after(first);
        if is_word(forest, first, b"_") {
            return indexed_callee(alloc, forest, i, behind, scope, locals);
        }
        if is_word(forest, first, b"as") {
            return filling_callee(alloc, table, forest, i, behind, scope);
        }
    }
    Err(ReadFault::Refused(bad_form(forest, i)))
}

// What the list of token `i` calls that begins with `_`, from the forms behind it, which begin at token `name`.
fn indexed_callee(
    alloc: Global,
    forest: &Forest,
    i: usize,
    name: usize,
    scope: &Scope,
    locals: &Locals,
) -> Result<Callee, ReadFault>
    requires form { IsForm forest.now.tokens i }
    requires name { name ≤ length forest.now.tokens }
    ensures { (t : Formulas) (supply : Supply) (live : List ReadBinding) (bound : List ReadLocal) → Shows t supply scope.now live → ShowsLocals t supply locals.now bound → ReadsCallee forest.now.tokens (world_of t supply scope.now) (indexed_list bound live (token_at forest.now.tokens i).start (forms_from forest.now.tokens name)) result }
{
    let fault = ReadFault::Refused(bad_form(forest, i));
    if !begins(forest, name) {
        return Err(fault);
    }
    if !is_symbol(forest, name) {
        return Err(fault);
    }
    match Indices::read(alloc, forest, forest.after(name))? {
        Some(indices) => named_callee(forest, i, name, &indices, scope, locals),
        None => Err(fault),
    }
}

// What the list of token `i` calls that begins with `as`, from the forms behind it, which begin at token `name`.
fn filling_callee(
    alloc: Global,
    table: &mut Table,
    forest: &Forest,
    i: usize,
    name: usize,
    scope: &Scope,
) -> Result<Callee, ReadFault>
    requires read { IsRead forest.now }
    requires form { IsForm forest.now.tokens i }
    requires name { name ≤ length forest.now.tokens }
    requires scope { AreScopedSorts table.old.sorts scope.now.sorts }
    ensures callee { (supply : Supply) (live : List ReadBinding) → Shows table.old supply scope.now live → ReadsCallee forest.now.tokens (world_of table.new supply scope.now) (filling_head live (token_at forest.now.tokens i).start (forms_from forest.now.tokens name)) result }
    ensures grows { GrowsTo table.old table.new }
{
    if let Few::Two(name, sort) = few_from(forest, name)
        && is_symbol(forest, name)
        && forest.name(name) == b"const".as_slice()
    {
        let sort = read_sort(alloc, table, forest, sort, scope)?;
        return Ok(Callee::ArrayOf(sort));
    }
    Err(ReadFault::Refused(bad_form(forest, i)))
}

// What the symbol of token `name` calls with these indices, where the head is the form of token `i`.
fn named_callee(
    forest: &Forest,
    i: usize,
    name: usize,
    indices: &Indices,
    scope: &Scope,
    locals: &Locals,
) -> Result<Callee, ReadFault>
    requires form { IsForm forest.now.tokens i }
    requires name { IsForm forest.now.tokens name }
    requires indices { SomeIndices indices.now }
    ensures { (t : Formulas) (supply : Supply) (live : List ReadBinding) (bound : List ReadLocal) (fs : Forms) (ns : List ℕ) → Shows t supply scope.now live → ShowsLocals t supply locals.now bound → AreIndices fs ns indices.now → ReadsCallee forest.now.tokens (world_of t supply scope.now) (named_head bound live (token_at forest.now.tokens i).start (name_at forest.now.tokens name) fs ns) result }
{
    let text = forest.name(name);
    let place = place_of(forest, i);
    // neither a local name nor a live one is that of an operator
    if let Some(form) = form_named(text) {
        return written_callee(form, indices, place);
    }
    other_callee(text, indices, place, scope, locals)
}

// What a symbol calls that names no operator, with these indices, where the head begins at this place.
fn other_callee(
    name: &[u8],
    indices: &Indices,
    place: u32,
    scope: &Scope,
    locals: &Locals,
) -> Result<Callee, ReadFault>
    requires { operator_named name.now ≡ None }
    ensures { (ts : List Token) (t : Formulas) (supply : Supply) (live : List ReadBinding) (bound : List ReadLocal) (fs : Forms) (ns : List ℕ) → Shows t supply scope.now live → ShowsLocals t supply locals.now bound → AreIndices fs ns indices.now → ReadsCallee ts (world_of t supply scope.now) (named_head bound live place name.now fs ns) result }
{
    if locals.find(name).is_some() {
        return Err(refused(Cause::UnknownName, place));
    }
    match scope.find(name) {
        Some(entry) => live_callee(entry, indices, place),
        None => theory_callee(name, indices, place),
    }
}

// What a live name calls with these indices, where the head begins at this place.
fn live_callee(entry: Entry, indices: &Indices, place: u32) -> Result<Callee, ReadFault>
    ensures { (ts : List Token) (t : Formulas) (supply : Supply) (s : Scoping) (live : List ReadBinding) (n : Name) (fs : Forms) (ns : List ℕ) → Shows t supply s live → find s.terms n ≡ Some entry → AreIndices fs ns indices.now → ReadsCallee ts (world_of t supply s) (live_head place n fs ns (entry_of live n)) result }
{
    if !indices.values.is_empty() {
        return Err(refused(Cause::BadForm, place));
    }
    match entry {
        Entry::Symbol(f) => Ok(Callee::Called(f)),
        Entry::Constant(constant) => Ok(Callee::Called(constant.symbol)),
        Entry::Definition(number) => Ok(Callee::Defined(number)),
        Entry::Term(_) => Ok(Callee::Operandless),
    }
}

// What a name calls that isn't live and no operator's, with these indices, where the head begins at this place.
fn theory_callee(name: &[u8], indices: &Indices, place: u32) -> Result<Callee, ReadFault>
    ensures { (ts : List Token) (t : Formulas) (supply : Supply) (s : Scoping) (fs : Forms) (ns : List ℕ) → AreIndices fs ns indices.now → ReadsCallee ts (world_of t supply s) (theory_head place name.now fs ns None) result }
{
    if is_real_name(name) {
        return Err(refused(Cause::RealSort, place));
    }
    if is_theory_name(name) {
        return constant_callee(name, indices, place);
    }
    Err(refused(Cause::UnknownName, place))
}

// The written operator of this form, with these indices.
fn written_callee(form: Form, indices: &Indices, place: u32) -> Result<Callee, ReadFault>
    requires apt { IsTrue (is_apt_at (form_seen form)) }
    requires indices { SomeIndices indices.now }
    ensures { (ts : List Token) (t : Formulas) (supply : Supply) (s : Scoping) (fs : Forms) (ns : List ℕ) → AreIndices fs ns indices.now → ReadsCallee ts (world_of t supply s) (written_at place fs (at_indices (form_seen form) ns)) result }
{
    if indices.values.len() != form.index_count() {
        return Err(refused(Cause::BadForm, place));
    }
    if let Some(beyond) = indices.beyond {
        return Err(refused(Cause::NumberLimit, beyond));
    }
    Ok(Callee::Written(form.at_indices(&indices.values)))
}

// A name of the theories that takes no operands, with these indices.
fn constant_callee(name: &[u8], indices: &Indices, place: u32) -> Result<Callee, ReadFault>
    ensures { (ts : List Token) (t : Formulas) (supply : Supply) (s : Scoping) (fs : Forms) (ns : List ℕ) → AreIndices fs ns indices.now → ReadsCallee ts (world_of t supply s) (constant_head place name.now fs ns) result }
{
    if !is_constant_with(name, indices.values.len()) {
        return Err(refused(Cause::BadForm, place));
    }
    match indices.beyond {
        Some(beyond) => Err(refused(Cause::NumberLimit, beyond)),
        None => Ok(Callee::Operandless),
    }
}

fn is_constant_with(name: &[u8], count: usize) -> bool
    ensures { result ≡ is_constant_with name.now count }
{
    match count {
        0 => takes_no_index(name),
        1 => is_bit_vector_constant(name),
        _ => false,
    }
}

fn refused(cause: Cause, place: u32) -> ReadFault
    ensures { result ≡ ReadFault.Refused (record { cause = cause; place = place }) }
{
    ReadFault::Refused(Fault { cause, place })
}

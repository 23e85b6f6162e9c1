//! Applications of heads to terms.

ghost use Rattle.std.specs.Prelude.{◌≡◌, ◌<◌, IsTrue, List, map};
ghost use Rattle.smt_lex.specs.Forest.{token_at};
ghost use Rattle.smt_terms.specs.Fresh.{Supply, NeverGives};
ghost use Rattle.smt_terms.specs.Sorts.{Variable};
ghost use Rattle.sort_check.specs.Forms.{written_seen, is_apt};
ghost use Rattle.smt_values.specs.SortIds.{sort_at, IsSortId};
ghost use Rattle.term_table.specs.Formulas.{tree, trees_at, symbol_at, IsSymbol, IsTable};
ghost use Rattle.term_subst.specs.Substituting.{IsLater};
ghost use Rattle.term_walk.specs.Walking.{GrowsTo};
ghost use Rattle.script_terms.specs.Heads.{Callee as CalleeOf, applied, written, array_of_sort, called, defined};
ghost use Rattle.script_terms.specs.ApplicationClauses.{answer_of, cause_for, ReadsWith};
ghost use Rattle.script_terms.specs.Reading.{ReadBinding};
ghost use Rattle.script_terms.specs.Known.{Shows, AreSpared, IsDefinition, ReadsTerm, parameter_sorts};
ghost use Rattle.script_terms.specs.Waiting.{ShowsCallee, Gains, now_at};
ghost use Rattle.script_terms.specs.Places.{IsRead, IsForm};

use crate::causes::Cause;
use crate::faults::ReadFault;
use crate::places::fault;
use crate::sofar::Sofar;
use crate::terms::arguments::arguments_fault;
use crate::terms::callees::Callee;
use smt_lex::Forest;
use smt_terms::{NodeId, Op, SortId, SymId};
use sort_check::{MakeFault, Operator, make, make_form};
use std::alloc::Global;
use term_subst::{Definition, Fresh, expand};
use term_table::{RankFault, Table, know_table};

/// The application of the list of token `list`, whose head calls this, to terms that were read.
pub fn apply(
    alloc: Global,
    table: &mut Table,
    forest: &Forest,
    list: usize,
    callee: &Callee,
    kids: &[NodeId],
    sofar: &mut Sofar,
) -> Result<NodeId, ReadFault>
    requires read { IsRead forest.now }
    requires list { IsForm forest.now.tokens list }
    requires callee { (c : CalleeOf) × ShowsCallee forest.now.tokens (now_at table.old sofar.old) callee.now c }
    requires kids { AreSpared table.old sofar.old.fresh kids.now }
    requires known { (live : List ReadBinding) × Shows table.old sofar.old.fresh sofar.old.scope live }
    ensures term { (c : CalleeOf) (live : List ReadBinding) → ShowsCallee forest.now.tokens (now_at table.old sofar.old) callee.now c → Shows table.old sofar.old.fresh sofar.old.scope live → ReadsTerm table.new sofar.new.scope sofar.new.fresh (applied c (token_at forest.now.tokens list).start (trees_at table.old kids.now) (record { live = live; supply = sofar.old.fresh })) result }
    ensures gains { Gains (now_at table.old sofar.old) (now_at table.new sofar.new) }
{
    know_table(table);
    match callee {
        Callee::Written(operator) => apply_operator(alloc, table, forest, list, *operator, kids),
        Callee::ArrayOf(sort) => apply_array(alloc, table, forest, list, *sort, kids),
        Callee::Called(symbol) => apply_symbol(alloc, table, forest, list, *symbol, kids),
        Callee::Defined(number) => {
            let definition = sofar.scope.definition(*number);
            apply_definition(
                alloc,
                table,
                forest,
                list,
                definition,
                kids,
                &mut sofar.fresh,
            )
        }
        Callee::Operandless => Err(ReadFault::Refused(fault(forest, list, Cause::WrongArity))),
    }
}

// A written operator over operands.
fn apply_operator(
    alloc: Global,
    table: &mut Table,
    forest: &Forest,
    list: usize,
    operator: Operator,
    kids: &[NodeId],
) -> Result<NodeId, ReadFault>
    requires table { IsTable table.old }
    requires list { IsForm forest.now.tokens list }
    requires apt { IsTrue (is_apt (written_seen operator)) }
    requires kids { (supply : Supply) × AreSpared table.old supply kids.now }
    ensures term { (supply : Supply) (live : List ReadBinding) → AreSpared table.old supply kids.now → ReadsWith table.new supply live (applied (written (written_seen operator)) (token_at forest.now.tokens list).start (trees_at table.old kids.now) (record { live = live; supply = supply })) result }
    ensures grows { GrowsTo table.old table.new }
{
    let made = make_form(alloc, table, operator, kids);
    answered(forest, list, made)
}

// The constant array of a sort over operands.
fn apply_array(
    alloc: Global,
    table: &mut Table,
    forest: &Forest,
    list: usize,
    sort: SortId,
    kids: &[NodeId],
) -> Result<NodeId, ReadFault>
    requires table { IsTable table.old }
    requires list { IsForm forest.now.tokens list }
    requires sort { IsSortId table.old.sorts sort }
    requires kids { (supply : Supply) × AreSpared table.old supply kids.now }
    ensures term { (supply : Supply) (live : List ReadBinding) → AreSpared table.old supply kids.now → ReadsWith table.new supply live (applied (array_of_sort (sort_at table.old.sorts sort)) (token_at forest.now.tokens list).start (trees_at table.old kids.now) (record { live = live; supply = supply })) result }
    ensures grows { GrowsTo table.old table.new }
{
    let made = make(alloc, table, Op::ConstArray(sort), kids);
    answered(forest, list, made)
}

// A declared symbol over operands.
fn apply_symbol(
    alloc: Global,
    table: &mut Table,
    forest: &Forest,
    list: usize,
    symbol: SymId,
    kids: &[NodeId],
) -> Result<NodeId, ReadFault>
    requires table { IsTable table.old }
    requires list { IsForm forest.now.tokens list }
    requires symbol { IsSymbol table.old symbol }
    requires kids { (supply : Supply) × AreSpared table.old supply kids.now }
    ensures term { (supply : Supply) (live : List ReadBinding) → NeverGives supply (symbol_at table.old symbol).name → AreSpared table.old supply kids.now → ReadsWith table.new supply live (applied (called (symbol_at table.old symbol)) (token_at forest.now.tokens list).start (trees_at table.old kids.now) (record { live = live; supply = supply })) result }
    ensures grows { GrowsTo table.old table.new }
{
    let made = make(alloc, table, Op::Sym(symbol), kids);
    answered(forest, list, made)
}

// The node that was made for the list of token `list`, or why there is none.
fn answered(
    forest: &Forest,
    list: usize,
    made: Result<NodeId, MakeFault>,
) -> Result<NodeId, ReadFault>
    requires { IsForm forest.now.tokens list }
    ensures { result ≡ answer_of (token_at forest.now.tokens list).start made }
{
    match made {
        Ok(node) => Ok(node),
        Err(MakeFault::Rank(e)) => Err(ReadFault::Refused(fault(forest, list, cause_of(e)))),
        Err(MakeFault::Memory) => Err(ReadFault::Memory),
    }
}

fn cause_of(e: RankFault) -> Cause
    ensures { result ≡ cause_for e }
{
    match e {
        RankFault::WrongArity => Cause::WrongArity,
        RankFault::WrongSort { .. } => Cause::WrongSort,
        RankFault::BadIndex => Cause::BadIndex,
        RankFault::WidthLimit => Cause::WidthLimit,
    }
}

// A definition over its arguments, which take the places of its parameters.
fn apply_definition(
    alloc: Global,
    table: &mut Table,
    forest: &Forest,
    list: usize,
    definition: &Definition,
    kids: &[NodeId],
    fresh: &mut Fresh,
) -> Result<NodeId, ReadFault>
    requires table { IsTable table.old }
    requires list { IsForm forest.now.tokens list }
    requires definition { IsDefinition table.old fresh.old definition.now }
    requires kids { AreSpared table.old fresh.old kids.now }
    ensures term { (xs : List Variable) (live : List ReadBinding) → map (λ x. x.sort) xs ≡ parameter_sorts table.old definition.now → ReadsWith table.new fresh.new live (applied (defined xs (tree table.old definition.now.body)) (token_at forest.now.tokens list).start (trees_at table.old kids.now) (record { live = live; supply = fresh.old })) result }
    ensures later { IsLater fresh.old fresh.new }
    ensures grows { GrowsTo table.old table.new }
{
    if let Some(cause) = arguments_fault(table, &definition.params, kids) {
        return Err(ReadFault::Refused(fault(forest, list, cause)));
    }
    let node = expand(alloc, table, definition, kids, fresh)?;
    Ok(node)
}

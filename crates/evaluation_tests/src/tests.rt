//! Formulas in one model: `f` is 5 at 1 and 0 at all other numbers, 7 by zero is 3 and all other numbers by zero are 2, and
//! what else is asked of it is as by default. What comes of each was worked out by hand.

ghost use Rattle.std.specs.Prelude.{◌≡◌, ◌∷◌, [], IfOk, OnOk};
ghost use Rattle.smt_terms.specs.Models.{IsModel};
ghost use Rattle.smt_terms.specs.Sorts.{int};
ghost use Rattle.smt_values.specs.declared.scalar.Scalar.TheVariants.{Whole};
ghost use Rattle.smt_values.specs.declared.value.Value.TheVariants.{Scalar as OfScalar};
ghost use Rattle.term_table.specs.Formulas.{symbol_at, IsSymbol};
ghost use Rattle.script_terms.specs.Places.{IsRead};
ghost use Rattle.script_read.specs.declared.scripts.Command.TheVariants as command;
ghost use Rattle.models.specs.LiveNumbers.{AreLiveNumbersOf};
ghost use Rattle.models.specs.ModelView.{model_at, IsModelOf};

use self::Outcome::{Fails, Holds};
use evaluation::{EvalFault, eval};
use models::{Division, Model, NumberGraph, Signature, signature_at};
use script_read::{Command, Commands, Script, read_script};
use smt_lex::{Forest, Until, scan};
use smt_terms::{NodeId, SymId};
use smt_values::{Op, Scalar, SortId, Value};
use std::alloc::{AllocError, Global};
use std::process::Abort;
use std::test::Fail;
use term_table::Table;

const FORMULAS: &[u8] = b"(declare-fun a () (Array Int Int))(declare-fun f (Int) Int)\
    (assert (forall ((x (_ BitVec 3)) (p Bool)) (= (bvadd x x) (ite p (bvshl x #b001) (bvmul #b010 x)))))\
    (assert (exists ((x (_ BitVec 3))) (and (bvult #b101 x) (bvult x #b110))))\
    (assert (forall ((p Bool)) (exists ((q Bool)) (xor p q))))\
    (assert (exists ((q Bool)) (forall ((p Bool)) (xor p q))))\
    (assert (forall ((p Bool)) (exists ((p Bool)) (not p))))\
    (assert (forall ((p Bool)) (forall ((q Bool)) p)))\
    (assert (= (div 7 0) 3))\
    (assert (= (div 8 0) (mod 8 0)))\
    (assert (= (select (store a 1 5) 1) 5))\
    (assert (= (select (store a 1 5) 2) 5))\
    (assert (= (f 1) 5))\
    (assert (= (f 2) 5))\
    (assert (distinct (f 1) 2 3))\
    (assert (distinct 1 2 1))\
    (assert (= (ite (= (f 1) 5) 5 7) 5))\
    (assert (= (ite (= (f 2) 5) 5 7) 5))";

// What comes of evaluating a formula.
#[derive(Clone, Copy, PartialEq, Eq)]
enum Outcome {
    Holds,
    Fails,
    // Its quantifiers bind so many bits.
    Binds(u32),
    // The value of an application of this operator is out of the range.
    Leaves(Op),
}

// What comes of these formulas, from the first on.
const FOUND: [Outcome; 16] = [
    Holds, Fails, Holds, Fails, Holds, Fails, Holds, Fails, Holds, Fails, Holds, Fails, Holds,
    Fails, Holds, Fails,
];

const WIDE: &[u8] = b"(assert (exists ((x (_ BitVec 16)) (p Bool)) p))";

const FAR: &[u8] =
    b"(assert (exists ((p Bool)) (or p (< (* 2 85070591730234615865843651857942052864) 0))))";

// The tokens of a text.
fn tokens(rt: &impl Abort, alloc: Global, text: &[u8]) -> Result<Forest, Fail>
    ensures { IfOk result IsRead }
{
    assert!(rt; text.len() < 1_000_000);
    Ok(scan(alloc, Vec::from_slice(alloc, text)?, Until::Exit)?)
}

// The commands of a text.
fn read(rt: &impl Abort, alloc: Global, table: &mut Table, text: &[u8]) -> Result<Script, Fail> {
    let forest = tokens(rt, alloc, text)?;
    let (script, _) = read_script(alloc, table, &forest)?;
    Ok(script)
}

// The script with one check and nothing else.
fn only_check(alloc: Global) -> Result<Script, AllocError>
    ensures { IfOk result (λ s. s.commands ≡ command.Check ∷ []) }
{
    let mut commands = Commands::new(alloc);
    commands.push(Command::Check)?;
    Ok(Script { commands })
}

// The signature without sorts and symbols.
fn nothing_live(alloc: Global, table: &Table) -> Result<Signature, AllocError>
    ensures { IfOk result (AreLiveNumbersOf table.now) }
{
    let script = only_check(alloc)?;
    signature_at(alloc, table, &script, 1)
}

// The model without symbols.
fn empty_model(alloc: Global, table: &Table) -> Result<Model, AllocError>
    ensures valid { IfOk result (λ m. IsModel (model_at table.now m)) }
    ensures numbers { IfOk result (IsModelOf table.now) }
{
    let signature = nothing_live(alloc, table)?;
    Model::new(alloc, table, &signature)
}

// Gives 7 by zero the value 3, and all other numbers by zero 2.
fn divide(alloc: Global, table: &Table, model: &mut Model) -> Result<(), AllocError>
    requires valid { IsModel (model_at table.now model.old) }
    requires numbers { IsModelOf table.now model.old }
    ensures valid { OnOk result (IsModel (model_at table.now model.new)) }
    ensures numbers { OnOk result (IsModelOf table.now model.new) }
{
    let mut quotients = NumberGraph::new(alloc, 2);
    quotients.add_row(7, 3)?;
    model.set_by_zero(Division::Quotient, quotients);
    Ok(())
}

// The list of one value, which is a whole number.
fn whole(alloc: Global, number: i128) -> Result<Vec<Value>, AllocError>
    ensures { IfOk result (λ values. values.items ≡ OfScalar (Whole number) ∷ []) }
{
    let mut values = Vec::new(alloc);
    values.push(Value::Scalar(Scalar::Whole(number)))?;
    Ok(values)
}

// Gives a function of a whole number the value 5 at 1, and 0 at all others.
fn define(
    rt: &impl Abort,
    alloc: Global,
    table: &Table,
    model: &mut Model,
    f: SymId,
) -> Result<(), AllocError>
    requires symbol { IsSymbol table.now f }
    requires arguments { (symbol_at table.now f).args ≡ int ∷ [] }
    requires to { (symbol_at table.now f).result ≡ int }
    requires valid { IsModel (model_at table.now model.old) }
    requires numbers { IsModelOf table.now model.old }
    ensures valid { OnOk result (IsModel (model_at table.now model.new)) }
    ensures numbers { OnOk result (IsModelOf table.now model.new) }
{
    model.define(table, f, Value::Scalar(Scalar::Whole(0)))?;
    assert!(rt; model.graph(f).is_some());
    let keys = whole(alloc, 1)?;
    model.add_row(table, f, keys, Value::Scalar(Scalar::Whole(5)))
}

// The operator of a node.
fn operator(rt: &impl Abort, table: &Table, node: NodeId) -> Op {
    assert!(rt; node.0 < table.len());
    table.op(node)
}

// Evaluates a formula.
fn evaluate(rt: &impl Abort, alloc: Global, table: &Table, model: &Model, id: NodeId) -> Outcome
    requires valid { IsModel (model_at table.now model.now) }
    requires numbers { IsModelOf table.now model.now }
{
    assert!(rt; id.0 < table.len());
    match eval(alloc, table, id, model) {
        Ok(Value::Scalar(Scalar::Truth(true))) => Outcome::Holds,
        Ok(Value::Scalar(Scalar::Truth(false))) => Outcome::Fails,
        Ok(_) => panic!(rt; "no truth value"),
        Err(EvalFault::EvalWidth { bits }) => Outcome::Binds(bits),
        Err(EvalFault::Beyond128 { node }) => Outcome::Leaves(operator(rt, table, node)),
        Err(EvalFault::Memory) => panic!(rt; "want of memory"),
    }
}

// Evaluates the assertions of a script.
fn evaluate_all(
    rt: &impl Abort,
    alloc: Global,
    table: &Table,
    model: &Model,
    script: &Script,
) -> Result<Vec<Outcome>, AllocError>
    requires valid { IsModel (model_at table.now model.now) }
    requires numbers { IsModelOf table.now model.now }
{
    let mut found = Vec::new(alloc);
    for command in script.commands.as_slice() {
        if let Command::Assert { id, .. } = command {
            found.push(evaluate(rt, alloc, table, model, *id))?;
        }
    }
    Ok(found)
}

// Evaluates the assertions of a script, once the model has the function and the quotients.
fn evaluate_in(
    rt: &impl Abort,
    alloc: Global,
    table: &Table,
    model: &mut Model,
    f: SymId,
    script: &Script,
) -> Result<Vec<Outcome>, AllocError>
    requires symbol { IsSymbol table.now f }
    requires arguments { (symbol_at table.now f).args ≡ int ∷ [] }
    requires to { (symbol_at table.now f).result ≡ int }
    requires valid { IsModel (model_at table.now model.old) }
    requires numbers { IsModelOf table.now model.old }
{
    divide(alloc, table, model)?;
    define(rt, alloc, table, model, f)?;
    evaluate_all(rt, alloc, table, model, script)
}

// Makes the model, and evaluates the assertions of a script.
fn evaluate_script(
    rt: &impl Abort,
    alloc: Global,
    table: &mut Table,
    script: &Script,
) -> Result<Vec<Outcome>, AllocError> {
    let f = table.symbol(b"f", &[SortId::INT], SortId::INT)?;
    let mut model = empty_model(alloc, table)?;
    evaluate_in(rt, alloc, table, &mut model, f, script)
}

// Evaluates the assertions of a text.
fn evaluate_text(
    rt: &impl Abort,
    alloc: Global,
    table: &mut Table,
    text: &[u8],
) -> Result<Vec<Outcome>, Fail> {
    let script = read(rt, alloc, table, text)?;
    Ok(evaluate_script(rt, alloc, table, &script)?)
}

// Evaluates the assertions of a text, over a new table.
fn evaluate_anew(rt: &impl Abort, alloc: Global, text: &[u8]) -> Result<Vec<Outcome>, Fail> {
    let mut table = Table::new(alloc);
    evaluate_text(rt, alloc, &mut table, text)
}

// Asserts what comes of evaluating the assertions of a text.
fn gives(rt: &impl Abort, alloc: Global, text: &[u8], expected: &[Outcome]) -> Result<(), Fail> {
    let found = evaluate_anew(rt, alloc, text)?;
    assert!(rt; found.as_slice() == expected);
    Ok(())
}

#[test]
fn formulas_hold_or_do_not(rt: HostRuntime) -> Result<(), Fail> {
    gives(&rt, rt.alloc(), FORMULAS, &FOUND)
}

#[test]
fn seventeen_bits_are_too_many(rt: HostRuntime) -> Result<(), Fail> {
    gives(&rt, rt.alloc(), WIDE, &[Outcome::Binds(17)])
}

#[test]
fn a_number_beyond_the_range_is_told(rt: HostRuntime) -> Result<(), Fail> {
    gives(&rt, rt.alloc(), FAR, &[Outcome::Leaves(Op::Mul)])
}

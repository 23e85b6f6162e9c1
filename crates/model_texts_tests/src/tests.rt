//! Models that texts give, printed again, and texts that give none, over one script's signature. Expected texts were worked
//! out by hand.

ghost use Rattle.std.specs.Prelude.{◌≡◌, IfOk, IsTrue, Ok};
ghost use Rattle.smt_lex.specs.Forms.{tokens_of};
ghost use Rattle.script_read.specs.CommandLists.{commands_of, AreCommandsOf};
ghost use Rattle.script_read.specs.Printable.{printable};
ghost use Rattle.models.specs.LiveNumbers.{signature_of, AreLiveNumbersOf};
ghost use Rattle.model_texts.specs.Proper.{IsProper};
ghost use Rattle.model_texts.specs.Whole.{IsWhole};

use model_texts::laws::printable_signatures_are_proper;
use model_texts::{ModelFault, model_text, read_model};
use models::{Signature, signature_at};
use script_read::{Script, checks, read_script, reading_gives_a_printable_script};
use smt_lex::{Forest, Until, scan};
use std::alloc::{AllocError, Global};
use std::process::Abort;
use std::test::Fail;
use term_table::Table;

const SCRIPT: &[u8] = b"(declare-sort |a b| 0)\
    (declare-fun b () Bool)(declare-fun f (Int Bool) Int)(declare-fun c () |a b|)(check-sat)";

// A text, and what is printed of its model or why it is refused.
type Row<'a> = (&'a [u8], Result<&'a [u8], ModelFault>);

// The tokens of a text.
fn tokens(rt: &impl Abort, alloc: Global, text: &[u8], until: Until) -> Result<Forest, Fail>
    ensures { IfOk result (λ forest. tokens_of until forest.bytes ≡ Ok forest.tokens) }
{
    assert!(rt; text.len() < 1_000_000);
    Ok(scan(alloc, Vec::from_slice(alloc, text)?, until)?)
}

// Reads the script.
fn read(rt: &impl Abort, alloc: Global, table: &mut Table) -> Result<Script, Fail>
    ensures commands { IfOk result (λ s. AreCommandsOf table.new s.commands) }
    ensures printable { IfOk result (λ s. IsTrue (printable (commands_of table.new s.commands))) }
{
    reading_gives_a_printable_script();
    let forest = tokens(rt, alloc, SCRIPT, Until::Exit)?;
    let (script, _) = read_script(alloc, table, &forest)?;
    Ok(script)
}

// The signature at the only check of a script.
fn live_at_check(
    rt: &impl Abort,
    alloc: Global,
    table: &Table,
    script: &Script,
) -> Result<Signature, AllocError>
    requires commands { AreCommandsOf table.now script.now.commands }
    requires printable { IsTrue (printable (commands_of table.now script.now.commands)) }
    ensures live { IfOk result (AreLiveNumbersOf table.now) }
    ensures proper { IfOk result (λ s. IsProper (signature_of table.now s)) }
{
    printable_signatures_are_proper();
    assert!(rt; checks(script) == 1);
    signature_at(alloc, table, script, 1)
}

// Reads the script, and finds its signature.
fn signature(rt: &impl Abort, alloc: Global, table: &mut Table) -> Result<Signature, Fail>
    ensures live { IfOk result (AreLiveNumbersOf table.new) }
    ensures proper { IfOk result (λ s. IsProper (signature_of table.new s)) }
{
    let script = read(rt, alloc, table)?;
    Ok(live_at_check(rt, alloc, table, &script)?)
}

// The printed model that these tokens give.
fn printed(
    alloc: Global,
    table: &Table,
    signature: &Signature,
    forest: &Forest,
) -> Result<Vec<u8>, ModelFault>
    requires live { AreLiveNumbersOf table.now signature.now }
    requires proper { IsProper (signature_of table.now signature.now) }
    requires whole { IsWhole forest.now }
{
    let model = read_model(alloc, table, forest, signature)?;
    Ok(model_text(alloc, table, &model, signature)?)
}

// Asserts that a text gives what stands beside it.
fn gives(
    rt: &impl Abort,
    alloc: Global,
    table: &Table,
    signature: &Signature,
    row: &Row<'_>,
) -> Result<(), Fail>
    requires live { AreLiveNumbersOf table.now signature.now }
    requires proper { IsProper (signature_of table.now signature.now) }
{
    let forest = tokens(rt, alloc, row.0, Until::End)?;
    match (printed(alloc, table, signature, &forest), row.1) {
        (Ok(found), Ok(expected)) => assert!(rt; found.as_slice() == expected),
        (Err(found), Err(expected)) => assert!(rt; found == expected),
        _ => panic!(rt; "a model in place of a refusal, or a refusal in place of a model"),
    }
    Ok(())
}

// Asserts that each text gives what stands beside it.
fn all_give(
    rt: &impl Abort,
    alloc: Global,
    table: &Table,
    signature: &Signature,
    rows: &[Row<'_>],
) -> Result<(), Fail>
    requires live { AreLiveNumbersOf table.now signature.now }
    requires proper { IsProper (signature_of table.now signature.now) }
{
    for row in rows {
        gives(rt, alloc, table, signature, row)?;
    }
    Ok(())
}

// Asserts the same over the script's signature.
fn give_over_script(
    rt: &impl Abort,
    alloc: Global,
    table: &mut Table,
    rows: &[Row<'_>],
) -> Result<(), Fail> {
    let signature = signature(rt, alloc, table)?;
    all_give(rt, alloc, table, &signature, rows)
}

// Asserts the same over a new table.
fn give(rt: &impl Abort, alloc: Global, rows: &[Row<'_>]) -> Result<(), Fail> {
    let mut table = Table::new(alloc);
    give_over_script(rt, alloc, &mut table, rows)
}

// Texts with what is printed of their models.
const GIVEN: [Row<'static>; 4] = [
    (
        b"sat ( )",
        Ok(
            b"(\n(@sort |a b| (as |@a b_0| |a b|))\n(define-fun b () Bool false)\n(define-fun f ((x!0 Int) (x!1 Bool)) Int 0)\n(define-fun c () |a b| (as |@a b_0| |a b|))\n)\n",
        ),
    ),
    (
        b"(model (define-fun f ((x Int) (y Bool)) Int \
        (ite (and y (= x 1)) 5 (ite (and (= 1 x) y) 6 (ite (and (not y) (= x (- 2))) 7 8)))))",
        Ok(
            b"(\n(@sort |a b| (as |@a b_0| |a b|))\n(define-fun b () Bool false)\n(define-fun f ((x!0 Int) (x!1 Bool)) Int \
        (ite (and (= x!0 1) (= x!1 true)) 5 (ite (and (= x!0 (- 2)) (= x!1 false)) 7 8)))\n(define-fun c () |a b| (as |@a b_0| |a b|))\n)\n",
        ),
    ),
    (
        b"((declare-sort |a b| 0) (@sort |a b| (as @u |a b|) (as @v |a b|)) (define-fun c () |a b| (as @v |a b|)))",
        Ok(
            b"(\n(@sort |a b| (as |@a b_0| |a b|) (as |@a b_1| |a b|))\n(define-fun b () Bool false)\n(define-fun f ((x!0 Int) (x!1 Bool)) Int 0)\n(define-fun c () |a b| (as |@a b_1| |a b|))\n)\n",
        ),
    ),
    (
        b"((define-fun @div0 ((x Int)) Int (ite (= x 3) 4 (- 1))) (define-fun b () Bool true) (define-fun @mod0 ((x Int)) Int 0))",
        Ok(
            b"(\n(@sort |a b| (as |@a b_0| |a b|))\n(define-fun b () Bool true)\n(define-fun f ((x!0 Int) (x!1 Bool)) Int 0)\n(define-fun c () |a b| (as |@a b_0| |a b|))\n\
        (define-fun @div0 ((x!0 Int)) Int (ite (= x!0 3) 4 (- 1)))\n)\n",
        ),
    ),
];

#[test]
fn texts_give_models(rt: HostRuntime) -> Result<(), Fail> {
    give(&rt, rt.alloc(), &GIVEN)
}

// Texts with what they are refused for.
const REFUSED: [Row<'static>; 9] = [
    (b"", Err(ModelFault::ModelForm { line: 1, byte: 0 })),
    (b"\nmodel", Err(ModelFault::ModelForm { line: 2, byte: 1 })),
    (b"() ()", Err(ModelFault::ModelForm { line: 1, byte: 3 })),
    (
        b"((define-fun))",
        Err(ModelFault::ModelForm { line: 1, byte: 1 }),
    ),
    (
        b"((define-fun b () Bool true)\n(define-fun b () Bool true))",
        Err(ModelFault::ModelTwice { line: 2, byte: 29 }),
    ),
    (
        b"((define-fun b ((x Int)) Bool true))",
        Err(ModelFault::ModelSort { line: 1, byte: 1 }),
    ),
    (
        b"((define-fun f ((x Int) (y Bool)) Int (ite y 1 2)))",
        Err(ModelFault::NotATable { line: 1, byte: 43 }),
    ),
    (
        b"((define-fun b () Bool 1))",
        Err(ModelFault::ModelSort { line: 1, byte: 23 }),
    ),
    (
        b"((define-fun @mod0 ((x Int)) Int 170141183460469231731687303715884105728))",
        Err(ModelFault::ModelNumber { line: 1, byte: 33 }),
    ),
];

#[test]
fn texts_are_refused(rt: HostRuntime) -> Result<(), Fail> {
    give(&rt, rt.alloc(), &REFUSED)
}

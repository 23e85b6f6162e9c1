//! `translate` and `extend`: a model of the rewritten script carried back to the script, and one of the script carried forth.

ghost use Rattle.std.specs.Prelude.{◌≡◌, ℕ, ◌<◌, ◌≤◌, List, Some, length, vec_len, count_by, IfOk, IfErr, OnOk};
ghost use Rattle.smt_io.specs.Told.{longest_text};
ghost use Rattle.smt_terms.specs.Models.{IsModelOver};
ghost use Rattle.smt_terms.specs.Sorts.{Name};
ghost use Rattle.script_terms.specs.Places.{IsRead};
ghost use Rattle.script_read.specs.CommandLists.{is_check};
ghost use Rattle.models.specs.LiveNumbers.{signature_of, AreLiveNumbersOf};
ghost use Rattle.models.specs.ModelView.{model_at};
ghost use Rattle.model_texts.specs.ModelLines.{model_lines};
ghost use Rattle.model_texts.specs.Proper.{IsProper};
ghost use Rattle.smtrw_answers.specs.declared.status.Why.TheVariants.{NoSuchCheck};
ghost use Rattle.smtrw_answers.specs.Asked.{numbered};
ghost use Rattle.smtrw_answers.specs.Endings.{passes_end};
ghost use Rattle.smtrw_run.specs.Carrying.{EndsAtFile, EndsAtScript, EndsOnTheWay, HasBegun, IsModelRead, IsPassage, IsWay, IsWayOfSome, ReadsText, extension, translation};
ghost use Rattle.smtrw_run.specs.Prepared.{EndsBefore, IsPrepared, texts_beside};

use crate::rewriting::know_passes;
use model_texts::laws::printable_signatures_are_proper;
use model_texts::{model_text, read_model};
use models::{Model, Signature, signature_at};
use pass_laws::laws::signatures_stay_led;
use passes::{Passes, Plan, back, forth, run_passes};
use rule_book::{Named, RuleBook};
use script_read::{
    Script, checks, names_left_are_new, read_script, reading_gives_a_printable_script,
};
use smt_io::{Inputs, Pieces, ReadFault, read_all};
use smt_lex::{Forest, Until, scan};
use smtrw_answers::{Carried, File, Status, Usage, Why, model_unread};
use std::alloc::{AllocError, Global};
use std::mem::ManuallyDrop;
use term_subst::Fresh;
use term_table::Table;

/// How a model's text of more than 67,108,864 bytes ends the run.
pub(crate) const MODEL_TOO_LONG: Status = Status::ModelRefused {
    code: 2,
    line: 0,
    byte: 67_108_864,
};

/// The text of the model of the script that a model of the rewritten script stands for.
pub fn translated<I: Inputs>(
    alloc: Global,
    forest: &Forest,
    asked: &Carried,
    inputs: &mut I,
    book: &RuleBook,
) -> Result<Pieces, Status>
    requires read { IsRead forest.now }
    requires short { length forest.now.bytes ≤ longest_text }
    requires first { 1 ≤ asked.now.check }
    ensures before { IfErr result (EndsBefore (texts_beside forest.now.bytes (I.text inputs.old) (translation asked.now)) (I.faults inputs.old) (I.faults inputs.new) (translation asked.now)) }
    ensures text { IfOk result (IsPrepared (⟦<RuleBook as Named>⟧.names book.now) (texts_beside forest.now.bytes (I.text inputs.old) (translation asked.now)) (translation asked.now)) }
{
    let passage = passage_over(alloc, forest, &asked.passes, asked.check, book)?;
    // Left to the end of the program, which gives back all memory at once.
    let passage = ManuallyDrop::new(passage);
    carried_back(alloc, &passage.way, asked, inputs)
}

/// The text of the model that a model in a file stands for, before the passes.
fn carried_back<I: Inputs>(
    alloc: Global,
    way: &Way,
    asked: &Carried,
    inputs: &mut I,
) -> Result<Pieces, Status>
    requires { IsWayOfSome asked.now.passes asked.now.check way.now }
    ensures before { (b : List ℕ) → IsWay b asked.now.passes asked.now.check way.now
        → IfErr result (EndsBefore (texts_beside b (I.text inputs.old) (translation asked.now)) (I.faults inputs.old) (I.faults inputs.new) (translation asked.now)) }
    ensures text { (b : List ℕ) (rules : List Name) → IsWay b asked.now.passes asked.now.check way.now
        → IfOk result (IsPrepared rules (texts_beside b (I.text inputs.old) (translation asked.now)) (translation asked.now)) }
{
    let model = model_in_file(alloc, inputs, asked.model, &way.table, &way.behind)?;
    let model = back(alloc, &way.table, &way.plan, model, asked.check)?;
    let text = printed(alloc, &way.table, &model, &way.before)?;
    Ok(text)
}

/// The text of the model of the rewritten script that a model of the script stands for.
pub fn extended<I: Inputs>(
    alloc: Global,
    forest: &Forest,
    asked: &Carried,
    inputs: &mut I,
    book: &RuleBook,
) -> Result<Pieces, Status>
    requires read { IsRead forest.now }
    requires short { length forest.now.bytes ≤ longest_text }
    requires first { 1 ≤ asked.now.check }
    ensures before { IfErr result (EndsBefore (texts_beside forest.now.bytes (I.text inputs.old) (extension asked.now)) (I.faults inputs.old) (I.faults inputs.new) (extension asked.now)) }
    ensures text { IfOk result (IsPrepared (⟦<RuleBook as Named>⟧.names book.now) (texts_beside forest.now.bytes (I.text inputs.old) (extension asked.now)) (extension asked.now)) }
{
    let passage = passage_over(alloc, forest, &asked.passes, asked.check, book)?;
    // Left to the end of the program, which gives back all memory at once.
    let passage = ManuallyDrop::new(passage);
    carried_forth(alloc, &passage.way, asked, inputs)
}

/// The text of the model that a model in a file stands for, behind the passes.
fn carried_forth<I: Inputs>(
    alloc: Global,
    way: &Way,
    asked: &Carried,
    inputs: &mut I,
) -> Result<Pieces, Status>
    requires { IsWayOfSome asked.now.passes asked.now.check way.now }
    ensures before { (b : List ℕ) → IsWay b asked.now.passes asked.now.check way.now
        → IfErr result (EndsBefore (texts_beside b (I.text inputs.old) (extension asked.now)) (I.faults inputs.old) (I.faults inputs.new) (extension asked.now)) }
    ensures text { (b : List ℕ) (rules : List Name) → IsWay b asked.now.passes asked.now.check way.now
        → IfOk result (IsPrepared rules (texts_beside b (I.text inputs.old) (extension asked.now)) (extension asked.now)) }
{
    let model = model_in_file(alloc, inputs, asked.model, &way.table, &way.before)?;
    let model = forth(alloc, &way.table, &way.plan, model, asked.check)?;
    let text = printed(alloc, &way.table, &model, &way.behind)?;
    Ok(text)
}

/// What models of a check are carried with: the table of all terms, the plan of the passes, and what is declared at the check
/// before and behind them.
#[derive(Drop)]
pub(crate) struct Way {
    pub(crate) table: Table,
    pub(crate) plan: Plan,
    pub(crate) before: Signature,
    pub(crate) behind: Signature,
}

/// A script behind the passes, with the names that are left to draw and the way over the passes.
#[derive(Drop)]
pub(crate) struct Passage {
    pub(crate) way: Way,
    pub(crate) script: Script,
    pub(crate) fresh: Fresh,
}

/// Reads a script that has a check, and goes over the passes with it.
pub(crate) fn passage_over(
    alloc: Global,
    forest: &Forest,
    passes: &Passes,
    check: u64,
    book: &RuleBook,
) -> Result<Passage, Status>
    requires read { IsRead forest.now }
    requires short { length forest.now.bytes ≤ longest_text }
    requires first { 1 ≤ check }
    ensures passage { IfOk result (IsPassage forest.now.bytes passes.now check (⟦<RuleBook as Named>⟧.names book.now)) }
    ensures ends { IfErr result (EndsOnTheWay forest.now.bytes check (passes_end forest.now.bytes passes.now)) }
{
    reading_gives_a_printable_script();
    names_left_are_new();
    signatures_stay_led();
    printable_signatures_are_proper();
    know_passes(passes);
    let mut table = Table::new(alloc);
    let begun = read_with_check(alloc, &mut table, forest, check)?;
    let mut fresh = begun.fresh;
    let (script, plan) = run_passes(alloc, &mut table, begun.script, passes, book, &mut fresh)?;
    let behind = signature_at(alloc, &table, &script, check)?;
    let way = Way {
        table,
        plan,
        before: begun.before,
        behind,
    };
    Ok(Passage { way, script, fresh })
}

/// A script that was read, with the names that are left to draw and what is declared at a check.
#[derive(Drop)]
struct Begun {
    script: Script,
    fresh: Fresh,
    before: Signature,
}

/// Reads a script that has a check.
fn read_with_check(
    alloc: Global,
    table: &mut Table,
    forest: &Forest,
    check: u64,
) -> Result<Begun, Status>
    requires read { IsRead forest.now }
    requires short { length forest.now.bytes ≤ longest_text }
    requires first { 1 ≤ check }
    ensures begun { IfOk result (HasBegun table.new forest.now.bytes check) }
    ensures ends { IfErr result (EndsAtScript forest.now.bytes check) }
{
    reading_gives_a_printable_script();
    let (script, fresh) = read_script(alloc, table, forest)?;
    find_check(&script, check)?;
    let before = signature_at(alloc, table, &script, check)?;
    Ok(Begun {
        script,
        fresh,
        before,
    })
}

/// Refuses a check that the script hasn't got.
fn find_check(script: &Script, check: u64) -> Result<(), Status>
    ensures found { OnOk result (check ≤ count_by is_check script.now.commands) }
    ensures missing { IfErr result (λ status. (count_by is_check script.now.commands < check)
        × (status ≡ Status.Usage (record { word = 0; why = NoSuchCheck check (count_by is_check script.now.commands) }))) }
{
    let checks = checks(script);
    if check > checks {
        return Err(Status::Usage(Usage {
            word: 0,
            why: Why::NoSuchCheck { check, checks },
        }));
    }
    Ok(())
}

/// The model over a signature that the text in a file gives.
pub(crate) fn model_in_file<I: Inputs>(
    alloc: Global,
    inputs: &mut I,
    file: File,
    table: &Table,
    signature: &Signature,
) -> Result<Model, Status>
    requires signature { AreLiveNumbersOf table.now signature.now }
    requires proper { IsProper (signature_of table.now signature.now) }
    ensures model { IfOk result (IsModelRead table.now (signature_of table.now signature.now) (I.text inputs.old file.entry.name.now)) }
    ensures ends { IfErr result (EndsAtFile (signature_of table.now signature.now) (I.text inputs.old file.entry.name.now) (I.faults inputs.old) (I.faults inputs.new) (numbered file.entry)) }
{
    match read_all(alloc, inputs, file.name) {
        Ok(bytes) => model_in_text(alloc, bytes, table, signature),
        Err(ReadFault::Failed) => Err(Status::ReadFailed { word: file.word }),
        Err(ReadFault::TooLong) => Err(MODEL_TOO_LONG),
        Err(ReadFault::Memory) => Err(Status::OutOfMemory),
    }
}

/// The model over a signature that a text gives.
fn model_in_text(
    alloc: Global,
    bytes: Vec<u8>,
    table: &Table,
    signature: &Signature,
) -> Result<Model, Status>
    requires short { vec_len bytes ≤ longest_text }
    requires signature { AreLiveNumbersOf table.now signature.now }
    requires proper { IsProper (signature_of table.now signature.now) }
    ensures { ReadsText table.now (signature_of table.now signature.now) (Some bytes.items) result }
{
    match scan(alloc, bytes, Until::End) {
        Ok(forest) => Ok(read_model(alloc, table, &forest, signature)?),
        Err(fault) => Err(model_unread(fault)),
    }
}

/// The model's text over a signature.
pub(crate) fn printed(
    alloc: Global,
    table: &Table,
    model: &Model,
    signature: &Signature,
) -> Result<Pieces, AllocError>
    requires signature { AreLiveNumbersOf table.now signature.now }
    requires over { IsModelOver (signature_of table.now signature.now).sorts (signature_of table.now signature.now).symbols (model_at table.now model.now) }
    ensures { IfOk result (λ text. text ≡ model_lines (model_at table.now model.now) (signature_of table.now signature.now)) }
{
    let bytes = model_text(alloc, table, model, signature)?;
    Ok(Pieces::of(alloc, bytes))
}

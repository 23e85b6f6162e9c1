//! `dimacs` and `answer`: the clauses of a check as DIMACS text, and a solver's answer to it as a model of the script.

ghost use Rattle.std.specs.Prelude.{◌≡◌, ℕ, ◌≤◌, false, codes, List, Option, Some, length, vec_len, IfOk, IfErr};
ghost use Rattle.std.specs.List.{list_any};
ghost use Rattle.script_terms.specs.Places.{IsRead};
ghost use Rattle.smt_io.specs.Told.{longest_text};
ghost use Rattle.smt_terms.specs.Sorts.{Name};
ghost use Rattle.pass_laws.specs.declared.names.Pass.{Pass};
ghost use Rattle.smtrw_answers.specs.Asked.{numbered};
ghost use Rattle.smtrw_answers.specs.Words.{dimacs, is_rules, Numbered, Word};
ghost use Rattle.smtrw_run.specs.Carrying.{IsPassage};
ghost use Rattle.smtrw_run.specs.Linking.{answering, CarriesAnswer, EndsAtAnswerFile, IsAnswerRead, IsLinkedWay, IsLinkedWayOfSome, IsPassageOfSome, LinksText, ReadsAnswer};
ghost use Rattle.smtrw_run.specs.Prepared.{EndsBefore, IsPrepared, texts_beside};

use crate::carrying::{MODEL_TOO_LONG, Passage, Way, passage_over, printed};
use dimacs_link::laws::checks_are_linked;
use dimacs_link::{Answer, Truths, answer_model, clause_constants, link_check, read_answer};
use passes::{Passes, back};
use rule_book::RuleBook;
use smt_io::{Inputs, Pieces, ReadFault, read_all};
use smt_lex::Forest;
use smt_terms::SymId;
use smtrw_answers::{Carried, File, Status, linking_keeps_its_promise};
use std::alloc::Global;
use std::mem::ManuallyDrop;

/// The clauses of a check of the script behind the passes.
pub fn linked(
    alloc: Global,
    forest: &Forest,
    passes: &Passes,
    check: u64,
    book: &RuleBook,
) -> Result<Pieces, Status>
    requires read { IsRead forest.now }
    requires short { length forest.now.bytes ≤ longest_text }
    requires first { 1 ≤ check }
    requires rules { list_any is_rules passes.now ≡ false }
    ensures before { (script : Numbered) (text : Word → Option (List ℕ)) (before now : Word → ℕ) → IfErr result (EndsBefore (texts_beside forest.now.bytes text (dimacs passes.now check script)) before now (dimacs passes.now check script)) }
    ensures text { (script : Numbered) (rules : List Name) (text : Word → Option (List ℕ)) → IfOk result (IsPrepared rules (texts_beside forest.now.bytes text (dimacs passes.now check script)) (dimacs passes.now check script)) }
{
    let passage = passage_over(alloc, forest, passes, check, book)?;
    // Left to the end of the program, which gives back all memory at once.
    let passage = ManuallyDrop::new(passage);
    clause_text(alloc, &passage, check)
}

/// The clauses of a check of a script that went over passes.
fn clause_text(alloc: Global, passage: &Passage, check: u64) -> Result<Pieces, Status>
    requires { IsPassageOfSome check passage.now }
    ensures { (b : List ℕ) (ps : List Pass) (rules : List Name) → IsPassage b ps check rules passage.now → list_any is_rules ps ≡ false → LinksText b ps check result }
{
    linking_keeps_its_promise();
    let bytes = link_check(alloc, &passage.way.table, &passage.script, check)?;
    Ok(Pieces::of(alloc, bytes))
}

/// The text of the model of the script that a solver's answer to the clauses stands for, or a line for an answer without one.
pub fn answered<I: Inputs>(
    alloc: Global,
    forest: &Forest,
    asked: &Carried,
    inputs: &mut I,
    book: &RuleBook,
) -> Result<Pieces, Status>
    requires read { IsRead forest.now }
    requires short { length forest.now.bytes ≤ longest_text }
    requires first { 1 ≤ asked.now.check }
    requires rules { list_any is_rules asked.now.passes ≡ false }
    ensures before { IfErr result (EndsBefore (texts_beside forest.now.bytes (I.text inputs.old) (answering asked.now)) (I.faults inputs.old) (I.faults inputs.new) (answering asked.now)) }
    ensures text { (rules : List Name) → IfOk result (IsPrepared rules (texts_beside forest.now.bytes (I.text inputs.old) (answering asked.now)) (answering asked.now)) }
{
    let passage = passage_over(alloc, forest, &asked.passes, asked.check, book)?;
    // Left to the end of the program, which gives back all memory at once.
    let passage = ManuallyDrop::new(passage);
    answer_over(alloc, &passage, asked, inputs)
}

/// What a solver's answer in a file says of a script that went over passes.
fn answer_over<I: Inputs>(
    alloc: Global,
    passage: &Passage,
    asked: &Carried,
    inputs: &mut I,
) -> Result<Pieces, Status>
    requires { IsPassageOfSome asked.now.check passage.now }
    ensures before { (b : List ℕ) (rules : List Name) → IsPassage b asked.now.passes asked.now.check rules passage.now → list_any is_rules asked.now.passes ≡ false
        → IfErr result (EndsBefore (texts_beside b (I.text inputs.old) (answering asked.now)) (I.faults inputs.old) (I.faults inputs.new) (answering asked.now)) }
    ensures text { (b : List ℕ) (rules names : List Name) → IsPassage b asked.now.passes asked.now.check rules passage.now → list_any is_rules asked.now.passes ≡ false
        → IfOk result (IsPrepared names (texts_beside b (I.text inputs.old) (answering asked.now)) (answering asked.now)) }
{
    checks_are_linked();
    let constants = clause_constants(alloc, &passage.way.table, &passage.script, asked.check)?;
    answer_back(alloc, &passage.way, constants.as_slice(), asked, inputs)
}

/// What a solver's answer in a file over these constants says of the script.
fn answer_back<I: Inputs>(
    alloc: Global,
    way: &Way,
    constants: &[SymId],
    asked: &Carried,
    inputs: &mut I,
) -> Result<Pieces, Status>
    requires { IsLinkedWayOfSome asked.now.check way.now constants.now }
    ensures before { (b : List ℕ) → IsLinkedWay b asked.now.passes asked.now.check way.now constants.now
        → IfErr result (EndsBefore (texts_beside b (I.text inputs.old) (answering asked.now)) (I.faults inputs.old) (I.faults inputs.new) (answering asked.now)) }
    ensures text { (b : List ℕ) (rules : List Name) → IsLinkedWay b asked.now.passes asked.now.check way.now constants.now
        → IfOk result (IsPrepared rules (texts_beside b (I.text inputs.old) (answering asked.now)) (answering asked.now)) }
{
    match answer_in_file(alloc, inputs, asked.model, constants.len() as u64)? {
        Answer::Sat(values) => values_back(alloc, way, constants, &values, asked.check),
        Answer::Unsat => line_text(alloc, b"unsat\n"),
        Answer::Unknown => line_text(alloc, b"unknown\n"),
    }
}

/// The text of the model, before the passes, that truth values of these constants stand for.
fn values_back(
    alloc: Global,
    way: &Way,
    constants: &[SymId],
    values: &Truths,
    check: u64,
) -> Result<Pieces, Status>
    requires way { IsLinkedWayOfSome check way.now constants.now }
    requires lengths { length values.now ≡ length constants.now }
    ensures { (b : List ℕ) (ps : List Pass) → IsLinkedWay b ps check way.now constants.now → CarriesAnswer b ps check values.now result }
{
    let model = answer_model(alloc, &way.table, &way.behind, constants, values)?;
    let model = back(alloc, &way.table, &way.plan, model, check)?;
    let text = printed(alloc, &way.table, &model, &way.before)?;
    Ok(text)
}

/// The text of one line.
fn line_text(alloc: Global, line: &[u8]) -> Result<Pieces, Status>
    ensures text { IfOk result (λ text. text ≡ line.now) }
    ensures wanting { IfErr result (λ status. status ≡ Status.OutOfMemory) }
{
    let mut text = Pieces::new(alloc);
    text.push(line)?;
    Ok(text)
}

/// The solver's answer in a file, over so many constants.
fn answer_in_file<I: Inputs>(
    alloc: Global,
    inputs: &mut I,
    file: File,
    constants: u64,
) -> Result<Answer, Status>
    ensures answer { IfOk result (IsAnswerRead constants (I.text inputs.old file.entry.name.now)) }
    ensures ends { IfErr result (EndsAtAnswerFile constants (I.text inputs.old file.entry.name.now) (I.faults inputs.old) (I.faults inputs.new) (numbered file.entry)) }
{
    match read_all(alloc, inputs, file.name) {
        Ok(bytes) => answer_in_text(alloc, bytes, constants),
        Err(ReadFault::Failed) => Err(Status::ReadFailed { word: file.word }),
        Err(ReadFault::TooLong) => Err(MODEL_TOO_LONG),
        Err(ReadFault::Memory) => Err(Status::OutOfMemory),
    }
}

/// The solver's answer that a text gives, over so many constants.
fn answer_in_text(alloc: Global, bytes: Vec<u8>, constants: u64) -> Result<Answer, Status>
    requires short { vec_len bytes ≤ longest_text }
    ensures { ReadsAnswer constants (Some bytes.items) result }
{
    let answer = read_answer(alloc, bytes.as_slice(), constants)?;
    Ok(answer)
}

//! `blast` and `unblast`: a script over truth values in the place of a check over bit vectors, and a model of that script carried
//! back.

ghost use Rattle.std.specs.Prelude.{◌≡◌, ℕ, ◌≤◌, false, List, Option, length, IfOk, IfErr};
ghost use Rattle.std.specs.List.{list_any};
ghost use Rattle.script_terms.specs.Places.{IsRead};
ghost use Rattle.smt_io.specs.Told.{longest_text};
ghost use Rattle.smt_terms.specs.Sorts.{Name};
ghost use Rattle.smtrw_answers.specs.Endings.{blasting_end};
ghost use Rattle.smtrw_answers.specs.Words.{blast, is_rules, Numbered, Word};
ghost use Rattle.smtrw_run.specs.Blasting.{IsBlastedWay, IsBlastedWayOfSome, unblasting};
ghost use Rattle.smtrw_run.specs.Carrying.{EndsOnTheWay};
ghost use Rattle.smtrw_run.specs.Prepared.{EndsBefore, IsPrepared, texts_beside};

use crate::carrying::{Way, model_in_file, passage_over, printed};
use bit_scripts::laws::{blasted_bits_are_live, scripts_are_blasted};
use bit_scripts::{Blasting, blast_check, lift};
use model_texts::laws::printable_signatures_are_proper;
use models::signature_at;
use passes::{Passes, back};
use rule_book::RuleBook;
use smt_io::{Inputs, Pieces};
use smt_lex::Forest;
use smt_print::{Layout, script_into};
use smtrw_answers::{Carried, Status, blasting_keeps_its_promise};
use std::alloc::Global;
use std::mem::ManuallyDrop;

/// The script over truth values in the place of a check of the script behind the passes, terms as dags.
pub fn blasted(
    alloc: Global,
    forest: &Forest,
    passes: &Passes,
    check: u64,
    book: &RuleBook,
) -> Result<Pieces, Status>
    requires read { IsRead forest.now }
    requires short { length forest.now.bytes ≤ longest_text }
    requires first { 1 ≤ check }
    requires rules { list_any is_rules passes.now ≡ false }
    ensures before { (script : Numbered) (text : Word → Option (List ℕ)) (before now : Word → ℕ) → IfErr result (EndsBefore (texts_beside forest.now.bytes text (blast passes.now check script)) before now (blast passes.now check script)) }
    ensures text { (script : Numbered) (rules : List Name) (text : Word → Option (List ℕ)) → IfOk result (IsPrepared rules (texts_beside forest.now.bytes text (blast passes.now check script)) (blast passes.now check script)) }
{
    let blasted = blasted_way(alloc, forest, passes, check, book)?;
    // Left to the end of the program, which gives back all memory at once.
    let blasted = ManuallyDrop::new(blasted);
    let mut text = Pieces::new(alloc);
    script_into(
        alloc,
        &blasted.way.table,
        &blasted.blasting.script,
        Layout::Dag,
        &mut text,
    )?;
    Ok(text)
}

/// The text of the model of the script that a model of the script over truth values stands for.
pub fn unblasted<I: Inputs>(
    alloc: Global,
    forest: &Forest,
    asked: &Carried,
    inputs: &mut I,
    book: &RuleBook,
) -> Result<Pieces, Status>
    requires read { IsRead forest.now }
    requires short { length forest.now.bytes ≤ longest_text }
    requires first { 1 ≤ asked.now.check }
    requires rules { list_any is_rules asked.now.passes ≡ false }
    ensures before { IfErr result (EndsBefore (texts_beside forest.now.bytes (I.text inputs.old) (unblasting asked.now)) (I.faults inputs.old) (I.faults inputs.new) (unblasting asked.now)) }
    ensures text { (rules : List Name) → IfOk result (IsPrepared rules (texts_beside forest.now.bytes (I.text inputs.old) (unblasting asked.now)) (unblasting asked.now)) }
{
    let blasted = blasted_way(alloc, forest, &asked.passes, asked.check, book)?;
    // Left to the end of the program, which gives back all memory at once.
    let blasted = ManuallyDrop::new(blasted);
    lifted_back(alloc, &blasted, asked, inputs)
}

/// The text of the model, before the passes, that a model in a file of the script over truth values stands for.
fn lifted_back<I: Inputs>(
    alloc: Global,
    blasted: &BlastedWay,
    asked: &Carried,
    inputs: &mut I,
) -> Result<Pieces, Status>
    requires { IsBlastedWayOfSome asked.now.passes asked.now.check blasted.now }
    ensures before { (b : List ℕ) → IsBlastedWay b asked.now.passes asked.now.check blasted.now
        → IfErr result (EndsBefore (texts_beside b (I.text inputs.old) (unblasting asked.now)) (I.faults inputs.old) (I.faults inputs.new) (unblasting asked.now)) }
    ensures text { (b : List ℕ) (rules : List Name) → IsBlastedWay b asked.now.passes asked.now.check blasted.now
        → IfOk result (IsPrepared rules (texts_beside b (I.text inputs.old) (unblasting asked.now)) (unblasting asked.now)) }
{
    let table = &blasted.way.table;
    let declared = signature_at(alloc, table, &blasted.blasting.script, 1)?;
    let model = model_in_file(alloc, inputs, asked.model, table, &declared)?;
    let model = lift(
        alloc,
        table,
        &blasted.way.behind,
        &blasted.blasting.bits,
        &model,
    )?;
    let model = back(alloc, table, &blasted.way.plan, model, asked.check)?;
    let text = printed(alloc, table, &model, &blasted.way.before)?;
    Ok(text)
}

/// A script over truth values in the place of a check, and the way over the passes to that check.
#[derive(Drop)]
struct BlastedWay {
    way: Way,
    blasting: Blasting,
}

/// Goes over the passes with a script that has a check, and makes the check one over truth values.
fn blasted_way(
    alloc: Global,
    forest: &Forest,
    passes: &Passes,
    check: u64,
    book: &RuleBook,
) -> Result<BlastedWay, Status>
    requires read { IsRead forest.now }
    requires short { length forest.now.bytes ≤ longest_text }
    requires first { 1 ≤ check }
    requires rules { list_any is_rules passes.now ≡ false }
    ensures way { IfOk result (IsBlastedWay forest.now.bytes passes.now check) }
    ensures ends { IfErr result (EndsOnTheWay forest.now.bytes check (blasting_end forest.now.bytes passes.now check)) }
{
    blasting_keeps_its_promise();
    blasted_bits_are_live();
    scripts_are_blasted();
    printable_signatures_are_proper();
    let passage = passage_over(alloc, forest, passes, check, book)?;
    let mut way = passage.way;
    let mut fresh = passage.fresh;
    let blasting = blast_check(alloc, &mut way.table, &passage.script, check, &mut fresh)?;
    Ok(BlastedWay { way, blasting })
}

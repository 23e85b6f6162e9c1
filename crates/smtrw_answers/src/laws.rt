//! The laws of what is written, each as the contract of a function that does nothing but name the laws on which it rests.

ghost use Rattle.smtrw_answers.specs.Laws.{
  RewritingKeepsItsPromise,
  WithoutRulesOneText,
  WithoutRulesOneList,
  EightWriteOneText,
  TranslatedTextsReadBack,
  ExtendedTextsReadBack,
  BlastingKeepsItsPromise,
  UnblastedTextsReadBack,
  LinkingKeepsItsPromise,
  AnsweredTextsReadBack,
  DemoScriptsAreAccepted,
  DemoScriptsAreShort,
};

use bit_scripts::laws::scripts_are_blasted;
use dimacs_link::laws::checks_are_linked;
use model_texts::laws::{
    printable_signatures_are_proper, printable_signatures_are_writable, printed_models_read_back,
};
use pass_laws::laws::{
    groups_carry_models, passes_keep_commands, passes_leave_models, removals_carry_models,
};
use script_read::{
    names_left_are_new, reading_answers, reading_gives_a_printable_script, reading_keeps_meaning,
    terms_and_forms_agree,
};
use smt_print::printing_reads_back;

/// What rewriting writes of an accepted text, in either layout, is an accepted text with the same points; at each of them each
/// live assertion has one of the same meaning in its place, every model of what is written, translated, is a model of the
/// text, and every model of the text, extended, is a model of what is written.
pub fn rewriting_keeps_its_promise()
    ensures { RewritingKeepsItsPromise }
{
    reading_answers();
    terms_and_forms_agree();
    reading_keeps_meaning();
    printing_reads_back();
}

/// A list of passes without `rules` writes one text of a text, whatever stored rules there are.
pub fn without_rules_one_text()
    ensures { WithoutRulesOneText }
{}

/// And it makes one list of commands.
pub fn without_rules_one_list()
    ensures { WithoutRulesOneList }
{}

/// Where all stored rules are among the eight, a list of passes writes one text of a text.
pub fn eight_write_one_text()
    ensures { EightWriteOneText }
{}

/// Where `translate` or `extend` ends well, what it writes reads back as the model that was carried, over what is declared at the
/// check: of the script where it translates, and of the rewritten one where it extends.
pub fn carried_texts_read_back()
    ensures translated { TranslatedTextsReadBack }
    ensures extended { ExtendedTextsReadBack }
{
    reading_answers();
    reading_gives_a_printable_script();
    names_left_are_new();
    passes_keep_commands();
    passes_leave_models();
    groups_carry_models();
    removals_carry_models();
    printable_signatures_are_proper();
    printable_signatures_are_writable();
    printed_models_read_back();
}

/// What `blast` writes of an accepted text, where it ends well, is an accepted text with one check that has no sort but Bool; every
/// model of it, carried back, is a model of the text at the check, and every model of the text there, carried forth, is a model of it.
pub fn blasting_keeps_its_promise()
    ensures { BlastingKeepsItsPromise }
{
    reading_answers();
    terms_and_forms_agree();
    reading_keeps_meaning();
    printing_reads_back();
    scripts_are_blasted();
}

/// Where `unblast` ends well, what it writes reads back as the model that was carried, over what is declared at the check.
pub fn unblasted_texts_read_back()
    ensures { UnblastedTextsReadBack }
{
    reading_answers();
    reading_gives_a_printable_script();
    names_left_are_new();
    passes_keep_commands();
    passes_leave_models();
    groups_carry_models();
    removals_carry_models();
    printable_signatures_are_proper();
    printable_signatures_are_writable();
    printed_models_read_back();
    scripts_are_blasted();
}

/// Truth values that make true the clauses that `dimacs` writes of an accepted text, where it ends well, stand for a model of the text at
/// the check, and every model of the text there makes them true.
pub fn linking_keeps_its_promise()
    ensures { LinkingKeepsItsPromise }
{
    reading_answers();
    terms_and_forms_agree();
    reading_keeps_meaning();
    checks_are_linked();
}

/// Where `answer` ends well with truth values, what it writes reads back as the model that they stand for.
pub fn answered_texts_read_back()
    ensures { AnsweredTextsReadBack }
{
    reading_answers();
    reading_gives_a_printable_script();
    names_left_are_new();
    passes_keep_commands();
    passes_leave_models();
    groups_carry_models();
    removals_carry_models();
    printable_signatures_are_proper();
    printable_signatures_are_writable();
    printed_models_read_back();
    checks_are_linked();
}

/// The script of a demonstration is accepted and no longer than a script may be.
pub fn demo_scripts_are_accepted()
    ensures accepted { DemoScriptsAreAccepted }
    ensures short { DemoScriptsAreShort }
{}

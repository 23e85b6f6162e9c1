//! The laws of passes, as the contracts of functions that do nothing. Where such a law rests on those of single forms or
//! groups, its function names them.

ghost use Rattle.pass_laws.specs.Laws.{
  PassKeepsCommands,
  PassesKeepCommands,
  RulesKeepCommands,
  EquivalentsHaveOneModel,
  PassesLeaveModels,
  PassesCarryModels,
  GroupsCarryModels,
  RemovalsCarryModels,
  StepsTellModels,
  DrawnHaveSorts,
  RemovalsTellModels,
  LevelsAreOpen,
  SignaturesLedTo,
};

use ackermann::laws::removals_keep_models;
use array_forms::laws::reads_keep_values;
use cnf_polarity::laws::cnf_makes_groups;
use ite_free::laws::ite_makes_groups;
use normal_forms::laws::{
    aig_keeps_values, nnf_keeps_values, prenex_keeps_values, selfsub_keeps_values,
    shannon_keeps_values,
};
use rule_book::laws::{eight_rewrite_so, rewriting_keeps_values};
use simplify::laws::simplify_keeps_values;
use term_groups::laws::constants_are_new;

/// Behind each of these passes, and behind a list of them, printable commands are printable again, with the same checks; at
/// each of them the same sorts, symbols and literals are live, and as many assertions, each of which has the sort of the one
/// in its place, and its value in every model. The names that are left to draw are new among those of the commands.
pub fn passes_keep_commands()
    ensures pass { PassKeepsCommands }
    ensures list { PassesKeepCommands }
{
    simplify_keeps_values();
    nnf_keeps_values();
    aig_keeps_values();
    prenex_keeps_values();
    reads_keep_values();
    shannon_keeps_values();
    selfsub_keeps_values();
}

/// What stored rules may make of printable commands is printable again, and equivalent, whatever rules they are.
pub fn rules_keep_commands()
    ensures { RulesKeepCommands }
{
    rewriting_keeps_values();
    eight_rewrite_so();
}

/// At each check, equivalent commands have the same models.
pub fn equivalents_have_one_model()
    ensures { EquivalentsHaveOneModel }
{}

/// Models carried over a list of these passes, in either direction, stay as they are.
pub fn passes_leave_models()
    ensures { PassesLeaveModels }
{}

/// A model of the commands behind a list of these passes, carried back, is a model of those before it at the same point, and a
/// model of those before it, carried forth, is one of those behind it.
pub fn passes_carry_models()
    ensures { PassesCarryModels }
{
    passes_keep_commands();
    passes_leave_models();
}

/// Behind a pass that puts groups in the place of assertions, printable commands are printable again, with the same checks; a
/// model of them, carried back, is a model of those before the pass at the same point, and a model of those before it, carried
/// forth, is one of those behind it. Models in which nothing has to hold stay models over what is declared at the point. The
/// names that are left to draw are new among those of the commands.
pub fn groups_carry_models()
    ensures { GroupsCarryModels }
{
    ite_makes_groups();
    cnf_makes_groups();
    constants_are_new();
}

/// The commands that tell what is live behind such a pass, with the symbols that each assertion brought, tell what models
/// carried over the pass are, in either direction, and which terms must be evaluated for that. They have as many checks as the
/// commands before the pass, and each symbol was drawn once.
pub fn steps_tell_models()
    ensures { StepsTellModels }
{
    ite_makes_groups();
    cnf_makes_groups();
    constants_are_new();
}

/// Each symbol that such a pass draws has the sort of the term that it stands for.
pub fn drawn_symbols_have_sorts()
    ensures { DrawnHaveSorts }
{
    ite_makes_groups();
    cnf_makes_groups();
    constants_are_new();
}

/// Behind the removal of applications, where none stands below a quantifier, printable commands are printable again, with the
/// same checks, and models are carried over it as over the other passes that make groups.
pub fn removals_carry_models()
    ensures { RemovalsCarryModels }
{
    removals_keep_models();
    constants_are_new();
}

/// The commands that tell what is live behind the removal of applications, with the new constants and what took the places of
/// operands, tell what models carried over it are, in either direction, and which terms must be evaluated for that. Each
/// constant was drawn once and has the sort of its application, and the function of each live application is declared.
pub fn removals_tell_models()
    ensures { RemovalsTellModels }
{
    removals_keep_models();
    constants_are_new();
}

/// Printable commands close no level that isn't open.
pub fn levels_are_open()
    ensures { LevelsAreOpen }
{}

/// What passes may make of commands where stored rules are among them declares at each point the sorts and symbols that the
/// definition's commands declare there: stored rules change no declaration, and no pass behind them makes groups.
pub fn signatures_stay_led()
    ensures { SignaturesLedTo }
{}

//! Lists of passes applied to scripts: behind a pass, an assertion or a group stands in the place of each assertion, with its
//! number, and other commands stay.

ghost use Rattle.std.specs.Prelude.{◌≡◌, ◌<◌, ◌∷◌, ℕ, [], true, length, slice_get, option_map, option_to_list, Some, None, All, OnOk, IfOk, MatchResult};
ghost use Rattle.script_read.specs.CommandLists.{commands_of, AreCommandsOf};
ghost use Rattle.term_subst.specs.Substituting.{IsLater, NeverGivesGained};
ghost use Rattle.term_walk.specs.Walking.{GrowsTo};
ghost use Rattle.pass_laws.specs.Led.{LeadsTo};
ghost use Rattle.pass_laws.specs.Laws.{keeps_values, IsReady, IsCarried, AreCarried};
ghost use Rattle.passes.specs.Plans.{HasStages, IsPlanOf, IsPlanOver, IsStageOver};
ghost use Rattle.passes.specs.Removing.{IsPlanKept, IsStageKept};
ghost use Rattle.pass_laws.specs.Ruling.{RewritesCommands};
ghost use Rattle.pass_laws.specs.Behind.{simplified_form, nnf_form, aig_form, reads_form, in_form, AreRewritable};
ghost use Rattle.passes.specs.Assertion.{assertion_of};
ghost use Rattle.pass_laws.specs.Passed.{refused_assertion, refused_by};
ghost use Rattle.passes.specs.declared.running.PassFault.TheVariants.{QuantifiedUse};

use crate::grouping::{Clauses, IteRemoval, group_each};
use crate::list::Passes;
use crate::plan::{Plan, Stage};
use crate::removing::remove_each;
use crate::rewriters::{
    Expansion, Inversion, Negation, Prefix, Reading, Rewriter, SelfSubstitution, Simplification,
};
use normal_forms::room::make_room;
use pass_laws::Pass;
use pass_laws::laws::{
    drawn_symbols_have_sorts, equivalents_have_one_model, groups_carry_models,
    passes_keep_commands, passes_leave_models, removals_carry_models, rules_keep_commands,
};
use rule_book::{Named, RuleBook, apply};
use script_read::{Command, Commands, Script, checks};
use smt_terms::NodeId;
use std::alloc::{AllocError, AllocFailed, Global};
use std::marker::Brand;
use std::sync::ledger::{Blank, Ledger};
use term_subst::Fresh;
use term_table::Table;
use term_walk::{Kept, Steps};
use thiserror::Error;

/// Why passes make no script of a script.
#[derive(Clone, Copy, Debug, PartialEq, Eq, Error)]
pub enum PassFault {
    /// In this assertion an application stands below a quantifier, where applications are to be removed. It is the least
    /// number of such an assertion at the first pass that meets one.
    #[error("an application below a quantifier in assertion {assertion}")]
    QuantifiedUse { assertion: u64 },
    /// There is no memory.
    #[error("want of memory")]
    Memory,
}

impl From<AllocError> for PassFault {
    ghost use Rattle.std.specs.Prelude.{◌≡◌};
    ghost use Rattle.passes.specs.declared.running.PassFault.TheVariants.{Memory};

    ghost from_gives = { λ _ made. made ≡ Memory };

    fn from(_error: AllocError) -> PassFault {
        PassFault::Memory
    }
}

impl<T: Drop> From<AllocFailed<T>> for PassFault {
    ghost use Rattle.std.specs.Prelude.{◌≡◌};
    ghost use Rattle.passes.specs.declared.running.PassFault.TheVariants.{Memory};

    ghost from_gives = { λ _ made. made ≡ Memory };

    fn from(_error: AllocFailed<T>) -> PassFault {
        PassFault::Memory
    }
}

/// The script behind the passes, from the first to the last: behind each, what the pass makes of an assertion stands in its
/// place, with its number, and all other commands stay. `rules` asks those of the book. The script has to be printable, and so
/// is the answer; at each check every model of the answer, carried back over the passes, is one of the script, and every model
/// of the script, carried forth, is one of the answer. Where no pass makes groups, as many assertions are live in both, each
/// with the value of the one in its place in every model. The plan tells how models are carried. After a refusal the script is
/// given up; the table only gains, and names that were drawn aren't drawn again.
pub fn run_passes(
    alloc: Global,
    table: &mut Table,
    script: Script,
    passes: &Passes,
    book: &RuleBook,
    fresh: &mut Fresh,
) -> Result<(Script, Plan), PassFault>
    requires numbers { AreCommandsOf table.old script.commands }
    requires ready { IsReady (commands_of table.old script.commands) fresh.old }
    ensures numbers { IfOk result (λ r. AreCommandsOf table.new r.0.commands) }
    ensures leads { IfOk result (λ r. LeadsTo passes.now (commands_of table.old script.commands) fresh.old (⟦<RuleBook as Named>⟧.names book.now) (commands_of table.new r.0.commands) fresh.new) }
    ensures carried { IfOk result (λ r. AreCarried passes.now (commands_of table.old script.commands) (commands_of table.new r.0.commands) fresh.old fresh.new) }
    ensures refused { MatchResult result
        (λ _. refused_assertion passes.now (commands_of table.old script.commands) fresh.old ≡ None)
        (λ e. (a : ℕ) → e ≡ QuantifiedUse a → refused_assertion passes.now (commands_of table.old script.commands) fresh.old ≡ Some a) }
    ensures plan { IfOk result (λ r. IsPlanOf table.new r.1 passes.now (commands_of table.old script.commands) fresh.old) }
    ensures over { IfOk result (λ r. IsPlanOver table.new r.1) }
    ensures kept { IfOk result (λ r. IsPlanKept table.new r.1) }
    ensures later { IsLater fresh.old fresh.new }
    ensures drawn { NeverGivesGained fresh.new table.old.symbols table.new.symbols }
    ensures grows { GrowsTo table.old table.new }
{
    let mut script = script;
    let checks = checks(&script);
    let mut stages = Vec::new(alloc);
    for i in 0..passes.len() {
        let stage = run_pass(alloc, table, &mut script, passes.pass(i), book, fresh)?;
        if let Some(stage) = stage {
            stages.push(stage)?;
        }
    }
    Ok((script, Plan { stages, checks }))
}

/// Puts one assertion or a group in the place of each, as the pass says; and answers what a pass that makes groups drew.
fn run_pass(
    alloc: Global,
    table: &mut Table,
    script: &mut Script,
    pass: Pass,
    book: &RuleBook,
    fresh: &mut Fresh,
) -> Result<Option<Stage>, PassFault>
    requires numbers { AreCommandsOf table.old script.old.commands }
    requires ready { IsReady (commands_of table.old script.old.commands) fresh.old }
    ensures numbers { OnOk result (AreCommandsOf table.new script.new.commands) }
    ensures leads { OnOk result (LeadsTo (pass ∷ []) (commands_of table.old script.old.commands) fresh.old (⟦<RuleBook as Named>⟧.names book.now) (commands_of table.new script.new.commands) fresh.new) }
    ensures carried { OnOk result (IsCarried pass (commands_of table.old script.old.commands) (commands_of table.new script.new.commands) fresh.old fresh.new) }
    ensures refused { MatchResult result
        (λ _. refused_by pass (commands_of table.old script.old.commands) ≡ None)
        (λ e. (a : ℕ) → e ≡ QuantifiedUse a → refused_by pass (commands_of table.old script.old.commands) ≡ Some a) }
    ensures stage { IfOk result (λ o. HasStages table.new (option_to_list o) (pass ∷ []) (commands_of table.old script.old.commands) fresh.old) }
    ensures over { IfOk result (λ o. All (IsStageOver table.new) (option_to_list o)) }
    ensures kept { IfOk result (λ o. All (IsStageKept table.new) (option_to_list o)) }
    ensures later { IsLater fresh.old fresh.new }
    ensures drawn { NeverGivesGained fresh.new table.old.symbols table.new.symbols }
    ensures grows { GrowsTo table.old table.new }
{
    groups_carry_models();
    removals_carry_models();
    drawn_symbols_have_sorts();
    match pass {
        Pass::Ite => {
            let stage = group_each(alloc, table, script, &mut IteRemoval { alloc }, fresh)?;
            Ok(Some(stage))
        }
        Pass::Cnf => {
            let stage = group_each(alloc, table, script, &mut Clauses { alloc }, fresh)?;
            Ok(Some(stage))
        }
        Pass::Ackermann => {
            let stage = remove_each(alloc, table, script, fresh)?;
            Ok(Some(stage))
        }
        _ => {
            run_rewriter(alloc, table, script, pass, book, fresh)?;
            Ok(None)
        }
    }
}

/// Puts one assertion in the place of each, as the pass says.
fn run_rewriter(
    alloc: Global,
    table: &mut Table,
    script: &mut Script,
    pass: Pass,
    book: &RuleBook,
    fresh: &mut Fresh,
) -> Result<(), AllocError>
    requires pass { keeps_values pass ≡ true }
    requires numbers { AreCommandsOf table.old script.old.commands }
    requires ready { IsReady (commands_of table.old script.old.commands) fresh.old }
    ensures numbers { OnOk result (AreCommandsOf table.new script.new.commands) }
    ensures leads { OnOk result (LeadsTo (pass ∷ []) (commands_of table.old script.old.commands) fresh.old (⟦<RuleBook as Named>⟧.names book.now) (commands_of table.new script.new.commands) fresh.new) }
    ensures carried { OnOk result (IsCarried pass (commands_of table.old script.old.commands) (commands_of table.new script.new.commands) fresh.old fresh.new) }
    ensures later { IsLater fresh.old fresh.new }
    ensures drawn { NeverGivesGained fresh.new table.old.symbols table.new.symbols }
    ensures grows { GrowsTo table.old table.new }
{
    passes_keep_commands();
    passes_leave_models();
    rules_keep_commands();
    equivalents_have_one_model();
    match pass {
        Pass::Simplify => simplify_each::<Brand>(alloc, table, script, fresh, Blank::new(1)),
        Pass::Nnf => negate::<Brand>(alloc, table, script, fresh, Blank::new(1)),
        Pass::Aig => invert::<Brand>(alloc, table, script, fresh, Blank::new(1)),
        Pass::Prenex => rewrite_each(table, script, &mut Prefix { alloc }, fresh),
        Pass::Reads => tell_reads::<Brand>(alloc, table, script, fresh, Blank::new(1)),
        Pass::Shannon => rewrite_each(table, script, &mut Expansion { alloc }, fresh),
        Pass::SelfSub => rewrite_each(table, script, &mut SelfSubstitution { alloc }, fresh),
        Pass::Rules => ask_rules::<Brand>(alloc, table, script, book, Blank::new(1)),
        Pass::Ite | Pass::Cnf | Pass::Ackermann => unreachable!(),
    }
}

/// `simplify`, with its steps counted in a ledger of their own.
fn simplify_each<L: Ledger>(
    alloc: Global,
    table: &mut Table,
    script: &mut Script,
    fresh: &mut Fresh,
    blank: Blank,
) -> Result<(), AllocError>
    requires name { blank.name ≡ L.name }
    requires parts { blank.parts ≡ L.parts }
    requires some { 0 < L.parts }
    requires numbers { AreCommandsOf table.old script.old.commands }
    requires ready { AreRewritable (commands_of table.old script.old.commands) fresh.old }
    ensures numbers { OnOk result (AreCommandsOf table.new script.new.commands) }
    ensures commands { OnOk result (commands_of table.new script.new.commands ≡ (in_form simplified_form (commands_of table.old script.old.commands) fresh.old).0) }
    ensures left { OnOk result (fresh.new ≡ (in_form simplified_form (commands_of table.old script.old.commands) fresh.old).1) }
    ensures later { IsLater fresh.old fresh.new }
    ensures drawn { NeverGivesGained fresh.new table.old.symbols table.new.symbols }
    ensures grows { GrowsTo table.old table.new }
{
    let mut simplification = Simplification {
        alloc,
        kept: Kept::new(alloc),
        steps: Steps::<L>::new(blank),
    };
    rewrite_each(table, script, &mut simplification, fresh)?;
    Ok(())
}

/// `nnf`, with its steps counted in a ledger of their own, in a table that has room for what is made.
fn negate<L: Ledger>(
    alloc: Global,
    table: &mut Table,
    script: &mut Script,
    fresh: &mut Fresh,
    blank: Blank,
) -> Result<(), AllocError>
    requires name { blank.name ≡ L.name }
    requires parts { blank.parts ≡ L.parts }
    requires some { 0 < L.parts }
    requires numbers { AreCommandsOf table.old script.old.commands }
    requires ready { AreRewritable (commands_of table.old script.old.commands) fresh.old }
    ensures numbers { OnOk result (AreCommandsOf table.new script.new.commands) }
    ensures commands { OnOk result (commands_of table.new script.new.commands ≡ (in_form nnf_form (commands_of table.old script.old.commands) fresh.old).0) }
    ensures left { OnOk result (fresh.new ≡ (in_form nnf_form (commands_of table.old script.old.commands) fresh.old).1) }
    ensures later { IsLater fresh.old fresh.new }
    ensures drawn { NeverGivesGained fresh.new table.old.symbols table.new.symbols }
    ensures grows { GrowsTo table.old table.new }
{
    make_room(table);
    let mut negation = Negation {
        alloc,
        kept: Kept::new(alloc),
        steps: Steps::<L>::new(blank),
    };
    rewrite_each(table, script, &mut negation, fresh)?;
    Ok(())
}

/// `aig`, with its steps counted in a ledger of their own.
fn invert<L: Ledger>(
    alloc: Global,
    table: &mut Table,
    script: &mut Script,
    fresh: &mut Fresh,
    blank: Blank,
) -> Result<(), AllocError>
    requires name { blank.name ≡ L.name }
    requires parts { blank.parts ≡ L.parts }
    requires some { 0 < L.parts }
    requires numbers { AreCommandsOf table.old script.old.commands }
    requires ready { AreRewritable (commands_of table.old script.old.commands) fresh.old }
    ensures numbers { OnOk result (AreCommandsOf table.new script.new.commands) }
    ensures commands { OnOk result (commands_of table.new script.new.commands ≡ (in_form aig_form (commands_of table.old script.old.commands) fresh.old).0) }
    ensures left { OnOk result (fresh.new ≡ (in_form aig_form (commands_of table.old script.old.commands) fresh.old).1) }
    ensures later { IsLater fresh.old fresh.new }
    ensures drawn { NeverGivesGained fresh.new table.old.symbols table.new.symbols }
    ensures grows { GrowsTo table.old table.new }
{
    let mut inversion = Inversion {
        alloc,
        kept: Kept::new(alloc),
        steps: Steps::<L>::new(blank),
    };
    rewrite_each(table, script, &mut inversion, fresh)?;
    Ok(())
}

/// `reads`, with its steps counted in a ledger of their own.
fn tell_reads<L: Ledger>(
    alloc: Global,
    table: &mut Table,
    script: &mut Script,
    fresh: &mut Fresh,
    blank: Blank,
) -> Result<(), AllocError>
    requires name { blank.name ≡ L.name }
    requires parts { blank.parts ≡ L.parts }
    requires some { 0 < L.parts }
    requires numbers { AreCommandsOf table.old script.old.commands }
    requires ready { AreRewritable (commands_of table.old script.old.commands) fresh.old }
    ensures numbers { OnOk result (AreCommandsOf table.new script.new.commands) }
    ensures commands { OnOk result (commands_of table.new script.new.commands ≡ (in_form reads_form (commands_of table.old script.old.commands) fresh.old).0) }
    ensures left { OnOk result (fresh.new ≡ (in_form reads_form (commands_of table.old script.old.commands) fresh.old).1) }
    ensures later { IsLater fresh.old fresh.new }
    ensures drawn { NeverGivesGained fresh.new table.old.symbols table.new.symbols }
    ensures grows { GrowsTo table.old table.new }
{
    let mut reading = Reading {
        alloc,
        kept: Kept::new(alloc),
        steps: Steps::<L>::new(blank),
    };
    rewrite_each(table, script, &mut reading, fresh)?;
    Ok(())
}

/// `rules`, with its steps counted in a ledger of their own.
fn ask_rules<L: Ledger>(
    alloc: Global,
    table: &mut Table,
    script: &mut Script,
    book: &RuleBook,
    blank: Blank,
) -> Result<(), AllocError>
    requires name { blank.name ≡ L.name }
    requires parts { blank.parts ≡ L.parts }
    requires some { 0 < L.parts }
    requires numbers { AreCommandsOf table.old script.old.commands }
    ensures numbers { OnOk result (AreCommandsOf table.new script.new.commands) }
    ensures rewrites { OnOk result (RewritesCommands (⟦<RuleBook as Named>⟧.names book.now) (commands_of table.old script.old.commands) (commands_of table.new script.new.commands)) }
    ensures symbols { table.new.symbols ≡ table.old.symbols }
    ensures grows { GrowsTo table.old table.new }
{
    let mut kept = Kept::new(alloc);
    let mut steps = Steps::<L>::new(blank);
    for i in 0..script.commands.len() {
        if let Some((id, number)) = assertion_at(&script.commands, i) {
            let ruled = apply(alloc, table, book, id, &mut kept, &mut steps)?;
            script
                .commands
                .replace(i, Command::Assert { id: ruled, number });
        }
    }
    Ok(())
}

/// Rewrites each assertion in its place, from the first to the last.
fn rewrite_each<R: Rewriter>(
    table: &mut Table,
    script: &mut Script,
    rewriter: &mut R,
    fresh: &mut Fresh,
) -> Result<(), AllocError>
    requires numbers { AreCommandsOf table.old script.old.commands }
    requires ready { AreRewritable (commands_of table.old script.old.commands) fresh.old }
    requires fits { R.fits rewriter.old table.old }
    ensures numbers { OnOk result (AreCommandsOf table.new script.new.commands) }
    ensures commands { OnOk result (commands_of table.new script.new.commands ≡ (in_form R.form (commands_of table.old script.old.commands) fresh.old).0) }
    ensures left { OnOk result (fresh.new ≡ (in_form R.form (commands_of table.old script.old.commands) fresh.old).1) }
    ensures later { IsLater fresh.old fresh.new }
    ensures drawn { NeverGivesGained fresh.new table.old.symbols table.new.symbols }
    ensures grows { GrowsTo table.old table.new }
{
    for i in 0..script.commands.len() {
        if let Some((id, number)) = assertion_at(&script.commands, i) {
            let id = rewriter.rewrite(table, id, fresh)?;
            script.commands.replace(i, Command::Assert { id, number });
        }
    }
    Ok(())
}

/// The node and the number of the assertion at a place; None where another command stands there.
fn assertion_at(commands: &Commands, i: usize) -> Option<(NodeId, u64)>
    requires { i < length commands.now }
    ensures { option_map assertion_of (slice_get commands.now i) ≡ Some result }
{
    match commands.get(i) {
        Command::Assert { id, number } => Some((*id, *number)),
        _ => None,
    }
}

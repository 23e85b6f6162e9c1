//! The pass `ackermann`: each application of a function gives way to a constant, and what equal arguments say of two constants
//! of one function is asserted before the assertion. Applications are live on the level of their assertion and on those
//! above it. Declarations of functions with arguments go.

ghost use Rattle.std.specs.Prelude.{◌≡◌, ◌≤◌, ◌++◌, ◌∷◌, [], ℕ, if◌then◌else◌, length, map, drop, flat_map, option_to_list, Option, Some, None, All, IfOk, IfSome, OnOk, MatchResult};
ghost use Rattle.normal_forms.specs.Nodes.{IsFormula};
ghost use Rattle.smt_terms.specs.Fresh.{Supply};
ghost use Rattle.smt_terms.specs.Groups.{Named};
ghost use Rattle.ackermann.specs.Ackermann.{one_level, live};
ghost use Rattle.ackermann.specs.LevelsAt.{levels_at, open_levels, AreLiveIn};
ghost use Rattle.script_read.specs.CommandLists.{command_of, commands_of, IsCommandOf, AreCommandsOf};
ghost use Rattle.script_read.specs.Commands.{assert};
ghost use Rattle.term_groups.specs.Seen.{named_at};
ghost use Rattle.term_subst.specs.Substituting.{IsLater, NeverGivesGained};
ghost use Rattle.term_table.specs.Formulas.{Formulas, tree};
ghost use Rattle.term_walk.specs.Walking.{GrowsTo};
ghost use Rattle.pass_laws.specs.declared.names.Pass.TheVariants.{Ackermann};
ghost use Rattle.passes.specs.declared.running.PassFault.TheVariants.{QuantifiedUse};
ghost use Rattle.pass_laws.specs.Behind.{IsRewritable};
ghost use Rattle.pass_laws.specs.Laws.{IsReady};
ghost use Rattle.pass_laws.specs.LiveGroups.{opened_by};
ghost use Rattle.pass_laws.specs.Passed.{apply_pass, least, onward, quantified_use, refused_by};
ghost use Rattle.passes.specs.Plans.{steps_of, told_by, uses_of, Uses, HaveUses, IsStageOf, IsStageOver, IsStepOf};
ghost use Rattle.passes.specs.Removing.{keys_of, kept_of, AreApart, AreKept, ClosesOpen, Goes, IsRemovalOver, Keeps};

use crate::grouping::spell;
use crate::plan::{Stage, Step, Use, has_arguments};
use crate::running::PassFault;
use ackermann::{Ack, AckFault, has_quantified_use};
use indexmap::IndexMap;
use pass_laws::laws::{levels_are_open, removals_tell_models};
use script_read::{Command, Commands, Script};
use smt_terms::{NodeId, SymId};
use std::alloc::{AllocError, Global};
use term_groups::laws::constants_are_new;
use term_subst::{Fresh, Group};
use term_table::{Table, know_table};

/// A removal that went over a part of a script.
#[derive(Drop)]
pub(crate) struct Removal {
    ack: Ack,
    /// The commands behind the pass.
    commands: Commands,
    steps: Vec<Step>,
    uses: IndexMap<SymId, Use>,
}

impl Removal {
    fn new(alloc: Global) -> Removal
        ensures commands { result.commands ≡ [] }
        ensures steps { result.steps.items ≡ [] }
        ensures uses { result.uses.entries ≡ [] }
        ensures levels { (t : Formulas) → levels_at t result.ack ≡ one_level }
        ensures live { (t : Formulas) → AreLiveIn t result.ack }
        ensures open { open_levels result.ack ≡ 0 }
    {
        Removal {
            ack: Ack::new(alloc),
            commands: Commands::new(alloc),
            steps: Vec::new(alloc),
            uses: IndexMap::new(alloc),
        }
    }

    /// Goes over a command.
    fn meet(
        &mut self,
        alloc: Global,
        table: &mut Table,
        command: Command,
        fresh: &mut Fresh,
    ) -> Result<(), PassFault>
        requires over { IsRemovalOver table.old fresh.old self.old }
        requires command { IsCommandOf table.old command }
        requires ready { IsRewritable fresh.old (command_of table.old command) }
        requires closes { ClosesOpen command self.old.ack }
        ensures over { OnOk result (IsRemovalOver table.new fresh.new self.new) }
        ensures goes { OnOk result (Goes table.old table.new (command_of table.old command) fresh.old fresh.new self.old self.new) }
        ensures refused { MatchResult result
            (λ _. quantified_use (command_of table.old command) ≡ [])
            (λ e. (a : ℕ) → e ≡ QuantifiedUse a → quantified_use (command_of table.old command) ≡ a ∷ []) }
        ensures later { IsLater fresh.old fresh.new }
        ensures drawn { NeverGivesGained fresh.new table.old.symbols table.new.symbols }
        ensures grows { GrowsTo table.old table.new }
    {
        match command {
            Command::Assert { id, number } => self.remove(alloc, table, id, number, fresh),
            other => {
                open_or_close(alloc, &mut self.ack, &other)?;
                keep(table, &mut self.commands, &mut self.steps, other)?;
                Ok(())
            }
        }
    }

    /// Puts a group in the place of an assertion.
    fn remove(
        &mut self,
        alloc: Global,
        table: &mut Table,
        id: NodeId,
        number: u64,
        fresh: &mut Fresh,
    ) -> Result<(), PassFault>
        requires over { IsRemovalOver table.old fresh.old self.old }
        requires formula { IsFormula table.old id }
        ensures over { OnOk result (IsRemovalOver table.new fresh.new self.new) }
        ensures goes { OnOk result (Goes table.old table.new (assert number (tree table.old id)) fresh.old fresh.new self.old self.new) }
        ensures refused { MatchResult result
            (λ _. quantified_use (assert number (tree table.old id)) ≡ [])
            (λ e. (a : ℕ) → e ≡ QuantifiedUse a → quantified_use (assert number (tree table.old id)) ≡ a ∷ []) }
        ensures later { IsLater fresh.old fresh.new }
        ensures drawn { NeverGivesGained fresh.new table.old.symbols table.new.symbols }
        ensures grows { GrowsTo table.old table.new }
    {
        constants_are_new();
        let group = match self.ack.assert(alloc, table, id, fresh) {
            Ok(group) => group,
            Err(AckFault::QuantifiedUse) => {
                return Err(PassFault::QuantifiedUse { assertion: number });
            }
            Err(AckFault::Memory) => return Err(PassFault::Memory),
        };
        spell(&mut self.commands, &group, number)?;
        keep_uses(alloc, &self.ack, &mut self.uses, &group)?;
        let symbols = group.symbols;
        self.steps.push(Step::Group { number, symbols })?;
        Ok(())
    }
}

/// Keeps the applications of the constants of a group, which are the last ones that are live.
fn keep_uses(
    alloc: Global,
    ack: &Ack,
    uses: &mut IndexMap<SymId, Use>,
    group: &Group,
) -> Result<(), AllocError>
    requires places { length group.now.symbols ≤ length ack.now.uses }
    requires apart { AreApart (keys_of uses.old.entries ++ map (λ p. p.0) group.now.symbols) }
    ensures keys { OnOk result (keys_of uses.new.entries ≡ keys_of uses.old.entries ++ map (λ p. p.0) group.now.symbols) }
    ensures keeps { OnOk result ((t : Formulas) (earlier : Named) → AreLiveIn t ack.now → live (levels_at t ack.now) ≡ earlier ++ named_at t group.now.symbols
        → Keeps t (live (levels_at t ack.now)) group.now.symbols uses.old.entries uses.new.entries) }
{
    let before = ack.len() - group.symbols.len();
    for i in 0..group.symbols.len() {
        let (constant, _) = group.symbols.get(i);
        let (function, operands) = ack.application(before + i);
        let operands = operands.to_vec(alloc)?;
        uses.insert(constant, Use { function, operands })?;
    }
    Ok(())
}

/// Opens and closes levels as a command does.
fn open_or_close(alloc: Global, ack: &mut Ack, command: &Command) -> Result<(), AllocError>
    requires closes { ClosesOpen command.now ack.old }
    ensures levels { OnOk result ((t : Formulas) (s : Supply) → onward (command_of t command.now) (record { levels = levels_at t ack.old; names = s }) ≡ record { levels = levels_at t ack.new; names = s }) }
    ensures live { OnOk result ((t : Formulas) → AreLiveIn t ack.old → AreLiveIn t ack.new) }
    ensures open { OnOk result ((t : Formulas) → open_levels ack.new ≡ opened_by (command_of t command.now) (open_levels ack.old)) }
{
    match command {
        Command::Push(levels) => ack.push(*levels),
        Command::Pop(levels) => {
            ack.pop(*levels);
            Ok(())
        }
        Command::Reset | Command::ResetAssertions => {
            *ack = Ack::new(alloc);
            Ok(())
        }
        _ => Ok(()),
    }
}

/// Keeps the step of a command that asserts nothing, and the command, unless it declares a function with arguments.
fn keep(
    table: &Table,
    commands: &mut Commands,
    steps: &mut Vec<Step>,
    command: Command,
) -> Result<(), AllocError>
    requires command { IsCommandOf table.now command }
    ensures steps { OnOk result (steps_of table.now steps.new.items ≡ steps_of table.now steps.old.items ++ told_by table.now command) }
    ensures numbers { OnOk result (All (IsStepOf table.now) steps.old.items → All (IsStepOf table.now) steps.new.items) }
    ensures uses { OnOk result ((uses : Option Uses) → All (HaveUses table.now uses) steps.old.items → All (HaveUses table.now uses) steps.new.items) }
    ensures commands { OnOk result (commands_of table.now commands.new ≡ commands_of table.now commands.old ++ kept_of (command_of table.now command)) }
    ensures within { OnOk result (AreCommandsOf table.now commands.old → AreCommandsOf table.now commands.new) }
{
    if let Some(step) = Step::of(table, &command) {
        steps.push(step)?;
    }
    if !stays(table, &command) {
        return Ok(());
    }
    commands.push(command)?;
    Ok(())
}

/// Whether a command that asserts nothing stays: it declares no function with arguments.
fn stays(table: &Table, command: &Command) -> bool
    requires { IsCommandOf table.now command.now }
    ensures { kept_of (command_of table.now command.now) ≡ (if result then command_of table.now command.now ∷ [] else []) }
{
    match command {
        Command::Declare(symbol) => !has_arguments(table, *symbol),
        _ => true,
    }
}

/// The least of this number and those of the assertions from a place on in which an application stands below a quantifier.
fn least_refused(
    alloc: Global,
    table: &Table,
    commands: &Commands,
    start: usize,
    first: u64,
) -> Result<u64, AllocError>
    requires numbers { AreCommandsOf table.now (drop start commands.now) }
    ensures { IfOk result (λ n. least (first ∷ flat_map quantified_use (commands_of table.now (drop start commands.now))) ≡ Some n) }
{
    let mut least = first;
    for i in start..commands.len() {
        if let Some(number) = quantified_use(alloc, table, commands.get(i))? {
            least = least.min(number);
        }
    }
    Ok(least)
}

/// The number of an assertion in which an application stands below a quantifier.
fn quantified_use(
    alloc: Global,
    table: &Table,
    command: &Command,
) -> Result<Option<u64>, AllocError>
    requires { IsCommandOf table.now command.now }
    ensures { IfOk result (λ o. quantified_use (command_of table.now command.now) ≡ option_to_list o) }
{
    match command {
        Command::Assert { id, number } if has_quantified_use(alloc, table, *id)? => {
            Ok(Some(*number))
        }
        _ => Ok(None),
    }
}

/// The refusal of a script, from that of a command before a place, where no command before that one was refused.
fn refusal(
    alloc: Global,
    table: &Table,
    commands: &Commands,
    start: usize,
    fault: PassFault,
) -> PassFault
    requires numbers { AreCommandsOf table.now (drop start commands.now) }
    ensures { (a : ℕ) → result ≡ QuantifiedUse a → (first : ℕ) × (fault ≡ QuantifiedUse first) × (least (first ∷ flat_map quantified_use (commands_of table.now (drop start commands.now))) ≡ Some a) }
{
    match fault {
        PassFault::Memory => PassFault::Memory,
        PassFault::QuantifiedUse { assertion } => {
            match least_refused(alloc, table, commands, start, assertion) {
                Ok(assertion) => PassFault::QuantifiedUse { assertion },
                Err(_) => PassFault::Memory,
            }
        }
    }
}

/// Removes applications from each assertion, from the first to the last, and answers what was drawn and where it is live. It is
/// refused where an application stands below a quantifier, with the least number of such an assertion.
pub(crate) fn remove_each(
    alloc: Global,
    table: &mut Table,
    script: &mut Script,
    fresh: &mut Fresh,
) -> Result<Stage, PassFault>
    requires numbers { AreCommandsOf table.old script.old.commands }
    requires ready { IsReady (commands_of table.old script.old.commands) fresh.old }
    ensures numbers { OnOk result (AreCommandsOf table.new script.new.commands) }
    ensures commands { OnOk result (commands_of table.new script.new.commands ≡ (apply_pass Ackermann (commands_of table.old script.old.commands) fresh.old).0) }
    ensures left { OnOk result (fresh.new ≡ (apply_pass Ackermann (commands_of table.old script.old.commands) fresh.old).1) }
    ensures refused { MatchResult result
        (λ _. refused_by Ackermann (commands_of table.old script.old.commands) ≡ None)
        (λ e. (a : ℕ) → e ≡ QuantifiedUse a → refused_by Ackermann (commands_of table.old script.old.commands) ≡ Some a) }
    ensures stage { IfOk result (λ stage. IsStageOf table.new stage Ackermann (commands_of table.old script.old.commands) fresh.old) }
    ensures over { IfOk result (λ stage. IsStageOver table.new stage) }
    ensures kept { IfOk result (λ stage. IfSome (uses_of stage) (AreKept table.new)) }
    ensures later { IsLater fresh.old fresh.new }
    ensures drawn { NeverGivesGained fresh.new table.old.symbols table.new.symbols }
    ensures grows { GrowsTo table.old table.new }
{
    levels_are_open();
    removals_tell_models();
    let mut removal = Removal::new(alloc);
    for i in 0..script.commands.len() {
        let command = script.commands.take(i);
        if let Err(fault) = removal.meet(alloc, table, command, fresh) {
            return Err(refusal(alloc, table, &script.commands, i + 1, fault));
        }
    }
    know_table(table);
    script.commands = removal.commands;
    Ok(Stage {
        steps: removal.steps,
        uses: Some(removal.uses),
    })
}

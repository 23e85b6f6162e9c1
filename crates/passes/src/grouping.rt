//! Passes that put a group in the place of each assertion, `ite` and `cnf`: the declarations of its new symbols, and then its
//! assertions, with the number of the one that they replace. Other commands stay.

ghost use Rattle.std.specs.Prelude.{◌≡◌, ◌++◌, ◌∷◌, [], option_to_list, None, IfOk, OnOk};
ghost use Rattle.normal_forms.specs.Nodes.{IsFormula};
ghost use Rattle.script_read.specs.CommandLists.{command_of, commands_of, IsCommandOf, AreCommandsOf};
ghost use Rattle.term_groups.specs.Seen.{IsGroup};
ghost use Rattle.term_subst.specs.Substituting.{IsLater, NeverGivesGained};
ghost use Rattle.term_table.specs.Formulas.{tree};
ghost use Rattle.term_walk.specs.Walking.{GrowsTo};
ghost use Rattle.pass_laws.specs.Behind.{IsRewritable, AreRewritable};
ghost use Rattle.pass_laws.specs.Groups.{groups_from, in_groups, node_commands};
ghost use Rattle.passes.specs.Plans.{uses_of, Tells};

use crate::plan::{Stage, Step};
use cnf_polarity::cnf;
use ite_free::remove_ite;
use script_read::{Command, Commands, Script};
use smt_terms::NodeId;
use std::alloc::{AllocError, Global};
use term_subst::{Fresh, Group};
use term_table::Table;

/// Makes a group in the place of a formula.
pub(crate) trait Grouper {
    ghost use Rattle.pass_laws.specs.Groups.{Making};

    /// What takes the place of a formula, and the names that are left.
    ghost making: { Making };

    fn group(
        &mut self,
        table: &mut Table,
        id: NodeId,
        fresh: &mut Fresh,
    ) -> Result<Group, AllocError>
        requires formula { IsFormula table.old id }
        ensures group { IfOk result (λ g. IsGroup table.new g (Self.making (tree table.old id) fresh.old).group) }
        ensures left { OnOk result (fresh.new ≡ (Self.making (tree table.old id) fresh.old).names) }
        ensures later { IsLater fresh.old fresh.new }
        ensures drawn { NeverGivesGained fresh.new table.old.symbols table.new.symbols }
        ensures grows { GrowsTo table.old table.new };
}

/// `ite`.
#[derive(Clone, Copy)]
pub(crate) struct IteRemoval {
    pub(crate) alloc: Global,
}

impl Grouper for IteRemoval {
    ghost use Rattle.ite_free.specs.Ite.{ite};

    ghost making = { ite };

    fn group(
        &mut self,
        table: &mut Table,
        id: NodeId,
        fresh: &mut Fresh,
    ) -> Result<Group, AllocError> {
        remove_ite(self.alloc, table, id, fresh)
    }
}

/// `cnf`.
#[derive(Clone, Copy)]
pub(crate) struct Clauses {
    pub(crate) alloc: Global,
}

impl Grouper for Clauses {
    ghost use Rattle.cnf_polarity.specs.Cnf.{cnf};

    ghost making = { cnf };

    fn group(
        &mut self,
        table: &mut Table,
        id: NodeId,
        fresh: &mut Fresh,
    ) -> Result<Group, AllocError> {
        cnf(self.alloc, table, id, fresh)
    }
}

/// Puts the commands of a group last: it declares its symbols and asserts its assertions, each with this number.
pub(crate) fn spell(commands: &mut Commands, group: &Group, number: u64) -> Result<(), AllocError>
    ensures { OnOk result (commands.new ≡ commands.old ++ node_commands number group.now) }
{
    for i in 0..group.symbols.len() {
        let (symbol, _) = group.symbols.get(i);
        commands.push(Command::Declare(symbol))?;
    }
    for i in 0..group.asserts.len() {
        let id = group.asserts.get(i);
        commands.push(Command::Assert { id, number })?;
    }
    Ok(())
}

/// Puts a command last, or the group in the place of an assertion. It answers the command's step, where it has one.
fn regroup<G: Grouper>(
    table: &mut Table,
    commands: &mut Commands,
    command: Command,
    grouper: &mut G,
    fresh: &mut Fresh,
) -> Result<Option<Step>, AllocError>
    requires command { IsCommandOf table.old command }
    requires ready { IsRewritable fresh.old (command_of table.old command) }
    requires commands { AreCommandsOf table.old commands.old }
    ensures numbers { OnOk result (AreCommandsOf table.new commands.new) }
    ensures commands { OnOk result (commands_of table.new commands.new ≡ commands_of table.old commands.old ++ (in_groups G.making (command_of table.old command ∷ []) fresh.old).0) }
    ensures left { OnOk result (fresh.new ≡ (in_groups G.making (command_of table.old command ∷ []) fresh.old).1) }
    ensures step { IfOk result (λ o. Tells table.new (option_to_list o) (groups_from G.making (command_of table.old command ∷ []) fresh.old).0) }
    ensures later { IsLater fresh.old fresh.new }
    ensures drawn { NeverGivesGained fresh.new table.old.symbols table.new.symbols }
    ensures grows { GrowsTo table.old table.new }
{
    match command {
        Command::Assert { id, number } => {
            let group = grouper.group(table, id, fresh)?;
            spell(commands, &group, number)?;
            let symbols = group.symbols;
            Ok(Some(Step::Group { number, symbols }))
        }
        other => {
            let step = Step::of(table, &other);
            commands.push(other)?;
            Ok(step)
        }
    }
}

/// Puts a group in the place of each assertion, from the first to the last, and answers what was drawn and where it is live.
pub(crate) fn group_each<G: Grouper>(
    alloc: Global,
    table: &mut Table,
    script: &mut Script,
    grouper: &mut G,
    fresh: &mut Fresh,
) -> Result<Stage, AllocError>
    requires numbers { AreCommandsOf table.old script.old.commands }
    requires ready { AreRewritable (commands_of table.old script.old.commands) fresh.old }
    ensures numbers { OnOk result (AreCommandsOf table.new script.new.commands) }
    ensures commands { OnOk result (commands_of table.new script.new.commands ≡ (in_groups G.making (commands_of table.old script.old.commands) fresh.old).0) }
    ensures left { OnOk result (fresh.new ≡ (in_groups G.making (commands_of table.old script.old.commands) fresh.old).1) }
    ensures stage { IfOk result (λ stage. Tells table.new stage.steps.items (groups_from G.making (commands_of table.old script.old.commands) fresh.old).0) }
    ensures uses { IfOk result (λ stage. uses_of stage ≡ None) }
    ensures later { IsLater fresh.old fresh.new }
    ensures drawn { NeverGivesGained fresh.new table.old.symbols table.new.symbols }
    ensures grows { GrowsTo table.old table.new }
{
    let mut commands = Commands::new(alloc);
    let mut steps = Vec::new(alloc);
    for i in 0..script.commands.len() {
        let command = script.commands.take(i);
        if let Some(step) = regroup(table, &mut commands, command, grouper, fresh)? {
            steps.push(step)?;
        }
    }
    script.commands = commands;
    Ok(Stage { steps, uses: None })
}

//! The script over truth values that takes the place of a check.

ghost use Rattle.std.specs.Prelude.{◌≡◌, ◌≤◌, ◌++◌, map, count_by, IsTrue, IfOk, IfErr, OnOk};
ghost use Rattle.bit_blast.specs.Blasted.{blasted};
ghost use Rattle.bit_scripts.specs.Nodes.{IsBlastingOf, IsRefusedBy};
ghost use Rattle.bit_scripts.specs.Places.{fault_at, IsPlaceIn};
ghost use Rattle.bit_scripts.specs.Scripts.{root_group};
ghost use Rattle.bit_scripts.specs.Spelled.{declarations, assertions, group_commands};
ghost use Rattle.models.specs.LiveRoots.{flags};
ghost use Rattle.script_read.specs.CommandLists as lists;
ghost use Rattle.script_read.specs.CommandLists.{commands_of, AreCommandsOf};
ghost use Rattle.script_read.specs.Commands.{declare};
ghost use Rattle.script_read.specs.Printable.{printable};
ghost use Rattle.term_subst.specs.Substituting.{IsLater, NeverGivesGained};
ghost use Rattle.term_walk.specs.Walking.{GrowsTo};

use bit_blast::{BlastFault, blast};
use models::{flags_at, live, roots_of};
use script_read::{Command, Commands, Script};
use smt_terms::NodeId;
use std::alloc::{AllocError, AllocFailed, Global};
use term_subst::{Fresh, Group, SymPairs};
use term_table::{Nodes, Table};
use thiserror::Error;

/// A script over truth values, and its new constants, each with the bit that it stands for.
#[derive(Drop)]
pub struct Blasting {
    pub script: Script,
    pub bits: SymPairs,
}

/// Why a check isn't blasted.
#[derive(Clone, Copy, Debug, PartialEq, Eq, Error)]
pub enum BlastScriptFault {
    /// The assertion of this number has a subterm of a sort other than Bool and bit vectors, a symbol with arguments, or a
    /// quantifier. It is the first such one that is live at the check.
    #[error("assertion {assertion} isn't one over bits")]
    NotBits { assertion: u64 },
    /// There is no memory.
    #[error("want of memory")]
    Memory,
}

impl From<AllocError> for BlastScriptFault {
    ghost use Rattle.std.specs.Prelude.{◌≡◌};
    ghost use Rattle.bit_scripts.specs.declared.scripts.BlastScriptFault.TheVariants.{Memory};

    ghost from_gives = { λ _ made. made ≡ Memory };

    fn from(_error: AllocError) -> BlastScriptFault {
        BlastScriptFault::Memory
    }
}

impl<T: Drop> From<AllocFailed<T>> for BlastScriptFault {
    ghost use Rattle.std.specs.Prelude.{◌≡◌};
    ghost use Rattle.bit_scripts.specs.declared.scripts.BlastScriptFault.TheVariants.{Memory};

    ghost from_gives = { λ _ made. made ≡ Memory };

    fn from(_error: AllocFailed<T>) -> BlastScriptFault {
        BlastScriptFault::Memory
    }
}

/// The script over truth values in the place of the check of this number, counted from 1. What it means:
/// `laws::scripts_are_blasted`.
///
/// # Errors
///
/// `NotBits` exactly where a live assertion isn't one over bits, with the number of the first one; `Memory` where there is no
/// memory.
pub fn blast_check(
    alloc: Global,
    table: &mut Table,
    script: &Script,
    check: u64,
    fresh: &mut Fresh,
) -> Result<Blasting, BlastScriptFault>
    requires numbers { AreCommandsOf table.old script.now.commands }
    requires printable { IsTrue (printable (commands_of table.old script.now.commands)) }
    requires first { 1 ≤ check }
    requires last { check ≤ count_by lists.is_check script.now.commands }
    ensures blasting { IfOk result (IsBlastingOf table.new (commands_of table.old script.now.commands) check fresh.old) }
    ensures fault { IfErr result (IsRefusedBy (commands_of table.old script.now.commands) check) }
    ensures left { OnOk result (fresh.new ≡ (root_group (commands_of table.old script.now.commands) check fresh.old).names) }
    ensures later { IsLater fresh.old fresh.new }
    ensures drawn { NeverGivesGained fresh.new table.old.symbols table.new.symbols }
    ensures grows { GrowsTo table.old table.new }
{
    let lives = live(alloc, table, script, check)?;
    let roots = roots_of(alloc, lives.as_slice())?;
    let mut commands = declared_flags(alloc, table, script, check)?;
    match blast(alloc, table, roots.as_slice(), fresh) {
        Ok(group) => {
            spell(&mut commands, &group)?;
            let script = Script { commands };
            let bits = group.symbols;
            Ok(Blasting { script, bits })
        }
        Err(fault) => Err(fault_among(lives.as_slice(), fault)),
    }
}

// The fault that one of the nodes of these is, by its number.
fn fault_among(lives: &[(NodeId, u64)], fault: BlastFault) -> BlastScriptFault
    requires { IsPlaceIn lives.now fault }
    ensures { result ≡ fault_at lives.now fault }
{
    match fault {
        BlastFault::NotBits { root } => {
            let (_, assertion) = lives[root as usize];
            BlastScriptFault::NotBits { assertion }
        }
        BlastFault::Memory => BlastScriptFault::Memory,
    }
}

// Declarations of the flags of a check.
fn declared_flags(
    alloc: Global,
    table: &Table,
    script: &Script,
    check: u64,
) -> Result<Commands, AllocError>
    requires numbers { AreCommandsOf table.now script.now.commands }
    requires printable { IsTrue (printable (commands_of table.now script.now.commands)) }
    requires first { 1 ≤ check }
    requires last { check ≤ count_by lists.is_check script.now.commands }
    ensures numbers { IfOk result (AreCommandsOf table.now) }
    ensures commands { IfOk result (λ cs. commands_of table.now cs ≡ map declare (flags (commands_of table.now script.now.commands) check)) }
{
    let flags = flags_at(alloc, table, script, check)?;
    let mut commands = Commands::new(alloc);
    for flag in flags.as_slice() {
        commands.push(Command::Declare(*flag))?;
    }
    Ok(commands)
}

// Puts the commands of a group last: it declares its symbols, asserts its assertions, numbered from 1, and checks.
fn spell(commands: &mut Commands, group: &Group) -> Result<(), AllocError>
    ensures { OnOk result (commands.new ≡ commands.old ++ group_commands group.now) }
{
    declare_each(commands, &group.symbols)?;
    assert_each(commands, &group.asserts)?;
    commands.push(Command::Check)?;
    Ok(())
}

// Puts declarations of these symbols last.
fn declare_each(commands: &mut Commands, symbols: &SymPairs) -> Result<(), AllocError>
    ensures { OnOk result (commands.new ≡ commands.old ++ declarations symbols.now) }
{
    for place in 0..symbols.len() {
        let (symbol, _) = symbols.get(place);
        commands.push(Command::Declare(symbol))?;
    }
    Ok(())
}

// Puts assertions of these formulas last, numbered from 1.
fn assert_each(commands: &mut Commands, formulas: &Nodes) -> Result<(), AllocError>
    ensures { OnOk result (commands.new ≡ commands.old ++ assertions 1 formulas.now) }
{
    for place in 0..formulas.len() {
        let id = formulas.get(place);
        let number = place as u64 + 1;
        commands.push(Command::Assert { id, number })?;
    }
    Ok(())
}

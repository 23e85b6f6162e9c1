//! Scripts: `script b`, the commands of the bytes b with their terms and the names that are left, or the first refusal.

ghost use Rattle.std.specs.Prelude.{◌≡◌, ◌++◌, IfOk, OnOk, option_to_list};
ghost use Rattle.term_table.specs.Formulas.{IsUnchanged};
ghost use Rattle.term_walk.specs.Walking.{GrowsTo};
ghost use Rattle.script_read.specs.CommandLists.{ReadsScript, AreCommandsOf};
ghost use Rattle.script_terms.specs.Places.{IsRead, SparesText, forms_from};
ghost use Rattle.script_read.specs.Script.{Standing, read_commands};
ghost use Rattle.script_read.specs.ScriptSteps.{IsRefusalOf, IsScriptFault, ReadsCommands};
ghost use Rattle.script_read.specs.Steps.{StandsAt};

use crate::scripts::{Command, Commands, Script};
use crate::session::{Session, read_command};
use crate::text_names::fresh_beside;
use script_terms::faults::{Fault, ReadFault, Refusal, ScriptFault};
use script_terms::places::begins;
use script_terms::terms::term_reader::TermReader;
use smt_lex::{Forest, line_of};
use std::alloc::{AllocError, Global};
use term_subst::Fresh;
use term_table::Table;

/// Reads the commands of a text, which was scanned up to its first `(exit)`, with every term expanded, and gives the names
/// that are left to draw, which are no symbol of the text. The refusal is the first one that SMT-LIB 2.6 and this profile
/// know, command by command and in each from left to right. The table only gains, whatever the answer.
pub fn read_script(
    alloc: Global,
    table: &mut Table,
    forest: &Forest,
) -> Result<(Script, Fresh), ScriptFault>
    requires { IsRead forest.now }
    ensures script { ReadsScript table.new forest.now.bytes result }
    ensures commands { IfOk result (λ r. AreCommandsOf table.new r.0.commands) }
    ensures grows { GrowsTo table.old table.new }
{
    let names = fresh_beside(alloc, forest)?;
    let mut session = Session::new(alloc, names);
    make_room(table, forest);
    let commands = read_commands(alloc, table, forest, &mut session)?;
    Ok((Script { commands }, session.into_names()))
}

// Makes room for about as many nodes as the text has. Without memory for them all, the reading asks for it as it goes.
fn make_room(table: &mut Table, forest: &Forest)
    ensures { IsUnchanged table.old table.new }
{
    let _ = table.reserve(forest.len() / 4);
}

// Reads all commands of a text.
fn read_commands<'a>(
    alloc: Global,
    table: &mut Table,
    forest: &'a Forest,
    session: &mut Session<'a>,
) -> Result<Commands, ScriptFault>
    requires read { IsRead forest.now }
    requires text { SparesText forest.now.tokens session.old.sofar.fresh }
    requires known { (s : Standing) × StandsAt table.old session.old s }
    requires count { session.old.asserted ≡ 0 }
    ensures commands { (s : Standing) → StandsAt table.old session.old s → ReadsCommands table.new forest.now.bytes session.new.sofar.fresh (read_commands 1 (forms_from forest.now.tokens 0) s) result }
    ensures within { IfOk result (AreCommandsOf table.new) }
    ensures grows { GrowsTo table.old table.new }
{
    let mut commands = Commands::new(alloc);
    let mut reader = TermReader::new(alloc);
    let mut at = 0;
    let mut read = 0;
    while begins(forest, at) {
        let next = forest.after(at);
        let command = match read_command(&mut reader, table, forest, at, session) {
            Ok(command) => command,
            Err(fault) => return Err(script_fault(forest, read + 1, fault)),
        };
        push(&mut commands, command)?;
        at = next;
        read += 1;
    }
    Ok(commands)
}

// Puts a command last, if there is one.
fn push(commands: &mut Commands, command: Option<Command>) -> Result<(), AllocError>
    ensures { OnOk result (commands.new ≡ commands.old ++ option_to_list command) }
{
    if let Some(command) = command {
        commands.push(command)?;
    }
    Ok(())
}

// What is answered where the command of this number, from 1 on, isn't read.
fn script_fault(forest: &Forest, number: u64, fault: ReadFault) -> ScriptFault
    ensures { IsScriptFault forest.now.bytes number fault result }
{
    match fault {
        ReadFault::Refused(fault) => ScriptFault::Refused(refusal(forest, number, fault)),
        ReadFault::Memory => ScriptFault::Memory,
    }
}

// The refusal of the command of this number, with the line of its byte.
fn refusal(forest: &Forest, number: u64, fault: Fault) -> Refusal
    ensures { IsRefusalOf forest.now.bytes number fault result }
{
    let bytes = forest.bytes();
    let place = (fault.place as usize).min(bytes.len());
    Refusal {
        code: fault.cause.code(),
        command: number,
        line: line_of(bytes, place),
        byte: u64::from(fault.place),
    }
}

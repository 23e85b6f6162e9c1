//! The sorts and symbols that are live at a check.

ghost use Rattle.std.specs.Prelude.{◌≡◌, ◌≤◌, false, count_by, IsTrue, IfOk};
ghost use Rattle.script_read.specs.CommandLists as lists;
ghost use Rattle.script_read.specs.CommandLists.{commands_of, AreCommandsOf};
ghost use Rattle.script_read.specs.Commands.{signature};
ghost use Rattle.script_read.specs.Printable.{printable};
ghost use Rattle.models.specs.LiveNumbers.{signature_of, AreLiveNumbersOf};
ghost use Rattle.models.specs.GoingBack.{before_check, global_behind, global_behind_all, begins_anew, found_in};

use script_read::{Command, Script};
use smt_terms::{SortId, SymId};
use std::alloc::{AllocError, Global};
use std::marker::Model;
use term_table::Table;

/// The live sorts and symbols at a check, each in order of declaration.
#[derive(Drop)]
pub struct Signature {
    sorts: Vec<SortId>,
    symbols: Vec<SymId>,
}

impl Model for Signature {
    ghost use Rattle.models.specs.LiveNumbers.{LiveNumbers, coded_live_numbers};

    ghost Value = { LiveNumbers };

    ghost coded = { coded_live_numbers };

    ghost view = { λ s. record { sorts = s.sorts.items; symbols = s.symbols.items } };
}

impl Signature {
    /// The live sorts. It takes no memory.
    pub fn sorts(&self) -> &[SortId]
        ensures { result.now ≡ self.now.sorts }
    {
        self.sorts.as_slice()
    }

    /// The live symbols. It takes no memory.
    pub fn symbols(&self) -> &[SymId]
        ensures { result.now ≡ self.now.symbols }
    {
        self.symbols.as_slice()
    }
}

/// The live sorts and symbols at the check of this number, counted from 1. It takes as long as the commands before the
/// check are many.
pub fn signature_at(
    alloc: Global,
    table: &Table,
    script: &Script,
    check: u64,
) -> Result<Signature, AllocError>
    requires numbers { AreCommandsOf table.now script.now.commands }
    requires printable { IsTrue (printable (commands_of table.now script.now.commands)) }
    requires first { 1 ≤ check }
    requires last { check ≤ count_by lists.is_check script.now.commands }
    ensures signature { IfOk result (λ s. signature_of table.now s ≡ signature (commands_of table.now script.now.commands) check) }
    ensures numbers { IfOk result (AreLiveNumbersOf table.now) }
{
    let commands = before_check(script.commands.as_slice(), check);
    live_behind(alloc, commands, is_global_behind(commands))
}

// The commands before the check of this number.
pub(crate) fn before_check(commands: &[Command], check: u64) -> &[Command]
    requires { 1 ≤ check }
    ensures { result.now ≡ before_check check commands.now }
{
    let mut left = check;
    for place in 0..commands.len() {
        if is_check(&commands[place]) {
            if left == 1 {
                return &commands[..place];
            }
            left -= 1;
        }
    }
    commands
}

fn is_check(command: &Command) -> bool
    ensures { result ≡ lists.is_check command.now }
{
    matches!(command, Command::Check | Command::CheckAssuming(_))
}

// Whether declarations outlive their levels behind these commands.
fn is_global_behind(commands: &[Command]) -> bool
    ensures { result ≡ global_behind_all false commands.now }
{
    let mut global = false;
    for command in commands {
        global = global_behind(command, global);
    }
    global
}

// Whether declarations outlive their levels behind a command.
pub(crate) fn global_behind(command: &Command, global: bool) -> bool
    ensures { result ≡ global_behind global command.now }
{
    match command {
        Command::Globals(value) => *value,
        Command::Reset => false,
        _ => global,
    }
}

// Whether nothing that is declared before the command is live behind it. The option stands before all declarations.
fn begins_anew(command: &Command, global: bool) -> bool
    ensures { result ≡ begins_anew global command.now }
{
    match command {
        Command::Reset | Command::Globals(_) => true,
        Command::ResetAssertions => !global,
        _ => false,
    }
}

// What is live behind these commands. They are gone through from the last one back, with the number of levels that are
// closed in those behind: what is declared on such a level isn't live.
fn live_behind(alloc: Global, commands: &[Command], global: bool) -> Result<Signature, AllocError>
    ensures sorts { IfOk result (λ s. s.sorts ≡ (found_in global commands.now).sorts) }
    ensures symbols { IfOk result (λ s. s.symbols ≡ (found_in global commands.now).symbols) }
{
    let mut sorts = Vec::new(alloc);
    let mut symbols = Vec::new(alloc);
    let mut closed: u128 = 0;
    let mut place = commands.len();
    while place > 0 && !begins_anew(&commands[place - 1], global) {
        place -= 1;
        match &commands[place] {
            Command::DeclareSort(sort) if closed == 0 => sorts.push(*sort)?,
            Command::Declare(symbol) if closed == 0 => symbols.push(*symbol)?,
            Command::Push(levels) => closed = closed.saturating_sub(*levels as u128),
            Command::Pop(levels) if !global => closed += *levels as u128,
            _ => {}
        }
    }
    sorts.reverse();
    symbols.reverse();
    Ok(Signature { sorts, symbols })
}

//! Scripts as they are read: commands over the nodes, symbols and sorts of a table.

ghost use Rattle.std.specs.Prelude.{◌≡◌, ◌<◌, ◌++◌, ◌∷◌, [], length, set, count_by, Some, slice_get, OnOk, OnErr};
ghost use Rattle.script_read.specs.CommandLists.{is_check};

use smt_terms::{NodeId, SortId, SymId};
use std::alloc::{AllocError, AllocFailed, Global};
use std::marker::Model;
use std::mem;
use term_table::{Bytes, Nodes};

/// A command of a script (SMT-LIB 2.6, sections 3.9 and 4.2). Definitions, names of terms and names of sorts are gone: each
/// term has what they stand for.
#[derive(Drop)]
pub enum Command {
    /// Passed on: its text as it is printed, which is its tokens with one space between forms.
    Passed(Bytes),
    /// `declare-sort`: this sort, which has no parameters.
    DeclareSort(SortId),
    /// `declare-fun` or `declare-const`: this symbol.
    Declare(SymId),
    /// An assertion, with its number among those of the script that was read, from 1 on.
    Assert { id: NodeId, number: u64 },
    /// `check-sat`.
    Check,
    /// `check-sat-assuming`: a check under literals, each a constant or the negation of one.
    CheckAssuming(Nodes),
    /// So many levels are opened, at most 1,000,000.
    Push(u32),
    /// So many levels are closed.
    Pop(u32),
    /// `reset`: everything is as at the beginning.
    Reset,
    /// `reset-assertions`: all levels are closed, and the assertions of the first are gone.
    ResetAssertions,
    /// `:global-declarations` is set.
    Globals(bool),
    /// `exit`, behind which nothing is read or printed.
    Exit,
}

/// A list of commands.
#[derive(Drop)]
pub struct Commands {
    items: Vec<Command>,
}

impl Model for Commands {
    ghost use Rattle.std.specs.Prelude.{List};
    ghost use Rattle.script_read.specs.declared.scripts.Command.{Command};

    ghost Value = { List Command };

    ghost view = { λ c. c.items.items };
}

impl Commands {
    /// The empty list. It takes no memory.
    pub fn new(alloc: Global) -> Commands
        ensures { result ≡ [] }
    {
        Commands {
            items: Vec::new(alloc),
        }
    }

    /// Puts a command last. Where it is refused, the list is as before, and the command is given up.
    pub fn push(&mut self, command: Command) -> Result<(), AllocError>
        ensures ok { OnOk result (self.new ≡ self.old ++ command ∷ []) }
        ensures err { OnErr result (self.new ≡ self.old) }
    {
        self.items.push(command)?;
        Ok(())
    }

    /// Puts a command in the place of the one at `i`, which is given up. It takes no memory.
    pub fn replace(&mut self, i: usize, command: Command)
        requires { i < length self.old }
        ensures { self.new ≡ set self.old i command }
    {
        self.items[i] = command;
    }

    /// Takes the command at `i` away; `exit` stands there then. It takes no memory.
    pub fn take(&mut self, i: usize) -> Command
        requires { i < length self.old }
        ensures taken { slice_get self.old i ≡ Some result }
        ensures left { self.new ≡ set self.old i Command.Exit }
    {
        mem::replace(&mut self.items[i], Command::Exit)
    }

    /// The number of commands.
    pub fn len(&self) -> usize
        ensures { result ≡ length self.now }
    {
        self.items.len()
    }

    /// All of them, in order.
    pub fn as_slice(&self) -> &[Command]
        ensures { result.now ≡ self.now }
    {
        self.items.as_slice()
    }

    /// The command at a place.
    pub fn get(&self, i: usize) -> &Command
        requires { i < length self.now }
        ensures { slice_get self.now i ≡ Some result.now }
    {
        &self.items[i]
    }
}

/// The commands of a script.
#[derive(Drop)]
pub struct Script {
    pub commands: Commands,
}

/// The number of its `check-sat` and `check-sat-assuming`. It takes no memory.
pub fn checks(script: &Script) -> u64
    ensures { result ≡ count_by is_check script.now.commands }
{
    script.commands.items.iter().filter(|c| is_check(c)).count() as u64
}

fn is_check(command: &Command) -> bool
    ensures { result ≡ is_check command.now }
{
    matches!(command, Command::Check | Command::CheckAssuming(_))
}

//! `stats`: how much stands in a script.

ghost use Rattle.std.specs.Prelude.{◌≡◌, ◌≤◌, ◌++◌, length, IfOk, OnOk};
ghost use Rattle.script_terms.specs.Places.{IsRead};
ghost use Rattle.smt_io.specs.Told.{longest_text};
ghost use Rattle.smtrw_answers.specs.Endings.{stats_end};
ghost use Rattle.smtrw_answers.specs.Outputs.{count_line, stats_lines};
ghost use Rattle.smtrw_run.specs.Counted.{declarations_in, ids_of, is_declaration, lines_of};
ghost use Rattle.smtrw_run.specs.Prepared.{Writes};

use itoa::Buffer;
use script_read::{Command, checks, count_commands, read_script};
use smt_io::Pieces;
use smt_lex::Forest;
use smt_terms::NodeId;
use smtrw_answers::Status;
use std::alloc::{AllocError, Global};
use term_table::Table;
use term_walk::count_nodes;

/// The numbers of a script, each on a line of its own: commands, declarations, assertions, checks, and the distinct subterms
/// of all assertions.
pub fn counted(alloc: Global, forest: &Forest) -> Result<Pieces, Status>
    requires read { IsRead forest.now }
    requires short { length forest.now.bytes ≤ longest_text }
    ensures { Writes (stats_end forest.now.bytes) (λ w. w ≡ stats_lines forest.now.bytes) result }
{
    let mut table = Table::new(alloc);
    let (script, _) = read_script(alloc, &mut table, forest)?;
    let commands = script.commands.as_slice();
    let roots = asserted(alloc, commands)?;
    let numbers = Numbers {
        commands: count_commands(forest),
        declarations: declarations(commands),
        assertions: roots.len() as u64,
        checks: checks(&script),
        nodes: count_nodes(alloc, &table, &roots)?,
    };
    let text = text_of(alloc, &numbers)?;
    Ok(text)
}

/// What is counted of a script.
#[derive(Clone, Copy)]
struct Numbers {
    commands: u64,
    declarations: u64,
    assertions: u64,
    checks: u64,
    nodes: u64,
}

/// The lines of these numbers.
fn text_of(alloc: Global, numbers: &Numbers) -> Result<Pieces, AllocError>
    ensures { IfOk result (λ text. text ≡ lines_of numbers.now) }
{
    let mut text = Pieces::new(alloc);
    push_count(&mut text, "commands", numbers.commands)?;
    push_count(&mut text, "declarations", numbers.declarations)?;
    push_count(&mut text, "assertions", numbers.assertions)?;
    push_count(&mut text, "checks", numbers.checks)?;
    push_count(&mut text, "nodes", numbers.nodes)?;
    Ok(text)
}

/// The formulas of the assertions, in order.
fn asserted(alloc: Global, commands: &[Command]) -> Result<Vec<NodeId>, AllocError>
    ensures { IfOk result (λ ids. ids.items ≡ ids_of commands.now) }
{
    let mut ids = Vec::new(alloc);
    for command in commands {
        if let Command::Assert { id, .. } = command {
            ids.push(*id)?;
        }
    }
    Ok(ids)
}

/// How many functions and constants are declared.
fn declarations(commands: &[Command]) -> u64
    ensures { result ≡ declarations_in commands.now }
{
    commands.iter().filter(|c| is_declaration(c)).count() as u64
}

fn is_declaration(command: &Command) -> bool
    ensures { result ≡ is_declaration command.now }
{
    matches!(command, Command::Declare(_))
}

/// Appends the line of a number.
fn push_count(text: &mut Pieces, word: &str, number: u64) -> Result<(), AllocError>
    ensures { OnOk result (text.new ≡ text.old ++ count_line word.now number) }
{
    let mut digits = Buffer::new();
    text.push(word.as_bytes())?;
    text.push(b" ")?;
    text.push(digits.format(number).as_bytes())?;
    text.push(b"\n")?;
    Ok(())
}

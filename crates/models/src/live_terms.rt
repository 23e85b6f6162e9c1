//! The assertions that are live at a check, and the literals that it assumes.

ghost use Rattle.std.specs.Prelude.{◌≡◌, ◌≤◌, ◌<◌, ◌+◌, ◌^◌, ◌++◌, max, map, reverse, count_by, IfOk, OnOk};
ghost use Rattle.script_read.specs.CommandLists as lists;
ghost use Rattle.script_read.specs.CommandLists.{commands_of, AreCommandsOf};
ghost use Rattle.models.specs.LiveAssertions.{assumed_by, levels_behind, levels_left, live_behind, on_levels};
ghost use Rattle.models.specs.LiveTerms.{live_terms, numbered_at, AreNumbered};

use crate::signature::{before_check, global_behind};
use script_read::{Command, Script};
use smt_terms::NodeId;
use std::alloc::{AllocError, Global};
use term_table::Table;

/// The assertions that are live at the check of this number, counted from 1, each with its own number, in order; and behind them
/// the literals that the check assumes, each with the number 0. It takes as long as the commands before the check are many.
pub fn live(
    alloc: Global,
    table: &Table,
    script: &Script,
    check: u64,
) -> Result<Vec<(NodeId, u64)>, AllocError>
    requires numbers { AreCommandsOf table.now script.now.commands }
    requires first { 1 ≤ check }
    requires last { check ≤ count_by lists.is_check script.now.commands }
    ensures terms { IfOk result (λ v. numbered_at table.now v.items ≡ live_terms (commands_of table.now script.now.commands) check) }
    ensures nodes { IfOk result (λ v. AreNumbered table.now v.items) }
{
    let commands = script.commands.as_slice();
    let before = before_check(commands, check);
    let mut found = live_behind(alloc, before)?;
    add_literals(&mut found, &commands[before.len()])?;
    Ok(found)
}

// Puts the literals that a check assumes behind what is found.
fn add_literals(found: &mut Vec<(NodeId, u64)>, check: &Command) -> Result<(), AllocError>
    ensures { OnOk result (found.new.items ≡ found.old.items ++ map (λ l. (l, 0)) (assumed_by check.now)) }
{
    if let Command::CheckAssuming(literals) = check {
        for i in 0..literals.len() {
            found.push((literals.get(i), 0))?;
        }
    }
    Ok(())
}

// The assertions that are live behind these commands. They are gone through from the first one on, with the number of levels
// that are open there: each assertion is found once, and given up at most once, when its level is closed.
fn live_behind(alloc: Global, commands: &[Command]) -> Result<Vec<(NodeId, u64)>, AllocError>
    ensures { IfOk result (λ v. v.items ≡ live_behind commands.now) }
{
    let mut placed: Vec<(NodeId, u64, u128)> = Vec::new(alloc);
    let mut levels: u128 = 1;
    let mut global = false;
    for command in commands {
        levels = levels_behind(command, levels, global);
        match command {
            Command::Assert { id, number } => placed.push((*id, *number, levels))?,
            Command::Pop(_) => keep_levels(&mut placed, levels),
            Command::Reset | Command::ResetAssertions => placed.clear(),
            _ => {}
        }
        global = global_behind(command, global);
    }
    without_levels(alloc, placed.as_slice())
}

fn without_levels(
    alloc: Global,
    placed: &[(NodeId, u64, u128)],
) -> Result<Vec<(NodeId, u64)>, AllocError>
    ensures { IfOk result (λ v. v.items ≡ map (λ p. (p.0, p.1)) placed.now) }
{
    placed.iter().map(|p| (p.0, p.1)).collect(alloc)
}

// The number of levels that are open behind a command, of these before it.
fn levels_behind(command: &Command, levels: u128, global: bool) -> u128
    requires { levels < 2 ^ 127 }
    ensures is { result ≡ levels_behind global command.now levels }
    ensures few { result ≤ max levels 1 + 4294967295 }
{
    match command {
        Command::DeclareSort(_) | Command::Declare(_) | Command::Assert { .. } => levels.max(1),
        Command::Push(opened) => levels + *opened as u128,
        Command::Pop(closed) => levels_left(levels, *closed, global),
        Command::Reset | Command::ResetAssertions => 1,
        _ => levels,
    }
}

// The number of levels that a `pop` leaves open. Where declarations are global, the first one stays.
fn levels_left(levels: u128, closed: u32, global: bool) -> u128
    ensures { result ≡ levels_left global closed levels }
{
    let left = levels.saturating_sub(closed as u128);
    if global {
        left.max(levels.min(1))
    } else {
        left
    }
}

// Takes the assertions on levels above these off the end.
fn keep_levels(placed: &mut Vec<(NodeId, u64, u128)>, levels: u128)
    ensures { reverse placed.new.items ≡ on_levels levels (reverse placed.old.items) }
{
    let mut left = placed.len();
    while left > 0 && placed[left - 1].2 > levels {
        left -= 1;
    }
    placed.truncate(left);
}

//! Commands by letters.

ghost use Rattle.std.specs.Prelude.{IfOk};
ghost use Rattle.script_read.specs.CommandLists.{IsCommandOf};
ghost use Rattle.term_table.specs.Formulas.{Formulas, IsNode};

use crate::tests::terms::{constant, over};
use script_read::{Command, Commands, Script};
use smt_io::{MemSink, Pieces, send_pieces};
use smt_print::{Layout, script_into, script_text};
use smt_terms::{NodeId, Op, SortId};
use std::alloc::{AllocError, Global};
use std::process::Abort;
use std::test::Fail;
use term_table::{Bytes, Nodes, Table};

// The negation of `a`.
fn negation(rt: &impl Abort, table: &mut Table) -> Result<NodeId, AllocError>
    ensures { IfOk result (IsNode table.new) }
{
    let kid = constant(rt, table, b'a')?;
    let node = over(rt, table, Op::Not, &[kid])?;
    assert!(rt; node.0 < table.len());
    Ok(node)
}

fn declared_sort(table: &mut Table) -> Result<Command, AllocError>
    ensures { IfOk result (IsCommandOf table.new) }
{
    let sort = table.declared_sort(b"a sort")?;
    Ok(Command::DeclareSort(sort))
}

fn declared_function(table: &mut Table) -> Result<Command, AllocError>
    ensures { IfOk result (IsCommandOf table.new) }
{
    let symbol = table.symbol(b"let", &[SortId(1), SortId(9)], SortId(0))?;
    Ok(Command::Declare(symbol))
}

fn assertion(rt: &impl Abort, table: &mut Table) -> Result<Command, AllocError>
    ensures { IfOk result (IsCommandOf table.new) }
{
    let id = negation(rt, table)?;
    Ok(Command::Assert { id, number: 7 })
}

fn assumptions(rt: &impl Abort, alloc: Global, table: &mut Table) -> Result<Command, AllocError>
    ensures { IfOk result (IsCommandOf table.new) }
{
    let mut literals = Nodes::new(alloc);
    let literal = negation(rt, table)?;
    literals.push(literal)?;
    literals.push(literal)?;
    Ok(Command::CheckAssuming(literals))
}

fn passed(alloc: Global, text: &[u8]) -> Result<Command, AllocError>
    ensures { (t : Formulas) → IfOk result (IsCommandOf t) }
{
    let mut bytes = Bytes::new(alloc);
    for byte in text {
        bytes.push(*byte)?;
    }
    Ok(Command::Passed(bytes))
}

// A command that names nothing of a table.
fn other(letter: u8) -> Command
    ensures { (t : Formulas) → IsCommandOf t result }
{
    match letter {
        b'c' => Command::Check,
        b'u' => Command::Push(2),
        b'o' => Command::Pop(1_000_000),
        b'r' => Command::Reset,
        b'e' => Command::ResetAssertions,
        b'g' => Command::Globals(true),
        b'h' => Command::Globals(false),
        _ => Command::Exit,
    }
}

fn command(
    rt: &impl Abort,
    alloc: Global,
    table: &mut Table,
    letter: u8,
) -> Result<Command, AllocError>
    ensures { IfOk result (IsCommandOf table.new) }
{
    match letter {
        b's' => declared_sort(table),
        b'f' => declared_function(table),
        b'a' => assertion(rt, table),
        b'l' => assumptions(rt, alloc, table),
        b'p' => passed(alloc, b"(set-logic ALL)"),
        _ => Ok(other(letter)),
    }
}

// Appends the text of a command, and answers it.
fn print(
    rt: &impl Abort,
    alloc: Global,
    letter: u8,
    out: &mut Pieces,
) -> Result<Vec<u8>, AllocError> {
    let mut table = Table::new(alloc);
    let command = command(rt, alloc, &mut table, letter)?;
    let mut commands = Commands::new(alloc);
    commands.push(command)?;
    let script = Script { commands };
    script_into(alloc, &table, &script, Layout::Dag, out)?;
    script_text(alloc, &table, &script, Layout::Dag)
}

// Asserts that the command of this letter is printed as this line, which it appends.
fn assert_line(
    rt: &impl Abort,
    alloc: Global,
    letter: u8,
    line: &[u8],
    out: &mut Pieces,
) -> Result<(), AllocError> {
    let text = print(rt, alloc, letter, out)?;
    assert!(rt; text.as_slice() == line);
    Ok(())
}

// Asserts that the commands of letters are printed as these lines, and answers all lines.
fn assert_lines(
    rt: &impl Abort,
    alloc: Global,
    lines: &[(u8, &[u8])],
    out: &mut Pieces,
) -> Result<Vec<u8>, AllocError> {
    let mut whole = Vec::new(alloc);
    for (letter, line) in lines {
        assert_line(rt, alloc, *letter, line, out)?;
        whole.extend_from_slice(line)?;
    }
    Ok(whole)
}

const LINES: [(u8, &[u8]); 13] = [
    (b'p', b"(set-logic ALL)\n"),
    (b's', b"(declare-sort |a sort| 0)\n"),
    (b'f', b"(declare-fun |let| (Int (_ BitVec 8)) Bool)\n"),
    (b'a', b"(assert (let ((.def_0 (not a))) .def_0))\n"),
    (b'l', b"(check-sat-assuming ((not a) (not a)))\n"),
    (b'c', b"(check-sat)\n"),
    (b'u', b"(push 2)\n"),
    (b'o', b"(pop 1000000)\n"),
    (b'r', b"(reset)\n"),
    (b'e', b"(reset-assertions)\n"),
    (b'g', b"(set-option :global-declarations true)\n"),
    (b'h', b"(set-option :global-declarations false)\n"),
    (b'x', b"(exit)\n"),
];

#[test]
fn each_command_is_a_line(rt: HostRuntime) -> Result<(), Fail> {
    let alloc = rt.alloc();
    let mut out = Pieces::new(alloc);
    let whole = assert_lines(&rt, alloc, &LINES, &mut out)?;
    let mut sink = MemSink::new(alloc, 64, 1_000)?;
    assert!(rt; send_pieces(&mut sink, &out).is_ok());
    assert!(rt; sink.bytes() == whole.as_slice());
    Ok(())
}

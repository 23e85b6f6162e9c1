//! Scripts, with what is live at each of their checks.

ghost use Rattle.std.specs.Prelude.{◌≡◌, ◌≤◌, count_by, All, IfOk, IsTrue, Ok};
ghost use Rattle.smt_lex.specs.declared.items.Until.TheVariants.{Exit};
ghost use Rattle.smt_lex.specs.Forms.{tokens_of};
ghost use Rattle.term_table.specs.Formulas.{IsNode, IsSymbol};
ghost use Rattle.script_read.specs.CommandLists.{commands_of, is_check, AreCommandsOf};
ghost use Rattle.script_read.specs.Printable.{printable};
ghost use Rattle.models.specs.LiveNumbers.{IsFreeSort};
ghost use Rattle.models.specs.LiveTerms.{AreNumbered};

use models::{live, signature_at};
use script_read::{Script, checks, read_script, reading_gives_a_printable_script};
use smt_lex::{Forest, Until, scan};
use smt_terms::{NodeId, SortId, SymId};
use smt_values::Op;
use std::alloc::{AllocError, Global};
use std::process::Abort;
use std::test::Fail;
use term_table::Table;

// What is live at a check: sorts and symbols by their names, and assertions with their numbers. Behind them stand the
// literals of the check with the number 0. Each assertion and literal is a constant, which is told by its name.
struct Point<'a> {
    sorts: &'a [&'a [u8]],
    symbols: &'a [&'a [u8]],
    roots: &'a [(&'a [u8], u64)],
}

// The tokens of a text.
fn tokens(rt: &impl Abort, alloc: Global, text: &[u8]) -> Result<Forest, Fail>
    ensures { IfOk result (λ forest. tokens_of Exit forest.bytes ≡ Ok forest.tokens) }
{
    assert!(rt; text.len() < 1_000_000);
    Ok(scan(alloc, Vec::from_slice(alloc, text)?, Until::Exit)?)
}

// Reads a text.
fn read(rt: &impl Abort, alloc: Global, table: &mut Table, text: &[u8]) -> Result<Script, Fail>
    ensures commands { IfOk result (λ s. AreCommandsOf table.new s.commands) }
    ensures printable { IfOk result (λ s. IsTrue (printable (commands_of table.new s.commands))) }
{
    reading_gives_a_printable_script();
    let forest = tokens(rt, alloc, text)?;
    let (script, _) = read_script(alloc, table, &forest)?;
    Ok(script)
}

// Whether these are the names of declared sorts.
fn have_sort_names(table: &Table, sorts: &[SortId], names: &[&[u8]]) -> bool
    requires { All (IsFreeSort table.now) sorts.now }
{
    if sorts.len() != names.len() {
        return false;
    }
    for place in 0..sorts.len() {
        if table.sorts().name(sorts[place]) != Some(names[place]) {
            return false;
        }
    }
    true
}

// Whether these are the names of symbols.
fn have_names(table: &Table, symbols: &[SymId], names: &[&[u8]]) -> bool
    requires { All (IsSymbol table.now) symbols.now }
{
    if symbols.len() != names.len() {
        return false;
    }
    for place in 0..symbols.len() {
        if table.symbol_name(symbols[place]) != names[place] {
            return false;
        }
    }
    true
}

// The name of the symbol at the head of a term.
#[tactic(auto, unfolding(term_table::specs::Formulas::kind))]
fn head_name(table: &Table, id: NodeId) -> Option<&[u8]>
    requires { IsNode table.now id }
{
    match table.op(id) {
        Op::Sym(symbol) => Some(table.symbol_name(symbol)),
        _ => None,
    }
}

// Whether these are the names of constants, each with its number.
fn are_numbered(table: &Table, found: &[(NodeId, u64)], names: &[(&[u8], u64)]) -> bool
    requires { AreNumbered table.now found.now }
{
    if found.len() != names.len() {
        return false;
    }
    for place in 0..found.len() {
        let (id, number) = found[place];
        let (name, expected) = names[place];
        if head_name(table, id) != Some(name) || number != expected {
            return false;
        }
    }
    true
}

// Asserts which sorts and symbols are live at a check.
fn declares(
    rt: &impl Abort,
    alloc: Global,
    table: &Table,
    script: &Script,
    check: u64,
    point: &Point<'_>,
) -> Result<(), AllocError>
    requires commands { AreCommandsOf table.now script.now.commands }
    requires printable { IsTrue (printable (commands_of table.now script.now.commands)) }
    requires first { 1 ≤ check }
    requires last { check ≤ count_by is_check script.now.commands }
{
    let signature = signature_at(alloc, table, script, check)?;
    assert!(rt;
        have_sort_names(table, signature.sorts(), point.sorts),
        "at check {check}"
    );
    assert!(rt;
        have_names(table, signature.symbols(), point.symbols),
        "at check {check}"
    );
    Ok(())
}

// Asserts which assertions are live at a check, and what it assumes.
fn asserts(
    rt: &impl Abort,
    alloc: Global,
    table: &Table,
    script: &Script,
    check: u64,
    point: &Point<'_>,
) -> Result<(), AllocError>
    requires commands { AreCommandsOf table.now script.now.commands }
    requires first { 1 ≤ check }
    requires last { check ≤ count_by is_check script.now.commands }
{
    let found = live(alloc, table, script, check)?;
    assert!(rt;
        are_numbered(table, found.as_slice(), point.roots),
        "at check {check}"
    );
    Ok(())
}

// Asserts what is live at each check of a script.
fn all_live(
    rt: &impl Abort,
    alloc: Global,
    table: &Table,
    script: &Script,
    points: &[Point<'_>],
) -> Result<(), AllocError>
    requires commands { AreCommandsOf table.now script.now.commands }
    requires printable { IsTrue (printable (commands_of table.now script.now.commands)) }
{
    assert!(rt; checks(script) == points.len() as u64);
    for (place, point) in points.iter().enumerate() {
        declares(rt, alloc, table, script, place as u64 + 1, point)?;
        asserts(rt, alloc, table, script, place as u64 + 1, point)?;
    }
    Ok(())
}

// Asserts what is live at each check of a text.
fn text_gives(
    rt: &impl Abort,
    alloc: Global,
    table: &mut Table,
    text: &[u8],
    points: &[Point<'_>],
) -> Result<(), Fail> {
    let script = read(rt, alloc, table, text)?;
    Ok(all_live(rt, alloc, table, &script, points)?)
}

// Asserts the same over a new table.
fn gives(rt: &impl Abort, alloc: Global, text: &[u8], points: &[Point<'_>]) -> Result<(), Fail> {
    let mut table = Table::new(alloc);
    text_gives(rt, alloc, &mut table, text, points)
}

// Two levels that are opened together and closed one by one, with declarations and assertions on each.
const LEVELS: &[u8] = b"(declare-sort S 0)(declare-const a Bool)(assert a)\
    (push 2)(declare-sort T 0)(declare-const b Bool)(assert b)\
    (pop 1)(declare-sort U 0)(declare-const c Bool)(assert c)(check-sat-assuming (c a))\
    (pop 1)(declare-const d Bool)(check-sat)(declare-const e Bool)(assert e)(check-sat)";

const ON_LEVELS: [Point<'static>; 3] = [
    Point {
        sorts: &[b"S", b"U"],
        symbols: &[b"a", b"c"],
        roots: &[(b"a", 1), (b"c", 3), (b"c", 0), (b"a", 0)],
    },
    Point {
        sorts: &[b"S"],
        symbols: &[b"a", b"d"],
        roots: &[(b"a", 1)],
    },
    Point {
        sorts: &[b"S"],
        symbols: &[b"a", b"d", b"e"],
        roots: &[(b"a", 1), (b"e", 4)],
    },
];

#[test]
fn all_ends_with_its_level(rt: HostRuntime) -> Result<(), Fail> {
    gives(&rt, rt.alloc(), LEVELS, &ON_LEVELS)
}

// The same where declarations are global, and then a reset of assertions.
const GLOBALS: &[u8] =
    b"(set-option :global-declarations true)(declare-sort S 0)(declare-const a Bool)(assert a)\
    (push 2)(declare-sort T 0)(declare-const b Bool)(assert b)\
    (pop 1)(declare-const c Bool)(assert c)(check-sat-assuming (b))\
    (pop 1)(check-sat)(push 1)(assert b)(reset-assertions)(check-sat)(declare-const d Bool)(assert d)(check-sat)";

const GLOBAL: [Point<'static>; 4] = [
    Point {
        sorts: &[b"S", b"T"],
        symbols: &[b"a", b"b", b"c"],
        roots: &[(b"a", 1), (b"c", 3), (b"b", 0)],
    },
    Point {
        sorts: &[b"S", b"T"],
        symbols: &[b"a", b"b", b"c"],
        roots: &[(b"a", 1)],
    },
    Point {
        sorts: &[b"S", b"T"],
        symbols: &[b"a", b"b", b"c"],
        roots: &[],
    },
    Point {
        sorts: &[b"S", b"T"],
        symbols: &[b"a", b"b", b"c", b"d"],
        roots: &[(b"d", 5)],
    },
];

#[test]
fn global_declarations_stay(rt: HostRuntime) -> Result<(), Fail> {
    gives(&rt, rt.alloc(), GLOBALS, &GLOBAL)
}

// A reset of assertions, where declarations aren't global; and a reset that ends global declarations.
const RESETS: &[u8] =
    b"(declare-sort S 0)(declare-const a Bool)(assert a)(push 1)(declare-const b Bool)(assert b)\
    (reset-assertions)(check-sat)(declare-sort T 0)(declare-const b Bool)(assert b)(check-sat)\
    (reset)(set-option :global-declarations true)(declare-const c Bool)(assert c)\
    (reset)(check-sat)(declare-const d Bool)(assert d)\
    (push 1)(declare-const e Bool)(assert e)(pop 1)(check-sat)";

const RESET: [Point<'static>; 4] = [
    Point {
        sorts: &[],
        symbols: &[],
        roots: &[],
    },
    Point {
        sorts: &[b"T"],
        symbols: &[b"b"],
        roots: &[(b"b", 3)],
    },
    Point {
        sorts: &[],
        symbols: &[],
        roots: &[],
    },
    Point {
        sorts: &[],
        symbols: &[b"d"],
        roots: &[(b"d", 5)],
    },
];

#[test]
fn resets_end_all(rt: HostRuntime) -> Result<(), Fail> {
    gives(&rt, rt.alloc(), RESETS, &RESET)
}

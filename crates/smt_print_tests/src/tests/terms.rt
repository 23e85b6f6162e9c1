//! Terms by letters: `m` and `n` are constants of sort Int, `v` and `w` of 8 bits, `t` of arrays from Int to Bool, other
//! small letters of Bool; `c` is the constant array over `a`, and `f` is the function f of `m`. A capital letter is an
//! earlier line.

ghost use Rattle.std.specs.Prelude.{◌≡◌, ◌==◌, ◌↔◌, ◌&&◌, not, false, All, IfOk, IsTrue};
ghost use Rattle.smt_terms.specs.Rank.{is_minus};
ghost use Rattle.smt_values.specs.SortIds.{IsSortId, is_plain};
ghost use Rattle.term_table.specs.Formulas.{AreNodes, IsOpOf};

use smt_print::{Layout, term_text};
use smt_terms::NodeId;
use smt_values::{Op, SortId};
use std::alloc::{AllocError, Global};
use std::process::Abort;
use term_table::Table;

const BYTE: SortId = SortId(9);

// Whether these are nodes of the table.
fn are_nodes(table: &Table, kids: &[NodeId]) -> bool
    ensures { IsTrue result ↔ AreNodes table.now kids.now }
{
    let len = table.len();
    kids.iter().all(|kid| kid.0 < len)
}

fn is_bar(byte: u8) -> bool
    ensures { not result ≡ (not (byte == 124) && not (byte == 92)) }
{
    byte == b'|' || byte == b'\\'
}

// Whether a symbol can have this name.
fn is_plain(name: &[u8]) -> bool
    ensures { result ≡ is_plain name.now }
{
    for byte in name {
        if is_bar(*byte) {
            return false;
        }
    }
    true
}

// The node of an operator over operands that it has a rank over.
#[tactic(auto, using(term_table::proofs::Made::makes_ranked))]
fn made(rt: &impl Abort, table: &mut Table, op: Op, kids: &[NodeId]) -> Result<NodeId, AllocError>
    requires numbers { IsOpOf table.old op }
    requires other { is_minus op ≡ false }
{
    if !are_nodes(table, kids) {
        panic!(rt; "an operand is no node of the table");
    }
    match table.rank(op, kids) {
        Ok(_) => table.intern(op, kids),
        Err(fault) => panic!(rt; "{fault:?}"),
    }
}

// The unary minus of an integer.
fn negative(rt: &impl Abort, table: &mut Table, kids: &[NodeId]) -> Result<NodeId, AllocError> {
    assert!(rt; kids.len() == 1);
    assert!(rt; kids[0].0 < table.len());
    assert!(rt; table.sort_of(kids[0]) == SortId::INT);
    table.minus(kids[0])
}

// The node of an operator of the theories over operands.
#[tactic(auto, unfolding(term_table::specs::Formulas::kind, smt_terms::specs::Rank::is_minus))]
pub(crate) fn over(
    rt: &impl Abort,
    table: &mut Table,
    op: Op,
    kids: &[NodeId],
) -> Result<NodeId, AllocError> {
    match op {
        Op::Neg => negative(rt, table, kids),
        Op::Sym(_) | Op::ConstArray(_) => panic!(rt; "no operator of the theories"),
        _ => made(rt, table, op, kids),
    }
}

// The node of a function over operands.
#[tactic(auto, unfolding(term_table::specs::Formulas::kind, smt_terms::specs::Rank::is_minus))]
fn symbol(
    rt: &impl Abort,
    table: &mut Table,
    name: &[u8],
    args: &[SortId],
    sort: SortId,
    kids: &[NodeId],
) -> Result<NodeId, AllocError>
    requires args { All (IsSortId table.old.sorts) args.now }
    requires sort { IsSortId table.old.sorts sort }
{
    assert!(rt; is_plain(name));
    let symbol = table.symbol(name, args, sort)?;
    made(rt, table, Op::Sym(symbol), kids)
}

// The sort of the constant with this letter.
fn sort(table: &mut Table, letter: u8) -> Result<SortId, AllocError>
    ensures { IfOk result (IsSortId table.new.sorts) }
{
    match letter {
        b'm' | b'n' => Ok(SortId::INT),
        b'v' | b'w' => Ok(BYTE),
        b't' => table.array_sort(SortId::INT, SortId::BOOL),
        _ => Ok(SortId::BOOL),
    }
}

// The constant with this letter.
pub(crate) fn constant(
    rt: &impl Abort,
    table: &mut Table,
    letter: u8,
) -> Result<NodeId, AllocError> {
    let sort = sort(table, letter)?;
    symbol(rt, table, &[letter], &[], sort, &[])
}

// The constant array over `a`.
#[tactic(auto, unfolding(term_table::specs::Formulas::kind, smt_terms::specs::Rank::is_minus))]
fn constant_array(rt: &impl Abort, table: &mut Table) -> Result<NodeId, AllocError> {
    let element = constant(rt, table, b'a')?;
    let sort = sort(table, b't')?;
    made(rt, table, Op::ConstArray(sort), &[element])
}

// The function f of `m`.
fn application(rt: &impl Abort, table: &mut Table) -> Result<NodeId, AllocError> {
    let argument = constant(rt, table, b'm')?;
    symbol(rt, table, b"f", &[SortId::INT], SortId::BOOL, &[argument])
}

// The term of a letter.
fn term(
    rt: &impl Abort,
    table: &mut Table,
    lines: &[NodeId],
    letter: u8,
) -> Result<NodeId, AllocError> {
    match letter {
        b'A'..=b'Z' => {
            let place = (letter - b'A') as usize;
            assert!(rt; place < lines.len());
            Ok(lines[place])
        }
        b'c' => constant_array(rt, table),
        b'f' => application(rt, table),
        _ => constant(rt, table, letter),
    }
}

// The node of an operator over the terms of these letters.
fn line(
    rt: &impl Abort,
    alloc: Global,
    table: &mut Table,
    lines: &[NodeId],
    op: Op,
    letters: &[u8],
) -> Result<NodeId, AllocError> {
    let mut kids = Vec::new(alloc);
    for letter in letters {
        kids.push(term(rt, table, lines, *letter)?)?;
    }
    over(rt, table, op, &kids)
}

// Asserts that this is the text of a term.
fn assert_text(
    rt: &impl Abort,
    alloc: Global,
    table: &Table,
    node: NodeId,
    layout: Layout,
    wanted: &[u8],
) -> Result<(), AllocError> {
    assert!(rt; node.0 < table.len());
    let text = term_text(alloc, table, node, layout)?;
    assert!(rt; text.as_slice() == wanted);
    Ok(())
}

// The length of the text of a term.
fn length(
    rt: &impl Abort,
    alloc: Global,
    table: &Table,
    node: NodeId,
    layout: Layout,
) -> Result<usize, AllocError> {
    assert!(rt; node.0 < table.len());
    let text = term_text(alloc, table, node, layout)?;
    Ok(text.len())
}

/// Asserts that operators over the terms of letters are written so.
pub(crate) fn assert_written(
    rt: &impl Abort,
    alloc: Global,
    lines: &[(Op, &[u8], &[u8])],
) -> Result<(), AllocError> {
    for (op, letters, text) in lines {
        let mut table = Table::new(alloc);
        let node = line(rt, alloc, &mut table, &[], *op, letters)?;
        assert_text(rt, alloc, &table, node, Layout::Tree, text)?;
    }
    Ok(())
}

// Asserts that the constant of this name is written so.
fn assert_name(rt: &impl Abort, alloc: Global, name: &[u8], text: &[u8]) -> Result<(), AllocError> {
    let mut table = Table::new(alloc);
    let node = symbol(rt, &mut table, name, &[], SortId::BOOL, &[])?;
    assert_text(rt, alloc, &table, node, Layout::Tree, text)?;
    Ok(())
}

/// Asserts that the constants of these names are written so.
pub(crate) fn assert_named(
    rt: &impl Abort,
    alloc: Global,
    names: &[(&[u8], &[u8])],
) -> Result<(), AllocError> {
    for (name, text) in names {
        assert_name(rt, alloc, name, text)?;
    }
    Ok(())
}

// The nodes of lines.
fn nodes(
    rt: &impl Abort,
    alloc: Global,
    table: &mut Table,
    lines: &[(Op, &[u8])],
) -> Result<Vec<NodeId>, AllocError> {
    let mut nodes = Vec::new(alloc);
    for (op, letters) in lines {
        nodes.push(line(rt, alloc, table, &nodes, *op, letters)?)?;
    }
    Ok(nodes)
}

/// Asserts that the last of these lines is printed so in both layouts.
pub(crate) fn assert_printed(
    rt: &impl Abort,
    alloc: Global,
    lines: &[(Op, &[u8])],
    tree: &[u8],
    dag: &[u8],
) -> Result<(), AllocError> {
    let mut table = Table::new(alloc);
    let nodes = nodes(rt, alloc, &mut table, lines)?;
    assert!(rt; 0 < nodes.len());
    let last = nodes[nodes.len() - 1];
    assert_text(rt, alloc, &table, last, Layout::Tree, tree)?;
    assert_text(rt, alloc, &table, last, Layout::Dag, dag)?;
    Ok(())
}

// The conjunction of two disjunctions with a node, `levels` times over from `p` on.
fn tower(rt: &impl Abort, table: &mut Table, levels: u32) -> Result<NodeId, AllocError> {
    let left = constant(rt, table, b'a')?;
    let right = constant(rt, table, b'b')?;
    let mut node = constant(rt, table, b'p')?;
    for _ in 0..levels {
        let first = over(rt, table, Op::Or, &[node, left])?;
        let second = over(rt, table, Op::Or, &[node, right])?;
        node = over(rt, table, Op::And, &[first, second])?;
    }
    Ok(node)
}

/// Asserts how the text of such a tower begins in layout dag, and its length.
pub(crate) fn assert_shared(
    rt: &impl Abort,
    alloc: Global,
    levels: u32,
    begin: &[u8],
    length: usize,
) -> Result<(), AllocError> {
    let mut table = Table::new(alloc);
    let node = tower(rt, &mut table, levels)?;
    assert!(rt; node.0 < table.len());
    let text = term_text(alloc, &table, node, Layout::Dag)?;
    assert!(rt; text.starts_with(begin));
    assert!(rt; text.len() == length);
    Ok(())
}

// So many negations, one inside the other.
fn nested(rt: &impl Abort, table: &mut Table, count: u32) -> Result<NodeId, AllocError> {
    let mut node = constant(rt, table, b'a')?;
    for _ in 0..count {
        node = over(rt, table, Op::Not, &[node])?;
    }
    Ok(node)
}

/// Asserts the lengths of the texts of so many negations, one inside the other, in both layouts.
pub(crate) fn assert_lengths(
    rt: &impl Abort,
    alloc: Global,
    count: u32,
    tree: usize,
    dag: usize,
) -> Result<(), AllocError> {
    let mut table = Table::new(alloc);
    let node = nested(rt, &mut table, count)?;
    assert!(rt; length(rt, alloc, &table, node, Layout::Tree)? == tree);
    assert!(rt; length(rt, alloc, &table, node, Layout::Dag)? == dag);
    Ok(())
}

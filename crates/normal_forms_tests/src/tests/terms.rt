//! Terms in prefix notation, a byte each. `T` and `F` are the truth values; small letters are constants, `m` and `n` of
//! sort Int, the others of sort Bool; `~&|>^=#?` stand for `not`, `and`, `or`, `=>`, `xor`, `=`, `distinct` and `ite`, `A`
//! and `E` for a quantifier over constants; `X`, `Y` and `Z` are nodes that are known. An operator takes as many operands as
//! a digit behind it says, or as many as it mostly has. `N` asserts that negation normal form makes of one formula the other
//! one behind it, `G` that and-inverter form does.

ghost use Rattle.std.specs.Prelude.{◌≡◌, ◌<◌, false, length, IfSome, IsTrue};
ghost use Rattle.smt_terms.specs.Rank.{is_minus};
ghost use Rattle.term_table.specs.Formulas.{Formulas, AreNodes, IsOpOf};

use normal_forms::and_inverter_form::aig;
use normal_forms::negation_normal_form::nnf;
use normal_forms::shapes::is_formula;
use smt_terms::NodeId;
use smt_values::{Op, SortId};
use std::alloc::{AllocError, Global};
use std::marker::Brand;
use std::process::Abort;
use std::sync::ledger::{Blank, Ledger};
use term_table::Table;
use term_walk::Steps;

// The operator that a byte stands for.
#[tactic(auto, unfolding(term_table::specs::Formulas::kind, smt_terms::specs::Rank::is_minus))]
fn operator(byte: u8) -> Option<Op>
    ensures numbers { (t : Formulas) → IfSome result (IsOpOf t) }
    ensures other { IfSome result (λ p. is_minus p ≡ false) }
{
    match byte {
        b'T' => Some(Op::Truth(true)),
        b'F' => Some(Op::Truth(false)),
        b'~' => Some(Op::Not),
        b'&' => Some(Op::And),
        b'|' => Some(Op::Or),
        b'>' => Some(Op::Implies),
        b'^' => Some(Op::Xor),
        b'=' => Some(Op::Equal),
        b'#' => Some(Op::Distinct),
        b'?' => Some(Op::Ite),
        b'A' => Some(Op::Forall),
        b'E' => Some(Op::Exists),
        _ => None,
    }
}

// How many operands the operator at this place of a text takes.
fn operands(text: &[u8], place: usize) -> usize
    requires { place < length text.now }
{
    match text.get(place + 1) {
        Some(digit) if digit.is_ascii_digit() => (*digit - b'0') as usize,
        _ => match text[place] {
            b'T' | b'F' => 0,
            b'~' => 1,
            b'?' => 3,
            _ => 2,
        },
    }
}

// Whether these are nodes of the table.
fn are_nodes(table: &Table, kids: &[NodeId]) -> bool
    ensures { IsTrue result → AreNodes table.now kids.now }
{
    for kid in kids {
        if kid.0 >= table.len() {
            return false;
        }
    }
    true
}

// The node of an operator over operands that it has a rank over.
fn made(rt: &impl Abort, table: &mut Table, op: Op, kids: &[NodeId]) -> Result<NodeId, AllocError>
    requires numbers { IsOpOf table.old op }
    requires other { is_minus op ≡ false }
{
    if !are_nodes(table, kids) {
        panic!(rt; "an operand is no node of the table");
    }
    match table.rank(op, kids) {
        Ok(_) => table.intern(op, kids),
        Err(fault) => panic!(rt; "{fault:?}"),
    }
}

// The constant with this letter for its name.
#[tactic(auto, unfolding(term_table::specs::Formulas::kind, smt_terms::specs::Rank::is_minus))]
fn constant(rt: &impl Abort, table: &mut Table, letter: u8) -> Result<NodeId, AllocError> {
    assert!(rt; letter != b'|' && letter != b'\\');
    let sort = if letter == b'm' || letter == b'n' {
        SortId::INT
    } else {
        SortId::BOOL
    };
    let symbol = table.symbol(&[letter], &[], sort)?;
    made(rt, table, Op::Sym(symbol), &[])
}

// Takes so many nodes off, the last one first.
fn take(
    rt: &impl Abort,
    alloc: Global,
    found: &mut Vec<NodeId>,
    count: usize,
) -> Result<Vec<NodeId>, AllocError> {
    let mut taken = Vec::new(alloc);
    for _ in 0..count {
        match found.pop() {
            Some(node) => taken.push(node)?,
            None => panic!(rt; "an operand is missing"),
        }
    }
    Ok(taken)
}

// The normal forms.
#[derive(Clone, Copy)]
enum Form {
    Negation,
    Inverter,
}

// A form of a formula, with a count of its own.
fn formed<L: Ledger>(
    rt: &impl Abort,
    alloc: Global,
    table: &mut Table,
    id: NodeId,
    form: Form,
    blank: Blank,
) -> Result<NodeId, AllocError>
    requires name { blank.name ≡ L.name }
    requires parts { blank.parts ≡ L.parts }
    requires some { 0 < L.parts }
{
    assert!(rt; id.0 < table.len());
    assert!(rt; is_formula(table, id));
    let mut steps = Steps::<L>::new(blank);
    match form {
        Form::Negation => nnf(alloc, table, id, &mut steps),
        Form::Inverter => aig(alloc, table, id, &mut steps),
    }
}

// The node that an operator makes of the nodes behind it, which are taken off.
fn applied(
    rt: &impl Abort,
    alloc: Global,
    table: &mut Table,
    found: &mut Vec<NodeId>,
    byte: u8,
    count: usize,
) -> Result<NodeId, AllocError> {
    let kids = take(rt, alloc, found, count)?;
    match operator(byte) {
        Some(op) => made(rt, table, op, kids.as_slice()),
        None => panic!(rt; "no operator is {byte}"),
    }
}

// Asserts that this form of the last node found is the one before it, and takes both off.
fn compare(
    rt: &impl Abort,
    alloc: Global,
    table: &mut Table,
    found: &mut Vec<NodeId>,
    form: Form,
) -> Result<(), AllocError> {
    let pair = take(rt, alloc, found, 2)?;
    assert!(rt; pair.len() == 2);
    let normal = formed::<Brand>(rt, alloc, table, pair[0], form, Blank::new(1))?;
    assert!(rt; normal == pair[1]);
    Ok(())
}

// The node of so many places before the last one.
fn earlier(rt: &impl Abort, known: &[NodeId], places: usize) -> NodeId {
    assert!(rt; places < known.len());
    known[known.len() - 1 - places]
}

// Reads the byte at this place, where all behind it is read.
fn read(
    rt: &impl Abort,
    alloc: Global,
    table: &mut Table,
    found: &mut Vec<NodeId>,
    known: &[NodeId],
    text: &[u8],
    place: usize,
) -> Result<(), AllocError>
    requires { place < length text.now }
{
    let node = match text[place] {
        b' ' | b'\n' | b'0'..=b'9' => return Ok(()),
        b'N' => return compare(rt, alloc, table, found, Form::Negation),
        b'G' => return compare(rt, alloc, table, found, Form::Inverter),
        b'X'..=b'Z' => earlier(rt, known, (text[place] - b'X') as usize),
        b'a'..=b'z' => constant(rt, table, text[place])?,
        byte => applied(rt, alloc, table, found, byte, operands(text, place))?,
    };
    found.push(node)?;
    Ok(())
}

// The nodes of the terms that a text has, the first one last.
fn terms(
    rt: &impl Abort,
    alloc: Global,
    table: &mut Table,
    known: &[NodeId],
    text: &[u8],
) -> Result<Vec<NodeId>, AllocError> {
    let mut found = Vec::new(alloc);
    let mut place = text.len();
    while place > 0 {
        place -= 1;
        read(rt, alloc, table, &mut found, known, text, place)?;
    }
    Ok(found)
}

/// Terms that stand over each other: those of `turn` know those of the turn before, the first turn those of `start`.
#[derive(Clone, Copy)]
pub(crate) struct Tower<'a> {
    pub(crate) start: &'a [u8],
    pub(crate) turn: &'a [u8],
    pub(crate) turns: u64,
}

// The nodes of the last turn.
fn built(
    rt: &impl Abort,
    alloc: Global,
    table: &mut Table,
    tower: Tower<'_>,
) -> Result<Vec<NodeId>, AllocError> {
    let mut nodes = terms(rt, alloc, table, &[], tower.start)?;
    for _ in 0..tower.turns {
        nodes = terms(rt, alloc, table, nodes.as_slice(), tower.turn)?;
    }
    Ok(nodes)
}

// How many nodes the table has after this text over a tower.
fn counted(
    rt: &impl Abort,
    alloc: Global,
    table: &mut Table,
    tower: Tower<'_>,
    text: &[u8],
) -> Result<u64, AllocError> {
    let known = built(rt, alloc, table, tower)?;
    terms(rt, alloc, table, known.as_slice(), text)?;
    Ok(table.len())
}

/// How many nodes a new table has after this text over a tower.
pub(crate) fn nodes_after(
    rt: &impl Abort,
    alloc: Global,
    tower: Tower<'_>,
    text: &[u8],
) -> Result<u64, AllocError> {
    let mut table = Table::new(alloc);
    counted(rt, alloc, &mut table, tower, text)
}

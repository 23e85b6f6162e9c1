//! Terms in prefix notation, a byte each. `T` and `F` are the truth values; small letters are constants, `m` and `n` those
//! of eight bits, the others of sort Bool; `U` to `Z` are the Bool constants with the names `FV0` to `FV5`, `K` and `L` the
//! constants `FV0` and `FV1` of eight bits; `~&|>^=?` stand for `not`, `and`, `or`, `=>`, `xor`, `=` and `ite`, `A` and `E`
//! for a quantifier over constants; `G` to `J` are nodes that are known. An operator takes as many operands as a digit
//! behind it says, or as many as it mostly has. `P` asserts that prenex form makes of one formula the other one behind it,
//! where `FV2` is taken, `S` that Shannon's expansion does, and `Q` that self-substitution does.

ghost use Rattle.std.specs.Prelude.{◌≡◌, ◌<◌, false, length, IfSome, IsTrue};
ghost use Rattle.smt_terms.specs.Fresh.{Supply};
ghost use Rattle.smt_terms.specs.Rank.{is_minus};
ghost use Rattle.smt_terms.specs.SubstLaws.{GivesNone, names_within};
ghost use Rattle.term_table.specs.Formulas.{Formulas, tree, AreNodes, IsOpOf};
ghost use Rattle.normal_forms.specs.Nodes.{IsFormula};

use super::spared::is_spared;
use boolean_quantifiers::{self_subst, shannon};
use normal_forms::shapes::is_formula;
use quantifier_forms::prenex;
use smt_terms::NodeId;
use smt_values::{Op, SortId};
use std::alloc::{AllocError, Global};
use std::process::Abort;
use term_subst::{Fresh, NameSet};
use term_table::Table;

const BYTE: SortId = SortId(9);

// The operator that a byte stands for.
#[tactic(auto, unfolding(term_table::specs::Formulas::kind, smt_terms::specs::Rank::is_minus))]
fn operator(byte: u8) -> Option<Op>
    ensures numbers { (t : Formulas) → IfSome result (IsOpOf t) }
    ensures other { IfSome result (λ p. is_minus p ≡ false) }
{
    match byte {
        b'T' => Some(Op::Truth(true)),
        b'F' => Some(Op::Truth(false)),
        b'~' => Some(Op::Not),
        b'&' => Some(Op::And),
        b'|' => Some(Op::Or),
        b'>' => Some(Op::Implies),
        b'^' => Some(Op::Xor),
        b'=' => Some(Op::Equal),
        b'?' => Some(Op::Ite),
        b'A' => Some(Op::Forall),
        b'E' => Some(Op::Exists),
        _ => None,
    }
}

// How many operands the operator at this place of a text takes.
fn operands(text: &[u8], place: usize) -> usize
    requires { place < length text.now }
{
    match text.get(place + 1) {
        Some(digit) if digit.is_ascii_digit() => (*digit - b'0') as usize,
        _ => match text[place] {
            b'T' | b'F' => 0,
            b'~' => 1,
            b'?' => 3,
            _ => 2,
        },
    }
}

// Whether these are nodes of the table.
fn are_nodes(table: &Table, kids: &[NodeId]) -> bool
    ensures { IsTrue result → AreNodes table.now kids.now }
{
    for kid in kids {
        if kid.0 >= table.len() {
            return false;
        }
    }
    true
}

// The node of an operator over operands that it has a rank over.
fn made(rt: &impl Abort, table: &mut Table, op: Op, kids: &[NodeId]) -> Result<NodeId, AllocError>
    requires numbers { IsOpOf table.old op }
    requires other { is_minus op ≡ false }
{
    if !are_nodes(table, kids) {
        panic!(rt; "an operand is no node of the table");
    }
    match table.rank(op, kids) {
        Ok(_) => table.intern(op, kids),
        Err(fault) => panic!(rt; "{fault:?}"),
    }
}

// The constant with this letter for its name.
#[tactic(auto, unfolding(term_table::specs::Formulas::kind, smt_terms::specs::Rank::is_minus))]
fn constant(rt: &impl Abort, table: &mut Table, letter: u8) -> Result<NodeId, AllocError> {
    assert!(rt; letter != b'|' && letter != b'\\');
    let sort = if letter == b'm' || letter == b'n' {
        BYTE
    } else {
        SortId::BOOL
    };
    let symbol = table.symbol(&[letter], &[], sort)?;
    let node = made(rt, table, Op::Sym(symbol), &[])?;
    Ok(node)
}

// The constant with the fresh name of this number.
#[tactic(auto, unfolding(term_table::specs::Formulas::kind, smt_terms::specs::Rank::is_minus))]
fn fresh_constant(
    rt: &impl Abort,
    table: &mut Table,
    number: u8,
    sort: SortId,
) -> Result<NodeId, AllocError> {
    assert!(rt; number < 10);
    assert!(rt; sort.0 < 130);
    let symbol = table.symbol(&[b'F', b'V', b'0' + number], &[], sort)?;
    let node = made(rt, table, Op::Sym(symbol), &[])?;
    Ok(node)
}

// Takes so many nodes off, the last one first.
fn take(
    rt: &impl Abort,
    alloc: Global,
    found: &mut Vec<NodeId>,
    count: usize,
) -> Result<Vec<NodeId>, AllocError> {
    let mut taken = Vec::new(alloc);
    for _ in 0..count {
        match found.pop() {
            Some(node) => taken.push(node)?,
            None => panic!(rt; "an operand is missing"),
        }
    }
    Ok(taken)
}

// The forms without quantifiers in some places.
#[derive(Clone, Copy)]
enum Form {
    Prenex,
    Expanded,
    Substituted,
}

// A form of a formula, with names that stand nowhere in it.
fn formed(
    alloc: Global,
    table: &mut Table,
    id: NodeId,
    form: Form,
    fresh: &mut Fresh,
) -> Result<NodeId, AllocError>
    requires formula { IsFormula table.old id }
    requires spared { GivesNone fresh.old (names_within (tree table.old id)) }
{
    match form {
        Form::Prenex => prenex(alloc, table, id, fresh),
        Form::Expanded => shannon(alloc, table, id),
        Form::Substituted => self_subst(alloc, table, id, fresh),
    }
}

// The names from the first one on, but for the third.
fn supply(alloc: Global) -> Result<Fresh, AllocError> {
    let mut names = NameSet::new(alloc);
    names.add(b"FV2")?;
    Ok(Fresh::new(alloc, names))
}

// A form of a formula that has none of the names, with these names.
fn with_names(
    alloc: Global,
    table: &mut Table,
    id: NodeId,
    form: Form,
) -> Result<NodeId, AllocError>
    requires formula { IsFormula table.old id }
    requires spared { (s : Supply) → GivesNone s (names_within (tree table.old id)) }
{
    let mut fresh = supply(alloc)?;
    formed(alloc, table, id, form, &mut fresh)
}

// A form of a node, which has to be a formula with names of one byte.
fn form_of(
    rt: &impl Abort,
    alloc: Global,
    table: &mut Table,
    id: NodeId,
    form: Form,
) -> Result<NodeId, AllocError> {
    assert!(rt; id.0 < table.len());
    assert!(rt; is_formula(table, id));
    assert!(rt; is_spared(alloc, table, id)?);
    with_names(alloc, table, id, form)
}

// The node that an operator makes of the nodes behind it, which are taken off.
fn applied(
    rt: &impl Abort,
    alloc: Global,
    table: &mut Table,
    found: &mut Vec<NodeId>,
    byte: u8,
    count: usize,
) -> Result<NodeId, AllocError> {
    let kids = take(rt, alloc, found, count)?;
    match operator(byte) {
        Some(op) => made(rt, table, op, kids.as_slice()),
        None => panic!(rt; "no operator is {byte}"),
    }
}

// Asserts that this form of the last node found is the one before it, and takes both off.
fn compare(
    rt: &impl Abort,
    alloc: Global,
    table: &mut Table,
    found: &mut Vec<NodeId>,
    form: Form,
) -> Result<(), AllocError> {
    let pair = take(rt, alloc, found, 2)?;
    assert!(rt; pair.len() == 2);
    let result = form_of(rt, alloc, table, pair[0], form)?;
    assert!(rt; result == pair[1]);
    Ok(())
}

// The node of so many places before the last one.
fn earlier(rt: &impl Abort, known: &[NodeId], places: usize) -> NodeId {
    assert!(rt; places < known.len());
    known[known.len() - 1 - places]
}

// Reads the byte at this place, where all behind it is read.
fn read(
    rt: &impl Abort,
    alloc: Global,
    table: &mut Table,
    found: &mut Vec<NodeId>,
    known: &[NodeId],
    text: &[u8],
    place: usize,
) -> Result<(), AllocError>
    requires { place < length text.now }
{
    let node = match text[place] {
        b' ' | b'\n' | b'0'..=b'9' => return Ok(()),
        b'P' => return compare(rt, alloc, table, found, Form::Prenex),
        b'S' => return compare(rt, alloc, table, found, Form::Expanded),
        b'Q' => return compare(rt, alloc, table, found, Form::Substituted),
        b'G'..=b'J' => earlier(rt, known, (text[place] - b'G') as usize),
        b'K'..=b'L' => fresh_constant(rt, table, text[place] - b'K', BYTE)?,
        b'U'..=b'Z' => fresh_constant(rt, table, text[place] - b'U', SortId::BOOL)?,
        b'a'..=b'z' => constant(rt, table, text[place])?,
        byte => applied(rt, alloc, table, found, byte, operands(text, place))?,
    };
    found.push(node)?;
    Ok(())
}

// The nodes of the terms that a text has, the first one last.
fn terms(
    rt: &impl Abort,
    alloc: Global,
    table: &mut Table,
    known: &[NodeId],
    text: &[u8],
) -> Result<Vec<NodeId>, AllocError> {
    let mut found = Vec::new(alloc);
    let mut place = text.len();
    while place > 0 {
        place -= 1;
        read(rt, alloc, table, &mut found, known, text, place)?;
    }
    Ok(found)
}

/// Terms that stand over each other: those of `turn` know those of the turn before, the first turn those of `start`, and
/// `start` those of the tower below.
#[derive(Clone, Copy)]
pub(crate) struct Tower<'a> {
    pub(crate) start: &'a [u8],
    pub(crate) turn: &'a [u8],
    pub(crate) turns: u64,
}

// The nodes of the last turn of a tower over known nodes.
fn built(
    rt: &impl Abort,
    alloc: Global,
    table: &mut Table,
    known: &[NodeId],
    tower: Tower<'_>,
) -> Result<Vec<NodeId>, AllocError> {
    let mut nodes = terms(rt, alloc, table, known, tower.start)?;
    for _ in 0..tower.turns {
        nodes = terms(rt, alloc, table, nodes.as_slice(), tower.turn)?;
    }
    Ok(nodes)
}

// Reads this text over towers, the first one lowest.
fn read_over(
    rt: &impl Abort,
    alloc: Global,
    table: &mut Table,
    towers: &[Tower<'_>],
    text: &[u8],
) -> Result<(), AllocError> {
    let mut known = Vec::new(alloc);
    for tower in towers {
        known = built(rt, alloc, table, known.as_slice(), *tower)?;
    }
    terms(rt, alloc, table, known.as_slice(), text)?;
    Ok(())
}

/// Reads this text over towers, the first one lowest, in a new table.
pub(crate) fn after(
    rt: &impl Abort,
    alloc: Global,
    towers: &[Tower<'_>],
    text: &[u8],
) -> Result<(), AllocError> {
    let mut table = Table::new(alloc);
    read_over(rt, alloc, &mut table, towers, text)
}

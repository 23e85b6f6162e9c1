//! Formulas in which each operator stands behind its operands, a letter each. `x`, `y` and `z` are constants of sort Bool, a
//! digit is the one with the drawn name of this number, `i` is a constant of sort Int; `f` and `g` are 5 and -5; `noapAE`
//! stand for `not`, `or`, `and`, `+` and the quantifiers over one constant, `m` for the unary minus; `d` is the last node
//! once more.

ghost use Rattle.std.specs.Prelude.{◌≡◌, [], false, IfOk, IfSome, IsTrue, Some};
ghost use Rattle.smt_terms.specs.Rank.{is_minus, sort_of};
ghost use Rattle.smt_terms.specs.Fresh.{Supply};
ghost use Rattle.smt_values.specs.SortIds.{IsPlain, IsSortId};
ghost use Rattle.term_table.specs.Formulas.{Formulas, IsNode, AreNodes, IsOpOf};
ghost use Rattle.term_subst.specs.Building.{AreSpared};
ghost use Rattle.term_subst.specs.Substituting.{IsPair};

use super::spared::are_spared;
use smt_terms::{NodeId, SymId};
use smt_values::{Op, SortId};
use std::alloc::{AllocError, Global};
use std::process::Abort;
use std::test::Fail;
use term_subst::{Definition, Fresh, NameSet, SymMap, expand, substitute};
use term_table::{Syms, Table};

// Whether these are nodes of the table.
fn are_nodes(table: &Table, kids: &[NodeId]) -> bool
    ensures { IsTrue result → AreNodes table.now kids.now }
{
    for kid in kids {
        if kid.0 >= table.len() {
            return false;
        }
    }
    true
}

// The node of an operator over operands that it has a rank over.
fn made(rt: &impl Abort, table: &mut Table, op: Op, kids: &[NodeId]) -> Result<NodeId, AllocError>
    requires numbers { IsOpOf table.old op }
    requires other { is_minus op ≡ false }
{
    if !are_nodes(table, kids) {
        panic!(rt; "an operand is no node of the table");
    }
    match table.rank(op, kids) {
        Ok(_) => table.intern(op, kids),
        Err(fault) => panic!(rt; "{fault:?}"),
    }
}

// Puts the node of an operator over the last nodes in their place.
fn over_last(
    rt: &impl Abort,
    table: &mut Table,
    nodes: &mut Vec<NodeId>,
    op: Op,
    count: usize,
) -> Result<(), AllocError>
    requires numbers { IsOpOf table.old op }
    requires other { is_minus op ≡ false }
{
    if nodes.len() < count {
        panic!(rt; "too few operands");
    }
    let start = nodes.len() - count;
    let node = made(rt, table, op, &nodes[start..])?;
    nodes.truncate(start);
    nodes.push(node)?;
    Ok(())
}

// Puts the constant of this name and this sort last.
#[tactic(auto, unfolding(term_table::specs::Formulas::kind, smt_terms::specs::Rank::is_minus))]
fn constant(
    rt: &impl Abort,
    table: &mut Table,
    nodes: &mut Vec<NodeId>,
    name: &[u8],
    sort: SortId,
) -> Result<(), AllocError>
    requires name { IsPlain name.now }
    requires sort { IsSortId table.old.sorts sort }
{
    let symbol = table.symbol(name, &[], sort)?;
    over_last(rt, table, nodes, Op::Sym(symbol), 0)?;
    Ok(())
}

// Puts the constant last that a letter stands for.
fn named(
    rt: &impl Abort,
    table: &mut Table,
    nodes: &mut Vec<NodeId>,
    letter: u8,
) -> Result<(), AllocError> {
    match letter {
        b'0'..=b'9' => constant(rt, table, nodes, &[b'F', b'V', letter], SortId::BOOL),
        b'i' => constant(rt, table, nodes, &[letter], SortId::INT),
        b'x'..=b'z' => constant(rt, table, nodes, &[letter], SortId::BOOL),
        _ => panic!(rt; "no letter"),
    }
}

// The operator that a letter stands for, and the number of its operands.
#[tactic(auto, unfolding(term_table::specs::Formulas::kind, smt_terms::specs::Rank::is_minus))]
fn operator(letter: u8) -> Option<(Op, usize)>
    ensures numbers { (t : Formulas) → IfSome result (λ r. IsOpOf t r.0) }
    ensures other { IfSome result (λ r. is_minus r.0 ≡ false) }
{
    match letter {
        b'n' => Some((Op::Not, 1)),
        b'a' => Some((Op::And, 2)),
        b'o' => Some((Op::Or, 2)),
        b'p' => Some((Op::Add, 2)),
        b'A' => Some((Op::Forall, 2)),
        b'E' => Some((Op::Exists, 2)),
        b'f' => Some((Op::Whole(5), 0)),
        b'g' => Some((Op::Whole(-5), 0)),
        _ => None,
    }
}

// Takes off the last node.
fn last(rt: &impl Abort, table: &Table, nodes: &mut Vec<NodeId>) -> NodeId
    ensures { IsNode table.now result }
{
    match nodes.pop() {
        Some(node) if node.0 < table.len() => node,
        _ => panic!(rt; "no node"),
    }
}

// The unary minus of a node.
fn minus(rt: &impl Abort, table: &mut Table, node: NodeId) -> Result<NodeId, AllocError>
    requires { IsNode table.old node }
{
    if table.sort_of(node).0 != 1 {
        panic!(rt; "no whole number");
    }
    table.minus(node)
}

// Puts the node of an operator, or of a constant, in the place of its operands.
fn put(
    rt: &impl Abort,
    table: &mut Table,
    nodes: &mut Vec<NodeId>,
    letter: u8,
) -> Result<(), AllocError> {
    match operator(letter) {
        Some((op, count)) => over_last(rt, table, nodes, op, count),
        None => named(rt, table, nodes, letter),
    }
}

// Reads a letter.
fn read(
    rt: &impl Abort,
    table: &mut Table,
    nodes: &mut Vec<NodeId>,
    letter: u8,
) -> Result<(), AllocError> {
    match letter {
        b'm' => {
            let node = last(rt, table, nodes);
            let minus = minus(rt, table, node)?;
            nodes.push(minus)?;
            Ok(())
        }
        b'd' => {
            let node = last(rt, table, nodes);
            nodes.push(node)?;
            nodes.push(node)?;
            Ok(())
        }
        _ => put(rt, table, nodes, letter),
    }
}

// The nodes of texts, each read so many times.
fn read_all(
    rt: &impl Abort,
    alloc: Global,
    table: &mut Table,
    texts: &[(&[u8], usize)],
) -> Result<Vec<NodeId>, AllocError> {
    let mut nodes = Vec::new(alloc);
    for text in texts {
        for _ in 0..text.1 {
            for letter in text.0 {
                read(rt, table, &mut nodes, *letter)?;
            }
        }
    }
    Ok(nodes)
}

/// The names but for these two.
pub(crate) fn supply_but(alloc: Global, first: &[u8], second: &[u8]) -> Result<Fresh, AllocError> {
    let mut names = NameSet::new(alloc);
    names.add(first)?;
    names.add(second)?;
    Ok(Fresh::new(alloc, names))
}

// A node with an image for a constant, by substitution.
fn substituted(
    alloc: Global,
    table: &mut Table,
    root: NodeId,
    symbol: SymId,
    image: NodeId,
    fresh: &mut Fresh,
) -> Result<NodeId, AllocError>
    requires root { IsNode table.old root }
    requires pair { IsPair table.old (symbol, image) }
    requires spared { AreSpared fresh.old table.old }
{
    let mut map = SymMap::new(alloc);
    map.set(symbol, image)?;
    let node = substitute(alloc, table, &map, root, fresh)?;
    Ok(node)
}

// A node with an image for a constant, as a definition with this parameter.
fn expanded(
    alloc: Global,
    table: &mut Table,
    root: NodeId,
    symbol: SymId,
    image: NodeId,
    fresh: &mut Fresh,
) -> Result<NodeId, AllocError>
    requires root { IsNode table.old root }
    requires pair { IsPair table.old (symbol, image) }
    requires spared { AreSpared fresh.old table.old }
{
    let mut params = Syms::new(alloc);
    params.push(symbol)?;
    let definition = Definition { params, body: root };
    let node = expand(alloc, table, &definition, &[image], fresh)?;
    Ok(node)
}

// The constant that an image takes the place of: `x`, or `i` for a whole number.
fn replaced(table: &mut Table, image: NodeId) -> Result<SymId, AllocError>
    requires { IsNode table.old image }
    ensures pair { IfOk result (λ f. IsPair table.new (f, image)) }
    ensures trees { table.new.trees ≡ table.old.trees }
{
    let sort = table.sort_of(image);
    let name = if sort.0 == 1 { b"i" } else { b"x" };
    let symbol = table.symbol(name, &[], sort)?;
    Ok(symbol)
}

// The way to put an image in.
#[derive(Clone, Copy)]
enum Way {
    Substitution,
    Expansion,
}

// A node with an image for a constant, put in this way.
fn with_image(
    alloc: Global,
    table: &mut Table,
    root: NodeId,
    symbol: SymId,
    image: NodeId,
    way: Way,
) -> Result<NodeId, AllocError>
    requires root { IsNode table.old root }
    requires pair { IsPair table.old (symbol, image) }
    requires spared { (s : Supply) → AreSpared s table.old }
{
    let mut fresh = supply_but(alloc, b"FV1", b"FV10")?;
    match way {
        Way::Substitution => substituted(alloc, table, root, symbol, image, &mut fresh),
        Way::Expansion => expanded(alloc, table, root, symbol, image, &mut fresh),
    }
}

// The last node, with the one before it in the place of a constant.
fn put_in(
    rt: &impl Abort,
    alloc: Global,
    table: &mut Table,
    nodes: &mut Vec<NodeId>,
    way: Way,
) -> Result<NodeId, AllocError> {
    let root = last(rt, table, nodes);
    let image = last(rt, table, nodes);
    let symbol = replaced(table, image)?;
    if !are_spared(table) {
        panic!(rt; "a name that may be drawn");
    }
    with_image(alloc, table, root, symbol, image, way)
}

// The node that putting an image in gives, where the table gains so many nodes.
fn counted(
    rt: &impl Abort,
    alloc: Global,
    table: &mut Table,
    nodes: &mut Vec<NodeId>,
    more: u64,
    way: Way,
) -> Result<NodeId, AllocError> {
    let count = table.len();
    let node = put_in(rt, alloc, table, nodes, way)?;
    assert!(rt; table.len() == count.saturating_add(more));
    Ok(node)
}

// The node that the last one of these texts becomes.
fn result_of(
    rt: &impl Abort,
    alloc: Global,
    table: &mut Table,
    texts: &[(&[u8], usize)],
    more: u64,
    way: Way,
) -> Result<NodeId, AllocError> {
    let mut nodes = read_all(rt, alloc, table, texts)?;
    counted(rt, alloc, table, &mut nodes, more, way)
}

// Asserts that a node is the last one of these texts.
fn is_last(
    rt: &impl Abort,
    alloc: Global,
    table: &mut Table,
    texts: &[(&[u8], usize)],
    node: NodeId,
) -> Result<(), AllocError> {
    let mut nodes = read_all(rt, alloc, table, texts)?;
    assert!(rt; nodes.pop() == Some(node));
    Ok(())
}

// Asserts that the texts give the wanted formula in this way, with so many more nodes.
fn gives_by(
    rt: &impl Abort,
    alloc: Global,
    table: &mut Table,
    texts: &[(&[u8], usize)],
    wanted: &[(&[u8], usize)],
    more: u64,
    way: Way,
) -> Result<(), AllocError> {
    let node = result_of(rt, alloc, table, texts, more, way)?;
    is_last(rt, alloc, table, wanted, node)
}

// Asserts what `gives_by` does, in a new table.
fn gives_anew(
    rt: &impl Abort,
    alloc: Global,
    texts: &[(&[u8], usize)],
    wanted: &[(&[u8], usize)],
    more: u64,
    way: Way,
) -> Result<(), AllocError> {
    let mut table = Table::new(alloc);
    gives_by(rt, alloc, &mut table, texts, wanted, more, way)
}

/// Asserts that the last node of the texts, with the node before it for `x`, or for `i`, is the wanted formula, and that
/// the table has so many more nodes then.
pub(crate) fn gives(
    rt: &impl Abort,
    alloc: Global,
    texts: &[(&[u8], usize)],
    wanted: &[(&[u8], usize)],
    more: u64,
) -> Result<(), Fail> {
    gives_anew(rt, alloc, texts, wanted, more, Way::Substitution)?;
    gives_anew(rt, alloc, texts, wanted, more, Way::Expansion)?;
    Ok(())
}

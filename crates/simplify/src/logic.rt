//! The laws of the operators of Core over one, two and three operands, and of `distinct`.

ghost use Rattle.std.specs.Prelude.{◌≡◌, ◌&&◌, length, nat_le, IfOk};
ghost use Rattle.smt_terms.specs.declared.op.Op.TheVariants.{Xor, Implies, Equal, Distinct, Ite};
ghost use Rattle.smt_terms.specs.Rank.{sort_of};
ghost use Rattle.term_table.specs.Formulas.{kind, theory, tree, trees_at, IsNode, AreNodes, Makes};
ghost use Rattle.term_walk.specs.Walking.{GrowsTo};
ghost use Rattle.normal_forms.specs.Nodes.{IsFormula};
ghost use Rattle.simplify.specs.Folding.{one, two, three};
ghost use Rattle.simplify.specs.Folding as plain;
ghost use Rattle.simplify.specs.Logic as logic;
ghost use Rattle.simplify.specs.Reduced.{Answers, IsOver};

use crate::constants::is_truth;
use crate::operands::{once, only_operand};
use normal_forms::comparing::are_same;
use normal_forms::making::truth;
use normal_forms::opposites::opposite;
use normal_forms::shapes::is_formula;
use smt_terms::NodeId;
use smt_values::Op;
use std::alloc::{AllocError, Global};
use term_table::{Table, know_table};

/// An operator that undoes itself, over itself: the inner operand.
pub(crate) fn twice(table: &Table, op: Op, ids: &[NodeId]) -> Option<NodeId>
    requires over { IsOver table.now op ids.now }
    requires theory { kind op ≡ theory op }
    ensures { Answers table.now (one (plain.twice op) (trees_at table.now ids.now)) result }
{
    match ids {
        [id] => only_operand(table, op, *id),
        _ => None,
    }
}

// The law of `xor` over two formulas.
fn exclusive_pair(table: &mut Table, a: NodeId, b: NodeId) -> Result<Option<NodeId>, AllocError>
    requires a { IsFormula table.old a }
    requires b { IsFormula table.old b }
    ensures found { IfOk result (Answers table.new (logic.exclusive (tree table.old a) (tree table.old b))) }
    ensures grows { GrowsTo table.old table.new }
    ensures symbols { table.new.symbols ≡ table.old.symbols }
    ensures sorts { table.new.sorts ≡ table.old.sorts }
{
    if are_same(table, a, b) {
        let id = truth(table, false)?;
        return Ok(Some(id));
    }
    if is_truth(table, a, true) {
        let id = opposite(table, b)?;
        return Ok(Some(id));
    }
    if is_truth(table, b, true) {
        let id = opposite(table, a)?;
        return Ok(Some(id));
    }
    if is_truth(table, a, false) {
        return Ok(Some(b));
    }
    if is_truth(table, b, false) {
        return Ok(Some(a));
    }
    Ok(None)
}

/// The law of `xor`.
pub(crate) fn exclusive(table: &mut Table, ids: &[NodeId]) -> Result<Option<NodeId>, AllocError>
    requires { Makes table.old Xor ids.now }
    ensures found { IfOk result (Answers table.new (two logic.exclusive (trees_at table.old ids.now))) }
    ensures grows { GrowsTo table.old table.new }
    ensures symbols { table.new.symbols ≡ table.old.symbols }
    ensures sorts { table.new.sorts ≡ table.old.sorts }
{
    know_table(table);
    match ids {
        [a, b] => exclusive_pair(table, *a, *b),
        _ => Ok(None),
    }
}

// The law of `=>` over two formulas.
fn implied_pair(table: &mut Table, a: NodeId, b: NodeId) -> Result<Option<NodeId>, AllocError>
    requires a { IsFormula table.old a }
    requires b { IsFormula table.old b }
    ensures found { IfOk result (Answers table.new (logic.implication (tree table.old a) (tree table.old b))) }
    ensures grows { GrowsTo table.old table.new }
    ensures symbols { table.new.symbols ≡ table.old.symbols }
    ensures sorts { table.new.sorts ≡ table.old.sorts }
{
    if is_truth(table, a, false) {
        let id = truth(table, true)?;
        return Ok(Some(id));
    }
    if is_truth(table, b, true) {
        let id = truth(table, true)?;
        return Ok(Some(id));
    }
    if are_same(table, a, b) {
        let id = truth(table, true)?;
        return Ok(Some(id));
    }
    if is_truth(table, a, true) {
        return Ok(Some(b));
    }
    if is_truth(table, b, false) {
        let id = opposite(table, a)?;
        return Ok(Some(id));
    }
    Ok(None)
}

/// The law of `=>`.
pub(crate) fn implication(table: &mut Table, ids: &[NodeId]) -> Result<Option<NodeId>, AllocError>
    requires { Makes table.old Implies ids.now }
    ensures found { IfOk result (Answers table.new (two logic.implication (trees_at table.old ids.now))) }
    ensures grows { GrowsTo table.old table.new }
    ensures symbols { table.new.symbols ≡ table.old.symbols }
    ensures sorts { table.new.sorts ≡ table.old.sorts }
{
    know_table(table);
    match ids {
        [a, b] => implied_pair(table, *a, *b),
        _ => Ok(None),
    }
}

// The law of `=` over two nodes of one sort.
fn equal_pair(table: &mut Table, a: NodeId, b: NodeId) -> Result<Option<NodeId>, AllocError>
    requires a { IsNode table.old a }
    requires b { IsNode table.old b }
    requires sorts { sort_of (tree table.old a) ≡ sort_of (tree table.old b) }
    ensures found { IfOk result (Answers table.new (logic.equation (tree table.old a) (tree table.old b))) }
    ensures grows { GrowsTo table.old table.new }
    ensures symbols { table.new.symbols ≡ table.old.symbols }
    ensures sorts { table.new.sorts ≡ table.old.sorts }
{
    if are_same(table, a, b) {
        let id = truth(table, true)?;
        return Ok(Some(id));
    }
    if is_truth(table, a, true) {
        return Ok(Some(b));
    }
    if is_truth(table, b, true) {
        return Ok(Some(a));
    }
    if is_truth(table, a, false) {
        let id = opposite(table, b)?;
        return Ok(Some(id));
    }
    if is_truth(table, b, false) {
        let id = opposite(table, a)?;
        return Ok(Some(id));
    }
    Ok(None)
}

/// The law of `=`.
pub(crate) fn equation(table: &mut Table, ids: &[NodeId]) -> Result<Option<NodeId>, AllocError>
    requires { Makes table.old Equal ids.now }
    ensures found { IfOk result (Answers table.new (two logic.equation (trees_at table.old ids.now))) }
    ensures grows { GrowsTo table.old table.new }
    ensures symbols { table.new.symbols ≡ table.old.symbols }
    ensures sorts { table.new.sorts ≡ table.old.sorts }
{
    know_table(table);
    match ids {
        [a, b] => equal_pair(table, *a, *b),
        _ => Ok(None),
    }
}

// Whether two nodes are these two truth values.
fn are_truths(table: &Table, a: NodeId, b: NodeId, first: bool, second: bool) -> bool
    requires a { IsNode table.now a }
    requires b { IsNode table.now b }
    ensures { result ≡ (plain.is_truth first (tree table.now a) && plain.is_truth second (tree table.now b)) }
{
    is_truth(table, a, first) && is_truth(table, b, second)
}

// The law of `ite` over a formula and two nodes.
fn chosen(table: &mut Table, c: NodeId, a: NodeId, b: NodeId) -> Result<Option<NodeId>, AllocError>
    requires c { IsFormula table.old c }
    requires a { IsNode table.old a }
    requires b { IsNode table.old b }
    ensures found { IfOk result (Answers table.new (logic.choice (tree table.old c) (tree table.old a) (tree table.old b))) }
    ensures grows { GrowsTo table.old table.new }
    ensures symbols { table.new.symbols ≡ table.old.symbols }
    ensures sorts { table.new.sorts ≡ table.old.sorts }
{
    if is_truth(table, c, true) {
        return Ok(Some(a));
    }
    if is_truth(table, c, false) {
        return Ok(Some(b));
    }
    if are_same(table, a, b) {
        return Ok(Some(a));
    }
    if are_truths(table, a, b, true, false) {
        return Ok(Some(c));
    }
    if are_truths(table, a, b, false, true) {
        let id = opposite(table, c)?;
        return Ok(Some(id));
    }
    Ok(None)
}

/// The law of `ite`.
pub(crate) fn choice(table: &mut Table, ids: &[NodeId]) -> Result<Option<NodeId>, AllocError>
    requires { Makes table.old Ite ids.now }
    ensures found { IfOk result (Answers table.new (three logic.choice (trees_at table.old ids.now))) }
    ensures grows { GrowsTo table.old table.new }
    ensures symbols { table.new.symbols ≡ table.old.symbols }
    ensures sorts { table.new.sorts ≡ table.old.sorts }
{
    know_table(table);
    match ids {
        [c, a, b] => chosen(table, *c, *a, *b),
        _ => Ok(None),
    }
}

// Whether a node is there twice.
fn has_copies(alloc: Global, table: &Table, ids: &[NodeId]) -> Result<bool, AllocError>
    requires { AreNodes table.now ids.now }
    ensures { IfOk result (λ found. found ≡ logic.has_copies (trees_at table.now ids.now)) }
{
    let kept = once(alloc, table, ids)?;
    Ok(kept.len() < ids.len())
}

// Whether the first node is a formula.
fn starts_bool(table: &Table, ids: &[NodeId]) -> bool
    requires { AreNodes table.now ids.now }
    ensures { result ≡ logic.starts_bool (trees_at table.now ids.now) }
{
    match ids {
        [first, ..] => is_formula(table, *first),
        _ => false,
    }
}

// Whether three truth values or more are there.
fn are_many_formulas(table: &Table, ids: &[NodeId]) -> bool
    requires { AreNodes table.now ids.now }
    ensures { result ≡ (nat_le 3 (length (trees_at table.now ids.now)) && logic.starts_bool (trees_at table.now ids.now)) }
{
    ids.len() >= 3 && starts_bool(table, ids)
}

/// The law of `distinct`.
pub(crate) fn distinctness(
    alloc: Global,
    table: &mut Table,
    ids: &[NodeId],
) -> Result<Option<NodeId>, AllocError>
    requires { Makes table.old Distinct ids.now }
    ensures found { IfOk result (Answers table.new (logic.distinctness (trees_at table.old ids.now))) }
    ensures grows { GrowsTo table.old table.new }
    ensures symbols { table.new.symbols ≡ table.old.symbols }
    ensures sorts { table.new.sorts ≡ table.old.sorts }
{
    if has_copies(alloc, table, ids)? {
        let id = truth(table, false)?;
        return Ok(Some(id));
    }
    if are_many_formulas(table, ids) {
        let id = truth(table, false)?;
        return Ok(Some(id));
    }
    Ok(None)
}

//! The node of a template, with nodes in its holes.

ghost use Rattle.std.specs.Prelude.{◌≡◌, ◌+◌, ◌-◌, ◌<◌, ◌≤◌, [], ◌∷◌, length, take, reverse, slice_get, Option, Some, IsSome, IsOk, IfOk, OnOk, IsTrue};
ghost use Rattle.smt_terms.specs.Term.{Term};
ghost use Rattle.term_table.specs.Formulas.{tree, trees_at, sorts_in, term_over, rank_over, IsNode, AreNodes, IsOpOf};
ghost use Rattle.term_walk.specs.Walking.{GrowsTo};
ghost use Rattle.rule_book.specs.Filling.{remade, piece_over, left_by, Give};
ghost use Rattle.normal_forms.specs.Literals.{literal_of};
ghost use Rattle.rule_book.specs.Seen.{piece_seen, template_seen};
ghost use Rattle.rule_book.specs.Template as plain;
ghost use Rattle.rule_book.specs.Template.{Template, is_piece, applies_theory, filled, over_last, sort_made, template_sort};
ghost use Rattle.rule_book.specs.View.{is_theory};

use crate::templates::{Piece, Tmpl};
use arrayvec::ArrayVec;
use normal_forms::literals::literal;
use smt_terms::NodeId;
use smt_values::{Op, Scalar};
use std::alloc::AllocError;
use term_table::{Table, know_table};

/// The most results that wait for an operator: each piece of a template puts one.
const MOST: usize = 16;

/// The nodes of results, the last one last.
type Results = ArrayVec<NodeId, MOST>;

/// The node of an operator over these nodes, where a minus over a constant is the constant.
pub(crate) fn make(table: &mut Table, op: Op, kids: &[NodeId]) -> Result<NodeId, AllocError>
    requires kids { AreNodes table.old kids.now }
    requires numbers { IsOpOf table.old op }
    requires ranked { IsOk (rank_over table.old op (trees_at table.old kids.now)) }
    ensures node { IfOk result (IsNode table.new) }
    ensures term { IfOk result (λ k. tree table.new k ≡ remade (term_over table.old op (trees_at table.old kids.now))) }
    ensures grows { GrowsTo table.old table.new }
    ensures symbols { table.new.symbols ≡ table.old.symbols }
    ensures sorts { table.new.sorts ≡ table.old.sorts }
{
    know_table(table);
    match op {
        Op::Neg => {
            let id = table.minus(kids[0])?;
            Ok(id)
        }
        _ => {
            let id = table.intern(op, kids)?;
            Ok(id)
        }
    }
}

// The node of a constant.
fn constant(table: &mut Table, scalar: Scalar) -> Result<NodeId, AllocError>
    requires { IsSome (sort_made (literal_of scalar) []) }
    ensures node { IfOk result (IsNode table.new) }
    ensures term { IfOk result (λ k. plain.term_over (literal_of scalar) [] ≡ Some (tree table.new k)) }
    ensures grows { GrowsTo table.old table.new }
    ensures symbols { table.new.symbols ≡ table.old.symbols }
    ensures sorts { table.new.sorts ≡ table.old.sorts }
{
    let id = make(table, literal(scalar), &[])?;
    Ok(id)
}

// The node of an operator of the theories over the last n results, which it takes away.
fn over_results(
    table: &mut Table,
    op: Op,
    n: usize,
    results: &mut Results,
) -> Result<NodeId, AllocError>
    requires nodes { AreNodes table.old results.old.items }
    requires theory { IsTrue (is_theory op) }
    requires sort { IsSome (over_last (sort_made op) n (sorts_in (reverse (trees_at table.old results.old.items)))) }
    ensures node { IfOk result (IsNode table.new) }
    ensures term { IfOk result (λ k. over_last (plain.term_over op) n (reverse (trees_at table.old results.old.items)) ≡ Some (tree table.new k)) }
    ensures left { OnOk result (results.new.items ≡ take (length results.old.items - n) results.old.items) }
    ensures grows { GrowsTo table.old table.new }
    ensures symbols { table.new.symbols ≡ table.old.symbols }
    ensures sorts { table.new.sorts ≡ table.old.sorts }
{
    know_table(table);
    let first = results.len() - n;
    let id = make(table, op, &results.as_slice()[first..])?;
    results.truncate(first);
    Ok(id)
}

// The result of a piece, which takes away the results that it stands over.
fn result_of(
    table: &mut Table,
    holes: &[NodeId],
    piece: Piece,
    results: &mut Results,
) -> Result<NodeId, AllocError>
    requires holes { AreNodes table.old holes.now }
    requires nodes { AreNodes table.old results.old.items }
    requires operator { IsTrue (is_piece (piece_seen piece)) }
    requires sort { IsSome (piece_over (slice_get (sorts_in (trees_at table.old holes.now))) sort_made (piece_seen piece) (sorts_in (reverse (trees_at table.old results.old.items)))) }
    ensures node { IfOk result (IsNode table.new) }
    ensures term { IfOk result (λ k. piece_over (slice_get (trees_at table.old holes.now)) plain.term_over (piece_seen piece) (reverse (trees_at table.old results.old.items)) ≡ Some (tree table.new k)) }
    ensures left { OnOk result (reverse (trees_at table.old results.new.items) ≡ left_by (piece_seen piece) (reverse (trees_at table.old results.old.items))) }
    ensures nodes { OnOk result (AreNodes table.old results.new.items) }
    ensures fewer { OnOk result (length results.new.items ≤ length results.old.items) }
    ensures grows { GrowsTo table.old table.new }
    ensures symbols { table.new.symbols ≡ table.old.symbols }
    ensures sorts { table.new.sorts ≡ table.old.sorts }
{
    match piece {
        Piece::Hole(i) => Ok(holes[i as usize]),
        Piece::Const(scalar) => {
            let id = constant(table, scalar)?;
            Ok(id)
        }
        Piece::Apply(op, n) => {
            let id = over_results(table, op, n as usize, results)?;
            Ok(id)
        }
    }
}

// Puts the result of a piece in the place of those that it stands over.
fn take_piece(
    table: &mut Table,
    holes: &[NodeId],
    piece: Piece,
    results: &mut Results,
) -> Result<(), AllocError>
    requires holes { AreNodes table.old holes.now }
    requires give { (ps : Template) × ((whole : Option Term) × Give table.old (trees_at table.old holes.now) (piece_seen piece ∷ ps) whole results.old.items) }
    requires room { length results.old.items < 16 }
    ensures give { OnOk result ((ps : Template) (whole : Option Term) → Give table.old (trees_at table.old holes.now) (piece_seen piece ∷ ps) whole results.old.items → Give table.new (trees_at table.old holes.now) ps whole results.new.items) }
    ensures more { OnOk result (length results.new.items ≤ length results.old.items + 1) }
    ensures grows { GrowsTo table.old table.new }
    ensures symbols { table.new.symbols ≡ table.old.symbols }
    ensures sorts { table.new.sorts ≡ table.old.sorts }
{
    know_table(table);
    let id = result_of(table, holes, piece, results)?;
    results.push(id);
    Ok(())
}

/// The node of a template over the nodes in its holes. The template has to have a sort over them.
pub(crate) fn fill(
    table: &mut Table,
    holes: &[NodeId],
    template: &Tmpl,
) -> Result<NodeId, AllocError>
    requires holes { AreNodes table.old holes.now }
    requires operators { IsTrue (applies_theory (template_seen template.now)) }
    requires sort { IsSome (template_sort (slice_get (sorts_in (trees_at table.old holes.now))) (template_seen template.now)) }
    ensures node { IfOk result (IsNode table.new) }
    ensures term { IfOk result (λ k. filled (slice_get (trees_at table.old holes.now)) (template_seen template.now) ≡ Some (tree table.new k)) }
    ensures grows { GrowsTo table.old table.new }
    ensures symbols { table.new.symbols ≡ table.old.symbols }
    ensures sorts { table.new.sorts ≡ table.old.sorts }
{
    let mut results = Results::new();
    for i in 0..template.pieces.len() {
        take_piece(table, holes, template.pieces.get(i), &mut results)?;
    }
    Ok(results.as_slice()[0])
}

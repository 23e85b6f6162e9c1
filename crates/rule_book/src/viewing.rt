//! The view of a node, with the nodes of its holes.

ghost use Rattle.std.specs.Prelude.{◌≡◌, ◌+◌, ◌<◌, ◌≤◌, ◌++◌, List, length, map, None, Some, All, IfSome, MatchOption};
ghost use Rattle.smt_terms.specs.Equal.{term_eq};
ghost use Rattle.term_table.specs.Formulas.{tree, trees_at, IsNode, AreNodes};
ghost use Rattle.rule_book.specs.Placed.{place_seen, shown_at, placed, AreAt, with_last};
ghost use Rattle.rule_book.specs.Seen.{cell_seen, view_seen};
ghost use Rattle.rule_book.specs.View.{Place, is_theory, is_literal, shown_operand, shown_below, places_below, places, holes_of, number_in, cell_of, view_of, view_holes};

use crate::views::{Cell, Cells, View};
use arrayvec::ArrayVec;
use normal_forms::comparing::are_same;
use smt_terms::NodeId;
use smt_values::Op;
use term_table::Table;

/// The most cells of a view, and so the most holes.
const MOST_CELLS: usize = 20;

/// The most operands of an operator that is shown, unless it is a constant.
const MOST_OPERANDS: usize = 4;

/// A view, and the node of each of its holes.
#[derive(Drop)]
pub(crate) struct Viewed {
    pub(crate) view: View,
    pub(crate) holes: ArrayVec<NodeId, MOST_CELLS>,
}

// A place below the root of a view, and the node there.
#[derive(Clone, Copy)]
struct PlacedNode {
    up: u8,
    shown: Option<Op>,
    node: NodeId,
}

// Fills the places of a list that aren't used.
impl Default for PlacedNode {
    fn default() -> PlacedNode {
        PlacedNode {
            up: 0,
            shown: None,
            node: NodeId(0),
        }
    }
}

type Places = ArrayVec<PlacedNode, MOST_CELLS>;

type Holes = ArrayVec<NodeId, MOST_CELLS>;

// Whether an operator is one of the theories, other than a constant and the constant array.
#[tactic(auto, unfolding(crate::specs::View::is_theory))]
fn is_theory(op: Op) -> bool
    ensures { result ≡ is_theory op }
{
    match op {
        Op::Truth(_)
        | Op::Whole(_)
        | Op::Bits { .. }
        | Op::Sym(_)
        | Op::Forall
        | Op::Exists
        | Op::ConstArray(_) => false,
        _ => true,
    }
}

// Whether an operator is a constant of Bool, Int or bit vectors.
#[tactic(auto, unfolding(smt_terms::specs::Constants::literal_value))]
fn is_literal(op: Op) -> bool
    ensures { result ≡ is_literal op }
{
    match op {
        Op::Truth(_) | Op::Whole(_) | Op::Bits { .. } => true,
        _ => false,
    }
}

// The operator of an operand of the root, where it is shown.
fn shown_operand(table: &Table, id: NodeId) -> Option<Op>
    requires { IsNode table.now id }
    ensures { result ≡ shown_operand (tree table.now id) }
{
    let op = table.op(id);
    let is_shown = is_literal(op) || (is_theory(op) && table.kids(id).len() <= MOST_OPERANDS);
    is_shown.then_some(op)
}

// The operator two steps below the root, where it is shown.
fn shown_below(table: &Table, id: NodeId) -> Option<Op>
    requires { IsNode table.now id }
    ensures { result ≡ shown_below (tree table.now id) }
{
    let op = table.op(id);
    is_literal(op).then_some(op)
}

// The operator of an operand of the root, for 0, or two steps below it, where it is shown.
fn shown_at(table: &Table, up: u8, id: NodeId) -> Option<Op>
    requires { IsNode table.now id }
    ensures { result ≡ shown_at up (tree table.now id) }
{
    match up {
        0 => shown_operand(table, id),
        _ => shown_below(table, id),
    }
}

// Puts operands last: those of the root, for 0, or those of the operand in cell up - 1.
fn place_all(table: &Table, up: u8, kids: &[NodeId], places: &mut Places)
    requires nodes { AreNodes table.now kids.now }
    requires room { length places.old.items + length kids.now ≤ 20 }
    ensures places { (us : List Place) → AreAt table.now us places.old.items → AreAt table.now (us ++ placed up (trees_at table.now kids.now)) places.new.items }
    ensures number { length places.new.items ≡ length places.old.items + length kids.now }
{
    for id in kids {
        places.push(PlacedNode {
            up,
            shown: shown_at(table, up, *id),
            node: *id,
        });
    }
}

// Puts the operands of the operand in cell k last, if it is shown.
fn place_below(table: &Table, k: u8, id: NodeId, places: &mut Places)
    requires node { IsNode table.now id }
    requires cell { k < 4 }
    requires room { length places.old.items + 4 ≤ 20 }
    ensures places { (us : List Place) → AreAt table.now us places.old.items → AreAt table.now (us ++ places_below k (tree table.now id)) places.new.items }
    ensures number { length places.new.items ≤ length places.old.items + 4 }
{
    if shown_operand(table, id).is_some() {
        place_all(table, 1 + k, table.kids(id), places);
    }
}

// The places below an operator over these operands.
fn places_over(table: &Table, kids: &[NodeId]) -> Places
    requires nodes { AreNodes table.now kids.now }
    requires short { length kids.now ≤ 4 }
    ensures { AreAt table.now (places (trees_at table.now kids.now)) result.items }
{
    let mut places = ArrayVec::new();
    place_all(table, 0, kids, &mut places);
    for (k, id) in kids.iter().enumerate() {
        place_below(table, k as u8, *id, &mut places);
    }
    places
}

// Which hole a term's node is, or how many there are.
fn number_in(table: &Table, holes: &[NodeId], id: NodeId) -> usize
    requires holes { AreNodes table.now holes.now }
    requires node { IsNode table.now id }
    ensures number { result ≡ number_in (trees_at table.now holes.now) (tree table.now id) }
    ensures most { result ≤ length holes.now }
{
    for (number, hole) in holes.iter().enumerate() {
        if are_same(table, *hole, id) {
            return number;
        }
    }
    holes.len()
}

// Puts a node last, where it isn't there.
fn put_hole(table: &Table, holes: &mut Holes, id: NodeId)
    requires holes { AreNodes table.now holes.old.items }
    requires node { IsNode table.now id }
    requires room { length holes.old.items < 20 }
    ensures nodes { AreNodes table.now holes.new.items }
    ensures terms { trees_at table.now holes.new.items ≡ with_last (trees_at table.now holes.old.items) (tree table.now id) }
    ensures number { length holes.new.items ≤ length holes.old.items + 1 }
{
    if number_in(table, holes.as_slice(), id) == holes.len() {
        holes.push(id);
    }
}

// The nodes of the different terms at these places, in order of first place.
fn holes_of(table: &Table, places: &[PlacedNode]) -> Holes
    requires nodes { All (λ p. IsNode table.now p.node) places.now }
    requires number { length places.now ≤ 20 }
    ensures nodes { AreNodes table.now result.items }
    ensures terms { trees_at table.now result.items ≡ holes_of (map (place_seen table.now) places.now) }
{
    let mut holes = ArrayVec::new();
    for place in places {
        put_hole(table, &mut holes, place.node);
    }
    holes
}

// The cell of a place.
fn cell_of(table: &Table, holes: &[NodeId], place: PlacedNode) -> Cell
    requires holes { AreNodes table.now holes.now }
    requires most { length holes.now ≤ 20 }
    requires node { IsNode table.now place.node }
    ensures { cell_seen table.now.sorts result ≡ cell_of (trees_at table.now holes.now) (place_seen table.now place) }
{
    Cell {
        up: place.up,
        op: place.shown,
        sort: table.sort_of(place.node),
        hole: number_in(table, holes, place.node) as u8,
    }
}

// The cells of these places.
fn cells_of(table: &Table, holes: &[NodeId], places: &[PlacedNode]) -> Cells
    requires holes { AreNodes table.now holes.now }
    requires most { length holes.now ≤ 20 }
    requires nodes { All (λ p. IsNode table.now p.node) places.now }
    requires number { length places.now ≤ 20 }
    ensures { map (cell_seen table.now.sorts) result ≡ map (cell_of (trees_at table.now holes.now)) (map (place_seen table.now) places.now) }
{
    let mut cells = Cells::new();
    for place in places {
        cells.push(cell_of(table, holes, *place));
    }
    cells
}

/// What a rule is shown of a node; None where it has no view.
pub(crate) fn view_of_node(table: &Table, id: NodeId) -> Option<Viewed>
    requires { IsNode table.now id }
    ensures view { MatchOption result (view_of (tree table.now id) ≡ None) (λ r. view_of (tree table.now id) ≡ Some (view_seen table.now.sorts r.view)) }
    ensures nodes { IfSome result (λ r. AreNodes table.now r.holes.items) }
    ensures holes { IfSome result (λ r. trees_at table.now r.holes.items ≡ view_holes (tree table.now id)) }
{
    let root = table.op(id);
    let kids = table.kids(id);
    if !is_theory(root) || kids.is_empty() || kids.len() > MOST_OPERANDS {
        return None;
    }
    let places = places_over(table, kids);
    let holes = holes_of(table, places.as_slice());
    let cells = cells_of(table, holes.as_slice(), places.as_slice());
    let view = View {
        root,
        sort: table.sort_of(id),
        cells,
    };
    Some(Viewed { view, holes })
}

//! Room for the nodes of normal forms.

ghost use Rattle.std.specs.Prelude.{◌≤◌};
ghost use Rattle.term_table.specs.Formulas.{IsNode, IsUnchanged};
ghost use Rattle.term_walk.specs.Walking.{GrowsTo};

use crate::connective::{Connective, Shape};
use crate::shapes::{is_formula, shape_of};
use smt_terms::NodeId;
use term_table::Table;

// About how many nodes more the forms of a node are made of, beside those of its operands. An `and` is mostly its own
// positive form, an atom is always. One form of `=`, `xor` or `ite` has three nodes, and a root needs one form alone.
fn nodes_more(table: &Table, id: NodeId) -> usize
    requires { IsNode table.now id }
    ensures { result ≤ 5 }
{
    if !is_formula(table, id) {
        return 0;
    }
    match shape_of(table, id) {
        Shape::Truth(_) => 1,
        Shape::Atom => 0,
        Shape::Quantified => 2,
        Shape::Connected(Connective::Not) => 0,
        Shape::Connected(Connective::And) => 1,
        Shape::Connected(Connective::Or) => 1,
        Shape::Connected(Connective::Implies) => 2,
        Shape::Connected(_) => 5,
    }
}

/// Makes room for about as many nodes as the negation normal forms of all formulas of the table have, so that the index
/// of nodes is made anew once and not at each doubling. Without memory for them all, who makes them asks for it.
pub fn make_room(table: &mut Table)
    ensures unchanged { IsUnchanged table.old table.new }
    ensures grows { GrowsTo table.old table.new }
{
    let mut nodes: usize = 0;
    for number in 0..table.len() {
        nodes = nodes.saturating_add(nodes_more(table, NodeId(number)));
    }
    let _ = table.reserve(nodes);
}

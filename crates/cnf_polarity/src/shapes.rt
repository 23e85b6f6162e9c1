//! Connectives, literals and clauses among nodes. A quantified formula is an atom here.

ghost use Rattle.std.specs.Prelude.{◌≡◌, false, All, MatchOption, IfSome};
ghost use Rattle.smt_terms.specs.Shapes.{is_atom, is_literal, are_literals, is_clause};
ghost use Rattle.smt_terms.specs.Term.{terms};
ghost use Rattle.term_table.specs.Formulas.{tree, trees_at, IsNode};
ghost use Rattle.normal_forms.specs.Nodes.{IsFormula};
ghost use Rattle.normal_forms.specs.Shape.{IsOfKind, kind_seen};
ghost use Rattle.cnf_polarity.specs.Shapes.{has_connective};

use normal_forms::connective::{Connective, Shape};
use normal_forms::shapes::{is_formula, shape_of};
use smt_terms::NodeId;
use term_table::{Table, know_table};

/// The connective of a node, and None where it is none.
pub(crate) fn connective_of(table: &Table, id: NodeId) -> Option<Connective>
    requires { IsNode table.now id }
    ensures connective { MatchOption result (has_connective (tree table.now id) ≡ false) (λ c. IsOfKind (tree table.now id) (kind_seen c)) }
    ensures formula { IfSome result (λ _. IsFormula table.now id) }
{
    know_table(table);
    if !is_formula(table, id) {
        return None;
    }
    match shape_of(table, id) {
        Shape::Connected(connective) => Some(connective),
        _ => None,
    }
}

/// Whether a node is a connective.
pub(crate) fn is_connective(table: &Table, id: NodeId) -> bool
    requires { IsNode table.now id }
    ensures { result ≡ has_connective (tree table.now id) }
{
    connective_of(table, id).is_some()
}

// Whether a formula is an atom.
fn is_atom(table: &Table, id: NodeId) -> bool
    requires { IsFormula table.now id }
    ensures { result ≡ is_atom (tree table.now id) }
{
    matches!(shape_of(table, id), Shape::Atom | Shape::Quantified)
}

// Whether a formula is a literal.
fn is_literal(table: &Table, id: NodeId) -> bool
    requires { IsFormula table.now id }
    ensures { result ≡ is_literal (tree table.now id) }
{
    match shape_of(table, id) {
        Shape::Truth(_) | Shape::Atom | Shape::Quantified => true,
        Shape::Connected(Connective::Not) => is_atom(table, table.kids(id)[0]),
        Shape::Connected(_) => false,
    }
}

// Whether all of these formulas are literals.
fn are_literals(table: &Table, ids: &[NodeId]) -> bool
    requires { All (IsFormula table.now) ids.now }
    ensures { result ≡ are_literals (terms (trees_at table.now ids.now)) }
{
    ids.iter().all(|id| is_literal(table, *id))
}

/// Whether a formula is a literal or an `or` of literals.
pub(crate) fn is_clause(table: &Table, id: NodeId) -> bool
    requires { IsFormula table.now id }
    ensures { result ≡ is_clause (tree table.now id) }
{
    match shape_of(table, id) {
        Shape::Connected(Connective::Or) => are_literals(table, table.kids(id)),
        _ => is_literal(table, id),
    }
}

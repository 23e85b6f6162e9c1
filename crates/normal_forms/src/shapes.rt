//! The shape of a formula's node.

ghost use Rattle.std.specs.Prelude.{◌≡◌, ◌<◌, [], length, get_or, false, MatchOption, IfSome, Some, IsTrue, ◌↔◌, if◌then◌else◌};
ghost use Rattle.smt_terms.specs.Connectives.{Kind, atom, where_bool};
ghost use Rattle.smt_terms.specs.Sorts.{bool};
ghost use Rattle.smt_terms.specs.Term.{terms};
ghost use Rattle.smt_terms.specs.Rank.{sort_of, sorts_of};
ghost use Rattle.term_table.specs.Formulas.{no_tree, tree, operands, IsNode};
ghost use Rattle.normal_forms.specs.Nodes.{IsFormula};
ghost use Rattle.normal_forms.specs.Shape.{HasShape};
ghost use Rattle.term_walk.specs.Binders.{is_quantified};

use crate::connective::{Connective, Shape};
use smt_terms::NodeId;
use smt_values::Op;
use term_table::Table;

/// Whether a node is a formula.
pub fn is_formula(table: &Table, id: NodeId) -> bool
    requires { IsNode table.now id }
    ensures { IsTrue result ↔ (sort_of (tree table.now id) ≡ Some bool) }
{
    table.sort_of(id).0 == 0
}

// The first operand of a node.
fn first_operand(table: &Table, id: NodeId) -> Option<NodeId>
    requires { IsNode table.now id }
    ensures operand { MatchOption result (operands (tree table.now id) ≡ []) (λ k. (0 < length (operands (tree table.now id))) × (get_or (operands (tree table.now id)) 0 no_tree ≡ tree table.now k)) }
    ensures node { IfSome result (IsNode table.now) }
{
    table.kids(id).get(0).copied()
}

// Whether the operands of an equation or a `distinct` are formulas.
fn is_over_formulas(table: &Table, id: NodeId) -> bool
    requires formula { IsFormula table.now id }
    requires applied { is_quantified (tree table.now id) ≡ false }
    ensures { (k : Kind) → where_bool (sorts_of (terms (operands (tree table.now id)))) k ≡ (if result then k else atom) }
{
    match first_operand(table, id) {
        Some(kid) => is_formula(table, kid),
        None => false,
    }
}

/// The shape of a formula.
#[tactic(auto, unfolding(term_table::specs::Formulas::kind, smt_terms::specs::Connectives::operator_kind))]
pub fn shape_of(table: &Table, id: NodeId) -> Shape
    requires { IsFormula table.now id }
    ensures { HasShape (tree table.now id) result }
{
    match table.op(id) {
        Op::Truth(value) => Shape::Truth(value),
        Op::Forall => Shape::Quantified,
        Op::Exists => Shape::Quantified,
        Op::Not => Shape::Connected(Connective::Not),
        Op::And => Shape::Connected(Connective::And),
        Op::Or => Shape::Connected(Connective::Or),
        Op::Xor => Shape::Connected(Connective::Xor),
        Op::Implies => Shape::Connected(Connective::Implies),
        Op::Ite => Shape::Connected(Connective::Ite),
        Op::Equal => {
            if is_over_formulas(table, id) {
                return Shape::Connected(Connective::Equal);
            }
            Shape::Atom
        }
        Op::Distinct => {
            if is_over_formulas(table, id) {
                return Shape::Connected(Connective::Distinct);
            }
            Shape::Atom
        }
        _ => Shape::Atom,
    }
}

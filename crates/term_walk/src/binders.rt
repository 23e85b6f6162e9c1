//! Which nodes are quantified.

ghost use Rattle.std.specs.Prelude.{◌≡◌};
ghost use Rattle.term_table.specs.Formulas.{tree, IsNode};
ghost use Rattle.term_walk.specs.Binders.{is_quantified};

use smt_terms::NodeId;
use smt_values::Op;
use term_table::Table;

/// Whether a node is quantified.
#[tactic(auto, unfolding(term_table::specs::Formulas::kind))]
pub fn is_binder(table: &Table, id: NodeId) -> bool
    requires { IsNode table.now id }
    ensures { result ≡ is_quantified (tree table.now id) }
{
    match table.op(id) {
        Op::Forall | Op::Exists => true,
        _ => false,
    }
}

//! A node's operator over other operands.

ghost use Rattle.std.specs.Prelude.{◌≡◌, ◌<◌, true, false, IfOk};
ghost use Rattle.term_table.specs.Formulas.{tree, trees_at, operands, IsNode, AreNodes};
ghost use Rattle.normal_forms.specs.Shape.{body_in};
ghost use Rattle.term_walk.specs.Binders.{is_quantified};
ghost use Rattle.term_walk.specs.Walking.{GrowsTo};
ghost use Rattle.quantifier_forms.specs.Rebuilding.{with_operands, IsLike, AreLike};

use smt_terms::NodeId;
use smt_values::Op;
use std::alloc::AllocError;
use term_table::Table;

/// The node of this node's operator over operands that are like its own.
pub fn rebuilt(table: &mut Table, id: NodeId, kids: &[NodeId]) -> Result<NodeId, AllocError>
    requires node { IsNode table.old id }
    requires applied { is_quantified (tree table.old id) ≡ false }
    requires kids { AreNodes table.old kids.now }
    requires like { AreLike (operands (tree table.old id)) (trees_at table.old kids.now) }
    ensures node { IfOk result (IsNode table.new) }
    ensures term { IfOk result (λ k. tree table.new k ≡ with_operands (tree table.old id) (trees_at table.old kids.now)) }
    ensures like { IfOk result (λ k. IsLike (tree table.old id) (tree table.new k)) }
    ensures grows { GrowsTo table.old table.new }
    ensures symbols { table.new.symbols ≡ table.old.symbols }
{
    let op = table.op(id);
    let id = table.intern(op, kids)?;
    Ok(id)
}

/// The body of a quantified node, which is its last operand.
pub fn body_below(table: &Table, id: NodeId) -> NodeId
    requires node { IsNode table.now id }
    requires quantified { is_quantified (tree table.now id) ≡ true }
    ensures below { result.0 < id.0 }
    ensures term { tree table.now result ≡ body_in (tree table.now id) }
{
    let kids = table.kids(id);
    kids[kids.len() - 1]
}

//! Quantifiers over new bodies.

ghost use Rattle.std.specs.Prelude.{◌≡◌, ◌∷◌, ◌++◌, [], Bool, true, List, map, All, IfOk};
ghost use Rattle.smt_terms.specs.declared.ids.NodeId.{NodeId};
ghost use Rattle.smt_terms.specs.Term.{quantified, variable};
ghost use Rattle.term_table.specs.Formulas.{tree, trees_at, operands, IsNode, AreNodes};
ghost use Rattle.term_walk.specs.Walking.{GrowsTo};
ghost use Rattle.normal_forms.specs.Nodes.{IsFormula};
ghost use Rattle.normal_forms.specs.Shape.{is_universally_quantified, variables_of, body_in, quantifier_seen};
ghost use Rattle.term_walk.specs.Binders.{is_quantified};

use smt_terms::NodeId;
use smt_values::Op;
use std::alloc::{AllocError, Global};
use term_table::Table;

/// Whether the quantifier of a quantified formula is universal.
#[tactic(auto, unfolding(term_table::specs::Formulas::kind))]
pub fn is_universal(table: &Table, id: NodeId) -> bool
    requires formula { IsFormula table.now id }
    requires quantified { is_quantified (tree table.now id) ≡ true }
    ensures { result ≡ is_universally_quantified (tree table.now id) }
{
    match table.op(id) {
        Op::Forall => true,
        _ => false,
    }
}

/// The body of a quantified formula, which is one of its operands.
pub fn body_of(table: &Table, id: NodeId) -> NodeId
    requires node { IsNode table.now id }
    requires quantified { is_quantified (tree table.now id) ≡ true }
    ensures node { IsNode table.now result }
    ensures term { tree table.now result ≡ body_in (tree table.now id) }
    ensures operand { (p : NodeId → Bool) → ((ids : List NodeId) → trees_at table.now ids ≡ operands (tree table.now id) → AreNodes table.now ids → All (λ k. p k ≡ true) ids) → p result ≡ true }
{
    let kids = table.kids(id);
    kids[kids.len() - 1]
}

// The variables of a quantified formula, and this body.
fn rebound(
    alloc: Global,
    table: &Table,
    id: NodeId,
    body: NodeId,
) -> Result<Vec<NodeId>, AllocError>
    requires node { IsNode table.now id }
    requires quantified { is_quantified (tree table.now id) ≡ true }
    requires body { IsNode table.now body }
    ensures terms { IfOk result (λ ks. trees_at table.now ks.items ≡ map variable (variables_of (tree table.now id)) ++ tree table.now body ∷ []) }
    ensures nodes { IfOk result (λ ks. AreNodes table.now ks.items) }
{
    let kids = table.kids(id);
    let mut rebound = Vec::from_slice(alloc, &kids[..kids.len() - 1])?;
    rebound.push(body)?;
    Ok(rebound)
}

/// A quantifier over the variables of a quantified formula and over this body.
#[tactic(auto, unfolding(term_table::specs::Formulas::kind))]
pub fn bind(
    alloc: Global,
    table: &mut Table,
    id: NodeId,
    universal: bool,
    body: NodeId,
) -> Result<NodeId, AllocError>
    requires formula { IsFormula table.old id }
    requires quantified { is_quantified (tree table.old id) ≡ true }
    requires body { IsFormula table.old body }
    ensures formula { IfOk result (IsFormula table.new) }
    ensures term { IfOk result (λ k. tree table.new k ≡ quantified (quantifier_seen universal) (variables_of (tree table.old id)) (tree table.old body)) }
    ensures grows { GrowsTo table.old table.new }
    ensures symbols { table.new.symbols ≡ table.old.symbols }
    ensures sorts { table.new.sorts ≡ table.old.sorts }
{
    let kids = rebound(alloc, table, id, body)?;
    if universal {
        let id = table.intern(Op::Forall, &kids)?;
        return Ok(id);
    }
    let id = table.intern(Op::Exists, &kids)?;
    Ok(id)
}

//! The simplifier, as a walk from below.

ghost use Rattle.std.specs.Prelude.{◌≡◌, ◌+◌, ◌≤◌, ◌∷◌, [], map, true, false, IfOk, OnOk};
ghost use Rattle.term_table.specs.Formulas.{tree, trees_at, operands, IsNode, AreNodes};
ghost use Rattle.term_walk.specs.Places.{results};
ghost use Rattle.term_walk.specs.Subterms.{all_subterms, places};
ghost use Rattle.term_walk.specs.Walking.{GrowsTo, AreRelated, Fits, Stay, GainsBelow, HaveResults, AllHaveResults};
ghost use Rattle.term_walk.specs.Binders.{is_quantified};
ghost use Rattle.simplify.specs.Reduced.{IsOver, IsSimplified};
ghost use Rattle.simplify.specs.Simplified.{reduced_over, IsNoBinder};
ghost use Rattle.simplify.specs.Simplify.{simp};

use crate::quantifying::quantified_form;
use crate::reduction::reduce;
use normal_forms::binding::body_of;
use normal_forms::results::results_of;
use smt_terms::NodeId;
use smt_values::Op;
use std::alloc::{AllocError, Global};
use std::sync::ledger::Ledger;
use term_table::{Table, know_table};
use term_walk::walks::walk;
use term_walk::{Kept, NodeStep, Steps, is_binder};

// The simplified operands of a node.
fn simplified_operands(
    alloc: Global,
    table: &Table,
    id: NodeId,
    kept: &Kept<NodeId>,
) -> Result<Vec<NodeId>, AllocError>
    requires node { IsNode table.now id }
    requires related { AreRelated IsSimplified table.now kept.now }
    requires kids { HaveResults table.now (tree table.now id) kept.now }
    ensures nodes { IfOk result (λ ks. AreNodes table.now ks.items) }
    ensures terms { IfOk result (λ ks. trees_at table.now ks.items ≡ map simp (operands (tree table.now id))) }
{
    let found = results_of(alloc, kept, table.kids(id))?;
    Ok(found)
}

// An operator, which is no quantifier, over simplified operands.
#[tactic(auto, unfolding(term_table::specs::Formulas::kind))]
fn over_simplified(
    alloc: Global,
    table: &mut Table,
    op: Op,
    ids: &[NodeId],
) -> Result<NodeId, AllocError>
    requires over { IsOver table.old op ids.now }
    requires plain { IsNoBinder op }
    ensures node { IfOk result (IsNode table.new) }
    ensures term { IfOk result (λ k. tree table.new k ≡ reduced_over table.old op (trees_at table.old ids.now)) }
    ensures grows { GrowsTo table.old table.new }
    ensures symbols { table.new.symbols ≡ table.old.symbols }
    ensures sorts { table.new.sorts ≡ table.old.sorts }
{
    match op {
        Op::Sym(_) => {
            let id = table.intern(op, ids)?;
            Ok(id)
        }
        Op::ConstArray(_) => {
            let id = table.intern(op, ids)?;
            Ok(id)
        }
        _ => {
            let id = reduce(alloc, table, op, ids)?;
            Ok(id)
        }
    }
}

// What a node that isn't quantified is simplified to.
fn applied_form(
    alloc: Global,
    table: &mut Table,
    id: NodeId,
    kept: &Kept<NodeId>,
) -> Result<NodeId, AllocError>
    requires node { IsNode table.old id }
    requires applied { is_quantified (tree table.old id) ≡ false }
    requires related { AreRelated IsSimplified table.old kept.now }
    requires kids { HaveResults table.old (tree table.old id) kept.now }
    ensures form { IfOk result (IsSimplified table.new (tree table.old id)) }
    ensures grows { GrowsTo table.old table.new }
    ensures symbols { table.new.symbols ≡ table.old.symbols }
    ensures sorts { table.new.sorts ≡ table.old.sorts }
{
    let operands = simplified_operands(alloc, table, id, kept)?;
    let op = table.op(id);
    let form = over_simplified(alloc, table, op, &operands)?;
    Ok(form)
}

// What a quantified node is simplified to.
fn closed_form(
    alloc: Global,
    table: &mut Table,
    id: NodeId,
    kept: &Kept<NodeId>,
) -> Result<NodeId, AllocError>
    requires node { IsNode table.old id }
    requires quantified { is_quantified (tree table.old id) ≡ true }
    requires related { AreRelated IsSimplified table.old kept.now }
    requires kids { HaveResults table.old (tree table.old id) kept.now }
    ensures form { IfOk result (IsSimplified table.new (tree table.old id)) }
    ensures grows { GrowsTo table.old table.new }
    ensures symbols { table.new.symbols ≡ table.old.symbols }
    ensures sorts { table.new.sorts ≡ table.old.sorts }
{
    know_table(table);
    let body = *kept.get(body_of(table, id)).unwrap();
    let form = quantified_form(alloc, table, id, body)?;
    Ok(form)
}

// What a node is simplified to.
fn form_of(
    alloc: Global,
    table: &mut Table,
    id: NodeId,
    kept: &Kept<NodeId>,
) -> Result<NodeId, AllocError>
    requires node { IsNode table.old id }
    requires related { AreRelated IsSimplified table.old kept.now }
    requires kids { HaveResults table.old (tree table.old id) kept.now }
    ensures form { IfOk result (IsSimplified table.new (tree table.old id)) }
    ensures grows { GrowsTo table.old table.new }
    ensures symbols { table.new.symbols ≡ table.old.symbols }
    ensures sorts { table.new.sorts ≡ table.old.sorts }
{
    if is_binder(table, id) {
        return closed_form(alloc, table, id, kept);
    }
    if table.kids(id).is_empty() {
        return Ok(id);
    }
    applied_form(alloc, table, id, kept)
}

#[derive(Drop)]
struct SimplifyStep {
    alloc: Global,
}

impl NodeStep for SimplifyStep {
    type Out = NodeId;

    ghost use Rattle.simplify.specs.Reduced.{IsSimplified, simplified_stays};

    ghost Meaning = { Unit {0} };

    ghost meaning = { λ _. tt };

    ghost related = { λ _ t u r. IsSimplified t u r };

    fn step<L: Ledger>(
        &mut self,
        table: &mut Table,
        id: NodeId,
        kept: &Kept<NodeId>,
        steps: &mut Steps<L>,
    ) -> Result<NodeId, AllocError> {
        steps.tick();
        form_of(self.alloc, table, id, kept)
    }

    ghost stays = { λ _ old new t r grows is. simplified_stays old new t r grows is };
}

/// A formula made smaller from below, or any other term: what it says in any model stays. It goes by what is kept of
/// earlier calls over the table, and keeps what it finds. It takes one step for each distinct subterm, and one for each
/// place of an operand.
pub fn simplify<L: Ledger>(
    alloc: Global,
    table: &mut Table,
    id: NodeId,
    kept: &mut Kept<NodeId>,
    steps: &mut Steps<L>,
) -> Result<NodeId, AllocError>
    requires node { IsNode table.old id }
    requires fits { Fits IsSimplified table.old kept.old }
    ensures node { IfOk result (IsNode table.new) }
    ensures term { IfOk result (λ k. tree table.new k ≡ simp (tree table.old id)) }
    ensures all { OnOk result (AllHaveResults table.new (tree table.old id ∷ []) kept.new) }
    ensures fits { Fits IsSimplified table.new kept.new }
    ensures stay { Stay kept.old kept.new }
    ensures gained { GainsBelow table.old (tree table.old id ∷ []) kept.old kept.new }
    ensures grows { GrowsTo table.old table.new }
    ensures symbols { table.new.symbols ≡ table.old.symbols }
    ensures sorts { table.new.sorts ≡ table.old.sorts }
    ensures most { steps.new ≤ steps.old + places (all_subterms (tree table.old id ∷ [])) }
    ensures least { results kept.new + steps.old ≤ results kept.old + steps.new }
{
    let mut step = SimplifyStep { alloc };
    walk(alloc, table, &mut step, kept, id, steps)?;
    let form = *kept.get(id).unwrap();
    Ok(form)
}

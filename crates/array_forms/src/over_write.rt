//! Reading over writing: `reads t`, which has the value of the term t, with each `select` told by the writes below it. It goes
//! through a term from below: over the results of the operands a `select` is what is read there, a minus over a constant is
//! the constant, and any other operator or quantifier stays.

ghost use Rattle.std.specs.Prelude.{◌≡◌, ◌∷◌, [], ◌+◌, ◌≤◌, map, true, false, IsTrue, IfOk, OnOk};
ghost use Rattle.term_table.specs.Formulas.{tree, trees_at, operands, IsNode, AreNodes};
ghost use Rattle.term_walk.specs.Places.{results};
ghost use Rattle.term_walk.specs.Subterms.{all_subterms, places};
ghost use Rattle.term_walk.specs.Walking.{GrowsTo, AreRelated, Fits, HaveResults, AllHaveResults, Stay, GainsBelow};
ghost use Rattle.term_walk.specs.Binders.{is_quantified};
ghost use Rattle.array_forms.specs.ReadNodes.{HasReads};
ghost use Rattle.array_forms.specs.Reads.{reads};

use crate::reading::read;
use normal_forms::binding::{bind, body_of, is_universal};
use normal_forms::results::results_of;
use smt_terms::NodeId;
use smt_values::Op;
use std::alloc::{AllocError, Global};
use std::sync::ledger::Ledger;
use term_table::{Table, know_table};
use term_walk::walks::walk;
use term_walk::{Kept, NodeStep, Steps, is_binder};

// The result of a quantified node.
fn quantified(
    alloc: Global,
    table: &mut Table,
    id: NodeId,
    kept: &Kept<NodeId>,
) -> Result<NodeId, AllocError>
    requires node { IsNode table.old id }
    requires quantified { is_quantified (tree table.old id) ≡ true }
    requires related { AreRelated HasReads table.old kept.now }
    requires kids { HaveResults table.old (tree table.old id) kept.now }
    ensures result { IfOk result (HasReads table.new (tree table.old id)) }
    ensures grows { GrowsTo table.old table.new }
    ensures symbols { table.new.symbols ≡ table.old.symbols }
    ensures sorts { table.new.sorts ≡ table.old.sorts }
{
    know_table(table);
    let body = *kept.get(body_of(table, id)).unwrap();
    let universal = is_universal(table, id);
    let result = bind(alloc, table, id, universal, body)?;
    Ok(result)
}

// The results of a node's operands.
fn operand_results(
    alloc: Global,
    table: &Table,
    id: NodeId,
    kept: &Kept<NodeId>,
) -> Result<Vec<NodeId>, AllocError>
    requires node { IsNode table.now id }
    requires related { AreRelated HasReads table.now kept.now }
    requires kids { HaveResults table.now (tree table.now id) kept.now }
    ensures nodes { IfOk result (λ ks. AreNodes table.now ks.items) }
    ensures terms { IfOk result (λ ks. trees_at table.now ks.items ≡ map reads (operands (tree table.now id))) }
{
    let found = results_of(alloc, kept, table.kids(id))?;
    Ok(found)
}

// Whether a node that isn't quantified is its own result, where these are those of its operands.
#[tactic(auto, unfolding(term_table::specs::Formulas::kind))]
fn is_own_result(table: &Table, id: NodeId, kids: &[NodeId]) -> bool
    requires node { IsNode table.now id }
    requires applied { is_quantified (tree table.now id) ≡ false }
    requires kids { trees_at table.now kids.now ≡ map reads (operands (tree table.now id)) }
    ensures { IsTrue result → HasReads table.now (tree table.now id) id }
{
    match table.op(id) {
        Op::Select => false,
        _ => table.kids(id) == kids,
    }
}

// The result of a node that isn't quantified, of those of its operands.
#[tactic(auto, unfolding(term_table::specs::Formulas::kind))]
fn over_results(
    alloc: Global,
    table: &mut Table,
    id: NodeId,
    kids: &[NodeId],
) -> Result<NodeId, AllocError>
    requires node { IsNode table.old id }
    requires applied { is_quantified (tree table.old id) ≡ false }
    requires nodes { AreNodes table.old kids.now }
    requires kids { trees_at table.old kids.now ≡ map reads (operands (tree table.old id)) }
    ensures result { IfOk result (HasReads table.new (tree table.old id)) }
    ensures grows { GrowsTo table.old table.new }
    ensures symbols { table.new.symbols ≡ table.old.symbols }
    ensures sorts { table.new.sorts ≡ table.old.sorts }
{
    match table.op(id) {
        Op::Select => {
            let result = read(alloc, table, kids[0], kids[1])?;
            Ok(result)
        }
        Op::Neg => {
            let result = table.minus(kids[0])?;
            Ok(result)
        }
        op => {
            let result = table.intern(op, kids)?;
            Ok(result)
        }
    }
}

// The result of a node that isn't quantified.
fn applied(
    alloc: Global,
    table: &mut Table,
    id: NodeId,
    kept: &Kept<NodeId>,
) -> Result<NodeId, AllocError>
    requires node { IsNode table.old id }
    requires applied { is_quantified (tree table.old id) ≡ false }
    requires related { AreRelated HasReads table.old kept.now }
    requires kids { HaveResults table.old (tree table.old id) kept.now }
    ensures result { IfOk result (HasReads table.new (tree table.old id)) }
    ensures grows { GrowsTo table.old table.new }
    ensures symbols { table.new.symbols ≡ table.old.symbols }
    ensures sorts { table.new.sorts ≡ table.old.sorts }
{
    let kids = operand_results(alloc, table, id, kept)?;
    if is_own_result(table, id, &kids) {
        return Ok(id);
    }
    over_results(alloc, table, id, &kids)
}

// The result of a node.
fn result_of(
    alloc: Global,
    table: &mut Table,
    id: NodeId,
    kept: &Kept<NodeId>,
) -> Result<NodeId, AllocError>
    requires node { IsNode table.old id }
    requires related { AreRelated HasReads table.old kept.now }
    requires kids { HaveResults table.old (tree table.old id) kept.now }
    ensures result { IfOk result (HasReads table.new (tree table.old id)) }
    ensures grows { GrowsTo table.old table.new }
    ensures symbols { table.new.symbols ≡ table.old.symbols }
    ensures sorts { table.new.sorts ≡ table.old.sorts }
{
    if is_binder(table, id) {
        return quantified(alloc, table, id, kept);
    }
    applied(alloc, table, id, kept)
}

#[derive(Drop)]
struct ReadStep {
    alloc: Global,
}

impl NodeStep for ReadStep {
    type Out = NodeId;

    ghost use Rattle.array_forms.specs.ReadNodes.{HasReads, reads_stay};

    ghost Meaning = { Unit {0} };

    ghost meaning = { λ _. tt };

    ghost related = { λ _ t u r. HasReads t u r };

    fn step<L: Ledger>(
        &mut self,
        table: &mut Table,
        id: NodeId,
        kept: &Kept<NodeId>,
        steps: &mut Steps<L>,
    ) -> Result<NodeId, AllocError> {
        steps.tick();
        result_of(self.alloc, table, id, kept)
    }

    ghost stays = { λ _ old new t r grows has. reads_stay old new t r grows has };
}

/// A term with each `select` told by the writes below it, as far as their indices tell: it has the same value in every
/// model. What earlier calls over the table found is kept, and no subterm is met twice: it takes at most one step for each
/// distinct subterm, and one for each place of an operand.
pub fn read_over_write<L: Ledger>(
    alloc: Global,
    table: &mut Table,
    id: NodeId,
    kept: &mut Kept<NodeId>,
    steps: &mut Steps<L>,
) -> Result<NodeId, AllocError>
    requires node { IsNode table.old id }
    requires fits { Fits HasReads table.old kept.old }
    ensures node { IfOk result (IsNode table.new) }
    ensures term { IfOk result (λ k. tree table.new k ≡ reads (tree table.old id)) }
    ensures all { OnOk result (AllHaveResults table.new (tree table.old id ∷ []) kept.new) }
    ensures fits { Fits HasReads table.new kept.new }
    ensures stay { Stay kept.old kept.new }
    ensures gained { GainsBelow table.old (tree table.old id ∷ []) kept.old kept.new }
    ensures grows { GrowsTo table.old table.new }
    ensures symbols { table.new.symbols ≡ table.old.symbols }
    ensures sorts { table.new.sorts ≡ table.old.sorts }
    ensures most { steps.new ≤ steps.old + places (all_subterms (tree table.old id ∷ [])) }
    ensures least { results kept.new + steps.old ≤ results kept.old + steps.new }
{
    let mut step = ReadStep { alloc };
    walk(alloc, table, &mut step, kept, id, steps)?;
    let answer = *kept.get(id).unwrap();
    Ok(answer)
}

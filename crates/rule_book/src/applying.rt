//! A formula rewritten by the rules of a book, from below, once: where a node made over its rewritten operands has a view, the rules
//! are asked in order, and the first template takes its place.
//!
//!     ruled (h t1 .. tn) = rewritten (h (ruled t1) .. (ruled tn))

ghost use Rattle.std.specs.Prelude.{◌≡◌, ◌+◌, ◌≤◌, ◌∷◌, [], true, false, IsTrue, IfOk, OnOk};
ghost use Rattle.smt_terms.specs.Keeps.{Keeps};
ghost use Rattle.smt_terms.specs.Term.{terms};
ghost use Rattle.term_table.specs.Formulas.{tree, trees_at, sorts_in, operands, IsNode, AreNodes};
ghost use Rattle.term_walk.specs.Places.{results};
ghost use Rattle.term_walk.specs.Subterms.{all_subterms, places};
ghost use Rattle.term_walk.specs.Walking.{GrowsTo, AreRelated, HaveResults, Fits, Stay, GainsBelow, AllHaveResults};
ghost use Rattle.term_walk.specs.Binders.{is_quantified};
ghost use Rattle.rule_book.specs.EightRules.{all_eight};
ghost use Rattle.rule_book.specs.Filling.{with_operands};
ghost use Rattle.rule_book.specs.Rewriting.{Replaces, RewritesEach, Rewrites};
ghost use Rattle.rule_book.specs.Ruled.{ruled};
ghost use Rattle.rule_book.specs.RuledNodes.{IsRuled};

use crate::book::{Named, RuleBook};
use crate::filling::{fill, make};
use crate::laws::{eight_rewrite_so, rewriting_keeps_values};
use crate::viewing::view_of_node;
use normal_forms::binding::{bind, body_of, is_universal};
use normal_forms::results::results_of;
use smt_terms::NodeId;
use smt_values::Op;
use std::alloc::{AllocError, Global};
use std::sync::ledger::Ledger;
use term_table::{Table, know_table};
use term_walk::walks::walk;
use term_walk::{Kept, NodeStep, Steps, is_binder};

// The operator of a node that isn't quantified over these nodes, which have its operands' sorts.
fn over_operands(table: &mut Table, id: NodeId, kids: &[NodeId]) -> Result<NodeId, AllocError>
    requires node { IsNode table.old id }
    requires applied { is_quantified (tree table.old id) ≡ false }
    requires kids { AreNodes table.old kids.now }
    requires sorts { sorts_in (trees_at table.old kids.now) ≡ sorts_in (operands (tree table.old id)) }
    ensures node { IfOk result (IsNode table.new) }
    ensures term { IfOk result (λ k. tree table.new k ≡ with_operands (tree table.old id) (trees_at table.old kids.now)) }
    ensures grows { GrowsTo table.old table.new }
    ensures symbols { table.new.symbols ≡ table.old.symbols }
    ensures sorts { table.new.sorts ≡ table.old.sorts }
{
    let op = table.op(id);
    let made = make(table, op, kids)?;
    Ok(made)
}

// What takes the place of a node: the first template that a rule answers for it, over the nodes of its holes, or else itself.
fn in_place_of(table: &mut Table, book: &RuleBook, id: NodeId) -> Result<NodeId, AllocError>
    requires { IsNode table.old id }
    ensures node { IfOk result (IsNode table.new) }
    ensures replaces { IfOk result (λ k. Replaces (⟦<RuleBook as Named>⟧.names book.now) (tree table.old id) (tree table.new k)) }
    ensures grows { GrowsTo table.old table.new }
    ensures symbols { table.new.symbols ≡ table.old.symbols }
    ensures sorts { table.new.sorts ≡ table.old.sorts }
{
    know_table(table);
    let Some(viewed) = view_of_node(table, id) else {
        return Ok(id);
    };
    let Some(template) = book.first_answer(&viewed.view) else {
        return Ok(id);
    };
    let filled = fill(table, viewed.holes.as_slice(), &template)?;
    Ok(filled)
}

#[derive(Drop)]
struct RuleStep<'a> {
    alloc: Global,
    book: &'a RuleBook,
}

impl<'a> RuleStep<'a> {
    // What the operands of a node became.
    fn operand_results(
        &self,
        table: &Table,
        id: NodeId,
        kept: &Kept<NodeId>,
    ) -> Result<Vec<NodeId>, AllocError>
        requires node { IsNode table.now id }
        requires related { AreRelated (IsRuled (⟦<RuleBook as Named>⟧.names self.now.book.now)) table.now kept.now }
        requires kids { HaveResults table.now (tree table.now id) kept.now }
        ensures nodes { IfOk result (λ ks. AreNodes table.now ks.items) }
        ensures terms { IfOk result (λ ks. RewritesEach (⟦<RuleBook as Named>⟧.names self.now.book.now) (terms (operands (tree table.now id))) (terms (trees_at table.now ks.items))) }
        ensures sorts { IfOk result (λ ks. sorts_in (trees_at table.now ks.items) ≡ sorts_in (operands (tree table.now id))) }
    {
        rewriting_keeps_values();
        let found = results_of(self.alloc, kept, table.kids(id))?;
        Ok(found)
    }

    // What a node becomes that isn't quantified.
    fn applied(
        &self,
        table: &mut Table,
        id: NodeId,
        kept: &Kept<NodeId>,
    ) -> Result<NodeId, AllocError>
        requires node { IsNode table.old id }
        requires applied { is_quantified (tree table.old id) ≡ false }
        requires related { AreRelated (IsRuled (⟦<RuleBook as Named>⟧.names self.now.book.now)) table.old kept.now }
        requires kids { HaveResults table.old (tree table.old id) kept.now }
        ensures ruled { IfOk result (IsRuled (⟦<RuleBook as Named>⟧.names self.now.book.now) table.new (tree table.old id)) }
        ensures grows { GrowsTo table.old table.new }
        ensures symbols { table.new.symbols ≡ table.old.symbols }
        ensures sorts { table.new.sorts ≡ table.old.sorts }
    {
        let kids = self.operand_results(table, id, kept)?;
        let made = over_operands(table, id, &kids)?;
        let result = in_place_of(table, self.book, made)?;
        Ok(result)
    }

    // What a quantified node becomes.
    fn quantified(
        &self,
        table: &mut Table,
        id: NodeId,
        kept: &Kept<NodeId>,
    ) -> Result<NodeId, AllocError>
        requires node { IsNode table.old id }
        requires quantified { is_quantified (tree table.old id) ≡ true }
        requires related { AreRelated (IsRuled (⟦<RuleBook as Named>⟧.names self.now.book.now)) table.old kept.now }
        requires kids { HaveResults table.old (tree table.old id) kept.now }
        ensures ruled { IfOk result (IsRuled (⟦<RuleBook as Named>⟧.names self.now.book.now) table.new (tree table.old id)) }
        ensures grows { GrowsTo table.old table.new }
        ensures symbols { table.new.symbols ≡ table.old.symbols }
        ensures sorts { table.new.sorts ≡ table.old.sorts }
    {
        know_table(table);
        rewriting_keeps_values();
        let body = *kept.get(body_of(table, id)).unwrap();
        let universal = is_universal(table, id);
        let result = bind(self.alloc, table, id, universal, body)?;
        Ok(result)
    }

    // What a node becomes.
    fn result_of(
        &self,
        table: &mut Table,
        id: NodeId,
        kept: &Kept<NodeId>,
    ) -> Result<NodeId, AllocError>
        requires node { IsNode table.old id }
        requires related { AreRelated (IsRuled (⟦<RuleBook as Named>⟧.names self.now.book.now)) table.old kept.now }
        requires kids { HaveResults table.old (tree table.old id) kept.now }
        ensures ruled { IfOk result (IsRuled (⟦<RuleBook as Named>⟧.names self.now.book.now) table.new (tree table.old id)) }
        ensures grows { GrowsTo table.old table.new }
        ensures symbols { table.new.symbols ≡ table.old.symbols }
        ensures sorts { table.new.sorts ≡ table.old.sorts }
    {
        if is_binder(table, id) {
            return self.quantified(table, id, kept);
        }
        self.applied(table, id, kept)
    }
}

impl<'a> NodeStep for RuleStep<'a> {
    type Out = NodeId;

    ghost use Rattle.std.specs.Prelude.{List, map};
    ghost use Rattle.smt_terms.specs.Sorts.{Name};
    ghost use Rattle.rule_book.specs.RuledNodes.{IsRuled, ruled_stays};

    ghost Meaning = { List Name };

    ghost meaning = { λ s. map (λ r. r.name.now) s.book.now.rules.items };

    ghost related = { λ names t u r. IsRuled names t u r };

    fn step<L: Ledger>(
        &mut self,
        table: &mut Table,
        id: NodeId,
        kept: &Kept<NodeId>,
        steps: &mut Steps<L>,
    ) -> Result<NodeId, AllocError> {
        steps.tick();
        self.result_of(table, id, kept)
    }

    ghost stays = { λ names old new t r grows is. ruled_stays names old new t r grows is };
}

/// A formula, or any other term, rewritten by the rules of a book: it keeps its value in every model. It goes by what is kept of
/// earlier calls with this book over the table, and keeps what it finds. It takes one step for each distinct subterm, at which it
/// asks each rule at most once, and one for each place of an operand.
pub fn apply<L: Ledger>(
    alloc: Global,
    table: &mut Table,
    book: &RuleBook,
    id: NodeId,
    kept: &mut Kept<NodeId>,
    steps: &mut Steps<L>,
) -> Result<NodeId, AllocError>
    requires node { IsNode table.old id }
    requires fits { Fits (IsRuled (⟦<RuleBook as Named>⟧.names book.now)) table.old kept.old }
    ensures node { IfOk result (IsNode table.new) }
    ensures rewrites { IfOk result (λ k. Rewrites (⟦<RuleBook as Named>⟧.names book.now) (tree table.old id) (tree table.new k)) }
    ensures keeps { IfOk result (λ k. Keeps (tree table.old id) (tree table.new k)) }
    ensures told { IsTrue (all_eight (⟦<RuleBook as Named>⟧.names book.now)) → IfOk result (λ k. tree table.new k ≡ ruled (⟦<RuleBook as Named>⟧.names book.now) (tree table.old id)) }
    ensures all { OnOk result (AllHaveResults table.new (tree table.old id ∷ []) kept.new) }
    ensures fits { Fits (IsRuled (⟦<RuleBook as Named>⟧.names book.now)) table.new kept.new }
    ensures stay { Stay kept.old kept.new }
    ensures gained { GainsBelow table.old (tree table.old id ∷ []) kept.old kept.new }
    ensures grows { GrowsTo table.old table.new }
    ensures symbols { table.new.symbols ≡ table.old.symbols }
    ensures sorts { table.new.sorts ≡ table.old.sorts }
    ensures most { steps.new ≤ steps.old + places (all_subterms (tree table.old id ∷ [])) }
    ensures least { results kept.new + steps.old ≤ results kept.old + steps.new }
{
    know_table(table);
    rewriting_keeps_values();
    eight_rewrite_so();
    let mut step = RuleStep { alloc, book };
    walk(alloc, table, &mut step, kept, id, steps)?;
    let result = *kept.get(id).unwrap();
    Ok(result)
}

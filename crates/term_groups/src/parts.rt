//! The parts of a term that a pass looks into.

ghost use Rattle.std.specs.Prelude.{◌≡◌, Bool, List, false, not, filter, IfOk};
ghost use Rattle.term_walk.specs.Binders.{is_quantified};
ghost use Rattle.quantifier_forms.specs.Tasks.{TellAlike};
ghost use Rattle.smt_terms.specs.declared.ids.NodeId.{NodeId};
ghost use Rattle.smt_terms.specs.Sorts.{Variable};
ghost use Rattle.smt_terms.specs.Term.{Quantifier, Term, quantified};
ghost use Rattle.term_groups.specs.Parts.{collected, AreParts};
ghost use Rattle.term_table.specs.Formulas.{tree, trees_at, IsNode, AreNodes};

use quantifier_forms::listing::{Choice, list};
use smt_terms::NodeId;
use std::alloc::{AllocError, Global};
use term_table::Table;
use term_walk::is_binder;

/// All that stands outside quantifiers.
#[derive(Clone, Copy)]
pub struct Outside;

impl Choice for Outside {
    ghost skips = { λ _ _. false };

    ghost opens = { λ _ t k. not (is_quantified (tree t k)) };

    fn skips(&self, _id: NodeId) -> bool {
        false
    }

    fn opens(&self, table: &Table, id: NodeId) -> bool {
        !is_binder(table, id)
    }
}

/// The distinct subterms of a node that are reached through those that the choice opens, each behind its operands, these from left
/// to right. The choice skips none, and opens nothing that is quantified.
pub fn parts<C: Choice>(
    alloc: Global,
    table: &Table,
    choice: &C,
    root: NodeId,
) -> Result<Vec<NodeId>, AllocError>
    requires node { IsNode table.now root }
    requires all { (k : NodeId) → C.skips choice.now k ≡ false }
    ensures nodes { IfOk result (λ ks. AreNodes table.now ks.items) }
    ensures parts { (opens : Term → Bool) → TellAlike table.now (C.opens choice.now table.now) opens → ((q : Quantifier) (xs : List Variable) (t : Term) → opens (quantified q xs t) ≡ false)
        → IfOk result (λ ks. AreParts opens (tree table.now root) (trees_at table.now ks.items)) }
    ensures collected { (opens wanted : Term → Bool) → TellAlike table.now (C.opens choice.now table.now) opens → ((q : Quantifier) (xs : List Variable) (t : Term) → opens (quantified q xs t) ≡ false)
        → IfOk result (λ ks. filter wanted (trees_at table.now ks.items) ≡ collected opens wanted (tree table.now root)) }
{
    list(alloc, table, choice, root)
}

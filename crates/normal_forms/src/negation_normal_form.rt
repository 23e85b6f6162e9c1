//! Negation normal form: `nnf t`, which has the value of the formula t, beside `nnf_not t`, which has the other one. Both go
//! through connectives and quantifiers to the atoms, and hold only `and`, `or`, and `not` over atoms. With + for `nnf` and -
//! for `nnf_not` of the operands:
//!
//! - `(not a)`: a-; and a+
//! - `(and a ..)`: `(and a+ ..)`; and `(or a- ..)`
//! - `(or a ..)`: `(or a+ ..)`; and `(and a- ..)`
//! - `(=> a b)`: `(or a- b+)`; and `(and a+ b-)`
//! - `(= a b)`: `(and (or a- b+) (or a+ b-))`; and the form of `(xor a b)`
//! - `(xor a b)`: `(or (and a+ b-) (and a- b+))`; and the form of `(= a b)`
//! - `(distinct a b)` as `(xor a b)`; of three or more truth values `false`; and `true`
//! - `(ite c a b)`: `(and (or c- a+) (or c+ b+))`; and `(and (or c- a-) (or c+ b-))`
//! - `(forall (x) a)`: `(forall (x) a+)`; and `(exists (x) a-)`, and the other way round
//! - `true` and `false`: itself; and the other one
//! - an atom p: p; and `(not p)`

ghost use Rattle.std.specs.Prelude.{◌≡◌, ◌∷◌, [], ◌+◌, ◌≤◌, List, length, map, true, All, IsSome, IsTrue, IfOk, OnOk};
ghost use Rattle.smt_terms.specs.Sorts.{bool};
ghost use Rattle.smt_terms.specs.Shapes.{is_nnf};
ghost use Rattle.smt_terms.specs.Term.{Term};
ghost use Rattle.term_table.specs.Formulas.{tree, trees_at, operands, IsNode};
ghost use Rattle.term_walk.specs.Places.{result_at};
ghost use Rattle.term_walk.specs.Subterms.{all_subterms, places};
ghost use Rattle.term_walk.specs.Walking.{GrowsTo, AreRelated, Fits, HaveResults};
ghost use Rattle.normal_forms.specs.Nnf as plain;
ghost use Rattle.normal_forms.specs.Nodes.{IsFormula};
ghost use Rattle.normal_forms.specs.Shape.{Takes, IsOfKind, kind_seen};
ghost use Rattle.term_walk.specs.Binders.{is_quantified};
ghost use Rattle.normal_forms.specs.FormNodes.{AreForms, HasForms, AreTaken, positive_of, negative_of};

use crate::binding::{bind, body_of, is_universal};
use crate::connective::{Connective, Shape};
use crate::forms::{negative_form, positive_form};
use crate::making::{negation, truth};
use crate::node_forms::Forms;
use crate::shapes::{is_formula, shape_of};
use smallvec::SmallVec;
use smt_terms::NodeId;
use std::alloc::{AllocError, Global};
use std::sync::ledger::Ledger;
use term_table::{Table, know_table};
use term_walk::walks::{walk, walk_all};
use term_walk::{Kept, NodeStep, Steps};

// So many operands take no memory.
const FEW: usize = 4;

// The positive forms and the negative forms of these nodes. Up to four take no memory.
fn sides(
    alloc: Global,
    kept: &Kept<Forms>,
    kids: &[NodeId],
) -> Result<(SmallVec<NodeId, 4>, SmallVec<NodeId, 4>), AllocError>
    requires { All (λ k. IsSome (result_at kept.now k.0)) kids.now }
    ensures positive { IfOk result (λ s. AreTaken positive_of kept.now kids.now s.0.items) }
    ensures negative { IfOk result (λ s. AreTaken negative_of kept.now kids.now s.1.items) }
{
    let mut positives = SmallVec::with_capacity(alloc, kids.len())?;
    let mut negatives = SmallVec::with_capacity(alloc, kids.len())?;
    for kid in kids {
        let forms = *kept.get(*kid).unwrap();
        positives.push(forms.positive())?;
        negatives.push(forms.negative())?;
    }
    Ok((positives, negatives))
}

// The positive forms and the negative forms of a connective's operands.
fn operand_forms(
    alloc: Global,
    table: &Table,
    id: NodeId,
    connective: Connective,
    kept: &Kept<Forms>,
) -> Result<(SmallVec<NodeId, 4>, SmallVec<NodeId, 4>), AllocError>
    requires formula { IsFormula table.now id }
    requires shape { IsOfKind (tree table.now id) (kind_seen connective) }
    requires related { AreRelated HasForms table.now kept.now }
    requires kids { HaveResults table.now (tree table.now id) kept.now }
    ensures positives { IfOk result (λ s. All (IsFormula table.now) s.0.items) }
    ensures negatives { IfOk result (λ s. All (IsFormula table.now) s.1.items) }
    ensures yes { IfOk result (λ s. trees_at table.now s.0.items ≡ map plain.nnf (operands (tree table.now id))) }
    ensures no { IfOk result (λ s. trees_at table.now s.1.items ≡ map plain.nnf_not (operands (tree table.now id))) }
    ensures number { IfOk result (λ s. Takes connective (length s.0.items)) }
    ensures same { IfOk result (λ s. length s.1.items ≡ length s.0.items) }
{
    let found = sides(alloc, kept, table.kids(id))?;
    Ok(found)
}

// Whether a node is the `and` or the `or` of these nodes.
fn joins(table: &Table, id: NodeId, connective: Connective, kids: &[NodeId]) -> bool
    requires formula { IsFormula table.now id }
    requires shape { IsOfKind (tree table.now id) (kind_seen connective) }
    ensures { IsTrue result → (ns : List Term) → tree table.now id ≡ plain.positive (kind_seen connective) (tree table.now id) (trees_at table.now kids.now) ns }
{
    match connective {
        Connective::And => table.kids(id) == kids,
        Connective::Or => table.kids(id) == kids,
        _ => false,
    }
}

// The positive form of a connective. An `and` or an `or` of formulas that are their own positive forms is its own.
fn connected_positive(
    table: &mut Table,
    id: NodeId,
    connective: Connective,
    ps: &[NodeId],
    ns: &[NodeId],
) -> Result<NodeId, AllocError>
    requires id { IsFormula table.old id }
    requires shape { IsOfKind (tree table.old id) (kind_seen connective) }
    requires ps { All (IsFormula table.old) ps.now }
    requires ns { All (IsFormula table.old) ns.now }
    requires number { Takes connective (length ps.now) }
    requires same { length ns.now ≡ length ps.now }
    ensures formula { IfOk result (IsFormula table.new) }
    ensures term { IfOk result (λ k. tree table.new k ≡ plain.positive (kind_seen connective) (tree table.old id) (trees_at table.old ps.now) (trees_at table.old ns.now)) }
    ensures grows { GrowsTo table.old table.new }
    ensures symbols { table.new.symbols ≡ table.old.symbols }
    ensures sorts { table.new.sorts ≡ table.old.sorts }
{
    if joins(table, id, connective, ps) {
        return Ok(id);
    }
    positive_form(table, connective, ps, ns)
}

// The forms of a connective.
fn connected_forms(
    alloc: Global,
    table: &mut Table,
    id: NodeId,
    connective: Connective,
    kept: &Kept<Forms>,
) -> Result<Forms, AllocError>
    requires formula { IsFormula table.old id }
    requires shape { IsOfKind (tree table.old id) (kind_seen connective) }
    requires related { AreRelated HasForms table.old kept.now }
    requires kids { HaveResults table.old (tree table.old id) kept.now }
    ensures forms { IfOk result (AreForms table.new (tree table.old id)) }
    ensures grows { GrowsTo table.old table.new }
    ensures symbols { table.new.symbols ≡ table.old.symbols }
    ensures sorts { table.new.sorts ≡ table.old.sorts }
{
    let (positives, negatives) = operand_forms(alloc, table, id, connective, kept)?;
    let positive = connected_positive(table, id, connective, &positives, &negatives)?;
    let negative = negative_form(table, connective, &positives, &negatives)?;
    let forms = Forms::new(positive, negative)?;
    Ok(forms)
}

// The forms of a quantified formula.
fn quantified_forms(
    alloc: Global,
    table: &mut Table,
    id: NodeId,
    kept: &Kept<Forms>,
) -> Result<Forms, AllocError>
    requires formula { IsFormula table.old id }
    requires quantified { is_quantified (tree table.old id) ≡ true }
    requires related { AreRelated HasForms table.old kept.now }
    requires kids { HaveResults table.old (tree table.old id) kept.now }
    ensures forms { IfOk result (AreForms table.new (tree table.old id)) }
    ensures grows { GrowsTo table.old table.new }
    ensures symbols { table.new.symbols ≡ table.old.symbols }
    ensures sorts { table.new.sorts ≡ table.old.sorts }
{
    let forms = *kept.get(body_of(table, id)).unwrap();
    let universal = is_universal(table, id);
    let positive = bind(alloc, table, id, universal, forms.positive())?;
    let negative = bind(alloc, table, id, !universal, forms.negative())?;
    let bound = Forms::new(positive, negative)?;
    Ok(bound)
}

// The positive form of a connective alone.
fn connected_root(
    alloc: Global,
    table: &mut Table,
    id: NodeId,
    connective: Connective,
    kept: &Kept<Forms>,
) -> Result<NodeId, AllocError>
    requires formula { IsFormula table.old id }
    requires shape { IsOfKind (tree table.old id) (kind_seen connective) }
    requires related { AreRelated HasForms table.old kept.now }
    requires kids { HaveResults table.old (tree table.old id) kept.now }
    ensures formula { IfOk result (IsFormula table.new) }
    ensures term { IfOk result (λ k. tree table.new k ≡ plain.nnf (tree table.old id)) }
    ensures grows { GrowsTo table.old table.new }
    ensures symbols { table.new.symbols ≡ table.old.symbols }
    ensures sorts { table.new.sorts ≡ table.old.sorts }
{
    let (positives, negatives) = operand_forms(alloc, table, id, connective, kept)?;
    let positive = connected_positive(table, id, connective, &positives, &negatives)?;
    Ok(positive)
}

// The positive form of a quantified formula alone.
fn quantified_root(
    alloc: Global,
    table: &mut Table,
    id: NodeId,
    kept: &Kept<Forms>,
) -> Result<NodeId, AllocError>
    requires formula { IsFormula table.old id }
    requires quantified { is_quantified (tree table.old id) ≡ true }
    requires related { AreRelated HasForms table.old kept.now }
    requires kids { HaveResults table.old (tree table.old id) kept.now }
    ensures formula { IfOk result (IsFormula table.new) }
    ensures term { IfOk result (λ k. tree table.new k ≡ plain.nnf (tree table.old id)) }
    ensures grows { GrowsTo table.old table.new }
    ensures symbols { table.new.symbols ≡ table.old.symbols }
    ensures sorts { table.new.sorts ≡ table.old.sorts }
{
    let forms = *kept.get(body_of(table, id)).unwrap();
    let positive = bind(alloc, table, id, is_universal(table, id), forms.positive())?;
    Ok(positive)
}

// The positive form of a formula alone, which is all that is asked for where the formula is no operand.
fn root_form(
    alloc: Global,
    table: &mut Table,
    id: NodeId,
    kept: &Kept<Forms>,
) -> Result<NodeId, AllocError>
    requires formula { IsFormula table.old id }
    requires related { AreRelated HasForms table.old kept.now }
    requires kids { HaveResults table.old (tree table.old id) kept.now }
    ensures formula { IfOk result (IsFormula table.new) }
    ensures term { IfOk result (λ k. tree table.new k ≡ plain.nnf (tree table.old id)) }
    ensures grows { GrowsTo table.old table.new }
    ensures symbols { table.new.symbols ≡ table.old.symbols }
    ensures sorts { table.new.sorts ≡ table.old.sorts }
{
    match shape_of(table, id) {
        Shape::Truth(_) => Ok(id),
        Shape::Atom => Ok(id),
        Shape::Quantified => quantified_root(alloc, table, id, kept),
        Shape::Connected(connective) => connected_root(alloc, table, id, connective, kept),
    }
}

// The forms of a formula.
fn formula_forms(
    alloc: Global,
    table: &mut Table,
    id: NodeId,
    kept: &Kept<Forms>,
) -> Result<Forms, AllocError>
    requires formula { IsFormula table.old id }
    requires related { AreRelated HasForms table.old kept.now }
    requires kids { HaveResults table.old (tree table.old id) kept.now }
    ensures forms { IfOk result (AreForms table.new (tree table.old id)) }
    ensures grows { GrowsTo table.old table.new }
    ensures symbols { table.new.symbols ≡ table.old.symbols }
    ensures sorts { table.new.sorts ≡ table.old.sorts }
{
    match shape_of(table, id) {
        Shape::Truth(value) => {
            let negative = truth(table, !value)?;
            Forms::new(id, negative)
        }
        Shape::Atom => {
            let negative = negation(table, id)?;
            Forms::new(id, negative)
        }
        Shape::Quantified => quantified_forms(alloc, table, id, kept),
        Shape::Connected(connective) => connected_forms(alloc, table, id, connective, kept),
    }
}

// The forms of a node. Those of another sort than Bool are none, and the node itself stands in their place.
fn forms_of(
    alloc: Global,
    table: &mut Table,
    id: NodeId,
    kept: &Kept<Forms>,
) -> Result<Forms, AllocError>
    requires node { IsNode table.old id }
    requires related { AreRelated HasForms table.old kept.now }
    requires kids { HaveResults table.old (tree table.old id) kept.now }
    ensures forms { IfOk result (HasForms table.new (tree table.old id)) }
    ensures grows { GrowsTo table.old table.new }
    ensures symbols { table.new.symbols ≡ table.old.symbols }
    ensures sorts { table.new.sorts ≡ table.old.sorts }
{
    if is_formula(table, id) {
        return formula_forms(alloc, table, id, kept);
    }
    Forms::new(id, id)
}

#[derive(Drop)]
struct FormStep {
    alloc: Global,
}

impl NodeStep for FormStep {
    type Out = Forms;

    ghost use Rattle.normal_forms.specs.FormNodes.{HasForms, forms_stay};

    ghost Meaning = { Unit {0} };

    ghost meaning = { λ _. tt };

    ghost related = { λ _ t u r. HasForms t u r };

    fn step<L: Ledger>(
        &mut self,
        table: &mut Table,
        id: NodeId,
        kept: &Kept<Forms>,
        steps: &mut Steps<L>,
    ) -> Result<Forms, AllocError> {
        steps.tick();
        forms_of(self.alloc, table, id, kept)
    }

    ghost stays = { λ _ old new t r grows has. forms_stay old new t r grows has };
}

// Whether a formula is its own positive form by its shape alone, as an atom or a truth constant is.
fn is_own_form(table: &Table, id: NodeId) -> bool
    requires { IsFormula table.now id }
    ensures { IsTrue result → plain.nnf (tree table.now id) ≡ tree table.now id }
{
    match shape_of(table, id) {
        Shape::Truth(_) => true,
        Shape::Atom => true,
        Shape::Quantified => false,
        Shape::Connected(_) => false,
    }
}

// Gives all subterms of a formula but itself their forms, and counts a step for the formula.
fn walk_below<L: Ledger>(
    alloc: Global,
    table: &mut Table,
    id: NodeId,
    kept: &mut Kept<Forms>,
    steps: &mut Steps<L>,
) -> Result<(), AllocError>
    requires formula { IsFormula table.old id }
    requires fits { Fits HasForms table.old kept.old }
    ensures kids { OnOk result (HaveResults table.new (tree table.old id) kept.new) }
    ensures fits { Fits HasForms table.new kept.new }
    ensures grows { GrowsTo table.old table.new }
    ensures symbols { table.new.symbols ≡ table.old.symbols }
    ensures sorts { table.new.sorts ≡ table.old.sorts }
    ensures most { steps.new ≤ steps.old + places (all_subterms (tree table.old id ∷ [])) }
{
    let kids: SmallVec<NodeId, 4> = SmallVec::from_slice(alloc, table.kids(id))?;
    let mut step = FormStep { alloc };
    walk_all(alloc, table, &mut step, kept, &kids, steps)?;
    // tells what holds of every table
    know_table(table);
    steps.tick();
    Ok(())
}

/// The negation normal form of a formula: the formula says the same, and has no connectives but `and`, `or`, and `not`
/// over atoms. It takes one step for each distinct subterm, and one for each place of an operand.
pub fn nnf<L: Ledger>(
    alloc: Global,
    table: &mut Table,
    id: NodeId,
    steps: &mut Steps<L>,
) -> Result<NodeId, AllocError>
    requires { IsFormula table.old id }
    ensures formula { IfOk result (IsFormula table.new) }
    ensures term { IfOk result (λ k. tree table.new k ≡ plain.nnf (tree table.old id)) }
    ensures shape { IfOk result (λ k. IsTrue (is_nnf (tree table.new k))) }
    ensures grows { GrowsTo table.old table.new }
    ensures symbols { table.new.symbols ≡ table.old.symbols }
    ensures sorts { table.new.sorts ≡ table.old.sorts }
    ensures most { steps.new ≤ steps.old + places (all_subterms (tree table.old id ∷ [])) }
{
    let mut kept = Kept::new(alloc);
    nnf_kept(alloc, table, id, &mut kept, steps)
}

/// As `nnf`, with what earlier calls over the table found, and keeps what it finds. An atom is its own form, and nothing below
/// it is walked. Of a formula of few operands the negation isn't made, as nobody asks for it unless another formula has it as
/// a subterm: its own form is then made anew in each call, which takes a few look-ups of nodes.
pub fn nnf_kept<L: Ledger>(
    alloc: Global,
    table: &mut Table,
    id: NodeId,
    kept: &mut Kept<Forms>,
    steps: &mut Steps<L>,
) -> Result<NodeId, AllocError>
    requires formula { IsFormula table.old id }
    requires fits { Fits HasForms table.old kept.old }
    ensures formula { IfOk result (IsFormula table.new) }
    ensures term { IfOk result (λ k. tree table.new k ≡ plain.nnf (tree table.old id)) }
    ensures shape { IfOk result (λ k. IsTrue (is_nnf (tree table.new k))) }
    ensures fits { Fits HasForms table.new kept.new }
    ensures grows { GrowsTo table.old table.new }
    ensures symbols { table.new.symbols ≡ table.old.symbols }
    ensures sorts { table.new.sorts ≡ table.old.sorts }
    ensures most { steps.new ≤ steps.old + places (all_subterms (tree table.old id ∷ [])) }
{
    if is_own_form(table, id) {
        return Ok(id);
    }
    if table.kids(id).len() <= FEW && kept.get(id).is_none() {
        walk_below(alloc, table, id, kept, steps)?;
        let normal = root_form(alloc, table, id, kept)?;
        return Ok(normal);
    }
    let mut step = FormStep { alloc };
    walk(alloc, table, &mut step, kept, id, steps)?;
    let forms = *kept.get(id).unwrap();
    Ok(forms.positive())
}

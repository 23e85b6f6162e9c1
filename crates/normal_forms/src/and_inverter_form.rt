//! And-inverter form: `aig t`, which has the value of the formula t, through connectives and quantifiers to the atoms, with
//! only `and` and `not`, and no `not` over a `not`. Over the forms of the operands, and with `!a` for a without its `not`,
//! or else `(not a)`:
//!
//! - `(not a)`: `!a`
//! - `(and a ..)`: `(and a ..)`
//! - `(or a ..)`: `!(and !a ..)`
//! - `(=> a b)`: `!(and a !b)`
//! - `(= a b)`: `(and !(and a !b) !(and !a b))`
//! - `(xor a b)`: `!(and !(and a !b) !(and !a b))`
//! - `(distinct a b)` as `(xor a b)`; of three or more truth values `false`
//! - `(ite c a b)`: `(and !(and c !a) !(and !c !b))`
//! - `(forall (x) a)`: itself over the form of a, and so `exists`
//! - `true`, `false`, an atom: itself

ghost use Rattle.std.specs.Prelude.{◌≡◌, ◌∷◌, [], ◌+◌, ◌≤◌, length, map, true, All, IsTrue, IfOk};
ghost use Rattle.smt_terms.specs.Connectives.{all_of, opposite};
ghost use Rattle.smt_terms.specs.Shapes.{is_aig};
ghost use Rattle.smt_terms.specs.Term.{Term};
ghost use Rattle.term_table.specs.Formulas.{tree, trees_at, operands, IsNode};
ghost use Rattle.term_walk.specs.Subterms.{all_subterms, places};
ghost use Rattle.term_walk.specs.Walking.{GrowsTo, AreRelated, Fits, HaveResults};
ghost use Rattle.normal_forms.specs.Aig as plain;
ghost use Rattle.normal_forms.specs.Nodes.{IsFormula};
ghost use Rattle.normal_forms.specs.Shape.{Takes, IsOfKind, kind_seen};
ghost use Rattle.term_walk.specs.Binders.{is_quantified};
ghost use Rattle.normal_forms.specs.InvertedNodes.{IsInverted, HasInverted};

use crate::binding::{bind, body_of, is_universal};
use crate::connective::{Connective, Shape};
use crate::making::{conjunction, truth};
use crate::opposites::{choice, implication, opposite, opposites, same_sides};
use crate::results::results_of;
use crate::shapes::{is_formula, shape_of};
use smt_terms::NodeId;
use std::alloc::{AllocError, Global};
use std::sync::ledger::Ledger;
use term_table::Table;
use term_walk::walks::walk;
use term_walk::{Kept, NodeStep, Steps};

// Whether two formulas differ.
fn differ(table: &mut Table, ids: &[NodeId]) -> Result<NodeId, AllocError>
    requires ids { All (IsFormula table.old) ids.now }
    requires number { length ids.now ≡ 2 }
    ensures formula { IfOk result (IsFormula table.new) }
    ensures term { IfOk result (λ k. tree table.new k ≡ opposite (plain.same_sides (trees_at table.old ids.now))) }
    ensures grows { GrowsTo table.old table.new }
    ensures symbols { table.new.symbols ≡ table.old.symbols }
    ensures sorts { table.new.sorts ≡ table.old.sorts }
{
    let same = same_sides(table, ids[0], ids[1])?;
    opposite(table, same)
}

// Whether all of some formulas differ.
fn all_differ(table: &mut Table, ids: &[NodeId]) -> Result<NodeId, AllocError>
    requires ids { All (IsFormula table.old) ids.now }
    requires number { 2 ≤ length ids.now }
    ensures formula { IfOk result (IsFormula table.new) }
    ensures term { IfOk result (λ k. tree table.new k ≡ plain.aig_distinct (trees_at table.old ids.now)) }
    ensures grows { GrowsTo table.old table.new }
    ensures symbols { table.new.symbols ≡ table.old.symbols }
    ensures sorts { table.new.sorts ≡ table.old.sorts }
{
    if ids.len() > 2 {
        return truth(table, false);
    }
    differ(table, ids)
}

// Whether some of these formulas hold.
fn disjunction(alloc: Global, table: &mut Table, ids: &[NodeId]) -> Result<NodeId, AllocError>
    requires ids { All (IsFormula table.old) ids.now }
    requires number { 2 ≤ length ids.now }
    ensures formula { IfOk result (IsFormula table.new) }
    ensures term { IfOk result (λ k. tree table.new k ≡ opposite (all_of (map opposite (trees_at table.old ids.now)))) }
    ensures grows { GrowsTo table.old table.new }
    ensures symbols { table.new.symbols ≡ table.old.symbols }
    ensures sorts { table.new.sorts ≡ table.old.sorts }
{
    let others = opposites(alloc, table, ids)?;
    let none = conjunction(table, &others)?;
    let id = opposite(table, none)?;
    Ok(id)
}

// The form of a connective, of its operands' forms.
fn inverted(
    alloc: Global,
    table: &mut Table,
    connective: Connective,
    ids: &[NodeId],
) -> Result<NodeId, AllocError>
    requires ids { All (IsFormula table.old) ids.now }
    requires number { Takes connective (length ids.now) }
    ensures formula { IfOk result (IsFormula table.new) }
    ensures term { (t : Term) → IfOk result (λ k. tree table.new k ≡ plain.inverted (kind_seen connective) t (trees_at table.old ids.now)) }
    ensures grows { GrowsTo table.old table.new }
    ensures symbols { table.new.symbols ≡ table.old.symbols }
    ensures sorts { table.new.sorts ≡ table.old.sorts }
{
    match connective {
        Connective::Not => opposite(table, ids[0]),
        Connective::And => conjunction(table, ids),
        Connective::Or => disjunction(alloc, table, ids),
        Connective::Xor => differ(table, ids),
        Connective::Implies => implication(table, ids[0], ids[1]),
        Connective::Equal => same_sides(table, ids[0], ids[1]),
        Connective::Distinct => all_differ(table, ids),
        Connective::Ite => choice(table, ids[0], ids[1], ids[2]),
    }
}

// The forms of a connective's operands.
fn operand_forms(
    alloc: Global,
    table: &Table,
    id: NodeId,
    connective: Connective,
    kept: &Kept<NodeId>,
) -> Result<Vec<NodeId>, AllocError>
    requires formula { IsFormula table.now id }
    requires shape { IsOfKind (tree table.now id) (kind_seen connective) }
    requires related { AreRelated HasInverted table.now kept.now }
    requires kids { HaveResults table.now (tree table.now id) kept.now }
    ensures formulas { IfOk result (λ ks. All (IsFormula table.now) ks.items) }
    ensures terms { IfOk result (λ ks. trees_at table.now ks.items ≡ map plain.aig (operands (tree table.now id))) }
    ensures number { IfOk result (λ ks. Takes connective (length ks.items)) }
{
    let found = results_of(alloc, kept, table.kids(id))?;
    Ok(found)
}

// The form of a connective.
fn connected_form(
    alloc: Global,
    table: &mut Table,
    id: NodeId,
    connective: Connective,
    kept: &Kept<NodeId>,
) -> Result<NodeId, AllocError>
    requires formula { IsFormula table.old id }
    requires shape { IsOfKind (tree table.old id) (kind_seen connective) }
    requires related { AreRelated HasInverted table.old kept.now }
    requires kids { HaveResults table.old (tree table.old id) kept.now }
    ensures form { IfOk result (IsInverted table.new (tree table.old id)) }
    ensures grows { GrowsTo table.old table.new }
    ensures symbols { table.new.symbols ≡ table.old.symbols }
    ensures sorts { table.new.sorts ≡ table.old.sorts }
{
    let operands = operand_forms(alloc, table, id, connective, kept)?;
    let form = inverted(alloc, table, connective, &operands)?;
    Ok(form)
}

// The form of a quantified formula.
fn quantified_form(
    alloc: Global,
    table: &mut Table,
    id: NodeId,
    kept: &Kept<NodeId>,
) -> Result<NodeId, AllocError>
    requires formula { IsFormula table.old id }
    requires quantified { is_quantified (tree table.old id) ≡ true }
    requires related { AreRelated HasInverted table.old kept.now }
    requires kids { HaveResults table.old (tree table.old id) kept.now }
    ensures form { IfOk result (IsInverted table.new (tree table.old id)) }
    ensures grows { GrowsTo table.old table.new }
    ensures symbols { table.new.symbols ≡ table.old.symbols }
    ensures sorts { table.new.sorts ≡ table.old.sorts }
{
    let body = *kept.get(body_of(table, id)).unwrap();
    let universal = is_universal(table, id);
    let form = bind(alloc, table, id, universal, body)?;
    Ok(form)
}

// The form of a formula.
fn formula_form(
    alloc: Global,
    table: &mut Table,
    id: NodeId,
    kept: &Kept<NodeId>,
) -> Result<NodeId, AllocError>
    requires formula { IsFormula table.old id }
    requires related { AreRelated HasInverted table.old kept.now }
    requires kids { HaveResults table.old (tree table.old id) kept.now }
    ensures form { IfOk result (IsInverted table.new (tree table.old id)) }
    ensures grows { GrowsTo table.old table.new }
    ensures symbols { table.new.symbols ≡ table.old.symbols }
    ensures sorts { table.new.sorts ≡ table.old.sorts }
{
    match shape_of(table, id) {
        Shape::Truth(_) => Ok(id),
        Shape::Atom => Ok(id),
        Shape::Quantified => quantified_form(alloc, table, id, kept),
        Shape::Connected(connective) => connected_form(alloc, table, id, connective, kept),
    }
}

// The form of a node. One of another sort than Bool has none, and the node itself stands in its place.
fn form_of(
    alloc: Global,
    table: &mut Table,
    id: NodeId,
    kept: &Kept<NodeId>,
) -> Result<NodeId, AllocError>
    requires node { IsNode table.old id }
    requires related { AreRelated HasInverted table.old kept.now }
    requires kids { HaveResults table.old (tree table.old id) kept.now }
    ensures form { IfOk result (HasInverted table.new (tree table.old id)) }
    ensures grows { GrowsTo table.old table.new }
    ensures symbols { table.new.symbols ≡ table.old.symbols }
    ensures sorts { table.new.sorts ≡ table.old.sorts }
{
    if is_formula(table, id) {
        return formula_form(alloc, table, id, kept);
    }
    Ok(id)
}

#[derive(Drop)]
struct InvertStep {
    alloc: Global,
}

impl NodeStep for InvertStep {
    type Out = NodeId;

    ghost use Rattle.normal_forms.specs.InvertedNodes.{HasInverted, inverted_stays};

    ghost Meaning = { Unit {0} };

    ghost meaning = { λ _. tt };

    ghost related = { λ _ t u r. HasInverted t u r };

    fn step<L: Ledger>(
        &mut self,
        table: &mut Table,
        id: NodeId,
        kept: &Kept<NodeId>,
        steps: &mut Steps<L>,
    ) -> Result<NodeId, AllocError> {
        steps.tick();
        form_of(self.alloc, table, id, kept)
    }

    ghost stays = { λ _ old new t r grows has. inverted_stays old new t r grows has };
}

/// The and-inverter form of a formula: the formula says the same, and has no connectives but `and` and `not`, and no
/// `not` over a `not`. It takes one step for each distinct subterm, and one for each place of an operand.
pub fn aig<L: Ledger>(
    alloc: Global,
    table: &mut Table,
    id: NodeId,
    steps: &mut Steps<L>,
) -> Result<NodeId, AllocError>
    requires { IsFormula table.old id }
    ensures formula { IfOk result (IsFormula table.new) }
    ensures term { IfOk result (λ k. tree table.new k ≡ plain.aig (tree table.old id)) }
    ensures shape { IfOk result (λ k. IsTrue (is_aig (tree table.new k))) }
    ensures grows { GrowsTo table.old table.new }
    ensures symbols { table.new.symbols ≡ table.old.symbols }
    ensures sorts { table.new.sorts ≡ table.old.sorts }
    ensures most { steps.new ≤ steps.old + places (all_subterms (tree table.old id ∷ [])) }
{
    let mut kept = Kept::new(alloc);
    aig_kept(alloc, table, id, &mut kept, steps)
}

/// As `aig`, with what earlier calls over the table found, and keeps what it finds: no subterm is met twice.
pub fn aig_kept<L: Ledger>(
    alloc: Global,
    table: &mut Table,
    id: NodeId,
    kept: &mut Kept<NodeId>,
    steps: &mut Steps<L>,
) -> Result<NodeId, AllocError>
    requires formula { IsFormula table.old id }
    requires fits { Fits HasInverted table.old kept.old }
    ensures formula { IfOk result (IsFormula table.new) }
    ensures term { IfOk result (λ k. tree table.new k ≡ plain.aig (tree table.old id)) }
    ensures shape { IfOk result (λ k. IsTrue (is_aig (tree table.new k))) }
    ensures fits { Fits HasInverted table.new kept.new }
    ensures grows { GrowsTo table.old table.new }
    ensures symbols { table.new.symbols ≡ table.old.symbols }
    ensures sorts { table.new.sorts ≡ table.old.sorts }
    ensures most { steps.new ≤ steps.old + places (all_subterms (tree table.old id ∷ [])) }
{
    let mut step = InvertStep { alloc };
    walk(alloc, table, &mut step, kept, id, steps)?;
    let form = *kept.get(id).unwrap();
    Ok(form)
}

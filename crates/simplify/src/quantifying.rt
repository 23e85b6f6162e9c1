//! Quantifiers over the variables that occur.

ghost use Rattle.std.specs.Prelude.{◌≡◌, ◌++◌, ◌∷◌, [], true, List, IfOk, OnOk, if◌then◌else◌};
ghost use Rattle.smt_terms.specs.Free.{free, is_among};
ghost use Rattle.smt_terms.specs.Rank.{are_bindable};
ghost use Rattle.smt_terms.specs.Sorts.{Variable};
ghost use Rattle.smt_terms.specs.Term.{constant_of, quantified, variable as variable_term};
ghost use Rattle.term_table.specs.Formulas.{tree, variable_of, IsNode};
ghost use Rattle.term_walk.specs.Walking.{GrowsTo};
ghost use Rattle.normal_forms.specs.Nodes.{IsFormula};
ghost use Rattle.normal_forms.specs.Shape.{is_universally_quantified, quantifier_seen, variables_of};
ghost use Rattle.term_walk.specs.Binders.{is_quantified};
ghost use Rattle.quantifier_forms.specs.Variables.{AreVariables};
ghost use Rattle.simplify.specs.Logic.{quantification};
ghost use Rattle.simplify.specs.Occurring.{occurring};

use crate::occurrence::occurs;
use normal_forms::binding::is_universal;
use quantifier_forms::quantifying::{quantify, variables_below};
use smt_terms::NodeId;
use std::alloc::{AllocError, Global};
use term_table::Table;

// Adds a variable where it occurs free in a formula.
fn keep_occurring(
    alloc: Global,
    table: &Table,
    kept: &mut Vec<NodeId>,
    variable: NodeId,
    body: NodeId,
) -> Result<(), AllocError>
    requires variable { IsNode table.now variable }
    requires constant { tree table.now variable ≡ variable_term (variable_of (tree table.now variable)) }
    requires body { IsNode table.now body }
    ensures { OnOk result (kept.new.items ≡ kept.old.items ++ (if is_among (free (tree table.now body)) (constant_of (variable_of (tree table.now variable))) then variable ∷ [] else [])) }
{
    if occurs(alloc, table, variable, body)? {
        kept.push(variable)?;
        return Ok(());
    }
    Ok(())
}

// Those of these variables that occur free in a formula.
fn occurring(
    alloc: Global,
    table: &Table,
    variables: &[NodeId],
    body: NodeId,
) -> Result<Vec<NodeId>, AllocError>
    requires variables { (xs : List Variable) × AreVariables table.now variables.now xs }
    requires body { IsNode table.now body }
    ensures { (xs : List Variable) → AreVariables table.now variables.now xs → IfOk result (λ ks. AreVariables table.now ks.items (occurring (tree table.now body) xs)) }
{
    let mut kept = Vec::new(alloc);
    for variable in variables {
        keep_occurring(alloc, table, &mut kept, *variable, body)?;
    }
    Ok(kept)
}

/// A quantifier over those of its variables that occur free in the simplified body; the body where there is none.
pub(crate) fn quantified_form(
    alloc: Global,
    table: &mut Table,
    id: NodeId,
    body: NodeId,
) -> Result<NodeId, AllocError>
    requires formula { IsFormula table.old id }
    requires quantified { is_quantified (tree table.old id) ≡ true }
    requires body { IsFormula table.old body }
    ensures node { IfOk result (IsNode table.new) }
    ensures term { IfOk result (λ k. tree table.new k ≡ quantification (quantifier_seen (is_universally_quantified (tree table.old id))) (variables_of (tree table.old id)) (tree table.old body)) }
    ensures grows { GrowsTo table.old table.new }
    ensures symbols { table.new.symbols ≡ table.old.symbols }
    ensures sorts { table.new.sorts ≡ table.old.sorts }
{
    let universal = is_universal(table, id);
    let variables = variables_below(alloc, table, id)?;
    let kept = occurring(alloc, table, &variables, body)?;
    if kept.is_empty() {
        return Ok(body);
    }
    let id = quantify(alloc, table, universal, &kept, body)?;
    Ok(id)
}

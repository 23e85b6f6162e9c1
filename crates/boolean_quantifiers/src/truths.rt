//! Truth values in the places of variables.

ghost use Rattle.std.specs.Prelude.{◌≡◌, IfOk, OnOk, All};
ghost use Rattle.smt_terms.specs.Sorts.{bool};
ghost use Rattle.term_table.specs.Formulas.{tree, variable_of, IsNode};
ghost use Rattle.term_walk.specs.Walking.{GrowsTo};
ghost use Rattle.normal_forms.specs.Nodes.{IsFormula};
ghost use Rattle.normal_forms.specs.Quantifiers as plain;
ghost use Rattle.boolean_quantifiers.specs.Working.{IsTruthVariable, IsWork};

use crate::work::{Case, Work};
use indexmap::IndexSet;
use normal_forms::making::truth;
use normal_forms::shapes::is_formula;
use smt_terms::NodeId;
use std::alloc::{AllocError, Global};
use term_table::Table;
use term_walk::is_binder;

// The Bool variables that one of these nodes quantifies.
pub(crate) fn quantified_truths(
    alloc: Global,
    table: &Table,
    ids: &[NodeId],
) -> Result<IndexSet<NodeId>, AllocError>
    requires { All (IsNode table.now) ids.now }
    ensures { IfOk result (λ cs. All (IsNode table.now) cs.keys) }
{
    let mut truths = IndexSet::new(alloc);
    for id in ids {
        add_truths(table, &mut truths, *id)?;
    }
    Ok(truths)
}

fn add_truths(table: &Table, truths: &mut IndexSet<NodeId>, id: NodeId) -> Result<(), AllocError>
    requires node { IsNode table.now id }
    requires truths { All (IsNode table.now) truths.old.keys }
    ensures { OnOk result (All (IsNode table.now) truths.new.keys) }
{
    if !is_binder(table, id) {
        return Ok(());
    }
    for kid in table.kids(id) {
        add_truth(table, truths, *kid)?;
    }
    Ok(())
}

fn add_truth(table: &Table, truths: &mut IndexSet<NodeId>, id: NodeId) -> Result<(), AllocError>
    requires node { IsNode table.now id }
    requires truths { All (IsNode table.now) truths.old.keys }
    ensures { OnOk result (All (IsNode table.now) truths.new.keys) }
{
    if is_formula(table, id) {
        truths.insert(id)?;
    }
    Ok(())
}

// The formula with a truth value for a variable.
pub(crate) fn at_truth(
    alloc: Global,
    table: &mut Table,
    work: &mut Work,
    value: bool,
    variable: NodeId,
    body: NodeId,
) -> Result<NodeId, AllocError>
    requires variable { IsTruthVariable table.old variable }
    requires body { IsFormula table.old body }
    requires work { IsWork table.old work.old }
    ensures formula { IfOk result (IsFormula table.new) }
    ensures term { IfOk result (λ k. tree table.new k ≡ plain.at_truth value (variable_of (tree table.old variable)) (tree table.old body)) }
    ensures work { OnOk result (IsWork table.new work.new) }
    ensures grows { GrowsTo table.old table.new }
    ensures symbols { table.new.symbols ≡ table.old.symbols }
{
    let image = truth(table, value)?;
    let result = work.put(alloc, table, Case { variable, image }, body)?;
    Ok(result)
}

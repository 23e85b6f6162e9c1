//! The values of the nodes below a node, and of quantified formulas, whose bodies are valued at each choice of the variables. No
//! choice is left out, since a number outside the range counts whatever the others give.

ghost use Rattle.std.specs.Prelude.{◌≡◌, ◌<◌, ◌≤◌, ◌^◌, ◌∷◌, [], true, Some, All, IsSome, IfOk, IfErr, OnOk, length};
ghost use Rattle.smt_terms.specs.Models.{IsModel};
ghost use Rattle.smt_terms.specs.Term.{universal, existential, terms};
ghost use Rattle.smt_terms.specs.Val.{bits_bound, sort_bits, runs, val, fits};
ghost use Rattle.smt_terms.specs.Values.{truth, joined, is_true};
ghost use Rattle.smt_values.specs.Meaning.{meaning};
ghost use Rattle.term_table.specs.Formulas.{tree, trees_at, variable_of, IsNode};
ghost use Rattle.term_walk.specs.Binders.{is_quantified};
ghost use Rattle.models.specs.ModelView.{model_at};
ghost use Rattle.evaluation.specs.Bindings.{env_of, AreBindings};
ghost use Rattle.evaluation.specs.Choices.{quantifier_of, variables_at, bits_below, first_bits, runs_with, IsVariable, IsBody};
ghost use Rattle.evaluation.specs.Evaluated.{most_bits, breaks, any_breaks, IsValueOf};
ghost use Rattle.evaluation.specs.KeptValues.{known_at, AreFound, AreKnown, StayKnown};
ghost use Rattle.evaluation.specs.Orders.{AreBehind, Breaks};

use crate::bindings::{Binding, bits_of, chosen, enter, variable_value};
use crate::faults::ValueFault;
use crate::operators::applied_value;
use crate::orders::order_below;
use crate::results::{give_value, value_of_node, values_of_nodes};
use indexmap::IndexMap;
use models::Model;
use normal_forms::binding::is_universal;
use smt_terms::NodeId;
use smt_values::{Scalar, Value};
use std::alloc::Global;
use term_table::{Table, know_table};
use term_walk::{Kept, is_binder};

// A quantifier over a body, with the nodes below this in order.
#[derive(Drop)]
struct Quantified {
    universal: bool,
    body: NodeId,
    order: Vec<NodeId>,
}

// Whether a value is true.
fn is_true(value: &Value) -> bool
    ensures { result ≡ is_true (meaning value.now) }
{
    match value {
        Value::Scalar(Scalar::Truth(truth)) => *truth,
        _ => false,
    }
}

// One more choice.
fn join(universal: bool, before: bool, truth: bool) -> bool
    ensures { result ≡ joined (quantifier_of universal) before truth }
{
    if universal {
        before && truth
    } else {
        before || truth
    }
}

// Gives each of these nodes a value, each behind its operands.
#[cycle(valuing)]
pub(crate) fn value_all(
    alloc: Global,
    table: &Table,
    model: &Model,
    bindings: &mut Vec<Binding>,
    order: &[NodeId],
    kept: &Kept<Value>,
    found: &mut IndexMap<NodeId, Value>,
) -> Result<(), ValueFault>
    requires valid { IsModel (model_at table.now model.now) }
    requires bindings { AreBindings table.now bindings.old.items }
    requires order { AreBehind table.now kept.now order.now }
    requires found { AreFound table.now (model_at table.now model.now) (env_of table.now bindings.old.items) kept.now found.old.entries }
    ensures found { OnOk result (AreFound table.now (model_at table.now model.now) (env_of table.now bindings.old.items) kept.now found.new.entries) }
    ensures all { OnOk result (All (λ k. IsSome (known_at kept.now found.new.entries k)) order.now) }
    ensures stay { OnOk result (StayKnown kept.now found.old.entries found.new.entries) }
    ensures bindings { OnOk result (bindings.new.items ≡ bindings.old.items) }
    ensures beyond { IfErr result (Breaks table.now (λ u. any_breaks (model_at table.now model.now) u (terms (trees_at table.now order.now)) (env_of table.now bindings.old.items))) }
{
    know_table(table);
    for id in order {
        let value = value_of_one(alloc, table, model, bindings, *id, kept, found)?;
        give_value(found, *id, value)?;
    }
    Ok(())
}

// The value of a node, whose operands have values where it is no quantifier.
#[cycle(valuing)]
fn value_of_one(
    alloc: Global,
    table: &Table,
    model: &Model,
    bindings: &mut Vec<Binding>,
    id: NodeId,
    kept: &Kept<Value>,
    found: &IndexMap<NodeId, Value>,
) -> Result<Value, ValueFault>
    requires node { IsNode table.now id }
    requires narrow { bits_bound (tree table.now id) ≤ most_bits }
    requires valid { IsModel (model_at table.now model.now) }
    requires bindings { AreBindings table.now bindings.old.items }
    requires found { AreFound table.now (model_at table.now model.now) (env_of table.now bindings.old.items) kept.now found.now.entries }
    requires operands { AreKnown table.now kept.now found.now.entries (tree table.now id) }
    ensures value { IfOk result (IsValueOf (model_at table.now model.now) (env_of table.now bindings.old.items) (tree table.now id)) }
    ensures bindings { OnOk result (bindings.new.items ≡ bindings.old.items) }
    ensures beyond { IfErr result (Breaks table.now (λ u. breaks (model_at table.now model.now) u (tree table.now id) (env_of table.now bindings.old.items))) }
{
    know_table(table);
    if is_binder(table, id) {
        let truth = truth_of_binder(alloc, table, model, bindings, id)?;
        return Ok(Value::Scalar(Scalar::Truth(truth)));
    }
    if let Some(scalar) = variable_value(table, bindings, id) {
        return Ok(Value::Scalar(scalar));
    }
    let args = values_of_nodes(alloc, kept, found, table.kids(id))?;
    match applied_value(alloc, table, model, id, args)? {
        Some(value) => Ok(value),
        None => Err(ValueFault::Beyond128 { node: id }),
    }
}

// Whether a quantified formula holds.
#[cycle(valuing)]
#[tactic(auto, unfolding(term_table::specs::Formulas::kind))]
fn truth_of_binder(
    alloc: Global,
    table: &Table,
    model: &Model,
    bindings: &mut Vec<Binding>,
    id: NodeId,
) -> Result<bool, ValueFault>
    requires node { IsNode table.now id }
    requires quantified { is_quantified (tree table.now id) ≡ true }
    requires narrow { bits_bound (tree table.now id) ≤ most_bits }
    requires valid { IsModel (model_at table.now model.now) }
    requires bindings { AreBindings table.now bindings.old.items }
    ensures truth { IfOk result (λ b. truth b ≡ val (model_at table.now model.now) (tree table.now id) (env_of table.now bindings.old.items)) }
    ensures within { OnOk result (fits (model_at table.now model.now) (tree table.now id) (env_of table.now bindings.old.items) ≡ true) }
    ensures bindings { OnOk result (bindings.new.items ≡ bindings.old.items) }
    ensures beyond { IfErr result (Breaks table.now (λ u. breaks (model_at table.now model.now) u (tree table.now id) (env_of table.now bindings.old.items))) }
{
    know_table(table);
    let kids = table.kids(id);
    let last = kids.len() - 1;
    let body = kids[last];
    let quantified = Quantified {
        universal: is_universal(table, id),
        body,
        order: order_below(alloc, table, &Kept::new(alloc), body)?,
    };
    let truth = truth_of_choices(alloc, table, model, bindings, &quantified, &kids[..last])?;
    Ok(truth)
}

// Whether the body holds at all choices of these variables, or at some of them.
#[cycle(valuing)]
fn truth_of_choices(
    alloc: Global,
    table: &Table,
    model: &Model,
    bindings: &mut Vec<Binding>,
    quantified: &Quantified,
    variables: &[NodeId],
) -> Result<bool, ValueFault>
    requires variables { All (IsVariable table.now) variables.now }
    requires body { IsBody table.now quantified.now }
    requires narrow { bits_below table.now variables.now quantified.now ≤ most_bits }
    requires valid { IsModel (model_at table.now model.now) }
    requires bindings { AreBindings table.now bindings.old.items }
    ensures truth { IfOk result (λ b. b ≡ runs (quantifier_of quantified.now.universal) (variables_at table.now variables.now) (model_at table.now model.now).sizes (λ e. is_true (val (model_at table.now model.now) (tree table.now quantified.now.body) e)) (env_of table.now bindings.old.items)) }
    ensures within { OnOk result (runs universal (variables_at table.now variables.now) (model_at table.now model.now).sizes (λ e. fits (model_at table.now model.now) (tree table.now quantified.now.body) e) (env_of table.now bindings.old.items) ≡ true) }
    ensures bindings { OnOk result (bindings.new.items ≡ bindings.old.items) }
    ensures beyond { IfErr result (Breaks table.now (λ u. runs existential (variables_at table.now variables.now) (model_at table.now model.now).sizes (λ e. breaks (model_at table.now model.now) u (tree table.now quantified.now.body) e) (env_of table.now bindings.old.items))) }
{
    if variables.is_empty() {
        let truth = truth_of_body(alloc, table, model, bindings, quantified)?;
        return Ok(truth);
    }
    let mut joined = quantified.universal;
    for number in 0..1u32 << bits_of(table, variables[0]) {
        let truth = truth_of_choice(alloc, table, model, bindings, quantified, variables, number)?;
        joined = join(quantified.universal, joined, truth);
    }
    Ok(joined)
}

// The same with this one choice of the first variable.
#[cycle(valuing)]
fn truth_of_choice(
    alloc: Global,
    table: &Table,
    model: &Model,
    bindings: &mut Vec<Binding>,
    quantified: &Quantified,
    variables: &[NodeId],
    number: u32,
) -> Result<bool, ValueFault>
    requires some { 0 < length variables.now }
    requires variables { All (IsVariable table.now) variables.now }
    requires body { IsBody table.now quantified.now }
    requires narrow { bits_below table.now variables.now quantified.now ≤ most_bits }
    requires number { number < 2 ^ first_bits table.now variables.now }
    requires valid { IsModel (model_at table.now model.now) }
    requires bindings { AreBindings table.now bindings.old.items }
    ensures truth { IfOk result (λ b. b ≡ runs_with (quantifier_of quantified.now.universal) (variables_at table.now variables.now) (model_at table.now model.now).sizes (λ e. is_true (val (model_at table.now model.now) (tree table.now quantified.now.body) e)) (env_of table.now bindings.old.items) number) }
    ensures within { OnOk result (runs_with universal (variables_at table.now variables.now) (model_at table.now model.now).sizes (λ e. fits (model_at table.now model.now) (tree table.now quantified.now.body) e) (env_of table.now bindings.old.items) number ≡ true) }
    ensures bindings { OnOk result (bindings.new.items ≡ bindings.old.items) }
    ensures beyond { IfErr result (Breaks table.now (λ u. runs_with existential (variables_at table.now variables.now) (model_at table.now model.now).sizes (λ e. breaks (model_at table.now model.now) u (tree table.now quantified.now.body) e) (env_of table.now bindings.old.items) number)) }
{
    know_table(table);
    enter(bindings, chosen(table, variables[0], number))?;
    let truth = truth_of_choices(alloc, table, model, bindings, quantified, &variables[1..])?;
    bindings.pop();
    Ok(truth)
}

// Whether the body of a quantifier holds.
#[cycle(valuing)]
fn truth_of_body(
    alloc: Global,
    table: &Table,
    model: &Model,
    bindings: &mut Vec<Binding>,
    quantified: &Quantified,
) -> Result<bool, ValueFault>
    requires body { IsBody table.now quantified.now }
    requires valid { IsModel (model_at table.now model.now) }
    requires bindings { AreBindings table.now bindings.old.items }
    ensures truth { IfOk result (λ b. b ≡ is_true (val (model_at table.now model.now) (tree table.now quantified.now.body) (env_of table.now bindings.old.items))) }
    ensures within { OnOk result (fits (model_at table.now model.now) (tree table.now quantified.now.body) (env_of table.now bindings.old.items) ≡ true) }
    ensures bindings { OnOk result (bindings.new.items ≡ bindings.old.items) }
    ensures beyond { IfErr result (Breaks table.now (λ u. breaks (model_at table.now model.now) u (tree table.now quantified.now.body) (env_of table.now bindings.old.items))) }
{
    let kept = Kept::new(alloc);
    let mut found = IndexMap::new(alloc);
    value_all(
        alloc,
        table,
        model,
        bindings,
        &quantified.order,
        &kept,
        &mut found,
    )?;
    let value = value_of_node(alloc, &kept, &found, quantified.body)?;
    Ok(is_true(&value))
}

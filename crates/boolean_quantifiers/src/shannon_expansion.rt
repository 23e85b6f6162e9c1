//! Shannon's expansion: `shannon t`, the formula without quantified truth values, from below and everywhere. Over the
//! rewritten body b, the Bool variables of a quantifier are taken from the last to the first: `exists x` b is
//! `(or b[true] b[false])`, and `forall x` b is `(and b[true] b[false])`. Bit-vector variables stay.

ghost use Rattle.std.specs.Prelude.{◌≡◌, List, true, false, IsTrue, IfOk, OnOk, is_some};
ghost use Rattle.smt_terms.specs.Shapes.{no_bool_quantifier};
ghost use Rattle.smt_terms.specs.Sorts.{Variable};
ghost use Rattle.term_table.specs.Formulas.{tree, variable_of, IsNode};
ghost use Rattle.term_walk.specs.Walking.{GrowsTo};
ghost use Rattle.normal_forms.specs.Nodes.{IsFormula};
ghost use Rattle.normal_forms.specs.Quantifiers as plain;
ghost use Rattle.normal_forms.specs.Shape.{quantifier_seen};
ghost use Rattle.term_walk.specs.Binders.{is_quantified};
ghost use Rattle.quantifier_forms.specs.Memos.{result_in};
ghost use Rattle.quantifier_forms.specs.Variables.{AreVariables};
ghost use Rattle.boolean_quantifiers.specs.Expanding.{IsExpanded, AreExpanded, AreOperandsExpanded};
ghost use Rattle.boolean_quantifiers.specs.Working.{IsTruthVariable, IsVariable, IsWork};

use crate::truths::{at_truth, quantified_truths};
use crate::work::Work;
use normal_forms::binding::is_universal;
use normal_forms::making::{both, either};
use normal_forms::shapes::is_formula;
use quantifier_forms::listing::list_all;
use quantifier_forms::memo::Memo;
use quantifier_forms::quantifying::{quantify, variables_below, without_truths};
use quantifier_forms::rebuilding::{body_below, rebuilt};
use smt_terms::NodeId;
use std::alloc::{AllocError, Global};
use term_table::{Table, know_table};
use term_walk::is_binder;

// What a quantifier over one Bool variable says of the formula with `true` and with `false` for it.
fn expanded(
    alloc: Global,
    table: &mut Table,
    work: &mut Work,
    universal: bool,
    variable: NodeId,
    body: NodeId,
) -> Result<NodeId, AllocError>
    requires variable { IsTruthVariable table.old variable }
    requires body { IsFormula table.old body }
    requires work { IsWork table.old work.old }
    ensures formula { IfOk result (IsFormula table.new) }
    ensures term { IfOk result (λ k. tree table.new k ≡ plain.expanded (quantifier_seen universal) (variable_of (tree table.old variable)) (tree table.old body)) }
    ensures work { OnOk result (IsWork table.new work.new) }
    ensures grows { GrowsTo table.old table.new }
    ensures symbols { table.new.symbols ≡ table.old.symbols }
{
    let yes = at_truth(alloc, table, work, true, variable, body)?;
    let no = at_truth(alloc, table, work, false, variable, body)?;
    if universal {
        let form = both(table, yes, no)?;
        return Ok(form);
    }
    let form = either(table, yes, no)?;
    Ok(form)
}

fn expand_bool(
    alloc: Global,
    table: &mut Table,
    work: &mut Work,
    universal: bool,
    variable: NodeId,
    body: NodeId,
) -> Result<NodeId, AllocError>
    requires variable { IsVariable table.old variable }
    requires body { IsFormula table.old body }
    requires work { IsWork table.old work.old }
    ensures formula { IfOk result (IsFormula table.new) }
    ensures term { (x : Variable) → variable_of (tree table.old variable) ≡ x → IfOk result (λ k. tree table.new k ≡ plain.expand_bool x.sort (quantifier_seen universal) x (tree table.old body)) }
    ensures work { OnOk result (IsWork table.new work.new) }
    ensures grows { GrowsTo table.old table.new }
    ensures symbols { table.new.symbols ≡ table.old.symbols }
{
    if is_formula(table, variable) {
        let form = expanded(alloc, table, work, universal, variable, body)?;
        return Ok(form);
    }
    Ok(body)
}

// Takes the Bool variables, the last first.
fn expand_each(
    alloc: Global,
    table: &mut Table,
    work: &mut Work,
    universal: bool,
    variables: &[NodeId],
    body: NodeId,
) -> Result<NodeId, AllocError>
    requires variables { (xs : List Variable) × AreVariables table.old variables.now xs }
    requires body { IsFormula table.old body }
    requires work { IsWork table.old work.old }
    ensures formula { IfOk result (IsFormula table.new) }
    ensures term { (xs : List Variable) → AreVariables table.old variables.now xs → IfOk result (λ k. tree table.new k ≡ plain.expand_each (quantifier_seen universal) xs (tree table.old body)) }
    ensures work { OnOk result (IsWork table.new work.new) }
    ensures grows { GrowsTo table.old table.new }
    ensures symbols { table.new.symbols ≡ table.old.symbols }
{
    let mut form = body;
    for place in (0..variables.len()).rev() {
        form = expand_bool(alloc, table, work, universal, variables[place], form)?;
    }
    Ok(form)
}

// A quantified node, whose body has a result.
fn expand_quantified(
    alloc: Global,
    table: &mut Table,
    work: &mut Work,
    results: &Memo,
    id: NodeId,
) -> Result<NodeId, AllocError>
    requires node { IsNode table.old id }
    requires quantified { is_quantified (tree table.old id) ≡ true }
    requires ready { AreOperandsExpanded table.old results.now id }
    requires work { IsWork table.old work.old }
    ensures expanded { IfOk result (IsExpanded table.new id) }
    ensures work { OnOk result (IsWork table.new work.new) }
    ensures grows { GrowsTo table.old table.new }
    ensures symbols { table.new.symbols ≡ table.old.symbols }
{
    know_table(table);
    let variables = variables_below(alloc, table, id)?;
    let body = results.known(0, body_below(table, id));
    let universal = is_universal(table, id);
    let form = expand_each(alloc, table, work, universal, &variables, body)?;
    let left = without_truths(alloc, table, &variables)?;
    if left.is_empty() {
        return Ok(form);
    }
    let result = quantify(alloc, table, universal, &left, form)?;
    Ok(result)
}

// A node that isn't quantified, whose operands have results.
fn expand_applied(
    alloc: Global,
    table: &mut Table,
    results: &Memo,
    id: NodeId,
) -> Result<NodeId, AllocError>
    requires node { IsNode table.old id }
    requires applied { is_quantified (tree table.old id) ≡ false }
    requires ready { AreOperandsExpanded table.old results.now id }
    ensures expanded { IfOk result (IsExpanded table.new id) }
    ensures grows { GrowsTo table.old table.new }
    ensures symbols { table.new.symbols ≡ table.old.symbols }
{
    let kids = results.known_all(alloc, 0, table.kids(id))?;
    let result = rebuilt(table, id, &kids)?;
    Ok(result)
}

fn expand(
    alloc: Global,
    table: &mut Table,
    work: &mut Work,
    results: &Memo,
    id: NodeId,
) -> Result<NodeId, AllocError>
    requires node { IsNode table.old id }
    requires ready { AreOperandsExpanded table.old results.now id }
    requires work { IsWork table.old work.old }
    ensures expanded { IfOk result (IsExpanded table.new id) }
    ensures work { OnOk result (IsWork table.new work.new) }
    ensures grows { GrowsTo table.old table.new }
    ensures symbols { table.new.symbols ≡ table.old.symbols }
{
    if is_binder(table, id) {
        let result = expand_quantified(alloc, table, work, results, id)?;
        return Ok(result);
    }
    let result = expand_applied(alloc, table, results, id)?;
    Ok(result)
}

// Keeps the result of a node whose operands have results.
fn settle(
    alloc: Global,
    table: &mut Table,
    work: &mut Work,
    results: &mut Memo,
    id: NodeId,
) -> Result<(), AllocError>
    requires node { IsNode table.old id }
    requires ready { AreOperandsExpanded table.old results.old id }
    requires expanded { AreExpanded table.old results.old }
    requires work { IsWork table.old work.old }
    ensures expanded { OnOk result (AreExpanded table.new results.new) }
    ensures done { OnOk result (is_some (result_in results.new 0 id) ≡ true) }
    ensures stay { OnOk result ((k : NodeId) → is_some (result_in results.old 0 k) ≡ true → is_some (result_in results.new 0 k) ≡ true) }
    ensures work { OnOk result (IsWork table.new work.new) }
    ensures grows { GrowsTo table.old table.new }
    ensures symbols { table.new.symbols ≡ table.old.symbols }
{
    let result = expand(alloc, table, work, results, id)?;
    results.set(0, id, result)?;
    Ok(())
}

/// The formula after Shannon's expansion, which says the same: `normal_forms::laws::shannon_keeps_values`. It may be
/// exponentially larger than the formula. Each distinct subterm is expanded once, and a truth value takes the place of a
/// variable once in each distinct subterm that has it.
pub fn shannon(alloc: Global, table: &mut Table, id: NodeId) -> Result<NodeId, AllocError>
    requires { IsFormula table.old id }
    ensures formula { IfOk result (IsFormula table.new) }
    ensures term { IfOk result (λ k. tree table.new k ≡ plain.shannon (tree table.old id)) }
    ensures shape { IfOk result (λ k. IsTrue (no_bool_quantifier (tree table.new k))) }
    ensures grows { GrowsTo table.old table.new }
    ensures symbols { table.new.symbols ≡ table.old.symbols }
{
    let order = list_all(alloc, table, id)?;
    let truths = quantified_truths(alloc, table, &order)?;
    let mut work = Work::new(alloc, truths);
    let mut results = Memo::new(alloc);
    for node in &order {
        settle(alloc, table, &mut work, &mut results, *node)?;
    }
    Ok(results.known(0, id))
}

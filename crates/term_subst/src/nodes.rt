//! What the nodes are that a substitution meets, and those that it makes.

ghost use Rattle.std.specs.Prelude.{◌≡◌, IfOk, Some, false, true};
ghost use Rattle.smt_terms.specs.Sorts.{bool};
ghost use Rattle.smt_terms.specs.Rank.{sort_of, sorts_of, are_bindable};
ghost use Rattle.smt_terms.specs.Term.{symbol, terms, over, constant_of, variable};
ghost use Rattle.term_table.specs.Formulas.{tree, trees_at, symbol_at, operands, variable_of, IsTable, IsNode, IsSymbol, AreNodes, GrowsByOne};
ghost use Rattle.term_walk.specs.Binders.{is_quantified};
ghost use Rattle.term_subst.specs.Maps.{map_at};
ghost use Rattle.term_subst.specs.State.{AreVariables, variables_at};
ghost use Rattle.term_subst.specs.Steps.{operands_of, bound_in, body_of, built, requantified};
ghost use Rattle.term_subst.specs.Substituting.{IsMap};

use crate::SymMap;
use smt_terms::{NodeId, SymId};
use smt_values::Op;
use std::alloc::{AllocError, Global};
use term_table::Table;

// The symbol of a variable's node.
#[tactic(auto, unfolding(term_table::specs::Formulas::kind))]
pub(crate) fn symbol_of(table: &Table, node: NodeId) -> SymId
    requires node { IsNode table.now node }
    requires variable { tree table.now node ≡ variable (variable_of (tree table.now node)) }
    ensures symbol { symbol_at table.now result ≡ constant_of (variable_of (tree table.now node)) }
    ensures within { IsSymbol table.now result }
{
    match table.op(node) {
        Op::Sym(f) => f,
        _ => unreachable!(),
    }
}

// The variables of a quantified node, and its body.
pub(crate) fn split(table: &Table, node: NodeId) -> (&[NodeId], NodeId)
    requires node { IsNode table.now node }
    requires binder { is_quantified (tree table.now node) ≡ true }
    ensures variables { AreVariables table.now result.0.now }
    ensures bound { variables_at table.now result.0.now ≡ bound_in (tree table.now node) }
    ensures node { IsNode table.now result.1 }
    ensures body { tree table.now result.1 ≡ body_of (tree table.now node) }
    ensures table { IsTable table.now }
{
    let kids = table.kids(node);
    let last = kids.len() - 1;
    (&kids[..last], kids[last])
}

// The node of a head that isn't a quantifier over new operands of the same sorts, under a map.
#[tactic(auto, unfolding(term_table::specs::Formulas::kind))]
pub(crate) fn rebuild(
    table: &mut Table,
    map: &SymMap,
    node: NodeId,
    kids: &[NodeId],
) -> Result<NodeId, AllocError>
    requires node { IsNode table.old node }
    requires applied { is_quantified (tree table.old node) ≡ false }
    requires map { IsMap table.old map.now }
    requires kids { AreNodes table.old kids.now }
    requires sorts { sorts_of (terms (trees_at table.old kids.now)) ≡ sorts_of (operands_of (tree table.old node)) }
    ensures node { IfOk result (λ k. IsNode table.new k) }
    ensures term { IfOk result (λ k. tree table.new k ≡ built (map_at table.old map.now) (tree table.old node) (terms (trees_at table.old kids.now))) }
    ensures grows { GrowsByOne table.old.trees table.new.trees }
    ensures symbols { table.new.symbols ≡ table.old.symbols }
    ensures sorts { table.new.sorts ≡ table.old.sorts }
{
    match table.op(node) {
        Op::Sym(f) => {
            let result = apply_symbol(table, map, node, f, kids)?;
            Ok(result)
        }
        Op::Neg => {
            let result = table.minus(kids[0])?;
            Ok(result)
        }
        op => {
            let result = table.intern(op, kids)?;
            Ok(result)
        }
    }
}

// A symbol over new operands. Without any it gives way to its image.
#[tactic(auto, unfolding(term_table::specs::Formulas::kind))]
fn apply_symbol(
    table: &mut Table,
    map: &SymMap,
    node: NodeId,
    f: SymId,
    kids: &[NodeId],
) -> Result<NodeId, AllocError>
    requires table { IsTable table.old }
    requires node { IsNode table.old node }
    requires within { IsSymbol table.old f }
    requires term { tree table.old node ≡ over (symbol (symbol_at table.old f)) (operands (tree table.old node)) }
    requires map { IsMap table.old map.now }
    requires kids { AreNodes table.old kids.now }
    requires sorts { sorts_of (terms (trees_at table.old kids.now)) ≡ sorts_of (operands_of (tree table.old node)) }
    ensures node { IfOk result (λ k. IsNode table.new k) }
    ensures term { IfOk result (λ k. tree table.new k ≡ built (map_at table.old map.now) (tree table.old node) (terms (trees_at table.old kids.now))) }
    ensures grows { GrowsByOne table.old.trees table.new.trees }
    ensures symbols { table.new.symbols ≡ table.old.symbols }
    ensures sorts { table.new.sorts ≡ table.old.sorts }
{
    if !kids.is_empty() {
        let result = table.intern(Op::Sym(f), kids)?;
        return Ok(result);
    }
    match map.get(f) {
        Some(image) => Ok(image),
        None => Ok(node),
    }
}

// The quantifier of a node over other variables and another body.
#[tactic(auto, unfolding(term_table::specs::Formulas::kind))]
pub(crate) fn requantify(
    alloc: Global,
    table: &mut Table,
    node: NodeId,
    variables: &[NodeId],
    body: NodeId,
) -> Result<NodeId, AllocError>
    requires node { IsNode table.old node }
    requires binder { is_quantified (tree table.old node) ≡ true }
    requires variables { AreVariables table.old variables.now }
    requires bindable { are_bindable (variables_at table.old variables.now) ≡ true }
    requires body { IsNode table.old body }
    requires truth { sort_of (tree table.old body) ≡ Some bool }
    ensures node { IfOk result (λ k. IsNode table.new k) }
    ensures term { IfOk result (λ k. tree table.new k ≡ requantified (tree table.old node) (variables_at table.old variables.now) (tree table.old body)) }
    ensures grows { GrowsByOne table.old.trees table.new.trees }
    ensures symbols { table.new.symbols ≡ table.old.symbols }
    ensures sorts { table.new.sorts ≡ table.old.sorts }
{
    let op = table.op(node);
    let mut kids = Vec::from_slice(alloc, variables)?;
    kids.push(body)?;
    let result = table.intern(op, &kids)?;
    Ok(result)
}

//! Quantifiers over some variables.

ghost use Rattle.std.specs.Prelude.{◌≡◌, true, List, IfOk};
ghost use Rattle.smt_terms.specs.Sorts.{Variable};
ghost use Rattle.smt_terms.specs.Rank.{are_bindable};
ghost use Rattle.smt_terms.specs.Term.{constant_of, quantified, variable};
ghost use Rattle.term_table.specs.Formulas.{tree, symbol_at, variable_of, IsNode, IsSymbol, AreNodes};
ghost use Rattle.term_walk.specs.Walking.{GrowsTo};
ghost use Rattle.normal_forms.specs.Nodes.{IsFormula};
ghost use Rattle.normal_forms.specs.Shape.{quantifier_seen, variables_of};
ghost use Rattle.term_walk.specs.Binders.{is_quantified};
ghost use Rattle.normal_forms.specs.Quantifiers.{not_bool};
ghost use Rattle.quantifier_forms.specs.Variables.{AreVariables};

use normal_forms::shapes::is_formula;
use smt_terms::{NodeId, SymId};
use smt_values::Op;
use std::alloc::{AllocError, Global};
use term_table::Table;

/// The symbol of a variable's node.
#[tactic(auto, unfolding(term_table::specs::Formulas::kind))]
pub fn symbol_of(table: &Table, id: NodeId) -> SymId
    requires node { IsNode table.now id }
    requires variable { tree table.now id ≡ variable (variable_of (tree table.now id)) }
    ensures symbol { symbol_at table.now result ≡ constant_of (variable_of (tree table.now id)) }
    ensures within { IsSymbol table.now result }
{
    match table.op(id) {
        Op::Sym(symbol) => symbol,
        _ => unreachable!(),
    }
}

/// The variables of a quantified node.
pub fn variables_below(alloc: Global, table: &Table, id: NodeId) -> Result<Vec<NodeId>, AllocError>
    requires node { IsNode table.now id }
    requires quantified { is_quantified (tree table.now id) ≡ true }
    ensures { IfOk result (λ ks. AreVariables table.now ks.items (variables_of (tree table.now id))) }
{
    let kids = table.kids(id);
    let variables = Vec::from_slice(alloc, &kids[..kids.len() - 1])?;
    Ok(variables)
}

/// Those of these variables that aren't Bool.
pub fn without_truths(
    alloc: Global,
    table: &Table,
    variables: &[NodeId],
) -> Result<Vec<NodeId>, AllocError>
    requires { AreNodes table.now variables.now }
    ensures { (xs : List Variable) → AreVariables table.now variables.now xs → IfOk result (λ ks. AreVariables table.now ks.items (not_bool xs)) }
{
    let mut left = Vec::new(alloc);
    for variable in variables {
        if !is_formula(table, *variable) {
            left.push(*variable)?;
        }
    }
    Ok(left)
}

/// A quantifier over these variables, of which there is one, and over this body.
#[tactic(auto, unfolding(term_table::specs::Formulas::kind))]
pub fn quantify(
    alloc: Global,
    table: &mut Table,
    universal: bool,
    variables: &[NodeId],
    body: NodeId,
) -> Result<NodeId, AllocError>
    requires variables { (xs : List Variable) × AreVariables table.old variables.now xs × (are_bindable xs ≡ true) }
    requires body { IsFormula table.old body }
    ensures formula { IfOk result (IsFormula table.new) }
    ensures term { (xs : List Variable) → AreVariables table.old variables.now xs → IfOk result (λ k. tree table.new k ≡ quantified (quantifier_seen universal) xs (tree table.old body)) }
    ensures grows { GrowsTo table.old table.new }
    ensures symbols { table.new.symbols ≡ table.old.symbols }
    ensures sorts { table.new.sorts ≡ table.old.sorts }
{
    let mut kids = Vec::from_slice(alloc, variables)?;
    kids.push(body)?;
    if universal {
        let id = table.intern(Op::Forall, &kids)?;
        return Ok(id);
    }
    let id = table.intern(Op::Exists, &kids)?;
    Ok(id)
}

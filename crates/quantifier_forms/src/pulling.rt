//! Quantifiers that go in front, over fresh names.

ghost use Rattle.std.specs.Prelude.{◌≡◌, ◌∷◌, ◌++◌, [], List, true, IfOk, OnOk};
ghost use Rattle.smt_terms.specs.Sorts.{Variable};
ghost use Rattle.smt_terms.specs.SubstLaws.{GivesNone, names_within};
ghost use Rattle.smt_terms.specs.Term.{variable};
ghost use Rattle.term_table.specs.Formulas.{tree, variable_of, IsNode};
ghost use Rattle.term_walk.specs.Walking.{GrowsTo};
ghost use Rattle.term_subst.specs.Renaming.{Binds};
ghost use Rattle.term_subst.specs.State.{Gains};
ghost use Rattle.term_subst.specs.Substituting.{IsMap};
ghost use Rattle.normal_forms.specs.Nodes.{IsFormula};
ghost use Rattle.quantifier_forms.specs.Pulling.{AreFresh, AreFronts, behind_fronts, fresh_body, all_fresh, fronts_at};
ghost use Rattle.quantifier_forms.specs.Reaching.{parts_of, IsBinder};
ghost use Rattle.quantifier_forms.specs.Variables.{AreVariables};

use crate::quantifying::{quantify, symbol_of, variables_below};
use crate::rebuilding::body_below;
use normal_forms::binding::is_universal;
use smt_terms::NodeId;
use smt_values::Op;
use std::alloc::{AllocError, Global};
use term_subst::{Fresh, SymMap, substitute};
use term_table::{Table, know_table};

// A quantifier in front.
#[derive(Drop)]
pub(crate) struct Bound {
    pub(crate) universal: bool,
    pub(crate) variables: Vec<NodeId>,
}

// A variable of a fresh name, to which the given one is mapped.
fn draw(
    table: &mut Table,
    given: NodeId,
    map: &mut SymMap,
    fresh: &mut Fresh,
) -> Result<NodeId, AllocError>
    requires node { IsNode table.old given }
    requires variable { tree table.old given ≡ variable (variable_of (tree table.old given)) }
    requires map { IsMap table.old map.old }
    ensures bound { IfOk result (λ k. Binds table.old table.new true (variable_of (tree table.old given)) k map.old map.new fresh.old fresh.new) }
    ensures gains { Gains table.old table.new fresh.old fresh.new }
{
    let symbol = symbol_of(table, given);
    let sort = table.sort_of(given);
    let drawn = fresh.next(table, sort)?;
    let renamed = table.intern(Op::Sym(drawn), &[])?;
    know_table(table);
    map.set(symbol, renamed)?;
    Ok(renamed)
}

// Variables of fresh names for these, in order.
fn draw_all(
    alloc: Global,
    table: &mut Table,
    variables: &[NodeId],
    map: &mut SymMap,
    fresh: &mut Fresh,
) -> Result<Vec<NodeId>, AllocError>
    requires variables { (xs : List Variable) × AreVariables table.old variables.now xs }
    requires map { map.old ≡ [] }
    ensures fresh { (xs : List Variable) → AreVariables table.old variables.now xs → IfOk result (λ ys. AreFresh table.new xs ys.items map.new fresh.old fresh.new) }
    ensures gains { Gains table.old table.new fresh.old fresh.new }
{
    let mut renamed = Vec::with_capacity(alloc, variables.len())?;
    for variable in variables {
        let drawn = draw(table, *variable, map, fresh)?;
        renamed.push(drawn)?;
    }
    Ok(renamed)
}

// The body of a quantified formula over fresh names, after its quantifier went in front.
pub(crate) fn pull(
    alloc: Global,
    table: &mut Table,
    id: NodeId,
    prefix: &mut Vec<Bound>,
    fresh: &mut Fresh,
) -> Result<NodeId, AllocError>
    requires binder { IsBinder table.old id }
    requires names { GivesNone fresh.old (names_within (tree table.old id)) }
    requires prefix { AreFronts table.old prefix.old.items }
    ensures formula { IfOk result (IsFormula table.new) }
    ensures term { IfOk result (λ k. tree table.new k ≡ (fresh_body (parts_of (tree table.old id)) fresh.old).0) }
    ensures left { OnOk result (fresh.new ≡ (fresh_body (parts_of (tree table.old id)) fresh.old).1) }
    ensures prefix { OnOk result (AreFronts table.new prefix.new.items) }
    ensures front { OnOk result (fronts_at table.new prefix.new.items ≡ fronts_at table.old prefix.old.items ++ record { quantifier = (parts_of (tree table.old id)).quantifier; variables = (all_fresh (parts_of (tree table.old id)).variables fresh.old).variables } ∷ []) }
    ensures gains { Gains table.old table.new fresh.old fresh.new }
{
    let variables = variables_below(alloc, table, id)?;
    let universal = is_universal(table, id);
    let body = body_below(table, id);
    let mut map = SymMap::new(alloc);
    let drawn = draw_all(alloc, table, &variables, &mut map, fresh)?;
    let image = substitute(alloc, table, &map, body, fresh)?;
    prefix.push(Bound {
        universal,
        variables: drawn,
    })?;
    Ok(image)
}

// These quantifiers over a matrix, the first one outermost.
pub(crate) fn close(
    alloc: Global,
    table: &mut Table,
    prefix: &[Bound],
    matrix: NodeId,
) -> Result<NodeId, AllocError>
    requires prefix { AreFronts table.old prefix.now }
    requires matrix { IsFormula table.old matrix }
    ensures formula { IfOk result (IsFormula table.new) }
    ensures term { IfOk result (λ k. tree table.new k ≡ behind_fronts (fronts_at table.old prefix.now) (tree table.old matrix)) }
    ensures grows { GrowsTo table.old table.new }
    ensures symbols { table.new.symbols ≡ table.old.symbols }
{
    let mut form = matrix;
    for place in (0..prefix.len()).rev() {
        let bound = &prefix[place];
        form = quantify(alloc, table, bound.universal, &bound.variables, form)?;
    }
    Ok(form)
}

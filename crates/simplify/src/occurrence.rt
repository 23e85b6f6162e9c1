//! Whether a variable occurs free.

ghost use Rattle.std.specs.Prelude.{◌≡◌, ◌≢◌, ℕ, ◌<◌, ◌≤◌, ◌+◌, ◌++◌, ◌∷◌, [], true, not, length, map, IfOk, OnOk};
ghost use Rattle.smt_terms.specs.declared.ids.NodeId.{NodeId};
ghost use Rattle.smt_terms.specs.Free.{free, is_among};
ghost use Rattle.smt_terms.specs.Term.{constant_of, variable as variable_term};
ghost use Rattle.term_table.specs.Formulas.{tree, variable_of, IsNode};
ghost use Rattle.term_walk.specs.FreeLists.{has_node, with_node};
ghost use Rattle.normal_forms.specs.Shape.{variables_of};
ghost use Rattle.term_walk.specs.Binders.{is_quantified};
ghost use Rattle.quantifier_forms.specs.Tasks.{work_left};
ghost use Rattle.simplify.specs.Occurring.{Opens, Searches};

use indexmap::IndexSet;
use quantifier_forms::rebuilding::body_below;
use smt_terms::NodeId;
use std::alloc::{AllocError, Global};
use term_table::{Table, know_table};
use term_walk::is_binder;
use term_walk::meeting::meet;

// Whether a node is listed.
fn is_listed(ids: &[NodeId], id: NodeId) -> bool
    ensures { result ≡ has_node ids.now id }
{
    ids.contains(&id)
}

// Whether a quantified node binds a variable.
fn binds(table: &Table, id: NodeId, variable: NodeId) -> bool
    requires node { IsNode table.now id }
    requires quantified { is_quantified (tree table.now id) ≡ true }
    requires variable { IsNode table.now variable }
    requires constant { tree table.now variable ≡ variable_term (variable_of (tree table.now variable)) }
    ensures { result ≡ is_among (map constant_of (variables_of (tree table.now id))) (constant_of (variable_of (tree table.now variable))) }
{
    know_table(table);
    let kids = table.kids(id);
    is_listed(&kids[..kids.len() - 1], variable)
}

// Lets those operands of a node wait in which a variable that occurs free is free in the node too: none of a node that binds
// it, the body of another quantified node, and all of any other.
fn open(
    table: &Table,
    variable: NodeId,
    waiting: &mut Vec<NodeId>,
    id: NodeId,
) -> Result<(), AllocError>
    requires node { IsNode table.now id }
    requires variable { IsNode table.now variable }
    requires constant { tree table.now variable ≡ variable_term (variable_of (tree table.now variable)) }
    requires other { id.0 ≢ variable.0 }
    ensures { OnOk result (Opens table.now (constant_of (variable_of (tree table.now variable))) id waiting.old.items waiting.new.items) }
{
    know_table(table);
    if !is_binder(table, id) {
        waiting.extend_from_slice(table.kids(id))?;
        return Ok(());
    }
    if binds(table, id, variable) {
        return Ok(());
    }
    waiting.push(body_below(table, id))?;
    Ok(())
}

// Opens a node that was taken off those that wait, where it is met for the first time.
fn take_off(
    table: &Table,
    variable: NodeId,
    waiting: &mut Vec<NodeId>,
    met: &mut IndexSet<NodeId>,
    id: NodeId,
) -> Result<(), AllocError>
    requires node { IsNode table.now id }
    requires variable { IsNode table.now variable }
    requires constant { tree table.now variable ≡ variable_term (variable_of (tree table.now variable)) }
    requires other { id.0 ≢ variable.0 }
    ensures searches { (root : NodeId) → Searches table.now (constant_of (variable_of (tree table.now variable))) root (waiting.old.items ++ id ∷ []) met.old.keys → OnOk result (Searches table.now (constant_of (variable_of (tree table.now variable))) root waiting.new.items met.new.keys) }
    ensures nearer { (n : ℕ) → id.0 < n → OnOk result (work_left table.now met.new.keys n + length waiting.new.items ≤ work_left table.now met.old.keys n + length waiting.old.items) }
{
    if meet(met, id)? {
        open(table, variable, waiting, id)?;
        return Ok(());
    }
    Ok(())
}

/// Whether a variable occurs free in a term. It takes time and memory up to the size of the term as nodes.
pub(crate) fn occurs(
    alloc: Global,
    table: &Table,
    variable: NodeId,
    root: NodeId,
) -> Result<bool, AllocError>
    requires variable { IsNode table.now variable }
    requires constant { tree table.now variable ≡ variable_term (variable_of (tree table.now variable)) }
    requires root { IsNode table.now root }
    ensures { IfOk result (λ found. found ≡ is_among (free (tree table.now root)) (constant_of (variable_of (tree table.now variable)))) }
{
    let mut waiting = Vec::new(alloc);
    waiting.push(root)?;
    let mut met = IndexSet::new(alloc);
    while let Some(id) = waiting.pop() {
        if id.0 == variable.0 {
            return Ok(true);
        }
        take_off(table, variable, &mut waiting, &mut met, id)?;
    }
    Ok(false)
}

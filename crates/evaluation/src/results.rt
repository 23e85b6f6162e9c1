//! The values of nodes while a formula is valued.

ghost use Rattle.std.specs.Prelude.{◌≡◌, ◌∷◌, [], Some, All, IsSome, IfOk, OnOk, option_copied};
ghost use Rattle.smt_terms.specs.declared.ids.NodeId.{NodeId};
ghost use Rattle.smt_terms.specs.Models as plain;
ghost use Rattle.smt_terms.specs.Val.{Env, no_variables};
ghost use Rattle.term_table.specs.Formulas.{Formulas, tree, IsNode};
ghost use Rattle.evaluation.specs.Evaluated.{IsValueOf};
ghost use Rattle.evaluation.specs.KeptValues.{found_at, known_at, KeepsValues, AreHeld, AreFound, AreValuesOf};

use indexmap::IndexMap;
use smt_terms::NodeId;
use smt_values::{Value, copy_value};
use std::alloc::{AllocError, Global};
use term_walk::Kept;

// The value of a node, as it was found or kept.
fn value_at<'a>(
    kept: &'a Kept<Value>,
    found: &'a IndexMap<NodeId, Value>,
    id: NodeId,
) -> Option<&'a Value>
    ensures { option_copied result ≡ known_at kept.now found.now.entries id }
{
    match found.get(&id) {
        Some(value) => Some(value),
        None => kept.get(id),
    }
}

// A copy of the value of a node that has one.
pub(crate) fn value_of_node(
    alloc: Global,
    kept: &Kept<Value>,
    found: &IndexMap<NodeId, Value>,
    id: NodeId,
) -> Result<Value, AllocError>
    requires known { IsSome (known_at kept.now found.now.entries id) }
    requires held { AreHeld kept.now found.now.entries }
    ensures { (t : Formulas) (m : plain.Model) (e : Env) → AreFound t m e kept.now found.now.entries → IfOk result (IsValueOf m e (tree t id)) }
{
    let Some(value) = value_at(kept, found, id) else {
        unreachable!()
    };
    copy_value(alloc, value)
}

// Copies of the values of these nodes, which all have one.
pub(crate) fn values_of_nodes(
    alloc: Global,
    kept: &Kept<Value>,
    found: &IndexMap<NodeId, Value>,
    ids: &[NodeId],
) -> Result<Vec<Value>, AllocError>
    requires known { All (λ k. IsSome (known_at kept.now found.now.entries k)) ids.now }
    requires held { AreHeld kept.now found.now.entries }
    ensures { (t : Formulas) (m : plain.Model) (e : Env) → AreFound t m e kept.now found.now.entries → IfOk result (λ vs. AreValuesOf t m e ids.now vs.items) }
{
    let mut values = Vec::with_capacity(alloc, ids.len())?;
    for id in ids {
        values.push(value_of_node(alloc, kept, found, *id)?)?;
    }
    Ok(values)
}

// Gives a node a value.
pub(crate) fn give_value(
    found: &mut IndexMap<NodeId, Value>,
    id: NodeId,
    value: Value,
) -> Result<(), AllocError>
    ensures here { OnOk result (found_at found.new.entries id ≡ Some value) }
    ensures others { (k : NodeId) → (k.0 ≡ id.0 → ⊥) → OnOk result (found_at found.new.entries k ≡ found_at found.old.entries k) }
{
    found.insert(id, value)?;
    Ok(())
}

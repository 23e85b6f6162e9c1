//! Values of formulas.

ghost use Rattle.std.specs.Prelude.{◌≡◌, ◌≤◌, IfOk, IsSome, OnOk};
ghost use Rattle.smt_terms.specs.declared.ids.NodeId.{NodeId};
ghost use Rattle.smt_terms.specs.Models as plain;
ghost use Rattle.smt_terms.specs.Models.{IsModel};
ghost use Rattle.smt_terms.specs.Val.{bits_bound, no_variables};
ghost use Rattle.term_table.specs.Formulas.{Formulas, tree, IsNode};
ghost use Rattle.term_walk.specs.Places.{result_at};
ghost use Rattle.models.specs.ModelView.{model_at, IsModelOf};
ghost use Rattle.evaluation.specs.Evaluated.{most_bits, Evaluates, Values};
ghost use Rattle.evaluation.specs.KeptValues.{known_at, KeepsValues, AreFound, StayKept};

use crate::bounds::bits_bound;
use crate::faults::{EvalFault, ValueFault};
use crate::orders::order_below;
use crate::quantifiers::value_all;
use crate::results::value_of_node;
use indexmap::IndexMap;
use models::Model;
use smt_terms::NodeId;
use smt_values::Value;
use std::alloc::{AllocError, Global};
use term_table::Table;
use term_walk::Kept;

// As many bits may be bound on a path.
const MOST_BITS: u32 = 16;

// Keeps what was found.
fn keep_all(kept: &mut Kept<Value>, mut found: IndexMap<NodeId, Value>) -> Result<(), AllocError>
    ensures values { (t : Formulas) (m : plain.Model) → KeepsValues t m kept.old → AreFound t m no_variables kept.old found.entries → KeepsValues t m kept.new }
    ensures stay { StayKept kept.old kept.new }
    ensures all { OnOk result ((k : NodeId) → IsSome (known_at kept.old found.entries k) → IsSome (result_at kept.new k.0)) }
{
    while let Some((id, value)) = found.pop() {
        kept.put(id, value)?;
    }
    Ok(())
}

/// The value of a formula that binds at most 16 bits on each path. It is kept, as are the values that it was found from where no
/// variable is bound, and what was kept before stays.
pub fn value_of(
    alloc: Global,
    table: &Table,
    id: NodeId,
    model: &Model,
    kept: &mut Kept<Value>,
) -> Result<Value, ValueFault>
    requires node { IsNode table.now id }
    requires valid { IsModel (model_at table.now model.now) }
    requires numbers { IsModelOf table.now model.now }
    requires width { bits_bound (tree table.now id) ≤ most_bits }
    requires kept { KeepsValues table.now (model_at table.now model.now) kept.old }
    ensures value { Values table.now (model_at table.now model.now) (tree table.now id) result }
    ensures kept { KeepsValues table.now (model_at table.now model.now) kept.new }
    ensures stay { StayKept kept.old kept.new }
    ensures here { OnOk result (IsSome (result_at kept.new id.0)) }
{
    let order = order_below(alloc, table, kept, id)?;
    let mut bindings = Vec::new(alloc);
    let mut found = IndexMap::new(alloc);
    value_all(alloc, table, model, &mut bindings, &order, kept, &mut found)?;
    let value = value_of_node(alloc, kept, &found, id)?;
    keep_all(kept, found)?;
    Ok(value)
}

/// The value of a formula.
pub fn eval(alloc: Global, table: &Table, id: NodeId, model: &Model) -> Result<Value, EvalFault>
    requires node { IsNode table.now id }
    requires valid { IsModel (model_at table.now model.now) }
    requires numbers { IsModelOf table.now model.now }
    ensures { Evaluates table.now (model_at table.now model.now) (tree table.now id) result }
{
    let bits = bits_bound(alloc, table, id, &mut Kept::new(alloc))?;
    if bits > MOST_BITS {
        return Err(EvalFault::EvalWidth { bits });
    }
    let value = value_of(alloc, table, id, model, &mut Kept::new(alloc))?;
    Ok(value)
}

//! Nodes that were met in a search.

ghost use Rattle.std.specs.Prelude.{◌≡◌, not, IfOk, OnOk};
ghost use Rattle.term_walk.specs.FreeLists.{has_node, with_node};

use indexmap::IndexSet;
use smt_terms::NodeId;
use std::alloc::AllocError;

/// Whether a node is met for the first time.
pub fn meet(met: &mut IndexSet<NodeId>, id: NodeId) -> Result<bool, AllocError>
    ensures first { IfOk result (λ first. first ≡ not (has_node met.old.keys id)) }
    ensures keys { OnOk result (met.new.keys ≡ with_node met.old.keys id) }
{
    let first = met.insert(id)?;
    Ok(first)
}

//! What was kept of the operands of a node.

ghost use Rattle.std.specs.Prelude.{All, IsSome, IfOk};
ghost use Rattle.term_walk.specs.Places.{result_at};
ghost use Rattle.normal_forms.specs.Results.{AreResults};

use smt_terms::NodeId;
use std::alloc::{AllocError, Global};
use term_walk::Kept;

/// The results of these nodes, one for each, in order. Each of them has to have one.
pub fn results_of(
    alloc: Global,
    kept: &Kept<NodeId>,
    kids: &[NodeId],
) -> Result<Vec<NodeId>, AllocError>
    requires { All (λ k. IsSome (result_at kept.now k.0)) kids.now }
    ensures { IfOk result (λ ks. AreResults kept.now kids.now ks.items) }
{
    let mut results = Vec::with_capacity(alloc, kids.len())?;
    for kid in kids {
        let found = *kept.get(*kid).unwrap();
        results.push(found)?;
    }
    Ok(results)
}

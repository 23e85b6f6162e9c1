//! Constants of Bool, Int and bit vectors as nodes.

ghost use Rattle.std.specs.Prelude.{◌≡◌, Some, IfOk};
ghost use Rattle.smt_terms.specs.Constants.{constant_term};
ghost use Rattle.smt_terms.specs.Rank.{sort_of};
ghost use Rattle.smt_values.specs.Meaning.{scalar_value, scalar_sort, IsScalar};
ghost use Rattle.term_table.specs.Formulas.{tree, IsNode};
ghost use Rattle.term_walk.specs.Walking.{GrowsTo};
ghost use Rattle.normal_forms.specs.Literals.{literal_of};

use smt_terms::NodeId;
use smt_values::{Op, Scalar};
use std::alloc::AllocError;
use term_table::Table;

/// The operator of a constant.
pub fn literal(scalar: Scalar) -> Op
    ensures { result ≡ literal_of scalar }
{
    match scalar {
        Scalar::Truth(truth) => Op::Truth(truth),
        Scalar::Whole(n) => Op::Whole(n),
        Scalar::Bits { width, bits } => Op::Bits { width, bits },
    }
}

/// The node of a constant.
#[tactic(auto, unfolding(term_table::specs::Formulas::kind))]
pub fn node_of(table: &mut Table, scalar: Scalar) -> Result<NodeId, AllocError>
    requires { IsScalar scalar }
    ensures node { IfOk result (IsNode table.new) }
    ensures sort { IfOk result (λ k. sort_of (tree table.new k) ≡ Some (scalar_sort scalar)) }
    ensures term { IfOk result (λ k. constant_term (scalar_value scalar) ≡ Some (tree table.new k)) }
    ensures grows { GrowsTo table.old table.new }
    ensures symbols { table.new.symbols ≡ table.old.symbols }
    ensures sorts { table.new.sorts ≡ table.old.sorts }
{
    let id = table.intern(literal(scalar), &[])?;
    Ok(id)
}

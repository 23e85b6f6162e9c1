//! The other literal of a literal: of `true` it is `false` and of `false` it is `true`, of `(not a)` it is a, and of another a it
//! is `(not a)`.

ghost use Rattle.std.specs.Prelude.{◌≡◌, IfOk};
ghost use Rattle.term_table.specs.Formulas.{tree};
ghost use Rattle.term_walk.specs.Walking.{GrowsTo};
ghost use Rattle.normal_forms.specs.Nodes.{IsFormula};
ghost use Rattle.cnf_polarity.specs.Cnf as plain;

use normal_forms::making::truth;
use normal_forms::opposites::opposite;
use smt_terms::NodeId;
use smt_values::Op;
use std::alloc::AllocError;
use term_table::Table;

/// `true` and `false` are exchanged, a `not` is taken away, or else one is added.
pub(crate) fn complement(table: &mut Table, id: NodeId) -> Result<NodeId, AllocError>
    requires { IsFormula table.old id }
    ensures formula { IfOk result (IsFormula table.new) }
    ensures term { IfOk result (λ k. tree table.new k ≡ plain.complement (tree table.old id)) }
    ensures grows { GrowsTo table.old table.new }
    ensures symbols { table.new.symbols ≡ table.old.symbols }
    ensures sorts { table.new.sorts ≡ table.old.sorts }
{
    match table.op(id) {
        Op::Truth(value) => truth(table, !value),
        _ => opposite(table, id),
    }
}

//! What a walk does at each node.

ghost use Rattle.std.specs.Prelude.{◌≡◌, ◌+◌, IfOk};
ghost use Rattle.smt_terms.specs.Term.{Term};
ghost use Rattle.term_table.specs.Formulas.{Formulas, tree, IsNode};
ghost use Rattle.term_walk.specs.Walking.{GrowsTo, AreRelated, HaveResults};

use crate::kept::Kept;
use crate::steps::Steps;
use smt_terms::NodeId;
use std::alloc::AllocError;
use std::sync::ledger::Ledger;
use term_table::Table;

/// One step of a walk: the result of a node, of those of its operands. A step has a relation between a term and a
/// result, which may speak of the table and of what the step means, and stays true as the table gains.
pub trait NodeStep {
    type Out: Drop;

    ghost Meaning: { Type 0 };

    ghost meaning: { Self → Meaning };

    ghost related: { Meaning → Formulas → Term → Self.Out → Type 0 };

    /// The result of a node whose operands have results. It counts as one step, whatever it answers.
    fn step<L: Ledger>(
        &mut self,
        table: &mut Table,
        id: NodeId,
        kept: &Kept<Self::Out>,
        steps: &mut Steps<L>,
    ) -> Result<Self::Out, AllocError>
        requires node { IsNode table.old id }
        requires related { AreRelated (related (meaning self.old)) table.old kept.now }
        requires kids { HaveResults table.old (tree table.old id) kept.now }
        ensures ok { IfOk result (λ r. related (meaning self.old) table.new (tree table.old id) r) }
        ensures grows { GrowsTo table.old table.new }
        ensures symbols { table.new.symbols ≡ table.old.symbols }
        ensures sorts { table.new.sorts ≡ table.old.sorts }
        ensures meaning { meaning self.new ≡ meaning self.old }
        ensures cost { steps.new ≡ steps.old + 1 };

    ghost stays: { (m : Meaning) (old new : Formulas) (t : Term) (r : Self.Out) → GrowsTo old new → related m old t r → related m new t r };
}

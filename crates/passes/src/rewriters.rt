//! Passes that put one assertion in the place of each, as rewriters of single formulas: `simplify`, `nnf`, `aig`, `prenex`,
//! `reads`, `shannon` and `selfsub`.

ghost use Rattle.std.specs.Prelude.{◌≡◌, IfOk, OnOk};
ghost use Rattle.smt_terms.specs.SubstLaws.{names_within, GivesNone};
ghost use Rattle.normal_forms.specs.Nodes.{IsFormula};
ghost use Rattle.term_subst.specs.Substituting.{IsLater, NeverGivesGained};
ghost use Rattle.term_table.specs.Formulas.{tree};
ghost use Rattle.term_walk.specs.Walking.{GrowsTo};

use array_forms::laws::reads_keep_values;
use array_forms::read_over_write;
use boolean_quantifiers::{self_subst, shannon};
use normal_forms::and_inverter_form::aig_kept;
use normal_forms::negation_normal_form::nnf_kept;
use normal_forms::node_forms::Forms;
use quantifier_forms::prenex;
use simplify::laws::simplify_keeps_values;
use simplify::simplify;
use smt_terms::NodeId;
use std::alloc::{AllocError, Global};
use std::sync::ledger::Ledger;
use term_subst::Fresh;
use term_table::{Table, know_table};
use term_walk::{Kept, Steps};

/// Puts a formula in the place of another.
pub(crate) trait Rewriter {
    ghost use Rattle.term_table.specs.Formulas.{Formulas};
    ghost use Rattle.pass_laws.specs.Behind.{Form};

    /// What becomes of a formula, and the names that are left.
    ghost form: { Form };
    /// What it keeps is of this table.
    ghost fits: { Self → Formulas → Type 0 };

    fn rewrite(
        &mut self,
        table: &mut Table,
        id: NodeId,
        fresh: &mut Fresh,
    ) -> Result<NodeId, AllocError>
        requires fits { Self.fits self.old table.old }
        requires formula { IsFormula table.old id }
        requires names { GivesNone fresh.old (names_within (tree table.old id)) }
        ensures formula { IfOk result (IsFormula table.new) }
        ensures term { IfOk result (λ k. tree table.new k ≡ (Self.form (tree table.old id) fresh.old).0) }
        ensures left { OnOk result (fresh.new ≡ (Self.form (tree table.old id) fresh.old).1) }
        ensures later { IsLater fresh.old fresh.new }
        ensures drawn { NeverGivesGained fresh.new table.old.symbols table.new.symbols }
        ensures grows { GrowsTo table.old table.new }
        ensures fits { Self.fits self.new table.new };
}

/// `simplify`, with the results of earlier formulas kept.
#[derive(Drop)]
pub(crate) struct Simplification<L: Ledger> {
    pub(crate) alloc: Global,
    pub(crate) kept: Kept<NodeId>,
    pub(crate) steps: Steps<L>,
}

impl<L: Ledger> Rewriter for Simplification<L> {
    ghost use Rattle.term_walk.specs.Walking.{Fits};
    ghost use Rattle.simplify.specs.Reduced.{IsSimplified};
    ghost use Rattle.pass_laws.specs.Behind.{simplified_form};

    ghost form = { simplified_form };

    ghost fits = { λ s t. Fits IsSimplified t s.kept };

    fn rewrite(
        &mut self,
        table: &mut Table,
        id: NodeId,
        fresh: &mut Fresh,
    ) -> Result<NodeId, AllocError> {
        know_table(table);
        simplify_keeps_values();
        let id = simplify(self.alloc, table, id, &mut self.kept, &mut self.steps)?;
        Ok(id)
    }
}

/// `nnf`, with the results of earlier formulas kept.
#[derive(Drop)]
pub(crate) struct Negation<L: Ledger> {
    pub(crate) alloc: Global,
    pub(crate) kept: Kept<Forms>,
    pub(crate) steps: Steps<L>,
}

impl<L: Ledger> Rewriter for Negation<L> {
    ghost use Rattle.term_walk.specs.Walking.{Fits};
    ghost use Rattle.normal_forms.specs.FormNodes.{HasForms};
    ghost use Rattle.pass_laws.specs.Behind.{nnf_form};

    ghost form = { nnf_form };

    ghost fits = { λ s t. Fits HasForms t s.kept };

    fn rewrite(
        &mut self,
        table: &mut Table,
        id: NodeId,
        fresh: &mut Fresh,
    ) -> Result<NodeId, AllocError> {
        let id = nnf_kept(self.alloc, table, id, &mut self.kept, &mut self.steps)?;
        Ok(id)
    }
}

/// `aig`, with the results of earlier formulas kept.
#[derive(Drop)]
pub(crate) struct Inversion<L: Ledger> {
    pub(crate) alloc: Global,
    pub(crate) kept: Kept<NodeId>,
    pub(crate) steps: Steps<L>,
}

impl<L: Ledger> Rewriter for Inversion<L> {
    ghost use Rattle.term_walk.specs.Walking.{Fits};
    ghost use Rattle.normal_forms.specs.InvertedNodes.{HasInverted};
    ghost use Rattle.pass_laws.specs.Behind.{aig_form};

    ghost form = { aig_form };

    ghost fits = { λ s t. Fits HasInverted t s.kept };

    fn rewrite(
        &mut self,
        table: &mut Table,
        id: NodeId,
        fresh: &mut Fresh,
    ) -> Result<NodeId, AllocError> {
        let id = aig_kept(self.alloc, table, id, &mut self.kept, &mut self.steps)?;
        Ok(id)
    }
}

/// `prenex`.
#[derive(Drop)]
pub(crate) struct Prefix {
    pub(crate) alloc: Global,
}

impl Rewriter for Prefix {
    ghost use Rattle.normal_forms.specs.Prenex.{prenex};

    ghost form = { prenex };

    ghost fits = { λ s t. Unit {0} };

    fn rewrite(
        &mut self,
        table: &mut Table,
        id: NodeId,
        fresh: &mut Fresh,
    ) -> Result<NodeId, AllocError> {
        let id = prenex(self.alloc, table, id, fresh)?;
        Ok(id)
    }
}

/// `reads`, with the results of earlier formulas kept.
#[derive(Drop)]
pub(crate) struct Reading<L: Ledger> {
    pub(crate) alloc: Global,
    pub(crate) kept: Kept<NodeId>,
    pub(crate) steps: Steps<L>,
}

impl<L: Ledger> Rewriter for Reading<L> {
    ghost use Rattle.term_walk.specs.Walking.{Fits};
    ghost use Rattle.array_forms.specs.ReadNodes.{HasReads};
    ghost use Rattle.pass_laws.specs.Behind.{reads_form};

    ghost form = { reads_form };

    ghost fits = { λ s t. Fits HasReads t s.kept };

    fn rewrite(
        &mut self,
        table: &mut Table,
        id: NodeId,
        fresh: &mut Fresh,
    ) -> Result<NodeId, AllocError> {
        know_table(table);
        reads_keep_values();
        let id = read_over_write(self.alloc, table, id, &mut self.kept, &mut self.steps)?;
        Ok(id)
    }
}

/// `shannon`.
#[derive(Drop)]
pub(crate) struct Expansion {
    pub(crate) alloc: Global,
}

impl Rewriter for Expansion {
    ghost use Rattle.pass_laws.specs.Behind.{shannon_form};

    ghost form = { shannon_form };

    ghost fits = { λ s t. Unit {0} };

    fn rewrite(
        &mut self,
        table: &mut Table,
        id: NodeId,
        fresh: &mut Fresh,
    ) -> Result<NodeId, AllocError> {
        let id = shannon(self.alloc, table, id)?;
        Ok(id)
    }
}

/// `selfsub`.
#[derive(Drop)]
pub(crate) struct SelfSubstitution {
    pub(crate) alloc: Global,
}

impl Rewriter for SelfSubstitution {
    ghost use Rattle.normal_forms.specs.Quantifiers.{selfsub};

    ghost form = { selfsub };

    ghost fits = { λ s t. Unit {0} };

    fn rewrite(
        &mut self,
        table: &mut Table,
        id: NodeId,
        fresh: &mut Fresh,
    ) -> Result<NodeId, AllocError> {
        let id = self_subst(self.alloc, table, id, fresh)?;
        Ok(id)
    }
}

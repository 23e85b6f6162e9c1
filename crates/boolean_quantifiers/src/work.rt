//! What a pass keeps of the constants that it replaced.

ghost use Rattle.std.specs.Prelude.{◌≡◌, ◌<◌, [], true, IfOk, OnOk, length, get_or};
ghost use Rattle.term_table.specs.Formulas.{tree, IsNode, IsTable};
ghost use Rattle.term_walk.specs.Walking.{GrowsTo};
ghost use Rattle.normal_forms.specs.Prenex.{quantifiers};
ghost use Rattle.boolean_quantifiers.specs.Replacing.{AreImages, IsPut};
ghost use Rattle.boolean_quantifiers.specs.Working.{single, AreCases, IsWork};
ghost use Rattle.boolean_quantifiers.specs.declared.work.Case.{Case};

use crate::occurrences::Occurrences;
use crate::replacing::{Images, replace};
use indexmap::IndexSet;
use quantifier_forms::memo::Memo;
use smt_terms::NodeId;
use std::alloc::{AllocError, Global};
use term_table::{Table, know_table};

// A constant and what takes its place.
#[derive(Clone, Copy, Debug, PartialEq, Eq, Hash)]
pub(crate) struct Case {
    pub(crate) variable: NodeId,
    pub(crate) image: NodeId,
}

// The notes on nodes, the cases, each of them a version, and their results.
#[derive(Drop)]
pub(crate) struct Work {
    pub(crate) occurrences: Occurrences,
    pub(crate) cases: IndexSet<Case>,
    pub(crate) memo: Memo,
}

// One case, with what is known to lack its constant.
#[derive(Drop)]
struct One<'a> {
    case: Case,
    occurrences: &'a Occurrences,
}

impl<'a> Images for One<'a> {
    ghost use Rattle.boolean_quantifiers.specs.Occurrences.{lacks};
    ghost use Rattle.boolean_quantifiers.specs.Working.{single};

    ghost images = { λ s. single s.case };

    ghost spares = { λ s. lacks s.occurrences.now.candidates.keys s.occurrences.now.notes.entries s.case.variable };

    fn image(&self, id: NodeId) -> Option<NodeId> {
        if self.case.variable.0 == id.0 {
            return Some(self.case.image);
        }
        None
    }

    fn spares(&self, id: NodeId) -> bool {
        self.occurrences.lacks(self.case.variable, id)
    }
}

impl Work {
    pub(crate) fn new(alloc: Global, candidates: IndexSet<NodeId>) -> Work
        ensures notes { result.occurrences.notes.entries ≡ [] }
        ensures candidates { result.occurrences.candidates.keys ≡ candidates.keys }
        ensures cases { result.cases.keys ≡ [] }
        ensures memo { result.memo ≡ [] }
    {
        Work {
            occurrences: Occurrences::new(alloc, candidates),
            cases: IndexSet::new(alloc),
            memo: Memo::new(alloc),
        }
    }

    // The version of a case.
    fn version(&mut self, table: &Table, case: Case) -> Result<usize, AllocError>
        requires images { AreImages table.now (single case) }
        requires cases { AreCases table.now self.old.cases.keys self.old.memo }
        ensures cases { OnOk result (AreCases table.now self.new.cases.keys self.new.memo) }
        ensures within { IfOk result (λ v. v < length self.new.cases.keys) }
        ensures case { (d : Case) → IfOk result (λ v. get_or self.new.cases.keys v d ≡ case) }
        ensures occurrences { self.new.occurrences ≡ self.old.occurrences }
    {
        let (version, _) = self.cases.insert_full(case)?;
        Ok(version)
    }

    // Whether it is known that no quantifier stands in a node.
    pub(crate) fn is_plain(&mut self, table: &Table, root: NodeId) -> Result<bool, AllocError>
        requires root { IsNode table.now root }
        requires work { IsWork table.now self.old }
        ensures plain { IfOk result (λ known. known ≡ true → quantifiers (tree table.now root) ≡ 0) }
        ensures work { OnOk result (IsWork table.now self.new) }
        ensures table { IsTable table.now }
    {
        know_table(table);
        self.occurrences.note_all(table, root)?;
        Ok(self.occurrences.is_plain(root))
    }

    // The node with the image of a case in the place of its constant.
    pub(crate) fn put(
        &mut self,
        alloc: Global,
        table: &mut Table,
        case: Case,
        root: NodeId,
    ) -> Result<NodeId, AllocError>
        requires root { IsNode table.old root }
        requires images { AreImages table.old (single case) }
        requires work { IsWork table.old self.old }
        ensures result { IfOk result (IsPut table.new (single case) root) }
        ensures work { OnOk result (IsWork table.new self.new) }
        ensures grows { GrowsTo table.old table.new }
        ensures symbols { table.new.symbols ≡ table.old.symbols }
    {
        self.occurrences.note_all(table, root)?;
        let version = self.version(table, case)?;
        let one = One {
            case,
            occurrences: &self.occurrences,
        };
        let result = replace(alloc, table, &one, &mut self.memo, version, root)?;
        Ok(result)
    }
}

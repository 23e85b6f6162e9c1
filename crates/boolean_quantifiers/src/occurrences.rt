//! Which constants, and whether quantifiers, may occur in which nodes. A walk that puts something in the place of a constant
//! can leave out what is known to have none.

ghost use Rattle.std.specs.Prelude.{◌≡◌, ◌||◌, true, false, IfOk, OnOk, [], option_copied};
ghost use Rattle.smt_terms.specs.declared.ids.NodeId.{NodeId};
ghost use Rattle.term_table.specs.Formulas.{tree, IsNode};
ghost use Rattle.term_walk.specs.FreeLists.{has_node};
ghost use Rattle.normal_forms.specs.Prenex.{quantifiers};
ghost use Rattle.boolean_quantifiers.specs.Occurrences.{AreTrue, occurs};

use indexmap::{IndexMap, IndexSet};
use quantifier_forms::listing::{Choice, list};
use smt_terms::NodeId;
use std::alloc::{AllocError, Global};
use term_table::Table;
use term_walk::is_binder;

// As many candidates are listed of a node.
const FEW: usize = 64;

// What is noted of a node: the candidates that may occur in it, unless they are many, and whether a quantifier may.
#[derive(Drop)]
pub(crate) struct Held {
    pub(crate) few: Option<Vec<NodeId>>,
    pub(crate) binds: bool,
}

// Notes on nodes, as to some candidates.
#[derive(Drop)]
pub(crate) struct Occurrences {
    pub(crate) alloc: Global,
    pub(crate) candidates: IndexSet<NodeId>,
    pub(crate) notes: IndexMap<NodeId, Held>,
}

// Whether a node is listed.
fn has(list: &[NodeId], id: NodeId) -> bool
    ensures { result ≡ has_node list.now id }
{
    list.contains(&id)
}

// Adds what isn't listed.
fn join(list: &mut Vec<NodeId>, more: &[NodeId]) -> Result<(), AllocError>
    ensures { OnOk result ((c : NodeId) → has_node list.new.items c ≡ (has_node list.old.items c || has_node more.now c)) }
{
    for id in more {
        if !has(list, *id) {
            list.push(*id)?;
        }
    }
    Ok(())
}

impl Occurrences {
    ghost use Rattle.boolean_quantifiers.specs.Occurrences.{Notes, AreTrue, note_of, is_noted, lacks, is_plain, few_lack, note_lacks, occurs};

    pub(crate) fn new(alloc: Global, candidates: IndexSet<NodeId>) -> Occurrences
        ensures notes { result.notes.entries ≡ [] }
        ensures candidates { result.candidates.keys ≡ candidates.keys }
    {
        Occurrences {
            alloc,
            candidates,
            notes: IndexMap::new(alloc),
        }
    }

    // What is noted of a node.
    fn note_of(&self, id: NodeId) -> Option<&Held>
        ensures { option_copied result ≡ note_of self.now.notes.entries id }
    {
        self.notes.get(&id)
    }

    fn is_noted(&self, id: NodeId) -> bool
        ensures { result ≡ is_noted self.now.notes.entries id }
    {
        self.note_of(id).is_some()
    }

    fn is_candidate(&self, id: NodeId) -> bool
        ensures { result ≡ has_node self.now.candidates.keys id }
    {
        self.candidates.contains(&id)
    }

    // Whether a candidate is known not to occur in a node.
    pub(crate) fn lacks(&self, constant: NodeId, id: NodeId) -> bool
        ensures { result ≡ lacks self.now.candidates.keys self.now.notes.entries constant id }
    {
        if !self.is_candidate(constant) {
            return false;
        }
        match self.note_of(id) {
            Some(held) => held.lacks(constant),
            None => false,
        }
    }

    // Adds what is noted of a node. The answer is false where that is many, or nothing is noted.
    fn join_noted(&self, list: &mut Vec<NodeId>, id: NodeId) -> Result<bool, AllocError>
        ensures joined { IfOk result (λ known. (c : NodeId) → known ≡ true → has_node list.new.items c ≡ false → note_lacks (note_of self.now.notes.entries id) c ≡ true) }
        ensures kept { (c : NodeId) → has_node list.old.items c ≡ true → OnOk result (has_node list.new.items c ≡ true) }
    {
        match self.note_of(id) {
            Some(held) => held.join_few(list),
            None => Ok(false),
        }
    }

    // The candidates in a node, or None where they are many, or nothing is noted of an operand.
    fn few_below(&self, table: &Table, id: NodeId) -> Result<Option<Vec<NodeId>>, AllocError>
        requires node { IsNode table.now id }
        requires notes { AreTrue table.now self.now.candidates.keys self.now.notes.entries }
        ensures { IfOk result (λ few. (c : NodeId) → IsNode table.now c → has_node self.now.candidates.keys c ≡ true → few_lack few c ≡ true → occurs (tree table.now c) (tree table.now id) ≡ false) }
    {
        let mut list = Vec::new(self.alloc);
        if self.is_candidate(id) {
            list.push(id)?;
        }
        for kid in table.kids(id) {
            if !self.join_noted(&mut list, *kid)? {
                return Ok(None);
            }
            if list.len() > FEW {
                return Ok(None);
            }
        }
        Ok(Some(list))
    }

    // Whether a quantifier may stand in a node.
    fn binds_below(&self, table: &Table, id: NodeId) -> bool
        requires node { IsNode table.now id }
        requires notes { AreTrue table.now self.now.candidates.keys self.now.notes.entries }
        ensures { result ≡ false → quantifiers (tree table.now id) ≡ 0 }
    {
        if is_binder(table, id) {
            return true;
        }
        for kid in table.kids(id) {
            if !self.is_plain(*kid) {
                return true;
            }
        }
        false
    }

    fn note(&mut self, table: &Table, id: NodeId) -> Result<(), AllocError>
        requires node { IsNode table.now id }
        requires notes { AreTrue table.now self.old.candidates.keys self.old.notes.entries }
        ensures notes { OnOk result (AreTrue table.now self.new.candidates.keys self.new.notes.entries) }
        ensures candidates { self.new.candidates ≡ self.old.candidates }
    {
        let few = self.few_below(table, id)?;
        let binds = self.binds_below(table, id);
        self.notes.insert(id, Held { few, binds })?;
        Ok(())
    }

    // Notes on all that isn't noted at and below a node.
    pub(crate) fn note_all(&mut self, table: &Table, root: NodeId) -> Result<(), AllocError>
        requires node { IsNode table.now root }
        requires notes { AreTrue table.now self.old.candidates.keys self.old.notes.entries }
        ensures notes { OnOk result (AreTrue table.now self.new.candidates.keys self.new.notes.entries) }
        ensures candidates { self.new.candidates ≡ self.old.candidates }
    {
        let order = list(self.alloc, table, &Noted { occurrences: self }, root)?;
        for id in &order {
            self.note(table, *id)?;
        }
        Ok(())
    }

    // Whether it is known that no quantifier stands in a node.
    pub(crate) fn is_plain(&self, id: NodeId) -> bool
        ensures { result ≡ is_plain self.now.notes.entries id }
    {
        match self.note_of(id) {
            Some(held) => !held.binds,
            None => false,
        }
    }
}

impl Held {
    ghost use Rattle.boolean_quantifiers.specs.Occurrences.{few_lack};

    fn lacks(&self, constant: NodeId) -> bool
        ensures { result ≡ few_lack self.now.few constant }
    {
        match &self.few {
            Some(list) => !has(list, constant),
            None => false,
        }
    }

    // Adds the candidates. The answer is false where they are many.
    fn join_few(&self, list: &mut Vec<NodeId>) -> Result<bool, AllocError>
        ensures joined { IfOk result (λ known. (c : NodeId) → known ≡ true → has_node list.new.items c ≡ false → few_lack self.now.few c ≡ true) }
        ensures kept { (c : NodeId) → has_node list.old.items c ≡ true → OnOk result (has_node list.new.items c ≡ true) }
    {
        match &self.few {
            Some(few) => {
                join(list, few)?;
                Ok(true)
            }
            None => Ok(false),
        }
    }
}

// The nodes of which something is noted.
#[derive(Drop)]
struct Noted<'a> {
    occurrences: &'a Occurrences,
}

impl<'a> Choice for Noted<'a> {
    ghost use Rattle.boolean_quantifiers.specs.Occurrences.{is_noted};

    ghost skips = { λ s. is_noted s.occurrences.now.notes.entries };

    ghost opens = { λ _ _ _. true };

    fn skips(&self, id: NodeId) -> bool {
        self.occurrences.is_noted(id)
    }

    fn opens(&self, _table: &Table, _id: NodeId) -> bool {
        true
    }
}

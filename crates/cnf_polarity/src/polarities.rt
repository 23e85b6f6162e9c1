//! The polarities in which formulas occur. The root occurs positively. Where a connective occurs, so do its operands: in the
//! other polarity that of `not` and the first of `=>`, in both those of `xor`, `=` and `distinct` and the first of `ite`, and all
//! others in the same.

ghost use Rattle.std.specs.Prelude.{◌≡◌, ◌||◌, Bool, true, IfOk, OnOk};
ghost use Rattle.smt_terms.specs.declared.ids.NodeId.{NodeId};
ghost use Rattle.term_table.specs.Formulas.{tree, trees_at, IsNode, AreNodes};
ghost use Rattle.term_groups.specs.Parts.{AreParts, collected};
ghost use Rattle.normal_forms.specs.Shape.{kind_seen};
ghost use Rattle.cnf_polarity.specs.Cnf as plain;
ghost use Rattle.cnf_polarity.specs.Marks.{has_sign, turned_polarities, marked, passes_on};
ghost use Rattle.cnf_polarity.specs.Shapes.{has_connective};

use crate::shapes::connective_of;
use indexmap::IndexMap;
use normal_forms::connective::Connective;
use smt_terms::NodeId;
use std::alloc::{AllocError, Global};
use std::marker::Model;
use term_table::{Table, know_table};

/// In which polarities a formula occurs.
#[derive(Clone, Copy)]
pub(crate) struct Polarities {
    pub(crate) positive: bool,
    pub(crate) negative: bool,
}

impl Polarities {
    ghost use Rattle.std.specs.Prelude.{◌≡◌};
    ghost use Rattle.cnf_polarity.specs.Marks.{exchanged, joined};

    const NONE: Polarities = Polarities {
        positive: false,
        negative: false,
    };

    const POSITIVE: Polarities = Polarities {
        positive: true,
        negative: false,
    };

    const BOTH: Polarities = Polarities {
        positive: true,
        negative: true,
    };

    fn exchanged(self) -> Polarities
        ensures { result ≡ exchanged self }
    {
        Polarities {
            positive: self.negative,
            negative: self.positive,
        }
    }

    fn with(self, other: Polarities) -> Polarities
        ensures { result ≡ joined self other }
    {
        Polarities {
            positive: self.positive || other.positive,
            negative: self.negative || other.negative,
        }
    }
}

/// The polarities of the formulas that occur.
#[derive(Drop)]
pub(crate) struct Occurrences {
    found: IndexMap<NodeId, Polarities>,
}

impl Model for Occurrences {
    ghost use Rattle.cnf_polarity.specs.Marks.{Marks};

    ghost Value = { Marks };

    ghost view = { λ o. o.found.entries };
}

impl Occurrences {
    ghost use Rattle.std.specs.Prelude.{◌≡◌, OnOk};
    ghost use Rattle.cnf_polarity.specs.Marks.{marked, AddsMark};

    /// In which polarities a formula occurs.
    pub(crate) fn of(&self, id: NodeId) -> Polarities
        ensures { result ≡ marked self.now id }
    {
        self.found.get(&id).copied().unwrap_or(Polarities::NONE)
    }

    // Notes that a formula occurs in these, too.
    fn add(&mut self, id: NodeId, polarities: Polarities) -> Result<(), AllocError>
        ensures { OnOk result (AddsMark self.old self.new id polarities) }
    {
        let all = self.of(id).with(polarities);
        self.found.insert(id, all)?;
        Ok(())
    }
}

// What the polarities of a connective are at the operand of this number.
fn turned(connective: Connective, operand: usize, polarities: Polarities) -> Polarities
    ensures { result ≡ turned_polarities (plain.turn (kind_seen connective) operand) polarities }
{
    match connective {
        Connective::Not => polarities.exchanged(),
        Connective::Implies if operand == 0 => polarities.exchanged(),
        Connective::Xor | Connective::Equal | Connective::Distinct => Polarities::BOTH,
        Connective::Ite if operand == 0 => Polarities::BOTH,
        _ => polarities,
    }
}

// Notes in which polarities the operands of a node occur.
fn pass_on(table: &Table, occurrences: &mut Occurrences, id: NodeId) -> Result<(), AllocError>
    requires { IsNode table.now id }
    ensures { OnOk result ((k : NodeId) (sign : Bool) → IsNode table.now k → has_sign sign (marked occurrences.new k) ≡ (has_sign sign (marked occurrences.old k) || passes_on (marked occurrences.old id) sign (tree table.now k) (tree table.now id))) }
{
    let Some(connective) = connective_of(table, id) else {
        return Ok(());
    };
    let polarities = occurrences.of(id);
    let kids = table.kids(id);
    for operand in 0..kids.len() {
        occurrences.add(kids[operand], turned(connective, operand, polarities))?;
    }
    Ok(())
}

/// The polarities of the formulas in the connective part of a root that occurs positively. The nodes stand behind their operands,
/// and the root last.
pub(crate) fn all_occurrences(
    alloc: Global,
    table: &Table,
    order: &[NodeId],
    root: NodeId,
) -> Result<Occurrences, AllocError>
    requires root { IsNode table.now root }
    requires nodes { AreNodes table.now order.now }
    requires parts { AreParts has_connective (tree table.now root) (trees_at table.now order.now) }
    requires reached { trees_at table.now order.now ≡ collected has_connective (λ _. true) (tree table.now root) }
    ensures { IfOk result (λ o. (k : NodeId) (sign : Bool) → IsNode table.now k → has_sign sign (marked o k) ≡ plain.occurs sign (tree table.now k) (plain.occurrences true (tree table.now root))) }
{
    know_table(table);
    let mut occurrences = Occurrences {
        found: IndexMap::new(alloc),
    };
    occurrences.add(root, Polarities::POSITIVE)?;
    for place in (0..order.len()).rev() {
        pass_on(table, &mut occurrences, order[place])?;
    }
    Ok(occurrences)
}

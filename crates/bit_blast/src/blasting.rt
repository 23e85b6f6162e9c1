//! Bit-blasting: each constant of a bit vector below the formulas draws a new constant for each of its bits, the lowest first, and
//! each formula becomes one over truth values, in which every operator is its circuit.

ghost use Rattle.std.specs.Prelude.{◌≡◌, true, filter, map, None, All, IfOk, IfErr, OnOk};
ghost use Rattle.smt_terms.specs.declared.ids.NodeId.{NodeId};
ghost use Rattle.smt_terms.specs.Groups.{Named};
ghost use Rattle.bit_blast.specs.Blasted.{is_bits, blasted};
ghost use Rattle.bit_blast.specs.Faults.{IsFault};
ghost use Rattle.bit_blast.specs.KeptBits.{list_of, HaveBits, HaveSomeBits, IsNoVector};
ghost use Rattle.bit_blast.specs.Subterms.{is_vector_term, is_kept, first_bit, AreInOrder, AreSubterms, AreDrawn, AreKept, HasFirst};
ghost use Rattle.normal_forms.specs.Nodes.{IsFormula};
ghost use Rattle.term_groups.specs.Seen.{named_at, IsGroup};
ghost use Rattle.term_subst.specs.Substituting.{IsLater, NeverGivesGained};
ghost use Rattle.term_table.specs.Formulas.{tree, trees_at, IsNode, AreNodes};
ghost use Rattle.term_walk.specs.Walking.{GrowsTo};

use crate::bit_lists::BitLists;
use crate::checking::first_fault;
use crate::constants::{all_bits_of, keep_vectors, vector_constants};
use crate::operators::operator_bits;
use crate::subterms::subterms;
use smt_terms::NodeId;
use std::alloc::{AllocError, AllocFailed, Global};
use term_groups::constants::{Constants, draw_constants};
use term_subst::{Fresh, Group};
use term_table::{Nodes, Table, know_table};
use thiserror::Error;

/// Why formulas aren't blasted.
#[derive(Clone, Copy, Debug, PartialEq, Eq, Error)]
pub enum BlastFault {
    /// The formula at this place, counted from 0, has a subterm of a sort other than Bool and bit vectors, a symbol with arguments,
    /// or a quantifier. It is the first such formula.
    #[error("formula {root} isn't one over bits")]
    NotBits { root: u64 },
    /// There is no memory.
    #[error("want of memory")]
    Memory,
}

impl From<AllocError> for BlastFault {
    ghost use Rattle.std.specs.Prelude.{◌≡◌};
    ghost use Rattle.bit_blast.specs.declared.blasting.BlastFault.TheVariants.{Memory};

    ghost from_gives = { λ _ made. made ≡ Memory };

    fn from(_error: AllocError) -> BlastFault {
        BlastFault::Memory
    }
}

impl<T: Drop> From<AllocFailed<T>> for BlastFault {
    ghost use Rattle.std.specs.Prelude.{◌≡◌};
    ghost use Rattle.bit_blast.specs.declared.blasting.BlastFault.TheVariants.{Memory};

    ghost from_gives = { λ _ made. made ≡ Memory };

    fn from(_error: AllocFailed<T>) -> BlastFault {
        BlastFault::Memory
    }
}

// Keeps the bits of a node whose operands have theirs, where it hasn't got any.
fn settle(
    alloc: Global,
    table: &mut Table,
    lists: &mut BitLists,
    id: NodeId,
) -> Result<(), AllocError>
    requires node { IsNode table.old id }
    requires bits { is_bits (tree table.old id) ≡ true }
    requires vectors { list_of lists.old id ≡ None → IsNoVector (tree table.old id) }
    requires operands { HaveSomeBits table.old lists.old id }
    ensures kept { (ns : Named) → AreKept table.old ns lists.old → HaveBits table.old ns lists.old id → OnOk result (AreKept table.new ns lists.new) }
    ensures done { OnOk result (is_kept lists.new id ≡ true) }
    ensures stay { OnOk result ((k : NodeId) → is_kept lists.old k ≡ true → is_kept lists.new k ≡ true) }
    ensures grows { GrowsTo table.old table.new }
    ensures symbols { table.new.symbols ≡ table.old.symbols }
    ensures sorts { table.new.sorts ≡ table.old.sorts }
{
    if lists.has(id) {
        return Ok(());
    }
    let bits = operator_bits(alloc, table, lists, id)?;
    lists.set(id, bits)?;
    Ok(())
}

// The bits of these nodes, of which each stands behind its operands, where these constants were drawn for those of the constants
// among them.
fn keep_all(
    alloc: Global,
    table: &mut Table,
    order: &[NodeId],
    vectors: &[NodeId],
    constants: &Constants,
) -> Result<BitLists, AllocError>
    requires order { AreInOrder table.old order.now }
    requires bits { All (λ u. is_bits u ≡ true) (trees_at table.old order.now) }
    requires vectors { trees_at table.old vectors.now ≡ filter is_vector_term (trees_at table.old order.now) }
    requires drawn { AreDrawn table.old vectors.now constants.now }
    ensures kept { IfOk result (AreKept table.new (named_at table.old constants.now.symbols)) }
    ensures done { IfOk result (λ ls. All (λ k. is_kept ls k ≡ true) order.now) }
    ensures grows { GrowsTo table.old table.new }
    ensures symbols { table.new.symbols ≡ table.old.symbols }
    ensures sorts { table.new.sorts ≡ table.old.sorts }
{
    let mut lists = keep_vectors(alloc, table, vectors, constants)?;
    for id in order {
        know_table(table);
        settle(alloc, table, &mut lists, *id)?;
    }
    Ok(lists)
}

// What becomes of the roots: the one bit of each.
fn formulas(alloc: Global, lists: &BitLists, roots: &[NodeId]) -> Result<Nodes, AllocError>
    requires { All (HasFirst lists.now) roots.now }
    ensures { IfOk result (λ ks. ks ≡ map (first_bit lists.now) roots.now) }
{
    let mut formulas = Nodes::new(alloc);
    for root in roots {
        formulas.push(lists.of(*root)[0])?;
    }
    Ok(formulas)
}

// The group of formulas over bits, whose subterms are these nodes.
fn blast_order(
    alloc: Global,
    table: &mut Table,
    order: &[NodeId],
    roots: &[NodeId],
    fresh: &mut Fresh,
) -> Result<Group, AllocError>
    requires roots { AreNodes table.old roots.now }
    requires bits { All (λ t. is_bits t ≡ true) (trees_at table.old roots.now) }
    requires order { AreSubterms table.old (trees_at table.old roots.now) order.now }
    ensures group { IfOk result (λ g. IsGroup table.new g (blasted (trees_at table.old roots.now) fresh.old).group) }
    ensures left { OnOk result (fresh.new ≡ (blasted (trees_at table.old roots.now) fresh.old).names) }
    ensures later { IsLater fresh.old fresh.new }
    ensures drawn { NeverGivesGained fresh.new table.old.symbols table.new.symbols }
    ensures grows { GrowsTo table.old table.new }
{
    know_table(table);
    let vectors = vector_constants(alloc, table, order)?;
    let wanted = all_bits_of(alloc, table, &vectors)?;
    let constants = draw_constants(alloc, table, &wanted, fresh)?;
    let lists = keep_all(alloc, table, order, &vectors, &constants)?;
    let asserts = formulas(alloc, &lists, roots)?;
    Ok(Group {
        symbols: constants.symbols,
        asserts,
    })
}

/// Formulas over truth values in the place of these formulas over bit vectors, with a new constant for each bit of each constant
/// of a bit vector. What they mean: `laws::blasted_formulas_keep_values`. A subterm that stands in several places is blasted once.
/// No name is drawn twice, also where memory is wanting; where a formula isn't one over bits, none is drawn.
///
/// # Errors
///
/// `NotBits` exactly where one of the formulas has a subterm of a sort other than Bool and bit vectors, a symbol with arguments or
/// a quantifier, with the place of the first one; `Memory` where there is no memory.
pub fn blast(
    alloc: Global,
    table: &mut Table,
    roots: &[NodeId],
    fresh: &mut Fresh,
) -> Result<Group, BlastFault>
    requires roots { All (IsFormula table.old) roots.now }
    ensures group { IfOk result (λ g. IsGroup table.new g (blasted (trees_at table.old roots.now) fresh.old).group) }
    ensures bits { IfOk result (λ _. All (λ t. is_bits t ≡ true) (trees_at table.old roots.now)) }
    ensures fault { IfErr result (IsFault (trees_at table.old roots.now)) }
    ensures left { OnOk result (fresh.new ≡ (blasted (trees_at table.old roots.now) fresh.old).names) }
    ensures later { IsLater fresh.old fresh.new }
    ensures drawn { NeverGivesGained fresh.new table.old.symbols table.new.symbols }
    ensures grows { GrowsTo table.old table.new }
{
    let order = subterms(alloc, table, roots)?;
    if let Some(root) = first_fault(alloc, table, &order, roots)? {
        return Err(BlastFault::NotBits { root: root as u64 });
    }
    let group = blast_order(alloc, table, &order, roots, fresh)?;
    Ok(group)
}

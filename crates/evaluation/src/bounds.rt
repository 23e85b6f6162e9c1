//! How many bits quantifiers bind on the paths of a formula.

ghost use Rattle.std.specs.Prelude.{◌≡◌, ◌-◌, ◌^◌, min, true, Some, All, IfOk};
ghost use Rattle.smt_terms.specs.Val.{bits_bound};
ghost use Rattle.term_table.specs.Formulas.{tree, IsNode};
ghost use Rattle.term_walk.specs.Binders.{is_quantified};
ghost use Rattle.term_walk.specs.Places.{result_at};
ghost use Rattle.quantifier_forms.specs.Orders.{IsOrdered};
ghost use Rattle.evaluation.specs.Evaluated.{told_bits};
ghost use Rattle.evaluation.specs.KeptValues.{KeepsBounds, has_bound, greatest_at, AreBounded};

use crate::bindings::bits_of;
use quantifier_forms::listing::{Choice, list};
use smt_terms::NodeId;
use std::alloc::{AllocError, Global};
use term_table::{Table, know_table};
use term_walk::{Kept, is_binder};

// Without the nodes that have a bound.
#[derive(Drop)]
struct Unbounded<'a> {
    kept: &'a Kept<u32>,
}

impl<'a> Choice for Unbounded<'a> {
    ghost use Rattle.std.specs.Prelude.{true};
    ghost use Rattle.evaluation.specs.KeptValues.{has_bound};

    ghost skips = { λ s. has_bound s.kept.now };

    ghost opens = { λ _ _ _. true };

    fn skips(&self, id: NodeId) -> bool {
        self.kept.get(id).is_some()
    }

    fn opens(&self, _table: &Table, _id: NodeId) -> bool {
        true
    }
}

// The nodes below a node that have no bound, each behind its operands.
fn order_without_bounds(
    alloc: Global,
    table: &Table,
    kept: &Kept<u32>,
    root: NodeId,
) -> Result<Vec<NodeId>, AllocError>
    requires { IsNode table.now root }
    ensures { IfOk result (λ ks. IsOrdered table.now (has_bound kept.now) root ks.items) }
{
    know_table(table);
    let order = list(alloc, table, &Unbounded { kept }, root)?;
    Ok(order)
}

// The bound of a node that has one.
fn bound_at(kept: &Kept<u32>, id: NodeId) -> u32
    requires { has_bound kept.now id ≡ true }
    ensures { result_at kept.now id.0 ≡ Some result }
{
    let Some(bound) = kept.get(id) else {
        unreachable!()
    };
    *bound
}

// The greatest bound of these nodes.
fn greatest(kept: &Kept<u32>, ids: &[NodeId]) -> u32
    requires { All (λ k. has_bound kept.now k ≡ true) ids.now }
    ensures { result ≡ greatest_at kept.now ids.now }
{
    let mut most = 0;
    for id in ids {
        let bound = bound_at(kept, *id);
        if most < bound {
            most = bound;
        }
    }
    most
}

// The bits of the variables and of the body.
fn bound_of_binder(table: &Table, kept: &Kept<u32>, id: NodeId) -> u32
    requires node { IsNode table.now id }
    requires quantified { is_quantified (tree table.now id) ≡ true }
    requires kept { KeepsBounds table.now kept.now }
    requires operands { AreBounded table.now kept.now (tree table.now id) }
    ensures { result ≡ told_bits (bits_bound (tree table.now id)) }
{
    know_table(table);
    let kids = table.kids(id);
    let last = kids.len() - 1;
    let mut bits = bound_at(kept, kids[last]);
    for variable in &kids[..last] {
        bits = bits.saturating_add(bits_of(table, *variable));
    }
    bits
}

// The bound of a node whose operands have bounds.
fn bound_of_one(table: &Table, kept: &Kept<u32>, id: NodeId) -> u32
    requires node { IsNode table.now id }
    requires kept { KeepsBounds table.now kept.now }
    requires operands { AreBounded table.now kept.now (tree table.now id) }
    ensures { result ≡ told_bits (bits_bound (tree table.now id)) }
{
    if is_binder(table, id) {
        return bound_of_binder(table, kept, id);
    }
    greatest(kept, table.kids(id))
}

/// The most bits that quantifiers bind on a path, or 4,294,967,295 where that is more.
pub fn bits_bound(
    alloc: Global,
    table: &Table,
    id: NodeId,
    kept: &mut Kept<u32>,
) -> Result<u32, AllocError>
    requires node { IsNode table.now id }
    requires kept { KeepsBounds table.now kept.old }
    ensures bound { IfOk result (λ b. b ≡ min (2 ^ 32 - 1) (bits_bound (tree table.now id))) }
    ensures kept { KeepsBounds table.now kept.new }
{
    let order = order_without_bounds(alloc, table, kept, id)?;
    for below in &order {
        let bound = bound_of_one(table, kept, *below);
        kept.put(*below, bound)?;
    }
    Ok(bound_at(kept, id))
}

//! The subterms of formulas.

ghost use Rattle.std.specs.Prelude.{◌≡◌, ◌≤◌, ◌∷◌, [], length, All, IfOk};
ghost use Rattle.bit_blast.specs.Subterms.{AreSubterms};
ghost use Rattle.normal_forms.specs.Nodes.{IsFormula};
ghost use Rattle.term_table.specs.Formulas.{trees_at};
ghost use Rattle.term_walk.specs.Walking.{GrowsTo};

use normal_forms::making::conjunction;
use smt_terms::NodeId;
use std::alloc::{AllocError, Global};
use term_groups::parts::{Outside, parts};
use term_table::Table;

// Those of one formula.
fn below_one(alloc: Global, table: &Table, root: NodeId) -> Result<Vec<NodeId>, AllocError>
    requires { IsFormula table.now root }
    ensures { IfOk result (λ ks. AreSubterms table.now (trees_at table.now (root ∷ [])) ks.items) }
{
    let order = parts(alloc, table, &Outside, root)?;
    Ok(order)
}

// Those of two formulas or more: all that stands below their `and`.
fn below_several(
    alloc: Global,
    table: &mut Table,
    roots: &[NodeId],
) -> Result<Vec<NodeId>, AllocError>
    requires formulas { All (IsFormula table.old) roots.now }
    requires several { 2 ≤ length roots.now }
    ensures order { IfOk result (λ ks. AreSubterms table.new (trees_at table.old roots.now) ks.items) }
    ensures grows { GrowsTo table.old table.new }
    ensures symbols { table.new.symbols ≡ table.old.symbols }
    ensures sorts { table.new.sorts ≡ table.old.sorts }
{
    let whole = conjunction(table, roots)?;
    let mut order = parts(alloc, table, &Outside, whole)?;
    order.pop();
    Ok(order)
}

/// The distinct subterms of formulas, each behind its operands. However many formulas share a subterm, it is looked at once.
pub(crate) fn subterms(
    alloc: Global,
    table: &mut Table,
    roots: &[NodeId],
) -> Result<Vec<NodeId>, AllocError>
    requires { All (IsFormula table.old) roots.now }
    ensures order { IfOk result (λ ks. AreSubterms table.new (trees_at table.old roots.now) ks.items) }
    ensures grows { GrowsTo table.old table.new }
    ensures symbols { table.new.symbols ≡ table.old.symbols }
    ensures sorts { table.new.sorts ≡ table.old.sorts }
{
    match roots {
        [] => Ok(Vec::new(alloc)),
        [root] => below_one(alloc, table, *root),
        _ => below_several(alloc, table, roots),
    }
}

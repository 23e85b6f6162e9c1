//! Chains: conjunctions of an operator over neighbours.

ghost use Rattle.std.specs.Prelude.{◌≡◌, ◌≢◌, ◌<◌, [], ◌∷◌, length, All, IfOk, IsTrue};
ghost use Rattle.smt_terms.specs.Rank.{shape};
ghost use Rattle.smt_terms.specs.Sorts.{bool};
ghost use Rattle.smt_terms.specs.declared.op.Op.TheVariants.{And};
ghost use Rattle.smt_terms.specs.Written.{exchanged, itself_or_join, neighbours};
ghost use Rattle.term_table.specs.Formulas.{tree, trees_at, AreNodes, IsNode};
ghost use Rattle.sort_check.specs.Forms.{is_link};
ghost use Rattle.sort_check.specs.Making.{term_algebra, Extends, Builds};
ghost use Rattle.sort_check.specs.Operands.{linked, chained, IsOfSort, TakesEach};

use crate::alike::alike;
use crate::fault::MakeFault;
use crate::making::{node, pair, pair_of_sort};
use smt_terms::{NodeId, Op};
use std::alloc::{AllocError, Global};
use term_table::Table;

/// A chainable operator over its operands, each application with its operands exchanged or not.
pub fn chain(
    alloc: Global,
    table: &mut Table,
    op: Op,
    exchanged: bool,
    kids: &[NodeId],
) -> Result<NodeId, MakeFault>
    requires kids { AreNodes table.old kids.now }
    requires apt { IsTrue (is_link (shape op)) }
    ensures { Builds table.old table.new (chained exchanged op) kids.now result }
{
    if kids.len() == 2 {
        return only_link(table, op, exchanged, kids);
    }
    long_chain(alloc, table, op, exchanged, kids)
}

// The same, for other numbers of operands. Never inlined, so that its caller, which mostly has two, can be.
#[inline(never)]
fn long_chain(
    alloc: Global,
    table: &mut Table,
    op: Op,
    exchanged: bool,
    kids: &[NodeId],
) -> Result<NodeId, MakeFault>
    requires kids { AreNodes table.old kids.now }
    requires apt { IsTrue (is_link (shape op)) }
    requires other { length kids.now ≢ 2 }
    ensures { Builds table.old table.new (chained exchanged op) kids.now result }
{
    alike(table, op, kids)?;
    let links = links(alloc, table, op, exchanged, kids[0], &kids[1..])?;
    let node = conjunction(table, &links)?;
    Ok(node)
}

// The application to two operands.
fn only_link(table: &mut Table, op: Op, turned: bool, kids: &[NodeId]) -> Result<NodeId, MakeFault>
    requires kids { AreNodes table.old kids.now }
    requires apt { IsTrue (is_link (shape op)) }
    requires two { length kids.now ≡ 2 }
    ensures { Builds table.old table.new (chained turned op) kids.now result }
{
    if turned {
        return exchanged(table, op, kids);
    }
    node(table, op, kids)
}

/// The operator over two operands, exchanged.
pub fn exchanged(table: &mut Table, op: Op, kids: &[NodeId]) -> Result<NodeId, MakeFault>
    requires kids { AreNodes table.old kids.now }
    requires apt { IsTrue (is_link (shape op)) }
    ensures { Builds table.old table.new (exchanged op) kids.now result }
{
    let sort = table.rank(op, kids)?;
    let node = pair_of_sort(table, op, kids[1], kids[0], sort)?;
    Ok(node)
}

// The applications to neighbours.
fn links(
    alloc: Global,
    table: &mut Table,
    op: Op,
    exchanged: bool,
    first: NodeId,
    rest: &[NodeId],
) -> Result<Vec<NodeId>, AllocError>
    requires takes { TakesEach table.old op (first ∷ rest.now) }
    requires apt { IsTrue (is_link (shape op)) }
    ensures truths { IfOk result (λ links. All (λ k. IsOfSort table.new k bool) links.items) }
    ensures terms { IfOk result (λ links. trees_at table.new links.items ≡ neighbours (linked exchanged op) (tree table.old first) (trees_at table.old rest.now)) }
    ensures extends { Extends table.old table.new }
{
    let mut links = Vec::new(alloc);
    let mut left = first;
    for right in rest {
        links.push(link(table, op, exchanged, left, *right)?)?;
        left = *right;
    }
    Ok(links)
}

fn link(
    table: &mut Table,
    op: Op,
    exchanged: bool,
    left: NodeId,
    right: NodeId,
) -> Result<NodeId, AllocError>
    requires { TakesEach table.old op (left ∷ right ∷ []) }
    ensures node { IfOk result (λ k. IsNode table.new k) }
    ensures term { IfOk result (λ k. tree table.new k ≡ linked exchanged op (tree table.old left) (tree table.old right)) }
    ensures extends { Extends table.old table.new }
{
    if exchanged {
        pair(table, op, right, left)
    } else {
        pair(table, op, left, right)
    }
}

// The conjunction of two or more.
fn conjunction(table: &mut Table, kids: &[NodeId]) -> Result<NodeId, AllocError>
    requires truths { All (λ k. IsOfSort table.old k bool) kids.now }
    requires several { 1 < length kids.now }
    ensures node { IfOk result (λ k. IsNode table.new k) }
    ensures term { IfOk result (λ k. tree table.new k ≡ itself_or_join term_algebra And (trees_at table.old kids.now)) }
    ensures extends { Extends table.old table.new }
{
    let node = table.intern(Op::And, kids)?;
    Ok(node)
}

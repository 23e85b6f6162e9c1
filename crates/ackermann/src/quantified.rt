//! Applications below quantifiers: one stands so in a quantified formula where any stands in its body, and in another
//! `(f t ..)` where one stands so in some t.

ghost use Rattle.std.specs.Prelude.{◌≡◌, ℕ, ◌<◌, ◌||◌, ◌∷◌, ◌++◌, [], Bool, List, length, take, get_or, IfOk, OnOk};
ghost use Rattle.std.specs.List.{list_any};
ghost use Rattle.smt_terms.specs.declared.ids.NodeId.{NodeId};
ghost use Rattle.smt_terms.specs.Term.{Term};
ghost use Rattle.term_table.specs.Formulas.{Formulas, tree, IsNode, AreNodes};
ghost use Rattle.term_walk.specs.FreeLists.{has_node};
ghost use Rattle.ackermann.specs.Ackermann as plain;
ghost use Rattle.ackermann.specs.Marking.{has_application, AreMarked, AreOperandsDone, AreKnown};

use crate::applications::function_of;
use indexmap::IndexSet;
use quantifier_forms::listing::list_all;
use smt_terms::NodeId;
use std::alloc::{AllocError, Global};
use term_table::Table;
use term_walk::is_binder;

// Whether one of these nodes is marked.
fn has_any(marked: &IndexSet<NodeId>, ids: &[NodeId]) -> bool
    ensures { result ≡ list_any (has_node marked.now.keys) ids.now }
{
    for id in ids {
        if marked.contains(id) {
            return true;
        }
    }
    false
}

// Marks a node where it passes the test of the marks.
fn mark(marked: &mut IndexSet<NodeId>, id: NodeId, passes: bool) -> Result<(), AllocError>
    ensures { (t : Formulas) (test : Term → Bool) (done : List NodeId) → AreMarked t test marked.old.keys done → passes ≡ test (tree t id) → OnOk result (AreMarked t test marked.new.keys (done ++ id ∷ [])) }
{
    if !passes {
        return Ok(());
    }
    marked.insert(id)?;
    Ok(())
}

// Whether an application stands in a node whose operands are done.
fn is_applied(table: &Table, applied: &IndexSet<NodeId>, id: NodeId) -> bool
    requires { IsNode table.now id }
    ensures { (done : List NodeId) → AreMarked table.now has_application applied.now.keys done → AreOperandsDone table.now done id → result ≡ has_application (tree table.now id) }
{
    if function_of(table, id).is_some() {
        return true;
    }
    has_any(applied, table.kids(id))
}

// Whether an application stands below a quantifier in a node whose operands are done.
fn is_refused(table: &Table, refused: &IndexSet<NodeId>, id: NodeId, applied: bool) -> bool
    requires { IsNode table.now id }
    ensures { (done : List NodeId) → applied ≡ has_application (tree table.now id) → AreMarked table.now plain.has_quantified_use refused.now.keys done → AreOperandsDone table.now done id → result ≡ plain.has_quantified_use (tree table.now id) }
{
    if is_binder(table, id) {
        return applied;
    }
    has_any(refused, table.kids(id))
}

// What is known of the nodes that are done: in which of them an application stands, and in which below a quantifier.
#[derive(Drop)]
struct Known {
    applied: IndexSet<NodeId>,
    refused: IndexSet<NodeId>,
}

fn nothing_known(alloc: Global) -> Known
    ensures applied { result.applied.keys ≡ [] }
    ensures refused { result.refused.keys ≡ [] }
{
    Known {
        applied: IndexSet::new(alloc),
        refused: IndexSet::new(alloc),
    }
}

// Does a node whose operands are done.
fn look_at(table: &Table, known: &mut Known, id: NodeId) -> Result<(), AllocError>
    requires { IsNode table.now id }
    ensures { (done : List NodeId) → AreKnown table.now known.old.applied.keys known.old.refused.keys done → AreOperandsDone table.now done id → OnOk result (AreKnown table.now known.new.applied.keys known.new.refused.keys (done ++ id ∷ [])) }
{
    let applied = is_applied(table, &known.applied, id);
    let refused = is_refused(table, &known.refused, id, applied);
    mark(&mut known.applied, id, applied)?;
    mark(&mut known.refused, id, refused)?;
    Ok(())
}

// Does all of these nodes, each behind its operands.
fn look_at_all(table: &Table, known: &mut Known, order: &[NodeId]) -> Result<(), AllocError>
    requires nodes { AreNodes table.now order.now }
    requires order { (i : ℕ) (d : NodeId) → i < length order.now → AreOperandsDone table.now (take i order.now) (get_or order.now i d) }
    requires nothing { AreKnown table.now known.old.applied.keys known.old.refused.keys [] }
    ensures { OnOk result (AreKnown table.now known.new.applied.keys known.new.refused.keys order.now) }
{
    for id in order {
        look_at(table, known, *id)?;
    }
    Ok(())
}

/// Whether an application of a function stands below a quantifier in the term of a node. Such an assertion is refused by
/// `Ack::assert`. It looks at each node once, however often it is shared, and fails only where memory is wanting.
pub fn has_quantified_use(alloc: Global, table: &Table, root: NodeId) -> Result<bool, AllocError>
    requires { IsNode table.now root }
    ensures { IfOk result (λ b. b ≡ plain.has_quantified_use (tree table.now root)) }
{
    let order = list_all(alloc, table, root)?;
    let mut known = nothing_known(alloc);
    look_at_all(table, &mut known, &order)?;
    Ok(known.refused.contains(&root))
}

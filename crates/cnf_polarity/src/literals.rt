//! The connectives that get names, all but `not`, and the literals of a formula's connective part: of a named connective its
//! name, of `(not a)` the other literal of a's, and of anything else the formula itself.

ghost use Rattle.std.specs.Prelude.{◌≡◌, length, filter, All, IfOk, OnOk};
ghost use Rattle.smt_terms.specs.declared.ids.NodeId.{NodeId};
ghost use Rattle.smt_terms.specs.Groups.{Named};
ghost use Rattle.term_table.specs.Formulas.{tree, trees_at, IsNode, AreNodes};
ghost use Rattle.term_walk.specs.Walking.{GrowsTo};
ghost use Rattle.quantifier_forms.specs.Memos.{result_in};
ghost use Rattle.normal_forms.specs.Nodes.{IsFormula};
ghost use Rattle.cnf_polarity.specs.Literals.{IsPartOrder, IsName, names_at, HasLiteral, IsReady, IsReadyForSome};
ghost use Rattle.cnf_polarity.specs.Shapes.{is_named};

use crate::complement::complement;
use crate::shapes::connective_of;
use normal_forms::connective::Connective;
use quantifier_forms::memo::Memo;
use smt_terms::NodeId;
use std::alloc::{AllocError, Global};
use term_table::{Nodes, Table, know_table};

// Whether a node is a connective that gets a name.
fn is_named(table: &Table, id: NodeId) -> bool
    requires { IsNode table.now id }
    ensures { result ≡ is_named (tree table.now id) }
{
    match connective_of(table, id) {
        None | Some(Connective::Not) => false,
        Some(_) => true,
    }
}

/// Those of these nodes that get names.
pub(crate) fn named_connectives(
    alloc: Global,
    table: &Table,
    order: &[NodeId],
) -> Result<Vec<NodeId>, AllocError>
    requires { All (IsFormula table.now) order.now }
    ensures formulas { IfOk result (λ ks. All (IsFormula table.now) ks.items) }
    ensures terms { IfOk result (λ ks. trees_at table.now ks.items ≡ filter is_named (trees_at table.now order.now)) }
{
    let mut named = Vec::new(alloc);
    for id in order {
        if is_named(table, *id) {
            named.push(*id)?;
        }
    }
    Ok(named)
}

// Keeps the literal of a `not`, whose operand is done.
fn keep_negation(table: &mut Table, literals: &mut Memo, id: NodeId) -> Result<(), AllocError>
    requires formula { IsFormula table.old id }
    requires ready { IsReadyForSome table.old literals.old id }
    ensures literal { (ns : Named) → IsReady table.old ns literals.old id → OnOk result (HasLiteral table.new ns literals.new id) }
    ensures others { OnOk result ((k : NodeId) → (k.0 ≡ id.0 → ⊥) → result_in literals.new 0 k ≡ result_in literals.old 0 k) }
    ensures grows { GrowsTo table.old table.new }
    ensures symbols { table.new.symbols ≡ table.old.symbols }
    ensures sorts { table.new.sorts ≡ table.old.sorts }
{
    if let Some(Connective::Not) = connective_of(table, id) {
        let inner = literals.known(0, table.kids(id)[0]);
        let literal = complement(table, inner)?;
        literals.set(0, id, literal)?;
    }
    Ok(())
}

/// The literals of these nodes, which stand behind their operands: the name of each that has one, and the complement of what is
/// below a `not`. A node without a result is its own literal.
pub(crate) fn keep_literals(
    alloc: Global,
    table: &mut Table,
    order: &[NodeId],
    named: &[NodeId],
    names: &Nodes,
) -> Result<Memo, AllocError>
    requires order { All (IsFormula table.old) order.now }
    requires parts { IsPartOrder (trees_at table.old order.now) }
    requires nodes { AreNodes table.old named.now }
    requires named { trees_at table.old named.now ≡ filter is_named (trees_at table.old order.now) }
    requires names { All (IsName table.old) names.now }
    requires number { length names.now ≡ length named.now }
    ensures literals { IfOk result (λ m. All (HasLiteral table.new (names_at table.old named.now names.now) m) order.now) }
    ensures grows { GrowsTo table.old table.new }
    ensures symbols { table.new.symbols ≡ table.old.symbols }
    ensures sorts { table.new.sorts ≡ table.old.sorts }
{
    know_table(table);
    let mut literals = Memo::new(alloc);
    for i in 0..named.len() {
        literals.set(0, named[i], names.get(i))?;
    }
    for id in order {
        keep_negation(table, &mut literals, *id)?;
    }
    Ok(literals)
}

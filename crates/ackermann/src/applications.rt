//! Nodes that are applications: `(f t1 .. tn)` of a symbol f and at least one operand.

ghost use Rattle.std.specs.Prelude.{◌≡◌, All, filter, IfOk, IfSome, is_some};
ghost use Rattle.smt_terms.specs.Term.{symbol, over};
ghost use Rattle.term_table.specs.Formulas.{tree, trees_at, operands, symbol_at, IsNode, IsSymbol, AreNodes};
ghost use Rattle.ackermann.specs.LiveUses.{named_uses, IsUseIn};
ghost use Rattle.ackermann.specs.Removals.{is_use};
ghost use Rattle.ackermann.specs.Replacing.{is_new_use};

use crate::uses::LiveUses;
use smt_terms::{NodeId, SymId};
use smt_values::Op;
use std::alloc::{AllocError, Global};
use term_table::{Table, know_table};

/// The function that a node applies.
pub(crate) fn function_of(table: &Table, id: NodeId) -> Option<SymId>
    requires { IsNode table.now id }
    ensures some { is_some result ≡ is_use (tree table.now id) }
    ensures symbol { IfSome result (IsSymbol table.now) }
    ensures term { IfSome result (λ f. tree table.now id ≡ over (symbol (symbol_at table.now f)) (operands (tree table.now id))) }
{
    let Op::Sym(function) = table.op(id) else {
        return None;
    };
    if table.kids(id).is_empty() {
        return None;
    }
    Some(function)
}

// Whether a node is an application that has no constant.
fn is_new_use(table: &Table, uses: &LiveUses, id: NodeId) -> bool
    requires node { IsNode table.now id }
    requires uses { All (IsUseIn table.now) uses.now }
    ensures { result ≡ is_new_use (named_uses table.now uses.now) (tree table.now id) }
{
    know_table(table);
    function_of(table, id).is_some() && uses.constant_of(id).is_none()
}

/// Those of these nodes that are applications without constants.
pub(crate) fn new_uses(
    alloc: Global,
    table: &Table,
    uses: &LiveUses,
    order: &[NodeId],
) -> Result<Vec<NodeId>, AllocError>
    requires nodes { AreNodes table.now order.now }
    requires uses { All (IsUseIn table.now) uses.now }
    ensures nodes { IfOk result (λ ks. AreNodes table.now ks.items) }
    ensures terms { IfOk result (λ ks. trees_at table.now ks.items ≡ filter (is_new_use (named_uses table.now uses.now)) (trees_at table.now order.now)) }
{
    let mut new = Vec::new(alloc);
    for id in order {
        if is_new_use(table, uses, *id) {
            new.push(*id)?;
        }
    }
    Ok(new)
}

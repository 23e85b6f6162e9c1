//! A formula in the place of a quantified one, wherever that is reached through `and` and `or` alone.

ghost use Rattle.std.specs.Prelude.{◌≡◌, ◌<◌, IfOk, OnOk};
ghost use Rattle.smt_terms.specs.declared.ids.NodeId.{NodeId};
ghost use Rattle.term_table.specs.Formulas.{IsNode};
ghost use Rattle.term_walk.specs.FreeLists.{with_node};
ghost use Rattle.term_walk.specs.Walking.{GrowsTo};
ghost use Rattle.quantifier_forms.specs.Exchanging.{IsExchange, IsExchanged, AreExchanged, AreOperandsExchanged};
ghost use Rattle.quantifier_forms.specs.Memos.{result_in, known_in};
ghost use Rattle.quantifier_forms.specs.Reaching.{AreBare, AreReached};

use crate::memo::Memo;
use crate::reaching::is_bare;
use crate::rebuilding::rebuilt;
use indexmap::IndexSet;
use smt_terms::NodeId;
use std::alloc::{AllocError, Global};
use term_table::{Table, know_table};
use term_walk::is_binder;

// A quantified formula, and what takes its place.
#[derive(Clone, Copy)]
pub(crate) struct Exchange {
    pub(crate) from: NodeId,
    pub(crate) to: NodeId,
}

// Notes that a node is bare.
fn note(bare: &mut IndexSet<NodeId>, id: NodeId) -> Result<(), AllocError>
    ensures { OnOk result (bare.new.keys ≡ with_node bare.old.keys id) }
{
    bare.insert(id)?;
    Ok(())
}

// What becomes of a node whose operands have results. A node that is found to be bare is noted.
fn exchanged(
    alloc: Global,
    table: &mut Table,
    bare: &mut IndexSet<NodeId>,
    memo: &Memo,
    exchange: Exchange,
    id: NodeId,
) -> Result<NodeId, AllocError>
    requires node { IsNode table.old id }
    requires exchange { IsExchange table.old exchange }
    requires bare { AreBare table.old bare.old.keys }
    requires ready { AreOperandsExchanged table.old exchange memo.now id }
    ensures exchanged { IfOk result (IsExchanged table.new exchange id) }
    ensures bare { OnOk result (AreBare table.new bare.new.keys) }
    ensures grows { GrowsTo table.old table.new }
    ensures symbols { table.new.symbols ≡ table.old.symbols }
{
    know_table(table);
    let meant = id.0 == exchange.from.0;
    if meant {
        return Ok(exchange.to);
    }
    if is_binder(table, id) {
        return Ok(id);
    }
    if is_bare(table, bare, id) {
        note(bare, id)?;
        return Ok(id);
    }
    let kids = memo.known_all(alloc, 0, table.kids(id))?;
    let result = rebuilt(table, id, &kids)?;
    Ok(result)
}

// Keeps what becomes of a node whose operands have results, where that is another node.
fn settle(
    alloc: Global,
    table: &mut Table,
    bare: &mut IndexSet<NodeId>,
    memo: &mut Memo,
    exchange: Exchange,
    id: NodeId,
) -> Result<(), AllocError>
    requires node { IsNode table.old id }
    requires exchange { IsExchange table.old exchange }
    requires bare { AreBare table.old bare.old.keys }
    requires ready { AreOperandsExchanged table.old exchange memo.old id }
    requires exchanged { AreExchanged table.old exchange memo.old }
    ensures exchanged { OnOk result (AreExchanged table.new exchange memo.new) }
    ensures done { OnOk result (IsExchanged table.new exchange id (known_in memo.new 0 id)) }
    ensures others { OnOk result ((k : NodeId) → (k.0 ≡ id.0 → ⊥) → result_in memo.new 0 k ≡ result_in memo.old 0 k) }
    ensures bare { OnOk result (AreBare table.new bare.new.keys) }
    ensures grows { GrowsTo table.old table.new }
    ensures symbols { table.new.symbols ≡ table.old.symbols }
{
    let result = exchanged(alloc, table, bare, memo, exchange, id)?;
    let stays = result.0 == id.0;
    if stays {
        return Ok(());
    }
    memo.set(0, id, result)?;
    Ok(())
}

// The root after the exchange. The nodes that are reached from it stand in order.
pub(crate) fn exchange_all(
    alloc: Global,
    table: &mut Table,
    bare: &mut IndexSet<NodeId>,
    order: &[NodeId],
    exchange: Exchange,
    root: NodeId,
) -> Result<NodeId, AllocError>
    requires root { IsNode table.old root }
    requires exchange { IsExchange table.old exchange }
    requires bare { AreBare table.old bare.old.keys }
    requires order { AreReached table.old bare.old.keys root order.now }
    ensures exchanged { IfOk result (IsExchanged table.new exchange root) }
    ensures bare { OnOk result (AreBare table.new bare.new.keys) }
    ensures grows { GrowsTo table.old table.new }
    ensures symbols { table.new.symbols ≡ table.old.symbols }
{
    let mut memo = Memo::new(alloc);
    for id in order {
        settle(alloc, table, bare, &mut memo, exchange, *id)?;
    }
    Ok(memo.known(0, root))
}

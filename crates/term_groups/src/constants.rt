//! Constants that are drawn for the terms of nodes.

ghost use Rattle.std.specs.Prelude.{◌≡◌, IfOk, OnOk, map};
ghost use Rattle.smt_terms.specs.Groups.{draw_each};
ghost use Rattle.smt_terms.specs.Term.{constant};
ghost use Rattle.term_subst.specs.Substituting.{IsLater, NeverGivesGained};
ghost use Rattle.term_table.specs.Formulas.{trees_at, IsNode, AreNodes};
ghost use Rattle.term_walk.specs.Walking.{GrowsTo};
ghost use Rattle.term_subst.specs.State.{Gains};
ghost use Rattle.term_groups.specs.DrawnNodes.{IsDrawnFor};
ghost use Rattle.term_groups.specs.Seen.{named_at, ArePairs};

use smt_terms::{NodeId, SymId};
use smt_values::Op;
use std::alloc::{AllocError, Global};
use term_subst::{Fresh, SymPairs};
use term_table::{Nodes, Table};

/// Constants, each with the node that it stands for, and their own nodes in the same order.
#[derive(Drop)]
pub struct Constants {
    pub symbols: SymPairs,
    pub nodes: Nodes,
}

// A constant, and its node.
#[derive(Clone, Copy)]
struct Constant {
    symbol: SymId,
    node: NodeId,
}

// Draws a constant of this node's sort.
fn draw_constant(table: &mut Table, id: NodeId, fresh: &mut Fresh) -> Result<Constant, AllocError>
    requires { IsNode table.old id }
    ensures drawn { IfOk result (λ c. IsDrawnFor table.old table.new id c.symbol c.node fresh.old fresh.new) }
    ensures gains { Gains table.old table.new fresh.old fresh.new }
{
    let sort = table.sort_of(id);
    let symbol = fresh.next(table, sort)?;
    let node = table.intern(Op::Sym(symbol), &[])?;
    Ok(Constant { symbol, node })
}

/// Draws a constant for each of these nodes, in order, of its sort. Names that were drawn aren't drawn again, also where memory
/// is wanting.
pub fn draw_constants(
    alloc: Global,
    table: &mut Table,
    ids: &[NodeId],
    fresh: &mut Fresh,
) -> Result<Constants, AllocError>
    requires { AreNodes table.old ids.now }
    ensures pairs { IfOk result (λ c. ArePairs table.new c.symbols) }
    ensures nodes { IfOk result (λ c. AreNodes table.new c.nodes) }
    ensures symbols { IfOk result (λ c. named_at table.new c.symbols ≡ (draw_each (trees_at table.old ids.now) fresh.old).symbols) }
    ensures terms { IfOk result (λ c. trees_at table.new c.nodes ≡ map (λ n. constant n.0) (draw_each (trees_at table.old ids.now) fresh.old).symbols) }
    ensures left { OnOk result (fresh.new ≡ (draw_each (trees_at table.old ids.now) fresh.old).names) }
    ensures later { IsLater fresh.old fresh.new }
    ensures drawn { NeverGivesGained fresh.new table.old.symbols table.new.symbols }
    ensures grows { GrowsTo table.old table.new }
{
    let mut symbols = SymPairs::new(alloc);
    let mut nodes = Nodes::new(alloc);
    for id in ids {
        let constant = draw_constant(table, *id, fresh)?;
        symbols.push((constant.symbol, *id))?;
        nodes.push(constant.node)?;
    }
    Ok(Constants { symbols, nodes })
}

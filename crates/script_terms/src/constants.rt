//! Constants of symbols that take no arguments, and negations.

ghost use Rattle.std.specs.Prelude.{◌≡◌, [], Some, IfOk};
ghost use Rattle.smt_terms.specs.Fresh.{Supply, NeverGives};
ghost use Rattle.smt_terms.specs.Connectives.{negated};
ghost use Rattle.smt_terms.specs.Rank.{sort_of};
ghost use Rattle.smt_terms.specs.Sorts.{bool};
ghost use Rattle.term_table.specs.Formulas.{symbol_at, tree, IsSymbol, IsNode};
ghost use Rattle.term_walk.specs.Walking.{GrowsTo};
ghost use Rattle.script_terms.specs.Known.{IsConstant};

use crate::locals::Constant;
use smt_terms::{NodeId, Op, SymId};
use std::alloc::AllocError;
use term_table::{Table, know_table};

/// A symbol that takes no arguments, with its node.
pub fn constant(table: &mut Table, symbol: SymId) -> Result<Constant, AllocError>
    requires within { IsSymbol table.old symbol }
    requires args { (symbol_at table.old symbol).args ≡ [] }
    ensures symbol { IfOk result (λ c. c.symbol ≡ symbol) }
    ensures constant { (supply : Supply) → NeverGives supply (symbol_at table.old symbol).name → IfOk result (IsConstant table.new supply) }
    ensures grows { GrowsTo table.old table.new }
    ensures symbols { table.new.symbols ≡ table.old.symbols }
    ensures sorts { table.new.sorts ≡ table.old.sorts }
{
    know_table(table);
    let node = table.intern(Op::Sym(symbol), &[])?;
    Ok(Constant { symbol, node })
}

/// The node of the negation of a Boolean node.
#[tactic(auto, unfolding(term_table::specs::Formulas::kind))]
pub fn negation_node(table: &mut Table, node: NodeId) -> Result<NodeId, AllocError>
    requires node { IsNode table.old node }
    requires sort { sort_of (tree table.old node) ≡ Some bool }
    ensures node { IfOk result (IsNode table.new) }
    ensures term { IfOk result (λ k. tree table.new k ≡ negated (tree table.old node)) }
    ensures sort { IfOk result (λ k. sort_of (tree table.new k) ≡ Some bool) }
    ensures grows { GrowsTo table.old table.new }
    ensures symbols { table.new.symbols ≡ table.old.symbols }
    ensures sorts { table.new.sorts ≡ table.old.sorts }
{
    let negation = table.intern(Op::Not, &[node])?;
    Ok(negation)
}

//! New applications that become live, in the order in which their constants were drawn: each `(f t1 .. tn)` with R(t1) .. R(tn),
//! what all constants make of its operands. It has to do (`pairs`) with each application of f that became live before it, those
//! of this assertion too.

ghost use Rattle.std.specs.Prelude.{◌≡◌, ◌∷◌, ◌++◌, [], true, length, map, take, None, All, IfOk, OnOk, OnErr};
ghost use Rattle.smt_terms.specs.Groups.{Named};
ghost use Rattle.smt_terms.specs.Term.{constant};
ghost use Rattle.quantifier_forms.specs.Rebuilding.{IsLike};
ghost use Rattle.term_groups.specs.Grouping.{terms_of};
ghost use Rattle.term_groups.specs.Replacing.{AreOperandsReplaced, IsDone, AreOperandsFit};
ghost use Rattle.term_groups.specs.Seen.{named_at};
ghost use Rattle.term_table.specs.Formulas.{tree, trees_at, symbol_at, IsNode, IsSymbol, AreNodes};
ghost use Rattle.term_walk.specs.Walking.{GrowsTo};
ghost use Rattle.ackermann.specs.Ackermann as plain;
ghost use Rattle.ackermann.specs.LiveUses.{constant_in, named_uses, uses_of, said, IsUseIn, IsSettled, AreBehind, AreUsesIn};
ghost use Rattle.ackermann.specs.Removals.{is_use};
ghost use Rattle.ackermann.specs.Replacing.{AreNewConstants, all_named};

use crate::applications::function_of;
use crate::pairs::push_pairs;
use crate::uses::{LiveUse, LiveUses};
use quantifier_forms::memo::Memo;
use smt_terms::{NodeId, SymId};
use std::alloc::{AllocError, Global};
use term_groups::constants::Constants;
use term_table::{Nodes, Table, know_table};

// The application of a node, with its constant.
fn live_use(
    alloc: Global,
    table: &Table,
    memo: &Memo,
    pair: (SymId, NodeId),
    constant_node: NodeId,
) -> Result<LiveUse, AllocError>
    requires symbol { IsSymbol table.now pair.0 }
    requires node { IsNode table.now pair.1 }
    requires applied { is_use (tree table.now pair.1) ≡ true }
    requires fit { AreOperandsFit table.now memo.now pair.1 }
    requires constant { IsNode table.now constant_node }
    requires term { tree table.now constant_node ≡ constant (symbol_at table.now pair.0) }
    requires like { IsLike (tree table.now pair.1) (tree table.now constant_node) }
    ensures live { IfOk result (IsUseIn table.now) }
    ensures node { IfOk result (λ u. u.node ≡ pair.1) }
    ensures symbol { IfOk result (λ u. u.symbol ≡ pair.0) }
    ensures settled { (ns : Named) → AreOperandsReplaced table.now ns memo.now pair.1 → IfOk result (IsSettled table.now ns) }
{
    know_table(table);
    let function = function_of(table, pair.1).unwrap();
    let operands = memo.known_all(alloc, 0, table.kids(pair.1))?;
    Ok(LiveUse {
        node: pair.1,
        function,
        symbol: pair.0,
        constant: constant_node,
        operands,
    })
}

// Puts a new application behind the live ones, and last what it has to do with each of its function.
fn enter(
    alloc: Global,
    table: &mut Table,
    uses: &mut LiveUses,
    new: LiveUse,
    asserts: &mut Nodes,
) -> Result<(), AllocError>
    requires uses { All (IsUseIn table.old) uses.old }
    requires new { IsUseIn table.old new }
    requires absent { constant_in uses.old new.node ≡ None }
    requires asserts { AreNodes table.old asserts.old }
    ensures nodes { OnOk result (AreNodes table.new asserts.new) }
    ensures terms { OnOk result (trees_at table.new asserts.new ≡ trees_at table.old asserts.old ++ map (λ u. said table.old u new) (uses_of new.function uses.old)) }
    ensures ok { OnOk result (uses.new ≡ uses.old ++ new ∷ []) }
    ensures err { OnErr result (uses.new ≡ uses.old) }
    ensures grows { GrowsTo table.old table.new }
    ensures symbols { table.new.symbols ≡ table.old.symbols }
{
    push_pairs(alloc, table, uses, &new, asserts)?;
    uses.push(new)?;
    Ok(())
}

/// Puts the new applications behind the live ones, each with what it has to do with each of its function before it. Where memory
/// is wanting, some of them may stand there.
pub(crate) fn enter_all(
    alloc: Global,
    table: &mut Table,
    uses: &mut LiveUses,
    memo: &Memo,
    constants: &Constants,
) -> Result<Nodes, AllocError>
    requires uses { AreUsesIn table.old uses.old }
    requires constants { AreNewConstants table.old uses.old constants.now }
    requires done { All (λ p. IsDone table.old (all_named table.old uses.old constants.now) memo.now p.1) constants.now.symbols }
    requires behind { AreBehind [] (terms_of (all_named table.old uses.old constants.now)) }
    ensures kept { take (length uses.old) uses.new ≡ uses.old }
    ensures named { OnOk result (named_uses table.new uses.new ≡ all_named table.old uses.old constants.now) }
    ensures live { OnOk result (AreUsesIn table.new uses.new) }
    ensures nodes { IfOk result (AreNodes table.new) }
    ensures terms { IfOk result (λ ks. trees_at table.new ks ≡ plain.pairs (all_named table.old uses.old constants.now) (named_uses table.old uses.old) (named_at table.old constants.now.symbols)) }
    ensures grows { GrowsTo table.old table.new }
    ensures symbols { table.new.symbols ≡ table.old.symbols }
{
    let mut asserts = Nodes::new(alloc);
    for i in 0..constants.symbols.len() {
        know_table(table);
        let new = live_use(
            alloc,
            table,
            memo,
            constants.symbols.get(i),
            constants.nodes.get(i),
        )?;
        enter(alloc, table, uses, new, &mut asserts)?;
    }
    Ok(asserts)
}

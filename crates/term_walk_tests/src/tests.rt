//! Counts and free symbols of small formulas, and walks over one that is far larger as a tree than as nodes. Expected
//! values were worked out by hand.

ghost use Rattle.std.specs.Prelude.{◌≡◌, ◌<◌, false, IsTrue};
ghost use Rattle.smt_terms.specs.Rank.{is_minus};
ghost use Rattle.term_table.specs.Formulas.{AreNodes, IsOpOf};

use smt_terms::NodeId;
use smt_values::{Op, SortId};
use std::alloc::{AllocError, Global};
use std::marker::Brand;
use std::process::Abort;
use std::sync::ledger::{Blank, Ledger};
use std::test::Fail;
use term_table::Table;
use term_walk::{Kept, NodeStep, Steps, count_nodes, free_symbols, walk_all};

// Whether these are nodes of the table.
fn are_nodes(table: &Table, ids: &[NodeId]) -> bool
    ensures { IsTrue result → AreNodes table.now ids.now }
{
    for id in ids {
        if id.0 >= table.len() {
            return false;
        }
    }
    true
}

// The node of an operator over operands that it has a rank over.
fn made(rt: &impl Abort, table: &mut Table, op: Op, kids: &[NodeId]) -> Result<NodeId, AllocError>
    requires numbers { IsOpOf table.old op }
    requires other { is_minus op ≡ false }
{
    if !are_nodes(table, kids) {
        panic!(rt; "an operand is no node of the table");
    }
    match table.rank(op, kids) {
        Ok(_) => table.intern(op, kids),
        Err(fault) => panic!(rt; "{fault:?}"),
    }
}

#[tactic(auto, unfolding(term_table::specs::Formulas::kind, smt_terms::specs::Rank::is_minus))]
fn conjunction(rt: &impl Abort, table: &mut Table, kids: &[NodeId]) -> Result<NodeId, AllocError> {
    made(rt, table, Op::And, kids)
}

#[tactic(auto, unfolding(term_table::specs::Formulas::kind, smt_terms::specs::Rank::is_minus))]
fn disjunction(rt: &impl Abort, table: &mut Table, kids: &[NodeId]) -> Result<NodeId, AllocError> {
    made(rt, table, Op::Or, kids)
}

#[tactic(auto, unfolding(term_table::specs::Formulas::kind, smt_terms::specs::Rank::is_minus))]
fn quantified(rt: &impl Abort, table: &mut Table, kids: &[NodeId]) -> Result<NodeId, AllocError> {
    made(rt, table, Op::Exists, kids)
}

#[tactic(auto, unfolding(term_table::specs::Formulas::kind, smt_terms::specs::Rank::is_minus))]
fn universal(rt: &impl Abort, table: &mut Table, kids: &[NodeId]) -> Result<NodeId, AllocError> {
    made(rt, table, Op::Forall, kids)
}

#[tactic(auto, unfolding(term_table::specs::Formulas::kind, smt_terms::specs::Rank::is_minus))]
fn exclusive(rt: &impl Abort, table: &mut Table, kids: &[NodeId]) -> Result<NodeId, AllocError> {
    made(rt, table, Op::Xor, kids)
}

// The constant of sort Bool with this letter for its name.
#[tactic(auto, unfolding(term_table::specs::Formulas::kind, smt_terms::specs::Rank::is_minus))]
fn constant(rt: &impl Abort, table: &mut Table, letter: u8) -> Result<NodeId, AllocError> {
    assert!(rt; letter != b'|' && letter != b'\\');
    let symbol = table.symbol(&[letter], &[], SortId(0))?;
    let node = made(rt, table, Op::Sym(symbol), &[])?;
    Ok(node)
}

// So many conjunctions of two disjunctions, `(and (or x a) (or x b))`, each over the one before it.
fn pairs(rt: &impl Abort, table: &mut Table, turns: u64) -> Result<NodeId, AllocError> {
    let a = constant(rt, table, b'a')?;
    let b = constant(rt, table, b'b')?;
    let mut node = constant(rt, table, b'x')?;
    for _ in 0..turns {
        let left = disjunction(rt, table, &[node, a])?;
        let right = disjunction(rt, table, &[node, b])?;
        node = conjunction(rt, table, &[left, right])?;
    }
    Ok(node)
}

// A step that counts how often it is taken.
#[derive(Drop)]
struct Calls {
    count: u64,
}

impl NodeStep for Calls {
    type Out = ();

    ghost Meaning = { Unit {0} };

    ghost meaning = { λ _. tt };

    ghost related = { λ _ _ _ _. Unit {0} };

    fn step<L: Ledger>(
        &mut self,
        _table: &mut Table,
        _id: NodeId,
        _kept: &Kept<()>,
        steps: &mut Steps<L>,
    ) -> Result<(), AllocError> {
        steps.tick();
        self.count = self.count.wrapping_add(1);
        Ok(())
    }

    ghost stays = { λ _ _ _ _ _ _ related. related };
}

// How many steps walks from these nodes take, one after the other, counted on this blank.
fn walked<L: Ledger>(
    rt: &impl Abort,
    alloc: Global,
    table: &mut Table,
    roots: &[NodeId],
    blank: Blank,
) -> Result<u64, AllocError>
    requires name { blank.name ≡ L.name }
    requires parts { blank.parts ≡ L.parts }
    requires some { 0 < L.parts }
{
    assert!(rt; are_nodes(table, roots));
    let mut calls = Calls { count: 0 };
    let mut kept = Kept::new(alloc);
    let mut steps = Steps::<L>::new(blank);
    walk_all(alloc, table, &mut calls, &mut kept, roots, &mut steps)?;
    Ok(calls.count)
}

// The number of subterms of these nodes.
fn counted(
    rt: &impl Abort,
    alloc: Global,
    table: &Table,
    ids: &[NodeId],
) -> Result<u64, AllocError> {
    assert!(rt; are_nodes(table, ids));
    count_nodes(alloc, table, ids)
}

// Whether the free symbols of a node have these letters for their names, in this order.
fn is_free_in(
    rt: &impl Abort,
    alloc: Global,
    table: &Table,
    id: NodeId,
    letters: &[u8],
) -> Result<bool, AllocError> {
    assert!(rt; id.0 < table.len());
    let symbols = free_symbols(alloc, table, id)?;
    if symbols.len() != letters.len() {
        return Ok(false);
    }
    for place in 0..symbols.len() {
        if table.symbol_name(symbols[place]) != &letters[place..place + 1] {
            return Ok(false);
        }
    }
    Ok(true)
}

#[test]
fn a_repeated_operand_counts_once(rt: HostRuntime) -> Result<(), Fail> {
    let mut table = Table::new(rt.alloc());
    counts_once(&rt, rt.alloc(), &mut table)?;
    Ok(())
}

fn counts_once(rt: &impl Abort, alloc: Global, table: &mut Table) -> Result<(), AllocError> {
    let a = constant(rt, table, b'a')?;
    let b = constant(rt, table, b'b')?;
    let both = conjunction(rt, table, &[b, a, b])?;
    assert!(rt; counted(rt, alloc, table, &[b, a, b])? == 2);
    assert!(rt; counted(rt, alloc, table, &[both])? == 3);
    assert!(rt; counted(rt, alloc, table, &[])? == 0);
    Ok(())
}

#[test]
fn free_symbols_come_once_in_order(rt: HostRuntime) -> Result<(), Fail> {
    let mut table = Table::new(rt.alloc());
    come_in_order(&rt, rt.alloc(), &mut table)?;
    Ok(())
}

fn come_in_order(rt: &impl Abort, alloc: Global, table: &mut Table) -> Result<(), AllocError> {
    let a = constant(rt, table, b'a')?;
    let b = constant(rt, table, b'b')?;
    let both = conjunction(rt, table, &[b, a, b])?;
    assert!(rt; is_free_in(rt, alloc, table, both, b"ba")?);
    let bound = quantified(rt, table, &[b, both])?;
    assert!(rt; is_free_in(rt, alloc, table, bound, b"a")?);
    let closed = quantified(rt, table, &[a, bound])?;
    assert!(rt; is_free_in(rt, alloc, table, closed, b"")?);
    Ok(())
}

#[test]
fn quantifiers_bind_their_own_bodies_alone(rt: HostRuntime) -> Result<(), Fail> {
    let mut table = Table::new(rt.alloc());
    bind_their_own(&rt, rt.alloc(), &mut table)?;
    Ok(())
}

fn bind_their_own(rt: &impl Abort, alloc: Global, table: &mut Table) -> Result<(), AllocError> {
    let x = constant(rt, table, b'x')?;
    let y = constant(rt, table, b'y')?;
    let differ = exclusive(rt, table, &[y, x])?;
    let inner = quantified(rt, table, &[y, differ])?;
    let outer = universal(rt, table, &[x, inner])?;
    assert!(rt; is_free_in(rt, alloc, table, outer, b"")?);
    let bound = universal(rt, table, &[y, y])?;
    let beside = exclusive(rt, table, &[y, bound])?;
    assert!(rt; is_free_in(rt, alloc, table, beside, b"y")?);
    Ok(())
}

#[test]
fn shared_subterms_are_met_once(rt: HostRuntime) -> Result<(), Fail> {
    let mut table = Table::new(rt.alloc());
    are_met_once(&rt, rt.alloc(), &mut table)?;
    Ok(())
}

fn are_met_once(rt: &impl Abort, alloc: Global, table: &mut Table) -> Result<(), AllocError> {
    let root = pairs(rt, table, 100)?;
    assert!(rt; counted(rt, alloc, table, &[root])? == 303);
    let steps = walked::<Brand>(rt, alloc, table, &[root, root], Blank::new(1))?;
    assert!(rt; steps == 303);
    assert!(rt; is_free_in(rt, alloc, table, root, b"xab")?);
    Ok(())
}

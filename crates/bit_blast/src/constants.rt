//! The constants of bit vectors, and their bits.

ghost use Rattle.std.specs.Prelude.{◌≡◌, ◌+◌, ◌-◌, ◌<◌, ◌≤◌, ◌++◌, true, filter, take, drop, length, All, IfOk, OnOk};
ghost use Rattle.std.specs.List.{flat_map};
ghost use Rattle.bit_blast.specs.Blasted.{bit_of, width_of};
ghost use Rattle.bit_blast.specs.Subterms.{is_vector_term, constant_bits, is_kept, symbol_in, IsVector, AreDrawn, AreKept};
ghost use Rattle.smt_terms.specs.declared.ids.NodeId.{NodeId};
ghost use Rattle.normal_forms.specs.Nodes.{IsFormula};
ghost use Rattle.term_groups.specs.Seen.{named_at};
ghost use Rattle.term_table.specs.Formulas.{tree, trees_at, IsNode, AreNodes};
ghost use Rattle.term_walk.specs.Walking.{GrowsTo};

use crate::bit_lists::BitLists;
use smt_terms::{NodeId, Op};
use std::alloc::{AllocError, Global};
use term_groups::constants::Constants;
use term_groups::making::equation;
use term_table::{Nodes, Table, know_table};

// Whether a node is a symbol of the sort of a bit vector.
fn is_vector(table: &Table, id: NodeId) -> bool
    requires { IsNode table.now id }
    ensures { result ≡ is_vector_term (tree table.now id) }
{
    match table.op(id) {
        Op::Sym(_) => table.sort_of(id).width().is_some(),
        _ => false,
    }
}

/// Those of these nodes that are constants of bit vectors.
pub(crate) fn vector_constants(
    alloc: Global,
    table: &Table,
    order: &[NodeId],
) -> Result<Vec<NodeId>, AllocError>
    requires { AreNodes table.now order.now }
    ensures nodes { IfOk result (λ ks. AreNodes table.now ks.items) }
    ensures terms { IfOk result (λ ks. trees_at table.now ks.items ≡ filter is_vector_term (trees_at table.now order.now)) }
{
    let mut vectors = Vec::new(alloc);
    for id in order {
        if is_vector(table, *id) {
            vectors.push(*id)?;
        }
    }
    Ok(vectors)
}

// How many bits a constant has.
fn width(table: &Table, vector: NodeId) -> u32
    requires { IsVector table.now vector }
    ensures { result ≡ width_of (symbol_in (tree table.now vector)).result }
{
    table.sort_of(vector).width().unwrap_or(0)
}

// The bit at this place of a constant, as a formula: that it is one.
fn bit_at(table: &mut Table, vector: NodeId, place: u32) -> Result<NodeId, AllocError>
    requires vector { IsVector table.old vector }
    requires place { place < width_of (symbol_in (tree table.old vector)).result }
    ensures formula { IfOk result (IsFormula table.new) }
    ensures term { IfOk result (λ k. tree table.new k ≡ bit_of (symbol_in (tree table.old vector)) place) }
    ensures grows { GrowsTo table.old table.new }
    ensures symbols { table.new.symbols ≡ table.old.symbols }
    ensures sorts { table.new.sorts ≡ table.old.sorts }
{
    know_table(table);
    let high = place;
    let low = place;
    let part = table.intern(Op::Extract { high, low }, &[vector])?;
    let one = table.intern(Op::Bits { width: 1, bits: 1 }, &[])?;
    let bit = equation(table, part, one)?;
    Ok(bit)
}

// Puts the bits of a constant last.
fn put_bits(table: &mut Table, vector: NodeId, bits: &mut Vec<NodeId>) -> Result<(), AllocError>
    requires vector { IsVector table.old vector }
    requires bits { AreNodes table.old bits.old.items }
    ensures nodes { OnOk result (AreNodes table.new bits.new.items) }
    ensures terms { OnOk result (trees_at table.new bits.new.items ≡ trees_at table.old bits.old.items ++ constant_bits (tree table.old vector)) }
    ensures grows { GrowsTo table.old table.new }
    ensures symbols { table.new.symbols ≡ table.old.symbols }
    ensures sorts { table.new.sorts ≡ table.old.sorts }
{
    for place in 0..width(table, vector) {
        let bit = bit_at(table, vector, place)?;
        bits.push(bit)?;
    }
    Ok(())
}

/// The bits of constants, as formulas.
pub(crate) fn all_bits_of(
    alloc: Global,
    table: &mut Table,
    vectors: &[NodeId],
) -> Result<Vec<NodeId>, AllocError>
    requires { All (IsVector table.old) vectors.now }
    ensures nodes { IfOk result (λ ks. AreNodes table.new ks.items) }
    ensures terms { IfOk result (λ ks. trees_at table.new ks.items ≡ flat_map constant_bits (trees_at table.old vectors.now)) }
    ensures grows { GrowsTo table.old table.new }
    ensures symbols { table.new.symbols ≡ table.old.symbols }
    ensures sorts { table.new.sorts ≡ table.old.sorts }
{
    let mut bits = Vec::new(alloc);
    for vector in vectors {
        put_bits(table, *vector, &mut bits)?;
    }
    Ok(bits)
}

// The nodes from one place up to another.
fn nodes_between(
    alloc: Global,
    nodes: &Nodes,
    start: usize,
    end: usize,
) -> Result<Vec<NodeId>, AllocError>
    requires start { start ≤ end }
    requires end { end ≤ length nodes.now }
    ensures { IfOk result (λ ks. ks.items ≡ take (end - start) (drop start nodes.now)) }
{
    let mut some = Vec::new(alloc);
    for place in start..end {
        some.push(nodes.get(place))?;
    }
    Ok(some)
}

/// The bits of constants: for each the constants that were drawn for its bits.
pub(crate) fn keep_vectors(
    alloc: Global,
    table: &Table,
    vectors: &[NodeId],
    constants: &Constants,
) -> Result<BitLists, AllocError>
    requires { AreDrawn table.now vectors.now constants.now }
    ensures kept { IfOk result (AreKept table.now (named_at table.now constants.now.symbols)) }
    ensures done { IfOk result (λ ls. All (λ k. is_kept ls k ≡ true) vectors.now) }
{
    know_table(table);
    let mut lists = BitLists::new(alloc);
    let mut start = 0;
    for vector in vectors {
        prove!(start <= constants.nodes.len());
        let end = start + width(table, *vector) as usize;
        let bits = nodes_between(alloc, &constants.nodes, start, end)?;
        lists.set(*vector, bits)?;
        start = end;
    }
    Ok(lists)
}

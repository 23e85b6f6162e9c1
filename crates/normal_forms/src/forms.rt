//! The two forms of a connective, of its operands' positive forms and negative forms.

ghost use Rattle.std.specs.Prelude.{◌≡◌, ◌<◌, ◌≤◌, length, All, IfOk};
ghost use Rattle.smt_terms.specs.Connectives.{both, either};
ghost use Rattle.smt_terms.specs.Term.{Term};
ghost use Rattle.term_table.specs.Formulas.{tree, trees_at};
ghost use Rattle.term_walk.specs.Walking.{GrowsTo};
ghost use Rattle.normal_forms.specs.Nnf as plain;
ghost use Rattle.normal_forms.specs.Nodes.{IsFormula};
ghost use Rattle.normal_forms.specs.Shape.{Takes, kind_seen};

use crate::connective::Connective;
use crate::making::{both, conjunction, disjunction, either, truth};
use smt_terms::NodeId;
use std::alloc::AllocError;
use term_table::Table;

// `(or (and a b) (and c d))`.
fn either_both(
    table: &mut Table,
    a: NodeId,
    b: NodeId,
    c: NodeId,
    d: NodeId,
) -> Result<NodeId, AllocError>
    requires a { IsFormula table.old a }
    requires b { IsFormula table.old b }
    requires c { IsFormula table.old c }
    requires d { IsFormula table.old d }
    ensures formula { IfOk result (IsFormula table.new) }
    ensures term { IfOk result (λ k. tree table.new k ≡ either (both (tree table.old a) (tree table.old b)) (both (tree table.old c) (tree table.old d))) }
    ensures grows { GrowsTo table.old table.new }
    ensures symbols { table.new.symbols ≡ table.old.symbols }
    ensures sorts { table.new.sorts ≡ table.old.sorts }
{
    let left = both(table, a, b)?;
    let right = both(table, c, d)?;
    either(table, left, right)
}

// `(and (or a b) (or c d))`.
fn both_either(
    table: &mut Table,
    a: NodeId,
    b: NodeId,
    c: NodeId,
    d: NodeId,
) -> Result<NodeId, AllocError>
    requires a { IsFormula table.old a }
    requires b { IsFormula table.old b }
    requires c { IsFormula table.old c }
    requires d { IsFormula table.old d }
    ensures formula { IfOk result (IsFormula table.new) }
    ensures term { IfOk result (λ k. tree table.new k ≡ both (either (tree table.old a) (tree table.old b)) (either (tree table.old c) (tree table.old d))) }
    ensures grows { GrowsTo table.old table.new }
    ensures symbols { table.new.symbols ≡ table.old.symbols }
    ensures sorts { table.new.sorts ≡ table.old.sorts }
{
    let left = either(table, a, b)?;
    let right = either(table, c, d)?;
    both(table, left, right)
}

// Whether two formulas differ.
fn differ(table: &mut Table, ps: &[NodeId], ns: &[NodeId]) -> Result<NodeId, AllocError>
    requires ps { All (IsFormula table.old) ps.now }
    requires ns { All (IsFormula table.old) ns.now }
    requires number { length ps.now ≡ 2 }
    requires same { length ns.now ≡ 2 }
    ensures formula { IfOk result (IsFormula table.new) }
    ensures term { IfOk result (λ k. tree table.new k ≡ plain.differ (trees_at table.old ps.now) (trees_at table.old ns.now)) }
    ensures grows { GrowsTo table.old table.new }
    ensures symbols { table.new.symbols ≡ table.old.symbols }
    ensures sorts { table.new.sorts ≡ table.old.sorts }
{
    either_both(table, ps[0], ns[1], ns[0], ps[1])
}

// Whether two formulas agree.
fn agree(table: &mut Table, ps: &[NodeId], ns: &[NodeId]) -> Result<NodeId, AllocError>
    requires ps { All (IsFormula table.old) ps.now }
    requires ns { All (IsFormula table.old) ns.now }
    requires number { length ps.now ≡ 2 }
    requires same { length ns.now ≡ 2 }
    ensures formula { IfOk result (IsFormula table.new) }
    ensures term { IfOk result (λ k. tree table.new k ≡ plain.agree (trees_at table.old ps.now) (trees_at table.old ns.now)) }
    ensures grows { GrowsTo table.old table.new }
    ensures symbols { table.new.symbols ≡ table.old.symbols }
    ensures sorts { table.new.sorts ≡ table.old.sorts }
{
    both_either(table, ns[0], ps[1], ps[0], ns[1])
}

// Whether all of some formulas differ.
fn all_differ(table: &mut Table, ps: &[NodeId], ns: &[NodeId]) -> Result<NodeId, AllocError>
    requires ps { All (IsFormula table.old) ps.now }
    requires ns { All (IsFormula table.old) ns.now }
    requires number { 2 ≤ length ps.now }
    requires same { length ns.now ≡ length ps.now }
    ensures formula { IfOk result (IsFormula table.new) }
    ensures term { IfOk result (λ k. tree table.new k ≡ plain.positive_distinct (trees_at table.old ps.now) (trees_at table.old ns.now)) }
    ensures grows { GrowsTo table.old table.new }
    ensures symbols { table.new.symbols ≡ table.old.symbols }
    ensures sorts { table.new.sorts ≡ table.old.sorts }
{
    if ps.len() > 2 {
        return truth(table, false);
    }
    differ(table, ps, ns)
}

// Whether two of some formulas agree.
fn some_agree(table: &mut Table, ps: &[NodeId], ns: &[NodeId]) -> Result<NodeId, AllocError>
    requires ps { All (IsFormula table.old) ps.now }
    requires ns { All (IsFormula table.old) ns.now }
    requires number { 2 ≤ length ps.now }
    requires same { length ns.now ≡ length ps.now }
    ensures formula { IfOk result (IsFormula table.new) }
    ensures term { IfOk result (λ k. tree table.new k ≡ plain.negative_distinct (trees_at table.old ps.now) (trees_at table.old ns.now)) }
    ensures grows { GrowsTo table.old table.new }
    ensures symbols { table.new.symbols ≡ table.old.symbols }
    ensures sorts { table.new.sorts ≡ table.old.sorts }
{
    if ps.len() > 2 {
        return truth(table, true);
    }
    agree(table, ps, ns)
}

// The positive form.
pub(crate) fn positive_form(
    table: &mut Table,
    connective: Connective,
    ps: &[NodeId],
    ns: &[NodeId],
) -> Result<NodeId, AllocError>
    requires ps { All (IsFormula table.old) ps.now }
    requires ns { All (IsFormula table.old) ns.now }
    requires number { Takes connective (length ps.now) }
    requires same { length ns.now ≡ length ps.now }
    ensures formula { IfOk result (IsFormula table.new) }
    ensures term { (t : Term) → IfOk result (λ k. tree table.new k ≡ plain.positive (kind_seen connective) t (trees_at table.old ps.now) (trees_at table.old ns.now)) }
    ensures grows { GrowsTo table.old table.new }
    ensures symbols { table.new.symbols ≡ table.old.symbols }
    ensures sorts { table.new.sorts ≡ table.old.sorts }
{
    match connective {
        Connective::Not => Ok(ns[0]),
        Connective::And => conjunction(table, ps),
        Connective::Or => disjunction(table, ps),
        Connective::Xor => differ(table, ps, ns),
        Connective::Implies => either(table, ns[0], ps[1]),
        Connective::Equal => agree(table, ps, ns),
        Connective::Distinct => all_differ(table, ps, ns),
        Connective::Ite => both_either(table, ns[0], ps[1], ps[0], ps[2]),
    }
}

// The negative form.
pub(crate) fn negative_form(
    table: &mut Table,
    connective: Connective,
    ps: &[NodeId],
    ns: &[NodeId],
) -> Result<NodeId, AllocError>
    requires ps { All (IsFormula table.old) ps.now }
    requires ns { All (IsFormula table.old) ns.now }
    requires number { Takes connective (length ps.now) }
    requires same { length ns.now ≡ length ps.now }
    ensures formula { IfOk result (IsFormula table.new) }
    ensures term { (t : Term) → IfOk result (λ k. tree table.new k ≡ plain.negative (kind_seen connective) t (trees_at table.old ps.now) (trees_at table.old ns.now)) }
    ensures grows { GrowsTo table.old table.new }
    ensures symbols { table.new.symbols ≡ table.old.symbols }
    ensures sorts { table.new.sorts ≡ table.old.sorts }
{
    match connective {
        Connective::Not => Ok(ps[0]),
        Connective::And => disjunction(table, ns),
        Connective::Or => conjunction(table, ns),
        Connective::Xor => agree(table, ps, ns),
        Connective::Implies => both(table, ps[0], ns[1]),
        Connective::Equal => differ(table, ps, ns),
        Connective::Distinct => some_agree(table, ps, ns),
        Connective::Ite => both_either(table, ns[0], ns[1], ps[0], ns[2]),
    }
}

//! Connectives over formulas.

ghost use Rattle.std.specs.Prelude.{◌≡◌, [], ◌≤◌, length, All, IfOk};
ghost use Rattle.smt_terms.specs.Connectives.{truth_term, negated, all_of, any_of, both, either};
ghost use Rattle.term_table.specs.Formulas.{tree, trees_at};
ghost use Rattle.term_walk.specs.Walking.{GrowsTo};
ghost use Rattle.normal_forms.specs.Nodes.{IsFormula};

use smt_terms::NodeId;
use smt_values::{Op, SortId};
use std::alloc::AllocError;
use term_table::Table;

/// `true` or `false`.
#[tactic(auto, unfolding(term_table::specs::Formulas::kind))]
pub fn truth(table: &mut Table, value: bool) -> Result<NodeId, AllocError>
    ensures formula { IfOk result (IsFormula table.new) }
    ensures term { IfOk result (λ k. tree table.new k ≡ truth_term value) }
    ensures grows { GrowsTo table.old table.new }
    ensures symbols { table.new.symbols ≡ table.old.symbols }
    ensures sorts { table.new.sorts ≡ table.old.sorts }
{
    let id = table.intern_of_sort(Op::Truth(value), &[], SortId::BOOL)?;
    Ok(id)
}

/// `(not p)`.
#[tactic(auto, unfolding(term_table::specs::Formulas::kind))]
pub fn negation(table: &mut Table, id: NodeId) -> Result<NodeId, AllocError>
    requires { IsFormula table.old id }
    ensures formula { IfOk result (IsFormula table.new) }
    ensures term { IfOk result (λ k. tree table.new k ≡ negated (tree table.old id)) }
    ensures grows { GrowsTo table.old table.new }
    ensures symbols { table.new.symbols ≡ table.old.symbols }
    ensures sorts { table.new.sorts ≡ table.old.sorts }
{
    let id = table.intern_of_sort(Op::Not, &[id], SortId::BOOL)?;
    Ok(id)
}

/// The `and` of two formulas or more.
#[tactic(auto, unfolding(term_table::specs::Formulas::kind))]
pub fn conjunction(table: &mut Table, kids: &[NodeId]) -> Result<NodeId, AllocError>
    requires kids { All (IsFormula table.old) kids.now }
    requires several { 2 ≤ length kids.now }
    ensures formula { IfOk result (IsFormula table.new) }
    ensures term { IfOk result (λ k. tree table.new k ≡ all_of (trees_at table.old kids.now)) }
    ensures grows { GrowsTo table.old table.new }
    ensures symbols { table.new.symbols ≡ table.old.symbols }
    ensures sorts { table.new.sorts ≡ table.old.sorts }
{
    let id = table.intern_of_sort(Op::And, kids, SortId::BOOL)?;
    Ok(id)
}

/// The `or` of two formulas or more.
#[tactic(auto, unfolding(term_table::specs::Formulas::kind))]
pub fn disjunction(table: &mut Table, kids: &[NodeId]) -> Result<NodeId, AllocError>
    requires kids { All (IsFormula table.old) kids.now }
    requires several { 2 ≤ length kids.now }
    ensures formula { IfOk result (IsFormula table.new) }
    ensures term { IfOk result (λ k. tree table.new k ≡ any_of (trees_at table.old kids.now)) }
    ensures grows { GrowsTo table.old table.new }
    ensures symbols { table.new.symbols ≡ table.old.symbols }
    ensures sorts { table.new.sorts ≡ table.old.sorts }
{
    let id = table.intern_of_sort(Op::Or, kids, SortId::BOOL)?;
    Ok(id)
}

/// `(and a b)`.
pub fn both(table: &mut Table, a: NodeId, b: NodeId) -> Result<NodeId, AllocError>
    requires a { IsFormula table.old a }
    requires b { IsFormula table.old b }
    ensures formula { IfOk result (IsFormula table.new) }
    ensures term { IfOk result (λ k. tree table.new k ≡ both (tree table.old a) (tree table.old b)) }
    ensures grows { GrowsTo table.old table.new }
    ensures symbols { table.new.symbols ≡ table.old.symbols }
    ensures sorts { table.new.sorts ≡ table.old.sorts }
{
    conjunction(table, &[a, b])
}

/// `(or a b)`.
pub fn either(table: &mut Table, a: NodeId, b: NodeId) -> Result<NodeId, AllocError>
    requires a { IsFormula table.old a }
    requires b { IsFormula table.old b }
    ensures formula { IfOk result (IsFormula table.new) }
    ensures term { IfOk result (λ k. tree table.new k ≡ either (tree table.old a) (tree table.old b)) }
    ensures grows { GrowsTo table.old table.new }
    ensures symbols { table.new.symbols ≡ table.old.symbols }
    ensures sorts { table.new.sorts ≡ table.old.sorts }
{
    disjunction(table, &[a, b])
}

//! Implications and equations over nodes.

ghost use Rattle.std.specs.Prelude.{◌≡◌, IfOk};
ghost use Rattle.normal_forms.specs.Nodes.{IsFormula};
ghost use Rattle.smt_terms.specs.Connectives.{implies, equal};
ghost use Rattle.smt_terms.specs.Rank.{sort_of};
ghost use Rattle.term_table.specs.Formulas.{tree, IsNode};
ghost use Rattle.term_walk.specs.Walking.{GrowsTo};

use smt_terms::{NodeId, SortId};
use smt_values::Op;
use std::alloc::AllocError;
use term_table::{Table, know_table};

/// `(=> a b)`.
#[tactic(auto, unfolding(term_table::specs::Formulas::kind))]
pub fn implication(table: &mut Table, a: NodeId, b: NodeId) -> Result<NodeId, AllocError>
    requires a { IsFormula table.old a }
    requires b { IsFormula table.old b }
    ensures formula { IfOk result (IsFormula table.new) }
    ensures term { IfOk result (λ k. tree table.new k ≡ implies (tree table.old a) (tree table.old b)) }
    ensures grows { GrowsTo table.old table.new }
    ensures symbols { table.new.symbols ≡ table.old.symbols }
    ensures sorts { table.new.sorts ≡ table.old.sorts }
{
    let id = table.intern_of_sort(Op::Implies, &[a, b], SortId::BOOL)?;
    Ok(id)
}

/// `(= a b)`, over two terms of one sort.
#[tactic(auto, unfolding(term_table::specs::Formulas::kind))]
pub fn equation(table: &mut Table, a: NodeId, b: NodeId) -> Result<NodeId, AllocError>
    requires a { IsNode table.old a }
    requires b { IsNode table.old b }
    requires sort { sort_of (tree table.old a) ≡ sort_of (tree table.old b) }
    ensures formula { IfOk result (IsFormula table.new) }
    ensures term { IfOk result (λ k. tree table.new k ≡ equal (tree table.old a) (tree table.old b)) }
    ensures grows { GrowsTo table.old table.new }
    ensures symbols { table.new.symbols ≡ table.old.symbols }
    ensures sorts { table.new.sorts ≡ table.old.sorts }
{
    know_table(table);
    let id = table.intern_of_sort(Op::Equal, &[a, b], SortId::BOOL)?;
    Ok(id)
}

//! Prenex form: quantifiers over a matrix, and no quantified formula that is reached from the matrix's root through `and`
//! and `or` alone. It is `prenex t` of the negation normal form: while one is reached, the leftmost goes in front, over
//! fresh names.

ghost use Rattle.std.specs.Prelude.{◌≡◌, ◌<◌, [], IsTrue, IfOk, OnOk};
ghost use Rattle.smt_terms.specs.Shapes.{is_prenex};
ghost use Rattle.smt_terms.specs.SubstLaws.{GivesNone, names_within};
ghost use Rattle.term_table.specs.Formulas.{tree};
ghost use Rattle.term_walk.specs.Walking.{GrowsTo};
ghost use Rattle.term_subst.specs.Substituting.{IsLater, NeverGivesGained};
ghost use Rattle.normal_forms.specs.Nnf as form;
ghost use Rattle.normal_forms.specs.Prenex as plain;
ghost use Rattle.normal_forms.specs.Nodes.{IsFormula};
ghost use Rattle.quantifier_forms.specs.Pulling.{AreFronts, behind_fronts, fronts_at, all_turns};

use crate::exchanging::{Exchange, exchange_all};
use crate::pulling::{Bound, close, pull};
use crate::reaching::{first_binder, reached};
use indexmap::IndexSet;
use normal_forms::negation_normal_form::nnf;
use smt_terms::NodeId;
use std::alloc::{AllocError, Global};
use std::marker::Brand;
use std::sync::ledger::{Blank, Ledger};
use term_subst::Fresh;
use term_table::Table;
use term_walk::Steps;

// The negation normal form, its steps counted in a ledger of their own.
fn normal<L: Ledger>(
    alloc: Global,
    table: &mut Table,
    id: NodeId,
    blank: Blank,
) -> Result<NodeId, AllocError>
    requires formula { IsFormula table.old id }
    requires name { blank.name ≡ L.name }
    requires parts { blank.parts ≡ L.parts }
    requires some { 0 < L.parts }
    ensures formula { IfOk result (IsFormula table.new) }
    ensures term { IfOk result (λ k. tree table.new k ≡ form.nnf (tree table.old id)) }
    ensures grows { GrowsTo table.old table.new }
    ensures symbols { table.new.symbols ≡ table.old.symbols }
{
    let mut steps = Steps::<L>::new(blank);
    nnf(alloc, table, id, &mut steps)
}

// Pulls quantifiers in front while one is reached, the leftmost first. The answer is the matrix.
fn pull_all(
    alloc: Global,
    table: &mut Table,
    root: NodeId,
    prefix: &mut Vec<Bound>,
    fresh: &mut Fresh,
) -> Result<NodeId, AllocError>
    requires root { IsFormula table.old root }
    requires prefix { prefix.old.items ≡ [] }
    requires names { GivesNone fresh.old (names_within (tree table.old root)) }
    ensures formula { IfOk result (IsFormula table.new) }
    ensures prefix { OnOk result (AreFronts table.new prefix.new.items) }
    ensures term { IfOk result (λ k. all_turns (tree table.old root) fresh.old ≡ (behind_fronts (fronts_at table.new prefix.new.items) (tree table.new k), fresh.new)) }
    ensures later { IsLater fresh.old fresh.new }
    ensures drawn { NeverGivesGained fresh.new table.old.symbols table.new.symbols }
    ensures grows { GrowsTo table.old table.new }
{
    let mut bare = IndexSet::new(alloc);
    let mut matrix = root;
    let mut order = reached(alloc, table, &bare, matrix)?;
    while let Some(from) = first_binder(table, &order) {
        let to = pull(alloc, table, from, prefix, fresh)?;
        matrix = exchange_all(
            alloc,
            table,
            &mut bare,
            &order,
            Exchange { from, to },
            matrix,
        )?;
        order = reached(alloc, table, &bare, matrix)?;
    }
    Ok(matrix)
}

/// The prenex form of a formula, which says the same: `normal_forms::laws::prenex_keeps_values`. The variables of the
/// quantifiers in front get fresh names, in order; the names can't give the name of a symbol or of a variable in the formula.
/// The form may be exponentially larger than the formula. No name is drawn twice, also where memory is wanting.
pub fn prenex(
    alloc: Global,
    table: &mut Table,
    id: NodeId,
    fresh: &mut Fresh,
) -> Result<NodeId, AllocError>
    requires formula { IsFormula table.old id }
    requires names { GivesNone fresh.old (names_within (tree table.old id)) }
    ensures formula { IfOk result (IsFormula table.new) }
    ensures term { IfOk result (λ k. tree table.new k ≡ (plain.prenex (tree table.old id) fresh.old).0) }
    ensures left { OnOk result (fresh.new ≡ (plain.prenex (tree table.old id) fresh.old).1) }
    ensures shape { IfOk result (λ k. IsTrue (is_prenex (tree table.new k))) }
    ensures later { IsLater fresh.old fresh.new }
    ensures drawn { NeverGivesGained fresh.new table.old.symbols table.new.symbols }
    ensures grows { GrowsTo table.old table.new }
{
    let formula = normal::<Brand>(alloc, table, id, Blank::new(1))?;
    let mut prefix = Vec::new(alloc);
    let matrix = pull_all(alloc, table, formula, &mut prefix, fresh)?;
    let result = close(alloc, table, &prefix, matrix)?;
    Ok(result)
}

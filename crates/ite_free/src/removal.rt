//! `ite` over terms removed from a formula, over the nodes of a table. With a constant v for each distinct `ite` of another sort
//! than Bool outside quantifiers, and R for what the constants make of a term, the group is, for each `(ite c a b)` in order,
//!
//! - `(=> R(c) (= v R(a)))` and `(=> (not R(c)) (= v R(b)))`,
//!
//! and last R of the formula. R of v's `ite` is v, R of another `(f t ..)` is `(f R(t) ..)`, and R of a quantified formula is the
//! formula itself.

ghost use Rattle.std.specs.Prelude.{◌≡◌, ◌++◌, ◌∷◌, [], true, filter, flat_map, All, IfOk, OnOk};
ghost use Rattle.ite_free.specs.Ite as plain;
ghost use Rattle.ite_free.specs.Removing.{is_choice, AreConstants};
ghost use Rattle.normal_forms.specs.Nodes.{IsFormula};
ghost use Rattle.quantifier_forms.specs.Memos.{known_in};
ghost use Rattle.smt_terms.specs.Connectives.{implies, equal};
ghost use Rattle.smt_terms.specs.Groups.{Named};
ghost use Rattle.smt_terms.specs.Rank.{sort_of};
ghost use Rattle.smt_terms.specs.Sorts.{Symbol};
ghost use Rattle.smt_terms.specs.Term.{constant};
ghost use Rattle.term_groups.specs.Replacing.{AreInOrder, AreOperandsReplaced, IsDone, IsFit, AreOperandsFit};
ghost use Rattle.term_groups.specs.Seen.{named_at, IsGroup};
ghost use Rattle.term_subst.specs.Substituting.{IsLater, NeverGivesGained};
ghost use Rattle.term_table.specs.Formulas.{tree, trees_at, IsNode, AreNodes};
ghost use Rattle.term_walk.specs.Walking.{GrowsTo};

use normal_forms::making::negation;
use normal_forms::shapes::is_formula;
use quantifier_forms::memo::Memo;
use smt_terms::NodeId;
use smt_values::Op;
use std::alloc::{AllocError, Global};
use term_groups::constants::{Constants, draw_constants};
use term_groups::making::{equation, implication};
use term_groups::parts::{Outside, parts};
use term_groups::replacing::{keep_constants, replace_all};
use term_subst::{Fresh, Group};
use term_table::{Nodes, Table, know_table};

// Whether a node is an `ite` of another sort than Bool.
fn is_term_ite(table: &Table, id: NodeId) -> bool
    requires { IsNode table.now id }
    ensures { result ≡ is_choice (tree table.now id) }
{
    match table.op(id) {
        Op::Ite => !is_formula(table, id),
        _ => false,
    }
}

// Those of these nodes that are an `ite` over terms.
fn term_ites(alloc: Global, table: &Table, order: &[NodeId]) -> Result<Vec<NodeId>, AllocError>
    requires { AreNodes table.now order.now }
    ensures nodes { IfOk result (λ ks. AreNodes table.now ks.items) }
    ensures terms { IfOk result (λ ks. trees_at table.now ks.items ≡ filter is_choice (trees_at table.now order.now)) }
{
    let mut ites = Vec::new(alloc);
    for id in order {
        if is_term_ite(table, *id) {
            ites.push(*id)?;
        }
    }
    Ok(ites)
}

// What becomes of these nodes with the constants in place.
fn replace_ites(
    alloc: Global,
    table: &mut Table,
    order: &[NodeId],
    constants: &Constants,
) -> Result<Memo, AllocError>
    requires nodes { AreNodes table.old order.now }
    requires order { AreInOrder (trees_at table.old order.now) }
    requires constants { AreConstants table.old constants.now }
    ensures done { IfOk result (λ m. All (IsDone table.new (named_at table.old constants.now.symbols) m) order.now) }
    ensures grows { GrowsTo table.old table.new }
    ensures symbols { table.new.symbols ≡ table.old.symbols }
{
    know_table(table);
    let mut memo = keep_constants(alloc, constants)?;
    replace_all(alloc, table, order, &mut memo)?;
    Ok(memo)
}

// Puts last that a constant is a term where a condition holds.
fn define_where(
    table: &mut Table,
    condition: NodeId,
    constant: NodeId,
    term: NodeId,
    asserts: &mut Nodes,
) -> Result<(), AllocError>
    requires condition { IsFormula table.old condition }
    requires constant { IsNode table.old constant }
    requires term { IsNode table.old term }
    requires sort { sort_of (tree table.old constant) ≡ sort_of (tree table.old term) }
    requires asserts { AreNodes table.old asserts.old }
    ensures nodes { OnOk result (AreNodes table.new asserts.new) }
    ensures terms { OnOk result (trees_at table.new asserts.new ≡ trees_at table.old asserts.old ++ implies (tree table.old condition) (equal (tree table.old constant) (tree table.old term)) ∷ []) }
    ensures grows { GrowsTo table.old table.new }
    ensures symbols { table.new.symbols ≡ table.old.symbols }
{
    let is_term = equation(table, constant, term)?;
    let holds = implication(table, condition, is_term)?;
    asserts.push(holds)?;
    Ok(())
}

// Puts last that the constant of an `ite` is what that says.
fn define(
    table: &mut Table,
    memo: &Memo,
    ite: NodeId,
    asserts: &mut Nodes,
) -> Result<(), AllocError>
    requires node { IsNode table.old ite }
    requires choice { is_choice (tree table.old ite) ≡ true }
    requires constant { IsFit table.old memo.now ite }
    requires operands { AreOperandsFit table.old memo.now ite }
    requires asserts { AreNodes table.old asserts.old }
    ensures nodes { OnOk result (AreNodes table.new asserts.new) }
    ensures terms { (ns : Named) (v : Symbol) → tree table.old (known_in memo.now 0 ite) ≡ constant v → AreOperandsReplaced table.old ns memo.now ite
        → OnOk result (trees_at table.new asserts.new ≡ trees_at table.old asserts.old ++ plain.defining ns v (tree table.old ite)) }
    ensures grows { GrowsTo table.old table.new }
    ensures symbols { table.new.symbols ≡ table.old.symbols }
{
    let kids = table.kids(ite);
    let constant = memo.known(0, ite);
    let condition = memo.known(0, kids[0]);
    let first = memo.known(0, kids[1]);
    let second = memo.known(0, kids[2]);
    define_where(table, condition, constant, first, asserts)?;
    let otherwise = negation(table, condition)?;
    define_where(table, otherwise, constant, second, asserts)?;
    Ok(())
}

// That the constants are what their `ite`s say, in order.
fn definitions(
    alloc: Global,
    table: &mut Table,
    memo: &Memo,
    constants: &Constants,
) -> Result<Nodes, AllocError>
    requires constants { AreConstants table.old constants.now }
    requires done { All (λ p. IsDone table.old (named_at table.old constants.now.symbols) memo.now p.1) constants.now.symbols }
    ensures nodes { IfOk result (AreNodes table.new) }
    ensures terms { IfOk result (λ ks. trees_at table.new ks ≡ flat_map (λ n. plain.defining (named_at table.old constants.now.symbols) n.0 n.1) (named_at table.old constants.now.symbols)) }
    ensures grows { GrowsTo table.old table.new }
    ensures symbols { table.new.symbols ≡ table.old.symbols }
{
    let mut asserts = Nodes::new(alloc);
    for i in 0..constants.symbols.len() {
        define(table, memo, constants.symbols.get(i).1, &mut asserts)?;
    }
    Ok(asserts)
}

/// The group in the place of a formula without `ite` over terms: its constants, each with the `ite` that it stands for, and its
/// assertions. What it means: `laws::ite_makes_groups`. No name is drawn twice, also where memory is wanting.
pub fn remove_ite(
    alloc: Global,
    table: &mut Table,
    id: NodeId,
    fresh: &mut Fresh,
) -> Result<Group, AllocError>
    requires formula { IsFormula table.old id }
    ensures group { IfOk result (λ g. IsGroup table.new g (plain.ite (tree table.old id) fresh.old).group) }
    ensures left { OnOk result (fresh.new ≡ (plain.ite (tree table.old id) fresh.old).names) }
    ensures later { IsLater fresh.old fresh.new }
    ensures drawn { NeverGivesGained fresh.new table.old.symbols table.new.symbols }
    ensures grows { GrowsTo table.old table.new }
{
    let order = parts(alloc, table, &Outside, id)?;
    let ites = term_ites(alloc, table, &order)?;
    let constants = draw_constants(alloc, table, &ites, fresh)?;
    know_table(table);
    let memo = replace_ites(alloc, table, &order, &constants)?;
    let mut asserts = definitions(alloc, table, &memo, &constants)?;
    asserts.push(memo.known(0, id))?;
    Ok(Group {
        symbols: constants.symbols,
        asserts,
    })
}

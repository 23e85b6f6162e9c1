//! Clauses for a formula, over the nodes of a table, with a name n for each distinct connective but `not` of its connective part,
//! and with those clauses alone that the polarities of its occurrences ask for. With the literals of the operands, and - for the
//! other literal:
//!
//! - and: where positive `(or -n a)` for each a; where negative `(or n -a -b ..)`
//! - or: `(or -n a b ..)`; and `(or n -a)` for each a
//! - => a b: `(or -n -a b)`; and `(or n a)`, `(or n -b)`
//! - xor, distinct of two: `(or -n a b)`, `(or -n -a -b)`; and `(or n -a b)`, `(or n a -b)`
//! - =: `(or -n -a b)`, `(or -n a -b)`; and `(or n a b)`, `(or n -a -b)`
//! - ite c a b: `(or -n -c a)`, `(or -n c b)`; and `(or n -c -a)`, `(or n c -b)`
//! - distinct of more: -n; and none
//!
//! and last the literal of the formula. A formula that is a clause stays.

ghost use Rattle.std.specs.Prelude.{◌≡◌, ◌∷◌, ◌++◌, [], Bool, List, true, false, length, filter, All, IfOk, OnOk};
ghost use Rattle.smt_terms.specs.declared.ids.NodeId.{NodeId};
ghost use Rattle.smt_terms.specs.Groups.{Named};
ghost use Rattle.smt_terms.specs.Sorts.{Symbol};
ghost use Rattle.smt_terms.specs.Term.{constant};
ghost use Rattle.cnf_polarity.specs.Cnf as plain;
ghost use Rattle.cnf_polarity.specs.Literals.{HaveFormulas, HaveLiterals, IsName, names_at};
ghost use Rattle.cnf_polarity.specs.Marks.{has_sign, marked};
ghost use Rattle.cnf_polarity.specs.Naming.{IsOrderOf, AreNamed};
ghost use Rattle.cnf_polarity.specs.Putting.{Puts, all_clauses};
ghost use Rattle.cnf_polarity.specs.Shapes.{has_connective, is_named};
ghost use Rattle.normal_forms.specs.Nodes.{IsFormula};
ghost use Rattle.term_groups.specs.Seen.{IsGroup};
ghost use Rattle.term_subst.specs.Substituting.{IsLater, NeverGivesGained};
ghost use Rattle.term_table.specs.Formulas.{tree, trees_at, IsNode, AreNodes};
ghost use Rattle.term_walk.specs.Walking.{GrowsTo};

use crate::defining::{negative_clauses, positive_clauses};
use crate::literals::{keep_literals, named_connectives};
use crate::polarities::{Occurrences, all_occurrences};
use crate::shapes::{connective_of, is_clause, is_connective};
use quantifier_forms::listing::Choice;
use quantifier_forms::memo::Memo;
use smt_terms::NodeId;
use std::alloc::{AllocError, Global};
use term_groups::constants::draw_constants;
use term_groups::parts::parts;
use term_subst::{Fresh, Group, SymPairs};
use term_table::{Nodes, Table, know_table};

// The connective part of a formula, and the atoms at its end.
#[derive(Clone, Copy)]
struct ConnectivePart;

impl Choice for ConnectivePart {
    ghost skips = { λ _ _. false };

    ghost opens = { λ _ t k. has_connective (tree t k) };

    fn skips(&self, _id: NodeId) -> bool {
        false
    }

    fn opens(&self, table: &Table, id: NodeId) -> bool {
        is_connective(table, id)
    }
}

// A group of one assertion.
fn alone(alloc: Global, id: NodeId) -> Result<Group, AllocError>
    ensures symbols { IfOk result (λ g. g.symbols ≡ []) }
    ensures asserts { IfOk result (λ g. g.asserts ≡ id ∷ []) }
{
    let mut asserts = Nodes::new(alloc);
    asserts.push(id)?;
    Ok(Group {
        symbols: SymPairs::new(alloc),
        asserts,
    })
}

// Puts the clauses of a connective last, of its name and its operands' literals, for the polarities in which it occurs.
fn define(
    alloc: Global,
    table: &mut Table,
    occurrences: &Occurrences,
    literals: &Memo,
    id: NodeId,
    name: NodeId,
    asserts: &mut Nodes,
) -> Result<(), AllocError>
    requires node { IsNode table.old id }
    requires name { IsFormula table.old name }
    requires literals { has_connective (tree table.old id) ≡ true → HaveFormulas table.old literals.now id }
    requires asserts { All (IsFormula table.old) asserts.old }
    ensures formulas { OnOk result (All (IsFormula table.new) asserts.new) }
    ensures puts { (ns : Named) (os : List plain.Occurrence) (f : Symbol) → tree table.old name ≡ constant f → (has_connective (tree table.old id) ≡ true → HaveLiterals table.old ns literals.now id)
        → ((sign : Bool) → has_sign sign (marked occurrences.now id) ≡ plain.occurs sign (tree table.old id) os)
        → OnOk result (Puts table.old table.new asserts.old asserts.new (plain.clauses ns os f (tree table.old id))) }
    ensures grows { GrowsTo table.old table.new }
    ensures symbols { table.new.symbols ≡ table.old.symbols }
    ensures sorts { table.new.sorts ≡ table.old.sorts }
{
    let Some(connective) = connective_of(table, id) else {
        return Ok(());
    };
    let operands = literals.known_all(alloc, 0, table.kids(id))?;
    let polarities = occurrences.of(id);
    if polarities.positive {
        positive_clauses(alloc, table, connective, name, &operands, asserts)?;
    }
    if polarities.negative {
        negative_clauses(alloc, table, connective, name, &operands, asserts)?;
    }
    Ok(())
}

// Puts the clauses of these connectives last, in order, each of the name at its place.
fn define_all(
    alloc: Global,
    table: &mut Table,
    occurrences: &Occurrences,
    literals: &Memo,
    named: &[NodeId],
    names: &Nodes,
    asserts: &mut Nodes,
) -> Result<(), AllocError>
    requires nodes { AreNodes table.old named.now }
    requires names { All (IsName table.old) names.now }
    requires number { length names.now ≡ length named.now }
    requires literals { All (λ k. has_connective (tree table.old k) ≡ true → HaveLiterals table.old (names_at table.old named.now names.now) literals.now k) named.now }
    requires asserts { All (IsFormula table.old) asserts.old }
    ensures formulas { OnOk result (All (IsFormula table.new) asserts.new) }
    ensures puts { (os : List plain.Occurrence) → All (λ k. (sign : Bool) → has_sign sign (marked occurrences.now k) ≡ plain.occurs sign (tree table.old k) os) named.now
        → OnOk result (Puts table.old table.new asserts.old asserts.new (all_clauses (names_at table.old named.now names.now) os (names_at table.old named.now names.now))) }
    ensures grows { GrowsTo table.old table.new }
    ensures symbols { table.new.symbols ≡ table.old.symbols }
    ensures sorts { table.new.sorts ≡ table.old.sorts }
{
    for i in 0..named.len() {
        define(
            alloc,
            table,
            occurrences,
            literals,
            named[i],
            names.get(i),
            asserts,
        )?;
    }
    Ok(())
}

// The parts of a formula's connective part, each behind its operands.
fn connective_parts(alloc: Global, table: &Table, id: NodeId) -> Result<Vec<NodeId>, AllocError>
    requires { IsFormula table.now id }
    ensures order { IfOk result (λ ks. IsOrderOf table.now id ks.items) }
    ensures named { IfOk result (λ ks. filter is_named (trees_at table.now ks.items) ≡ plain.named_connectives (tree table.now id)) }
{
    let order = parts(alloc, table, &ConnectivePart, id)?;
    Ok(order)
}

// The clauses of a formula whose connectives have these names, and its literal last.
fn named_clauses(
    alloc: Global,
    table: &mut Table,
    id: NodeId,
    order: &[NodeId],
    named: &[NodeId],
    names: &Nodes,
) -> Result<Nodes, AllocError>
    requires formula { IsFormula table.old id }
    requires order { IsOrderOf table.old id order.now }
    requires named { AreNamed table.old order.now named.now names.now }
    ensures nodes { IfOk result (λ ks. AreNodes table.new ks) }
    ensures clauses { IfOk result (λ ks. trees_at table.new ks ≡ all_clauses (names_at table.old named.now names.now) (plain.occurrences true (tree table.old id)) (names_at table.old named.now names.now) ++ plain.literal (names_at table.old named.now names.now) (tree table.old id) ∷ []) }
    ensures grows { GrowsTo table.old table.new }
    ensures symbols { table.new.symbols ≡ table.old.symbols }
    ensures sorts { table.new.sorts ≡ table.old.sorts }
{
    know_table(table);
    let occurrences = all_occurrences(alloc, table, order, id)?;
    let literals = keep_literals(alloc, table, order, named, names)?;
    let mut asserts = Nodes::new(alloc);
    define_all(
        alloc,
        table,
        &occurrences,
        &literals,
        named,
        names,
        &mut asserts,
    )?;
    asserts.push(literals.known(0, id))?;
    Ok(asserts)
}

/// The group of clauses in the place of a formula: the names, each with the connective that it stands for, and the clauses. What
/// it means: `laws::cnf_makes_groups`. No name is drawn twice, also where memory is wanting.
pub fn cnf(
    alloc: Global,
    table: &mut Table,
    id: NodeId,
    fresh: &mut Fresh,
) -> Result<Group, AllocError>
    requires formula { IsFormula table.old id }
    ensures group { IfOk result (λ g. IsGroup table.new g (plain.cnf (tree table.old id) fresh.old).group) }
    ensures left { OnOk result (fresh.new ≡ (plain.cnf (tree table.old id) fresh.old).names) }
    ensures later { IsLater fresh.old fresh.new }
    ensures drawn { NeverGivesGained fresh.new table.old.symbols table.new.symbols }
    ensures grows { GrowsTo table.old table.new }
{
    if is_clause(table, id) {
        return alone(alloc, id);
    }
    let order = connective_parts(alloc, table, id)?;
    let named = named_connectives(alloc, table, &order)?;
    let names = draw_constants(alloc, table, &named, fresh)?;
    let asserts = named_clauses(alloc, table, id, &order, &named, &names.nodes)?;
    Ok(Group {
        symbols: names.symbols,
        asserts,
    })
}

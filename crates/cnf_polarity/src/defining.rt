//! The clauses of one name, of the literals of its connective's operands: those that `clauses` lists.

ghost use Rattle.std.specs.Prelude.{◌≡◌, ◌<◌, ◌∷◌, [], length, map, All, IfOk, OnOk};
ghost use Rattle.smt_terms.specs.Connectives.{any_of, either};
ghost use Rattle.term_table.specs.Formulas.{tree, trees_at};
ghost use Rattle.term_walk.specs.Walking.{GrowsTo};
ghost use Rattle.normal_forms.specs.Nodes.{IsFormula};
ghost use Rattle.normal_forms.specs.Shape.{Takes, kind_seen};
ghost use Rattle.cnf_polarity.specs.Cnf as plain;
ghost use Rattle.cnf_polarity.specs.Putting.{Puts};

use crate::complement::complement;
use normal_forms::connective::Connective;
use normal_forms::making::{disjunction, either};
use smt_terms::NodeId;
use std::alloc::{AllocError, Global};
use term_table::{Nodes, Table};

// Puts the clause of three literals last.
fn triple(
    table: &mut Table,
    a: NodeId,
    b: NodeId,
    c: NodeId,
    asserts: &mut Nodes,
) -> Result<(), AllocError>
    requires a { IsFormula table.old a }
    requires b { IsFormula table.old b }
    requires c { IsFormula table.old c }
    requires asserts { All (IsFormula table.old) asserts.old }
    ensures puts { OnOk result (Puts table.old table.new asserts.old asserts.new (plain.triple (tree table.old a) (tree table.old b) (tree table.old c) ∷ [])) }
    ensures grows { GrowsTo table.old table.new }
    ensures symbols { table.new.symbols ≡ table.old.symbols }
    ensures sorts { table.new.sorts ≡ table.old.sorts }
{
    let clause = disjunction(table, &[a, b, c])?;
    asserts.push(clause)
}

// Puts the clause of two literals last.
fn pair(table: &mut Table, a: NodeId, b: NodeId, asserts: &mut Nodes) -> Result<(), AllocError>
    requires a { IsFormula table.old a }
    requires b { IsFormula table.old b }
    requires asserts { All (IsFormula table.old) asserts.old }
    ensures puts { OnOk result (Puts table.old table.new asserts.old asserts.new (either (tree table.old a) (tree table.old b) ∷ [])) }
    ensures grows { GrowsTo table.old table.new }
    ensures symbols { table.new.symbols ≡ table.old.symbols }
    ensures sorts { table.new.sorts ≡ table.old.sorts }
{
    let clause = either(table, a, b)?;
    asserts.push(clause)
}

// Where the first literal holds, so does each of the others: one clause each, the first's other literal being given.
fn each(
    table: &mut Table,
    other: NodeId,
    literals: &[NodeId],
    asserts: &mut Nodes,
) -> Result<(), AllocError>
    requires other { IsFormula table.old other }
    requires literals { All (IsFormula table.old) literals.now }
    requires asserts { All (IsFormula table.old) asserts.old }
    ensures puts { OnOk result (Puts table.old table.new asserts.old asserts.new (map (either (tree table.old other)) (trees_at table.old literals.now))) }
    ensures grows { GrowsTo table.old table.new }
    ensures symbols { table.new.symbols ≡ table.old.symbols }
    ensures sorts { table.new.sorts ≡ table.old.sorts }
{
    for literal in literals {
        pair(table, other, *literal, asserts)?;
    }
    Ok(())
}

// The clause of one literal and some others.
fn any(
    alloc: Global,
    table: &mut Table,
    first: NodeId,
    others: &[NodeId],
    asserts: &mut Nodes,
) -> Result<(), AllocError>
    requires first { IsFormula table.old first }
    requires others { All (IsFormula table.old) others.now }
    requires some { 0 < length others.now }
    requires asserts { All (IsFormula table.old) asserts.old }
    ensures puts { OnOk result (Puts table.old table.new asserts.old asserts.new (any_of (tree table.old first ∷ trees_at table.old others.now) ∷ [])) }
    ensures grows { GrowsTo table.old table.new }
    ensures symbols { table.new.symbols ≡ table.old.symbols }
    ensures sorts { table.new.sorts ≡ table.old.sorts }
{
    let mut literals = Vec::with_capacity(alloc, others.len() + 1)?;
    literals.push(first)?;
    literals.extend_from_slice(others)?;
    let clause = disjunction(table, &literals)?;
    asserts.push(clause)
}

// The other literals of these.
fn complements(
    alloc: Global,
    table: &mut Table,
    literals: &[NodeId],
) -> Result<Vec<NodeId>, AllocError>
    requires literals { All (IsFormula table.old) literals.now }
    ensures formulas { IfOk result (λ ks. All (IsFormula table.new) ks.items) }
    ensures terms { IfOk result (λ ks. trees_at table.new ks.items ≡ map plain.complement (trees_at table.old literals.now)) }
    ensures number { IfOk result (λ ks. length ks.items ≡ length literals.now) }
    ensures grows { GrowsTo table.old table.new }
    ensures symbols { table.new.symbols ≡ table.old.symbols }
    ensures sorts { table.new.sorts ≡ table.old.sorts }
{
    let mut others = Vec::with_capacity(alloc, literals.len())?;
    for literal in literals {
        others.push(complement(table, *literal)?)?;
    }
    Ok(others)
}

// `(or l a b)` and `(or l -a -b)`: where l doesn't hold, a and b differ.
fn differ_unless(
    table: &mut Table,
    l: NodeId,
    a: NodeId,
    b: NodeId,
    asserts: &mut Nodes,
) -> Result<(), AllocError>
    requires l { IsFormula table.old l }
    requires a { IsFormula table.old a }
    requires b { IsFormula table.old b }
    requires asserts { All (IsFormula table.old) asserts.old }
    ensures puts { OnOk result (Puts table.old table.new asserts.old asserts.new (plain.triple (tree table.old l) (tree table.old a) (tree table.old b) ∷ plain.triple (tree table.old l) (plain.complement (tree table.old a)) (plain.complement (tree table.old b)) ∷ [])) }
    ensures grows { GrowsTo table.old table.new }
    ensures symbols { table.new.symbols ≡ table.old.symbols }
    ensures sorts { table.new.sorts ≡ table.old.sorts }
{
    triple(table, l, a, b, asserts)?;
    let not_a = complement(table, a)?;
    let not_b = complement(table, b)?;
    triple(table, l, not_a, not_b, asserts)
}

// `(or l -a b)` and `(or l a -b)`: where l doesn't hold, a and b agree.
fn agree_unless(
    table: &mut Table,
    l: NodeId,
    a: NodeId,
    b: NodeId,
    asserts: &mut Nodes,
) -> Result<(), AllocError>
    requires l { IsFormula table.old l }
    requires a { IsFormula table.old a }
    requires b { IsFormula table.old b }
    requires asserts { All (IsFormula table.old) asserts.old }
    ensures puts { OnOk result (Puts table.old table.new asserts.old asserts.new (plain.triple (tree table.old l) (plain.complement (tree table.old a)) (tree table.old b) ∷ plain.triple (tree table.old l) (tree table.old a) (plain.complement (tree table.old b)) ∷ [])) }
    ensures grows { GrowsTo table.old table.new }
    ensures symbols { table.new.symbols ≡ table.old.symbols }
    ensures sorts { table.new.sorts ≡ table.old.sorts }
{
    let not_a = complement(table, a)?;
    triple(table, l, not_a, b, asserts)?;
    let not_b = complement(table, b)?;
    triple(table, l, a, not_b, asserts)
}

// `(or l -c a)` and `(or l c b)`: where l doesn't hold, a holds where c does, and b elsewhere.
fn choose_unless(
    table: &mut Table,
    l: NodeId,
    c: NodeId,
    a: NodeId,
    b: NodeId,
    asserts: &mut Nodes,
) -> Result<(), AllocError>
    requires l { IsFormula table.old l }
    requires c { IsFormula table.old c }
    requires a { IsFormula table.old a }
    requires b { IsFormula table.old b }
    requires asserts { All (IsFormula table.old) asserts.old }
    ensures puts { OnOk result (Puts table.old table.new asserts.old asserts.new (plain.triple (tree table.old l) (plain.complement (tree table.old c)) (tree table.old a) ∷ plain.triple (tree table.old l) (tree table.old c) (tree table.old b) ∷ [])) }
    ensures grows { GrowsTo table.old table.new }
    ensures symbols { table.new.symbols ≡ table.old.symbols }
    ensures sorts { table.new.sorts ≡ table.old.sorts }
{
    let not_c = complement(table, c)?;
    triple(table, l, not_c, a, asserts)?;
    triple(table, l, c, b, asserts)
}

/// Puts last the clauses that say that the connective holds where its name does.
pub(crate) fn positive_clauses(
    alloc: Global,
    table: &mut Table,
    connective: Connective,
    name: NodeId,
    ls: &[NodeId],
    asserts: &mut Nodes,
) -> Result<(), AllocError>
    requires name { IsFormula table.old name }
    requires ls { All (IsFormula table.old) ls.now }
    requires number { Takes connective (length ls.now) }
    requires asserts { All (IsFormula table.old) asserts.old }
    ensures puts { OnOk result (Puts table.old table.new asserts.old asserts.new (plain.positive_clauses (kind_seen connective) (tree table.old name) (trees_at table.old ls.now))) }
    ensures grows { GrowsTo table.old table.new }
    ensures symbols { table.new.symbols ≡ table.old.symbols }
    ensures sorts { table.new.sorts ≡ table.old.sorts }
{
    let unnamed = complement(table, name)?;
    match connective {
        Connective::Not => Ok(()),
        Connective::And => each(table, unnamed, ls, asserts),
        Connective::Or => any(alloc, table, unnamed, ls, asserts),
        Connective::Implies => {
            let first = complement(table, ls[0])?;
            triple(table, unnamed, first, ls[1], asserts)
        }
        Connective::Xor => differ_unless(table, unnamed, ls[0], ls[1], asserts),
        Connective::Equal => agree_unless(table, unnamed, ls[0], ls[1], asserts),
        Connective::Ite => choose_unless(table, unnamed, ls[0], ls[1], ls[2], asserts),
        Connective::Distinct if ls.len() > 2 => asserts.push(unnamed),
        Connective::Distinct => differ_unless(table, unnamed, ls[0], ls[1], asserts),
    }
}

/// Puts last the clauses that say that the name holds where its connective does.
pub(crate) fn negative_clauses(
    alloc: Global,
    table: &mut Table,
    connective: Connective,
    name: NodeId,
    ls: &[NodeId],
    asserts: &mut Nodes,
) -> Result<(), AllocError>
    requires name { IsFormula table.old name }
    requires ls { All (IsFormula table.old) ls.now }
    requires number { Takes connective (length ls.now) }
    requires asserts { All (IsFormula table.old) asserts.old }
    ensures puts { OnOk result (Puts table.old table.new asserts.old asserts.new (plain.negative_clauses (kind_seen connective) (tree table.old name) (trees_at table.old ls.now))) }
    ensures grows { GrowsTo table.old table.new }
    ensures symbols { table.new.symbols ≡ table.old.symbols }
    ensures sorts { table.new.sorts ≡ table.old.sorts }
{
    match connective {
        Connective::Not => Ok(()),
        Connective::And => {
            let others = complements(alloc, table, ls)?;
            any(alloc, table, name, &others, asserts)
        }
        Connective::Or => {
            let others = complements(alloc, table, ls)?;
            each(table, name, &others, asserts)
        }
        Connective::Implies => {
            pair(table, name, ls[0], asserts)?;
            let second = complement(table, ls[1])?;
            pair(table, name, second, asserts)
        }
        Connective::Xor => agree_unless(table, name, ls[0], ls[1], asserts),
        Connective::Equal => differ_unless(table, name, ls[0], ls[1], asserts),
        Connective::Ite => {
            let first = complement(table, ls[1])?;
            let second = complement(table, ls[2])?;
            choose_unless(table, name, ls[0], first, second, asserts)
        }
        Connective::Distinct if ls.len() > 2 => Ok(()),
        Connective::Distinct => agree_unless(table, name, ls[0], ls[1], asserts),
    }
}

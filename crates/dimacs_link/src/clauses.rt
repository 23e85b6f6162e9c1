//! Clauses as text.

ghost use Rattle.std.specs.Prelude.{◌≡◌, [], ◌∷◌, ◌++◌, true, List, All, length, flat_map, decimal, IfOk, IfErr, OnOk, Some, None, if◌then◌else◌};
ghost use Rattle.smt_terms.specs.Sorts.{Symbol};
ghost use Rattle.term_table.specs.Formulas.{tree, trees_at, IsNode, AreNodes};
ghost use Rattle.dimacs_link.specs.Clauses.{disjuncts, are_parts, is_true_part, has_true, is_clause, literals, literals_in, clauses, literal_text, literals_text, clause_text, header_text, text_of, IsLinkFault};
ghost use Rattle.dimacs_link.specs.Constants.{constants_at, AreConstants, AreNumbersOf};

use crate::literals::{Literal, Part, part_of};
use crate::numbers::Numbers;
use itoa::Buffer;
use smt_terms::{NodeId, SymId};
use smt_values::Op;
use std::alloc::{AllocError, Global};
use std::slice;
use term_table::Table;
use thiserror::Error;

/// Why terms aren't written as clauses.
#[derive(Clone, Copy, Debug, PartialEq, Eq, Error)]
pub enum LinkFault {
    /// The term at this place, counted from 0, isn't a clause. It is the first such one.
    #[error("term {root} isn't a clause")]
    NotClauses { root: u64 },
    /// There is no memory.
    #[error("want of memory")]
    Memory,
}

impl From<AllocError> for LinkFault {
    ghost use Rattle.std.specs.Prelude.{◌≡◌};
    ghost use Rattle.dimacs_link.specs.declared.clauses.LinkFault.TheVariants.{Memory};

    ghost from_gives = { λ _ made. made ≡ Memory };

    fn from(_error: AllocError) -> LinkFault {
        LinkFault::Memory
    }
}

fn is_true(part: Part) -> bool
    ensures { result ≡ is_true_part (Some part) }
{
    match part {
        Part::Fixed(value) => value,
        Part::Named(_) => false,
    }
}

// Whether a literal among these nodes is `true`, or None where one of them isn't a literal.
fn truth_among(table: &Table, numbers: &Numbers, operands: &[NodeId]) -> Option<bool>
    requires { AreNodes table.now operands.now }
    ensures { (cs : List Symbol) → AreNumbersOf table.now cs numbers.now → result ≡ (if are_parts cs (trees_at table.now operands.now) then Some (has_true cs (trees_at table.now operands.now)) else None) }
{
    let mut found = false;
    for operand in operands {
        let part = part_of(table, numbers, *operand)?;
        found |= is_true(part);
    }
    Some(found)
}

// The nodes that a clause is the `or` of.
fn disjuncts<'a>(table: &'a Table, root: &'a NodeId) -> &'a [NodeId]
    requires { IsNode table.now root.now }
    ensures terms { trees_at table.now result.now ≡ disjuncts (tree table.now root.now) }
    ensures nodes { AreNodes table.now result.now }
{
    match table.op(*root) {
        Op::Or => table.kids(*root),
        _ => slice::from_ref(root),
    }
}

// Whether a clause has the literal `true`, or None where the root isn't a clause.
fn has_true(table: &Table, numbers: &Numbers, root: NodeId) -> Option<bool>
    requires { IsNode table.now root }
    ensures { (cs : List Symbol) → AreNumbersOf table.now cs numbers.now → result ≡ (if is_clause cs (tree table.now root) then Some (has_true cs (disjuncts (tree table.now root))) else None) }
{
    truth_among(table, numbers, disjuncts(table, &root))
}

// How many of these roots don't have the literal `true`.
fn count_clauses(table: &Table, numbers: &Numbers, roots: &[NodeId]) -> Result<u64, LinkFault>
    requires { AreNodes table.now roots.now }
    ensures count { (cs : List Symbol) → AreNumbersOf table.now cs numbers.now → IfOk result (λ n. n ≡ length (clauses cs (trees_at table.now roots.now))) }
    ensures clauses { (cs : List Symbol) → AreNumbersOf table.now cs numbers.now → OnOk result (All (λ u. is_clause cs u ≡ true) (trees_at table.now roots.now)) }
    ensures fault { (cs : List Symbol) → AreNumbersOf table.now cs numbers.now → IfErr result (IsLinkFault cs (trees_at table.now roots.now)) }
{
    let mut count = 0;
    for (place, root) in roots.iter().enumerate() {
        let Some(is_true) = has_true(table, numbers, *root) else {
            return Err(LinkFault::NotClauses { root: place as u64 });
        };
        count += u64::from(!is_true);
    }
    Ok(count)
}

// Whether these are clauses over different constants of the table, as `dimacs_text` asks.
pub(crate) fn check_clauses(
    alloc: Global,
    table: &Table,
    roots: &[NodeId],
    constants: &[SymId],
) -> Result<(), LinkFault>
    requires roots { AreNodes table.now roots.now }
    requires constants { AreConstants table.now constants.now }
    ensures clauses { OnOk result (All (λ u. is_clause (constants_at table.now constants.now) u ≡ true) (trees_at table.now roots.now)) }
    ensures fault { IfErr result (IsLinkFault (constants_at table.now constants.now) (trees_at table.now roots.now)) }
{
    let numbers = Numbers::of(alloc, table, constants)?;
    count_clauses(table, &numbers, roots)?;
    Ok(())
}

// Appends a number in decimal digits.
fn push_number(text: &mut Vec<u8>, number: u64) -> Result<(), AllocError>
    ensures { OnOk result (text.new.items ≡ text.old.items ++ decimal number) }
{
    let mut buffer = Buffer::new();
    text.extend_from_slice(buffer.format(number).as_bytes())
}

// Appends a literal.
fn push_literal(text: &mut Vec<u8>, literal: Literal) -> Result<(), AllocError>
    ensures { OnOk result (text.new.items ≡ text.old.items ++ literal_text literal) }
{
    if literal.positive {
        return push_number(text, literal.constant);
    }
    text.push(b'-')?;
    push_number(text, literal.constant)
}

// Appends a literal and a space; `true` and `false` give nothing.
fn push_part(text: &mut Vec<u8>, part: Option<Part>) -> Result<(), AllocError>
    ensures { OnOk result (text.new.items ≡ text.old.items ++ literals_text (literals_in part)) }
{
    let Some(Part::Named(literal)) = part else {
        return Ok(());
    };
    push_literal(text, literal)?;
    text.push(b' ')?;
    Ok(())
}

// Appends the literals among these nodes, each with a space behind it.
fn push_literals(
    table: &Table,
    numbers: &Numbers,
    operands: &[NodeId],
    text: &mut Vec<u8>,
) -> Result<(), AllocError>
    requires { AreNodes table.now operands.now }
    ensures { (cs : List Symbol) → AreNumbersOf table.now cs numbers.now → OnOk result (text.new.items ≡ text.old.items ++ literals_text (literals cs (trees_at table.now operands.now))) }
{
    for operand in operands {
        push_part(text, part_of(table, numbers, *operand))?;
    }
    Ok(())
}

// Appends the line of a clause.
fn push_clause(
    table: &Table,
    numbers: &Numbers,
    root: NodeId,
    text: &mut Vec<u8>,
) -> Result<(), AllocError>
    requires { IsNode table.now root }
    ensures { (cs : List Symbol) → AreNumbersOf table.now cs numbers.now → OnOk result (text.new.items ≡ text.old.items ++ clause_text (literals cs (disjuncts (tree table.now root)))) }
{
    push_literals(table, numbers, disjuncts(table, &root), text)?;
    text.extend_from_slice(b"0\n")?;
    Ok(())
}

// Appends the line of a root, which is a clause, unless it has the literal `true`.
fn push_root(
    table: &Table,
    numbers: &Numbers,
    root: NodeId,
    text: &mut Vec<u8>,
) -> Result<(), AllocError>
    requires { IsNode table.now root }
    ensures { (cs : List Symbol) → AreNumbersOf table.now cs numbers.now → is_clause cs (tree table.now root) ≡ true → OnOk result (text.new.items ≡ text.old.items ++ flat_map clause_text (clauses cs (tree table.now root ∷ []))) }
{
    let Some(false) = has_true(table, numbers, root) else {
        return Ok(());
    };
    push_clause(table, numbers, root, text)
}

// Appends the lines of these roots, which are clauses.
fn push_roots(
    table: &Table,
    numbers: &Numbers,
    roots: &[NodeId],
    text: &mut Vec<u8>,
) -> Result<(), AllocError>
    requires { AreNodes table.now roots.now }
    ensures { (cs : List Symbol) → AreNumbersOf table.now cs numbers.now → All (λ u. is_clause cs u ≡ true) (trees_at table.now roots.now) → OnOk result (text.new.items ≡ text.old.items ++ flat_map clause_text (clauses cs (trees_at table.now roots.now))) }
{
    for root in roots {
        push_root(table, numbers, *root, text)?;
    }
    Ok(())
}

// The first line, for so many constants and clauses.
fn header(alloc: Global, constants: u64, clauses: u64) -> Result<Vec<u8>, AllocError>
    ensures { IfOk result (λ text. text.items ≡ header_text constants clauses) }
{
    let mut text = Vec::from_slice(alloc, b"p cnf ")?;
    push_number(&mut text, constants)?;
    text.push(b' ')?;
    push_number(&mut text, clauses)?;
    text.push(b'\n')?;
    Ok(text)
}

/// The text of these clauses over different constants of the table: `p cnf` and the numbers of constants and of clauses, and a line
/// for each clause, its literals and `0`. The first constant has the number 1; `-` stands before an inverse. A clause with the
/// literal `true` has no line, and the literal `false` is left out. What it means: `laws::models_are_answers`.
///
/// It takes time in proportion to the constants and the operands of the clauses.
///
/// # Errors
///
/// `NotClauses` exactly where one of the terms isn't a literal or an `or` of literals, with the place of the first such one, counted
/// from 0; and `Memory`. A literal is `true`, `false`, one of the constants, or `not` of one.
pub fn dimacs_text(
    alloc: Global,
    table: &Table,
    roots: &[NodeId],
    constants: &[SymId],
) -> Result<Vec<u8>, LinkFault>
    requires roots { AreNodes table.now roots.now }
    requires constants { AreConstants table.now constants.now }
    ensures text { IfOk result (λ text. text.items ≡ text_of (length constants.now) (clauses (constants_at table.now constants.now) (trees_at table.now roots.now))) }
    ensures clauses { OnOk result (All (λ u. is_clause (constants_at table.now constants.now) u ≡ true) (trees_at table.now roots.now)) }
    ensures fault { IfErr result (IsLinkFault (constants_at table.now constants.now) (trees_at table.now roots.now)) }
{
    let numbers = Numbers::of(alloc, table, constants)?;
    let count = count_clauses(table, &numbers, roots)?;
    let mut text = header(alloc, constants.len() as u64, count)?;
    push_roots(table, &numbers, roots, &mut text)?;
    Ok(text)
}

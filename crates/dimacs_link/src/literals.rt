//! Literals of clauses.

ghost use Rattle.std.specs.Prelude.{◌≡◌, List};
ghost use Rattle.smt_terms.specs.Sorts.{Symbol};
ghost use Rattle.smt_terms.specs.Term.{terms};
ghost use Rattle.term_table.specs.Formulas.{tree, trees_at, IsNode, AreNodes};
ghost use Rattle.dimacs_link.specs.Clauses.{constant_number, literal_of, inverse_part, part};
ghost use Rattle.dimacs_link.specs.Constants.{AreNumbersOf};

use crate::numbers::Numbers;
use smt_terms::NodeId;
use smt_values::Op;
use term_table::Table;

/// A constant by its number in a list, counted from 1, or its inverse.
#[derive(Clone, Copy, Debug, PartialEq, Eq)]
pub(crate) struct Literal {
    pub positive: bool,
    pub constant: u64,
}

/// An operand of a clause.
#[derive(Clone, Copy, Debug, PartialEq, Eq)]
pub(crate) enum Part {
    /// `true` or `false`.
    Fixed(bool),
    /// A constant or its inverse.
    Named(Literal),
}

// The number of the constant that a node is.
fn constant_number(table: &Table, numbers: &Numbers, id: NodeId) -> Option<u64>
    requires { IsNode table.now id }
    ensures { (cs : List Symbol) → AreNumbersOf table.now cs numbers.now → result ≡ constant_number cs (tree table.now id) }
{
    let Op::Sym(symbol) = table.op(id) else {
        return None;
    };
    match table.kids(id) {
        [] => numbers.get(symbol),
        _ => None,
    }
}

// The literal of the constant that a node is.
fn literal_of(table: &Table, numbers: &Numbers, id: NodeId, positive: bool) -> Option<Part>
    requires { IsNode table.now id }
    ensures { (cs : List Symbol) → AreNumbersOf table.now cs numbers.now → result ≡ literal_of positive (constant_number cs (tree table.now id)) }
{
    match constant_number(table, numbers, id) {
        Some(constant) => Some(Part::Named(Literal { positive, constant })),
        None => None,
    }
}

// The literal that `not` of these operands is.
fn inverse(table: &Table, numbers: &Numbers, operands: &[NodeId]) -> Option<Part>
    requires { AreNodes table.now operands.now }
    ensures { (cs : List Symbol) → AreNumbersOf table.now cs numbers.now → result ≡ inverse_part cs (terms (trees_at table.now operands.now)) }
{
    let [operand] = operands else {
        return None;
    };
    literal_of(table, numbers, *operand, false)
}

// The literal that a node is.
pub(crate) fn part_of(table: &Table, numbers: &Numbers, id: NodeId) -> Option<Part>
    requires { IsNode table.now id }
    ensures { (cs : List Symbol) → AreNumbersOf table.now cs numbers.now → result ≡ part cs (tree table.now id) }
{
    match table.op(id) {
        Op::Truth(value) => Some(Part::Fixed(value)),
        Op::Not => inverse(table, numbers, table.kids(id)),
        _ => literal_of(table, numbers, id, true),
    }
}

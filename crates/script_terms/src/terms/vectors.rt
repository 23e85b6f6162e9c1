//! Bit-vector constants with an index: `(_ bvX n)` (SMT-LIB 2.6, section 3.6, and the theory FixedSizeBitVectors).

ghost use Rattle.std.specs.Prelude.{◌≡◌, ◌≤◌, true, false, drop, length, IfOk, MatchOption, Some};
ghost use Rattle.smt_lex.specs.Forest.{token_at};
ghost use Rattle.smt_terms.specs.Fresh.{Supply};
ghost use Rattle.smt_terms.specs.Term.{op, apply, none};
ghost use Rattle.term_walk.specs.Walking.{GrowsTo};
ghost use Rattle.script_terms.specs.ConstantClauses.{IsConstantOp};
ghost use Rattle.script_terms.specs.Heads.{vector_constant, is_vector_name};
ghost use Rattle.script_terms.specs.Replies.{Agrees};
ghost use Rattle.script_terms.specs.TermClauses.{ReadsAlone};
ghost use Rattle.script_terms.specs.Places.{IsRead, IsForm, forms_from};

use crate::causes::Cause;
use crate::faults::{Fault, ReadFault};
use crate::lists::{Few, few_from};
use crate::places::{bad_form, fault, is_symbol, numeral_at};
use crate::terms::theory_constants::{constant, vector};
use smt_lex::{Forest, is_numeral};
use smt_terms::{NodeId, Op};
use term_table::Table;

/// The constant that the list of token `list` is, in which the forms behind the `_` begin at token `name`.
pub fn read_vector(
    table: &mut Table,
    forest: &Forest,
    list: usize,
    name: usize,
) -> Result<NodeId, ReadFault>
    requires read { IsRead forest.now }
    requires list { IsForm forest.now.tokens list }
    requires name { name ≤ length forest.now.tokens }
    ensures term { (supply : Supply) → ReadsAlone table.new supply (vector_constant (token_at forest.now.tokens list).start (forms_from forest.now.tokens name)) result }
    ensures grows { GrowsTo table.old table.new }
{
    let op = vector_in(forest, list, name)?;
    let node = constant(table, op)?;
    Ok(node)
}

// The bit vector that the list is.
fn vector_in(forest: &Forest, list: usize, name: usize) -> Result<Op, Fault>
    requires list { IsForm forest.now.tokens list }
    requires name { name ≤ length forest.now.tokens }
    ensures constant { Agrees (vector_constant (token_at forest.now.tokens list).start (forms_from forest.now.tokens name)) (λ o. apply (op o) none) result }
    ensures is { IfOk result IsConstantOp }
{
    let Few::Two(name, width) = few_from(forest, name) else {
        return Err(bad_form(forest, list));
    };
    if !is_symbol(forest, name) {
        return Err(bad_form(forest, list));
    }
    let Some(digits) = vector_digits(forest.name(name)) else {
        return Err(bad_form(forest, list));
    };
    let Some(width) = numeral_at(forest, width) else {
        return Err(bad_form(forest, list));
    };
    match vector(digits, width) {
        Ok(op) => Ok(op),
        Err(cause) => Err(fault(forest, list, cause)),
    }
}

// The digits X of a name `bvX`, where they are a numeral.
fn vector_digits(name: &[u8]) -> Option<&[u8]>
    ensures { MatchOption result (is_vector_name (Some name.now) ≡ false) (λ digits. (is_vector_name (Some name.now) ≡ true) × (digits.now ≡ drop 2 name.now)) }
{
    match name {
        [b'b', b'v', digits @ ..] if is_numeral(digits) => Some(digits),
        _ => None,
    }
}

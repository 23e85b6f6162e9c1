//! Division as at school, from the highest bit of the dividend on: s is what is left of the bits before with this bit below it; the
//! bit of the quotient is that s isn't less than the divisor, which is then taken from s. One bit more than the divisor has is
//! room enough. By zero the quotient is all ones, and the rest is the dividend.

ghost use Rattle.std.specs.Prelude.{◌≡◌, ◌<◌, ◌∷◌, [], false, map, length, All, IfOk, Ok};
ghost use Rattle.smt_terms.specs.Sorts.{bool};
ghost use Rattle.smt_terms.specs.Term.{op as operator};
ghost use Rattle.smt_terms.specs.Rank.{rank};
ghost use Rattle.bit_blast.specs.BitNodes.{AreBits, AreDivided, gate_op};
ghost use Rattle.bit_blast.specs.Blasted.{term_gates};
ghost use Rattle.bit_blast.specs.Circuits as plain;
ghost use Rattle.bit_blast.specs.DivisionSteps.{IsStep};
ghost use Rattle.normal_forms.specs.Nodes.{IsFormula};
ghost use Rattle.term_table.specs.Formulas.{tree, trees_at};
ghost use Rattle.term_walk.specs.Walking.{GrowsTo};

use crate::gates::{choices, repeated};
use crate::orders::less;
use crate::sums::difference;
use normal_forms::making::{negation, truth};
use smt_terms::NodeId;
use std::alloc::{AllocError, Global};
use term_table::Table;

/// A quotient, and a rest of one bit more than the divisor has.
#[derive(Drop)]
pub(crate) struct Divided {
    pub(crate) quotient: Vec<NodeId>,
    pub(crate) rest: Vec<NodeId>,
}

/// The bit of a quotient for what is left of a dividend, and what is left behind it.
#[derive(Drop)]
struct Step {
    bit: NodeId,
    rest: Vec<NodeId>,
}

/// The step of a division with this divisor, where so much is left.
fn next_step(
    alloc: Global,
    table: &mut Table,
    divisor: &[NodeId],
    left: &[NodeId],
) -> Result<Step, AllocError>
    requires divisor { All (IsFormula table.old) divisor.now }
    requires left { All (IsFormula table.old) left.now }
    requires same { length left.now ≡ length divisor.now }
    ensures step { IfOk result (λ s. IsStep table.new s (trees_at table.old divisor.now) (trees_at table.old left.now)) }
    ensures grows { GrowsTo table.old table.new }
    ensures symbols { table.new.symbols ≡ table.old.symbols }
    ensures sorts { table.new.sorts ≡ table.old.sorts }
{
    let is_less = less(table, left, divisor)?;
    let bit = negation(table, is_less)?;
    let taken = difference(alloc, table, left, divisor)?;
    let rest = choices(alloc, table, bit, &taken, left)?;
    Ok(Step { bit, rest })
}

/// The quotient and the rest of two vectors.
fn division(
    alloc: Global,
    table: &mut Table,
    a: &[NodeId],
    b: &[NodeId],
) -> Result<Divided, AllocError>
    requires a { All (IsFormula table.old) a.now }
    requires b { All (IsFormula table.old) b.now }
    requires same { length a.now ≡ length b.now }
    ensures divided { IfOk result (λ d. AreDivided table.new d (plain.division term_gates (trees_at table.old a.now) (trees_at table.old b.now))) }
    ensures grows { GrowsTo table.old table.new }
    ensures symbols { table.new.symbols ≡ table.old.symbols }
    ensures sorts { table.new.sorts ≡ table.old.sorts }
{
    let none = truth(table, false)?;
    let mut divisor = Vec::from_slice(alloc, b)?;
    divisor.push(none)?;
    let mut rest = repeated(alloc, none, divisor.len())?;
    let mut quotient = Vec::with_capacity(alloc, a.len())?;
    for place in (0..a.len()).rev() {
        let mut left = Vec::from_slice(alloc, &[a[place]])?;
        left.extend_from_slice(&rest[..b.len()])?;
        let next = next_step(alloc, table, &divisor, &left)?;
        quotient.push(next.bit)?;
        rest = next.rest;
    }
    quotient.reverse();
    Ok(Divided { quotient, rest })
}

/// `bvudiv`.
pub(crate) fn quotient(
    alloc: Global,
    table: &mut Table,
    a: &[NodeId],
    b: &[NodeId],
) -> Result<Vec<NodeId>, AllocError>
    requires a { All (IsFormula table.old) a.now }
    requires b { All (IsFormula table.old) b.now }
    requires same { length a.now ≡ length b.now }
    ensures bits { IfOk result (λ ks. AreBits table.new ks.items (plain.quotient term_gates (trees_at table.old a.now) (trees_at table.old b.now))) }
    ensures grows { GrowsTo table.old table.new }
    ensures symbols { table.new.symbols ≡ table.old.symbols }
    ensures sorts { table.new.sorts ≡ table.old.sorts }
{
    let divided = division(alloc, table, a, b)?;
    Ok(divided.quotient)
}

/// `bvurem`.
pub(crate) fn remainder(
    alloc: Global,
    table: &mut Table,
    a: &[NodeId],
    b: &[NodeId],
) -> Result<Vec<NodeId>, AllocError>
    requires a { All (IsFormula table.old) a.now }
    requires b { All (IsFormula table.old) b.now }
    requires same { length a.now ≡ length b.now }
    ensures bits { IfOk result (λ ks. AreBits table.new ks.items (plain.remainder term_gates (trees_at table.old a.now) (trees_at table.old b.now))) }
    ensures grows { GrowsTo table.old table.new }
    ensures symbols { table.new.symbols ≡ table.old.symbols }
    ensures sorts { table.new.sorts ≡ table.old.sorts }
{
    let mut divided = division(alloc, table, a, b)?;
    divided.rest.truncate(b.len());
    Ok(divided.rest)
}

//! The eight rules that the program has in its book, each as a function that answers exactly as the definition of its name, and
//! whose templates may take the place of what it was shown:
//!
//! - `mul-pow2`: `(bvmul x 2^k)`, k at least 1, is `(bvshl x k)`; the second operand is tried first
//! - `udiv-pow2`: `(bvudiv x 2^k)`, k at least 1, is `(bvlshr x k)`
//! - `urem-pow2`: `(bvurem x 2^k)`, k at least 1, is `(bvand x 2^k-1)`
//! - `absorb-and`: `(and p (or .. p ..))` is p, and `(and (or .. p ..) p)` too
//! - `absorb-or`: `(or p (and .. p ..))` is p, and `(or (and .. p ..) p)` too
//! - `sub-neg`: `(- a (- b))` is `(+ a b)`
//! - `ite-not`: `(ite (not c) a b)` is `(ite c b a)`
//! - `xor-not`: `(xor (not p) (not q))` is `(xor p q)`

ghost use Rattle.std.specs.Prelude.{◌≡◌, ◌<◌, ◌≤◌, ◌==◌, ◌&&◌, List, [], ◌∷◌, length, option_map, IfSome, codes};
ghost use Rattle.std.specs.List.{list_any};
ghost use Rattle.smt_terms.specs.declared.op.Op.TheVariants.{Bits};
ghost use Rattle.smt_terms.specs.Sorts.{Sort};
ghost use Rattle.smt_terms.specs.Term.{Term};
ghost use Rattle.rule_book.specs.Seen.{Shows, cell_seen, view_seen, template_seen, answer_seen};
ghost use Rattle.rule_book.specs.Template.{hole, literal, applied};
ghost use Rattle.rule_book.specs.EightRules.{is_op, power, over_constant, operands, two, where_root, absorbed};
ghost use Rattle.rule_book.specs.Operands.{cells_at, two_at_root, three_at_root, only_below, power_seen};
ghost use Rattle.rule_book.specs.Told.{IsRuleAnswer};

use crate::templates::{Parts, Piece, Tmpl};
use crate::views::{Cell, Cells, View};
use smt_values::{Op, Scalar};

// The `up` of the operands of the root, of its first operand, and of its second.
const OF_ROOT: u8 = 0;

const OF_FIRST: u8 = 1;

const OF_SECOND: u8 = 2;

// The bit vector 2^exponent of a width.
#[derive(Clone, Copy)]
struct PowerOfTwo {
    width: u32,
    exponent: u32,
}

/// A product with a power of two as a shift.
pub fn mul_pow2(view: &View) -> Option<Tmpl>
    ensures { (ss : List Sort) (t : Term) → Shows ss t view.now → IsRuleAnswer (codes "mul-pow2") (view_seen ss view.now) (answer_seen result) }
{
    let (a, b) = two_operands(view, Op::BvMul)?;
    if let Some(shift) = shifted(Op::BvShl, a, b) {
        return Some(shift);
    }
    shifted(Op::BvShl, b, a)
}

/// A quotient by a power of two as a shift.
pub fn udiv_pow2(view: &View) -> Option<Tmpl>
    ensures { (ss : List Sort) (t : Term) → Shows ss t view.now → IsRuleAnswer (codes "udiv-pow2") (view_seen ss view.now) (answer_seen result) }
{
    let (x, divisor) = two_operands(view, Op::BvUdiv)?;
    shifted(Op::BvLshr, x, divisor)
}

/// A remainder by a power of two as its lowest bits.
pub fn urem_pow2(view: &View) -> Option<Tmpl>
    ensures { (ss : List Sort) (t : Term) → Shows ss t view.now → IsRuleAnswer (codes "urem-pow2") (view_seen ss view.now) (answer_seen result) }
{
    let (x, divisor) = two_operands(view, Op::BvUrem)?;
    let power = power_of_two(divisor.op)?;
    let lowest = (1 << power.exponent) - 1;
    Some(over_bits(Op::BvAnd, x, power.width, lowest))
}

/// An `and` of a formula and an `or` that has it, as the formula.
pub fn absorb_and(view: &View) -> Option<Tmpl>
    ensures { (ss : List Sort) (t : Term) → Shows ss t view.now → IsRuleAnswer (codes "absorb-and") (view_seen ss view.now) (answer_seen result) }
{
    absorb(view, Op::And, Op::Or)
}

/// An `or` of a formula and an `and` that has it, as the formula.
pub fn absorb_or(view: &View) -> Option<Tmpl>
    ensures { (ss : List Sort) (t : Term) → Shows ss t view.now → IsRuleAnswer (codes "absorb-or") (view_seen ss view.now) (answer_seen result) }
{
    absorb(view, Op::Or, Op::And)
}

/// A difference with a negated number as a sum.
pub fn sub_neg(view: &View) -> Option<Tmpl>
    ensures { (ss : List Sort) (t : Term) → Shows ss t view.now → IsRuleAnswer (codes "sub-neg") (view_seen ss view.now) (answer_seen result) }
{
    let (a, negated) = two_operands(view, Op::Sub)?;
    let b = operand_below(view, negated, Op::Neg, OF_SECOND)?;
    Some(template(&[
        Piece::Hole(a.hole),
        Piece::Hole(b.hole),
        Piece::Apply(Op::Add, 2),
    ]))
}

/// A choice by a negated condition with its branches changed over.
pub fn ite_not(view: &View) -> Option<Tmpl>
    ensures { (ss : List Sort) (t : Term) → Shows ss t view.now → IsRuleAnswer (codes "ite-not") (view_seen ss view.now) (answer_seen result) }
{
    let (negated, a, b) = three_operands(view, Op::Ite)?;
    let condition = operand_below(view, negated, Op::Not, OF_FIRST)?;
    Some(template(&[
        Piece::Hole(condition.hole),
        Piece::Hole(b.hole),
        Piece::Hole(a.hole),
        Piece::Apply(Op::Ite, 3),
    ]))
}

/// An `xor` of two negated formulas without the negations.
pub fn xor_not(view: &View) -> Option<Tmpl>
    ensures { (ss : List Sort) (t : Term) → Shows ss t view.now → IsRuleAnswer (codes "xor-not") (view_seen ss view.now) (answer_seen result) }
{
    let (first, second) = two_operands(view, Op::Xor)?;
    let p = operand_below(view, first, Op::Not, OF_FIRST)?;
    let q = operand_below(view, second, Op::Not, OF_SECOND)?;
    Some(template(&[
        Piece::Hole(p.hole),
        Piece::Hole(q.hole),
        Piece::Apply(Op::Xor, 2),
    ]))
}

// The one of the root's two operands that the other has as an operand, where that other is shown as the inner operator.
fn absorb(view: &View, outer: Op, inner: Op) -> Option<Tmpl>
    ensures { (ss : List Sort) → answer_seen result ≡ where_root outer (view_seen ss view.now) (two (absorbed inner (view_seen ss view.now)) (operands (view_seen ss view.now))) }
{
    let (a, b) = two_operands(view, outer)?;
    if has_operand(view, b, inner, OF_SECOND, a.hole) {
        return Some(template(&[Piece::Hole(a.hole)]));
    }
    if has_operand(view, a, inner, OF_FIRST, b.hole) {
        return Some(template(&[Piece::Hole(b.hole)]));
    }
    None
}

// A cell shifted by the exponent of the power of two that the other shows.
fn shifted(shift: Op, cell: Cell, other: Cell) -> Option<Tmpl>
    ensures { (ss : List Sort) → answer_seen result ≡ over_constant shift (cell_seen ss cell) (λ k. k) (power other.op) }
{
    let power = power_of_two(other.op)?;
    Some(over_bits(shift, cell, power.width, u128::from(power.exponent)))
}

// The power of two that a constant is, for an exponent from 1 on below the width.
fn power_of_two(op: Option<Op>) -> Option<PowerOfTwo>
    ensures value { option_map power_seen result ≡ power op }
    ensures bound { IfSome result (λ p. p.exponent < 128) }
{
    let Op::Bits { width, bits } = op? else {
        return None;
    };
    if !bits.is_power_of_two() {
        return None;
    }
    let exponent = bits.trailing_zeros();
    (1..width)
        .contains(&exponent)
        .then_some(PowerOfTwo { width, exponent })
}

// The operator over what stands in a cell and a bit vector.
fn over_bits(op: Op, cell: Cell, width: u32, bits: u128) -> Tmpl
    ensures { template_seen result ≡ hole cell.hole ∷ literal (Bits width bits) ∷ applied op 2 ∷ [] }
{
    template(&[
        Piece::Hole(cell.hole),
        Piece::Const(Scalar::Bits { width, bits }),
        Piece::Apply(op, 2),
    ])
}

// The template of these pieces.
fn template(pieces: &[Piece]) -> Tmpl
    requires { length pieces.now ≤ 16 }
    ensures { result.pieces ≡ pieces.now }
{
    let mut parts = Parts::new();
    for piece in pieces {
        parts.push(*piece);
    }
    Tmpl { pieces: parts }
}

// The operands of the root, where it is this operator over two.
fn two_operands(view: &View, root: Op) -> Option<(Cell, Cell)>
    ensures { result ≡ two_at_root root view.now }
{
    if !view.root.is(root) {
        return None;
    }
    let operands = cells_under(view, OF_ROOT);
    if operands.len() != 2 {
        return None;
    }
    Some((operands.get(0), operands.get(1)))
}

// The operands of the root, where it is this operator over three.
fn three_operands(view: &View, root: Op) -> Option<(Cell, Cell, Cell)>
    ensures { result ≡ three_at_root root view.now }
{
    if !view.root.is(root) {
        return None;
    }
    let operands = cells_under(view, OF_ROOT);
    if operands.len() != 3 {
        return None;
    }
    Some((operands.get(0), operands.get(1), operands.get(2)))
}

// The operand of what a cell shows, where that is this operator over one. The operands of the cell have that `up`.
fn operand_below(view: &View, cell: Cell, op: Op, up: u8) -> Option<Cell>
    ensures { result ≡ only_below op cell.op up view.now.cells }
{
    if !shows(cell, op) {
        return None;
    }
    let operands = cells_under(view, up);
    if operands.len() != 1 {
        return None;
    }
    Some(operands.get(0))
}

// Whether a cell shows this operator.
fn shows(cell: Cell, op: Op) -> bool
    ensures { result ≡ is_op op cell.op }
{
    match cell.op {
        Some(shown) => shown.is(op),
        None => false,
    }
}

// Whether a cell shows this operator, over an operand with this hole. The operands of the cell have that `up`.
fn has_operand(view: &View, cell: Cell, op: Op, up: u8, hole: u8) -> bool
    ensures { result ≡ (is_op op cell.op && list_any (λ c. c.hole == hole) (cells_at up view.now.cells)) }
{
    if !shows(cell, op) {
        return false;
    }
    let operands = cells_under(view, up);
    for i in 0..operands.len() {
        if operands.get(i).hole == hole {
            return true;
        }
    }
    false
}

// The cells with that `up`.
fn cells_under(view: &View, up: u8) -> Cells
    ensures { result ≡ cells_at up view.now.cells }
{
    let mut found = Cells::new();
    for i in 0..view.cells.len() {
        let cell = view.cells.get(i);
        if cell.up == up {
            found.push(cell);
        }
    }
    found
}

//! The written operators by their names and indices.

ghost use Rattle.std.specs.Prelude.{◌≡◌, ℕ, List, length, IfSome, ◌<◌, ◌^◌, All, map, IsSome, IsTrue, Some};
ghost use Rattle.smt_terms.specs.Equal.{name_eq};
ghost use Rattle.smt_terms.specs.Written.{operator_named, at_indices};
ghost use Rattle.sort_check.specs.Forms.{form_seen, found, written_seen, is_apt, is_apt_at, index_count};
ghost use Rattle.sort_check.specs.Slots.{slot, place_by, named_at};

use crate::written::Form::{
    Divisible, Extract, Repeat, RotateLeft, RotateRight, SignExtend, WithoutIndex, ZeroExtend,
};
use crate::written::Operator::{
    Chainable, ChainableExchanged, Complemented, Exchanged, LeftAssociative, OverAll, Plain,
    RightAssociative, Subtraction,
};
use smt_terms::Op;

/// What a written operator makes of its operands.
#[derive(Clone, Copy)]
pub enum Operator {
    /// The operator over them.
    Plain(Op),
    /// The operator over them all; one operand stands for itself.
    OverAll(Op),
    /// Applications to two operands, from the left.
    LeftAssociative(Op),
    /// Applications to two operands, from the right.
    RightAssociative(Op),
    /// The conjunction of the applications to neighbours.
    Chainable(Op),
    /// The same, each with its operands exchanged.
    ChainableExchanged(Op),
    /// The operator over two operands, exchanged.
    Exchanged(Op),
    /// The complement of the operator over two operands.
    Complemented(Op),
    /// A unary minus over one operand, else differences from the left.
    Subtraction,
    /// Whether the number divides the operand.
    Divisibility(u128),
    /// So many copies of the operand behind one another.
    Repetition(u128),
    /// Rotation to the left by this number, modulo the width.
    LeftRotation(u128),
    /// Rotation to the right by this number, modulo the width.
    RightRotation(u128),
    /// Extension by so many zeros.
    ZeroExtension(u128),
    /// Extension by so many copies of the highest bit.
    SignExtension(u128),
    /// The bits from `low` to `high`, both included.
    Extraction { high: u128, low: u128 },
}

/// A written operator before its indices are known.
#[derive(Clone, Copy)]
pub enum Form {
    WithoutIndex(Operator),
    Divisible,
    Repeat,
    RotateLeft,
    RotateRight,
    ZeroExtend,
    SignExtend,
    Extract,
}

// The written operators, in the order of the theories.
static OPERATORS: [(&[u8], Form); 56] = [
    (b"not", WithoutIndex(Plain(Op::Not))),
    (b"and", WithoutIndex(OverAll(Op::And))),
    (b"or", WithoutIndex(OverAll(Op::Or))),
    (b"xor", WithoutIndex(LeftAssociative(Op::Xor))),
    (b"=>", WithoutIndex(RightAssociative(Op::Implies))),
    (b"=", WithoutIndex(Chainable(Op::Equal))),
    (b"distinct", WithoutIndex(Plain(Op::Distinct))),
    (b"ite", WithoutIndex(Plain(Op::Ite))),
    (b"-", WithoutIndex(Subtraction)),
    (b"+", WithoutIndex(OverAll(Op::Add))),
    (b"*", WithoutIndex(OverAll(Op::Mul))),
    (b"div", WithoutIndex(LeftAssociative(Op::Div))),
    (b"mod", WithoutIndex(Plain(Op::Mod))),
    (b"abs", WithoutIndex(Plain(Op::Abs))),
    (b"<=", WithoutIndex(Chainable(Op::Le))),
    (b"<", WithoutIndex(Chainable(Op::Lt))),
    (b">=", WithoutIndex(ChainableExchanged(Op::Le))),
    (b">", WithoutIndex(ChainableExchanged(Op::Lt))),
    (b"divisible", Divisible),
    (b"concat", WithoutIndex(Plain(Op::Concat))),
    (b"extract", Extract),
    (b"bvnot", WithoutIndex(Plain(Op::BvNot))),
    (b"bvneg", WithoutIndex(Plain(Op::BvNeg))),
    (b"bvand", WithoutIndex(LeftAssociative(Op::BvAnd))),
    (b"bvor", WithoutIndex(LeftAssociative(Op::BvOr))),
    (b"bvxor", WithoutIndex(LeftAssociative(Op::BvXor))),
    (b"bvadd", WithoutIndex(LeftAssociative(Op::BvAdd))),
    (b"bvmul", WithoutIndex(LeftAssociative(Op::BvMul))),
    (b"bvnand", WithoutIndex(Complemented(Op::BvAnd))),
    (b"bvnor", WithoutIndex(Complemented(Op::BvOr))),
    (b"bvxnor", WithoutIndex(Complemented(Op::BvXor))),
    (b"bvsub", WithoutIndex(Plain(Op::BvSub))),
    (b"bvudiv", WithoutIndex(Plain(Op::BvUdiv))),
    (b"bvurem", WithoutIndex(Plain(Op::BvUrem))),
    (b"bvsdiv", WithoutIndex(Plain(Op::BvSdiv))),
    (b"bvsrem", WithoutIndex(Plain(Op::BvSrem))),
    (b"bvsmod", WithoutIndex(Plain(Op::BvSmod))),
    (b"bvshl", WithoutIndex(Plain(Op::BvShl))),
    (b"bvlshr", WithoutIndex(Plain(Op::BvLshr))),
    (b"bvashr", WithoutIndex(Plain(Op::BvAshr))),
    (b"bvcomp", WithoutIndex(Plain(Op::BvComp))),
    (b"bvult", WithoutIndex(Plain(Op::BvUlt))),
    (b"bvule", WithoutIndex(Plain(Op::BvUle))),
    (b"bvslt", WithoutIndex(Plain(Op::BvSlt))),
    (b"bvsle", WithoutIndex(Plain(Op::BvSle))),
    (b"bvugt", WithoutIndex(Exchanged(Op::BvUlt))),
    (b"bvuge", WithoutIndex(Exchanged(Op::BvUle))),
    (b"bvsgt", WithoutIndex(Exchanged(Op::BvSlt))),
    (b"bvsge", WithoutIndex(Exchanged(Op::BvSle))),
    (b"repeat", Repeat),
    (b"zero_extend", ZeroExtend),
    (b"sign_extend", SignExtend),
    (b"rotate_left", RotateLeft),
    (b"rotate_right", RotateRight),
    (b"select", WithoutIndex(Plain(Op::Select))),
    (b"store", WithoutIndex(Plain(Op::Store))),
];

// How many slots the names go to.
const SLOTS: usize = 128;

// At each slot the place of the only operator whose name goes there, or 0 if there is none.
static PLACES: [u8; SLOTS] = [
    32, 0, 0, 0, 0, 0, 0, 29, 0, 0, 0, 0, 6, 0, 0, 4, 35, 0, 47, 21, 0, 25, 0, 43, 0, 0, 50, 0, 0,
    11, 0, 3, 0, 0, 15, 0, 8, 0, 0, 0, 52, 0, 0, 0, 0, 0, 0, 19, 0, 0, 0, 13, 31, 0, 18, 0, 48, 0,
    0, 22, 0, 44, 10, 30, 0, 0, 0, 0, 5, 0, 33, 0, 45, 26, 34, 39, 0, 41, 27, 0, 1, 12, 0, 23, 53,
    0, 0, 55, 0, 0, 0, 0, 28, 0, 0, 0, 9, 0, 0, 37, 36, 49, 17, 0, 0, 0, 0, 0, 0, 14, 46, 16, 0,
    51, 0, 42, 38, 2, 0, 7, 24, 0, 40, 54, 0, 20, 0, 0,
];

/// The form of the written operator of this name, and None exactly where there is no operator of this name. It takes no
/// memory.
pub fn form_named(name: &[u8]) -> Option<Form>
    ensures named { found result ≡ operator_named name.now }
    ensures apt { IfSome result (λ form. IsTrue (is_apt_at (form_seen form))) }
{
    form_by_slot(name)
}

fn form_by_slot(name: &[u8]) -> Option<Form>
    ensures { found result ≡ operator_named name.now }
{
    if name.is_empty() {
        return None;
    }
    form_at(&OPERATORS, place(name), name)
}

// The form at this place, if it has this name.
fn form_at(operators: &[(&[u8], Form)], place: usize, name: &[u8]) -> Option<Form>
    requires { place < length operators.now }
    ensures { found result ≡ named_at (map (λ other. (other.0.now, form_seen other.1)) operators.now) place name.now }
{
    let (other, form) = &operators[place];
    if !are_equal(other, name) {
        return None;
    }
    Some(*form)
}

// Whether the names are equal. They are short, so that one byte after the other is sooner compared than by `==`.
fn are_equal(a: &[u8], b: &[u8]) -> bool
    ensures { result ≡ name_eq a.now b.now }
{
    if a.len() != b.len() {
        return false;
    }
    for (k, byte) in a.iter().enumerate() {
        if *byte != b[k] {
            return false;
        }
    }
    true
}

// The place of the only operator that can have this name.
fn place(name: &[u8]) -> usize
    requires { 0 < length name.now }
    ensures place { result ≡ place_by PLACES name.now }
    ensures within { result < 56 }
{
    PLACES[slot(name)] as usize
}

// The slot of a name. The factors were searched for, so that no two operators have one slot.
fn slot(name: &[u8]) -> usize
    requires { 0 < length name.now }
    ensures slot { result ≡ slot name.now }
    ensures within { result < 128 }
{
    let len = name.len();
    let last = name[len - 1] as usize;
    let last_but_one = name[len.saturating_sub(2)] as usize;
    let third = name[(len - 1).min(2)] as usize;
    (6 * last + last_but_one + 27 * third + 42 * (len % SLOTS)) % SLOTS
}

impl Form {
    /// How many indices the operator takes.
    pub fn index_count(self) -> usize
        ensures number { result ≡ index_count (form_seen self) }
        ensures indices { (indices : List ℕ) → length indices ≡ result → IsSome (at_indices (form_seen self) indices) }
    {
        match self {
            WithoutIndex(_) => 0,
            Extract => 2,
            _ => 1,
        }
    }

    /// The operator with these indices, which are as many as it takes; each is at most 2^127 - 1.
    #[tactic(auto, unfolding(crate::specs::Forms::is_apt, crate::specs::Forms::is_theory, smt_terms::specs::Rank::shape))]
    pub fn at_indices(self, indices: &[u128]) -> Operator
        requires number { IsSome (at_indices (form_seen self) indices.now) }
        requires indices { All (λ i. i < 2 ^ 127) indices.now }
        requires apt { IsTrue (is_apt_at (form_seen self)) }
        ensures named { at_indices (form_seen self) indices.now ≡ Some (written_seen result) }
        ensures apt { IsTrue (is_apt (written_seen result)) }
    {
        match self {
            WithoutIndex(written) => written,
            Divisible => Operator::Divisibility(indices[0]),
            Repeat => Operator::Repetition(indices[0]),
            RotateLeft => Operator::LeftRotation(indices[0]),
            RotateRight => Operator::RightRotation(indices[0]),
            ZeroExtend => Operator::ZeroExtension(indices[0]),
            SignExtend => Operator::SignExtension(indices[0]),
            Extract => Operator::Extraction {
                high: indices[0],
                low: indices[1],
            },
        }
    }
}

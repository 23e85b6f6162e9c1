//! The node operators: those of the theories Core, Ints, FixedSizeBitVectors (with the operators of the logic
//! QF_BV) and ArraysEx that a formula's nodes carry, constants, symbols and quantifiers.

ghost use Rattle.std.specs.Prelude.{◌≡◌, ◌↔◌, IsTrue};

use crate::ids::{SortId, SymId};

/// The operator of a node. Written operators that are other ones in disguise (`>=`, `bvnand`, `(_ repeat i)` ..)
/// have none of their own; chains and left or right associative operators are made of nodes with two operands.
#[derive(Clone, Copy, Debug, PartialEq, Eq, Hash)]
pub enum Op {
    /// `true` or `false`.
    Truth(bool),
    /// An integer constant, of magnitude at most 2^127 - 1.
    Whole(i128),
    /// A bit-vector constant of a width from 1 to 128, with bits below `2^width`.
    Bits { width: u32, bits: u128 },
    /// A symbol, applied to as many operands as its rank has arguments.
    Sym(SymId),
    /// A universal quantifier: its variables, as constants, and the body last.
    Forall,
    /// An existential quantifier: its variables, as constants, and the body last.
    Exists,
    /// The array of this sort that has its operand everywhere.
    ConstArray(SortId),
    /// `not`.
    Not,
    /// `and` of two or more.
    And,
    /// `or` of two or more.
    Or,
    /// `xor` of two.
    Xor,
    /// `=>` of two.
    Implies,
    /// `=` of two.
    Equal,
    /// `distinct` of two or more.
    Distinct,
    /// `ite`.
    Ite,
    /// `-` of one.
    Neg,
    /// `-` of two.
    Sub,
    /// `+` of two or more.
    Add,
    /// `*` of two or more.
    Mul,
    /// `div`.
    Div,
    /// `mod`.
    Mod,
    /// `abs`.
    Abs,
    /// `<=`.
    Le,
    /// `<`.
    Lt,
    /// `concat`.
    Concat,
    /// The bits from `low` to `high`, both included.
    Extract { high: u32, low: u32 },
    /// `bvnot`.
    BvNot,
    /// `bvneg`.
    BvNeg,
    /// `bvand`.
    BvAnd,
    /// `bvor`.
    BvOr,
    /// `bvxor`.
    BvXor,
    /// `bvadd`.
    BvAdd,
    /// `bvmul`.
    BvMul,
    /// `bvsub`.
    BvSub,
    /// `bvudiv`.
    BvUdiv,
    /// `bvurem`.
    BvUrem,
    /// `bvsdiv`.
    BvSdiv,
    /// `bvsrem`.
    BvSrem,
    /// `bvsmod`.
    BvSmod,
    /// `bvshl`.
    BvShl,
    /// `bvlshr`.
    BvLshr,
    /// `bvashr`.
    BvAshr,
    /// `bvcomp`.
    BvComp,
    /// `bvult`.
    BvUlt,
    /// `bvule`.
    BvUle,
    /// `bvslt`.
    BvSlt,
    /// `bvsle`.
    BvSle,
    /// Extension by so many zeros.
    ZeroExt(u32),
    /// Extension by so many copies of the highest bit.
    SignExt(u32),
    /// Rotation to the left, by less than the width.
    RotL(u32),
    /// Rotation to the right, by less than the width.
    RotR(u32),
    /// `select`.
    Select,
    /// `store`.
    Store,
}

impl Op {
    /// Whether this is that operator, with the same parameters.
    pub fn is(self, other: Op) -> bool
        ensures { IsTrue result ↔ (self ≡ other) }
    {
        self == other
    }
}

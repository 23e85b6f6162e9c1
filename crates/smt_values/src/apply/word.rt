//! Bit vectors of 1 to 128 bits, as numbers modulo `2^width`, with the operators of the standard under their names.

ghost use Rattle.std.specs.Prelude.{◌≡◌, ◌+◌, ◌-◌, ◌%◌, ◌^◌, ◌<◌, ◌≤◌, ◌≢◌, pos, IfSome, IfNone};
ghost use Rattle.smt_terms.specs.BitVectors as vectors;
ghost use Rattle.smt_terms.specs.BitVectors.{nat2bv, sign, bv2int};

use crate::scalar::Scalar;

/// A bit vector.
#[derive(Clone, Copy)]
pub(crate) struct Word {
    pub(crate) width: u32,
    pub(crate) bits: u128,
    ghost some: { 1 ≤ width },
    ghost narrow: { width ≤ 128 },
    ghost below: { bits < 2 ^ width },
}

impl Word {
    pub(crate) fn scalar(self) -> Scalar
        ensures { result ≡ Scalar.Bits self.width self.bits }
    {
        Scalar::Bits {
            width: self.width,
            bits: self.bits,
        }
    }

    // The lowest bits of a number.
    fn new(width: u32, bits: u128) -> Word
        requires some { 1 ≤ width }
        requires narrow { width ≤ 128 }
        ensures width { result.width ≡ width }
        ensures bits { result.bits ≡ bits % 2 ^ width }
        ensures vector { nat2bv width result.bits ≡ nat2bv width bits }
    {
        Word {
            width,
            bits: bits & (u128::MAX >> (128 - width)),
        }
    }

    fn zero(width: u32) -> Word
        requires some { 1 ≤ width }
        requires narrow { width ≤ 128 }
        ensures width { result.width ≡ width }
        ensures bits { result.bits ≡ 0 }
    {
        Word { width, bits: 0 }
    }

    // The highest bit.
    fn sign(self) -> bool
        ensures { result ≡ sign (nat2bv self.width self.bits) }
    {
        self.bits >> (self.width - 1) == 1
    }

    // The number in two's complement.
    fn signed(self) -> i128
        ensures { result ≡ bv2int (nat2bv self.width self.bits) }
    {
        if self.sign() {
            !(self.bvnot().bits as i128)
        } else {
            self.bits as i128
        }
    }

    pub(crate) fn bvnot(self) -> Word
        ensures width { result.width ≡ self.width }
        ensures bits { result.bits ≡ 2 ^ self.width - 1 - self.bits }
        ensures vector { nat2bv self.width result.bits ≡ vectors.bvnot (nat2bv self.width self.bits) }
    {
        Word::new(self.width, !self.bits)
    }

    pub(crate) fn bvneg(self) -> Word
        ensures width { result.width ≡ self.width }
        ensures vector { nat2bv self.width result.bits ≡ vectors.bvneg (nat2bv self.width self.bits) }
    {
        Word::new(self.width, 0u128.wrapping_sub(self.bits))
    }

    pub(crate) fn bvand(self, other: Word) -> Word
        requires { other.width ≡ self.width }
        ensures width { result.width ≡ self.width }
        ensures vector { nat2bv self.width result.bits ≡ vectors.bvand (nat2bv self.width self.bits) (nat2bv self.width other.bits) }
    {
        Word {
            width: self.width,
            bits: self.bits & other.bits,
        }
    }

    pub(crate) fn bvor(self, other: Word) -> Word
        requires { other.width ≡ self.width }
        ensures width { result.width ≡ self.width }
        ensures vector { nat2bv self.width result.bits ≡ vectors.bvor (nat2bv self.width self.bits) (nat2bv self.width other.bits) }
    {
        Word {
            width: self.width,
            bits: self.bits | other.bits,
        }
    }

    pub(crate) fn bvxor(self, other: Word) -> Word
        requires { other.width ≡ self.width }
        ensures width { result.width ≡ self.width }
        ensures vector { nat2bv self.width result.bits ≡ vectors.bvxor (nat2bv self.width self.bits) (nat2bv self.width other.bits) }
    {
        Word {
            width: self.width,
            bits: self.bits ^ other.bits,
        }
    }

    pub(crate) fn bvadd(self, other: Word) -> Word
        requires { other.width ≡ self.width }
        ensures width { result.width ≡ self.width }
        ensures vector { nat2bv self.width result.bits ≡ vectors.bvadd (nat2bv self.width self.bits) (nat2bv self.width other.bits) }
    {
        Word::new(self.width, self.bits.wrapping_add(other.bits))
    }

    pub(crate) fn bvsub(self, other: Word) -> Word
        requires { other.width ≡ self.width }
        ensures width { result.width ≡ self.width }
        ensures vector { nat2bv self.width result.bits ≡ vectors.bvsub (nat2bv self.width self.bits) (nat2bv self.width other.bits) }
    {
        Word::new(self.width, self.bits.wrapping_sub(other.bits))
    }

    pub(crate) fn bvmul(self, other: Word) -> Word
        requires { other.width ≡ self.width }
        ensures width { result.width ≡ self.width }
        ensures vector { nat2bv self.width result.bits ≡ vectors.bvmul (nat2bv self.width self.bits) (nat2bv self.width other.bits) }
    {
        Word::new(self.width, self.bits.wrapping_mul(other.bits))
    }

    pub(crate) fn bvudiv(self, other: Word) -> Word
        requires { other.width ≡ self.width }
        ensures width { result.width ≡ self.width }
        ensures vector { nat2bv self.width result.bits ≡ vectors.bvudiv (nat2bv self.width self.bits) (nat2bv self.width other.bits) }
    {
        if other.bits == 0 {
            return Word::new(self.width, u128::MAX);
        }
        Word {
            width: self.width,
            bits: self.bits / other.bits,
        }
    }

    pub(crate) fn bvurem(self, other: Word) -> Word
        requires { other.width ≡ self.width }
        ensures width { result.width ≡ self.width }
        ensures vector { nat2bv self.width result.bits ≡ vectors.bvurem (nat2bv self.width self.bits) (nat2bv self.width other.bits) }
    {
        if other.bits == 0 {
            return self;
        }
        Word {
            width: self.width,
            bits: self.bits % other.bits,
        }
    }

    pub(crate) fn bvsdiv(self, other: Word) -> Word
        requires { other.width ≡ self.width }
        ensures width { result.width ≡ self.width }
        ensures vector { nat2bv self.width result.bits ≡ vectors.bvsdiv (nat2bv self.width self.bits) (nat2bv self.width other.bits) }
    {
        if other.bits == 0 {
            let quotient = if self.sign() { 1 } else { u128::MAX };
            return Word::new(self.width, quotient);
        }
        let quotient = self.signed().wrapping_div(other.signed());
        Word::new(self.width, quotient.cast_unsigned())
    }

    pub(crate) fn bvsrem(self, other: Word) -> Word
        requires { other.width ≡ self.width }
        ensures width { result.width ≡ self.width }
        ensures vector { nat2bv self.width result.bits ≡ vectors.bvsrem (nat2bv self.width self.bits) (nat2bv self.width other.bits) }
    {
        if other.bits == 0 {
            return self;
        }
        let remainder = self.signed().wrapping_rem(other.signed());
        Word::new(self.width, remainder.cast_unsigned())
    }

    pub(crate) fn bvsmod(self, other: Word) -> Word
        requires { other.width ≡ self.width }
        ensures width { result.width ≡ self.width }
        ensures vector { nat2bv self.width result.bits ≡ vectors.bvsmod (nat2bv self.width self.bits) (nat2bv self.width other.bits) }
    {
        if other.bits == 0 {
            return self;
        }
        let modulus = floor_mod(self.signed(), other.signed());
        Word::new(self.width, modulus.cast_unsigned())
    }

    // By how many places a shift moves, or None where it moves every bit out.
    fn distance(self, other: Word) -> Option<u32>
        ensures near { IfSome result (λ n. n < self.width) }
        ensures some { IfSome result (λ n. n ≡ other.bits) }
        ensures none { IfNone result (self.width ≤ other.bits) }
    {
        if other.bits < u128::from(self.width) {
            Some(other.bits as u32)
        } else {
            None
        }
    }

    pub(crate) fn bvshl(self, other: Word) -> Word
        requires { other.width ≡ self.width }
        ensures width { result.width ≡ self.width }
        ensures vector { nat2bv self.width result.bits ≡ vectors.bvshl (nat2bv self.width self.bits) (nat2bv self.width other.bits) }
    {
        match self.distance(other) {
            Some(n) => Word::new(self.width, self.bits << n),
            None => Word::zero(self.width),
        }
    }

    pub(crate) fn bvlshr(self, other: Word) -> Word
        requires { other.width ≡ self.width }
        ensures width { result.width ≡ self.width }
        ensures vector { nat2bv self.width result.bits ≡ vectors.bvlshr (nat2bv self.width self.bits) (nat2bv self.width other.bits) }
    {
        match self.distance(other) {
            Some(n) => Word::new(self.width, self.bits >> n),
            None => Word::zero(self.width),
        }
    }

    pub(crate) fn bvashr(self, other: Word) -> Word
        requires { other.width ≡ self.width }
        ensures width { result.width ≡ self.width }
        ensures vector { nat2bv self.width result.bits ≡ vectors.bvashr (nat2bv self.width self.bits) (nat2bv self.width other.bits) }
    {
        if self.sign() {
            self.bvnot().bvlshr(other).bvnot()
        } else {
            self.bvlshr(other)
        }
    }

    pub(crate) fn bvcomp(self, other: Word) -> Word
        requires { other.width ≡ self.width }
        ensures width { result.width ≡ 1 }
        ensures vector { nat2bv 1 result.bits ≡ vectors.bvcomp (nat2bv self.width self.bits) (nat2bv self.width other.bits) }
    {
        Word::new(1, u128::from(self.bits == other.bits))
    }

    pub(crate) fn bvult(self, other: Word) -> bool
        requires { other.width ≡ self.width }
        ensures { result ≡ vectors.bvult (nat2bv self.width self.bits) (nat2bv self.width other.bits) }
    {
        self.bits < other.bits
    }

    pub(crate) fn bvule(self, other: Word) -> bool
        requires { other.width ≡ self.width }
        ensures { result ≡ vectors.bvule (nat2bv self.width self.bits) (nat2bv self.width other.bits) }
    {
        self.bits <= other.bits
    }

    pub(crate) fn bvslt(self, other: Word) -> bool
        requires { other.width ≡ self.width }
        ensures { result ≡ vectors.bvslt (nat2bv self.width self.bits) (nat2bv self.width other.bits) }
    {
        self.signed() < other.signed()
    }

    pub(crate) fn bvsle(self, other: Word) -> bool
        requires { other.width ≡ self.width }
        ensures { result ≡ vectors.bvsle (nat2bv self.width self.bits) (nat2bv self.width other.bits) }
    {
        self.signed() <= other.signed()
    }

    /// This word above another.
    pub(crate) fn concat(self, low: Word) -> Word
        requires { self.width + low.width ≤ 128 }
        ensures width { result.width ≡ self.width + low.width }
        ensures vector { nat2bv (self.width + low.width) result.bits ≡ vectors.concat (nat2bv self.width self.bits) (nat2bv low.width low.bits) }
    {
        Word {
            width: self.width + low.width,
            bits: (self.bits << low.width) | low.bits,
        }
    }

    /// The bits from place `low` to place `high`, both included.
    pub(crate) fn extract(self, high: u32, low: u32) -> Word
        requires order { low ≤ high }
        requires within { high < self.width }
        ensures width { result.width ≡ high - low + 1 }
        ensures vector { nat2bv (high - low + 1) result.bits ≡ vectors.extract high low (nat2bv self.width self.bits) }
    {
        Word::new(high - low + 1, self.bits >> low)
    }

    /// So many zeros in front.
    pub(crate) fn zero_extend(self, more: u32) -> Word
        requires { self.width + more ≤ 128 }
        ensures width { result.width ≡ self.width + more }
        ensures vector { nat2bv (self.width + more) result.bits ≡ vectors.zero_extend more (nat2bv self.width self.bits) }
    {
        Word {
            width: self.width + more,
            bits: self.bits,
        }
    }

    /// So many copies of the highest bit in front.
    pub(crate) fn sign_extend(self, more: u32) -> Word
        requires { self.width + more ≤ 128 }
        ensures width { result.width ≡ self.width + more }
        ensures vector { nat2bv (self.width + more) result.bits ≡ vectors.sign_extend more (nat2bv self.width self.bits) }
    {
        if self.sign() {
            self.bvnot().zero_extend(more).bvnot()
        } else {
            self.zero_extend(more)
        }
    }

    /// The bits turned to the left by so many places.
    pub(crate) fn rotate_left(self, places: u32) -> Word
        requires { places < self.width }
        ensures width { result.width ≡ self.width }
        ensures vector { nat2bv self.width result.bits ≡ vectors.rotate_left places (nat2bv self.width self.bits) }
    {
        if places == 0 {
            return self;
        }
        let split = self.width - places;
        self.extract(split - 1, 0)
            .concat(self.extract(self.width - 1, split))
    }

    /// The bits turned to the right by so many places.
    pub(crate) fn rotate_right(self, places: u32) -> Word
        requires { places < self.width }
        ensures width { result.width ≡ self.width }
        ensures vector { nat2bv self.width result.bits ≡ vectors.rotate_right places (nat2bv self.width self.bits) }
    {
        if places == 0 {
            return self;
        }
        self.extract(places - 1, 0)
            .concat(self.extract(self.width - 1, places))
    }
}

// The remainder that has the sign of the divisor.
fn floor_mod(dividend: i128, divisor: i128) -> i128
    requires { divisor ≢ pos 0 }
    ensures { result ≡ vectors.floor_mod dividend divisor }
{
    let remainder = dividend.wrapping_rem_euclid(divisor);
    if divisor < 0 && remainder != 0 {
        remainder + divisor
    } else {
        remainder
    }
}

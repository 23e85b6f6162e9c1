//! Scalars: the values of the sorts `Bool` and `Int` and of the bit vectors, in 128 bits.

/// A truth value, a whole number, or the bits of a bit vector as a number. A scalar is valid where its whole number has a
/// magnitude of at most 2^127 - 1, or its width is from 1 to 128 and its bits are below `2^width`.
#[derive(Clone, Copy, Debug, PartialEq, Eq, Hash)]
pub enum Scalar {
    /// A truth value, of the sort `Bool`.
    Truth(bool),
    /// A whole number, of the sort `Int`.
    Whole(i128),
    /// A bit vector of so many bits, as the number that they are in base 2.
    Bits { width: u32, bits: u128 },
}

//! The numbers by which a table of formulas names its nodes, symbols and sorts.

ghost use Rattle.std.specs.Prelude.{◌≡◌, ◌<◌, ◌≤◌, ◌+◌, ◌⊎◌, MatchOption};

/// The number of a node in its table. Equal formulas of one table have one number.
#[derive(Clone, Copy, Debug, Default, PartialEq, Eq, PartialOrd, Ord, Hash)]
pub struct NodeId(pub u64);

impl NodeId {
    /// The number itself.
    pub fn number(self) -> u64
        ensures { result ≡ self.0 }
    {
        self.0
    }
}

/// The number of a symbol in its table: a name with the sorts of its arguments and of its result.
#[derive(Clone, Copy, Debug, PartialEq, Eq, PartialOrd, Ord, Hash)]
pub struct SymId(pub u64);

impl SymId {
    /// The number itself.
    pub fn number(self) -> u64
        ensures { result ≡ self.0 }
    {
        self.0
    }
}

/// The greatest width of a bit vector.
pub const MOST_BITS: u32 = 128;

/// The number of a sort: 0 is `Bool`, 1 is `Int`, `1 + w` is the bit vectors of width w for w from 1 to 128, and
/// 130 and more are the array sorts and the declared sorts of a sort table.
#[derive(Clone, Copy, Debug, PartialEq, Eq, PartialOrd, Ord, Hash)]
pub struct SortId(pub u64);

impl SortId {
    /// `Bool`
    pub const BOOL: SortId = SortId(0);

    /// `Int`
    pub const INT: SortId = SortId(1);

    /// The bit vectors of width 1.
    pub const BIT: SortId = SortId(2);

    /// The bit vectors of a width, which is from 1 to `MOST_BITS`.
    pub fn of_width(width: u32) -> SortId
        requires { (1 ≤ width) × (width ≤ 128) }
        ensures { result.0 ≡ width + 1 }
    {
        SortId(SortId::INT.0 + u64::from(width))
    }

    /// The width of the bit vectors of this sort, and None for another sort.
    pub fn width(self) -> Option<u32>
        ensures { MatchOption result ((self.0 < 2) ⊎ (130 ≤ self.0)) (λ w. (self.0 ≡ w + 1) × (1 ≤ w) × (w ≤ 128)) }
    {
        if self.0 <= SortId::INT.0 || self.0 > SortId::INT.0 + u64::from(MOST_BITS) {
            return None;
        }
        Some((self.0 - SortId::INT.0) as u32)
    }

    /// The number itself.
    pub fn number(self) -> u64
        ensures { result ≡ self.0 }
    {
        self.0
    }
}

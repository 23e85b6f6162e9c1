//! A hasher for maps and sets whose keys are names.

ghost use Rattle.std.specs.Prelude.{◌≡◌};
ghost use Rattle.smt_terms.specs.NameHash.{initial, write, write_byte, write_number, finish, step};

use std::hash::{BuildHasherDefault, Hasher};

const MULTIPLIER: u64 = 0x9e37_79b9_7f4a_7c15;

// By how many bits the state turns before a number goes in, so that its high bits reach all others.
const TURN: u32 = 5;

// The lowest bit of the tag in a hash.
const TAG: u32 = 24;

/// A hasher for names, which are short and come byte by byte: a byte costs a rotation, an exclusive or and a product, and
/// so does a number of eight bytes.
///
/// Names that differ in their last byte alone are neighbours, as `x120` and `x121` are: an index table looks for them
/// first in the same group or in the one beside it, so names that are numbered are found without a walk through all of the
/// table. The last byte makes their tags different.
///
/// Its seed is fixed, so that names can be chosen which collide. Such names make a map slow, and never wrong.
#[derive(Clone, Copy)]
pub struct NameHasher {
    /// All that was written but for the last byte.
    state: u64,
    last: u8,
}

/// What makes the hashers of a map or a set whose keys are names.
pub type BuildNameHasher = BuildHasherDefault<NameHasher>;

impl Default for NameHasher {
    ghost is_default = { λ h. h ≡ initial };

    #[tactic(auto, unfolding(crate::specs::NameHash::initial))]
    fn default() -> NameHasher {
        NameHasher {
            state: 0x243f_6a88_85a3_08d3,
            last: 0,
        }
    }
}

impl NameHasher {
    #[inline(always)]
    #[tactic(auto, unfolding(crate::specs::NameHash::step))]
    fn add(&mut self, number: u64)
        ensures { self.new ≡ write_number self.old number }
    {
        self.state = (self.state.rotate_left(TURN) ^ number).wrapping_mul(MULTIPLIER);
    }

    #[inline(always)]
    fn add_byte(&mut self, byte: u8)
        ensures { self.new ≡ write_byte self.old byte }
    {
        self.add(u64::from(self.last));
        self.last = byte;
    }
}

impl Hasher for NameHasher {
    ghost write = { write };

    ghost finish = { finish };

    #[inline(always)]
    #[tactic(auto, unfolding(crate::specs::NameHash::finish))]
    fn finish(&self) -> u64 {
        let product = self.state as u128 * MULTIPLIER as u128;
        let last = u64::from(self.last);
        (product & 0xFFFF_FFFF_FFFF_FFFF) as u64 ^ (product >> 64) as u64 ^ last << TAG ^ last & 1
    }

    #[inline(always)]
    fn write(&mut self, bytes: &[u8]) {
        if let [a, b, c, d, e, f, g, h] = bytes {
            self.add(u64::from_le_bytes([*a, *b, *c, *d, *e, *f, *g, *h]));
            return;
        }
        for byte in bytes {
            self.add_byte(*byte);
        }
    }

    #[inline(always)]
    fn write_u8(&mut self, i: u8) {
        self.add_byte(i);
    }

    #[inline(always)]
    fn write_u64(&mut self, i: u64) {
        self.add(i);
    }

    #[inline(always)]
    fn write_usize(&mut self, i: usize) {
        self.add(i as u64);
    }
}

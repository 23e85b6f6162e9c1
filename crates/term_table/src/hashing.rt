//! How nodes are hashed.

ghost use Rattle.std.specs.Prelude.{◌≡◌, ◌≤◌};
ghost use Rattle.term_table.specs.Hashing.{initial, block_of, counted, is_far_from, ranked, written, finished};

use std::hash::{BuildHasher, FoldHasher, Hasher};

/// Numbers below this one count each for itself: the operators, and what is declared first in most scripts.
const EARLY: u64 = 4096;

/// How many later numbers, one after the other, count alike.
const BLOCK: u64 = 32;

/// From this distance on a later number is far from a greater one.
const FAR: u64 = 65_536;

/// How many numbers count alike among those that are far from each other.
const FAR_BLOCK: u64 = 64;

/// The bits of a hash that tell neighbours apart, which are those of the tag.
const APART: u64 = 0xFF00_0000;

/// The bits of a hash that neighbours have in common: which group of an index table.
const TOGETHER: u64 = 0x00FF_FFFF;

/// A hasher that keeps neighbours together. Neighbours are values whose numbers of eight bytes are near each other: of
/// nodes, those of one operator over operands that were made at about the same times. An index table looks for
/// neighbours first in the same group, and next in those that lie behind it in memory, so nodes that are made one after
/// the other over one another are found without a walk through all of the table. Of one operator at most 32 pairs are
/// neighbours where one of the two is early, 1,024 pairs of late operands that are near each other, and 4,096 that are
/// far, each pair in either order, so that no group is first for many.
#[derive(Clone, Copy)]
pub(crate) struct NodeHasher {
    /// All that was written.
    whole: FoldHasher,
    /// What neighbours write alike, but for the greatest number, which goes in last.
    block: FoldHasher,
    greatest: u64,
    /// Whether a late number was far from a greater one.
    is_far: bool,
}

/// What makes the hashers of a map whose keys are nodes.
#[derive(Clone, Copy)]
pub(crate) struct BuildNodeHasher;

impl BuildHasher for BuildNodeHasher {
    type Hasher = NodeHasher;

    ghost build_hasher = { λ _. initial };

    fn build_hasher(&self) -> NodeHasher {
        NodeHasher {
            whole: FoldHasher::default(),
            block: FoldHasher::default(),
            greatest: 0,
            is_far: false,
        }
    }
}

impl NodeHasher {
    fn rank(&mut self, number: u64)
        ensures { self.new ≡ ranked self.old number }
    {
        let less = self.greatest.min(number);
        self.greatest = self.greatest.max(number);
        let is_far = is_far_from(less, self.greatest);
        self.is_far = self.is_far || is_far;
        self.whole.write_u64(number);
        self.block.write_u64(counted(less, is_far));
    }
}

// Whether this is a late number, far from a greater one.
fn is_far_from(number: u64, greater: u64) -> bool
    requires { number ≤ greater }
    ensures { result ≡ is_far_from number greater }
{
    EARLY <= number && FAR <= greater - number
}

// The block of a number, where it is far from the others or where it isn't.
fn block_of(number: u64, is_far: bool) -> u64
    ensures { result ≡ block_of number is_far }
{
    if is_far {
        number / FAR_BLOCK
    } else {
        number / BLOCK
    }
}

// What a number that isn't the greatest counts for.
fn counted(number: u64, is_far: bool) -> u64
    ensures { result ≡ counted number is_far }
{
    if number < EARLY {
        return number;
    }
    EARLY + block_of(number, is_far)
}

impl Hasher for NodeHasher {
    ghost write = { written };

    ghost finish = { finished };

    fn finish(&self) -> u64 {
        let mut block = self.block;
        block.write_u64(block_of(self.greatest, self.is_far));
        self.whole.finish() & APART | block.finish() & TOGETHER
    }

    fn write(&mut self, bytes: &[u8]) {
        match <[u8; 8]>::try_from(bytes) {
            Ok(number) => self.rank(u64::from_le_bytes(number)),
            Err(_) => {
                self.whole.write(bytes);
                self.block.write(bytes);
            }
        }
    }
}

//! What a text is printed to.

ghost use Rattle.std.specs.Prelude.{◌≡◌, ◌++◌, ℕ, List, OnOk, OnErr};
ghost use Rattle.smt_print.specs.Prefix.{AppendsPrefix};

use smt_io::Pieces;
use std::alloc::AllocError;

// A text that grows at its end.
pub(crate) trait Output {
    ghost text: { Self → List ℕ };

    // Appends the bytes. After a refusal a prefix of them was appended.
    fn append(&mut self, bytes: &[u8]) -> Result<(), AllocError>
        ensures ok { OnOk result (text self.new ≡ text self.old ++ bytes.now) }
        ensures prefix { OnErr result (AppendsPrefix (text self.old) (text self.new) bytes.now) };
}

impl Output for Vec<u8> {
    ghost text = { λ bytes. bytes.items };

    fn append(&mut self, bytes: &[u8]) -> Result<(), AllocError> {
        self.extend_from_slice(bytes)
    }
}

impl Output for Pieces {
    ghost text = { λ bytes. bytes };

    fn append(&mut self, bytes: &[u8]) -> Result<(), AllocError> {
        self.push(bytes)
    }
}

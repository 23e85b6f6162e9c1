//! The stack of a walk.

ghost use Rattle.std.specs.Prelude.{◌≡◌, ◌∷◌, [], IfOk, OnOk, OnErr, MatchOption};
ghost use Rattle.term_walk.specs.Packed.{unpacked};

use smt_terms::NodeId;
use std::alloc::{AllocError, Global};
use std::marker::Model;

// A node, and the place of the operand that is looked up next.
#[derive(Clone, Copy)]
pub(crate) struct Frame {
    pub(crate) id: NodeId,
    pub(crate) next: usize,
}

// A frame as it is kept, in half the memory: neither a table nor the operands of a node have 2^32 places.
#[derive(Clone, Copy)]
struct Packed {
    id: u32,
    next: u32,
}

impl Packed {
    fn of(frame: Frame) -> Result<Packed, AllocError>
        ensures { IfOk result (λ p. unpacked p ≡ frame) }
    {
        match (u32::try_from(frame.id.0), u32::try_from(frame.next)) {
            (Ok(id), Ok(next)) => Ok(Packed { id, next }),
            _ => Err(AllocError),
        }
    }

    fn frame(self) -> Frame
        ensures { result ≡ unpacked self }
    {
        Frame {
            id: NodeId(u64::from(self.id)),
            next: self.next as usize,
        }
    }
}

// Frames, of which contracts see the last first.
#[derive(Drop)]
pub(crate) struct Frames {
    packed: Vec<Packed>,
}

impl Model for Frames {
    ghost use Rattle.std.specs.Prelude.{List, reverse, map};
    ghost use Rattle.term_walk.specs.declared.frames.Frame.{Frame};
    ghost use Rattle.term_walk.specs.Packed.{unpacked};

    ghost Value = { List Frame };

    ghost view = { λ s. map unpacked (reverse s.packed.items) };
}

impl Frames {
    pub(crate) fn new(alloc: Global) -> Frames
        ensures { result ≡ [] }
    {
        Frames {
            packed: Vec::new(alloc),
        }
    }

    pub(crate) fn push(&mut self, frame: Frame) -> Result<(), AllocError>
        ensures ok { OnOk result (self.new ≡ frame ∷ self.old) }
        ensures err { OnErr result (self.new ≡ self.old) }
    {
        self.packed.push(Packed::of(frame)?)?;
        Ok(())
    }

    pub(crate) fn pop(&mut self) -> Option<Frame>
        ensures { MatchOption result ((self.old ≡ []) × (self.new ≡ [])) (λ f. self.old ≡ f ∷ self.new) }
    {
        match self.packed.pop() {
            Some(packed) => Some(packed.frame()),
            None => None,
        }
    }
}

//! What a rule answers: a term over the holes of a view, in postfix order.

ghost use Rattle.std.specs.Prelude.{◌≡◌, ◌<◌, ◌≤◌, [], ◌∷◌, ◌++◌, length, slice_get, Some};

use arrayvec::ArrayVec;
use smt_values::{Op, Scalar};
use std::marker::Model;

/// The most pieces of a template.
const MOST: usize = 16;

/// A piece of a template.
#[derive(Clone, Copy)]
pub enum Piece {
    /// What stands in the hole of that number.
    Hole(u8),
    /// A constant.
    Const(Scalar),
    /// An operator over so many of the last results, in their order.
    Apply(Op, u8),
}

/// Fills the places of a list of pieces that aren't used.
impl Default for Piece {
    fn default() -> Piece {
        Piece::Hole(0)
    }
}

/// The pieces of a template, at most 16 of them. They lie in the value itself and take no memory.
#[derive(Drop)]
pub struct Parts {
    parts: ArrayVec<Piece, MOST>,
}

impl Model for Parts {
    ghost use Rattle.std.specs.Prelude.{List};
    ghost use Rattle.rule_book.specs.declared.templates.Piece.{Piece as APiece};

    ghost Value = { List APiece };

    ghost view = { λ s. s.parts.items };
}

impl Parts {
    /// No pieces.
    pub fn new() -> Parts
        ensures { result ≡ [] }
    {
        Parts {
            parts: ArrayVec::new(),
        }
    }

    /// How many pieces there are, at most 16.
    pub fn len(&self) -> usize
        ensures number { result ≡ length self.now }
        ensures bound { result ≤ 16 }
    {
        self.parts.len()
    }

    /// The piece at place `i`, counted from 0.
    pub fn get(&self, i: usize) -> Piece
        requires { i < length self.now }
        ensures { slice_get self.now i ≡ Some result }
    {
        self.parts.as_slice()[i]
    }

    /// One piece more. There have to be fewer than 16.
    pub fn push(&mut self, piece: Piece)
        requires { length self.old < 16 }
        ensures { self.new ≡ self.old ++ piece ∷ [] }
    {
        self.parts.push(piece);
    }
}

/// A term over the holes of a view, in postfix order: each piece puts a result behind those before it, an operator in the place of
/// its operands, and in the end there is one.
#[derive(Drop)]
pub struct Tmpl {
    /// The pieces, from the first to the last.
    pub pieces: Parts,
}

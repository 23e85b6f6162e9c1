//! What a rule is shown of a formula.

ghost use Rattle.std.specs.Prelude.{◌≡◌, ◌<◌, ◌≤◌, [], ◌∷◌, ◌++◌, length, slice_get, Some};

use arrayvec::ArrayVec;
use smt_terms::SortId;
use smt_values::Op;
use std::marker::Model;

/// The most cells of a view: four operands, each with four of its own.
const MOST: usize = 20;

/// A place one or two steps below the root of a view.
#[derive(Clone, Copy)]
pub struct Cell {
    /// 0 for an operand of the root; 1 plus the number of a cell for an operand of what stands there.
    pub up: u8,
    /// The operator, where it is shown: of an operand of the root if it is a constant, or an operator of the theories with at most
    /// four operands; two steps below the root if it is a constant.
    pub op: Option<Op>,
    /// The sort of what stands there.
    pub sort: SortId,
    /// Which hole of a template stands for it. Cells of one term have one hole; holes are numbered from 0 in order of first cell.
    pub hole: u8,
}

/// Fills the places of a list of cells that aren't used.
impl Default for Cell {
    fn default() -> Cell {
        Cell {
            up: 0,
            op: None,
            sort: SortId::BOOL,
            hole: 0,
        }
    }
}

/// The cells of a view, at most 20 of them. They lie in the value itself and take no memory.
#[derive(Drop)]
pub struct Cells {
    cells: ArrayVec<Cell, MOST>,
}

impl Model for Cells {
    ghost use Rattle.std.specs.Prelude.{List};
    ghost use Rattle.rule_book.specs.declared.views.Cell.{Cell as ACell};

    ghost Value = { List ACell };

    ghost view = { λ s. s.cells.items };
}

impl Cells {
    /// No cells.
    pub fn new() -> Cells
        ensures { result ≡ [] }
    {
        Cells {
            cells: ArrayVec::new(),
        }
    }

    /// How many cells there are, at most 20.
    pub fn len(&self) -> usize
        ensures number { result ≡ length self.now }
        ensures bound { result ≤ 20 }
    {
        self.cells.len()
    }

    /// The cell at place `i`, counted from 0.
    pub fn get(&self, i: usize) -> Cell
        requires { i < length self.now }
        ensures { slice_get self.now i ≡ Some result }
    {
        self.cells.as_slice()[i]
    }

    /// One cell more. There have to be fewer than 20.
    pub fn push(&mut self, cell: Cell)
        requires { length self.old < 20 }
        ensures { self.new ≡ self.old ++ cell ∷ [] }
    {
        self.cells.push(cell);
    }
}

/// What a rule is shown of a formula: the operator at its root, its sort, and its cells: the operands of the root from the first to
/// the last, and behind them the operands of each of these that is shown, in order.
#[derive(Drop)]
pub struct View {
    /// An operator of the theories, over one to four operands.
    pub root: Op,
    /// The sort of the formula.
    pub sort: SortId,
    /// What stands one and two steps below the root.
    pub cells: Cells,
}

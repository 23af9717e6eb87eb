// The values that expressions compute.
ghost use Rattle.std.specs.Prelude.{◌≡◌, ◌↔◌, IsTrue, IfOk};
ghost use Rattle.cell_value.specs.Cell.{kind, cell_cmp, same_cells, truth, number_in};

use fixed_num::Num;
use std::alloc::Global;
use std::cmp::Ordering;
use text_kit::{Copies, OutOfMemory, Text};

/// A value that an expression computes, and that a row holds under a name.
#[derive(Debug, Drop)]
pub enum Cell {
    /// No value.
    Null,
    /// True or false.
    Flag(bool),
    /// A number.
    Number(Num),
    /// A text.
    Text(Text),
    /// Two numbers.
    Pair(Num, Num),
}

impl Cell {
    // Where the kind stands in the order of cells.
    fn kind(&self) -> u8
        ensures { result ≡ kind self.now }
    {
        match self {
            Cell::Null => 0,
            Cell::Flag(_) => 1,
            Cell::Number(_) => 2,
            Cell::Text(_) => 3,
            Cell::Pair(_, _) => 4,
        }
    }

    /// How this cell stands to `o` in the order of cells: null, false, true, numbers, texts by their bytes,
    /// pairs by their first and then by their second number.
    pub fn order(&self, o: &Cell) -> Ordering
        ensures { result ≡ cell_cmp self.now o.now }
    {
        match (self, o) {
            (Cell::Flag(a), Cell::Flag(b)) => a.cmp(b),
            (Cell::Number(a), Cell::Number(b)) => a.cmp(b),
            (Cell::Text(a), Cell::Text(b)) => a.as_str().cmp(b.as_str()),
            (Cell::Pair(a, b), Cell::Pair(c, d)) => a.cmp(c).then(b.cmp(d)),
            _ => self.kind().cmp(&o.kind()),
        }
    }

    /// Whether the two are the same cell.
    #[tactic(auto, using(crate::specs::inner::CellOrder::same_cells_tell))]
    pub fn same(&self, o: &Cell) -> bool
        ensures value { result ≡ same_cells self.now o.now }
        ensures same { IsTrue result ↔ (self.now ≡ o.now) }
    {
        self.order(o).is_eq()
    }

    /// Whether the cell counts as true: null, false, 0 and the empty text do not.
    pub fn truthy(&self) -> bool
        ensures { result ≡ truth self.now }
    {
        match self {
            Cell::Null => false,
            Cell::Flag(b) => *b,
            Cell::Number(n) => n.millionths() != 0,
            Cell::Text(text) => !text.is_empty(),
            Cell::Pair(_, _) => true,
        }
    }

    /// The cell's number; None exactly where it is none.
    pub fn number(&self) -> Option<Num>
        ensures { result ≡ number_in self.now }
    {
        match self {
            Cell::Number(number) => Some(*number),
            _ => None,
        }
    }

    /// A cell that equals this one.
    pub fn copy(&self) -> Result<Cell, OutOfMemory>
        ensures { IfOk result (λ cell. cell ≡ self.now) }
    {
        match self {
            Cell::Null => Ok(Cell::Null),
            Cell::Flag(b) => Ok(Cell::Flag(*b)),
            Cell::Number(n) => Ok(Cell::Number(*n)),
            Cell::Text(text) => Ok(Cell::Text(text.copy()?)),
            Cell::Pair(a, b) => Ok(Cell::Pair(*a, *b)),
        }
    }
}

impl Copies for Cell {
    fn copied(&self, _: Global) -> Result<Cell, OutOfMemory> {
        self.copy()
    }
}

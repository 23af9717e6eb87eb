// Cells as keys.
ghost use Rattle.std.specs.Prelude.{◌≡◌, IfOk};
ghost use Rattle.cell_value.specs.declared.cell.Cell.TheVariants as cell;
ghost use Rattle.cell_value.specs.Cell.{kind, cell_cmp, number_in};
ghost use Rattle.row_keys.specs.inner.Form.{cell_in};

use cell_value::{Cell, Held, SharedText, TextPool};
use fixed_num::Num;
use std::alloc::Global;
use std::cmp::Ordering;
use std::marker::Model;
use text_kit::{Boxed, Copies, OutOfMemory};

/// A cell as a key of maps: in a third of a `Cell`'s room, with a text that keys share, and in the order of cells. Contracts see it as the
/// cell.
#[derive(Drop)]
pub struct CellKey {
    form: Form,
}

// The forms in which cells are keys.
#[derive(Drop)]
enum Form {
    Null,
    Flag(bool),
    // a number by its millionths
    Number(i64),
    Text(SharedText),
    // a number that needs more bits, or a pair
    Other(Boxed<Cell>),
}

impl Model for CellKey {
    ghost use Rattle.cell_value.specs.declared.cell.Cell.{Cell};
    ghost use Rattle.cell_value.specs.contracts.cell.Cell as cell;
    ghost use Rattle.row_keys.specs.inner.Form.{cell_in};

    ghost Value = { Cell };

    ghost coded = { cell.the_row.coded };

    ghost view = { λ key. cell_in key.form };
}

// Where the kind of a cell stands in the order of cells.
fn kind_of(c: &Cell) -> u8
    ensures { result ≡ kind c.now }
{
    match c {
        Cell::Null => 0,
        Cell::Flag(_) => 1,
        Cell::Number(_) => 2,
        Cell::Text(_) => 3,
        Cell::Pair(_, _) => 4,
    }
}

// The number of so many millionths.
fn number_of(millionths: i64) -> Num
    ensures { result ≡ millionths }
{
    match Num::of_millionths(i128::from(millionths)) {
        Some(number) => number,
        None => unreachable!(),
    }
}

impl Form {
    // The form of a number.
    fn of_number(alloc: Global, number: Num) -> Result<Form, OutOfMemory>
        ensures { IfOk result (λ form. cell_in form ≡ cell.Number number) }
    {
        match i64::try_from(number.millionths()) {
            Ok(millionths) => Ok(Form::Number(millionths)),
            Err(_) => Ok(Form::Other(Boxed::new(alloc, Cell::Number(number))?)),
        }
    }

    // The form of a cell, with a text of the pool's.
    fn of(alloc: Global, pool: &mut TextPool, c: &Cell) -> Result<Form, OutOfMemory>
        ensures { IfOk result (λ form. cell_in form ≡ c.now) }
    {
        match c {
            Cell::Null => Ok(Form::Null),
            Cell::Flag(flag) => Ok(Form::Flag(*flag)),
            Cell::Number(number) => Form::of_number(alloc, *number),
            Cell::Text(text) => Ok(Form::Text(pool.shared(alloc, text.as_str())?)),
            Cell::Pair(a, b) => Ok(Form::Other(Boxed::new(alloc, Cell::Pair(*a, *b))?)),
        }
    }

    // The cell.
    fn cell(&self) -> Result<Cell, OutOfMemory>
        ensures { IfOk result (λ c. c ≡ cell_in self.now) }
    {
        match self {
            Form::Null => Ok(Cell::Null),
            Form::Flag(flag) => Ok(Cell::Flag(*flag)),
            Form::Number(millionths) => Ok(Cell::Number(number_of(*millionths))),
            Form::Text(text) => Ok(Cell::Text(text.as_text().copy()?)),
            Form::Other(c) => c.get().copy(),
        }
    }

    // The cell as a row holds it, with its text shared.
    fn held(&self, alloc: Global) -> Result<Held, OutOfMemory>
        ensures { IfOk result (λ held. held ≡ cell_in self.now) }
    {
        match self {
            Form::Null => Ok(Held::null()),
            Form::Flag(flag) => Ok(Held::of_flag(*flag)),
            Form::Number(millionths) => Held::of_number(alloc, number_of(*millionths)),
            Form::Text(text) => Ok(Held::of_text(text.copy()?)),
            Form::Other(c) => Held::of(alloc, c.get().copy()?),
        }
    }

    // The cell's number, if it is one.
    fn number(&self) -> Option<Num>
        ensures { result ≡ number_in (cell_in self.now) }
    {
        match self {
            Form::Number(millionths) => Some(number_of(*millionths)),
            Form::Other(c) => c.get().number(),
            Form::Null | Form::Flag(_) | Form::Text(_) => None,
        }
    }

    // Where the kind of the cell stands in the order of cells.
    fn kind(&self) -> u8
        ensures { result ≡ kind (cell_in self.now) }
    {
        match self {
            Form::Null => 0,
            Form::Flag(_) => 1,
            Form::Number(_) => 2,
            Form::Text(_) => 3,
            Form::Other(c) => kind_of(c.get()),
        }
    }

    // How the cell stands to another in the order of cells.
    fn order_to(&self, c: &Cell) -> Ordering
        ensures { result ≡ cell_cmp (cell_in self.now) c.now }
    {
        match (self, c) {
            (Form::Flag(a), Cell::Flag(b)) => a.cmp(b),
            (Form::Number(a), Cell::Number(b)) => number_of(*a).cmp(b),
            (Form::Text(a), Cell::Text(b)) => a.as_str().cmp(b.as_str()),
            (Form::Other(a), _) => a.get().order(c),
            _ => self.kind().cmp(&kind_of(c)),
        }
    }

    // How another cell stands to this one.
    #[tactic(auto, using(crate::proofs::OrderLemmas::cells_turned))]
    fn order_from(&self, c: &Cell) -> Ordering
        ensures { result ≡ cell_cmp c.now (cell_in self.now) }
    {
        self.order_to(c).reverse()
    }

    // How the cell stands to that of another form.
    fn order(&self, o: &Form) -> Ordering
        ensures { result ≡ cell_cmp (cell_in self.now) (cell_in o.now) }
    {
        match (self, o) {
            (Form::Flag(a), Form::Flag(b)) => a.cmp(b),
            (Form::Number(a), Form::Number(b)) => a.cmp(b),
            (Form::Text(a), Form::Text(b)) => a.as_str().cmp(b.as_str()),
            (_, Form::Other(b)) => self.order_to(b.get()),
            (Form::Other(a), _) => o.order_from(a.get()),
            _ => self.kind().cmp(&o.kind()),
        }
    }

    // The same form once more.
    fn copy(&self, alloc: Global) -> Result<Form, OutOfMemory>
        ensures { IfOk result (λ copy. cell_in copy ≡ cell_in self.now) }
    {
        match self {
            Form::Null => Ok(Form::Null),
            Form::Flag(flag) => Ok(Form::Flag(*flag)),
            Form::Number(millionths) => Ok(Form::Number(*millionths)),
            Form::Text(text) => Ok(Form::Text(text.copy()?)),
            Form::Other(c) => Ok(Form::Other(Boxed::new(alloc, c.get().copy()?)?)),
        }
    }
}

impl CellKey {
    /// A cell as a key. Its text is one that the pool gives, so that keys with the same text share it.
    pub fn of(alloc: Global, pool: &mut TextPool, c: &Cell) -> Result<CellKey, OutOfMemory>
        ensures { IfOk result (λ key. key ≡ c.now) }
    {
        Ok(CellKey {
            form: Form::of(alloc, pool, c)?,
        })
    }

    /// A copy of the cell.
    pub fn cell(&self) -> Result<Cell, OutOfMemory>
        ensures { IfOk result (λ c. c ≡ self.now) }
    {
        self.form.cell()
    }

    /// The cell as a row holds it. A text is shared.
    pub fn held(&self, alloc: Global) -> Result<Held, OutOfMemory>
        ensures { IfOk result (λ held. held ≡ self.now) }
    {
        self.form.held(alloc)
    }

    /// The cell's number; None exactly where it is none.
    pub fn number(&self) -> Option<Num>
        ensures { result ≡ number_in self.now }
    {
        self.form.number()
    }

    /// How the cell stands to another in the order of cells.
    pub fn order(&self, o: &CellKey) -> Ordering
        ensures { result ≡ cell_cmp self.now o.now }
    {
        self.form.order(&o.form)
    }

    /// The same key once more. A text is shared.
    pub fn copy(&self, alloc: Global) -> Result<CellKey, OutOfMemory>
        ensures { IfOk result (λ copy. copy ≡ self.now) }
    {
        Ok(CellKey {
            form: self.form.copy(alloc)?,
        })
    }
}

impl Copies for CellKey {
    fn copied(&self, alloc: Global) -> Result<CellKey, OutOfMemory> {
        self.copy(alloc)
    }
}

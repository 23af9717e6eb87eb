// Cells as rows hold them.
ghost use Rattle.std.specs.Prelude.{◌≡◌, IfOk};
ghost use Rattle.cell_value.specs.declared.cell.Cell.TheVariants as cell;
ghost use Rattle.cell_value.specs.Cell.{number_in};
ghost use Rattle.cell_value.specs.inner.Held.{cell_in};

use crate::{Cell, SharedText};
use fixed_num::Num;
use std::alloc::Global;
use std::marker::Model;
use text_kit::{Boxed, Copies, OutOfMemory};

/// A cell as a row holds it: in a third of a `Cell`'s room, with a text that copies share. Contracts see it as the cell.
#[derive(Debug, Drop)]
pub struct Held {
    form: Form,
}

// The forms in which cells are held.
#[derive(Debug, Drop)]
enum Form {
    Null,
    Flag(bool),
    // a number by its millionths
    Number(i64),
    Text(SharedText),
    // a number that needs more bits, or a pair
    Other(Boxed<Cell>),
}

impl Model for Held {
    ghost use Rattle.cell_value.specs.declared.cell.Cell.{Cell};
    ghost use Rattle.cell_value.specs.contracts.cell.Cell as cell;
    ghost use Rattle.cell_value.specs.inner.Held.{cell_in};

    ghost Value = { Cell };

    ghost coded = { cell.the_row.coded };

    ghost view = { λ held. cell_in held.form };
}

// The number of so many millionths.
fn number_of(millionths: i64) -> Num
    ensures { result ≡ millionths }
{
    match Num::of_millionths(i128::from(millionths)) {
        Some(number) => number,
        None => unreachable!(),
    }
}

impl Form {
    // The form of a number.
    fn of_number(alloc: Global, number: Num) -> Result<Form, OutOfMemory>
        ensures { IfOk result (λ form. cell_in form ≡ cell.Number number) }
    {
        match i64::try_from(number.millionths()) {
            Ok(millionths) => Ok(Form::Number(millionths)),
            Err(_) => Ok(Form::Other(Boxed::new(alloc, Cell::Number(number))?)),
        }
    }

    // The form of a cell.
    fn of(alloc: Global, c: Cell) -> Result<Form, OutOfMemory>
        ensures { IfOk result (λ form. cell_in form ≡ c) }
    {
        match c {
            Cell::Null => Ok(Form::Null),
            Cell::Flag(flag) => Ok(Form::Flag(flag)),
            Cell::Number(number) => Form::of_number(alloc, number),
            Cell::Text(text) => Ok(Form::Text(SharedText::of_text(alloc, text)?)),
            Cell::Pair(a, b) => Ok(Form::Other(Boxed::new(alloc, Cell::Pair(a, b))?)),
        }
    }

    // The cell.
    fn cell(&self) -> Result<Cell, OutOfMemory>
        ensures { IfOk result (λ c. c ≡ cell_in self.now) }
    {
        match self {
            Form::Null => Ok(Cell::Null),
            Form::Flag(flag) => Ok(Cell::Flag(*flag)),
            Form::Number(millionths) => Ok(Cell::Number(number_of(*millionths))),
            Form::Text(text) => Ok(Cell::Text(text.as_text().copy()?)),
            Form::Other(c) => c.get().copy(),
        }
    }

    // The cell's number, if it is one.
    fn number(&self) -> Option<Num>
        ensures { result ≡ number_in (cell_in self.now) }
    {
        match self {
            Form::Number(millionths) => Some(number_of(*millionths)),
            Form::Other(c) => c.get().number(),
            Form::Null | Form::Flag(_) | Form::Text(_) => None,
        }
    }

    // The same form once more.
    fn copy(&self, alloc: Global) -> Result<Form, OutOfMemory>
        ensures { IfOk result (λ copy. cell_in copy ≡ cell_in self.now) }
    {
        match self {
            Form::Null => Ok(Form::Null),
            Form::Flag(flag) => Ok(Form::Flag(*flag)),
            Form::Number(millionths) => Ok(Form::Number(*millionths)),
            Form::Text(text) => Ok(Form::Text(text.copy()?)),
            Form::Other(c) => Ok(Form::Other(Boxed::new(alloc, c.get().copy()?)?)),
        }
    }
}

impl Held {
    /// No value.
    pub fn null() -> Held
        ensures { result ≡ cell.Null }
    {
        Held { form: Form::Null }
    }

    /// True or false.
    pub fn of_flag(flag: bool) -> Held
        ensures { result ≡ cell.Flag flag }
    {
        Held {
            form: Form::Flag(flag),
        }
    }

    /// A number. It takes memory only where its millionths need more than 64 bits.
    pub fn of_number(alloc: Global, number: Num) -> Result<Held, OutOfMemory>
        ensures { IfOk result (λ held. held ≡ cell.Number number) }
    {
        Ok(Held {
            form: Form::of_number(alloc, number)?,
        })
    }

    /// A text, which others may share.
    pub fn of_text(text: SharedText) -> Held
        ensures { result ≡ cell.Text text }
    {
        Held {
            form: Form::Text(text),
        }
    }

    /// A cell, as a row holds it.
    pub fn of(alloc: Global, c: Cell) -> Result<Held, OutOfMemory>
        ensures { IfOk result (λ held. held ≡ c) }
    {
        Ok(Held {
            form: Form::of(alloc, c)?,
        })
    }

    /// A copy of the cell.
    pub fn cell(&self) -> Result<Cell, OutOfMemory>
        ensures { IfOk result (λ c. c ≡ self.now) }
    {
        self.form.cell()
    }

    /// The cell's number; None exactly where it is none.
    pub fn number(&self) -> Option<Num>
        ensures { result ≡ number_in self.now }
    {
        self.form.number()
    }

    /// The same cell once more. A text is shared.
    pub fn copy(&self, alloc: Global) -> Result<Held, OutOfMemory>
        ensures { IfOk result (λ copy. copy ≡ self.now) }
    {
        Ok(Held {
            form: self.form.copy(alloc)?,
        })
    }
}

impl Copies for Held {
    fn copied(&self, alloc: Global) -> Result<Held, OutOfMemory> {
        self.copy(alloc)
    }
}

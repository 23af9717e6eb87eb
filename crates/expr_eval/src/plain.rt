// Readers that count nothing: over a plain row, over no row, and over no parameters.
ghost use Rattle.std.specs.Prelude.{◌≡◌, ◌≤◌, ◌*◌, pos, IfOk};
ghost use Rattle.fixed_num.specs.Number.{million};
ghost use Rattle.cell_value.specs.State.{greatest_id};
ghost use Rattle.cell_value.specs.Datum.{cell_at};
ghost use Rattle.expr_eval.specs.Answers.{RisesBy};
ghost use Rattle.expr_eval.specs.Plain.{null_row, no_values};

use crate::{EvalError, ParamReader, RowReader};
use cell_value::{Cell, Keyed, Steps};
use fixed_num::Num;
use std::alloc::Global;
use std::sync::ledger::Ledger;
use text_kit::OutOfMemory;

/// A keyed row, of which `_vgsid_` reads as the id, whatever it holds there.
#[derive(Clone, Copy)]
pub struct PlainRow<'a> {
    keyed: &'a Keyed,
    ghost small_id: { keyed.now.key.id ≤ greatest_id },
}

impl<'a> PlainRow<'a> {
    /// A reader of the row. Its id is at most 10^15.
    pub fn of(keyed: &'a Keyed) -> PlainRow<'a>
        requires { keyed.now.key.id ≤ greatest_id }
        ensures { ⟦<PlainRow<'a> as RowReader>⟧.cells result ≡ cell_at keyed.now }
    {
        PlainRow { keyed }
    }
}

impl RowReader for PlainRow<'_> {
    ghost cells = { λ row. cell_at row.keyed.now };

    fn field<L: Ledger>(
        &self,
        _: Global,
        name: &str,
        steps: &mut Steps<L>,
    ) -> Result<Cell, OutOfMemory>
        ensures cell { IfOk result (λ cell. cell ≡ cell_at self.now.keyed.now name.now) }
        ensures one_step { RisesBy 1 steps.old steps.new }
        // Nothing is counted.
        ensures still { steps.new ≡ steps.old }
    {
        if name == "_vgsid_" {
            return Ok(Cell::Number(id_number(self.keyed.key.id)));
        }
        match self.keyed.row.get(name) {
            Some(cell) => cell.cell(),
            None => Ok(Cell::Null),
        }
    }
}

fn id_number(id: u64) -> Num
    requires { id ≤ greatest_id }
    ensures { result ≡ pos (id * million) }
{
    match Num::of_millionths(i128::from(id) * 1_000_000) {
        Some(number) => number,
        None => unreachable!(),
    }
}

/// No row: each name reads as null.
#[derive(Clone, Copy)]
pub struct NoRow;

impl RowReader for NoRow {
    ghost cells = { λ _. null_row };

    fn field<L: Ledger>(
        &self,
        _: Global,
        name: &str,
        steps: &mut Steps<L>,
    ) -> Result<Cell, OutOfMemory>
        ensures cell { IfOk result (λ cell. cell ≡ null_row name.now) }
        ensures one_step { RisesBy 1 steps.old steps.new }
        // Nothing is counted.
        ensures still { steps.new ≡ steps.old }
    {
        Ok(Cell::Null)
    }
}

/// No parameters: each value is null, no store has a tuple or holds a row, and no scale has a domain.
#[derive(Clone, Copy)]
pub struct NoParams;

impl ParamReader for NoParams {
    ghost values = { λ _. no_values };

    fn param(&self, _: Global, _: &str) -> Result<Cell, EvalError> {
        Ok(Cell::Null)
    }

    fn member(&self, _: Global, _: &str, _: &str) -> Result<Cell, OutOfMemory> {
        Ok(Cell::Null)
    }

    fn stored(&self, _: &str) -> u64 {
        0
    }

    fn selected<R: RowReader, L: Ledger>(
        &self,
        _: Global,
        _: &str,
        _: &R,
        _: &mut Steps<L>,
    ) -> Result<bool, OutOfMemory> {
        Ok(false)
    }

    fn domain_length(&self, _: &str) -> u64 {
        0
    }
}

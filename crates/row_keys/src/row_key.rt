// The cells of rows in some fields, as keys.
ghost use Rattle.std.specs.Prelude.{◌≡◌, ◌≤◌, map, IfOk};
ghost use Rattle.std.specs.Cmp.Lexicographic.{slice_cmp};
ghost use Rattle.cell_value.specs.Cell.{cell_cmp};
ghost use Rattle.cell_value.specs.State.{greatest_id};
ghost use Rattle.cell_value.specs.Datum.{cell_at};

use crate::CellKey;
use cell_value::{Keyed, TextPool};
use plain_rows::cell_of;
use std::alloc::Global;
use std::cmp::Ordering;
use std::marker::Model;
use text_kit::{Copies, OutOfMemory, Seq, Text, copy_list};

/// The cells that a row reads in some fields, in the order of the fields, as one key of maps. Keys stand by the first cell in which they
/// differ. Contracts see it as the list of the cells.
#[derive(Drop)]
pub struct RowKey {
    cells: Seq<CellKey>,
}

impl Model for RowKey {
    ghost use Rattle.std.specs.Prelude.{List};
    ghost use Rattle.std.specs.Coded.{coded_list};
    ghost use Rattle.cell_value.specs.declared.cell.Cell.{Cell};
    ghost use Rattle.cell_value.specs.contracts.cell.Cell as cell;

    ghost Value = { List Cell };

    ghost coded = { coded_list cell.the_row.coded };

    ghost view = { λ key. key.cells };
}

// The cell that a row reads in a field.
fn key_at(
    alloc: Global,
    pool: &mut TextPool,
    row: &Keyed,
    field: &Text,
) -> Result<CellKey, OutOfMemory>
    requires { row.now.key.id ≤ greatest_id }
    ensures { IfOk result (λ key. key ≡ cell_at row.now field.now) }
{
    let cell = cell_of(row, field.as_str())?;
    CellKey::of(alloc, pool, &cell)
}

// The cells that a row reads in the fields.
fn keys_at(
    alloc: Global,
    pool: &mut TextPool,
    row: &Keyed,
    fields: &[Text],
) -> Result<Seq<CellKey>, OutOfMemory>
    requires { row.now.key.id ≤ greatest_id }
    ensures { IfOk result (λ cells. cells ≡ map (cell_at row.now) fields.now) }
{
    let mut cells = Seq::with_capacity(alloc, fields.len())?;
    for field in fields {
        cells.push(key_at(alloc, pool, row, field)?)?;
    }
    Ok(cells)
}

impl RowKey {
    /// The cells that a row reads in the fields, as a key. Texts are those that the pool gives.
    pub fn of(
        alloc: Global,
        pool: &mut TextPool,
        row: &Keyed,
        fields: &[Text],
    ) -> Result<RowKey, OutOfMemory>
        requires { row.now.key.id ≤ greatest_id }
        ensures { IfOk result (λ key. key ≡ map (cell_at row.now) fields.now) }
    {
        Ok(RowKey {
            cells: keys_at(alloc, pool, row, fields)?,
        })
    }

    /// The cells.
    pub fn cells(&self) -> &[CellKey]
        ensures { result.now ≡ self.now }
    {
        self.cells.as_slice()
    }

    /// How the key stands to another: by the first cell in which they differ, else the shorter first.
    pub fn order(&self, o: &RowKey) -> Ordering
        ensures { result ≡ slice_cmp cell_cmp self.now o.now }
    {
        self.cells.as_slice().cmp(o.cells.as_slice())
    }

    /// The same key once more. Texts are shared.
    pub fn copy(&self, alloc: Global) -> Result<RowKey, OutOfMemory>
        ensures { IfOk result (λ copy. copy ≡ self.now) }
    {
        Ok(RowKey {
            cells: copy_list(alloc, self.cells.as_slice())?,
        })
    }
}

impl Copies for RowKey {
    fn copied(&self, alloc: Global) -> Result<RowKey, OutOfMemory> {
        self.copy(alloc)
    }
}

// Cells under names.
ghost use Rattle.std.specs.Prelude.{◌≡◌, ◌<◌, T, length, slice_set, IfOk, IfErr, OnOk, OnErr, option_copied};
ghost use Rattle.std.specs.Ordering.{nat_cmp};
ghost use Rattle.std.specs.Cmp.Lexicographic.{slice_cmp};
ghost use Rattle.std.specs.FinMap as map;
ghost use Rattle.cell_value.specs.inner.Place.{IsAt, IsGap};
ghost use Rattle.cell_value.specs.Row.{row_of};

use crate::gather::{gathered, listed};
use crate::{Cell, Held, SharedText};
use std::alloc::Global;
use std::marker::Model;
use std::rc::Rc;
use text_kit::{Copies, OutOfMemory, Text};

// How many entries are put in their places one by one; more are gathered in a map.
const FEW: usize = 1024;

/// Cells under names, each name once. Copies share the cells until one is set. Contracts see it as the finite map from the names' bytes to
/// the cells.
#[derive(Debug, Drop)]
pub struct Row {
    cells: Rc<Vec<(SharedText, Held)>>,
}

impl Model for Row {
    ghost use Rattle.std.specs.Prelude.{T};
    ghost use Rattle.std.specs.Coded.{coded_list, coded_ℕ};
    ghost use Rattle.std.specs.Ordering.{nat_cmp};
    ghost use Rattle.std.specs.Cmp.Lexicographic.{slice_cmp};
    ghost use Rattle.std.specs.FinMap as map;
    ghost use Rattle.cell_value.specs.declared.cell.Cell.{Cell};
    ghost use Rattle.cell_value.specs.contracts.cell.Cell as cell;

    ghost Value = { map.FinMap (slice_cmp nat_cmp) Cell };

    ghost coded = { map.code (coded_list coded_ℕ) cell.the_row.coded };

    ghost view = { λ row. map.from_sorted row.cells.value.items };

    ghost invariant = { λ row. T (map.is_sorted (slice_cmp nat_cmp) row.cells.value.items) };
}

// Where the name stands, or where it would go.
fn place_of(cells: &[(SharedText, Held)], name: &str) -> Result<usize, usize>
    requires { T (map.is_sorted (slice_cmp nat_cmp) cells.now) }
    ensures found { IfOk result (IsAt (slice_cmp nat_cmp) cells.now name.now) }
    ensures absent { IfErr result (IsGap (slice_cmp nat_cmp) cells.now name.now) }
{
    cells.binary_search_by(|entry| entry.0.as_str().cmp(name))
}

// Writes over the entry at a place.
fn replace(cells: &mut Vec<(SharedText, Held)>, at: usize, name: SharedText, c: Held)
    requires { at < length cells.old.items }
    ensures { cells.new.items ≡ slice_set cells.old.items at (name, c) }
{
    cells[at] = (name, c);
}

// Puts a cell under a name. Where memory is refused the entries stay.
fn put(cells: &mut Vec<(SharedText, Held)>, name: SharedText, c: Held) -> Result<(), OutOfMemory>
    requires { T (map.is_sorted (slice_cmp nat_cmp) cells.old.items) }
    ensures ok { OnOk result (cells.new.items ≡ map.put (slice_cmp nat_cmp) name c cells.old.items) }
    ensures err { OnErr result (cells.new.items ≡ cells.old.items) }
{
    match place_of(cells, name.as_str()) {
        Ok(at) => replace(cells, at, name, c),
        Err(at) => cells.insert(at, (name, c))?,
    }
    Ok(())
}

// The entries once more, with room for one besides.
fn copy_of(
    alloc: Global,
    cells: &[(SharedText, Held)],
) -> Result<Vec<(SharedText, Held)>, OutOfMemory>
    ensures { IfOk result (λ copy. copy.items ≡ cells.now) }
{
    let mut copy = Vec::with_capacity(alloc, cells.len().saturating_add(1))?;
    for cell in cells {
        copy.push(cell.copied(alloc)?)?;
    }
    Ok(copy)
}

// The entries with a cell put under a name.
fn with_cell(
    alloc: Global,
    cells: &[(SharedText, Held)],
    name: SharedText,
    c: Held,
) -> Result<Vec<(SharedText, Held)>, OutOfMemory>
    requires { T (map.is_sorted (slice_cmp nat_cmp) cells.now) }
    ensures { IfOk result (λ copy. copy.items ≡ map.put (slice_cmp nat_cmp) name c cells.now) }
{
    let mut copy = copy_of(alloc, cells)?;
    put(&mut copy, name, c)?;
    Ok(copy)
}

// The entries that are left after each is put in its place in turn.
#[tactic(auto, using(crate::proofs::RowLemmas::nothing_put, crate::proofs::RowLemmas::one_put))]
fn put_each(
    alloc: Global,
    entries: Vec<(SharedText, Held)>,
) -> Result<Vec<(SharedText, Held)>, OutOfMemory>
    ensures sorted { IfOk result (λ cells. T (map.is_sorted (slice_cmp nat_cmp) cells.items)) }
    ensures row { IfOk result (λ cells. map.from_sorted cells.items ≡ row_of entries.items) }
{
    let mut cells = Vec::with_capacity(alloc, entries.len())?;
    for (name, cell) in entries {
        put(&mut cells, name, cell)?;
    }
    Ok(cells)
}

// The entries that are left, by a map.
fn gather_all(
    alloc: Global,
    entries: Vec<(SharedText, Held)>,
) -> Result<Vec<(SharedText, Held)>, OutOfMemory>
    ensures sorted { IfOk result (λ cells. T (map.is_sorted (slice_cmp nat_cmp) cells.items)) }
    ensures row { IfOk result (λ cells. map.from_sorted cells.items ≡ row_of entries.items) }
{
    listed(alloc, gathered(alloc, entries)?)
}

// The entries that are left, in the order of their names.
fn sorted(
    alloc: Global,
    entries: Vec<(SharedText, Held)>,
) -> Result<Vec<(SharedText, Held)>, OutOfMemory>
    ensures sorted { IfOk result (λ cells. T (map.is_sorted (slice_cmp nat_cmp) cells.items)) }
    ensures row { IfOk result (λ cells. map.from_sorted cells.items ≡ row_of entries.items) }
{
    if entries.len() <= FEW {
        put_each(alloc, entries)
    } else {
        gather_all(alloc, entries)
    }
}

// Cells under their names, as a row holds them.
fn held_entries(
    alloc: Global,
    entries: Vec<(Text, Cell)>,
) -> Result<Vec<(SharedText, Held)>, OutOfMemory>
    ensures { IfOk result (λ held. held.items ≡ entries.items) }
{
    let mut held = Vec::with_capacity(alloc, entries.len())?;
    for (name, cell) in entries {
        let name = SharedText::of_text(alloc, name)?;
        held.push((name, Held::of(alloc, cell)?))?;
    }
    Ok(held)
}

impl Row {
    /// A row without cells.
    pub fn new(alloc: Global) -> Result<Row, OutOfMemory>
        ensures { IfOk result (λ row. row ≡ map.empty) }
    {
        let row = Row::from_sorted(alloc, Vec::new(alloc))?;
        Ok(row)
    }

    /// The row that is left after each cell is set under its name in turn: of several under one name the last
    /// holds. It takes no more steps than a sort.
    pub fn from_entries(alloc: Global, entries: Vec<(Text, Cell)>) -> Result<Row, OutOfMemory>
        ensures { IfOk result (λ row. row ≡ row_of entries.items) }
    {
        Row::from_shared(alloc, held_entries(alloc, entries)?)
    }

    /// The row that is left after each cell is set under its name in turn, with the names and the texts shared: of several under one
    /// name the last holds. It takes no more steps than a sort.
    pub fn from_shared(alloc: Global, entries: Vec<(SharedText, Held)>) -> Result<Row, OutOfMemory>
        ensures { IfOk result (λ row. row ≡ row_of entries.items) }
    {
        Row::from_sorted(alloc, sorted(alloc, entries)?)
    }

    /// The row of these entries, whose names strictly rise. It takes no step.
    pub fn from_sorted(alloc: Global, entries: Vec<(SharedText, Held)>) -> Result<Row, OutOfMemory>
        requires { T (map.is_sorted (slice_cmp nat_cmp) entries.items) }
        ensures entries { IfOk result (λ row. map.entries row ≡ entries.items) }
        ensures row { IfOk result (λ row. row ≡ map.from_sorted entries.items) }
    {
        Ok(Row {
            cells: Rc::new(alloc, entries)?,
        })
    }

    /// How many names there are.
    pub fn len(&self) -> usize
        ensures { result ≡ map.len self.now }
    {
        self.cells.as_ref().len()
    }

    /// The names and their cells, in the order of the names' bytes.
    pub fn entries(&self) -> &[(SharedText, Held)]
        ensures { result.now ≡ map.entries self.now }
    {
        self.cells.as_ref().as_slice()
    }

    /// The cell under a name; None exactly where the name is absent. It takes a number of steps that is
    /// logarithmic in the number of names.
    pub fn get(&self, name: &str) -> Option<&Held>
        ensures { option_copied result ≡ map.get self.now name.now }
    {
        let cells = self.cells.as_ref().as_slice();
        match place_of(cells, name) {
            Ok(at) => Some(&cells[at].1),
            Err(_) => None,
        }
    }

    /// A row that equals this one. It shares the cells, and takes no memory.
    pub fn copy(&self) -> Result<Row, OutOfMemory>
        ensures { IfOk result (λ row. row ≡ self.now) }
    {
        Ok(Row {
            cells: self.cells.clone()?,
        })
    }

    /// Puts `c` under a name, in place of the cell that was there. Rows that share the cells keep theirs. Where memory is refused the
    /// row stays.
    pub fn set(&mut self, name: Text, c: Cell) -> Result<(), OutOfMemory>
        ensures ok { OnOk result (self.new ≡ map.insert self.old name c) }
        ensures err { OnErr result (self.new ≡ self.old) }
    {
        let alloc = *self.cells.as_ref().allocator();
        let name = SharedText::of_text(alloc, name)?;
        self.set_shared(alloc, name, Held::of(alloc, c)?)?;
        Ok(())
    }

    /// As `set`, of a name and a cell that rows share.
    pub fn set_shared(
        &mut self,
        alloc: Global,
        name: SharedText,
        c: Held,
    ) -> Result<(), OutOfMemory>
        ensures ok { OnOk result (self.new ≡ map.insert self.old name c) }
        ensures err { OnErr result (self.new ≡ self.old) }
    {
        let cells = with_cell(alloc, self.cells.as_ref().as_slice(), name, c)?;
        self.cells = Rc::new(alloc, cells)?;
        Ok(())
    }
}

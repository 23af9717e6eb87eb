// What a scale has for the cells of its domain, found once.
ghost use Rattle.std.specs.Prelude.{◌≡◌, pos, Some, IfOk, OnOk, if◌then◌else◌};
ghost use Rattle.cell_value.specs.declared.cell.Cell.{Cell as AnyCell};
ghost use Rattle.cell_value.specs.Cell.{same_cells};
ghost use Rattle.scale_kit.specs.Scale.{IsScale};
ghost use Rattle.scale_kit.specs.Places.{domain_cells};
ghost use Rattle.scale_index.specs.inner.Known.{known_of, known_under, AreKnown};

use cell_value::Cell;
use fixed_num::Num;
use scale_kit::{Indexed, Overflow, Scale};
use std::alloc::Global;
use std::collections::BTreeMap;
use text_kit::{OutOfMemory, Text};

/// What a scale has for a cell.
#[derive(Drop)]
pub(crate) struct Known {
    /// Its place.
    pub place: Result<Option<Num>, Overflow>,
    /// Its place in the centre of its band.
    pub centre: Result<Option<Num>, Overflow>,
    /// Its colour or sign.
    pub paint: Option<Text>,
}

// One half.
fn one_half() -> Num
    ensures { result ≡ pos 500000 }
{
    match Num::of_millionths(500_000) {
        Some(number) => number,
        None => unreachable!(),
    }
}

// What a scale has for a cell.
fn known_of(alloc: Global, scale: &Indexed, cell: &Cell) -> Result<Known, OutOfMemory>
    ensures { IfOk result (λ known. known ≡ known_of scale.now cell.now) }
{
    let paint = scale.paint(alloc, cell)?;
    Ok(Known {
        place: scale.place(cell),
        centre: scale.place_in_band(cell, one_half()),
        paint,
    })
}

// Puts what is known of a cell.
fn put(known: &mut BTreeMap<Cell, Known>, cell: Cell, found: Known) -> Result<(), OutOfMemory>
    ensures { OnOk result ((v : AnyCell) → known_under known.new v
        ≡ (if same_cells v cell then Some found else known_under known.old v)) }
{
    known.insert(cell, found)?;
    Ok(())
}

// Puts what a scale has for a cell.
fn put_known(
    known: &mut BTreeMap<Cell, Known>,
    alloc: Global,
    scale: &Indexed,
    cell: &Cell,
) -> Result<(), OutOfMemory>
    ensures { OnOk result ((v : AnyCell) → known_under known.new v
        ≡ (if same_cells v cell.now then Some (known_of scale.now cell.now) else known_under known.old v)) }
{
    let found = known_of(alloc, scale, cell)?;
    put(known, cell.copy()?, found)
}

// What a scale has for cells, by the cells.
fn known_among(
    alloc: Global,
    scale: &Indexed,
    cells: &[Cell],
) -> Result<BTreeMap<Cell, Known>, OutOfMemory>
    ensures { IfOk result (AreKnown scale.now cells.now) }
{
    let mut known = BTreeMap::new(alloc);
    for cell in cells {
        put_known(&mut known, alloc, scale, cell)?;
    }
    Ok(known)
}

/// The cells of a discrete domain; a continuous one lists none.
pub(crate) fn domain_cells(s: &Scale) -> &[Cell]
    ensures { result.now ≡ domain_cells s.now }
{
    match s {
        Scale::Band { domain, .. } => domain.as_slice(),
        Scale::Point { domain, .. } => domain.as_slice(),
        Scale::Ordinal { domain, .. } => domain.as_slice(),
        Scale::Linear { .. } | Scale::Time { .. } | Scale::Ramp { .. } => &[],
    }
}

/// What a scale has for the cells of its domain, by the cells. It takes a number of steps that is near linear in the number of cells.
pub(crate) fn known_in_domain(
    alloc: Global,
    s: &Scale,
) -> Result<BTreeMap<Cell, Known>, OutOfMemory>
    requires { IsScale s.now }
    ensures { IfOk result (AreKnown s.now (domain_cells s.now)) }
{
    let scale = Indexed::of(alloc, s)?;
    known_among(alloc, &scale, domain_cells(s))
}

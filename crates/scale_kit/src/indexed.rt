//! Scales with an index of their domain, for many cells.
ghost use Rattle.std.specs.Prelude.{◌≡◌, cond, Some, IfOk, OnOk, length};
ghost use Rattle.cell_value.specs.declared.cell.Cell.{Cell as AnyCell};
ghost use Rattle.cell_value.specs.Cell.{same_cells};
ghost use Rattle.scale_kit.specs.Scale.{IsScale};
ghost use Rattle.scale_kit.specs.Places.{domain_cells, domain_index, place_of, place_in_band_of};
ghost use Rattle.scale_kit.specs.Colors.{paint_of};
ghost use Rattle.scale_kit.specs.inner.Between.{IsBelow};
ghost use Rattle.scale_kit.specs.inner.Index.{place_under, IsPlaceIndexFrom};

use crate::colors::paint_at;
use crate::places::{domain_cells, place_at, place_in_band_at};
use crate::scale::{Overflow, Scale};
use cell_value::Cell;
use fixed_num::Num;
use std::alloc::Global;
use std::collections::BTreeMap;
use std::marker::Model;
use text_kit::{OutOfMemory, Text};

// Puts the place of a cell.
fn put(places: &mut BTreeMap<Cell, usize>, cell: Cell, place: usize) -> Result<(), OutOfMemory>
    ensures { OnOk result ((v : AnyCell) → place_under places.new v ≡ cond (same_cells v cell) (Some place) (place_under places.old v)) }
{
    places.insert(cell, place)?;
    Ok(())
}

// Puts the place of a copy of a cell.
fn put_copy(
    places: &mut BTreeMap<Cell, usize>,
    cell: &Cell,
    place: usize,
) -> Result<(), OutOfMemory>
    ensures { OnOk result ((v : AnyCell) →
        place_under places.new v ≡ cond (same_cells v cell.now) (Some place) (place_under places.old v)) }
{
    put(places, cell.copy()?, place)
}

// The place under a cell.
fn place_under(places: &BTreeMap<Cell, usize>, v: &Cell) -> Option<usize>
    ensures { result ≡ place_under places.now v.now }
{
    places.get(v).copied()
}

// The first places of the cells of a list.
fn index(alloc: Global, cells: &[Cell]) -> Result<BTreeMap<Cell, usize>, OutOfMemory>
    ensures { IfOk result (λ places. IsPlaceIndexFrom places 0 cells.now) }
{
    let mut places = BTreeMap::new(alloc);
    let mut left = cells.len();
    while left > 0 {
        left -= 1;
        put_copy(&mut places, &cells[left], left)?;
    }
    Ok(places)
}

/// A scale with an index of its domain. Contracts see it as the scale. Finding a cell takes a number of steps that is logarithmic in the
/// number of cells of the domain.
#[derive(Drop)]
pub struct Indexed<'a> {
    scale: &'a Scale,
    places: BTreeMap<Cell, usize>,
}

impl<'a> Model for Indexed<'a> {
    ghost use Rattle.scale_kit.specs.declared.scale.Scale.{Scale as AnyScale};
    ghost use Rattle.scale_kit.specs.Scale.{IsScale};
    ghost use Rattle.scale_kit.specs.Places.{domain_cells};
    ghost use Rattle.scale_kit.specs.inner.Index.{IsPlaceIndexFrom};

    ghost Value = { AnyScale };

    ghost view = { λ indexed. indexed.scale.now };

    ghost invariant = { λ indexed. IsScale indexed.scale.now × IsPlaceIndexFrom indexed.places 0 (domain_cells indexed.scale.now) };
}

impl<'a> Indexed<'a> {
    /// The scale with an index of its domain, which takes as much memory as the domain has cells.
    pub fn of(alloc: Global, scale: &'a Scale) -> Result<Indexed<'a>, OutOfMemory>
        requires { IsScale scale.now }
        ensures { IfOk result (λ indexed. indexed ≡ scale.now) }
    {
        Ok(Indexed {
            scale,
            places: index(alloc, domain_cells(scale))?,
        })
    }

    /// The scale.
    pub fn scale(&self) -> &Scale
        ensures value { result.now ≡ self.now }
        ensures asked { IsScale self.now }
    {
        self.scale
    }

    // Where a cell stands first in the domain.
    fn domain_index(&self, v: &Cell) -> Option<usize>
        ensures value { result ≡ domain_index self.now v.now }
        ensures there { IsBelow (length (domain_cells self.now)) result }
    {
        place_under(&self.places, v)
    }

    /// The place of a cell, as `place` gives it.
    pub fn place(&self, v: &Cell) -> Result<Option<Num>, Overflow>
        ensures { result ≡ place_of self.now v.now }
    {
        place_at(self.scale, v, self.domain_index(v))
    }

    /// The place of a cell on its band, as `place_in_band` gives it.
    pub fn place_in_band(&self, v: &Cell, share: Num) -> Result<Option<Num>, Overflow>
        ensures { result ≡ place_in_band_of self.now v.now share }
    {
        place_in_band_at(self.scale, v, share, self.domain_index(v))
    }

    /// The colour or sign of a cell, as `paint` gives it.
    pub fn paint(&self, alloc: Global, v: &Cell) -> Result<Option<Text>, OutOfMemory>
        ensures { IfOk result (λ text. text ≡ paint_of self.now v.now) }
    {
        paint_at(alloc, self.scale, v, self.domain_index(v))
    }
}

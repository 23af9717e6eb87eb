// Scales that hold an index of their domain.
ghost use Rattle.std.specs.Prelude.{◌≡◌, IfOk, option_copied};
ghost use Rattle.std.specs.Option.{option_map};
ghost use Rattle.scale_kit.specs.Scale.{IsScale};
ghost use Rattle.scale_kit.specs.Places.{domain_index, place_of, place_in_band_of};
ghost use Rattle.scale_kit.specs.Colors.{paint_of};
ghost use Rattle.scale_index.specs.inner.Known.{known_of};

use crate::bands::known_in_band;
use crate::known::{Known, known_in_domain};
use crate::unlisted::{unlisted_paint, unlisted_place};
use cell_value::Cell;
use fixed_num::Num;
use scale_kit::{Overflow, Scale};
use std::alloc::Global;
use std::collections::BTreeMap;
use std::marker::Model;
use text_kit::{Copies, OutOfMemory, Text};

/// A scale that is held with an index of its domain, which has the places and the colour or sign of each cell there, for as long as the
/// scale stays. Contracts see it as the scale. What a cell has is found in a number of steps that is logarithmic in the number of cells of the
/// domain.
#[derive(Drop)]
pub struct IndexedScale {
    scale: Scale,
    known: BTreeMap<Cell, Known>,
}

impl Model for IndexedScale {
    ghost use Rattle.scale_kit.specs.declared.scale.Scale.{Scale as AnyScale};
    ghost use Rattle.scale_kit.specs.Scale.{IsScale};
    ghost use Rattle.scale_kit.specs.Places.{domain_cells};
    ghost use Rattle.scale_index.specs.inner.Known.{AreKnown};

    ghost Value = { AnyScale };

    ghost view = { λ indexed. indexed.scale };

    ghost invariant = { λ indexed. IsScale indexed.scale × AreKnown indexed.scale (domain_cells indexed.scale) indexed.known };
}

impl IndexedScale {
    /// The scale with an index of its domain, which takes memory for each cell of the domain.
    pub fn of(alloc: Global, scale: Scale) -> Result<IndexedScale, OutOfMemory>
        requires { IsScale scale }
        ensures { IfOk result (λ indexed. indexed ≡ scale) }
    {
        let known = known_in_domain(alloc, &scale)?;
        Ok(IndexedScale { scale, known })
    }

    /// The scale.
    pub fn scale(&self) -> &Scale
        ensures value { result.now ≡ self.now }
        ensures asked { IsScale self.now }
    {
        &self.scale
    }

    // What is known of a cell, if it stands in the domain.
    fn found(&self, v: &Cell) -> Option<&Known>
        ensures { option_copied result ≡ option_map (λ place. known_of self.now v.now) (domain_index self.now v.now) }
    {
        self.known.get(v)
    }

    /// The place of a cell; None exactly where it has none, and an error exactly where its place is out of range.
    pub fn place(&self, v: &Cell) -> Result<Option<Num>, Overflow>
        ensures { result ≡ place_of self.now v.now }
    {
        match self.found(v) {
            Some(known) => known.place,
            None => unlisted_place(&self.scale, v),
        }
    }

    /// The place of a cell on its band, `share` widths from its lesser end, its centre for one half; on a scale without bands the place of
    /// the cell. None exactly where the cell has no place, and an error exactly where so many widths are out of range by themselves, or the
    /// place is.
    pub fn place_in_band(&self, v: &Cell, share: Num) -> Result<Option<Num>, Overflow>
        ensures { result ≡ place_in_band_of self.now v.now share }
    {
        match self.found(v) {
            Some(known) => known_in_band(&self.scale, v, known, share),
            None => unlisted_place(&self.scale, v),
        }
    }

    /// The colour or sign of a cell; None exactly where it has none.
    pub fn paint(&self, alloc: Global, v: &Cell) -> Result<Option<Text>, OutOfMemory>
        ensures { IfOk result (λ text. text ≡ paint_of self.now v.now) }
    {
        match self.found(v) {
            Some(known) => Copies::copied(&known.paint, alloc),
            None => unlisted_paint(alloc, &self.scale, v),
        }
    }
}

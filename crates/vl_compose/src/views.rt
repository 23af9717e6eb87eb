// The unit views of a specification.
ghost use Rattle.std.specs.Prelude.{◌≡◌, map, IfOk};
ghost use Rattle.vl_compose.specs.Shown.{unit_shown};
ghost use Rattle.vl_compose.specs.Views.{unit_view, views_of};

use crate::here::UnitHere;
use crate::rounds::path_of;
use crate::units::units_of;
use std::alloc::Global;
use text_kit::{OutOfMemory, Seq, Text};
use vl_spec::VlSpec;

/// A unit view.
#[derive(Drop)]
pub struct UnitView {
    /// Its number, counted from 0 in the order of the text.
    pub number: u32,
    /// Its JSON Pointer (RFC 6901) in the specification.
    pub path: Text,
}

/// A scale with the views that share it.
#[derive(Drop)]
pub struct SharedScale {
    /// The code of its channel among `case_table::CHANNELS`.
    pub channel: u16,
    /// The numbers of its units, ascending.
    pub units: Seq<u32>,
}

// A number of 32 bits; there is no memory for more units than it counts.
pub(crate) fn small(number: usize) -> Result<u32, OutOfMemory>
    ensures { IfOk result (λ n. n ≡ number) }
{
    match u32::try_from(number) {
        Ok(n) => Ok(n),
        Err(_) => Err(OutOfMemory),
    }
}

// The unit view of a unit.
fn unit_view(alloc: Global, unit: &UnitHere) -> Result<UnitView, OutOfMemory>
    ensures { IfOk result (λ view. view ≡ unit_view (unit_shown unit.now)) }
{
    Ok(UnitView {
        number: small(unit.number)?,
        path: path_of(alloc, unit.round.as_slice())?,
    })
}

/// The unit views of a specification, in the order of the text.
pub fn views_of(alloc: Global, s: &VlSpec) -> Result<Seq<UnitView>, OutOfMemory>
    ensures { IfOk result (λ views. views ≡ views_of s.now) }
{
    let units = units_of(alloc, s)?;
    views_among(alloc, units.as_slice())
}

// The unit views of units.
fn views_among(alloc: Global, units: &[UnitHere]) -> Result<Seq<UnitView>, OutOfMemory>
    ensures { IfOk result (λ views. views ≡ map unit_view (map unit_shown units.now)) }
{
    let mut views = Seq::new(alloc);
    for unit in units {
        views.push(unit_view(alloc, unit)?)?;
    }
    Ok(views)
}

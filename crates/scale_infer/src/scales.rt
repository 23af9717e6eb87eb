// The scales of a specification.
ghost use Rattle.std.specs.Prelude.{◌≡◌, map, IfOk};
ghost use Rattle.vl_compose.specs.Shown.{unit_shown};
ghost use Rattle.scale_infer.specs.Scales.{scale_over, scale_of, scales_of};

use crate::flags::{nice_of, zero_of};
use crate::kinds::kind_of;
use crate::paddings::{all_have_rects, inner_by, outer_by};
use crate::sharers::{Sharer, all_said, sharers_at};
use fixed_num::Num;
use std::alloc::Global;
use text_kit::{OutOfMemory, Seq};
use vl_compose::{SharedScale, UnitHere, UnitView, units_of};
use vl_spec::VlSpec;

/// A scale: what shares it, of which kind it is, its flags and its paddings.
pub struct ScaleOf {
    /// The code of the channel among `case_table::CHANNELS`.
    pub channel: u16,
    /// The numbers of the units that share it.
    pub units: Seq<u32>,
    /// The code of its kind among `case_table::SCALE_KINDS`.
    pub kind: u16,
    /// Whether its domain takes in 0.
    pub zero: bool,
    /// Whether its domain ends at round numbers.
    pub nice: bool,
    /// The padding between bands, as a part of a step; 1 on a point scale, 0 on one without places for cells.
    pub inner: Num,
    /// The padding round all bands or points, as a part of a step; 0 on a scale without places for cells.
    pub outer: Num,
}

impl Drop for ScaleOf {
    fn drop(self) {
        let ScaleOf {
            channel: _,
            units: _,
            kind: _,
            zero: _,
            nice: _,
            inner: _,
            outer: _,
        } = self;
    }
}

// The scale of a channel that these units share.
fn scale_over(
    alloc: Global,
    channel: u16,
    units: &[u32],
    sharers: &[Sharer],
) -> Result<ScaleOf, OutOfMemory>
    ensures { IfOk result (λ scale. scale ≡ scale_over channel units.now sharers.now) }
{
    let units = Seq::from_slice(alloc, units)?;
    let said = all_said(alloc, sharers)?;
    let kind = kind_of(channel, sharers, said.as_slice());
    let rects = all_have_rects(sharers);
    Ok(ScaleOf {
        channel,
        units,
        kind,
        zero: zero_of(channel, sharers, said.as_slice()),
        nice: nice_of(channel, sharers, said.as_slice()),
        inner: inner_by(kind, rects, said.as_slice()),
        outer: outer_by(kind, channel, rects, said.as_slice()),
    })
}

// The scale that units share, by their numbers.
fn scale_of(alloc: Global, units: &[UnitHere], shared: &SharedScale) -> Result<ScaleOf, OutOfMemory>
    ensures { IfOk result (λ scale. scale ≡ scale_of (map unit_shown units.now) shared.now) }
{
    let sharers = sharers_at(alloc, units, shared.channel, shared.units.as_slice())?;
    scale_over(
        alloc,
        shared.channel,
        shared.units.as_slice(),
        sharers.as_slice(),
    )
}

// The scales that units share.
fn scales_of(
    alloc: Global,
    units: &[UnitHere],
    shared: &[SharedScale],
) -> Result<Seq<ScaleOf>, OutOfMemory>
    ensures { IfOk result (λ scales. scales ≡ map (scale_of (map unit_shown units.now)) shared.now) }
{
    let mut scales = Seq::with_capacity(alloc, shared.len())?;
    for one in shared {
        scales.push(scale_of(alloc, units, one)?)?;
    }
    Ok(scales)
}

/// The scales of a specification: one for each channel and the units that share its scale, in their order. What the units are
/// and what they share, the crate of their composition says of the same specification.
pub fn infer(
    alloc: Global,
    s: &VlSpec,
    _: &Seq<UnitView>,
    shared: &Seq<SharedScale>,
) -> Result<Seq<ScaleOf>, OutOfMemory>
    ensures { IfOk result (λ scales. scales ≡ scales_of s.now shared.now) }
{
    let units = units_of(alloc, s)?;
    scales_of(alloc, units.as_slice(), shared.as_slice())
}

// Which units share a scale, and what they show on it.
ghost use Rattle.std.specs.Prelude.{◌≡◌, ◌++◌, ◌∷◌, [], map, not, IfOk, OnOk, if◌then◌else◌};
ghost use Rattle.vl_compose.specs.Sharing.{has_scale};
ghost use Rattle.vl_compose.specs.Shown.{unit_shown};
ghost use Rattle.plan_kit.specs.Among.{is_among};
ghost use Rattle.chart_plan.specs.Shown.{shown_in, all_shown, alone_in, alone_for, scales_among};

use plan_kit::is_among;
use std::alloc::Global;
use text_kit::{OutOfMemory, Seq};
use vl_compose::{SharedScale, UnitHere, definitions_at, shared_scales};
use vl_normalize::{X, Y};
use vl_spec::Definition;

/// A number of 32 bits; there is no memory for more units than it counts.
pub(crate) fn small(number: usize) -> Result<u32, OutOfMemory>
    ensures { IfOk result (λ n. n ≡ number) }
{
    match u32::try_from(number) {
        Ok(n) => Ok(n),
        Err(_) => Err(OutOfMemory),
    }
}

// Adds definitions.
fn push_each<'s>(more: &[&'s Definition], out: &mut Seq<&'s Definition>) -> Result<(), OutOfMemory>
    ensures { OnOk result (map (λ d. d.now) out.new ≡ map (λ d. d.now) out.old ++ map (λ d. d.now) more.now) }
{
    for definition in more {
        out.push(*definition)?;
    }
    Ok(())
}

/// Adds what a unit shows in a channel on a scale of these units.
pub(crate) fn push_shown<'s>(
    alloc: Global,
    unit: &UnitHere<'s>,
    channel: u16,
    sharing: &[u32],
    out: &mut Seq<&'s Definition>,
) -> Result<(), OutOfMemory>
    ensures { OnOk result (map (λ d. d.now) out.new ≡ map (λ d. d.now) out.old ++ shown_in channel sharing.now (unit_shown unit.now)) }
{
    if is_among(sharing, unit.number) {
        let shown = definitions_at(alloc, unit.channels.as_slice(), channel)?;
        push_each(shown.as_slice(), out)
    } else {
        Ok(())
    }
}

/// What all of some units show in a channel on a scale that these share.
pub(crate) fn all_shown<'s>(
    alloc: Global,
    units: &[UnitHere<'s>],
    channel: u16,
    sharing: &[u32],
) -> Result<Seq<&'s Definition>, OutOfMemory>
    ensures { IfOk result (λ out. map (λ d. d.now) out ≡ all_shown (map unit_shown units.now) channel sharing.now) }
{
    let mut out = Seq::new(alloc);
    for unit in units {
        push_shown(alloc, unit, channel, sharing, &mut out)?;
    }
    Ok(out)
}

// Whether a unit has no scale in a channel.
fn has_none(alloc: Global, channel: u16, unit: &UnitHere) -> Result<bool, OutOfMemory>
    ensures { IfOk result (λ none. none ≡ not (has_scale channel (unit_shown unit.now))) }
{
    let shown = definitions_at(alloc, unit.channels.as_slice(), channel)?;
    Ok(shown.is_empty())
}

// Adds the scale of a unit alone.
fn push_alone(
    alloc: Global,
    channel: u16,
    unit: &UnitHere,
    scales: &mut Seq<SharedScale>,
) -> Result<(), OutOfMemory>
    ensures { OnOk result (scales.new ≡ scales.old ++ alone_in channel (unit_shown unit.now) ∷ []) }
{
    let mut units = Seq::new(alloc);
    units.push(small(unit.number)?)?;
    scales.push(SharedScale { channel, units })
}

// Adds the scale of a unit that has none in a channel.
fn push_if_alone(
    alloc: Global,
    channel: u16,
    unit: &UnitHere,
    scales: &mut Seq<SharedScale>,
) -> Result<(), OutOfMemory>
    ensures { OnOk result (scales.new
        ≡ scales.old ++ (if not (has_scale channel (unit_shown unit.now)) then alone_in channel (unit_shown unit.now) ∷ [] else [])) }
{
    if has_none(alloc, channel, unit)? {
        push_alone(alloc, channel, unit, scales)
    } else {
        Ok(())
    }
}

// Adds those of all units that have none in a channel.
fn push_alone_for(
    alloc: Global,
    units: &[UnitHere],
    channel: u16,
    scales: &mut Seq<SharedScale>,
) -> Result<(), OutOfMemory>
    ensures { OnOk result (scales.new ≡ scales.old ++ alone_for (map unit_shown units.now) channel) }
{
    for unit in units {
        push_if_alone(alloc, channel, unit, scales)?;
    }
    Ok(())
}

/// All scales of some units, those of units alone among them.
pub(crate) fn scales_among(
    alloc: Global,
    units: &[UnitHere],
) -> Result<Seq<SharedScale>, OutOfMemory>
    ensures { IfOk result (λ scales. scales ≡ scales_among (map unit_shown units.now)) }
{
    let mut scales = shared_scales(alloc, units)?;
    push_alone_for(alloc, units, X, &mut scales)?;
    push_alone_for(alloc, units, Y, &mut scales)?;
    Ok(scales)
}

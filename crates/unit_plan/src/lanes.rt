// The directions of a unit.
ghost use Rattle.std.specs.Prelude.{◌≡◌, ◌++◌, [], map, option_copied, IfOk, OnOk};
ghost use Rattle.std.specs.Option.{option_and_then, option_map_or};
ghost use Rattle.vl_compose.specs.Shown.{unit_shown};
ghost use Rattle.unit_plan.specs.Branches.{branches_of};
ghost use Rattle.unit_plan.specs.Lanes.{branches_at, stacked_along, lane_at};
ghost use Rattle.unit_plan.specs.Stacks.{stack_of};
ghost use Rattle.unit_plan.specs.inner.Lent.{branches_shown};
ghost use Rattle.unit_plan.specs.inner.LentLanes.{lane_shown};

use crate::branches::{BranchHere, push_channel};
use crate::measures::{measure_by, measures_x};
use crate::seen::{ScaleSeen, seen_at};
use crate::stacks::{Stacked, stack_of};
use std::alloc::Global;
use text_kit::{OutOfMemory, Seq};
use vl_compose::UnitHere;
use vl_normalize::shown;
use vl_spec::{Channel, ChannelOf};

/// A direction of a unit, x or y.
#[derive(Drop)]
pub(crate) struct LaneHere<'s> {
    /// The code of its channel.
    pub(crate) channel: u16,
    /// That of the channel of the second end.
    pub(crate) second: u16,
    /// Its scale.
    pub(crate) scale: Option<ScaleSeen>,
    /// Whether it is the measure.
    pub(crate) is_measure: bool,
    /// What is stacked along it.
    pub(crate) stacked: Option<Stacked>,
    /// What its channel shows.
    pub(crate) branches: Seq<BranchHere<'s>>,
    /// What the channel of the second end shows.
    pub(crate) seconds: Seq<BranchHere<'s>>,
}

// Adds the branches of a channel, if it is there.
fn push_shown<'s>(
    alloc: Global,
    channel: Option<&'s Channel>,
    out: &mut Seq<BranchHere<'s>>,
) -> Result<(), OutOfMemory>
    ensures { OnOk result (branches_shown out.new ≡ branches_shown out.old ++ option_map_or branches_of (option_copied channel.entry) []) }
{
    match channel {
        Some(channel) => push_channel(alloc, channel, &[], out),
        None => Ok(()),
    }
}

/// The branches of the channel of a code among some channels.
pub(crate) fn branches_at<'s>(
    alloc: Global,
    channels: &[&'s ChannelOf],
    code: u16,
) -> Result<Seq<BranchHere<'s>>, OutOfMemory>
    ensures { IfOk result (λ branches. branches_shown branches ≡ branches_at (map (λ c. c.now) channels.now) code) }
{
    let mut out = Seq::new(alloc);
    push_shown(alloc, shown(channels, code), &mut out)?;
    Ok(out)
}

// What is stacked, where it is along a channel.
fn stacked_along(channel: u16, stacked: Option<Stacked>) -> Option<Stacked>
    ensures { result ≡ option_and_then (stacked_along channel) stacked }
{
    match stacked {
        Some(stacked) => {
            if stacked.channel == channel {
                Some(stacked)
            } else {
                None
            }
        }
        None => None,
    }
}

// What is stacked along a channel of a unit.
fn stacked_at(alloc: Global, unit: &UnitHere, channel: u16) -> Result<Option<Stacked>, OutOfMemory>
    ensures { IfOk result (λ stacked. stacked ≡ option_and_then (stacked_along channel) (stack_of (unit_shown unit.now))) }
{
    let stacked = stack_of(alloc, unit)?;
    Ok(stacked_along(channel, stacked))
}

/// The direction of a channel of a unit.
pub(crate) fn lane_at<'s>(
    alloc: Global,
    unit: &UnitHere<'s>,
    scales: &[ScaleSeen],
    channel: u16,
    second: u16,
) -> Result<LaneHere<'s>, OutOfMemory>
    ensures { IfOk result (λ lane. lane_shown lane ≡ lane_at (unit_shown unit.now) scales.now channel second) }
{
    let is_measure = measure_by(measures_x(alloc, unit)?) == channel;
    let stacked = stacked_at(alloc, unit, channel)?;
    let branches = branches_at(alloc, unit.channels.as_slice(), channel)?;
    let seconds = branches_at(alloc, unit.channels.as_slice(), second)?;
    Ok(LaneHere {
        channel,
        second,
        scale: seen_at(scales, channel),
        is_measure,
        stacked,
        branches,
        seconds,
    })
}

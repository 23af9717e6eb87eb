//! The scales of channels, those of their own definitions and those of their conditions.
ghost use Rattle.std.specs.Prelude.{◌≡◌, codes, map, OnOk};
ghost use Rattle.vl_compose.specs.Definitions.{has_own_scale};
ghost use Rattle.vl_names.specs.Channels.{channel_name as name_of_channel};
ghost use Rattle.vl_trails.specs.Judging.{after};
ghost use Rattle.vl_trails.specs.Trails.{to_item, to_member};
ghost use Rattle.vl_rules.specs.Views.{channel_faults, shown_faults, scale_faults_of, channels_faults, encoding_faults, item_faults};
ghost use Rattle.vl_rules.specs.inner.Held.{conditions_faults, condition_faults, held_faults};

use crate::scales::judge_definition;
use std::alloc::Global;
use text_kit::OutOfMemory;
use vl_names::channel_name;
use vl_normalize::{COLOR, OPACITY, SHAPE, SIZE, X, Y};
use vl_spec::{Channel, ChannelKind, ChannelOf, Condition, Conditions};
use vl_trails::Judging;

// Judges the scales of the channel where one is.
#[cycle(channels)]
fn judge_channel(
    alloc: Global,
    judging: &mut Judging,
    code: u16,
    channel: &Channel,
) -> Result<(), OutOfMemory>
    ensures { OnOk result (judging.new ≡ after judging.old (channel_faults judging.old.tree.now code channel.now judging.old.trail)) }
{
    judge_definition(alloc, judging, code, &channel.definition)?;
    judge_held(alloc, judging, code, &channel.condition)
}

// Judges those of the conditions of the channel where one is, if there are any.
#[cycle(channels)]
fn judge_held(
    alloc: Global,
    judging: &mut Judging,
    code: u16,
    conditions: &Option<Conditions>,
) -> Result<(), OutOfMemory>
    ensures { OnOk result (judging.new ≡ after judging.old (held_faults judging.old.tree.now code conditions.now judging.old.trail)) }
{
    match conditions {
        Some(conditions) => judge_inside(alloc, judging, code, conditions),
        None => Ok(()),
    }
}

// Judges those of the conditions of the channel where one is.
#[cycle(channels)]
fn judge_inside(
    alloc: Global,
    judging: &mut Judging,
    code: u16,
    conditions: &Conditions,
) -> Result<(), OutOfMemory>
    ensures { OnOk result (judging.new
        ≡ after judging.old (conditions_faults judging.old.tree.now code conditions.now (to_member judging.old.trail (codes "condition")))) }
{
    judging.enter(alloc, "condition")?;
    judge_conditions(alloc, judging, code, conditions)?;
    judging.leave();
    Ok(())
}

// Judges those of the conditions where one is.
#[cycle(channels)]
fn judge_conditions(
    alloc: Global,
    judging: &mut Judging,
    code: u16,
    conditions: &Conditions,
) -> Result<(), OutOfMemory>
    ensures { OnOk result (judging.new ≡ after judging.old (conditions_faults judging.old.tree.now code conditions.now judging.old.trail)) }
{
    match conditions {
        Conditions::One(condition) => judge_channel(alloc, judging, code, &condition.get().shows),
        Conditions::Several(conditions) => judge_list(alloc, judging, code, conditions.as_slice()),
    }
}

// Judges those of the conditions of the list where one is.
#[cycle(channels)]
fn judge_list(
    alloc: Global,
    judging: &mut Judging,
    code: u16,
    conditions: &[Condition],
) -> Result<(), OutOfMemory>
    ensures { OnOk result (judging.new
        ≡ after judging.old (item_faults (map (condition_faults judging.old.tree.now code) conditions.now) judging.old.trail)) }
{
    for (number, condition) in conditions.iter().enumerate() {
        judge_item(alloc, judging, code, number, condition)?;
    }
    Ok(())
}

// Judges those of the item of this number.
#[cycle(channels)]
fn judge_item(
    alloc: Global,
    judging: &mut Judging,
    code: u16,
    number: usize,
    condition: &Condition,
) -> Result<(), OutOfMemory>
    ensures { OnOk result (judging.new ≡ after judging.old (condition_faults judging.old.tree.now code condition.now (to_item judging.old.trail number))) }
{
    judging.enter_item(number)?;
    judge_channel(alloc, judging, code, &condition.shows)?;
    judging.leave();
    Ok(())
}

// Whether a channel of this code has a scale of its own.
fn has_own_scale(code: u16) -> bool
    ensures { result ≡ has_own_scale code }
{
    code == X || code == Y || code == COLOR || code == OPACITY || code == SIZE || code == SHAPE
}

// Judges the scales of what the channel shows where one is.
#[tactic(auto, using(vl_trails::proofs::WayLemmas::after_none))]
fn judge_shown(
    alloc: Global,
    judging: &mut Judging,
    code: u16,
    shows: &ChannelKind,
) -> Result<(), OutOfMemory>
    ensures { OnOk result (judging.new ≡ after judging.old (shown_faults judging.old.tree.now code shows.now judging.old.trail)) }
{
    match shows {
        ChannelKind::One(channel) => judge_channel(alloc, judging, code, channel),
        ChannelKind::Several(_) => Ok(()),
    }
}

// Judges those of a channel of the encoding where one is.
#[tactic(auto, using(vl_trails::proofs::WayLemmas::there_and_back))]
fn judge_named(
    alloc: Global,
    judging: &mut Judging,
    code: u16,
    shows: &ChannelKind,
) -> Result<(), OutOfMemory>
    ensures { OnOk result (judging.new
        ≡ after judging.old (shown_faults judging.old.tree.now code shows.now (to_member judging.old.trail (name_of_channel code)))) }
{
    judging.enter(alloc, channel_name(code))?;
    judge_shown(alloc, judging, code, shows)?;
    judging.leave();
    Ok(())
}

// The same where the channel has a scale of its own.
#[tactic(auto, using(vl_trails::proofs::WayLemmas::after_none))]
fn judge_scales_of(
    alloc: Global,
    judging: &mut Judging,
    channel: &ChannelOf,
) -> Result<(), OutOfMemory>
    ensures { OnOk result (judging.new ≡ after judging.old (scale_faults_of judging.old.tree.now channel.now judging.old.trail)) }
{
    if has_own_scale(channel.channel) {
        judge_named(alloc, judging, channel.channel, &channel.shows)
    } else {
        Ok(())
    }
}

// Judges those of all channels of the encoding where one is.
fn judge_channels(
    alloc: Global,
    judging: &mut Judging,
    channels: &[ChannelOf],
) -> Result<(), OutOfMemory>
    ensures { OnOk result (judging.new ≡ after judging.old (channels_faults judging.old.tree.now channels.now judging.old.trail)) }
{
    for channel in channels {
        judge_scales_of(alloc, judging, channel)?;
    }
    Ok(())
}

/// Judges the scales of the channels of the view where one is.
#[tactic(auto, using(vl_trails::proofs::WayLemmas::there_and_back))]
pub fn judge_encoding(
    alloc: Global,
    judging: &mut Judging,
    channels: &[ChannelOf],
) -> Result<(), OutOfMemory>
    ensures { OnOk result (judging.new ≡ after judging.old (encoding_faults judging.old.tree.now channels.now judging.old.trail)) }
{
    judging.enter(alloc, "encoding")?;
    judge_channels(alloc, judging, channels)?;
    judging.leave();
    Ok(())
}

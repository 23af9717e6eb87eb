// Channels with conditions as branches.
ghost use Rattle.std.specs.Prelude.{◌≡◌, ◌++◌, [], flat_map, is_some, map, OnOk};
ghost use Rattle.vl_spec.specs.declared.channels.Channel.{out-Channel};
ghost use Rattle.vl_compose.specs.Definitions.{is_bare};
ghost use Rattle.unit_plan.specs.Branches.{says, own_branch, branches_under, branches_of, branches_in};
ghost use Rattle.unit_plan.specs.inner.Lent.{branches_shown, under_conditions, under_condition};

use std::alloc::Global;
use text_kit::{OutOfMemory, Seq};
use vl_spec::{Channel, ChannelKind, Condition, Conditions, Definition, FieldDefinition, Test};

/// What a channel shows where some tests hold.
#[derive(Drop)]
pub(crate) struct BranchHere<'s> {
    /// The tests, the outermost first.
    pub(crate) tests: Seq<&'s Test>,
    /// What it shows.
    pub(crate) shows: &'s Definition,
}

// Whether a definition by a field has no member.
#[tactic(auto, unfolding(vl_compose::specs::Definitions::is_bare))]
fn is_bare(of: &FieldDefinition) -> bool
    ensures { result ≡ is_bare of.now }
{
    of.field.is_none()
        && of.type_.is_none()
        && of.aggregate.is_none()
        && of.bin.is_none()
        && of.time_unit.is_none()
        && of.title.is_none()
        && of.sort.is_none()
        && of.scale.is_none()
        && of.stack.is_none()
        && of.axis.is_none()
        && of.legend.is_none()
        && of.header.is_none()
        && of.format.is_none()
        && of.columns.is_none()
        && of.spacing.is_none()
}

// Whether a definition says something, by whether conditions stand beside it.
fn says(definition: &Definition, conditional: bool) -> bool
    ensures { result ≡ says definition.now conditional }
{
    match definition {
        Definition::Value(_) | Definition::Datum(_) => true,
        Definition::Field(of) => !(conditional && is_bare(of)),
    }
}

// Adds what a channel shows where no condition holds, if it says that.
fn push_own<'s>(
    alloc: Global,
    channel: &'s Channel,
    outer: &[&'s Test],
    out: &mut Seq<BranchHere<'s>>,
) -> Result<(), OutOfMemory>
    ensures { OnOk result (branches_shown out.new
        ≡ branches_shown out.old
        ++ own_branch (out-Channel channel.now).definition (is_some (out-Channel channel.now).condition) (map (λ t. t.now) outer.now)) }
{
    if says(&channel.definition, channel.condition.is_some()) {
        let tests = Seq::from_slice(alloc, outer)?;
        out.push(BranchHere {
            tests,
            shows: &channel.definition,
        })
    } else {
        Ok(())
    }
}

/// Adds the branches of a channel that stands under some tests.
#[cycle(branches)]
pub(crate) fn push_channel<'s>(
    alloc: Global,
    channel: &'s Channel,
    outer: &[&'s Test],
    out: &mut Seq<BranchHere<'s>>,
) -> Result<(), OutOfMemory>
    ensures { OnOk result (branches_shown out.new ≡ branches_shown out.old ++ branches_under channel.now (map (λ t. t.now) outer.now)) }
{
    match &channel.condition {
        Some(conditions) => {
            push_conditions(alloc, conditions, outer, out)?;
            push_own(alloc, channel, outer, out)
        }
        None => push_own(alloc, channel, outer, out),
    }
}

// Adds those of conditions.
#[cycle(branches)]
fn push_conditions<'s>(
    alloc: Global,
    conditions: &'s Conditions,
    outer: &[&'s Test],
    out: &mut Seq<BranchHere<'s>>,
) -> Result<(), OutOfMemory>
    ensures { OnOk result (branches_shown out.new ≡ branches_shown out.old ++ under_conditions conditions.now (map (λ t. t.now) outer.now)) }
{
    match conditions {
        Conditions::One(condition) => push_condition(alloc, condition.get(), outer, out),
        Conditions::Several(conditions) => push_each(alloc, conditions, outer, out),
    }
}

// Adds those of a condition.
#[cycle(branches)]
fn push_condition<'s>(
    alloc: Global,
    condition: &'s Condition,
    outer: &[&'s Test],
    out: &mut Seq<BranchHere<'s>>,
) -> Result<(), OutOfMemory>
    ensures { OnOk result (branches_shown out.new ≡ branches_shown out.old ++ under_condition condition.now (map (λ t. t.now) outer.now)) }
{
    let mut tests = Seq::from_slice(alloc, outer)?;
    tests.push(&condition.test)?;
    push_channel(alloc, &condition.shows, tests.as_slice(), out)
}

// Adds those of each of some conditions.
#[cycle(branches)]
fn push_each<'s>(
    alloc: Global,
    conditions: &'s Seq<Condition>,
    outer: &[&'s Test],
    out: &mut Seq<BranchHere<'s>>,
) -> Result<(), OutOfMemory>
    ensures { OnOk result (branches_shown out.new
        ≡ branches_shown out.old ++ flat_map (λ c. under_condition c (map (λ t. t.now) outer.now)) conditions.now) }
{
    for condition in conditions.as_slice() {
        push_condition(alloc, condition, outer, out)?;
    }
    Ok(())
}

// Adds those of each of some channels.
fn push_several<'s>(
    alloc: Global,
    channels: &'s [Channel],
    out: &mut Seq<BranchHere<'s>>,
) -> Result<(), OutOfMemory>
    ensures { OnOk result (branches_shown out.new ≡ branches_shown out.old ++ flat_map branches_of channels.now) }
{
    for channel in channels {
        push_channel(alloc, channel, &[], out)?;
    }
    Ok(())
}

/// Adds the branches of what a channel shows.
pub(crate) fn push_branches<'s>(
    alloc: Global,
    shows: &'s ChannelKind,
    out: &mut Seq<BranchHere<'s>>,
) -> Result<(), OutOfMemory>
    ensures { OnOk result (branches_shown out.new ≡ branches_shown out.old ++ branches_in shows.now) }
{
    match shows {
        ChannelKind::One(channel) => push_channel(alloc, channel, &[], out),
        ChannelKind::Several(channels) => push_several(alloc, channels.as_slice(), out),
    }
}

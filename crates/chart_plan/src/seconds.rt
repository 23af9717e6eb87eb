// What `x2` and `y2` show.
ghost use Rattle.std.specs.Prelude.{◌≡◌, ◌++◌, map, IfOk, OnOk};
ghost use Rattle.std.specs.List.{flat_map};
ghost use Rattle.vl_compose.specs.Definitions.{is_bare, bears, own_definition, definitions_of};
ghost use Rattle.vl_compose.specs.inner.Conditioned.{of_condition, of_conditions};
ghost use Rattle.chart_plan.specs.Columns.{seconds_at};

use std::alloc::Global;
use text_kit::{OutOfMemory, Seq};
use vl_normalize::shown;
use vl_spec::{Channel, ChannelOf, Condition, Conditions, Definition, FieldDefinition};

// Whether a definition by a field has no member.
#[tactic(auto, unfolding(vl_compose::specs::Definitions::is_bare))]
fn is_bare(of: &FieldDefinition) -> bool
    ensures { result ≡ is_bare of.now }
{
    of.field.is_none()
        && of.type_.is_none()
        && of.aggregate.is_none()
        && of.bin.is_none()
        && of.time_unit.is_none()
        && of.title.is_none()
        && of.sort.is_none()
        && of.scale.is_none()
        && of.stack.is_none()
        && of.axis.is_none()
        && of.legend.is_none()
        && of.header.is_none()
        && of.format.is_none()
        && of.columns.is_none()
        && of.spacing.is_none()
}

// Whether a definition bears a cell, by whether conditions stand beside it.
fn bears(definition: &Definition, conditional: bool) -> bool
    ensures { result ≡ bears definition.now conditional }
{
    match definition {
        Definition::Value(_) => false,
        Definition::Datum(_) => true,
        Definition::Field(of) => !(conditional && is_bare(of)),
    }
}

// Adds a definition, if it bears a cell.
fn push_own<'s>(
    definition: &'s Definition,
    conditional: bool,
    out: &mut Seq<&'s Definition>,
) -> Result<(), OutOfMemory>
    ensures { OnOk result (map (λ d. d.now) out.new ≡ map (λ d. d.now) out.old ++ own_definition definition.now conditional) }
{
    if bears(definition, conditional) {
        out.push(definition)
    } else {
        Ok(())
    }
}

// Adds those of a channel.
#[cycle(channels)]
fn push_channel<'s>(channel: &'s Channel, out: &mut Seq<&'s Definition>) -> Result<(), OutOfMemory>
    ensures { OnOk result (map (λ d. d.now) out.new ≡ map (λ d. d.now) out.old ++ definitions_of channel.now) }
{
    push_own(&channel.definition, channel.condition.is_some(), out)?;
    match &channel.condition {
        Some(conditions) => push_conditions(conditions, out),
        None => Ok(()),
    }
}

// Adds those of conditions.
#[cycle(channels)]
fn push_conditions<'s>(
    conditions: &'s Conditions,
    out: &mut Seq<&'s Definition>,
) -> Result<(), OutOfMemory>
    ensures { OnOk result (map (λ d. d.now) out.new ≡ map (λ d. d.now) out.old ++ of_conditions conditions.now) }
{
    match conditions {
        Conditions::One(condition) => push_channel(&condition.get().shows, out),
        Conditions::Several(conditions) => push_each(conditions, out),
    }
}

// Adds those of each of some conditions.
#[cycle(channels)]
fn push_each<'s>(
    conditions: &'s Seq<Condition>,
    out: &mut Seq<&'s Definition>,
) -> Result<(), OutOfMemory>
    ensures { OnOk result (map (λ d. d.now) out.new ≡ map (λ d. d.now) out.old ++ flat_map of_condition conditions.now) }
{
    for condition in conditions.as_slice() {
        push_channel(&condition.shows, out)?;
    }
    Ok(())
}

/// The definitions that the channel of a code shows among some channels and that bear a cell, its own before those of its conditions.
pub(crate) fn seconds_at<'s>(
    alloc: Global,
    channels: &[&'s ChannelOf],
    code: u16,
) -> Result<Seq<&'s Definition>, OutOfMemory>
    ensures { IfOk result (λ ds. map (λ d. d.now) ds ≡ seconds_at (map (λ c. c.now) channels.now) code) }
{
    let mut out = Seq::new(alloc);
    if let Some(channel) = shown(channels, code) {
        push_channel(channel, &mut out)?;
    }
    Ok(out)
}

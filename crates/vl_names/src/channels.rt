//! Unknown names in channels.
ghost use Rattle.std.specs.Prelude.{◌≡◌, codes, map, not, OnOk};
ghost use Rattle.std.specs.Option.{option_copied};
ghost use Rattle.vl_spec.specs.declared.channels.Test.TheVariants as test;
ghost use Rattle.vl_spec.specs.declared.views.Facet.TheVariants as facet;
ghost use Rattle.vl_names.specs.Channels.{channel_at_faults, channel_faults, channel_name, channel_of_faults, channels_faults};
ghost use Rattle.vl_names.specs.Channels.{definition_faults, domain_param, encoding_faults, facet_faults, param_of_domain, scale_in};
ghost use Rattle.vl_names.specs.Channels.{shown_faults, test_faults, to_domain_param};
ghost use Rattle.vl_names.specs.Filters.{each_item};
ghost use Rattle.vl_names.specs.inner.Conditioned.{condition_faults, conditions_faults, held_faults};
ghost use Rattle.vl_names.specs.inner.Looked.{known_shown};
ghost use Rattle.vl_trails.specs.Faults.{wrong_if};
ghost use Rattle.vl_trails.specs.Judging.{after};
ghost use Rattle.vl_trails.specs.Trails.{to_item, to_member};

use crate::filters::{judge_filter, judge_param_test};
use crate::known::{ParamNames, knows_param};
use spec_schema::SpecKind;
use std::alloc::Global;
use text_kit::{OutOfMemory, Text};
use vl_spec::{
    Channel, ChannelKind, ChannelOf, Condition, Conditions, CrossFacet, Definition, Domain,
    Encoding, Facet, Filter, Scale, Test,
};
use vl_trails::Judging;

// The scale of a definition.
fn scale_in(definition: &Definition) -> Option<&Scale>
    ensures { option_copied result ≡ scale_in definition.now }
{
    match definition {
        Definition::Value(_) => None,
        Definition::Datum(of) => of.scale.as_ref(),
        Definition::Field(of) => of.scale.as_ref(),
    }
}

// The parameter that gives a domain.
fn param_of_domain(domain: &Domain) -> Option<&Text>
    ensures { option_copied result ≡ param_of_domain domain.now }
{
    match domain {
        Domain::Cells(_) => None,
        Domain::Param(of) => Some(&of.param),
    }
}

// The parameter that gives the domain of a definition's scale.
fn domain_param(definition: &Definition) -> Option<&Text>
    ensures { option_copied result ≡ domain_param definition.now }
{
    let scale = scale_in(definition)?;
    let domain = scale.domain.as_ref()?;
    param_of_domain(domain)
}

// Judges the `param` of the domain under `domain`.
#[tactic(auto, using(vl_trails::proofs::WayLemmas::there_and_back))]
fn judge_domain(alloc: Global, knows: bool, j: &mut Judging) -> Result<(), OutOfMemory>
    ensures { OnOk result (j.new
        ≡ after j.old (wrong_if (not knows) (to_member (to_member j.old.trail (codes "domain")) (codes "param")))) }
{
    j.enter(alloc, "domain")?;
    j.judge_member(alloc, "param", !knows, SpecKind::Wrong)?;
    j.leave();
    Ok(())
}

// Judges the `param` of the domain of the scale under `scale`.
#[tactic(auto, using(vl_trails::proofs::WayLemmas::there_and_back))]
fn judge_scale(alloc: Global, knows: bool, j: &mut Judging) -> Result<(), OutOfMemory>
    ensures { OnOk result (j.new ≡ after j.old (wrong_if (not knows) (to_domain_param j.old.trail))) }
{
    j.enter(alloc, "scale")?;
    judge_domain(alloc, knows, j)?;
    j.leave();
    Ok(())
}

// Judges the names in a definition, apart from its conditions.
#[tactic(auto, using(vl_trails::proofs::WayLemmas::after_none))]
fn judge_definition(
    alloc: Global,
    known: &ParamNames,
    definition: &Definition,
    j: &mut Judging,
) -> Result<(), OutOfMemory>
    ensures { OnOk result (j.new ≡ after j.old (definition_faults (known_shown known.now) definition.now j.old.trail)) }
{
    match domain_param(definition) {
        Some(name) => {
            let knows = knows_param(alloc, known, name.as_str())?;
            judge_scale(alloc, knows, j)
        }
        None => Ok(()),
    }
}

// Judges the filter under `test`.
#[tactic(auto, using(vl_trails::proofs::WayLemmas::there_and_back))]
fn judge_filter_test(
    alloc: Global,
    known: &ParamNames,
    filter: &Filter,
    j: &mut Judging,
) -> Result<(), OutOfMemory>
    ensures { OnOk result (j.new ≡ after j.old (test_faults (known_shown known.now) (test.Filter filter.now) j.old.trail)) }
{
    j.enter(alloc, "test")?;
    judge_filter(alloc, known, filter, j)?;
    j.leave();
    Ok(())
}

// Judges the test of a condition.
fn judge_test(
    alloc: Global,
    known: &ParamNames,
    test: &Test,
    j: &mut Judging,
) -> Result<(), OutOfMemory>
    ensures { OnOk result (j.new ≡ after j.old (test_faults (known_shown known.now) test.now j.old.trail)) }
{
    match test {
        Test::Param(of) => judge_param_test(alloc, known, of, j),
        Test::Filter(filter) => judge_filter_test(alloc, known, filter, j),
    }
}

// Judges the names in a channel where one is.
#[cycle(channels)]
#[tactic(auto, using(vl_trails::proofs::WayLemmas::then_after))]
fn judge_channel(
    alloc: Global,
    known: &ParamNames,
    channel: &Channel,
    j: &mut Judging,
) -> Result<(), OutOfMemory>
    ensures { OnOk result (j.new ≡ after j.old (channel_faults (known_shown known.now) channel.now j.old.trail)) }
{
    judge_definition(alloc, known, &channel.definition, j)?;
    judge_held(alloc, known, &channel.condition, j)
}

// Judges conditions that may be absent.
#[cycle(channels)]
#[tactic(auto, using(vl_trails::proofs::WayLemmas::after_none))]
fn judge_held(
    alloc: Global,
    known: &ParamNames,
    conditions: &Option<Conditions>,
    j: &mut Judging,
) -> Result<(), OutOfMemory>
    ensures { OnOk result (j.new ≡ after j.old (held_faults (known_shown known.now) conditions.now j.old.trail)) }
{
    match conditions {
        Some(conditions) => judge_under(alloc, known, conditions, j),
        None => Ok(()),
    }
}

// Judges the conditions under `condition`.
#[cycle(channels)]
#[tactic(auto, using(vl_trails::proofs::WayLemmas::there_and_back))]
fn judge_under(
    alloc: Global,
    known: &ParamNames,
    conditions: &Conditions,
    j: &mut Judging,
) -> Result<(), OutOfMemory>
    ensures { OnOk result (j.new
        ≡ after j.old (conditions_faults (known_shown known.now) conditions.now (to_member j.old.trail (codes "condition")))) }
{
    j.enter(alloc, "condition")?;
    judge_conditions(alloc, known, conditions, j)?;
    j.leave();
    Ok(())
}

// Judges conditions where one is.
#[cycle(channels)]
fn judge_conditions(
    alloc: Global,
    known: &ParamNames,
    conditions: &Conditions,
    j: &mut Judging,
) -> Result<(), OutOfMemory>
    ensures { OnOk result (j.new ≡ after j.old (conditions_faults (known_shown known.now) conditions.now j.old.trail)) }
{
    match conditions {
        Conditions::One(condition) => judge_condition(alloc, known, condition.get(), j),
        Conditions::Several(conditions) => judge_list(alloc, known, conditions.as_slice(), j),
    }
}

// Judges a condition where one is.
#[cycle(channels)]
#[tactic(auto, using(vl_trails::proofs::WayLemmas::then_after))]
fn judge_condition(
    alloc: Global,
    known: &ParamNames,
    condition: &Condition,
    j: &mut Judging,
) -> Result<(), OutOfMemory>
    ensures { OnOk result (j.new ≡ after j.old (condition_faults (known_shown known.now) condition.now j.old.trail)) }
{
    judge_test(alloc, known, &condition.test, j)?;
    judge_channel(alloc, known, &condition.shows, j)
}

// Judges the conditions of a list where one is.
#[cycle(channels)]
fn judge_list(
    alloc: Global,
    known: &ParamNames,
    conditions: &[Condition],
    j: &mut Judging,
) -> Result<(), OutOfMemory>
    ensures { OnOk result (j.new ≡ after j.old (each_item (map (condition_faults (known_shown known.now)) conditions.now) j.old.trail)) }
{
    for (number, condition) in conditions.iter().enumerate() {
        judge_item(alloc, known, number, condition, j)?;
    }
    Ok(())
}

// Judges an item of a list of conditions.
#[cycle(channels)]
#[tactic(auto, using(vl_trails::proofs::WayLemmas::there_and_back))]
fn judge_item(
    alloc: Global,
    known: &ParamNames,
    number: usize,
    condition: &Condition,
    j: &mut Judging,
) -> Result<(), OutOfMemory>
    ensures { OnOk result (j.new ≡ after j.old (condition_faults (known_shown known.now) condition.now (to_item j.old.trail number))) }
{
    j.enter_item(number)?;
    judge_condition(alloc, known, condition, j)?;
    j.leave();
    Ok(())
}

/// The name of a channel by its code; empty where there is none.
#[tactic(auto, unfolding(crate::specs::Channels::channel_name))]
pub fn channel_name(code: u16) -> &'static str
    ensures { result.now ≡ channel_name code }
{
    match code {
        0 => "x",
        1 => "y",
        2 => "x2",
        3 => "y2",
        4 => "color",
        5 => "opacity",
        6 => "size",
        7 => "shape",
        8 => "detail",
        9 => "text",
        10 => "row",
        11 => "column",
        12 => "facet",
        _ => "",
    }
}

// Judges the definitions of a list where one is.
fn judge_several(
    alloc: Global,
    known: &ParamNames,
    channels: &[Channel],
    j: &mut Judging,
) -> Result<(), OutOfMemory>
    ensures { OnOk result (j.new ≡ after j.old (each_item (map (channel_faults (known_shown known.now)) channels.now) j.old.trail)) }
{
    for (number, channel) in channels.iter().enumerate() {
        judge_one(alloc, known, number, channel, j)?;
    }
    Ok(())
}

// Judges an item of a list of definitions.
#[tactic(auto, using(vl_trails::proofs::WayLemmas::there_and_back))]
fn judge_one(
    alloc: Global,
    known: &ParamNames,
    number: usize,
    channel: &Channel,
    j: &mut Judging,
) -> Result<(), OutOfMemory>
    ensures { OnOk result (j.new ≡ after j.old (channel_faults (known_shown known.now) channel.now (to_item j.old.trail number))) }
{
    j.enter_item(number)?;
    judge_channel(alloc, known, channel, j)?;
    j.leave();
    Ok(())
}

// Judges what a channel shows.
fn judge_shown(
    alloc: Global,
    known: &ParamNames,
    shows: &ChannelKind,
    j: &mut Judging,
) -> Result<(), OutOfMemory>
    ensures { OnOk result (j.new ≡ after j.old (shown_faults (known_shown known.now) shows.now j.old.trail)) }
{
    match shows {
        ChannelKind::One(channel) => judge_channel(alloc, known, channel, j),
        ChannelKind::Several(channels) => judge_several(alloc, known, channels.as_slice(), j),
    }
}

// Judges a channel of an encoding under its name.
#[tactic(auto, using(vl_trails::proofs::WayLemmas::there_and_back))]
fn judge_channel_of(
    alloc: Global,
    known: &ParamNames,
    channel: &ChannelOf,
    j: &mut Judging,
) -> Result<(), OutOfMemory>
    ensures { OnOk result (j.new ≡ after j.old (channel_of_faults (known_shown known.now) channel.now j.old.trail)) }
{
    j.enter(alloc, channel_name(channel.channel))?;
    judge_shown(alloc, known, &channel.shows, j)?;
    j.leave();
    Ok(())
}

// Judges the channels of an encoding where one is.
fn judge_channels(
    alloc: Global,
    known: &ParamNames,
    channels: &[ChannelOf],
    j: &mut Judging,
) -> Result<(), OutOfMemory>
    ensures { OnOk result (j.new ≡ after j.old (channels_faults (known_shown known.now) channels.now j.old.trail)) }
{
    for channel in channels {
        judge_channel_of(alloc, known, channel, j)?;
    }
    Ok(())
}

/// Judges the names in the channels under `encoding`.
#[tactic(auto, using(vl_trails::proofs::WayLemmas::there_and_back))]
pub fn judge_encoding(
    alloc: Global,
    known: &ParamNames,
    encoding: &Encoding,
    j: &mut Judging,
) -> Result<(), OutOfMemory>
    ensures { OnOk result (j.new
        ≡ after j.old (encoding_faults (known_shown known.now) encoding.now (to_member j.old.trail (codes "encoding")))) }
{
    j.enter(alloc, "encoding")?;
    judge_channels(alloc, known, encoding.channels.as_slice(), j)?;
    j.leave();
    Ok(())
}

// Judges a channel under a name.
#[tactic(auto, using(vl_trails::proofs::WayLemmas::there_and_back))]
fn judge_named(
    alloc: Global,
    known: &ParamNames,
    channel: &Channel,
    name: &str,
    j: &mut Judging,
) -> Result<(), OutOfMemory>
    ensures { OnOk result (j.new ≡ after j.old (channel_faults (known_shown known.now) channel.now (to_member j.old.trail name.now))) }
{
    j.enter(alloc, name)?;
    judge_channel(alloc, known, channel, j)?;
    j.leave();
    Ok(())
}

// Judges a channel under a name, if it is there.
#[tactic(auto, using(vl_trails::proofs::WayLemmas::after_none))]
fn judge_channel_at(
    alloc: Global,
    known: &ParamNames,
    channel: &Option<Channel>,
    name: &str,
    j: &mut Judging,
) -> Result<(), OutOfMemory>
    ensures { OnOk result (j.new ≡ after j.old (channel_at_faults (known_shown known.now) channel.now name.now j.old.trail)) }
{
    match channel {
        Some(channel) => judge_named(alloc, known, channel, name, j),
        None => Ok(()),
    }
}

// Judges rows and columns where one is.
#[tactic(auto, using(vl_trails::proofs::WayLemmas::then_after))]
fn judge_cross(
    alloc: Global,
    known: &ParamNames,
    of: &CrossFacet,
    j: &mut Judging,
) -> Result<(), OutOfMemory>
    ensures { OnOk result (j.new ≡ after j.old (facet_faults (known_shown known.now) (facet.Cross of.now) j.old.trail)) }
{
    judge_channel_at(alloc, known, &of.row, "row", j)?;
    judge_channel_at(alloc, known, &of.column, "column", j)
}

// Judges a facet where one is.
fn judge_parts(
    alloc: Global,
    known: &ParamNames,
    facet: &Facet,
    j: &mut Judging,
) -> Result<(), OutOfMemory>
    ensures { OnOk result (j.new ≡ after j.old (facet_faults (known_shown known.now) facet.now j.old.trail)) }
{
    match facet {
        Facet::One(channel) => judge_channel(alloc, known, channel, j),
        Facet::Cross(of) => judge_cross(alloc, known, of, j),
    }
}

/// Judges the names in the definitions under `facet`.
#[tactic(auto, using(vl_trails::proofs::WayLemmas::there_and_back))]
pub fn judge_facet(
    alloc: Global,
    known: &ParamNames,
    facet: &Facet,
    j: &mut Judging,
) -> Result<(), OutOfMemory>
    ensures { OnOk result (j.new ≡ after j.old (facet_faults (known_shown known.now) facet.now (to_member j.old.trail (codes "facet")))) }
{
    j.enter(alloc, "facet")?;
    judge_parts(alloc, known, facet, j)?;
    j.leave();
    Ok(())
}

//! Where the parts of a specification stand in its text: the steps that lead to views and to channels.
ghost use Rattle.std.specs.Prelude.{◌≡◌, [], ◌∷◌, ◌++◌, false, filter, map, if◌then◌else◌, IfOk, OnOk};
ghost use Rattle.std.specs.Option.{option_map, option_map_or};
ghost use Rattle.spec_walk.specs.declared.places.Step.TheVariants as step;
ghost use Rattle.vl_normalize.specs.Channels.{has_channel};
ghost use Rattle.vl_compose.specs.Shown.{kind_of, round_shown, view_shown};
ghost use Rattle.vl_compose.specs.Units.{own_channels};
ghost use Rattle.vl_names.specs.Views.{joined_word};
ghost use Rattle.vl_rules.specs.Leads.{item_steps, view_steps, led_from, led, last_trail, channel_in, gives_channel, has_encoding};
ghost use Rattle.vl_rules.specs.Leads.{has_name, holds, may_have, may_hold};
ghost use Rattle.vl_rules.specs.inner.Shown.{led_at, led_shown};

use json_exact::{Json, Member};
use spec_walk::Step;
use std::alloc::Global;
use text_kit::{OutOfMemory, Seq, Text};
use vl_compose::ViewHere;
use vl_names::{channel_name, copied_trail, to_member};
use vl_normalize::channels_in;
use vl_spec::{ChannelOf, Joining, ViewKind};
use vl_trails::{members_at, value_at};

/// A view, and the steps that lead to it from the top.
#[derive(Drop)]
pub struct LedView<'s> {
    /// The steps.
    pub trail: Seq<Step>,
    /// The view.
    pub here: ViewHere<'s>,
}

// The member that holds joined views.
fn joined_word(joining: Joining) -> &'static str
    ensures { result.now ≡ joined_word joining }
{
    match joining {
        Joining::Row => "hconcat",
        Joining::Column => "vconcat",
        Joining::Grid => "concat",
    }
}

// Adds a step to a member.
fn push_name(alloc: Global, trail: &mut Seq<Step>, name: &str) -> Result<(), OutOfMemory>
    ensures { OnOk result (trail.new ≡ trail.old ++ step.Name name.now ∷ []) }
{
    let name = Text::of(alloc, name)?;
    trail.push(Step::Name(name))
}

// Adds the steps to an item of the list in a member.
fn push_item(
    alloc: Global,
    trail: &mut Seq<Step>,
    name: &str,
    number: usize,
) -> Result<(), OutOfMemory>
    ensures { OnOk result (trail.new ≡ trail.old ++ item_steps name.now number) }
{
    push_name(alloc, trail, name)?;
    trail.push(Step::Number(number))
}

// Adds the steps from a view to the view in it of this number.
fn push_view_steps(
    alloc: Global,
    trail: &mut Seq<Step>,
    kind: &ViewKind,
    child: usize,
) -> Result<(), OutOfMemory>
    ensures { OnOk result (trail.new ≡ trail.old ++ view_steps (kind_of kind.now) child) }
{
    match kind {
        ViewKind::Unit(_) => Ok(()),
        ViewKind::Layer(_) => push_item(alloc, trail, "layer", child),
        ViewKind::Facet(_) => push_name(alloc, trail, "spec"),
        ViewKind::Joined(joined) => push_item(alloc, trail, joined_word(joined.joining), child),
    }
}

// Adds a view to which these steps lead.
fn push_led<'s>(
    alloc: Global,
    trail: &[Step],
    here: ViewHere<'s>,
    views: &mut Seq<LedView<'s>>,
) -> Result<(), OutOfMemory>
    ensures { OnOk result (map led_shown views.new ≡ map led_shown views.old ++ led_at trail.now (view_shown here.entry) ∷ []) }
{
    let trail = copied_trail(alloc, trail)?;
    views.push(LedView { trail, here })
}

// Adds views, each in the one before, of which the first stands in this view at the top.
fn push_behind<'s>(
    alloc: Global,
    top: &'s ViewKind,
    inside: &[ViewHere<'s>],
    views: &mut Seq<LedView<'s>>,
) -> Result<(), OutOfMemory>
    ensures { OnOk result (map led_shown views.new ≡ map led_shown views.old ++ led_from [] (kind_of top.now) (round_shown inside.now)) }
{
    let mut trail = Seq::new(alloc);
    let mut outer = top;
    for here in inside {
        push_view_steps(alloc, &mut trail, outer, here.child)?;
        push_led(alloc, trail.as_slice(), *here, views)?;
        outer = &here.view.kind;
    }
    Ok(())
}

/// The views round a view and itself, from the top in, each with the steps that lead to it.
pub fn led<'s>(alloc: Global, round: &[ViewHere<'s>]) -> Result<Seq<LedView<'s>>, OutOfMemory>
    ensures { IfOk result (λ views. map led_shown views ≡ led (round_shown round.now)) }
{
    let mut views = Seq::new(alloc);
    if let [top, inside @ ..] = round {
        push_led(alloc, &[], *top, &mut views)?;
        push_behind(alloc, &top.view.kind, inside, &mut views)?;
    }
    Ok(views)
}

/// The steps to the last of some views.
pub fn last_trail<'a, 's>(views: &'a [LedView<'s>]) -> &'a [Step]
    ensures { result.now ≡ last_trail (map led_shown views.now) }
{
    let mut trail: &[Step] = &[];
    for led in views {
        trail = led.trail.as_slice();
    }
    trail
}

// The channels that a view gives to itself or to the views in it.
fn own_channels(kind: &ViewKind) -> &[ChannelOf]
    ensures { result.now ≡ own_channels (kind_of kind.now) }
{
    match kind {
        ViewKind::Unit(unit) => channels_in(&unit.encoding),
        ViewKind::Layer(layer) => channels_in(&layer.encoding),
        ViewKind::Facet(_) | ViewKind::Joined(_) => &[],
    }
}

// Whether one of some channels has this code.
fn has_own_channel(channels: &[ChannelOf], code: u16) -> bool
    ensures { result ≡ has_channel channels.now code }
{
    for channel in channels {
        if channel.channel == code {
            return true;
        }
    }
    false
}

// Whether a view itself gives the channel of a code.
fn gives_channel(led: &LedView, code: u16) -> bool
    ensures { result ≡ gives_channel code (led_shown led.now) }
{
    has_own_channel(own_channels(&led.here.view.kind), code)
}

// The steps so far, or those to a view that gives the channel of a code.
fn or_giving<'a, 's>(trail: &'a [Step], led: &'a LedView<'s>, code: u16) -> &'a [Step]
    ensures { result.now ≡ (if gives_channel code (led_shown led.now) then led.now.trail else trail.now) }
{
    if gives_channel(led, code) {
        led.trail.as_slice()
    } else {
        trail
    }
}

// The steps to the last view that gives the channel of a code.
fn giving_trail<'a, 's>(views: &'a [LedView<'s>], code: u16) -> &'a [Step]
    ensures { result.now ≡ last_trail (filter (gives_channel code) (map led_shown views.now)) }
{
    let mut trail: &[Step] = &[];
    for led in views {
        trail = or_giving(trail, led, code);
    }
    trail
}

/// The steps to the channel of a code in the encoding of a view.
pub fn channel_in(alloc: Global, trail: &[Step], code: u16) -> Result<Seq<Step>, OutOfMemory>
    ensures { IfOk result (λ longer. longer ≡ channel_in trail.now code) }
{
    let encoding = to_member(alloc, trail, "encoding")?;
    to_member(alloc, encoding.as_slice(), channel_name(code))
}

/// Where the channel of a code stands: in the innermost of these views that gives it.
pub fn channel_trail(alloc: Global, views: &[LedView], code: u16) -> Result<Seq<Step>, OutOfMemory>
    ensures { IfOk result (λ trail. trail ≡ channel_in (last_trail (filter (gives_channel code) (map led_shown views.now))) code) }
{
    channel_in(alloc, giving_trail(views, code), code)
}

/// Whether a view may have channels.
pub fn has_encoding(kind: &ViewKind) -> bool
    ensures { result ≡ has_encoding (kind_of kind.now) }
{
    match kind {
        ViewKind::Unit(_) | ViewKind::Layer(_) => true,
        ViewKind::Facet(_) | ViewKind::Joined(_) => false,
    }
}

// Whether one of some members has a name.
fn has_name(members: &[Member], name: &str) -> bool
    ensures { result ≡ has_name members.now name.now }
{
    for member in members {
        if member.name.as_str() == name {
            return true;
        }
    }
    false
}

// The same of members that may be absent.
fn has_name_in(members: Option<&[Member]>, name: &str) -> bool
    ensures { result ≡ option_map_or (λ ms. has_name ms name.now) (option_map (λ ms. ms.now) members.entry) false }
{
    match members {
        Some(members) => has_name(members, name),
        None => false,
    }
}

// Whether a value is an object with a member of a name, or no object.
fn may_have(value: &Json, name: &str) -> bool
    ensures { result ≡ may_have value.now name.now }
{
    match value {
        Json::Object(members) => has_name(members.as_slice(), name),
        Json::Null | Json::Flag(_) | Json::Number(_) | Json::Huge | Json::Text(_) | Json::List(_) =>
            true,
    }
}

/// Whether an object with a member of a name stands at the end of a trail, or what is no object.
pub fn may_hold(alloc: Global, tree: &Json, trail: &[Step], name: &str) -> Result<bool, OutOfMemory>
    ensures { IfOk result (λ may. may ≡ may_hold tree.now trail.now name.now) }
{
    match value_at(alloc, tree, trail)? {
        Some(value) => Ok(may_have(value, name)),
        None => Ok(false),
    }
}

/// Whether the object at the end of a trail has a member of a name, whatever it holds.
pub fn holds(alloc: Global, tree: &Json, trail: &[Step], name: &str) -> Result<bool, OutOfMemory>
    ensures { IfOk result (λ holds_it. holds_it ≡ holds tree.now trail.now name.now) }
{
    let members = members_at(alloc, tree, trail)?;
    Ok(has_name_in(members, name))
}

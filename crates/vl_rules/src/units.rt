//! What is asked of each unit, with all that stands round it.
ghost use Rattle.std.specs.Prelude.{◌≡◌, ◌∷◌, ◌&&◌, [], true, not, codes, map, flat_map, is_some, IfOk};
ghost use Rattle.std.specs.Option.{option_map};
ghost use Rattle.spec_schema.specs.declared.spec_error.SpecKind.TheVariants.{Unsupported};
ghost use Rattle.spec_schema.specs.Order.{earlier as earlier_fault};
ghost use Rattle.vl_normalize.specs.Channels.{has_channel};
ghost use Rattle.vl_normalize.specs.Marks.{pointed};
ghost use Rattle.vl_trails.specs.declared.fault.Broken.TheVariants as broken;
ghost use Rattle.vl_trails.specs.Faults.{earliest_placed, fault_if, missing_at, wrong_if};
ghost use Rattle.vl_rules.specs.Leads.{channel_trail, led};
ghost use Rattle.vl_rules.specs.Rules.{faults_of_unit};
ghost use Rattle.vl_rules.specs.Units.{data_among, without_data, encodes, start_among, lone_end, lone_ends, is_sign, is_plain};
ghost use Rattle.vl_rules.specs.Units.{may_lack_type, is_text, type_trail, says_bar, size_trail, useless_size, one_too_many};
ghost use Rattle.vl_rules.specs.inner.Shown.{led_shown, marked_shown};
ghost use Rattle.vl_rules.specs.inner.Counted.{times_counted, trail_behind, wrong_there};

use crate::folds::sooner_folds;
use crate::leads::{LedView, channel_in, channel_trail, has_encoding, holds, led, may_hold};
use crate::marked::{MOST_UNITS, Marked};
use json_exact::Json;
use spec_schema::{Fault, SpecKind};
use spec_walk::Step;
use std::alloc::Global;
use text_kit::{OutOfMemory, Seq, Text};
use vl_compose::source_of;
use vl_names::{channel_name, to_member};
use vl_normalize::{SIZE, X, X2, Y, Y2};
use vl_spec::{ChannelOf, Mark, MarkType};
use vl_trails::{Broken, sooner_placed, value_at};

/// The number of `data` among the rules of a unit.
pub const DATA_RULE: usize = 4;

// The steps to the first of some views that has a member `data`.
fn data_among<'a, 's>(
    alloc: Global,
    tree: &Json,
    views: &'a [LedView<'s>],
    own: &'a [Step],
) -> Result<&'a [Step], OutOfMemory>
    ensures { IfOk result (λ trail. trail.now ≡ data_among tree.now (map led_shown views.now) own.now) }
{
    for led in views {
        if holds(alloc, tree, led.trail.as_slice(), "data")? {
            return Ok(led.trail.as_slice());
        }
    }
    Ok(own)
}

// That `data` is missing.
fn lacks_data(alloc: Global) -> Result<Broken, OutOfMemory>
    ensures { IfOk result (λ what. what ≡ broken.Missing DATA_RULE (codes "data")) }
{
    let name = Text::of(alloc, "data")?;
    Ok(Broken::Missing(DATA_RULE, name))
}

// The fault so far, or a `data` that is missing here.
fn sooner_missing_data(
    alloc: Global,
    tree: &Json,
    so_far: Option<Fault>,
    trail: &[Step],
) -> Result<Option<Fault>, OutOfMemory>
    ensures { IfOk result (λ f. f ≡ earlier_fault so_far (earliest_placed tree.now (missing_at trail.now DATA_RULE (codes "data") ∷ []))) }
{
    let what = lacks_data(alloc)?;
    sooner_placed(alloc, tree, so_far, trail, &what)
}

// The fault so far, or the `data` that a unit lacks, which no view round it names.
fn sooner_lacking(
    alloc: Global,
    tree: &Json,
    so_far: Option<Fault>,
    unit: &Marked,
) -> Result<Option<Fault>, OutOfMemory>
    ensures { IfOk result (λ f. f ≡ earlier_fault so_far (earliest_placed tree.now
        (missing_at (data_among tree.now (led (marked_shown unit.now).round) (marked_shown unit.now).trail) DATA_RULE (codes "data") ∷ []))) }
{
    let views = led(alloc, unit.round.as_slice())?;
    let trail = data_among(alloc, tree, views.as_slice(), unit.trail.as_slice())?;
    sooner_missing_data(alloc, tree, so_far, trail)
}

// The fault so far, or the `data` that a unit lacks.
fn sooner_without_data(
    alloc: Global,
    tree: &Json,
    so_far: Option<Fault>,
    unit: &Marked,
) -> Result<Option<Fault>, OutOfMemory>
    ensures { IfOk result (λ f. f ≡ earlier_fault so_far (earliest_placed tree.now (without_data tree.now (marked_shown unit.now)))) }
{
    match source_of(unit.round.as_slice()) {
        Some(_) => Ok(so_far),
        None => sooner_lacking(alloc, tree, so_far, unit),
    }
}

/// Whether one of some channels has this code.
pub fn has_channel(channels: &[&ChannelOf], code: u16) -> bool
    ensures { result ≡ has_channel (map (λ c. c.now) channels.now) code }
{
    for channel in channels {
        if channel.channel == code {
            return true;
        }
    }
    false
}

// Whether the encoding of a view has a member for the channel of a code, or might have one.
fn encodes(alloc: Global, tree: &Json, code: u16, led: &LedView) -> Result<bool, OutOfMemory>
    ensures { IfOk result (λ is. is ≡ encodes tree.now code (led_shown led.now)) }
{
    if has_encoding(&led.here.view.kind) {
        let encoding = to_member(alloc, led.trail.as_slice(), "encoding")?;
        may_hold(alloc, tree, encoding.as_slice(), channel_name(code))
    } else {
        Ok(false)
    }
}

// The steps to that member of the first of some views that has it.
fn start_among(
    alloc: Global,
    tree: &Json,
    views: &[LedView],
    code: u16,
    otherwise: Seq<Step>,
) -> Result<Seq<Step>, OutOfMemory>
    ensures { IfOk result (λ trail. trail ≡ start_among tree.now (map led_shown views.now) code otherwise) }
{
    for led in views {
        if encodes(alloc, tree, code, led)? {
            return channel_in(alloc, led.trail.as_slice(), code);
        }
    }
    Ok(otherwise)
}

// The fault so far, or that of an end, which a unit has without its start.
fn sooner_end(
    alloc: Global,
    tree: &Json,
    so_far: Option<Fault>,
    unit: &Marked,
    end: u16,
    start: u16,
) -> Result<Option<Fault>, OutOfMemory>
    ensures { IfOk result (λ f. f ≡ earlier_fault so_far (earliest_placed tree.now (wrong_if true
        (start_among tree.now (led (marked_shown unit.now).round) start (channel_trail (marked_shown unit.now).round end))))) }
{
    let views = led(alloc, unit.round.as_slice())?;
    let own = channel_trail(alloc, views.as_slice(), end)?;
    let trail = start_among(alloc, tree, views.as_slice(), start, own)?;
    sooner_placed(
        alloc,
        tree,
        so_far,
        trail.as_slice(),
        &Broken::Value(SpecKind::Wrong),
    )
}

// The fault so far, or that of an end that stands without its start.
fn sooner_lone_end(
    alloc: Global,
    tree: &Json,
    so_far: Option<Fault>,
    unit: &Marked,
    end: u16,
    start: u16,
) -> Result<Option<Fault>, OutOfMemory>
    ensures { IfOk result (λ f. f ≡ earlier_fault so_far (earliest_placed tree.now (lone_end tree.now end start (marked_shown unit.now)))) }
{
    let channels = unit.channels.as_slice();
    if has_channel(channels, end) && !has_channel(channels, start) {
        sooner_end(alloc, tree, so_far, unit, end, start)
    } else {
        Ok(so_far)
    }
}

// The fault so far, or that of one of both ends.
#[tactic(auto, using(vl_trails::proofs::OrderLemmas::two_lists))]
fn sooner_lone_ends(
    alloc: Global,
    tree: &Json,
    so_far: Option<Fault>,
    unit: &Marked,
) -> Result<Option<Fault>, OutOfMemory>
    ensures { IfOk result (λ f. f ≡ earlier_fault so_far (earliest_placed tree.now (lone_ends tree.now (marked_shown unit.now)))) }
{
    let so_far = sooner_lone_end(alloc, tree, so_far, unit, X2, X)?;
    let so_far = sooner_lone_end(alloc, tree, so_far, unit, Y2, Y)?;
    Ok(so_far)
}

// Whether marks of a type are signs.
fn is_sign(type_: MarkType) -> bool
    ensures { result ≡ is_sign type_ }
{
    match type_ {
        MarkType::Point | MarkType::Circle | MarkType::Square => true,
        MarkType::Bar
        | MarkType::Rect
        | MarkType::Line
        | MarkType::Area
        | MarkType::Tick
        | MarkType::Rule
        | MarkType::Text => false,
    }
}

// Whether a mark is no sign.
fn is_plain(mark: &Option<Mark>) -> bool
    ensures { result ≡ is_plain mark.now }
{
    match mark {
        Some(Mark::Type(type_)) => !is_sign(*type_),
        Some(Mark::Definition(of)) => !is_sign(of.type_),
        None => false,
    }
}

// Whether a mark is an object of bars.
fn may_lack_type(mark: &Option<Mark>) -> bool
    ensures { result ≡ may_lack_type mark.now }
{
    match mark {
        Some(Mark::Definition(of)) => matches!(of.type_, MarkType::Bar),
        Some(Mark::Type(_)) | None => false,
    }
}

// Whether a value is this text.
fn is_text(text: &str, value: &Json) -> bool
    ensures { result ≡ is_text text.now value.now }
{
    match value {
        Json::Text(other) => other.as_str() == text,
        Json::Null
        | Json::Flag(_)
        | Json::Number(_)
        | Json::Huge
        | Json::List(_)
        | Json::Object(_) => false,
    }
}

// The steps from a unit to the type of its mark.
fn type_trail(alloc: Global, trail: &[Step]) -> Result<Seq<Step>, OutOfMemory>
    ensures { IfOk result (λ at. at ≡ type_trail trail.now) }
{
    let mark = to_member(alloc, trail, "mark")?;
    to_member(alloc, mark.as_slice(), "type")
}

// Whether the text `bar` stands there.
fn says_bar(alloc: Global, tree: &Json, trail: &[Step]) -> Result<bool, OutOfMemory>
    ensures { IfOk result (λ says. says ≡ says_bar tree.now trail.now) }
{
    let at = type_trail(alloc, trail)?;
    match value_at(alloc, tree, at.as_slice())? {
        Some(value) => Ok(is_text("bar", value)),
        None => Ok(false),
    }
}

// Whether the mark of a unit has a type that is ill-formed.
fn lacks_type(alloc: Global, tree: &Json, unit: &Marked) -> Result<bool, OutOfMemory>
    ensures { IfOk result (λ lacks. lacks
        ≡ (may_lack_type (marked_shown unit.now).mark && not (says_bar tree.now (marked_shown unit.now).trail))) }
{
    if may_lack_type(unit.mark) {
        Ok(!says_bar(alloc, tree, unit.trail.as_slice())?)
    } else {
        Ok(false)
    }
}

// The steps to the channel `size` of a unit.
fn channel_size_trail(alloc: Global, unit: &Marked) -> Result<Seq<Step>, OutOfMemory>
    ensures { IfOk result (λ trail. trail ≡ channel_trail (marked_shown unit.now).round SIZE) }
{
    let views = led(alloc, unit.round.as_slice())?;
    channel_trail(alloc, views.as_slice(), SIZE)
}

// Where the size of a unit is at fault.
fn size_trail(alloc: Global, tree: &Json, unit: &Marked) -> Result<Seq<Step>, OutOfMemory>
    ensures { IfOk result (λ trail. trail ≡ size_trail tree.now (marked_shown unit.now)) }
{
    if lacks_type(alloc, tree, unit)? {
        type_trail(alloc, unit.trail.as_slice())
    } else {
        channel_size_trail(alloc, unit)
    }
}

// The fault so far, or that of the size of a unit.
fn sooner_size(
    alloc: Global,
    tree: &Json,
    so_far: Option<Fault>,
    unit: &Marked,
) -> Result<Option<Fault>, OutOfMemory>
    ensures { IfOk result (λ f. f ≡ earlier_fault so_far
        (earliest_placed tree.now (fault_if true Unsupported (size_trail tree.now (marked_shown unit.now))))) }
{
    let trail = size_trail(alloc, tree, unit)?;
    sooner_placed(
        alloc,
        tree,
        so_far,
        trail.as_slice(),
        &Broken::Value(SpecKind::Unsupported),
    )
}

// The fault so far, or that of a size for which a mark has no use.
fn sooner_useless_size(
    alloc: Global,
    tree: &Json,
    so_far: Option<Fault>,
    unit: &Marked,
) -> Result<Option<Fault>, OutOfMemory>
    ensures { IfOk result (λ f. f ≡ earlier_fault so_far (earliest_placed tree.now (useless_size tree.now (marked_shown unit.now)))) }
{
    if has_channel(unit.channels.as_slice(), SIZE) && is_plain(unit.mark) {
        sooner_size(alloc, tree, so_far, unit)
    } else {
        Ok(so_far)
    }
}

// The fault so far, or one of a unit.
#[tactic(auto, using(vl_trails::proofs::OrderLemmas::two_lists))]
fn sooner_unit(
    alloc: Global,
    tree: &Json,
    so_far: Option<Fault>,
    unit: &Marked,
) -> Result<Option<Fault>, OutOfMemory>
    ensures { IfOk result (λ f. f ≡ earlier_fault so_far (earliest_placed tree.now (faults_of_unit tree.now (marked_shown unit.now)))) }
{
    let so_far = sooner_without_data(alloc, tree, so_far, unit)?;
    let so_far = sooner_lone_ends(alloc, tree, so_far, unit)?;
    let so_far = sooner_useless_size(alloc, tree, so_far, unit)?;
    let so_far = sooner_folds(alloc, tree, so_far, unit)?;
    Ok(so_far)
}

/// The fault so far, or one of some units.
pub fn sooner_units(
    alloc: Global,
    tree: &Json,
    mut so_far: Option<Fault>,
    units: &[Marked],
) -> Result<Option<Fault>, OutOfMemory>
    ensures { IfOk result (λ f. f ≡ earlier_fault so_far (earliest_placed tree.now (flat_map (faults_of_unit tree.now) (map marked_shown units.now)))) }
{
    for unit in units {
        so_far = sooner_unit(alloc, tree, so_far, unit)?;
    }
    Ok(so_far)
}

/// Whether a mark is a line with points.
pub fn is_pointed(mark: &Option<Mark>) -> bool
    ensures { result ≡ is_some (pointed mark.now) }
{
    match mark {
        Some(Mark::Definition(of)) => {
            matches!(of.type_, MarkType::Line) && of.point.unwrap_or(false)
        }
        Some(Mark::Type(_)) | None => false,
    }
}

// As how many units a view of this mark counts.
fn counted(mark: &Option<Mark>) -> usize
    ensures { result ≡ times_counted mark.now }
{
    if is_pointed(mark) { 2 } else { 1 }
}

// The steps to the unit that is counted behind as many as these, where a line with points is two.
fn trail_behind<'a, 's>(units: &'a [Marked<'s>], number: usize) -> Option<&'a [Step]>
    ensures { option_map (λ trail. trail.now) result ≡ trail_behind (map marked_shown units.now) number }
{
    let mut left = number;
    for unit in units {
        let many = counted(unit.mark);
        if left < many {
            return Some(unit.trail.as_slice());
        }
        left -= many;
    }
    None
}

// The fault so far, or a wrong value at a trail, if there is one.
fn sooner_wrong(
    alloc: Global,
    tree: &Json,
    so_far: Option<Fault>,
    trail: Option<&[Step]>,
) -> Result<Option<Fault>, OutOfMemory>
    ensures { IfOk result (λ f. f ≡ earlier_fault so_far (earliest_placed tree.now (wrong_there (option_map (λ t. t.now) trail.entry)))) }
{
    match trail {
        Some(trail) => sooner_placed(alloc, tree, so_far, trail, &Broken::Value(SpecKind::Wrong)),
        None => Ok(so_far),
    }
}

/// The fault so far, or the unit behind the last that there may be.
pub fn sooner_too_many(
    alloc: Global,
    tree: &Json,
    so_far: Option<Fault>,
    units: &[Marked],
) -> Result<Option<Fault>, OutOfMemory>
    ensures { IfOk result (λ f. f ≡ earlier_fault so_far (earliest_placed tree.now (one_too_many (map marked_shown units.now)))) }
{
    sooner_wrong(alloc, tree, so_far, trail_behind(units, MOST_UNITS))
}

// The scales of a specification as its units see them.
use scale_infer::{LINEAR, ScaleOf, TIME, infer};
use std::alloc::Global;
use text_kit::{OutOfMemory, Seq};
use unit_plan::ScaleSeen;
use vl_compose::{SharedScale, UnitHere, definitions_at, resolve_of, views_of};
use vl_normalize::{X, Y};
use vl_spec::{Definition, Scale, VlSpec};

// The first of several definitions.
fn first_of<'s>(definitions: &[&'s Definition]) -> Option<&'s Definition> {
    match definitions {
        [first, ..] => Some(*first),
        [] => None,
    }
}

// The first definition of a channel of a unit that has a scale.
fn first_at<'s>(
    alloc: Global,
    unit: &UnitHere<'s>,
    channel: u16,
) -> Result<Option<&'s Definition>, OutOfMemory> {
    let definitions = definitions_at(alloc, unit.channels.as_slice(), channel)?;
    Ok(first_of(definitions.as_slice()))
}

// A number of 32 bits; a greater one is cut.
fn small(number: usize) -> u32 {
    match u32::try_from(number) {
        Ok(number) => number,
        Err(_) => u32::MAX,
    }
}

// Adds the scale of a unit that shows nothing on one in a channel.
fn push_alone(
    alloc: Global,
    unit: &UnitHere,
    channel: u16,
    shared: &mut Seq<SharedScale>,
) -> Result<(), OutOfMemory> {
    match first_at(alloc, unit, channel)? {
        Some(_) => Ok(()),
        None => {
            let mut units = Seq::new(alloc);
            units.push(small(unit.number))?;
            shared.push(SharedScale { channel, units })
        }
    }
}

// Adds those of all units in a channel.
fn push_all_alone(
    alloc: Global,
    units: &[UnitHere],
    channel: u16,
    shared: &mut Seq<SharedScale>,
) -> Result<(), OutOfMemory> {
    for unit in units {
        push_alone(alloc, unit, channel, shared)?;
    }
    Ok(())
}

/// The scales of a normal form: those that units share, and then those of x and of y that units have for themselves.
pub fn all_scales(
    alloc: Global,
    s: &VlSpec,
    units: &[UnitHere],
) -> Result<Seq<ScaleOf>, OutOfMemory> {
    let mut shared = resolve_of(alloc, s)?;
    push_all_alone(alloc, units, X, &mut shared)?;
    push_all_alone(alloc, units, Y, &mut shared)?;
    let views = views_of(alloc, s)?;
    infer(alloc, s, &views, &shared)
}

// Whether a scale is turned round by what is said of it.
fn turns(scale: &Option<Scale>) -> bool {
    match scale {
        Some(scale) => matches!(scale.reverse, Some(true)),
        None => false,
    }
}

// Whether it is by what a definition says.
fn is_reversed(definition: &Definition) -> bool {
    match definition {
        Definition::Datum(of) => turns(&of.scale),
        Definition::Field(of) => turns(&of.scale),
        Definition::Value(_) => false,
    }
}

// Whether the range of a scale rises, where none is given.
fn rises(channel: u16, kind: u16, reversed: bool) -> bool {
    let falls = channel == Y && (kind == LINEAR || kind == TIME);
    falls == reversed
}

// Whether a unit is one of some views.
fn is_among(views: &[u32], number: usize) -> bool {
    views.iter().any(|view| *view as usize == number)
}

// Adds a scale, if a unit sees it.
fn push_seen(
    alloc: Global,
    number: usize,
    scale: &ScaleOf,
    unit: &UnitHere,
    seen: &mut Seq<ScaleSeen>,
) -> Result<(), OutOfMemory> {
    if !is_among(scale.units.as_slice(), unit.number) {
        return Ok(());
    }
    let (reversed, alone) = match first_at(alloc, unit, scale.channel)? {
        Some(first) => (is_reversed(first), false),
        None => (false, true),
    };
    seen.push(ScaleSeen {
        channel: scale.channel,
        number,
        kind: scale.kind,
        rises: rises(scale.channel, scale.kind, reversed),
        alone,
    })
}

/// The scales that a unit sees, each with its number among all.
pub fn seen_by(
    alloc: Global,
    scales: &[ScaleOf],
    unit: &UnitHere,
) -> Result<Seq<ScaleSeen>, OutOfMemory> {
    let mut seen = Seq::new(alloc);
    for (number, scale) in scales.iter().enumerate() {
        push_seen(alloc, number, scale, unit, &mut seen)?;
    }
    Ok(seen)
}

//! The units that selections concern, where a line with points is two.
ghost use Rattle.std.specs.Prelude.{◌≡◌, ◌∷◌, ◌++◌, [], Some, flat_map, map, IfOk, OnOk};
ghost use Rattle.vl_spec.specs.declared.marks.Mark.TheVariants as mark;
ghost use Rattle.vl_rules.specs.Parts.{parts_of, part_with, line_and_points};
ghost use Rattle.vl_rules.specs.inner.Shown.{marked_shown, part_shown};

use crate::marked::Marked;
use crate::units::is_pointed;
use std::alloc::Global;
use text_kit::{OutOfMemory, Seq};
use vl_names::copied_trail;
use vl_normalize::used;
use vl_spec::{ChannelOf, Mark, MarkType};

/// A unit with the channels that its mark has a use for.
#[derive(Drop)]
pub struct Part<'s> {
    /// The unit.
    pub unit: Marked<'s>,
    /// 1 for the points of a line, else 0.
    pub number: usize,
    /// The channels.
    pub channels: Seq<&'s ChannelOf>,
}

// The same unit.
fn copied_unit<'s>(alloc: Global, unit: &Marked<'s>) -> Result<Marked<'s>, OutOfMemory>
    ensures { IfOk result (λ copy. marked_shown copy ≡ marked_shown unit.now) }
{
    let round = Seq::from_slice(alloc, unit.round.as_slice())?;
    let channels = Seq::from_slice(alloc, unit.channels.as_slice())?;
    let trail = copied_trail(alloc, unit.trail.as_slice())?;
    Ok(Marked {
        round,
        trail,
        mark: unit.mark,
        channels,
    })
}

// A unit with the channels that this mark has a use for.
fn part_with<'s>(
    alloc: Global,
    unit: &Marked<'s>,
    number: usize,
    mark: &Option<Mark>,
) -> Result<Part<'s>, OutOfMemory>
    ensures { IfOk result (λ part. part_shown part ≡ part_with (marked_shown unit.now) number mark.now) }
{
    let channels = used(alloc, mark, unit.channels.as_slice())?;
    let unit = copied_unit(alloc, unit)?;
    Ok(Part {
        unit,
        number,
        channels,
    })
}

// Adds a unit with the channels that marks of this type have a use for.
fn push_typed<'s>(
    alloc: Global,
    unit: &Marked<'s>,
    number: usize,
    type_: MarkType,
    parts: &mut Seq<Part<'s>>,
) -> Result<(), OutOfMemory>
    ensures { OnOk result (map part_shown parts.new
        ≡ map part_shown parts.old ++ part_with (marked_shown unit.now) number (Some (mark.Type type_)) ∷ []) }
{
    let part = part_with(alloc, unit, number, &Some(Mark::Type(type_)))?;
    parts.push(part)
}

// Adds the line and the points of a unit.
fn push_line_and_points<'s>(
    alloc: Global,
    unit: &Marked<'s>,
    parts: &mut Seq<Part<'s>>,
) -> Result<(), OutOfMemory>
    ensures { OnOk result (map part_shown parts.new ≡ map part_shown parts.old ++ line_and_points (marked_shown unit.now)) }
{
    push_typed(alloc, unit, 0, MarkType::Line, parts)?;
    push_typed(alloc, unit, 1, MarkType::Point, parts)
}

// Adds the units as which a unit counts.
fn push_parts<'s>(
    alloc: Global,
    unit: &Marked<'s>,
    parts: &mut Seq<Part<'s>>,
) -> Result<(), OutOfMemory>
    ensures { OnOk result (map part_shown parts.new ≡ map part_shown parts.old ++ parts_of (marked_shown unit.now)) }
{
    if is_pointed(unit.mark) {
        push_line_and_points(alloc, unit, parts)
    } else {
        parts.push(part_with(alloc, unit, 0, unit.mark)?)
    }
}

/// The units as which some units count.
pub fn parts_among<'s>(alloc: Global, units: &[Marked<'s>]) -> Result<Seq<Part<'s>>, OutOfMemory>
    ensures { IfOk result (λ parts. map part_shown parts ≡ flat_map parts_of (map marked_shown units.now)) }
{
    let mut parts = Seq::new(alloc);
    for unit in units {
        push_parts(alloc, unit, &mut parts)?;
    }
    Ok(parts)
}

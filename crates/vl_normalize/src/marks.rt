// Which channels a mark has a use for, and lines with points.
ghost use Rattle.std.specs.Prelude.{◌≡◌, ◌++◌, map, Some, IfOk, OnOk, if◌then◌else◌, [], ◌∷◌};
ghost use Rattle.std.specs.Option.{option_copied};
ghost use Rattle.vl_normalize.specs.Marks.{is_point_type, is_line_type, is_text_type, is_point, is_text, is_used, used, has_points};
ghost use Rattle.vl_normalize.specs.Marks.{pointed, line_of, points_of};

use crate::codes::{SHAPE, TEXT};
use crate::facets::is_facet;
use std::alloc::Global;
use text_kit::{Copies, OutOfMemory, Seq};
use vl_spec::{ChannelOf, Mark, MarkDefinition, MarkType};

fn is_point_type(type_: MarkType) -> bool
    ensures { result ≡ is_point_type type_ }
{
    matches!(type_, MarkType::Point)
}

fn is_line_type(type_: MarkType) -> bool
    ensures { result ≡ is_line_type type_ }
{
    matches!(type_, MarkType::Line)
}

fn is_text_type(type_: MarkType) -> bool
    ensures { result ≡ is_text_type type_ }
{
    matches!(type_, MarkType::Text)
}

fn is_point(mark: &Option<Mark>) -> bool
    ensures { result ≡ is_point mark.now }
{
    match mark {
        Some(Mark::Type(type_)) => is_point_type(*type_),
        Some(Mark::Definition(of)) => is_point_type(of.type_),
        None => false,
    }
}

fn is_text(mark: &Option<Mark>) -> bool
    ensures { result ≡ is_text mark.now }
{
    match mark {
        Some(Mark::Type(type_)) => is_text_type(*type_),
        Some(Mark::Definition(of)) => is_text_type(of.type_),
        None => false,
    }
}

// Whether a mark has a use for channels of this code.
fn is_used(mark: &Option<Mark>, code: u16) -> bool
    ensures { result ≡ is_used mark.now code }
{
    !is_facet(code) && (code != SHAPE || is_point(mark)) && (code != TEXT || is_text(mark))
}

// Adds a channel, where a mark has a use for it.
fn push_used<'a>(
    mark: &Option<Mark>,
    channel: &'a ChannelOf,
    out: &mut Seq<&'a ChannelOf>,
) -> Result<(), OutOfMemory>
    ensures { OnOk result (map (λ c. c.now) out.new
        ≡ map (λ c. c.now) out.old ++ (if is_used mark.now channel.now.channel then channel.now ∷ [] else [])) }
{
    if is_used(mark, channel.channel) {
        out.push(channel)
    } else {
        Ok(())
    }
}

/// The channels that a mark has a use for.
pub fn used<'a>(
    alloc: Global,
    mark: &Option<Mark>,
    channels: &[&'a ChannelOf],
) -> Result<Seq<&'a ChannelOf>, OutOfMemory>
    ensures { IfOk result (λ out. map (λ c. c.now) out ≡ used mark.now (map (λ c. c.now) channels.now)) }
{
    let mut out = Seq::new(alloc);
    for channel in channels {
        push_used(mark, *channel, &mut out)?;
    }
    Ok(out)
}

// Whether a mark is a line with points.
fn has_points(mark: &MarkDefinition) -> bool
    ensures { result ≡ has_points mark.now }
{
    is_line_type(mark.type_) && mark.point.unwrap_or(false)
}

/// The definition of a line with points.
pub fn pointed(mark: &Option<Mark>) -> Option<&MarkDefinition>
    ensures { option_copied result ≡ pointed mark.now }
{
    match mark {
        Some(Mark::Definition(of)) if has_points(of) => Some(of),
        _ => None,
    }
}

/// The line of a line with points.
pub fn line_of(alloc: Global, mark: &MarkDefinition) -> Result<MarkDefinition, OutOfMemory>
    ensures { IfOk result (λ line. line ≡ line_of mark.now) }
{
    let mut line = mark.copied(alloc)?;
    line.point = None;
    Ok(line)
}

/// Its points: filled, and with the line's other members.
pub fn points_of(alloc: Global, mark: &MarkDefinition) -> Result<MarkDefinition, OutOfMemory>
    ensures { IfOk result (λ points. points ≡ points_of mark.now) }
{
    let mut points = mark.copied(alloc)?;
    points.type_ = MarkType::Point;
    points.filled = Some(true);
    points.point = None;
    Ok(points)
}

// The marks of units.
ghost use Rattle.std.specs.Prelude.{◌≡◌, ◌++◌, ◌∷◌, [], None, Some, IfOk, OnOk};
ghost use Rattle.std.specs.Option.{option_map, option_and_then};
ghost use Rattle.vega_assemble.specs.Channels.{end_channel, look_channel, words_channel};
ghost use Rattle.vega_assemble.specs.Names.{mark_name, unit_name};
ghost use Rattle.vega_assemble.specs.Made.{NoMarks, bare_object, group_rolled, mark_rolled, rolled};
ghost use Rattle.vega_assemble.specs.Marks.{type_of, if_filled, if_stroked, plain_width, number_alone, width_channel, align_word, baseline_word};
ghost use Rattle.vega_assemble.specs.Marks.{align_channel, baseline_channel, dx_channel, dy_channel, font_channel, channels_of};
ghost use Rattle.vega_assemble.specs.Marks.{by_field, mark_of, series_facet, unit_before};

use crate::channels::{alone, end_channel, look_channel, number_value, text_value, words_channel};
use crate::made::{group_mark, no_group, plain_group};
use crate::names::{mark_name, unit_name};
use crate::numbers::millionths;
use crate::several::{copied_texts, one_of};
use fixed_num::Num;
use plan_kit::{Along, LookWay, MarkPlan, MarkShape, ScalePlan, TextLook, UnitPlan};
use std::alloc::Global;
use text_kit::{OutOfMemory, Seq, Text};
use vega_spec::{Channel, Channels, Encode, Facet, MarkFrom, MarkType, Sort, Texts, VgMark};
use vl_normalize::{X, Y};
use vl_spec::{Align, Baseline};

// ---- parts

// The type of a mark.
fn type_of(shape: MarkShape) -> MarkType
    ensures { result ≡ type_of shape }
{
    match shape {
        MarkShape::Rect => MarkType::Rect,
        MarkShape::Symbol => MarkType::Symbol,
        MarkShape::Line => MarkType::Line,
        MarkShape::Area => MarkType::Area,
        MarkShape::Rule => MarkType::Rule,
        MarkShape::Text => MarkType::Text,
    }
}

// A number alone.
fn number_alone(n: Num) -> Option<Channel>
    ensures { result ≡ number_alone n }
{
    alone(number_value(n))
}

// The width of a line where none is said.
fn plain_width(shape: MarkShape) -> Option<Num>
    ensures { result ≡ plain_width shape }
{
    match shape {
        MarkShape::Symbol => Some(millionths(1_000_000)),
        MarkShape::Rect | MarkShape::Line | MarkShape::Area | MarkShape::Rule | MarkShape::Text =>
            None,
    }
}

// The width of a line.
fn width_channel(shape: MarkShape, width: Option<Num>) -> Option<Channel>
    ensures { result ≡ width_channel shape width }
{
    match width {
        Some(width) => number_alone(width),
        None => match plain_width(shape) {
            Some(width) => number_alone(width),
            None => None,
        },
    }
}

// How a text stands along its line.
fn align_word(align: Align) -> &'static str
    ensures { result.now ≡ align_word align }
{
    match align {
        Align::Left => "left",
        Align::Center => "center",
        Align::Right => "right",
    }
}

// How it stands across its line.
fn baseline_word(baseline: Baseline) -> &'static str
    ensures { result.now ≡ baseline_word baseline }
{
    match baseline {
        Baseline::Top => "top",
        Baseline::Middle => "middle",
        Baseline::Bottom => "bottom",
        Baseline::Alphabetic => "alphabetic",
    }
}

// ---- channels, four at a time

// The two ends along a channel.
fn ends_along(
    alloc: Global,
    stem: &Text,
    scales: &[ScalePlan],
    channel: u16,
    along: &Along,
) -> Result<(Option<Channel>, Option<Channel>), OutOfMemory>
    ensures { IfOk result (λ both. both
        ≡ (end_channel stem.now scales.now channel along.now.near, end_channel stem.now scales.now channel along.now.far)) }
{
    let near = end_channel(alloc, stem, scales, channel, along.near.as_slice())?;
    let far = end_channel(alloc, stem, scales, channel, along.far.as_slice())?;
    Ok((near, far))
}

// A value, and the channel of a look.
fn look_beside<K: Drop>(
    alloc: Global,
    kept: K,
    stem: &Text,
    scales: &[ScalePlan],
    ways: &[LookWay],
) -> Result<(K, Option<Channel>), OutOfMemory>
    ensures { IfOk result (λ both. both ≡ (kept, look_channel stem.now scales.now ways.now)) }
{
    let shown = look_channel(alloc, stem, scales, ways)?;
    Ok((kept, shown))
}

// A value, and the two ends along a channel.
fn ends_beside<K: Drop>(
    alloc: Global,
    kept: K,
    stem: &Text,
    scales: &[ScalePlan],
    channel: u16,
    along: &Along,
) -> Result<(K, (Option<Channel>, Option<Channel>)), OutOfMemory>
    ensures { IfOk result (λ both. both
        ≡ (kept, (end_channel stem.now scales.now channel along.now.near, end_channel stem.now scales.now channel along.now.far))) }
{
    let ends = ends_along(alloc, stem, scales, channel, along)?;
    Ok((kept, ends))
}

// How a text stands: its align and its baseline.
fn line_words(
    alloc: Global,
    text: Option<TextLook>,
) -> Result<(Option<Channel>, Option<Channel>), OutOfMemory>
    ensures { IfOk result (λ both. both ≡ (option_and_then align_channel text, option_and_then baseline_channel text)) }
{
    match text {
        Some(text) => {
            let align = text_value(alloc, align_word(text.align))?;
            let baseline = text_value(alloc, baseline_word(text.baseline))?;
            Ok((alone(align), alone(baseline)))
        }
        None => Ok((None, None)),
    }
}

// A value, and how a text stands.
fn line_beside<K: Drop>(
    alloc: Global,
    kept: K,
    text: Option<TextLook>,
) -> Result<(K, (Option<Channel>, Option<Channel>)), OutOfMemory>
    ensures { IfOk result (λ both. both ≡ (kept, (option_and_then align_channel text, option_and_then baseline_channel text))) }
{
    let line = line_words(alloc, text)?;
    Ok((kept, line))
}

// How far a text is moved to the right, how far down, and its size.
fn dx_channel(text: Option<TextLook>) -> Option<Channel>
    ensures { result ≡ option_and_then dx_channel text }
{
    match text {
        Some(text) => number_alone(text.dx),
        None => None,
    }
}

fn dy_channel(text: Option<TextLook>) -> Option<Channel>
    ensures { result ≡ option_and_then dy_channel text }
{
    match text {
        Some(text) => number_alone(text.dy),
        None => None,
    }
}

fn font_channel(text: Option<TextLook>) -> Option<Channel>
    ensures { result ≡ option_and_then font_channel text }
{
    match text {
        Some(text) => number_alone(text.size),
        None => None,
    }
}

// The colour as that of what is inside, and as that of the line.
fn painted(stroked: bool, color: Option<Channel>) -> (Option<Channel>, Option<Channel>)
    ensures { result ≡ (if_filled stroked color, if_stroked stroked color) }
{
    if stroked {
        (None, color)
    } else {
        (color, None)
    }
}

// A value, and the channel of words.
fn words_beside<K: Drop>(
    alloc: Global,
    kept: K,
    m: &MarkPlan,
) -> Result<(K, Option<Channel>), OutOfMemory>
    ensures { IfOk result (λ both. both ≡ (kept, words_channel m.now.words)) }
{
    let words = words_channel(alloc, m.words.as_slice())?;
    Ok((kept, words))
}

// What a mark shows.
fn channels_of(
    alloc: Global,
    stem: &Text,
    scales: &[ScalePlan],
    m: &MarkPlan,
) -> Result<Channels, OutOfMemory>
    ensures { IfOk result (λ channels. channels ≡ channels_of stem.now scales.now m.now) }
{
    let kept = ends_along(alloc, stem, scales, X, &m.across)?;
    let kept = ends_beside(alloc, kept, stem, scales, Y, &m.down)?;
    let kept = look_beside(alloc, kept, stem, scales, m.color.as_slice())?;
    let kept = look_beside(alloc, kept, stem, scales, m.opacity.as_slice())?;
    let kept = look_beside(alloc, kept, stem, scales, m.size.as_slice())?;
    let kept = look_beside(alloc, kept, stem, scales, m.sign.as_slice())?;
    let kept = words_beside(alloc, kept, m)?;
    let (kept, (align, baseline)) = line_beside(alloc, kept, m.text)?;
    let ((((((across, down), color), opacity), size), shape), text) = kept;
    let (x, x2) = across;
    let (y, y2) = down;
    let (fill, stroke) = painted(m.stroked, color);
    Ok(Channels {
        x,
        x2,
        xc: None,
        width: None,
        y,
        y2,
        yc: None,
        height: None,
        fill,
        stroke,
        stroke_width: width_channel(m.shape, m.line_width),
        opacity,
        size,
        shape,
        text,
        align,
        baseline,
        dx: dx_channel(m.text),
        dy: dy_channel(m.text),
        font_size: font_channel(m.text),
    })
}

// ---- marks

// The order of a path.
fn order_of(order: &Option<Text>) -> Result<Option<Sort>, OutOfMemory>
    ensures { IfOk result (λ sort. sort ≡ option_map by_field order.now) }
{
    match order {
        Some(field) => {
            let field = field.copy()?;
            Ok(Some(Sort {
                field: Texts::One(field),
                order: None,
            }))
        }
        None => Ok(None),
    }
}

// The name of a unit's mark, and that of its rows.
fn names_of(alloc: Global, stem: &Text, unit: usize) -> Result<(Text, Text), OutOfMemory>
    ensures { IfOk result (λ both. both ≡ (mark_name stem.now unit, unit_name stem.now unit)) }
{
    let name = mark_name(alloc, stem, unit)?;
    let from = unit_name(alloc, stem, unit)?;
    Ok((name, from))
}

// A value, and what a mark shows.
fn channels_beside<K: Drop>(
    alloc: Global,
    kept: K,
    stem: &Text,
    scales: &[ScalePlan],
    m: &MarkPlan,
) -> Result<(K, Channels), OutOfMemory>
    ensures { IfOk result (λ both. both ≡ (kept, channels_of stem.now scales.now m.now)) }
{
    let channels = channels_of(alloc, stem, scales, m)?;
    Ok((kept, channels))
}

// The mark of a unit.
fn mark_of(
    alloc: Global,
    stem: &Text,
    scales: &[ScalePlan],
    unit: &UnitPlan,
) -> Result<VgMark, OutOfMemory>
    ensures { IfOk result (λ mark. mark ≡ mark_rolled (mark_of stem.now scales.now unit.now)) }
{
    let sort = order_of(&unit.mark.order)?;
    let (name, from) = names_of(alloc, stem, unit.number)?;
    let ((sort, name, from), channels) = channels_beside(
        alloc,
        (sort, name, from),
        stem,
        scales,
        &unit.mark,
    )?;
    Ok(VgMark {
        type_: type_of(unit.mark.shape),
        name: Some(name),
        from: Some(MarkFrom::Data(from)),
        encode: Some(Encode {
            enter: None,
            update: Some(channels),
        }),
        sort,
        group: no_group(),
    })
}

// The parts of a unit's rows that have a path each.
fn series_facet(alloc: Global, stem: &Text, unit: &UnitPlan) -> Result<Facet, OutOfMemory>
    ensures { IfOk result (λ facet. facet ≡ series_facet stem.now unit.now) }
{
    let name = unit_name(alloc, stem, unit.number)?;
    let data_ = unit_name(alloc, stem, unit.number)?;
    let groupby = copied_texts(alloc, unit.mark.series.as_slice())?;
    Ok(Facet {
        name: Texts::One(name),
        data_: Texts::One(data_),
        groupby,
        aggregate: None,
        headers: None,
    })
}

// A mark in a group for each of its series.
fn in_series(
    alloc: Global,
    stem: &Text,
    mark: VgMark,
    unit: &UnitPlan,
) -> Result<VgMark, OutOfMemory>
    ensures { IfOk result (λ group. group ≡ group_rolled (record bare_object { facet = Some (series_facet stem.now unit.now) }) (mark ∷ [])) }
{
    let marks = one_of(alloc, mark)?;
    let (marks, facet) = series_beside(alloc, marks, stem, unit)?;
    Ok(group_mark(plain_group(marks), None, Some(facet), None))
}

// A value, and the parts of a unit's rows.
fn series_beside<K: Drop>(
    alloc: Global,
    kept: K,
    stem: &Text,
    unit: &UnitPlan,
) -> Result<(K, Facet), OutOfMemory>
    ensures { IfOk result (λ both. both ≡ (kept, series_facet stem.now unit.now)) }
{
    let facet = series_facet(alloc, stem, unit)?;
    Ok((kept, facet))
}

/// Adds the mark of a unit, with series in a group for each of them.
pub(crate) fn push_unit(
    alloc: Global,
    stem: &Text,
    scales: &[ScalePlan],
    unit: &UnitPlan,
    out: &mut Seq<VgMark>,
) -> Result<(), OutOfMemory>
    ensures { OnOk result (out.new ≡ out.old ++ rolled (unit_before stem.now scales.now unit.now NoMarks)) }
{
    let mark = mark_of(alloc, stem, scales, unit)?;
    if unit.mark.series.is_empty() {
        out.push(mark)
    } else {
        out.push(in_series(alloc, stem, mark, unit)?)
    }
}

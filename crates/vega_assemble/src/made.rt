// Groups and the whole specification, of what stands in them.
ghost use Rattle.std.specs.Prelude.{◌≡◌, IfOk, option_map};
ghost use Rattle.vega_spec.specs.declared.marks.MarkFrom.TheVariants as from;
ghost use Rattle.vega_spec.specs.declared.spec.Group.{roll-Group};
ghost use Rattle.vega_assemble.specs.Made.{bare_object, group_of, no_channels, no_parts, size_channel};
ghost use Rattle.vega_assemble.specs.inner.Groups.{encoded_by, group_with, mark_with, lists_in, top_with};

use crate::channels::{alone, number_value, signal_value};
use crate::several::if_any;
use fixed_num::Num;
use std::alloc::Global;
use text_kit::{OutOfMemory, Seq, Text};
use vega_spec::{
    Axis, Channel, Channels, DataSet, Encode, Facet, Group, Layout, Legend, MarkFrom, MarkType,
    Scale, Signal, Size, Sort, VgMark, VgSpec,
};

/// The address of the format.
const SCHEMA: &str = "https://vega.github.io/schema/vega/v5.json";

/// The width and the height of a plot.
#[derive(Drop)]
pub(crate) struct Extent {
    /// The width.
    pub width: Size,
    /// The height.
    pub height: Size,
}

/// What a mark that is no group has of one.
pub(crate) fn no_group() -> Group
    ensures { result ≡ roll-Group no_parts }
{
    Group {
        data_: None,
        signals: None,
        scales: None,
        layout: None,
        marks: None,
        axes: None,
        legends: None,
        title: None,
    }
}

/// A group with marks alone.
pub(crate) fn plain_group(marks: Seq<VgMark>) -> Group
    ensures { result ≡ group_of bare_object marks }
{
    Group {
        data_: None,
        signals: None,
        scales: None,
        layout: None,
        marks: if_any(marks),
        axes: None,
        legends: None,
        title: None,
    }
}

/// A group with these members.
pub(crate) fn group_with(
    scales: Seq<Scale>,
    layout: Option<Layout>,
    marks: Seq<VgMark>,
    axes: Seq<Axis>,
    legends: Seq<Legend>,
    title: Option<Text>,
) -> Group
    ensures { result ≡ group_with scales layout marks axes legends title }
{
    Group {
        data_: None,
        signals: None,
        scales: if_any(scales),
        layout,
        marks: if_any(marks),
        axes: if_any(axes),
        legends: if_any(legends),
        title,
    }
}

// No channel is shown.
fn sized_channels(width: Option<Channel>, height: Option<Channel>) -> Channels
    ensures { result ≡ record no_channels { width = width; height = height } }
{
    Channels {
        x: None,
        x2: None,
        xc: None,
        width,
        y: None,
        y2: None,
        yc: None,
        height,
        fill: None,
        stroke: None,
        stroke_width: None,
        opacity: None,
        size: None,
        shape: None,
        text: None,
        align: None,
        baseline: None,
        dx: None,
        dy: None,
        font_size: None,
    }
}

// A size as a channel.
fn size_channel(size: Size) -> Option<Channel>
    ensures { result ≡ size_channel size }
{
    match size {
        Size::Number(n) => alone(number_value(n)),
        Size::Signal(e) => alone(signal_value(e)),
    }
}

// What a plot encodes of its size.
fn encoded_by(extent: Option<Extent>) -> Option<Encode>
    ensures { result ≡ encoded_by extent }
{
    match extent {
        Some(Extent { width, height }) => Some(Encode {
            enter: None,
            update: Some(sized_channels(size_channel(width), size_channel(height))),
        }),
        None => None,
    }
}

// From the parts of data sets.
fn from_facet(facet: Option<Facet>) -> Option<MarkFrom>
    ensures { result ≡ option_map from.Facet facet }
{
    match facet {
        Some(facet) => Some(MarkFrom::Facet(facet)),
        None => None,
    }
}

/// A group as a mark: with its size, where it is a plot, and the parts of data sets of which each has a copy.
pub(crate) fn group_mark(
    group: Group,
    extent: Option<Extent>,
    facet: Option<Facet>,
    sort: Option<Sort>,
) -> VgMark
    ensures { result ≡ mark_with group extent facet sort }
{
    VgMark {
        type_: MarkType::Group,
        name: None,
        from: from_facet(facet),
        encode: encoded_by(extent),
        sort,
        group,
    }
}

/// The group of the top: with data sets and signals.
pub(crate) fn with_lists(group: Group, sets: Seq<DataSet>, signals: Seq<Signal>) -> Group
    ensures { result ≡ lists_in group sets signals }
{
    let Group {
        data_: _,
        signals: _,
        scales,
        layout,
        marks,
        axes,
        legends,
        title,
    } = group;
    Group {
        data_: if_any(sets),
        signals: if_any(signals),
        scales,
        layout,
        marks,
        axes,
        legends,
        title,
    }
}

/// The specification with this group at its top.
pub(crate) fn top_with(
    alloc: Global,
    group: Group,
    extent: Option<Extent>,
    padding: Num,
) -> Result<VgSpec, OutOfMemory>
    ensures { IfOk result (λ g. g ≡ top_with group extent padding) }
{
    let schema = Text::of(alloc, SCHEMA)?;
    let (width, height) = match extent {
        Some(Extent { width, height }) => (Some(width), Some(height)),
        None => (None, None),
    };
    Ok(VgSpec {
        group,
        schema: Some(schema),
        description: None,
        width,
        height,
        padding: Some(padding),
        autosize: None,
    })
}

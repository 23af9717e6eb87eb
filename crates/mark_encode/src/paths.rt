// The paths of lines and areas.
ghost use Rattle.std.specs.Prelude.{◌≡◌, ◌≤◌, IfOk};
ghost use Rattle.std.specs.Option.{option_to_list};
ghost use Rattle.cell_value.specs.Datum.{cell_at, datum_of};
ghost use Rattle.cell_value.specs.State.{greatest_id};
ghost use Rattle.expr_eval.specs.Answers.{Evaluates};
ghost use Rattle.mark_encode.specs.Channels.{channel_values};
ghost use Rattle.mark_encode.specs.Orders.{data_of, HaveIds};
ghost use Rattle.mark_encode.specs.Paths.{pass_for, stop_for, stops_for, path_look_for, path_of, path_over, is_closed, far_values, passes_of};
ghost use Rattle.mark_encode.specs.Paths.{path_values_of, path_items_of};
ghost use Rattle.mark_encode.specs.inner.Scaled.{scaled_all};
ghost use Rattle.mark_encode.specs.inner.Kinds.{look_values};
ghost use Rattle.mark_encode.specs.inner.PathParts.{pass_values, path_values};

use crate::channels::ChannelName;
use crate::colors::paint_shown;
use crate::looks::{LookChannels, default_stroke_width, looks_of};
use crate::numbers::{far_shown, number_shown};
use crate::prepared::{FarNumbers, Numbers, far_numbers_of, no_far_numbers, numbers_of};
use crate::scales::IndexedSet;
use crate::several::all_three;
use cell_value::{Keyed, TextPool};
use expr_eval::{EvalError, ParamReader};
use mark_shapes::{Look, Pass, PathStop, pass_of, path_item, path_look, points_of, stop_at};
use scene_tree::Item;
use std::alloc::Global;
use text_kit::{OutOfMemory, Seq};
use vega_spec::{Encode, MarkType};

/// The values in the channels that say where a path passes along one direction.
#[derive(Drop)]
pub struct PassChannels<'a> {
    pub near: Numbers<'a>,
    pub middle: Numbers<'a>,
    pub far: FarNumbers<'a>,
}

/// The values in the channels of a path.
#[derive(Drop)]
pub struct PathChannels<'a> {
    /// Whether it comes back.
    pub closed: bool,
    pub across: PassChannels<'a>,
    pub down: PassChannels<'a>,
    pub looks: LookChannels<'a>,
}

// Whether the paths of a type of mark come back along a base.
fn is_closed(type_: MarkType) -> bool
    ensures { result ≡ is_closed type_ }
{
    match type_ {
        MarkType::Rect => false,
        MarkType::Symbol => false,
        MarkType::Line => false,
        MarkType::Area => true,
        MarkType::Rule => false,
        MarkType::Text => false,
        MarkType::Group => false,
    }
}

// The values in a channel of far ends, which counts where a path comes back.
fn far_values<'a>(
    alloc: Global,
    closed: bool,
    set: &'a IndexedSet<'a>,
    sets: &'a Option<Encode>,
    far: ChannelName,
) -> Result<FarNumbers<'a>, OutOfMemory>
    ensures { IfOk result (λ far_end. scaled_all far_end.values ≡ far_values closed (channel_values set.now sets.now) far) }
{
    if closed {
        far_numbers_of(alloc, set, sets, far)
    } else {
        Ok(no_far_numbers(alloc))
    }
}

// The values in the channels of these names, as those of one direction.
fn passes_of<'a>(
    alloc: Global,
    closed: bool,
    set: &'a IndexedSet<'a>,
    sets: &'a Option<Encode>,
    near: ChannelName,
    middle: ChannelName,
    far: ChannelName,
) -> Result<PassChannels<'a>, OutOfMemory>
    ensures { IfOk result (λ along. pass_values along ≡ passes_of closed (channel_values set.now sets.now) near middle far) }
{
    let (near, middle, far) = all_three(
        numbers_of(alloc, set, sets, near),
        numbers_of(alloc, set, sets, middle),
        far_values(alloc, closed, set, sets, far),
    )?;
    Ok(PassChannels { near, middle, far })
}

// The values in the channels of a path.
fn path_channels<'a>(
    alloc: Global,
    closed: bool,
    set: &'a IndexedSet<'a>,
    sets: &'a Option<Encode>,
) -> Result<PathChannels<'a>, OutOfMemory>
    ensures { IfOk result (λ path. path_values path ≡ path_values_of closed (channel_values set.now sets.now)) }
{
    use ChannelName::{X, X2, Xc, Y, Y2, Yc};
    let (across, down, looks) = all_three(
        passes_of(alloc, closed, set, sets, X, Xc, X2),
        passes_of(alloc, closed, set, sets, Y, Yc, Y2),
        looks_of(alloc, set, sets),
    )?;
    Ok(PathChannels {
        closed,
        across,
        down,
        looks,
    })
}

// Where a path passes along one direction for a row.
fn pass_for<P: ParamReader>(
    alloc: Global,
    along: &PassChannels,
    row: &Keyed,
    params: &P,
) -> Result<Option<Pass>, EvalError>
    requires { row.now.key.id ≤ greatest_id }
    ensures { Evaluates result (pass_for (pass_values along.now) (P.values params.now) (cell_at row.now)) }
{
    let near = number_shown(alloc, &along.near, row, params)?;
    let middle = number_shown(alloc, &along.middle, row, params)?;
    let far = far_shown(alloc, &along.far, row, params)?;
    Ok(pass_of(near, middle, far))
}

// Where a path passes for a row; None where the row lacks a place.
fn stop_for<P: ParamReader>(
    alloc: Global,
    path: &PathChannels,
    row: &Keyed,
    params: &P,
) -> Result<Option<PathStop>, EvalError>
    requires { row.now.key.id ≤ greatest_id }
    ensures { Evaluates result (stop_for (path_values path.now) (P.values params.now) (cell_at row.now)) }
{
    let across = pass_for(alloc, &path.across, row, params)?;
    let down = pass_for(alloc, &path.down, row, params)?;
    Ok(stop_at(across, down))
}

// The stops of a path, one for each row.
fn stops_for<P: ParamReader>(
    alloc: Global,
    path: &PathChannels,
    rows: &[&Keyed],
    params: &P,
) -> Result<Seq<Option<PathStop>>, EvalError>
    requires { HaveIds rows.now }
    ensures { Evaluates result (stops_for (path_values path.now) (P.values params.now) (data_of rows.now)) }
{
    let mut stops = Seq::with_capacity(alloc, rows.len())?;
    for row in rows {
        match stop_for(alloc, path, row, params) {
            Ok(stop) => stops.push(stop)?,
            Err(error) => return Err(error),
        }
    }
    Ok(stops)
}

// How a path is painted by its first row; None where that lacks a colour.
fn path_look_for<P: ParamReader>(
    alloc: Global,
    pool: &mut TextPool,
    default: u8,
    channels: &LookChannels,
    row: &Keyed,
    params: &P,
) -> Result<Option<Look>, EvalError>
    requires { row.now.key.id ≤ greatest_id }
    ensures { Evaluates result (path_look_for default (look_values channels.now) (P.values params.now) (cell_at row.now)) }
{
    let fill = paint_shown(alloc, pool, &channels.fill, row, params)?;
    let stroke = paint_shown(alloc, pool, &channels.stroke, row, params)?;
    let stroke_width = number_shown(alloc, &channels.stroke_width, row, params)?;
    let opacity = number_shown(alloc, &channels.opacity, row, params)?;
    Ok(path_look(default, fill, stroke, stroke_width, opacity))
}

// The same, with texts that are shared with no others.
fn look_of_first<P: ParamReader>(
    alloc: Global,
    default: u8,
    channels: &LookChannels,
    row: &Keyed,
    params: &P,
) -> Result<Option<Look>, EvalError>
    requires { row.now.key.id ≤ greatest_id }
    ensures { Evaluates result (path_look_for default (look_values channels.now) (P.values params.now) (cell_at row.now)) }
{
    let mut pool = TextPool::empty(alloc);
    path_look_for(alloc, &mut pool, default, channels, row, params)
}

// An item as a list; an empty one of none.
fn listed(alloc: Global, item: Option<Item>) -> Result<Seq<Item>, OutOfMemory>
    ensures { IfOk result (λ items. items ≡ option_to_list item) }
{
    let mut items = Seq::new(alloc);
    if let Some(item) = item {
        items.push(item)?;
    }
    Ok(items)
}

// The items of a path over rows that is painted by the first of them, with lines so wide by default.
fn path_of<P: ParamReader>(
    alloc: Global,
    unit: u32,
    default: u8,
    path: &PathChannels,
    first: &Keyed,
    rows: &[&Keyed],
    params: &P,
) -> Result<Seq<Item>, EvalError>
    requires first { first.now.key.id ≤ greatest_id }
    requires rows { HaveIds rows.now }
    ensures { Evaluates result (path_of unit default (path_values path.now) (P.values params.now) (datum_of first.now)
        (data_of rows.now)) }
{
    let stops = stops_for(alloc, path, rows, params)?;
    let look = look_of_first(alloc, default, &path.looks, first, params)?;
    let points = points_of(alloc, path.closed, stops.as_slice())?;
    let item = path_item(unit, points, look);
    Ok(listed(alloc, item)?)
}

// The items of a path over rows, with lines so wide by default.
fn path_over<P: ParamReader>(
    alloc: Global,
    unit: u32,
    default: u8,
    path: &PathChannels,
    rows: &[&Keyed],
    params: &P,
) -> Result<Seq<Item>, EvalError>
    requires { HaveIds rows.now }
    ensures { Evaluates result (path_over unit default (path_values path.now) (P.values params.now) (data_of rows.now)) }
{
    let [first, ..] = rows else {
        return Ok(Seq::new(alloc));
    };
    path_of(alloc, unit, default, path, first, rows, params)
}

/// The items of a line or an area that is the `unit`-th mark of its chart, over its rows in order: one path, or none. The ids of the rows
/// are at most 10^15. A scale is the first of its name. `Overflow` comes exactly where a place is out of range at one of the rows, or
/// what paints the path at the first.
pub fn path_items<P: ParamReader>(
    alloc: Global,
    type_: MarkType,
    sets: &Option<Encode>,
    unit: u32,
    rows: &[&Keyed],
    scales: &IndexedSet,
    params: &P,
) -> Result<Seq<Item>, EvalError>
    requires { HaveIds rows.now }
    ensures { Evaluates result (path_items_of type_ unit (channel_values scales.now sets.now) (P.values params.now) (data_of rows.now)) }
{
    let path = path_channels(alloc, is_closed(type_), scales, sets)?;
    let items = path_over(
        alloc,
        unit,
        default_stroke_width(type_),
        &path,
        rows,
        params,
    );
    drop(path);
    items
}

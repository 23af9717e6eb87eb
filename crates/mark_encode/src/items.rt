// The items of marks.
ghost use Rattle.std.specs.Prelude.{◌≡◌, ℕ, ◌≤◌, ◌++◌, Some, map, IfOk, OnOk};
ghost use Rattle.std.specs.Option.{option_to_list};
ghost use Rattle.cell_value.specs.Datum.{Datum, datum_of};
ghost use Rattle.cell_value.specs.State.{greatest_id};
ghost use Rattle.expr_eval.specs.Answers.{Evaluates};
ghost use Rattle.expr_eval.specs.Values.{Values};
ghost use Rattle.plain_rows.specs.Rows.{AreRows};
ghost use Rattle.plain_orders.specs.Listed.{AreListed};
ghost use Rattle.scale_kit.specs.Scale.{IsPixel, AreScales};
ghost use Rattle.vega_spec.specs.declared.spec.VgMark.{out-VgMark};
ghost use Rattle.mark_encode.specs.Channels.{channel_values};
ghost use Rattle.mark_encode.specs.Looks.{looks_of};
ghost use Rattle.mark_encode.specs.Items.{shape_for, picked_key, items_with, item_for, items_for, is_path, items_over, items_in_order, items_of};
ghost use Rattle.mark_encode.specs.Orders.{data_of, HaveIds};
ghost use Rattle.mark_encode.specs.Prepared.{item_of_row};
ghost use Rattle.mark_encode.specs.inner.Kinds.{look_values};
ghost use Rattle.mark_encode.specs.inner.Shapes.{shape_by};

use crate::looks::{LookChannels, default_stroke_width, look_for, looks_of, painted_on};
use crate::orders::{all_rows, rows_by_sort};
use crate::paths::path_items;
use crate::scales::IndexedSet;
use crate::several::both;
use crate::shapes::{ShapeChannels, shape_channels, shape_for};
use cell_value::{Key, Keyed, Rows, TextPool};
use expr_eval::{EvalError, ParamReader};
use fixed_num::Num;
use mark_shapes::item_with;
use scale_kit::ScaleSet;
use scene_tree::Item;
use std::alloc::Global;
use text_kit::{OutOfMemory, Seq};
use vega_spec::{Encode, MarkType, Sort, VgMark};

/// The plot in which the items of a mark stand.
#[derive(Clone, Copy)]
pub struct PlotHere<'a, 'i> {
    /// The scales that have names in it. A scale is the first of its name.
    pub scales: &'a IndexedSet<'i>,
    /// Its width, in pixels.
    pub width: Num,
    /// Its height, in pixels.
    pub height: Num,
}

/// The channels of a mark, prepared for its rows: the values in each with the scales that they name.
#[derive(Drop)]
pub struct MarkChannels<'a> {
    type_: MarkType,
    looks: LookChannels<'a>,
    shape: ShapeChannels<'a>,
}

// The values in the channels of a mark of a type, in a plot of this size.
fn channels_of<'a>(
    alloc: Global,
    type_: MarkType,
    set: &'a IndexedSet<'a>,
    sets: &'a Option<Encode>,
    width: Num,
    height: Num,
) -> Result<MarkChannels<'a>, OutOfMemory>
    ensures type_is { IfOk result (λ m. m.type_ ≡ type_) }
    ensures shape { IfOk result (λ m. shape_by m.shape ≡ shape_for type_ width height (channel_values set.now sets.now)) }
    ensures looks { IfOk result (λ m. look_values m.looks ≡ looks_of (channel_values set.now sets.now)) }
{
    let (looks, shape) = both(
        looks_of(alloc, set, sets),
        shape_channels(alloc, type_, set, sets, width, height),
    )?;
    Ok(MarkChannels {
        type_,
        looks,
        shape,
    })
}

/// The channels of a mark of this type with these encode sets, in a plot of this size in pixels, prepared for its rows. A scale is the first of
/// its name.
pub fn mark_channels<'a>(
    alloc: Global,
    type_: MarkType,
    set: &'a IndexedSet<'a>,
    sets: &'a Option<Encode>,
    width: Num,
    height: Num,
) -> Result<MarkChannels<'a>, OutOfMemory>
    ensures { IfOk result (λ mark. (unit : ℕ) (values : Values) (row : Datum) → item_of_row mark unit values row
        ≡ item_for type_ unit width height (channel_values set.now sets.now) values row) }
{
    let mark = channels_of(alloc, type_, set, sets, width, height)?;
    Ok(mark)
}

// The key by which an item of a mark of this type is picked.
fn picked_key(type_: MarkType, key: Key) -> Option<Key>
    ensures { result ≡ picked_key type_ key }
{
    match type_ {
        MarkType::Rect => Some(key),
        MarkType::Symbol => Some(key),
        MarkType::Line => None,
        MarkType::Area => None,
        MarkType::Rule => None,
        MarkType::Text => None,
        MarkType::Group => None,
    }
}

/// The item of a row with an id of at most 10^15, by the prepared channels of its mark, which is the `unit`-th of its chart and no path; None
/// where the row lacks a place, a number or a colour. Its colours are shared with those of the pool. `Overflow` comes exactly where a number
/// is out of range.
pub fn item_of_row<P: ParamReader>(
    alloc: Global,
    pool: &mut TextPool,
    mark: &MarkChannels,
    unit: u32,
    row: &Keyed,
    params: &P,
) -> Result<Option<Item>, EvalError>
    requires { row.now.key.id ≤ greatest_id }
    ensures { Evaluates result (item_of_row mark.now unit (P.values params.now) (datum_of row.now)) }
{
    let shape = shape_for(alloc, &mark.shape, row, params)?;
    let default = default_stroke_width(mark.type_);
    let look = look_for(alloc, pool, default, &mark.looks, row, params)?;
    let key = picked_key(mark.type_, row.key);
    let painted = painted_on(mark.type_, look);
    Ok(item_with(unit, key, shape, painted))
}

// Adds an item at the end, if it is there.
fn add(items: &mut Seq<Item>, item: Option<Item>) -> Result<(), OutOfMemory>
    ensures { OnOk result (items.new ≡ items.old ++ option_to_list item) }
{
    match item {
        Some(item) => items.push(item),
        None => Ok(()),
    }
}

// The items of rows, by the values in the channels of their mark.
fn row_items<P: ParamReader>(
    alloc: Global,
    mark: &MarkChannels,
    unit: u32,
    rows: &[&Keyed],
    params: &P,
) -> Result<Seq<Item>, EvalError>
    requires { HaveIds rows.now }
    ensures { Evaluates result (items_with (item_of_row mark.now unit (P.values params.now)) (data_of rows.now)) }
{
    let mut items = Seq::with_capacity(alloc, rows.len())?;
    let mut pool = TextPool::new(alloc)?;
    for row in rows {
        match item_of_row(alloc, &mut pool, mark, unit, row, params) {
            Ok(item) => add(&mut items, item)?,
            Err(error) => return Err(error),
        }
    }
    Ok(items)
}

// The items of a mark of a type for each row by itself.
fn items_for<P: ParamReader>(
    alloc: Global,
    type_: MarkType,
    sets: &Option<Encode>,
    unit: u32,
    rows: &[&Keyed],
    plot: &PlotHere,
    params: &P,
) -> Result<Seq<Item>, EvalError>
    requires { HaveIds rows.now }
    ensures { Evaluates result (items_for type_ unit plot.now.width plot.now.height (channel_values plot.now.scales.now sets.now)
        (P.values params.now) (data_of rows.now)) }
{
    let mark = mark_channels(alloc, type_, plot.scales, sets, plot.width, plot.height)?;
    let items = row_items(alloc, &mark, unit, rows, params);
    drop(mark);
    items
}

// Whether a mark of this type is one path over its rows.
fn is_path(type_: MarkType) -> bool
    ensures { result ≡ is_path type_ }
{
    match type_ {
        MarkType::Rect => false,
        MarkType::Symbol => false,
        MarkType::Line => true,
        MarkType::Area => true,
        MarkType::Rule => false,
        MarkType::Text => false,
        MarkType::Group => false,
    }
}

// The items of a mark of a type over its rows in order.
fn items_over<P: ParamReader>(
    alloc: Global,
    type_: MarkType,
    sets: &Option<Encode>,
    unit: u32,
    rows: &[&Keyed],
    plot: &PlotHere,
    params: &P,
) -> Result<Seq<Item>, EvalError>
    requires { HaveIds rows.now }
    ensures { Evaluates result (items_over type_ unit plot.now.width plot.now.height (channel_values plot.now.scales.now sets.now)
        (P.values params.now) (data_of rows.now)) }
{
    if is_path(type_) {
        path_items(alloc, type_, sets, unit, rows, plot.scales, params)
    } else {
        items_for(alloc, type_, sets, unit, rows, plot, params)
    }
}

// The items of a mark over rows by this sort.
fn items_by_sort<P: ParamReader>(
    alloc: Global,
    mark: &VgMark,
    sort: &Sort,
    unit: u32,
    rows: &[&Keyed],
    plot: &PlotHere,
    params: &P,
) -> Result<Seq<Item>, EvalError>
    requires { AreListed (data_of rows.now) }
    ensures { Evaluates result (items_in_order (out-VgMark mark.now).type_ (out-VgMark mark.now).encode (Some sort.now) unit
        plot.now.scales.now plot.now.width plot.now.height (P.values params.now) (data_of rows.now)) }
{
    let sorted = rows_by_sort(alloc, rows, sort)?;
    items_over(
        alloc,
        mark.type_,
        &mark.encode,
        unit,
        sorted.as_slice(),
        plot,
        params,
    )
}

/// The items of a mark that is the `unit`-th of its chart, over references to rows whose keys rise, with ids of at most 10^15, and of which
/// there are at most 1,600,000. They are in the order of the mark's sort, or else of the rows: an item for each row that has its places,
/// numbers and colours, of lines and areas one path. `Overflow` comes exactly where a number is out of range at one of the rows.
pub fn items_over_rows<P: ParamReader>(
    alloc: Global,
    mark: &VgMark,
    unit: u32,
    rows: &[&Keyed],
    plot: &PlotHere,
    params: &P,
) -> Result<Seq<Item>, EvalError>
    requires { AreListed (data_of rows.now) }
    ensures { Evaluates result (items_in_order (out-VgMark mark.now).type_ (out-VgMark mark.now).encode (out-VgMark mark.now).sort unit
        plot.now.scales.now plot.now.width plot.now.height (P.values params.now) (data_of rows.now)) }
{
    match &mark.sort {
        Some(sort) => items_by_sort(alloc, mark, sort, unit, rows, plot, params),
        None => items_over(alloc, mark.type_, &mark.encode, unit, rows, plot, params),
    }
}

/// The items of a mark that is the `unit`-th of its chart, as `items_over_rows` gives them, over rows whose keys rise, with ids of at most
/// 10^15, and of which there are at most 1,600,000. The plot's width and height are from 0 to 10^11.
pub fn items_on<P: ParamReader>(
    alloc: Global,
    mark: &VgMark,
    unit: u32,
    rows: &Rows,
    plot: &PlotHere,
    params: &P,
) -> Result<Seq<Item>, EvalError>
    requires rows { AreRows rows.now }
    requires width { IsPixel plot.now.width }
    requires height { IsPixel plot.now.height }
    ensures { Evaluates result (items_of mark.now unit plot.now.scales.now plot.now.width plot.now.height (P.values params.now)
        (map datum_of rows.now)) }
{
    let rows = all_rows(alloc, rows.as_slice())?;
    items_over_rows(alloc, mark, unit, rows.as_slice(), plot, params)
}

/// The items of a mark, as `items_on` gives them, in a plot of this size whose scales are indexed for this mark alone.
pub fn items_of<P: ParamReader>(
    alloc: Global,
    mark: &VgMark,
    unit: u32,
    rows: &Rows,
    scales: &ScaleSet,
    width: Num,
    height: Num,
    params: &P,
) -> Result<Seq<Item>, EvalError>
    requires rows { AreRows rows.now }
    requires scales { AreScales scales.now }
    requires width { IsPixel width }
    requires height { IsPixel height }
    ensures { Evaluates result (items_of mark.now unit scales.now width height (P.values params.now) (map datum_of rows.now)) }
{
    let scales = IndexedSet::of(alloc, scales)?;
    let plot = PlotHere {
        scales: &scales,
        width,
        height,
    };
    items_on(alloc, mark, unit, rows, &plot, params)
}

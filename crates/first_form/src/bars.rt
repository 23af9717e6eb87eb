//! The Vega specification of a chart of the first form.
ghost use Rattle.std.specs.Prelude.{◌≡◌, ◌∷◌, [], pos, map, IfOk, Some};
ghost use Rattle.vega_spec.specs.declared.encode.Channel.TheVariants.{One};
ghost use Rattle.first_form.specs.Opening.{value_object, data_set_of, space_expr, width_expr, x_scale_of, y_scale_of};
ghost use Rattle.first_form.specs.Opening.{no_value, on_scale, one_band, base_value, color_value, channels_with, channels_of};
ghost use Rattle.first_form.specs.Opening.{no_group, bars_mark, bars_group, bars_of};

use crate::form::{FirstForm, Value};
use cell_value::Cell;
use expr_syntax::{BinOp, Expr};
use fixed_num::Num;
use json_exact::{Json, Member};
use std::alloc::Global;
use text_kit::{Boxed, OutOfMemory, Seq, Text};
use vega_spec::{
    Channel, ChannelValue, Channels, DataSet, Domain, DomainOrder, Encode, FieldDomain, Group,
    MarkFrom, MarkType, Range, Scale, Size, VgMark, VgSpec,
};

/// The address of the format.
const SCHEMA: &str = "https://vega.github.io/schema/vega/v5.json";

// So many millionths.
fn millionths(n: u32) -> Num
    ensures { result ≡ pos n }
{
    match Num::of_millionths(i128::from(n)) {
        Some(number) => number,
        None => unreachable!(),
    }
}

// A value as it is written.
fn value_object(alloc: Global, x: &Text, y: &Text, value: &Value) -> Result<Json, OutOfMemory>
    ensures { IfOk result (λ tree. tree ≡ value_object x.now y.now value.now) }
{
    let mut members = Seq::new(alloc);
    members.push(Member {
        name: x.copy()?,
        value: Json::Text(value.category.copy()?),
    })?;
    members.push(Member {
        name: y.copy()?,
        value: Json::Number(value.amount),
    })?;
    Ok(Json::Object(members))
}

// The values as they are written.
fn objects_of(alloc: Global, x: &Text, y: &Text, values: &[Value]) -> Result<Seq<Json>, OutOfMemory>
    ensures { IfOk result (λ objects. objects ≡ map (value_object x.now y.now) values.now) }
{
    let mut objects = Seq::with_capacity(alloc, values.len())?;
    for value in values {
        objects.push(value_object(alloc, x, y, value)?)?;
    }
    Ok(objects)
}

// The data set: the values under their name.
fn data_set_of(alloc: Global, form: &FirstForm) -> Result<DataSet, OutOfMemory>
    ensures { IfOk result (λ set. set ≡ data_set_of form.now) }
{
    let objects = objects_of(alloc, &form.x, &form.y, form.values.as_slice())?;
    Ok(DataSet {
        name: form.name.copy()?,
        values: Some(Json::List(objects)),
        url: None,
        format: None,
        source: None,
        transform: None,
    })
}

// The code of `bandspace` among the builtins.
const BANDSPACE: u16 = 18;

// The space of the bands, in steps.
fn space_expr(alloc: Global) -> Result<Expr, OutOfMemory>
    ensures { IfOk result (λ e. e ≡ space_expr) }
{
    let mut arguments = Seq::new(alloc);
    arguments.push(Expr::DomainLength(Text::of(alloc, "x")?))?;
    arguments.push(Expr::Number(millionths(100_000)))?;
    arguments.push(Expr::Number(millionths(50_000)))?;
    Ok(Expr::Call(BANDSPACE, arguments))
}

// A step of 20 pixels for each unit of that space.
fn width_expr(alloc: Global) -> Result<Expr, OutOfMemory>
    ensures { IfOk result (λ e. e ≡ width_expr) }
{
    let step = Boxed::new(alloc, Expr::Number(millionths(20_000_000)))?;
    let space = Boxed::new(alloc, space_expr(alloc)?)?;
    Ok(Expr::Binary(BinOp::Mul, step, space))
}

// A band for each category.
fn x_scale_of(alloc: Global, form: &FirstForm) -> Result<Scale, OutOfMemory>
    ensures { IfOk result (λ scale. scale ≡ x_scale_of form.now) }
{
    Ok(Scale {
        name: Text::of(alloc, "x")?,
        type_: 2,
        domain: Domain::Field(FieldDomain {
            data_: form.name.copy()?,
            field: form.x.copy()?,
            sort: Some(DomainOrder::True),
        }),
        domain_raw: None,
        range: Range::Width,
        zero: None,
        nice: None,
        reverse: None,
        padding: None,
        padding_inner: Some(millionths(100_000)),
        padding_outer: Some(millionths(50_000)),
    })
}

// The nice domain of the amounts with zero.
fn y_scale_of(alloc: Global, form: &FirstForm) -> Result<Scale, OutOfMemory>
    ensures { IfOk result (λ scale. scale ≡ y_scale_of form.now) }
{
    Ok(Scale {
        name: Text::of(alloc, "y")?,
        type_: 0,
        domain: Domain::Field(FieldDomain {
            data_: form.name.copy()?,
            field: form.y.copy()?,
            sort: None,
        }),
        domain_raw: None,
        range: Range::Height,
        zero: Some(true),
        nice: Some(true),
        reverse: None,
        padding: None,
        padding_inner: None,
        padding_outer: None,
    })
}

// A value of a channel, by its cell, its field, its scale and its band.
fn channel(
    value: Option<Cell>,
    field: Option<Text>,
    scale: Option<Text>,
    band: Option<Num>,
) -> Option<Channel>
    ensures { result ≡ Some (One (record no_value { value = value; field = field; scale = scale; band = band })) }
{
    Some(Channel::One(ChannelValue {
        value,
        field,
        scale,
        band,
        offset: None,
        signal: None,
        test: None,
        format: None,
    }))
}

// The place of a field on a scale.
fn on_scale(alloc: Global, scale: &str, field: &Text) -> Result<Option<Channel>, OutOfMemory>
    ensures { IfOk result (λ shown. shown ≡ Some (One (on_scale scale.now field.now))) }
{
    let scale = Text::of(alloc, scale)?;
    Ok(channel(None, Some(field.copy()?), Some(scale), None))
}

// The width of a band.
fn one_band(alloc: Global) -> Result<Option<Channel>, OutOfMemory>
    ensures { IfOk result (λ shown. shown ≡ Some (One one_band)) }
{
    let scale = Text::of(alloc, "x")?;
    Ok(channel(None, None, Some(scale), Some(millionths(1_000_000))))
}

// The base of the bars.
fn base_value(alloc: Global) -> Result<Option<Channel>, OutOfMemory>
    ensures { IfOk result (λ shown. shown ≡ Some (One base_value)) }
{
    let scale = Text::of(alloc, "y")?;
    Ok(channel(Some(Cell::Null), None, Some(scale), None))
}

// The colour of the bars.
fn color_value(alloc: Global) -> Result<Option<Channel>, OutOfMemory>
    ensures { IfOk result (λ shown. shown ≡ Some (One color_value)) }
{
    let color = Text::of(alloc, "#4c78a8")?;
    Ok(channel(Some(Cell::Text(color)), None, None, None))
}

// The channels of a mark that encodes these alone.
fn channels_with(
    x: Option<Channel>,
    width: Option<Channel>,
    y: Option<Channel>,
    y2: Option<Channel>,
    fill: Option<Channel>,
) -> Channels
    ensures { result ≡ channels_with x width y y2 fill }
{
    Channels {
        x,
        x2: None,
        xc: None,
        width,
        y,
        y2,
        yc: None,
        height: None,
        fill,
        stroke: None,
        stroke_width: None,
        opacity: None,
        size: None,
        shape: None,
        text: None,
        align: None,
        baseline: None,
        dx: None,
        dy: None,
        font_size: None,
    }
}

// What the bars show.
fn channels_of(alloc: Global, form: &FirstForm) -> Result<Channels, OutOfMemory>
    ensures { IfOk result (λ channels. channels ≡ channels_of form.now) }
{
    let x = on_scale(alloc, "x", &form.x)?;
    let width = one_band(alloc)?;
    let y = on_scale(alloc, "y", &form.y)?;
    let y2 = base_value(alloc)?;
    let fill = color_value(alloc)?;
    Ok(channels_with(x, width, y, y2, fill))
}

// What a mark that is no group has of one.
fn no_group() -> Group
    ensures { result ≡ no_group }
{
    Group {
        data_: None,
        signals: None,
        scales: None,
        layout: None,
        marks: None,
        axes: None,
        legends: None,
        title: None,
    }
}

// The bars, of the values.
fn bars_mark(alloc: Global, form: &FirstForm) -> Result<VgMark, OutOfMemory>
    ensures { IfOk result (λ mark. mark ≡ bars_mark form.now) }
{
    let channels = channels_of(alloc, form)?;
    let source = form.name.copy()?;
    Ok(VgMark {
        type_: MarkType::Rect,
        name: None,
        from: Some(MarkFrom::Data(source)),
        encode: Some(Encode {
            enter: None,
            update: Some(channels),
        }),
        sort: None,
        group: no_group(),
    })
}

// One thing as a list.
fn only<T: Drop>(alloc: Global, item: T) -> Result<Seq<T>, OutOfMemory>
    ensures { IfOk result (λ items. items ≡ item ∷ []) }
{
    let mut items = Seq::new(alloc);
    items.push(item)?;
    Ok(items)
}

// The two scales.
fn scales_of(alloc: Global, form: &FirstForm) -> Result<Seq<Scale>, OutOfMemory>
    ensures { IfOk result (λ scales. scales ≡ x_scale_of form.now ∷ y_scale_of form.now ∷ []) }
{
    let mut scales = Seq::new(alloc);
    scales.push(x_scale_of(alloc, form)?)?;
    scales.push(y_scale_of(alloc, form)?)?;
    Ok(scales)
}

// The values, their scales and their bars.
fn bars_group(alloc: Global, form: &FirstForm) -> Result<Group, OutOfMemory>
    ensures { IfOk result (λ group. group ≡ bars_group form.now) }
{
    let sets = only(alloc, data_set_of(alloc, form)?)?;
    let scales = scales_of(alloc, form)?;
    let marks = only(alloc, bars_mark(alloc, form)?)?;
    Ok(Group {
        data_: Some(sets),
        signals: None,
        scales: Some(scales),
        layout: None,
        marks: Some(marks),
        axes: None,
        legends: None,
        title: None,
    })
}

/// The Vega specification of the form: its values, and bars of them, placed by its first field and as high as its second says. The one
/// error is that memory is refused.
pub fn bars_of(alloc: Global, form: &FirstForm) -> Result<VgSpec, OutOfMemory>
    ensures { IfOk result (λ spec. spec ≡ bars_of form.now) }
{
    let width = width_expr(alloc)?;
    let schema = Text::of(alloc, SCHEMA)?;
    Ok(VgSpec {
        group: bars_group(alloc, form)?,
        schema: Some(schema),
        description: None,
        width: Some(Size::Signal(width)),
        height: Some(Size::Number(millionths(200_000_000))),
        padding: Some(millionths(5_000_000)),
        autosize: None,
    })
}

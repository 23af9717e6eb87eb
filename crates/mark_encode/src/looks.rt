// How items are painted.
ghost use Rattle.std.specs.Prelude.{◌≡◌, ◌≤◌, IfOk};
ghost use Rattle.cell_value.specs.Datum.{cell_at};
ghost use Rattle.cell_value.specs.State.{greatest_id};
ghost use Rattle.expr_eval.specs.Answers.{Evaluates};
ghost use Rattle.mark_encode.specs.Channels.{channel_values};
ghost use Rattle.mark_encode.specs.Looks.{default_stroke_width, look_for, looks_of, painted_on};
ghost use Rattle.mark_encode.specs.inner.Kinds.{look_values};

use crate::channels::ChannelName;
use crate::colors::paint_shown;
use crate::numbers::number_shown;
use crate::prepared::{Colors, Numbers, colors_of, numbers_of};
use crate::scales::IndexedSet;
use crate::several::all_four;
use cell_value::{Keyed, TextPool};
use expr_eval::{EvalError, ParamReader};
use mark_shapes::{Look, look_of, without_stroke};
use std::alloc::Global;
use text_kit::OutOfMemory;
use vega_spec::{Encode, MarkType};

/// The values in the channels that say how items are painted.
#[derive(Drop)]
pub struct LookChannels<'a> {
    pub fill: Colors<'a>,
    pub stroke: Colors<'a>,
    pub stroke_width: Numbers<'a>,
    pub opacity: Numbers<'a>,
}

/// The values in the channels that say how items are painted.
pub fn looks_of<'a>(
    alloc: Global,
    set: &'a IndexedSet<'a>,
    sets: &'a Option<Encode>,
) -> Result<LookChannels<'a>, OutOfMemory>
    ensures { IfOk result (λ looks. look_values looks ≡ looks_of (channel_values set.now sets.now)) }
{
    let (fill, stroke, stroke_width, opacity) = all_four(
        colors_of(alloc, set, sets, ChannelName::Fill),
        colors_of(alloc, set, sets, ChannelName::Stroke),
        numbers_of(alloc, set, sets, ChannelName::StrokeWidth),
        numbers_of(alloc, set, sets, ChannelName::Opacity),
    )?;
    Ok(LookChannels {
        fill,
        stroke,
        stroke_width,
        opacity,
    })
}

/// The width of a mark's line where none is encoded, in pixels.
pub fn default_stroke_width(type_: MarkType) -> u8
    ensures { result ≡ default_stroke_width type_ }
{
    match type_ {
        MarkType::Rect => 1,
        MarkType::Symbol => 2,
        MarkType::Line => 2,
        MarkType::Area => 1,
        MarkType::Rule => 1,
        MarkType::Text => 1,
        MarkType::Group => 1,
    }
}

/// How the item of a row is painted; None where it lacks a colour or a number. Its colours are shared with those of the pool.
pub fn look_for<P: ParamReader>(
    alloc: Global,
    pool: &mut TextPool,
    default: u8,
    channels: &LookChannels,
    row: &Keyed,
    params: &P,
) -> Result<Option<Look>, EvalError>
    requires { row.now.key.id ≤ greatest_id }
    ensures { Evaluates result (look_for default (cell_at row.now) (P.values params.now) (look_values channels.now)) }
{
    let fill = paint_shown(alloc, pool, &channels.fill, row, params)?;
    let stroke = paint_shown(alloc, pool, &channels.stroke, row, params)?;
    let stroke_width = number_shown(alloc, &channels.stroke_width, row, params)?;
    let opacity = number_shown(alloc, &channels.opacity, row, params)?;
    Ok(look_of(default, fill, stroke, stroke_width, opacity))
}

/// How an item of a mark of this type is painted by its look.
pub fn painted_on(type_: MarkType, look: Option<Look>) -> Option<Look>
    ensures { result ≡ painted_on type_ look }
{
    match type_ {
        MarkType::Rect => look,
        MarkType::Symbol => look,
        MarkType::Line => look,
        MarkType::Area => look,
        MarkType::Rule => look,
        MarkType::Text => Some(without_stroke(look?)),
        MarkType::Group => look,
    }
}

// Rects.
ghost use Rattle.std.specs.Prelude.{◌≡◌, ◌≤◌, IfOk};
ghost use Rattle.cell_value.specs.Datum.{cell_at};
ghost use Rattle.cell_value.specs.State.{greatest_id};
ghost use Rattle.expr_eval.specs.Answers.{Evaluates};
ghost use Rattle.mark_encode.specs.Channels.{channel_values};
ghost use Rattle.mark_encode.specs.Rects.{along_named, across_of, down_of, rect_for};
ghost use Rattle.mark_encode.specs.inner.Kinds.{along_values};

use crate::channels::ChannelName;
use crate::prepared::{far_numbers_of, numbers_of};
use crate::scales::IndexedSet;
use crate::several::{all_four, both};
use crate::spans::{Along, span_for};
use cell_value::Keyed;
use expr_eval::{EvalError, ParamReader};
use mark_shapes::rect_over;
use scene_tree::Shape;
use std::alloc::Global;
use text_kit::OutOfMemory;
use vega_spec::Encode;

/// The values in the channels of a rect.
#[derive(Drop)]
pub struct RectChannels<'a> {
    pub across: Along<'a>,
    pub down: Along<'a>,
}

// The values in the channels of these names, as those of one direction.
fn along_named<'a>(
    alloc: Global,
    set: &'a IndexedSet<'a>,
    sets: &'a Option<Encode>,
    near: ChannelName,
    far: ChannelName,
    middle: ChannelName,
    size: ChannelName,
) -> Result<Along<'a>, OutOfMemory>
    ensures { IfOk result (λ along. along_values along ≡ along_named (channel_values set.now sets.now) near far middle size) }
{
    let (near, far, middle, size) = all_four(
        numbers_of(alloc, set, sets, near),
        far_numbers_of(alloc, set, sets, far),
        numbers_of(alloc, set, sets, middle),
        numbers_of(alloc, set, sets, size),
    )?;
    Ok(Along {
        near,
        far,
        middle,
        size,
    })
}

/// The values in the channels of a rect.
pub fn rect_channels<'a>(
    alloc: Global,
    set: &'a IndexedSet<'a>,
    sets: &'a Option<Encode>,
) -> Result<RectChannels<'a>, OutOfMemory>
    ensures across { IfOk result (λ rect. along_values rect.across ≡ across_of (channel_values set.now sets.now)) }
    ensures down { IfOk result (λ rect. along_values rect.down ≡ down_of (channel_values set.now sets.now)) }
{
    use ChannelName::{Height, Width, X, X2, Xc, Y, Y2, Yc};
    let (across, down) = both(
        along_named(alloc, set, sets, X, X2, Xc, Width),
        along_named(alloc, set, sets, Y, Y2, Yc, Height),
    )?;
    Ok(RectChannels { across, down })
}

/// The rect of a row; None where it lacks a place.
pub fn rect_for<P: ParamReader>(
    alloc: Global,
    rect: &RectChannels,
    row: &Keyed,
    params: &P,
) -> Result<Option<Shape>, EvalError>
    requires { row.now.key.id ≤ greatest_id }
    ensures { Evaluates result (rect_for (along_values rect.now.across) (along_values rect.now.down) (cell_at row.now)
        (P.values params.now)) }
{
    let across = span_for(alloc, &rect.across, row, params)?;
    let down = span_for(alloc, &rect.down, row, params)?;
    Ok(rect_over(across, down))
}

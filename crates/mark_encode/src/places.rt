// Where marks that have one place stand along x or y.
ghost use Rattle.std.specs.Prelude.{◌≡◌, ◌≤◌, IfOk};
ghost use Rattle.cell_value.specs.Datum.{cell_at};
ghost use Rattle.cell_value.specs.State.{greatest_id};
ghost use Rattle.expr_eval.specs.Answers.{Evaluates};
ghost use Rattle.mark_encode.specs.Channels.{channel_values};
ghost use Rattle.mark_encode.specs.Places.{places_named, place_for};
ghost use Rattle.mark_encode.specs.inner.Kinds.{place_values};

use crate::channels::ChannelName;
use crate::numbers::number_shown;
use crate::prepared::{Numbers, numbers_of};
use crate::scales::IndexedSet;
use crate::several::both;
use cell_value::Keyed;
use expr_eval::{EvalError, ParamReader};
use fixed_num::Num;
use mark_shapes::place_of;
use std::alloc::Global;
use text_kit::OutOfMemory;
use vega_spec::Encode;

/// The values in the channels of one direction of a mark that has one place.
#[derive(Drop)]
pub struct PlaceChannels<'a> {
    pub near: Numbers<'a>,
    pub middle: Numbers<'a>,
}

/// The values in the channels of these names.
pub fn places_named<'a>(
    alloc: Global,
    set: &'a IndexedSet<'a>,
    sets: &'a Option<Encode>,
    near: ChannelName,
    middle: ChannelName,
) -> Result<PlaceChannels<'a>, OutOfMemory>
    ensures { IfOk result (λ place. place_values place ≡ places_named (channel_values set.now sets.now) near middle) }
{
    let (near, middle) = both(
        numbers_of(alloc, set, sets, near),
        numbers_of(alloc, set, sets, middle),
    )?;
    Ok(PlaceChannels { near, middle })
}

/// Where a mark stands along one direction for a row; None where it lacks a place.
pub fn place_for<P: ParamReader>(
    alloc: Global,
    place: &PlaceChannels,
    row: &Keyed,
    params: &P,
) -> Result<Option<Num>, EvalError>
    requires { row.now.key.id ≤ greatest_id }
    ensures { Evaluates result (place_for (cell_at row.now) (P.values params.now) (place_values place.now)) }
{
    let near = number_shown(alloc, &place.near, row, params)?;
    let middle = number_shown(alloc, &place.middle, row, params)?;
    Ok(place_of(near, middle))
}

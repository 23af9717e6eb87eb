// Symbols.
ghost use Rattle.std.specs.Prelude.{◌≡◌, ◌≤◌, false, IfOk};
ghost use Rattle.std.specs.Option.{option_map};
ghost use Rattle.cell_value.specs.Datum.{cell_at};
ghost use Rattle.cell_value.specs.State.{greatest_id};
ghost use Rattle.expr_eval.specs.Answers.{Evaluates};
ghost use Rattle.mark_shapes.specs.Symbols.{symbol_of};
ghost use Rattle.mark_encode.specs.Channels.{channel_values};
ghost use Rattle.mark_encode.specs.Values.{number_shown, color_shown};
ghost use Rattle.mark_encode.specs.Places.{place_for};
ghost use Rattle.mark_encode.specs.Symbols.{symbol_values_of, symbol_for};
ghost use Rattle.mark_encode.specs.inner.Scaled.{scaled_all};
ghost use Rattle.mark_encode.specs.inner.Fixed.{sized_by, symbol_when};
ghost use Rattle.mark_encode.specs.inner.Kinds.{place_values, symbol_values};

use crate::channels::ChannelName;
use crate::colors::form_for;
use crate::numbers::size_for;
use crate::places::{PlaceChannels, places_named};
use crate::prepared::{Forms, Sizes, forms_of, sizes_of};
use crate::scales::IndexedSet;
use crate::several::all_four;
use crate::sizes::symbol_sized;
use cell_value::Keyed;
use expr_eval::{EvalError, ParamReader};
use scene_tree::Shape;
use std::alloc::Global;
use text_kit::OutOfMemory;
use vega_spec::Encode;

/// The values in the channels of a symbol.
#[derive(Drop)]
pub struct SymbolChannels<'a> {
    pub across: PlaceChannels<'a>,
    pub down: PlaceChannels<'a>,
    pub size: Sizes<'a>,
    pub shape: Forms<'a>,
}

/// The values in the channels of a symbol.
pub fn symbol_channels<'a>(
    alloc: Global,
    set: &'a IndexedSet<'a>,
    sets: &'a Option<Encode>,
) -> Result<SymbolChannels<'a>, OutOfMemory>
    ensures { IfOk result (λ symbol. symbol_values symbol ≡ symbol_values_of (channel_values set.now sets.now)) }
{
    let (across, down, size, shape) = all_four(
        places_named(alloc, set, sets, ChannelName::X, ChannelName::Xc),
        places_named(alloc, set, sets, ChannelName::Y, ChannelName::Yc),
        sizes_of(alloc, set, sets, ChannelName::Size),
        forms_of(alloc, set, sets, ChannelName::Shape),
    )?;
    Ok(SymbolChannels {
        across,
        down,
        size,
        shape,
    })
}

// The symbol of a row, by its place, its size and its form.
fn symbol_when<P: ParamReader>(
    alloc: Global,
    symbol: &SymbolChannels,
    row: &Keyed,
    params: &P,
) -> Result<Option<Shape>, EvalError>
    requires { row.now.key.id ≤ greatest_id }
    ensures { Evaluates result (symbol_when
        (place_for (cell_at row.now) (P.values params.now) (place_values symbol.now.across))
        (place_for (cell_at row.now) (P.values params.now) (place_values symbol.now.down))
        (sized_by (number_shown false (cell_at row.now) (P.values params.now) (scaled_all symbol.now.size.values)))
        (option_map symbol_of (color_shown (cell_at row.now) (P.values params.now) (scaled_all symbol.now.shape.values)))) }
{
    let x = crate::places::place_for(alloc, &symbol.across, row, params)?;
    let y = crate::places::place_for(alloc, &symbol.down, row, params)?;
    let size = size_for(alloc, &symbol.size, row, params)?;
    let form = form_for(alloc, &symbol.shape, row, params)?;
    symbol_sized(alloc, form, size, x, y)
}

/// The symbol of a row; None where it lacks a place or a size, or its size is negative.
pub fn symbol_for<P: ParamReader>(
    alloc: Global,
    symbol: &SymbolChannels,
    row: &Keyed,
    params: &P,
) -> Result<Option<Shape>, EvalError>
    requires { row.now.key.id ≤ greatest_id }
    ensures { Evaluates result (symbol_for (symbol_values symbol.now) (cell_at row.now) (P.values params.now)) }
{
    symbol_when(alloc, symbol, row, params)
}

// The shapes of rows.
ghost use Rattle.std.specs.Prelude.{◌≡◌, ◌≤◌, IfOk};
ghost use Rattle.cell_value.specs.Datum.{cell_at};
ghost use Rattle.cell_value.specs.State.{greatest_id};
ghost use Rattle.expr_eval.specs.Answers.{Evaluates};
ghost use Rattle.mark_encode.specs.Channels.{channel_values};
ghost use Rattle.mark_encode.specs.Items.{rect_shape, symbol_shape, rule_shape, text_shape, shape_for};
ghost use Rattle.mark_encode.specs.inner.Shapes.{shape_by};

use crate::rects::{RectChannels, rect_channels, rect_for};
use crate::rules::{RuleChannels, rule_channels, rule_for};
use crate::scales::IndexedSet;
use crate::symbols::{SymbolChannels, symbol_channels, symbol_for};
use crate::texts::{TextChannels, text_channels, text_for};
use cell_value::Keyed;
use expr_eval::{EvalError, ParamReader};
use fixed_num::Num;
use scene_tree::Shape;
use std::alloc::Global;
use text_kit::OutOfMemory;
use vega_spec::{Encode, MarkType};

/// The values in the channels by which a mark shapes its rows.
#[derive(Drop)]
pub enum ShapeChannels<'a> {
    /// Of a rect.
    Rect(RectChannels<'a>),
    /// Of a symbol.
    Symbol(SymbolChannels<'a>),
    /// Of a rule.
    Rule(RuleChannels<'a>),
    /// Of a text.
    Text(TextChannels<'a>),
    /// Of a mark whose rows have no shapes by themselves.
    Nothing,
}

// The values in the channels of a rect.
fn of_rect<'a>(
    alloc: Global,
    set: &'a IndexedSet<'a>,
    sets: &'a Option<Encode>,
) -> Result<ShapeChannels<'a>, OutOfMemory>
    ensures { IfOk result (λ shape. shape_by shape ≡ rect_shape (channel_values set.now sets.now)) }
{
    let rect = rect_channels(alloc, set, sets)?;
    Ok(ShapeChannels::Rect(rect))
}

// The values in the channels of a symbol.
fn of_symbol<'a>(
    alloc: Global,
    set: &'a IndexedSet<'a>,
    sets: &'a Option<Encode>,
) -> Result<ShapeChannels<'a>, OutOfMemory>
    ensures { IfOk result (λ shape. shape_by shape ≡ symbol_shape (channel_values set.now sets.now)) }
{
    let symbol = symbol_channels(alloc, set, sets)?;
    Ok(ShapeChannels::Symbol(symbol))
}

// The values in the channels of a rule, in a plot of this size.
fn of_rule<'a>(
    alloc: Global,
    set: &'a IndexedSet<'a>,
    sets: &'a Option<Encode>,
    width: Num,
    height: Num,
) -> Result<ShapeChannels<'a>, OutOfMemory>
    ensures { IfOk result (λ shape. shape_by shape ≡ rule_shape width height (channel_values set.now sets.now)) }
{
    let rule = rule_channels(alloc, set, sets, width, height)?;
    Ok(ShapeChannels::Rule(rule))
}

// The values in the channels of a text.
fn of_text<'a>(
    alloc: Global,
    set: &'a IndexedSet<'a>,
    sets: &'a Option<Encode>,
) -> Result<ShapeChannels<'a>, OutOfMemory>
    ensures { IfOk result (λ shape. shape_by shape ≡ text_shape (channel_values set.now sets.now)) }
{
    let text = text_channels(alloc, set, sets)?;
    Ok(ShapeChannels::Text(text))
}

/// The values in the channels by which a mark of a type shapes its rows, in a plot of this size.
pub fn shape_channels<'a>(
    alloc: Global,
    type_: MarkType,
    set: &'a IndexedSet<'a>,
    sets: &'a Option<Encode>,
    width: Num,
    height: Num,
) -> Result<ShapeChannels<'a>, OutOfMemory>
    ensures { IfOk result (λ shape. shape_by shape ≡ shape_for type_ width height (channel_values set.now sets.now)) }
{
    match type_ {
        MarkType::Rect => of_rect(alloc, set, sets),
        MarkType::Symbol => of_symbol(alloc, set, sets),
        MarkType::Rule => of_rule(alloc, set, sets, width, height),
        MarkType::Text => of_text(alloc, set, sets),
        MarkType::Line => Ok(ShapeChannels::Nothing),
        MarkType::Area => Ok(ShapeChannels::Nothing),
        MarkType::Group => Ok(ShapeChannels::Nothing),
    }
}

/// The shape of a row; None where it lacks what its mark needs.
pub fn shape_for<P: ParamReader>(
    alloc: Global,
    shape: &ShapeChannels,
    row: &Keyed,
    params: &P,
) -> Result<Option<Shape>, EvalError>
    requires { row.now.key.id ≤ greatest_id }
    ensures { Evaluates result (shape_by shape.now (cell_at row.now) (P.values params.now)) }
{
    match shape {
        ShapeChannels::Rect(rect) => rect_for(alloc, rect, row, params),
        ShapeChannels::Symbol(symbol) => symbol_for(alloc, symbol, row, params),
        ShapeChannels::Rule(rule) => rule_for(alloc, rule, row, params),
        ShapeChannels::Text(text) => text_for(alloc, text, row, params),
        ShapeChannels::Nothing => Ok(None),
    }
}

// The colours that channels show.
ghost use Rattle.std.specs.Prelude.{◌≡◌, option_copied, ◌≤◌, IfOk};
ghost use Rattle.std.specs.Option.{option_map};
ghost use Rattle.cell_value.specs.Datum.{cell_at};
ghost use Rattle.cell_value.specs.State.{greatest_id};
ghost use Rattle.expr_eval.specs.Answers.{Evaluates};
ghost use Rattle.mark_shapes.specs.Symbols.{symbol_of};
ghost use Rattle.mark_encode.specs.Values.{color_on, text_of_cell, color_at, color_for, color_shown};
ghost use Rattle.mark_encode.specs.inner.Scaled.{scaled_of, scaled_all};

use crate::channels::Scaled;
use crate::prepared::{Colors, Forms};
use crate::values::{cell_for, first_met};
use cell_value::{Cell, Keyed, SharedText, TextPool};
use expr_eval::{EvalError, ParamReader};
use fixed_num::Num;
use mark_shapes::{Shown, Symbol, shown_color, shown_shared};
use scale_kit::Indexed;
use std::alloc::Global;
use text_kit::{OutOfMemory, Text};

/// The colour on a scale; so much of a band is none.
pub fn color_on(
    alloc: Global,
    s: &Indexed,
    cell: &Option<Cell>,
    band: Option<Num>,
) -> Result<Option<Text>, OutOfMemory>
    ensures { IfOk result (λ color. color ≡ color_on s.now cell.now band) }
{
    match (cell, band) {
        (Some(cell), _) => s.paint(alloc, cell),
        (None, Some(_)) => Ok(None),
        (None, None) => s.paint(alloc, &Cell::Null),
    }
}

// The text of a cell, if there is one.
fn text_of_cell(cell: Option<Cell>) -> Option<Text>
    ensures { result ≡ text_of_cell cell }
{
    match cell {
        Some(Cell::Text(text)) => Some(text),
        _ => None,
    }
}

/// The colour of a value with this cell: on its scale, or the cell's own.
pub fn color_at(
    alloc: Global,
    scale: Option<&Indexed>,
    band: Option<Num>,
    cell: Option<Cell>,
) -> Result<Option<Text>, OutOfMemory>
    ensures { IfOk result (λ color. color ≡ color_at (option_copied scale.entry) band cell) }
{
    match scale {
        Some(s) => color_on(alloc, s, &cell, band),
        None => Ok(text_of_cell(cell)),
    }
}

// The colour of a value for a row.
fn color_for<P: ParamReader>(
    alloc: Global,
    scaled: &Scaled,
    row: &Keyed,
    params: &P,
) -> Result<Option<Text>, EvalError>
    requires { row.now.key.id ≤ greatest_id }
    ensures { Evaluates result (color_for (cell_at row.now) (P.values params.now) (scaled_of scaled.now)) }
{
    let cell = cell_for(alloc, scaled.value, row, params)?;
    Ok(color_at(alloc, scaled.scale, scaled.value.band, cell)?)
}

/// The colour that a channel shows of a row.
pub fn color_shown<P: ParamReader>(
    alloc: Global,
    values: &[Scaled],
    row: &Keyed,
    params: &P,
) -> Result<Shown<Text>, EvalError>
    requires { row.now.key.id ≤ greatest_id }
    ensures { Evaluates result (color_shown (cell_at row.now) (P.values params.now) (scaled_all values.now)) }
{
    let Some(scaled) = first_met(alloc, values, row, params)? else {
        return Ok(Shown::Absent);
    };
    Ok(shown_color(color_for(alloc, scaled, row, params)?))
}

// A colour that is shown, once more.
fn once_more(shown: &Shown<SharedText>) -> Result<Shown<SharedText>, OutOfMemory>
    ensures { IfOk result (λ copy. copy ≡ shown.now) }
{
    match shown {
        Shown::Absent => Ok(Shown::Absent),
        Shown::Lacking => Ok(Shown::Lacking),
        Shown::Given(color) => Ok(Shown::Given(color.copy()?)),
    }
}

// The colour that values show of a row, shared with those of the pool.
fn paint_over<P: ParamReader>(
    alloc: Global,
    pool: &mut TextPool,
    values: &[Scaled],
    row: &Keyed,
    params: &P,
) -> Result<Shown<SharedText>, EvalError>
    requires { row.now.key.id ≤ greatest_id }
    ensures { Evaluates result (color_shown (cell_at row.now) (P.values params.now) (scaled_all values.now)) }
{
    let color = color_shown(alloc, values, row, params)?;
    Ok(shown_shared(alloc, pool, color)?)
}

/// The colour that a channel shows of a row, shared with those of the pool or of other rows.
pub fn paint_shown<P: ParamReader>(
    alloc: Global,
    pool: &mut TextPool,
    colors: &Colors,
    row: &Keyed,
    params: &P,
) -> Result<Shown<SharedText>, EvalError>
    requires { row.now.key.id ≤ greatest_id }
    ensures { Evaluates result (color_shown (cell_at row.now) (P.values params.now) (scaled_all colors.now.values)) }
{
    match &colors.same {
        Some(shown) => Ok(once_more(shown)?),
        None => paint_over(alloc, pool, colors.values.as_slice(), row, params),
    }
}

// The symbol that values show of a row.
fn form_over<P: ParamReader>(
    alloc: Global,
    values: &[Scaled],
    row: &Keyed,
    params: &P,
) -> Result<Symbol, EvalError>
    requires { row.now.key.id ≤ greatest_id }
    ensures { Evaluates result (option_map symbol_of (color_shown (cell_at row.now) (P.values params.now) (scaled_all values.now))) }
{
    let form = color_shown(alloc, values, row, params)?;
    Ok(mark_shapes::symbol_of(form))
}

/// The symbol that a channel shows of a row.
pub fn form_for<P: ParamReader>(
    alloc: Global,
    forms: &Forms,
    row: &Keyed,
    params: &P,
) -> Result<Symbol, EvalError>
    requires { row.now.key.id ≤ greatest_id }
    ensures { Evaluates result (option_map symbol_of (color_shown (cell_at row.now) (P.values params.now) (scaled_all forms.now.values))) }
{
    match forms.same {
        Some(form) => Ok(form),
        None => form_over(alloc, forms.values.as_slice(), row, params),
    }
}

// How wide and how high a plot is, and the space round it.
ghost use Rattle.std.specs.Prelude.{◌≡◌, ◌≤ℤ◌, pos, neg_ℤ, IfOk};
ghost use Rattle.fixed_num.specs.Number.{limit};
ghost use Rattle.expr_eval.specs.Answers.{Evaluates};
ghost use Rattle.scale_kit.specs.Scale.{IsPixel};
ghost use Rattle.vega_drawing.specs.Grids.{size_cut};
ghost use Rattle.vega_drawing.specs.Sizes.{size_in, size_of, padding_round};
ghost use Rattle.vega_copies.specs.inner.Kept.{IsSizeKept};

use cell_value::Cell;
use expr_eval::{EvalError, ParamReader};
use fixed_num::Num;
use std::alloc::Global;
use vega_signals::eval_alone;
use vega_spec::Size;

/// The greatest size of a plot, in millionths of a pixel.
const GREATEST_SIZE: i128 = 100_000_000_000_000_000;

/// So many millionths, which are a number.
pub(crate) fn number(millionths: i128) -> Num
    requires low { neg_ℤ (pos limit) ≤ℤ millionths }
    requires high { millionths ≤ℤ pos limit }
    ensures { result ≡ millionths }
{
    let Some(number) = Num::of_millionths(millionths) else {
        unreachable!()
    };
    number
}

/// A computed size, cut to 0 to 10^11 pixels; what is no number is 0.
pub(crate) fn size_in(cell: &Cell) -> Num
    ensures value { result ≡ size_in cell.now }
    ensures pixel { IsPixel result }
{
    match cell {
        Cell::Number(n) => number(n.millionths().min(GREATEST_SIZE).max(0)),
        Cell::Null | Cell::Flag(_) | Cell::Text(_) | Cell::Pair(_, _) => number(0),
    }
}

/// A number cut to the sizes that plots have, 0 to 10^11 pixels.
pub(crate) fn size_cut(size: Num) -> Num
    ensures value { result ≡ size_cut size }
    ensures pixel { IsPixel result }
{
    size_in(&Cell::Number(size))
}

/// The width or height of a plot in pixels: as written, else that of its expression; 0 where it is absent. `Overflow` comes exactly where the
/// expression overflows.
pub(crate) fn size_of<P: ParamReader>(
    alloc: Global,
    size: &Option<Size>,
    params: &P,
) -> Result<Num, EvalError>
    requires { IsSizeKept size.now }
    ensures value { Evaluates result (size_of (P.values params.now) size.now) }
    ensures pixel { IfOk result IsPixel }
{
    match size {
        None => Ok(number(0)),
        Some(Size::Number(n)) => Ok(*n),
        Some(Size::Signal(e)) => {
            let cell = eval_alone(alloc, e, params)?;
            Ok(size_in(&cell))
        }
    }
}

/// The space round a picture, 5 pixels where none is given.
pub(crate) fn padding_round(given: Option<Num>) -> Num
    ensures { result ≡ padding_round given }
{
    match given {
        Some(padding) => padding,
        None => number(5_000_000),
    }
}

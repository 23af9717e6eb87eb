// The ranges and the paddings of scales.
ghost use Rattle.std.specs.Prelude.{◌≡◌};
ghost use Rattle.vega_scales.specs.Ranges.{two_numbers, ends_in, turned, padding_of};

use crate::numbers::{the_number, zero};
use cell_value::Cell;
use fixed_num::Num;
use vega_spec::Range;

// The ends of a list of two numbers.
fn two_numbers(cells: &[Cell]) -> Option<(Num, Num)>
    ensures { result ≡ two_numbers cells.now }
{
    let [from, to] = cells else {
        return None;
    };
    Some((the_number(from)?, the_number(to)?))
}

/// The ends of a range in a plot of this width and height; None exactly where it is neither of these nor two numbers.
pub(crate) fn ends_in(
    is_discrete: bool,
    width: Num,
    height: Num,
    range: &Range,
) -> Option<(Num, Num)>
    ensures { result ≡ ends_in is_discrete width height range.now }
{
    match range {
        Range::Cells(cells) => two_numbers(cells.as_slice()),
        Range::Width => Some((zero(), width)),
        Range::Height => {
            if is_discrete {
                Some((zero(), height))
            } else {
                Some((height, zero()))
            }
        }
        Range::Category | Range::Ramp | Range::Symbol => None,
    }
}

/// The ends of a range, turned round where that is asked.
pub(crate) fn turned(reverse: bool, ends: (Num, Num)) -> (Num, Num)
    ensures { result ≡ turned reverse ends }
{
    if reverse { (ends.1, ends.0) } else { ends }
}

/// A padding: its own, else the one that is given for both, else 0.
pub(crate) fn padding_of(own: Option<Num>, both: Option<Num>) -> Num
    ensures { result ≡ padding_of own both }
{
    own.or(both).unwrap_or(zero())
}

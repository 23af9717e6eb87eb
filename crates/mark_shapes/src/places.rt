// Where marks that have one place stand along x or y.
ghost use Rattle.std.specs.Prelude.{◌≡◌};
ghost use Rattle.mark_shapes.specs.Places.{place_of};

use crate::numbers::zero;
use crate::shown::{Shown, or_default};
use fixed_num::Num;

/// Where a mark that has one place stands along one direction, in pixels: at the near end, if that is given, else at the middle, else at 0;
/// None where what counts lacks.
pub fn place_of(near: Shown<Num>, middle: Shown<Num>) -> Option<Num>
    ensures { result ≡ place_of near middle }
{
    match near {
        Shown::Given(near) => Some(near),
        Shown::Lacking => None,
        Shown::Absent => or_default(zero(), middle),
    }
}

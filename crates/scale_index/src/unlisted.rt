// Cells that don't stand in the domain of a scale.
ghost use Rattle.std.specs.Prelude.{◌≡◌, None, IfOk};
ghost use Rattle.scale_kit.specs.Scale.{IsScale};
ghost use Rattle.scale_kit.specs.Places.{domain_index, place_of};
ghost use Rattle.scale_kit.specs.Colors.{paint_of};

use crate::known::domain_cells;
use cell_value::Cell;
use fixed_num::Num;
use scale_kit::{Overflow, Scale, paint, place};
use std::alloc::Global;
use text_kit::{OutOfMemory, Text};

/// The place of a cell that isn't among those of the domain: only a scale that lists none may have one.
pub(crate) fn unlisted_place(s: &Scale, v: &Cell) -> Result<Option<Num>, Overflow>
    requires scale { IsScale s.now }
    requires unlisted { domain_index s.now v.now ≡ None }
    ensures { result ≡ place_of s.now v.now }
{
    if domain_cells(s).is_empty() {
        place(s, v)
    } else {
        Ok(None)
    }
}

/// The colour or sign of such a cell.
pub(crate) fn unlisted_paint(
    alloc: Global,
    s: &Scale,
    v: &Cell,
) -> Result<Option<Text>, OutOfMemory>
    requires scale { IsScale s.now }
    requires unlisted { domain_index s.now v.now ≡ None }
    ensures { IfOk result (λ text. text ≡ paint_of s.now v.now) }
{
    if domain_cells(s).is_empty() {
        paint(alloc, s, v)
    } else {
        Ok(None)
    }
}

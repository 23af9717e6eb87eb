// What ordinal scales range over.
ghost use Rattle.std.specs.Prelude.{◌≡◌, IfOk};
ghost use Rattle.vega_scales.specs.Entries.{entries_of};

use cell_value::Cell;
use domain_kit::{category_colors, ramp_entries, symbol_shapes};
use std::alloc::Global;
use text_kit::{OutOfMemory, Seq, copy_list};
use vega_spec::Range;

/// The entries of the range of an ordinal scale over n cells; places have none.
pub(crate) fn entries_of(alloc: Global, range: &Range, n: usize) -> Result<Seq<Cell>, OutOfMemory>
    ensures { IfOk result (λ entries. entries ≡ entries_of range.now n) }
{
    match range {
        Range::Cells(cells) => copy_list(alloc, cells.as_slice()),
        Range::Width | Range::Height => Ok(Seq::new(alloc)),
        Range::Category => category_colors(alloc),
        Range::Ramp => ramp_entries(alloc, n),
        Range::Symbol => symbol_shapes(alloc),
    }
}

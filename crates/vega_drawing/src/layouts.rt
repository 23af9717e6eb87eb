// How the cells of a layout stand.
ghost use Rattle.std.specs.Prelude.{◌≡◌, ◌<◌, ◌≤◌, ◌^◌, None, IfSome};
ghost use Rattle.vega_guides.specs.Shown.{IsCount};
ghost use Rattle.vega_drawing.specs.Grids.{columns_written};
ghost use Rattle.vega_drawing.specs.Views.{spacing_of};
ghost use Rattle.vega_drawing.specs.inner.Placed.{columns_found, copies_counted, grid_found};

use crate::sizes::number;
use crate::spots::Grid;
use fixed_num::Num;
use vega_copies::MarkFacts;
use vega_guides::whole_of;
use vega_spec::Layout;

/// How the cells of an object with a layout stand, from the facts of its marks; None where there is no memory for so many.
pub(crate) fn grid_of(layout: &Layout, found: &[MarkFacts]) -> Option<Grid>
    requires { IfSome layout.now.columns IsCount }
    ensures value { IfSome result (λ grid. grid ≡ grid_found layout.now found.now) }
    ensures columns { IfSome result (λ (grid : Grid). 0 < grid.columns) }
    ensures none { result ≡ None → 2 ^ 64 ≤ copies_counted found.now }
{
    let cells = count_copies(found)?;
    let columns = columns_asked(found).unwrap_or(columns_written(layout, cells));
    Some(Grid {
        columns: columns.max(1),
        cells,
    })
}

// How many copies the groups of an object have; None where 64 bits don't hold the count, for which there is no memory.
fn count_copies(found: &[MarkFacts]) -> Option<u64>
    ensures value { IfSome result (λ count. count ≡ copies_counted found.now) }
    ensures none { result ≡ None → 2 ^ 64 ≤ copies_counted found.now }
{
    let mut count = 0u64;
    for copies in found {
        count = count.checked_add(copies.copies.len() as u64)?;
    }
    Some(count)
}

// The columns that the first group asks for that crosses two fields, if one does.
fn columns_asked(found: &[MarkFacts]) -> Option<u64>
    ensures { result ≡ columns_found found.now }
{
    for copies in found {
        if let Some(across) = copies.across {
            return Some(across);
        }
    }
    None
}

// The columns of a layout: as many as it says, else as many as there are cells.
fn columns_written(layout: &Layout, cells: u64) -> u64
    requires { IfSome layout.now.columns IsCount }
    ensures { result ≡ columns_written layout.now cells }
{
    match layout.columns {
        Some(columns) => u64::from(whole_of(columns)),
        None => cells,
    }
}

/// The space between the cells of a layout, 20 pixels where none is given.
pub(crate) fn spacing_of(layout: &Layout) -> Num
    ensures { result ≡ spacing_of layout.now }
{
    match layout.padding {
        Some(padding) => padding,
        None => number(20_000_000),
    }
}

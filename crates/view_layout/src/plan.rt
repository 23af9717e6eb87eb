// What stands inside a cell, as a tree, and where.
ghost use Rattle.std.specs.Prelude.{◌≡◌, ◌++◌, map, OnOk};
ghost use Rattle.view_layout.specs.Layout.{place_of, places_in, title_at};
ghost use Rattle.view_layout.specs.inner.Plans.{places_of};

use crate::boxes::PlaceOf;
use crate::lengths::{number_of, plus};
use fixed_num::Num;
use text_kit::{OutOfMemory, Seq};

/// What stands inside a cell.
#[derive(Drop)]
pub enum Plan {
    /// A plot of this width, at the cell's own corner.
    Plot(Num),
    /// A grid.
    Grid {
        /// Whether a title stands at the cell's own corner.
        title: bool,
        /// The width of the grid.
        width: Num,
        /// Where each cell stands, counted in millionths of a pixel from the cell's own corner.
        corners: Seq<(u128, u128)>,
        /// What stands inside each cell.
        cells: Seq<Plan>,
    },
}

/// What stands at a place.
#[derive(Clone, Copy)]
pub enum Standing {
    /// A plot.
    Plot(PlaceOf),
    /// The title of a grid.
    Title(PlaceOf),
}

// A place in numbers, of something of this width.
fn place_of(width: Num, x: u128, y: u128) -> PlaceOf
    ensures { result ≡ place_of width x y }
{
    PlaceOf {
        x: number_of(x),
        y: number_of(y),
        width,
    }
}

// Adds the title of a grid that stands at `x`, `y`, where it has one.
fn push_title(
    title: bool,
    width: Num,
    x: u128,
    y: u128,
    out: &mut Seq<Standing>,
) -> Result<(), OutOfMemory>
    ensures { OnOk result (out.new ≡ out.old ++ title_at title width x y) }
{
    if title {
        out.push(Standing::Title(place_of(width, x, y)))?;
    }
    Ok(())
}

/// Adds what stands in a plan that stands at `x`, `y`.
#[cycle(placing)]
pub fn place(plan: &Plan, x: u128, y: u128, out: &mut Seq<Standing>) -> Result<(), OutOfMemory>
    ensures { OnOk result (out.new ≡ out.old ++ places_of plan.now x y) }
{
    match plan {
        Plan::Plot(width) => out.push(Standing::Plot(place_of(*width, x, y))),
        Plan::Grid {
            title,
            width,
            corners,
            cells,
        } => {
            push_title(*title, *width, x, y, out)?;
            place_each(cells.as_slice(), corners.as_slice(), x, y, out)
        }
    }
}

// Adds what stands in cells, each at its corner from `x`, `y` on.
#[cycle(placing)]
fn place_each(
    cells: &[Plan],
    corners: &[(u128, u128)],
    x: u128,
    y: u128,
    out: &mut Seq<Standing>,
) -> Result<(), OutOfMemory>
    ensures { OnOk result (out.new ≡ out.old ++ places_in (map places_of cells.now) corners.now x y) }
{
    for (cell, corner) in cells.iter().zip(corners) {
        place(cell, plus(x, corner.0), plus(y, corner.1), out)?;
    }
    Ok(())
}

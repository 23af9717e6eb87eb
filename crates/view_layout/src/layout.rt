// The layout of a tree of boxes.
ghost use Rattle.std.specs.Prelude.{◌≡◌, ◌++◌, map, flat_map, IfOk, OnOk};
ghost use Rattle.view_layout.specs.Layout.{layout_of, layout_with_titles_of, place_standing, plot_corner, standing_in, TitlesMoveNothing};
ghost use Rattle.view_layout.specs.inner.Plans.{seen};

use crate::boxes::{BoxTree, Laid, LaidWithTitles, PlaceOf};
use crate::grid::{Arranged, arrange};
use crate::lengths::number_of;
use crate::plan::{Standing, place};
use crate::spans::whole;
use fixed_num::Num;
use std::alloc::Global;
use text_kit::{OutOfMemory, Seq};

// What stands in a cell as the whole.
fn standing_in(alloc: Global, cell: &Arranged) -> Result<Seq<Standing>, OutOfMemory>
    ensures { IfOk result (λ standing. standing ≡ standing_in (seen cell.now)) }
{
    let mut standing = Seq::new(alloc);
    place(
        &cell.plan,
        cell.across.before,
        cell.down.before,
        &mut standing,
    )?;
    Ok(standing)
}

// Adds the corner of a plot, and nothing of a title.
fn push_corner(standing: Standing, out: &mut Seq<(Num, Num)>) -> Result<(), OutOfMemory>
    ensures { OnOk result (out.new ≡ out.old ++ plot_corner standing) }
{
    if let Standing::Plot(place) = standing {
        out.push((place.x, place.y))?;
    }
    Ok(())
}

// The corners of the plots.
fn corners_of_plots(alloc: Global, standing: &[Standing]) -> Result<Seq<(Num, Num)>, OutOfMemory>
    ensures { IfOk result (λ corners. corners ≡ flat_map plot_corner standing.now) }
{
    let mut out = Seq::with_capacity(alloc, standing.len())?;
    for one in standing {
        push_corner(*one, &mut out)?;
    }
    Ok(out)
}

// The place of a plot or a title.
fn place_standing(standing: Standing) -> PlaceOf
    ensures { result ≡ place_standing standing }
{
    match standing {
        Standing::Plot(place) => place,
        Standing::Title(place) => place,
    }
}

// The places of plots and titles.
fn places_standing(alloc: Global, standing: &[Standing]) -> Result<Seq<PlaceOf>, OutOfMemory>
    ensures { IfOk result (λ places. places ≡ map place_standing standing.now) }
{
    let mut out = Seq::with_capacity(alloc, standing.len())?;
    for one in standing {
        out.push(place_standing(*one))?;
    }
    Ok(out)
}

/// Where the plots of a tree stand, and how large the whole is. Cells stand side by side in rows of `columns`. A column starts with
/// the greatest left extent of its cells, and then has their greatest width plus right extent; a row likewise from top to bottom. All
/// plots of a column begin at one place, those of a row too, and `spacing` stands between columns and between rows. A grid in a grid is
/// a cell without extents; a grid without cells is 0 by 0, and a title adds 23 pixels above. Each sum is cut at 10^15 pixels. A number
/// below 0 counts as 0, and no columns count as one. The time is linear in the cells, and the recursion as deep as the tree.
pub fn lay_out(alloc: Global, t: &BoxTree) -> Result<Laid, OutOfMemory>
    ensures { IfOk result (λ laid. laid ≡ layout_of t.now) }
{
    let cell = arrange(alloc, t)?;
    let standing = standing_in(alloc, &cell)?;
    Ok(Laid {
        places: corners_of_plots(alloc, standing.as_slice())?,
        width: number_of(whole(cell.across)),
        height: number_of(whole(cell.down)),
    })
}

/// The same layout with a place for the title of each grid that has one, before the places of what stands in the grid: the title stands
/// at the grid's corner and is as wide as the grid. Each place has the width of its plot or its title.
pub fn lay_out_with_titles(alloc: Global, t: &BoxTree) -> Result<LaidWithTitles, OutOfMemory>
    ensures { IfOk result (λ laid. laid ≡ layout_with_titles_of t.now) }
{
    let cell = arrange(alloc, t)?;
    let standing = standing_in(alloc, &cell)?;
    Ok(LaidWithTitles {
        places: places_standing(alloc, standing.as_slice())?,
        width: number_of(whole(cell.across)),
        height: number_of(whole(cell.down)),
    })
}

/// Titles leave the plots where they stand, and the whole as large as it is.
pub fn law_of_titles()
    ensures { TitlesMoveNothing }
{}

// A grid of cells.
ghost use Rattle.std.specs.Prelude.{◌≡◌, ◌<◌, ◌++◌, max, map, IfOk, OnOk};
ghost use Rattle.view_layout.specs.Grid.{corners_of, row_corners};
ghost use Rattle.view_layout.specs.Layout.{cell_of, grid_by, grid_corners, grid_of, leaf_of, without_extent};
ghost use Rattle.view_layout.specs.inner.Plans.{places_of, seen, AreSeen};

use crate::boxes::{BoxOf, BoxTree};
use crate::lengths::{length_of, number_of, plus, title_height};
use crate::plan::Plan;
use crate::spans::{Span, columns_of, extent, positions, rows_of, whole};
use std::alloc::Global;
use text_kit::{OutOfMemory, Seq};

/// A cell: what it takes up, and what stands inside it.
#[derive(Drop)]
pub struct Arranged {
    /// What it takes up from left to right.
    pub across: Span,
    /// What it takes up from top to bottom.
    pub down: Span,
    /// What stands inside it.
    pub plan: Plan,
}

/// Several cells.
#[derive(Drop)]
pub struct Cells {
    /// What each takes up from left to right.
    pub across: Seq<Span>,
    /// What each takes up from top to bottom.
    pub down: Seq<Span>,
    /// What stands inside each.
    pub plans: Seq<Plan>,
}

// A plot as a cell.
fn leaf(b: &BoxOf) -> Arranged
    ensures { seen result ≡ leaf_of b.now }
{
    Arranged {
        across: Span {
            before: length_of(b.left),
            behind: plus(length_of(b.width), length_of(b.right)),
        },
        down: Span {
            before: length_of(b.top),
            behind: plus(length_of(b.height), length_of(b.bottom)),
        },
        plan: Plan::Plot(number_of(length_of(b.width))),
    }
}

// Adds the corners of a row that begins at `y`, in columns that begin at `xs`.
fn push_row(xs: &[u128], y: u128, out: &mut Seq<(u128, u128)>) -> Result<(), OutOfMemory>
    ensures { OnOk result (out.new ≡ out.old ++ row_corners xs.now y) }
{
    for x in xs {
        out.push((*x, y))?;
    }
    Ok(())
}

// The corners of a grid's cells, row after row.
fn corners_of(alloc: Global, xs: &[u128], ys: &[u128]) -> Result<Seq<(u128, u128)>, OutOfMemory>
    ensures { IfOk result (λ corners. corners ≡ corners_of xs.now ys.now) }
{
    let mut out = Seq::new(alloc);
    for y in ys {
        push_row(xs, *y, &mut out)?;
    }
    Ok(out)
}

// The corners of a grid's cells, the first row below `above`.
fn grid_corners(
    alloc: Global,
    gap: u128,
    above: u128,
    columns: &[Span],
    rows: &[Span],
) -> Result<Seq<(u128, u128)>, OutOfMemory>
    ensures { IfOk result (λ corners. corners ≡ grid_corners gap above columns.now rows.now) }
{
    let xs = positions(alloc, 0, gap, columns)?;
    let ys = positions(alloc, above, gap, rows)?;
    corners_of(alloc, xs.as_slice(), ys.as_slice())
}

// What takes up a length, without an extent before it.
fn without_extent(size: u128) -> Span
    ensures { result ≡ without_extent size }
{
    Span {
        before: 0,
        behind: size,
    }
}

// A grid as a cell, from its columns and rows and what stands inside its cells.
#[tactic(auto, using(crate::proofs::PlanLemmas::places_of_grid))]
fn grid_by(
    alloc: Global,
    gap: u128,
    title: bool,
    columns: &[Span],
    rows: &[Span],
    plans: Seq<Plan>,
) -> Result<Arranged, OutOfMemory>
    ensures { IfOk result (λ arranged. seen arranged ≡ grid_by gap title columns.now rows.now (map places_of plans)) }
{
    let above = title_height(title);
    let corners = grid_corners(alloc, gap, above, columns, rows)?;
    let across = without_extent(extent(gap, columns));
    Ok(Arranged {
        across,
        down: without_extent(plus(above, extent(gap, rows))),
        plan: Plan::Grid {
            title,
            width: number_of(whole(across)),
            corners,
            cells: plans,
        },
    })
}

// A grid of `n` columns as a cell.
fn grid(
    alloc: Global,
    n: usize,
    gap: u128,
    title: bool,
    cells: Cells,
) -> Result<Arranged, OutOfMemory>
    requires { 0 < n }
    ensures { IfOk result (λ arranged. seen arranged ≡ grid_of n gap title cells.across cells.down (map places_of cells.plans)) }
{
    let Cells {
        across,
        down,
        plans,
    } = cells;
    let columns = columns_of(alloc, across.as_slice(), n)?;
    let rows = rows_of(alloc, down.as_slice(), n)?;
    grid_by(
        alloc,
        gap,
        title,
        columns.as_slice(),
        rows.as_slice(),
        plans,
    )
}

/// A box or a grid as a cell.
#[cycle(arranging)]
pub fn arrange(alloc: Global, t: &BoxTree) -> Result<Arranged, OutOfMemory>
    ensures { IfOk result (λ arranged. seen arranged ≡ cell_of t.now) }
{
    match t {
        BoxTree::Leaf(b) => Ok(leaf(b)),
        BoxTree::Grid {
            columns,
            spacing,
            title,
            cells,
        } => {
            let cells = arrange_each(alloc, cells.as_slice())?;
            Ok(grid(
                alloc,
                (*columns).max(1) as usize,
                length_of(*spacing),
                *title,
                cells,
            )?)
        }
    }
}

// Several boxes or grids as cells.
#[cycle(arranging)]
fn arrange_each(alloc: Global, trees: &[BoxTree]) -> Result<Cells, OutOfMemory>
    ensures { IfOk result (λ cells. AreSeen cells (map cell_of trees.now)) }
{
    let mut across = Seq::with_capacity(alloc, trees.len())?;
    let mut down = Seq::with_capacity(alloc, trees.len())?;
    let mut plans = Seq::with_capacity(alloc, trees.len())?;
    for tree in trees {
        let cell = arrange(alloc, tree)?;
        across.push(cell.across)?;
        down.push(cell.down)?;
        plans.push(cell.plan)?;
    }
    Ok(Cells {
        across,
        down,
        plans,
    })
}

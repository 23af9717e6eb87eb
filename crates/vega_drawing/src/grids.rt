// Grids of plots, and of grids.
ghost use Rattle.std.specs.Prelude.{◌≡◌, ◌<◌, ◌≤◌, ◌+◌, suc, ◌∷◌, [], true, IfOk, OnOk, map, All, length, IfSome};
ghost use Rattle.std.specs.Option.{option_map};
ghost use Rattle.std.specs.List.{enumerate_from};
ghost use Rattle.expr_eval.specs.Answers.{Evaluates};
ghost use Rattle.fixed_num.specs.Ranges.{all_found};
ghost use Rattle.vega_guides.specs.Shown.{IsAxis, IsCount};
ghost use Rattle.vega_spec.specs.declared.spec.Group.{out-Group};
ghost use Rattle.vega_spec.specs.declared.spec.VgMark.{out-VgMark};
ghost use Rattle.plot_scenes.specs.Views.{placed_plot, HasLegends};
ghost use Rattle.vega_copies.specs.declared.facts.CopyFacts.{out-CopyFacts};
ghost use Rattle.vega_copies.specs.declared.facts.MarkFacts.{out-MarkFacts};
ghost use Rattle.vega_copies.specs.inner.Kept.{KeepsObject, KeepsMarks};
ghost use Rattle.vega_copies.specs.Outlines.{object_here};
ghost use Rattle.vega_copies.specs.inner.Outlined.{marks_from, marks_in, marks_of, is_group, object_numbered, AreFew, group_object};
ghost use Rattle.vega_drawing.specs.Frames.{as_grid};
ghost use Rattle.vega_drawing.specs.Grids.{frame_past};
ghost use Rattle.vega_drawing.specs.Plots.{plot_of};
ghost use Rattle.vega_drawing.specs.Views.{grid_round, spacing_of, views_in};
ghost use Rattle.vega_drawing.specs.inner.Drawn.{MayShow, CopyFits, copies_from, copy_in_frame};
ghost use Rattle.vega_drawing.specs.inner.Framed.{frame_seen, unlisted, found_in_frame, IsFrame};
ghost use Rattle.vega_drawing.specs.inner.Placed.{copies_counted, grid_of_object, cell_seen, views_of_mark, cells_of_mark, AddsViews};
ghost use Rattle.vega_drawing.specs.inner.Placed.{view_at, view_entered, view_named, view_scaled, sized_plot};

use crate::axes::{all_axes_past, and_axes, axes_in};
use crate::frames::{Entered, Frame, encoded_number, entered_by, more_cells, slice_of};
use crate::headers::headers_of;
use crate::items::MarkItems;
use crate::kept::kept_scales;
use crate::layouts::{grid_of, spacing_of};
use crate::legends::push_legends;
use crate::marks::{CopyHere, MarkHere, Numbers};
use crate::plots::plot_of;
use crate::scales::{OfChart, all_past, and_outer, own_set_of, set_of};
use crate::sizes::size_cut;
use crate::spots::{Grid, GridSpot, spot_of};
use crate::values::{ValuesAt, with_signals, with_step};
use expr_eval::EvalError;
use mark_encode::{ChannelName, IndexedSet};
use plot_scenes::{GridShown, Header, Placed, placed_grid, placed_plot};
use std::alloc::Global;
use text_kit::{Copies, OutOfMemory, Seq};
use vega_copies::{
    MarkFacts, Step, count_groups_of, count_marks_of, facet_in, is_group, marks_in, scales_in,
};
use vega_spec::{Group, Layout, VgMark};

/// The view of a plot of whose marks this was found.
pub(crate) fn plot_view<'s, M: MarkItems>(
    alloc: Global,
    maker: &M,
    frame: &Frame<'s, '_, '_>,
    group: &'s Group,
    found: &[MarkFacts],
    numbers: Numbers,
) -> Result<Placed, EvalError>
    requires sound { M.sound maker.now }
    requires frame { IsFrame frame.now }
    requires marks { MayShow (marks_in (out-Group group.now)) found.now }
    requires object { KeepsObject (object_numbered numbers.number (out-Group group.now)) }
    requires few { AreFew numbers.unit (suc numbers.number) (marks_in (out-Group group.now)) }
    ensures value { Evaluates result (option_map placed_plot (plot_of (M.items maker.now) (object_numbered numbers.number (out-Group group.now))
        (marks_from numbers.unit (suc numbers.number) (marks_in (out-Group group.now))) (found_in_frame (M.lists maker.now) frame.now 0 found.now)
        (frame_seen (M.lists maker.now) frame.now))) }
    ensures legends { IfOk result HasLegends }
{
    match plot_of(alloc, maker, frame, group, found, numbers) {
        Ok(plot) => Ok(placed_plot(alloc, plot)?),
        Err(error) => Err(error),
    }
}

// A grid of so many columns round its cells. The object that has it is numbered.
fn grid_round(
    alloc: Global,
    frame: &Frame,
    group: &Group,
    layout: &Layout,
    number: u32,
    columns: u64,
    cells: Seq<Placed>,
) -> Result<Placed, OutOfMemory>
    requires frame { IsFrame frame.now }
    requires cells { All HasLegends cells }
    ensures value { IfOk result (λ view. view
        ≡ grid_round (object_numbered number (out-Group group.now)) (unlisted frame.now) (spacing_of layout.now) columns cells) }
    ensures legends { IfOk result HasLegends }
{
    let mut legends = Seq::new(alloc);
    push_legends(alloc, frame, number, group, &mut legends)?;
    let title = Copies::copied(&group.title, alloc)?;
    let shown = GridShown {
        columns,
        spacing: spacing_of(layout),
        title,
        legends,
    };
    placed_grid(alloc, shown, cells)
}

/// The view of a copy of an object with a layout, of whose marks this was found: a grid over what stands in it. The object and its marks are
/// numbered from these numbers on.
#[cycle(viewing)]
pub(crate) fn grid_view<'s, M: MarkItems>(
    alloc: Global,
    maker: &M,
    frame: &Frame<'s, '_, '_>,
    group: &'s Group,
    found: &[MarkFacts],
    layout: &Layout,
    numbers: Numbers,
) -> Result<Placed, EvalError>
    requires sound { M.sound maker.now }
    requires frame { IsFrame frame.now }
    requires marks { MayShow (marks_in (out-Group group.now)) found.now }
    requires columns { IfSome layout.now.columns IsCount }
    requires few { AreFew numbers.unit (suc numbers.number) (marks_in (out-Group group.now)) }
    ensures value { Evaluates result (grid_of_object (M.items maker.now) (object_numbered numbers.number (out-Group group.now)) layout.now
        (marks_from numbers.unit (suc numbers.number) (marks_in (out-Group group.now))) (found_in_frame (M.lists maker.now) frame.now 0 found.now)
        (frame_seen (M.lists maker.now) frame.now)) }
    ensures legends { IfOk result HasLegends }
{
    let Some(grid) = grid_of(layout, found) else {
        return Err(EvalError::Memory);
    };
    let inside = Numbers {
        unit: numbers.unit,
        number: numbers.number + 1,
    };
    match cells_of(alloc, maker, frame, grid, marks_in(group), found, inside) {
        Ok(cells) => Ok(grid_round(
            alloc,
            frame,
            group,
            layout,
            numbers.number,
            grid.columns,
            cells,
        )?),
        Err(error) => Err(error),
    }
}

// The cells of a grid: for each group its copies.
#[cycle(viewing)]
fn cells_of<'s, M: MarkItems>(
    alloc: Global,
    maker: &M,
    frame: &Frame<'s, '_, '_>,
    grid: Grid,
    marks: &'s [VgMark],
    found: &[MarkFacts],
    numbers: Numbers,
) -> Result<Seq<Placed>, EvalError>
    requires sound { M.sound maker.now }
    requires frame { IsFrame frame.now }
    requires marks { MayShow marks.now found.now }
    requires few { AreFew numbers.unit numbers.number marks.now }
    requires columns { 0 < grid.columns }
    requires count { copies_counted found.now ≤ grid.cells }
    ensures value { Evaluates result (views_in (M.items maker.now) (marks_from numbers.unit numbers.number marks.now)
        (found_in_frame (M.lists maker.now) frame.now 0 found.now) (frame_seen (M.lists maker.now) frame.now) grid 0) }
    ensures legends { IfOk result (All HasLegends) }
{
    let mut cells = Seq::new(alloc);
    let mut next_unit = numbers.unit;
    let mut next_number = numbers.number;
    let mut at = 0;
    for mark in marks {
        let next = Numbers {
            unit: next_unit,
            number: next_number,
        };
        let here = MarkHere {
            facts: &found[at],
            place: at,
            numbers: next,
        };
        match push_mark(alloc, maker, frame, grid, mark, &here, &mut cells) {
            Ok(()) => {}
            Err(error) => return Err(error),
        }
        next_unit += count_marks_of(mark);
        next_number += count_groups_of(mark);
        at += 1;
    }
    Ok(cells)
}

// Adds the cells that a mark has: a group those of its copies, another mark none.
#[cycle(viewing)]
fn push_mark<'s, M: MarkItems>(
    alloc: Global,
    maker: &M,
    frame: &Frame<'s, '_, '_>,
    grid: Grid,
    mark: &'s VgMark,
    here: &MarkHere,
    cells: &mut Seq<Placed>,
) -> Result<(), EvalError>
    requires sound { M.sound maker.now }
    requires frame { IsFrame frame.now }
    requires marks { MayShow (mark.now ∷ []) (here.now.facts.now ∷ []) }
    requires few { AreFew here.now.numbers.unit here.now.numbers.number (mark.now ∷ []) }
    requires columns { 0 < grid.columns }
    requires within { length cells.old + length (out-MarkFacts here.now.facts.now).copies ≤ grid.cells }
    ensures value { AddsViews result cells.old cells.new (views_of_mark (M.items maker.now) (frame_seen (M.lists maker.now) frame.now) grid
        here.now.numbers.unit
        here.now.numbers.number mark.now (length cells.old)
        (copies_from (M.lists maker.now) frame.now here.now.place 0 (out-MarkFacts here.now.facts.now).copies)) }
    ensures count { OnOk result (length cells.new ≡ length cells.old + cells_of_mark mark.now (length (out-MarkFacts here.now.facts.now).copies)) }
    ensures legends { All HasLegends cells.old → OnOk result (All HasLegends cells.new) }
{
    if is_group(mark) {
        push_cells(alloc, maker, frame, grid, mark, here, cells)
    } else {
        Ok(())
    }
}

// Adds the cells that the copies of a group are.
#[cycle(viewing)]
fn push_cells<'s, M: MarkItems>(
    alloc: Global,
    maker: &M,
    frame: &Frame<'s, '_, '_>,
    grid: Grid,
    mark: &'s VgMark,
    here: &MarkHere,
    cells: &mut Seq<Placed>,
) -> Result<(), EvalError>
    requires sound { M.sound maker.now }
    requires frame { IsFrame frame.now }
    requires kept { KeepsMarks (marks_of (mark.now ∷ [])) }
    requires copies { All (CopyFits (out-VgMark mark.now)) (out-MarkFacts here.now.facts.now).copies }
    requires few { AreFew here.now.numbers.unit here.now.numbers.number (mark.now ∷ []) }
    requires group { is_group (out-VgMark mark.now) ≡ true }
    requires columns { 0 < grid.columns }
    requires within { length cells.old + length (out-MarkFacts here.now.facts.now).copies ≤ grid.cells }
    ensures value { AddsViews result cells.old cells.new (all_found (map (cell_seen (M.items maker.now) (frame_seen (M.lists maker.now) frame.now) grid
        here.now.numbers.unit here.now.numbers.number (out-VgMark mark.now)) (enumerate_from (length cells.old)
        (copies_from (M.lists maker.now) frame.now here.now.place 0 (out-MarkFacts here.now.facts.now).copies)))) }
    ensures count { OnOk result (length cells.new ≡ length cells.old + length (out-MarkFacts here.now.facts.now).copies) }
    ensures legends { All HasLegends cells.old → OnOk result (All HasLegends cells.new) }
{
    let copies = here.facts.copies.as_slice();
    for (at, copy) in copies.iter().enumerate() {
        let spot = spot_of(grid, cells.len() as u64);
        let step = Step {
            mark: here.place,
            copy: at,
        };
        let one = CopyHere {
            facts: copy,
            step,
            numbers: here.numbers,
        };
        match cell_view(alloc, maker, frame, spot, mark, &one) {
            Ok(view) => cells.push(view)?,
            Err(error) => return Err(error),
        }
    }
    Ok(())
}

// The view of a copy of a group at a spot of a grid. What stands round a copy of a faceted group passes the spot.
#[cycle(viewing)]
fn cell_view<'s, M: MarkItems>(
    alloc: Global,
    maker: &M,
    outer: &Frame<'s, '_, '_>,
    spot: GridSpot,
    mark: &'s VgMark,
    here: &CopyHere,
) -> Result<Placed, EvalError>
    requires sound { M.sound maker.now }
    requires frame { IsFrame outer.now }
    requires kept { KeepsMarks (marks_of (mark.now ∷ [])) }
    requires copy { CopyFits (out-VgMark mark.now) here.now.facts.now }
    requires few { AreFew here.now.numbers.unit here.now.numbers.number (mark.now ∷ []) }
    requires group { is_group (out-VgMark mark.now) ≡ true }
    ensures value { Evaluates result (view_at (M.items maker.now) (frame_past (group_object here.now.numbers.number (out-VgMark mark.now)) spot
        (frame_seen (M.lists maker.now) outer.now)) here.now.numbers.unit here.now.numbers.number (out-VgMark mark.now)
        (copy_in_frame (M.lists maker.now) outer.now here.now.step here.now.facts.now)) }
    ensures legends { IfOk result HasLegends }
{
    match facet_in(mark) {
        None => copy_view(alloc, maker, outer, mark, here),
        Some(_) => {
            let scales = all_past(alloc, spot, outer.scales)?;
            let axes = all_axes_past(alloc, spot, outer.axes)?;
            let past = Frame {
                scales: scales.as_slice(),
                axes: axes.as_slice(),
                ..*outer
            };
            copy_view(alloc, maker, &past, mark, here)
        }
    }
}

// The view of a copy of a group.
#[cycle(viewing)]
fn copy_view<'s, M: MarkItems>(
    alloc: Global,
    maker: &M,
    outer: &Frame<'s, '_, '_>,
    mark: &'s VgMark,
    here: &CopyHere,
) -> Result<Placed, EvalError>
    requires sound { M.sound maker.now }
    requires frame { IsFrame outer.now }
    requires kept { KeepsMarks (marks_of (mark.now ∷ [])) }
    requires copy { CopyFits (out-VgMark mark.now) here.now.facts.now }
    requires few { AreFew here.now.numbers.unit here.now.numbers.number (mark.now ∷ []) }
    requires group { is_group (out-VgMark mark.now) ≡ true }
    ensures value { Evaluates result (view_at (M.items maker.now) (frame_seen (M.lists maker.now) outer.now)
        here.now.numbers.unit here.now.numbers.number (out-VgMark mark.now)
        (copy_in_frame (M.lists maker.now) outer.now here.now.step here.now.facts.now)) }
    ensures legends { IfOk result HasLegends }
{
    let headers = headers_of(alloc, mark, &here.facts.cells, outer.headers)?;
    let cells = more_cells(alloc, outer.cells, &here.facts.cells)?;
    let levels = with_signals(alloc, &here.facts.signals, outer.values.levels)?;
    let path = with_step(alloc, here.step, outer.path)?;
    let steps = path.as_slice();
    let signals = levels.as_slice();
    let shown = headers.as_slice();
    let entered = entered_by(steps, signals, slice_of(&cells));
    entered_view(alloc, maker, &*outer, &entered, shown, mark, here)
}

// The view of a copy of a group that is entered in this way, with its headers.
#[cycle(viewing)]
fn entered_view<'s, 'x, M: MarkItems>(
    alloc: Global,
    maker: &M,
    outer: &Frame<'s, 'x, 'x>,
    entered: &Entered<'x>,
    headers: &'x [Header],
    mark: &'s VgMark,
    here: &CopyHere,
) -> Result<Placed, EvalError>
    requires sound { M.sound maker.now }
    requires frame { IsFrame outer.now }
    requires kept { KeepsMarks (marks_of (mark.now ∷ [])) }
    requires copy { CopyFits (out-VgMark mark.now) here.now.facts.now }
    requires few { AreFew here.now.numbers.unit here.now.numbers.number (mark.now ∷ []) }
    requires group { is_group (out-VgMark mark.now) ≡ true }
    ensures value { Evaluates result (view_entered (M.items maker.now) (M.lists maker.now) outer.now
        entered.now.path.now entered.now.levels.now entered.now.cells headers.now
        here.now.numbers.unit here.now.numbers.number (out-VgMark mark.now) here.now.facts.now) }
    ensures legends { IfOk result HasLegends }
{
    let named = Frame {
        path: entered.path,
        values: ValuesAt {
            stores: outer.values.stores,
            levels: entered.levels,
        },
        cells: entered.cells,
        headers,
        ..*outer
    };
    named_view(alloc, maker, &named, mark, here)
}

// The view of a copy of a group whose names are known.
#[cycle(viewing)]
fn named_view<'s, M: MarkItems>(
    alloc: Global,
    maker: &M,
    named: &Frame<'s, '_, '_>,
    mark: &'s VgMark,
    here: &CopyHere,
) -> Result<Placed, EvalError>
    requires sound { M.sound maker.now }
    requires frame { IsFrame named.now }
    requires kept { KeepsMarks (marks_of (mark.now ∷ [])) }
    requires copy { CopyFits (out-VgMark mark.now) here.now.facts.now }
    requires few { AreFew here.now.numbers.unit here.now.numbers.number (mark.now ∷ []) }
    requires group { is_group (out-VgMark mark.now) ≡ true }
    ensures value { Evaluates result (view_named (M.items maker.now) (frame_seen (M.lists maker.now) named.now)
        here.now.numbers.unit here.now.numbers.number (out-VgMark mark.now)
        (out-CopyFacts here.now.facts.now).domains (found_in_frame (M.lists maker.now) named.now 0 (out-CopyFacts here.now.facts.now).inside)) }
    ensures legends { IfOk result HasLegends }
{
    let inside = here.facts.inside.as_slice();
    let own = kept_scales(
        alloc,
        OfChart::Group,
        scales_in(&mark.group),
        here.facts.domains.as_slice(),
    )?;
    if own.is_empty() {
        return scaled_view(alloc, maker, named, mark, inside, here.numbers);
    }
    let mine = own.as_slice();
    let scales = and_outer(alloc, mine, named.scales)?;
    let seen = scales.as_slice();
    let set = own_set_of(alloc, named.width, named.height, mine)?;
    let indexed = IndexedSet::within(alloc, &set, named.set)?;
    let scaled = Frame {
        scales: seen,
        set: &indexed,
        ..*named
    };
    scaled_view(alloc, maker, &scaled, mark, inside, here.numbers)
}

// The view of a copy of a group whose scales are known.
#[cycle(viewing)]
fn scaled_view<'s, M: MarkItems>(
    alloc: Global,
    maker: &M,
    scaled: &Frame<'s, '_, '_>,
    mark: &'s VgMark,
    found: &[MarkFacts],
    numbers: Numbers,
) -> Result<Placed, EvalError>
    requires sound { M.sound maker.now }
    requires frame { IsFrame scaled.now }
    requires marks { MayShow (marks_in (out-Group (out-VgMark mark.now).group)) found.now }
    requires object { KeepsObject (group_object numbers.number (out-VgMark mark.now)) }
    requires few { AreFew numbers.unit numbers.number (mark.now ∷ []) }
    requires group { is_group (out-VgMark mark.now) ≡ true }
    ensures value { Evaluates result (view_scaled (M.items maker.now) (frame_seen (M.lists maker.now) scaled.now)
        numbers.unit numbers.number (out-VgMark mark.now)
        (found_in_frame (M.lists maker.now) scaled.now 0 found.now)) }
    ensures legends { IfOk result HasLegends }
{
    match &mark.group.layout {
        Some(layout) => inner_grid_view(alloc, maker, scaled, &mark.group, found, layout, numbers),
        None => inner_plot_view(alloc, maker, scaled, mark, found, numbers),
    }
}

// The view of a copy of a group with a layout whose scales are known.
#[cycle(viewing)]
fn inner_grid_view<'s, M: MarkItems>(
    alloc: Global,
    maker: &M,
    scaled: &Frame<'s, '_, '_>,
    group: &'s Group,
    found: &[MarkFacts],
    layout: &Layout,
    numbers: Numbers,
) -> Result<Placed, EvalError>
    requires sound { M.sound maker.now }
    requires frame { IsFrame scaled.now }
    requires marks { MayShow (marks_in (out-Group group.now)) found.now }
    requires axes { All IsAxis (object_here (out-Group group.now)).axes }
    requires columns { IfSome layout.now.columns IsCount }
    requires few { AreFew numbers.unit (suc numbers.number) (marks_in (out-Group group.now)) }
    ensures value { Evaluates result (grid_of_object (M.items maker.now) (object_numbered numbers.number (out-Group group.now)) layout.now
        (marks_from numbers.unit (suc numbers.number) (marks_in (out-Group group.now))) (found_in_frame (M.lists maker.now) scaled.now 0 found.now)
        (as_grid (object_numbered numbers.number (out-Group group.now)) (frame_seen (M.lists maker.now) scaled.now))) }
    ensures legends { IfOk result HasLegends }
{
    let axes = and_axes(alloc, scaled.axes, scaled.scales, axes_in(group))?;
    let here = Frame {
        axes: axes.as_slice(),
        ..*scaled
    };
    grid_view(alloc, maker, &here, group, found, layout, numbers)
}

// The view of a copy of a group without a layout whose scales are known.
fn inner_plot_view<'s, M: MarkItems>(
    alloc: Global,
    maker: &M,
    scaled: &Frame<'s, '_, '_>,
    mark: &'s VgMark,
    found: &[MarkFacts],
    numbers: Numbers,
) -> Result<Placed, EvalError>
    requires sound { M.sound maker.now }
    requires frame { IsFrame scaled.now }
    requires marks { MayShow (marks_in (out-Group (out-VgMark mark.now).group)) found.now }
    requires object { KeepsObject (group_object numbers.number (out-VgMark mark.now)) }
    requires few { AreFew numbers.unit numbers.number (mark.now ∷ []) }
    requires group { is_group (out-VgMark mark.now) ≡ true }
    ensures value { Evaluates result (sized_plot (M.items maker.now) (frame_seen (M.lists maker.now) scaled.now)
        numbers.unit numbers.number (out-VgMark mark.now)
        (found_in_frame (M.lists maker.now) scaled.now 0 found.now)) }
    ensures legends { IfOk result HasLegends }
{
    let width = match encoded_number(alloc, scaled, mark, ChannelName::Width) {
        Ok(width) => size_cut(width),
        Err(error) => return Err(error),
    };
    let height = match encoded_number(alloc, scaled, mark, ChannelName::Height) {
        Ok(height) => size_cut(height),
        Err(error) => return Err(error),
    };
    let set = set_of(alloc, width, height, scaled.scales)?;
    let indexed = IndexedSet::of(alloc, &set)?;
    let sized = Frame {
        set: &indexed,
        width,
        height,
        ..*scaled
    };
    plot_view(alloc, maker, &sized, &mark.group, found, numbers)
}

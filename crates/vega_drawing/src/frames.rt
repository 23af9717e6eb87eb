// The copies of objects.
ghost use Rattle.std.specs.Prelude.{◌≡◌, ◌++◌, [], IfOk, map, unwrap_or};
ghost use Rattle.expr_eval.specs.Answers.{Evaluates};
ghost use Rattle.vega_spec.specs.declared.spec.VgMark.{out-VgMark};
ghost use Rattle.vega_copies.specs.inner.Outlined.{group_object};
ghost use Rattle.vega_drawing.specs.Scales.{with_domains, domain_length_here};
ghost use Rattle.vega_drawing.specs.Frames.{more_cells, encoded_number};
ghost use Rattle.vega_drawing.specs.inner.Framed.{unlisted, cells_seen, entered_by, IsFrame};
ghost use Rattle.vega_drawing.specs.inner.Kept.{scale_seen};
ghost use Rattle.vega_drawing.specs.inner.Levels.{values_over};

use crate::scales::{AxisHere, ScaleHere, scale_named};
use crate::values::ValuesAt;
use cell_value::{Cell, Steps};
use expr_eval::{EvalError, ParamReader, RowReader};
use fixed_num::Num;
use mark_encode::{ChannelName, IndexedSet, number_encoded};
use plot_scenes::Header;
use std::alloc::Global;
use std::sync::ledger::Ledger;
use text_kit::{OutOfMemory, Seq, Text, copy_list};
use vega_copies::Step;
use vega_scales::domain_size;
use vega_spec::VgMark;

/// A copy of an object: the top, or a copy of a group.
#[derive(Clone, Copy)]
pub struct Frame<'s, 'a, 'i> {
    /// The steps that lead to it from the top, the inner before the outer; of the top there are none.
    pub path: &'a [Step],
    /// The values of signals in it.
    pub values: ValuesAt<'a>,
    /// The scales that have names in it.
    pub scales: &'a [ScaleHere<'s, 'a>],
    /// The same, by their names, in its plot, each indexed once.
    pub set: &'a IndexedSet<'i>,
    /// The axes of the objects with a layout round it, the outer before the inner; those of a grid itself are among them.
    pub axes: &'a [AxisHere<'s, 'a>],
    /// The cells of the facets round it by their fields, the outer before the inner; None outside facets.
    pub cells: Option<&'a [(Text, Cell)]>,
    /// The headers of the facets in whose grids it stands, the inner before the outer.
    pub headers: &'a [Header],
    /// The width of its plot, in pixels; 0 where it is a grid, since grids stand in grids alone.
    pub width: Num,
    /// The height of its plot, in pixels; 0 where it is a grid.
    pub height: Num,
    /// How far its marks are moved to the right in its plot, in pixels.
    pub x: Num,
    /// How far they are moved down.
    pub y: Num,
}

/// How a copy of a group is entered from the copy round it.
#[derive(Clone, Copy)]
pub struct Entered<'a> {
    /// The steps that lead to it from the top, the inner before the outer.
    pub path: &'a [Step],
    /// The levels of signals in it, its own among them.
    pub levels: &'a [&'a Seq<(Text, Option<Cell>)>],
    /// The cells of the facets round it and its own; None outside facets.
    pub cells: Option<&'a [(Text, Cell)]>,
}

/// How a copy is entered by these steps, with these levels and cells.
pub(crate) fn entered_by<'x>(
    path: &'x [Step],
    levels: &'x [&'x Seq<(Text, Option<Cell>)>],
    cells: Option<&'x [(Text, Cell)]>,
) -> Entered<'x>
    ensures { result ≡ entered_by path.entry levels.entry cells.entry }
{
    Entered {
        path,
        levels,
        cells,
    }
}

/// What is read where a size is computed: the values of signals, and how long the domains of scales are.
#[derive(Clone, Copy)]
pub struct Sizing<'s, 'a> {
    /// The values of signals.
    pub values: ValuesAt<'a>,
    /// The scales that have names.
    pub scales: &'a [ScaleHere<'s, 'a>],
}

// How long the domain of the scale of a name is; 0 where there is none.
fn length_of(scales: &[ScaleHere], name: &str) -> u64
    ensures { result ≡ domain_length_here (map scale_seen scales.now) name.now }
{
    match scale_named(scales, name) {
        Some(scale) => domain_size(scale.kept.domain),
        None => 0,
    }
}

impl ParamReader for Sizing<'_, '_> {
    ghost values = { λ sizing. with_domains (map scale_seen sizing.scales.now) (values_over sizing.values.stores.now sizing.values.levels.now) };

    fn param(&self, alloc: Global, name: &str) -> Result<Cell, EvalError> {
        self.values.param(alloc, name)
    }

    fn member(&self, alloc: Global, name: &str, field: &str) -> Result<Cell, OutOfMemory> {
        self.values.member(alloc, name, field)
    }

    fn stored(&self, store: &str) -> u64 {
        self.values.stored(store)
    }

    fn selected<R: RowReader, L: Ledger>(
        &self,
        alloc: Global,
        store: &str,
        row: &R,
        steps: &mut Steps<L>,
    ) -> Result<bool, OutOfMemory> {
        self.values.selected(alloc, store, row, steps)
    }

    fn domain_length(&self, scale: &str) -> u64 {
        length_of(self.scales, scale)
    }
}

/// The cells of the facets round a copy, and its own behind them.
pub(crate) fn more_cells(
    alloc: Global,
    outer: Option<&[(Text, Cell)]>,
    own: &Option<Seq<(Text, Cell)>>,
) -> Result<Option<Seq<(Text, Cell)>>, OutOfMemory>
    ensures { IfOk result (λ cells. cells ≡ more_cells (cells_seen outer.entry) own.now) }
{
    match outer {
        Some(outer) => {
            let cells = cells_behind(alloc, outer, own)?;
            Ok(Some(cells))
        }
        None => cells_copied(alloc, slice_of(own)),
    }
}

// Cells, and optional ones behind them.
fn cells_behind(
    alloc: Global,
    outer: &[(Text, Cell)],
    own: &Option<Seq<(Text, Cell)>>,
) -> Result<Seq<(Text, Cell)>, OutOfMemory>
    ensures { IfOk result (λ cells. cells ≡ outer.now ++ unwrap_or own.now []) }
{
    let mut cells = copy_list(alloc, outer)?;
    match own {
        Some(own) => {
            cells.append(copy_list(alloc, own.as_slice())?)?;
            Ok(cells)
        }
        None => Ok(cells),
    }
}

/// The cells of the facets round a copy once more.
pub(crate) fn cells_copied(
    alloc: Global,
    cells: Option<&[(Text, Cell)]>,
) -> Result<Option<Seq<(Text, Cell)>>, OutOfMemory>
    ensures { IfOk result (λ copy. copy ≡ cells_seen cells.entry) }
{
    match cells {
        Some(cells) => Ok(Some(copy_list(alloc, cells)?)),
        None => Ok(None),
    }
}

// The cells of the facets round a copy; none outside facets.
fn cells_of(cells: Option<&[(Text, Cell)]>) -> &[(Text, Cell)]
    ensures { result.now ≡ unwrap_or (cells_seen cells.entry) [] }
{
    match cells {
        Some(cells) => cells,
        None => &[],
    }
}

/// The number that a group encodes in a channel, in a copy of it, over the cells of the facets round it and its own, and the scales by their
/// names; 0 where it encodes none. `Overflow` comes exactly where it is out of range.
pub(crate) fn encoded_number(
    alloc: Global,
    frame: &Frame,
    mark: &VgMark,
    channel: ChannelName,
) -> Result<Num, EvalError>
    requires frame { IsFrame frame.now }
    ensures { Evaluates result (encoded_number (unlisted frame.now) (group_object 0 (out-VgMark mark.now)) channel) }
{
    let sizing = Sizing {
        values: frame.values,
        scales: frame.scales,
    };
    number_encoded(
        alloc,
        frame.set,
        &mark.encode,
        channel,
        cells_of(frame.cells),
        &sizing,
    )
}

/// What optional cells hold, behind a reference.
pub(crate) fn slice_of(cells: &Option<Seq<(Text, Cell)>>) -> Option<&[(Text, Cell)]>
    ensures { cells_seen result ≡ cells.now }
{
    match cells {
        Some(cells) => Some(cells.as_slice()),
        None => None,
    }
}

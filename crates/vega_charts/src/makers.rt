// The items of marks over rows.
ghost use Rattle.std.specs.Prelude.{◌≡◌, IfOk};
ghost use Rattle.expr_eval.specs.Answers.{Evaluates};
ghost use Rattle.mark_encode.specs.Orders.{data_of};
ghost use Rattle.plain_rows.specs.Rows.{AreRows};
ghost use Rattle.vega_lists.specs.Held.{scope_read};
ghost use Rattle.vega_spec.specs.declared.spec.VgMark.{out-VgMark};
ghost use Rattle.vega_copies.specs.inner.Levels.{rows_at, rows_behind, AreNames, AreLevels};
ghost use Rattle.vega_copies.specs.inner.Outlined.{plain_of};
ghost use Rattle.vega_drawing.specs.inner.Framed.{frame_seen, IsFrame};
ghost use Rattle.vega_charts.specs.Items.{items_in_plot, items_in_copy, rows_of_mark};
ghost use Rattle.vega_charts.specs.inner.Rows.{frame_over, lists_of_rows, AreRowItems};

use cell_value::{Keyed, Named};
use expr_eval::{EvalError, Stores};
use mark_encode::{PlotHere, items_over_rows};
use scene_tree::{Item, moved_items};
use std::alloc::Global;
use text_kit::{OutOfMemory, Seq};
use vega_copies::{CopiesMade, Level, NamesAt, levels_on};
use vega_drawing::{Frame, MarkItems};
use vega_lists::ListReader;
use vega_spec::{MarkFrom, VgMark};

/// Who makes the items of marks over the rows of copies that were made.
#[derive(Clone, Copy)]
pub struct RowItems<'a> {
    /// The sources of rows.
    pub sources: &'a [Named],
    /// The names of the top.
    pub level: &'a Level,
    /// What was made of each mark of the top.
    pub made: &'a [CopiesMade],
}

/// The rows from which a mark comes, in a copy of the object that has it: those of its list, and none where it names no list. The only error
/// is refused memory.
pub fn rows_of_mark<'a>(
    alloc: Global,
    names: &'a NamesAt<'a>,
    from: &Option<MarkFrom>,
) -> Result<Seq<&'a Keyed>, OutOfMemory>
    requires { AreNames names.now }
    ensures read { IfOk result (λ rows. data_of rows
        ≡ rows_of_mark (scope_read (rows_at names.now.sources.now names.now.levels.now)) from.now) }
    ensures rows { IfOk result (λ rows. AreRows (rows_behind rows)) }
{
    match from {
        Some(MarkFrom::Data(name)) => names.rows(alloc, name.as_str()),
        Some(MarkFrom::Facet(_)) | None => Ok(Seq::new(alloc)),
    }
}

// The items of a mark in the plot of a copy of the object that has it, before they are moved.
fn items_in_plot(
    alloc: Global,
    names: &NamesAt,
    frame: &Frame,
    unit: u32,
    mark: &VgMark,
) -> Result<Seq<Item>, EvalError>
    requires names { AreNames names.now }
    requires frame { IsFrame frame.now }
    ensures { Evaluates result (items_in_plot (frame_over names.now frame.now) unit (plain_of (out-VgMark mark.now))
        (rows_of_mark (frame_over names.now frame.now).names.lists (plain_of (out-VgMark mark.now)).from)) }
{
    let rows = rows_of_mark(alloc, names, &mark.from)?;
    let plot = PlotHere {
        scales: frame.set,
        width: frame.width,
        height: frame.height,
    };
    items_over_rows(alloc, mark, unit, rows.as_slice(), &plot, &frame.values)
}

// The items of a mark in a copy of the object that has it.
fn items_in_copy(
    alloc: Global,
    names: &NamesAt,
    frame: &Frame,
    unit: u32,
    mark: &VgMark,
) -> Result<Seq<Item>, EvalError>
    requires names { AreNames names.now }
    requires frame { IsFrame frame.now }
    ensures { Evaluates result (items_in_copy unit (plain_of (out-VgMark mark.now)) (frame_over names.now frame.now)) }
{
    let items = match items_in_plot(alloc, names, frame, unit, mark) {
        Ok(items) => items,
        Err(error) => return Err(error),
    };
    match moved_items(alloc, items, frame.x, frame.y) {
        Some(items) => Ok(items),
        None => Err(EvalError::Overflow),
    }
}

// The same where these are the levels of names.
fn items_on_levels<'x>(
    alloc: Global,
    stores: &'x Stores<'x>,
    sources: &'x [Named],
    levels: &'x [&'x Level],
    frame: &Frame,
    unit: u32,
    mark: &VgMark,
) -> Result<Seq<Item>, EvalError>
    requires names { AreLevels sources.now levels.now }
    requires frame { IsFrame frame.now }
    ensures { Evaluates result (items_in_copy unit (plain_of (out-VgMark mark.now))
        (frame_seen (λ path. scope_read (rows_at sources.now levels.now)) frame.now)) }
{
    let names = NamesAt {
        stores,
        sources,
        levels,
    };
    items_in_copy(alloc, &names, frame, unit, mark)
}

impl MarkItems for RowItems<'_> {
    ghost sound = { AreRowItems };

    ghost lists = { lists_of_rows };

    ghost items = { λ rows. items_in_copy };

    fn items_of_mark(
        &self,
        alloc: Global,
        frame: &Frame,
        unit: u32,
        mark: &VgMark,
    ) -> Result<Seq<Item>, EvalError> {
        let levels = levels_on(alloc, self.level, self.made, frame.path)?;
        items_on_levels(
            alloc,
            frame.values.stores,
            self.sources,
            levels.as_slice(),
            frame,
            unit,
            mark,
        )
    }
}

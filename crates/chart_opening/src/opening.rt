//! Opening a specification.
ghost use Rattle.std.specs.Prelude.{◌≡◌, length, map, IfOk};
ghost use Rattle.cell_value.specs.State.{state_of};
ghost use Rattle.vega_meaning.specs.States.{IsStateOf};
ghost use Rattle.chart_opening.specs.Sources.{source_sets};
ghost use Rattle.chart_opening.specs.Opening.{state_within, opening_by};
ghost use Rattle.chart_opening.specs.inner.Folders.{IsRead};
ghost use Rattle.chart_opening.specs.inner.Reading.{the_reading};
ghost use Rattle.chart_opening.specs.inner.Rows.{state_read};
ghost use Rattle.chart_opening.specs.inner.Stops.{Gives};

use crate::refusal::{OpenStop, Refusal, StepStop};
use crate::rows::{all_read, all_rows, count_rows};
use crate::sources::source_sets;
use crate::states::state_with;
use cell_value::{ChartState, Row};
use chart_io::Folder;
use std::alloc::Global;
use text_kit::Seq;
use vega_spec::{DataSet, VgSpec};

// The state of a specification whose sources have these rows, unless there are more than a chart may have.
fn state_within(
    alloc: Global,
    g: &VgSpec,
    sets: &[&DataSet],
    rows: Seq<Seq<Row>>,
) -> Result<ChartState, StepStop>
    requires sets { map (λ s. s.now) sets.now ≡ source_sets g.now }
    requires number { length rows ≡ length sets.now }
    ensures { Gives result (state_within g.now rows) }
{
    match count_rows(rows.as_slice()) {
        Some(count) => Ok(state_with(alloc, g, sets, rows, count)?),
        None => Err(StepStop::Refused(Refusal::Rows)),
    }
}

// The state of a specification of whose sources this is read.
fn state_read(
    alloc: Global,
    g: &VgSpec,
    sets: &[&DataSet],
    read: Seq<Result<Seq<Row>, Refusal>>,
) -> Result<ChartState, StepStop>
    requires sets { map (λ s. s.now) sets.now ≡ source_sets g.now }
    requires number { length read ≡ length sets.now }
    ensures { Gives result (state_read g.now read) }
{
    match all_rows(alloc, read) {
        Ok(rows) => state_within(alloc, g, sets, rows),
        Err(why) => Err(why),
    }
}

/// The state in which a specification opens, whose files of data are read through the folder, or the first cause for which they are
/// refused: of all files first, in the order of the sources, then of their rows, then of the rows' count.
pub fn opening<F: Folder>(alloc: Global, folder: &mut F, g: &VgSpec) -> Result<ChartState, OpenStop>
    ensures read { IsRead (F.faults folder.old) (F.faults folder.new) (F.files folder.old) (F.files folder.new) result
        (λ files. opening_by the_reading files g.now) }
    ensures state { IfOk result (λ state. IsStateOf g.now (state_of state)) }
{
    let all = source_sets(alloc, g)?;
    let sets = all.as_slice();
    let read = match all_read(alloc, folder, sets) {
        Ok(read) => read,
        Err(why) => return Err(why),
    };
    Ok(state_read(alloc, g, sets, read)?)
}

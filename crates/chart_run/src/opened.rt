//! A file's chart, opened and drawn.
ghost use Rattle.std.specs.Prelude.{◌≤◌, IfErr, IfSome, IsErrOf};
ghost use Rattle.chart_io.specs.Outside.{Rose, Kept};
ghost use Rattle.cell_value.specs.State.{state_of};
ghost use Rattle.vega_copies.specs.Tested.{KeepsRules};
ghost use Rattle.vega_selections.specs.Kept.{KeepsSelections};
ghost use Rattle.vega_meaning.specs.States.{IsStateOf};
ghost use Rattle.plain_engine.specs.Engine.{meaning_of};
ghost use Rattle.chart_opening.specs.Charts.{drawn_of, drawn_by};
ghost use Rattle.chart_opening.specs.inner.Reading.{the_reading};
ghost use Rattle.chart_run.specs.inner.Stops.{Meets, meant_of, IsOpenStop};

use crate::stop::{RunStop, stop_at};
use chart_io::Folder;
use chart_opening::{Opened, Refusal, opened_file};
use plain_engine::PlainEngine;
use std::alloc::Global;
use vega_meaning::OpenError;

// An engine of what is opened.
fn engine_of(alloc: Global, opened: Opened) -> Result<PlainEngine, RunStop>
    requires rules { KeepsRules opened.spec }
    requires selections { KeepsSelections opened.spec }
    requires state { IsStateOf opened.spec (state_of opened.state) }
    ensures told { Meets meaning_of result (meant_of (drawn_of opened)) }
    ensures stop { IfErr result IsOpenStop }
    ensures read { IsErrOf result RunStop.Read → ⊥ }
{
    match PlainEngine::open(alloc, opened.spec, opened.state) {
        Ok(engine) => Ok(engine),
        Err(OpenError::Overflow) => Err(RunStop::Refused(Refusal::Overflow)),
        Err(OpenError::Panels(count)) => Err(RunStop::Refused(Refusal::Panels(count))),
        Err(OpenError::Memory) => Err(RunStop::Memory),
    }
}

/// An engine of the chart that the file of this name specifies, in its opening state, or why there is none: the first cause that refuses
/// the files or the chart, only and wherever it holds, unless a read failed or memory was refused; `Read` only where the folder's
/// count of faults rose.
pub fn drawn_file<F: Folder>(
    alloc: Global,
    name: &str,
    folder: &mut F,
) -> Result<PlainEngine, RunStop>
    ensures counted { F.faults folder.old ≤ F.faults folder.new }
    ensures stays { Kept (F.files folder.old) (F.files folder.new) }
    ensures read { IsErrOf result RunStop.Read → Rose (F.faults folder.old) (F.faults folder.new) }
    ensures told { IfSome (F.files folder.old) (λ files. Meets meaning_of result (meant_of (drawn_by the_reading files name.now))) }
    ensures stop { IfErr result IsOpenStop }
{
    match opened_file(alloc, name, folder) {
        Ok(opened) => engine_of(alloc, opened),
        Err(cause) => Err(stop_at(cause)),
    }
}

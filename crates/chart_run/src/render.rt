//! `render`: a file becomes a picture.
ghost use Rattle.std.specs.Prelude.{◌≤◌, None, Some, [], IfErr, IfSome, IsErrOf, OnOk};
ghost use Rattle.std.specs.Result.{result_err};
ghost use Rattle.chart_io.specs.Outside.{Rose, Kept, Appended, AppendedPrefix};
ghost use Rattle.scene_tree.specs.Outcome.{IsDrawn};
ghost use Rattle.play_script.specs.Meaning.{chart_in};
ghost use Rattle.chart_run.specs.Words.{Render};
ghost use Rattle.chart_run.specs.Wanted.{IsAccepted};
ghost use Rattle.chart_run.specs.Ends.{IsEnd};
ghost use Rattle.chart_opening.specs.inner.Reading.{the_reading};
ghost use Rattle.chart_run.specs.inner.Stops.{end_of, IsPrintStop, IsOpenOrPrintStop};
ghost use Rattle.chart_run.specs.inner.Runs.{IsTexted};

use crate::opened::drawn_file;
use crate::stop::RunStop;
use chart_io::{Folder, Sink};
use play_script::{Engine, PrintError};
use std::alloc::Global;

// Writes the chart of an engine.
fn printed<E: Engine, K: Sink>(engine: &E, out: &mut K) -> Result<(), RunStop>
    ensures counted { K.faults out.old ≤ K.faults out.new }
    ensures write { IsErrOf result RunStop.Write → Rose (K.faults out.old) (K.faults out.new) }
    ensures stop { IfErr result IsPrintStop }
    ensures ok { OnOk result (IsDrawn (chart_in (E.meaning engine.now)) (Appended (K.held out.old) (K.held out.new))) }
    ensures prefix { IsDrawn (chart_in (E.meaning engine.now)) (AppendedPrefix (K.held out.old) (K.held out.new)) }
{
    match engine.print(out) {
        Ok(()) => Ok(()),
        Err(PrintError::Write) => Err(RunStop::Write),
        Err(PrintError::Memory) => Err(RunStop::Memory),
    }
}

/// Writes the picture of the file of this name, or says why not, as `drawn_file` does; `Write` comes only where the output's count
/// of faults rose. Only with Ok, `Write` and `Memory` is anything written: the whole picture, or a beginning of it.
pub fn render<F: Folder, K: Sink>(
    alloc: Global,
    name: &str,
    folder: &mut F,
    out: &mut K,
) -> Result<(), RunStop>
    ensures folder_counted { F.faults folder.old ≤ F.faults folder.new }
    ensures out_counted { K.faults out.old ≤ K.faults out.new }
    ensures stays { Kept (F.files folder.old) (F.files folder.new) }
    ensures stop { IfErr result IsOpenOrPrintStop }
    ensures ends { IsEnd the_reading (Some (Render name.now)) (F.files folder.old) None None (Unit {0})
        (Kept (K.held out.old) (K.held out.new)) (Rose (F.faults folder.old) (F.faults folder.new)) (Unit {0})
        (Rose (K.faults out.old) (K.faults out.new)) (end_of (result_err result)) }
    ensures text { IfSome (F.files folder.old) (λ files. IsAccepted the_reading (Render name.now) files
        → IsTexted (Render name.now) files [] result (K.held out.old) (K.held out.new)) }
    ensures nothing { IfSome (F.files folder.old) (λ files. (IsAccepted the_reading (Render name.now) files → ⊥)
        → Kept (K.held out.old) (K.held out.new)) }
{
    let engine = match drawn_file(alloc, name, folder) {
        Ok(engine) => engine,
        Err(stop) => return Err(stop),
    };
    printed(&engine, out)
}

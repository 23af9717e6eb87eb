//! `compile`: a file becomes the text of its Vega specification.
ghost use Rattle.std.specs.Prelude.{◌≡◌, ◌≤◌, None, Some, [], IfOk, IfErr, IfSome, IsErrOf, OnOk};
ghost use Rattle.std.specs.Result.{result_err};
ghost use Rattle.chart_io.specs.Outside.{Rose, Kept, Appended, AppendedPrefix};
ghost use Rattle.chart_run.specs.Words.{Compile};
ghost use Rattle.chart_run.specs.Wanted.{vega_text, IsAccepted};
ghost use Rattle.chart_run.specs.Ends.{IsEnd};
ghost use Rattle.chart_opening.specs.inner.Reading.{the_reading};
ghost use Rattle.chart_run.specs.inner.Stops.{end_of, IsPrintStop, IsOpenOrPrintStop};
ghost use Rattle.chart_run.specs.inner.Runs.{IsTexted};

use crate::stop::{RunStop, stop_at};
use chart_io::{Folder, Sink, WriteFault, write_all};
use chart_opening::{Opened, compiled_file};
use std::alloc::Global;
use text_kit::{OutOfMemory, Text};

// The text of a Vega specification, and a line feed.
fn vega_text(alloc: Global, opened: &Opened) -> Result<Text, OutOfMemory>
    ensures { IfOk result (λ text. text ≡ vega_text opened.now) }
{
    let tree = vega_model::write(alloc, &opened.spec)?;
    let mut text = json_exact::write(alloc, &tree)?;
    text.push_str("\n")?;
    Ok(text)
}

// Writes the text of a Vega specification.
fn written<K: Sink>(alloc: Global, opened: &Opened, out: &mut K) -> Result<(), RunStop>
    ensures counted { K.faults out.old ≤ K.faults out.new }
    ensures write { IsErrOf result RunStop.Write → Rose (K.faults out.old) (K.faults out.new) }
    ensures stop { IfErr result IsPrintStop }
    ensures ok { OnOk result (Appended (K.held out.old) (K.held out.new) (vega_text opened.now)) }
    ensures prefix { AppendedPrefix (K.held out.old) (K.held out.new) (vega_text opened.now) }
{
    let text = vega_text(alloc, opened)?;
    match write_all(out, text.as_str().as_bytes()) {
        Ok(()) => Ok(()),
        Err(WriteFault) => Err(RunStop::Write),
    }
}

/// Writes the text of the Vega specification to which the file of this name is compiled, and a line feed; or says why not: the first cause
/// that refuses the files, only and wherever it holds, unless a read failed or memory was refused. `Write` comes only where the
/// output's count of faults rose. Only with Ok, `Write` and `Memory` is anything written: the whole text, or a beginning of it.
pub fn compile<F: Folder, K: Sink>(
    alloc: Global,
    name: &str,
    folder: &mut F,
    out: &mut K,
) -> Result<(), RunStop>
    ensures folder_counted { F.faults folder.old ≤ F.faults folder.new }
    ensures out_counted { K.faults out.old ≤ K.faults out.new }
    ensures stays { Kept (F.files folder.old) (F.files folder.new) }
    ensures stop { IfErr result IsOpenOrPrintStop }
    ensures ends { IsEnd the_reading (Some (Compile name.now)) (F.files folder.old) None None (Unit {0})
        (Kept (K.held out.old) (K.held out.new)) (Rose (F.faults folder.old) (F.faults folder.new)) (Unit {0})
        (Rose (K.faults out.old) (K.faults out.new)) (end_of (result_err result)) }
    ensures text { IfSome (F.files folder.old) (λ files. IsAccepted the_reading (Compile name.now) files
        → IsTexted (Compile name.now) files [] result (K.held out.old) (K.held out.new)) }
    ensures nothing { IfSome (F.files folder.old) (λ files. (IsAccepted the_reading (Compile name.now) files → ⊥)
        → Kept (K.held out.old) (K.held out.new)) }
{
    let opened = match compiled_file(alloc, name, folder) {
        Ok(opened) => opened,
        Err(cause) => return Err(stop_at(cause)),
    };
    written(alloc, &opened, out)
}

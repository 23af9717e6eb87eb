//! `play`: a script is played over a file's chart.
ghost use Rattle.std.specs.Prelude.{◌≡◌, ◌≤◌, ◌↔◌, Some, ℕ, List, IfSome, IsErrOf, Err};
ghost use Rattle.std.specs.Result.{result_err};
ghost use Rattle.chart_io.specs.Outside.{Rose, Kept};
ghost use Rattle.play_script.specs.declared.errors.PlayError.TheVariants as error;
ghost use Rattle.play_script.specs.Meaning.{IsReplyIn};
ghost use Rattle.play_script.specs.Played.{output_alone, IsPlayed, HasTaken, IsPastSize};
ghost use Rattle.chart_run.specs.Words.{Play};
ghost use Rattle.chart_run.specs.Wanted.{IsAccepted};
ghost use Rattle.chart_run.specs.Ends.{IsEnd};
ghost use Rattle.chart_opening.specs.inner.Reading.{the_reading};
ghost use Rattle.chart_run.specs.inner.Stops.{end_of, handed, stop_of};
ghost use Rattle.chart_run.specs.inner.Runs.{IsTexted, IsRepliedSo};

use crate::opened::drawn_file;
use crate::stop::RunStop;
use cell_value::Steps;
use chart_io::{Folder, Sink, Source};
use play_script::{Engine, PlayError};
use std::alloc::Global;
use std::marker::Brand;
use std::sync::ledger::{Blank, Ledger};

// Why a run stops where playing stops so.
fn stop_of(error: PlayError) -> RunStop
    ensures { result ≡ stop_of error }
{
    match error {
        PlayError::Read => RunStop::Read,
        PlayError::Write => RunStop::Write,
        PlayError::Size => RunStop::ScriptSize,
        PlayError::Memory => RunStop::Memory,
    }
}

// What playing answers, as what a run answers.
fn handed(answer: Result<(), PlayError>) -> Result<(), RunStop>
    ensures { result ≡ handed answer }
{
    match answer {
        Ok(()) => Ok(()),
        Err(error) => Err(stop_of(error)),
    }
}

// Plays a script over an engine, with a counter of steps that this blank opens.
fn play_counted<E: Engine, S: Source, K: Sink, N: Sink, L: Ledger>(
    alloc: Global,
    engine: &mut E,
    script: &mut S,
    out: &mut K,
    notes: &mut N,
    blank: Blank,
) -> Result<(), PlayError>
    requires name { blank.name ≡ L.name }
    requires parts { blank.parts ≡ L.parts }
    ensures script_counted { S.faults script.old ≤ S.faults script.new }
    ensures out_counted { K.faults out.old ≤ K.faults out.new }
    ensures read { IsErrOf result error.Read → Rose (S.faults script.old) (S.faults script.new) }
    ensures write { IsErrOf result error.Write → Rose (K.faults out.old) (K.faults out.new) }
    ensures size { IfSome (S.left script.old) (λ bytes. (result ≡ Err error.Size) ↔ IsPastSize bytes (S.left script.new)) }
    ensures played { (taken : List ℕ) × HasTaken (S.left script.old) (S.left script.new) taken
        × IfSome (S.left script.old) (λ bytes. IsPlayed IsReplyIn bytes taken (E.meaning engine.old) (E.meaning engine.new)
        (output_alone (K.held out.old)) (output_alone (K.held out.new)) result) }
    ensures notes { notes.new ≡ notes.old }
{
    let mut steps = Steps::<L>::open(blank);
    play_script::play(alloc, engine, script, out, notes, false, &mut steps)
}

// Plays a script over an engine. The counter of steps has one part, as nobody shares it.
fn play_over<E: Engine, S: Source, K: Sink, N: Sink>(
    alloc: Global,
    engine: &mut E,
    script: &mut S,
    out: &mut K,
    notes: &mut N,
) -> Result<(), PlayError>
    ensures script_counted { S.faults script.old ≤ S.faults script.new }
    ensures out_counted { K.faults out.old ≤ K.faults out.new }
    ensures read { IsErrOf result error.Read → Rose (S.faults script.old) (S.faults script.new) }
    ensures write { IsErrOf result error.Write → Rose (K.faults out.old) (K.faults out.new) }
    ensures size { IfSome (S.left script.old) (λ bytes. (result ≡ Err error.Size) ↔ IsPastSize bytes (S.left script.new)) }
    ensures played { (taken : List ℕ) × HasTaken (S.left script.old) (S.left script.new) taken
        × IfSome (S.left script.old) (λ bytes. IsPlayed IsReplyIn bytes taken (E.meaning engine.old) (E.meaning engine.new)
        (output_alone (K.held out.old)) (output_alone (K.held out.new)) result) }
    ensures notes { notes.new ≡ notes.old }
{
    play_counted::<E, S, K, N, Brand>(alloc, engine, script, out, notes, Blank::new(1))
}

/// Plays a script over the chart of the file of this name, or says why not, as `drawn_file` does. `Read` comes only where the
/// folder's or the script's count of faults rose, `Write` only where the output's did, `ScriptSize` exactly where more than
/// 268,435,456 bytes of the script were taken. Where the files or the chart are refused, nothing is written and the script isn't read.
/// Else the replies are written: with Ok all of them, and the script was read to its end; after `Read` and `ScriptSize` those to
/// the lines that ended within what was taken; after any other error a beginning of them.
pub fn play<F: Folder, S: Source, K: Sink, N: Sink>(
    alloc: Global,
    name: &str,
    folder: &mut F,
    script: &mut S,
    out: &mut K,
    notes: &mut N,
) -> Result<(), RunStop>
    ensures folder_counted { F.faults folder.old ≤ F.faults folder.new }
    ensures script_counted { S.faults script.old ≤ S.faults script.new }
    ensures out_counted { K.faults out.old ≤ K.faults out.new }
    ensures notes { notes.new ≡ notes.old }
    ensures stays { Kept (F.files folder.old) (F.files folder.new) }
    ensures words { IsErrOf result RunStop.Words → ⊥ }
    ensures taken { (taken : List ℕ) × HasTaken (S.left script.old) (S.left script.new) taken }
    ensures script_size { IfSome (S.left script.old) (λ bytes. (result ≡ Err RunStop.ScriptSize) ↔ IsPastSize bytes (S.left script.new)) }
    ensures ends { IsEnd the_reading (Some (Play name.now)) (F.files folder.old) (S.left script.old) (S.left script.new) (script.new ≡ script.old)
        (Kept (K.held out.old) (K.held out.new)) (Rose (F.faults folder.old) (F.faults folder.new))
        (Rose (S.faults script.old) (S.faults script.new))
        (Rose (K.faults out.old) (K.faults out.new)) (end_of (result_err result)) }
    ensures text { IfSome (F.files folder.old) (λ files. IfSome (S.left script.old) (λ script_bytes. IsAccepted the_reading (Play name.now) files
        → IsTexted (Play name.now) files script_bytes result (K.held out.old) (K.held out.new))) }
    ensures replied { IfSome (F.files folder.old) (λ files. IfSome (S.left script.old) (λ script_bytes.
        IsRepliedSo (Play name.now) files script_bytes (S.left script.new) result (K.held out.old) (K.held out.new))) }
    ensures nothing { IfSome (F.files folder.old) (λ files. (IsAccepted the_reading (Play name.now) files → ⊥)
        → Kept (K.held out.old) (K.held out.new) × (script.new ≡ script.old)) }
{
    let mut engine = match drawn_file(alloc, name, folder) {
        Ok(engine) => engine,
        Err(stop) => return Err(stop),
    };
    handed(play_over(alloc, &mut engine, script, out, notes))
}

// What the words of a run ask, done.
ghost use Rattle.std.specs.Prelude.{◌≡◌, ◌≤◌, ◌↔◌, None, List, ℕ, IfSome, Err};
ghost use Rattle.std.specs.Result.{result_err};
ghost use Rattle.chart_io.specs.Outside.{Rose, Kept};
ghost use Rattle.play_script.specs.Played.{HasTaken, IsPastSize};
ghost use Rattle.chart_opening.specs.inner.Reading.{the_reading};
ghost use Rattle.chart_run.specs.Words.{asked_in};
ghost use Rattle.chart_run.specs.Wanted.{IsAccepted, script_for};
ghost use Rattle.chart_run.specs.Ends.{IsEnd, Told, AsksScript};
ghost use Rattle.chart_run.specs.inner.Stops.{end_of};
ghost use Rattle.chart_run.specs.inner.Runs.{IsTexted, IsRepliedSo};

use crate::compile::compile;
use crate::play::play;
use crate::render::render;
use crate::stop::RunStop;
use crate::words::{Asked, asked_of};
use chart_io::{Folder, Sink, Source};
use std::alloc::Global;

/// Does what the words after the program's name ask, or says why not: `Words` exactly where they are no form of words; `Refused` with the
/// first cause that refuses the files, only and wherever it holds, unless a read failed or memory was refused; `Read` only where the
/// folder's or the script's count of faults rose, `Write` only where the output's did; `ScriptSize` exactly where more than 268,435,456
/// bytes of the script were taken. After these two the replies to the lines that ended are written. Where files are refused nothing is
/// written and no script is read. Nothing is written to the notes.
pub fn run<F: Folder, S: Source, K: Sink, N: Sink>(
    alloc: Global,
    words: &Vec<String>,
    folder: &mut F,
    script: &mut S,
    out: &mut K,
    notes: &mut N,
) -> Result<(), RunStop>
    ensures folder_counted { F.faults folder.old ≤ F.faults folder.new }
    ensures script_counted { S.faults script.old ≤ S.faults script.new }
    ensures out_counted { K.faults out.old ≤ K.faults out.new }
    ensures notes { notes.new ≡ notes.old }
    ensures stays { Kept (F.files folder.old) (F.files folder.new) }
    ensures words { (result ≡ Err RunStop.Words) ↔ (asked_in words.now.items ≡ None) }
    ensures ends { IsEnd the_reading (asked_in words.now.items) (F.files folder.old) (S.left script.old) (S.left script.new)
        (script.new ≡ script.old)
        (Kept (K.held out.old) (K.held out.new)) (Rose (F.faults folder.old) (F.faults folder.new))
        (Rose (S.faults script.old) (S.faults script.new))
        (Rose (K.faults out.old) (K.faults out.new)) (end_of (result_err result)) }
    ensures text { Told (asked_in words.now.items) (F.files folder.old) (λ ask files. IfSome (script_for ask (S.left script.old))
        (λ script. IsAccepted the_reading ask files → IsTexted ask files script result (K.held out.old) (K.held out.new))) }
    ensures replied { Told (asked_in words.now.items) (F.files folder.old) (λ ask files. IfSome (script_for ask (S.left script.old))
        (λ bytes. IsRepliedSo ask files bytes (S.left script.new) result (K.held out.old) (K.held out.new))) }
    ensures nothing { Told (asked_in words.now.items) (F.files folder.old) (λ ask files. (IsAccepted the_reading ask files → ⊥)
        → Kept (K.held out.old) (K.held out.new) × (script.new ≡ script.old)) }
    ensures script_size { IfSome (S.left script.old) (λ bytes. (result ≡ Err RunStop.ScriptSize) ↔ IsPastSize bytes (S.left script.new)) }
    ensures taken { (taken : List ℕ) × HasTaken (S.left script.old) (S.left script.new) taken }
    ensures script { (AsksScript (asked_in words.now.items) → ⊥) → script.new ≡ script.old }
    ensures folder { asked_in words.now.items ≡ None → folder.new ≡ folder.old }
{
    match asked_of(words) {
        Some(Asked::Render(name)) => render(alloc, name, folder, out),
        Some(Asked::Play(name)) => play(alloc, name, folder, script, out, notes),
        Some(Asked::Compile(name)) => compile(alloc, name, folder, out),
        None => Err(RunStop::Words),
    }
}

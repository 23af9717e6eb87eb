//! The top call: what the program does with its words.
ghost use Rattle.std.specs.Prelude.{◌≡◌, ◌≤◌, ◌↔◌, ◌⊎◌, None, List, ℕ, IfSome, Err};
ghost use Rattle.std.specs.Result.{result_err};
ghost use Rattle.chart_io.specs.Outside.{Rose, Kept};
ghost use Rattle.play_script.specs.Played.{HasTaken, IsPastSize};
ghost use Rattle.chart_opening.specs.declared.refusal.Refusal.{Refusal as Cause};
ghost use Rattle.chart_opening.specs.Texts.{Reading, ReadsJson};
ghost use Rattle.chart_run.specs.Words.{asked_in};
ghost use Rattle.chart_run.specs.Refusals.{refusal_status, IsRefused};
ghost use Rattle.chart_run.specs.Wanted.{IsAccepted, IsAnswered, MayFail, script_for};
ghost use Rattle.chart_run.specs.Ends.{End, Refused, NoMemory, end_status, end_note, IsEnd, IsNoted, Told, AsksScript};
ghost use Rattle.chart_run.specs.inner.Stops.{IsTold};

use chart_io::{Folder, Sink, Source, write_all};
use chart_opening::Refusal;
use chart_run::{RunStop, refusal_line, refusal_status, run};
use std::alloc::Global;
use text_kit::OutOfMemory;

// The status of a run that ends so, and its line on the notes. A note that can't be written is no failure.
fn noted<N: Sink>(status: u8, line: &[u8], notes: &mut N) -> u8
    ensures status { result ≡ status }
    ensures counted { N.faults notes.old ≤ N.faults notes.new }
    ensures noted { IsNoted (N.faults notes.old) (N.faults notes.new) (N.held notes.old) (N.held notes.new) line.now }
{
    let _ = write_all(notes, line);
    status
}

// The status of a run over files that are refused, and its line on the notes; without memory for that it ends for want of memory.
fn refused<N: Sink>(alloc: Global, why: &Refusal, notes: &mut N) -> u8
    ensures counted { N.faults notes.old ≤ N.faults notes.new }
    ensures ended { (end : End) × ((end ≡ Refused why.now) ⊎ (end ≡ NoMemory)) × (result ≡ end_status end)
        × IsNoted (N.faults notes.old) (N.faults notes.new) (N.held notes.old) (N.held notes.new) (end_note end) }
{
    match refusal_line(alloc, why) {
        Ok(line) => noted(refusal_status(why), line.as_str().as_bytes(), notes),
        Err(OutOfMemory) => noted(9, b"chart: memory\n", notes),
    }
}

// The status of a run, and a line on the notes where it was stopped.
fn ended<N: Sink>(alloc: Global, done: Result<(), RunStop>, notes: &mut N) -> u8
    ensures counted { N.faults notes.old ≤ N.faults notes.new }
    ensures ended { (end : End) × IsTold (result_err done) end × (result ≡ end_status end)
        × IsNoted (N.faults notes.old) (N.faults notes.new) (N.held notes.old) (N.held notes.new) (end_note end) }
{
    match done {
        Ok(()) => noted(0, b"", notes),
        Err(RunStop::Words) => noted(1, b"chart: words\n", notes),
        Err(RunStop::Refused(why)) => refused(alloc, &why, notes),
        Err(RunStop::Read) => noted(7, b"chart: read\n", notes),
        Err(RunStop::Write) => noted(8, b"chart: write\n", notes),
        Err(RunStop::Memory) => noted(9, b"chart: memory\n", notes),
        Err(RunStop::ScriptSize) => noted(10, b"chart: size script\n", notes),
    }
}

/// Does what the words after the program's name ask, and gives the status that the program ends with: 0 done (for `play`, the script was
/// read to its end), 1 no form of words, 2 no such file, 3 no JSON text, 4 a fault of a specification or one of Vega-Lite whose compiled form
/// isn't drawn, 5 a bad row of opening data, 6 a number of the opening chart out of range, 7 the folder or the script could not be read, 8 the output
/// could not be written, 9 memory was refused, 10 a file has more than 16,777,216 bytes, there are more than 200,000 opening rows, or more than
/// 268,435,456 bytes of the script were taken, 11 more than 400 plots of the opening chart stand in facets.
pub fn chart_main<F: Folder, S: Source, K: Sink, N: Sink>(
    alloc: Global,
    words: &Vec<String>,
    folder: &mut F,
    script: &mut S,
    out: &mut K,
    notes: &mut N,
) -> u8
    // Status 1 comes exactly where the words are no form of words.
    ensures words { (result ≡ 1) ↔ (asked_in words.now.items ≡ None) }

    // The run has an end, which gives the status and the line on the notes. A refusal is true of words and files, and
    // nothing was then written, nor any script read; a fault comes only where a count rose.
    ensures ends { (reading : Reading) → ReadsJson reading → (end : End) × (result ≡ end_status end)
        × IsNoted (N.faults notes.old) (N.faults notes.new) (N.held notes.old) (N.held notes.new) (end_note end)
        × IsEnd reading (asked_in words.now.items) (F.files folder.old) (S.left script.old) (S.left script.new) (script.new ≡ script.old)
        (Kept (K.held out.old) (K.held out.new)) (Rose (F.faults folder.old) (F.faults folder.new))
        (Rose (S.faults script.old) (S.faults script.new))
        (Rose (K.faults out.old) (K.faults out.new)) end }

    // Where the folder tells its files, each refusal that holds brings its status, unless reading failed (7) or memory was refused (9).
    ensures refused { (reading : Reading) → ReadsJson reading → IfSome (F.files folder.old) (λ files. (why : Cause)
        → IsRefused reading (asked_in words.now.items) files why
        → (result ≡ refusal_status why) ⊎ ((result ≡ 7) ⊎ (result ≡ 9))) }

    // The end-to-end theorem: over files that are accepted there is a text that is wanted, and what is appended begins it; with status 0
    // all of it; where the script couldn't be read on or is too long, the replies to the lines that ended within what was taken of it;
    // with a script within its size and without a fault the status is 0, or 9.
    ensures answered { (reading : Reading) → ReadsJson reading → Told (asked_in words.now.items) (F.files folder.old)
        (λ ask files. IfSome (script_for ask (S.left script.old))
        (λ bytes. IsAccepted reading ask files → IsAnswered reading ask files bytes (S.left script.new) result (K.held out.old) (K.held out.new)
        (MayFail ask (Rose (F.faults folder.old) (F.faults folder.new)) (Rose (S.faults script.old) (S.faults script.new))
        (Rose (K.faults out.old) (K.faults out.new))))) }

    // Over any other nothing is written, and no script is read.
    ensures nothing { (reading : Reading) → ReadsJson reading → Told (asked_in words.now.items) (F.files folder.old)
        (λ ask files. (IsAccepted reading ask files → ⊥) → Kept (K.held out.old) (K.held out.new) × (script.new ≡ script.old)) }

    // A script of which too many bytes were taken brings status 10. What was taken and what is left are the script,
    // which stays where the words ask for none.
    ensures script_size { IfSome (S.left script.old) (λ bytes. IsPastSize bytes (S.left script.new) → result ≡ 10) }
    ensures taken { (taken : List ℕ) × HasTaken (S.left script.old) (S.left script.new) taken }
    ensures script { (AsksScript (asked_in words.now.items) → ⊥) → script.new ≡ script.old }

    // Status 7 comes only where the count of the folder or of the script rose, and 8 only where that of the output did: over objects
    // that never fail there is neither.
    ensures read_fault { result ≡ 7 → Rose (F.faults folder.old) (F.faults folder.new) ⊎ Rose (S.faults script.old) (S.faults script.new) }
    ensures write_fault { result ≡ 8 → Rose (K.faults out.old) (K.faults out.new) }

    // The folder tells what it told, wrong words leave it alone, and no count falls.
    ensures stays { Kept (F.files folder.old) (F.files folder.new) }
    ensures folder { asked_in words.now.items ≡ None → folder.new ≡ folder.old }
    ensures folder_counted { F.faults folder.old ≤ F.faults folder.new }
    ensures script_counted { S.faults script.old ≤ S.faults script.new }
    ensures out_counted { K.faults out.old ≤ K.faults out.new }
    ensures notes_counted { N.faults notes.old ≤ N.faults notes.new }
{
    let done = run(alloc, words, folder, script, out, notes);
    ended(alloc, done, notes)
}

// Scripts, played.
ghost use Rattle.std.specs.Prelude.{◌≡◌, ◌≤◌, ◌<◌, ◌+◌, ◌↔◌, ◌⊎◌, ℕ, List, [], length, IfSome, IfOk, IfErr, IsErrOf, Err};
ghost use Rattle.chart_io.specs.Outside.{Rose, Kept, Moved};
ghost use Rattle.param_flow.specs.Script.{most_script_bytes};
ghost use Rattle.play_script.specs.declared.errors.PlayError.TheVariants.{Read, Write, Size, Memory};
ghost use Rattle.play_script.specs.Played.{sinks, IsReached, IsPlayed, HasTaken, IsPastSize};
ghost use Rattle.play_script.specs.inner.Pending.{Keeps};
ghost use Rattle.play_script.specs.inner.Progress.{PlayedSo};

use crate::lines::{answer_line, take_piece};
use crate::pending::Pending;
use crate::{Lines, PlayError};
use cell_value::Steps;
use chart_io::{Failed, Sink, Source, zeros};
use std::alloc::Global;
use std::sync::ledger::Ledger;
use text_kit::OutOfMemory;

/// How many bytes a script may have.
const MOST_SCRIPT_BYTES: usize = 268_435_456;

/// How many bytes are read at a time.
const PIECE_BYTES: usize = 65_536;

// Reads at most so many of the next bytes of a script into the buffer.
fn read_some<S: Source>(script: &mut S, buffer: &mut [u8], most: usize) -> Result<usize, PlayError>
    requires some { 0 < most }
    requires room { most ≤ length buffer.old }
    ensures counted { S.faults script.old ≤ S.faults script.new }
    ensures len { length buffer.new ≡ length buffer.old }
    ensures read { IfErr result
        (λ cause. (cause ≡ Read) × Rose (S.faults script.old) (S.faults script.new) × Kept (S.left script.old) (S.left script.new)) }
    ensures within { IfOk result (λ n. n ≤ most) }
    ensures moved { IfOk result (Moved (S.left script.old) (S.left script.new) buffer.new) }
{
    match script.read(&mut buffer[..most]) {
        Ok(n) => Ok(n),
        Err(Failed) => Err(PlayError::Read),
    }
}

// Reads the next bytes of a script into the buffer, as far as the script may go on, and counts them. Where it may not go on, one byte
// more is read, which says whether it does.
fn read_piece<S: Source>(
    script: &mut S,
    buffer: &mut [u8],
    taken: &mut usize,
) -> Result<usize, PlayError>
    requires some { 0 < length buffer.old }
    requires few { taken.old ≤ most_script_bytes }
    ensures counted { S.faults script.old ≤ S.faults script.new }
    ensures len { length buffer.new ≡ length buffer.old }
    ensures read { IsErrOf result Read → Rose (S.faults script.old) (S.faults script.new) }
    ensures stop { IfErr result (λ cause. (cause ≡ Read) ⊎ (cause ≡ Size)) }
    ensures within { IfOk result (λ n. n ≤ length buffer.new) }
    ensures taken { IfOk result (λ n. (taken.new ≡ taken.old + n) × (taken.new ≤ most_script_bytes)) }
    ensures moved { IfOk result (Moved (S.left script.old) (S.left script.new) buffer.new) }
    ensures kept { IsErrOf result Read → Kept (S.left script.old) (S.left script.new) }
    ensures size { IsErrOf result Size → (taken.old ≡ most_script_bytes) × Moved (S.left script.old) (S.left script.new) buffer.new 1 }
{
    let most = (MOST_SCRIPT_BYTES - *taken).max(1).min(buffer.len());
    let n = match read_some(script, buffer, most) {
        Ok(n) => n,
        Err(cause) => return Err(cause),
    };
    if n > MOST_SCRIPT_BYTES - *taken {
        return Err(PlayError::Size);
    }
    *taken += n;
    Ok(n)
}

// Plays a script by way of a buffer and of a line of which nothing was read.
fn play_pieces<T, R: Lines<T>, S: Source, K: Sink, N: Sink, L: Ledger>(
    alloc: Global,
    rules: &R,
    target: &mut T,
    script: &mut S,
    buffer: &mut [u8],
    line: &mut Pending,
    out: &mut K,
    notes: &mut N,
    steps: &mut Steps<L>,
) -> Result<(), PlayError>
    requires some { 0 < length buffer.old }
    requires first { Keeps line.old [] × (line.old.number ≡ 1) }
    ensures script_counted { S.faults script.old ≤ S.faults script.new }
    ensures out_counted { K.faults out.old ≤ K.faults out.new }
    ensures notes_counted { N.faults notes.old ≤ N.faults notes.new }
    ensures steps { steps.old ≤ steps.new }
    ensures read { IsErrOf result Read → Rose (S.faults script.old) (S.faults script.new) }
    ensures write { IsErrOf result Write → Rose (K.faults out.old) (K.faults out.new) }
    ensures played { PlayedSo R.replies (S.left script.old) (S.left script.new) (R.state target.old) (R.state target.new)
        (sinks (K.held out.old) (N.held notes.old) (N.faults notes.old))
        (sinks (K.held out.new) (N.held notes.new) (N.faults notes.new)) result }
{
    let mut taken = 0;
    loop {
        let n = match read_piece(script, buffer, &mut taken) {
            Ok(n) => n,
            Err(fault) => return Err(fault),
        };
        if n == 0 {
            let number = line.number();
            return answer_line(
                alloc,
                rules,
                target,
                number,
                line.shown(false),
                out,
                notes,
                steps,
            );
        }
        match take_piece(alloc, rules, target, line, &buffer[..n], out, notes, steps) {
            Ok(()) => (),
            Err(cause) => return Err(cause),
        }
    }
}

/// Plays a script of any kind: reads it line by line, numbers its lines from 1, hands each that is neither silent nor too long to
/// `rules`, and refuses those that are too long. `Read` and `Write` come only where the script's or the output's count of faults rose
/// in this call, `Size` exactly where more than 268,435,456 bytes of the script were taken. After `Ok` the script was read to its end,
/// all of its lines are done, and their whole output was appended. After `Read` and `Size` exactly the lines are done that ended within
/// what was taken, of a script that is too long within its first 268,435,456 bytes, and their whole output was appended. After any
/// other error some number of its lines is done, and a beginning of their output was appended. Whether the script is told or not, the
/// state is one that some lines lead to. The notes get what `rules` notes, as long as no write to them fails.
pub fn play_lines<T, R: Lines<T>, S: Source, K: Sink, N: Sink, L: Ledger>(
    alloc: Global,
    rules: &R,
    target: &mut T,
    script: &mut S,
    out: &mut K,
    notes: &mut N,
    steps: &mut Steps<L>,
) -> Result<(), PlayError>
    ensures script_counted { S.faults script.old ≤ S.faults script.new }
    ensures out_counted { K.faults out.old ≤ K.faults out.new }
    ensures notes_counted { N.faults notes.old ≤ N.faults notes.new }
    ensures steps { steps.old ≤ steps.new }
    ensures read { IsErrOf result Read → Rose (S.faults script.old) (S.faults script.new) }
    ensures write { IsErrOf result Write → Rose (K.faults out.old) (K.faults out.new) }
    ensures reached { IsReached R.replies (R.state target.old) (R.state target.new) }
    ensures size { IfSome (S.left script.old) (λ bytes. (result ≡ Err Size) ↔ IsPastSize bytes (S.left script.new)) }
    ensures played { (taken : List ℕ) × HasTaken (S.left script.old) (S.left script.new) taken
        × IfSome (S.left script.old) (λ bytes. IsPlayed R.replies bytes taken (R.state target.old) (R.state target.new)
        (sinks (K.held out.old) (N.held notes.old) (N.faults notes.old))
        (sinks (K.held out.new) (N.held notes.new) (N.faults notes.new)) result) }
{
    let mut buffer = match zeros(alloc, PIECE_BYTES) {
        Ok(buffer) => buffer,
        Err(OutOfMemory) => return Err(PlayError::Memory),
    };
    let mut line = Pending::new(alloc);
    play_pieces(
        alloc,
        rules,
        target,
        script,
        &mut buffer,
        &mut line,
        out,
        notes,
        steps,
    )
}

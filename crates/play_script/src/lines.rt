// Lines of scripts of any kind, done one after another.
ghost use Rattle.std.specs.Prelude.{◌≡◌, ◌≤◌, ◌+◌, [], ◌∷◌, ◌++◌, ℕ, List, length, OnOk, IfErr, IsErrOf};
ghost use Rattle.chart_io.specs.Outside.{Rose, Appended, AppendedPrefix};
ghost use Rattle.param_flow.specs.Script.{most_script_bytes, is_silent, refused_line};
ghost use Rattle.play_script.specs.declared.errors.PlayError.TheVariants.{Write};
ghost use Rattle.play_script.specs.Played.{Sinks, sinks};
ghost use Rattle.play_script.specs.inner.Pending.{IsShownOf};
ghost use Rattle.play_script.specs.inner.Progress.{IsStop, AreAnswered, Stands, GoesOn};

use crate::pending::{MOST_LINE_BYTES, Pending};
use crate::{Lines, PlayError};
use cell_value::Steps;
use chart_io::{Sink, write_all};
use std::alloc::Global;
use std::sync::ledger::Ledger;

/// Writes that a line is refused.
pub fn refuse<K: Sink>(out: &mut K) -> Result<(), PlayError>
    ensures counted { K.faults out.old ≤ K.faults out.new }
    ensures write { IsErrOf result Write → Rose (K.faults out.old) (K.faults out.new) }
    ensures stop { IfErr result IsStop }
    ensures ok { OnOk result (Appended (K.held out.old) (K.held out.new) refused_line) }
    ensures prefix { AppendedPrefix (K.held out.old) (K.held out.new) refused_line }
{
    write_all(out, b"refused line\n")?;
    Ok(())
}

// Whether a line gets no reply.
fn is_silent(line: &[u8]) -> bool
    ensures { result ≡ is_silent line.now }
{
    match line {
        [] => true,
        [first, ..] => *first == b'#',
    }
}

/// Does a line of this number, of which `shown` says all that its reply needs, and appends the reply.
pub fn answer_line<T, R: Lines<T>, K: Sink, N: Sink, L: Ledger>(
    alloc: Global,
    rules: &R,
    target: &mut T,
    number: u64,
    shown: &[u8],
    out: &mut K,
    notes: &mut N,
    steps: &mut Steps<L>,
) -> Result<(), PlayError>
    ensures out_counted { K.faults out.old ≤ K.faults out.new }
    ensures notes_counted { N.faults notes.old ≤ N.faults notes.new }
    ensures steps { steps.old ≤ steps.new }
    ensures write { IsErrOf result Write → Rose (K.faults out.old) (K.faults out.new) }
    ensures done { (line : List ℕ) → IsShownOf line shown.now
        → AreAnswered R.replies number (line ∷ []) (R.state target.old) (R.state target.new)
        (sinks (K.held out.old) (N.held notes.old) (N.faults notes.old))
        (sinks (K.held out.new) (N.held notes.new) (N.faults notes.new)) result }
{
    if is_silent(shown) {
        return Ok(());
    }
    if shown.len() > MOST_LINE_BYTES {
        return refuse(out);
    }
    rules.do_line(alloc, target, number, shown, out, notes, steps)
}

// Takes one byte of the script. A line feed ends a line.
fn take_byte<T, R: Lines<T>, K: Sink, N: Sink, L: Ledger>(
    alloc: Global,
    rules: &R,
    target: &mut T,
    line: &mut Pending,
    byte: u8,
    out: &mut K,
    notes: &mut N,
    steps: &mut Steps<L>,
) -> Result<(), PlayError>
    ensures out_counted { K.faults out.old ≤ K.faults out.new }
    ensures notes_counted { N.faults notes.old ≤ N.faults notes.new }
    ensures steps { steps.old ≤ steps.new }
    ensures write { IsErrOf result Write → Rose (K.faults out.old) (K.faults out.new) }
    ensures goes { (st : R.State) (before : Sinks) (taken : List ℕ) → length taken ≤ most_script_bytes
        → Stands R.replies st before taken line.old (R.state target.old) (sinks (K.held out.old) (N.held notes.old) (N.faults notes.old))
        → GoesOn R.replies st before (taken ++ byte ∷ []) line.new (R.state target.new)
        (sinks (K.held out.new) (N.held notes.new) (N.faults notes.new)) result }
{
    if byte != b'\n' {
        return line.push(byte);
    }
    let number = line.number();
    match answer_line(
        alloc,
        rules,
        target,
        number,
        line.shown(true),
        out,
        notes,
        steps,
    ) {
        Ok(()) => {
            line.next();
            Ok(())
        }
        Err(cause) => Err(cause),
    }
}

/// Takes the next bytes of the script, and does the lines that end in them.
pub fn take_piece<T, R: Lines<T>, K: Sink, N: Sink, L: Ledger>(
    alloc: Global,
    rules: &R,
    target: &mut T,
    line: &mut Pending,
    piece: &[u8],
    out: &mut K,
    notes: &mut N,
    steps: &mut Steps<L>,
) -> Result<(), PlayError>
    ensures out_counted { K.faults out.old ≤ K.faults out.new }
    ensures notes_counted { N.faults notes.old ≤ N.faults notes.new }
    ensures steps { steps.old ≤ steps.new }
    ensures write { IsErrOf result Write → Rose (K.faults out.old) (K.faults out.new) }
    ensures goes { (st : R.State) (before : Sinks) (taken : List ℕ) → length taken + length piece.now ≤ most_script_bytes
        → Stands R.replies st before taken line.old (R.state target.old) (sinks (K.held out.old) (N.held notes.old) (N.faults notes.old))
        → GoesOn R.replies st before (taken ++ piece.now) line.new (R.state target.new)
        (sinks (K.held out.new) (N.held notes.new) (N.faults notes.new)) result }
{
    for byte in piece {
        match take_byte(alloc, rules, target, line, *byte, out, notes, steps) {
            Ok(()) => (),
            Err(cause) => return Err(cause),
        }
    }
    Ok(())
}

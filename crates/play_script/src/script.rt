// Kinds of scripts: what their lines do.
ghost use Rattle.std.specs.Prelude.{◌≡◌, ◌≤◌, ℕ, List, false, length, IsErrOf};
ghost use Rattle.chart_io.specs.Outside.{Rose};
ghost use Rattle.param_flow.specs.Script.{most_line_bytes, is_silent};
ghost use Rattle.play_script.specs.declared.errors.PlayError.TheVariants.{Write};
ghost use Rattle.play_script.specs.Played.{sinks, IsLineDone};

use crate::PlayError;
use cell_value::Steps;
use chart_io::Sink;
use std::alloc::Global;
use std::sync::ledger::Ledger;

/// A kind of script: what its lines do to a `T`, seen as a `State`. `replies st n line reply note now` says that in the state `st` the
/// line, number `n` among all lines of the script from 1, is replied to by `reply` on the output and `note` on the notes, and leaves
/// the state `now`.
pub trait Lines<T> {
    ghost State: { Type 0 };

    ghost state: { T → State };

    ghost replies: { State → ℕ → List ℕ → List ℕ → List ℕ → State → Type 0 };

    /// No line has two replies, two notes, or two states after it.
    ghost one_reply: { (st now later : State) (n : ℕ) (line reply other note another : List ℕ)
        → replies st n line reply note now → replies st n line other another later → (reply ≡ other) × (note ≡ another) × (now ≡ later) };

    /// Does a line that is neither silent nor too long, by its number, and appends its reply and its note. `Write` comes only where the
    /// output's count of faults rose; a failed write to the notes is no error. After an error either nothing was done, or the line was
    /// done and a beginning of its reply was appended. `Read` and `Size` never come.
    fn do_line<K: Sink, N: Sink, L: Ledger>(
        &self,
        alloc: Global,
        target: &mut T,
        number: u64,
        line: &[u8],
        out: &mut K,
        notes: &mut N,
        steps: &mut Steps<L>,
    ) -> Result<(), PlayError>
        requires loud { is_silent line.now ≡ false }
        requires short { length line.now ≤ most_line_bytes }
        ensures out_counted { K.faults out.old ≤ K.faults out.new }
        ensures notes_counted { N.faults notes.old ≤ N.faults notes.new }
        ensures steps { steps.old ≤ steps.new }
        ensures write { IsErrOf result Write → Rose (K.faults out.old) (K.faults out.new) }
        ensures done { IsLineDone replies number line.now (state target.old) (state target.new)
            (sinks (K.held out.old) (N.held notes.old) (N.faults notes.old))
            (sinks (K.held out.new) (N.held notes.new) (N.faults notes.new)) result };
}

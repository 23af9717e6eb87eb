// Scripts of commands that an engine does.
ghost use Rattle.std.specs.Prelude.{◌≡◌, ◌≢◌, ◌≤◌, ◌↔◌, ℕ, List, Option, false, OnOk, IfSome, IfErr, IsErrOf, Err};
ghost use Rattle.chart_io.specs.Outside.{Rose, Appended, AppendedPrefix};
ghost use Rattle.scene_tree.specs.Outcome.{IsDrawn};
ghost use Rattle.param_flow.specs.declared.command.Command.TheVariants.{Print};
ghost use Rattle.param_flow.specs.Commands.{IsCommand};
ghost use Rattle.param_flow.specs.Playing.{reply_text};
ghost use Rattle.play_script.specs.declared.errors.PlayError.TheVariants.{Read, Write, Size};
ghost use Rattle.play_script.specs.Meaning.{chart_in, IsReplyIn};
ghost use Rattle.play_script.specs.Played.{sinks, output_alone, IsLineDone, IsPlayed, HasTaken, IsPastSize};
ghost use Rattle.play_script.specs.inner.Progress.{IsStop};

use crate::lines::refuse;
use crate::playing::play_lines;
use crate::replies::reply_text;
use crate::{Engine, LineError, Lines, PlayError, PrintError, read_command};
use cell_value::Steps;
use chart_io::{CountSink, Sink, Source, write_all};
use param_flow::{Command, Reply};
use std::alloc::Global;
use std::sync::ledger::Ledger;
use text_kit::OutOfMemory;

/// Scripts of commands: each line is a command, an engine does it, and its reply is the output. There are no notes.
#[derive(Clone, Copy, Debug, PartialEq, Eq)]
pub struct EngineLines;

// Prints the chart.
fn print<E: Engine, K: Sink>(engine: &E, out: &mut K) -> Result<(), PlayError>
    ensures counted { K.faults out.old ≤ K.faults out.new }
    ensures write { IsErrOf result Write → Rose (K.faults out.old) (K.faults out.new) }
    ensures stop { IfErr result IsStop }
    ensures ok { OnOk result (IsDrawn (chart_in (E.meaning engine.now)) (Appended (K.held out.old) (K.held out.new))) }
    ensures prefix { IsDrawn (chart_in (E.meaning engine.now)) (AppendedPrefix (K.held out.old) (K.held out.new)) }
{
    match engine.print(out) {
        Ok(()) => Ok(()),
        Err(PrintError::Write) => Err(PlayError::Write),
        Err(PrintError::Memory) => Err(PlayError::Memory),
    }
}

// Writes a reply.
fn write_reply<K: Sink>(alloc: Global, reply: Reply, out: &mut K) -> Result<(), PlayError>
    ensures counted { K.faults out.old ≤ K.faults out.new }
    ensures write { IsErrOf result Write → Rose (K.faults out.old) (K.faults out.new) }
    ensures stop { IfErr result IsStop }
    ensures ok { OnOk result (Appended (K.held out.old) (K.held out.new) (reply_text reply)) }
    ensures prefix { AppendedPrefix (K.held out.old) (K.held out.new) (reply_text reply) }
{
    let text = reply_text(alloc, reply)?;
    write_all(out, text.as_str().as_bytes())?;
    Ok(())
}

// Does a command that is no print.
fn apply<E: Engine, K: Sink, L: Ledger>(
    alloc: Global,
    engine: &mut E,
    command: &Command,
    out: &mut K,
    steps: &mut Steps<L>,
) -> Result<(), PlayError>
    requires { command.now ≢ Print }
    ensures counted { K.faults out.old ≤ K.faults out.new }
    ensures write { IsErrOf result Write → Rose (K.faults out.old) (K.faults out.new) }
    ensures steps { steps.old ≤ steps.new }
    ensures done { (line : List ℕ) (n : ℕ) (noted : Option (List ℕ)) (faults : ℕ) → IsCommand line command.now
        → IsLineDone IsReplyIn n line (E.meaning engine.old) (E.meaning engine.new)
        (sinks (K.held out.old) noted faults) (sinks (K.held out.new) noted faults) result }
{
    let reply = match engine.apply(alloc, command, steps) {
        Ok(reply) => reply,
        Err(OutOfMemory) => return Err(PlayError::Memory),
    };
    write_reply(alloc, reply, out)
}

// Does the command that a line is.
fn do_command<E: Engine, K: Sink, L: Ledger>(
    alloc: Global,
    engine: &mut E,
    line: &[u8],
    out: &mut K,
    steps: &mut Steps<L>,
) -> Result<(), PlayError>
    ensures counted { K.faults out.old ≤ K.faults out.new }
    ensures write { IsErrOf result Write → Rose (K.faults out.old) (K.faults out.new) }
    ensures steps { steps.old ≤ steps.new }
    ensures done { (n : ℕ) (noted : Option (List ℕ)) (faults : ℕ)
        → IsLineDone IsReplyIn n line.now (E.meaning engine.old) (E.meaning engine.new)
        (sinks (K.held out.old) noted faults) (sinks (K.held out.new) noted faults) result }
{
    match read_command(alloc, line) {
        Ok(Command::Print) => print(engine, out),
        Ok(command) => apply(alloc, engine, &command, out, steps),
        Err(LineError::Fault) => refuse(out),
        Err(LineError::Memory) => Err(PlayError::Memory),
    }
}

impl<E: Engine> Lines<E> for EngineLines {
    ghost use Rattle.play_script.specs.Meaning.{Meaning, IsReplyIn};
    ghost use Rattle.play_script.specs.inner.Once.{one_reply_in};

    ghost State = { Meaning };

    ghost state = { E.meaning };

    ghost replies = { IsReplyIn };

    ghost one_reply = { one_reply_in };

    fn do_line<K: Sink, N: Sink, L: Ledger>(
        &self,
        alloc: Global,
        target: &mut E,
        _: u64,
        line: &[u8],
        out: &mut K,
        _: &mut N,
        steps: &mut Steps<L>,
    ) -> Result<(), PlayError> {
        do_command(alloc, target, line, out, steps)
    }
}

/// Plays a script of commands: an engine does them, and the replies are written to `out`. What it answers, and how far it has come then,
/// is as `play_lines` says. Nothing is written to `notes`. `work` is not built yet.
pub fn play<E: Engine, S: Source, K: Sink, N: Sink, L: Ledger>(
    alloc: Global,
    engine: &mut E,
    script: &mut S,
    out: &mut K,
    notes: &mut N,
    work: bool,
    steps: &mut Steps<L>,
) -> Result<(), PlayError>
    requires { work ≡ false }
    ensures script_counted { S.faults script.old ≤ S.faults script.new }
    ensures out_counted { K.faults out.old ≤ K.faults out.new }
    ensures read { IsErrOf result Read → Rose (S.faults script.old) (S.faults script.new) }
    ensures write { IsErrOf result Write → Rose (K.faults out.old) (K.faults out.new) }
    ensures size { IfSome (S.left script.old) (λ bytes. (result ≡ Err Size) ↔ IsPastSize bytes (S.left script.new)) }
    ensures played { (taken : List ℕ) × HasTaken (S.left script.old) (S.left script.new) taken
        × IfSome (S.left script.old) (λ bytes. IsPlayed IsReplyIn bytes taken (E.meaning engine.old) (E.meaning engine.new)
        (output_alone (K.held out.old)) (output_alone (K.held out.new)) result) }
    ensures notes { notes.new ≡ notes.old }
    ensures spec { (E.meaning engine.new).spec ≡ (E.meaning engine.old).spec }
    ensures steps { steps.old ≤ steps.new }
{
    let mut none = CountSink::new();
    play_lines(alloc, &EngineLines, engine, script, out, &mut none, steps)
}

// Engines.
ghost use Rattle.std.specs.Prelude.{◌≡◌, ◌≢◌, ◌≤◌, ◌-◌, ℕ, IfOk, OnOk, OnErr, IsErrOf};
ghost use Rattle.chart_io.specs.Outside.{Rose, Appended, AppendedPrefix};
ghost use Rattle.scene_tree.specs.Outcome.{IsDrawn};
ghost use Rattle.param_flow.specs.declared.command.Command.TheVariants.{Print};
ghost use Rattle.play_script.specs.declared.errors.PrintError.TheVariants.{Write};
ghost use Rattle.play_script.specs.Meaning.{Meaning, IsStanding, chart_in, reply_in, meaning_after};

use crate::PrintError;
use cell_value::Steps;
use chart_io::Sink;
use param_flow::{Command, Reply};
use std::alloc::Global;
use std::sync::ledger::Ledger;
use text_kit::OutOfMemory;

/// What keeps a chart under commands. It means a Vega specification and a state of it, as it is read, whose chart is drawn. `reads` is how
/// many cells it read of its store in the last `apply`.
pub trait Engine {
    ghost meaning: { Self → Meaning };

    ghost reads: { Self → ℕ };

    /// Its state is one of its specification, and its chart is drawn.
    ghost stands: { (engine : Self) → IsStanding (meaning engine) };

    /// Does a command that is no print, and gives the reply of the direct machine. Where memory is refused the state stays.
    fn apply<L: Ledger>(
        &mut self,
        alloc: Global,
        c: &Command,
        steps: &mut Steps<L>,
    ) -> Result<Reply, OutOfMemory>
        requires { c.now ≢ Print }
        ensures reply { IfOk result (λ reply. reply ≡ reply_in (meaning self.old) c.now) }
        ensures done { OnOk result (meaning self.new ≡ meaning_after (meaning self.old) c.now) }
        ensures kept { OnErr result (meaning self.new ≡ meaning self.old) }
        ensures counted { steps.old ≤ steps.new }
        ensures reads { reads self.new ≡ steps.new - steps.old };

    /// Writes the chart of the state as SVG text. `Write` comes only where the sink's count of faults rose. After an error a
    /// beginning of the text was written.
    fn print<K: Sink>(&self, out: &mut K) -> Result<(), PrintError>
        ensures counted { K.faults out.old ≤ K.faults out.new }
        ensures write { IsErrOf result Write → Rose (K.faults out.old) (K.faults out.new) }
        ensures ok { OnOk result (IsDrawn (chart_in (meaning self.now)) (Appended (K.held out.old) (K.held out.new))) }
        ensures prefix { IsDrawn (chart_in (meaning self.now)) (AppendedPrefix (K.held out.old) (K.held out.new)) };

    /// How many cells were read in the last `apply`, at most `u64::MAX`; 0 before the first.
    fn last_reads(&self) -> u64
        ensures { result ≡ reads self.now };
}

// What an expression is evaluated over: a row, and the parameters of a chart.
ghost use Rattle.std.specs.Prelude.{◌≡◌, length, IfOk};
ghost use Rattle.cell_value.specs.Datum.{CellAt};
ghost use Rattle.expr_eval.specs.Values.{Values};
ghost use Rattle.expr_eval.specs.Answers.{Evaluates, RisesBy};

use crate::EvalError;
use cell_value::{Cell, Steps};
use std::alloc::Global;
use std::sync::ledger::Ledger;
use text_kit::OutOfMemory;

/// A row that can be read.
pub trait RowReader {
    /// The cell under each name.
    ghost cells: { Self → CellAt };

    /// The cell under a name. It counts one step at most.
    fn field<L: Ledger>(
        &self,
        alloc: Global,
        name: &str,
        steps: &mut Steps<L>,
    ) -> Result<Cell, OutOfMemory>
        ensures cell { IfOk result (λ cell. cell ≡ cells self.now name.now) }
        ensures one_step { RisesBy 1 steps.old steps.new };
}

/// Values of parameters, stores of selections and domains of scales that can be read.
pub trait ParamReader {
    /// What is read of them.
    ghost values: { Self → Values };

    /// The value of a parameter; of a selection it is null. `Overflow` comes exactly where it has no value, since its computation is out of
    /// range.
    fn param(&self, alloc: Global, name: &str) -> Result<Cell, EvalError>
        ensures { Evaluates result ((values self.now).value name.now) };

    /// The two ends that an interval selection has of a channel, else null.
    fn member(&self, alloc: Global, name: &str, field: &str) -> Result<Cell, OutOfMemory>
        ensures { IfOk result (λ cell. cell ≡ (values self.now).member name.now field.now) };

    /// How many tuples a store has; 1 where it has extents.
    fn stored(&self, store: &str) -> u64
        ensures { result ≡ (values self.now).stored store.now };

    /// Whether a store isn't empty and holds the row. It counts as many steps as the store has fields at most.
    fn selected<R: RowReader, L: Ledger>(
        &self,
        alloc: Global,
        store: &str,
        row: &R,
        steps: &mut Steps<L>,
    ) -> Result<bool, OutOfMemory>
        ensures holds { IfOk result (λ holds. holds ≡ (values self.now).selects store.now (R.cells row.now)) }
        ensures few_steps { RisesBy (length ((values self.now).fields store.now)) steps.old steps.new };

    /// How many cells the domain of a discrete scale has; 2 for a continuous one.
    fn domain_length(&self, scale: &str) -> u64
        ensures { result ≡ (values self.now).domain_length scale.now };
}

// What is read inside an object.
ghost use Rattle.std.specs.Prelude.{◌≡◌, option_copied};
ghost use Rattle.expr_eval.specs.Answers.{Evaluates};
ghost use Rattle.vega_signals.specs.Settling.{first_named, is_own, values_inside};

use cell_value::{Cell, Steps};
use expr_eval::{EvalError, ParamReader, RowReader};
use std::alloc::Global;
use std::sync::ledger::Ledger;
use text_kit::{OutOfMemory, Text};

/// What is read inside an object: an own signal hides the outer one of its name, and the ends of an outer selection of its name. All else
/// is read as it is round the object.
#[derive(Drop)]
pub struct Inside<'a, P> {
    /// The own signals with their values, without one where it is out of range.
    pub own: &'a [(Text, Option<Cell>)],
    /// What is read round the object.
    pub outer: &'a P,
}

// The first own signal of a name.
fn own_entry<'a>(own: &'a [(Text, Option<Cell>)], name: &str) -> Option<&'a (Text, Option<Cell>)>
    ensures { option_copied result ≡ first_named own.now name.now }
{
    for entry in own {
        if entry.0.as_str() == name {
            return Some(entry);
        }
    }
    None
}

/// Whether an own signal has the name.
pub fn is_own(own: &[(Text, Option<Cell>)], name: &str) -> bool
    ensures { result ≡ is_own own.now name.now }
{
    own.iter().any(|entry| entry.0.as_str() == name)
}

/// A copy of the value of a signal. `Overflow` comes exactly where it has none.
pub fn settled_value(value: &Option<Cell>) -> Result<Cell, EvalError>
    ensures { Evaluates result value.now }
{
    match value {
        Some(cell) => Ok(cell.copy()?),
        None => Err(EvalError::Overflow),
    }
}

impl<P: ParamReader> ParamReader for Inside<'_, P> {
    ghost values = { λ inside. values_inside inside.own.now (P.values inside.outer.now) };

    fn param(&self, alloc: Global, name: &str) -> Result<Cell, EvalError> {
        match own_entry(self.own, name) {
            Some(entry) => settled_value(&entry.1),
            None => self.outer.param(alloc, name),
        }
    }

    fn member(&self, alloc: Global, name: &str, field: &str) -> Result<Cell, OutOfMemory> {
        if is_own(self.own, name) {
            return Ok(Cell::Null);
        }
        self.outer.member(alloc, name, field)
    }

    fn stored(&self, store: &str) -> u64 {
        self.outer.stored(store)
    }

    fn selected<R: RowReader, L: Ledger>(
        &self,
        alloc: Global,
        store: &str,
        row: &R,
        steps: &mut Steps<L>,
    ) -> Result<bool, OutOfMemory> {
        self.outer.selected(alloc, store, row, steps)
    }

    fn domain_length(&self, scale: &str) -> u64 {
        self.outer.domain_length(scale)
    }
}

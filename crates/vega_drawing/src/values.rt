// The values of signals in a copy of an object.
ghost use Rattle.std.specs.Prelude.{◌≡◌, ◌∷◌, IfOk, map, option_copied};
ghost use Rattle.std.specs.List.{list_any};
ghost use Rattle.expr_eval.specs.Answers.{Evaluates};
ghost use Rattle.vega_signals.specs.Settling.{is_own};
ghost use Rattle.vega_drawing.specs.inner.Levels.{signal_named, values_over};

use cell_value::{Cell, Steps};
use expr_eval::{EvalError, ParamReader, RowReader, Stores};
use std::alloc::Global;
use std::sync::ledger::Ledger;
use text_kit::{OutOfMemory, Seq, Text};
use vega_copies::Step;
use vega_signals::{is_own, settled_value};

/// The values of signals in a copy of an object, and what is read of the stores of selections.
#[derive(Clone, Copy)]
pub struct ValuesAt<'a> {
    /// The stores.
    pub stores: &'a Stores<'a>,
    /// The signals of the copy and of those round it with their values, the inner before the outer; each has one.
    pub levels: &'a [&'a Seq<(Text, Option<Cell>)>],
}

// The first of some signals that has the name, if one has it.
fn signal_named<'a>(
    signals: &'a [(Text, Option<Cell>)],
    name: &str,
) -> Option<&'a (Text, Option<Cell>)>
    ensures { option_copied result ≡ signal_named signals.now name.now }
{
    for signal in signals {
        if signal.0.as_str() == name {
            return Some(signal);
        }
    }
    None
}

// The value of a signal; null where there is none of the name.
fn value_at(
    alloc: Global,
    stores: &Stores,
    levels: &[&Seq<(Text, Option<Cell>)>],
    name: &str,
) -> Result<Cell, EvalError>
    ensures { Evaluates result ((values_over stores.now levels.now).value name.now) }
{
    for level in levels {
        if let Some(signal) = signal_named(level.as_slice(), name) {
            return settled_value(&signal.1);
        }
    }
    stores.param(alloc, name)
}

// Whether one of some levels has a signal of the name.
fn is_own_somewhere(levels: &[&Seq<(Text, Option<Cell>)>], name: &str) -> bool
    ensures { result ≡ list_any (λ level. is_own level.now name.now) levels.now }
{
    for level in levels {
        if is_own(level.as_slice(), name) {
            return true;
        }
    }
    false
}

impl ParamReader for ValuesAt<'_> {
    ghost values = { λ at. values_over at.stores.now at.levels.now };

    fn param(&self, alloc: Global, name: &str) -> Result<Cell, EvalError> {
        value_at(alloc, self.stores, self.levels, name)
    }

    fn member(&self, alloc: Global, name: &str, field: &str) -> Result<Cell, OutOfMemory> {
        if is_own_somewhere(self.levels, name) {
            Ok(Cell::Null)
        } else {
            self.stores.member(alloc, name, field)
        }
    }

    fn stored(&self, store: &str) -> u64 {
        self.stores.stored(store)
    }

    fn selected<R: RowReader, L: Ledger>(
        &self,
        alloc: Global,
        store: &str,
        row: &R,
        steps: &mut Steps<L>,
    ) -> Result<bool, OutOfMemory> {
        self.stores.selected(alloc, store, row, steps)
    }

    fn domain_length(&self, _: &str) -> u64 {
        0
    }
}

/// Levels of signals with one more inside.
pub(crate) fn with_signals<'a>(
    alloc: Global,
    signals: &'a Seq<(Text, Option<Cell>)>,
    outer: &[&'a Seq<(Text, Option<Cell>)>],
) -> Result<Seq<&'a Seq<(Text, Option<Cell>)>>, OutOfMemory>
    ensures { IfOk result (λ levels. map (λ l. l.now) levels ≡ signals.now ∷ map (λ l. l.now) outer.now) }
{
    let mut levels = Seq::with_capacity(alloc, outer.len() + 1)?;
    levels.push(signals)?;
    for other in outer {
        levels.push(*other)?;
    }
    Ok(levels)
}

/// The steps that lead to a copy, with one more.
pub(crate) fn with_step(alloc: Global, step: Step, outer: &[Step]) -> Result<Seq<Step>, OutOfMemory>
    ensures { IfOk result (λ path. path ≡ step ∷ outer.now) }
{
    let mut path = Seq::with_capacity(alloc, outer.len() + 1)?;
    path.push(step)?;
    for other in outer {
        path.push(*other)?;
    }
    Ok(path)
}

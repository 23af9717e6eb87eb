// What names stand for at a copy of an object: lists of rows, and the values of signals.
ghost use Rattle.std.specs.Prelude.{◌≡◌, [], IfOk, map, option_copied};
ghost use Rattle.std.specs.List.{list_any};
ghost use Rattle.cell_value.specs.declared.state.Named.{Named};
ghost use Rattle.expr_eval.specs.Answers.{Evaluates};
ghost use Rattle.vega_signals.specs.Lacking.{lacks};
ghost use Rattle.vega_signals.specs.Settling.{is_own};
ghost use Rattle.vega_copies.specs.inner.Levels.{part_named, rows_here, rows_at, signal_named, values_at};

use cell_value::{Cell, Keyed, Named, Steps};
use expr_eval::{EvalError, ParamReader, RowReader, Stores};
use std::alloc::Global;
use std::sync::ledger::Ledger;
use text_kit::{OutOfMemory, Seq, Text};
use vega_lists::{ListReader, Lists};
use vega_signals::{is_own, settled_value};

/// The names that a copy of an object gives itself.
pub struct Level {
    /// The parts of lists that its facet gives, by their names.
    pub parts: Seq<Named>,
    /// The lists of its data sets.
    pub lists: Lists,
    /// Its signals with their values; without one where its computation is out of range.
    pub signals: Seq<(Text, Option<Cell>)>,
}

impl Drop for Level {
    fn drop(self) {
        let Level {
            parts: _,
            lists: _,
            signals: _,
        } = self;
    }
}

/// What names stand for at a copy of an object.
#[derive(Clone, Copy)]
pub struct NamesAt<'a> {
    /// The stores of selections.
    pub stores: &'a Stores<'a>,
    /// The sources of rows.
    pub sources: &'a [Named],
    /// The levels of names, the inner before the outer.
    pub levels: &'a [&'a Level],
}

/// The part of a name, if there is one.
pub(crate) fn part_named<'a>(parts: &'a [Named], name: &str) -> Option<&'a Named>
    ensures { option_copied result ≡ part_named parts.now name.now }
{
    for part in parts {
        if part.name.as_str() == name {
            return Some(part);
        }
    }
    None
}

/// References to rows, in their order.
pub(crate) fn referred(alloc: Global, rows: &[Keyed]) -> Result<Seq<&Keyed>, OutOfMemory>
    ensures { IfOk result (λ found. map (λ row. row.now) found ≡ rows.now) }
{
    let mut found = Seq::with_capacity(alloc, rows.len())?;
    for row in rows {
        found.push(row)?;
    }
    Ok(found)
}

// The rows for which a level itself has a name, if it has it: a list of a data set before a part.
fn rows_here<'a>(sources: &'a [Named], level: &'a Level, name: &str) -> Option<&'a [Keyed]>
    ensures { option_copied result ≡ rows_here sources.now level.now name.now }
{
    match level.lists.held(sources, name) {
        Some(rows) => Some(rows),
        None => match part_named(level.parts.as_slice(), name) {
            Some(part) => Some(part.rows.as_slice()),
            None => None,
        },
    }
}

// The rows for which a name stands.
fn rows_at<'a>(sources: &'a [Named], levels: &'a [&'a Level], name: &str) -> &'a [Keyed]
    ensures { result.now ≡ rows_at sources.now levels.now name.now }
{
    for level in levels {
        match rows_here(sources, level, name) {
            Some(rows) => return rows,
            None => {}
        }
    }
    &[]
}

impl ListReader for NamesAt<'_> {
    ghost named = { λ names. rows_at names.sources.now names.levels.now };

    fn rows<'a>(&'a self, alloc: Global, name: &str) -> Result<Seq<&'a Keyed>, OutOfMemory> {
        referred(alloc, rows_at(self.sources, self.levels, name))
    }
}

// The first of some signals that has the name, if one has it.
fn signal_named<'a>(
    signals: &'a [(Text, Option<Cell>)],
    name: &str,
) -> Option<&'a (Text, Option<Cell>)>
    ensures { option_copied result ≡ signal_named signals.now name.now }
{
    for signal in signals {
        if signal.0.as_str() == name {
            return Some(signal);
        }
    }
    None
}

// The value of a signal; null where there is none of the name.
fn value_at(
    alloc: Global,
    stores: &Stores,
    levels: &[&Level],
    name: &str,
) -> Result<Cell, EvalError>
    ensures { Evaluates result ((values_at stores.now levels.now).value name.now) }
{
    for level in levels {
        if let Some(signal) = signal_named(level.signals.as_slice(), name) {
            return settled_value(&signal.1);
        }
    }
    stores.param(alloc, name)
}

/// Whether a name has no value. Stores of selections give none, so it is asked as if there were none.
pub(crate) fn lacks_at(levels: &[&Level], name: &str) -> bool
    ensures { result ≡ lacks (values_at [] levels.now) name.now }
{
    for level in levels {
        if let Some(signal) = signal_named(level.signals.as_slice(), name) {
            return signal.1.is_none();
        }
    }
    false
}

// Whether one of some levels has a signal of the name.
fn is_own_somewhere(levels: &[&Level], name: &str) -> bool
    ensures { result ≡ list_any (λ level. is_own level.now.signals name.now) levels.now }
{
    for level in levels {
        if is_own(level.signals.as_slice(), name) {
            return true;
        }
    }
    false
}

impl ParamReader for NamesAt<'_> {
    ghost values = { λ names. values_at names.stores.now names.levels.now };

    fn param(&self, alloc: Global, name: &str) -> Result<Cell, EvalError> {
        value_at(alloc, self.stores, self.levels, name)
    }

    fn member(&self, alloc: Global, name: &str, field: &str) -> Result<Cell, OutOfMemory> {
        if is_own_somewhere(self.levels, name) {
            Ok(Cell::Null)
        } else {
            self.stores.member(alloc, name, field)
        }
    }

    fn stored(&self, store: &str) -> u64 {
        self.stores.stored(store)
    }

    fn selected<R: RowReader, L: Ledger>(
        &self,
        alloc: Global,
        store: &str,
        row: &R,
        steps: &mut Steps<L>,
    ) -> Result<bool, OutOfMemory> {
        self.stores.selected(alloc, store, row, steps)
    }

    fn domain_length(&self, _: &str) -> u64 {
        0
    }
}

// Signals that have values, found by their names.
ghost use Rattle.std.specs.Prelude.{◌≡◌, ℕ, List, None, Some, IfOk, OnOk, if◌then◌else◌};
ghost use Rattle.std.specs.BTreeMap.{get_by_text};
ghost use Rattle.std.specs.Str.{bytes_eq};
ghost use Rattle.vega_signals.specs.inner.Known.{known_values, IsIndex};

use crate::inside::settled_value;
use cell_value::{Cell, Steps};
use expr_eval::{EvalError, ParamReader, RowReader};
use std::alloc::Global;
use std::collections::BTreeMap;
use std::sync::ledger::Ledger;
use text_kit::{Copies, OutOfMemory, Text};

// What is read inside an object, as by `Inside`, of signals that are found by their names.
#[derive(Drop)]
pub(crate) struct Known<'a, P> {
    // The own signals with their values, without one where it is out of range.
    pub(crate) own: BTreeMap<String, Option<Cell>>,
    // What is read round the object.
    pub(crate) outer: &'a P,
}

impl<P: ParamReader> ParamReader for Known<'_, P> {
    ghost values = { λ known. known_values known.own (P.values known.outer.now) };

    fn param(&self, alloc: Global, name: &str) -> Result<Cell, EvalError> {
        match self.own.get(name) {
            Some(value) => settled_value(value),
            None => self.outer.param(alloc, name),
        }
    }

    fn member(&self, alloc: Global, name: &str, field: &str) -> Result<Cell, OutOfMemory> {
        match self.own.get(name) {
            Some(_) => Ok(Cell::Null),
            None => self.outer.member(alloc, name, field),
        }
    }

    fn stored(&self, store: &str) -> u64 {
        self.outer.stored(store)
    }

    fn selected<R: RowReader, L: Ledger>(
        &self,
        alloc: Global,
        store: &str,
        row: &R,
        steps: &mut Steps<L>,
    ) -> Result<bool, OutOfMemory> {
        self.outer.selected(alloc, store, row, steps)
    }

    fn domain_length(&self, scale: &str) -> u64 {
        self.outer.domain_length(scale)
    }
}

// No signals.
fn none_known(alloc: Global) -> BTreeMap<String, Option<Cell>>
    ensures { (name : List ℕ) → get_by_text result name ≡ None }
{
    BTreeMap::new(alloc)
}

// Puts a signal with its value, in place of one of its name.
pub(crate) fn put_value(
    alloc: Global,
    own: &mut BTreeMap<String, Option<Cell>>,
    name: &Text,
    value: &Option<Cell>,
) -> Result<(), OutOfMemory>
    ensures { OnOk result ((other : List ℕ)
        → get_by_text own.new other ≡ (if bytes_eq name.now other then Some value.now else get_by_text own.old other)) }
{
    own.insert(name.copy()?.into_string(), value.copied(alloc)?)?;
    Ok(())
}

// Signals by their names: the first of those with one name.
pub(crate) fn index_of(
    alloc: Global,
    own: &[(Text, Option<Cell>)],
) -> Result<BTreeMap<String, Option<Cell>>, OutOfMemory>
    ensures { IfOk result (IsIndex own.now) }
{
    let mut index = none_known(alloc);
    let mut left = own.len();
    while left > 0 {
        left -= 1;
        put_value(alloc, &mut index, &own[left].0, &own[left].1)?;
    }
    Ok(index)
}

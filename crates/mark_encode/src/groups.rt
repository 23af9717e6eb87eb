// The numbers that groups encode.
ghost use Rattle.std.specs.Prelude.{◌≡◌, option_copied, IfOk};
ghost use Rattle.std.specs.Str.{bytes_eq};
ghost use Rattle.expr_eval.specs.Answers.{Evaluates, RisesBy};
ghost use Rattle.mark_encode.specs.Groups.{last_named, facet_row, number_or_zero, number_encoded};

use crate::channels::{ChannelName, channel_values};
use crate::numbers::number_over;
use crate::scales::IndexedSet;
use cell_value::{Cell, Steps};
use expr_eval::{EvalError, ParamReader, RowReader};
use fixed_num::Num;
use mark_shapes::{Shown, zero};
use std::alloc::Global;
use std::sync::ledger::Ledger;
use text_kit::{OutOfMemory, Text};
use vega_spec::Encode;

// Whether a cell has a name.
fn is_named(entry: &(Text, Cell), name: &str) -> bool
    ensures { result ≡ bytes_eq entry.now.0 name.now }
{
    entry.0.as_str() == name
}

// The last cell of a name, if one is of it.
#[tactic(auto, using(crate::proofs::GroupLemmas::cell_here, crate::proofs::GroupLemmas::cell_before))]
fn last_named<'a>(cells: &'a [(Text, Cell)], name: &str) -> Option<&'a Cell>
    ensures { option_copied result ≡ last_named cells.now name.now }
{
    for at in (0..cells.len()).rev() {
        let entry = &cells[at];
        if is_named(entry, name) {
            return Some(&entry.1);
        }
    }
    None
}

// The cells of the facets round a copy of a group, by their fields, as a row.
#[derive(Clone, Copy)]
struct FacetRow<'a> {
    entries: &'a [(Text, Cell)],
}

impl RowReader for FacetRow<'_> {
    ghost cells = { λ row. facet_row row.entries.now };

    fn field<L: Ledger>(
        &self,
        _: Global,
        name: &str,
        steps: &mut Steps<L>,
    ) -> Result<Cell, OutOfMemory>
        ensures cell { IfOk result (λ cell. cell ≡ facet_row self.now.entries.now name.now) }
        ensures one_step { RisesBy 1 steps.old steps.new }
        // Nothing is counted.
        ensures still { steps.new ≡ steps.old }
    {
        match last_named(self.entries, name) {
            Some(cell) => cell.copy(),
            None => Ok(Cell::Null),
        }
    }
}

// The number that a channel shows, or 0.
fn number_or_zero(number: Shown<Num>) -> Num
    ensures { result ≡ number_or_zero number }
{
    match number {
        Shown::Absent => zero(),
        Shown::Lacking => zero(),
        Shown::Given(number) => number,
    }
}

/// The number that the encode sets of a group give in a channel of a place or a size, where it reads the cells of the facets round it by their
/// fields: of several cells of one field the last counts, and a field of none reads as null. It is 0 where the channel is absent, or what
/// counts in it gives no number. A scale is the first of its name. `Overflow` comes exactly where a number is out of range.
pub fn number_encoded<P: ParamReader>(
    alloc: Global,
    scales: &IndexedSet,
    encode: &Option<Encode>,
    channel: ChannelName,
    cells: &[(Text, Cell)],
    params: &P,
) -> Result<Num, EvalError>
    ensures { Evaluates result (number_encoded scales.now encode.now channel cells.now (P.values params.now)) }
{
    let values = channel_values(alloc, scales, encode, channel)?;
    let row = FacetRow { entries: cells };
    let shown = number_over(alloc, false, values.as_slice(), &row, params)?;
    Ok(number_or_zero(shown))
}

//! The sources of a state.
ghost use Rattle.std.specs.Prelude.{◌≡◌, ◌≤◌, ◌<◌, ◌+◌, ◌++◌, ◌||◌, nat_lt, length, map, position, IfOk, OnErr};
ghost use Rattle.std.specs.Str.{bytes_eq};
ghost use Rattle.cell_value.specs.Datum.{datum_of};
ghost use Rattle.cell_value.specs.State.{IsState, state_of, dataset_of, most_rows, greatest_id};
ghost use Rattle.vega_lists.specs.Held.{AreSources};
ghost use Rattle.vega_copies.specs.Tested.{KeepsRules};
ghost use Rattle.vega_meaning.specs.Charts.{picture_over};
ghost use Rattle.vega_meaning.specs.Semantics.{signals_in};
ghost use Rattle.param_flow.specs.Change.{rows_after, count_staying};
ghost use Rattle.param_flow.specs.Machine.{state_if, reply_to_chart};
ghost use Rattle.param_flow.specs.inner.Sources.{state_in, count_in, is_past};
ghost use Rattle.plain_engine.specs.inner.Edits.{edited, data_edited};
ghost use Rattle.plain_engine.specs.inner.Undo.{taken_back};
ghost use Rattle.plain_engine.specs.inner.Kept.{IsKept};
ghost use Rattle.plain_engine.specs.inner.Sources.{rows_at, with_rows, values_over, sources_changed, reply_at, state_at, sources_if};
ghost use Rattle.plain_engine.specs.inner.Sources.{IsLeft, IsShown};

use crate::edits::{Edit, Edits, edits_of};
use crate::json_rows::new_rows;
use crate::pictures::picture_over;
use crate::placing::{commit, take_back};
use crate::undo::Undo;
use cell_value::{Cell, ChartState, Keyed, Named, Rows, StoreOf};
use expr_eval::{EvalError, Stores};
use param_flow::{Cause, ChangeOf, Reply};
use plot_scenes::Drawing;
use std::alloc::Global;
use std::mem::replace;
use text_kit::{OutOfMemory, Seq, Text};
use vega_meaning::OpenError;
use vega_signals::{PlotParams, signal_values};
use vega_spec::VgSpec;

/// How many rows a chart may have.
pub const MOST_ROWS: usize = 200_000;

/// The greatest id that a row may have.
const GREATEST_ID: u64 = 1_000_000_000_000_000;

// A chart whose rows change: its specification, the values of its parameters, the stores of its selections, the values of all its signals, and
// the next id.
#[derive(Clone, Copy)]
struct Chart<'a> {
    g: &'a VgSpec,
    params: &'a [(Text, Cell)],
    stores: &'a [StoreOf],
    signals: &'a [(Text, Cell)],
    next_id: u64,
}

/// The index of the first source of this name.
pub fn place_of(sources: &[Named], name: &str) -> Option<usize>
    ensures { result ≡ position (λ source. bytes_eq source.name name.now) sources.now }
{
    sources
        .iter()
        .position(|source| source.name.as_str() == name)
}

// How many rows sources have.
fn count_rows(sources: &[Named]) -> usize
    requires { count_in (map dataset_of sources.now) ≤ most_rows }
    ensures { result ≡ count_in (map dataset_of sources.now) }
{
    let mut count = 0;
    for source in sources {
        count += source.rows.len();
    }
    count
}

// The rows of the source at an index.
fn rows_at(sources: &[Named], index: usize) -> &[Keyed]
    requires { index < length sources.now }
    ensures { result.now ≡ rows_at sources.now index }
{
    sources[index].rows.as_slice()
}

// Whether there would be too many rows, of so many that stay and so many more, or one of these would have too great an id.
fn is_past_limit(next_id: u64, staying: usize, more: usize) -> bool
    requires few { staying ≤ most_rows }
    requires next { next_id ≤ greatest_id + 1 }
    ensures { result ≡ (nat_lt most_rows (staying + more) || nat_lt (greatest_id + 1) (next_id + more)) }
{
    more > MOST_ROWS - staying || more as u64 > GREATEST_ID + 1 - next_id
}

// The values of the signals in a state of a specification; none where one of them is out of range.
fn signals_in(alloc: Global, g: &VgSpec, st: &ChartState) -> Result<Seq<(Text, Cell)>, OutOfMemory>
    requires rules { KeepsRules g.now }
    requires state { IsState (state_of st.now) }
    ensures { IfOk result (λ signals. signals ≡ signals_in g.now (state_of st.now)) }
{
    let stores = Stores::of(alloc, st.stores.as_slice())?;
    match signal_values(
        alloc,
        &stores,
        &g.group,
        st.sources.as_slice(),
        st.params.as_slice(),
    ) {
        Ok(signals) => Ok(signals),
        Err(EvalError::Overflow) => Ok(Seq::new(alloc)),
        Err(EvalError::Memory) => Err(OutOfMemory),
    }
}

// Puts edits of the rows of a source in place, and adds rows at the end. What is given takes that back.
fn commit_at(
    alloc: Global,
    sources: &mut [Named],
    index: usize,
    edits: Seq<Edit>,
    more: Rows,
) -> Result<Undo, OutOfMemory>
    requires within { index < length sources.old }
    requires each { length edits ≡ length (rows_at sources.old index) }
    ensures done { IfOk result (λ undo. sources.new ≡ with_rows sources.old index (edited edits (rows_at sources.old index) ++ more)) }
    ensures back { IfOk result (λ undo. with_rows sources.new index (taken_back undo (rows_at sources.new index)) ≡ sources.old) }
    ensures length { length sources.new ≡ length sources.old }
    ensures kept { OnErr result (sources.new ≡ sources.old) }
{
    let source = &mut sources[index];
    commit(alloc, &mut source.rows, edits, more)
}

// Takes that back.
fn take_back_at(alloc: Global, sources: &mut [Named], index: usize, undo: Undo)
    requires { index < length sources.old }
    ensures { sources.new ≡ with_rows sources.old index (taken_back undo (rows_at sources.old index)) }
{
    let source = &mut sources[index];
    take_back(alloc, &mut source.rows, undo);
}

// Puts edits of the rows of a source in place, adds rows at the end, and draws that. Where it can't be drawn, or memory is refused, all
// stays.
fn put_rows(
    alloc: Global,
    chart: &Chart<'_>,
    sources: &mut [Named],
    index: usize,
    drawing: &mut Drawing,
    edits: Seq<Edit>,
    more: Rows,
) -> Result<Reply, OutOfMemory>
    requires rules { KeepsRules chart.now.g.now }
    requires within { index < length sources.old }
    requires each { length edits ≡ length (rows_at sources.old index) }
    requires fit { AreSources (with_rows sources.old index (edited edits (rows_at sources.old index) ++ more)) }
    ensures reply { IfOk result (λ reply. reply ≡ reply_to_chart (picture_over chart.now.g.now
        (map dataset_of (with_rows sources.old index (edited edits (rows_at sources.old index) ++ more))) chart.now.params.now chart.now.stores.now)) }
    ensures sources { IfOk result (λ reply. sources.new
        ≡ sources_if reply sources.old (with_rows sources.old index (edited edits (rows_at sources.old index) ++ more))) }
    ensures drawn { IfOk result (λ reply. IsShown reply chart.now.g.now chart.now.params.now chart.now.stores.now sources.new drawing.old drawing.new) }
    ensures kept { OnErr result ((sources.new ≡ sources.old) × (drawing.new ≡ drawing.old)) }
{
    let undo = commit_at(alloc, sources, index, edits, more)?;
    match picture_over(alloc, chart.g, sources, chart.params, chart.stores) {
        Ok(drawn) => {
            *drawing = drawn;
            Ok(Reply::Done)
        }
        Err(OpenError::Overflow) => {
            take_back_at(alloc, sources, index, undo);
            Ok(Reply::Refused(Cause::Overflow))
        }
        Err(OpenError::Panels(_)) => {
            take_back_at(alloc, sources, index, undo);
            Ok(Reply::Refused(Cause::Limit))
        }
        Err(OpenError::Memory) => {
            take_back_at(alloc, sources, index, undo);
            Err(OutOfMemory)
        }
    }
}

// What a change makes of the rows of the source at an index.
fn edits_at(
    alloc: Global,
    chart: &Chart<'_>,
    sources: &[Named],
    index: usize,
    change: &ChangeOf,
) -> Result<Edits, OutOfMemory>
    requires within { index < length sources.now }
    requires state { IsState (state_in chart.now.stores.now chart.now.params.now chart.now.next_id (map dataset_of sources.now)) }
    ensures each { IfOk result (λ edits. length edits.each ≡ length (rows_at sources.now index)) }
    ensures staying { IfOk result (λ edits. edits.staying
        ≡ count_staying (values_over chart.now.stores.now chart.now.signals.now) change.now.remove (map datum_of (rows_at sources.now index))) }
    ensures rows { IfOk result (λ edits. data_edited edits (rows_at sources.now index)
        ≡ rows_after (values_over chart.now.stores.now chart.now.signals.now) change.now (map datum_of (rows_at sources.now index))) }
{
    let held = Stores::of(alloc, chart.stores)?;
    let plain = PlotParams {
        stores: &held,
        params: chart.signals,
        lengths: &[],
    };
    let edits = edits_of(alloc, change, rows_at(sources, index), &plain)?;
    Ok(edits)
}

// Whether a change of the source at an index, in which so many rows stay, would leave too many rows, or a new one would have too great an id.
fn is_past(
    chart: &Chart<'_>,
    sources: &[Named],
    index: usize,
    staying: usize,
    change: &ChangeOf,
) -> bool
    requires within { index < length sources.now }
    requires state { IsState (state_in chart.now.stores.now chart.now.params.now chart.now.next_id (map dataset_of sources.now)) }
    requires staying { staying
        ≡ count_staying (values_over chart.now.stores.now chart.now.signals.now) change.now.remove (map datum_of (rows_at sources.now index)) }
    ensures { result
        ≡ is_past (values_over chart.now.stores.now chart.now.signals.now) chart.now.next_id (map dataset_of sources.now) index change.now }
{
    let all = count_rows(sources);
    let rows = rows_at(sources, index);
    let others = all - rows.len();
    is_past_limit(chart.next_id, others + staying, change.insert.len())
}

// Does a change of a source. Where it is refused, or memory is, all stays.
fn change_rows(
    alloc: Global,
    chart: &Chart<'_>,
    sources: &mut [Named],
    index: usize,
    drawing: &mut Drawing,
    change: &ChangeOf,
) -> Result<Reply, OutOfMemory>
    requires rules { KeepsRules chart.now.g.now }
    requires within { index < length sources.old }
    requires state { IsState (state_in chart.now.stores.now chart.now.params.now chart.now.next_id (map dataset_of sources.old)) }
    ensures reply { IfOk result (λ reply. reply ≡ reply_at chart.now.g.now chart.now.stores.now chart.now.next_id chart.now.params.now
        chart.now.signals.now (map dataset_of sources.old) index change.now) }
    ensures sources { IfOk result (λ reply. IsLeft reply
        (sources_changed chart.now.stores.now chart.now.next_id chart.now.signals.now (map dataset_of sources.old) index change.now)
        sources.old sources.new) }
    ensures drawn { IfOk result (λ reply. IsShown reply chart.now.g.now chart.now.params.now chart.now.stores.now sources.new drawing.old drawing.new) }
    ensures kept { OnErr result ((sources.new ≡ sources.old) × (drawing.new ≡ drawing.old)) }
{
    let Edits {
        each,
        staying,
        overflows,
    } = edits_at(alloc, chart, sources, index, change)?;
    if is_past(chart, sources, index, staying, change) {
        return Ok(Reply::Refused(Cause::Limit));
    }
    if overflows {
        return Ok(Reply::Refused(Cause::Overflow));
    }
    let more = new_rows(alloc, chart.next_id, change.insert.as_slice())?;
    put_rows(alloc, chart, sources, index, drawing, each, more)
}

/// Does a change of the source at an index, over a state of a specification and what is drawn of that. Where it is refused, or memory is, all
/// stays.
pub fn change_source(
    alloc: Global,
    g: &VgSpec,
    st: &mut ChartState,
    drawing: &mut Drawing,
    index: usize,
    change: &ChangeOf,
) -> Result<Reply, OutOfMemory>
    requires kept { IsKept g.now st.old drawing.old }
    requires within { index < length st.old.sources }
    ensures reply { IfOk result (λ reply. reply
        ≡ reply_at g.now st.old.stores st.old.next_id st.old.params (signals_in g.now (state_of st.old)) (map dataset_of st.old.sources) index
        change.now) }
    ensures done { IfOk result (λ reply. state_of st.new ≡ state_if reply (state_of st.old)
        (state_at (signals_in g.now (state_of st.old)) (state_of st.old) index change.now)) }
    ensures memory { OnErr result (st.new ≡ st.old) }
    ensures kept { IsKept g.now st.new drawing.new }
{
    let signals = signals_in(alloc, g, st)?;
    let mut sources = replace(&mut st.sources, Seq::new(alloc)).into_vec();
    let chart = Chart {
        g,
        params: st.params.as_slice(),
        stores: st.stores.as_slice(),
        signals: signals.as_slice(),
        next_id: st.next_id,
    };
    let result = change_rows(alloc, &chart, &mut sources, index, drawing, change);
    st.sources = Seq::from_vec(sources);
    match result {
        Ok(Reply::Done) => {
            st.next_id += change.insert.len() as u64;
            Ok(Reply::Done)
        }
        Ok(Reply::Refused(cause)) => Ok(Reply::Refused(cause)),
        Err(OutOfMemory) => Err(OutOfMemory),
    }
}

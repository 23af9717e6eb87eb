// The selections of a specification.
ghost use Rattle.std.specs.Prelude.{◌≡◌, ◌++◌, ℕ, List, [], filter_map, unwrap_or, IfOk, OnOk};
ghost use Rattle.std.specs.BTreeSet.{contains_text};
ghost use Rattle.std.specs.Option.{option_map_or, option_to_list};
ghost use Rattle.std.specs.List.{list_any};
ghost use Rattle.std.specs.Str.{bytes_eq};
ghost use Rattle.vega_selections.specs.Updates.{channels_in as channels_of, scales_in as scales_of, texts_with as texts_said};
ghost use Rattle.vega_selections.specs.Selections.{concerns, unit_at, units_of, fields_on, selection_of, selection_with, selection_in, selections_of};

use crate::marks::push_names;
use crate::updates::{channels_in, each_once, has_entry, scales_in, set_of, texts_with};
use selection_events::{DragOf, SelectionOf};
use std::alloc::Global;
use std::collections::BTreeSet;
use text_kit::{OutOfMemory, Seq, Text};
use vega_spec::{EventSelector, EventUpdate, Signal, VgSpec};

/// A selection of a Vega specification.
#[derive(Debug, Drop)]
pub struct VgSelection {
    /// What it does on events.
    pub selection: SelectionOf,
    /// The names of the scales that its drags invert, one for each of its channels.
    pub scales: Seq<Text>,
}

// The names that a selection gives, as a set; none where it gives none.
fn names_given(alloc: Global, names: &Option<Seq<Text>>) -> Result<BTreeSet<String>, OutOfMemory>
    ensures { IfOk result (λ set. (q : List ℕ) → contains_text set q ≡ list_any (bytes_eq q) (unwrap_or names.now [])) }
{
    match names {
        Some(names) => set_of(alloc, names.as_slice()),
        None => Ok(BTreeSet::new(alloc)),
    }
}

// Whether a selection concerns a mark of this name, where the names that it gives are these.
fn concerns(names: &Option<Seq<Text>>, given: &BTreeSet<String>, name: &Option<Text>) -> bool
    requires { (q : List ℕ) → contains_text given.now q ≡ list_any (bytes_eq q) (unwrap_or names.now []) }
    ensures { result ≡ concerns names.now name.now }
{
    match names {
        None => true,
        Some(_) => match name {
            None => false,
            Some(name) => given.contains(name.as_str()),
        },
    }
}

// Adds the number of a mark that a selection concerns.
fn push_unit(
    names: &Option<Seq<Text>>,
    given: &BTreeSet<String>,
    at: usize,
    name: &Option<Text>,
    out: &mut Seq<u32>,
) -> Result<(), OutOfMemory>
    requires { (q : List ℕ) → contains_text given.now q ≡ list_any (bytes_eq q) (unwrap_or names.now []) }
    ensures { OnOk result (out.new ≡ out.old ++ option_to_list (unit_at names.now (at, name.now))) }
{
    if !concerns(names, given, name) {
        return Ok(());
    }
    match u32::try_from(at) {
        Ok(unit) => out.push(unit),
        Err(_) => Err(OutOfMemory),
    }
}

// The numbers of the marks that a selection concerns.
fn units_of(
    alloc: Global,
    marks: &[Option<Text>],
    names: &Option<Seq<Text>>,
) -> Result<Seq<u32>, OutOfMemory>
    ensures { IfOk result (λ units. units ≡ units_of marks.now names.now) }
{
    let given = names_given(alloc, names)?;
    let mut out = Seq::new(alloc);
    for (at, name) in marks.iter().enumerate() {
        push_unit(names, &given, at, name, &mut out)?;
    }
    Ok(out)
}

// The fields that a selection keeps of an event, if it does something on it.
fn fields_on(
    alloc: Global,
    events: EventSelector,
    entries: &[EventUpdate],
) -> Result<Option<Seq<Text>>, OutOfMemory>
    ensures { IfOk result (λ fields. fields ≡ fields_on (texts_said events entries.now)) }
{
    match texts_with(alloc, events, entries)? {
        Some(texts) => Ok(Some(each_once(alloc, texts.as_slice())?)),
        None => Ok(None),
    }
}

// The channels of a drag, if the selection does something on one.
fn channels_on(alloc: Global, texts: &Option<Seq<Text>>) -> Result<Seq<DragOf>, OutOfMemory>
    ensures { IfOk result (λ channels. channels ≡ option_map_or channels_of texts.now []) }
{
    match texts {
        Some(texts) => channels_in(alloc, texts.as_slice()),
        None => Ok(Seq::new(alloc)),
    }
}

// The names of their scales.
fn scales_on(alloc: Global, texts: &Option<Seq<Text>>) -> Result<Seq<Text>, OutOfMemory>
    ensures { IfOk result (λ names. names ≡ option_map_or scales_of texts.now []) }
{
    match texts {
        Some(texts) => scales_in(alloc, texts.as_slice()),
        None => Ok(Seq::new(alloc)),
    }
}

// A signal with these entries, as a selection whose drags say these texts.
fn selection_of(
    alloc: Global,
    marks: &[Option<Text>],
    s: &Signal,
    entries: &[EventUpdate],
) -> Result<SelectionOf, OutOfMemory>
    ensures { IfOk result (λ selection. selection ≡ selection_of marks.now s.now entries.now) }
{
    let texts = texts_with(alloc, EventSelector::Drag, entries)?;
    let drag = channels_on(alloc, &texts)?;
    let click = fields_on(alloc, EventSelector::Click, entries)?;
    let toggle = fields_on(alloc, EventSelector::ShiftClick, entries)?;
    let units = units_of(alloc, marks, &s.marks)?;
    Ok(SelectionOf {
        name: s.name.copy()?,
        units,
        click,
        toggle,
        clears: has_entry(EventSelector::DoubleClick, entries),
        drag,
    })
}

// The same with the names of the scales.
fn selection_with(
    alloc: Global,
    marks: &[Option<Text>],
    s: &Signal,
    entries: &[EventUpdate],
) -> Result<VgSelection, OutOfMemory>
    ensures { IfOk result (λ selection. selection ≡ selection_with marks.now s.now entries.now) }
{
    let texts = texts_with(alloc, EventSelector::Drag, entries)?;
    let scales = scales_on(alloc, &texts)?;
    let selection = selection_of(alloc, marks, s, entries)?;
    Ok(VgSelection { selection, scales })
}

// Adds the selection that a signal is, if it is one.
fn push_selection(
    alloc: Global,
    marks: &[Option<Text>],
    s: &Signal,
    out: &mut Seq<VgSelection>,
) -> Result<(), OutOfMemory>
    ensures { OnOk result (out.new ≡ out.old ++ option_to_list (selection_in marks.now s.now)) }
{
    match &s.on {
        Some(entries) => out.push(selection_with(alloc, marks, s, entries.as_slice())?),
        None => Ok(()),
    }
}

// The selections among some signals.
fn selections_among(
    alloc: Global,
    marks: &[Option<Text>],
    signals: &[Signal],
) -> Result<Seq<VgSelection>, OutOfMemory>
    ensures { IfOk result (λ selections. selections ≡ filter_map (selection_in marks.now) signals.now) }
{
    let mut out = Seq::new(alloc);
    for s in signals {
        push_selection(alloc, marks, s, &mut out)?;
    }
    Ok(out)
}

/// The selections of a specification, in the order of the signals of its top: each signal with `on`, with the numbers of the marks that it
/// concerns, which are counted from 0 in the order of the text, and with what the entries of its `on` say.
pub fn selections_of(alloc: Global, g: &VgSpec) -> Result<Seq<VgSelection>, OutOfMemory>
    ensures { IfOk result (λ selections. selections ≡ selections_of g.now) }
{
    let mut marks = Seq::new(alloc);
    push_names(alloc, &g.group, &mut marks)?;
    match &g.group.signals {
        Some(signals) => selections_among(alloc, marks.as_slice(), signals.as_slice()),
        None => Ok(Seq::new(alloc)),
    }
}

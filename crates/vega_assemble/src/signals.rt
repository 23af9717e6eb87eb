// Parameters as signals.
ghost use Rattle.std.specs.Prelude.{◌≡◌, ◌++◌, codes, map, flat_map, option_map, option_to_list, Some, IfOk, OnOk};
ghost use Rattle.vega_assemble.specs.Names.{mark_name};
ghost use Rattle.vega_assemble.specs.Signals.{quoted, and_quoted, call, entry, clicked, toggled, channel_code, triple, triples, dragged, cleared, entries};
ghost use Rattle.vega_assemble.specs.Signals.{set_signal, computed_signal, selection_signal, silent_signal, signals_of};
ghost use Rattle.vega_assemble.specs.Signals.{selected_at, signal_at, place_behind};

use crate::drags::dragged_name;
use crate::names::mark_name;
use crate::several::text_beside;
use cell_value::Cell;
use expr_syntax::{Expr, write};
use plan_kit::{ScalePlan, SelectionPlan};
use selection_events::DragOf;
use std::alloc::Global;
use text_kit::{Copies, OutOfMemory, Seq, Text};
use vega_spec::{EventSelector, EventUpdate, Signal};
use vl_normalize::{X, Y};
use vl_spec::{ParamKind, ParamOf};

// ---- calls

// A text in quotes.
fn quoted(alloc: Global, text: &Text) -> Result<Text, OutOfMemory>
    ensures { IfOk result (λ made. made ≡ quoted text.now) }
{
    let e = text.copy().map(Expr::Text)?;
    write(alloc, &e)
}

// Adds a text in quotes behind a comma.
fn push_quoted(alloc: Global, text: &Text, out: &mut Text) -> Result<(), OutOfMemory>
    ensures { OnOk result (out.new ≡ out.old ++ and_quoted text.now) }
{
    let mut more = Text::of(alloc, ", ")?;
    more.push_str(quoted(alloc, text)?.as_str())?;
    out.push_str(more.as_str())
}

// Adds several.
fn push_all_quoted(alloc: Global, texts: &[Text], out: &mut Text) -> Result<(), OutOfMemory>
    ensures { OnOk result (out.new ≡ out.old ++ flat_map and_quoted texts.now) }
{
    for text in texts {
        push_quoted(alloc, text, out)?;
    }
    Ok(())
}

// A call of a name with a text and more of them.
fn call(alloc: Global, name: &str, first: &Text, others: &[Text]) -> Result<Text, OutOfMemory>
    ensures { IfOk result (λ made. made ≡ call name.now first.now others.now) }
{
    let mut made = Text::of(alloc, name)?;
    made.push_str("(")?;
    made.push_str(quoted(alloc, first)?.as_str())?;
    push_all_quoted(alloc, others, &mut made)?;
    made.push_str(")")?;
    Ok(made)
}

// The call that keeps an item.
fn point_call(alloc: Global, name: &Text, fields: &[Text]) -> Result<Text, OutOfMemory>
    ensures { IfOk result (λ made. made ≡ call (codes "vlPoint") name.now fields.now) }
{
    call(alloc, "vlPoint", name, fields)
}

// The call that keeps an item beside others, or no longer.
fn toggle_call(alloc: Global, name: &Text, fields: &[Text]) -> Result<Text, OutOfMemory>
    ensures { IfOk result (λ made. made ≡ call (codes "vlToggle") name.now fields.now) }
{
    call(alloc, "vlToggle", name, fields)
}

// The call that keeps what a drag spans.
fn interval_call(alloc: Global, name: &Text, triples: &[Text]) -> Result<Text, OutOfMemory>
    ensures { IfOk result (λ made. made ≡ call (codes "vlInterval") name.now triples.now) }
{
    call(alloc, "vlInterval", name, triples)
}

// ---- entries

// An entry.
fn entry(events: EventSelector, update: Text) -> EventUpdate
    ensures { result ≡ entry events update }
{
    EventUpdate { events, update }
}

// What is kept of an item that is clicked.
fn clicked(alloc: Global, name: &Text, fields: &[Text]) -> Result<EventUpdate, OutOfMemory>
    ensures { IfOk result (λ made. made ≡ clicked name.now fields.now) }
{
    let update = point_call(alloc, name, fields)?;
    Ok(entry(EventSelector::Click, update))
}

// The same with the shift key.
fn toggled(alloc: Global, name: &Text, fields: &[Text]) -> Result<EventUpdate, OutOfMemory>
    ensures { IfOk result (λ made. made ≡ toggled name.now fields.now) }
{
    let update = toggle_call(alloc, name, fields)?;
    Ok(entry(EventSelector::ShiftClick, update))
}

// Adds the first, if there is something to keep.
fn push_clicked(
    alloc: Global,
    name: &Text,
    fields: &Option<Seq<Text>>,
    out: &mut Seq<EventUpdate>,
) -> Result<(), OutOfMemory>
    ensures { OnOk result (out.new ≡ out.old ++ option_to_list (option_map (clicked name.now) fields.now)) }
{
    match fields {
        Some(fields) => out.push(clicked(alloc, name, fields.as_slice())?),
        None => Ok(()),
    }
}

// Adds the second.
fn push_toggled(
    alloc: Global,
    name: &Text,
    fields: &Option<Seq<Text>>,
    out: &mut Seq<EventUpdate>,
) -> Result<(), OutOfMemory>
    ensures { OnOk result (out.new ≡ out.old ++ option_to_list (option_map (toggled name.now) fields.now)) }
{
    match fields {
        Some(fields) => out.push(toggled(alloc, name, fields.as_slice())?),
        None => Ok(()),
    }
}

// The code of the channel of a drag.
fn channel_code(word: &Text) -> u16
    ensures { result ≡ channel_code word.now }
{
    if word.as_str() == "y" { Y } else { X }
}

// Adds the channel, the scale and the field of a drag.
fn push_triple(
    alloc: Global,
    stem: &Text,
    scales: &[ScalePlan],
    selection: usize,
    s: &SelectionPlan,
    drag: &DragOf,
    out: &mut Seq<Text>,
) -> Result<(), OutOfMemory>
    ensures { OnOk result (out.new ≡ out.old ++ triple stem.now scales.now selection s.now drag.now) }
{
    let name = dragged_name(
        alloc,
        stem,
        scales,
        selection,
        s,
        channel_code(&drag.channel),
    )?;
    out.push(drag.channel.copy()?)?;
    out.push(name)?;
    out.push(drag.field.copy()?)
}

// The same of all channels.
fn triples(
    alloc: Global,
    stem: &Text,
    scales: &[ScalePlan],
    selection: usize,
    s: &SelectionPlan,
) -> Result<Seq<Text>, OutOfMemory>
    ensures { IfOk result (λ texts. texts ≡ triples stem.now scales.now selection s.now) }
{
    let mut out = Seq::new(alloc);
    for drag in s.kept.drag.as_slice() {
        push_triple(alloc, stem, scales, selection, s, drag, &mut out)?;
    }
    Ok(out)
}

// Adds what a drag keeps, if there is something.
fn push_dragged(
    alloc: Global,
    name: &Text,
    triples: &Seq<Text>,
    out: &mut Seq<EventUpdate>,
) -> Result<(), OutOfMemory>
    ensures { OnOk result (out.new ≡ out.old ++ dragged name.now triples.now) }
{
    if triples.is_empty() {
        Ok(())
    } else {
        let update = interval_call(alloc, name, triples.as_slice())?;
        out.push(entry(EventSelector::Drag, update))
    }
}

// Adds that a double click clears, if it does.
fn push_cleared(
    alloc: Global,
    clears: bool,
    name: &Text,
    out: &mut Seq<EventUpdate>,
) -> Result<(), OutOfMemory>
    ensures { OnOk result (out.new ≡ out.old ++ cleared clears name.now) }
{
    if clears {
        out.push(entry(
            EventSelector::DoubleClick,
            call(alloc, "vlClear", name, &[])?,
        ))
    } else {
        Ok(())
    }
}

// All entries of the selection at a place.
fn entries(
    alloc: Global,
    stem: &Text,
    scales: &[ScalePlan],
    selection: usize,
    s: &SelectionPlan,
) -> Result<Seq<EventUpdate>, OutOfMemory>
    ensures { IfOk result (λ made. made ≡ entries stem.now scales.now selection s.now) }
{
    let drags = triples(alloc, stem, scales, selection, s)?;
    let mut out = Seq::new(alloc);
    push_clicked(alloc, &s.kept.name, &s.kept.click, &mut out)?;
    push_toggled(alloc, &s.kept.name, &s.kept.toggle, &mut out)?;
    push_dragged(alloc, &s.kept.name, &drags, &mut out)?;
    push_cleared(alloc, s.kept.clears, &s.kept.name, &mut out)?;
    Ok(out)
}

// ---- signals

// One that can be set.
fn set_signal(alloc: Global, name: &Text, value: &Cell) -> Result<Signal, OutOfMemory>
    ensures { IfOk result (λ made. made ≡ set_signal name.now value.now) }
{
    let name = name.copy()?;
    let value = value.copied(alloc)?;
    Ok(Signal {
        name,
        value: Some(value),
        update: None,
        on: None,
        marks: None,
    })
}

// A computed one.
fn computed_signal(alloc: Global, name: &Text, e: &Expr) -> Result<Signal, OutOfMemory>
    ensures { IfOk result (λ made. made ≡ computed_signal name.now e.now) }
{
    let name = name.copy()?;
    let e = e.copy(alloc)?;
    Ok(Signal {
        name,
        value: None,
        update: Some(e),
        on: None,
        marks: None,
    })
}

// The names of the marks of units.
fn marks_of(alloc: Global, stem: &Text, units: &[u32]) -> Result<Seq<Text>, OutOfMemory>
    ensures { IfOk result (λ names. names ≡ map (mark_name stem.now) units.now) }
{
    let mut out = Seq::new(alloc);
    for unit in units {
        out.push(mark_name(alloc, stem, *unit as usize)?)?;
    }
    Ok(out)
}

// A selection with entries and marks.
fn selection_with(
    name: &Text,
    on: Seq<EventUpdate>,
    marks: Seq<Text>,
) -> Result<Signal, OutOfMemory>
    ensures { IfOk result (λ made. made ≡ record (silent_signal name.now) { on = Some on; marks = Some marks }) }
{
    let ((on, marks), name) = text_beside((on, marks), name)?;
    Ok(Signal {
        name,
        value: None,
        update: None,
        on: Some(on),
        marks: Some(marks),
    })
}

// The selection at a place.
fn selection_signal(
    alloc: Global,
    stem: &Text,
    scales: &[ScalePlan],
    name: &Text,
    selection: usize,
    s: &SelectionPlan,
) -> Result<Signal, OutOfMemory>
    ensures { IfOk result (λ made. made ≡ selection_signal stem.now scales.now name.now (selection, s.now)) }
{
    let marks = marks_of(alloc, stem, s.kept.units.as_slice())?;
    let on = entries(alloc, stem, scales, selection, s)?;
    selection_with(name, on, marks)
}

// The selection at a place, if the plan has one there.
fn selected(
    alloc: Global,
    stem: &Text,
    scales: &[ScalePlan],
    selections: &[SelectionPlan],
    name: &Text,
    place: usize,
) -> Result<Signal, OutOfMemory>
    ensures { IfOk result (λ made. made ≡ selected_at stem.now scales.now selections.now name.now place) }
{
    match selections.get(place) {
        Some(s) => selection_signal(alloc, stem, scales, name, place, s),
        None => selection_with(name, Seq::new(alloc), Seq::new(alloc)),
    }
}

// A parameter, where so many selections stand before it.
fn signal_of(
    alloc: Global,
    stem: &Text,
    scales: &[ScalePlan],
    selections: &[SelectionPlan],
    place: usize,
    param: &ParamOf,
) -> Result<Signal, OutOfMemory>
    ensures { IfOk result (λ made. made ≡ signal_at stem.now scales.now selections.now place param.now) }
{
    match &param.kind {
        ParamKind::Value(value) => set_signal(alloc, &param.name, value),
        ParamKind::Expr(e) => computed_signal(alloc, &param.name, e),
        ParamKind::Select(_) => selected(alloc, stem, scales, selections, &param.name, place),
    }
}

// How many selections stand before what comes behind a parameter.
fn place_behind(place: usize, param: &ParamOf) -> Result<usize, OutOfMemory>
    ensures { IfOk result (λ behind. behind ≡ place_behind place param.now) }
{
    match &param.kind {
        ParamKind::Value(_) | ParamKind::Expr(_) => Ok(place),
        ParamKind::Select(_) => match place.checked_add(1) {
            Some(behind) => Ok(behind),
            None => Err(OutOfMemory),
        },
    }
}

/// The signals of parameters.
pub(crate) fn signals_of(
    alloc: Global,
    stem: &Text,
    scales: &[ScalePlan],
    selections: &[SelectionPlan],
    params: &[ParamOf],
) -> Result<Seq<Signal>, OutOfMemory>
    ensures { IfOk result (λ made. made ≡ signals_of stem.now scales.now selections.now params.now) }
{
    let mut out = Seq::new(alloc);
    let mut place = 0;
    for param in params {
        out.push(signal_of(alloc, stem, scales, selections, place, param)?)?;
        place = place_behind(place, param)?;
    }
    Ok(out)
}

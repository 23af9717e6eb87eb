//! What the event updates of a signal give.
ghost use Rattle.std.specs.Prelude.{◌≡◌, ◌++◌, [], take, reverse, IfOk, OnOk};
ghost use Rattle.std.specs.Option.{option_to_list};
ghost use Rattle.std.specs.List.{list_any};
ghost use Rattle.json_exact.specs.declared.json.Json.{out-Json};
ghost use Rattle.json_exact.specs.Inside.{text_in};
ghost use Rattle.vega_parts.specs.Selections.{entry_with, entry_by, entry_of, entries_in, entries_of, is_of_another, misses_channels};
ghost use Rattle.vega_parts.specs.Selections.{clashes_with, is_wrong_alone, is_wrong, is_wrong_entry, entry_fault, interval, intervals_in};
ghost use Rattle.vega_parts.specs.Selections.{intervals_of, entry_intervals, entry_parts, entries_parts, texts_of, marks_of, concerned_by};
ghost use Rattle.vega_parts.specs.Selections.{own_name, updates_in, update_parts};

use crate::around::{Around, below_grandchild, scope_of};
use crate::members::{items_at, text_at, text_in};
use crate::names::push_fault;
use crate::part::{Part, Place};
use crate::several::{all_four, all_three, both};
use crate::updates::{
    Update, channels_fit, clash, fields_of, is_drag, is_selector, is_update_of, stands_with,
    update_of,
};
use json_exact::Json;
use spec_schema::SpecKind;
use std::alloc::Global;
use text_kit::{Copies, OutOfMemory, Seq, Text};

/// An entry of a signal's event updates.
#[derive(Drop)]
pub struct Entry {
    /// Where its update stands.
    pub at: Place,
    /// Its event selector.
    pub events: Text,
    /// Its update, where it has one of the four forms.
    pub update: Option<Update>,
}

/// What a signal concerns.
#[derive(Drop)]
pub struct Concerned {
    /// The name of the signal, where it has one.
    pub own: Option<Text>,
    /// The object that has the signal.
    pub scope: Place,
    /// The marks that it names, where it names some.
    pub marks: Option<Seq<Text>>,
}

// The entry with this selector and this update.
fn entry_with(
    alloc: Global,
    trail: &[Around],
    number: usize,
    inner: usize,
    events: &str,
    update: usize,
    text: &str,
) -> Result<Entry, OutOfMemory>
    ensures { IfOk result (λ e. e ≡ entry_with (reverse trail.now) number inner events.now (update, text.now)) }
{
    let (at, events, update) = all_three(
        below_grandchild(alloc, trail, number, inner, update),
        Text::of(alloc, events),
        update_of(alloc, text),
    )?;
    Ok(Entry { at, events, update })
}

// Adds an entry with this selector, where its update is a text.
fn push_entry_with(
    alloc: Global,
    trail: &[Around],
    number: usize,
    inner: usize,
    events: &str,
    item: &Json,
    out: &mut Seq<Entry>,
) -> Result<(), OutOfMemory>
    ensures { OnOk result (out.new ≡ out.old ++ entry_by (reverse trail.now) number inner events.now item.now) }
{
    match text_at(item, "update") {
        Some((update, text)) => {
            let entry = entry_with(alloc, trail, number, inner, events, update, text)?;
            out.push(entry)
        }
        None => Ok(()),
    }
}

// Adds an entry that is judged.
fn push_entry(
    alloc: Global,
    trail: &[Around],
    number: usize,
    inner: usize,
    item: &Json,
    out: &mut Seq<Entry>,
) -> Result<(), OutOfMemory>
    ensures { OnOk result (out.new ≡ out.old ++ entry_of (reverse trail.now) number (inner, item.now)) }
{
    match text_at(item, "events") {
        Some((_, events)) => {
            if is_selector(events) {
                push_entry_with(alloc, trail, number, inner, events, item, out)
            } else {
                Ok(())
            }
        }
        None => Ok(()),
    }
}

// The entries that are judged, of all these.
fn entries_in(
    alloc: Global,
    trail: &[Around],
    number: usize,
    items: &[Json],
) -> Result<Seq<Entry>, OutOfMemory>
    ensures { IfOk result (λ entries. entries ≡ entries_in (reverse trail.now) number items.now) }
{
    let mut out = Seq::new(alloc);
    for (inner, item) in items.iter().enumerate() {
        push_entry(alloc, trail, number, inner, item, &mut out)?;
    }
    Ok(out)
}

// The first five of some values.
fn first_five(items: &[Json]) -> &[Json]
    ensures { result.now ≡ take 5 items.now }
{
    if items.len() < 5 { items } else { &items[..5] }
}

// The entries that are judged.
fn entries_of(
    alloc: Global,
    trail: &[Around],
    number: usize,
    items: &[Json],
) -> Result<Seq<Entry>, OutOfMemory>
    ensures { IfOk result (λ entries. entries ≡ entries_of (reverse trail.now) number items.now) }
{
    entries_in(alloc, trail, number, first_five(items))
}

// Whether an update is one of another signal.
fn is_of_another(concerned: &Concerned, update: &Update) -> bool
    ensures { result ≡ is_of_another concerned.now.own update.now }
{
    match &concerned.own {
        Some(own) => !is_update_of(own.as_str(), update),
        None => false,
    }
}

// Whether the channels of a drag don't fit.
fn misses_channels(update: &Update) -> bool
    ensures { result ≡ misses_channels update.now }
{
    is_drag(update.change) && !channels_fit(fields_of(update))
}

// Whether an update can't stand beside an earlier one.
fn clashes_with(alloc: Global, update: &Update, earlier: &Entry) -> Result<bool, OutOfMemory>
    ensures { IfOk result (λ b. b ≡ clashes_with update.now earlier.now) }
{
    match &earlier.update {
        Some(other) => clash(alloc, update, other),
        None => Ok(false),
    }
}

// Whether it can't stand beside one of several.
fn clashes_with_one(alloc: Global, update: &Update, earlier: &[Entry]) -> Result<bool, OutOfMemory>
    ensures { IfOk result (λ b. b ≡ list_any (clashes_with update.now) earlier.now) }
{
    for entry in earlier {
        if clashes_with(alloc, update, entry)? {
            return Ok(true);
        }
    }
    Ok(false)
}

// Whether an update is wrong by itself.
fn is_wrong_alone(concerned: &Concerned, events: &str, update: &Update) -> bool
    ensures { result ≡ is_wrong_alone concerned.now.own events.now update.now }
{
    !stands_with(events, update) || is_of_another(concerned, update) || misses_channels(update)
}

// Whether an update is wrong after some earlier entries.
fn is_wrong(
    alloc: Global,
    concerned: &Concerned,
    earlier: &[Entry],
    events: &str,
    update: &Update,
) -> Result<bool, OutOfMemory>
    ensures { IfOk result (λ b. b ≡ is_wrong concerned.now.own earlier.now events.now update.now) }
{
    if is_wrong_alone(concerned, events, update) {
        Ok(true)
    } else {
        clashes_with_one(alloc, update, earlier)
    }
}

// Whether an entry is wrong after some earlier ones.
fn is_wrong_entry(
    alloc: Global,
    concerned: &Concerned,
    earlier: &[Entry],
    entry: &Entry,
) -> Result<bool, OutOfMemory>
    ensures { IfOk result (λ b. b ≡ is_wrong_entry concerned.now.own earlier.now entry.now) }
{
    match &entry.update {
        Some(update) => is_wrong(alloc, concerned, earlier, entry.events.as_str(), update),
        None => Ok(true),
    }
}

// Adds the fault of an entry.
fn push_entry_fault(
    alloc: Global,
    concerned: &Concerned,
    earlier: &[Entry],
    entry: &Entry,
    out: &mut Seq<Part>,
) -> Result<(), OutOfMemory>
    ensures { OnOk result (out.new ≡ out.old ++ entry_fault concerned.now.own earlier.now entry.now) }
{
    if is_wrong_entry(alloc, concerned, earlier, entry)? {
        push_fault(
            Seq::from_slice(alloc, entry.at.as_slice())?,
            SpecKind::Wrong,
            out,
        )
    } else {
        Ok(())
    }
}

// Adds a scale of a drag.
fn push_interval(
    alloc: Global,
    concerned: &Concerned,
    at: &[usize],
    scale: &str,
    out: &mut Seq<Part>,
) -> Result<(), OutOfMemory>
    ensures { OnOk result (out.new ≡ out.old ++ interval concerned.now at.now scale.now) }
{
    let (at, scope, scale, marks) = all_four(
        Seq::from_slice(alloc, at),
        Seq::from_slice(alloc, concerned.scope.as_slice()),
        Text::of(alloc, scale),
        Copies::copied(&concerned.marks, alloc),
    )?;
    out.push(Part::Interval {
        at,
        scope,
        scale,
        marks,
    })
}

// Adds the scales of one or two triples.
fn push_intervals_in(
    alloc: Global,
    concerned: &Concerned,
    at: &[usize],
    triples: &[Text],
    out: &mut Seq<Part>,
) -> Result<(), OutOfMemory>
    ensures { OnOk result (out.new ≡ out.old ++ intervals_in concerned.now at.now triples.now) }
{
    match triples {
        [_, scale, _] => push_interval(alloc, concerned, at, scale.as_str(), out),
        [_, first, _, _, second, _] => {
            push_interval(alloc, concerned, at, first.as_str(), out)?;
            push_interval(alloc, concerned, at, second.as_str(), out)
        }
        _ => Ok(()),
    }
}

// Adds the scales of an update.
fn push_intervals_of(
    alloc: Global,
    concerned: &Concerned,
    at: &[usize],
    update: &Update,
    out: &mut Seq<Part>,
) -> Result<(), OutOfMemory>
    ensures { OnOk result (out.new ≡ out.old ++ intervals_of concerned.now at.now update.now) }
{
    if is_drag(update.change) {
        push_intervals_in(alloc, concerned, at, fields_of(update), out)
    } else {
        Ok(())
    }
}

// Adds the scales of an entry.
fn push_entry_intervals(
    alloc: Global,
    concerned: &Concerned,
    entry: &Entry,
    out: &mut Seq<Part>,
) -> Result<(), OutOfMemory>
    ensures { OnOk result (out.new ≡ out.old ++ entry_intervals concerned.now entry.now) }
{
    match &entry.update {
        Some(update) => push_intervals_of(alloc, concerned, entry.at.as_slice(), update, out),
        None => Ok(()),
    }
}

// Adds what an entry gives after some earlier ones.
fn push_entry_parts(
    alloc: Global,
    concerned: &Concerned,
    earlier: &[Entry],
    entry: &Entry,
    out: &mut Seq<Part>,
) -> Result<(), OutOfMemory>
    ensures { OnOk result (out.new ≡ out.old ++ entry_parts concerned.now earlier.now entry.now) }
{
    push_entry_fault(alloc, concerned, earlier, entry, out)?;
    push_entry_intervals(alloc, concerned, entry, out)
}

// Adds what several entries give.
#[tactic(auto, using(crate::proofs::Entries::one_more_entry))]
fn push_entries_parts(
    alloc: Global,
    concerned: &Concerned,
    entries: &[Entry],
    out: &mut Seq<Part>,
) -> Result<(), OutOfMemory>
    ensures { OnOk result (out.new ≡ out.old ++ entries_parts concerned.now [] entries.now) }
{
    for (i, entry) in entries.iter().enumerate() {
        push_entry_parts(alloc, concerned, &entries[..i], entry, out)?;
    }
    Ok(())
}

// The texts of a list.
fn texts_of(alloc: Global, items: &[Json]) -> Result<Seq<Text>, OutOfMemory>
    ensures { IfOk result (λ texts. texts ≡ texts_of items.now) }
{
    let mut out = Seq::new(alloc);
    for item in items {
        push_text(alloc, item, &mut out)?;
    }
    Ok(out)
}

// Adds a value that is a text.
fn push_text(alloc: Global, item: &Json, out: &mut Seq<Text>) -> Result<(), OutOfMemory>
    ensures { OnOk result (out.new ≡ out.old ++ option_to_list (text_in (out-Json item.now))) }
{
    match text_in(item) {
        Some(text) => out.push(Text::of(alloc, text)?),
        None => Ok(()),
    }
}

// The marks that a signal names.
fn marks_of(alloc: Global, tree: &Json) -> Result<Option<Seq<Text>>, OutOfMemory>
    ensures { IfOk result (λ marks. marks ≡ marks_of tree.now) }
{
    match items_at(tree, "marks") {
        Some((_, items)) => Ok(Some(texts_of(alloc, items)?)),
        None => Ok(None),
    }
}

// What a signal concerns.
fn concerned_by(alloc: Global, trail: &[Around], tree: &Json) -> Result<Concerned, OutOfMemory>
    ensures { IfOk result (λ c. c ≡ concerned_by (reverse trail.now) tree.now) }
{
    let (own, scope, marks) = all_three(
        own_name(alloc, tree),
        scope_of(alloc, trail),
        marks_of(alloc, tree),
    )?;
    Ok(Concerned { own, scope, marks })
}

// The name of a signal.
fn own_name(alloc: Global, tree: &Json) -> Result<Option<Text>, OutOfMemory>
    ensures { IfOk result (λ own. own ≡ own_name tree.now) }
{
    match text_at(tree, "name") {
        Some((_, name)) => Ok(Some(Text::of(alloc, name)?)),
        None => Ok(None),
    }
}

// Adds what entries give.
fn push_updates_in(
    alloc: Global,
    trail: &[Around],
    tree: &Json,
    number: usize,
    items: &[Json],
    out: &mut Seq<Part>,
) -> Result<(), OutOfMemory>
    ensures { OnOk result (out.new ≡ out.old ++ updates_in (reverse trail.now) tree.now number items.now) }
{
    let (entries, concerned) = both(
        entries_of(alloc, trail, number, items),
        concerned_by(alloc, trail, tree),
    )?;
    let pushed = push_entries_parts(alloc, &concerned, entries.as_slice(), out);
    drop(entries);
    drop(concerned);
    pushed
}

/// Adds what the event updates of a signal give.
pub fn push_update_parts(
    alloc: Global,
    trail: &[Around],
    tree: &Json,
    out: &mut Seq<Part>,
) -> Result<(), OutOfMemory>
    ensures { OnOk result (out.new ≡ out.old ++ update_parts (reverse trail.now) tree.now) }
{
    match items_at(tree, "on") {
        Some((number, items)) => push_updates_in(alloc, trail, tree, number, items, out),
        None => Ok(()),
    }
}

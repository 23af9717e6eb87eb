// What the entries of `on` say.
ghost use Rattle.std.specs.Prelude.{◌≡◌, ◌++◌, ◌||◌, ℕ, List, [], ◌∷◌, drop, is_some, option_copied, IfOk, OnOk};
ghost use Rattle.std.specs.List.{list_any};
ghost use Rattle.std.specs.BTreeSet.{contains_text};
ghost use Rattle.std.specs.Str.{bytes_eq};
ghost use Rattle.vega_selections.specs.Updates.{number_of, is_same, texts_of, entry_with, texts_with, once_behind, each_once, channel_of};
ghost use Rattle.vega_selections.specs.Updates.{channels_in, scales_in};

use expr_reading::call_of;
use selection_events::DragOf;
use std::alloc::Global;
use std::collections::BTreeSet;
use text_kit::{OutOfMemory, Seq, Text, copy_list};
use vega_spec::{EventSelector, EventUpdate};

// The number of a selector.
fn number_of(events: EventSelector) -> u8
    ensures { result ≡ number_of events }
{
    match events {
        EventSelector::Click => 0,
        EventSelector::ShiftClick => 1,
        EventSelector::DoubleClick => 2,
        EventSelector::Drag => 3,
    }
}

// Whether two selectors are the same.
fn is_same(a: EventSelector, b: EventSelector) -> bool
    ensures { result ≡ is_same a b }
{
    number_of(a) == number_of(b)
}

// The entry with a selector.
fn entry_with(events: EventSelector, entries: &[EventUpdate]) -> Option<&EventUpdate>
    ensures { option_copied result ≡ entry_with events entries.now }
{
    for entry in entries {
        if is_same(events, entry.events) {
            return Some(entry);
        }
    }
    None
}

/// Whether there is an entry with a selector.
pub(crate) fn has_entry(events: EventSelector, entries: &[EventUpdate]) -> bool
    ensures { result ≡ is_some (entry_with events entries.now) }
{
    match entry_with(events, entries) {
        Some(_) => true,
        None => false,
    }
}

// The texts behind the first of some.
fn behind_first(alloc: Global, texts: &[Text]) -> Result<Seq<Text>, OutOfMemory>
    ensures { IfOk result (λ rest. rest ≡ drop 1 texts.now) }
{
    match texts {
        [_, rest @ ..] => copy_list(alloc, rest),
        [] => Ok(Seq::new(alloc)),
    }
}

// The texts of the call that an update is, behind the name of the signal.
fn texts_of(alloc: Global, entry: &EventUpdate) -> Result<Option<Seq<Text>>, OutOfMemory>
    ensures { IfOk result (λ texts. texts ≡ texts_of entry.now) }
{
    match call_of(alloc, entry.update.as_str())? {
        Some(call) => Ok(Some(behind_first(alloc, call.arguments.as_slice())?)),
        None => Ok(None),
    }
}

/// What the entry with a selector says behind the name of the signal, if it says something.
pub(crate) fn texts_with(
    alloc: Global,
    events: EventSelector,
    entries: &[EventUpdate],
) -> Result<Option<Seq<Text>>, OutOfMemory>
    ensures { IfOk result (λ texts. texts ≡ texts_with events entries.now) }
{
    match entry_with(events, entries) {
        Some(entry) => texts_of(alloc, entry),
        None => Ok(None),
    }
}

// Adds a name to a set.
fn add(alloc: Global, name: &str, set: &mut BTreeSet<String>) -> Result<(), OutOfMemory>
    ensures { OnOk result ((q : List ℕ) → contains_text set.new q ≡ (contains_text set.old q || bytes_eq q name.now)) }
{
    set.insert(String::from_str(alloc, name)?)?;
    Ok(())
}

/// The set of some names.
#[tactic(auto, using(crate::proofs::NameLemmas::or_later))]
pub(crate) fn set_of(alloc: Global, names: &[Text]) -> Result<BTreeSet<String>, OutOfMemory>
    ensures { IfOk result (λ set. (q : List ℕ) → contains_text set q ≡ list_any (bytes_eq q) names.now) }
{
    let mut set = BTreeSet::new(alloc);
    for name in names {
        add(alloc, name.as_str(), &mut set)?;
    }
    Ok(set)
}

// Adds a name to a list and to the set of its names, if it isn't there.
#[tactic(auto, using(crate::proofs::NameLemmas::known_name, crate::proofs::NameLemmas::new_name, crate::proofs::NameLemmas::one_more_name))]
fn push_once(
    alloc: Global,
    name: &Text,
    set: &mut BTreeSet<String>,
    out: &mut Seq<Text>,
) -> Result<(), OutOfMemory>
    requires { (q : List ℕ) → contains_text set.old q ≡ list_any (bytes_eq q) out.old }
    ensures set { OnOk result ((q : List ℕ) → contains_text set.new q ≡ list_any (bytes_eq q) out.new) }
    ensures out { OnOk result ((rest : List (List ℕ)) → out.new ++ once_behind out.new rest ≡ out.old ++ once_behind out.old (name.now ∷ rest)) }
{
    let text = name.as_str();
    if set.contains(text) {
        return Ok(());
    }
    add(alloc, text, set)?;
    out.push(name.copy()?)?;
    Ok(())
}

/// Names, each where it stands first. It takes no more steps than a sort.
pub(crate) fn each_once(alloc: Global, names: &[Text]) -> Result<Seq<Text>, OutOfMemory>
    ensures { IfOk result (λ once. once ≡ each_once names.now) }
{
    let mut set = BTreeSet::new(alloc);
    let mut out = Seq::new(alloc);
    for name in names {
        push_once(alloc, name, &mut set, &mut out)?;
    }
    Ok(out)
}

// A channel that shows a field.
fn channel_of(channel: &Text, field: &Text) -> Result<DragOf, OutOfMemory>
    ensures { IfOk result (λ d. d ≡ channel_of channel.now field.now) }
{
    Ok(DragOf {
        channel: channel.copy()?,
        field: field.copy()?,
    })
}

// One channel.
fn one_channel(alloc: Global, x: &Text, f: &Text) -> Result<Seq<DragOf>, OutOfMemory>
    ensures { IfOk result (λ ds. ds ≡ channel_of x.now f.now ∷ []) }
{
    let mut out = Seq::new(alloc);
    out.push(channel_of(x, f)?)?;
    Ok(out)
}

// Two channels.
fn two_channels(
    alloc: Global,
    x: &Text,
    f: &Text,
    y: &Text,
    g: &Text,
) -> Result<Seq<DragOf>, OutOfMemory>
    ensures { IfOk result (λ ds. ds ≡ channel_of x.now f.now ∷ channel_of y.now g.now ∷ []) }
{
    let mut out = Seq::new(alloc);
    out.push(channel_of(x, f)?)?;
    out.push(channel_of(y, g)?)?;
    Ok(out)
}

/// The channels of one or two triples of a channel, its scale and its field.
pub(crate) fn channels_in(alloc: Global, texts: &[Text]) -> Result<Seq<DragOf>, OutOfMemory>
    ensures { IfOk result (λ ds. ds ≡ channels_in texts.now) }
{
    match texts {
        [x, _, f] => one_channel(alloc, x, f),
        [x, _, f, y, _, g] => two_channels(alloc, x, f, y, g),
        _ => Ok(Seq::new(alloc)),
    }
}

// One name.
fn one_name(alloc: Global, s: &Text) -> Result<Seq<Text>, OutOfMemory>
    ensures { IfOk result (λ names. names ≡ s.now ∷ []) }
{
    let mut out = Seq::new(alloc);
    out.push(s.copy()?)?;
    Ok(out)
}

// Two names.
fn two_names(alloc: Global, s: &Text, t: &Text) -> Result<Seq<Text>, OutOfMemory>
    ensures { IfOk result (λ names. names ≡ s.now ∷ t.now ∷ []) }
{
    let mut out = Seq::new(alloc);
    out.push(s.copy()?)?;
    out.push(t.copy()?)?;
    Ok(out)
}

/// Their scales.
pub(crate) fn scales_in(alloc: Global, texts: &[Text]) -> Result<Seq<Text>, OutOfMemory>
    ensures { IfOk result (λ names. names ≡ scales_in texts.now) }
{
    match texts {
        [_, s, _] => one_name(alloc, s),
        [_, s, _, _, t, _] => two_names(alloc, s, t),
        _ => Ok(Seq::new(alloc)),
    }
}

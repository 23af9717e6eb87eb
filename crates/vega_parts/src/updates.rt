//! The updates of selections.
ghost use Rattle.std.specs.Prelude.{◌≡◌, ◌&&◌, ◌||◌, not, List, ℕ, IfOk, OnOk};
ghost use Rattle.std.specs.List.{list_any, list_all};
ghost use Rattle.std.specs.BTreeSet.{contains_text};
ghost use Rattle.std.specs.Str.{bytes_eq};
ghost use Rattle.vega_parts.specs.Updates.{change_named, takes, update_by, update_in, update_of, selector_of, is_selector, is_of};
ghost use Rattle.vega_parts.specs.Updates.{fields_of, is_point, is_toggle, is_drag, is_click, is_channel, channels_fit, mix, same_fields};
ghost use Rattle.vega_parts.specs.Updates.{are_clicks, differ, clash};

use expr_reading::call_of;
use expr_syntax::TextCall;
use std::alloc::Global;
use std::collections::BTreeSet;
use text_kit::{OutOfMemory, Seq, Text};

/// How an update changes a selection.
#[derive(Clone, Copy)]
pub enum Change {
    /// To what was clicked.
    Point,
    /// By what was clicked with shift.
    Toggle,
    /// To nothing.
    Clear,
    /// To what was dragged over.
    Interval,
}

/// An update of a selection.
#[derive(Drop)]
pub struct Update {
    /// How it changes the selection.
    pub change: Change,
    /// The texts of its call, the first of which is the name of a signal.
    pub arguments: Seq<Text>,
}

// Whether two texts are the same.
fn is_word(text: &str, word: &str) -> bool
    ensures { result ≡ bytes_eq text.now word.now }
{
    text == word
}

// The change that a call of this name makes.
fn change_named(name: &str) -> Option<Change>
    ensures { result ≡ change_named name.now }
{
    if is_word(name, "vlPoint") {
        Some(Change::Point)
    } else if is_word(name, "vlToggle") {
        Some(Change::Toggle)
    } else if is_word(name, "vlClear") {
        Some(Change::Clear)
    } else if is_word(name, "vlInterval") {
        Some(Change::Interval)
    } else {
        None
    }
}

// Whether the call of a change has so many arguments.
fn takes(change: Change, count: usize) -> bool
    ensures { result ≡ takes change count }
{
    match change {
        Change::Point | Change::Toggle => 1 <= count,
        Change::Clear => count == 1,
        Change::Interval => count == 4 || count == 7,
    }
}

// The update with this change, where it has a form.
fn update_by(arguments: Seq<Text>, change: Change) -> Option<Update>
    ensures { result ≡ update_by arguments change }
{
    if takes(change, arguments.len()) {
        Some(Update { change, arguments })
    } else {
        None
    }
}

// The update that a call is.
fn update_in(call: TextCall) -> Option<Update>
    ensures { result ≡ update_in call.name call.arguments }
{
    let TextCall { name, arguments } = call;
    match change_named(name.as_str()) {
        Some(change) => update_by(arguments, change),
        None => None,
    }
}

/// The update that a text is, in one of the four forms.
pub fn update_of(alloc: Global, text: &str) -> Result<Option<Update>, OutOfMemory>
    ensures { IfOk result (λ u. u ≡ update_of text.now) }
{
    match call_of(alloc, text)? {
        Some(call) => Ok(update_in(call)),
        None => Ok(None),
    }
}

/// The event selector with which a change stands.
pub fn selector_of(change: Change) -> &'static str
    ensures { result.now ≡ selector_of change }
{
    match change {
        Change::Point => "click",
        Change::Toggle => "click[event.shiftKey]",
        Change::Clear => "dblclick",
        Change::Interval => "[mousedown, mouseup] > mousemove",
    }
}

// Whether a text is the event selector of a change.
fn selects(events: &str, change: Change) -> bool
    ensures { result ≡ bytes_eq events.now (selector_of change) }
{
    is_word(events, selector_of(change))
}

/// Whether a text is an event selector.
pub fn is_selector(events: &str) -> bool
    ensures { result ≡ is_selector events.now }
{
    selects(events, Change::Point)
        || selects(events, Change::Toggle)
        || selects(events, Change::Clear)
        || selects(events, Change::Interval)
}

// Whether the first text is the name of a signal.
fn is_of(own: &str, arguments: &[Text]) -> bool
    ensures { result ≡ is_of own.now arguments.now }
{
    match arguments {
        [name, ..] => is_word(name.as_str(), own),
        [] => false,
    }
}

/// What follows the signal's name.
pub fn fields_of(update: &Update) -> &[Text]
    ensures { result.now ≡ fields_of update.now }
{
    match update.arguments.as_slice() {
        [_, fields @ ..] => fields,
        [] => &[],
    }
}

// Whether it is a click.
fn is_point(change: Change) -> bool
    ensures { result ≡ is_point change }
{
    match change {
        Change::Point => true,
        Change::Toggle | Change::Clear | Change::Interval => false,
    }
}

// Whether it is a click with shift.
fn is_toggle(change: Change) -> bool
    ensures { result ≡ is_toggle change }
{
    match change {
        Change::Toggle => true,
        Change::Point | Change::Clear | Change::Interval => false,
    }
}

/// Whether it is a drag.
pub fn is_drag(change: Change) -> bool
    ensures { result ≡ is_drag change }
{
    match change {
        Change::Interval => true,
        Change::Point | Change::Toggle | Change::Clear => false,
    }
}

// Whether it is either click.
fn is_click(change: Change) -> bool
    ensures { result ≡ is_click change }
{
    is_point(change) || is_toggle(change)
}

// Whether a text is a channel of a drag.
fn is_channel(name: &str) -> bool
    ensures { result ≡ is_channel name.now }
{
    is_word(name, "x") || is_word(name, "y")
}

// Whether two texts are two channels of a drag.
fn are_channels(first: &str, second: &str) -> bool
    ensures { result ≡ (is_channel first.now && is_channel second.now && not (bytes_eq first.now second.now)) }
{
    is_channel(first) && is_channel(second) && !is_word(first, second)
}

/// Whether the channels of one or two triples are channels of a drag, and not the same.
pub fn channels_fit(triples: &[Text]) -> bool
    ensures { result ≡ channels_fit triples.now }
{
    match triples {
        [x, _, _] => is_channel(x.as_str()),
        [x, _, _, y, _, _] => are_channels(x.as_str(), y.as_str()),
        _ => false,
    }
}

// Whether a drag stands beside a click.
fn mix(first: Change, second: Change) -> bool
    ensures { result ≡ mix first second }
{
    is_drag(first) && is_click(second) || is_click(first) && is_drag(second)
}

// Whether one is a click, the other one with shift.
fn are_clicks(first: Change, second: Change) -> bool
    ensures { result ≡ are_clicks first second }
{
    is_point(first) && is_toggle(second) || is_toggle(first) && is_point(second)
}

// Adds a field to a set.
fn add(alloc: Global, field: &str, set: &mut BTreeSet<String>) -> Result<(), OutOfMemory>
    ensures { OnOk result ((q : List ℕ) → contains_text set.new q ≡ (contains_text set.old q || bytes_eq q field.now)) }
{
    set.insert(String::from_str(alloc, field)?)?;
    Ok(())
}

// The fields of a list, with what finds one among them.
#[tactic(auto, using(crate::proofs::Fields::one_more_field))]
fn set_of(alloc: Global, fields: &[Text]) -> Result<BTreeSet<String>, OutOfMemory>
    ensures { IfOk result (λ set. (q : List ℕ) → contains_text set q ≡ list_any (bytes_eq q) fields.now) }
{
    let mut set = BTreeSet::new(alloc);
    for field in fields {
        add(alloc, field.as_str(), &mut set)?;
    }
    Ok(set)
}

// Whether all fields stand in a set.
fn all_in(set: &BTreeSet<String>, fields: &[Text]) -> bool
    ensures { result ≡ list_all (contains_text set.now) fields.now }
{
    for field in fields {
        if !set.contains(field.as_str()) {
            return false;
        }
    }
    true
}

// Whether all fields of one list stand in another.
fn stand_in(alloc: Global, fields: &[Text], others: &[Text]) -> Result<bool, OutOfMemory>
    ensures { IfOk result (λ b. b ≡ list_all (λ x. list_any (bytes_eq x) others.now) fields.now) }
{
    let set = set_of(alloc, others)?;
    Ok(all_in(&set, fields))
}

// Whether two lists have the same fields.
fn same_fields(alloc: Global, xs: &[Text], ys: &[Text]) -> Result<bool, OutOfMemory>
    ensures { IfOk result (λ b. b ≡ same_fields xs.now ys.now) }
{
    if stand_in(alloc, xs, ys)? {
        stand_in(alloc, ys, xs)
    } else {
        Ok(false)
    }
}

// Whether two clicks have other fields.
fn differ(alloc: Global, first: &Update, second: &Update) -> Result<bool, OutOfMemory>
    ensures { IfOk result (λ b. b ≡ differ first.now second.now) }
{
    if are_clicks(first.change, second.change) {
        Ok(!same_fields(alloc, fields_of(first), fields_of(second))?)
    } else {
        Ok(false)
    }
}

/// Whether two updates can't stand in one signal.
pub fn clash(alloc: Global, first: &Update, second: &Update) -> Result<bool, OutOfMemory>
    ensures { IfOk result (λ b. b ≡ clash first.now second.now) }
{
    if mix(first.change, second.change) {
        Ok(true)
    } else {
        differ(alloc, first, second)
    }
}

/// Whether an update is one of the signal of this name.
pub fn is_update_of(own: &str, update: &Update) -> bool
    ensures { result ≡ is_of own.now update.now.arguments }
{
    is_of(own, update.arguments.as_slice())
}

/// Whether an update stands with an event selector.
pub fn stands_with(events: &str, update: &Update) -> bool
    ensures { result ≡ bytes_eq events.now (selector_of update.now.change) }
{
    selects(events, update.change)
}

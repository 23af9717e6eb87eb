//! Trees as commands.
ghost use Rattle.std.specs.Prelude.{◌≡◌};
ghost use Rattle.param_flow.specs.Commands.{event_at, change_of, set_of, event_of, drag_of, command_of_two, command_in, command_of};
ghost use Rattle.play_script.specs.inner.Reading.{ReadsAs, script_expression, three_in, command_of_three, print_in, other_command_in};

use crate::LineError;
use crate::changes::change_in;
use crate::values::{items_of, number_in, settable_in, text_in, text_of};
use fixed_num::Num;
use json_exact::Json;
use param_flow::{Command, Event};
use std::alloc::Global;
use text_kit::Seq;

// What was found, else a fault.
fn or_fault<X>(found: Option<X>) -> Result<X, LineError>
    ensures { ReadsAs result found }
{
    match found {
        Some(x) => Ok(x),
        None => Err(LineError::Fault),
    }
}

// The change of a source.
fn change_of(alloc: Global, source: Json, tree: Json) -> Result<Command, LineError>
    ensures { ReadsAs result (change_of script_expression source tree) }
{
    let source = or_fault(text_of(source))?;
    let change = change_in(alloc, tree)?;
    Ok(Command::Change { source, change })
}

// The setting of a parameter.
fn set_of(parameter: Json, tree: Json) -> Option<Command>
    ensures { result ≡ set_of parameter tree }
{
    let name = text_of(parameter)?;
    let value = settable_in(tree)?;
    Some(Command::Set { name, value })
}

// The event of the mouse at one place that a word names.
fn event_at(word: &str, x: Num, y: Num) -> Option<Event>
    ensures { result ≡ event_at word.now x y }
{
    if word == "click" {
        Some(Event::Click { x, y })
    } else if word == "shift" {
        Some(Event::Shift { x, y })
    } else if word == "double" {
        Some(Event::Double { x, y })
    } else {
        None
    }
}

// An event of the mouse at one place.
fn event_of(word: &str, a: &Json, b: &Json) -> Option<Command>
    ensures { result ≡ event_of word.now a.now b.now }
{
    let x = number_in(a)?;
    let y = number_in(b)?;
    Some(Command::Event(event_at(word, x, y)?))
}

// A drag from one place to another.
fn drag_of(word: &str, a: &Json, b: &Json, c: &Json, d: &Json) -> Option<Command>
    ensures { result ≡ drag_of word.now a.now b.now c.now d.now }
{
    let x1 = number_in(a)?;
    let y1 = number_in(b)?;
    let x2 = number_in(c)?;
    let y2 = number_in(d)?;
    if word == "drag" {
        Some(Command::Event(Event::Drag { x1, y1, x2, y2 }))
    } else {
        None
    }
}

// The command that a word and two values are.
fn command_of_two(alloc: Global, word: &str, a: Json, b: Json) -> Result<Command, LineError>
    ensures { ReadsAs result (command_of_two script_expression word.now a b) }
{
    if word == "change" {
        change_of(alloc, a, b)
    } else if word == "set" {
        or_fault(set_of(a, b))
    } else {
        or_fault(event_of(word, &a, &b))
    }
}

// The items of a list of three.
fn three_in(items: Seq<Json>) -> Option<(Json, Json, Json)>
    ensures { result ≡ three_in items }
{
    let mut items = items.into_vec().into_iter();
    let a = items.next()?;
    let b = items.next()?;
    let c = items.next()?;
    match items.next() {
        None => Some((a, b, c)),
        Some(_) => None,
    }
}

// The command that a list of a word and two values is.
fn command_of_three(alloc: Global, items: Seq<Json>) -> Result<Command, LineError>
    ensures { ReadsAs result (command_of_three script_expression items) }
{
    let (word, a, b) = or_fault(three_in(items))?;
    let word = or_fault(text_of(word))?;
    command_of_two(alloc, word.as_str(), a, b)
}

// The print that a word is.
fn print_in(word: &Json) -> Option<Command>
    ensures { result ≡ print_in word.now }
{
    if text_in(word)?.as_str() == "print" {
        Some(Command::Print)
    } else {
        None
    }
}

// The command that a list of one or five items is.
fn other_command_in(items: &[Json]) -> Option<Command>
    ensures { result ≡ other_command_in items.now }
{
    match items {
        [word] => print_in(word),
        [word, a, b, c, d] => drag_of(text_in(word)?.as_str(), a, b, c, d),
        _ => None,
    }
}

// The command that the items of a list are.
#[tactic(auto, using(crate::proofs::CommandForms::three_is, crate::proofs::CommandForms::other_is))]
fn command_in(alloc: Global, items: Seq<Json>) -> Result<Command, LineError>
    ensures { ReadsAs result (command_in script_expression items) }
{
    if items.len() == 3 {
        command_of_three(alloc, items)
    } else {
        or_fault(other_command_in(items.as_slice()))
    }
}

/// The command that a tree is; `Fault` exactly where it is none.
pub fn command_of(alloc: Global, tree: Json) -> Result<Command, LineError>
    ensures { ReadsAs result (command_of script_expression tree) }
{
    command_in(alloc, or_fault(items_of(tree))?)
}

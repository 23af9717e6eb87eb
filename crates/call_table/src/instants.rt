// Questions about instants: what is asked, an instant, a count and a name between tabs.
use crate::said::{said_of_number, said_of_two};
use crate::spelled::{number_by, word_or_none};
use case_table::{TimeUnit, time_unit_of};
use fixed_num::Num;
use std::alloc::Global;
use text_kit::{OutOfMemory, Text};
use time_calc::{
    LabelError, PartOf, Unit, is_pattern, label, next, part, span_of, truncate, unit_rule,
};

// A unit by its name.
fn unit_by(name: &str) -> Option<Unit> {
    match name {
        "millisecond" => Some(Unit::Millisecond),
        "second" => Some(Unit::Second),
        "minute" => Some(Unit::Minute),
        "hour" => Some(Unit::Hour),
        "day" => Some(Unit::Day),
        "week" => Some(Unit::Week),
        "month" => Some(Unit::Month),
        "quarter" => Some(Unit::Quarter),
        "year" => Some(Unit::Year),
        _ => None,
    }
}

// A part by its name.
fn part_by(name: &str) -> Option<PartOf> {
    match name {
        "year" => Some(PartOf::Year),
        "quarter" => Some(PartOf::Quarter),
        "month" => Some(PartOf::Month),
        "date" => Some(PartOf::Date),
        "day" => Some(PartOf::Day),
        "hours" => Some(PartOf::Hours),
        "minutes" => Some(PartOf::Minutes),
        "seconds" => Some(PartOf::Seconds),
        "milliseconds" => Some(PartOf::Milliseconds),
        _ => None,
    }
}

// A time unit by its name.
fn time_unit_by(name: &str) -> Option<TimeUnit> {
    unit_rule(time_unit_of(name)?)
}

// The boundary of so many units before an instant, or after it.
fn boundary(alloc: Global, before: bool, n: u32, unit: Unit, at: Num) -> Result<Text, OutOfMemory> {
    if n == 0 || (unit == Unit::Week && n != 1) {
        return Text::of(alloc, "no count");
    }
    if before {
        said_of_number(alloc, truncate(at, unit, n))
    } else {
        said_of_number(alloc, next(at, unit, n))
    }
}

// The label of an instant, or why there is none.
fn labelled(alloc: Global, at: Num, pattern: &str) -> Result<Text, OutOfMemory> {
    match label(alloc, at, pattern) {
        Ok(label) => Ok(label),
        Err(LabelError::Pattern) => Text::of(alloc, "no pattern"),
        Err(LabelError::Instant) => Text::of(alloc, "no instant"),
        Err(LabelError::Memory) => Text::of(alloc, "no memory"),
    }
}

// The answer to a question about an instant: what is asked, a number or a name, and a name.
fn answer(
    alloc: Global,
    asked: &str,
    word: &str,
    name: &str,
    at: Num,
) -> Result<Text, OutOfMemory> {
    match asked {
        "label" => labelled(alloc, at, name),
        "span" => match time_unit_by(name) {
            Some(unit) => said_of_two(alloc, span_of(at, &unit)),
            None => Text::of(alloc, "no time unit"),
        },
        "part" => match part_by(name) {
            Some(p) => said_of_number(alloc, part(at, p)),
            None => Text::of(alloc, "no part"),
        },
        _ => match (word.parse::<u32>(), unit_by(name)) {
            (Ok(n), Some(unit)) => boundary(alloc, asked == "truncate", n, unit, at),
            _ => Text::of(alloc, "no question"),
        },
    }
}

/// What is found for a question.
pub(crate) fn found(alloc: Global, told: &str) -> Result<Text, OutOfMemory> {
    let mut words = told.split('\t');
    let asked = word_or_none(words.next());
    let number = word_or_none(words.next());
    let word = word_or_none(words.next());
    let name = word_or_none(words.next());
    if asked == "pattern" {
        return Text::of(alloc, if is_pattern(name) { "yes" } else { "no" });
    }
    match number_by(number) {
        Some(at) => answer(alloc, asked, word, name, at),
        None => Text::of(alloc, "no number"),
    }
}

// Questions about steps, nice domains, ticks and labels: what is asked, two numbers and a count between tabs.
ghost use Rattle.std.specs.Prelude.{◌≡◌, ◌≤◌, ◌≤ℤ◌};
ghost use Rattle.time_calc.specs.Instants.{stands_for_instant};

use crate::said::{said_of_number, said_of_two, say_number};
use crate::spelled::{number_by, word_or_none};
use fixed_num::Num;
use std::alloc::Global;
use text_kit::{OutOfMemory, Seq, Text};
use tick_kit::{
    TickError, decimals_of, nice, number_label, step_of, ticks, time_label, time_ticks,
};

// Adds numbers.
fn say_all(all: &mut Text, answer: &[Num]) -> Result<(), OutOfMemory> {
    for number in answer {
        all.push_str(" ")?;
        say_number(all, *number)?;
    }
    all.push_str(" ]")
}

// A list of numbers.
fn said_of_all(alloc: Global, answer: &[Num]) -> Result<Text, OutOfMemory> {
    let mut all = Text::of(alloc, "[")?;
    say_all(&mut all, answer)?;
    Ok(all)
}

// Ticks, or why there are none.
fn said_of_ticks(alloc: Global, answer: &Result<Seq<Num>, TickError>) -> Result<Text, OutOfMemory> {
    match answer {
        Ok(ticks) => said_of_all(alloc, ticks.as_slice()),
        Err(TickError::Overflow) => Text::of(alloc, "overflow"),
        Err(TickError::Memory) => Text::of(alloc, "no memory"),
    }
}

// Whether a number stands for an instant.
fn is_instant(at: Num) -> bool
    ensures { result ≡ stands_for_instant at }
{
    let count = at.millionths();
    count >= -62_135_596_800_000_000_000 && count <= 253_370_764_799_999_000_000
}

// The label of an instant.
fn label_of(alloc: Global, at: Num) -> Result<Text, OutOfMemory> {
    if !is_instant(at) {
        return Text::of(alloc, "no instant");
    }
    time_label(alloc, at)
}

// Adds the label of an instant, and a bar behind it.
fn say_label(all: &mut Text, alloc: Global, at: Num) -> Result<(), OutOfMemory> {
    all.push_str(" ")?;
    all.push_str(label_of(alloc, at)?.as_str())?;
    all.push_str(" |")
}

// Adds the labels of ticks of instants.
fn say_labels(all: &mut Text, alloc: Global, ticks: &[Num]) -> Result<(), OutOfMemory> {
    for tick in ticks {
        say_label(all, alloc, *tick)?;
    }
    all.push_str(" ]")
}

// The labels of ticks of instants.
fn labels(alloc: Global, ticks: &[Num]) -> Result<Text, OutOfMemory> {
    let mut all = Text::of(alloc, "[")?;
    say_labels(&mut all, alloc, ticks)?;
    Ok(all)
}

// The ticks of a domain of instants.
fn times_of(alloc: Global, lo: Num, hi: Num, count: u32) -> Result<Seq<Num>, OutOfMemory>
    requires ordered { lo ≤ℤ hi }
    requires some { 1 ≤ count }
    requires few { count ≤ 1000 }
{
    if !is_instant(lo) || !is_instant(hi) {
        return Ok(Seq::new(alloc));
    }
    time_ticks(alloc, lo, hi, count)
}

// The answer to a question about a domain.
fn of_domain(
    alloc: Global,
    asked: &str,
    lo: Num,
    hi: Num,
    count: u32,
) -> Result<Text, OutOfMemory> {
    if hi < lo || count < 1 || count > 1000 {
        return Text::of(alloc, "no domain");
    }
    match asked {
        "step" if lo < hi => said_of_number(alloc, step_of(lo, hi, count)),
        "nice" => said_of_two(alloc, nice(lo, hi, count)),
        "ticks" => said_of_ticks(alloc, &ticks(alloc, lo, hi, count)),
        "times" => said_of_all(alloc, times_of(alloc, lo, hi, count)?.as_slice()),
        "labels" => labels(alloc, times_of(alloc, lo, hi, count)?.as_slice()),
        _ => Text::of(alloc, "no question"),
    }
}

// The label of a number with so many decimals.
fn labelled(alloc: Global, number: Num, decimals: u32) -> Result<Text, OutOfMemory> {
    if decimals > 6 {
        return Text::of(alloc, "no decimals");
    }
    number_label(alloc, number, decimals)
}

// A count in decimals.
fn said_of_count(alloc: Global, count: u32) -> Result<Text, OutOfMemory> {
    Text::of(alloc, format!(in alloc; "{count}")?.as_str())
}

// The answer to a question.
fn answer(
    alloc: Global,
    asked: &str,
    first: Num,
    second: Num,
    count: u32,
) -> Result<Text, OutOfMemory> {
    match asked {
        "label" => labelled(alloc, first, count),
        "decimals" => said_of_count(alloc, decimals_of(first)),
        "instant" => label_of(alloc, first),
        _ => of_domain(alloc, asked, first, second, count),
    }
}

/// What is found for a question.
pub(crate) fn found(alloc: Global, told: &str) -> Result<Text, OutOfMemory> {
    let mut words = told.split('\t');
    let asked = word_or_none(words.next());
    let first = number_by(word_or_none(words.next()));
    let second = number_by(word_or_none(words.next()));
    match (first, second, word_or_none(words.next()).parse::<u32>()) {
        (Some(first), Some(second), Ok(count)) => answer(alloc, asked, first, second, count),
        _ => Text::of(alloc, "no number"),
    }
}

// Values of the signals of an inner object without data sets; `none` of one that has no value. Before ` & ` stand the signals round it. A signal
// is a name with `:` and a number that it is set to, or with `=` and its update. Behind ` -> ` stand the values, which were found apart.
use cell_value::Cell;
use expr_eval::{NoParams, ParamReader};
use expr_syntax::{Expr, ExprError, read};
use fixed_num::Num;
use std::alloc::Global;
use text_kit::{OutOfMemory, Seq, Text};
use vega_lists::NoLists;
use vega_signals::{Inside, own_values};
use vega_spec::Signal;

const LINES: &str = "\
& a = k -> a=null\n\
& a = length(data('b_store')) + 1; b = a + 1 -> a=1 b=2\n\
& a = 1000000000000000 + 1 -> a=none\n\
& a = 1000000000000000 + 1; b = true ? true : a; c = a ? 1 : 1; d = b ? 1 : a -> a=none b=true c=none d=1\n\
& d = isValid(c); c = [b, 1]; b = a; a = 1000000000000000 + 1 -> d=none c=none b=none a=none\n\
m = 1000000000000000 + 1 & a = k -> a=null\n\
m = 1000000000000000 + 1 & a = m; b = a; c = 1 -> a=none b=none c=1\n\
m = 1000000000000000 + 1 & a = true ? true : m; b = m -> a=true b=none\n\
m = 1000000000000000 + 1 & m = 2; a = m -> m=2 a=2\n\
m = 1000000000000000 + 1 & m: 2; a = m -> m=2 a=2\n\
n = m; m = 1000000000000000 + 1 & m = n -> m=none\n\
k: 7 & a = k + 1000000000000000 -> a=none\n\
& a = !b; b = a; c = a; d = b; e = c -> a=true b=false c=false d=false e=false\n\
& k: 1; k = 2; a = k; b = a; c = b; d = c -> k=1 k=2 a=1 b=1 c=1 d=1\n";

// Why a line has no answer.
#[derive(Drop)]
enum TestStop {
    Shape,
    Memory,
}

impl From<OutOfMemory> for TestStop {
    fn from(_: OutOfMemory) -> TestStop {
        TestStop::Memory
    }
}

impl From<ExprError> for TestStop {
    fn from(e: ExprError) -> TestStop {
        match e {
            ExprError::Shape => TestStop::Shape,
            ExprError::Memory => TestStop::Memory,
        }
    }
}

fn signal_of(name: Text, update: Option<Expr>) -> Signal {
    Signal {
        name,
        value: None,
        update,
        on: None,
        marks: None,
    }
}

// A signal with its update.
fn updated(alloc: Global, name: &str, text: &str) -> Result<Signal, TestStop> {
    let name = Text::of(alloc, name)?;
    let update = read(alloc, text)?;
    Ok(signal_of(name, Some(update)))
}

// What a signal is set to.
fn value_of(text: &str) -> Result<Cell, TestStop> {
    let number = text.parse::<i32>().map_err(|_| TestStop::Shape)?;
    match Num::of_millionths(i128::from(number) * 1_000_000) {
        Some(number) => Ok(Cell::Number(number)),
        None => Err(TestStop::Shape),
    }
}

// Adds a parameter.
fn push_param(
    alloc: Global,
    name: &str,
    text: &str,
    params: &mut Seq<(Text, Cell)>,
) -> Result<(), TestStop> {
    let name = Text::of(alloc, name)?;
    params.push((name, value_of(text)?))?;
    Ok(())
}

// Adds a signal, and what it is set to.
fn push_signal(
    alloc: Global,
    words: &str,
    signals: &mut Seq<Signal>,
    params: &mut Seq<(Text, Cell)>,
) -> Result<(), TestStop> {
    if let Some((name, text)) = words.split_once(" = ") {
        signals.push(updated(alloc, name, text)?)?;
        return Ok(());
    }
    let (name, text) = words.split_once(": ").ok_or(TestStop::Shape)?;
    signals.push(signal_of(Text::of(alloc, name)?, None))?;
    push_param(alloc, name, text, params)
}

fn signals_of(
    alloc: Global,
    words: &str,
    params: &mut Seq<(Text, Cell)>,
) -> Result<Seq<Signal>, TestStop> {
    let mut signals = Seq::new(alloc);
    if words.is_empty() {
        return Ok(signals);
    }
    for signal in words.split("; ") {
        push_signal(alloc, signal, &mut signals, params)?;
    }
    Ok(signals)
}

// The values inside an object.
fn values_inside<P: ParamReader>(
    alloc: Global,
    outer: &P,
    given: &[(Text, Cell)],
    signals: &[Signal],
) -> Result<Seq<(Text, Option<Cell>)>, OutOfMemory> {
    own_values(alloc, &[], &NoLists, outer, given, signals, &[])
}

// The values inside an object with the signals that words say.
fn values_of<P: ParamReader>(
    alloc: Global,
    outer: &P,
    words: &str,
) -> Result<Seq<(Text, Option<Cell>)>, TestStop> {
    let mut given = Seq::new(alloc);
    let signals = signals_of(alloc, words, &mut given)?;
    Ok(values_inside(alloc, outer, given.as_slice(), signals.as_slice())?)
}

// Adds a value behind a blank and its name.
fn push_value(
    alloc: Global,
    out: &mut Text,
    name: &str,
    cell: &Option<Cell>,
) -> Result<(), OutOfMemory> {
    out.push_str(" ")?;
    out.push_str(name)?;
    out.push_str("=")?;
    match cell {
        Some(cell) => out.push_str(cell.display(alloc)?.as_str()),
        None => out.push_str("none"),
    }
}

// The values, each behind a blank.
fn settled(alloc: Global, values: &[(Text, Option<Cell>)]) -> Result<Text, OutOfMemory> {
    let mut out = Text::new(alloc);
    for value in values {
        push_value(alloc, &mut out, value.0.as_str(), &value.1)?;
    }
    Ok(out)
}

// The values of the signals that words say, in an object with these values round it.
fn answered_in(
    alloc: Global,
    round: &[(Text, Option<Cell>)],
    words: &str,
) -> Result<Text, TestStop> {
    let round = Inside {
        own: round,
        outer: &NoParams,
    };
    let values = values_of(alloc, &round, words)?;
    Ok(settled(alloc, values.as_slice())?)
}

// The same, with the signals round the object.
fn answered(alloc: Global, line: &str) -> Result<Text, TestStop> {
    let (round, words) = line.split_once("& ").ok_or(TestStop::Shape)?;
    let outer = values_of(alloc, &NoParams, round.trim_end())?;
    answered_in(alloc, outer.as_slice(), words)
}

// Whether the signals of a line have the values that they should.
fn settle(alloc: Global, line: &str) -> bool {
    let Some((given, wanted)) = line.split_once(" ->") else {
        return false;
    };
    match answered(alloc, given) {
        Ok(word) => word.as_str() == wanted,
        Err(_) => false,
    }
}

#[test]
fn inner_signals_settle(rt: HostRuntime) {
    for line in LINES.lines() {
        assert!(rt; settle(rt.alloc(), line), "{line}");
    }
}

//! Charts of the first form, engines of them, and what these write.
ghost use Rattle.std.specs.Prelude.{◌≡◌, IfOk, IfSome};
ghost use Rattle.first_form.specs.Drawable.{IsDrawable};

use cell_value::Steps;
use chart_io::{ListSink, ListSource, Sink, Source};
use first_form::{FirstForm, bars_of, first_form, opening_of};
use plain_engine::PlainEngine;
use play_script::{PlayError, play};
use std::alloc::Global;
use std::marker::Brand;
use std::sync::ledger::{Blank, Ledger};
use std::test::Fail;
use vega_meaning::OpenError;

/// A chart of the first form over these values of the list `t`, by its two fields.
pub fn chart_of(alloc: Global, values: &str, x: &str, y: &str) -> Result<String, Fail> {
    let mut text = String::from_str(alloc, "{\"data\":{\"name\":\"t\",\"values\":[")?;
    text.push_str(values)?;
    text.push_str("]},\"mark\":\"bar\",\"encoding\":{\"x\":{\"field\":\"")?;
    text.push_str(x)?;
    text.push_str("\",\"type\":\"nominal\",\"axis\":null},\"y\":{\"field\":\"")?;
    text.push_str(y)?;
    text.push_str("\",\"type\":\"quantitative\",\"axis\":null}}}")?;
    Ok(text)
}

/// The form of a text, if it has one.
pub fn form_of(alloc: Global, text: &str) -> Result<Option<FirstForm>, Fail>
    ensures { IfOk result (λ form. IfSome form IsDrawable) }
{
    let tree = json_exact::read(alloc, text.as_bytes())?;
    Ok(first_form(alloc, &tree)?)
}

// An engine of the Vega chart of a form, in its opening state.
fn opened_form(alloc: Global, form: &FirstForm) -> Result<PlainEngine, OpenError>
    requires { IsDrawable form.now }
{
    let spec = bars_of(alloc, form)?;
    let state = opening_of(alloc, form)?;
    PlainEngine::open(alloc, spec, state)
}

// The same where each id has been taken.
fn opened_late(alloc: Global, form: &FirstForm) -> Result<PlainEngine, OpenError>
    requires { IsDrawable form.now }
{
    let spec = bars_of(alloc, form)?;
    let mut state = opening_of(alloc, form)?;
    state.next_id = 1_000_000_000_000_001;
    PlainEngine::open(alloc, spec, state)
}

/// An engine of the chart over these values, by its two fields.
pub fn opened(alloc: Global, values: &str, x: &str, y: &str) -> Result<PlainEngine, Fail> {
    let text = chart_of(alloc, values, x, y)?;
    let Some(form) = form_of(alloc, text.as_str())? else {
        return Err(Fail::new("the values are of the form"));
    };
    Ok(opened_form(alloc, &form)?)
}

/// The same, where no id is left for another row.
pub fn opened_without_ids(
    alloc: Global,
    values: &str,
    x: &str,
    y: &str,
) -> Result<PlainEngine, Fail> {
    let text = chart_of(alloc, values, x, y)?;
    let Some(form) = form_of(alloc, text.as_str())? else {
        return Err(Fail::new("the values are of the form"));
    };
    Ok(opened_late(alloc, &form)?)
}

fn played_under<S: Source, K: Sink, L: Ledger>(
    alloc: Global,
    blank: Blank,
    engine: &mut PlainEngine,
    source: &mut S,
    out: &mut K,
) -> Result<Result<(), PlayError>, Fail>
    requires name { blank.name ≡ L.name }
    requires parts { blank.parts ≡ L.parts }
{
    let mut notes = ListSink::of(alloc, 1, Vec::new(alloc))?;
    let mut steps = Steps::<L>::open(blank);
    Ok(play(alloc, engine, source, out, &mut notes, false, &mut steps))
}

/// Plays a script on an engine.
pub fn played_on<S: Source, K: Sink>(
    alloc: Global,
    engine: &mut PlainEngine,
    source: &mut S,
    out: &mut K,
) -> Result<Result<(), PlayError>, Fail> {
    played_under::<S, K, Brand>(alloc, Blank::new(1), engine, source, out)
}

/// Whether this is written where a script is played on an engine.
pub fn is_written(
    alloc: Global,
    engine: &mut PlainEngine,
    script: &str,
    written: &str,
) -> Result<bool, Fail> {
    let script = script.as_bytes().to_vec(alloc)?;
    let mut source = ListSource::of(script, 4_096, Vec::new(alloc));
    let mut out = ListSink::of(alloc, 4_096, Vec::new(alloc))?;
    let end = played_on(alloc, engine, &mut source, &mut out)?;
    Ok(end.is_ok() && out.bytes() == written.as_bytes())
}

/// Whether this is replied to a line, and this picture is printed after it.
pub fn is_replied(
    alloc: Global,
    engine: &mut PlainEngine,
    line: &str,
    reply: &str,
    picture: &str,
) -> Result<bool, Fail> {
    let script = format!(in alloc; "{line}\n[\"print\"]\n")?;
    let written = format!(in alloc; "{reply}\n{picture}")?;
    is_written(alloc, engine, script.as_str(), written.as_str())
}

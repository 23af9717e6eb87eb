//! The members of objects: signals.
ghost use Rattle.std.specs.Prelude.{◌≡◌, ◌++◌, IfOk, OnOk};
ghost use Rattle.vega_schema.specs.Signals.{signal, on_event, expression_signal, all_signals};

use crate::codes::{CELL, EVENTS, EXPRESSION, EXPRESSION_SIGNAL, ON, ON_LIST, SIGNAL, TEXT, TEXTS};
use spec_schema::{Layout, When, layout_by, table};
use std::alloc::Global;
use text_kit::{OutOfMemory, Seq};

// A signal.
#[tactic(auto, unfolding(crate::specs::Signals::signal))]
fn signal(alloc: Global) -> Result<Layout, OutOfMemory>
    ensures { IfOk result (λ l. l ≡ signal) }
{
    layout_by(
        alloc,
        SIGNAL,
        &[],
        &table![
        must "name" TEXT, may "value" CELL, may "update" EXPRESSION, may "on" ON_LIST, may "marks" TEXTS,
    ],
        None,
    )
}

// An update on an event.
#[tactic(auto, unfolding(crate::specs::Signals::on_event))]
fn on_event(alloc: Global) -> Result<Layout, OutOfMemory>
    ensures { IfOk result (λ l. l ≡ on_event) }
{
    layout_by(
        alloc,
        ON,
        &[When::Has("events"), When::Has("update")],
        &table![
        may "events" EVENTS, may "update" TEXT,
    ],
        None,
    )
}

// The value of an expression.
#[tactic(auto, unfolding(crate::specs::Signals::expression_signal))]
fn expression_signal(alloc: Global) -> Result<Layout, OutOfMemory>
    ensures { IfOk result (λ l. l ≡ expression_signal) }
{
    layout_by(
        alloc,
        EXPRESSION_SIGNAL,
        &[When::Has("signal")],
        &table![
        may "signal" EXPRESSION,
    ],
        None,
    )
}

/// Adds these layouts.
pub fn push_signals(alloc: Global, out: &mut Seq<Layout>) -> Result<(), OutOfMemory>
    ensures { OnOk result (out.new ≡ out.old ++ all_signals) }
{
    out.push(signal(alloc)?)?;
    out.push(on_event(alloc)?)?;
    out.push(expression_signal(alloc)?)
}

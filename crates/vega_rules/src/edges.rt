//! The needs that parts show.
ghost use Rattle.std.specs.Prelude.{◌≡◌, IfOk, OnOk};
ghost use Rattle.vega_rules.specs.declared.keys.By.TheVariants as by;
ghost use Rattle.vega_rules.specs.inner.Index.{IsIndex};
ghost use Rattle.vega_rules.specs.Edges.{meant, is_extent, signal_needs, from_needs, source_needs, used_needs};
ghost use Rattle.vega_rules.specs.Edges.{given_needs, step_needs, needs_by};
ghost use Rattle.vega_rules.specs.inner.Placed.{place_at};
ghost use Rattle.vega_rules.specs.inner.NeedRows.{with_needs};

use crate::keyed::Keyed;
use crate::need_rows::{NeedRows, add_need};
use crate::nodes::{Thing, is_signal, parent};
use crate::placed::{before, place_at, reader};
use crate::resolve::resolved_use;
use std::alloc::Global;
use text_kit::OutOfMemory;
use vega_parts::{GivenName, Part, Place, Used, UsedName};

// The thing that has the name which a used name means.
fn meant(
    alloc: Global,
    names: &Keyed,
    places: &Keyed,
    parts: &[Part],
    thing: Thing,
    u: &UsedName,
) -> Result<Option<usize>, OutOfMemory>
    requires { IsIndex by.Name names.now parts.now }
    ensures { IfOk result (λ number. number ≡ meant (place_at places.now) parts.now thing u.now) }
{
    match resolved_use(alloc, names, parts, u)? {
        Some(name) => place_at(alloc, places, thing, name.of.as_slice()),
        None => Ok(None),
    }
}

// Adds that what reads a signal needs it.
fn add_signal(
    alloc: Global,
    names: &Keyed,
    places: &Keyed,
    parts: &[Part],
    u: &UsedName,
    rows: &mut NeedRows,
) -> Result<(), OutOfMemory>
    requires { IsIndex by.Name names.now parts.now }
    ensures { OnOk result (rows.new.items ≡ with_needs rows.old.items (signal_needs (place_at places.now) parts.now u.now)) }
{
    let from = reader(alloc, places, u.at.as_slice())?;
    let to = meant(alloc, names, places, parts, Thing::Signal, u)?;
    add_need(rows, from, to)
}

// Adds that a lookup needs the data set that it looks up.
fn add_from(
    alloc: Global,
    names: &Keyed,
    places: &Keyed,
    parts: &[Part],
    u: &UsedName,
    rows: &mut NeedRows,
) -> Result<(), OutOfMemory>
    requires { IsIndex by.Name names.now parts.now }
    ensures { OnOk result (rows.new.items ≡ with_needs rows.old.items (from_needs (place_at places.now) parts.now u.now)) }
{
    let from = reader(alloc, places, u.at.as_slice())?;
    let to = meant(alloc, names, places, parts, Thing::Set, u)?;
    add_need(rows, from, to)
}

// Adds that a source needs the data set that it means, and a data set its source.
fn add_source(
    alloc: Global,
    names: &Keyed,
    places: &Keyed,
    parts: &[Part],
    u: &UsedName,
    rows: &mut NeedRows,
) -> Result<(), OutOfMemory>
    requires { IsIndex by.Name names.now parts.now }
    ensures { OnOk result (rows.new.items ≡ with_needs rows.old.items (source_needs (place_at places.now) parts.now u.now)) }
{
    let set = parent(u.at.as_slice());
    let source = place_at(alloc, places, Thing::Source, set)?;
    let to = meant(alloc, names, places, parts, Thing::Set, u)?;
    add_need(rows, source, to)?;
    let whole = place_at(alloc, places, Thing::Set, set)?;
    add_need(rows, whole, source)
}

// Adds what is needed where a name is used.
fn add_used(
    alloc: Global,
    names: &Keyed,
    places: &Keyed,
    parts: &[Part],
    u: &UsedName,
    rows: &mut NeedRows,
) -> Result<(), OutOfMemory>
    requires { IsIndex by.Name names.now parts.now }
    ensures { OnOk result (rows.new.items ≡ with_needs rows.old.items (used_needs (place_at places.now) parts.now u.now.kind u.now)) }
{
    match u.kind {
        Used::Source => add_source(alloc, names, places, parts, u, rows),
        Used::From => add_from(alloc, names, places, parts, u, rows),
        Used::Signal => add_signal(alloc, names, places, parts, u, rows),
        Used::MarkRows
        | Used::FacetRows
        | Used::Domain
        | Used::Store
        | Used::Scale
        | Used::SizedScale
        | Used::MarkBelow => Ok(()),
    }
}

/// Whether a name is that of the signal of an extent.
pub fn is_extent(alloc: Global, places: &Keyed, name: &GivenName) -> Result<bool, OutOfMemory>
    ensures { IfOk result (λ test. test ≡ is_extent (place_at places.now) name.now) }
{
    let step = place_at(alloc, places, Thing::Step, name.of.as_slice())?;
    Ok(is_signal(name.kind) && step.is_some())
}

// Adds that the signal of an extent needs what stands before the extent.
fn add_given(
    alloc: Global,
    places: &Keyed,
    name: &GivenName,
    rows: &mut NeedRows,
) -> Result<(), OutOfMemory>
    ensures { OnOk result (rows.new.items ≡ with_needs rows.old.items (given_needs (place_at places.now) name.now)) }
{
    if is_extent(alloc, places, name)? {
        let from = place_at(alloc, places, Thing::Signal, name.of.as_slice())?;
        let to = before(alloc, places, name.of.as_slice())?;
        add_need(rows, from, to)
    } else {
        Ok(())
    }
}

// Adds that a data set needs its transform, and this what stands before it.
fn add_step(
    alloc: Global,
    places: &Keyed,
    at: &Place,
    set: &Place,
    rows: &mut NeedRows,
) -> Result<(), OutOfMemory>
    ensures { OnOk result (rows.new.items ≡ with_needs rows.old.items (step_needs (place_at places.now) at.now set.now)) }
{
    let whole = place_at(alloc, places, Thing::Set, set.as_slice())?;
    let step = place_at(alloc, places, Thing::Step, at.as_slice())?;
    add_need(rows, whole, step)?;
    let earlier = before(alloc, places, at.as_slice())?;
    add_need(rows, step, earlier)
}

/// Adds the needs that a part shows.
pub fn add_part(
    alloc: Global,
    names: &Keyed,
    places: &Keyed,
    parts: &[Part],
    part: &Part,
    rows: &mut NeedRows,
) -> Result<(), OutOfMemory>
    requires { IsIndex by.Name names.now parts.now }
    ensures { OnOk result (rows.new.items ≡ with_needs rows.old.items (needs_by (place_at places.now) parts.now part.now)) }
{
    match part {
        Part::Used(u) => add_used(alloc, names, places, parts, u, rows),
        Part::Given(name) => add_given(alloc, places, name, rows),
        Part::Step { at, data } => add_step(alloc, places, at, data, rows),
        Part::Fault { .. }
        | Part::Mark { .. }
        | Part::Plot { .. }
        | Part::Data { .. }
        | Part::Fold { .. }
        | Part::Interval { .. } => Ok(()),
    }
}

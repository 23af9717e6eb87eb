// What clicks leave in stores.
ghost use Rattle.std.specs.Prelude.{◌≡◌, ◌++◌, [], ◌∷◌, not, if◌then◌else◌, filter, IfOk, OnOk};
ghost use Rattle.std.specs.List.{list_any};
ghost use Rattle.selection_events.specs.Stores.{empty_store, with_tuples, is_same_tuple, toggled, store_clicked, store_toggled};

use crate::tuples;
use cell_value::{Row, StoreOf};
use std::alloc::Global;
use text_kit::{Copies, OutOfMemory, Seq, Text, copy_list};

/// A store that holds nothing.
pub fn empty_store(alloc: Global, name: &str) -> Result<StoreOf, OutOfMemory>
    ensures { IfOk result (λ store. store ≡ empty_store name.now) }
{
    Ok(StoreOf {
        name: Text::of(alloc, name)?,
        tuples: Seq::new(alloc),
        extents: Seq::new(alloc),
        panel: None,
        unit: 0,
    })
}

// A store with these tuples since an event in a panel with this facet row, in this unit.
fn with_tuples(
    alloc: Global,
    name: &str,
    facet: &Option<Row>,
    unit: u32,
    tuples: Seq<Row>,
) -> Result<StoreOf, OutOfMemory>
    ensures { IfOk result (λ store. store ≡ with_tuples name.now facet.now unit tuples) }
{
    if tuples.is_empty() {
        return empty_store(alloc, name);
    }
    let panel = Copies::copied(facet, alloc)?;
    let name = Text::of(alloc, name)?;
    Ok(StoreOf {
        name,
        tuples,
        extents: Seq::new(alloc),
        panel,
        unit,
    })
}

/// The store of a selection after a click in a panel with this facet row, whose least unit of the selection is this: the tuple of what was
/// hit, or nothing.
pub fn store_clicked(
    alloc: Global,
    name: &str,
    facet: &Option<Row>,
    unit: u32,
    tuple: Option<Row>,
) -> Result<StoreOf, OutOfMemory>
    ensures { IfOk result (λ store. store ≡ store_clicked name.now facet.now unit tuple) }
{
    match tuple {
        Some(tuple) => {
            let mut tuples = Seq::new(alloc);
            tuples.push(tuple)?;
            with_tuples(alloc, name, facet, unit, tuples)
        }
        None => empty_store(alloc, name),
    }
}

// Whether a tuple is among some.
fn is_among(fields: &[Text], tuple: &Row, tuples: &[Row]) -> Result<bool, OutOfMemory>
    ensures { IfOk result (λ b. b ≡ list_any (is_same_tuple fields.now tuple.now) tuples.now) }
{
    for other in tuples {
        if tuples::is_same_tuple(fields, tuple, other)? {
            return Ok(true);
        }
    }
    Ok(false)
}

// Adds a tuple that isn't the same.
fn push_other(
    fields: &[Text],
    tuple: &Row,
    other: &Row,
    out: &mut Seq<Row>,
) -> Result<(), OutOfMemory>
    ensures { OnOk result (out.new ≡ out.old
        ++ (if not (is_same_tuple fields.now tuple.now other.now) then other.now ∷ [] else [])) }
{
    if tuples::is_same_tuple(fields, tuple, other)? {
        Ok(())
    } else {
        out.push(other.copy()?)
    }
}

// The tuples that aren't the same.
fn others_of(
    alloc: Global,
    fields: &[Text],
    tuple: &Row,
    tuples: &[Row],
) -> Result<Seq<Row>, OutOfMemory>
    ensures { IfOk result (λ others. others ≡ filter (λ t. not (is_same_tuple fields.now tuple.now t)) tuples.now) }
{
    let mut out = Seq::new(alloc);
    for other in tuples {
        push_other(fields, tuple, other, &mut out)?;
    }
    Ok(out)
}

// The tuples with one more.
fn with_one_more(alloc: Global, tuple: &Row, tuples: &[Row]) -> Result<Seq<Row>, OutOfMemory>
    ensures { IfOk result (λ more. more ≡ tuples.now ++ tuple.now ∷ []) }
{
    let mut more = copy_list(alloc, tuples)?;
    more.push(tuple.copy()?)?;
    Ok(more)
}

// The tuples with one more, or without it.
fn toggled(
    alloc: Global,
    fields: &[Text],
    tuple: &Row,
    tuples: &[Row],
) -> Result<Seq<Row>, OutOfMemory>
    ensures { IfOk result (λ after. after ≡ toggled (is_same_tuple fields.now) tuple.now tuples.now) }
{
    if is_among(fields, tuple, tuples)? {
        others_of(alloc, fields, tuple, tuples)
    } else {
        with_one_more(alloc, tuple, tuples)
    }
}

/// The store of a selection that keeps these fields after a click with the shift key in a panel with this facet row, whose least unit of the
/// selection is this: the tuple of what was hit is added, or taken out; without one nothing changes. Tuples are compared one by one.
pub fn store_toggled(
    alloc: Global,
    fields: &[Text],
    facet: &Option<Row>,
    unit: u32,
    store: &StoreOf,
    tuple: Option<Row>,
) -> Result<StoreOf, OutOfMemory>
    ensures { IfOk result (λ after. after ≡ store_toggled fields.now facet.now unit store.now tuple) }
{
    match tuple {
        Some(tuple) => {
            let tuples = toggled(alloc, fields, &tuple, store.tuples.as_slice())?;
            with_tuples(alloc, store.name.as_str(), facet, unit, tuples)
        }
        None => store.copy(alloc),
    }
}

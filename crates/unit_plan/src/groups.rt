// The groups of a unit that aggregates its rows.
ghost use Rattle.std.specs.Prelude.{◌≡◌, ◌++◌, flat_map, IfOk, OnOk};
ghost use Rattle.std.specs.List.{list_any};
ghost use Rattle.vl_compose.specs.Shown.{unit_shown};
ghost use Rattle.scale_infer.specs.Types.{is_aggregated};
ghost use Rattle.unit_plan.specs.Shows.{ShownAt};
ghost use Rattle.unit_plan.specs.Groups.{aggregates, name_list, group_names_of, grouped_by, op_of, ops_of, ops_in, groups_of, group_names};
ghost use Rattle.unit_plan.specs.inner.LentShows.{show_shown, shows_shown};

use crate::shows::{ShownHere, field_in, own_shows, shows_of};
use cell_names::{end_of_field, name_of};
use cell_value::SharedText;
use plain_rows::{GroupOf, OpOf};
use scale_infer::is_aggregated;
use std::alloc::Global;
use text_kit::{Copies, OutOfMemory, Seq, Text};
use vl_compose::UnitHere;
use vl_spec::FieldDefinition;

// Whether one of some definitions shows an aggregate.
fn any_is_aggregated(shows: &[ShownHere]) -> bool
    ensures { result ≡ list_any (λ (s : ShownAt). is_aggregated s.shows) (shows_shown shows.now) }
{
    for shown in shows {
        if is_aggregated(shown.shows) {
            return true;
        }
    }
    false
}

/// Whether a unit aggregates its rows.
pub(crate) fn aggregates(alloc: Global, unit: &UnitHere) -> Result<bool, OutOfMemory>
    ensures { IfOk result (λ does. does ≡ aggregates (unit_shown unit.now)) }
{
    let shows = own_shows(alloc, unit)?;
    Ok(any_is_aggregated(shows.as_slice()))
}

/// Adds a name, if there is one.
pub(crate) fn push_name(name: Option<Text>, names: &mut Seq<Text>) -> Result<(), OutOfMemory>
    ensures { OnOk result (names.new ≡ names.old ++ name_list name) }
{
    match name {
        Some(name) => names.push(name),
        None => Ok(()),
    }
}

// Adds the names by which a definition groups rows.
fn push_names_of(
    alloc: Global,
    channel: u16,
    of: &FieldDefinition,
    names: &mut Seq<Text>,
) -> Result<(), OutOfMemory>
    ensures { OnOk result (names.new ≡ names.old ++ group_names_of channel of.now) }
{
    if of.aggregate.is_some() {
        return Ok(());
    }
    push_name(name_of(alloc, channel, of)?, names)?;
    push_name(end_of_field(alloc, channel, of)?, names)
}

// Adds those of what is shown.
fn push_grouped(alloc: Global, shown: &ShownHere, names: &mut Seq<Text>) -> Result<(), OutOfMemory>
    ensures { OnOk result (names.new ≡ names.old ++ grouped_by (show_shown shown.now)) }
{
    match field_in(shown.shows) {
        Some(of) => push_names_of(alloc, shown.channel, of, names),
        None => Ok(()),
    }
}

// The names by which definitions group rows.
fn names_of(alloc: Global, shows: &[ShownHere]) -> Result<Seq<Text>, OutOfMemory>
    ensures { IfOk result (λ names. names ≡ flat_map grouped_by (shows_shown shows.now)) }
{
    let mut names = Seq::new(alloc);
    for shown in shows {
        push_grouped(alloc, shown, &mut names)?;
    }
    Ok(names)
}

// Adds an operation, where it has a name.
fn push_op(
    alloc: Global,
    op: u16,
    field: &Option<Text>,
    name: Option<Text>,
    ops: &mut Seq<OpOf>,
) -> Result<(), OutOfMemory>
    ensures { OnOk result (ops.new ≡ ops.old ++ op_of op field.now name) }
{
    match name {
        Some(name) => {
            let out = SharedText::of_text(alloc, name)?;
            let field = Copies::copied(field, alloc)?;
            ops.push(OpOf { op, field, out })
        }
        None => Ok(()),
    }
}

// Adds that of a definition with an aggregate.
fn push_ops_of(
    alloc: Global,
    channel: u16,
    of: &FieldDefinition,
    ops: &mut Seq<OpOf>,
) -> Result<(), OutOfMemory>
    ensures { OnOk result (ops.new ≡ ops.old ++ ops_of channel of.now) }
{
    match of.aggregate {
        Some(op) => push_op(alloc, op, &of.field, name_of(alloc, channel, of)?, ops),
        None => Ok(()),
    }
}

// Adds that of what is shown.
fn push_ops_in(alloc: Global, shown: &ShownHere, ops: &mut Seq<OpOf>) -> Result<(), OutOfMemory>
    ensures { OnOk result (ops.new ≡ ops.old ++ ops_in (show_shown shown.now)) }
{
    match field_in(shown.shows) {
        Some(of) => push_ops_of(alloc, shown.channel, of, ops),
        None => Ok(()),
    }
}

// The operations of definitions.
fn ops_among(alloc: Global, shows: &[ShownHere]) -> Result<Seq<OpOf>, OutOfMemory>
    ensures { IfOk result (λ ops. ops ≡ flat_map ops_in (shows_shown shows.now)) }
{
    let mut ops = Seq::new(alloc);
    for shown in shows {
        push_ops_in(alloc, shown, &mut ops)?;
    }
    Ok(ops)
}

/// The groups of a unit that aggregates its rows.
pub(crate) fn groups_of(alloc: Global, unit: &UnitHere) -> Result<GroupOf, OutOfMemory>
    ensures { IfOk result (λ how. how ≡ groups_of (unit_shown unit.now)) }
{
    let shows = shows_of(alloc, unit)?;
    Ok(GroupOf {
        groupby: names_of(alloc, shows.as_slice())?,
        ops: ops_among(alloc, shows.as_slice())?,
    })
}

/// All names by which a unit groups its rows, those of the ends of bins and units of time too; None where it doesn't aggregate them.
pub fn group_names(alloc: Global, unit: &UnitHere) -> Result<Option<Seq<Text>>, OutOfMemory>
    ensures { IfOk result (λ names. names ≡ group_names (unit_shown unit.now)) }
{
    if aggregates(alloc, unit)? {
        let shows = shows_of(alloc, unit)?;
        names_of(alloc, shows.as_slice()).map(Some)
    } else {
        Ok(None)
    }
}

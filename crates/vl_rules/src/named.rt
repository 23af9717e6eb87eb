//! Under which names definitions are kept by selections, and by which they group rows.
ghost use Rattle.std.specs.Prelude.{◌≡◌, ◌++◌, filter_map, flat_map, map, option_to_list, IfOk, OnOk};
ghost use Rattle.scale_infer.specs.Types.{has_bins};
ghost use Rattle.vl_rules.specs.Names.{cells_name, field_extent, extent_name, field_groups, definition_groups};

use cell_names::{end_of_field, name_of};
use std::alloc::Global;
use text_kit::{OutOfMemory, Seq, Text};
use vl_spec::{Bin, Definition, FieldDefinition};

// The name of the cells of a definition of a channel.
fn cells_name(
    alloc: Global,
    channel: u16,
    definition: &Definition,
) -> Result<Option<Text>, OutOfMemory>
    ensures { IfOk result (λ name. name ≡ cells_name channel definition.now) }
{
    match definition {
        Definition::Field(of) => name_of(alloc, channel, of),
        Definition::Value(_) | Definition::Datum(_) => Ok(None),
    }
}

/// Whether there are bins.
pub fn has_bins(bin: &Option<Bin>) -> bool
    ensures { result ≡ has_bins bin.now }
{
    match bin {
        Some(Bin::Flag(flag)) => *flag,
        Some(Bin::Settings(_)) => true,
        None => false,
    }
}

// A copy of a name.
fn copied_name(name: &Option<Text>) -> Result<Option<Text>, OutOfMemory>
    ensures { IfOk result (λ copy. copy ≡ name.now) }
{
    match name {
        Some(name) => name.copy().map(Some),
        None => Ok(None),
    }
}

// The name under which an interval keeps a field.
fn field_extent(
    alloc: Global,
    channel: u16,
    of: &FieldDefinition,
) -> Result<Option<Text>, OutOfMemory>
    ensures { IfOk result (λ name. name ≡ field_extent channel of.now) }
{
    if has_bins(&of.bin) && of.aggregate.is_none() {
        copied_name(&of.field)
    } else {
        name_of(alloc, channel, of)
    }
}

// The name under which an interval keeps a definition.
fn extent_name(
    alloc: Global,
    channel: u16,
    definition: &Definition,
) -> Result<Option<Text>, OutOfMemory>
    ensures { IfOk result (λ name. name ≡ extent_name channel definition.now) }
{
    match definition {
        Definition::Field(of) => field_extent(alloc, channel, of),
        Definition::Value(_) | Definition::Datum(_) => Ok(None),
    }
}

/// Adds a name, if there is one.
pub fn push_name(name: Option<Text>, out: &mut Seq<Text>) -> Result<(), OutOfMemory>
    ensures { OnOk result (out.new ≡ out.old ++ option_to_list name) }
{
    match name {
        Some(name) => out.push(name),
        None => Ok(()),
    }
}

/// The names under which a point keeps some definitions of a channel.
pub fn names_of(
    alloc: Global,
    channel: u16,
    definitions: &[&Definition],
) -> Result<Seq<Text>, OutOfMemory>
    ensures { IfOk result (λ names. names ≡ filter_map (cells_name channel) (map (λ d. d.now) definitions.now)) }
{
    let mut names = Seq::new(alloc);
    for definition in definitions {
        push_name(cells_name(alloc, channel, definition)?, &mut names)?;
    }
    Ok(names)
}

/// The names under which an interval keeps them.
pub fn extents_of(
    alloc: Global,
    channel: u16,
    definitions: &[&Definition],
) -> Result<Seq<Text>, OutOfMemory>
    ensures { IfOk result (λ names. names ≡ filter_map (extent_name channel) (map (λ d. d.now) definitions.now)) }
{
    let mut names = Seq::new(alloc);
    for definition in definitions {
        push_name(extent_name(alloc, channel, definition)?, &mut names)?;
    }
    Ok(names)
}

// Adds the names by which a field groups rows.
fn push_field_groups(
    alloc: Global,
    channel: u16,
    of: &FieldDefinition,
    out: &mut Seq<Text>,
) -> Result<(), OutOfMemory>
    ensures { OnOk result (out.new ≡ out.old ++ field_groups channel of.now) }
{
    if of.aggregate.is_none() {
        push_both(
            name_of(alloc, channel, of)?,
            end_of_field(alloc, channel, of)?,
            out,
        )
    } else {
        Ok(())
    }
}

// Adds two names, as far as they are there.
fn push_both(name: Option<Text>, end: Option<Text>, out: &mut Seq<Text>) -> Result<(), OutOfMemory>
    ensures { OnOk result (out.new ≡ out.old ++ (option_to_list name ++ option_to_list end)) }
{
    push_name(name, out)?;
    push_name(end, out)
}

// Adds the names by which a definition groups rows.
fn push_groups(
    alloc: Global,
    channel: u16,
    definition: &Definition,
    out: &mut Seq<Text>,
) -> Result<(), OutOfMemory>
    ensures { OnOk result (out.new ≡ out.old ++ definition_groups channel definition.now) }
{
    match definition {
        Definition::Field(of) => push_field_groups(alloc, channel, of, out),
        Definition::Value(_) | Definition::Datum(_) => Ok(()),
    }
}

/// Adds the names by which some definitions of a channel group rows.
pub fn push_all_groups(
    alloc: Global,
    channel: u16,
    definitions: &[&Definition],
    out: &mut Seq<Text>,
) -> Result<(), OutOfMemory>
    ensures { OnOk result (out.new ≡ out.old ++ flat_map (definition_groups channel) (map (λ d. d.now) definitions.now)) }
{
    for definition in definitions {
        push_groups(alloc, channel, definition, out)?;
    }
    Ok(())
}

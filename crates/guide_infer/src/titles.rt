// The titles of axes and legends.
ghost use Rattle.std.specs.Prelude.{◌≡◌, ◌++◌, map, option_map, option_to_list, unwrap_or, IfOk, OnOk};
ghost use Rattle.std.specs.List.{filter_map, fold};
ghost use Rattle.scale_infer.specs.Types.{are_bins, has_bins};
ghost use Rattle.guide_infer.specs.Said.{title_member};
ghost use Rattle.guide_infer.specs.Titles.{title_over, aggregate_title, in_unit, unit_title, in_bins, plain_title, field_title, default_title};
ghost use Rattle.guide_infer.specs.Titles.{given_or_default, axis_title, legend_title};
ghost use Rattle.guide_infer.specs.Titles.{and_title, behind_each_other, joined_titles};

use crate::once;
use crate::said::{axis_in, legend_in};
use crate::words::{operation_word, unit_word};
use std::alloc::Global;
use text_kit::{Copies, OutOfMemory, Seq, Text};
use vl_spec::{Bin, Definition, FieldDefinition};

// Whether bins are asked for.
fn are_bins(bin: &Bin) -> bool
    ensures { result ≡ are_bins bin.now }
{
    match bin {
        Bin::Flag(flag) => *flag,
        Bin::Settings(_) => true,
    }
}

/// The same where nothing may be said.
pub(crate) fn has_bins(bin: &Option<Bin>) -> bool
    ensures { result ≡ has_bins bin.now }
{
    match bin {
        Some(bin) => are_bins(bin),
        None => false,
    }
}

// The title of an operation over a field.
fn title_over(alloc: Global, op: u16, field: &Text) -> Result<Text, OutOfMemory>
    ensures { IfOk result (λ title. title ≡ title_over op field.now) }
{
    let mut title = Text::of(alloc, operation_word(op))?;
    title.push_str(" of ")?;
    title.push_str(field.as_str())?;
    Ok(title)
}

// That of an aggregate.
fn aggregate_title(
    alloc: Global,
    field: &Option<Text>,
    op: u16,
) -> Result<Option<Text>, OutOfMemory>
    ensures { IfOk result (λ title. title ≡ aggregate_title field.now op) }
{
    if op == 0 {
        Ok(Some(Text::of(alloc, "Count of Records")?))
    } else {
        match field {
            Some(field) => title_over(alloc, op, field).map(Some),
            None => Ok(None),
        }
    }
}

// That of a field in a unit of time.
fn in_unit(unit: u16, field: &Text) -> Result<Text, OutOfMemory>
    ensures { IfOk result (λ title. title ≡ in_unit unit field.now) }
{
    let mut title = field.copy()?;
    title.push_str(" (")?;
    title.push_str(unit_word(unit))?;
    title.push_str(")")?;
    Ok(title)
}

// The same where there may be no field.
fn unit_title(field: &Option<Text>, unit: u16) -> Result<Option<Text>, OutOfMemory>
    ensures { IfOk result (λ title. title ≡ unit_title field.now unit) }
{
    match field {
        Some(field) => in_unit(unit, field).map(Some),
        None => Ok(None),
    }
}

// That of a field in bins.
fn in_bins(field: &Text) -> Result<Text, OutOfMemory>
    ensures { IfOk result (λ title. title ≡ in_bins field.now) }
{
    let mut title = field.copy()?;
    title.push_str(" (binned)")?;
    Ok(title)
}

// The same where there may be no field.
fn bin_title(field: &Option<Text>) -> Result<Option<Text>, OutOfMemory>
    ensures { IfOk result (λ title. title ≡ option_map in_bins field.now) }
{
    match field {
        Some(field) => in_bins(field).map(Some),
        None => Ok(None),
    }
}

// That of a field without an aggregate.
fn plain_title(alloc: Global, of: &FieldDefinition) -> Result<Option<Text>, OutOfMemory>
    ensures { IfOk result (λ title. title ≡ plain_title of.now) }
{
    if has_bins(&of.bin) {
        bin_title(&of.field)
    } else {
        match of.time_unit {
            Some(unit) => unit_title(&of.field, unit),
            None => Copies::copied(&of.field, alloc),
        }
    }
}

// That of a field.
fn field_title(alloc: Global, of: &FieldDefinition) -> Result<Option<Text>, OutOfMemory>
    ensures { IfOk result (λ title. title ≡ field_title of.now) }
{
    match of.aggregate {
        Some(op) => aggregate_title(alloc, &of.field, op),
        None => plain_title(alloc, of),
    }
}

// The title of a definition that gives none.
fn default_title(alloc: Global, definition: &Definition) -> Result<Option<Text>, OutOfMemory>
    ensures { IfOk result (λ title. title ≡ default_title definition.now) }
{
    match definition {
        Definition::Value(_) => Ok(None),
        Definition::Datum(_) => Ok(None),
        Definition::Field(of) => field_title(alloc, of),
    }
}

// A title that is given, or the default.
fn said_or_default(
    alloc: Global,
    said: &Option<Option<Text>>,
    definition: &Definition,
) -> Result<Option<Text>, OutOfMemory>
    ensures { IfOk result (λ title. title ≡ unwrap_or said.now (default_title definition.now)) }
{
    match said {
        Some(title) => Copies::copied(title, alloc),
        None => default_title(alloc, definition),
    }
}

// The title of a definition whose axis or legend gives none.
fn own_or_default(alloc: Global, definition: &Definition) -> Result<Option<Text>, OutOfMemory>
    ensures { IfOk result (λ title. title ≡ unwrap_or (title_member definition.now) (default_title definition.now)) }
{
    match definition {
        Definition::Value(_) => default_title(alloc, definition),
        Definition::Datum(of) => said_or_default(alloc, &of.title, definition),
        Definition::Field(of) => said_or_default(alloc, &of.title, definition),
    }
}

// The title of a definition whose axis or legend says this.
fn given_or_default(
    alloc: Global,
    given: &Option<Option<Text>>,
    definition: &Definition,
) -> Result<Option<Text>, OutOfMemory>
    ensures { IfOk result (λ title. title ≡ given_or_default given.now definition.now) }
{
    match given {
        Some(title) => Copies::copied(title, alloc),
        None => own_or_default(alloc, definition),
    }
}

// The title that a definition adds to its axis.
fn axis_title(alloc: Global, definition: &Definition) -> Result<Option<Text>, OutOfMemory>
    ensures { IfOk result (λ title. title ≡ axis_title definition.now) }
{
    match axis_in(definition) {
        Some(axis) => given_or_default(alloc, &axis.title, definition),
        None => own_or_default(alloc, definition),
    }
}

// The title that a definition adds to its legend.
fn legend_title(alloc: Global, definition: &Definition) -> Result<Option<Text>, OutOfMemory>
    ensures { IfOk result (λ title. title ≡ legend_title definition.now) }
{
    match legend_in(definition) {
        Some(legend) => given_or_default(alloc, &legend.title, definition),
        None => own_or_default(alloc, definition),
    }
}

// Adds the title that a definition adds to its axis.
fn push_axis_title(
    alloc: Global,
    definition: &Definition,
    titles: &mut Seq<Text>,
) -> Result<(), OutOfMemory>
    ensures { OnOk result (titles.new ≡ titles.old ++ option_to_list (axis_title definition.now)) }
{
    match axis_title(alloc, definition)? {
        Some(title) => titles.push(title),
        None => Ok(()),
    }
}

// Adds the title that a definition adds to its legend.
fn push_legend_title(
    alloc: Global,
    definition: &Definition,
    titles: &mut Seq<Text>,
) -> Result<(), OutOfMemory>
    ensures { OnOk result (titles.new ≡ titles.old ++ option_to_list (legend_title definition.now)) }
{
    match legend_title(alloc, definition)? {
        Some(title) => titles.push(title),
        None => Ok(()),
    }
}

// Adds a title behind another.
fn push_behind(title: &mut Text, other: &Text) -> Result<(), OutOfMemory>
    ensures { OnOk result (title.new ≡ and_title title.old other.now) }
{
    title.push_str(", ")?;
    title.push_str(other.as_str())
}

// Adds titles behind another.
fn push_others(title: &mut Text, others: &[Text]) -> Result<(), OutOfMemory>
    ensures { OnOk result (title.new ≡ fold and_title title.old others.now) }
{
    for other in others {
        push_behind(title, other)?;
    }
    Ok(())
}

// A title and others behind it.
fn with_others(first: &Text, others: &[Text]) -> Result<Text, OutOfMemory>
    ensures { IfOk result (λ title. title ≡ fold and_title first.now others.now) }
{
    let mut title = first.copy()?;
    push_others(&mut title, others)?;
    Ok(title)
}

// Titles behind each other.
fn behind_each_other(titles: &[Text]) -> Result<Option<Text>, OutOfMemory>
    ensures { IfOk result (λ title. title ≡ behind_each_other titles.now) }
{
    match titles {
        [first, others @ ..] => with_others(first, others).map(Some),
        [] => Ok(None),
    }
}

// The titles that definitions add to their axis.
fn axis_titles(alloc: Global, definitions: &[&Definition]) -> Result<Seq<Text>, OutOfMemory>
    ensures { IfOk result (λ titles. titles ≡ filter_map axis_title (map (λ d. d.now) definitions.now)) }
{
    let mut titles = Seq::new(alloc);
    for definition in definitions {
        push_axis_title(alloc, definition, &mut titles)?;
    }
    Ok(titles)
}

// The titles that definitions add to their legend.
fn legend_titles(alloc: Global, definitions: &[&Definition]) -> Result<Seq<Text>, OutOfMemory>
    ensures { IfOk result (λ titles. titles ≡ filter_map legend_title (map (λ d. d.now) definitions.now)) }
{
    let mut titles = Seq::new(alloc);
    for definition in definitions {
        push_legend_title(alloc, definition, &mut titles)?;
    }
    Ok(titles)
}

// The title of an axis or a legend by those of its definitions.
fn joined_titles(alloc: Global, titles: &[Text]) -> Result<Option<Text>, OutOfMemory>
    ensures { IfOk result (λ title. title ≡ joined_titles titles.now) }
{
    let distinct = once::each_once(alloc, titles)?;
    behind_each_other(distinct.as_slice())
}

/// The title of an axis by the definitions that share it.
pub(crate) fn title_of_axis(
    alloc: Global,
    definitions: &[&Definition],
) -> Result<Option<Text>, OutOfMemory>
    ensures { IfOk result (λ title. title ≡ joined_titles (filter_map axis_title (map (λ d. d.now) definitions.now))) }
{
    let titles = axis_titles(alloc, definitions)?;
    joined_titles(alloc, titles.as_slice())
}

/// The title of a legend by the definitions that share it.
pub(crate) fn title_of_legend(
    alloc: Global,
    definitions: &[&Definition],
) -> Result<Option<Text>, OutOfMemory>
    ensures { IfOk result (λ title. title ≡ joined_titles (filter_map legend_title (map (λ d. d.now) definitions.now))) }
{
    let titles = legend_titles(alloc, definitions)?;
    joined_titles(alloc, titles.as_slice())
}

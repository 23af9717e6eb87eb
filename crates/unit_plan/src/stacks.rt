// The stack of a unit.
ghost use Rattle.std.specs.Prelude.{◌≡◌, ◌++◌, flat_map, map, option_copied, IfOk, OnOk};
ghost use Rattle.std.specs.Option.{option_map, option_and_then};
ghost use Rattle.vl_compose.specs.Shown.{unit_shown};
ghost use Rattle.scale_infer.specs.Scales.{first_at};
ghost use Rattle.scale_infer.specs.Types.{is_quantitative};
ghost use Rattle.unit_plan.specs.Groups.{name_list};
ghost use Rattle.unit_plan.specs.Measures.{measure_of, dimension_of};
ghost use Rattle.cell_names.specs.Names.{stack_start, stack_end};
ghost use Rattle.unit_plan.specs.Shows.{ShownAt};
ghost use Rattle.unit_plan.specs.Stacks.{plain_field, plain_in, plain_at, series_of, offset_said, stacks, is_stacker, are_some};
ghost use Rattle.unit_plan.specs.Stacks.{stacks_over, zero_if, default_offset, stack_offset, name_in, dimension_names, facet_names};
ghost use Rattle.unit_plan.specs.Stacks.{downwards, stack_with, stack_by, stack_at, stack_settings_of, stacked_by, stack_of};
ghost use Rattle.unit_plan.specs.inner.LentShows.{show_shown, shows_shown};

use crate::groups::push_name;
use crate::measures::{dimension_by, measure_by, measures_x};
use crate::shows::{ShownHere, facet_shows, field_in, first_at, own_shows};
use crate::transforms::offset_of;
use cell_names::{end_name, name_of, stack_start};
use cell_value::SharedText;
use plain_rows::{SortBy, StackOf};
use scale_infer::type_of;
use std::alloc::Global;
use text_kit::{OutOfMemory, Seq, Text};
use vl_compose::UnitHere;
use vl_normalize::{COLOR, DETAIL, OPACITY, SHAPE};
use vl_spec::{Definition, FieldDefinition, FieldType, Mark, MarkType, Offset, Stacking};

/// The measure that a unit stacks.
pub struct Stacked {
    /// The code of its channel.
    pub channel: u16,
    /// The name of its cells.
    pub name: Text,
    /// The name of where they begin.
    pub start: Text,
    /// The name of where they end.
    pub end: Text,
}

impl Drop for Stacked {
    fn drop(self) {
        let Stacked {
            channel: _,
            name: _,
            start: _,
            end: _,
        } = self;
    }
}

// The channels whose fields tell series apart.
const SERIES_CHANNELS: [u16; 4] = [COLOR, OPACITY, SHAPE, DETAIL];

// Adds the name of an unaggregated field.
fn push_plain(
    alloc: Global,
    channel: u16,
    of: &FieldDefinition,
    names: &mut Seq<Text>,
) -> Result<(), OutOfMemory>
    ensures { OnOk result (names.new ≡ names.old ++ plain_field channel of.now) }
{
    if of.aggregate.is_some() {
        Ok(())
    } else {
        push_name(name_of(alloc, channel, of)?, names)
    }
}

// Adds that of what is shown.
fn push_plain_shown(
    alloc: Global,
    shown: &ShownHere,
    names: &mut Seq<Text>,
) -> Result<(), OutOfMemory>
    ensures { OnOk result (names.new ≡ names.old ++ plain_in (show_shown shown.now)) }
{
    match field_in(shown.shows) {
        Some(of) => push_plain(alloc, shown.channel, of, names),
        None => Ok(()),
    }
}

// Adds the same of the channel of a code, where it is that.
fn push_plain_at(
    alloc: Global,
    code: u16,
    shown: &ShownHere,
    names: &mut Seq<Text>,
) -> Result<(), OutOfMemory>
    ensures { OnOk result (names.new ≡ names.old ++ plain_at code (show_shown shown.now)) }
{
    if shown.channel == code {
        push_plain_shown(alloc, shown, names)
    } else {
        Ok(())
    }
}

// Adds the unaggregated fields of the channel of a code.
fn push_series_at(
    alloc: Global,
    code: u16,
    shows: &[ShownHere],
    names: &mut Seq<Text>,
) -> Result<(), OutOfMemory>
    ensures { OnOk result (names.new ≡ names.old ++ flat_map (plain_at code) (shows_shown shows.now)) }
{
    for shown in shows {
        push_plain_at(alloc, code, shown, names)?;
    }
    Ok(())
}

// Adds those of some channels.
fn push_series(
    alloc: Global,
    channels: &[u16],
    shows: &[ShownHere],
    names: &mut Seq<Text>,
) -> Result<(), OutOfMemory>
    ensures { OnOk result (names.new ≡ names.old ++ flat_map (λ code. flat_map (plain_at code) (shows_shown shows.now)) channels.now) }
{
    for code in channels {
        push_series_at(alloc, *code, shows, names)?;
    }
    Ok(())
}

/// The unaggregated fields of color, opacity, shape and detail.
pub(crate) fn series_of(alloc: Global, unit: &UnitHere) -> Result<Seq<Text>, OutOfMemory>
    ensures { IfOk result (λ names. names ≡ series_of (unit_shown unit.now)) }
{
    let shows = own_shows(alloc, unit)?;
    let mut names = Seq::new(alloc);
    push_series(alloc, &SERIES_CHANNELS, shows.as_slice(), &mut names)?;
    Ok(names)
}

// What is said of a stack.
fn offset_said(said: &Stacking) -> Option<Offset>
    ensures { result ≡ offset_said said.now }
{
    match said {
        Stacking::Null => None,
        Stacking::Flag(flag) => zero_if(*flag),
        Stacking::Offset(offset) => Some(*offset),
    }
}

// Whether a mark is stacked by itself.
fn stacks(mark: MarkType) -> bool
    ensures { result ≡ stacks mark }
{
    match mark {
        MarkType::Bar | MarkType::Area => true,
        MarkType::Rect
        | MarkType::Point
        | MarkType::Circle
        | MarkType::Square
        | MarkType::Line
        | MarkType::Tick
        | MarkType::Rule
        | MarkType::Text => false,
    }
}

// Whether that of a unit is.
fn is_stacker(mark: &Option<Mark>) -> bool
    ensures { result ≡ is_stacker mark.now }
{
    match mark {
        Some(Mark::Type(type_)) => stacks(*type_),
        Some(Mark::Definition(of)) => stacks(of.type_),
        None => false,
    }
}

// Whether such cells are numbers.
fn is_quantitative(type_: FieldType) -> bool
    ensures { result ≡ is_quantitative type_ }
{
    matches!(type_, FieldType::Quantitative)
}

// Whether there is a name among some.
fn are_some(names: &[Text]) -> bool
    ensures { result ≡ are_some names.now }
{
    match names {
        [_, ..] => true,
        [] => false,
    }
}

// Whether a mark is stacked over such a measure where these tell series apart.
fn stacks_over(mark: &Option<Mark>, measure: &Definition, series: &[Text]) -> bool
    ensures { result ≡ stacks_over mark.now measure.now series.now }
{
    is_stacker(mark) && is_quantitative(type_of(measure)) && are_some(series)
}

// From zero, or not at all.
fn zero_if(is: bool) -> Option<Offset>
    ensures { result ≡ zero_if is }
{
    if is { Some(Offset::Zero) } else { None }
}

// Where a stack begins that nothing is said of.
fn default_offset(
    alloc: Global,
    unit: &UnitHere,
    measure: &Definition,
) -> Result<Option<Offset>, OutOfMemory>
    ensures { IfOk result (λ offset. offset ≡ default_offset (unit_shown unit.now) measure.now) }
{
    let series = series_of(alloc, unit)?;
    Ok(zero_if(stacks_over(unit.mark, measure, series.as_slice())))
}

// Where the stack of a measure begins, if it is stacked.
fn stack_offset(
    alloc: Global,
    unit: &UnitHere,
    measure: &Definition,
    of: &FieldDefinition,
) -> Result<Option<Offset>, OutOfMemory>
    ensures { IfOk result (λ offset. offset ≡ stack_offset (unit_shown unit.now) measure.now of.now) }
{
    match &of.stack {
        Some(said) => Ok(offset_said(said)),
        None => default_offset(alloc, unit, measure),
    }
}

// The name of the cells that a definition shows.
fn name_in(
    alloc: Global,
    channel: u16,
    definition: &Definition,
) -> Result<Option<Text>, OutOfMemory>
    ensures { IfOk result (λ name. name ≡ name_in channel definition.now) }
{
    match field_in(definition) {
        Some(of) => name_of(alloc, channel, of),
        None => Ok(None),
    }
}

/// The name of the cells of the dimension of a unit, if they have one.
pub(crate) fn dimension_name(alloc: Global, unit: &UnitHere) -> Result<Option<Text>, OutOfMemory>
    ensures { IfOk result (λ name. name
        ≡ option_and_then (name_in (dimension_of (unit_shown unit.now))) (first_at (unit_shown unit.now) (dimension_of (unit_shown unit.now)))) }
{
    let channel = dimension_by(measures_x(alloc, unit)?);
    match first_at(alloc, unit, channel)? {
        Some(first) => name_in(alloc, channel, first),
        None => Ok(None),
    }
}

// Adds the names of the cells of facets.
fn push_facet_names(
    alloc: Global,
    shows: &[ShownHere],
    names: &mut Seq<Text>,
) -> Result<(), OutOfMemory>
    ensures { OnOk result (names.new
        ≡ names.old ++ flat_map (λ (s : ShownAt). name_list (name_in s.channel s.shows)) (shows_shown shows.now)) }
{
    for shown in shows {
        push_name(name_in(alloc, shown.channel, shown.shows)?, names)?;
    }
    Ok(())
}

// The names of the cells with which rows make a stack.
fn stack_names(alloc: Global, unit: &UnitHere) -> Result<Seq<Text>, OutOfMemory>
    ensures { IfOk result (λ names. names ≡ dimension_names (unit_shown unit.now) ++ facet_names (unit_shown unit.now)) }
{
    let mut names = Seq::new(alloc);
    push_name(dimension_name(alloc, unit)?, &mut names)?;
    let shows = facet_shows(alloc, unit)?;
    push_facet_names(alloc, shows.as_slice(), &mut names)?;
    Ok(names)
}

// Fields, each with its greatest cell first.
fn all_downwards(alloc: Global, names: &[Text]) -> Result<Seq<SortBy>, OutOfMemory>
    ensures { IfOk result (λ sort. sort ≡ map downwards names.now) }
{
    let mut out = Seq::with_capacity(alloc, names.len())?;
    for name in names {
        out.push(SortBy {
            field: name.copy()?,
            descending: true,
        })?;
    }
    Ok(out)
}

// The order within a stack.
fn stack_order(alloc: Global, unit: &UnitHere) -> Result<Seq<SortBy>, OutOfMemory>
    ensures { IfOk result (λ sort. sort ≡ map downwards (series_of (unit_shown unit.now))) }
{
    let series = series_of(alloc, unit)?;
    all_downwards(alloc, series.as_slice())
}

// Where a cell that is stacked ends.
fn shared_stack_end(alloc: Global, name: &Text) -> Result<SharedText, OutOfMemory>
    ensures { IfOk result (λ end. end ≡ stack_end name.now) }
{
    let end = end_name(alloc, name.as_str())?;
    SharedText::of_text(alloc, end)
}

// Where it begins.
fn shared_stack_start(alloc: Global, name: &Text) -> Result<SharedText, OutOfMemory>
    ensures { IfOk result (λ start. start ≡ stack_start name.now) }
{
    let start = stack_start(alloc, name.as_str())?;
    SharedText::of_text(alloc, start)
}

// A stack of the cells of a name.
fn stack_with(
    alloc: Global,
    unit: &UnitHere,
    name: &Text,
    offset: Offset,
) -> Result<StackOf, OutOfMemory>
    ensures { IfOk result (λ how. how ≡ stack_with (unit_shown unit.now) name.now offset) }
{
    Ok(StackOf {
        groupby: stack_names(alloc, unit)?,
        sort: stack_order(alloc, unit)?,
        offset: offset_of(offset),
        field: name.copy()?,
        out: shared_stack_start(alloc, name)?,
        out_end: shared_stack_end(alloc, name)?,
    })
}

// The same, where there is an offset.
fn stack_from(
    alloc: Global,
    unit: &UnitHere,
    name: &Text,
    offset: Option<Offset>,
) -> Result<Option<StackOf>, OutOfMemory>
    ensures { IfOk result (λ how. how ≡ option_map (stack_with (unit_shown unit.now) name.now) offset) }
{
    match offset {
        Some(offset) => stack_with(alloc, unit, name, offset).map(Some),
        None => Ok(None),
    }
}

// The stack of a measure that a field shows under a name.
fn stack_named(
    alloc: Global,
    unit: &UnitHere,
    measure: &Definition,
    of: &FieldDefinition,
    name: &Text,
) -> Result<Option<StackOf>, OutOfMemory>
    ensures { IfOk result (λ how. how
        ≡ option_map (stack_with (unit_shown unit.now) name.now) (stack_offset (unit_shown unit.now) measure.now of.now)) }
{
    let offset = stack_offset(alloc, unit, measure, of)?;
    stack_from(alloc, unit, name, offset)
}

// The stack of a measure that a field shows.
fn stack_by(
    alloc: Global,
    unit: &UnitHere,
    channel: u16,
    measure: &Definition,
    of: &FieldDefinition,
) -> Result<Option<StackOf>, OutOfMemory>
    requires { channel ≡ measure_of (unit_shown unit.now) }
    ensures { IfOk result (λ how. how ≡ stack_by (unit_shown unit.now) measure.now of.now) }
{
    match name_of(alloc, channel, of)? {
        Some(name) => stack_named(alloc, unit, measure, of, &name),
        None => Ok(None),
    }
}

// The stack of a measure.
fn stack_at(
    alloc: Global,
    unit: &UnitHere,
    channel: u16,
    measure: Option<&Definition>,
) -> Result<Option<StackOf>, OutOfMemory>
    requires { channel ≡ measure_of (unit_shown unit.now) }
    ensures { IfOk result (λ how. how ≡ stack_at (unit_shown unit.now) (option_copied measure.entry)) }
{
    match measure {
        Some(measure) => match field_in(measure) {
            Some(of) => stack_by(alloc, unit, channel, measure, of),
            None => Ok(None),
        },
        None => Ok(None),
    }
}

/// The stack of a unit, if it has one.
pub(crate) fn stack_settings_of(
    alloc: Global,
    unit: &UnitHere,
) -> Result<Option<StackOf>, OutOfMemory>
    ensures { IfOk result (λ how. how ≡ stack_settings_of (unit_shown unit.now)) }
{
    let channel = measure_by(measures_x(alloc, unit)?);
    let measure = first_at(alloc, unit, channel)?;
    stack_at(alloc, unit, channel, measure)
}

// The measure of a channel that is stacked so.
fn stacked_by(alloc: Global, channel: u16, how: &StackOf) -> Result<Stacked, OutOfMemory>
    ensures { IfOk result (λ stacked. stacked ≡ stacked_by channel how.now) }
{
    Ok(Stacked {
        channel,
        name: how.field.copy()?,
        start: Text::of(alloc, how.out.as_str())?,
        end: Text::of(alloc, how.out_end.as_str())?,
    })
}

/// The measure that a unit stacks, if it stacks it.
pub fn stack_of(alloc: Global, unit: &UnitHere) -> Result<Option<Stacked>, OutOfMemory>
    ensures { IfOk result (λ stacked. stacked ≡ stack_of (unit_shown unit.now)) }
{
    let channel = measure_by(measures_x(alloc, unit)?);
    match stack_settings_of(alloc, unit)? {
        Some(how) => stacked_by(alloc, channel, &how).map(Some),
        None => Ok(None),
    }
}

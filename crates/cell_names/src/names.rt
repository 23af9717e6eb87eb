// The names of new cells.
ghost use Rattle.std.specs.Prelude.{◌≡◌, ◌++◌, ◌*◌, [], pos, map, slice_get, unwrap_or, IfOk};
ghost use Rattle.std.specs.Option.{option_map, option_copied};
ghost use Rattle.fixed_num.specs.Number.{million};
ghost use Rattle.fixed_num.specs.Decimal.{spelling};
ghost use Rattle.case_table.specs.declared.case.Case.{Case as ACase};
ghost use Rattle.case_table.specs.Names.{operations, time_units};
ghost use Rattle.cell_names.specs.Names.{name_in, joined_name, end_name, most_bins, bin_settings, bin_words, bin_name, unit_name, op_name};
ghost use Rattle.cell_names.specs.Names.{bins_in, plain_name, name_of, has_end, end_of_field, stack_start};
ghost use Rattle.scale_infer.specs.Types.{has_bins};

use case_table::{Case, OPERATIONS, TIME_UNITS};
use fixed_num::Num;
use std::alloc::Global;
use text_kit::{OutOfMemory, Text};
use vl_normalize::{COLUMN, ROW, SHAPE};
use vl_spec::{Bin, BinSettings, FieldDefinition};

/// The code of the operation that needs no field.
pub const COUNT: u16 = 0;

// The name at a place of a table; empty where there is none.
fn name_at(table: &[Case], place: usize) -> &'static str
    ensures { result.now ≡ unwrap_or (option_map (λ (c : ACase). c.name.now) (slice_get table.now place)) [] }
{
    match table.get(place) {
        Some(case) => case.name,
        None => "",
    }
}

// The name of an operation; empty where there is none.
fn operation_name(code: u16) -> &'static str
    ensures { result.now ≡ name_in operations code }
{
    name_at(&OPERATIONS, usize::from(code))
}

// The name of a unit of time; empty where there is none.
fn time_unit_name(code: u16) -> &'static str
    ensures { result.now ≡ name_in time_units code }
{
    name_at(&TIME_UNITS, usize::from(code))
}

// Two words with `_` between them.
fn joined_name(alloc: Global, first: &str, second: &str) -> Result<Text, OutOfMemory>
    ensures { IfOk result (λ name. name ≡ joined_name first.now second.now) }
{
    let mut name = Text::of(alloc, first)?;
    name.push_str("_")?;
    name.push_str(second)?;
    Ok(name)
}

/// The end that belongs to a start.
pub fn end_name(alloc: Global, start: &str) -> Result<Text, OutOfMemory>
    ensures { IfOk result (λ name. name ≡ end_name start.now) }
{
    let mut name = Text::of(alloc, start)?;
    name.push_str("_end")?;
    Ok(name)
}

/// Where a stacked cell begins.
pub fn stack_start(alloc: Global, name: &str) -> Result<Text, OutOfMemory>
    ensures { IfOk result (λ start. start ≡ stack_start name.now) }
{
    let mut start = Text::of(alloc, name)?;
    start.push_str("_start")?;
    Ok(start)
}

// The number of so many ones.
fn ones(n: u32) -> Num
    ensures { result ≡ pos (n * million) }
{
    match Num::of_millionths(i128::from(n) * 1_000_000) {
        Some(number) => number,
        None => unreachable!(),
    }
}

/// How many bins a channel has at most where it isn't said.
pub fn most_bins(channel: u16) -> Num
    ensures { result ≡ most_bins channel }
{
    if channel == ROW || channel == COLUMN || channel == SHAPE {
        ones(6)
    } else {
        ones(10)
    }
}

/// What `bin` says besides whether there are bins.
pub fn bin_settings(bin: &Bin) -> BinSettings
    ensures { result ≡ bin_settings bin.now }
{
    match bin {
        Bin::Flag(_) => BinSettings {
            maxbins: None,
            step: None,
        },
        Bin::Settings(settings) => *settings,
    }
}

// A word and a number.
fn word_number(alloc: Global, word: &str, number: Num) -> Result<Text, OutOfMemory>
    ensures { IfOk result (λ text. text ≡ word.now ++ spelling number) }
{
    let mut text = Text::of(alloc, word)?;
    let decimal = number.decimal();
    text.push_str(decimal.as_str())?;
    Ok(text)
}

// A number that may be given, or else another.
fn number_or(given: Option<Num>, otherwise: Num) -> Num
    ensures { result ≡ unwrap_or given otherwise }
{
    match given {
        Some(number) => number,
        None => otherwise,
    }
}

// How the bins of a channel are told apart in names.
fn bin_words(alloc: Global, channel: u16, settings: &BinSettings) -> Result<Text, OutOfMemory>
    ensures { IfOk result (λ words. words ≡ bin_words channel settings.now) }
{
    match settings.step {
        Some(step) => word_number(alloc, "bin_step_", step),
        None => {
            let most = number_or(settings.maxbins, most_bins(channel));
            word_number(alloc, "bin_maxbins_", most)
        }
    }
}

/// The name of a bin's start.
pub fn bin_name(alloc: Global, channel: u16, bin: &Bin, field: &str) -> Result<Text, OutOfMemory>
    ensures { IfOk result (λ name. name ≡ bin_name channel bin.now field.now) }
{
    let words = bin_words(alloc, channel, &bin_settings(bin))?;
    joined_name(alloc, words.as_str(), field)
}

/// The name of the start of a unit of time.
pub fn unit_name(alloc: Global, unit: u16, field: &str) -> Result<Text, OutOfMemory>
    ensures { IfOk result (λ name. name ≡ unit_name unit field.now) }
{
    joined_name(alloc, time_unit_name(unit), field)
}

// The name of an aggregate.
fn op_name(alloc: Global, op: u16, field: &Option<Text>) -> Result<Option<Text>, OutOfMemory>
    ensures { IfOk result (λ name. name ≡ op_name op field.now) }
{
    if op == COUNT {
        return Text::of(alloc, "__count").map(Some);
    }
    match field {
        Some(field) => joined_name(alloc, operation_name(op), field.as_str()).map(Some),
        None => Ok(None),
    }
}

// Whether `bin` stands for bins.
fn has_bins(bin: &Option<Bin>) -> bool
    ensures { result ≡ has_bins bin.now }
{
    match bin {
        Some(Bin::Flag(flag)) => *flag,
        Some(Bin::Settings(_)) => true,
        None => false,
    }
}

/// The bins of a definition, where they act.
pub fn bins_in(of: &FieldDefinition) -> Option<&Bin>
    ensures { option_copied result ≡ bins_in of.now }
{
    if has_bins(&of.bin) {
        of.bin.as_ref()
    } else {
        None
    }
}

// What names a field that isn't aggregated.
fn plain_name(
    alloc: Global,
    channel: u16,
    of: &FieldDefinition,
    field: &Text,
) -> Result<Text, OutOfMemory>
    ensures { IfOk result (λ name. name ≡ plain_name channel of.now field.now) }
{
    match bins_in(of) {
        Some(bin) => bin_name(alloc, channel, bin, field.as_str()),
        None => match of.time_unit {
            Some(unit) => unit_name(alloc, unit, field.as_str()),
            None => field.copy(),
        },
    }
}

/// The name of the cells of a definition by a field of a channel; of bins and units of time that of the start.
pub fn name_of(
    alloc: Global,
    channel: u16,
    of: &FieldDefinition,
) -> Result<Option<Text>, OutOfMemory>
    ensures { IfOk result (λ name. name ≡ name_of channel of.now) }
{
    match of.aggregate {
        Some(op) => op_name(alloc, op, &of.field),
        None => match &of.field {
            Some(field) => plain_name(alloc, channel, of, field).map(Some),
            None => Ok(None),
        },
    }
}

/// Whether its cells are the starts of bins or units of time.
pub fn has_end(of: &FieldDefinition) -> bool
    ensures { result ≡ has_end of.now }
{
    if of.aggregate.is_some() {
        false
    } else {
        has_bins(&of.bin) || of.time_unit.is_some()
    }
}

// The end that belongs to a start, if there is one.
fn end_by(alloc: Global, start: Option<Text>) -> Result<Option<Text>, OutOfMemory>
    ensures { IfOk result (λ name. name ≡ option_map end_name start) }
{
    match start {
        Some(start) => end_name(alloc, start.as_str()).map(Some),
        None => Ok(None),
    }
}

/// The name of the ends of its bins or units of time.
pub fn end_of_field(
    alloc: Global,
    channel: u16,
    of: &FieldDefinition,
) -> Result<Option<Text>, OutOfMemory>
    ensures { IfOk result (λ name. name ≡ end_of_field channel of.now) }
{
    if has_end(of) {
        let start = name_of(alloc, channel, of)?;
        end_by(alloc, start)
    } else {
        Ok(None)
    }
}

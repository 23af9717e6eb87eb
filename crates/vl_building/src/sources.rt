// The sources that data names.
ghost use Rattle.std.specs.Prelude.{◌≡◌, ◌++◌, [], ◌∷◌, IfOk, OnOk};
ghost use Rattle.std.specs.Option.{option_copied, option_to_list};
ghost use Rattle.vl_building.specs.Sources.{gives, is_unnamed, name_behind, count_behind, named_behind, named_from, of_dataset, of_data, giver_or};
ghost use Rattle.vl_building.specs.Sources.{source_for, source_at, sources_with, sources_of};
ghost use Rattle.vl_building.specs.inner.Index.{at_number};
ghost use Rattle.vl_building.specs.inner.Finding.{rows_numbered, found_by, Finds};

use crate::data::DataAt;
use crate::index::{DatasetNames, GiverNames, SourceNames, indexed, name_numbers};
use crate::keyed::{Keyed, number_at};
use crate::naming::NamedData;
use crate::several::{all_three, both, push_made};
use json_exact::{Json, Member};
use std::alloc::Global;
use text_kit::{Copies, OutOfMemory, Seq, Text, copied_three, copied_two};
use vl_spec::SourceOf;

/// Whether data gives rows, and isn't a name alone.
pub fn gives(at: &DataAt) -> bool
    ensures { result ≡ gives at.now }
{
    at.values.is_some() || at.url.is_some()
}

// Whether data has to be given a name.
fn is_unnamed(at: &DataAt) -> bool
    ensures { result ≡ is_unnamed at.now }
{
    at.name.is_none() && gives(at)
}

// The name of the source of data, where so many unnamed ones stand before.
fn name_behind(alloc: Global, number: usize, at: &DataAt) -> Result<Option<Text>, OutOfMemory>
    ensures { IfOk result (λ name. name ≡ name_behind number at.now) }
{
    if is_unnamed(at) {
        let mut buffer = itoa::Buffer::new();
        let mut name = Text::of(alloc, "source_")?;
        name.push_str(buffer.format(number))?;
        Ok(Some(name))
    } else {
        Copies::copied(&at.name, alloc)
    }
}

// How many unnamed ones stand before the next; there is no memory for more than a `usize` counts.
fn count_behind(number: usize, at: &DataAt) -> Result<usize, OutOfMemory>
    ensures { IfOk result (λ count. count ≡ count_behind number at.now) }
{
    if is_unnamed(at) {
        match number.checked_add(1) {
            Some(count) => Ok(count),
            None => Err(OutOfMemory),
        }
    } else {
        Ok(number)
    }
}

// Adds data with the name of its source. The number is that of the unnamed ones before the next.
fn push_named(
    alloc: Global,
    number: usize,
    at: DataAt,
    out: &mut Seq<NamedData>,
) -> Result<usize, OutOfMemory>
    ensures added { OnOk result (out.new ≡ out.old ++ named_behind number at ∷ []) }
    ensures count { IfOk result (λ count. count ≡ count_behind number at) }
{
    let (source, count) = both(name_behind(alloc, number, &at), count_behind(number, &at))?;
    out.push(NamedData { source, data_: at })?;
    Ok(count)
}

/// Each data with the name of its source.
pub fn named(alloc: Global, all: Seq<DataAt>) -> Result<Seq<NamedData>, OutOfMemory>
    ensures { IfOk result (λ out. out ≡ named_from 0 all) }
{
    let mut out = Seq::new(alloc);
    let mut number = 0;
    for at in all.into_vec() {
        number = push_named(alloc, number, at, &mut out)?;
    }
    Ok(out)
}

// A copy of rows, if there are some.
fn copied_rows(alloc: Global, rows: &Option<Json>) -> Result<Option<Json>, OutOfMemory>
    ensures { IfOk result (λ copy. copy ≡ rows.now) }
{
    match rows {
        Some(rows) => rows.copy(alloc).map(Some),
        None => Ok(None),
    }
}

// The source of a name that a dataset gives.
fn of_dataset(
    alloc: Global,
    name: &Text,
    first: &DataAt,
    rows: &Json,
) -> Result<SourceOf, OutOfMemory>
    ensures { IfOk result (λ source. source ≡ of_dataset name.now first.now rows.now) }
{
    let ((name, format), rows) = both(copied_two(alloc, name, &first.format), rows.copy(alloc))?;
    Ok(SourceOf {
        name,
        values: Some(rows),
        url: None,
        format,
    })
}

// The source of a name by data.
fn of_data(alloc: Global, name: &Text, at: &DataAt) -> Result<SourceOf, OutOfMemory>
    ensures { IfOk result (λ source. source ≡ of_data name.now at.now) }
{
    let ((name, format, url), values) = both(
        copied_three(alloc, name, &at.format, &at.url),
        copied_rows(alloc, &at.values),
    )?;
    Ok(SourceOf {
        name,
        values,
        url,
        format,
    })
}

/// What finds datasets and data by the names of sources.
pub struct Finders {
    /// Datasets.
    pub datasets: Keyed,
    /// Data.
    pub names: Keyed,
    /// Data that gives rows.
    pub givers: Keyed,
}

impl Drop for Finders {
    fn drop(self) {
        let Finders {
            datasets: _,
            names: _,
            givers: _,
        } = self;
    }
}

// The finders of some datasets and data.
fn finders_of(alloc: Global, datasets: &[Member], all: &[NamedData]) -> Result<Finders, OutOfMemory>
    ensures { IfOk result (λ finders. Finds datasets.now all.now finders) }
{
    let (names, givers, datasets) = all_three(
        indexed::<NamedData, SourceNames>(alloc, all),
        indexed::<NamedData, GiverNames>(alloc, all),
        indexed::<Member, DatasetNames>(alloc, datasets),
    )?;
    Ok(Finders {
        datasets,
        names,
        givers,
    })
}

// The rows of the dataset of a number.
fn rows_numbered(datasets: &[Member], number: Option<usize>) -> Option<&Json>
    ensures { option_copied result ≡ rows_numbered datasets.now number }
{
    let member = datasets.get(number?)?;
    Some(&member.value)
}

// The data of a number, or else this.
fn giver_or<'a>(all: &'a [NamedData], number: Option<usize>, first: &'a DataAt) -> &'a DataAt
    ensures { result.now ≡ giver_or (at_number all.now number) first.now }
{
    match number {
        Some(number) => match all.get(number) {
            Some(giver) => &giver.data_,
            None => first,
        },
        None => first,
    }
}

// The source of a name, which data names first.
fn source_for(
    alloc: Global,
    datasets: &[Member],
    all: &[NamedData],
    finders: &Finders,
    first: &DataAt,
    name: &Text,
) -> Result<SourceOf, OutOfMemory>
    ensures { IfOk result (λ source. source ≡ source_for (found_by finders.now datasets.now all.now) name.now first.now) }
{
    let key = name_numbers(alloc, name.as_str())?;
    match rows_numbered(datasets, number_at(&finders.datasets, key.as_slice())) {
        Some(rows) => of_dataset(alloc, name, first, rows),
        None => of_data(
            alloc,
            name,
            giver_or(all, number_at(&finders.givers, key.as_slice()), first),
        ),
    }
}

// Adds the source that data of a number names first, if it does.
fn push_source(
    alloc: Global,
    datasets: &[Member],
    all: &[NamedData],
    finders: &Finders,
    number: usize,
    named: &NamedData,
    out: &mut Seq<SourceOf>,
) -> Result<(), OutOfMemory>
    ensures { OnOk result (out.new ≡ out.old ++ option_to_list (source_at (found_by finders.now datasets.now all.now) (number, named.now))) }
{
    let Some(name) = &named.source else {
        return Ok(());
    };
    let key = name_numbers(alloc, name.as_str())?;
    match number_at(&finders.names, key.as_slice()) {
        Some(first) if first == number => {
            push_made(
                out,
                source_for(alloc, datasets, all, finders, &named.data_, name),
            )
        }
        _ => Ok(()),
    }
}

// The sources, as the finders find them.
fn sources_with(
    alloc: Global,
    datasets: &[Member],
    all: &[NamedData],
    finders: &Finders,
) -> Result<Seq<SourceOf>, OutOfMemory>
    ensures { IfOk result (λ sources. sources ≡ sources_with (found_by finders.now datasets.now all.now) all.now) }
{
    let mut out = Seq::new(alloc);
    for (number, named) in all.iter().enumerate() {
        push_source(alloc, datasets, all, finders, number, named, &mut out)?;
    }
    Ok(out)
}

/// The sources of some datasets and data, each where it is named first.
pub fn sources_of(
    alloc: Global,
    datasets: &[Member],
    all: &[NamedData],
) -> Result<Seq<SourceOf>, OutOfMemory>
    ensures { IfOk result (λ sources. sources ≡ sources_of datasets.now all.now) }
{
    let finders = finders_of(alloc, datasets, all)?;
    sources_with(alloc, datasets, all, &finders)
}

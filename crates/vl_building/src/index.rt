// Datasets and data by the names of their sources, and data and parameters by their places: the first of those that a key finds.
ghost use Rattle.std.specs.Prelude.{◌≡◌, ℕ, List, cond, Some, bytes_eq, IfOk, OnOk};
ghost use Rattle.vl_building.specs.Sources.{is_named, gives_named};
ghost use Rattle.vl_building.specs.Spec.{is_data_at, is_param_at};
ghost use Rattle.vl_building.specs.inner.Keyed.{number_at};
ghost use Rattle.vl_building.specs.inner.Index.{IsIndex};
ghost use Rattle.vl_building.specs.inner.Finding.{is_dataset};

use crate::data::ParamAt;
use crate::keyed::{Keyed, put};
use crate::naming::NamedData;
use crate::sources::gives;
use json_exact::Member;
use std::alloc::Global;
use text_kit::{OutOfMemory, Seq};

/// A name as numbers.
pub fn name_numbers(alloc: Global, name: &str) -> Result<Seq<usize>, OutOfMemory>
    ensures { IfOk result (λ key. key ≡ name.now) }
{
    let mut key = Seq::with_capacity(alloc, name.len())?;
    for byte in name.as_bytes() {
        key.push(usize::from(*byte))?;
    }
    Ok(key)
}

// Puts a number under a name.
fn put_name(alloc: Global, index: &mut Keyed, number: usize, name: &str) -> Result<(), OutOfMemory>
    ensures { OnOk result ((q : List ℕ) → number_at index.new q ≡ cond (bytes_eq q name.now) (Some number) (number_at index.old q)) }
{
    let key = name_numbers(alloc, name)?;
    put(index, key.into_vec(), number)
}

// Puts a number under a place.
fn put_place(
    alloc: Global,
    index: &mut Keyed,
    number: usize,
    place: &[usize],
) -> Result<(), OutOfMemory>
    ensures { OnOk result ((q : List ℕ) → number_at index.new q ≡ cond (bytes_eq q place.now) (Some number) (number_at index.old q)) }
{
    let key = Seq::from_slice(alloc, place)?;
    put(index, key.into_vec(), number)
}

/// How keys find the elements of a list.
pub trait Finding<T> {
    ghost use Rattle.std.specs.Prelude.{Bool, List, ℕ};

    ghost finds: { List ℕ → T → Bool };

    /// Puts the number of an element under the keys that find it.
    fn put_number(
        alloc: Global,
        index: &mut Keyed,
        number: usize,
        item: &T,
    ) -> Result<(), OutOfMemory>
        ensures { OnOk result ((q : List ℕ) → number_at index.new q ≡ cond (finds q item.now) (Some number) (number_at index.old q)) };
}

/// The numbers of elements by their keys: the first of those that a key finds.
pub fn indexed<T, F: Finding<T>>(alloc: Global, all: &[T]) -> Result<Keyed, OutOfMemory>
    ensures { IfOk result (λ index. IsIndex F.finds index all.now) }
{
    let mut index = Keyed::new(alloc);
    let mut left = all.len();
    while left > 0 {
        left -= 1;
        F::put_number(alloc, &mut index, left, &all[left])?;
    }
    Ok(index)
}

/// Data by the names of their sources.
pub struct SourceNames;

impl Finding<NamedData> for SourceNames {
    ghost finds = { is_named };

    fn put_number(
        alloc: Global,
        index: &mut Keyed,
        number: usize,
        item: &NamedData,
    ) -> Result<(), OutOfMemory> {
        match &item.source {
            Some(name) => put_name(alloc, index, number, name.as_str()),
            None => Ok(()),
        }
    }
}

/// Data that give rows, by the names of their sources.
pub struct GiverNames;

impl Finding<NamedData> for GiverNames {
    ghost finds = { gives_named };

    fn put_number(
        alloc: Global,
        index: &mut Keyed,
        number: usize,
        item: &NamedData,
    ) -> Result<(), OutOfMemory> {
        if gives(&item.data_) {
            SourceNames::put_number(alloc, index, number, item)
        } else {
            Ok(())
        }
    }
}

/// Datasets by their names.
pub struct DatasetNames;

impl Finding<Member> for DatasetNames {
    ghost finds = { is_dataset };

    fn put_number(
        alloc: Global,
        index: &mut Keyed,
        number: usize,
        item: &Member,
    ) -> Result<(), OutOfMemory> {
        put_name(alloc, index, number, item.name.as_str())
    }
}

/// Data by their places.
pub struct DataPlaces;

impl Finding<NamedData> for DataPlaces {
    ghost finds = { is_data_at };

    fn put_number(
        alloc: Global,
        index: &mut Keyed,
        number: usize,
        item: &NamedData,
    ) -> Result<(), OutOfMemory> {
        put_place(alloc, index, number, item.data_.place.as_slice())
    }
}

/// Parameters by their places.
pub struct ParamPlaces;

impl Finding<ParamAt> for ParamPlaces {
    ghost finds = { is_param_at };

    fn put_number(
        alloc: Global,
        index: &mut Keyed,
        number: usize,
        item: &ParamAt,
    ) -> Result<(), OutOfMemory> {
        put_place(alloc, index, number, item.place.as_slice())
    }
}

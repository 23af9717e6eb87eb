// What goes by places: the names of the sources of data, and the numbers of parameters.
ghost use Rattle.std.specs.Prelude.{◌≡◌, IfOk};
ghost use Rattle.vl_building.specs.Sources.{named_from};
ghost use Rattle.vl_building.specs.Spec.{naming_of};
ghost use Rattle.vl_building.specs.Gather.{data_of};
ghost use Rattle.vl_building.specs.inner.Named.{shown};

use crate::data::{DataAt, ParamAt};
use crate::gather::gathered;
use crate::index::{DataPlaces, ParamPlaces, indexed};
use crate::keyed::{Keyed, number_at};
use crate::sources::named;
use json_exact::Json;
use std::alloc::Global;
use text_kit::{Copies, OutOfMemory, Seq, Text};

/// Data with the name of its source.
pub struct NamedData {
    /// The name of its source, if it says one.
    pub source: Option<Text>,
    /// The data.
    pub data_: DataAt,
}

/// What goes by places.
pub struct Named {
    /// The data.
    pub all: Seq<NamedData>,
    /// Their numbers by their places.
    pub data_: Keyed,
    /// The numbers of parameters by their places.
    pub params: Keyed,
}

impl Drop for NamedData {
    fn drop(self) {
        let NamedData { source: _, data_ } = self;
        drop(data_);
    }
}

impl Drop for Named {
    fn drop(self) {
        let Named {
            all: _,
            data_: _,
            params: _,
        } = self;
    }
}

/// The name of the source of the data at a place.
pub fn source_at(alloc: Global, named: &Named, place: &[usize]) -> Result<Option<Text>, OutOfMemory>
    ensures { IfOk result (λ name. name ≡ (shown named.now).source_at place.now) }
{
    let Some(number) = number_at(&named.data_, place) else {
        return Ok(None);
    };
    match named.all.as_slice().get(number) {
        Some(data_) => Copies::copied(&data_.source, alloc),
        None => Ok(None),
    }
}

// What goes by the places of data and parameters.
fn named_by(alloc: Global, all: Seq<NamedData>, params: &[ParamAt]) -> Result<Named, OutOfMemory>
    ensures all { IfOk result (λ named. named.all ≡ all) }
    ensures naming { IfOk result (λ named. shown named ≡ naming_of all params.now) }
{
    let params = indexed::<ParamAt, ParamPlaces>(alloc, params)?;
    let data_ = indexed::<NamedData, DataPlaces>(alloc, all.as_slice())?;
    Ok(Named { all, data_, params })
}

/// What goes by places in a specification with these parameters.
pub fn naming_in(alloc: Global, tree: &Json, params: &[ParamAt]) -> Result<Named, OutOfMemory>
    ensures all { IfOk result (λ named. named.all ≡ named_from 0 (data_of tree.now)) }
    ensures naming { IfOk result (λ named. shown named ≡ naming_of (named_from 0 (data_of tree.now)) params.now) }
{
    let all = named(alloc, gathered(alloc, tree)?)?;
    named_by(alloc, all, params)
}

// Where the items of marks come from.
ghost use Rattle.std.specs.Prelude.{◌≡◌, IfOk};
ghost use Rattle.vega_building.specs.Names.{maybe_header};
ghost use Rattle.vega_building.specs.Orders.{needed_one_or_several};
ghost use Rattle.vega_building.specs.Marks.{cross_of, facet_of, facet_from, mark_from_of, mark_from_at};

use crate::names::named_in;
use crate::orders::needed_one_or_several;
use crate::parts::{Item, Object, object_at};
use crate::several::{Part, four_parts};
use json_exact::{Json, Member};
use std::alloc::Global;
use text_kit::OutOfMemory;
use tree_readers::{flag_at, members_at, text_at};
use vega_spec::{Cross, Facet, Header, MarkFrom, Texts};

impl Object for Cross {
    ghost built = { cross_of };

    fn of_members(_: Global, members: &[Member]) -> Result<Cross, OutOfMemory> {
        Ok(Cross {
            cross: flag_at(members, "cross"),
        })
    }
}

impl Item for Option<Header> {
    ghost item = { maybe_header };

    fn of_item(_: Global, tree: &Json) -> Result<Option<Header>, OutOfMemory> {
        Ok(named_in(tree))
    }
}

impl Part for Texts {
    ghost part = { needed_one_or_several };

    fn part_at(alloc: Global, members: &[Member], name: &str) -> Result<Texts, OutOfMemory> {
        needed_one_or_several(alloc, members, name)
    }
}

impl Object for Facet {
    ghost built = { facet_of };

    fn of_members(alloc: Global, members: &[Member]) -> Result<Facet, OutOfMemory> {
        let aggregate = object_at(alloc, members, "aggregate")?;
        let (name, data_, groupby, headers) = four_parts(
            alloc, members, "name", "data", "groupby", "headers",
        )?;
        Ok(Facet {
            name,
            data_,
            groupby,
            aggregate,
            headers,
        })
    }
}

// From the parts of data sets.
fn facet_from(alloc: Global, members: &[Member]) -> Result<Option<MarkFrom>, OutOfMemory>
    ensures { IfOk result (λ from. from ≡ facet_from members.now) }
{
    match object_at(alloc, members, "facet")? {
        Some(facet) => Ok(Some(MarkFrom::Facet(facet))),
        None => Ok(None),
    }
}

// From a data set, or else from the parts of some.
fn mark_from_of(alloc: Global, members: &[Member]) -> Result<Option<MarkFrom>, OutOfMemory>
    ensures { IfOk result (λ from. from ≡ mark_from_of members.now) }
{
    match text_at(members, "data")? {
        Some(name) => Ok(Some(MarkFrom::Data(name))),
        None => facet_from(alloc, members),
    }
}

/// Where the items of a mark come from, under a name.
pub fn mark_from_at(
    alloc: Global,
    members: &[Member],
    name: &str,
) -> Result<Option<MarkFrom>, OutOfMemory>
    ensures { IfOk result (λ from. from ≡ mark_from_at members.now name.now) }
{
    match members_at(members, name) {
        Some(members) => mark_from_of(alloc, members.as_slice()),
        None => Ok(None),
    }
}

// Scales.
ghost use Rattle.std.specs.Prelude.{◌≡◌, IfOk};
ghost use Rattle.json_exact.specs.declared.json.Json.{out-Json};
ghost use Rattle.tree_readers.specs.Parts.{members_of};
ghost use Rattle.vega_building.specs.Domains.{needed_domain};
ghost use Rattle.vega_building.specs.Scales.{range_named, range_in, range_at, needed_range, scale_of};

use crate::domains::needed_domain;
use crate::parts::{Item, Object, list_of, signal_at};
use crate::several::{Part, both, three_parts};
use crate::tables::needed_scale_kind;
use json_exact::{Json, Member};
use std::alloc::Global;
use text_kit::{OutOfMemory, Seq};
use tree_readers::{flag_at, member_value, number_at};
use vega_spec::{Domain, Range, Scale};

// A range that goes by a name.
fn range_named(name: &str) -> Option<Range>
    ensures { result ≡ range_named name.now }
{
    match name {
        "width" => Some(Range::Width),
        "height" => Some(Range::Height),
        "category" => Some(Range::Category),
        "ramp" => Some(Range::Ramp),
        "symbol" => Some(Range::Symbol),
        _ => None,
    }
}

// A range.
fn range_in(alloc: Global, tree: &Json) -> Result<Option<Range>, OutOfMemory>
    ensures { IfOk result (λ range. range ≡ range_in (out-Json tree.now)) }
{
    match tree {
        Json::List(items) => Ok(Some(Range::Cells(list_of(alloc, items.as_slice())?))),
        Json::Text(text) => Ok(range_named(text.as_str())),
        Json::Null | Json::Flag(_) | Json::Number(_) | Json::Huge | Json::Object(_) => Ok(None),
    }
}

// The same under a name.
fn range_at(alloc: Global, members: &[Member], name: &str) -> Result<Option<Range>, OutOfMemory>
    ensures { IfOk result (λ range. range ≡ range_at members.now name.now) }
{
    match member_value(members, name) {
        Some(tree) => range_in(alloc, tree),
        None => Ok(None),
    }
}

// The range under a name, that of no cells where there is none.
fn needed_range(alloc: Global, members: &[Member], name: &str) -> Result<Range, OutOfMemory>
    ensures { IfOk result (λ range. range ≡ needed_range members.now name.now) }
{
    match range_at(alloc, members, name)? {
        Some(range) => Ok(range),
        None => Ok(Range::Cells(Seq::new(alloc))),
    }
}

impl Part for Domain {
    ghost part = { needed_domain };

    fn part_at(alloc: Global, members: &[Member], name: &str) -> Result<Domain, OutOfMemory> {
        needed_domain(alloc, members, name)
    }
}

impl Part for Range {
    ghost part = { needed_range };

    fn part_at(alloc: Global, members: &[Member], name: &str) -> Result<Range, OutOfMemory> {
        needed_range(alloc, members, name)
    }
}

impl Object for Scale {
    ghost built = { scale_of };

    fn of_members(alloc: Global, members: &[Member]) -> Result<Scale, OutOfMemory> {
        let domain_raw = signal_at(alloc, members, "domainRaw");
        let parts = three_parts(alloc, members, "name", "domain", "range");
        let (domain_raw, (name, domain, range)) = both(domain_raw, parts)?;
        Ok(Scale {
            name,
            type_: needed_scale_kind(members, "type"),
            domain,
            domain_raw,
            range,
            zero: flag_at(members, "zero"),
            nice: flag_at(members, "nice"),
            reverse: flag_at(members, "reverse"),
            padding: number_at(members, "padding"),
            padding_inner: number_at(members, "paddingInner"),
            padding_outer: number_at(members, "paddingOuter"),
        })
    }
}

impl Item for Scale {
    ghost item = { λ tree. scale_of (members_of tree) };

    fn of_item(alloc: Global, tree: &Json) -> Result<Scale, OutOfMemory> {
        Scale::of_members(alloc, tree_readers::members_of(tree))
    }
}

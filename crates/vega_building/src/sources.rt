// Data sets.
ghost use Rattle.std.specs.Prelude.{◌≡◌, map, IfOk};
ghost use Rattle.vega_building.specs.Sources.{parse_of, parse_at, format_of, data_set_of};
ghost use Rattle.tree_readers.specs.Parts.{members_of, object_at};
ghost use Rattle.json_exact.specs.Path.{member_value};

use crate::names::{named_at, parse_kind_of};
use crate::parts;
use crate::parts::{Item, Object};
use crate::several::{Part, push_made, six_parts};
use json_exact::{Json, Member};
use std::alloc::Global;
use text_kit::{OutOfMemory, Seq, Text};
use tree_readers::members_at;
use vega_spec::{DataSet, Format, ParseKind};

// How the texts of the field of a member's name are read.
fn parse_of(member: &Member) -> Result<(Text, ParseKind), OutOfMemory>
    ensures { IfOk result (λ parse. parse ≡ parse_of member.now) }
{
    Ok((member.name.copy()?, parse_kind_of(&member.value)))
}

// The same of each member.
fn parses_of(alloc: Global, members: &[Member]) -> Result<Seq<(Text, ParseKind)>, OutOfMemory>
    ensures { IfOk result (λ parses. parses ≡ map parse_of members.now) }
{
    let mut parses = Seq::new(alloc);
    for member in members {
        push_made(&mut parses, parse_of(member))?;
    }
    Ok(parses)
}

// The same under a name.
fn parse_at(
    alloc: Global,
    members: &[Member],
    name: &str,
) -> Result<Option<Seq<(Text, ParseKind)>>, OutOfMemory>
    ensures { IfOk result (λ parses. parses ≡ parse_at members.now name.now) }
{
    match members_at(members, name) {
        Some(members) => Ok(Some(parses_of(alloc, members.as_slice())?)),
        None => Ok(None),
    }
}

impl Object for Format {
    ghost built = { format_of };

    fn of_members(alloc: Global, members: &[Member]) -> Result<Format, OutOfMemory> {
        Ok(Format {
            type_: named_at(members, "type"),
            parse: parse_at(alloc, members, "parse")?,
        })
    }
}

// A copy of the value under a name.
fn value_at(alloc: Global, members: &[Member], name: &str) -> Result<Option<Json>, OutOfMemory>
    ensures { IfOk result (λ tree. tree ≡ member_value members.now name.now) }
{
    match tree_readers::member_value(members, name) {
        Some(tree) => Ok(Some(tree.copy(alloc)?)),
        None => Ok(None),
    }
}

impl Part for Option<Json> {
    ghost part = { member_value };

    fn part_at(alloc: Global, members: &[Member], name: &str) -> Result<Option<Json>, OutOfMemory> {
        value_at(alloc, members, name)
    }
}

impl Part for Option<Format> {
    ghost part = { object_at format_of };

    fn part_at(
        alloc: Global,
        members: &[Member],
        name: &str,
    ) -> Result<Option<Format>, OutOfMemory> {
        parts::object_at(alloc, members, name)
    }
}

impl Object for DataSet {
    ghost built = { data_set_of };

    fn of_members(alloc: Global, members: &[Member]) -> Result<DataSet, OutOfMemory> {
        let (name, values, url, format, source, transform) = six_parts(
            alloc,
            members,
            "name",
            "values",
            "url",
            "format",
            "source",
            "transform",
        )?;
        Ok(DataSet {
            name,
            values,
            url,
            format,
            source,
            transform,
        })
    }
}

impl Item for DataSet {
    ghost item = { λ tree. data_set_of (members_of tree) };

    fn of_item(alloc: Global, tree: &Json) -> Result<DataSet, OutOfMemory> {
        DataSet::of_members(alloc, tree_readers::members_of(tree))
    }
}

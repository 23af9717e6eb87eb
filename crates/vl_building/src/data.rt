// What a specification has of data and parameters.
ghost use Rattle.std.specs.Prelude.{◌≡◌, IfOk};
ghost use Rattle.json_exact.specs.Path.{member_value};
ghost use Rattle.vl_building.specs.Sources.{parse_of, format_of, data_at};

use crate::names::{named_at, named_in};
use crate::parts::{Object, Reads, each};
use crate::several::{all_three, three_parts};
use json_exact::{Json, Member};
use std::alloc::Global;
use text_kit::{OutOfMemory, Seq, Text};
use tree_readers::members_at;
use vl_spec::{Format, ParamOf, ParseKind};

/// Data where it stands.
pub struct DataAt {
    /// Its place.
    pub place: Seq<usize>,
    /// Its name.
    pub name: Option<Text>,
    /// The file that has the rows.
    pub url: Option<Text>,
    /// The format.
    pub format: Option<Format>,
    /// The rows, as they are written.
    pub values: Option<Json>,
}

/// A parameter where it stands.
pub struct ParamAt {
    /// Its place.
    pub place: Seq<usize>,
    /// The parameter.
    pub param: ParamOf,
}

impl ParamAt {
    /// The parameter without its place.
    pub fn into_param(self) -> ParamOf
        ensures { result ≡ self.param }
    {
        let ParamAt { place: _, param } = self;
        param
    }
}

impl Drop for ParamAt {
    fn drop(self) {
        let ParamAt { place: _, param } = self;
        drop(param);
    }
}

impl Drop for DataAt {
    fn drop(self) {
        let DataAt {
            place: _,
            name: _,
            url: _,
            format: _,
            values,
        } = self;
        drop(values);
    }
}

// How the texts of the fields of members' names are read.
struct Parses;

impl Reads<Member, (Text, ParseKind)> for Parses {
    ghost reads = { parse_of };

    fn read(_: Global, member: &Member) -> Result<(Text, ParseKind), OutOfMemory> {
        let name = member.name.copy()?;
        Ok((name, named_in(&member.value).unwrap_or(ParseKind::Number)))
    }
}

impl Object for Format {
    ghost built = { format_of };

    #[tactic(auto, unfolding(crate::specs::Sources::format_of))]
    fn of_members(alloc: Global, members: &[Member]) -> Result<Format, OutOfMemory> {
        let type_ = named_at(members, "type");
        match members_at(members, "parse") {
            Some(inner) => Ok(Format {
                type_,
                parse: Some(each::<Member, (Text, ParseKind), Parses>(alloc, inner.as_slice())?),
            }),
            None => Ok(Format { type_, parse: None }),
        }
    }
}

// A copy of the value under a name.
fn value_at(alloc: Global, members: &[Member], name: &str) -> Result<Option<Json>, OutOfMemory>
    ensures { IfOk result (λ tree. tree ≡ member_value members.now name.now) }
{
    match tree_readers::member_value(members, name) {
        Some(tree) => tree.copy(alloc).map(Some),
        None => Ok(None),
    }
}

/// Data of these members at a place.
#[tactic(auto, unfolding(crate::specs::Sources::data_at))]
pub fn data_at(alloc: Global, place: Seq<usize>, members: &[Member]) -> Result<DataAt, OutOfMemory>
    ensures { IfOk result (λ at. at ≡ data_at place members.now) }
{
    let ((name, url, format), values, place) = all_three(
        three_parts(alloc, members, "name", "url", "format"),
        value_at(alloc, members, "values"),
        Ok(place),
    )?;
    Ok(DataAt {
        place,
        name,
        url,
        format,
        values,
    })
}

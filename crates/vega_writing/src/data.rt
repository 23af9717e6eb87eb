// The trees of data sets.
ghost use Rattle.std.specs.Prelude.{◌≡◌, IfOk, option_map};
ghost use Rattle.vega_writing.specs.Data.{data_set_tree, format_kind_tree, format_tree, parse_kind_tree, parse_member, parse_tree};

use crate::several::both;
use crate::slots::{no_slots, object, with, with_if, with_tree_if};
use crate::trees::{Written, word};
use json_exact::{Json, Member};
use std::alloc::Global;
use text_kit::{OutOfMemory, Seq, Text};
use vega_spec::{DataSet, Format, FormatKind, ParseKind};

impl Written for FormatKind {
    ghost tree = { format_kind_tree };

    #[tactic(auto, unfolding(crate::specs::Data::format_kind_tree))]
    fn tree(&self, alloc: Global) -> Result<Json, OutOfMemory> {
        match self {
            FormatKind::Json => word(alloc, "json"),
            FormatKind::Csv => word(alloc, "csv"),
        }
    }
}

impl Written for ParseKind {
    ghost tree = { parse_kind_tree };

    #[tactic(auto, unfolding(crate::specs::Data::parse_kind_tree))]
    fn tree(&self, alloc: Global) -> Result<Json, OutOfMemory> {
        match self {
            ParseKind::Number => word(alloc, "number"),
            ParseKind::Boolean => word(alloc, "boolean"),
            ParseKind::String => word(alloc, "string"),
            ParseKind::Date => word(alloc, "date"),
        }
    }
}

impl Written for DataSet {
    ghost tree = { data_set_tree };

    #[tactic(auto, unfolding(crate::specs::Data::data_set_slots))]
    fn tree(&self, alloc: Global) -> Result<Json, OutOfMemory> {
        let slots = no_slots(alloc);
        let slots = with(alloc, slots, "name", &self.name);
        let slots = with_tree_if(alloc, slots, "values", copied(alloc, &self.values));
        let slots = with_if(alloc, slots, "url", &self.url);
        let slots = with_if(alloc, slots, "format", &self.format);
        let slots = with_if(alloc, slots, "source", &self.source);
        let slots = with_if(alloc, slots, "transform", &self.transform);
        object(alloc, slots)
    }
}

impl Written for Format {
    ghost tree = { format_tree };

    #[tactic(auto, unfolding(crate::specs::Data::format_slots))]
    fn tree(&self, alloc: Global) -> Result<Json, OutOfMemory> {
        let slots = no_slots(alloc);
        let slots = with_if(alloc, slots, "type", &self.type_);
        let slots = with_tree_if(alloc, slots, "parse", parse_tree_if(alloc, &self.parse));
        object(alloc, slots)
    }
}

// How the texts of a field are read, under its name.
fn parse_member(alloc: Global, name: &Text, kind: ParseKind) -> Result<Member, OutOfMemory>
    ensures { IfOk result (λ member. member ≡ parse_member (name.now, kind)) }
{
    let (name, value) = both(name.copy(), kind.tree(alloc))?;
    Ok(Member { name, value })
}

// How the texts of fields are read.
#[tactic(auto, unfolding(crate::specs::Data::parse_tree))]
fn parse_tree(alloc: Global, fields: &Seq<(Text, ParseKind)>) -> Result<Json, OutOfMemory>
    ensures { IfOk result (λ tree. tree ≡ parse_tree fields.now) }
{
    let mut members = Seq::new(alloc);
    for (name, kind) in fields.as_slice() {
        members.push(parse_member(alloc, name, *kind)?)?;
    }
    Ok(Json::Object(members))
}

// How the texts of fields are read, where it is told.
fn parse_tree_if(
    alloc: Global,
    fields: &Option<Seq<(Text, ParseKind)>>,
) -> Result<Option<Json>, OutOfMemory>
    ensures { IfOk result (λ tree. tree ≡ option_map parse_tree fields.now) }
{
    match fields {
        Some(fields) => Ok(Some(parse_tree(alloc, fields)?)),
        None => Ok(None),
    }
}

// A copy of a tree, where there is one.
fn copied(alloc: Global, tree: &Option<Json>) -> Result<Option<Json>, OutOfMemory>
    ensures { IfOk result (λ copy. copy ≡ tree.now) }
{
    match tree {
        Some(tree) => Ok(Some(tree.copy(alloc)?)),
        None => Ok(None),
    }
}

// The trees of parts of marks.
ghost use Rattle.std.specs.Prelude.{◌≡◌, IfOk};
ghost use Rattle.vega_writing.specs.Marks.{cross_tree, facet_tree, header_tree, mark_from_tree, mark_type_tree};
ghost use Rattle.vega_spec.specs.declared.marks.MarkFrom.TheVariants as source;

use crate::slots::{no_slots, object, with, with_if};
use crate::trees::{Written, word};
use json_exact::Json;
use std::alloc::Global;
use text_kit::{OutOfMemory, Text};
use vega_spec::{Cross, Facet, Header, MarkFrom, MarkType};

impl Written for MarkType {
    ghost tree = { mark_type_tree };

    #[tactic(auto, unfolding(crate::specs::Marks::mark_type_tree))]
    fn tree(&self, alloc: Global) -> Result<Json, OutOfMemory> {
        match self {
            MarkType::Rect => word(alloc, "rect"),
            MarkType::Symbol => word(alloc, "symbol"),
            MarkType::Line => word(alloc, "line"),
            MarkType::Area => word(alloc, "area"),
            MarkType::Rule => word(alloc, "rule"),
            MarkType::Text => word(alloc, "text"),
            MarkType::Group => word(alloc, "group"),
        }
    }
}

impl Written for Header {
    ghost tree = { header_tree };

    #[tactic(auto, unfolding(crate::specs::Marks::header_tree))]
    fn tree(&self, alloc: Global) -> Result<Json, OutOfMemory> {
        match self {
            Header::Row => word(alloc, "row"),
            Header::Column => word(alloc, "column"),
        }
    }
}

impl Written for Facet {
    ghost tree = { facet_tree };

    #[tactic(auto, unfolding(crate::specs::Marks::facet_slots))]
    fn tree(&self, alloc: Global) -> Result<Json, OutOfMemory> {
        let slots = no_slots(alloc);
        let slots = with(alloc, slots, "name", &self.name);
        let slots = with(alloc, slots, "data", &self.data_);
        let slots = with(alloc, slots, "groupby", &self.groupby);
        let slots = with_if(alloc, slots, "aggregate", &self.aggregate);
        let slots = with_if(alloc, slots, "headers", &self.headers);
        object(alloc, slots)
    }
}

impl Written for Cross {
    ghost tree = { cross_tree };

    #[tactic(auto, unfolding(crate::specs::Marks::cross_slots))]
    fn tree(&self, alloc: Global) -> Result<Json, OutOfMemory> {
        let slots = no_slots(alloc);
        let slots = with_if(alloc, slots, "cross", &self.cross);
        object(alloc, slots)
    }
}

impl Written for MarkFrom {
    ghost tree = { mark_from_tree };

    #[tactic(auto, unfolding(crate::specs::Marks::mark_from_tree))]
    fn tree(&self, alloc: Global) -> Result<Json, OutOfMemory> {
        match self {
            MarkFrom::Data(name) => data_source(alloc, name),
            MarkFrom::Facet(facet) => facet_source(alloc, facet),
        }
    }
}

// From the rows of a data set.
#[tactic(auto, unfolding(crate::specs::Marks::mark_from_tree))]
fn data_source(alloc: Global, name: &Text) -> Result<Json, OutOfMemory>
    ensures { IfOk result (λ tree. tree ≡ mark_from_tree (source.Data name.now)) }
{
    let slots = no_slots(alloc);
    let slots = with(alloc, slots, "data", name);
    object(alloc, slots)
}

// From the parts of data sets.
#[tactic(auto, unfolding(crate::specs::Marks::mark_from_tree))]
fn facet_source(alloc: Global, facet: &Facet) -> Result<Json, OutOfMemory>
    ensures { IfOk result (λ tree. tree ≡ mark_from_tree (source.Facet facet.now)) }
{
    let slots = no_slots(alloc);
    let slots = with(alloc, slots, "facet", facet);
    object(alloc, slots)
}

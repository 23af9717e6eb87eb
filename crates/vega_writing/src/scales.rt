// The trees of scales.
ghost use Rattle.vega_writing.specs.Scales.{range_tree, scale_tree};

use crate::names::scale_type_tree;
use crate::slots::{no_slots, object, with, with_if, with_tree, with_tree_if};
use crate::trees::{Written, computed_tree_if, word};
use json_exact::Json;
use std::alloc::Global;
use text_kit::OutOfMemory;
use vega_spec::{Range, Scale};

impl Written for Scale {
    ghost tree = { scale_tree };

    #[tactic(auto, unfolding(crate::specs::Scales::scale_slots))]
    fn tree(&self, alloc: Global) -> Result<Json, OutOfMemory> {
        let slots = no_slots(alloc);
        let slots = with(alloc, slots, "name", &self.name);
        let slots = with_tree(alloc, slots, "type", scale_type_tree(alloc, self.type_));
        let slots = with(alloc, slots, "domain", &self.domain);
        let slots = with_tree_if(
            alloc,
            slots,
            "domainRaw",
            computed_tree_if(alloc, &self.domain_raw),
        );
        let slots = with(alloc, slots, "range", &self.range);
        let slots = with_if(alloc, slots, "zero", &self.zero);
        let slots = with_if(alloc, slots, "nice", &self.nice);
        let slots = with_if(alloc, slots, "reverse", &self.reverse);
        let slots = with_if(alloc, slots, "padding", &self.padding);
        let slots = with_if(alloc, slots, "paddingInner", &self.padding_inner);
        let slots = with_if(alloc, slots, "paddingOuter", &self.padding_outer);
        object(alloc, slots)
    }
}

impl Written for Range {
    ghost tree = { range_tree };

    #[tactic(auto, unfolding(crate::specs::Scales::range_tree))]
    fn tree(&self, alloc: Global) -> Result<Json, OutOfMemory> {
        match self {
            Range::Cells(cells) => cells.tree(alloc),
            Range::Width => word(alloc, "width"),
            Range::Height => word(alloc, "height"),
            Range::Category => word(alloc, "category"),
            Range::Ramp => word(alloc, "ramp"),
            Range::Symbol => word(alloc, "symbol"),
        }
    }
}

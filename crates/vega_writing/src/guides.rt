// The trees of axes, legends and layouts.
ghost use Rattle.vega_writing.specs.Guides.{axis_tree, edge_tree, layout_tree, legend_tree, side_tree};

use crate::slots::{no_slots, object, with, with_if};
use crate::trees::{Written, word};
use json_exact::Json;
use std::alloc::Global;
use text_kit::OutOfMemory;
use vega_spec::{Axis, Edge, Layout, Legend, Side};

impl Written for Side {
    ghost tree = { side_tree };

    #[tactic(auto, unfolding(crate::specs::Guides::side_tree))]
    fn tree(&self, alloc: Global) -> Result<Json, OutOfMemory> {
        match self {
            Side::Left => word(alloc, "left"),
            Side::Right => word(alloc, "right"),
            Side::Top => word(alloc, "top"),
            Side::Bottom => word(alloc, "bottom"),
        }
    }
}

impl Written for Edge {
    ghost tree = { edge_tree };

    #[tactic(auto, unfolding(crate::specs::Guides::edge_tree))]
    fn tree(&self, alloc: Global) -> Result<Json, OutOfMemory> {
        match self {
            Edge::LastRow => word(alloc, "last-row"),
            Edge::FirstColumn => word(alloc, "first-column"),
        }
    }
}

impl Written for Axis {
    ghost tree = { axis_tree };

    #[tactic(auto, unfolding(crate::specs::Guides::axis_slots))]
    fn tree(&self, alloc: Global) -> Result<Json, OutOfMemory> {
        let slots = no_slots(alloc);
        let slots = with(alloc, slots, "scale", &self.scale);
        let slots = with(alloc, slots, "orient", &self.orient);
        let slots = with_if(alloc, slots, "title", &self.title);
        let slots = with_if(alloc, slots, "labels", &self.labels);
        let slots = with_if(alloc, slots, "ticks", &self.ticks);
        let slots = with_if(alloc, slots, "domain", &self.domain);
        let slots = with_if(alloc, slots, "grid", &self.grid);
        let slots = with_if(alloc, slots, "labelAngle", &self.label_angle);
        let slots = with_if(alloc, slots, "tickCount", &self.tick_count);
        let slots = with_if(alloc, slots, "values", &self.values);
        let slots = with_if(alloc, slots, "format", &self.format);
        let slots = with_if(alloc, slots, "edge", &self.edge);
        object(alloc, slots)
    }
}

impl Written for Legend {
    ghost tree = { legend_tree };

    #[tactic(auto, unfolding(crate::specs::Guides::legend_slots))]
    fn tree(&self, alloc: Global) -> Result<Json, OutOfMemory> {
        let slots = no_slots(alloc);
        let slots = with_if(alloc, slots, "fill", &self.fill);
        let slots = with_if(alloc, slots, "opacity", &self.opacity);
        let slots = with_if(alloc, slots, "shape", &self.shape);
        let slots = with_if(alloc, slots, "size", &self.size);
        let slots = with_if(alloc, slots, "title", &self.title);
        let slots = with_if(alloc, slots, "format", &self.format);
        object(alloc, slots)
    }
}

impl Written for Layout {
    ghost tree = { layout_tree };

    #[tactic(auto, unfolding(crate::specs::Guides::layout_slots))]
    fn tree(&self, alloc: Global) -> Result<Json, OutOfMemory> {
        let slots = no_slots(alloc);
        let slots = with_if(alloc, slots, "padding", &self.padding);
        let slots = with_if(alloc, slots, "columns", &self.columns);
        object(alloc, slots)
    }
}

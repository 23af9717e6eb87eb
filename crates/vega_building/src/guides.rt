// Axes, legends and layouts.
ghost use Rattle.tree_readers.specs.Parts.{members_of};
ghost use Rattle.vega_building.specs.Guides.{axis_of, legend_of, layout_of};

use crate::names::{named_at, named_or};
use crate::parts::{Item, Object};
use crate::several::{four_parts, six_parts};
use json_exact::{Json, Member};
use std::alloc::Global;
use text_kit::OutOfMemory;
use tree_readers::{flag_at, number_at};
use vega_spec::{Axis, Layout, Legend, Side};

impl Object for Axis {
    ghost built = { axis_of };

    fn of_members(alloc: Global, members: &[Member]) -> Result<Axis, OutOfMemory> {
        let (scale, title, values, format) = four_parts(
            alloc, members, "scale", "title", "values", "format",
        )?;
        Ok(Axis {
            scale,
            orient: named_or(members, "orient", Side::Left),
            title,
            labels: flag_at(members, "labels"),
            ticks: flag_at(members, "ticks"),
            domain: flag_at(members, "domain"),
            grid: flag_at(members, "grid"),
            label_angle: number_at(members, "labelAngle"),
            tick_count: number_at(members, "tickCount"),
            values,
            format,
            edge: named_at(members, "edge"),
        })
    }
}

impl Object for Legend {
    ghost built = { legend_of };

    fn of_members(alloc: Global, members: &[Member]) -> Result<Legend, OutOfMemory> {
        let (fill, opacity, shape, size, title, format) = six_parts(
            alloc, members, "fill", "opacity", "shape", "size", "title", "format",
        )?;
        Ok(Legend {
            fill,
            opacity,
            shape,
            size,
            title,
            format,
        })
    }
}

impl Item for Axis {
    ghost item = { λ tree. axis_of (members_of tree) };

    fn of_item(alloc: Global, tree: &Json) -> Result<Axis, OutOfMemory> {
        Axis::of_members(alloc, tree_readers::members_of(tree))
    }
}

impl Item for Legend {
    ghost item = { λ tree. legend_of (members_of tree) };

    fn of_item(alloc: Global, tree: &Json) -> Result<Legend, OutOfMemory> {
        Legend::of_members(alloc, tree_readers::members_of(tree))
    }
}

impl Object for Layout {
    ghost built = { layout_of };

    fn of_members(_: Global, members: &[Member]) -> Result<Layout, OutOfMemory> {
        Ok(Layout {
            padding: number_at(members, "padding"),
            columns: number_at(members, "columns"),
        })
    }
}

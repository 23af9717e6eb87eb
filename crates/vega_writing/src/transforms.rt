// The trees of transforms.
ghost use Rattle.std.specs.Prelude.{◌≡◌, IfOk};
ghost use Rattle.vega_writing.specs.Transforms.{bin_extent_tree, bin_tree, extent_tree, filter_tree, fold_tree};
ghost use Rattle.vega_writing.specs.Transforms.{formula_tree, offset_tree, stack_tree, time_unit_tree, transform_tree};
ghost use Rattle.vega_spec.specs.declared.transforms.BinExtent.TheVariants as extent;

use crate::groupings::aggregate_tree;
use crate::names::time_unit_tree;
use crate::slots::{no_slots, object, with, with_if, with_tree, with_word};
use crate::trees::{Written, two_numbers, word};
use json_exact::Json;
use std::alloc::Global;
use text_kit::{OutOfMemory, Text};
use vega_spec::{
    Bin, BinExtent, Extent, Filter, Fold, Formula, Offset, Stack, TimeUnit, Transform,
};

impl Written for Offset {
    ghost tree = { offset_tree };

    #[tactic(auto, unfolding(crate::specs::Transforms::offset_tree))]
    fn tree(&self, alloc: Global) -> Result<Json, OutOfMemory> {
        match self {
            Offset::Zero => word(alloc, "zero"),
            Offset::Normalize => word(alloc, "normalize"),
            Offset::Center => word(alloc, "center"),
        }
    }
}

impl Written for Filter {
    ghost tree = { filter_tree };

    #[tactic(auto, unfolding(crate::specs::Transforms::filter_slots))]
    fn tree(&self, alloc: Global) -> Result<Json, OutOfMemory> {
        let slots = no_slots(alloc);
        let slots = with_word(alloc, slots, "type", "filter");
        let slots = with(alloc, slots, "expr", &self.expr);
        object(alloc, slots)
    }
}

impl Written for Formula {
    ghost tree = { formula_tree };

    #[tactic(auto, unfolding(crate::specs::Transforms::formula_slots))]
    fn tree(&self, alloc: Global) -> Result<Json, OutOfMemory> {
        let slots = no_slots(alloc);
        let slots = with_word(alloc, slots, "type", "formula");
        let slots = with(alloc, slots, "expr", &self.expr);
        let slots = with(alloc, slots, "as", &self.as_);
        object(alloc, slots)
    }
}

impl Written for Extent {
    ghost tree = { extent_tree };

    #[tactic(auto, unfolding(crate::specs::Transforms::extent_slots))]
    fn tree(&self, alloc: Global) -> Result<Json, OutOfMemory> {
        let slots = no_slots(alloc);
        let slots = with_word(alloc, slots, "type", "extent");
        let slots = with(alloc, slots, "field", &self.field);
        let slots = with(alloc, slots, "signal", &self.signal);
        object(alloc, slots)
    }
}

impl Written for Bin {
    ghost tree = { bin_tree };

    #[tactic(auto, unfolding(crate::specs::Transforms::bin_slots))]
    fn tree(&self, alloc: Global) -> Result<Json, OutOfMemory> {
        let slots = no_slots(alloc);
        let slots = with_word(alloc, slots, "type", "bin");
        let slots = with(alloc, slots, "field", &self.field);
        let slots = with(alloc, slots, "extent", &self.extent);
        let slots = with_if(alloc, slots, "maxbins", &self.maxbins);
        let slots = with_if(alloc, slots, "step", &self.step);
        let slots = with_if(alloc, slots, "as", &self.as_);
        object(alloc, slots)
    }
}

impl Written for TimeUnit {
    ghost tree = { time_unit_tree };

    #[tactic(auto, unfolding(crate::specs::Transforms::time_unit_slots))]
    fn tree(&self, alloc: Global) -> Result<Json, OutOfMemory> {
        let slots = no_slots(alloc);
        let slots = with_word(alloc, slots, "type", "timeunit");
        let slots = with(alloc, slots, "field", &self.field);
        let slots = with_tree(alloc, slots, "units", time_unit_tree(alloc, self.units));
        let slots = with_if(alloc, slots, "as", &self.as_);
        object(alloc, slots)
    }
}

impl Written for Stack {
    ghost tree = { stack_tree };

    #[tactic(auto, unfolding(crate::specs::Transforms::stack_slots))]
    fn tree(&self, alloc: Global) -> Result<Json, OutOfMemory> {
        let slots = no_slots(alloc);
        let slots = with_word(alloc, slots, "type", "stack");
        let slots = with_if(alloc, slots, "groupby", &self.groupby);
        let slots = with(alloc, slots, "field", &self.field);
        let slots = with_if(alloc, slots, "sort", &self.sort);
        let slots = with_if(alloc, slots, "offset", &self.offset);
        let slots = with_if(alloc, slots, "as", &self.as_);
        object(alloc, slots)
    }
}

impl Written for Fold {
    ghost tree = { fold_tree };

    #[tactic(auto, unfolding(crate::specs::Transforms::fold_slots))]
    fn tree(&self, alloc: Global) -> Result<Json, OutOfMemory> {
        let slots = no_slots(alloc);
        let slots = with_word(alloc, slots, "type", "fold");
        let slots = with(alloc, slots, "fields", &self.fields);
        let slots = with_if(alloc, slots, "as", &self.as_);
        object(alloc, slots)
    }
}

impl Written for BinExtent {
    ghost tree = { bin_extent_tree };

    #[tactic(auto, unfolding(crate::specs::Transforms::bin_extent_tree))]
    fn tree(&self, alloc: Global) -> Result<Json, OutOfMemory> {
        match self {
            BinExtent::Pair(first, second) => two_numbers(alloc, *first, *second),
            BinExtent::Signal(name) => named_extent(alloc, name),
        }
    }
}

// The signal of an extent, by its name.
#[tactic(auto, unfolding(crate::specs::Transforms::bin_extent_tree))]
fn named_extent(alloc: Global, name: &Text) -> Result<Json, OutOfMemory>
    ensures { IfOk result (λ tree. tree ≡ bin_extent_tree (extent.Signal name.now)) }
{
    let slots = no_slots(alloc);
    let slots = with(alloc, slots, "signal", name);
    object(alloc, slots)
}

impl Written for Transform {
    ghost tree = { transform_tree };

    #[tactic(auto, unfolding(crate::specs::Transforms::transform_tree))]
    fn tree(&self, alloc: Global) -> Result<Json, OutOfMemory> {
        match self {
            Transform::Filter(filter) => filter.tree(alloc),
            Transform::Formula(formula) => formula.tree(alloc),
            Transform::Extent(extent) => extent.tree(alloc),
            Transform::Bin(bin) => bin.tree(alloc),
            Transform::TimeUnit(unit) => unit.tree(alloc),
            Transform::Aggregate(aggregate) => aggregate_tree(alloc, "aggregate", aggregate),
            Transform::JoinAggregate(aggregate) => aggregate_tree(
                alloc,
                "joinaggregate",
                aggregate,
            ),
            Transform::Stack(stack) => stack.tree(alloc),
            Transform::Window(window) => window.tree(alloc),
            Transform::Lookup(lookup) => lookup.tree(alloc),
            Transform::Fold(fold) => fold.tree(alloc),
        }
    }
}

// The trees of transforms over several rows.
ghost use Rattle.std.specs.Prelude.{◌≡◌, IfOk};
ghost use Rattle.vega_writing.specs.Groupings.{aggregate_tree, frame_tree, lookup_tree, window_tree};

use crate::names::{operations_tree, operations_tree_if};
use crate::several::list_of_two;
use crate::slots::{no_slots, object, with, with_if, with_tree, with_tree_if, with_word};
use crate::trees::Written;
use json_exact::Json;
use std::alloc::Global;
use text_kit::OutOfMemory;
use vega_spec::{Aggregate, Frame, Lookup, Window};

// An aggregate, whose type is this word.
#[tactic(auto, unfolding(crate::specs::Groupings::aggregate_slots))]
pub fn aggregate_tree(alloc: Global, word: &str, aggregate: &Aggregate) -> Result<Json, OutOfMemory>
    ensures { IfOk result (λ tree. tree ≡ aggregate_tree word.now aggregate.now) }
{
    let slots = no_slots(alloc);
    let slots = with_word(alloc, slots, "type", word);
    let slots = with_if(alloc, slots, "groupby", &aggregate.groupby);
    let slots = with_tree_if(
        alloc,
        slots,
        "ops",
        operations_tree_if(alloc, &aggregate.ops),
    );
    let slots = with_if(alloc, slots, "fields", &aggregate.fields);
    let slots = with_if(alloc, slots, "as", &aggregate.as_);
    object(alloc, slots)
}

impl Written for Window {
    ghost tree = { window_tree };

    #[tactic(auto, unfolding(crate::specs::Groupings::window_slots))]
    fn tree(&self, alloc: Global) -> Result<Json, OutOfMemory> {
        let slots = no_slots(alloc);
        let slots = with_word(alloc, slots, "type", "window");
        let slots = with_tree(alloc, slots, "ops", operations_tree(alloc, &self.ops));
        let slots = with_if(alloc, slots, "fields", &self.fields);
        let slots = with_if(alloc, slots, "params", &self.params);
        let slots = with_if(alloc, slots, "as", &self.as_);
        let slots = with_if(alloc, slots, "groupby", &self.groupby);
        let slots = with_if(alloc, slots, "sort", &self.sort);
        let slots = with_if(alloc, slots, "frame", &self.frame);
        let slots = with_if(alloc, slots, "ignorePeers", &self.ignore_peers);
        object(alloc, slots)
    }
}

impl Written for Lookup {
    ghost tree = { lookup_tree };

    #[tactic(auto, unfolding(crate::specs::Groupings::lookup_slots))]
    fn tree(&self, alloc: Global) -> Result<Json, OutOfMemory> {
        let slots = no_slots(alloc);
        let slots = with_word(alloc, slots, "type", "lookup");
        let slots = with(alloc, slots, "from", &self.from);
        let slots = with(alloc, slots, "key", &self.key);
        let slots = with(alloc, slots, "fields", &self.fields);
        let slots = with(alloc, slots, "values", &self.values);
        let slots = with_if(alloc, slots, "as", &self.as_);
        let slots = with_if(alloc, slots, "default", &self.default);
        object(alloc, slots)
    }
}

impl Written for Frame {
    ghost tree = { frame_tree };

    #[tactic(auto, unfolding(crate::specs::Groupings::frame_tree))]
    fn tree(&self, alloc: Global) -> Result<Json, OutOfMemory> {
        list_of_two(alloc, self.first.tree(alloc), self.last.tree(alloc))
    }
}

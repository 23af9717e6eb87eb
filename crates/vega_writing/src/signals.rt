// The trees of signals.
ghost use Rattle.vega_writing.specs.Signals.{event_selector_tree, event_update_tree, signal_tree};

use crate::slots::{no_slots, object, with, with_if};
use crate::trees::{Written, word};
use json_exact::Json;
use std::alloc::Global;
use text_kit::OutOfMemory;
use vega_spec::{EventSelector, EventUpdate, Signal};

impl Written for EventSelector {
    ghost tree = { event_selector_tree };

    #[tactic(auto, unfolding(crate::specs::Signals::event_selector_tree))]
    fn tree(&self, alloc: Global) -> Result<Json, OutOfMemory> {
        match self {
            EventSelector::Click => word(alloc, "click"),
            EventSelector::ShiftClick => word(alloc, "click[event.shiftKey]"),
            EventSelector::DoubleClick => word(alloc, "dblclick"),
            EventSelector::Drag => word(alloc, "[mousedown, mouseup] > mousemove"),
        }
    }
}

impl Written for Signal {
    ghost tree = { signal_tree };

    #[tactic(auto, unfolding(crate::specs::Signals::signal_slots))]
    fn tree(&self, alloc: Global) -> Result<Json, OutOfMemory> {
        let slots = no_slots(alloc);
        let slots = with(alloc, slots, "name", &self.name);
        let slots = with_if(alloc, slots, "value", &self.value);
        let slots = with_if(alloc, slots, "update", &self.update);
        let slots = with_if(alloc, slots, "on", &self.on);
        let slots = with_if(alloc, slots, "marks", &self.marks);
        object(alloc, slots)
    }
}

impl Written for EventUpdate {
    ghost tree = { event_update_tree };

    #[tactic(auto, unfolding(crate::specs::Signals::event_update_slots))]
    fn tree(&self, alloc: Global) -> Result<Json, OutOfMemory> {
        let slots = no_slots(alloc);
        let slots = with(alloc, slots, "events", &self.events);
        let slots = with(alloc, slots, "update", &self.update);
        object(alloc, slots)
    }
}

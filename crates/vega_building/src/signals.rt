// Signals.
ghost use Rattle.tree_readers.specs.Parts.{members_of};
ghost use Rattle.vega_building.specs.Signals.{event_update_of, signal_of};

use crate::names::named_or;
use crate::parts::{Item, Object};
use crate::several::five_parts;
use json_exact::{Json, Member};
use std::alloc::Global;
use text_kit::OutOfMemory;
use tree_readers::needed_text;
use vega_spec::{EventSelector, EventUpdate, Signal};

impl Object for EventUpdate {
    ghost built = { event_update_of };

    fn of_members(alloc: Global, members: &[Member]) -> Result<EventUpdate, OutOfMemory> {
        Ok(EventUpdate {
            events: named_or(members, "events", EventSelector::Click),
            update: needed_text(alloc, members, "update")?,
        })
    }
}

impl Item for EventUpdate {
    ghost item = { λ tree. event_update_of (members_of tree) };

    fn of_item(alloc: Global, tree: &Json) -> Result<EventUpdate, OutOfMemory> {
        EventUpdate::of_members(alloc, tree_readers::members_of(tree))
    }
}

impl Object for Signal {
    ghost built = { signal_of };

    fn of_members(alloc: Global, members: &[Member]) -> Result<Signal, OutOfMemory> {
        let (name, value, update, on, marks) = five_parts(
            alloc, members, "name", "value", "update", "on", "marks",
        )?;
        Ok(Signal {
            name,
            value,
            update,
            on,
            marks,
        })
    }
}

impl Item for Signal {
    ghost item = { λ tree. signal_of (members_of tree) };

    fn of_item(alloc: Global, tree: &Json) -> Result<Signal, OutOfMemory> {
        Signal::of_members(alloc, tree_readers::members_of(tree))
    }
}

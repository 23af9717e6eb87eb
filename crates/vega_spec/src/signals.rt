// Signals.
use crate::copying::{beside_copy, copied_expr};
use cell_value::Cell;
use expr_syntax::Expr;
use std::alloc::Global;
use text_kit::{Copies, OutOfMemory, Seq, Text, copied_four};

/// A signal.
#[derive(Debug)]
pub struct Signal {
    /// The name.
    pub name: Text,
    /// The value that it has.
    pub value: Option<Cell>,
    /// The value that is computed.
    pub update: Option<Expr>,
    /// What it does on events.
    pub on: Option<Seq<EventUpdate>>,
    /// The names of the marks whose events concern it.
    pub marks: Option<Seq<Text>>,
}

impl Drop for Signal {
    fn drop(self) {
        let Signal {
            name,
            value,
            update,
            on,
            marks,
        } = self;
        drop(name);
        drop(value);
        drop(update);
        drop(on);
        drop(marks);
    }
}

/// An update on events.
#[derive(Debug)]
pub struct EventUpdate {
    /// The events.
    pub events: EventSelector,
    /// The update, as it is written.
    pub update: Text,
}

impl Drop for EventUpdate {
    fn drop(self) {
        let EventUpdate {
            events: _,
            update: _,
        } = self;
    }
}

/// The events that concern an update.
#[derive(Clone, Copy, Debug, PartialEq, Eq)]
pub enum EventSelector {
    /// `click`
    Click,
    /// `click[event.shiftKey]`
    ShiftClick,
    /// `dblclick`
    DoubleClick,
    /// `[mousedown, mouseup] > mousemove`
    Drag,
}

impl Copies for Signal {
    fn copied(&self, alloc: Global) -> Result<Signal, OutOfMemory> {
        let copies = copied_four(alloc, &self.name, &self.value, &self.on, &self.marks)?;
        let update = copied_expr(alloc, &self.update);
        let ((name, value, on, marks), update) = beside_copy(copies, &self.update, update)?;
        Ok(Signal {
            name,
            value,
            update,
            on,
            marks,
        })
    }
}

impl Copies for EventUpdate {
    fn copied(&self, _: Global) -> Result<EventUpdate, OutOfMemory> {
        Ok(EventUpdate {
            events: self.events,
            update: self.update.copy()?,
        })
    }
}

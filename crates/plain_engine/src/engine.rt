// The engine.
ghost use Rattle.std.specs.Prelude.{◌≡◌, Some, IfOk, OnErr};
ghost use Rattle.cell_value.specs.State.{state_of};
ghost use Rattle.param_flow.specs.Machine.{reply_to_change, reply_to_event, reply_to_set, state_by, state_changed, state_if, state_set};
ghost use Rattle.vega_copies.specs.Tested.{KeepsRules};
ghost use Rattle.vega_selections.specs.Kept.{KeepsSelections};
ghost use Rattle.vega_meaning.specs.Semantics.{vega_semantics, values_in};
ghost use Rattle.vega_meaning.specs.States.{IsStateOf};
ghost use Rattle.plain_engine.specs.inner.Kept.{IsKept, IsKept-prop};

use crate::events::do_event;
use crate::json_rows::first_bad;
use crate::mentions::mentions_params;
use crate::pictures::{picture_of_state, print_scene};
use crate::settings::set_param;
use crate::sources::{change_source, place_of};
use cell_value::{Cell, ChartState, Steps};
use chart_io::Sink;
use param_flow::{Cause, ChangeOf, Command, Event, Reply};
use play_script::{Engine, PrintError};
use plot_scenes::Drawing;
use std::alloc::Global;
use std::sync::ledger::Ledger;
use text_kit::{OutOfMemory, Text};
use vega_meaning::OpenError;
use vega_spec::VgSpec;

/// An engine that evaluates the whole chart after each command. It keeps its state, and what is drawn of that.
#[derive(Debug, Drop)]
pub struct PlainEngine {
    spec: VgSpec,
    state: ChartState,
    drawing: Drawing,
    ghost kept: { IsKept spec state drawing } by { IsKept-prop spec state drawing },
}

impl PlainEngine {
    ghost use Rattle.plain_engine.specs.Engine.{meaning_of, Opens};

    /// Opens a specification that breaks no rule in a state of it. `Overflow` and `Panels` come exactly where its chart is that.
    pub fn open(alloc: Global, g: VgSpec, st: ChartState) -> Result<PlainEngine, OpenError>
        requires rules { KeepsRules g }
        requires selections { KeepsSelections g }
        requires state { IsStateOf g (state_of st) }
        ensures { Opens (record { spec = g; state = state_of st }) result }
    {
        let drawing = picture_of_state(alloc, &g, &st)?;
        Ok(PlainEngine {
            spec: g,
            state: st,
            drawing,
        })
    }

    // Does a change of a source. Where memory is refused the state stays.
    fn change(&mut self, alloc: Global, name: &str, change: &ChangeOf) -> Result<Reply, OutOfMemory>
        ensures reply { IfOk result (λ reply. reply
            ≡ reply_to_change (vega_semantics self.old.spec) (state_of self.old.state) name.now change.now) }
        ensures done { IfOk result (λ reply. meaning_of self.new ≡ record {
          spec = self.old.spec;
          state = state_if reply (state_of self.old.state)
              (state_changed (values_in self.old.spec (state_of self.old.state)) (state_of self.old.state) name.now change.now);
        }) }
        ensures kept { OnErr result (meaning_of self.new ≡ meaning_of self.old) }
    {
        let Some(index) = place_of(self.state.sources.as_slice(), name) else {
            return Ok(Reply::Refused(Cause::Name));
        };
        if !mentions_params(alloc, &self.spec, change)? {
            return Ok(Reply::Refused(Cause::Name));
        }
        if let Some((row, field)) = first_bad(change.insert.as_slice()) {
            let field = Text::of(alloc, field)?;
            return Ok(Reply::Refused(Cause::Row { row, field }));
        }
        change_source(
            alloc,
            &self.spec,
            &mut self.state,
            &mut self.drawing,
            index,
            change,
        )
    }

    // Gives a value to a parameter. Where it is refused, or memory is, all stays.
    fn set(&mut self, alloc: Global, name: &str, value: &Cell) -> Result<Reply, OutOfMemory>
        ensures reply { IfOk result (λ reply. reply
            ≡ reply_to_set (vega_semantics self.old.spec) (state_of self.old.state) name.now value.now) }
        ensures done { IfOk result (λ reply. meaning_of self.new ≡ record {
          spec = self.old.spec;
          state = state_if reply (state_of self.old.state) (Some (state_set (state_of self.old.state) name.now value.now));
        }) }
        ensures kept { OnErr result (meaning_of self.new ≡ meaning_of self.old) }
    {
        set_param(
            alloc,
            &self.spec,
            &mut self.state,
            &mut self.drawing,
            name,
            value,
        )
    }

    // Does an event of the mouse. Where it is refused, or memory is, all stays.
    fn event(&mut self, alloc: Global, e: &Event) -> Result<Reply, OutOfMemory>
        ensures reply { IfOk result (λ reply. reply ≡ reply_to_event (vega_semantics self.old.spec) (state_of self.old.state) e.now) }
        ensures done { IfOk result (λ reply. meaning_of self.new ≡ record {
          spec = self.old.spec;
          state = state_if reply (state_of self.old.state)
              (Some (state_by (vega_semantics self.old.spec) (state_of self.old.state) e.now));
        }) }
        ensures kept { OnErr result (meaning_of self.new ≡ meaning_of self.old) }
    {
        do_event(alloc, &self.spec, &mut self.state, &mut self.drawing, e)
    }
}

impl Engine for PlainEngine {
    ghost use Rattle.plain_engine.specs.Engine.{meaning_of};
    ghost use Rattle.plain_engine.specs.inner.Kept.{standing};

    ghost meaning = { meaning_of };

    ghost reads = { λ _. 0 };

    ghost stands = { λ engine. standing engine.spec engine.state engine.drawing engine.kept };

    fn apply<L: Ledger>(
        &mut self,
        alloc: Global,
        c: &Command,
        _steps: &mut Steps<L>,
    ) -> Result<Reply, OutOfMemory> {
        match c {
            Command::Change { source, change } => { self.change(alloc, source.as_str(), change) }
            Command::Set { name, value } => self.set(alloc, name.as_str(), value),
            Command::Event(event) => self.event(alloc, event),
            Command::Print => Ok(Reply::Done),
        }
    }

    fn print<K: Sink>(&self, out: &mut K) -> Result<(), PrintError> {
        print_scene(&self.drawing.scene, out)
    }

    fn last_reads(&self) -> u64 {
        0
    }
}

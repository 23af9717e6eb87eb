//! Events of the mouse.
ghost use Rattle.std.specs.Prelude.{◌≡◌, true, Some, map, IfOk, OnErr};
ghost use Rattle.cell_value.specs.State.{dataset_of, state_of};
ghost use Rattle.scale_kit.specs.Scale.{AreScales};
ghost use Rattle.param_flow.specs.Machine.{reply_to_chart, reply_to_event, state_by, state_if, with_stores};
ghost use Rattle.vega_selections.specs.Selections.{selections_of};
ghost use Rattle.vega_events.specs.Events.{params_after};
ghost use Rattle.vega_events.specs.Premises.{FieldsAreTold, ItemsAreOfRows};
ghost use Rattle.vega_meaning.specs.Charts.{picture_over};
ghost use Rattle.vega_meaning.specs.Semantics.{vega_semantics};
ghost use Rattle.plain_engine.specs.inner.Kept.{IsKept, MayBeStores};
ghost use Rattle.plain_engine.specs.inner.Rows.{told};

use crate::pictures::picture_over;
use crate::rows::{DrawnRows, drawn_rows};
use crate::settings::params_of;
use cell_value::{ChartState, Params, Steps, StoreOf};
use param_flow::{Cause, Event, Reply};
use plot_scenes::Drawing;
use selection_events::stores_are_kept;
use std::alloc::Global;
use std::marker::Brand;
use std::sync::ledger::{Blank, Ledger};
use text_kit::{OutOfMemory, Seq};
use vega_events::{events_are_of_stores, on_event};
use vega_meaning::{OpenError, law_of_items, laws_of_drawings};
use vega_spec::VgSpec;

// The parameters and the stores after an event, with a counter of its own.
fn params_counted<L: Ledger>(
    alloc: Global,
    g: &VgSpec,
    now: &Params,
    drawing: &Drawing,
    rows: &DrawnRows,
    e: &Event,
    blank: Blank,
) -> Result<Params, OutOfMemory>
    requires name { blank.name ≡ L.name }
    requires parts { blank.parts ≡ L.parts }
    requires scales { AreScales drawing.now.scales }
    requires items { ItemsAreOfRows (λ unit. Some (told rows.now.rows unit)) drawing.now.scene }
    requires known { FieldsAreTold (λ unit name. true) (selections_of g.now) }
    ensures { IfOk result (λ after. after ≡ params_after g.now now.now drawing.now.scales drawing.now.scene (λ unit. Some (told rows.now.rows unit)) e.now) }
{
    let mut steps = Steps::<L>::open(blank);
    on_event(
        alloc,
        g,
        now,
        &drawing.scales,
        &drawing.scene,
        rows,
        e,
        &mut steps,
    )
}

// The parameters and the stores after an event, on what is drawn of a state.
fn params_after(
    alloc: Global,
    g: &VgSpec,
    st: &ChartState,
    drawing: &Drawing,
    e: &Event,
) -> Result<Params, OutOfMemory>
    requires { IsKept g.now st.now drawing.now }
    ensures state { IfOk result (λ after. with_stores (state_of st.now) after.stores ≡ state_by (vega_semantics g.now) (state_of st.now) e.now) }
    ensures stores { IfOk result (λ after. MayBeStores g.now after.stores) }
{
    laws_of_drawings();
    law_of_items();
    events_are_of_stores();
    stores_are_kept();
    let rows = drawn_rows(
        alloc,
        g,
        st.sources.as_slice(),
        st.params.as_slice(),
        st.stores.as_slice(),
    )?;
    let now = params_of(alloc, st)?;
    params_counted::<Brand>(alloc, g, &now, drawing, &rows, e, Blank::new(1))
}

// Draws the chart with these stores, and puts them in place. Where it can't be drawn, or memory is refused, all stays.
fn put_stores(
    alloc: Global,
    g: &VgSpec,
    st: &mut ChartState,
    drawing: &mut Drawing,
    stores: Seq<StoreOf>,
) -> Result<Reply, OutOfMemory>
    requires kept { IsKept g.now st.old drawing.old }
    requires stores { MayBeStores g.now stores }
    ensures reply { IfOk result (λ reply. reply ≡ reply_to_chart (picture_over g.now (map dataset_of st.old.sources) st.old.params stores)) }
    ensures done { IfOk result (λ reply. state_of st.new ≡ state_if reply (state_of st.old) (Some (with_stores (state_of st.old) stores))) }
    ensures memory { OnErr result (st.new ≡ st.old) }
    ensures kept { IsKept g.now st.new drawing.new }
{
    match picture_over(
        alloc,
        g,
        st.sources.as_slice(),
        st.params.as_slice(),
        stores.as_slice(),
    ) {
        Ok(drawn) => {
            st.stores = stores;
            *drawing = drawn;
            Ok(Reply::Done)
        }
        Err(OpenError::Overflow) => Ok(Reply::Refused(Cause::Overflow)),
        Err(OpenError::Panels(_)) => Ok(Reply::Refused(Cause::Limit)),
        Err(OpenError::Memory) => Err(OutOfMemory),
    }
}

/// Does an event of the mouse, over a state of a specification and what is drawn of that. Where it is refused, or memory is, all stays.
pub fn do_event(
    alloc: Global,
    g: &VgSpec,
    st: &mut ChartState,
    drawing: &mut Drawing,
    e: &Event,
) -> Result<Reply, OutOfMemory>
    requires kept { IsKept g.now st.old drawing.old }
    ensures reply { IfOk result (λ reply. reply ≡ reply_to_event (vega_semantics g.now) (state_of st.old) e.now) }
    ensures done { IfOk result (λ reply. state_of st.new
        ≡ state_if reply (state_of st.old) (Some (state_by (vega_semantics g.now) (state_of st.old) e.now))) }
    ensures memory { OnErr result (st.new ≡ st.old) }
    ensures kept { IsKept g.now st.new drawing.new }
{
    let after = params_after(alloc, g, st, drawing, e)?;
    put_stores(alloc, g, st, drawing, after.stores)
}

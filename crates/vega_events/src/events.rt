// Events of the mouse over a Vega chart.
ghost use Rattle.std.specs.Prelude.{◌≡◌, ◌≤◌, ◌+◌, ℕ, List, Some, true, if◌then◌else◌, slice_get, IfOk, All};
ghost use Rattle.std.specs.Option.{option_map};
ghost use Rattle.scale_kit.specs.Scale.{AreScales};
ghost use Rattle.selection_events.specs.Hits.{is_among};
ghost use Rattle.selection_events.specs.Places.{place_at};
ghost use Rattle.selection_events.specs.Stores.{empty_store as nothing_held};
ghost use Rattle.vega_selections.specs.Selections.{selections_of as selections_in};
ghost use Rattle.vega_events.specs.Scales.{inverted_by};
ghost use Rattle.vega_events.specs.Events.{read_in, begin_of, change_on, store_after, stores_after, params_after};
ghost use Rattle.vega_events.specs.Premises.{ItemIsOfRow, ItemsAreOfRows, AreKept, IsTold, FieldsAreTold, count_kept, count_all};

use crate::clicks::{ClickAt, clicked, toggled};
use crate::drags::dragged;
use cell_value::{Params, Steps, StoreOf};
use fixed_num::Num;
use param_flow::{Event, UnitRows};
use scale_kit::ScaleSet;
use scene_tree::{Panel, Scene};
use selection_events::{Drag, PlotOf, empty_store, panel_at, units_in_panel};
use std::alloc::Global;
use std::sync::ledger::Ledger;
use text_kit::{OutOfMemory, Seq, copy_list};
use vega_selections::{VgSelection, plots_of, selections_of};
use vega_spec::VgSpec;

/// An event over what is drawn of a chart, but for the rows.
#[derive(Clone, Copy)]
struct EventOver<'a> {
    /// The event.
    event: &'a Event,
    /// The plots of the chart.
    plots: &'a [PlotOf],
    /// Its scales, and those of its plots.
    scales: &'a ScaleSet,
    /// Its picture.
    scene: &'a Scene,
}

/// An event in a panel of a chart.
#[derive(Clone, Copy)]
struct EventIn<'a> {
    /// The event.
    event: &'a Event,
    /// The plots of the chart.
    plots: &'a [PlotOf],
    /// Its scales, and those of its plots.
    scales: &'a ScaleSet,
    /// The index of the panel in the picture.
    index: usize,
    /// The panel.
    panel: &'a Panel,
}

/// The units that a selection has in a panel, where it has some.
#[derive(Clone, Copy)]
struct UnitsHere<'a> {
    /// The units.
    units: &'a [u32],
    /// The least of them.
    least: u32,
}

// Where an event begins.
fn begin_of(e: &Event) -> (Num, Num)
    ensures { result ≡ begin_of e.now }
{
    match e {
        Event::Click { x, y } => (*x, *y),
        Event::Shift { x, y } => (*x, *y),
        Event::Double { x, y } => (*x, *y),
        Event::Drag { x1, y1, .. } => (*x1, *y1),
    }
}

// The store of a selection after a double click.
fn cleared(alloc: Global, v: &VgSelection, store: &StoreOf) -> Result<StoreOf, OutOfMemory>
    ensures { IfOk result (λ after. after ≡ (if v.now.selection.clears then nothing_held v.now.selection.name else store.now)) }
{
    if v.selection.clears {
        empty_store(alloc, v.selection.name.as_str())
    } else {
        store.copy(alloc)
    }
}

// The store of a selection after an event in a panel in which it has these units.
fn changed<R: UnitRows, L: Ledger>(
    alloc: Global,
    here: &EventIn,
    met: &UnitsHere,
    rows: &R,
    v: &VgSelection,
    store: &StoreOf,
    steps: &mut Steps<L>,
) -> Result<StoreOf, OutOfMemory>
    requires scales { AreScales here.now.scales.now }
    requires items { All (ItemIsOfRow (R.rows rows.now)) here.now.panel.now.items }
    requires told { (unit : ℕ) → is_among met.now.units.now unit ≡ true → (fields : List (List ℕ)) → AreKept v.now.selection fields
        → All (λ name. R.tells rows.now unit name ≡ true) fields }
    ensures value { IfOk result (λ after. after ≡ change_on here.now.event.now (read_in (R.rows rows.now))
        (inverted_by here.now.scales.now v.now) v.now.selection (here.now.index, here.now.panel.now) met.now.least met.now.units.now store.now) }
    ensures counted { steps.old ≤ steps.new }
    ensures few { steps.new ≤ steps.old + count_kept v.now.selection }
{
    match here.event {
        Event::Click { x, y } => {
            let click = ClickAt {
                panel: here.panel,
                units: met.units,
                least: met.least,
                x: *x,
                y: *y,
            };
            clicked(alloc, rows, v, &click, store, steps)
        }
        Event::Shift { x, y } => {
            let click = ClickAt {
                panel: here.panel,
                units: met.units,
                least: met.least,
                x: *x,
                y: *y,
            };
            toggled(alloc, rows, v, &click, store, steps)
        }
        Event::Double { .. } => cleared(alloc, v, store),
        Event::Drag { x1, y1, x2, y2 } => {
            let d = Drag {
                x1: *x1,
                y1: *y1,
                x2: *x2,
                y2: *y2,
            };
            dragged(
                alloc,
                here.scales,
                v,
                here.index,
                here.panel,
                met.least,
                d,
                store,
            )
        }
    }
}

// The store of a selection after an event in a panel.
#[tactic(auto, using(crate::proofs::HitLemmas::told_in_panel))]
fn store_after<R: UnitRows, L: Ledger>(
    alloc: Global,
    here: &EventIn,
    rows: &R,
    v: &VgSelection,
    store: &StoreOf,
    steps: &mut Steps<L>,
) -> Result<StoreOf, OutOfMemory>
    requires scales { AreScales here.now.scales.now }
    requires items { All (ItemIsOfRow (R.rows rows.now)) here.now.panel.now.items }
    requires told { IsTold (R.tells rows.now) v.now }
    ensures value { IfOk result (λ after. after ≡ store_after here.now.plots.now here.now.scales.now (R.rows rows.now) here.now.event.now
        (here.now.index, here.now.panel.now) v.now store.now) }
    ensures counted { steps.old ≤ steps.new }
    ensures few { steps.new ≤ steps.old + count_kept v.now.selection }
{
    let found = units_in_panel(alloc, here.plots, &v.selection, here.panel)?;
    let units = found.as_slice();
    match units {
        [] => store.copy(alloc),
        [least, ..] => {
            let met = UnitsHere {
                units,
                least: *least,
            };
            changed(alloc, here, &met, rows, v, store, steps)
        }
    }
}

// The stores of selections after an event in a panel.
fn stores_in<R: UnitRows, L: Ledger>(
    alloc: Global,
    here: &EventIn,
    rows: &R,
    selections: &[VgSelection],
    stores: &[StoreOf],
    steps: &mut Steps<L>,
) -> Result<Seq<StoreOf>, OutOfMemory>
    requires scales { AreScales here.now.scales.now }
    requires items { All (ItemIsOfRow (R.rows rows.now)) here.now.panel.now.items }
    requires told { FieldsAreTold (R.tells rows.now) selections.now }
    ensures value { IfOk result (λ after. after ≡ stores_after here.now.plots.now here.now.scales.now (R.rows rows.now) here.now.event.now
        (Some (here.now.index, here.now.panel.now)) selections.now stores.now) }
    ensures counted { steps.old ≤ steps.new }
    ensures few { steps.new ≤ steps.old + count_all selections.now }
{
    let mut out = Seq::with_capacity(alloc, stores.len())?;
    for (v, store) in selections.iter().zip(stores) {
        out.push(store_after(alloc, here, rows, v, store, steps)?)?;
    }
    Ok(out)
}

// The stores of selections after an event that acts in the panel of an index.
#[tactic(auto, using(crate::proofs::HitLemmas::items_of_panel))]
fn stores_at<R: UnitRows, L: Ledger>(
    alloc: Global,
    over: &EventOver,
    index: usize,
    rows: &R,
    selections: &[VgSelection],
    stores: &[StoreOf],
    steps: &mut Steps<L>,
) -> Result<Seq<StoreOf>, OutOfMemory>
    requires scales { AreScales over.now.scales.now }
    requires items { ItemsAreOfRows (R.rows rows.now) over.now.scene.now }
    requires told { FieldsAreTold (R.tells rows.now) selections.now }
    ensures value { IfOk result (λ after. after ≡ stores_after over.now.plots.now over.now.scales.now (R.rows rows.now) over.now.event.now
        (option_map (λ panel. (index, panel)) (slice_get over.now.scene.now.panels index)) selections.now stores.now) }
    ensures counted { steps.old ≤ steps.new }
    ensures few { steps.new ≤ steps.old + count_all selections.now }
{
    match over.scene.panels.get(index) {
        Some(panel) => {
            let here = EventIn {
                event: over.event,
                plots: over.plots,
                scales: over.scales,
                index,
                panel,
            };
            stores_in(alloc, &here, rows, selections, stores, steps)
        }
        None => copy_list(alloc, stores),
    }
}

// The stores of selections after an event.
fn stores_by<R: UnitRows, L: Ledger>(
    alloc: Global,
    over: &EventOver,
    rows: &R,
    selections: &[VgSelection],
    stores: &[StoreOf],
    steps: &mut Steps<L>,
) -> Result<Seq<StoreOf>, OutOfMemory>
    requires scales { AreScales over.now.scales.now }
    requires items { ItemsAreOfRows (R.rows rows.now) over.now.scene.now }
    requires told { FieldsAreTold (R.tells rows.now) selections.now }
    ensures value { IfOk result (λ after. after ≡ stores_after over.now.plots.now over.now.scales.now (R.rows rows.now) over.now.event.now
        (place_at over.now.scene.now (begin_of over.now.event.now).0 (begin_of over.now.event.now).1) selections.now stores.now) }
    ensures counted { steps.old ≤ steps.new }
    ensures few { steps.new ≤ steps.old + count_all selections.now }
{
    let (x, y) = begin_of(over.event);
    match panel_at(over.scene, x, y) {
        Some(index) => stores_at(alloc, over, index, rows, selections, stores, steps),
        None => copy_list(alloc, stores),
    }
}

// An event over what is drawn of a chart.
fn event_over<'a>(
    event: &'a Event,
    plots: &'a [PlotOf],
    scales: &'a ScaleSet,
    scene: &'a Scene,
) -> EventOver<'a>
    ensures event { result.event.now ≡ event.now }
    ensures plots { result.plots.now ≡ plots.now }
    ensures scales { result.scales.now ≡ scales.now }
    ensures scene { result.scene.now ≡ scene.now }
{
    EventOver {
        event,
        plots,
        scales,
        scene,
    }
}

/// The parameters and the stores of a chart after an event of the mouse, from what is drawn of it: the scene, the scales of its plots, and the
/// rows that its marks draw. It reads each field that a selection keeps once at most.
pub fn on_event<R: UnitRows, L: Ledger>(
    alloc: Global,
    g: &VgSpec,
    now: &Params,
    scales: &ScaleSet,
    scene: &Scene,
    rows: &R,
    e: &Event,
    steps: &mut Steps<L>,
) -> Result<Params, OutOfMemory>
    requires scales { AreScales scales.now }
    requires items { ItemsAreOfRows (R.rows rows.now) scene.now }
    requires told { FieldsAreTold (R.tells rows.now) (selections_in g.now) }
    ensures value { IfOk result (λ after. after ≡ params_after g.now now.now scales.now scene.now (R.rows rows.now) e.now) }
    ensures counted { steps.old ≤ steps.new }
    ensures few { steps.new ≤ steps.old + count_all (selections_in g.now) }
{
    let selections = selections_of(alloc, g)?;
    let plots = plots_of(alloc, g)?;
    let over = event_over(&*e, plots.as_slice(), &*scales, &*scene);
    let stores = stores_by(
        alloc,
        &over,
        rows,
        selections.as_slice(),
        now.stores.as_slice(),
        steps,
    )?;
    Ok(Params {
        params: copy_list(alloc, now.params.as_slice())?,
        stores,
    })
}

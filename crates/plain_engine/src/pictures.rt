//! The picture of a specification: what is drawn, with the brushes of its selections.
ghost use Rattle.std.specs.Prelude.{◌≡◌, ◌≤◌, map, IfOk, OnOk, IsErrOf};
ghost use Rattle.std.specs.Result.{result_map_both};
ghost use Rattle.cell_value.specs.State.{IsState, dataset_of, state_of};
ghost use Rattle.chart_io.specs.Outside.{Rose, Appended, AppendedPrefix};
ghost use Rattle.expr_eval.specs.Stores.{values_of_stores};
ghost use Rattle.scale_kit.specs.Scale.{AreScales};
ghost use Rattle.svg_text.specs.SceneText.{svg_of};
ghost use Rattle.vega_lists.specs.Held.{AreSources};
ghost use Rattle.vega_copies.specs.Tested.{KeepsRules};
ghost use Rattle.vega_charts.specs.Charts.{drawing_of};
ghost use Rattle.vega_meaning.specs.Answers.{Draws};
ghost use Rattle.vega_meaning.specs.Charts.{brushed_scene, picture_over, vega_picture_of};
ghost use Rattle.play_script.specs.declared.errors.PrintError.TheVariants.{Write};
ghost use Rattle.plain_engine.specs.inner.Pictures.{scene_of, shown, HasScales};

use cell_value::{Cell, ChartState, Named, StoreOf};
use chart_io::{Sink, WriteFault};
use expr_eval::Stores;
use play_script::PrintError;
use plot_scenes::Drawing;
use scale_kit::ScaleSet;
use scene_tree::Scene;
use selection_events::{BrushError, with_brushes};
use std::alloc::Global;
use svg_text::print;
use text_kit::Text;
use vega_charts::{DrawError, drawing_of};
use vega_events::ChartScales;
use vega_meaning::{OpenError, laws_of_drawings};
use vega_selections::{plots_of, selections_of};
use vega_spec::VgSpec;

// A scene with the brushes of stores, where these are the scales of its plots.
fn scene_brushed(
    alloc: Global,
    g: &VgSpec,
    stores: &[StoreOf],
    scales: &ScaleSet,
    scene: Scene,
) -> Result<Scene, OpenError>
    requires { AreScales scales.now }
    ensures { Draws (brushed_scene g.now stores.now scales.now scene) result }
{
    let plots = plots_of(alloc, g)?;
    let selections = selections_of(alloc, g)?;
    let inverted = ChartScales {
        scales,
        selections: selections.as_slice(),
    };
    match with_brushes(alloc, plots.as_slice(), &inverted, stores, scene) {
        Ok(scene) => Ok(scene),
        Err(BrushError::Overflow) => Err(OpenError::Overflow),
        Err(BrushError::Memory) => Err(OpenError::Memory),
    }
}

// What is drawn, with the brushes of stores.
fn brushed(
    alloc: Global,
    g: &VgSpec,
    stores: &[StoreOf],
    drawing: Drawing,
) -> Result<Drawing, OpenError>
    requires { AreScales drawing.scales }
    ensures drawn { Draws (brushed_scene g.now stores.now drawing.scales drawing.scene) (result_map_both scene_of (λ e. e) result) }
    ensures scales { IfOk result (λ d. d.scales ≡ drawing.scales) }
{
    let Drawing { scene, scales } = drawing;
    match scene_brushed(alloc, g, stores, &scales, scene) {
        Ok(scene) => Ok(Drawing { scene, scales }),
        Err(error) => Err(error),
    }
}

/// The picture of a specification over sources of rows, values of the parameters that can be set, and stores of its selections, with the scales of
/// its plots. `Overflow` and `Panels` come exactly where it is that.
pub fn picture_over(
    alloc: Global,
    g: &VgSpec,
    sources: &[Named],
    params: &[(Text, Cell)],
    stores: &[StoreOf],
) -> Result<Drawing, OpenError>
    requires kept { KeepsRules g.now }
    requires sources { AreSources sources.now }
    ensures drawn { Draws (picture_over g.now (map dataset_of sources.now) params.now stores.now) (result_map_both (shown g.now) (λ e. e) result) }
    ensures scales { IfOk result (HasScales (drawing_of g.now (values_of_stores stores.now) params.now (map dataset_of sources.now))) }
{
    laws_of_drawings();
    let read = Stores::of(alloc, stores)?;
    match drawing_of(alloc, g, sources, params, &read) {
        Ok(drawing) => brushed(alloc, g, stores, drawing),
        Err(DrawError::Overflow) => Err(OpenError::Overflow),
        Err(DrawError::Panels(count)) => Err(OpenError::Panels(count)),
        Err(DrawError::Memory) => Err(OpenError::Memory),
    }
}

/// The picture of a specification over a state of it.
pub fn picture_of_state(alloc: Global, g: &VgSpec, st: &ChartState) -> Result<Drawing, OpenError>
    requires kept { KeepsRules g.now }
    requires state { IsState (state_of st.now) }
    ensures drawn { Draws (vega_picture_of g.now (state_of st.now)) (result_map_both (shown g.now) (λ e. e) result) }
    ensures scales { IfOk result (HasScales (drawing_of g.now (values_of_stores st.now.stores) st.now.params (map dataset_of st.now.sources))) }
{
    picture_over(
        alloc,
        g,
        st.sources.as_slice(),
        st.params.as_slice(),
        st.stores.as_slice(),
    )
}

/// Writes a scene as SVG text. `Write` comes only where the sink's count of faults rose. After an error a beginning of the text was written.
pub(crate) fn print_scene<K: Sink>(scene: &Scene, out: &mut K) -> Result<(), PrintError>
    ensures counted { K.faults out.old ≤ K.faults out.new }
    ensures write { IsErrOf result Write → Rose (K.faults out.old) (K.faults out.new) }
    ensures ok { OnOk result (Appended (K.held out.old) (K.held out.new) (svg_of scene.now)) }
    ensures prefix { AppendedPrefix (K.held out.old) (K.held out.new) (svg_of scene.now) }
{
    match print(scene, out) {
        Ok(()) => Ok(()),
        Err(WriteFault) => Err(PrintError::Write),
    }
}

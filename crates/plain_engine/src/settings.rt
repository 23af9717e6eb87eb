// Settings of parameters.
ghost use Rattle.std.specs.Prelude.{◌≡◌, Some, map, IfOk, OnErr};
ghost use Rattle.cell_value.specs.State.{dataset_of, state_of};
ghost use Rattle.param_flow.specs.Machine.{reply_to_chart, reply_to_set, state_if, state_set};
ghost use Rattle.vega_meaning.specs.Charts.{picture_over};
ghost use Rattle.vega_meaning.specs.Semantics.{vega_semantics};
ghost use Rattle.param_flow.specs.States.{settable_names};
ghost use Rattle.plain_engine.specs.inner.Kept.{IsKept, param_names};
ghost use Rattle.plain_engine.specs.inner.Settings.{state_if_put};

use crate::pictures::picture_over;
use cell_value::{Cell, ChartState, Params};
use param_flow::{Cause, ParamError, Reply, set};
use plot_scenes::Drawing;
use std::alloc::Global;
use text_kit::{OutOfMemory, Seq, Text, copy_list};
use vega_meaning::OpenError;
use vega_spec::VgSpec;

/// Copies of the values of the parameters and of what the selections hold in a state.
pub(crate) fn params_of(alloc: Global, st: &ChartState) -> Result<Params, OutOfMemory>
    ensures { IfOk result (λ params. params ≡ record { params = st.now.params; stores = st.now.stores }) }
{
    Ok(Params {
        params: copy_list(alloc, st.params.as_slice())?,
        stores: copy_list(alloc, st.stores.as_slice())?,
    })
}

// Draws the chart with these values of the parameters, and puts them in place. Where it can't be drawn, or memory is refused, all stays.
fn put_params(
    alloc: Global,
    g: &VgSpec,
    st: &mut ChartState,
    drawing: &mut Drawing,
    params: Seq<(Text, Cell)>,
) -> Result<Reply, OutOfMemory>
    requires kept { IsKept g.now st.old drawing.old }
    requires names { param_names params ≡ settable_names (vega_semantics g.now).params }
    ensures reply { IfOk result (λ reply. reply ≡ reply_to_chart (picture_over g.now (map dataset_of st.old.sources) params st.old.stores)) }
    ensures done { IfOk result (λ reply. state_of st.new ≡ state_if_put reply (state_of st.old) params) }
    ensures memory { OnErr result (st.new ≡ st.old) }
    ensures kept { IsKept g.now st.new drawing.new }
{
    match picture_over(
        alloc,
        g,
        st.sources.as_slice(),
        params.as_slice(),
        st.stores.as_slice(),
    ) {
        Ok(drawn) => {
            st.params = params;
            *drawing = drawn;
            Ok(Reply::Done)
        }
        Err(OpenError::Overflow) => Ok(Reply::Refused(Cause::Overflow)),
        Err(OpenError::Panels(_)) => Ok(Reply::Refused(Cause::Limit)),
        Err(OpenError::Memory) => Err(OutOfMemory),
    }
}

/// Gives a value to a parameter, over a state of a specification and what is drawn of that. Where it is refused, or memory is, all stays.
pub fn set_param(
    alloc: Global,
    g: &VgSpec,
    st: &mut ChartState,
    drawing: &mut Drawing,
    name: &str,
    value: &Cell,
) -> Result<Reply, OutOfMemory>
    requires kept { IsKept g.now st.old drawing.old }
    ensures reply { IfOk result (λ reply. reply ≡ reply_to_set (vega_semantics g.now) (state_of st.old) name.now value.now) }
    ensures done { IfOk result (λ reply. state_of st.new
        ≡ state_if reply (state_of st.old) (Some (state_set (state_of st.old) name.now value.now))) }
    ensures memory { OnErr result (st.new ≡ st.old) }
    ensures kept { IsKept g.now st.new drawing.new }
{
    let now = params_of(alloc, st)?;
    let given = value.copy()?;
    match set(alloc, g, &now, name, given) {
        Ok(next) => put_params(alloc, g, st, drawing, next.params),
        Err(ParamError::NoSuchName) => Ok(Reply::Refused(Cause::Name)),
        Err(ParamError::Computed) => Ok(Reply::Refused(Cause::Name)),
        Err(ParamError::Memory) => Err(OutOfMemory),
    }
}

// The plan of a specification, written down.
ghost use Rattle.std.specs.Prelude.{◌≡◌, IfOk};
ghost use Rattle.vega_compile.specs.Compiled.{assembled};

use chart_plan::plan_of;
use std::alloc::Global;
use text_kit::OutOfMemory;
use vega_assemble::written;
use vega_spec::VgSpec;
use vl_spec::VlSpec;

/// The Vega specification of a Vega-Lite specification: its plan written down. Its sources and its parameters have the names of the specification,
/// and the names that it makes besides differ from every name that the specification mentions. In time near linear in the specification for a given
/// number of units; expressions are as high as the logarithm of the longest list. The one error is that memory is refused.
pub fn assemble(alloc: Global, s: &VlSpec) -> Result<VgSpec, OutOfMemory>
    ensures { IfOk result (λ g. g ≡ assembled s.now) }
{
    let plan = plan_of(alloc, s)?;
    written(alloc, s, &plan)
}

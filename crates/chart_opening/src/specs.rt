//! Which Vega specification a tree says.
ghost use Rattle.std.specs.Prelude.{◌≡◌, is_none, Ok, Err, IfOk, codes};
ghost use Rattle.spec_schema.specs.declared.spec_error.SpecKind.TheVariants.{Wrong};
ghost use Rattle.vega_writing.specs.Spec.{tree_of};
ghost use Rattle.vega_model.specs.Faults.{first_fault_of};
ghost use Rattle.vega_model.specs.Reading.{read_of};
ghost use Rattle.first_form.specs.FirstForm.{form_of};
ghost use Rattle.chart_opening.specs.Compiled.{if_readable, compiled_vl, compiled_of};
ghost use Rattle.chart_opening.specs.Specs.{not_drawn_yet, vega_read, is_kept, if_kept, compiled_form, vl_read, vl_spec_of, spec_of};
ghost use Rattle.chart_opening.specs.declared.refusal.Refusal.TheVariants.{Spec};
ghost use Rattle.chart_opening.specs.declared.refusal.StepStop.TheVariants.{Refused};
ghost use Rattle.chart_opening.specs.inner.Stops.{Gives};

use crate::refusal::{Refusal, StepStop};
use crate::schemas::is_vega;
use first_form::{bars_of, first_form};
use json_exact::Json;
use selection_rules::keeps_selections;
use spec_schema::{SpecError, SpecKind};
use std::alloc::Global;
use text_kit::{OutOfMemory, Text};
use vega_compile::assemble;
use vega_copies::keeps_rules;
use vega_spec::VgSpec;
use vl_spec::VlSpec;

// Why a Vega-Lite specification is refused whose chart isn't drawn yet.
fn not_drawn_yet(alloc: Global) -> StepStop
    ensures { result ≡ Refused not_drawn_yet }
{
    StepStop::Refused(Refusal::Spec(SpecKind::Unsupported, Text::new(alloc)))
}

// The Vega specification that a tree says, or its first fault.
fn vega_read(alloc: Global, tree: &Json) -> Result<VgSpec, StepStop>
    ensures { Gives result (vega_read (read_of tree.now)) }
{
    match vega_model::read(alloc, tree) {
        Ok(g) => Ok(g),
        Err(SpecError::Fault { path, kind }) => Err(StepStop::Refused(Refusal::Spec(kind, path))),
        Err(SpecError::Memory) => Err(StepStop::Memory),
    }
}

// Whether a specification keeps what charts ask.
fn is_kept(alloc: Global, g: &VgSpec) -> Result<bool, OutOfMemory>
    ensures { IfOk result (λ is. is ≡ is_kept g.now) }
{
    if keeps_rules(alloc, g)? {
        keeps_selections(alloc, g)
    } else {
        Ok(false)
    }
}

// A specification, where it keeps what charts ask.
fn if_kept(alloc: Global, g: VgSpec) -> Result<VgSpec, StepStop>
    ensures { Gives result (if_kept g) }
{
    if is_kept(alloc, &g)? {
        Ok(g)
    } else {
        Err(not_drawn_yet(alloc))
    }
}

// The Vega specification to which a Vega-Lite specification is compiled, where it keeps what charts ask.
#[tactic(auto, unfolding(crate::specs::Specs::compiled_form))]
fn compiled_form(alloc: Global, s: &VlSpec) -> Result<VgSpec, StepStop>
    ensures { Gives result (compiled_form s.now) }
{
    let g = assemble(alloc, s)?;
    if_kept(alloc, g)
}

// The Vega specification of a Vega-Lite specification that a tree says.
fn vl_drawn(alloc: Global, s: &VlSpec, tree: &Json) -> Result<VgSpec, StepStop>
    ensures { Gives result (vl_read (Ok s.now) (form_of tree.now)) }
{
    match first_form(alloc, tree)? {
        Some(form) => Ok(bars_of(alloc, &form)?),
        None => compiled_form(alloc, s),
    }
}

// The Vega specification that a Vega-Lite tree says, or its first fault.
fn vl_spec_of(alloc: Global, tree: &Json) -> Result<VgSpec, StepStop>
    ensures { Gives result (vl_spec_of tree.now) }
{
    match vl_model::read(alloc, tree) {
        Ok(s) => vl_drawn(alloc, &s, tree),
        Err(SpecError::Fault { path, kind }) => Err(StepStop::Refused(Refusal::Spec(kind, path))),
        Err(SpecError::Memory) => Err(StepStop::Memory),
    }
}

/// The Vega specification of a tree: its own where it says that it is one, else that of a Vega-Lite specification. The tree is let go.
pub fn spec_of(alloc: Global, tree: Json) -> Result<VgSpec, StepStop>
    ensures { Gives result (spec_of tree) }
{
    if is_vega(&tree) {
        vega_read(alloc, &tree)
    } else {
        vl_spec_of(alloc, &tree)
    }
}

// Why a Vega specification isn't compiled.
fn not_compiled(alloc: Global) -> Result<VgSpec, StepStop>
    ensures { Gives result (Err (Spec Wrong (codes "/$schema"))) }
{
    let path = Text::of(alloc, "/$schema")?;
    Err(StepStop::Refused(Refusal::Spec(SpecKind::Wrong, path)))
}

// Whether the tree that is written of a specification has no fault.
fn is_readable(alloc: Global, g: &VgSpec) -> Result<bool, OutOfMemory>
    ensures { IfOk result (λ is. is ≡ is_none (first_fault_of (tree_of g.now))) }
{
    let tree = vega_model::write(alloc, g)?;
    Ok(vega_model::first_fault_of(alloc, &tree)?.is_none())
}

// A compiled specification, unless the tree that is written of it has a fault.
fn if_readable(alloc: Global, g: VgSpec) -> Result<VgSpec, StepStop>
    ensures { Gives result (if_readable g) }
{
    if is_readable(alloc, &g)? {
        Ok(g)
    } else {
        Err(not_drawn_yet(alloc))
    }
}

// The Vega specification to which a Vega-Lite tree is compiled.
fn compiled_vl(alloc: Global, tree: &Json) -> Result<VgSpec, StepStop>
    ensures { Gives result (compiled_vl tree.now) }
{
    match vl_spec_of(alloc, tree) {
        Ok(g) => if_readable(alloc, g),
        Err(why) => Err(why),
    }
}

/// The Vega specification to which a tree is compiled. A Vega specification isn't compiled, whatever else it holds. The tree is let go.
pub fn compiled_of(alloc: Global, tree: Json) -> Result<VgSpec, StepStop>
    ensures { Gives result (compiled_of tree) }
{
    if is_vega(&tree) {
        not_compiled(alloc)
    } else {
        compiled_vl(alloc, &tree)
    }
}

//! Reading a specification.
ghost use Rattle.std.specs.Prelude.{IfOk};
ghost use Rattle.text_kit.specs.Answer.{GivesAs};
ghost use Rattle.vl_rules.specs.Kept.{IsKept};
ghost use Rattle.vl_model.specs.Reading.{read_of, cause};

use crate::faults::fault_beside;
use json_exact::Json;
use spec_schema::SpecError;
use std::alloc::Global;
use vl_building::spec_of;
use vl_rules::kept_where_faultless;
use vl_spec::VlSpec;

/// The specification that a tree says. `Fault` comes exactly where the tree breaks a rule of Vega-Lite specifications, with the path and
/// the kind of its first fault in the order of the text. What is answered keeps all rules.
#[tactic(auto, unfolding(crate::specs::Faults::first_fault_of))]
pub fn read(alloc: Global, tree: &Json) -> Result<VlSpec, SpecError>
    ensures answer { GivesAs (λ s. s) cause result (read_of tree.now) }
    ensures kept { IfOk result IsKept }
{
    kept_where_faultless();
    let spec = spec_of(alloc, tree)?;
    match fault_beside(alloc, tree, &spec)? {
        Some(fault) => Err(SpecError::Fault {
            path: fault.path,
            kind: fault.kind,
        }),
        None => Ok(spec),
    }
}

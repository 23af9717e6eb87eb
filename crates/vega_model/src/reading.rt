//! Reading a specification.
ghost use Rattle.text_kit.specs.Answer.{GivesAs};
ghost use Rattle.vega_model.specs.Reading.{read_of, cause};

use crate::faults::first_fault_of;
use json_exact::Json;
use spec_schema::SpecError;
use std::alloc::Global;
use vega_building::spec_of;
use vega_spec::VgSpec;

/// The specification that a tree says. `Fault` comes exactly where the tree breaks a rule of Vega specifications, with the path and
/// the kind of its first fault in the order of the text.
pub fn read(alloc: Global, tree: &Json) -> Result<VgSpec, SpecError>
    ensures { GivesAs (λ g. g) cause result (read_of tree.now) }
{
    match first_fault_of(alloc, tree)? {
        Some(fault) => Err(SpecError::Fault {
            path: fault.path,
            kind: fault.kind,
        }),
        None => Ok(spec_of(alloc, tree)?),
    }
}

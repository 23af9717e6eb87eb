// The format of labels that aren't given one.
ghost use Rattle.std.specs.Prelude.{◌≡◌, map, IfOk};
ghost use Rattle.guide_infer.specs.Labels.{unit_shown, pattern_of, format_by, default_format};

use crate::said::first_field;
use crate::titles::has_bins;
use case_table::unit_rule;
use std::alloc::Global;
use text_kit::{OutOfMemory, Text};
use vl_spec::Definition;

// The unit of time that a definition shows its field in.
fn unit_shown(definition: &Definition) -> Option<u16>
    ensures { result ≡ unit_shown definition.now }
{
    match definition {
        Definition::Value(_) => None,
        Definition::Datum(_) => None,
        Definition::Field(of) => {
            if of.aggregate.is_some() || has_bins(&of.bin) {
                None
            } else {
                of.time_unit
            }
        }
    }
}

// The pattern of a unit of time by its code.
#[tactic(auto, unfolding(crate::specs::Labels::pattern_of))]
fn pattern_of(alloc: Global, code: u16) -> Result<Option<Text>, OutOfMemory>
    ensures { IfOk result (λ pattern. pattern ≡ pattern_of code) }
{
    match unit_rule(code) {
        Some(unit) => Text::of(alloc, unit.label).map(Some),
        None => Ok(None),
    }
}

// The format by a definition.
fn format_by(alloc: Global, definition: &Definition) -> Result<Option<Text>, OutOfMemory>
    ensures { IfOk result (λ format. format ≡ format_by definition.now) }
{
    match unit_shown(definition) {
        Some(code) => pattern_of(alloc, code),
        None => Ok(None),
    }
}

/// The format of labels by the definitions that share an axis or a legend.
pub(crate) fn default_format(
    alloc: Global,
    definitions: &[&Definition],
) -> Result<Option<Text>, OutOfMemory>
    ensures { IfOk result (λ format. format ≡ default_format (map (λ d. d.now) definitions.now)) }
{
    match first_field(definitions) {
        Some(definition) => format_by(alloc, definition),
        None => Ok(None),
    }
}

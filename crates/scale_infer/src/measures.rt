// The measure of a unit.
ghost use Rattle.std.specs.Prelude.{◌≡◌, option_copied};
ghost use Rattle.scale_infer.specs.Measures.{x_wins, x_over, x_is_measure};

use crate::types::{is_aggregated, is_binned, is_continuous, is_temporal, type_of};
use vl_spec::Definition;

// Whether the first of two continuous directions, x and y, is the measure.
fn x_wins(x: &Definition, y: &Definition) -> bool
    ensures { result ≡ x_wins x.now y.now }
{
    is_aggregated(x) && !is_aggregated(y)
        || is_temporal(type_of(y)) && !is_temporal(type_of(x))
        || is_binned(y) && !is_binned(x)
}

// Whether x is the measure, where both have a definition.
fn x_over(x: &Definition, y: &Definition) -> bool
    ensures { result ≡ x_over x.now y.now }
{
    is_continuous(type_of(x)) && (!is_continuous(type_of(y)) || x_wins(x, y))
}

/// Whether x is the measure of a unit, by the first definitions of x and of y that have a scale; else y is.
pub fn x_is_measure(x: Option<&Definition>, y: Option<&Definition>) -> bool
    ensures { result ≡ x_is_measure (option_copied x.entry) (option_copied y.entry) }
{
    match x {
        None => false,
        Some(x) => match y {
            None => is_continuous(type_of(x)),
            Some(y) => x_over(x, y),
        },
    }
}

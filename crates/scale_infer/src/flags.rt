// Whether domains take in 0, and whether they end at round numbers.
ghost use Rattle.std.specs.Prelude.{◌≡◌, unwrap_or};
ghost use Rattle.std.specs.List.{list_any};
ghost use Rattle.scale_infer.specs.Said.{is_unbound};
ghost use Rattle.scale_infer.specs.Flags.{is_open, is_run, is_runner, is_dimension, runs_along, takes_zero, default_zero, default_nice, zero_said, nice_said};

use crate::kinds::is_place;
use crate::said::{Said, first_nice, first_zero, is_unbound};
use crate::sharers::Sharer;
use vl_normalize::{SIZE, X};
use vl_spec::MarkType;

// Whether numbers are unbound.
fn any_is_unbound(said: &[Said]) -> bool
    ensures { result ≡ list_any is_unbound said.now }
{
    for one in said {
        if is_unbound(one) {
            return true;
        }
    }
    false
}

// Whether numbers of a unit are unbound.
fn is_open(sharer: &Sharer) -> bool
    ensures { result ≡ is_open sharer.now }
{
    any_is_unbound(sharer.says.as_slice())
}

// Whether a mark runs along its dimension.
fn is_run(mark: MarkType) -> bool
    ensures { result ≡ is_run mark }
{
    match mark {
        MarkType::Bar | MarkType::Line | MarkType::Area => true,
        MarkType::Rect
        | MarkType::Point
        | MarkType::Circle
        | MarkType::Square
        | MarkType::Tick
        | MarkType::Rule
        | MarkType::Text => false,
    }
}

// Whether a unit has such a mark.
fn is_runner(sharer: &Sharer) -> bool
    ensures { result ≡ is_runner sharer.now }
{
    match sharer.mark {
        Some(mark) => is_run(mark),
        None => false,
    }
}

// Whether x, or else y, is the dimension of a unit.
fn is_dimension(channel: u16, sharer: &Sharer) -> bool
    ensures { result ≡ is_dimension channel sharer.now }
{
    if channel == X {
        !sharer.x_is_measure
    } else {
        sharer.x_is_measure
    }
}

// Whether a unit runs along x, or else y.
fn runs_along(channel: u16, sharer: &Sharer) -> bool
    ensures { result ≡ runs_along channel sharer.now }
{
    is_runner(sharer) && is_dimension(channel, sharer)
}

// Whether a unit lets the domain of x, or else y, take in 0.
fn takes_zero(channel: u16, sharer: &Sharer) -> bool
    ensures { result ≡ takes_zero channel sharer.now }
{
    is_open(sharer) && !runs_along(channel, sharer)
}

// Whether one of several units does.
fn any_takes_zero(channel: u16, sharers: &[Sharer]) -> bool
    ensures { result ≡ list_any (takes_zero channel) sharers.now }
{
    for sharer in sharers {
        if takes_zero(channel, sharer) {
            return true;
        }
    }
    false
}

// Whether numbers of one of several units are unbound.
fn any_is_open(sharers: &[Sharer]) -> bool
    ensures { result ≡ list_any is_open sharers.now }
{
    for sharer in sharers {
        if is_open(sharer) {
            return true;
        }
    }
    false
}

// Whether a domain takes in 0 where no definition says it.
fn default_zero(channel: u16, sharers: &[Sharer]) -> bool
    ensures { result ≡ default_zero channel sharers.now }
{
    channel == SIZE || (is_place(channel) && any_takes_zero(channel, sharers))
}

// Whether it ends at round numbers where no definition says it.
fn default_nice(channel: u16, sharers: &[Sharer]) -> bool
    ensures { result ≡ default_nice channel sharers.now }
{
    is_place(channel) && any_is_open(sharers)
}

/// Whether the domain of a scale takes in 0, by the units that share it and what all their definitions say.
pub(crate) fn zero_of(channel: u16, sharers: &[Sharer], said: &[Said]) -> bool
    ensures { result ≡ unwrap_or (zero_said said.now) (default_zero channel sharers.now) }
{
    match first_zero(said) {
        Some(zero) => zero,
        None => default_zero(channel, sharers),
    }
}

/// Whether it ends at round numbers.
pub(crate) fn nice_of(channel: u16, sharers: &[Sharer], said: &[Said]) -> bool
    ensures { result ≡ unwrap_or (nice_said said.now) (default_nice channel sharers.now) }
{
    match first_nice(said) {
        Some(nice) => nice,
        None => default_nice(channel, sharers),
    }
}

// What definitions say of an axis or of a legend, member by member.
ghost use Rattle.std.specs.Prelude.{◌≡◌, map, option_map, IfOk};
ghost use Rattle.guide_infer.specs.First.{first_given};

use cell_value::Cell;
use fixed_num::Num;
use std::alloc::Global;
use text_kit::{Copies, OutOfMemory, Seq, Text};
use vl_spec::{Axis, Legend, Side};

/// The first `orient` of an axis that is given.
pub(crate) fn first_orient(said: &[&Axis]) -> Option<Side>
    ensures { result ≡ first_given (λ a. a.orient) (map (λ a. a.now) said.now) }
{
    for one in said {
        match one.orient {
            Some(given) => return Some(given),
            None => {}
        }
    }
    None
}

/// The first `labels` of an axis that is given.
pub(crate) fn first_labels(said: &[&Axis]) -> Option<bool>
    ensures { result ≡ first_given (λ a. a.labels) (map (λ a. a.now) said.now) }
{
    for one in said {
        match one.labels {
            Some(given) => return Some(given),
            None => {}
        }
    }
    None
}

/// The first `ticks` of an axis that is given.
pub(crate) fn first_ticks(said: &[&Axis]) -> Option<bool>
    ensures { result ≡ first_given (λ a. a.ticks) (map (λ a. a.now) said.now) }
{
    for one in said {
        match one.ticks {
            Some(given) => return Some(given),
            None => {}
        }
    }
    None
}

/// The first `domain` of an axis that is given.
pub(crate) fn first_line(said: &[&Axis]) -> Option<bool>
    ensures { result ≡ first_given (λ a. a.domain) (map (λ a. a.now) said.now) }
{
    for one in said {
        match one.domain {
            Some(given) => return Some(given),
            None => {}
        }
    }
    None
}

/// The first `grid` of an axis that is given.
pub(crate) fn first_grid(said: &[&Axis]) -> Option<bool>
    ensures { result ≡ first_given (λ a. a.grid) (map (λ a. a.now) said.now) }
{
    for one in said {
        match one.grid {
            Some(given) => return Some(given),
            None => {}
        }
    }
    None
}

/// The first `label_angle` of an axis that is given.
pub(crate) fn first_angle(said: &[&Axis]) -> Option<Num>
    ensures { result ≡ first_given (λ a. a.label_angle) (map (λ a. a.now) said.now) }
{
    for one in said {
        match one.label_angle {
            Some(given) => return Some(given),
            None => {}
        }
    }
    None
}

/// The first `tick_count` of an axis that is given.
pub(crate) fn first_count(said: &[&Axis]) -> Option<Num>
    ensures { result ≡ first_given (λ a. a.tick_count) (map (λ a. a.now) said.now) }
{
    for one in said {
        match one.tick_count {
            Some(given) => return Some(given),
            None => {}
        }
    }
    None
}

// The first `values` of an axis that are given, lent.
fn values_lent<'s>(said: &[&'s Axis]) -> Option<&'s Seq<Cell>>
    ensures { option_map (λ v. v.now) result ≡ first_given (λ a. a.values) (map (λ a. a.now) said.now) }
{
    for one in said {
        match &one.values {
            Some(given) => return Some(given),
            None => {}
        }
    }
    None
}

/// The first `values` of an axis that are given.
pub(crate) fn first_values(alloc: Global, said: &[&Axis]) -> Result<Option<Seq<Cell>>, OutOfMemory>
    ensures { IfOk result (λ values. values ≡ first_given (λ a. a.values) (map (λ a. a.now) said.now)) }
{
    match values_lent(said) {
        Some(values) => values.copied(alloc).map(Some),
        None => Ok(None),
    }
}

// The first `format` of an axis that is given, lent.
fn format_lent<'s>(said: &[&'s Axis]) -> Option<&'s Text>
    ensures { option_map (λ f. f.now) result ≡ first_given (λ a. a.format) (map (λ a. a.now) said.now) }
{
    for one in said {
        match &one.format {
            Some(given) => return Some(given),
            None => {}
        }
    }
    None
}

/// The first `format` of an axis that is given.
pub(crate) fn first_format(said: &[&Axis]) -> Result<Option<Text>, OutOfMemory>
    ensures { IfOk result (λ format. format ≡ first_given (λ a. a.format) (map (λ a. a.now) said.now)) }
{
    match format_lent(said) {
        Some(format) => format.copy().map(Some),
        None => Ok(None),
    }
}

// The first `format` of a legend that is given, lent.
fn legend_format_lent<'s>(said: &[&'s Legend]) -> Option<&'s Text>
    ensures { option_map (λ f. f.now) result ≡ first_given (λ l. l.format) (map (λ l. l.now) said.now) }
{
    for one in said {
        match &one.format {
            Some(given) => return Some(given),
            None => {}
        }
    }
    None
}

/// The first `format` of a legend that is given.
pub(crate) fn first_legend_format(said: &[&Legend]) -> Result<Option<Text>, OutOfMemory>
    ensures { IfOk result (λ format. format ≡ first_given (λ l. l.format) (map (λ l. l.now) said.now)) }
{
    match legend_format_lent(said) {
        Some(format) => format.copy().map(Some),
        None => Ok(None),
    }
}

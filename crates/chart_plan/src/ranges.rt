// What scales give.
ghost use Rattle.std.specs.Prelude.{◌≡◌, None, map, option_map, unwrap_or, pos, IfOk};
ghost use Rattle.std.specs.Option.{option_map_or};
ghost use Rattle.guide_infer.specs.First.{first_given};
ghost use Rattle.chart_plan.specs.Ranges.{with_end, between, two_numbers, given_ends, given_entries, scheme_range, scheme_colors, two_opacities};
ghost use Rattle.chart_plan.specs.Ranges.{default_entries, default_ends, range_of, reverse_of, runs_up, rises};

use cell_value::Cell;
use fixed_num::Num;
use guide_infer::is_continuous;
use plan_kit::RangePlan;
use scale_infer::{ORDINAL, RAMP};
use std::alloc::Global;
use text_kit::{Copies, OutOfMemory, Seq};
use vl_normalize::{OPACITY, SHAPE, SIZE, Y};
use vl_spec::{Scale, Scheme};

// The number of so many millionths.
fn millionths(count: u32) -> Num
    ensures { result ≡ pos count }
{
    match Num::of_millionths(i128::from(count)) {
        Some(number) => number,
        None => unreachable!(),
    }
}

// A range from a number to that of a cell.
fn with_end(from: Num, to: &Cell) -> Option<RangePlan>
    ensures { result ≡ with_end from to.now }
{
    match to {
        Cell::Number(to) => Some(RangePlan::Between(from, *to)),
        Cell::Null | Cell::Flag(_) | Cell::Text(_) | Cell::Pair(_, _) => None,
    }
}

// A range between the numbers of two cells.
fn between(from: &Cell, to: &Cell) -> Option<RangePlan>
    ensures { result ≡ between from.now to.now }
{
    match from {
        Cell::Number(from) => with_end(*from, to),
        Cell::Null | Cell::Flag(_) | Cell::Text(_) | Cell::Pair(_, _) => None,
    }
}

// The range of a list of two numbers.
fn two_numbers(cells: &[Cell]) -> Option<RangePlan>
    ensures { result ≡ two_numbers cells.now }
{
    let [from, to] = cells else {
        return None;
    };
    between(from, to)
}

// That of a list that may be absent.
fn ends_said(range: &Option<Seq<Cell>>) -> Option<RangePlan>
    ensures { result ≡ option_map_or two_numbers range.now None }
{
    match range {
        Some(cells) => two_numbers(cells.as_slice()),
        None => None,
    }
}

// The first range that is given and has two numbers.
fn given_ends(said: &[&Scale]) -> Option<RangePlan>
    ensures { result ≡ given_ends (map (λ s. s.now) said.now) }
{
    for one in said {
        match ends_said(&one.range) {
            Some(range) => return Some(range),
            None => {}
        }
    }
    None
}

// The first range that is given, lent.
fn range_lent<'s>(said: &[&'s Scale]) -> Option<&'s Seq<Cell>>
    ensures { option_map (λ r. r.now) result ≡ first_given (λ s. s.range) (map (λ s. s.now) said.now) }
{
    for one in said {
        match &one.range {
            Some(given) => return Some(given),
            None => {}
        }
    }
    None
}

// The first scheme that is given.
fn first_scheme(said: &[&Scale]) -> Option<Scheme>
    ensures { result ≡ first_given (λ s. s.scheme) (map (λ s. s.now) said.now) }
{
    for one in said {
        match one.scheme {
            Some(given) => return Some(given),
            None => {}
        }
    }
    None
}

// The first `reverse` that is given.
fn first_reverse(said: &[&Scale]) -> Option<bool>
    ensures { result ≡ first_given (λ s. s.reverse) (map (λ s. s.now) said.now) }
{
    for one in said {
        match one.reverse {
            Some(given) => return Some(given),
            None => {}
        }
    }
    None
}

// The colours of a scheme.
fn scheme_range(scheme: Scheme) -> RangePlan
    ensures { result ≡ scheme_range scheme }
{
    match scheme {
        Scheme::Tableau10 => RangePlan::Colors,
        Scheme::Blues => RangePlan::Blues,
    }
}

// The colours that are in turn where no list is given.
fn scheme_colors(said: &[&Scale]) -> RangePlan
    ensures { result ≡ scheme_colors (map (λ s. s.now) said.now) }
{
    match first_scheme(said) {
        Some(scheme) => scheme_range(scheme),
        None => RangePlan::Colors,
    }
}

// The opacities that are in turn where no list is given.
fn two_opacities(alloc: Global) -> Result<RangePlan, OutOfMemory>
    ensures { IfOk result (λ range. range ≡ two_opacities) }
{
    let mut cells = Seq::with_capacity(alloc, 2)?;
    cells.push(Cell::Number(millionths(300_000)))?;
    cells.push(Cell::Number(millionths(800_000)))?;
    Ok(RangePlan::Entries(cells))
}

// What a scale gives in turn where no list is given.
fn default_entries(alloc: Global, channel: u16, said: &[&Scale]) -> Result<RangePlan, OutOfMemory>
    ensures { IfOk result (λ range. range ≡ default_entries channel (map (λ s. s.now) said.now)) }
{
    if channel == OPACITY {
        two_opacities(alloc)
    } else if channel == SHAPE {
        Ok(RangePlan::Signs)
    } else {
        Ok(scheme_colors(said))
    }
}

// What a scale of places or amounts gives where no two numbers are given.
fn default_ends(channel: u16) -> RangePlan
    ensures { result ≡ default_ends channel }
{
    if channel == OPACITY {
        RangePlan::Between(millionths(300_000), millionths(800_000))
    } else if channel == SIZE {
        RangePlan::Between(millionths(0), millionths(361_000_000))
    } else if channel == SHAPE {
        RangePlan::Between(millionths(0), millionths(1_000_000))
    } else {
        RangePlan::Across
    }
}

// What a scale gives in turn.
fn entries_of(alloc: Global, channel: u16, said: &[&Scale]) -> Result<RangePlan, OutOfMemory>
    ensures { IfOk result (λ range. range
        ≡ unwrap_or (given_entries (map (λ s. s.now) said.now)) (default_entries channel (map (λ s. s.now) said.now))) }
{
    match range_lent(said) {
        Some(cells) => Copies::copied(cells, alloc).map(RangePlan::Entries),
        None => default_entries(alloc, channel, said),
    }
}

// What a scale of places or amounts gives.
fn ends_of(channel: u16, said: &[&Scale]) -> RangePlan
    ensures { result ≡ unwrap_or (given_ends (map (λ s. s.now) said.now)) (default_ends channel) }
{
    match given_ends(said) {
        Some(range) => range,
        None => default_ends(channel),
    }
}

/// What a scale of a kind gives in a channel, by what its definitions say of scales.
pub(crate) fn range_of(
    alloc: Global,
    channel: u16,
    kind: u16,
    said: &[&Scale],
) -> Result<RangePlan, OutOfMemory>
    ensures { IfOk result (λ range. range ≡ range_of channel kind (map (λ s. s.now) said.now)) }
{
    if kind == RAMP {
        Ok(RangePlan::Blues)
    } else if kind == ORDINAL {
        entries_of(alloc, channel, said)
    } else {
        Ok(ends_of(channel, said))
    }
}

/// Whether a range is turned round.
pub(crate) fn reverse_of(said: &[&Scale]) -> bool
    ensures { result ≡ reverse_of (map (λ s. s.now) said.now) }
{
    match first_reverse(said) {
        Some(reverse) => reverse,
        None => false,
    }
}

// Whether a range rises, before it is turned round.
fn runs_up(channel: u16, kind: u16, range: &RangePlan) -> bool
    ensures { result ≡ runs_up channel kind range.now }
{
    match range {
        RangePlan::Across => !(channel == Y && is_continuous(kind)),
        RangePlan::Between(from, to) => from.millionths() <= to.millionths(),
        RangePlan::Entries(_) | RangePlan::Colors | RangePlan::Blues | RangePlan::Signs => true,
    }
}

/// Whether a range rises, turned round where that is asked.
pub(crate) fn rises(channel: u16, kind: u16, range: &RangePlan, reverse: bool) -> bool
    ensures { result ≡ rises channel kind range.now reverse }
{
    if reverse {
        !runs_up(channel, kind, range)
    } else {
        runs_up(channel, kind, range)
    }
}

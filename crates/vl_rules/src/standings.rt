//! Which scales units share, and whether these have places for intervals.
ghost use Rattle.std.specs.Prelude.{◌≡◌, false, map, option_map, IfOk};
ghost use Rattle.std.specs.Option.{option_map_or};
ghost use Rattle.std.specs.List.{list_all};
ghost use Rattle.vl_compose.specs.Sharing.{is_independent as is_independent_sharing, sharing_said};
ghost use Rattle.vl_compose.specs.Shown.{round_shown, view_shown};
ghost use Rattle.vl_compose.specs.Units.{last_view};
ghost use Rattle.scale_infer.specs.Types.{is_continuous as is_on_line, type_of as type_shown};
ghost use Rattle.vl_compose.specs.inner.Said.{said_among};
ghost use Rattle.scale_infer.specs.Scales.{first_definition};
ghost use Rattle.vl_rules.specs.Parts.{facet_among};
ghost use Rattle.vl_rules.specs.Standings.{keeps_apart, own_number, own_part, home_at, same_home, opens_at, standing_at, opens_for, on_line, said_at};
ghost use Rattle.vl_rules.specs.inner.Shown.{marked_shown, part_shown};

use crate::marked::Marked;
use crate::parts::Part;
use crate::units::{has_channel, is_pointed};
use scale_infer::{is_continuous, type_of};
use std::alloc::Global;
use text_kit::{OutOfMemory, Seq};
use vl_compose::{ViewHere, definitions_at, home_of};
use vl_normalize::{COLUMN, FACET, ROW};
use vl_spec::{ChannelOf, Definition, Resolve, Sharing, SharingOf};

/// Up to where a scale is shared.
#[derive(Clone, Copy)]
pub struct Home {
    /// The number of a view among all views.
    pub view: usize,
    /// 1 for the points of a line that share it with nothing, else 0.
    pub part: usize,
}

/// How a unit stands to the scale of a channel.
#[derive(Clone, Copy)]
pub struct Standing {
    /// Up to where it shares it.
    pub home: Home,
    /// Whether its first definition shows cells on a line; None where it has no definition on a scale.
    pub opens: Option<bool>,
}

// Whether some channels part rows.
fn has_facet(channels: &[&ChannelOf]) -> bool
    ensures { result ≡ facet_among (map (λ c. c.now) channels.now) }
{
    has_channel(channels, ROW) || has_channel(channels, COLUMN) || has_channel(channels, FACET)
}

// What entries say of a channel.
fn said_among(entries: &[SharingOf], code: u16) -> Option<Sharing>
    ensures { result ≡ said_among entries.now code }
{
    for entry in entries {
        if entry.channel == code {
            return Some(entry.sharing);
        }
    }
    None
}

// Whether what is said is that scales are independent.
fn is_independent(said: Option<Sharing>) -> bool
    ensures { result ≡ option_map_or is_independent_sharing said false }
{
    match said {
        Some(Sharing::Independent) => true,
        Some(Sharing::Shared) | None => false,
    }
}

// What a view says of a channel.
fn sharing_said(resolve: &Option<Resolve>, code: u16) -> Option<Sharing>
    ensures { result ≡ sharing_said resolve.now code }
{
    match resolve {
        Some(
            Resolve {
                scale: Some(entries),
            },
        ) => said_among(entries.as_slice(), code),
        _ => None,
    }
}

// The last of some views.
fn last_view<'s>(round: &[ViewHere<'s>]) -> Option<ViewHere<'s>>
    ensures { option_map view_shown result ≡ last_view (round_shown round.now) }
{
    let mut last = None;
    for here in round {
        last = Some(*here);
    }
    last
}

// What a unit itself says of a channel.
fn said_by(unit: &Marked, code: u16) -> Option<Sharing>
    ensures { result ≡ said_at code (marked_shown unit.now) }
{
    match last_view(unit.round.as_slice()) {
        Some(here) => sharing_said(&here.view.resolve, code),
        None => None,
    }
}

// The number of a unit among all views.
fn own_number(unit: &Marked) -> usize
    ensures { result ≡ own_number (marked_shown unit.now) }
{
    match last_view(unit.round.as_slice()) {
        Some(here) => here.number,
        None => 0,
    }
}

// Whether a unit keeps the scale of a channel for itself.
fn keeps_apart(code: u16, unit: &Marked) -> bool
    ensures { result ≡ keeps_apart code (marked_shown unit.now) }
{
    (has_facet(unit.channels.as_slice()) || is_pointed(unit.mark))
        && is_independent(said_by(unit, code))
}

// The part of a unit that keeps a scale apart.
fn own_part(part: &Part) -> usize
    ensures { result ≡ own_part (part_shown part.now) }
{
    if has_facet(part.unit.channels.as_slice()) {
        0
    } else {
        part.number
    }
}

/// Up to where a unit shares the scale of a channel.
pub fn home_at(code: u16, part: &Part) -> Home
    ensures { result ≡ home_at code (part_shown part.now) }
{
    if keeps_apart(code, &part.unit) {
        Home {
            view: own_number(&part.unit),
            part: own_part(part),
        }
    } else {
        Home {
            view: home_of(part.unit.round.as_slice(), code),
            part: 0,
        }
    }
}

/// Whether scales are shared up to the same.
pub fn same_home(a: Home, b: Home) -> bool
    ensures { result ≡ same_home a b }
{
    a.view == b.view && a.part == b.part
}

// Whether a definition shows cells on a line.
fn is_linear(definition: &Definition) -> bool
    ensures { result ≡ is_on_line (type_shown definition.now) }
{
    is_continuous(type_of(definition))
}

// Whether the first of some definitions shows cells on a line.
fn first_is_linear(definitions: &[&Definition]) -> Option<bool>
    ensures { result ≡ option_map (λ d. is_on_line (type_shown d)) (first_definition (map (λ d. d.now) definitions.now)) }
{
    match definitions {
        [first, ..] => Some(is_linear(first)),
        [] => None,
    }
}

// Whether the first definition of a channel that has a scale shows cells on a line.
fn opens_at(alloc: Global, code: u16, part: &Part) -> Result<Option<bool>, OutOfMemory>
    ensures { IfOk result (λ opens. opens ≡ opens_at code (part_shown part.now)) }
{
    let definitions = definitions_at(alloc, part.channels.as_slice(), code)?;
    Ok(first_is_linear(definitions.as_slice()))
}

// How a unit stands to the scale of a channel.
fn standing_at(alloc: Global, code: u16, part: &Part) -> Result<Standing, OutOfMemory>
    ensures { IfOk result (λ s. s ≡ standing_at code (part_shown part.now)) }
{
    let opens = opens_at(alloc, code, part)?;
    let home = home_at(code, part);
    Ok(Standing { home, opens })
}

/// How units stand to the scales of a channel.
pub fn standings(alloc: Global, code: u16, parts: &[Part]) -> Result<Seq<Standing>, OutOfMemory>
    ensures { IfOk result (λ all. all ≡ map (standing_at code) (map part_shown parts.now)) }
{
    let mut all = Seq::new(alloc);
    for part in parts {
        all.push(standing_at(alloc, code, part)?)?;
    }
    Ok(all)
}

// What the first definition of a scale says of a unit that shares it.
fn opens_for(home: Home, standing: &Standing) -> Option<bool>
    ensures { result ≡ opens_for home standing.now }
{
    if same_home(home, standing.home) {
        standing.opens
    } else {
        None
    }
}

/// Whether the cells of the scale that units share up to here lie on a line.
pub fn on_line(standings: &[Standing], home: Home) -> bool
    ensures { result ≡ on_line standings.now home }
{
    for standing in standings {
        match opens_for(home, standing) {
            Some(opens) => return opens,
            None => {}
        }
    }
    false
}

/// Whether definitions show cells on a line.
pub fn all_on_line(definitions: &[&Definition]) -> bool
    ensures { result ≡ list_all (λ d. is_on_line (type_shown d)) (map (λ d. d.now) definitions.now) }
{
    for definition in definitions {
        if !is_linear(definition) {
            return false;
        }
    }
    true
}

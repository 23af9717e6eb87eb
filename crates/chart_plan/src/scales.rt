// The scales of a chart.
ghost use Rattle.std.specs.Prelude.{◌≡◌, ◌++◌, map, option_copied, option_to_list, IfOk, OnOk, false};
ghost use Rattle.std.specs.Option.{option_map_or};
ghost use Rattle.vl_compose.specs.Shown.{kind_of, round_shown, unit_shown, view_shown};
ghost use Rattle.vl_compose.specs.Sharing.{is_independent, sharing_said};
ghost use Rattle.vl_compose.specs.Views.{is_faceted};
ghost use Rattle.vl_compose.specs.inner.Said.{said_among};
ghost use Rattle.scale_infer.specs.Types.{scale_in};
ghost use Rattle.chart_plan.specs.Domains.{shared_domain};
ghost use Rattle.chart_plan.specs.Scales.{says_independent, parts_scale, holder_in, holder_of, scales_said, shows_instants, is_time, domain_of};
ghost use Rattle.chart_plan.specs.Scales.{scale_with, scale_of, seen, seen_if, seen_by, holder_from};

use crate::domains;
use crate::domains::{alone_domain, raw_of};
use crate::ranges::{range_of, reverse_of, rises};
use crate::shown::all_shown;
use expr_syntax::Expr;
use fixed_num::Num;
use guide_infer::{is_bare, legend_of};
use guide_kit::LegendOf;
use plan_kit::{DomainPlan, RangePlan, ScalePlan, is_among};
use scale_infer::{RAMP, ScaleOf, TIME, is_temporal, type_of};
use std::alloc::Global;
use text_kit::{OutOfMemory, Seq};
use unit_plan::ScaleSeen;
use vl_compose::{UnitHere, ViewHere};
use vl_spec::{Definition, ParamOf, Resolve, Scale, Sharing, SharingOf, ViewKind};

// What is said of a channel among entries.
fn said_among(entries: &[SharingOf], code: u16) -> Option<Sharing>
    ensures { result ≡ said_among entries.now code }
{
    for entry in entries {
        if entry.channel == code {
            return Some(entry.sharing);
        }
    }
    None
}

// What a view says of a channel.
fn sharing_said(resolve: &Option<Resolve>, code: u16) -> Option<Sharing>
    ensures { result ≡ sharing_said resolve.now code }
{
    match resolve {
        Some(
            Resolve {
                scale: Some(entries),
            },
        ) => said_among(entries.as_slice(), code),
        _ => None,
    }
}

// Whether views are to have scales of their own, where that is said.
fn is_independent(said: Option<Sharing>) -> bool
    ensures { result ≡ option_map_or is_independent said false }
{
    match said {
        Some(Sharing::Independent) => true,
        Some(Sharing::Shared) => false,
        None => false,
    }
}

// Whether a view is a facet.
fn is_faceted(kind: &ViewKind) -> bool
    ensures { result ≡ is_faceted (kind_of kind.now) }
{
    match kind {
        ViewKind::Facet(_) => true,
        ViewKind::Unit(_) | ViewKind::Layer(_) | ViewKind::Joined(_) => false,
    }
}

// Whether a view says that the views in it have a scale of their own for a channel.
fn says_independent(channel: u16, here: &ViewHere) -> bool
    ensures { result ≡ says_independent channel (view_shown here.now) }
{
    is_independent(sharing_said(&here.view.resolve, channel))
}

// Whether a view is a facet that gives each panel a scale of its own.
fn parts_scale(channel: u16, here: &ViewHere) -> bool
    ensures { result ≡ parts_scale channel (view_shown here.now) }
{
    is_faceted(&here.view.kind) && says_independent(channel, here)
}

// The number of a facet that parts a scale, or else another.
fn or_outer(channel: u16, here: &ViewHere, outer: Option<usize>) -> Option<usize>
    ensures { result ≡ holder_from channel outer (view_shown here.now) }
{
    if parts_scale(channel, here) {
        Some(here.number)
    } else {
        outer
    }
}

/// The number of the innermost facet among some views that parts the scales of a channel.
pub(crate) fn holder_in(channel: u16, round: &[ViewHere]) -> Option<usize>
    ensures { result ≡ holder_in channel (round_shown round.now) }
{
    let mut holder = None;
    for here in round {
        holder = or_outer(channel, here, holder);
    }
    holder
}

// The facet to which the scale of some units belongs.
fn holder_of(channel: u16, units: &[UnitHere], sharing: &[u32]) -> Option<usize>
    ensures { result ≡ holder_of channel (map unit_shown units.now) sharing.now }
{
    for unit in units {
        if is_among(sharing, unit.number) {
            return holder_in(channel, unit.round.as_slice());
        }
    }
    None
}

// What a definition says of its scale.
fn scale_in(definition: &Definition) -> Option<&Scale>
    ensures { option_copied result ≡ scale_in definition.now }
{
    match definition {
        Definition::Value(_) => None,
        Definition::Datum(of) => of.scale.as_ref(),
        Definition::Field(of) => of.scale.as_ref(),
    }
}

// Adds what a definition says of its scale.
fn push_scale<'s>(definition: &'s Definition, out: &mut Seq<&'s Scale>) -> Result<(), OutOfMemory>
    ensures { OnOk result (map (λ s. s.now) out.new ≡ map (λ s. s.now) out.old ++ option_to_list (scale_in definition.now)) }
{
    match scale_in(definition) {
        Some(scale) => out.push(scale),
        None => Ok(()),
    }
}

// What definitions say of scales.
fn scales_said<'s>(
    alloc: Global,
    definitions: &[&'s Definition],
) -> Result<Seq<&'s Scale>, OutOfMemory>
    ensures { IfOk result (λ out. map (λ s. s.now) out ≡ scales_said (map (λ d. d.now) definitions.now)) }
{
    let mut out = Seq::new(alloc);
    for definition in definitions {
        push_scale(*definition, &mut out)?;
    }
    Ok(out)
}

// Whether the first of some definitions shows instants.
fn shows_instants(definitions: &[&Definition]) -> bool
    ensures { result ≡ shows_instants (map (λ d. d.now) definitions.now) }
{
    match definitions {
        [first, ..] => is_temporal(type_of(first)),
        [] => false,
    }
}

// Whether the domain of a scale is one of instants.
fn is_time(kind: u16, shown: &[&Definition]) -> bool
    ensures { result ≡ is_time kind (map (λ d. d.now) shown.now) }
{
    kind == TIME || (kind == RAMP && shows_instants(shown))
}

// The domain of a scale that units share, on which these definitions are shown.
fn domain_shown(
    alloc: Global,
    scale: &ScaleOf,
    units: &[UnitHere],
    shown: &[&Definition],
) -> Result<DomainPlan, OutOfMemory>
    ensures { IfOk result (λ domain. domain
        ≡ shared_domain scale.now.channel scale.now.kind (map unit_shown units.now) scale.now.units (scales_said (map (λ d. d.now) shown.now))) }
{
    let said = scales_said(alloc, shown)?;
    domains::shared_domain(
        alloc,
        scale.channel,
        scale.kind,
        units,
        scale.units.as_slice(),
        said.as_slice(),
    )
}

// The domain of a scale on which these definitions are shown.
fn domain_of(
    alloc: Global,
    scale: &ScaleOf,
    units: &[UnitHere],
    shown: &[&Definition],
) -> Result<DomainPlan, OutOfMemory>
    ensures { IfOk result (λ domain. domain ≡ domain_of scale.now (map unit_shown units.now) (map (λ d. d.now) shown.now)) }
{
    if is_bare(shown) {
        alone_domain(alloc)
    } else {
        domain_shown(alloc, scale, units, shown)
    }
}

// A scale on which these definitions are shown.
fn scale_with(
    alloc: Global,
    params: &[ParamOf],
    units: &[UnitHere],
    scale: &ScaleOf,
    shown: &[&Definition],
) -> Result<ScalePlan, OutOfMemory>
    ensures { IfOk result (λ plan. plan ≡ scale_with params.now (map unit_shown units.now) scale.now (map (λ d. d.now) shown.now)) }
{
    let said = scales_said(alloc, shown)?;
    let sharing = Seq::from_slice(alloc, scale.units.as_slice())?;
    let legend = legend_of(alloc, scale.channel, shown)?;
    let range = range_of(alloc, scale.channel, scale.kind, said.as_slice())?;
    let domain = domain_of(alloc, scale, units, shown)?;
    let raw = raw_of(alloc, params, scale.kind, said.as_slice())?;
    Ok(ScalePlan {
        channel: scale.channel,
        units: sharing,
        kind: scale.kind,
        is_time: is_time(scale.kind, shown),
        holder: holder_of(scale.channel, units, scale.units.as_slice()),
        domain,
        raw,
        range,
        reverse: reverse_of(said.as_slice()),
        zero: scale.zero,
        nice: scale.nice,
        inner: scale.inner,
        outer: scale.outer,
        legend,
        is_alone: is_bare(shown),
    })
}

// A scale of some units.
fn scale_of(
    alloc: Global,
    params: &[ParamOf],
    units: &[UnitHere],
    scale: &ScaleOf,
) -> Result<ScalePlan, OutOfMemory>
    ensures { IfOk result (λ plan. plan ≡ scale_of params.now (map unit_shown units.now) scale.now) }
{
    let shown = all_shown(alloc, units, scale.channel, scale.units.as_slice())?;
    scale_with(alloc, params, units, scale, shown.as_slice())
}

/// The scales of some units.
pub(crate) fn scales_of(
    alloc: Global,
    params: &[ParamOf],
    units: &[UnitHere],
    scales: &[ScaleOf],
) -> Result<Seq<ScalePlan>, OutOfMemory>
    ensures { IfOk result (λ plans. plans ≡ map (scale_of params.now (map unit_shown units.now)) scales.now) }
{
    let mut plans = Seq::new(alloc);
    for scale in scales {
        plans.push(scale_of(alloc, params, units, scale)?)?;
    }
    Ok(plans)
}

// A scale of a number, as units see it.
fn seen(number: usize, scale: &ScalePlan) -> ScaleSeen
    ensures { result ≡ seen (number, scale.now) }
{
    ScaleSeen {
        channel: scale.channel,
        number,
        kind: scale.kind,
        rises: rises(scale.channel, scale.kind, &scale.range, scale.reverse),
        alone: scale.is_alone,
    }
}

// Adds a scale that a unit shares.
fn push_seen(
    unit: usize,
    number: usize,
    scale: &ScalePlan,
    out: &mut Seq<ScaleSeen>,
) -> Result<(), OutOfMemory>
    ensures { OnOk result (out.new ≡ out.old ++ option_to_list (seen_if unit (number, scale.now))) }
{
    if is_among(scale.units.as_slice(), unit) {
        out.push(seen(number, scale))
    } else {
        Ok(())
    }
}

/// The scales of a unit among all, each with its number.
pub(crate) fn seen_by(
    alloc: Global,
    scales: &[ScalePlan],
    unit: usize,
) -> Result<Seq<ScaleSeen>, OutOfMemory>
    ensures { IfOk result (λ seen. seen ≡ seen_by scales.now unit) }
{
    let mut out = Seq::new(alloc);
    for (number, scale) in scales.iter().enumerate() {
        push_seen(unit, number, scale, &mut out)?;
    }
    Ok(out)
}

//! Scales that a drag inverts.
ghost use Rattle.std.specs.Prelude.{◌≡◌, ℕ, List, [], true, not, is_some, bytes_eq, IfOk};
ghost use Rattle.std.specs.Option.{option_copied, option_map_or};
ghost use Rattle.std.specs.List.{list_any};
ghost use Rattle.vega_parts.specs.declared.part.Used.TheVariants as used;
ghost use Rattle.vega_rules.specs.Faults.{sooner, earliest, fault_if};
ghost use Rattle.spec_schema.specs.declared.spec_error.SpecKind.TheVariants.{Wrong};
ghost use Rattle.vega_rules.specs.Names.{given_names};
ghost use Rattle.vega_rules.specs.Places.{is_inside};
ghost use Rattle.vega_rules.specs.Resolved.{resolved};
ghost use Rattle.vega_rules.specs.Intervals.{is_continuous, is_ramp, can_invert, inverts, is_among, concerned, all_invert};
ghost use Rattle.vega_rules.specs.Intervals.{is_given_in_plot, fails_drag, interval_by, intervals};
ghost use Rattle.vega_rules.specs.declared.keys.By.TheVariants as by;
ghost use Rattle.vega_rules.specs.inner.Keyed.{number_at};
ghost use Rattle.vega_rules.specs.inner.Index.{IsIndex};
ghost use Rattle.vega_rules.specs.inner.Drags.{is_sooner, is_inner_of};

use crate::fault::{PlacedFault, is_before, sooner_if};
use crate::keyed::{Keyed, number_at};
use crate::keys::name_numbers;
use crate::resolve::resolved;
use spec_schema::SpecKind;
use std::alloc::Global;
use text_kit::{OutOfMemory, Seq, Text};
use vega_parts::{GivenName, Part, Place, RangeKind, ScaleTraits, ScaleType, Used};

/// The parts of a specification, with the indexes by which drags look names up among them.
#[derive(Clone, Copy)]
struct PartsByName<'a> {
    /// The parts.
    parts: &'a [Part],
    /// The first part that gives each name.
    index: &'a Keyed,
    /// The first that gives each name of a scale in a group under an object without a layout.
    in_plot: &'a Keyed,
    /// The first that gives each name of a scale in a group.
    elsewhere: &'a Keyed,
}

// Whether the places of scales of a type have an inverse.
fn is_continuous(kind: ScaleType) -> bool
    ensures { result ≡ is_continuous kind }
{
    match kind {
        ScaleType::Linear | ScaleType::Time => true,
        ScaleType::Band | ScaleType::Point | ScaleType::Ordinal | ScaleType::Other => false,
    }
}

// Whether a range holds colours.
fn is_ramp(range: RangeKind) -> bool
    ensures { result ≡ is_ramp range }
{
    match range {
        RangeKind::Ramp => true,
        RangeKind::Width | RangeKind::Height | RangeKind::Other => false,
    }
}

// Whether a scale with these traits can be inverted.
fn can_invert(traits: Option<ScaleTraits>) -> bool
    ensures { result ≡ can_invert traits }
{
    match traits {
        Some(traits) => is_continuous(traits.type_) && !is_ramp(traits.range),
        None => false,
    }
}

// Whether a name means such a scale.
fn inverts(name: Option<&GivenName>) -> bool
    ensures { result ≡ inverts (option_copied name.entry) }
{
    match name {
        Some(name) => can_invert(name.scale),
        None => false,
    }
}

// Whether a place is inside another one.
fn is_inside(outer: &[usize], place: &[usize]) -> bool
    ensures { result ≡ is_inside outer.now place.now }
{
    let [n, ns @ ..] = place else {
        return false;
    };
    let [m, ms @ ..] = outer else {
        return true;
    };
    *m == *n && is_inside(ms, ns)
}

// Whether a name is among these.
fn among(names: &[Text], own: &str) -> bool
    ensures { result ≡ list_any (bytes_eq own.now) names.now }
{
    for name in names {
        if own == name.as_str() {
            return true;
        }
    }
    false
}

// Whether the names of marks that a signal has include that of the mark.
fn is_among(names: &Option<Seq<Text>>, own: &Option<Text>) -> bool
    ensures { result ≡ is_among names.now own.now }
{
    match names {
        Some(names) => match own {
            Some(own) => among(names.as_slice(), own.as_str()),
            None => false,
        },
        None => true,
    }
}

// The object of a mark, no group, that a signal of an object concerns.
fn concerned<'a>(scope: &Place, names: &Option<Seq<Text>>, part: &'a Part) -> Option<&'a Place>
    ensures { option_copied result ≡ concerned scope.now names.now part.now }
{
    match part {
        Part::Mark {
            at,
            scope: object,
            name,
            group,
        } => {
            if !*group && is_inside(scope.as_slice(), at.as_slice()) && is_among(names, name) {
                Some(object)
            } else {
                None
            }
        }
        Part::Fault { .. }
        | Part::Given(_)
        | Part::Used(_)
        | Part::Plot { .. }
        | Part::Data { .. }
        | Part::Step { .. }
        | Part::Fold { .. }
        | Part::Interval { .. } => None,
    }
}

// Whether a scale can be inverted from an object.
fn inverts_from(
    alloc: Global,
    index: &Keyed,
    parts: &[Part],
    scale: &Text,
    object: &[usize],
) -> Result<bool, OutOfMemory>
    requires { IsIndex by.Name index.now parts.now }
    ensures { IfOk result (λ b. b ≡ inverts (resolved parts.now used.Scale object.now [] scale.now)) }
{
    let found = resolved(
        alloc,
        index,
        parts,
        Used::Scale,
        object,
        &[],
        scale.as_str(),
    )?;
    Ok(inverts(found))
}

// The same from a mark, where the signal concerns it.
fn inverts_where(
    alloc: Global,
    index: &Keyed,
    parts: &[Part],
    scale: &Text,
    object: Option<&Place>,
) -> Result<bool, OutOfMemory>
    requires { IsIndex by.Name index.now parts.now }
    ensures { IfOk result (λ b. b ≡
        option_map_or (λ o. inverts (resolved parts.now used.Scale o [] scale.now)) (option_copied object.entry) true) }
{
    match object {
        Some(object) => inverts_from(alloc, index, parts, scale, object.as_slice()),
        None => Ok(true),
    }
}

// Whether a scale can be inverted from each mark that the signal concerns, by looking at each.
fn all_by_marks(
    alloc: Global,
    index: &Keyed,
    parts: &[Part],
    scale: &Text,
    scope: &Place,
    names: &Option<Seq<Text>>,
) -> Result<bool, OutOfMemory>
    requires { IsIndex by.Name index.now parts.now }
    ensures { IfOk result (λ b. b ≡ all_invert parts.now scale.now scope.now names.now) }
{
    for part in parts {
        let object = concerned(scope, names, part);
        if !inverts_where(alloc, index, parts, scale, object)? {
            return Ok(false);
        }
    }
    Ok(true)
}

// Whether there is a number under a name.
fn has_name(alloc: Global, numbers: &Keyed, name: &Text) -> Result<bool, OutOfMemory>
    ensures { IfOk result (λ b. b ≡ is_some (number_at numbers.now name.now)) }
{
    let key = name_numbers(alloc, name.as_str())?;
    Ok(number_at(numbers, key.as_slice()).is_some())
}

// Whether no group gives a name to a scale.
fn is_of_top(
    alloc: Global,
    elsewhere: &Keyed,
    parts: &[Part],
    scale: &Text,
) -> Result<bool, OutOfMemory>
    requires { IsIndex by.Elsewhere elsewhere.now parts.now }
    ensures { IfOk result (λ b. b ≡ not (list_any (is_inner_of scale.now) (given_names parts.now))) }
{
    let has = has_name(alloc, elsewhere, scale)?;
    Ok(!has)
}

// Whether no group gives a name to a scale, and the one that the top gives it to can be inverted.
fn inverts_at_once(
    alloc: Global,
    index: &Keyed,
    elsewhere: &Keyed,
    parts: &[Part],
    scale: &Text,
) -> Result<bool, OutOfMemory>
    requires index { IsIndex by.Name index.now parts.now }
    requires elsewhere { IsIndex by.Elsewhere elsewhere.now parts.now }
    ensures { IfOk result (λ b. b ≡ true → (object : List ℕ) → inverts (resolved parts.now used.Scale object [] scale.now) ≡ true) }
{
    let of_top = is_of_top(alloc, elsewhere, parts, scale)?;
    let inverts = inverts_from(alloc, index, parts, scale, &[])?;
    Ok(of_top && inverts)
}

// Whether a scale can be inverted from each mark that the signal concerns.
fn all_invert(
    alloc: Global,
    index: &Keyed,
    elsewhere: &Keyed,
    parts: &[Part],
    scale: &Text,
    scope: &Place,
    names: &Option<Seq<Text>>,
) -> Result<bool, OutOfMemory>
    requires index { IsIndex by.Name index.now parts.now }
    requires elsewhere { IsIndex by.Elsewhere elsewhere.now parts.now }
    ensures { IfOk result (λ b. b ≡ all_invert parts.now scale.now scope.now names.now) }
{
    if inverts_at_once(alloc, index, elsewhere, parts, scale)? {
        return Ok(true);
    }
    all_by_marks(alloc, index, parts, scale, scope, names)
}

// Whether a group under an object without a layout gives a name to a scale.
fn is_given_in_plot(
    alloc: Global,
    in_plot: &Keyed,
    parts: &[Part],
    scale: &Text,
) -> Result<bool, OutOfMemory>
    requires { IsIndex by.InPlot in_plot.now parts.now }
    ensures { IfOk result (λ b. b ≡ is_given_in_plot parts.now scale.now) }
{
    let has = has_name(alloc, in_plot, scale)?;
    Ok(has)
}

// Whether a drag over a scale is wrong.
fn fails_drag(
    alloc: Global,
    among: &PartsByName,
    scale: &Text,
    scope: &Place,
    names: &Option<Seq<Text>>,
) -> Result<bool, OutOfMemory>
    requires index { IsIndex by.Name among.now.index.now among.now.parts.now }
    requires in_plot { IsIndex by.InPlot among.now.in_plot.now among.now.parts.now }
    requires elsewhere { IsIndex by.Elsewhere among.now.elsewhere.now among.now.parts.now }
    ensures { IfOk result (λ b. b ≡ fails_drag among.now.parts.now scale.now scope.now names.now) }
{
    if is_given_in_plot(alloc, among.in_plot, among.parts, scale)? {
        return Ok(true);
    }
    Ok(!all_invert(
        alloc,
        among.index,
        among.elsewhere,
        among.parts,
        scale,
        scope,
        names,
    )?)
}

// Whether a fault at a place would stand before the one so far.
fn is_sooner(so_far: &Option<PlacedFault>, at: &Place) -> bool
    ensures { result ≡ is_sooner so_far.now at.now }
{
    match so_far {
        Some(fault) => is_before(at.as_slice(), fault.place.as_slice()),
        None => true,
    }
}

// The fault so far, or that of a drag over a scale.
#[tactic(auto, using(crate::proofs::DragLemmas::not_sooner))]
fn sooner_failing(
    alloc: Global,
    so_far: Option<PlacedFault>,
    among: &PartsByName,
    at: &Place,
    scale: &Text,
    scope: &Place,
    names: &Option<Seq<Text>>,
) -> Result<Option<PlacedFault>, OutOfMemory>
    requires index { IsIndex by.Name among.now.index.now among.now.parts.now }
    requires in_plot { IsIndex by.InPlot among.now.in_plot.now among.now.parts.now }
    requires elsewhere { IsIndex by.Elsewhere among.now.elsewhere.now among.now.parts.now }
    ensures { IfOk result (λ f. f ≡ sooner so_far
        (earliest (fault_if (fails_drag among.now.parts.now scale.now scope.now names.now) Wrong at.now))) }
{
    if !is_sooner(&so_far, at) {
        return Ok(so_far);
    }
    let fails = fails_drag(alloc, among, scale, scope, names)?;
    let so_far = sooner_if(alloc, so_far, fails, SpecKind::Wrong, at)?;
    Ok(so_far)
}

// The fault so far, or that of the part if it is a drag.
fn sooner_drag(
    alloc: Global,
    so_far: Option<PlacedFault>,
    among: &PartsByName,
    part: &Part,
) -> Result<Option<PlacedFault>, OutOfMemory>
    requires index { IsIndex by.Name among.now.index.now among.now.parts.now }
    requires in_plot { IsIndex by.InPlot among.now.in_plot.now among.now.parts.now }
    requires elsewhere { IsIndex by.Elsewhere among.now.elsewhere.now among.now.parts.now }
    ensures { IfOk result (λ f. f ≡ sooner so_far (earliest (interval_by among.now.parts.now part.now))) }
{
    match part {
        Part::Interval {
            at,
            scope,
            scale,
            marks,
        } => sooner_failing(alloc, so_far, among, at, scale, scope, marks),
        Part::Fault { .. }
        | Part::Given(_)
        | Part::Used(_)
        | Part::Mark { .. }
        | Part::Plot { .. }
        | Part::Data { .. }
        | Part::Step { .. }
        | Part::Fold { .. } => Ok(so_far),
    }
}

/// The fault so far, or the first drag over a scale that can't be inverted. A scale that the top alone names takes one look where it
/// can be inverted; for any other each drag that stands before the fault so far takes a look at each mark, and at the names
/// of marks that its signal has.
pub fn sooner_intervals<'a>(
    alloc: Global,
    mut so_far: Option<PlacedFault>,
    index: &'a Keyed,
    in_plot: &'a Keyed,
    elsewhere: &'a Keyed,
    parts: &'a [Part],
) -> Result<Option<PlacedFault>, OutOfMemory>
    requires index { IsIndex by.Name index.now parts.now }
    requires in_plot { IsIndex by.InPlot in_plot.now parts.now }
    requires elsewhere { IsIndex by.Elsewhere elsewhere.now parts.now }
    ensures { IfOk result (λ f. f ≡ sooner so_far (earliest (intervals parts.now))) }
{
    let among = PartsByName {
        parts,
        index,
        in_plot,
        elsewhere,
    };
    for part in parts {
        so_far = sooner_drag(alloc, so_far, &among, part)?;
    }
    Ok(so_far)
}

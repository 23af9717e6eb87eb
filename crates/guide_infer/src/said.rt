// What definitions say of axes, legends and titles.
ghost use Rattle.std.specs.Prelude.{◌≡◌, ◌++◌, ◌∷◌, [], map, option_copied, option_to_list, is_some, IfOk, OnOk, if◌then◌else◌, true};
ghost use Rattle.std.specs.Option.{option_and_then, option_map_or};
ghost use Rattle.guide_infer.specs.Said.{axis_in, legend_in, has_axis, has_legend, is_bare, with_axes, with_legends, axes_said};
ghost use Rattle.guide_infer.specs.Said.{legends_said, is_field, first_field};

use std::alloc::Global;
use text_kit::{OutOfMemory, Seq};
use vl_spec::{Axis, Definition, Legend};

// What a member says, if it says anything.
fn in_member<T>(member: &Option<Option<T>>) -> Option<&T>
    ensures { option_copied result ≡ option_and_then (λ given. given) member.now }
{
    match member {
        Some(given) => given.as_ref(),
        None => None,
    }
}

// Whether a member isn't null.
fn counts<T>(member: &Option<Option<T>>) -> bool
    ensures { result ≡ option_map_or (λ given. is_some given) member.now true }
{
    match member {
        Some(given) => given.is_some(),
        None => true,
    }
}

/// What a definition says of an axis.
pub(crate) fn axis_in(definition: &Definition) -> Option<&Axis>
    ensures { option_copied result ≡ axis_in definition.now }
{
    match definition {
        Definition::Value(_) => None,
        Definition::Datum(of) => in_member(&of.axis),
        Definition::Field(of) => in_member(&of.axis),
    }
}

/// What a definition says of a legend.
pub(crate) fn legend_in(definition: &Definition) -> Option<&Legend>
    ensures { option_copied result ≡ legend_in definition.now }
{
    match definition {
        Definition::Value(_) => None,
        Definition::Datum(of) => in_member(&of.legend),
        Definition::Field(of) => in_member(&of.legend),
    }
}

// Whether a definition counts for an axis.
fn has_axis(definition: &Definition) -> bool
    ensures { result ≡ has_axis definition.now }
{
    match definition {
        Definition::Value(_) => true,
        Definition::Datum(of) => counts(&of.axis),
        Definition::Field(of) => counts(&of.axis),
    }
}

// Whether a definition counts for a legend.
fn has_legend(definition: &Definition) -> bool
    ensures { result ≡ has_legend definition.now }
{
    match definition {
        Definition::Value(_) => true,
        Definition::Datum(of) => counts(&of.legend),
        Definition::Field(of) => counts(&of.legend),
    }
}

// Adds a definition that counts for an axis.
fn push_with_axis<'s>(
    definition: &'s Definition,
    out: &mut Seq<&'s Definition>,
) -> Result<(), OutOfMemory>
    ensures { OnOk result (map (λ d. d.now) out.new ≡ map (λ d. d.now) out.old ++ (if has_axis definition.now then definition.now ∷ [] else [])) }
{
    if has_axis(definition) {
        out.push(definition)
    } else {
        Ok(())
    }
}

// Adds a definition that counts for a legend.
fn push_with_legend<'s>(
    definition: &'s Definition,
    out: &mut Seq<&'s Definition>,
) -> Result<(), OutOfMemory>
    ensures { OnOk result (map (λ d. d.now) out.new ≡ map (λ d. d.now) out.old ++ (if has_legend definition.now then definition.now ∷ [] else [])) }
{
    if has_legend(definition) {
        out.push(definition)
    } else {
        Ok(())
    }
}

/// The definitions that count for an axis.
pub fn with_axes<'s>(
    alloc: Global,
    definitions: &[&'s Definition],
) -> Result<Seq<&'s Definition>, OutOfMemory>
    ensures { IfOk result (λ out. map (λ d. d.now) out ≡ with_axes (map (λ d. d.now) definitions.now)) }
{
    let mut out = Seq::new(alloc);
    for definition in definitions {
        push_with_axis(*definition, &mut out)?;
    }
    Ok(out)
}

/// The definitions that count for a legend.
pub(crate) fn with_legends<'s>(
    alloc: Global,
    definitions: &[&'s Definition],
) -> Result<Seq<&'s Definition>, OutOfMemory>
    ensures { IfOk result (λ out. map (λ d. d.now) out ≡ with_legends (map (λ d. d.now) definitions.now)) }
{
    let mut out = Seq::new(alloc);
    for definition in definitions {
        push_with_legend(*definition, &mut out)?;
    }
    Ok(out)
}

// Adds what a definition says of an axis.
fn push_axis<'s>(definition: &'s Definition, out: &mut Seq<&'s Axis>) -> Result<(), OutOfMemory>
    ensures { OnOk result (map (λ a. a.now) out.new ≡ map (λ a. a.now) out.old ++ option_to_list (axis_in definition.now)) }
{
    match axis_in(definition) {
        Some(axis) => out.push(axis),
        None => Ok(()),
    }
}

/// What definitions say of an axis.
pub(crate) fn axes_said<'s>(
    alloc: Global,
    definitions: &[&'s Definition],
) -> Result<Seq<&'s Axis>, OutOfMemory>
    ensures { IfOk result (λ out. map (λ a. a.now) out ≡ axes_said (map (λ d. d.now) definitions.now)) }
{
    let mut out = Seq::new(alloc);
    for definition in definitions {
        push_axis(*definition, &mut out)?;
    }
    Ok(out)
}

// Adds what a definition says of a legend.
fn push_legend<'s>(definition: &'s Definition, out: &mut Seq<&'s Legend>) -> Result<(), OutOfMemory>
    ensures { OnOk result (map (λ l. l.now) out.new ≡ map (λ l. l.now) out.old ++ option_to_list (legend_in definition.now)) }
{
    match legend_in(definition) {
        Some(legend) => out.push(legend),
        None => Ok(()),
    }
}

/// What definitions say of a legend.
pub(crate) fn legends_said<'s>(
    alloc: Global,
    definitions: &[&'s Definition],
) -> Result<Seq<&'s Legend>, OutOfMemory>
    ensures { IfOk result (λ out. map (λ l. l.now) out ≡ legends_said (map (λ d. d.now) definitions.now)) }
{
    let mut out = Seq::new(alloc);
    for definition in definitions {
        push_legend(*definition, &mut out)?;
    }
    Ok(out)
}

/// Whether there is no definition.
pub fn is_bare(definitions: &[&Definition]) -> bool
    ensures { result ≡ is_bare (map (λ d. d.now) definitions.now) }
{
    match definitions {
        [_, ..] => false,
        [] => true,
    }
}

// Whether a definition shows a field.
fn is_field(definition: &Definition) -> bool
    ensures { result ≡ is_field definition.now }
{
    match definition {
        Definition::Field(_) => true,
        Definition::Value(_) | Definition::Datum(_) => false,
    }
}

/// The first definition that shows a field.
pub(crate) fn first_field<'s>(definitions: &[&'s Definition]) -> Option<&'s Definition>
    ensures { option_copied result ≡ first_field (map (λ d. d.now) definitions.now) }
{
    for definition in definitions {
        if is_field(definition) {
            return Some(*definition);
        }
    }
    None
}

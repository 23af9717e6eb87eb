// Units that share a scale.
ghost use Rattle.std.specs.Prelude.{◌≡◌, ◌++◌, map, option_map, option_copied, option_to_list, IfOk, OnOk};
ghost use Rattle.vl_normalize.specs.Marks.{mark_type_of};
ghost use Rattle.vl_compose.specs.Shown.{unit_shown};
ghost use Rattle.scale_infer.specs.Kinds.{all_said};
ghost use Rattle.scale_infer.specs.Scales.{first_definition, first_at, sharer_of, sharer_at, sharers_at};
ghost use Rattle.scale_infer.specs.Measures.{x_is_measure};

use crate::measures::x_is_measure;
use crate::said::{Said, said_by};
use std::alloc::Global;
use text_kit::{OutOfMemory, Seq};
use vl_compose::{UnitHere, definitions_at};
use vl_normalize::{X, Y};
use vl_spec::{Definition, Mark, MarkType};

/// A unit that shares a scale, by what the scale goes by.
pub struct Sharer {
    /// The mark.
    pub mark: Option<MarkType>,
    /// Whether x is its measure; else y is.
    pub x_is_measure: bool,
    /// What its definitions of the scale's channel say, the channel's own before those of its conditions.
    pub says: Seq<Said>,
}

impl Drop for Sharer {
    fn drop(self) {
        let Sharer {
            mark: _,
            x_is_measure: _,
            says: _,
        } = self;
    }
}

// The type of a mark.
fn mark_type(mark: &Option<Mark>) -> Option<MarkType>
    ensures { result ≡ option_map mark_type_of mark.now }
{
    match mark {
        Some(Mark::Type(type_)) => Some(*type_),
        Some(Mark::Definition(of)) => Some(of.type_),
        None => None,
    }
}

// The first of several definitions.
fn first_of<'s>(definitions: &[&'s Definition]) -> Option<&'s Definition>
    ensures { option_copied result ≡ first_definition (map (λ definition. definition.now) definitions.now) }
{
    match definitions {
        [first, ..] => Some(*first),
        [] => None,
    }
}

// Whether x is the measure of a unit.
fn measures_x(alloc: Global, unit: &UnitHere) -> Result<bool, OutOfMemory>
    ensures { IfOk result (λ is. is ≡ x_is_measure (first_at (unit_shown unit.now) X) (first_at (unit_shown unit.now) Y)) }
{
    let x = definitions_at(alloc, unit.channels.as_slice(), X)?;
    let y = definitions_at(alloc, unit.channels.as_slice(), Y)?;
    Ok(x_is_measure(first_of(x.as_slice()), first_of(y.as_slice())))
}

// What the definitions of a channel of a unit say.
fn said_at(alloc: Global, unit: &UnitHere, channel: u16) -> Result<Seq<Said>, OutOfMemory>
    ensures { IfOk result (λ said. said ≡ (sharer_of channel (unit_shown unit.now)).says) }
{
    let definitions = definitions_at(alloc, unit.channels.as_slice(), channel)?;
    said_by(alloc, definitions.as_slice())
}

// A unit as one that shares the scale of a channel.
fn sharer_of(alloc: Global, channel: u16, unit: &UnitHere) -> Result<Sharer, OutOfMemory>
    ensures { IfOk result (λ sharer. sharer ≡ sharer_of channel (unit_shown unit.now)) }
{
    let x_is_measure = measures_x(alloc, unit)?;
    let says = said_at(alloc, unit, channel)?;
    Ok(Sharer {
        mark: mark_type(unit.mark),
        x_is_measure,
        says,
    })
}

// Adds the unit of a number, if there is one.
fn push_sharer(
    alloc: Global,
    sharers: &mut Seq<Sharer>,
    units: &[UnitHere],
    channel: u16,
    number: u32,
) -> Result<(), OutOfMemory>
    ensures { OnOk result (sharers.new ≡ sharers.old ++ option_to_list (sharer_at (map unit_shown units.now) channel number)) }
{
    match units.get(number as usize) {
        Some(unit) => sharers.push(sharer_of(alloc, channel, unit)?),
        None => Ok(()),
    }
}

/// The units of these numbers, as those that share the scale of a channel.
pub(crate) fn sharers_at(
    alloc: Global,
    units: &[UnitHere],
    channel: u16,
    numbers: &[u32],
) -> Result<Seq<Sharer>, OutOfMemory>
    ensures { IfOk result (λ sharers. sharers ≡ sharers_at (map unit_shown units.now) channel numbers.now) }
{
    let mut sharers = Seq::new(alloc);
    for number in numbers {
        push_sharer(alloc, &mut sharers, units, channel, *number)?;
    }
    Ok(sharers)
}

/// What all definitions of a scale say.
pub(crate) fn all_said(alloc: Global, sharers: &[Sharer]) -> Result<Seq<Said>, OutOfMemory>
    ensures { IfOk result (λ said. said ≡ all_said sharers.now) }
{
    let mut said = Seq::new(alloc);
    for sharer in sharers {
        said.append(Seq::from_slice(alloc, sharer.says.as_slice())?)?;
    }
    Ok(said)
}

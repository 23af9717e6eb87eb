// Channels that are prepared for all rows of a mark.
ghost use Rattle.std.specs.Prelude.{◌≡◌, true, false, [], IfOk};
ghost use Rattle.std.specs.Coded.{Coded-set};
ghost use Rattle.mark_encode.specs.Channels.{channel_values};
ghost use Rattle.mark_encode.specs.inner.Scaled.{scaled_all};
ghost use Rattle.mark_encode.specs.inner.Fixed.{fixed_number, fixed_color, fixed_sized, fixed_form, fixed_style};

use crate::channels::{ChannelName, Scaled, channel_values};
use crate::scales::IndexedSet;
use crate::sizes::{SymbolSize, sized_of};
use cell_value::SharedText;
use fixed_num::Num;
use mark_shapes::{Shown, Symbol, TextStyle, side_shown, symbol_of};
use std::alloc::Global;
use text_kit::{OutOfMemory, Seq, Text};
use vega_spec::Encode;

/// The values of a channel, and the number that it shows of every row, where it is known to be the same for all.
#[derive(Drop)]
pub struct Numbers<'a> {
    pub values: Seq<Scaled<'a>>,
    pub same: Option<Shown<Num>>,
    ghost kept: { same ≡ fixed_number false (scaled_all values) } by { Coded-set same-code same (fixed_number false (scaled_all values)) },
}

/// The same of a channel of a far end.
#[derive(Drop)]
pub struct FarNumbers<'a> {
    pub values: Seq<Scaled<'a>>,
    pub same: Option<Shown<Num>>,
    ghost kept: { same ≡ fixed_number true (scaled_all values) } by { Coded-set same-code same (fixed_number true (scaled_all values)) },
}

/// The values of the channel of a size, and how large the symbols of all rows are, where that is known to be the same.
#[derive(Drop)]
pub struct Sizes<'a> {
    pub values: Seq<Scaled<'a>>,
    pub same: Option<Option<SymbolSize>>,
    ghost kept: { same ≡ fixed_sized (scaled_all values) } by { Coded-set same-code same (fixed_sized (scaled_all values)) },
}

/// The values of the channel of a colour, and the colour that it shows of every row, where it is known to be the same for all.
#[derive(Drop)]
pub struct Colors<'a> {
    pub values: Seq<Scaled<'a>>,
    pub same: Option<Shown<SharedText>>,
    ghost kept: { same ≡ fixed_color (scaled_all values) } by { Coded-set same-code same (fixed_color (scaled_all values)) },
}

/// The values of the channel of a form, and the symbol that they show of every row, where it is known to be the same for all.
#[derive(Drop)]
pub struct Forms<'a> {
    pub values: Seq<Scaled<'a>>,
    pub same: Option<Symbol>,
    ghost kept: { same ≡ fixed_form (scaled_all values) } by { Coded-set same-code same (fixed_form (scaled_all values)) },
}

/// The values of the channels that say how a text is set, and how the texts of all rows are set, where that is known to be the same.
#[derive(Drop)]
pub struct Styles<'a> {
    pub size: Seq<Scaled<'a>>,
    pub align: Seq<Scaled<'a>>,
    pub baseline: Seq<Scaled<'a>>,
    pub same: Option<TextStyle>,
    ghost kept: { same ≡ fixed_style (scaled_all size) (scaled_all align) (scaled_all baseline) } by { Coded-set same-code same
        (fixed_style (scaled_all size) (scaled_all align) (scaled_all baseline)) },
}

// How large the symbols of all rows are by values, where that is known to be the same.
fn fixed_sized(values: &[Scaled]) -> Option<Option<SymbolSize>>
    ensures { result ≡ fixed_sized (scaled_all values.now) }
{
    let size = crate::fixed::fixed_number(false, values)?;
    sized_of(side_shown(size))
}

// The symbol that values show of every row, where it is the same for all.
fn fixed_form(alloc: Global, values: &[Scaled]) -> Result<Option<Symbol>, OutOfMemory>
    ensures { IfOk result (λ form. form ≡ fixed_form (scaled_all values.now)) }
{
    match crate::fixed::fixed_color(alloc, values)? {
        Some(form) => Ok(Some(symbol_of(form))),
        None => Ok(None),
    }
}

// A colour that is shared with no other.
fn own(alloc: Global, color: Shown<Text>) -> Result<Shown<SharedText>, OutOfMemory>
    ensures { IfOk result (λ shared. shared ≡ color) }
{
    match color {
        Shown::Absent => Ok(Shown::Absent),
        Shown::Lacking => Ok(Shown::Lacking),
        Shown::Given(color) => Ok(Shown::Given(SharedText::of_text(alloc, color)?)),
    }
}

// The colour that values show of every row, where it is the same for all.
fn fixed_paint(alloc: Global, values: &[Scaled]) -> Result<Option<Shown<SharedText>>, OutOfMemory>
    ensures { IfOk result (λ color. color ≡ fixed_color (scaled_all values.now)) }
{
    match crate::fixed::fixed_color(alloc, values)? {
        Some(color) => Ok(Some(own(alloc, color)?)),
        None => Ok(None),
    }
}

/// The channel of a name, prepared.
pub fn numbers_of<'a>(
    alloc: Global,
    set: &'a IndexedSet<'a>,
    sets: &'a Option<Encode>,
    name: ChannelName,
) -> Result<Numbers<'a>, OutOfMemory>
    ensures { IfOk result (λ made. scaled_all made.values ≡ channel_values set.now sets.now name) }
{
    let values = channel_values(alloc, set, sets, name)?;
    let same = crate::fixed::fixed_number(false, values.as_slice());
    Ok(Numbers { values, same })
}

/// The channel of a far end, prepared.
pub fn far_numbers_of<'a>(
    alloc: Global,
    set: &'a IndexedSet<'a>,
    sets: &'a Option<Encode>,
    name: ChannelName,
) -> Result<FarNumbers<'a>, OutOfMemory>
    ensures { IfOk result (λ made. scaled_all made.values ≡ channel_values set.now sets.now name) }
{
    let values = channel_values(alloc, set, sets, name)?;
    let same = crate::fixed::fixed_number(true, values.as_slice());
    Ok(FarNumbers { values, same })
}

/// No values of a channel of a far end.
pub fn no_far_numbers<'a>(alloc: Global) -> FarNumbers<'a>
    ensures { scaled_all result.values ≡ [] }
{
    FarNumbers {
        values: Seq::new(alloc),
        same: Some(Shown::Absent),
    }
}

/// The channel of a size, prepared.
pub fn sizes_of<'a>(
    alloc: Global,
    set: &'a IndexedSet<'a>,
    sets: &'a Option<Encode>,
    name: ChannelName,
) -> Result<Sizes<'a>, OutOfMemory>
    ensures { IfOk result (λ made. scaled_all made.values ≡ channel_values set.now sets.now name) }
{
    let values = channel_values(alloc, set, sets, name)?;
    let same = fixed_sized(values.as_slice());
    Ok(Sizes { values, same })
}

/// The channel of a colour, prepared.
pub fn colors_of<'a>(
    alloc: Global,
    set: &'a IndexedSet<'a>,
    sets: &'a Option<Encode>,
    name: ChannelName,
) -> Result<Colors<'a>, OutOfMemory>
    ensures { IfOk result (λ made. scaled_all made.values ≡ channel_values set.now sets.now name) }
{
    let values = channel_values(alloc, set, sets, name)?;
    let same = fixed_paint(alloc, values.as_slice())?;
    Ok(Colors { values, same })
}

/// The channel of a form, prepared.
pub fn forms_of<'a>(
    alloc: Global,
    set: &'a IndexedSet<'a>,
    sets: &'a Option<Encode>,
    name: ChannelName,
) -> Result<Forms<'a>, OutOfMemory>
    ensures { IfOk result (λ made. scaled_all made.values ≡ channel_values set.now sets.now name) }
{
    let values = channel_values(alloc, set, sets, name)?;
    let same = fixed_form(alloc, values.as_slice())?;
    Ok(Forms { values, same })
}

/// The values of the channels that say how a text is set, prepared.
pub fn styles_with<'a>(
    alloc: Global,
    size: Seq<Scaled<'a>>,
    align: Seq<Scaled<'a>>,
    baseline: Seq<Scaled<'a>>,
) -> Result<Styles<'a>, OutOfMemory>
    ensures size { IfOk result (λ made. made.size ≡ size.entry) }
    ensures align { IfOk result (λ made. made.align ≡ align.entry) }
    ensures baseline { IfOk result (λ made. made.baseline ≡ baseline.entry) }
{
    let same = crate::fixed::fixed_style(
        alloc,
        size.as_slice(),
        align.as_slice(),
        baseline.as_slice(),
    )?;
    Ok(Styles {
        size,
        align,
        baseline,
        same,
    })
}

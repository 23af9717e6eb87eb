// What channels show that show the same of every row.
ghost use Rattle.std.specs.Prelude.{◌≡◌, IfOk};
ghost use Rattle.mark_encode.specs.inner.Scaled.{scaled_of, scaled_all};
ghost use Rattle.mark_encode.specs.inner.Fixed.{is_fixed, number_alone, fixed_number, color_alone, fixed_color, fixed_style};

use crate::channels::Scaled;
use crate::colors::color_at;
use crate::numbers::number_by;
use fixed_num::Num;
use mark_shapes::{Shown, TextStyle, shown_color, shown_number, style_of};
use std::alloc::Global;
use text_kit::{Copies, OutOfMemory, Text};
use vega_spec::ChannelValue;

// Whether a value is the same for every row.
fn is_fixed(value: &ChannelValue) -> bool
    ensures { result ≡ is_fixed value.now }
{
    if value.test.is_some() {
        return false;
    }
    if value.signal.is_some() {
        return false;
    }
    !value.field.is_some()
}

// The number that a value shows of every row, if it is the same for all and in range.
fn number_alone(far: bool, scaled: &Scaled) -> Option<Shown<Num>>
    ensures { result ≡ number_alone far (scaled_of scaled.now) }
{
    if !is_fixed(scaled.value) {
        return None;
    }
    let number = number_by(far, scaled, &scaled.value.value)?;
    Some(shown_number(number))
}

/// The number that the values of a channel show of every row, where the first of them is the same for all; None where it isn't, or where the
/// number is out of range.
pub fn fixed_number(far: bool, values: &[Scaled]) -> Option<Shown<Num>>
    ensures { result ≡ fixed_number far (scaled_all values.now) }
{
    let [first, ..] = values else {
        return Some(Shown::Absent);
    };
    number_alone(far, first)
}

// The colour that a value shows of every row, if it is the same for all.
fn color_alone(alloc: Global, scaled: &Scaled) -> Result<Option<Shown<Text>>, OutOfMemory>
    ensures { IfOk result (λ color. color ≡ color_alone (scaled_of scaled.now)) }
{
    if !is_fixed(scaled.value) {
        return Ok(None);
    }
    let cell = Copies::copied(&scaled.value.value, alloc)?;
    let color = color_at(alloc, scaled.scale, scaled.value.band, cell)?;
    Ok(Some(shown_color(color)))
}

/// The colour that the values of a channel show of every row, where the first of them is the same for all.
pub fn fixed_color(alloc: Global, values: &[Scaled]) -> Result<Option<Shown<Text>>, OutOfMemory>
    ensures { IfOk result (λ color. color ≡ fixed_color (scaled_all values.now)) }
{
    let [first, ..] = values else {
        return Ok(Some(Shown::Absent));
    };
    color_alone(alloc, first)
}

/// How the texts of all rows are set by the values of the channels that say so, where the first of each is the same for all.
pub fn fixed_style(
    alloc: Global,
    sizes: &[Scaled],
    aligns: &[Scaled],
    baselines: &[Scaled],
) -> Result<Option<TextStyle>, OutOfMemory>
    ensures { IfOk result (λ style. style ≡ fixed_style (scaled_all sizes.now) (scaled_all aligns.now) (scaled_all baselines.now)) }
{
    let Some(size) = fixed_number(false, sizes) else {
        return Ok(None);
    };
    let Some(align) = fixed_color(alloc, aligns)? else {
        return Ok(None);
    };
    let Some(baseline) = fixed_color(alloc, baselines)? else {
        return Ok(None);
    };
    Ok(Some(style_of(size, align, baseline)))
}

// Places on bands, by what is known of a cell.
ghost use Rattle.std.specs.Prelude.{◌≡◌, ◌↔◌, ◌+ℤ◌, ◌*ℤ◌, pos, false, Some, Ok, IsTrue};
ghost use Rattle.std.specs.Option.{option_map, ok_or};
ghost use Rattle.std.specs.Ordering.{int_eq};
ghost use Rattle.fixed_num.specs.Number.{million, rounded};
ghost use Rattle.fixed_num.specs.Ranges.{in_range};
ghost use Rattle.scale_kit.specs.Scale.{IsScale, HasBands};
ghost use Rattle.scale_kit.specs.Places.{place_of, place_in_band_of};
ghost use Rattle.scale_index.specs.inner.Known.{known_of, place_after};

use crate::known::Known;
use cell_value::Cell;
use fixed_num::Num;
use scale_kit::{Overflow, Scale, band_width, place_in_band};

// Whether a share is one half.
fn is_half(share: Num) -> bool
    ensures { result ≡ int_eq share (pos 500000) }
{
    share.millionths() == 500_000
}

// Whether a scale has bands.
fn has_bands(s: &Scale) -> bool
    ensures { IsTrue result ↔ HasBands s.now }
{
    match s {
        Scale::Band { .. } => true,
        Scale::Point { .. } => true,
        Scale::Linear { .. } | Scale::Time { .. } | Scale::Ordinal { .. } | Scale::Ramp { .. } => {
            false
        }
    }
}

// How far so many widths are; None exactly where that is out of range.
#[tactic(auto, using(fixed_num::proofs::RangeLemmas::in_range_from_exact))]
fn widths(width: Num, share: Num) -> Option<Num>
    ensures { result ≡ in_range (rounded (share *ℤ width) million) }
{
    share.mul(width)
}

// The place so far after another; None exactly where it is out of range.
#[tactic(auto, using(fixed_num::proofs::RangeLemmas::in_range_from_exact))]
fn moved(end: Num, way: Num) -> Option<Num>
    ensures { result ≡ in_range (end +ℤ way) }
{
    end.add(way)
}

// The place so many widths after another.
fn place_after(end: Num, width: Num, share: Num) -> Option<Num>
    ensures { result ≡ place_after end width share }
{
    let way = widths(width, share)?;
    moved(end, way)
}

// A place as an answer.
fn placed(place: Option<Num>) -> Result<Option<Num>, Overflow>
    ensures { result ≡ ok_or (option_map Some place) (record {}) }
{
    match place {
        Some(place) => Ok(Some(place)),
        None => Err(Overflow),
    }
}

// The place so many widths from the lesser end of a cell's band, by the place of that end; a cell without one is asked of the scale.
fn place_from_end(
    s: &Scale,
    v: &Cell,
    end: Option<Num>,
    share: Num,
) -> Result<Option<Num>, Overflow>
    requires scale { IsScale s.now }
    requires bands { HasBands s.now }
    requires end { Ok end ≡ place_of s.now v.now }
    requires aside { int_eq share (pos 500000) ≡ false }
    ensures { result ≡ place_in_band_of s.now v.now share }
{
    match end {
        Some(end) => placed(place_after(end, band_width(s), share)),
        None => place_in_band(s, v, share),
    }
}

// The place so many widths from the lesser end of a cell's band, by the cell's own; where that is out of range, the scale is asked.
fn place_aside(
    s: &Scale,
    v: &Cell,
    place: Result<Option<Num>, Overflow>,
    share: Num,
) -> Result<Option<Num>, Overflow>
    requires scale { IsScale s.now }
    requires bands { HasBands s.now }
    requires place { place ≡ place_of s.now v.now }
    requires aside { int_eq share (pos 500000) ≡ false }
    ensures { result ≡ place_in_band_of s.now v.now share }
{
    match place {
        Ok(end) => place_from_end(s, v, end, share),
        Err(_) => place_in_band(s, v, share),
    }
}

/// The place of a cell on its band, by what is known of the cell.
pub(crate) fn known_in_band(
    s: &Scale,
    v: &Cell,
    known: &Known,
    share: Num,
) -> Result<Option<Num>, Overflow>
    requires scale { IsScale s.now }
    requires known { known.now ≡ known_of s.now v.now }
    ensures { result ≡ place_in_band_of s.now v.now share }
{
    if is_half(share) {
        return known.centre;
    }
    if has_bands(s) {
        place_aside(s, v, known.place, share)
    } else {
        known.place
    }
}

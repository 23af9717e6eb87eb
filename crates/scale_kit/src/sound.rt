//! Which scales the calls of this crate take.
ghost use Rattle.std.specs.Prelude.{◌≡◌, ◌↔◌, [], ◌≤ℤ◌, IsTrue};
ghost use Rattle.time_calc.specs.Instants.{stands_for_instant};
ghost use Rattle.scale_kit.specs.Scale.{IsPadding, IsPixel, IsRange, AreInstants, IsScale};

use crate::scale::Scale;
use cell_value::Cell;
use fixed_num::Num;

/// The first instant in range, in millionths of a millisecond since 1970.
const FIRST_INSTANT: i128 = -62_135_596_800_000_000_000;

/// The last.
const LAST_INSTANT: i128 = 253_370_764_799_999_000_000;

// Whether a padding is from 0 to 1.
fn is_padding(padding: Num) -> bool
    ensures { IsTrue result ↔ IsPadding padding }
{
    let millionths = padding.millionths();
    0 <= millionths && millionths <= 1_000_000
}

// Whether an end of a range is from 0 to 10^11.
fn is_pixel(end: Num) -> bool
    ensures { IsTrue result ↔ IsPixel end }
{
    let millionths = end.millionths();
    0 <= millionths && millionths <= 100_000_000_000_000_000
}

// Whether both ends of a range are.
fn is_range(r0: Num, r1: Num) -> bool
    ensures { IsTrue result ↔ IsRange (r0, r1) }
{
    is_pixel(r0) && is_pixel(r1)
}

/// Whether a number stands for an instant in range.
pub fn is_instant(n: Num) -> bool
    ensures { result ≡ stands_for_instant n }
{
    FIRST_INSTANT <= n.millionths() && n.millionths() <= LAST_INSTANT
}

// Whether both ends of a domain do.
fn are_instants(d0: Num, d1: Num) -> bool
    ensures { IsTrue result ↔ AreInstants (d0, d1) }
{
    is_instant(d0) && is_instant(d1)
}

// Whether the ends of a domain stand in order.
fn is_rising(d0: Num, d1: Num) -> bool
    ensures { IsTrue result ↔ (d0 ≤ℤ d1) }
{
    d0.millionths() <= d1.millionths()
}

// Whether a range has entries for the cells of a domain.
fn has_entries(domain: &[Cell], range: &[Cell]) -> bool
    ensures { IsTrue result ↔ (range.now ≡ [] → domain.now ≡ []) }
{
    !range.is_empty() || domain.is_empty()
}

// Whether the ends of the domain of a ramp are instants where they have to be.
fn are_ramp_ends(time: bool, d0: Num, d1: Num) -> bool
    ensures { IsTrue result ↔ (IsTrue time → AreInstants (d0, d1)) }
{
    !time || are_instants(d0, d1)
}

impl Scale {
    /// Whether the scale is one that the calls of this crate take: the ends of a continuous domain stand in order, and are instants in
    /// range where the scale is one of time; the ends of a range are from 0 to 10^11; paddings are from 0 to 1; only an empty domain has an
    /// empty range.
    pub fn is_sound(&self) -> bool
        ensures { IsTrue result ↔ IsScale self.now }
    {
        match self {
            Scale::Linear { d0, d1, r0, r1 } => is_rising(*d0, *d1) && is_range(*r0, *r1),
            Scale::Time { d0, d1, r0, r1 } => {
                is_rising(*d0, *d1) && are_instants(*d0, *d1) && is_range(*r0, *r1)
            }
            Scale::Band {
                inner,
                outer,
                r0,
                r1,
                ..
            } => is_padding(*inner) && is_padding(*outer) && is_range(*r0, *r1),
            Scale::Point { outer, r0, r1, .. } => is_padding(*outer) && is_range(*r0, *r1),
            Scale::Ordinal { domain, range } => has_entries(domain.as_slice(), range.as_slice()),
            Scale::Ramp { time, d0, d1, .. } => {
                is_rising(*d0, *d1) && are_ramp_ends(*time, *d0, *d1)
            }
        }
    }
}

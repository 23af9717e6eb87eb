//! Places of cells on scales, and the numbers at places.
ghost use Rattle.std.specs.Prelude.{◌≡◌, ◌≢◌, [], position, pos, Option, Some, None, IsSome, if◌then◌else◌, IfSome, length, unwrap_or};
ghost use Rattle.std.specs.Option.{option_map, option_copied, ok_or};
ghost use Rattle.fixed_num.specs.Ranges.{is_within};
ghost use Rattle.cell_value.specs.Cell.{same_cells};
ghost use Rattle.scale_kit.specs.Scale.{IsScale, HasBands, HasRange, HasInverse, IsRange};
ghost use Rattle.scale_kit.specs.Bands.{AreBands, place_of_band};
ghost use Rattle.scale_kit.specs.Lines as lines;
ghost use Rattle.scale_kit.specs.Places.{the_number, in_time, the_instant, domain_cells, domain_index, bands_of, entry_at, entry_number};
ghost use Rattle.scale_kit.specs.Places.{exact_place_at, reached_place, place_of, reached_on_band, band_place_at, place_in_band_of};
ghost use Rattle.scale_kit.specs.Places.{band_width_of, base_of, inverse_of, inverse_within};
ghost use Rattle.scale_kit.specs.inner.Between.{IsBelow};

use crate::bands::Bands;
use crate::lines::{number_at_place, number_within, place_of_number, place_within};
use crate::scale::{Overflow, Scale};
use crate::shares::number;
use crate::sound::is_instant;
use cell_value::Cell;
use fixed_num::Num;

/// The number in a cell; None where it is none.
pub fn the_number(v: &Cell) -> Option<Num>
    ensures { result ≡ the_number v.now }
{
    match v {
        Cell::Number(n) => Some(*n),
        Cell::Null | Cell::Flag(_) | Cell::Text(_) | Cell::Pair(..) => None,
    }
}

// The number where it stands for an instant in range.
fn in_time(n: Num) -> Option<Num>
    ensures { result ≡ in_time n }
{
    if is_instant(n) { Some(n) } else { None }
}

/// The instant in range for which a cell stands; None where it stands for none.
pub fn the_instant(v: &Cell) -> Option<Num>
    ensures { result ≡ the_instant v.now }
{
    in_time(the_number(v)?)
}

/// The cells of a discrete domain.
pub fn domain_cells(s: &Scale) -> &[Cell]
    ensures { result.now ≡ domain_cells s.now }
{
    match s {
        Scale::Band { domain, .. } => domain.as_slice(),
        Scale::Point { domain, .. } => domain.as_slice(),
        Scale::Ordinal { domain, .. } => domain.as_slice(),
        Scale::Linear { .. } | Scale::Time { .. } | Scale::Ramp { .. } => &[],
    }
}

// Where a cell stands first in a domain.
fn index_in(domain: &[Cell], v: &Cell) -> Option<usize>
    ensures { result ≡ position (same_cells v.now) domain.now }
{
    domain.iter().position(|cell| v.same(cell))
}

/// Where a cell stands first in the domain; None where it isn't there.
pub fn domain_index(s: &Scale, v: &Cell) -> Option<usize>
    ensures value { result ≡ domain_index s.now v.now }
    ensures there { IsBelow (length (domain_cells s.now)) result }
{
    index_in(domain_cells(s), v)
}

/// The entry of a range for an index.
pub fn entry_at(range: &[Cell], index: usize) -> Option<&Cell>
    requires { range.now ≢ [] }
    ensures { option_copied result ≡ entry_at range.now index }
{
    range.get(index % range.len())
}

// A number as an answer.
fn answered(n: Option<Num>) -> Result<Num, Overflow>
    ensures { result ≡ ok_or n (record {}) }
{
    n.ok_or(Overflow)
}

// A place as an answer.
fn placed(place: Option<Num>) -> Result<Option<Num>, Overflow>
    ensures { result ≡ ok_or (option_map Some place) (record {}) }
{
    match place {
        Some(place) => Ok(Some(place)),
        None => Err(Overflow),
    }
}

// The place of a number, if there is one.
fn place_on_line(
    domain: (Num, Num),
    range: (Num, Num),
    v: Option<Num>,
) -> Result<Option<Num>, Overflow>
    requires { IsRange range }
    ensures { result ≡ reached_place (option_map (lines.place_of_number domain range) v) }
{
    match v {
        Some(v) => placed(place_of_number(domain, range, v)),
        None => Ok(None),
    }
}

// The bands of a band or point scale.
fn bands_of(s: &Scale) -> Option<Bands>
    requires { IsScale s.now }
    ensures value { result ≡ bands_of s.now }
    ensures asked { IfSome result AreBands }
    ensures count { IfSome result (λ b. b.count ≡ length (domain_cells s.now)) }
{
    match s {
        Scale::Band {
            domain,
            inner,
            outer,
            r0,
            r1,
        } => Some(Bands {
            count: domain.len(),
            inner: *inner,
            outer: *outer,
            r0: *r0,
            r1: *r1,
        }),
        Scale::Point {
            domain,
            outer,
            r0,
            r1,
        } => Some(Bands {
            count: domain.len(),
            inner: number(1_000_000),
            outer: *outer,
            r0: *r0,
            r1: *r1,
        }),
        Scale::Linear { .. } | Scale::Time { .. } | Scale::Ordinal { .. } | Scale::Ramp { .. } => {
            None
        }
    }
}

// The place on a band, if the cell has one.
fn share_answer(bands: &Bands, share: Num, index: Option<usize>) -> Result<Option<Num>, Overflow>
    requires bands { AreBands bands.now }
    requires there { IsBelow bands.now.count index }
    ensures { result ≡ reached_on_band bands.now share index }
{
    match index {
        Some(index) => placed(bands.place_on(index, share)),
        None => Ok(None),
    }
}

// The place of a band, if the cell has one.
fn band_answer(bands: &Bands, index: Option<usize>) -> Result<Option<Num>, Overflow>
    requires bands { AreBands bands.now }
    requires there { IsBelow bands.now.count index }
    ensures { result ≡ reached_place (option_map (place_of_band bands.now) index) }
{
    match index {
        Some(index) => Ok(Some(bands.place(index))),
        None => Ok(None),
    }
}

// The number that a range has for a cell, if it has one.
fn entry_place(range: &[Cell], index: Option<usize>) -> Option<Num>
    requires { IsSome index → range.now ≢ [] }
    ensures { result ≡ entry_number range.now index }
{
    the_number(entry_at(range, index?)?)
}

/// The place of a cell, by where it stands in the domain.
pub fn place_at(s: &Scale, v: &Cell, index: Option<usize>) -> Result<Option<Num>, Overflow>
    requires scale { IsScale s.now }
    requires there { IsBelow (length (domain_cells s.now)) index }
    ensures { result ≡ reached_place (exact_place_at s.now v.now index) }
{
    match s {
        Scale::Linear { d0, d1, r0, r1 } => place_on_line((*d0, *d1), (*r0, *r1), the_number(v)),
        Scale::Time { d0, d1, r0, r1 } => place_on_line((*d0, *d1), (*r0, *r1), the_instant(v)),
        Scale::Ordinal { range, .. } => Ok(entry_place(range.as_slice(), index)),
        Scale::Ramp { .. } => Ok(None),
        Scale::Band { .. } | Scale::Point { .. } => match bands_of(s) {
            Some(bands) => band_answer(&bands, index),
            None => Ok(None),
        },
    }
}

/// The place of a cell on its band, by where it stands in the domain.
pub fn place_in_band_at(
    s: &Scale,
    v: &Cell,
    share: Num,
    index: Option<usize>,
) -> Result<Option<Num>, Overflow>
    requires scale { IsScale s.now }
    requires there { IsBelow (length (domain_cells s.now)) index }
    ensures { result ≡ band_place_at s.now v.now share index }
{
    match bands_of(s) {
        Some(bands) => share_answer(&bands, share, index),
        None => place_at(s, v, index),
    }
}

/// The place of a cell; None exactly where it has none, and an error exactly where its place is out of range. It takes as many steps as
/// the domain has cells.
pub fn place(s: &Scale, v: &Cell) -> Result<Option<Num>, Overflow>
    requires { IsScale s.now }
    ensures { result ≡ place_of s.now v.now }
{
    place_at(s, v, domain_index(s, v))
}

/// The place of a cell on its band, `share` widths from its lesser end, its centre for one half; on a scale without bands the place of the
/// cell. None exactly where the cell has no place, and an error exactly where so many widths are out of range by themselves, or the place
/// is.
pub fn place_in_band(s: &Scale, v: &Cell, share: Num) -> Result<Option<Num>, Overflow>
    requires { IsScale s.now }
    ensures { result ≡ place_in_band_of s.now v.now share }
{
    place_in_band_at(s, v, share, domain_index(s, v))
}

/// The width of the bands of a band or point scale, 0 for an empty domain.
pub fn band_width(s: &Scale) -> Num
    requires scale { IsScale s.now }
    requires bands { HasBands s.now }
    ensures { result ≡ band_width_of s.now }
{
    match bands_of(s) {
        Some(bands) => bands.width(),
        None => number(0),
    }
}

// The place of 0 where a domain holds it, else the beginning of the range.
fn base_on_line(domain: (Num, Num), range: (Num, Num)) -> Num
    requires { IsRange range }
    ensures { result ≡ (if is_within domain.0 domain.1 (pos 0) then lines.place_of_number domain range (pos 0) else range.0) }
{
    let zero = number(0);
    if domain.0 <= zero && zero <= domain.1 {
        place_within(domain, range, zero)
    } else {
        range.0
    }
}

// The place of 0 where there is a band for it, else the beginning of the range.
fn base_on_bands(bands: &Bands, index: Option<usize>) -> Num
    requires bands { AreBands bands.now }
    requires there { IsBelow bands.now.count index }
    ensures { result ≡ unwrap_or (option_map (place_of_band bands.now) index) bands.now.r0 }
{
    match index {
        Some(index) => bands.place(index),
        None => bands.r0,
    }
}

/// Where bars begin on a linear, time, band or point scale: at the place of 0 where the domain holds it, else at the beginning of the
/// range.
pub fn base_of(s: &Scale) -> Num
    requires scale { IsScale s.now }
    requires range { HasRange s.now }
    ensures { result ≡ base_of s.now }
{
    match s {
        Scale::Linear { d0, d1, r0, r1 } => base_on_line((*d0, *d1), (*r0, *r1)),
        Scale::Time { d0, d1, r0, r1 } => base_on_line((*d0, *d1), (*r0, *r1)),
        Scale::Band { .. } | Scale::Point { .. } | Scale::Ordinal { .. } | Scale::Ramp { .. } => {
            match bands_of(s) {
                Some(bands) => base_on_bands(&bands, domain_index(s, &Cell::Number(number(0)))),
                None => number(0),
            }
        }
    }
}

/// The number at a place on a linear or time scale whose range isn't one point; an error exactly where it is out of range.
pub fn invert(s: &Scale, p: Num) -> Result<Num, Overflow>
    requires { HasInverse s.now }
    ensures { result ≡ inverse_of s.now p }
{
    match s {
        Scale::Linear { d0, d1, r0, r1 } => answered(number_at_place((*d0, *d1), (*r0, *r1), p)),
        Scale::Time { d0, d1, r0, r1 } => answered(number_at_place((*d0, *d1), (*r0, *r1), p)),
        Scale::Band { .. } | Scale::Point { .. } | Scale::Ordinal { .. } | Scale::Ramp { .. } => {
            Err(Overflow)
        }
    }
}

/// The number at a place on a linear or time scale whose range isn't one point, cut to the domain.
pub fn invert_within(s: &Scale, p: Num) -> Num
    requires scale { IsScale s.now }
    requires inverse { HasInverse s.now }
    ensures { result ≡ inverse_within s.now p }
{
    match s {
        Scale::Linear { d0, d1, r0, r1 } => number_within((*d0, *d1), (*r0, *r1), p),
        Scale::Time { d0, d1, r0, r1 } => number_within((*d0, *d1), (*r0, *r1), p),
        Scale::Band { .. } | Scale::Point { .. } | Scale::Ordinal { .. } | Scale::Ramp { .. } => {
            number(0)
        }
    }
}

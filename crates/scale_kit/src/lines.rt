//! Domains of numbers, laid over ranges. A domain and a range are each given by their ends.
ghost use Rattle.std.specs.Prelude.{◌≡◌, ◌≢◌, None, ◌≤ℤ◌};
ghost use Rattle.fixed_num.specs.Ranges.{in_range};
ghost use Rattle.scale_kit.specs.Scale.{IsRange};
ghost use Rattle.scale_kit.specs.Lines.{middle, place_of_number, number_at_place, cut_to};
ghost use Rattle.scale_kit.specs.inner.Between.{IsBetween};

use crate::shares::{along, between, moved};
use fixed_num::Num;

/// The middle of a range.
pub fn middle(range: (Num, Num)) -> Num
    requires { IsRange range }
    ensures value { result ≡ middle range }
    ensures within { IsBetween range.0 range.1 result }
{
    moved(range, 1, 2)
}

/// The place of a number; None exactly where it is out of range.
pub fn place_of_number(domain: (Num, Num), range: (Num, Num), v: Num) -> Option<Num>
    requires { IsRange range }
    ensures { result ≡ in_range (place_of_number domain range v) }
{
    if domain.0 < domain.1 {
        along(range.0, (domain.0, v), range, domain)
    } else {
        Some(middle(range))
    }
}

/// The place of a number of the domain, which is one between the ends of the range.
pub fn place_within(domain: (Num, Num), range: (Num, Num), v: Num) -> Num
    requires range { IsRange range }
    requires from { domain.0 ≤ℤ v }
    requires to { v ≤ℤ domain.1 }
    ensures value { result ≡ place_of_number domain range v }
    ensures within { IsBetween range.0 range.1 result }
{
    if domain.0 < domain.1 {
        moved(range, between(domain.0, v), between(domain.0, domain.1))
    } else {
        middle(range)
    }
}

/// The number at a place; None exactly where it is out of range.
pub fn number_at_place(domain: (Num, Num), range: (Num, Num), p: Num) -> Option<Num>
    requires { range.0 ≢ range.1 }
    ensures { result ≡ in_range (number_at_place domain range p) }
{
    along(domain.0, (range.0, p), domain, range)
}

/// A number cut to a domain.
pub fn cut_to(domain: (Num, Num), v: Num) -> Num
    requires { domain.0 ≤ℤ domain.1 }
    ensures value { result ≡ cut_to domain v }
    ensures from { domain.0 ≤ℤ result }
    ensures to { result ≤ℤ domain.1 }
{
    if v < domain.0 {
        domain.0
    } else if v > domain.1 {
        domain.1
    } else {
        v
    }
}

// The end of the domain on whose side a place lies, where the number there is out of range.
fn far_end(domain: (Num, Num), range: (Num, Num), p: Num) -> Num
    requires rising { domain.0 ≤ℤ domain.1 }
    requires wide { range.0 ≢ range.1 }
    ensures { in_range (number_at_place domain range p) ≡ None → result ≡ cut_to domain (number_at_place domain range p) }
{
    let _ = (domain.0.millionths(), domain.1.millionths());
    if range.0.millionths() < range.1.millionths() {
        if range.0.millionths() < p.millionths() {
            domain.1
        } else {
            domain.0
        }
    } else if range.0.millionths() < p.millionths() {
        domain.0
    } else {
        domain.1
    }
}

/// The number at a place, cut to the domain.
pub fn number_within(domain: (Num, Num), range: (Num, Num), p: Num) -> Num
    requires rising { domain.0 ≤ℤ domain.1 }
    requires wide { range.0 ≢ range.1 }
    ensures { result ≡ cut_to domain (number_at_place domain range p) }
{
    match number_at_place((domain.0, domain.1), (range.0, range.1), p) {
        Some(v) => cut_to(domain, v),
        None => far_end(domain, range, p),
    }
}

// The value of a JSON number: one walk over its digits, however many they are and whatever its exponent.
ghost use Rattle.std.specs.Prelude.{◌≡◌, ◌+◌, ◌*◌, ◌^◌, ◌<◌, ◌≤◌, ◌==◌, ◌++◌, ◌∷◌, [], Option, Some, None, unsigned_abs};
ghost use Rattle.std.specs.Option.{SomeIff};
ghost use Rattle.std.specs.List.{list_all};
ghost use Rattle.fixed_num.specs.Number.{limit, IsNumber, signed, rounded};
ghost use Rattle.fixed_num.specs.JsonNumber.{number_of, AreDigits, decimal_value};
ghost use Rattle.fixed_num.specs.inner.Digits.{number_after, rounds_away, rounded_at};
ghost use Rattle.fixed_num.specs.inner.View.{parts};

use crate::json_number::JsonNumber;
use crate::num::{LIMIT, Num};

// The whole number of this size, below zero where the flag is set.
fn with_sign(minus: bool, size: u128) -> i128
    requires { size ≤ limit }
    ensures value { result ≡ signed minus size }
    ensures bound { unsigned_abs result ≤ limit }
{
    if minus { -(size as i128) } else { size as i128 }
}

// The number of this size, below zero where the flag is set; None exactly where it is out of range.
fn of_size(minus: bool, size: u128) -> Option<Num>
    ensures { SomeIff result (IsNumber (signed minus size)) (signed minus size) }
{
    if size > LIMIT {
        return None;
    }
    Num::of_millionths(with_sign(minus, size))
}

// The number that digits make after `start`; None exactly where it is above the limit.
fn read_digits(start: u128, digits: &[u8]) -> Option<u128>
    requires in_range { start ≤ limit }
    requires digits { AreDigits digits.now }
    ensures { SomeIff result (number_after start digits.now ≤ limit) (number_after start digits.now) }
{
    let mut number = start;
    for digit in digits {
        number = number * 10 + u128::from(*digit - b'0');
        if number > LIMIT {
            return None;
        }
    }
    Some(number)
}

fn all_zeros(digits: &[u8]) -> bool
    ensures { result ≡ list_all (λ d. d == 48) digits.now }
{
    digits.iter().all(|digit| *digit == b'0')
}

// Whether digits in two pieces are all zeros.
#[tactic(auto, using(crate::proofs::DigitLemmas::zeros_joined))]
fn are_zeros(more: &[u8], last: &[u8]) -> bool
    ensures { result ≡ list_all (λ d. d == 48) (more.now ++ last.now) }
{
    all_zeros(more) && all_zeros(last)
}

// Whether digits that are cut off round away from zero, by the first of them and those after it.
#[tactic(auto, using(crate::proofs::DigitLemmas::rounding_by_first))]
fn rounds_by_first(minus: bool, first: u8, more: &[u8], last: &[u8]) -> bool
    requires digits { AreDigits (first ∷ more.now ++ last.now) }
    ensures { result ≡ rounds_away minus (first ∷ more.now ++ last.now) }
{
    if first != b'5' {
        first > b'5'
    } else if are_zeros(more, last) {
        !minus
    } else {
        true
    }
}

// Whether digits that are cut off round away from zero.
#[tactic(auto, using(crate::proofs::DigitLemmas::rounds_nothing))]
fn rounds(minus: bool, more: &[u8], last: &[u8]) -> bool
    requires digits { AreDigits (more.now ++ last.now) }
    ensures { result ≡ rounds_away minus (more.now ++ last.now) }
{
    match more {
        [first, more @ ..] => rounds_by_first(minus, *first, more, last),
        [] => match last {
            [first, last @ ..] => rounds_by_first(minus, *first, &[], last),
            [] => false,
        },
    }
}

// The number of digits in two pieces; None exactly where it is above the limit.
fn read_number(front: &[u8], back: &[u8]) -> Option<u128>
    requires digits { AreDigits (front.now ++ back.now) }
    ensures { SomeIff result (number_of (front.now ++ back.now) ≤ limit) (number_of (front.now ++ back.now)) }
{
    read_digits(read_digits(0, front)?, back)
}

// A number whose digits are cut in two, each in two pieces, rounded where it is cut; None exactly where that is out of range.
#[tactic(auto, using(crate::proofs::DigitLemmas::rounding_off))]
fn round_off(minus: bool, kept: &[u8], kept_last: &[u8], cut: &[u8], cut_last: &[u8]) -> Option<Num>
    requires kept_digits { AreDigits (kept.now ++ kept_last.now) }
    requires cut_digits { AreDigits (cut.now ++ cut_last.now) }
    ensures { SomeIff result
        (IsNumber (rounded_at minus (kept.now ++ kept_last.now) (cut.now ++ cut_last.now)))
        (rounded_at minus (kept.now ++ kept_last.now) (cut.now ++ cut_last.now)) }
{
    let size = read_number(kept, kept_last)?;
    if rounds(minus, cut, cut_last) {
        of_size(minus, size + 1)
    } else {
        of_size(minus, size)
    }
}

// Digits before and after a point, which moves so many places to the right; None exactly where that is out of range.
#[tactic(auto, using(crate::proofs::ScaleLemmas::scaling))]
fn scale_up(minus: bool, whole: &[u8], fraction: &[u8], places: u128) -> Option<Num>
    requires digits { AreDigits (whole.now ++ fraction.now) }
    ensures { SomeIff result
        (IsNumber (signed minus (number_of (whole.now ++ fraction.now) * 10 ^ places)))
        (signed minus (number_of (whole.now ++ fraction.now) * 10 ^ places)) }
{
    let size = read_number(whole, fraction)?;
    if size == 0 {
        return of_size(minus, 0);
    }
    if places > 21 {
        return None;
    }
    of_size(minus, size.checked_mul(10_u128.pow(places as u32))?)
}

// Digits before and after a point, which moves so many places to the left; None exactly where that is out of range.
fn scale_down(minus: bool, whole: &[u8], fraction: &[u8], places: u128) -> Option<Num>
    requires some { 0 < places }
    requires digits { AreDigits (whole.now ++ fraction.now) }
    ensures { SomeIff result
        (IsNumber (rounded (signed minus (number_of (whole.now ++ fraction.now))) (10 ^ places)))
        (rounded (signed minus (number_of (whole.now ++ fraction.now))) (10 ^ places)) }
{
    let len = whole.len() + fraction.len();
    if places > len as u128 {
        return of_size(false, 0);
    }
    let kept = len - places as usize;
    if kept <= whole.len() {
        let (kept, cut) = whole.split_at(kept);
        round_off(minus, kept, &[], cut, fraction)
    } else {
        let (kept, cut) = fraction.split_at(kept - whole.len());
        round_off(minus, whole, kept, cut, &[])
    }
}

impl JsonNumber<'_> {
    // The value where the exponent is past every number; None exactly where that is out of range.
    fn far_value(self) -> Option<Num>
        requires whole { AreDigits self.whole.now }
        requires fraction { AreDigits self.fraction.now }
        requires far { limit < number_of self.exponent.digits.now }
        ensures { SomeIff result (IsNumber (decimal_value (parts self.entry))) (decimal_value (parts self.entry)) }
    {
        if self.exponent.minus {
            return of_size(false, 0);
        }
        if are_zeros(self.whole, self.fraction) {
            return of_size(false, 0);
        }
        None
    }

    /// The value in millionths, rounded; None exactly where that is out of range.
    pub(crate) fn value(self) -> Option<Num>
        requires whole { AreDigits self.whole.now }
        requires fraction { AreDigits self.fraction.now }
        requires exponent { AreDigits self.exponent.digits.now }
        ensures { SomeIff result (IsNumber (decimal_value (parts self.entry))) (decimal_value (parts self.entry)) }
    {
        let Some(size) = read_digits(0, self.exponent.digits) else {
            return self.far_value();
        };
        let places = with_sign(self.exponent.minus, size) - self.fraction.len() as i128 + 6;
        if places < 0 {
            scale_down(self.minus, self.whole, self.fraction, places.unsigned_abs())
        } else {
            scale_up(self.minus, self.whole, self.fraction, places.unsigned_abs())
        }
    }
}

// The sums before values, and where values begin and end by them.
ghost use Rattle.std.specs.Prelude.{◌≡◌, ◌≢◌, ◌*◌, ◌≤◌, length, pos, neg_ℤ, IfOk, Some, None, ◌+ℤ◌, ◌-ℤ◌, ◌≤ℤ◌, ◌<ℤ◌, unsigned_abs};
ghost use Rattle.fixed_num.specs.Number.{limit, million, IsNumber, rounded};
ghost use Rattle.fixed_num.specs.Ranges.{in_range};
ghost use Rattle.plain_rows.specs.Rows.{most_listed};
ghost use Rattle.plain_rows.specs.declared.transforms.Offset.TheVariants.{Normalize as NormalizeOffset, Center as CenterOffset};
ghost use Rattle.plain_stacks.specs.Spans.{size, no_span, part_of, from_to, span_of};
ghost use Rattle.plain_stacks.specs.inner.Sums.{upward, downward, chosen, sums_of};

use fixed_num::Num;
use plain_rows::Offset;
use std::alloc::Global;
use text_kit::{OutOfMemory, Seq};

/// Where a value begins and ends; nothing of a value that isn't stacked.
#[derive(Clone, Copy, Debug)]
pub(crate) struct Span {
    /// Where it begins.
    pub start: Option<Num>,
    /// Where it ends.
    pub end: Option<Num>,
}

/// The sums of a partition; none where one is out of range.
#[derive(Debug, Drop)]
pub(crate) struct Sums {
    /// The sum before each value.
    pub before: Seq<Option<Num>>,
    /// How long all values are together.
    pub whole: Option<Num>,
}

// A value where it isn't negative, else 0.
fn upward(value: Num) -> i128
    ensures value { result ≡ upward value }
    ensures bound { (pos 0 ≤ℤ result) × (result ≤ℤ pos limit) }
{
    let value = value.millionths();
    if value < 0 { 0 } else { value }
}

// A value where it is negative, else 0.
fn downward(value: Num) -> i128
    ensures value { result ≡ downward value }
    ensures bound { (neg_ℤ (pos limit) ≤ℤ result) × (result ≤ℤ pos 0) }
{
    let value = value.millionths();
    if value < 0 { value } else { 0 }
}

// The sum before a value, by the sums of the values of both sides before it.
fn chosen(offset: Offset, up: i128, down: i128, value: Num) -> Option<Num>
    requires up { (pos 0 ≤ℤ up) × (up ≤ℤ pos (most_listed * limit)) }
    requires down { (neg_ℤ (pos (most_listed * limit)) ≤ℤ down) × (down ≤ℤ pos 0) }
    ensures { result ≡ in_range (chosen offset up down value) }
{
    match offset {
        Offset::Zero => {
            if value.millionths() < 0 {
                Num::of_millionths(down)
            } else {
                Num::of_millionths(up)
            }
        }
        Offset::Normalize | Offset::Center => Num::of_millionths(up - down),
    }
}

/// The sums of a partition, by its values in order.
pub(crate) fn sums_of(alloc: Global, offset: Offset, values: &[Num]) -> Result<Sums, OutOfMemory>
    requires { length values.now ≤ most_listed }
    ensures { IfOk result (λ sums. sums ≡ sums_of offset values.now) }
{
    let mut before = Seq::with_capacity(alloc, values.len())?;
    let mut up: i128 = 0;
    let mut down: i128 = 0;
    for value in values {
        before.push(chosen(offset, up, down, *value))?;
        up += upward(*value);
        down += downward(*value);
    }
    Ok(Sums {
        before,
        whole: Num::of_millionths(up - down),
    })
}

// A value on the other side of zero.
fn negated(value: Num) -> Num
    ensures { result ≡ neg_ℤ value }
{
    match Num::of_millionths(-value.millionths()) {
        Some(negated) => negated,
        None => unreachable!(),
    }
}

// How long a value is.
fn size(value: Num) -> Num
    ensures { result ≡ size value }
{
    if value.millionths() < 0 {
        negated(value)
    } else {
        value
    }
}

/// Nothing from nothing.
pub(crate) fn no_span() -> Span
    ensures { result ≡ no_span }
{
    Span {
        start: None,
        end: None,
    }
}

// `p` by `q`, rounded to the nearest, the middle going upward.
fn rounded(p: i128, q: i128) -> i128
    requires p_in_reach { unsigned_abs p ≤ 2 * million * limit }
    requires q_above_zero { pos 0 <ℤ q }
    requires q_in_reach { q ≤ℤ pos limit }
    ensures value { result ≡ rounded p (unsigned_abs q) }
    ensures bound { unsigned_abs p ≤ unsigned_abs q * limit → IsNumber result }
{
    (2 * p + q).div_euclid(2 * q)
}

// The sum before a value as its part of the whole.
fn start_part(whole: Num, before: Num) -> Option<Num>
    requires { whole ≢ pos 0 }
    ensures { result ≡ in_range (part_of whole before) }
{
    Num::of_millionths(rounded(before.millionths() * 1_000_000, size(whole).millionths()))
}

// The same sum with the value's own length.
fn end_part(whole: Num, before: Num, value: Num) -> Option<Num>
    requires { whole ≢ pos 0 }
    ensures { result ≡ in_range (part_of whole (before +ℤ size value)) }
{
    Num::of_millionths(rounded(
        (before.millionths() + size(value).millionths()) * 1_000_000,
        size(whole).millionths(),
    ))
}

// The sum of two numbers; None exactly where it is out of range.
fn sum(a: Num, b: Num) -> Option<Num>
    ensures { result ≡ in_range (a +ℤ b) }
{
    Num::of_millionths(a.millionths() + b.millionths())
}

// A value from its start to an end that is in range.
fn from_to(start: Num, end: Option<Num>) -> Option<Span>
    ensures { result ≡ from_to start end }
{
    Some(Span {
        start: Some(start),
        end: Some(end?),
    })
}

// A value from the sum before it.
fn from_zero(before: Num, value: Num) -> Option<Span>
    ensures { result ≡ from_to before (in_range (before +ℤ value)) }
{
    from_to(before, sum(before, value))
}

// A value as its part of the whole.
fn as_part(before: Num, whole: Num, value: Num) -> Option<Span>
    ensures { result ≡ span_of NormalizeOffset (Some before) (Some whole) None value }
{
    if whole.millionths() == 0 {
        return Some(no_span());
    }
    let start = start_part(whole, before)?;
    from_to(start, end_part(whole, before, value))
}

// Where a value begins in the middle.
fn middle_start(before: Num, whole: Num, greatest: Num) -> Option<Num>
    ensures { result ≡ in_range (rounded (greatest -ℤ whole) 2 +ℤ before) }
{
    let lack = rounded(greatest.millionths() - whole.millionths(), 2);
    Num::of_millionths(lack + before.millionths())
}

// A value where the middles of all stacks are level.
fn in_middle(before: Num, whole: Num, greatest: Num, value: Num) -> Option<Span>
    ensures { result ≡ span_of CenterOffset (Some before) (Some whole) (Some greatest) value }
{
    let start = middle_start(before, whole, greatest)?;
    from_to(start, sum(start, size(value)))
}

/// Where a value begins and ends, by the sum before it, the whole of its partition and the greatest whole; None exactly where one
/// of these that it needs is lacking, or the end is out of range.
pub(crate) fn span_of(
    offset: Offset,
    before: Option<Num>,
    whole: Option<Num>,
    greatest: Option<Num>,
    value: Num,
) -> Option<Span>
    ensures { result ≡ span_of offset before whole greatest value }
{
    match offset {
        Offset::Zero => from_zero(before?, value),
        Offset::Normalize => as_part(before?, whole?, value),
        Offset::Center => in_middle(before?, whole?, greatest?, value),
    }
}

// Bins, and the bin of a number.
ghost use Rattle.std.specs.Prelude.{◌≡◌, ◌≤ℤ◌, ◌<ℤ◌, ◌+ℤ◌, ◌-ℤ◌, pos, IfSome};
ghost use Rattle.std.specs.Int.{int_rem_euclid};
ghost use Rattle.fixed_num.specs.Number.{floored};
ghost use Rattle.plain_bins.specs.Bins.{low_end, high_end, bins_between, bins_of, start_of, bin_in};
ghost use Rattle.plain_bins.specs.inner.Sound.{AreBins};

use crate::extents::{greater, lesser};
use crate::steps::step_of;
use fixed_num::Num;
use plain_rows::BinOf;

/// Bins of one width side by side.
#[derive(Clone, Copy)]
pub struct Bins {
    /// Where the first begins.
    pub start: Num,
    /// How wide each is, over 0.
    pub step: Num,
    /// Where the last ends.
    pub stop: Num,
}

// The number that the bins have to begin at or before.
fn low_end(given: Option<(Num, Num)>, low: Num) -> Num
    ensures { result ≡ low_end given low }
{
    match given {
        Some((a, b)) => lesser(a, b),
        None => low,
    }
}

// The number that the bins have to end at or behind.
fn high_end(given: Option<(Num, Num)>, high: Num) -> Num
    ensures { result ≡ high_end given high }
{
    match given {
        Some((a, b)) => greater(a, b),
        None => high,
    }
}

// The bins of a width from a number to another; None exactly where an end is out of range.
fn bins_between(step: Num, low: Num, high: Num) -> Option<Bins>
    requires { pos 0 <ℤ step }
    ensures value { result ≡ bins_between step low high }
    ensures are { IfSome result AreBins }
{
    let start = low.floor_to(step)?;
    let top = high.ceil_to(step)?;
    let next = start.add(step)?;
    Some(Bins {
        start,
        step,
        stop: greater(top, next),
    })
}

/// The bins for numbers from `low` to `high`; None exactly where their width or an end is out of range.
pub fn bins_of(b: &BinOf, low: Num, high: Num) -> Option<Bins>
    requires { IfSome b.now.step (λ step. pos 0 <ℤ step) }
    ensures value { result ≡ bins_of b.now (low, high) }
    ensures are { IfSome result AreBins }
{
    let low = low_end(b.extent, low);
    let high = high_end(b.extent, high);
    bins_between(step_of(b, low, high)?, low, high)
}

// What is left of a number over whole widths from the start.
fn rest_from(start: Num, step: Num, v: Num) -> i128
    requires { pos 0 <ℤ step }
    ensures { result ≡ int_rem_euclid (v -ℤ start) step }
{
    (v.millionths() - start.millionths()).rem_euclid(step.millionths())
}

// The last multiple of a width, counted from the start, that isn't above a number.
#[tactic(auto, using(crate::proofs::BinLemmas::less_rest, crate::proofs::BinLemmas::behind_start, crate::proofs::BinLemmas::before_number))]
fn multiple_before(start: Num, step: Num, v: Num) -> Num
    requires above_zero { pos 0 <ℤ step }
    requires from { start ≤ℤ v }
    ensures { result ≡ start +ℤ floored (v -ℤ start) step }
{
    let _ = start.millionths();
    match Num::of_millionths(v.millionths() - rest_from(start, step, v)) {
        Some(multiple) => multiple,
        None => unreachable!(),
    }
}

// Where the last bin begins.
fn last_start(bins: Bins) -> Num
    requires { AreBins bins }
    ensures { result ≡ bins.stop -ℤ bins.step }
{
    let _ = (bins.start.millionths(), bins.stop.millionths());
    match bins.stop.sub(bins.step) {
        Some(start) => start,
        None => unreachable!(),
    }
}

// Where the bin that begins at a number ends.
fn end_from(start: Num, bins: Bins) -> Num
    requires are { AreBins bins }
    requires room { (start +ℤ bins.step) ≤ℤ bins.stop }
    ensures { result ≡ start +ℤ bins.step }
{
    let _ = (start.millionths(), bins.stop.millionths());
    match start.add(bins.step) {
        Some(end) => end,
        None => unreachable!(),
    }
}

// Where the bin of a number begins; that of the number at the stop is the last.
fn start_of(bins: Bins, v: Num) -> Num
    requires are { AreBins bins }
    requires from { bins.start ≤ℤ v }
    ensures value { result ≡ start_of bins v }
    ensures room { (result +ℤ bins.step) ≤ℤ bins.stop }
{
    lesser(multiple_before(bins.start, bins.step, v), last_start(bins))
}

/// The start and the end of the bin of a number; None exactly where it lies outside the bins.
pub fn bin_in(bins: Bins, v: Num) -> Option<(Num, Num)>
    requires { AreBins bins }
    ensures { result ≡ bin_in bins v }
{
    if v < bins.start {
        return None;
    }
    if bins.stop < v {
        return None;
    }
    let start = start_of(bins, v);
    Some((start, end_from(start, bins)))
}

// Numbers by number formats.
ghost use Rattle.std.specs.Prelude.{◌≡◌, ◌+◌, ◌*◌, ◌/◌, ◌^◌, ◌<◌, ◌≤◌, ◌++◌, IfSome, IfOk, OnOk, pos, unsigned_abs};
ghost use Rattle.std.specs.Prelude.{int_lt};
ghost use Rattle.fixed_num.specs.Number.{limit, million, rounded, signed};
ghost use Rattle.tick_kit.specs.Labels.{in_units, sign_of};
ghost use Rattle.guide_text.specs.Numbers.{decimals_for, hundredths, mark_of, size_of, written_with, formatted};

use crate::digits::{push_fraction, push_whole};
use crate::formats::{NumberFormat, NumberKind};
use fixed_num::Num;
use std::alloc::Global;
use text_kit::{OutOfMemory, Text};

// How many decimals a format writes, by those that it names and those that the labels have.
fn decimals_for(kind: NumberKind, named: Option<u32>, own: Option<u32>) -> u32
    requires named { IfSome named (λ n. n ≤ 6) }
    requires own { IfSome own (λ n. n ≤ 6) }
    ensures value { result ≡ decimals_for kind named own }
    ensures few { result ≤ 6 }
{
    match kind {
        NumberKind::Fixed => named.unwrap_or(own.unwrap_or(6)),
        NumberKind::Whole => 0,
        NumberKind::Percent => match named {
            Some(decimals) => decimals,
            None => match own {
                Some(decimals) => decimals.saturating_sub(2),
                None => 6,
            },
        },
    }
}

// The places by which a number is moved.
fn hundredths(kind: NumberKind) -> u32
    ensures value { result ≡ hundredths kind }
    ensures few { result ≤ 2 }
{
    match kind {
        NumberKind::Fixed => 0,
        NumberKind::Whole => 0,
        NumberKind::Percent => 2,
    }
}

// The sign at the end.
fn mark_of(kind: NumberKind) -> &'static str
    ensures { result.now ≡ mark_of kind }
{
    match kind {
        NumberKind::Fixed => "",
        NumberKind::Whole => "",
        NumberKind::Percent => "%",
    }
}

// The size of so many millionths, rounded to the nearest, the middle going upward.
#[tactic(auto, using(crate::proofs::UnitLemmas::nearest))]
fn nearest(negative: bool, millionths: u128) -> u128
    requires { millionths ≤ 10 ^ 29 }
    ensures value { rounded (signed negative millionths) million ≡ signed negative result }
    ensures bound { result ≤ millionths / 1000000 + 1 }
{
    let whole = millionths / 1_000_000;
    let rest = millionths % 1_000_000;
    if negative {
        if rest > 500_000 { whole + 1 } else { whole }
    } else {
        if rest >= 500_000 { whole + 1 } else { whole }
    }
}

// Whether a number is below zero.
fn is_negative(v: Num) -> bool
    ensures { result ≡ int_lt v (pos 0) }
{
    v.millionths() < 0
}

// The millionths of a number without its sign.
fn size_in_millionths(v: Num) -> u128
    ensures value { result ≡ unsigned_abs v }
    ensures bound { result ≤ limit }
{
    v.millionths().unsigned_abs()
}

// How many units of so many decimals a number counts, rounded, without its sign.
#[tactic(auto, using(crate::proofs::UnitLemmas::counting))]
fn units_of(places: u32, v: Num) -> u128
    requires { places ≤ 8 }
    ensures value { in_units places v ≡ signed (int_lt v (pos 0)) result }
    ensures bound { result ≤ 10 ^ 15 * 10 ^ places + 1 }
{
    nearest(is_negative(v), size_in_millionths(v) * 10_u128.pow(places))
}

// Adds a size that counts units of so many decimals.
#[tactic(auto, using(fixed_num::proofs::DigitLemmas::ten_pos, crate::proofs::UnitLemmas::whole_in_range))]
fn push_size(
    alloc: Global,
    out: &mut Text,
    comma: bool,
    decimals: u32,
    n: u128,
) -> Result<(), OutOfMemory>
    requires few { decimals ≤ 6 }
    requires in_range { n < (10 ^ 17 + 2) * 10 ^ decimals }
    ensures { OnOk result (out.new ≡ out.old ++ size_of comma decimals n) }
{
    push_whole(alloc, out, comma, n / 10_u128.pow(decimals))?;
    push_fraction(out, decimals, n)
}

// Adds the sign of a number that counts so many units.
#[tactic(auto, using(crate::proofs::UnitLemmas::signs))]
fn push_sign(out: &mut Text, negative: bool, units: u128) -> Result<(), OutOfMemory>
    ensures { OnOk result (out.new ≡ out.old ++ sign_of (signed negative units)) }
{
    if negative {
        if units > 0 {
            out.push_str("\u{2212}")
        } else {
            Ok(())
        }
    } else {
        Ok(())
    }
}

// A number of its kind, with so many decimals.
#[tactic(auto, using(crate::proofs::UnitLemmas::written_is))]
fn written_with(
    alloc: Global,
    comma: bool,
    kind: NumberKind,
    decimals: u32,
    v: Num,
) -> Result<Text, OutOfMemory>
    requires { decimals ≤ 6 }
    ensures { IfOk result (λ text. text ≡ written_with comma kind decimals v) }
{
    let units = units_of(decimals + hundredths(kind), v);
    let mut out = Text::new(alloc);
    push_sign(&mut out, is_negative(v), units)?;
    push_size(alloc, &mut out, comma, decimals, units)?;
    out.push_str(mark_of(kind))?;
    Ok(out)
}

/// A number by a format: with the decimals that the format names, at most 6, and else with 6; beside labels that have `own` decimals `f`
/// takes as many as they have, and `%` two fewer. `d` takes none. What rounds to zero has no sign, and the minus sign is U+2212.
#[tactic(auto, unfolding(crate::specs::Numbers::formatted))]
pub fn formatted(
    alloc: Global,
    format: &NumberFormat,
    own: Option<u32>,
    v: Num,
) -> Result<Text, OutOfMemory>
    requires named { IfSome format.now.decimals (λ n. n ≤ 6) }
    requires own { IfSome own (λ n. n ≤ 6) }
    ensures { IfOk result (λ text. text ≡ formatted format.now own v) }
{
    let decimals = decimals_for(format.kind, format.decimals, own);
    written_with(alloc, format.comma, format.kind, decimals, v)
}

//! Labels of numbers.
ghost use Rattle.std.specs.Prelude.{◌≡◌, ◌+◌, ◌-◌, ◌/◌, ◌%◌, ◌<◌, ◌≤◌, ◌++◌, [], ◌∷◌, slice_index, unsigned_abs, EachIndex, IfOk, OnOk};
ghost use Rattle.std.specs.Fmt.{decimal};
ghost use Rattle.fixed_num.specs.Decimal.{last_digits};
ghost use Rattle.fixed_num.specs.Number.{limit};
ghost use Rattle.tick_kit.specs.Labels.{decimals_within, decimals_of, comma_before, with_thousands, sign_of, fraction_of, size_label, in_units, number_label};

use fixed_num::Num;
use std::alloc::Global;
use text_kit::{OutOfMemory, Text};

// How many decimals a number needs that counts units of so many decimals.
fn decimals_within(places: u32, n: u128) -> u32
    requires { places ≤ 6 }
    ensures value { result ≡ decimals_within places n }
    ensures few { result ≤ 6 }
{
    if places == 0 {
        0
    } else if n % 10 == 0 {
        decimals_within(places - 1, n / 10)
    } else {
        places
    }
}

/// How many decimals a number has, at most 6. Those of the step of ticks are those of their labels.
#[tactic(auto, unfolding(crate::specs::Labels::decimals_of))]
pub fn decimals_of(v: Num) -> u32
    ensures value { result ≡ decimals_of v }
    ensures few { result ≤ 6 }
{
    decimals_within(6, v.millionths().unsigned_abs())
}

// Adds a digit.
fn push_digit(out: &mut Text, digit: u8) -> Result<(), OutOfMemory>
    requires low { 48 ≤ digit }
    requires high { digit ≤ 57 }
    ensures { OnOk result (out.new ≡ out.old ++ digit ∷ []) }
{
    let mut buffer = [0u8; 4];
    out.push_str(char::from(digit).encode_utf8(&mut buffer))
}

// Adds a comma where whole groups of three digits are left.
fn push_comma(out: &mut Text, left: usize) -> Result<(), OutOfMemory>
    ensures { OnOk result (out.new ≡ out.old ++ comma_before left) }
{
    if left > 0 && left % 3 == 0 {
        out.push_str(",")
    } else {
        Ok(())
    }
}

// Adds digits with a comma between thousands.
fn push_with_commas(out: &mut Text, digits: &[u8]) -> Result<(), OutOfMemory>
    requires { EachIndex digits.now (λ k. (48 ≤ slice_index digits.now k) × (slice_index digits.now k ≤ 57)) }
    ensures { OnOk result (out.new ≡ out.old ++ with_thousands digits.now) }
{
    for (i, digit) in digits.iter().enumerate() {
        push_digit(out, *digit)?;
        push_comma(out, digits.len() - i - 1)?;
    }
    Ok(())
}

// Adds the last so many digits of a number.
#[tactic(auto, using(fixed_num::proofs::DigitLemmas::ten_pos))]
fn push_last_digits(out: &mut Text, places: u32, n: u128) -> Result<(), OutOfMemory>
    requires { places ≤ 6 }
    ensures { OnOk result (out.new ≡ out.old ++ last_digits places n) }
{
    if places == 0 {
        return Ok(());
    }
    push_digit(out, b'0' + (n / 10_u128.pow(places - 1) % 10) as u8)?;
    push_last_digits(out, places - 1, n)
}

// Adds a point and so many decimals of a number that counts the last of them.
fn push_fraction(out: &mut Text, decimals: u32, n: u128) -> Result<(), OutOfMemory>
    requires { decimals ≤ 6 }
    ensures { OnOk result (out.new ≡ out.old ++ fraction_of decimals n) }
{
    if decimals == 0 {
        return Ok(());
    }
    out.push_str(".")?;
    push_last_digits(out, decimals, n)
}

// Adds a whole number with a comma between thousands.
fn push_whole(alloc: Global, out: &mut Text, n: u128) -> Result<(), OutOfMemory>
    requires { n ≤ limit }
    ensures { OnOk result (out.new ≡ out.old ++ with_thousands (decimal n)) }
{
    let digits = format!(in alloc; "{n}")?;
    push_with_commas(out, digits.as_bytes())
}

// A number in units of so many decimals, rounded.
#[tactic(auto, using(crate::proofs::LabelLemmas::units_in_range))]
fn in_units(decimals: u32, v: Num) -> Num
    requires { decimals ≤ 6 }
    ensures { result ≡ in_units decimals v }
{
    let _count = v.millionths();
    match Num::of_millionths(10_i128.pow(decimals)) {
        Some(units) => match v.mul(units) {
            Some(result) => result,
            None => unreachable!(),
        },
        None => unreachable!(),
    }
}

// Adds a size that counts units of so many decimals.
#[tactic(auto, using(fixed_num::proofs::DigitLemmas::ten_pos))]
fn push_size(alloc: Global, out: &mut Text, decimals: u32, n: u128) -> Result<(), OutOfMemory>
    requires few { decimals ≤ 6 }
    requires in_range { n ≤ limit }
    ensures { OnOk result (out.new ≡ out.old ++ size_label decimals n) }
{
    push_whole(alloc, out, n / 10_u128.pow(decimals))?;
    push_fraction(out, decimals, n)
}

// Adds the sign of a number.
fn push_sign(out: &mut Text, v: Num) -> Result<(), OutOfMemory>
    ensures { OnOk result (out.new ≡ out.old ++ sign_of v) }
{
    if v.millionths() < 0 {
        out.push_str("\u{2212}")
    } else {
        Ok(())
    }
}

/// The label of a number with so many decimals, at most 6: rounded, the middle going upward, with `,` between thousands, and U+2212 as
/// the minus sign. What rounds to zero has no sign.
#[tactic(auto, unfolding(crate::specs::Labels::number_label))]
pub fn number_label(alloc: Global, v: Num, decimals: u32) -> Result<Text, OutOfMemory>
    requires { decimals ≤ 6 }
    ensures { IfOk result (λ text. text ≡ number_label v decimals) }
{
    let units = in_units(decimals, v);
    let mut out = Text::new(alloc);
    push_sign(&mut out, units)?;
    push_size(alloc, &mut out, decimals, units.millionths().unsigned_abs())?;
    Ok(out)
}

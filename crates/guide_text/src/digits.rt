// Digits of numbers.
ghost use Rattle.std.specs.Prelude.{◌≡◌, ◌++◌, [], ◌∷◌, ◌≤◌, slice_index, EachIndex, OnOk};
ghost use Rattle.std.specs.Fmt.{decimal};
ghost use Rattle.fixed_num.specs.Decimal.{last_digits};
ghost use Rattle.fixed_num.specs.Number.{limit};
ghost use Rattle.tick_kit.specs.Labels.{comma_before, with_thousands, fraction_of};
ghost use Rattle.guide_text.specs.Numbers.{whole_of};

use std::alloc::Global;
use text_kit::{OutOfMemory, Text};

// Adds a digit.
fn push_digit(out: &mut Text, digit: u8) -> Result<(), OutOfMemory>
    requires low { 48 ≤ digit }
    requires high { digit ≤ 57 }
    ensures { OnOk result (out.new ≡ out.old ++ digit ∷ []) }
{
    let mut buffer = [0u8; 4];
    out.push_str(char::from(digit).encode_utf8(&mut buffer))
}

// Adds a comma where whole groups of three digits are left.
fn push_comma(out: &mut Text, left: usize) -> Result<(), OutOfMemory>
    ensures { OnOk result (out.new ≡ out.old ++ comma_before left) }
{
    if left > 0 && left % 3 == 0 {
        out.push_str(",")
    } else {
        Ok(())
    }
}

// Adds digits with a comma between thousands.
fn push_with_commas(out: &mut Text, digits: &[u8]) -> Result<(), OutOfMemory>
    requires { EachIndex digits.now (λ k. (48 ≤ slice_index digits.now k) × (slice_index digits.now k ≤ 57)) }
    ensures { OnOk result (out.new ≡ out.old ++ with_thousands digits.now) }
{
    for (i, digit) in digits.iter().enumerate() {
        push_digit(out, *digit)?;
        push_comma(out, digits.len() - i - 1)?;
    }
    Ok(())
}

// Adds the last so many digits of a number.
#[tactic(auto, using(fixed_num::proofs::DigitLemmas::ten_pos))]
fn push_last_digits(out: &mut Text, places: u32, n: u128) -> Result<(), OutOfMemory>
    requires { places ≤ 6 }
    ensures { OnOk result (out.new ≡ out.old ++ last_digits places n) }
{
    if places == 0 {
        return Ok(());
    }
    push_digit(out, b'0' + (n / 10_u128.pow(places - 1) % 10) as u8)?;
    push_last_digits(out, places - 1, n)
}

/// Adds a point and so many decimals of a number that counts the last of them; without decimals nothing.
pub fn push_fraction(out: &mut Text, decimals: u32, n: u128) -> Result<(), OutOfMemory>
    requires { decimals ≤ 6 }
    ensures { OnOk result (out.new ≡ out.old ++ fraction_of decimals n) }
{
    if decimals == 0 {
        return Ok(());
    }
    out.push_str(".")?;
    push_last_digits(out, decimals, n)
}

// Adds a whole number with a comma between thousands.
fn push_grouped(alloc: Global, out: &mut Text, n: u128) -> Result<(), OutOfMemory>
    requires { n ≤ limit }
    ensures { OnOk result (out.new ≡ out.old ++ with_thousands (decimal n)) }
{
    let digits = format!(in alloc; "{n}")?;
    push_with_commas(out, digits.as_bytes())
}

/// Adds a whole number, with a comma between thousands where that is asked.
pub fn push_whole(alloc: Global, out: &mut Text, comma: bool, n: u128) -> Result<(), OutOfMemory>
    requires { n ≤ limit }
    ensures { OnOk result (out.new ≡ out.old ++ whole_of comma n) }
{
    if comma {
        return push_grouped(alloc, out, n);
    }
    let digits = format!(in alloc; "{n}")?;
    out.push_str(digits.as_str())
}

//! Colours and signs of cells.
ghost use Rattle.std.specs.Prelude.{◌≡◌, ◌≢◌, ◌<◌, ◌≤ℤ◌, ◌/◌, ◌++◌, [], ◌∷◌, Option, Some, IfOk, OnOk, IsSome, length, if◌then◌else◌};
ghost use Rattle.std.specs.Option.{option_map};
ghost use Rattle.scale_kit.specs.Scale.{IsScale};
ghost use Rattle.scale_kit.specs.Places.{the_number, the_instant, domain_cells};
ghost use Rattle.scale_kit.specs.Colors.{the_text, hex_digit, hex_byte, color_text, channel_of, ramp_color, entry_text, paint_at};
ghost use Rattle.scale_kit.specs.Colors.{paint_of};
ghost use Rattle.scale_kit.specs.inner.Between.{IsBelow};

use crate::lines::{cut_to, place_within};
use crate::places::{domain_index, entry_at, the_instant, the_number};
use crate::scale::Scale;
use crate::shares::number;
use cell_value::Cell;
use fixed_num::Num;
use std::alloc::Global;
use text_kit::{OutOfMemory, Text};

// A copy of the text in a cell; None where it is none.
fn the_text(alloc: Global, v: &Cell) -> Result<Option<Text>, OutOfMemory>
    ensures { IfOk result (λ text. text ≡ the_text v.now) }
{
    match v {
        Cell::Text(text) => Ok(Some(Text::of(alloc, text.as_str())?)),
        Cell::Null | Cell::Flag(_) | Cell::Number(_) | Cell::Pair(..) => Ok(None),
    }
}

// A digit in base sixteen.
fn hex_digit(n: u8) -> &'static str
    requires { n < 16 }
    ensures { result.now ≡ hex_digit n ∷ [] }
{
    match n {
        0 => "0",
        1 => "1",
        2 => "2",
        3 => "3",
        4 => "4",
        5 => "5",
        6 => "6",
        7 => "7",
        8 => "8",
        9 => "9",
        10 => "a",
        11 => "b",
        12 => "c",
        13 => "d",
        14 => "e",
        _ => "f",
    }
}

// Adds a byte as two digits.
fn push_byte(text: &mut Text, n: u8) -> Result<(), OutOfMemory>
    ensures { OnOk result (text.new ≡ text.old ++ hex_byte n) }
{
    text.push_str(hex_digit(n / 16))?;
    text.push_str(hex_digit(n % 16))?;
    Ok(())
}

// A colour by its red, green and blue.
fn color_text(alloc: Global, red: u8, green: u8, blue: u8) -> Result<Text, OutOfMemory>
    ensures { IfOk result (λ text. text ≡ color_text red green blue) }
{
    let mut text = Text::of(alloc, "#")?;
    push_byte(&mut text, red)?;
    push_byte(&mut text, green)?;
    push_byte(&mut text, blue)?;
    Ok(text)
}

// One channel of a ramp.
fn channel_of(domain: &(Num, Num), v: Num, from: u8, to: u8) -> u8
    requires { domain.now.0 ≤ℤ domain.now.1 }
    ensures { result ≡ channel_of domain.now v from to }
{
    let (d0, d1) = *domain;
    let v = cut_to((d0, d1), v);
    let from = number(i128::from(from));
    let to = number(i128::from(to));
    let place = place_within((d0, d1), (from, to), v);
    place.millionths().unsigned_abs() as u8
}

// The colour of a number on a ramp.
fn ramp_color(
    alloc: Global,
    domain: &(Num, Num),
    from: &[u8; 3],
    to: &[u8; 3],
    v: Num,
) -> Result<Text, OutOfMemory>
    requires { domain.now.0 ≤ℤ domain.now.1 }
    ensures { IfOk result (λ text. text ≡ ramp_color domain.now from.now to.now v) }
{
    let red = channel_of(domain, v, from[0], to[0]);
    let green = channel_of(domain, v, from[1], to[1]);
    let blue = channel_of(domain, v, from[2], to[2]);
    color_text(alloc, red, green, blue)
}

// The colour of a number on a ramp, if there is one.
fn ramp_paint(
    alloc: Global,
    domain: (Num, Num),
    from: &[u8; 3],
    to: &[u8; 3],
    v: Option<Num>,
) -> Result<Option<Text>, OutOfMemory>
    requires { domain.0 ≤ℤ domain.1 }
    ensures { IfOk result (λ text. text ≡ option_map (ramp_color domain from.now to.now) v) }
{
    match v {
        Some(v) => Ok(Some(ramp_color(alloc, &domain, from, to, v)?)),
        None => Ok(None),
    }
}

// The number that a cell of a ramp's domain is.
fn ramp_number(time: bool, v: &Cell) -> Option<Num>
    ensures { result ≡ (if time then the_instant v.now else the_number v.now) }
{
    if time { the_instant(v) } else { the_number(v) }
}

// The text that a range has for a cell, if it has one.
fn entry_paint(
    alloc: Global,
    range: &[Cell],
    index: Option<usize>,
) -> Result<Option<Text>, OutOfMemory>
    requires { IsSome index → range.now ≢ [] }
    ensures { IfOk result (λ text. text ≡ entry_text range.now index) }
{
    let Some(index) = index else {
        return Ok(None);
    };
    let Some(entry) = entry_at(range, index) else {
        return Ok(None);
    };
    the_text(alloc, entry)
}

/// The colour or sign of a cell, by where it stands in the domain.
pub fn paint_at(
    alloc: Global,
    s: &Scale,
    v: &Cell,
    index: Option<usize>,
) -> Result<Option<Text>, OutOfMemory>
    requires scale { IsScale s.now }
    requires there { IsBelow (length (domain_cells s.now)) index }
    ensures { IfOk result (λ text. text ≡ paint_at s.now v.now index) }
{
    match s {
        Scale::Ordinal { range, .. } => entry_paint(alloc, range.as_slice(), index),
        Scale::Ramp {
            time,
            d0,
            d1,
            from,
            to,
        } => ramp_paint(alloc, (*d0, *d1), from, to, ramp_number(*time, v)),
        Scale::Linear { .. } | Scale::Time { .. } | Scale::Band { .. } | Scale::Point { .. } => {
            Ok(None)
        }
    }
}

/// The colour or sign of a cell; None exactly where it has none. It takes as many steps as the domain has cells.
pub fn paint(alloc: Global, s: &Scale, v: &Cell) -> Result<Option<Text>, OutOfMemory>
    requires { IsScale s.now }
    ensures { IfOk result (λ text. text ≡ paint_of s.now v.now) }
{
    paint_at(alloc, s, v, domain_index(s, v))
}

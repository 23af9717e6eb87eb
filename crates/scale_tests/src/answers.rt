// Scales, questions and answers. Each answer is computed apart, with exact fractions.
ghost use Rattle.scale_kit.specs.Scale.{IsScale};

use cell_value::Cell;
use fixed_num::Num;
use scale_index::IndexedScale;
use scale_kit::{
    Indexed, Overflow, Scale, band_width, base_of, invert, invert_within, paint, place,
    place_in_band,
};
use std::alloc::Global;
use text_kit::{OutOfMemory, Seq, Text};

/// A scale, a question to it and the answer: the place `at` a cell, `on` a cell's band at so many widths, the number at a place by
/// `inverse` and the same cut to the domain by `within`, the `width` of bands, the `base` of
/// bars, and what a cell's `paint` is. A text stands behind a quote, two numbers round a colon; a list has commas, and an empty one is `-`.
const ANSWERS: &str = "\
linear 0 55 200 0 / at 28 = 98.181818\n\
linear 0 55 200 0 / at 0 = 200\n\
linear 0 55 200 0 / at 55 = 0\n\
linear 0 55 200 0 / at 43 = 43.636364\n\
linear 0 55 200 0 / at -11 = 240\n\
linear 0 55 200 0 / at null = none\n\
linear 0 55 200 0 / at true = none\n\
linear 0 55 200 0 / at '28 = none\n\
linear 0 55 200 0 / at 28:28 = none\n\
linear 0 3 0 10 / at 1 = 3.333333\n\
linear 0 3 10 0 / at 1 = 6.666667\n\
linear 0 3 10 0 / at 2 = 3.333333\n\
linear 0 0.000004 0 0.000002 / at 0.000001 = 0.000001\n\
linear 0 0.000004 0.000002 0 / at 0.000001 = 0.000002\n\
linear 0 0.000004 0.000002 0 / at 0.000003 = 0.000001\n\
linear 7 7 0 200 / at 7 = 100\n\
linear 7 7 0 200 / at -1000 = 100\n\
linear 7 7 0 0.000001 / at 7 = 0.000001\n\
linear 7 7 0.000001 0 / at 7 = 0.000001\n\
linear 7 7 30 30 / at 9 = 30\n\
linear -1000000000000000 1000000000000000 0 100000000000 / at 1000000000000000 = 100000000000\n\
linear -1000000000000000 1000000000000000 100000000000 0 / at 1000000000000000 = 0\n\
linear -1000000000000000 1000000000000000 0 100000000000 / at 333333333333333.333333 = 66666666666.666667\n\
linear 0 0.000001 0 100000000000 / at 0.01 = 1000000000000000\n\
linear 0 0.000001 0 100000000000 / at 0.010001 = overflow\n\
linear 0 0.000001 100000000000 0 / at 0.010001 = -1000000000000000\n\
linear 0 0.000001 100000000000 0 / at 0.010002 = overflow\n\
linear 0 0.000001 0 100000000000 / at 1000000000000000 = overflow\n\
linear 0 0.000001 0 100000000000 / at -1000000000000000 = overflow\n\
linear 0 10 5 5 / at 1000000000000000 = 5\n\
linear 1 0 0 10 / at 0 = unsound\n\
linear 0 1 -0.000001 10 / at 0 = unsound\n\
linear 0 1 0 100000000000.000001 / at 0 = unsound\n\
linear 0 10 0 60 / on 5 0.25 = 30\n\
linear 0 10 200 0 / base = 200\n\
linear -10 10 200 0 / base = 100\n\
linear -10 0 0 200 / base = 200\n\
linear 0.000001 10 200 0 / base = 200\n\
linear -10 -0.000001 200 0 / base = 200\n\
linear 0 0 0 200 / base = 100\n\
linear -1 2 0 0.000001 / base = 0\n\
linear 0 10 200 0 / inverse 50 = 7.5\n\
linear 0 10 200 0 / inverse 200 = 0\n\
linear 0 10 200 0 / inverse 0 = 10\n\
linear 0 10 200 0 / inverse 300 = -5\n\
linear 0 10 200 0 / inverse -1000000000000000 = 50000000000010\n\
linear -1000000000000000 1000000000000000 0 1 / inverse 2 = overflow\n\
linear -1000000000000000 1000000000000000 0 1 / inverse 1 = 1000000000000000\n\
linear -1000000000000000 1000000000000000 1 0 / inverse 1.000001 = overflow\n\
linear 7 7 200 0 / inverse 50 = 7\n\
linear 0 10 3 0 / inverse 1 = 6.666667\n\
linear 0 0.000001 2 0 / inverse 1 = 0.000001\n\
linear 0 0.000001 0 2 / inverse 1 = 0.000001\n\
linear 0 10 200 0 / within 50 = 7.5\n\
linear 0 10 200 0 / within 300 = 0\n\
linear 0 10 200 0 / within -50 = 10\n\
linear -1000000000000000 1000000000000000 0 1 / within 2 = 1000000000000000\n\
linear -1000000000000000 1000000000000000 0 1 / within -1 = -1000000000000000\n\
linear -1000000000000000 1000000000000000 1 0 / within 2 = -1000000000000000\n\
linear -1000000000000000 1000000000000000 1 0 / within -1000000000000000 = 1000000000000000\n\
linear 7 7 0 200 / within 50 = 7\n\
time 0 86400000 0 60 / within 100 = 86400000\n\
linear 0 10 0 60 / paint 5 = none\n\
time 0 86400000 0 60 / at 43200000 = 30\n\
time 0 86400000 60 0 / at 21600000.5 = 45\n\
time 0 86400000 0 60 / at 172800000 = 120\n\
time 0 86400000 0 60 / at -62135596800000 = -43149720\n\
time 0 86400000 0 60 / at -62135596800000.000001 = none\n\
time 0 86400000 0 60 / at 253370764799999 = 175951919.999999\n\
time 0 86400000 0 60 / at 253370764799999.000001 = none\n\
time 0 86400000 0 60 / at '1970-01-01 = none\n\
time 5 5 0 60 / at 7 = 30\n\
time 5 5 0 60 / at 253370764800000 = none\n\
time -86400000 86400000 200 0 / base = 100\n\
time 86400000 172800000 200 0 / base = 200\n\
time 0 86400000 0 60 / inverse 15 = 21600000\n\
time 0 253370764800000 0 60 / at 0 = unsound\n\
time -62135596800001 0 0 60 / at 0 = unsound\n\
band 'A,'B,'C 0.1 0.05 0 60 / at 'A = 1\n\
band 'A,'B,'C 0.1 0.05 0 60 / at 'C = 41\n\
band 'A,'B,'C 0.1 0.05 0 60 / at 'D = none\n\
band 'A,'B,'C 0.1 0.05 0 60 / on 'B 0.5 = 30\n\
band 'A,'B,'C 0.1 0.05 0 60 / on 'B 0 = 21\n\
band 'A,'B,'C 0.1 0.05 0 60 / on 'B 1 = 39\n\
band 'A,'B,'C 0.1 0.05 0 60 / on 'B 0.333333 = 26.999994\n\
band 'A,'B,'C 0.1 0.05 0 60 / on 'B -2 = -15\n\
band 'A,'B,'C 0.1 0.05 0 60 / on 'B 100000000000000 = overflow\n\
band 'A,'B 0 0 0 20 / on 'B -100000000000000 = -999999999999990\n\
band 'A,'B 0 0 0 20 / on 'B -100000000000000.000001 = overflow\n\
band 'A,'B 0 0 0 20 / on 'B 99999999999999 = 1000000000000000\n\
band 'A,'B 0 0 0 20 / on 'B 99999999999999.000001 = overflow\n\
band 'A,'B 0 0 0 20 / on 'C -100000000000000.000001 = none\n\
point 'A,'B 0 0 20 / on 'B 1000000000000000 = 20\n\
band 'A,'B,'C 0.1 0.05 0 60 / width = 18\n\
band 'A,'B,'C 0.1 0.05 60 0 / at 'A = 41\n\
band 'A,'B,'C 0.1 0.05 60 0 / at 'C = 1\n\
band 'A,'B,'C 0.1 0.05 60 0 / on 'A 0.5 = 50\n\
band 'A,'B,'C 0.1 0.05 60 0 / on 'A 1 = 59\n\
band 'A,'B,'C 0.1 0.05 60 0 / width = 18\n\
band 'A,'B,'C 0 0 0 100 / at 'B = 33.333333\n\
band 'A,'B,'C 0 0 100 0 / at 'B = 33.333333\n\
band 'A,'B,'C 0 0 100 0 / on 'B 0.5 = 50\n\
band 'A,'B,'C 0 0 0 100 / width = 33.333333\n\
band 'A,'B,'C 1 0 0 60 / at 'B = 30\n\
band 'A,'B,'C 1 0 0 60 / at 'C = 60\n\
band 'A,'B,'C 1 0 0 60 / width = 0\n\
band 'A,'B,'C 1 1 10 70 / at 'A = 25\n\
band 'A,'B,'C 0 1 70 10 / at 'A = 46\n\
band 'A,'B,'C 0 1 70 10 / on 'A 0.5 = 52\n\
band 'A,'B,'C 0 1 70 10 / width = 12\n\
band 'A,'B,'C 0.1 0.05 30 30 / at 'C = 30\n\
band 'A,'B,'C 0.1 0.05 30 30 / width = 0\n\
band 'A,'B,'A,null 0.2 0.1 0 80 / at 'A = 2\n\
band 'A,'B,'A,null 0.2 0.1 0 80 / at null = 62\n\
band 'A,'B,'A,null 0.2 0.1 80 0 / at 'A = 62\n\
band 'A,'B,'A,null 0.2 0.1 0 80 / width = 16\n\
band null 1 0 20 60 / at null = 40\n\
band null 1 0 20 60 / on null 0.5 = 40\n\
band null 1 0 60 20 / on null 0.25 = 40\n\
band null 1 0 0 0.000001 / at null = 0.000001\n\
band null 1 0 0.000001 0 / at null = 0.000001\n\
band null 1 0 20 60 / width = 0\n\
band null 1 0.000001 20 60 / at null = 40\n\
band - 0 0.5 0 60 / at 'A = none\n\
band - 0 0.5 0 60 / width = 0\n\
band - 0 0.5 0 60 / base = 0\n\
band null,0,true 0 0 0 60 / base = 20\n\
band null,0,true 0 0 60 0 / base = 20\n\
band null,false 0 0 60 0 / base = 60\n\
band 1:2,1:3,'1 0.3 0.7 0 100000000000 / at 1:3 = 41463414634.146341\n\
band 1:2,1:3,'1 0.3 0.7 100000000000 0 / at 1:3 = 41463414634.146341\n\
band 1:2,1:3,'1 0.3 0.7 100000000000 0 / on 1:3 0.5 = 50000000000\n\
band 1:2,1:3,'1 0.3 0.7 0 100000000000 / width = 17073170731.707317\n\
band 0,0.000001,-0.000001 0 0 0 0.000007 / at 0.000001 = 0.000002\n\
band 'A 1.000001 0 0 60 / at 'A = unsound\n\
band 'A 0 -0.000001 0 60 / at 'A = unsound\n\
band 'A 0 0 0 60 / paint 'A = none\n\
point 'A,'B,'C 0.5 0 60 / at 'A = 10\n\
point 'A,'B,'C 0.5 0 60 / at 'B = 30\n\
point 'A,'B,'C 0.5 60 0 / at 'A = 50\n\
point 'A,'B,'C 0.5 60 0 / on 'A 0.75 = 50\n\
point 'A,'B,'C 0 0.3 0.8 / at 'B = 0.55\n\
point 'A,'B,'C 0 0.3 0.8 / at 'C = 0.8\n\
point 'A,'B,'C 0 0.3 0.8 / width = 0\n\
point 'A 0 0.3 0.8 / at 'A = 0.55\n\
point 'A 0 0.3 0.8 / on 'A 0.5 = 0.55\n\
point 'A,'A,'B 0 0 10 / at 'B = 10\n\
point - 0 0 10 / at 'A = none\n\
point 0,1 0.5 40 0 / base = 30\n\
ordinal 'u,'v,'w '#4c78a8,'#f58518 / paint 'u = #4c78a8\n\
ordinal 'u,'v,'w '#4c78a8,'#f58518 / paint 'v = #f58518\n\
ordinal 'u,'v,'w '#4c78a8,'#f58518 / paint 'w = #4c78a8\n\
ordinal 'u,'v,'w '#4c78a8,'#f58518 / paint 'x = none\n\
ordinal 'u,'v,'w '#4c78a8,'#f58518 / at 'v = none\n\
ordinal 'u,'v,'u 1,2.5,3 / at 'u = 1\n\
ordinal 'u,'v,'w 1,2.5 / at 'v = 2.5\n\
ordinal 'u,'v,'w 1,2.5 / on 'v 0.5 = 2.5\n\
ordinal 'u,'v,'w 1,2.5 / paint 'v = none\n\
ordinal 'u,'v,'w 1,null,'x / at 'w = none\n\
ordinal 'u,'v,'w 1,null,'x / paint 'w = x\n\
ordinal - - / paint 'u = none\n\
ordinal 'u - / paint 'u = unsound\n\
ramp false 0 10 222,235,247 8,81,156 / paint 0 = #deebf7\n\
ramp false 0 10 222,235,247 8,81,156 / paint 10 = #08519c\n\
ramp false 0 10 222,235,247 8,81,156 / paint 3 = #9ebddc\n\
ramp false 0 10 222,235,247 8,81,156 / paint 5 = #739eca\n\
ramp false 0 10 222,235,247 8,81,156 / paint -0.000001 = #deebf7\n\
ramp false 0 10 222,235,247 8,81,156 / paint 1000000000000000 = #08519c\n\
ramp false 0 10 222,235,247 8,81,156 / paint -1000000000000000 = #deebf7\n\
ramp false 0 10 222,235,247 8,81,156 / paint null = none\n\
ramp false 0 10 222,235,247 8,81,156 / at 5 = none\n\
ramp false 4 4 222,235,247 8,81,156 / paint 9 = #739eca\n\
ramp false 0 2 0,255,9 1,254,9 / paint 1 = #01ff09\n\
ramp false 0 1 0,255,128 255,0,127 / paint 0.25 = #40bf80\n\
ramp false -1000000000000000 1000000000000000 0,255,128 255,0,127 / paint 0 = #808080\n\
ramp true 0 86400000 0,0,0 255,255,255 / paint 43200000 = #808080\n\
ramp true 0 86400000 0,0,0 255,255,255 / paint 253370764799999 = #ffffff\n\
ramp true 0 86400000 0,0,0 255,255,255 / paint 253370764800000 = none\n\
ramp true 0 253370764800000 0,0,0 255,255,255 / paint 0 = unsound\n\
ramp false 0 253370764800000 0,0,0 255,255,255 / paint 253370764800000 = #ffffff\n\
ramp false 1 0 0,0,0 255,255,255 / paint 0 = unsound";

fn number(word: &str) -> Num {
    match Num::read_decimal(word.as_bytes()) {
        Ok(number) => number,
        Err(_) => match Num::of_millionths(0) {
            Some(zero) => zero,
            None => unreachable!(),
        },
    }
}

fn text_or_numbers(alloc: Global, word: &str) -> Result<Cell, OutOfMemory> {
    if let Some(text) = word.strip_prefix('\'') {
        return Ok(Cell::Text(Text::of(alloc, text)?));
    }
    match word.split_once(':') {
        Some((a, b)) => Ok(Cell::Pair(number(a), number(b))),
        None => Ok(Cell::Number(number(word))),
    }
}

fn cell(alloc: Global, word: &str) -> Result<Cell, OutOfMemory> {
    match word {
        "null" => Ok(Cell::Null),
        "false" => Ok(Cell::Flag(false)),
        "true" => Ok(Cell::Flag(true)),
        _ => text_or_numbers(alloc, word),
    }
}

fn cells(alloc: Global, words: &str) -> Result<Seq<Cell>, OutOfMemory> {
    let mut list = Seq::new(alloc);
    if words == "-" {
        return Ok(list);
    }
    for word in words.split(',') {
        list.push(cell(alloc, word)?)?;
    }
    Ok(list)
}

// The word at a place of a line.
fn word(line: &str, at: usize) -> &str {
    line.split_whitespace().nth(at).unwrap_or("")
}

fn number_at(line: &str, at: usize) -> Num {
    number(word(line, at))
}

fn byte_at(words: &str, at: usize) -> u8 {
    match words.split(',').nth(at) {
        Some(word) => (number(word).millionths() / 1_000_000).clamp(0, 255) as u8,
        None => 0,
    }
}

fn color(words: &str) -> [u8; 3] {
    [byte_at(words, 0), byte_at(words, 1), byte_at(words, 2)]
}

fn linear(line: &str) -> Scale {
    Scale::Linear {
        d0: number_at(line, 1),
        d1: number_at(line, 2),
        r0: number_at(line, 3),
        r1: number_at(line, 4),
    }
}

fn time(line: &str) -> Scale {
    Scale::Time {
        d0: number_at(line, 1),
        d1: number_at(line, 2),
        r0: number_at(line, 3),
        r1: number_at(line, 4),
    }
}

fn band(alloc: Global, line: &str) -> Result<Scale, OutOfMemory> {
    Ok(Scale::Band {
        domain: cells(alloc, word(line, 1))?,
        inner: number_at(line, 2),
        outer: number_at(line, 3),
        r0: number_at(line, 4),
        r1: number_at(line, 5),
    })
}

fn point(alloc: Global, line: &str) -> Result<Scale, OutOfMemory> {
    Ok(Scale::Point {
        domain: cells(alloc, word(line, 1))?,
        outer: number_at(line, 2),
        r0: number_at(line, 3),
        r1: number_at(line, 4),
    })
}

fn ordinal(alloc: Global, line: &str) -> Result<Scale, OutOfMemory> {
    Ok(Scale::Ordinal {
        domain: cells(alloc, word(line, 1))?,
        range: cells(alloc, word(line, 2))?,
    })
}

fn ramp(line: &str) -> Scale {
    Scale::Ramp {
        time: word(line, 1) == "true",
        d0: number_at(line, 2),
        d1: number_at(line, 3),
        from: color(word(line, 4)),
        to: color(word(line, 5)),
    }
}

fn scale(alloc: Global, line: &str) -> Result<Scale, OutOfMemory> {
    match word(line, 0) {
        "linear" => Ok(linear(line)),
        "time" => Ok(time(line)),
        "band" => band(alloc, line),
        "point" => point(alloc, line),
        "ordinal" => ordinal(alloc, line),
        _ => Ok(ramp(line)),
    }
}

// What is written for a place.
fn told(alloc: Global, place: Result<Option<Num>, Overflow>) -> Result<Text, OutOfMemory> {
    match place {
        Ok(Some(number)) => Text::of(alloc, number.decimal().as_str()),
        Ok(None) => Text::of(alloc, "none"),
        Err(Overflow) => Text::of(alloc, "overflow"),
    }
}

// What is written for a colour or a sign.
fn shown(alloc: Global, paint: Option<Text>) -> Result<Text, OutOfMemory> {
    match paint {
        Some(text) => Ok(text),
        None => Text::of(alloc, "none"),
    }
}

fn width(alloc: Global, s: &Scale) -> Result<Text, OutOfMemory> {
    if !s.is_sound() {
        return Text::of(alloc, "unsound");
    }
    match s {
        Scale::Band { .. } | Scale::Point { .. } => {
            Text::of(alloc, band_width(s).decimal().as_str())
        }
        _ => Text::of(alloc, "no bands"),
    }
}

fn base(alloc: Global, s: &Scale) -> Result<Text, OutOfMemory> {
    if !s.is_sound() {
        return Text::of(alloc, "unsound");
    }
    match s {
        Scale::Linear { .. } | Scale::Time { .. } | Scale::Band { .. } | Scale::Point { .. } => {
            Text::of(alloc, base_of(s).decimal().as_str())
        }
        _ => Text::of(alloc, "no range"),
    }
}

fn inverse(alloc: Global, s: &Scale, p: Num) -> Result<Text, OutOfMemory> {
    match s {
        Scale::Linear { r0, r1, .. } | Scale::Time { r0, r1, .. } if *r0 != *r1 => {
            told(alloc, invert(s, p).map(Some))
        }
        _ => Text::of(alloc, "no inverse"),
    }
}

fn inverse_within(alloc: Global, s: &Scale, p: Num) -> Result<Text, OutOfMemory> {
    if !s.is_sound() {
        return Text::of(alloc, "unsound");
    }
    match s {
        Scale::Linear { r0, r1, .. } | Scale::Time { r0, r1, .. } if *r0 != *r1 => {
            Text::of(alloc, invert_within(s, p).decimal().as_str())
        }
        _ => Text::of(alloc, "no inverse"),
    }
}

// The answer of a sound scale to a question, about a cell or not.
fn answer_at(alloc: Global, s: &Scale, v: &Cell, question: &str) -> Result<Text, OutOfMemory>
    requires { IsScale s.now }
{
    match word(question, 0) {
        "at" => told(alloc, place(s, v)),
        "on" => told(alloc, place_in_band(s, v, number_at(question, 2))),
        "paint" => shown(alloc, paint(alloc, s, v)?),
        "width" => width(alloc, s),
        "base" => base(alloc, s),
        "within" => inverse_within(alloc, s, number_at(question, 1)),
        _ => inverse(alloc, s, number_at(question, 1)),
    }
}

// The answer of a scale.
fn answer(alloc: Global, s: &Scale, question: &str) -> Result<Text, OutOfMemory> {
    if !s.is_sound() {
        return Text::of(alloc, "unsound");
    }
    answer_at(alloc, s, &cell(alloc, word(question, 1))?, question)
}

// The answer by an index of the domain; nothing to a question that is none of a cell.
fn indexed_at(
    alloc: Global,
    indexed: &Indexed,
    v: &Cell,
    question: &str,
) -> Result<Text, OutOfMemory> {
    match word(question, 0) {
        "at" => told(alloc, indexed.place(v)),
        "on" => told(alloc, indexed.place_in_band(v, number_at(question, 2))),
        "paint" => shown(alloc, indexed.paint(alloc, v)?),
        _ => Text::of(alloc, ""),
    }
}

// The answer of a scale with an index of its domain.
fn indexed_answer(alloc: Global, s: &Scale, question: &str) -> Result<Text, OutOfMemory> {
    if !s.is_sound() {
        return Text::of(alloc, "unsound");
    }
    let v = cell(alloc, word(question, 1))?;
    let indexed = Indexed::of(alloc, s)?;
    let answer = indexed_at(alloc, &indexed, &v, question);
    drop(indexed);
    answer
}

// The answer by what holds a scale and an index of its domain; nothing to a question that is none of a cell.
fn held_at(
    alloc: Global,
    held: &IndexedScale,
    v: &Cell,
    question: &str,
) -> Result<Text, OutOfMemory> {
    match word(question, 0) {
        "at" => told(alloc, held.place(v)),
        "on" => told(alloc, held.place_in_band(v, number_at(question, 2))),
        "paint" => shown(alloc, held.paint(alloc, v)?),
        _ => Text::of(alloc, ""),
    }
}

// The answer of a scale that is held with an index of its domain.
fn held_answer(alloc: Global, s: &Scale, question: &str) -> Result<Text, OutOfMemory> {
    if !s.is_sound() {
        return Text::of(alloc, "unsound");
    }
    let v = cell(alloc, word(question, 1))?;
    let held = IndexedScale::of(alloc, s.copy(alloc)?)?;
    let answer = held_at(alloc, &held, &v, question);
    drop(held);
    answer
}

// Whether a scale answers so.
fn answers(alloc: Global, s: &Scale, question: &str, wanted: &str) -> bool {
    match answer(alloc, s, question) {
        Ok(answer) => answer.as_str() == wanted,
        Err(_) => false,
    }
}

// Whether a scale that is held answers so.
fn held_answers(alloc: Global, s: &Scale, question: &str, wanted: &str) -> bool {
    match held_answer(alloc, s, question) {
        Ok(answer) => answer.as_str() == wanted,
        Err(_) => false,
    }
}

// Whether a scale with an index answers so, or with nothing, and as one that is held does.
fn indexed_answers(alloc: Global, s: &Scale, question: &str, wanted: &str) -> bool {
    match indexed_answer(alloc, s, question) {
        Ok(answer) => {
            (answer.is_empty() || answer.as_str() == wanted)
                && held_answers(alloc, s, question, answer.as_str())
        }
        Err(_) => false,
    }
}

// Whether a line's scale gives the line's answer, with an index or without.
fn holds(alloc: Global, line: &str) -> bool {
    let (asked, wanted) = line.split_once(" = ").unwrap_or((line, ""));
    let (first, question) = asked.split_once(" / ").unwrap_or((asked, ""));
    match scale(alloc, first) {
        Ok(s) => {
            let right = answers(alloc, &s, question, wanted)
                && indexed_answers(alloc, &s, question, wanted);
            drop(s);
            right
        }
        Err(_) => false,
    }
}

#[test]
fn scales_answer(rt: HostRuntime) {
    for line in ANSWERS.lines() {
        assert!(rt; holds(rt.alloc(), line), "{line}");
    }
}

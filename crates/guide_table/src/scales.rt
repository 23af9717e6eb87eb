// Scales and cells from words.
use cell_value::Cell;
use fixed_num::Num;
use scale_kit::Scale;
use std::alloc::Global;
use text_kit::{OutOfMemory, Seq, Text};

/// The number of a decimal.
pub(crate) fn number_by(decimal: &str) -> Option<Num> {
    Num::read_decimal(decimal.as_bytes()).ok()
}

// The cell of a word that stands for itself.
fn plain_cell(alloc: Global, word: &str) -> Result<Cell, OutOfMemory> {
    Ok(match word {
        "null" => Cell::Null,
        "true" => Cell::Flag(true),
        "false" => Cell::Flag(false),
        _ => Cell::Text(Text::of(alloc, word)?),
    })
}

// The cell of a word: `n:1.5` is a number, `p:1:2` a pair, `t:null` a text.
fn cell_of(alloc: Global, word: &str) -> Result<Cell, OutOfMemory> {
    let Some((kind, rest)) = word.split_once(':') else {
        return plain_cell(alloc, word);
    };
    match kind {
        "n" => match number_by(rest) {
            Some(number) => Ok(Cell::Number(number)),
            None => Ok(Cell::Null),
        },
        "p" => Ok(pair_of(rest)),
        _ => Ok(Cell::Text(Text::of(alloc, rest)?)),
    }
}

// The pair of two decimals.
fn pair_of(words: &str) -> Cell {
    let Some((first, second)) = words.split_once(':') else {
        return Cell::Null;
    };
    match (number_by(first), number_by(second)) {
        (Some(first), Some(second)) => Cell::Pair(first, second),
        _ => Cell::Null,
    }
}

/// The cells of words with commas between them.
pub(crate) fn cells_of(alloc: Global, words: &str) -> Result<Seq<Cell>, OutOfMemory> {
    let mut cells = Seq::new(alloc);
    if words.is_empty() {
        return Ok(cells);
    }
    for word in words.split(',') {
        cells.push(cell_of(alloc, word)?)?;
    }
    Ok(cells)
}

// The number at a place of a list, 0 where there is none.
fn number_at(numbers: &[Num], i: usize) -> Num {
    match numbers.get(i) {
        Some(number) => *number,
        None => zero(),
    }
}

fn zero() -> Num {
    match Num::of_millionths(0) {
        Some(zero) => zero,
        None => unreachable!(),
    }
}

// The numbers of decimals with commas between them.
fn numbers_of(alloc: Global, words: &str) -> Result<Seq<Num>, OutOfMemory> {
    let mut numbers = Seq::new(alloc);
    for word in words.split(',') {
        if let Some(number) = number_by(word) {
            numbers.push(number)?;
        }
    }
    Ok(numbers)
}

// A continuous scale of a kind, by its numbers.
fn continuous(kind: &str, n: &[Num]) -> Option<Scale> {
    let (d0, d1, r0, r1) = (
        number_at(n, 0),
        number_at(n, 1),
        number_at(n, 2),
        number_at(n, 3),
    );
    match kind {
        "linear" => Some(Scale::Linear { d0, d1, r0, r1 }),
        "time" => Some(Scale::Time { d0, d1, r0, r1 }),
        "ramp" => Some(ramp(false, d0, d1)),
        "timeramp" => Some(ramp(true, d0, d1)),
        _ => None,
    }
}

// A ramp of blues.
fn ramp(time: bool, d0: Num, d1: Num) -> Scale {
    Scale::Ramp {
        time,
        d0,
        d1,
        from: [222, 235, 247],
        to: [8, 81, 156],
    }
}

// A band scale, by its numbers and its cells.
fn band(alloc: Global, n: &[Num], domain: &str) -> Result<Scale, OutOfMemory> {
    Ok(Scale::Band {
        domain: cells_of(alloc, domain)?,
        inner: number_at(n, 0),
        outer: number_at(n, 1),
        r0: number_at(n, 2),
        r1: number_at(n, 3),
    })
}

// A point scale, by its numbers and its cells.
fn point(alloc: Global, n: &[Num], domain: &str) -> Result<Scale, OutOfMemory> {
    Ok(Scale::Point {
        domain: cells_of(alloc, domain)?,
        outer: number_at(n, 1),
        r0: number_at(n, 2),
        r1: number_at(n, 3),
    })
}

// An ordinal scale, by its cells.
fn ordinal(alloc: Global, domain: &str, range: &str) -> Result<Scale, OutOfMemory> {
    let domain = cells_of(alloc, domain)?;
    Ok(Scale::Ordinal {
        domain,
        range: cells_of(alloc, range)?,
    })
}

// A scale of a kind, by its numbers and its cells.
fn scale_by(
    alloc: Global,
    kind: &str,
    n: &[Num],
    domain: &str,
    range: &str,
) -> Result<Option<Scale>, OutOfMemory> {
    Ok(match kind {
        "band" => Some(band(alloc, n, domain)?),
        "point" => Some(point(alloc, n, domain)?),
        "ordinal" => Some(ordinal(alloc, domain, range)?),
        _ => continuous(kind, n),
    })
}

/// The scale of a kind, by numbers, the cells of its domain and those of its range.
pub(crate) fn scale_of(
    alloc: Global,
    kind: &str,
    numbers: &str,
    domain: &str,
    range: &str,
) -> Result<Option<Scale>, OutOfMemory> {
    let numbers = numbers_of(alloc, numbers)?;
    scale_by(alloc, kind, numbers.as_slice(), domain, range)
}

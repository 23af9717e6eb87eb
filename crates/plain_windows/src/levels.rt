// The least or the greatest number of any part of a list, by that of blocks of 1, 2, 4 and more of its elements.
ghost use Rattle.std.specs.Prelude.{◌≡◌, ℤ, ◌+◌, ◌-◌, ◌≤◌, None, Option, List, length, slice_index_or, IfOk, if◌then◌else◌};
ghost use Rattle.plain_windows.specs.inner.Views.{part};
ghost use Rattle.plain_windows.specs.inner.Levels.{AreLevels, outer, joined, outermost, paired, parts_pair};

use crate::frames::Frame;
use fixed_num::Num;
use std::alloc::Global;
use text_kit::{OutOfMemory, Seq};

// Of two numbers the lesser, or the greater.
fn outer(greatest: bool, a: Num, b: Num) -> Num
    ensures { result ≡ outer greatest a b }
{
    let is_beyond = if greatest { a < b } else { b < a };
    if is_beyond { b } else { a }
}

// The same where one may be missing.
fn joined(greatest: bool, x: Option<Num>, y: Option<Num>) -> Option<Num>
    ensures { result ≡ joined greatest x y }
{
    match x {
        None => y,
        Some(a) => match y {
            None => Some(a),
            Some(b) => Some(outer(greatest, a, b)),
        },
    }
}

// The number at a place; None where there is none.
fn number_at(level: &[Option<Num>], place: usize) -> Option<Num>
    ensures { result ≡ slice_index_or level.now place None }
{
    match level.get(place) {
        Some(number) => *number,
        None => None,
    }
}

// The outermost number of each two elements; a last one alone is left out.
#[tactic(auto, using(crate::proofs::LevelLemmas::pairs_all))]
fn paired(
    alloc: Global,
    greatest: bool,
    level: &[Option<Num>],
) -> Result<Seq<Option<Num>>, OutOfMemory>
    ensures { IfOk result (λ next. next ≡ paired greatest level.now) }
{
    let mut next = Seq::with_capacity(alloc, level.len() / 2)?;
    for at in 0..level.len() / 2 {
        next.push(joined(
            greatest,
            number_at(level, 2 * at),
            number_at(level, 2 * at + 1),
        ))?;
    }
    Ok(next)
}

/// The levels of a list: the outermost numbers of its elements, of each two of them, of each four and so on.
#[tactic(auto, using(crate::proofs::LevelLemmas::levels_all, crate::proofs::LevelLemmas::fewer))]
pub(crate) fn levels(
    alloc: Global,
    greatest: bool,
    numbers: Seq<Option<Num>>,
) -> Result<Seq<Seq<Option<Num>>>, OutOfMemory>
    ensures { IfOk result (AreLevels greatest numbers) }
{
    let mut levels = Seq::new(alloc);
    let mut level = numbers;
    while !level.is_empty() {
        let next = paired(alloc, greatest, level.as_slice())?;
        levels.push(level)?;
        level = next;
    }
    Ok(levels)
}

// Whether there are elements from a place to another, and an edge of them parts two that are a pair.
fn parts_pair(from: usize, to: usize, edge: usize) -> bool
    ensures { result ≡ parts_pair from to edge }
{
    from < to && edge % 2 == 1
}

// The place behind a first element that has no partner.
fn behind_first(from: usize, to: usize) -> usize
    ensures { result ≡ (if parts_pair from to from then from + 1 else from) }
{
    if parts_pair(from, to, from) {
        from + 1
    } else {
        from
    }
}

// The place of a last element that has no partner.
fn before_last(from: usize, to: usize) -> usize
    ensures { result ≡ (if parts_pair from to to then to - 1 else to) }
{
    if parts_pair(from, to, to) { to - 1 } else { to }
}

// A number with a first element that has no partner.
fn with_first(
    greatest: bool,
    found: Option<Num>,
    level: &[Option<Num>],
    from: usize,
    to: usize,
) -> Option<Num>
    ensures { result ≡ (if parts_pair from to from then joined greatest found (slice_index_or level.now from None) else found) }
{
    if parts_pair(from, to, from) {
        joined(greatest, found, number_at(level, from))
    } else {
        found
    }
}

// A number with a last element that has no partner.
fn with_last(
    greatest: bool,
    found: Option<Num>,
    level: &[Option<Num>],
    from: usize,
    to: usize,
) -> Option<Num>
    ensures { result ≡ (if parts_pair from to to then joined greatest found (slice_index_or level.now (to - 1) None) else found) }
{
    if parts_pair(from, to, to) {
        joined(greatest, found, number_at(level, to - 1))
    } else {
        found
    }
}

/// The outermost number of a part of the list of which there are levels; None where it has none.
pub(crate) fn outermost_in(greatest: bool, levels: &[Seq<Option<Num>>], frame: Frame) -> Option<Num>
    ensures { (numbers : List (Option ℤ)) → AreLevels greatest numbers levels.now → frame.to ≤ length numbers
        → result ≡ outermost greatest (part frame numbers) }
{
    let mut from = frame.from;
    let mut to = frame.to;
    let mut found = None;
    for level in levels {
        let level = level.as_slice();
        found = with_first(greatest, found, level, from, to);
        from = behind_first(from, to);
        found = with_last(greatest, found, level, from, to);
        to = before_last(from, to) / 2;
        from /= 2;
    }
    found
}

// The ticks of axes and the entries of legends, before they are drawn.
ghost use Rattle.std.specs.Prelude.{◌≡◌, ◌≤◌, ◌++◌, pos, ◌≤ℤ◌, IsTrue, IfSome, IfOk, OnOk, map};
ghost use Rattle.std.specs.Option.{option_to_list};
ghost use Rattle.std.specs.Result.{result_ok};
ghost use Rattle.time_calc.specs.Instants.{stands_for_instant};
ghost use Rattle.cell_value.specs.declared.cell.Cell.TheVariants.{Number};
ghost use Rattle.scale_kit.specs.Scale.{IsScale};
ghost use Rattle.scale_kit.specs.Places.{place_in_band_of};
ghost use Rattle.guide_text.specs.Labels.{own_decimals};
ghost use Rattle.guide_kit.specs.Answers.{Draws};
ghost use Rattle.guide_kit.specs.Ticks.{number_cells, instant_cells, cells_shown, decimals_on, shows_of, count_for, tick_at, tick_of, each_that_has};

use crate::errors::GuideError;
use cell_value::Cell;
use fixed_num::Num;
use guide_text::{Shows, label_of};
use scale_kit::{Indexed, Scale};
use std::alloc::Global;
use text_kit::{OutOfMemory, Seq, Text, copy_list};
use tick_kit::{TickError, decimals_of, step_of, ticks, time_ticks};

/// A tick of an axis with its label.
#[derive(Debug, Drop)]
pub struct Tick {
    /// Where it stands along the axis, in pixels.
    pub place: Num,
    /// Its label.
    pub label: Text,
}

// Numbers as cells.
fn cells_of(alloc: Global, numbers: &[Num]) -> Result<Seq<Cell>, OutOfMemory>
    ensures { IfOk result (λ cells. cells ≡ map Number numbers.now) }
{
    let mut cells = Seq::with_capacity(alloc, numbers.len())?;
    for number in numbers {
        cells.push(Cell::Number(*number))?;
    }
    Ok(cells)
}

// The cells at the ticks of a domain of numbers.
#[tactic(auto, unfolding(crate::specs::Ticks::number_cells))]
fn number_cells(alloc: Global, d0: Num, d1: Num, count: u32) -> Result<Seq<Cell>, GuideError>
    requires ordered { d0 ≤ℤ d1 }
    requires some { 1 ≤ count }
    requires few { count ≤ 1000 }
    ensures { Draws result (number_cells count (d0, d1)) }
{
    match ticks(alloc, d0, d1, count) {
        Ok(numbers) => Ok(cells_of(alloc, numbers.as_slice())?),
        Err(TickError::Overflow) => Err(GuideError::Overflow),
        Err(TickError::Memory) => Err(GuideError::Memory),
    }
}

// The cells at the ticks of a domain of instants.
#[tactic(auto, unfolding(crate::specs::Ticks::instant_cells))]
fn instant_cells(alloc: Global, d0: Num, d1: Num, count: u32) -> Result<Seq<Cell>, OutOfMemory>
    requires ordered { d0 ≤ℤ d1 }
    requires first { IsTrue (stands_for_instant d0) }
    requires last { IsTrue (stands_for_instant d1) }
    requires some { 1 ≤ count }
    requires few { count ≤ 1000 }
    ensures { IfOk result (λ cells. cells ≡ instant_cells count (d0, d1)) }
{
    let numbers = time_ticks(alloc, d0, d1, count)?;
    cells_of(alloc, numbers.as_slice())
}

/// The cells that a scale shows by itself, for so many ticks.
pub fn cells_shown(alloc: Global, count: u32, s: &Scale) -> Result<Seq<Cell>, GuideError>
    requires scale { IsScale s.now }
    requires some { 1 ≤ count }
    requires few { count ≤ 1000 }
    ensures { Draws result (cells_shown count s.now) }
{
    match s {
        Scale::Linear { d0, d1, .. } => number_cells(alloc, *d0, *d1, count),
        Scale::Time { d0, d1, .. } => Ok(instant_cells(alloc, *d0, *d1, count)?),
        Scale::Band { domain, .. } => Ok(copy_list(alloc, domain.as_slice())?),
        Scale::Point { domain, .. } => Ok(copy_list(alloc, domain.as_slice())?),
        Scale::Ordinal { domain, .. } => Ok(copy_list(alloc, domain.as_slice())?),
        Scale::Ramp { time, d0, d1, .. } => {
            if *time {
                Ok(instant_cells(alloc, *d0, *d1, count)?)
            } else {
                number_cells(alloc, *d0, *d1, count)
            }
        }
    }
}

// The decimals of the labels on a continuous domain.
#[tactic(auto, unfolding(crate::specs::Ticks::decimals_on))]
fn decimals_on(count: u32, d0: Num, d1: Num) -> u32
    requires some { 1 ≤ count }
    requires few { count ≤ 1000 }
    ensures value { result ≡ decimals_on count (d0, d1) }
    ensures few { result ≤ 6 }
{
    if d0 < d1 {
        match step_of(d0, d1, count) {
            Some(step) => decimals_of(step),
            None => 0,
        }
    } else {
        decimals_of(d0)
    }
}

/// What the labels of a scale show, for so many ticks.
pub fn shows_of(count: u32, s: &Scale) -> Shows
    requires some { 1 ≤ count }
    requires few { count ≤ 1000 }
    ensures value { result ≡ shows_of count s.now }
    ensures few { IfSome (own_decimals result) (λ n. n ≤ 6) }
{
    match s {
        Scale::Linear { d0, d1, .. } => Shows::Numbers(decimals_on(count, *d0, *d1)),
        Scale::Time { d0, d1, .. } => Shows::Instants(decimals_on(count, *d0, *d1)),
        Scale::Band { .. } | Scale::Point { .. } | Scale::Ordinal { .. } => Shows::Cells,
        Scale::Ramp { time, d0, d1, .. } => {
            let decimals = decimals_on(count, *d0, *d1);
            if *time {
                Shows::Instants(decimals)
            } else {
                Shows::Numbers(decimals)
            }
        }
    }
}

/// One tick for each 40 pixels of a length and for what is left, at least 1 and at most 1,000.
pub fn count_for(length: Num) -> u32
    ensures value { result ≡ count_for length }
    ensures some { 1 ≤ result }
    ensures few { result ≤ 1000 }
{
    let spaces = (length.millionths().unsigned_abs() + 39_999_999) / 40_000_000;
    spaces.min(1_000).max(1) as u32
}

// One half.
fn one_half() -> Num
    ensures { result ≡ pos 500000 }
{
    match Num::of_millionths(500_000) {
        Some(number) => number,
        None => unreachable!(),
    }
}

// The place of a cell, on a band at the centre.
fn place_of(s: &Indexed, v: &Cell) -> Result<Option<Num>, GuideError>
    ensures { Draws result (result_ok (place_in_band_of s.now v.now (pos 500000))) }
{
    match s.place_in_band(v, one_half()) {
        Ok(place) => Ok(place),
        Err(_) => Err(GuideError::Overflow),
    }
}

// The tick of a cell at its place, if it has one.
fn tick_at(
    alloc: Global,
    place: Option<Num>,
    shows: Shows,
    format: &Option<Text>,
    v: &Cell,
) -> Result<Option<Tick>, OutOfMemory>
    requires { IfSome (own_decimals shows) (λ n. n ≤ 6) }
    ensures { IfOk result (λ tick. tick ≡ tick_at shows format.now v.now place) }
{
    match place {
        Some(place) => Ok(Some(Tick {
            place,
            label: label_of(alloc, shows, format, v)?,
        })),
        None => Ok(None),
    }
}

// The tick of a cell with its label; None where it has no place.
fn tick_of(
    alloc: Global,
    s: &Indexed,
    shows: Shows,
    format: &Option<Text>,
    v: &Cell,
) -> Result<Option<Tick>, GuideError>
    requires { IfSome (own_decimals shows) (λ n. n ≤ 6) }
    ensures { Draws result (tick_of s.now shows format.now v.now) }
{
    let place = place_of(s, v)?;
    Ok(tick_at(alloc, place, shows, format, v)?)
}

// Adds a tick, if there is one.
fn add(ticks: &mut Seq<Tick>, tick: Option<Tick>) -> Result<(), OutOfMemory>
    ensures { OnOk result (ticks.new ≡ ticks.old ++ option_to_list tick) }
{
    match tick {
        Some(tick) => ticks.push(tick),
        None => Ok(()),
    }
}

/// The ticks of cells with their labels, in order, without those of cells that have no place.
pub fn ticks_of(
    alloc: Global,
    s: &Indexed,
    shows: Shows,
    format: &Option<Text>,
    cells: &[Cell],
) -> Result<Seq<Tick>, GuideError>
    requires { IfSome (own_decimals shows) (λ n. n ≤ 6) }
    ensures { Draws result (each_that_has (tick_of s.now shows format.now) cells.now) }
{
    let mut ticks = Seq::with_capacity(alloc, cells.len())?;
    for cell in cells {
        match tick_of(alloc, s, shows, format, cell) {
            Ok(tick) => add(&mut ticks, tick)?,
            Err(error) => return Err(error),
        }
    }
    Ok(ticks)
}

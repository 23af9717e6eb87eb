//! Bands along a range.
ghost use Rattle.std.specs.Prelude.{◌≡◌, ◌*◌, ◌<◌, ◌^◌, unsigned_abs, pos, neg_ℤ, ◌+ℤ◌, ◌-ℤ◌, ◌*ℤ◌, ◌<ℤ◌, ◌≤ℤ◌};
ghost use Rattle.fixed_num.specs.Number.{million};
ghost use Rattle.fixed_num.specs.Ranges.{in_range};
ghost use Rattle.scale_kit.specs.Bands.{AreBands, band_steps, along_bands, band_beginning, band_end, place_of_band};
ghost use Rattle.scale_kit.specs.Bands.{centre_of_band, width_of_band};
ghost use Rattle.scale_kit.specs.Bands.{widths_of_band, place_on_band};
ghost use Rattle.scale_kit.specs.Scale.{IsRange};
ghost use Rattle.scale_kit.specs.inner.Between.{IsBetween};

use crate::lines::middle;
use crate::shares::{moved, number, way};
use fixed_num::Num;

/// How many millionths a step has.
const STEP: i128 = 1_000_000;

/// Bands of equal width along a range: how many they are, the padding between and outside of them, in steps, and the ends of the range.
#[derive(Clone, Copy, Debug)]
pub struct Bands {
    pub count: usize,
    pub inner: Num,
    pub outer: Num,
    pub r0: Num,
    pub r1: Num,
}

impl Bands {
    // The steps of so many bands without padding, in millionths of one.
    fn bare_steps(&self) -> i128
        ensures value { result ≡ pos (self.now.count * million) }
        ensures bound { result ≤ℤ pos (2 ^ 88) }
    {
        self.count as i128 * STEP
    }

    // What the paddings add to them.
    fn padding(&self) -> i128
        requires { AreBands self.now }
        ensures value { result ≡ pos 2 *ℤ self.now.outer -ℤ self.now.inner }
        ensures low { neg_ℤ (pos million) ≤ℤ result }
        ensures high { result ≤ℤ pos (2 * million) }
    {
        2 * self.outer.millionths() - self.inner.millionths()
    }

    // The steps of the bands, in millionths of one.
    fn steps(&self) -> i128
        requires { AreBands self.now }
        ensures value { result ≡ band_steps self.now }
        ensures bound { result ≤ℤ pos (2 ^ 89) }
    {
        self.bare_steps() + self.padding()
    }

    // How much of a step a band takes, in millionths.
    fn body(&self) -> i128
        requires { AreBands self.now }
        ensures value { result ≡ pos million -ℤ self.now.inner }
        ensures from { pos 0 ≤ℤ result }
        ensures to { result ≤ℤ pos million }
    {
        STEP - self.inner.millionths()
    }

    // How many millionths of a step a band begins after the beginning of the range.
    fn beginning(&self, index: usize) -> i128
        requires bands { AreBands self.now }
        requires there { index < self.now.count }
        ensures value { result ≡ band_beginning self.now index }
        ensures from { pos 0 ≤ℤ result }
        ensures to { result ≤ℤ band_steps self.now }
        ensures bound { result ≤ℤ pos (2 ^ 88) }
    {
        self.outer.millionths() + index as i128 * STEP
    }

    // How many it ends after it.
    fn end(&self, index: usize) -> i128
        requires bands { AreBands self.now }
        requires there { index < self.now.count }
        ensures value { result ≡ band_end self.now index }
        ensures from { pos 0 ≤ℤ result }
        ensures to { result ≤ℤ band_steps self.now }
        ensures bound { result ≤ℤ pos (2 ^ 89) }
    {
        self.beginning(index) + self.body()
    }

    // The place so many parts of the way along the bands.
    fn along(&self, part: i128, whole: i128) -> Num
        requires bands { AreBands self.now }
        requires from { pos 0 ≤ℤ part }
        requires to { part ≤ℤ whole }
        requires some { pos 0 <ℤ band_steps self.now → pos 0 <ℤ whole }
        requires bound { whole ≤ℤ pos (2 ^ 90) }
        ensures value { result ≡ along_bands self.now part whole }
        ensures within { IsBetween self.now.r0 self.now.r1 result }
    {
        if self.steps() > 0 {
            moved((self.r0, self.r1), part, whole)
        } else {
            middle((self.r0, self.r1))
        }
    }

    /// The place of a band, its lesser end.
    pub fn place(&self, index: usize) -> Num
        requires bands { AreBands self.now }
        requires there { index < self.now.count }
        ensures value { result ≡ place_of_band self.now index }
        ensures within { IsBetween self.now.r0 self.now.r1 result }
    {
        let steps = self.steps();
        if self.r1 < self.r0 {
            let end = self.end(index);
            self.along(end, steps)
        } else {
            let beginning = self.beginning(index);
            self.along(beginning, steps)
        }
    }

    /// The centre of a band.
    pub fn centre(&self, index: usize) -> Num
        requires bands { AreBands self.now }
        requires there { index < self.now.count }
        ensures value { result ≡ centre_of_band self.now index }
        ensures within { IsBetween self.now.r0 self.now.r1 result }
    {
        let steps = self.steps();
        let beginning = self.beginning(index);
        let end = self.end(index);
        self.along(beginning + end, 2 * steps)
    }

    // The range from its lesser end to its greater.
    fn rising(&self) -> (Num, Num)
        requires { IsRange (self.now.r0, self.now.r1) }
        ensures value { result.1 -ℤ result.0 ≡ pos (unsigned_abs (self.now.r1 -ℤ self.now.r0)) }
        ensures range { IsRange result }
    {
        if self.r1 < self.r0 {
            (self.r1, self.r0)
        } else {
            (self.r0, self.r1)
        }
    }

    /// The width of a band.
    pub fn width(&self) -> Num
        requires { AreBands self.now }
        ensures { result ≡ width_of_band self.now }
    {
        if self.count == 0 {
            return number(0);
        }
        let steps = self.steps();
        if steps > 0 {
            way(self.rising(), self.body(), steps)
        } else {
            number(0)
        }
    }

    // How far so many widths of a band are; None exactly where that is out of range.
    #[tactic(auto, using(fixed_num::proofs::RangeLemmas::in_range_from_exact))]
    fn widths(&self, share: Num) -> Option<Num>
        requires { AreBands self.now }
        ensures { result ≡ in_range (widths_of_band self.now share) }
    {
        share.mul(self.width())
    }

    // The place so far from the lesser end of a band; None exactly where it is out of range.
    #[tactic(auto, using(fixed_num::proofs::RangeLemmas::in_range_from_exact))]
    fn place_after(&self, index: usize, way: Num) -> Option<Num>
        requires bands { AreBands self.now }
        requires there { index < self.now.count }
        ensures { result ≡ in_range (place_of_band self.now index +ℤ way) }
    {
        self.place(index).add(way)
    }

    /// The place on a band, its centre for one half, else so many widths from its lesser end; None exactly where those widths are out of
    /// range, or the place is.
    pub fn place_on(&self, index: usize, share: Num) -> Option<Num>
        requires bands { AreBands self.now }
        requires there { index < self.now.count }
        ensures { result ≡ place_on_band self.now index share }
    {
        if share.millionths() == 500_000 {
            return Some(self.centre(index));
        }
        let way = self.widths(share)?;
        self.place_after(index, way)
    }
}

//! Scales, and what a chart has of them.
ghost use Rattle.std.specs.Prelude.{◌≡◌, IfOk};

use cell_value::Cell;
use fixed_num::Num;
use std::alloc::Global;
use text_kit::{Copies, OutOfMemory, Seq, Text, copy_list};

/// A place or an inverse is out of range. It has no other meaning.
#[derive(Clone, Copy, Debug, PartialEq, Eq)]
pub struct Overflow;

/// A scale: a domain of cells, and what each of them has. Numbers from `d0` to `d1` or the cells of a list are the domain; places from
/// `r0` to `r1` in pixels, the entries of a list or the colours of a ramp are the range.
#[derive(Debug, Drop)]
pub enum Scale {
    /// Numbers, laid over a range.
    Linear {
        /// Where the domain begins.
        d0: Num,
        /// Where it ends.
        d1: Num,
        /// Where the range begins.
        r0: Num,
        /// Where it ends.
        r1: Num,
    },
    /// Instants, laid over a range.
    Time {
        /// Where the domain begins.
        d0: Num,
        /// Where it ends.
        d1: Num,
        /// Where the range begins.
        r0: Num,
        /// Where it ends.
        r1: Num,
    },
    /// A band for each cell.
    Band {
        /// The cells.
        domain: Seq<Cell>,
        /// The padding between bands, in steps.
        inner: Num,
        /// The padding before the first and after the last band, in steps.
        outer: Num,
        /// Where the range begins.
        r0: Num,
        /// Where it ends.
        r1: Num,
    },
    /// A point for each cell.
    Point {
        /// The cells.
        domain: Seq<Cell>,
        /// The padding before the first and after the last point, in steps.
        outer: Num,
        /// Where the range begins.
        r0: Num,
        /// Where it ends.
        r1: Num,
    },
    /// An entry of the range for each cell, in turn.
    Ordinal {
        /// The cells.
        domain: Seq<Cell>,
        /// What they have: numbers as places, texts as colours or signs.
        range: Seq<Cell>,
    },
    /// A colour for each number, or for each instant.
    Ramp {
        /// Whether the domain is one of instants.
        time: bool,
        /// Where the domain begins.
        d0: Num,
        /// Where it ends.
        d1: Num,
        /// The colour at its beginning: red, green and blue.
        from: [u8; 3],
        /// The colour at its end.
        to: [u8; 3],
    },
}

impl Scale {
    /// A scale that equals this one.
    pub fn copy(&self, alloc: Global) -> Result<Scale, OutOfMemory>
        ensures { IfOk result (λ copy. copy ≡ self.now) }
    {
        match self {
            Scale::Linear { d0, d1, r0, r1 } => Ok(Scale::Linear {
                d0: *d0,
                d1: *d1,
                r0: *r0,
                r1: *r1,
            }),
            Scale::Time { d0, d1, r0, r1 } => Ok(Scale::Time {
                d0: *d0,
                d1: *d1,
                r0: *r0,
                r1: *r1,
            }),
            Scale::Band {
                domain,
                inner,
                outer,
                r0,
                r1,
            } => Ok(Scale::Band {
                domain: copy_list(alloc, domain.as_slice())?,
                inner: *inner,
                outer: *outer,
                r0: *r0,
                r1: *r1,
            }),
            Scale::Point {
                domain,
                outer,
                r0,
                r1,
            } => Ok(Scale::Point {
                domain: copy_list(alloc, domain.as_slice())?,
                outer: *outer,
                r0: *r0,
                r1: *r1,
            }),
            Scale::Ordinal { domain, range } => Ok(Scale::Ordinal {
                domain: copy_list(alloc, domain.as_slice())?,
                range: copy_list(alloc, range.as_slice())?,
            }),
            Scale::Ramp {
                time,
                d0,
                d1,
                from,
                to,
            } => Ok(Scale::Ramp {
                time: *time,
                d0: *d0,
                d1: *d1,
                from: *from,
                to: *to,
            }),
        }
    }
}

/// A scale under its name.
#[derive(Debug, Drop)]
pub struct ScaleIn {
    /// The index in the scene of the panel that it belongs to, None for a scale of the whole chart.
    pub panel: Option<usize>,
    /// Its name.
    pub name: Text,
    /// The scale.
    pub scale: Scale,
}

impl ScaleIn {
    /// A named scale that equals this one.
    pub fn copy(&self, alloc: Global) -> Result<ScaleIn, OutOfMemory>
        ensures { IfOk result (λ copy. copy ≡ self.now) }
    {
        Ok(ScaleIn {
            panel: self.panel,
            name: self.name.copy()?,
            scale: self.scale.copy(alloc)?,
        })
    }
}

impl Copies for ScaleIn {
    fn copied(&self, alloc: Global) -> Result<ScaleIn, OutOfMemory> {
        self.copy(alloc)
    }
}

/// The scales of a chart.
#[derive(Debug, Drop)]
pub struct ScaleSet {
    /// The scales.
    pub scales: Seq<ScaleIn>,
}

impl ScaleSet {
    /// A set that equals this one.
    pub fn copy(&self, alloc: Global) -> Result<ScaleSet, OutOfMemory>
        ensures { IfOk result (λ copy. copy ≡ self.now) }
    {
        Ok(ScaleSet {
            scales: copy_list(alloc, self.scales.as_slice())?,
        })
    }
}

// Axes, legends and headers.
use cell_value::Cell;
use fixed_num::Num;
use std::alloc::Global;
use text_kit::{Copies, OutOfMemory, Seq, Text, copied_three, copied_two};

/// An axis.
pub struct Axis {
    /// The title; null for none.
    pub title: Option<Option<Text>>,
    /// Whether it has labels.
    pub labels: Option<bool>,
    /// Whether it has ticks.
    pub ticks: Option<bool>,
    /// Whether it has a line.
    pub domain: Option<bool>,
    /// Whether lines run across the plot.
    pub grid: Option<bool>,
    /// The angle of labels, in degrees.
    pub label_angle: Option<Num>,
    /// About how many ticks there are.
    pub tick_count: Option<Num>,
    /// The cells that have ticks.
    pub values: Option<Seq<Cell>>,
    /// The side of the plot.
    pub orient: Option<Side>,
    /// How labels are written.
    pub format: Option<Text>,
}

/// A side of a plot.
#[derive(Clone, Copy)]
pub enum Side {
    /// `left`
    Left,
    /// `right`
    Right,
    /// `top`
    Top,
    /// `bottom`
    Bottom,
}

/// A legend.
pub struct Legend {
    /// The title; null for none.
    pub title: Option<Option<Text>>,
    /// How labels are written.
    pub format: Option<Text>,
}

/// The headers of panels.
#[derive(Clone, Copy)]
pub struct Header {
    /// Whether there are labels.
    pub labels: Option<bool>,
}

impl Drop for Axis {
    fn drop(self) {
        let Axis {
            title: _,
            labels: _,
            ticks: _,
            domain: _,
            grid: _,
            label_angle: _,
            tick_count: _,
            values: _,
            orient: _,
            format: _,
        } = self;
    }
}

impl Drop for Legend {
    fn drop(self) {
        let Legend {
            title: _,
            format: _,
        } = self;
    }
}

impl Copies for Axis {
    fn copied(&self, alloc: Global) -> Result<Axis, OutOfMemory> {
        let (title, format, values) = copied_three(alloc, &self.title, &self.format, &self.values)?;
        Ok(Axis {
            title,
            labels: self.labels,
            ticks: self.ticks,
            domain: self.domain,
            grid: self.grid,
            label_angle: self.label_angle,
            tick_count: self.tick_count,
            values,
            orient: self.orient,
            format,
        })
    }
}

impl Copies for Legend {
    fn copied(&self, alloc: Global) -> Result<Legend, OutOfMemory> {
        let (title, format) = copied_two(alloc, &self.title, &self.format)?;
        Ok(Legend { title, format })
    }
}

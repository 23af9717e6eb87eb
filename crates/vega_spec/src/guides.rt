// Axes, legends and layouts.
use cell_value::Cell;
use fixed_num::Num;
use std::alloc::Global;
use text_kit::{Copies, OutOfMemory, Seq, Text, copied_four, copied_six};

/// An axis.
#[derive(Debug)]
pub struct Axis {
    /// The name of the scale that is shown.
    pub scale: Text,
    /// The side of the plot.
    pub orient: Side,
    /// The title.
    pub title: Option<Text>,
    /// Whether there are labels.
    pub labels: Option<bool>,
    /// Whether there are ticks.
    pub ticks: Option<bool>,
    /// Whether there is a line along the axis.
    pub domain: Option<bool>,
    /// Whether there are lines across the plot.
    pub grid: Option<bool>,
    /// How far the labels are turned, in degrees.
    pub label_angle: Option<Num>,
    /// About how many ticks there are.
    pub tick_count: Option<Num>,
    /// The cells that have ticks.
    pub values: Option<Seq<Cell>>,
    /// How labels are written.
    pub format: Option<Text>,
    /// The panels in which alone the axis stands.
    pub edge: Option<Edge>,
}

impl Drop for Axis {
    fn drop(self) {
        let Axis {
            scale: _,
            orient: _,
            title: _,
            labels: _,
            ticks: _,
            domain: _,
            grid: _,
            label_angle: _,
            tick_count: _,
            values: _,
            format: _,
            edge: _,
        } = self;
    }
}

/// A side of a plot.
#[derive(Clone, Copy, Debug, PartialEq, Eq)]
pub enum Side {
    /// `left`
    Left,
    /// `right`
    Right,
    /// `top`
    Top,
    /// `bottom`
    Bottom,
}

/// The panels in which an axis stands alone.
#[derive(Clone, Copy, Debug, PartialEq, Eq)]
pub enum Edge {
    /// `last-row`
    LastRow,
    /// `first-column`
    FirstColumn,
}

/// A legend, by the scales that it shows.
#[derive(Debug)]
pub struct Legend {
    /// The scale of colours.
    pub fill: Option<Text>,
    /// The scale of opacities.
    pub opacity: Option<Text>,
    /// The scale of shapes.
    pub shape: Option<Text>,
    /// The scale of areas.
    pub size: Option<Text>,
    /// The title.
    pub title: Option<Text>,
    /// How labels are written.
    pub format: Option<Text>,
}

impl Drop for Legend {
    fn drop(self) {
        let Legend {
            fill: _,
            opacity: _,
            shape: _,
            size: _,
            title: _,
            format: _,
        } = self;
    }
}

/// How groups stand in a grid.
#[derive(Clone, Copy, Debug)]
pub struct Layout {
    /// The space between them.
    pub padding: Option<Num>,
    /// How many stand in a row at most.
    pub columns: Option<Num>,
}

impl Copies for Axis {
    fn copied(&self, alloc: Global) -> Result<Axis, OutOfMemory> {
        let (scale, title, values, format) = copied_four(
            alloc,
            &self.scale,
            &self.title,
            &self.values,
            &self.format,
        )?;
        Ok(Axis {
            scale,
            orient: self.orient,
            title,
            labels: self.labels,
            ticks: self.ticks,
            domain: self.domain,
            grid: self.grid,
            label_angle: self.label_angle,
            tick_count: self.tick_count,
            values,
            format,
            edge: self.edge,
        })
    }
}

impl Copies for Legend {
    fn copied(&self, alloc: Global) -> Result<Legend, OutOfMemory> {
        let (fill, opacity, shape, size, title, format) = copied_six(
            alloc,
            &self.fill,
            &self.opacity,
            &self.shape,
            &self.size,
            &self.title,
            &self.format,
        )?;
        Ok(Legend {
            fill,
            opacity,
            shape,
            size,
            title,
            format,
        })
    }
}

// Sizes, and what views share.
use crate::copying::copied_values;
use fixed_num::Num;
use std::alloc::Global;
use text_kit::{Copies, OutOfMemory, Seq};

/// A width or a height.
#[derive(Clone, Copy)]
pub enum Size {
    /// A number, in pixels.
    Number(Num),
    /// The step from one cell to the next, in pixels.
    Step(Num),
}

/// The sizes of views that say none.
#[derive(Clone, Copy)]
pub struct ConfigView {
    /// The width of a plot whose x is continuous.
    pub continuous_width: Option<Num>,
    /// The height of one whose y is.
    pub continuous_height: Option<Num>,
    /// The width of a plot whose x is discrete.
    pub discrete_width: Option<Size>,
    /// The height of one whose y is.
    pub discrete_height: Option<Size>,
    /// The step from one cell to the next.
    pub step: Option<Num>,
}

/// How the picture's size is found.
#[derive(Clone, Copy)]
pub enum Autosize {
    /// `pad`
    Pad,
}

/// Which scales the views inside a view share.
pub struct Resolve {
    /// What is said of channels.
    pub scale: Option<Seq<SharingOf>>,
}

/// Whether views share the scale of a channel.
#[derive(Clone, Copy)]
pub struct SharingOf {
    /// The code of the channel among `case_table::CHANNELS`.
    pub channel: u16,
    /// Whether they share it.
    pub sharing: Sharing,
}

/// Whether views share a scale.
#[derive(Clone, Copy)]
pub enum Sharing {
    /// `shared`
    Shared,
    /// `independent`
    Independent,
}

impl Drop for Resolve {
    fn drop(self) {
        let Resolve { scale: _ } = self;
    }
}

impl Copies for Resolve {
    fn copied(&self, alloc: Global) -> Result<Resolve, OutOfMemory> {
        Ok(Resolve {
            scale: copied_values(alloc, &self.scale)?,
        })
    }
}

// Scenes, their panels and their items.
ghost use Rattle.std.specs.Prelude.{◌≡◌, IfOk};

use crate::{Items, Shape};
use cell_value::{Key, Row, SharedText};
use fixed_num::Num;
use std::alloc::Global;
use text_kit::{Copies, OutOfMemory, Seq, copy_list};

/// A picture of this size, in pixels. Its panels are drawn in order.
#[derive(Debug, Drop)]
pub struct Scene {
    /// Its width.
    pub width: Num,
    /// Its height.
    pub height: Num,
    /// Its panels.
    pub panels: Seq<Panel>,
}

/// A part of a picture with an origin and a size of its own, in pixels. Its items are drawn in order, at places
/// from its origin.
#[derive(Debug, Drop)]
pub struct Panel {
    /// How far its origin is from the left edge of the picture.
    pub x: Num,
    /// How far its origin is from the top of the picture.
    pub y: Num,
    /// Its width.
    pub width: Num,
    /// Its height.
    pub height: Num,
    /// The least unit number of the marks of its plot; None where it is no plot, or one without marks.
    pub view: Option<u32>,
    /// The facet cells of its plot, by their fields; None outside facets.
    pub facet: Option<Row>,
    /// Its items.
    pub items: Items,
}

/// A shape with its colours.
#[derive(Debug, Drop)]
pub struct Item {
    /// The shape.
    pub shape: Shape,
    /// The colour inside of it, as a word of SVG; None for none.
    pub fill: Option<SharedText>,
    /// The colour of its outline, as a word of SVG; None for none.
    pub stroke: Option<SharedText>,
    /// The width of its outline, in pixels.
    pub stroke_width: Num,
    /// How opaque it is, from 0 to 1.
    pub opacity: Num,
    /// The number of the mark that made it; None where no mark did.
    pub unit: Option<u32>,
    /// The key of its row, where a mark made it and it is a rect or a symbol; else None.
    pub key: Option<Key>,
}

impl Scene {
    /// A scene that equals this one.
    pub fn copy(&self, alloc: Global) -> Result<Scene, OutOfMemory>
        ensures { IfOk result (λ copy. copy ≡ self.now) }
    {
        Ok(Scene {
            width: self.width,
            height: self.height,
            panels: copy_list(alloc, self.panels.as_slice())?,
        })
    }
}

impl Panel {
    /// A panel that equals this one.
    pub fn copy(&self, alloc: Global) -> Result<Panel, OutOfMemory>
        ensures { IfOk result (λ copy. copy ≡ self.now) }
    {
        Ok(Panel {
            x: self.x,
            y: self.y,
            width: self.width,
            height: self.height,
            view: self.view,
            facet: Copies::copied(&self.facet, alloc)?,
            items: self.items.copy(alloc)?,
        })
    }
}

impl Item {
    /// An item that equals this one.
    pub fn copy(&self, alloc: Global) -> Result<Item, OutOfMemory>
        ensures { IfOk result (λ copy. copy ≡ self.now) }
    {
        Ok(Item {
            shape: self.shape.copy(alloc)?,
            fill: Copies::copied(&self.fill, alloc)?,
            stroke: Copies::copied(&self.stroke, alloc)?,
            stroke_width: self.stroke_width,
            opacity: self.opacity,
            unit: self.unit,
            key: self.key,
        })
    }
}

impl Copies for Panel {
    fn copied(&self, alloc: Global) -> Result<Panel, OutOfMemory> {
        self.copy(alloc)
    }
}

impl Copies for Item {
    fn copied(&self, alloc: Global) -> Result<Item, OutOfMemory> {
        self.copy(alloc)
    }
}

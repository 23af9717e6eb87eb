// Selections and plots, as events see them.
ghost use Rattle.std.specs.Prelude.{◌≡◌, IfOk};

use std::alloc::Global;
use text_kit::{Copies, OutOfMemory, Seq, Text, copy_list};

/// A channel of a drag.
#[derive(Debug, Drop)]
pub struct DragOf {
    /// The channel: `x` or `y`.
    pub channel: Text,
    /// The field that the channel shows.
    pub field: Text,
}

/// What a selection does on events.
#[derive(Debug, Drop)]
pub struct SelectionOf {
    /// Its name.
    pub name: Text,
    /// The numbers of the units that it concerns, rising.
    pub units: Seq<u32>,
    /// The fields that it keeps of an item that is clicked, each once; None where it does nothing on a click.
    pub click: Option<Seq<Text>>,
    /// The fields that it keeps of an item that is clicked with the shift key, each once; None where it does nothing then.
    pub toggle: Option<Seq<Text>>,
    /// Whether a double click clears it.
    pub clears: bool,
    /// The channels of a drag; none where it does nothing on a drag.
    pub drag: Seq<DragOf>,
}

/// A plot with marks.
#[derive(Debug, Drop)]
pub struct PlotOf {
    /// The numbers of the units that it draws, rising. There is one at least.
    pub units: Seq<u32>,
    /// The fields of the facets round it, the outer before the inner; None outside facets.
    pub facet: Option<Seq<Text>>,
}

impl DragOf {
    /// A channel that equals this one.
    pub fn copy(&self) -> Result<DragOf, OutOfMemory>
        ensures { IfOk result (λ copy. copy ≡ self.now) }
    {
        Ok(DragOf {
            channel: self.channel.copy()?,
            field: self.field.copy()?,
        })
    }
}

impl SelectionOf {
    /// A selection that equals this one.
    pub fn copy(&self, alloc: Global) -> Result<SelectionOf, OutOfMemory>
        ensures { IfOk result (λ copy. copy ≡ self.now) }
    {
        Ok(SelectionOf {
            name: self.name.copy()?,
            units: Seq::from_slice(alloc, self.units.as_slice())?,
            click: Copies::copied(&self.click, alloc)?,
            toggle: Copies::copied(&self.toggle, alloc)?,
            clears: self.clears,
            drag: copy_list(alloc, self.drag.as_slice())?,
        })
    }
}

impl PlotOf {
    /// A plot that equals this one.
    pub fn copy(&self, alloc: Global) -> Result<PlotOf, OutOfMemory>
        ensures { IfOk result (λ copy. copy ≡ self.now) }
    {
        Ok(PlotOf {
            units: Seq::from_slice(alloc, self.units.as_slice())?,
            facet: Copies::copied(&self.facet, alloc)?,
        })
    }
}

impl Copies for DragOf {
    fn copied(&self, _: Global) -> Result<DragOf, OutOfMemory> {
        self.copy()
    }
}

impl Copies for SelectionOf {
    fn copied(&self, alloc: Global) -> Result<SelectionOf, OutOfMemory> {
        self.copy(alloc)
    }
}

impl Copies for PlotOf {
    fn copied(&self, alloc: Global) -> Result<PlotOf, OutOfMemory> {
        self.copy(alloc)
    }
}

// Keyed rows, and the state of a chart.
ghost use Rattle.std.specs.Prelude.{◌≡◌, IfOk};

use crate::{Cell, Row};
use fixed_num::Num;
use std::alloc::Global;
use text_kit::{Copies, OutOfMemory, Seq, Text, copy_list};

/// What names a row among all rows of a chart.
#[derive(Clone, Copy, Debug, PartialEq, Eq, PartialOrd, Ord)]
pub struct Key {
    /// The number that the row was given when it came into the chart.
    pub id: u64,
    /// The number of the row among those that a fold makes of one row, else 0.
    pub branch: u32,
}

/// A row with its key.
#[derive(Debug, Drop)]
pub struct Keyed {
    /// Its key.
    pub key: Key,
    /// Its cells.
    pub row: Row,
}

impl Keyed {
    /// A keyed row that equals this one.
    pub fn copy(&self) -> Result<Keyed, OutOfMemory>
        ensures { IfOk result (λ copy. copy ≡ self.now) }
    {
        Ok(Keyed {
            key: self.key,
            row: self.row.copy()?,
        })
    }
}

/// Rows with their keys.
pub type Rows = Seq<Keyed>;

/// A source of rows.
#[derive(Debug, Drop)]
pub struct Named {
    /// Its name.
    pub name: Text,
    /// Its rows.
    pub rows: Rows,
}

impl Named {
    /// A source that equals this one.
    pub fn copy(&self, alloc: Global) -> Result<Named, OutOfMemory>
        ensures { IfOk result (λ copy. copy ≡ self.now) }
    {
        Ok(Named {
            name: self.name.copy()?,
            rows: copy_list(alloc, self.rows.as_slice())?,
        })
    }
}

/// What an interval selection holds of one channel.
#[derive(Debug, Drop)]
pub struct Extent {
    /// The channel.
    pub channel: Text,
    /// The field that the channel shows.
    pub field: Text,
    /// Whether the ends are instants.
    pub temporal: bool,
    /// The lower end.
    pub lo: Num,
    /// The upper end.
    pub hi: Num,
}

impl Extent {
    /// An extent that equals this one.
    pub fn copy(&self) -> Result<Extent, OutOfMemory>
        ensures { IfOk result (λ copy. copy ≡ self.now) }
    {
        Ok(Extent {
            channel: self.channel.copy()?,
            field: self.field.copy()?,
            temporal: self.temporal,
            lo: self.lo,
            hi: self.hi,
        })
    }
}

/// What a selection holds.
#[derive(Debug, Drop)]
pub struct StoreOf {
    /// The selection's name.
    pub name: Text,
    /// The tuples of a point selection.
    pub tuples: Seq<Row>,
    /// The extents of an interval selection.
    pub extents: Seq<Extent>,
    /// The facet fields of the plot that it was made in, None outside facets.
    pub panel: Option<Row>,
    /// The number of the unit that it was made in.
    pub unit: u32,
}

impl StoreOf {
    /// A store that equals this one.
    pub fn copy(&self, alloc: Global) -> Result<StoreOf, OutOfMemory>
        ensures { IfOk result (λ copy. copy ≡ self.now) }
    {
        Ok(StoreOf {
            name: self.name.copy()?,
            tuples: copy_list(alloc, self.tuples.as_slice())?,
            extents: copy_list(alloc, self.extents.as_slice())?,
            panel: Copies::copied(&self.panel, alloc)?,
            unit: self.unit,
        })
    }
}

/// The values of a chart's parameters, and what its selections hold.
#[derive(Debug, Drop)]
pub struct Params {
    /// The parameters' names and values.
    pub params: Seq<(Text, Cell)>,
    /// What the selections hold.
    pub stores: Seq<StoreOf>,
}

impl Params {
    /// Values that equal these.
    pub fn copy(&self, alloc: Global) -> Result<Params, OutOfMemory>
        ensures { IfOk result (λ copy. copy ≡ self.now) }
    {
        Ok(Params {
            params: copy_list(alloc, self.params.as_slice())?,
            stores: copy_list(alloc, self.stores.as_slice())?,
        })
    }
}

/// All that commands change in a chart.
#[derive(Debug, Drop)]
pub struct ChartState {
    /// The id of the row that comes next into the chart.
    pub next_id: u64,
    /// The sources.
    pub sources: Seq<Named>,
    /// The names and values of the parameters that can be set.
    pub params: Seq<(Text, Cell)>,
    /// What the selections hold.
    pub stores: Seq<StoreOf>,
}

impl ChartState {
    /// A state that equals this one.
    pub fn copy(&self, alloc: Global) -> Result<ChartState, OutOfMemory>
        ensures { IfOk result (λ copy. copy ≡ self.now) }
    {
        Ok(ChartState {
            next_id: self.next_id,
            sources: copy_list(alloc, self.sources.as_slice())?,
            params: copy_list(alloc, self.params.as_slice())?,
            stores: copy_list(alloc, self.stores.as_slice())?,
        })
    }
}

impl Copies for Row {
    fn copied(&self, _: Global) -> Result<Row, OutOfMemory> {
        self.copy()
    }
}

impl Copies for Keyed {
    fn copied(&self, _: Global) -> Result<Keyed, OutOfMemory> {
        self.copy()
    }
}

impl Copies for Named {
    fn copied(&self, alloc: Global) -> Result<Named, OutOfMemory> {
        self.copy(alloc)
    }
}

impl Copies for Extent {
    fn copied(&self, _: Global) -> Result<Extent, OutOfMemory> {
        self.copy()
    }
}

impl Copies for StoreOf {
    fn copied(&self, alloc: Global) -> Result<StoreOf, OutOfMemory> {
        self.copy(alloc)
    }
}

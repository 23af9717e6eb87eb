//! Vega-Lite specifications as values: a struct for each object of the table of members, with a field for each member that is read,
//! in the order of the table. A member that may be absent is an `Option`; where it may be null too, the inner `Option` is None for
//! null. Sources and parameters are lists in the order of the text; a view has the names and numbers of its own.
#![tactic(auto)]

mod bounds;
mod channels;
mod copying;
mod definitions;
mod filters;
mod groupings;
mod guides;
mod marks;
mod orders;
mod params;
mod scales;
mod sizes;
mod sources;
mod spec;
mod transforms;
mod views;

pub use bounds::{
    LEAST_COUNT, LEAST_NUMBER, LEAST_SHIFT, MOST_COUNT, MOST_LOOK, MOST_NUMBER, MOST_SHARE,
    MOST_SHIFT, MOST_SIZE, MOST_SPACE, MOST_STEP, MOST_TICKS, OVER_ZERO,
};
pub use channels::{Channel, ChannelKind, ChannelOf, Condition, Conditions, Encoding, Test};
pub use definitions::{
    Bin, BinSettings, DatumDefinition, Definition, FieldDefinition, FieldType, Stacking,
};
pub use filters::{Comparison, FieldTest, Filter, ParamTest};
pub use groupings::{
    AggregateTransform, Frame, LookupFrom, LookupTransform, Operation, WindowOperation,
    WindowTransform,
};
pub use guides::{Axis, Header, Legend, Side};
pub use marks::{Align, Baseline, Interpolate, Mark, MarkDefinition, MarkType};
pub use orders::{FieldSort, Offset, Order, Sort, SortField, Texts};
pub use params::{
    Clear, ParamKind, ParamOf, Select, SelectDefinition, SelectEvent, SelectType, Selection, Toggle,
};
pub use scales::{Domain, ParamDomain, Scale, Scheme};
pub use sizes::{Autosize, ConfigView, Resolve, Sharing, SharingOf, Size};
pub use sources::{Format, FormatKind, ParseKind, SourceOf};
pub use spec::VlSpec;
pub use transforms::{
    BinTransform, CalculateTransform, FoldTransform, Names, StackTransform, TimeUnitTransform,
    Transform,
};
pub use views::{CrossFacet, Facet, Faceted, Joined, Joining, Layer, Unit, View, ViewKind};

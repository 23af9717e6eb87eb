//! Vega specifications as values: a struct for each object of the table of members, with a field for each member that is read, in
//! the order of the table. A member that may be absent is an `Option`; a list that is there and empty is no absent list.
#![tactic(auto)]

mod copying;
mod data;
mod domains;
mod encode;
mod groupings;
mod guides;
mod marks;
mod names;
mod orders;
mod scales;
mod signals;
mod spec;
mod transforms;

pub use data::{DataSet, Format, FormatKind, ParseKind};
pub use domains::{Domain, DomainOrder, FieldDomain, FieldsDomain, Reference};
pub use encode::{Channel, ChannelValue, Channels, Encode};
pub use groupings::{Aggregate, Frame, Lookup, Window};
pub use guides::{Axis, Edge, Layout, Legend, Side};
pub use marks::{Cross, Facet, Header, MarkFrom, MarkType};
pub use names::{Parameter, ParameterKind, parameters_of, sources_of};
pub use orders::{Order, Orders, Sort, Texts};
pub use scales::{Range, Scale};
pub use signals::{EventSelector, EventUpdate, Signal};
pub use spec::{Autosize, Group, Size, VgMark, VgSpec};
pub use transforms::{
    Bin, BinExtent, Extent, Filter, Fold, Formula, Offset, Stack, TimeUnit, Transform,
};

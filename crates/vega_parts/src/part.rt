//! Parts of a specification.
use spec_schema::SpecKind;
use text_kit::{Seq, Text};

/// A place in a specification: from the top on, the number of a child among its parent's children, counted from 0. The top
/// has the empty place.
pub type Place = Seq<usize>;

/// What the rules that look around have to know of a specification. A scope is the place of the object, the top or a group,
/// that has a name or in which it is looked up.
#[derive(Drop)]
pub enum Part {
    /// A fault that shows where it stands.
    Fault {
        /// Where it stands.
        at: Place,
        /// Of which kind it is.
        kind: SpecKind,
    },
    /// A name that is given to something.
    Given(GivenName),
    /// A name that is used.
    Used(UsedName),
    /// A mark or a group.
    Mark {
        /// Where it stands.
        at: Place,
        /// The object round it.
        scope: Place,
        /// Its name.
        name: Option<Text>,
        /// Whether it is a group.
        group: bool,
    },
    /// A plot outside facets: the top, or a group under a layout, that has no layout itself.
    Plot {
        /// The top or the group.
        at: Place,
    },
    /// A data set.
    Data {
        /// Where it stands.
        at: Place,
    },
    /// A transform of a data set.
    Step {
        /// Where it stands.
        at: Place,
        /// Its data set.
        data: Place,
    },
    /// A fold of a data set.
    Fold {
        /// Where the transform stands.
        at: Place,
        /// Its data set.
        data: Place,
        /// How many fields it has.
        fields: usize,
    },
    /// A scale that a drag inverts.
    Interval {
        /// Where the update stands.
        at: Place,
        /// The object that has the signal.
        scope: Place,
        /// The name of the scale.
        scale: Text,
        /// The marks that the signal names, where it names some.
        marks: Option<Seq<Text>>,
    },
}

/// A name that is given to something.
#[derive(Drop)]
pub struct GivenName {
    /// To what it is given.
    pub kind: Given,
    /// In which object, signal or facet it is given.
    pub scope: Place,
    /// Where the thing stands that has the name.
    pub of: Place,
    /// Where the name stands.
    pub at: Place,
    /// The name.
    pub name: Text,
    /// Of a scale, its traits.
    pub scale: Option<ScaleTraits>,
}

/// To what a name is given.
#[derive(Clone, Copy, PartialEq, Eq)]
pub enum Given {
    /// A data set.
    Data,
    /// A data set without a source, among all of the specification.
    Source,
    /// The rows of a copy of a group.
    Facet,
    /// A signal, or the signal of an extent.
    Signal,
    /// The store of a selection.
    Store,
    /// A scale.
    Scale,
    /// The rows of a copy of a group, among those of one facet.
    FacetName,
    /// An event selector, among those of one signal.
    Selector,
    /// A place of headers, among those of one facet.
    Header,
}

/// What the rules ask of a scale.
#[derive(Clone, Copy)]
pub struct ScaleTraits {
    /// Its type.
    pub type_: ScaleType,
    /// Its range.
    pub range: RangeKind,
    /// Whether its object is a group under an object without a layout.
    pub in_plot: bool,
}

/// The type of a scale.
#[derive(Clone, Copy, PartialEq, Eq)]
pub enum ScaleType {
    Linear,
    Time,
    Band,
    Point,
    Ordinal,
    /// No known type.
    Other,
}

/// The range of a scale.
#[derive(Clone, Copy, PartialEq, Eq)]
pub enum RangeKind {
    /// The width of the plot.
    Width,
    /// Its height.
    Height,
    /// Colours between two.
    Ramp,
    /// Any other range.
    Other,
}

/// A name that is used.
#[derive(Drop)]
pub struct UsedName {
    /// For what it is used.
    pub kind: Used,
    /// In which object it is looked up.
    pub scope: Place,
    /// Where it stands.
    pub at: Place,
    /// The name.
    pub name: Text,
}

/// For what a name is used.
#[derive(Clone, Copy, PartialEq, Eq)]
pub enum Used {
    /// The data set from which another takes its rows.
    Source,
    /// The data set of a lookup.
    From,
    /// The rows of a mark.
    MarkRows,
    /// The rows of a facet.
    FacetRows,
    /// The rows of a domain.
    Domain,
    /// A signal.
    Signal,
    /// The store of a selection.
    Store,
    /// A scale.
    Scale,
    /// A scale of which the size of a plot makes no sense as the range.
    SizedScale,
    /// A mark below the object.
    MarkBelow,
}

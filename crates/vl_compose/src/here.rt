// Views and units, lent by a specification.
use text_kit::Seq;
use vl_spec::{ChannelOf, Mark, View};

/// A view where it stands.
#[derive(Clone, Copy)]
pub struct ViewHere<'s> {
    /// Its number among all views of the specification, counted from 0: an outer one before those in it, and else in the order of the text.
    pub number: usize,
    /// Its number among the views in the view round it, counted from 0; 0 for the top.
    pub child: usize,
    /// The view.
    pub view: &'s View,
}

/// A unit where it stands.
#[derive(Drop)]
pub struct UnitHere<'s> {
    /// Its number among the units of the specification, counted from 0 in the order of the text.
    pub number: usize,
    /// The views round it, from the top in; the last is its own.
    pub round: Seq<ViewHere<'s>>,
    /// Its mark.
    pub mark: &'s Option<Mark>,
    /// Its channels, with those of the layers round it, as far as the mark has a use for them.
    pub channels: Seq<&'s ChannelOf>,
}

// Marks and their copies, in the order of the text.
use vega_copies::{CopyFacts, MarkFacts, Step};

/// The numbers that come next, in the order of the text.
#[derive(Clone, Copy)]
pub struct Numbers {
    /// That of the next mark other than a group.
    pub unit: u32,
    /// That of the next group.
    pub number: u32,
}

/// A mark of an object, by what was found of it.
#[derive(Clone, Copy)]
pub struct MarkHere<'a> {
    /// The facts of it.
    pub facts: &'a MarkFacts,
    /// Its place among the marks of the object, from 0 on.
    pub place: usize,
    /// The numbers from it on.
    pub numbers: Numbers,
}

/// A copy of a group, by what was found of it.
#[derive(Clone, Copy)]
pub struct CopyHere<'a> {
    /// The facts of it.
    pub facts: &'a CopyFacts,
    /// The step that leads to it from the copy round it.
    pub step: Step,
    /// The numbers from the group on.
    pub numbers: Numbers,
}

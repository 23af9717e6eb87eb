//! How edits are taken back.
ghost use Rattle.std.specs.Prelude.{◌≤◌, length, vec_capacity};

use cell_value::Keyed;
use text_kit::Seq;

/// How the edit of a row is taken back.
#[derive(Debug, Drop)]
pub enum Mark {
    /// The row stayed.
    Stay,
    /// It was removed, and comes back at its place.
    Insert(Keyed),
    /// It was modified, and comes back in place of what was made of it.
    Replace(Keyed),
}

/// What takes edits of rows back: the mark of each row, and room for the rows.
#[derive(Debug, Drop)]
pub struct Undo {
    /// The marks, in the order of the rows before the edits.
    pub marks: Seq<Mark>,
    /// An empty list with room for the rows before the edits.
    pub spare: Vec<Keyed>,
    ghost room: { length marks ≤ vec_capacity spare },
}

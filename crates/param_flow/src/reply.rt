// Replies.

use text_kit::Text;

/// What is replied to a command.
#[derive(Debug, Drop)]
pub enum Reply {
    /// It was done.
    Done,
    /// It was refused, and changed nothing.
    Refused(Cause),
}

/// Why a command is refused.
#[derive(Debug, Drop)]
pub enum Cause {
    /// The line is no command.
    Line,
    /// There is no source or no parameter of the name, or it is one that can't be set.
    Name,
    /// An inserted row can't be read.
    Row {
        /// Its number among the inserted rows, from 0.
        row: u64,
        /// The first of its fields that can't be read; empty where it is no row at all.
        field: Text,
    },
    /// There would be too many rows, too great an id, or too many panels.
    Limit,
    /// A number would be out of range.
    Overflow,
}

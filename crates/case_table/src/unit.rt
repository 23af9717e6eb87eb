//! Units and parts of time.

/// A unit of time.
#[derive(Clone, Copy, Debug, PartialEq, Eq)]
pub enum Unit {
    Millisecond,
    Second,
    Minute,
    Hour,
    Day,
    Week,
    Month,
    Quarter,
    Year,
}

/// A part of an instant.
#[derive(Clone, Copy, Debug, PartialEq, Eq)]
pub enum PartOf {
    Year,
    /// From 1 to 4.
    Quarter,
    /// From 0 to 11.
    Month,
    /// The day of the month, from 1.
    Date,
    /// The day of the week, from Sunday 0 to Saturday 6.
    Day,
    Hours,
    Minutes,
    Seconds,
    Milliseconds,
}

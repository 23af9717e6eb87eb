// The codes of the kinds of scales among `case_table::SCALE_KINDS`.

/// A continuous scale of numbers.
pub const LINEAR: u16 = 0;

/// A continuous scale of instants.
pub const TIME: u16 = 1;

/// A discrete scale with a band for each cell.
pub const BAND: u16 = 2;

/// A discrete scale with a point for each cell.
pub const POINT: u16 = 3;

/// A discrete scale that gives the entries of a range in turn.
pub const ORDINAL: u16 = 4;

/// A continuous scale of colours.
pub const RAMP: u16 = 5;

// The codes of channels among `case_table::CHANNELS`.

/// `x`
pub const X: u16 = 0;

/// `y`
pub const Y: u16 = 1;

/// `x2`
pub const X2: u16 = 2;

/// `y2`
pub const Y2: u16 = 3;

/// `color`
pub const COLOR: u16 = 4;

/// `opacity`
pub const OPACITY: u16 = 5;

/// `size`
pub const SIZE: u16 = 6;

/// `shape`
pub const SHAPE: u16 = 7;

/// `detail`
pub const DETAIL: u16 = 8;

/// `text`
pub const TEXT: u16 = 9;

/// `row`
pub const ROW: u16 = 10;

/// `column`
pub const COLUMN: u16 = 11;

/// `facet`
pub const FACET: u16 = 12;

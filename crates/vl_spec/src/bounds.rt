// The bounds of numbers, in millionths.

/// The least number in range.
pub const LEAST_NUMBER: i128 = -1_000_000_000_000_000_000_000;

/// The greatest number in range.
pub const MOST_NUMBER: i128 = 1_000_000_000_000_000_000_000;

/// The least number over 0.
pub const OVER_ZERO: i128 = 1;

/// The greatest `padding` of a picture and `spacing`; the least is 0.
pub const MOST_SPACE: i128 = 1_000_000_000;

/// The greatest `opacity`, and padding of a scale; the least is 0.
pub const MOST_SHARE: i128 = 1_000_000;

/// The least of `columns`, `fontSize`, `maxbins` and `tickCount`.
pub const LEAST_COUNT: i128 = 1_000_000;

/// The greatest of `columns`, `fontSize` and `maxbins`.
pub const MOST_COUNT: i128 = 1_000_000_000;

/// The greatest `tickCount`.
pub const MOST_TICKS: i128 = 100_000_000;

/// The greatest `size`, `strokeWidth` and number in a `range`; the least is 0.
pub const MOST_LOOK: i128 = 1_000_000_000_000;

/// The least `dx` and `dy`.
pub const LEAST_SHIFT: i128 = -1_000_000_000_000;

/// The greatest `dx` and `dy`.
pub const MOST_SHIFT: i128 = 1_000_000_000_000;

/// The greatest `width` and `height`, which are over 0.
pub const MOST_SIZE: i128 = 10_000_000_000;

/// The greatest step of a size, which is over 0.
pub const MOST_STEP: i128 = 1_000_000_000;

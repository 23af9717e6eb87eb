// The codes of builtins among `case_table::BUILTINS`.

/// `isValid`
pub const IS_VALID: u16 = 0;

/// `isString`
pub const IS_STRING: u16 = 2;

/// `toDate`
pub const TO_DATE: u16 = 6;

/// `inrange`
pub const IN_RANGE: u16 = 16;

/// `year`
pub const YEAR: u16 = 19;

/// `quarter`
pub const QUARTER: u16 = 20;

/// `month`
pub const MONTH: u16 = 21;

/// `date`
pub const DATE: u16 = 22;

/// `day`
pub const DAY: u16 = 23;

/// `hours`
pub const HOURS: u16 = 24;

/// `minutes`
pub const MINUTES: u16 = 25;

/// `seconds`
pub const SECONDS: u16 = 26;

/// `datetime`
pub const DATETIME: u16 = 38;

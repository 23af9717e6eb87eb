//! The codes of shapes, objects and lists of names. An object has the code of its shape.

/// No value at all.
pub const NOTHING: u16 = 0;

/// Any value.
pub const FREE: u16 = 1;

/// A text.
pub const TEXT: u16 = 2;

/// The text of an expression.
pub const EXPRESSION: u16 = 3;

/// How labels are written.
pub const LABEL_FORMAT: u16 = 4;

/// A truth value.
pub const FLAG: u16 = 5;

/// The value of a cell.
pub const CELL: u16 = 6;

/// A number in range.
pub const NUMBER: u16 = 7;

/// A number from 0 to 1,000.
pub const SPACE: u16 = 8;

/// A number from 0 to 1.
pub const SHARE: u16 = 9;

/// A whole number from 1 to 1,000.
pub const COUNT: u16 = 10;

/// A whole number from 1 to 100.
pub const TICK_COUNT: u16 = 11;

/// 0, -90 or 270.
pub const ANGLE: u16 = 12;

/// A number over 0.
pub const STEP: u16 = 13;

/// A whole number from 0, or null.
pub const PARAMETER: u16 = 14;

/// A whole number, or null.
pub const BOUND: u16 = 15;

/// A number from 0 to 1,000,000.
pub const RANGE_NUMBER: u16 = 16;

/// A number over 0 to 10,000, or the signal of an expression.
pub const SIZE: u16 = 17;

/// How the picture takes its size.
pub const AUTOSIZE: u16 = 18;

/// The type of a data file.
pub const FORMAT_TYPE: u16 = 19;

/// How the texts of a field are read.
pub const PARSE_KIND: u16 = 20;

/// An operation of aggregates.
pub const OPERATION: u16 = 21;

/// An operation of windows.
pub const WINDOW_OPERATION: u16 = 22;

/// A time unit.
pub const TIME_UNIT: u16 = 23;

/// Where stacks begin.
pub const OFFSET: u16 = 24;

/// A direction.
pub const ORDER: u16 = 25;

/// An event selector.
pub const EVENTS: u16 = 26;

/// Where a header stands, or null.
pub const HEADER: u16 = 27;

/// A side of a plot.
pub const SIDE: u16 = 28;

/// The panels in which an axis stands alone.
pub const EDGE: u16 = 29;

/// The range of a continuous scale.
pub const CONTINUOUS_RANGE: u16 = 30;

/// The range of a scale with bands or points.
pub const DISCRETE_RANGE: u16 = 31;

/// The range of an ordinal scale.
pub const ORDINAL_RANGE: u16 = 32;

/// An entry of the range of an ordinal scale.
pub const RANGE_ITEM: u16 = 33;

/// A list of values of cells.
pub const CELLS: u16 = 34;

/// A list of texts.
pub const TEXTS: u16 = 35;

/// A list of one text.
pub const ONE_TEXT: u16 = 36;

/// A list of two texts.
pub const TWO_TEXTS: u16 = 37;

/// A text or a list of texts.
pub const TEXT_OR_TEXTS: u16 = 38;

/// A text or null.
pub const TEXT_OR_NULL: u16 = 39;

/// A list of texts and nulls.
pub const TEXTS_OR_NULLS: u16 = 40;

/// A list of operations of aggregates.
pub const OPERATIONS: u16 = 41;

/// A list of operations of windows.
pub const WINDOW_OPERATIONS: u16 = 42;

/// A list of whole numbers from 0 and nulls.
pub const PARAMETERS: u16 = 43;

/// A list of two whole numbers or nulls.
pub const FRAME: u16 = 44;

/// A direction or a list of directions.
pub const ORDERS: u16 = 45;

/// Two numbers, or the signal of an extent.
pub const EXTENT: u16 = 46;

/// `true`, or the order of a domain.
pub const DOMAIN_ORDER: u16 = 47;

/// A list of values of cells, or an object that tells a domain.
pub const SCALE_DOMAIN: u16 = 48;

/// A value of a channel, or a list of values with tests.
pub const CHANNEL: u16 = 49;

/// The same where the value is a text that is drawn.
pub const WORDS_CHANNEL: u16 = 50;

/// A list of data sets.
pub const DATA_LIST: u16 = 51;

/// A list of transforms.
pub const TRANSFORMS: u16 = 52;

/// A list of signals.
pub const SIGNALS: u16 = 53;

/// A list of updates on events.
pub const ON_LIST: u16 = 54;

/// A list of scales.
pub const SCALES: u16 = 55;

/// A list of references to fields of data sets.
pub const REFERENCES: u16 = 56;

/// A list of marks.
pub const MARKS: u16 = 57;

/// A list of places of headers.
pub const HEADERS: u16 = 58;

/// A list of axes.
pub const AXES: u16 = 59;

/// A list of legends.
pub const LEGENDS: u16 = 60;

/// The whole specification.
pub const TOP: u16 = 61;

/// A data set.
pub const DATA: u16 = 62;

/// The format of a data file.
pub const FORMAT: u16 = 63;

/// How the texts of the fields of a data file are read.
pub const PARSE: u16 = 64;

/// A transform.
pub const TRANSFORM: u16 = 65;

/// An order by fields.
pub const SORT: u16 = 66;

/// The signal of an extent, by its name.
pub const EXTENT_SIGNAL: u16 = 67;

/// A signal.
pub const SIGNAL: u16 = 68;

/// An update on an event.
pub const ON: u16 = 69;

/// A scale.
pub const SCALE: u16 = 70;

/// An object that tells a domain.
pub const DOMAIN: u16 = 71;

/// A reference to a field of a data set.
pub const REFERENCE: u16 = 72;

/// The order of a domain.
pub const DOMAIN_SORT: u16 = 73;

/// The value of an expression.
pub const EXPRESSION_SIGNAL: u16 = 74;

/// A mark.
pub const MARK: u16 = 75;

/// Where the rows of a mark come from.
pub const MARK_FROM: u16 = 76;

/// Where the copies of a group come from.
pub const GROUP_FROM: u16 = 77;

/// How rows are parted into copies of a group.
pub const FACET: u16 = 78;

/// Whether a facet has each pair of cells.
pub const CROSS: u16 = 79;

/// The encode sets of a mark.
pub const ENCODE: u16 = 80;

/// An encode set.
pub const CHANNELS: u16 = 81;

/// A value of a channel.
pub const VALUE: u16 = 82;

/// A value of the channel `text`.
pub const WORDS_VALUE: u16 = 83;

/// An axis.
pub const AXIS: u16 = 84;

/// A legend.
pub const LEGEND: u16 = 85;

/// The layout of a grid.
pub const LAYOUT: u16 = 86;

/// The text of an expression that gives the size of a plot.
pub const SIZE_EXPRESSION: u16 = 87;

/// The value of an expression that gives the size of a plot.
pub const SIZE_SIGNAL: u16 = 88;

/// The encode sets of a group.
pub const GROUP_ENCODE: u16 = 89;

/// An encode set of a group.
pub const GROUP_CHANNELS: u16 = 90;

/// A value of a channel that gives the size of a plot, or a list of values with tests.
pub const SIZE_CHANNEL: u16 = 91;

/// A value of a channel that gives the size of a plot.
pub const SIZE_VALUE: u16 = 92;

/// The range of a scale of no known type: what some scale may have.
pub const ANY_RANGE: u16 = 93;

/// What `autosize` may say.
pub const AUTOSIZE_NAMES: u16 = 0;

/// The types of data files.
pub const FORMAT_NAMES: u16 = 1;

/// How the texts of a field are read.
pub const PARSE_NAMES: u16 = 2;

/// The operations of aggregates.
pub const OPERATION_NAMES: u16 = 3;

/// The operations of windows.
pub const WINDOW_NAMES: u16 = 4;

/// The time units.
pub const UNIT_NAMES: u16 = 5;

/// Where stacks begin.
pub const OFFSET_NAMES: u16 = 6;

/// The directions of orders.
pub const ORDER_NAMES: u16 = 7;

/// The ranges of continuous scales.
pub const CONTINUOUS_NAMES: u16 = 8;

/// The ranges of scales with bands or points.
pub const DISCRETE_NAMES: u16 = 9;

/// The ranges of ordinal scales.
pub const ORDINAL_NAMES: u16 = 10;

/// The event selectors.
pub const EVENT_NAMES: u16 = 11;

/// Where the headers of a facet stand.
pub const HEADER_NAMES: u16 = 12;

/// The sides of a plot.
pub const SIDE_NAMES: u16 = 13;

/// The panels in which an axis stands alone.
pub const EDGE_NAMES: u16 = 14;

/// The ranges of scales of any type.
pub const RANGE_NAMES: u16 = 15;

/// The least number in range, in millionths.
pub const LEAST: i128 = -1_000_000_000_000_000_000_000;

/// The greatest number in range, in millionths.
pub const MOST: i128 = 1_000_000_000_000_000_000_000;

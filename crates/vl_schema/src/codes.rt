//! The codes of shapes, objects and lists of names. An object has the code of its shape.

/// No value at all.
pub const NOTHING: u16 = 0;

/// Any value.
pub const FREE: u16 = 1;

/// A text.
pub const TEXT: u16 = 2;

/// The text of an expression.
pub const EXPRESSION: u16 = 3;

/// How labels are written.
pub const LABEL_FORMAT: u16 = 4;

/// The name that a parameter is given.
pub const PARAMETER_NAME: u16 = 5;

/// A truth value.
pub const FLAG: u16 = 6;

/// The value of a parameter: null, a truth value, a number, a text or two numbers.
pub const CELL: u16 = 7;

/// Null, a truth value, a number or a text.
pub const SCALAR: u16 = 8;

/// A text, or null for none.
pub const TITLE: u16 = 9;

/// A number in range, or null.
pub const NUMBER_OR_NULL: u16 = 10;

/// A number from 0 to 1,000.
pub const SPACE: u16 = 11;

/// A number from 0 to 1.
pub const SHARE: u16 = 12;

/// A whole number from 1 to 1,000.
pub const COUNT: u16 = 13;

/// A whole number from 1 to 100.
pub const TICK_COUNT: u16 = 14;

/// 0, -90 or 270.
pub const ANGLE: u16 = 15;

/// A number over 0.
pub const STEP: u16 = 16;

/// A number over 0 to 1,000.
pub const SIZE_STEP: u16 = 17;

/// A number over 0 to 10,000.
pub const PLAIN_SIZE: u16 = 18;

/// A number over 0 to 10,000, or the step of a size.
pub const SIZE: u16 = 19;

/// A number from 0 to 1,000,000.
pub const LOOK: u16 = 20;

/// A number from -1,000,000 to 1,000,000.
pub const SHIFT: u16 = 21;

/// A whole number from 0.
pub const WHOLE: u16 = 22;

/// A whole number, or null.
pub const BOUND: u16 = 23;

/// An entry of a range: a scalar, and of numbers one from 0 to 1,000,000.
pub const RANGE_ITEM: u16 = 24;

/// How the picture takes its size.
pub const AUTOSIZE: u16 = 25;

/// The type of a data file.
pub const FORMAT_TYPE: u16 = 26;

/// How the texts of a field are read.
pub const PARSE_KIND: u16 = 27;

/// Where a text is anchored.
pub const ALIGN: u16 = 28;

/// Where the baseline of a text is.
pub const BASELINE: u16 = 29;

/// How the points of a line are joined.
pub const INTERPOLATE: u16 = 30;

/// Any value but the names of scales and legends.
pub const BIND: u16 = 31;

/// The type of a mark.
pub const MARK_TYPE: u16 = 32;

/// The type of a selection.
pub const SELECT_TYPE: u16 = 33;

/// The event that sets a point selection.
pub const POINT_EVENTS: u16 = 34;

/// The event that sets an interval selection.
pub const INTERVAL_EVENTS: u16 = 35;

/// The event that sets some selection.
pub const SELECT_EVENTS: u16 = 36;

/// The event that clears a selection, or true.
pub const CLEAR: u16 = 37;

/// The event that toggles a selection, or true.
pub const TOGGLE: u16 = 38;

/// The name of a channel.
pub const CHANNEL_NAME: u16 = 39;

/// The type of a field.
pub const FIELD_TYPE: u16 = 40;

/// An operation of aggregates.
pub const OPERATION: u16 = 41;

/// An operation of windows.
pub const WINDOW_OPERATION: u16 = 42;

/// A time unit.
pub const TIME_UNIT: u16 = 43;

/// The type of a scale.
pub const SCALE_TYPE: u16 = 44;

/// A colour scheme.
pub const SCHEME: u16 = 45;

/// Where stacks begin.
pub const OFFSET: u16 = 46;

/// Where stacks begin, or whether there are stacks.
pub const STACK: u16 = 47;

/// A direction.
pub const ORDER: u16 = 48;

/// Whether views share a scale.
pub const SHARING: u16 = 49;

/// A side along which an x axis stands.
pub const X_SIDE: u16 = 50;

/// A side along which a y axis stands.
pub const Y_SIDE: u16 = 51;

/// A side of a plot.
pub const SIDE: u16 = 52;

/// A list of texts.
pub const TEXTS: u16 = 53;

/// A list of two texts.
pub const TWO_TEXTS: u16 = 54;

/// A text, or a list of two texts.
pub const TEXT_OR_TWO: u16 = 55;

/// A text, or a list of texts.
pub const TEXT_OR_TEXTS: u16 = 56;

/// A list of scalars.
pub const SCALARS: u16 = 57;

/// A list of two numbers or nulls.
pub const NUMBER_RANGE: u16 = 58;

/// A list of two whole numbers or nulls.
pub const FRAME: u16 = 59;

/// The range of a scale: a list that isn't empty.
pub const RANGE: u16 = 60;

/// A list of names of channels.
pub const CHANNEL_LIST: u16 = 61;

/// A list of views that isn't empty.
pub const VIEWS: u16 = 62;

/// A list of views in a layer that isn't empty.
pub const LAYERS: u16 = 63;

/// A list of transforms.
pub const TRANSFORMS: u16 = 64;

/// A list of parameters.
pub const PARAMETERS: u16 = 65;

/// A list of filters.
pub const FILTERS: u16 = 66;

/// A list of operations of an aggregate.
pub const OPERATIONS: u16 = 67;

/// A list of operations of a window.
pub const WINDOW_OPERATIONS: u16 = 68;

/// An order by fields.
pub const SORT_FIELDS: u16 = 69;

/// A condition of the channel `x`, or a list of them.
pub const X_CONDITIONS: u16 = 70;

/// A condition of the channel `y`, or a list of them.
pub const Y_CONDITIONS: u16 = 71;

/// A condition of another channel, or a list of them.
pub const CONDITIONS: u16 = 72;

/// A definition of the channel `detail`, or a list of them.
pub const DETAIL: u16 = 73;

/// The whole specification.
pub const TOP: u16 = 74;

/// A view in a faceted or joined view.
pub const VIEW: u16 = 75;

/// A view in a layer.
pub const LAYER_VIEW: u16 = 76;

/// Where the rows of a view or of a lookup come from.
pub const DATA: u16 = 77;

/// The format of a data file.
pub const FORMAT: u16 = 78;

/// How the texts of the fields of a data file are read.
pub const PARSE: u16 = 79;

/// Rows by names.
pub const DATASETS: u16 = 80;

/// The look of all views.
pub const CONFIG: u16 = 81;

/// The sizes of all views.
pub const CONFIG_VIEW: u16 = 82;

/// What views share.
pub const RESOLVE: u16 = 83;

/// Which scales views share, by channel.
pub const RESOLVE_SCALE: u16 = 84;

/// A parameter.
pub const PARAMETER: u16 = 85;

/// What a selection selects: its type, or an object.
pub const SELECT: u16 = 86;

/// A mark: its type, or an object.
pub const MARK: u16 = 87;

/// The channels of a unit.
pub const ENCODING: u16 = 88;

/// The channels of a layer, or of a unit in one.
pub const LAYER_ENCODING: u16 = 89;

/// A definition of the channel `x`.
pub const X_CHANNEL: u16 = 90;

/// A definition of the channel `y`.
pub const Y_CHANNEL: u16 = 91;

/// A definition of any other channel that isn't one of facets.
pub const CHANNEL: u16 = 92;

/// A definition of one of the channels `row`, `column` and `facet`.
pub const FACET_CHANNEL: u16 = 93;

/// The facet of a faceted view: a definition, or those of its rows and columns.
pub const FACET: u16 = 94;

/// A condition of the channel `x`.
pub const X_CONDITION: u16 = 95;

/// A condition of the channel `y`.
pub const Y_CONDITION: u16 = 96;

/// A condition of another channel.
pub const CONDITION: u16 = 97;

/// A filter, or the test of a condition: the text of an expression, or an object.
pub const FILTER: u16 = 98;

/// A transform.
pub const TRANSFORM: u16 = 99;

/// Whether a field is binned, or how.
pub const BIN: u16 = 100;

/// How a transform bins: true, or an object.
pub const BIN_STEP: u16 = 101;

/// An operation of an aggregate, with its field.
pub const OPERATION_OF: u16 = 102;

/// An operation of a window, with its field.
pub const WINDOW_OF: u16 = 103;

/// A field of an order.
pub const SORT_FIELD: u16 = 104;

/// Where a lookup finds its rows.
pub const LOOKUP_FROM: u16 = 105;

/// A scale.
pub const SCALE: u16 = 106;

/// The domain of a scale: a list, or the extent of a selection.
pub const SCALE_DOMAIN: u16 = 107;

/// The axis of the channel `x`, or null for none.
pub const X_AXIS: u16 = 108;

/// The axis of the channel `y`, or null for none.
pub const Y_AXIS: u16 = 109;

/// The axis of another channel, or null for none.
pub const AXIS: u16 = 110;

/// A legend, or null for none.
pub const LEGEND: u16 = 111;

/// A header.
pub const HEADER: u16 = 112;

/// The order of a channel.
pub const SORT: u16 = 113;

/// The address of a data file.
pub const URL: u16 = 114;

/// What `autosize` may say.
pub const AUTOSIZE_NAMES: u16 = 0;

/// The types of data files.
pub const FORMAT_NAMES: u16 = 1;

/// How the texts of a field are read.
pub const PARSE_NAMES: u16 = 2;

/// The types of marks.
pub const MARK_NAMES: u16 = 3;

/// Where a text is anchored.
pub const ALIGN_NAMES: u16 = 4;

/// Where the baseline of a text is.
pub const BASELINE_NAMES: u16 = 5;

/// How the points of a line are joined.
pub const INTERPOLATE_NAMES: u16 = 6;

/// What a parameter may not be bound to.
pub const BIND_NAMES: u16 = 7;

/// The types of selections.
pub const SELECT_NAMES: u16 = 8;

/// The event that sets a point selection.
pub const CLICK_NAMES: u16 = 9;

/// The event that sets an interval selection.
pub const DRAG_NAMES: u16 = 10;

/// The events that set some selection.
pub const EVENT_NAMES: u16 = 11;

/// The event that clears a selection.
pub const CLEAR_NAMES: u16 = 12;

/// The event that toggles a selection.
pub const TOGGLE_NAMES: u16 = 13;

/// The channels.
pub const CHANNEL_NAMES: u16 = 14;

/// The types of fields.
pub const TYPE_NAMES: u16 = 15;

/// The operations of aggregates.
pub const OPERATION_NAMES: u16 = 16;

/// The operations of windows.
pub const WINDOW_NAMES: u16 = 17;

/// The time units.
pub const UNIT_NAMES: u16 = 18;

/// The types of scales.
pub const SCALE_NAMES: u16 = 19;

/// The colour schemes.
pub const SCHEME_NAMES: u16 = 20;

/// Where stacks begin.
pub const OFFSET_NAMES: u16 = 21;

/// The directions of orders.
pub const ORDER_NAMES: u16 = 22;

/// The orders of a channel that are texts: a direction, or that of another channel.
pub const SORT_NAMES: u16 = 23;

/// Whether views share a scale.
pub const SHARING_NAMES: u16 = 24;

/// The sides along which an x axis stands.
pub const X_SIDE_NAMES: u16 = 25;

/// The sides along which a y axis stands.
pub const Y_SIDE_NAMES: u16 = 26;

/// The sides of a plot.
pub const SIDE_NAMES: u16 = 27;

/// The members of which the first decides what a view is.
pub const VIEW_KINDS: u16 = 28;

/// The members of which the first decides what the definition of a channel is.
pub const CHANNEL_KINDS: u16 = 29;

/// The members of which the first decides what a transform is.
pub const TRANSFORM_KINDS: u16 = 30;

/// The members that some transform has besides.
pub const TRANSFORM_OTHERS: u16 = 31;

/// The members of which a parameter has one at most.
pub const PARAMETER_KINDS: u16 = 32;

/// The members of which a condition has exactly one.
pub const TEST_KINDS: u16 = 33;

/// The members of a definition over a field.
pub const FIELD_NAMES: u16 = 34;

/// The member that says nothing by itself.
pub const CONDITION_ALONE: u16 = 35;

/// The members of a facet that is read by rows and columns.
pub const FACET_NAMES: u16 = 36;

/// The members of which a filter over a field has exactly one.
pub const COMPARISONS: u16 = 37;

/// The members that a filter over a field hasn't beside it, and itself.
pub const FILTER_KINDS: u16 = 38;

/// The members of which a filter over no field has exactly one.
pub const FILTER_NAMES: u16 = 39;

/// The members of which `data` without a `url` has one.
pub const DATA_NAMES: u16 = 40;

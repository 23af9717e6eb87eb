// What holds of specifications of bars.
ghost use Rattle.compiled_bars.specs.Laws.{BarsBreakNoRule, BarsAreRead, WrittenBarsAreRead};

/// Bars break no rule of Vega specifications, whatever their name, their fields and their values.
pub fn bars_break_no_rule()
    ensures { BarsBreakNoRule }
{}

/// The tree of bars is read as these bars.
pub fn bars_are_read()
    ensures { BarsAreRead }
{}

/// The text of bars over rows, with a line feed, is a JSON text that is read as these bars: where the name, the fields and the
/// categories are UTF-8, the fields differ and the amounts are in range.
pub fn written_bars_are_read()
    ensures { WrittenBarsAreRead }
{}

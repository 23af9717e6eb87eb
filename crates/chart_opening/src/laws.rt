//! What holds of readings and of opening states.
ghost use Rattle.chart_opening.specs.Laws.{JsonIsRead, ReadingsAgree, OpeningsAreStates, FormsOpen, OpenedKeepRules};

/// There is a right reading of JSON.
pub fn json_is_read()
    ensures { JsonIsRead }
{}

/// There is only one.
pub fn readings_agree()
    ensures { ReadingsAgree }
{}

/// An opening state is one of its specification.
pub fn openings_are_states()
    ensures { OpeningsAreStates }
{}

/// A chart of the first form that can be drawn opens with its opening state, whatever the files.
pub fn forms_open()
    ensures { FormsOpen }
{}

/// What is opened of a file keeps the rules of charts and of selections.
pub fn opened_keep_rules()
    ensures { OpenedKeepRules }
{
    vega_standing::accepted_keep_rules();
    vega_standing::accepted_keep_selections();
}

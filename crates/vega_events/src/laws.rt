// What holds of events over a Vega chart.
ghost use Rattle.vega_events.specs.Laws.{EventsAreOfStores};

/// What an event leaves over a Vega chart is what it leaves of the stores of selections, whatever the kind of the specification, where each
/// selection has a name of its own.
pub fn events_are_of_stores()
    ensures { EventsAreOfStores }
{}

// What holds of stores after events.
ghost use Rattle.selection_events.specs.Kept.{ClicksKeepStores, TogglesKeepStores, ClearsKeepStores, DragsKeepStores};

/// What events leave of the stores of selections is again a store for each: empty, or with tuples of exactly the fields that the selection
/// keeps, all different, or with an extent for each channel, and with the least unit and the facet row of a plot that the selection concerns.
pub fn stores_are_kept()
    ensures clicks { ClicksKeepStores }
    ensures toggles { TogglesKeepStores }
    ensures clears { ClearsKeepStores }
    ensures drags { DragsKeepStores }
{}

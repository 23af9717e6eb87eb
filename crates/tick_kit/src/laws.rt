//! Laws that callers build on.
ghost use Rattle.tick_kit.specs.StepLaws.{EachHasOneStep, WideningStops};
ghost use Rattle.tick_kit.specs.Ticks.{MultiplesAreAll};
ghost use Rattle.tick_kit.specs.TimeTicks.{BoundariesAreAll};

/// Each spacing of a span between numbers has one step, and no other. A domain that was widened is widened no further where the step
/// stays.
pub fn laws_of_steps()
    ensures each_has_one_step { EachHasOneStep }
    ensures widening_stops { WideningStops }
{}

/// The multiples of a step in a domain are all of its multiples from the one end to the other, in ascending order.
pub fn laws_of_ticks()
    ensures { MultiplesAreAll }
{}

/// The boundaries of units in a domain of instants are all of them from the one end to the other, in ascending order.
pub fn laws_of_time_ticks()
    ensures { BoundariesAreAll }
{}

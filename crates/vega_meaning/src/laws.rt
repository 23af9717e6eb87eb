// Laws of Vega specifications over the direct machine.
ghost use Rattle.vega_meaning.specs.Laws.{SpecificationsMean, DrawnScalesAreSound};

/// A specification that keeps the rules has a meaning to the direct machine: of each state that is drawn the panels are of its plots, with
/// their facet rows, and the scales that drags invert are of the kinds that it says. The scales of what is drawn are such as callers ask for.
pub fn laws_of_drawings()
    ensures mean { SpecificationsMean }
    ensures sound { DrawnScalesAreSound }
{}

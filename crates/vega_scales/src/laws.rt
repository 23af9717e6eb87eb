// Laws that callers build on.
ghost use Rattle.vega_scales.specs.Laws.{LengthIsSize, NumbersGiveTheDomain, CellsGiveTheDomain, RanksGiveTheDomain, DomainsFit, ScalesAreSound};

/// A scale that has a domain is as long as that.
pub fn laws_of_scales()
    ensures { LengthIsSize }
{}

/// What is known of the cells of its references gives the domain of a scale: the numbers that count, the cells, or each cell by what an
/// operation gives for it.
pub fn laws_of_known_domains()
    ensures numbers { NumbersGiveTheDomain }
    ensures cells { CellsGiveTheDomain }
    ensures ranks { RanksGiveTheDomain }
{}

/// What a scale scales fits it, and the scale over that is such as callers ask for.
pub fn laws_of_domains()
    ensures fit { DomainsFit }
    ensures sound { ScalesAreSound }
{}

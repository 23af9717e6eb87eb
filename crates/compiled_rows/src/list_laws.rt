// Laws of the data sets of a compiled specification.
ghost use Rattle.compiled_rows.specs.Lists.{BegunGoOn, BegunStand, FacetUnitsRise, FewViewsHaveFewUnits, GridNumbersRise, OthersStand, PlansAreSmall};
ghost use Rattle.compiled_rows.specs.Lists.{UnitsAreNumbered, UnitsComeFirst, UnitsStand};

/// The numbers of units are their places.
pub fn units_are_numbered()
    ensures { UnitsAreNumbered }
{}

/// Reading the data sets is finding the rows of units, and then reading the others.
pub fn units_come_first()
    ensures { UnitsComeFirst }
{}

/// The name of a unit stands for the rows of the unit.
pub fn units_stand()
    ensures { UnitsStand }
{}

/// The name of its rows before the aggregate stands for these.
pub fn begun_stand()
    ensures { BegunStand }
{}

/// The rows of the unit are what its further steps leave of these.
pub fn begun_go_on()
    ensures { BegunGoOn }
{}

/// The name of each list besides stands for what its transforms make of the rows with which it begins.
pub fn others_stand()
    ensures { OthersStand }
{}

/// The numbers of the units below a facet rise.
pub fn facet_units_rise()
    ensures { FacetUnitsRise }
{}

/// So do those of all grids.
pub fn grid_numbers_rise()
    ensures { GridNumbersRise }
{}

/// Where there are no more views than numbers of 64 bits, units have such numbers.
pub fn few_views_have_few_units()
    ensures { FewViewsHaveFewUnits }
{}

/// A specification that a machine holds has a plan whose lists have names that differ.
pub fn plans_are_small()
    ensures { PlansAreSmall }
{}

// Laws of the plan of a unit.
ghost use Rattle.unit_laws.specs.StartLaws.{OthersHaveNone, StartsAgree};

/// The expression for the start of a unit of time gives the start of the unit, at each number that stands for an instant.
pub fn starts_agree()
    ensures { StartsAgree }
{}

/// It gives null at every other cell.
pub fn others_have_none()
    ensures { OthersHaveNone }
{}

// Laws of the top of a compiled specification.
ghost use Rattle.compiled_rows.specs.Tops.{TopIsLinked, TopIsUnitsAndOthers};

/// What names stand for at the top comes of the rows of units and of the other lists.
pub fn top_is_units_and_others()
    ensures { TopIsUnitsAndOthers }
{}

/// At the top the names of units stand for the rows that the chart as a copy has of them.
pub fn top_is_linked()
    ensures { TopIsLinked }
{}

// Laws of the names that a compiled specification makes.
ghost use Rattle.compiled_rows.specs.Names.{MadeNamesAreNew, MadeNamesDiffer};
ghost use Rattle.compiled_rows.specs.ScaleNames.{PlanScalesAreNamed, ScaleNamesDiffer};

/// Names for different things differ.
pub fn made_names_differ()
    ensures { MadeNamesDiffer }
{}

/// No name that is made is one that the specification mentions.
pub fn made_names_are_new()
    ensures { MadeNamesAreNew }
{}

/// Names of different scales differ.
pub fn scale_names_differ()
    ensures { ScaleNamesDiffer }
{}

/// The name of a scale of the plan is that of its channel and its number.
pub fn plan_scales_are_named()
    ensures { PlanScalesAreNamed }
{}

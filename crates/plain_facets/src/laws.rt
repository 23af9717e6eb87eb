// What holds of copies, beside their definitions.
ghost use Rattle.plain_facets.specs.Laws.{CopiesAreDifferent, EachIsAtHome, PartsAreMembers, PartsAreRows, CopiesAreSummed};

/// No two copies have the same cells, each stands at the first place of its cells, and the rows that belong to a copy are those that
/// have its cells; of a list of rows they are a list of rows again. Numbers of copies are summed from those of the copies with rows.
pub fn laws_of_facets()
    ensures different { CopiesAreDifferent }
    ensures at_home { EachIsAtHome }
    ensures members { PartsAreMembers }
    ensures rows { PartsAreRows }
    ensures summed { CopiesAreSummed }
{}

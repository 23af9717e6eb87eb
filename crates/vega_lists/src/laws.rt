// Laws that callers build on.
ghost use Rattle.vega_lists.specs.Laws.{SourcesOfStates, KeysOfSets};

/// The sources of a state are such as named lists ask of them.
pub fn laws_of_lists()
    ensures { SourcesOfStates }
{}

/// The rows for which names stand have keys such as lists have on the paths of their data sets.
pub fn law_of_keys()
    ensures { KeysOfSets }
{}

// Laws that callers build on.
ghost use Rattle.mark_encode.specs.Laws.{LawsOfItems};

/// The items of a mark that is no path are those of each of its rows in turn, and may be made part by part.
pub fn laws_of_items()
    ensures { LawsOfItems }
{}

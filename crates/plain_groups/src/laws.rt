// Laws that callers build on.
ghost use Rattle.plain_groups.specs.Laws.{OneRowMore, GroupsOfParts, GroupsAreApart, SumsOfParts};

/// What a row more or less does to groups and sums: it is a row more in its own group alone, the groups of rows that aren't alike have no
/// row in common, and a group and a sum are those of the parts of a list, wherever it is split.
pub fn laws_of_groups()
    ensures one_more { OneRowMore }
    ensures parts { GroupsOfParts }
    ensures apart { GroupsAreApart }
    ensures sums { SumsOfParts }
{}

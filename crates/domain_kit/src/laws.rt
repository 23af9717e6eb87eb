// Laws that callers build on.
ghost use Rattle.domain_kit.specs.Laws.{EndsGiveTheExtent, SameNumbersEndAlike, SameCellsStandAlike, FirstsAreOfFirsts, RanksAreByKeys};

/// Numbers have the extent between their ends, and the same numbers the same ends, however often each is there; the same cells stand alike
/// in their order; distinct cells of lists are those of the distinct cells of each; and keys rank by what an operation gives over the values
/// of each.
pub fn laws_of_domains()
    ensures extent { EndsGiveTheExtent }
    ensures numbers { SameNumbersEndAlike }
    ensures cells { SameCellsStandAlike }
    ensures firsts { FirstsAreOfFirsts }
    ensures ranks { RanksAreByKeys }
{}

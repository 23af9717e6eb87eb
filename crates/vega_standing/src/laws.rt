//! Laws of specifications that are read.
ghost use Rattle.vega_standing.specs.Laws.{ObjectsAreKept, FoldsAreKept, RulesAreKept, FilesKeepRules, AcceptedKeepRules, AcceptedKeepSelections};
ghost use Rattle.vega_standing.specs.Orders.{AcceptedAreInOrder, AcceptedSettle};

/// Where a tree has no fault and no object in it has a name twice, the objects of the specification that it says keep what charts ask.
pub fn objects_are_kept()
    ensures { ObjectsAreKept }
{}

/// The folds of such a specification make at most 8 rows of one on the path of each data set.
pub fn folds_are_kept()
    ensures { FoldsAreKept }
{}

/// Where the groups of such a specification can be numbered in 32 bits, it keeps all rules that charts ask.
pub fn rules_are_kept()
    ensures { RulesAreKept }
{}

/// Where a tree is read of at most 16 MiB and has no fault, the specification that it says keeps all rules that charts ask.
pub fn files_keep_rules()
    ensures { FilesKeepRules }
{}

/// What is read of a tree of at most 16 MiB is a specification that keeps all rules that charts ask.
pub fn accepted_keep_rules()
    ensures { AcceptedKeepRules }
{}

/// Its selections have names of their own, keep the same fields of both kinds of clicks, and none does something on clicks and on drags.
pub fn accepted_keep_selections()
    ensures { AcceptedKeepSelections }
{}

/// The signals of each object of what is read stand in an order, in which each needs only those before it.
pub fn accepted_signals_are_in_order()
    ensures { AcceptedAreInOrder }
{}

/// They settle: they are computed from the values at which they settle as these are, at the top and in each group.
pub fn accepted_signals_settle()
    ensures { AcceptedSettle }
{
    vega_signals::laws_of_signals();
}

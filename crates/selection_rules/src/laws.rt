//! That the test is right.
ghost use Rattle.selection_rules.specs.Tested.{TestedAreKept, KeptPass};

/// Selections that pass the test are kept.
pub fn tested_selections_are_kept()
    ensures { TestedAreKept }
{}

/// Those that are kept pass it.
pub fn kept_selections_pass()
    ensures { KeptPass }
{}

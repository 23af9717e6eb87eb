// Laws that callers build on.
ghost use Rattle.plain_stacks.specs.Laws.{OwnGreatestGivesTheStacks, OnlyCentresNeedIt};

/// With the greatest whole of their own partitions handed in, rows are stacked as they are without; stacks that aren't centred are the same
/// whatever is handed in.
pub fn laws_of_stacks()
    ensures own { OwnGreatestGivesTheStacks }
    ensures centres { OnlyCentresNeedIt }
{}

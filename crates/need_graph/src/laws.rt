// Laws that callers build on.
ghost use Rattle.need_graph.specs.Laws.{NeedsItselfSaysWhere};

/// The test of the definitions says exactly which nodes need themselves.
pub fn laws_of_needs()
    ensures { NeedsItselfSaysWhere }
{}

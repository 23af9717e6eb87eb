// Laws of the direct machine.
ghost use Rattle.param_flow.specs.Laws.{StatesAreKept, MachinesAgree, OutputsAgree};

/// The state after any command is again a state of the specification, whose stores are such as events can leave. Two meanings that agree on
/// states are one to the direct machine, and scripts have the same outputs over both.
pub fn laws_of_the_machine()
    ensures kept { StatesAreKept }
    ensures alike { MachinesAgree }
    ensures outputs { OutputsAgree }
{}

// Laws of the states of a chart, and of the names of its parameters.
ghost use Rattle.compiled_rows.specs.Given.{NamesOfParamsDiffer};
ghost use Rattle.compiled_rows.specs.Grounds.{ChartStatesHaveTop};
ghost use Rattle.compiled_rows.specs.Kinds.{ParamsAreWritten};
ghost use Rattle.compiled_rows.specs.Origins.{SourcesAreWritten};
ghost use Rattle.compiled_rows.specs.States.{ChartStatesAreOfParams};

/// A state of a specification gives values to its parameters, and has stores of its selections.
pub fn chart_states_are_of_params()
    ensures { ChartStatesAreOfParams }
{}

/// What laws of the top ask of a state, each of the chart has.
pub fn chart_states_have_top()
    ensures { ChartStatesHaveTop }
{}

/// Where no rule of names is broken, names of parameters that aren't empty differ.
pub fn names_of_params_differ()
    ensures { NamesOfParamsDiffer }
{}

/// The parameters of what is written are those of the specification.
pub fn params_are_written()
    ensures { ParamsAreWritten }
{}

/// The sources of what is written are those of the specification.
pub fn sources_are_written()
    ensures { SourcesAreWritten }
{}

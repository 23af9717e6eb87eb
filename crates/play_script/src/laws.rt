// Laws that callers build on.
ghost use Rattle.play_script.specs.Laws.{ScriptsHaveAnOutput, ScriptsHaveOneOutput, OutputsAreVega, OutputsBegin};
ghost use Rattle.play_script.specs.Laws.{EndedLinesComeFirst, PlayedBegins, RefusedCommandsChangeNothing};

/// A command that is refused changes nothing.
pub fn refused_changes_nothing()
    ensures { RefusedCommandsChangeNothing }
{}

/// Every script has an output from a state whose chart is drawn, and the chart of the state after it is drawn too.
pub fn an_output()
    ensures { ScriptsHaveAnOutput }
{}

/// No script has two outputs, nor two notes or two states after it.
pub fn one_output()
    ensures { ScriptsHaveOneOutput }
{}

/// The output of lines over an engine is their output over its specification, which stays.
pub fn as_vega()
    ensures { OutputsAreVega }
{}

/// The output of the first lines begins the output of them all.
pub fn begins()
    ensures { OutputsBegin }
{}

/// The lines that ended within a beginning of a script are first lines of it.
pub fn ended_first()
    ensures { EndedLinesComeFirst }
{}

/// Whatever playing answers, what it appended to the output begins the output of the script.
pub fn played_begins()
    ensures { PlayedBegins }
{}

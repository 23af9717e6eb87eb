//! What holds of compiled texts.
ghost use Rattle.chart_run.specs.Laws.{CompiledOpensAlike, FormsOpenAlike};

/// The text to which a file is compiled opens as the file does, as the same specification in the same state: where the text says the specification,
/// and the files of data are there.
pub fn compiled_opens_alike()
    ensures { CompiledOpensAlike }
{}

/// The text to which a chart of the first form is compiled opens as the chart does, and nothing has to be asked of it.
pub fn forms_open_alike()
    ensures { FormsOpenAlike }
{}

// Laws of the meaning of Vega-Lite specifications.
ghost use Rattle.chart_meaning.specs.Laws.{MeaningDrawsTheChart, FirstFormIsSpecialCase};

/// What a print shows of a state is the chart of the specification over it.
pub fn the_meaning_draws_the_chart()
    ensures { MeaningDrawsTheChart }
{}

/// The chart of the first form, by the form's own definition, is the chart of its specification over the rows of its values.
pub fn the_first_form_is_a_special_case()
    ensures { FirstFormIsSpecialCase }
{}

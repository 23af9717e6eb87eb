// What holds of charts, beside their definition.
ghost use Rattle.vega_charts.specs.Laws.{ChartLaws};
ghost use Rattle.vega_charts.specs.OnePlotLaws.{OnePlotLaws};

/// The signals of the top settle as those of a specification do; without groups no plot stands in a facet; a list out of range stops all,
/// and after that too many plots in facets do.
pub fn laws_of_charts()
    ensures { ChartLaws }
{}

/// A chart that is one plot has the picture of a plot with its guides; without guides that is the plot alone, with the padding round it.
pub fn laws_of_one_plot()
    ensures { OnePlotLaws }
{}

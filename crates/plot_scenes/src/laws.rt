// What holds of a plot that stands alone.
ghost use Rattle.plot_scenes.specs.OnePlot.{ABarePlotIsPlain, APlotAloneIsDrawn};

/// A plot that stands alone, in no facet and without headers, is drawn with its guides round it.
pub fn a_plot_alone_is_drawn()
    ensures { APlotAloneIsDrawn }
{}

/// Without axes, legends and title it is the plot with the padding round it.
pub fn a_bare_plot_is_plain()
    ensures { ABarePlotIsPlain }
{}

// The plots of a chart.
ghost use Rattle.std.specs.Prelude.{◌≡◌, ◌==◌, ◌++◌, map, option_map, option_to_list, IfOk, OnOk};
ghost use Rattle.std.specs.List.{list_any};
ghost use Rattle.vl_compose.specs.Shown.{round_shown, unit_shown, view_shown};
ghost use Rattle.guide_infer.specs.First.{first_given};
ghost use Rattle.chart_plan.specs.Plots.{is_in, with_number, plot_numbers, title_at, unit_title, title_of, plot_size, axes_of, number_in};
ghost use Rattle.chart_plan.specs.Plots.{units_of_plot, numbers_of, facet_numbers, plot_facets, plot_with, plot_by, plots_of};

use crate::plot_axes::axes_of;
use crate::plot_sizes::plot_size;
use guide_kit::AxisOf;
use plan_kit::{PlotPlan, ScalePlan, SizePlan};
use std::alloc::Global;
use text_kit::{OutOfMemory, Seq, Text};
use vl_compose::{UnitHere, ViewHere, facets_of, plot_of};
use vl_normalize::{X, Y};
use vl_spec::ConfigView;

// Whether a unit is drawn in the plot of a number.
pub(crate) fn is_in(plot: usize, unit: &UnitHere) -> bool
    ensures { result ≡ is_in plot (unit_shown unit.now) }
{
    plot_of(unit.round.as_slice()) == plot
}

// Whether a number is there.
fn has_number(numbers: &[usize], number: usize) -> bool
    ensures { result ≡ list_any (λ m. m == number) numbers.now }
{
    for one in numbers {
        if *one == number {
            return true;
        }
    }
    false
}

// Adds a number, unless it is there.
fn push_number(numbers: &mut Seq<usize>, number: usize) -> Result<(), OutOfMemory>
    ensures { OnOk result (numbers.new ≡ with_number numbers.old number) }
{
    if has_number(numbers.as_slice(), number) {
        Ok(())
    } else {
        numbers.push(number)
    }
}

// The numbers of the plots of some units.
fn plot_numbers(alloc: Global, units: &[UnitHere]) -> Result<Seq<usize>, OutOfMemory>
    ensures { IfOk result (λ numbers. numbers ≡ plot_numbers (map unit_shown units.now)) }
{
    let mut numbers = Seq::new(alloc);
    for unit in units {
        push_number(&mut numbers, plot_of(unit.round.as_slice()))?;
    }
    Ok(numbers)
}

// The title of a view that is the plot's own or in it.
fn title_at<'s>(plot: usize, here: &ViewHere<'s>) -> Option<&'s Text>
    ensures { option_map (λ t. t.now) result ≡ title_at plot (view_shown here.now) }
{
    if plot <= here.number {
        here.view.title.as_ref()
    } else {
        None
    }
}

// The first title among the views round a unit.
fn first_title<'s>(plot: usize, round: &[ViewHere<'s>]) -> Option<&'s Text>
    ensures { option_map (λ t. t.now) result ≡ first_given (title_at plot) (round_shown round.now) }
{
    for here in round {
        match title_at(plot, here) {
            Some(title) => return Some(title),
            None => {}
        }
    }
    None
}

// The same, if the unit is in the plot.
fn unit_title<'s>(plot: usize, unit: &UnitHere<'s>) -> Option<&'s Text>
    ensures { option_map (λ t. t.now) result ≡ unit_title plot (unit_shown unit.now) }
{
    if is_in(plot, unit) {
        first_title(plot, unit.round.as_slice())
    } else {
        None
    }
}

// The title of a plot, lent.
fn title_lent<'s>(plot: usize, units: &[UnitHere<'s>]) -> Option<&'s Text>
    ensures { option_map (λ t. t.now) result ≡ title_of plot (map unit_shown units.now) }
{
    for unit in units {
        match unit_title(plot, unit) {
            Some(title) => return Some(title),
            None => {}
        }
    }
    None
}

// The title of a plot.
fn title_of(plot: usize, units: &[UnitHere]) -> Result<Option<Text>, OutOfMemory>
    ensures { IfOk result (λ title. title ≡ title_of plot (map unit_shown units.now)) }
{
    match title_lent(plot, units) {
        Some(title) => title.copy().map(Some),
        None => Ok(None),
    }
}

/// The number of a unit, if it is in the plot.
pub(crate) fn number_in(plot: usize, unit: &UnitHere) -> Option<usize>
    ensures { result ≡ number_in plot (unit_shown unit.now) }
{
    if is_in(plot, unit) {
        Some(unit.number)
    } else {
        None
    }
}

// Adds it.
fn push_unit(plot: usize, unit: &UnitHere, out: &mut Seq<usize>) -> Result<(), OutOfMemory>
    ensures { OnOk result (out.new ≡ out.old ++ option_to_list (number_in plot (unit_shown unit.now))) }
{
    match number_in(plot, unit) {
        Some(number) => out.push(number),
        None => Ok(()),
    }
}

// The numbers of the units of a plot.
fn units_of_plot(alloc: Global, plot: usize, units: &[UnitHere]) -> Result<Seq<usize>, OutOfMemory>
    ensures { IfOk result (λ out. out ≡ units_of_plot plot (map unit_shown units.now)) }
{
    let mut out = Seq::new(alloc);
    for unit in units {
        push_unit(plot, unit, &mut out)?;
    }
    Ok(out)
}

// The numbers of some views.
fn numbers_of(alloc: Global, views: &[ViewHere]) -> Result<Seq<usize>, OutOfMemory>
    ensures { IfOk result (λ numbers. numbers ≡ numbers_of (round_shown views.now)) }
{
    let mut numbers = Seq::with_capacity(alloc, views.len())?;
    for here in views {
        numbers.push(here.number)?;
    }
    Ok(numbers)
}

// The numbers of the facets round a unit.
fn facet_numbers(alloc: Global, round: &[ViewHere]) -> Result<Seq<usize>, OutOfMemory>
    ensures { IfOk result (λ numbers. numbers ≡ facet_numbers (round_shown round.now)) }
{
    let facets = facets_of(alloc, round)?;
    numbers_of(alloc, facets.as_slice())
}

// Those round a plot.
fn plot_facets(alloc: Global, plot: usize, units: &[UnitHere]) -> Result<Seq<usize>, OutOfMemory>
    ensures { IfOk result (λ facets. facets ≡ plot_facets plot (map unit_shown units.now)) }
{
    for unit in units {
        if is_in(plot, unit) {
            return facet_numbers(alloc, unit.round.as_slice());
        }
    }
    Ok(Seq::new(alloc))
}

// The plot of a number, with these facets round it.
fn plot_with(
    alloc: Global,
    config: &Option<ConfigView>,
    scales: &[ScalePlan],
    units: &[UnitHere],
    plot: usize,
    facets: Seq<usize>,
) -> Result<PlotPlan, OutOfMemory>
    ensures { IfOk result (λ p. p ≡ plot_with config.now scales.now (map unit_shown units.now) plot facets) }
{
    let width = plot_size(alloc, X, plot, config, scales, units)?;
    let height = plot_size(alloc, Y, plot, config, scales, units)?;
    let here = units_of_plot(alloc, plot, units)?;
    let title = title_of(plot, units)?;
    let axes = axes_of(alloc, plot, facets.as_slice(), scales, units)?;
    Ok(PlotPlan {
        number: plot,
        units: here,
        facets,
        title,
        width,
        height,
        axes,
    })
}

// The plot of a number.
fn plot_by(
    alloc: Global,
    config: &Option<ConfigView>,
    scales: &[ScalePlan],
    units: &[UnitHere],
    plot: usize,
) -> Result<PlotPlan, OutOfMemory>
    ensures { IfOk result (λ p. p ≡ plot_by config.now scales.now (map unit_shown units.now) plot) }
{
    let facets = plot_facets(alloc, plot, units)?;
    plot_with(alloc, config, scales, units, plot, facets)
}

// The plots of some numbers.
fn plots_at(
    alloc: Global,
    config: &Option<ConfigView>,
    scales: &[ScalePlan],
    units: &[UnitHere],
    numbers: &[usize],
) -> Result<Seq<PlotPlan>, OutOfMemory>
    ensures { IfOk result (λ plots. plots ≡ map (plot_by config.now scales.now (map unit_shown units.now)) numbers.now) }
{
    let mut plots = Seq::new(alloc);
    for number in numbers {
        plots.push(plot_by(alloc, config, scales, units, *number)?)?;
    }
    Ok(plots)
}

/// The plots of some units, in the order of the text.
pub(crate) fn plots_of(
    alloc: Global,
    config: &Option<ConfigView>,
    scales: &[ScalePlan],
    units: &[UnitHere],
) -> Result<Seq<PlotPlan>, OutOfMemory>
    ensures { IfOk result (λ plots. plots ≡ plots_of config.now scales.now (map unit_shown units.now)) }
{
    let numbers = plot_numbers(alloc, units)?;
    plots_at(alloc, config, scales, units, numbers.as_slice())
}

// The views of a chart as a tree.
ghost use Rattle.std.specs.Prelude.{◌≡◌, ◌+◌, map, IfOk, OnOk};
ghost use Rattle.chart_plan.specs.Views.{and_plot, and_grid, in_row, plot_tree, tree_of, kind_tree, faceted_tree, joined_tree, layer_tree, view_of};

use plan_kit::ViewPlan;
use std::alloc::Global;
use text_kit::{OutOfMemory, Seq};
use vl_spec::{Faceted, Joined, Layer, View, ViewKind, VlSpec};

/// How many plots and grids there are.
#[derive(Drop)]
pub(crate) struct Counted {
    /// The plots.
    pub plots: usize,
    /// The grids.
    pub grids: usize,
}

// One more; there is no memory for more than a `usize` counts.
fn one_more(count: usize) -> Result<usize, OutOfMemory>
    ensures { IfOk result (λ n. n ≡ count + 1) }
{
    match count.checked_add(1) {
        Some(n) => Ok(n),
        None => Err(OutOfMemory),
    }
}

// One more plot.
fn count_plot(counted: &mut Counted) -> Result<(), OutOfMemory>
    ensures { OnOk result (counted.new ≡ and_plot counted.old) }
{
    counted.plots = one_more(counted.plots)?;
    Ok(())
}

// One more grid.
fn count_grid(counted: &mut Counted) -> Result<(), OutOfMemory>
    ensures { OnOk result (counted.new ≡ and_grid counted.old) }
{
    counted.grids = one_more(counted.grids)?;
    Ok(())
}

// A plot.
fn plot_tree(counted: &mut Counted) -> Result<ViewPlan, OutOfMemory>
    ensures { IfOk result (λ plan. (plan, counted.new) ≡ plot_tree counted.old) }
{
    let number = counted.plots;
    count_plot(counted)?;
    Ok(ViewPlan::Plot(number))
}

// A layer as a tree.
fn layer_tree(layer: &Layer, counted: &mut Counted) -> Result<ViewPlan, OutOfMemory>
    ensures { IfOk result (λ plan. (plan, counted.new) ≡ layer_tree layer.now counted.old) }
{
    let _ = layer;
    plot_tree(counted)
}

// A view as a tree.
#[cycle(walk)]
fn tree_of(alloc: Global, view: &View, counted: &mut Counted) -> Result<ViewPlan, OutOfMemory>
    ensures { IfOk result (λ plan. (plan, counted.new) ≡ tree_of view.now counted.old) }
{
    kind_tree(alloc, &view.kind, counted)
}

// A view of a kind as a tree.
#[cycle(walk)]
fn kind_tree(alloc: Global, kind: &ViewKind, counted: &mut Counted) -> Result<ViewPlan, OutOfMemory>
    ensures { IfOk result (λ plan. (plan, counted.new) ≡ kind_tree kind.now counted.old) }
{
    match kind {
        ViewKind::Unit(_) => plot_tree(counted),
        ViewKind::Layer(layer) => layer_tree(layer, counted),
        ViewKind::Facet(faceted) => faceted_tree(alloc, faceted, counted),
        ViewKind::Joined(joined) => joined_tree(alloc, joined, counted),
    }
}

// A faceted view as a tree.
#[cycle(walk)]
fn faceted_tree(
    alloc: Global,
    faceted: &Faceted,
    counted: &mut Counted,
) -> Result<ViewPlan, OutOfMemory>
    ensures { IfOk result (λ plan. (plan, counted.new) ≡ faceted_tree faceted.now counted.old) }
{
    let number = counted.grids;
    count_grid(counted)?;
    let mut views = Seq::new(alloc);
    views.push(tree_of(alloc, faceted.spec.get(), counted)?)?;
    Ok(ViewPlan::Grid(number, views))
}

// Joined views as a tree.
#[cycle(walk)]
fn joined_tree(
    alloc: Global,
    joined: &Joined,
    counted: &mut Counted,
) -> Result<ViewPlan, OutOfMemory>
    ensures { IfOk result (λ plan. (plan, counted.new) ≡ joined_tree joined.now counted.old) }
{
    let number = counted.grids;
    count_grid(counted)?;
    let views = row_trees(alloc, &joined.views, counted)?;
    Ok(ViewPlan::Grid(number, views))
}

// Views behind each other as trees.
#[cycle(walk)]
fn row_trees(
    alloc: Global,
    views: &Seq<View>,
    counted: &mut Counted,
) -> Result<Seq<ViewPlan>, OutOfMemory>
    ensures { IfOk result (λ plans. (plans, counted.new) ≡ in_row (map tree_of views.now) counted.old) }
{
    let mut out = Seq::new(alloc);
    for view in views.as_slice() {
        out.push(tree_of(alloc, view, counted)?)?;
    }
    Ok(out)
}

/// The views of a specification, in time as there are views.
pub(crate) fn view_of(alloc: Global, s: &VlSpec) -> Result<ViewPlan, OutOfMemory>
    ensures { IfOk result (λ plan. plan ≡ view_of s.now) }
{
    let mut counted = Counted { plots: 0, grids: 0 };
    tree_of(alloc, &s.view, &mut counted)
}

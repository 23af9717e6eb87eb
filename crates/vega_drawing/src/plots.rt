// Plots.
ghost use Rattle.std.specs.Prelude.{◌≡◌, ◌<◌, ◌^◌, ◌∷◌, ◌++◌, [], suc, IfOk, OnOk, All, map};
ghost use Rattle.std.specs.List.{filter};
ghost use Rattle.expr_eval.specs.Answers.{Evaluates};
ghost use Rattle.vega_spec.specs.declared.spec.Group.{out-Group};
ghost use Rattle.plot_scenes.specs.Legends.{IsLegendShown};
ghost use Rattle.vega_copies.specs.inner.Kept.{KeepsObject};
ghost use Rattle.vega_copies.specs.Outlines.{count_marks, first_unit};
ghost use Rattle.vega_copies.specs.inner.Outlined.{marks_from, marks_in, marks_of, object_numbered, AreFew};
ghost use Rattle.vega_copies.specs.inner.Results.{result_map};
ghost use Rattle.vega_drawing.specs.Insides.{nothing_inside};
ghost use Rattle.vega_drawing.specs.Plots.{plot_of, scales_of_plot};
ghost use Rattle.vega_drawing.specs.Scales.{scale_in};
ghost use Rattle.vega_drawing.specs.inner.Drawn.{inside_seen, IsInside, MayShow};
ghost use Rattle.vega_drawing.specs.inner.Framed.{frame_seen, unlisted, found_in_frame, IsFrame};
ghost use Rattle.vega_drawing.specs.inner.Kept.{scale_seen, IsKeptScale};
ghost use Rattle.vega_drawing.specs.inner.Plotted.{is_of_plot, plot_round, plot_with, standing_in};

use crate::axes::push_all_shown;
use crate::frames::{Frame, cells_copied};
use crate::inside::{Inside, draw_all, draw_guides};
use crate::items::MarkItems;
use crate::marks::Numbers;
use crate::scales::{ScaleHere, scale_in};
use crate::units::in_unit_order;
use expr_eval::EvalError;
use guide_kit::GuideError;
use plot_scenes::{Axes, Header, Plot, axes_at};
use scale_kit::ScaleIn;
use std::alloc::Global;
use text_kit::{Copies, OutOfMemory, Seq};
use vega_copies::{MarkFacts, first_unit, marks_in};
use vega_spec::Group;

// Adds a scale of a plot where it isn't one of the whole chart.
fn push_plot_scale(
    alloc: Global,
    frame: &Frame,
    scale: &ScaleHere,
    out: &mut Seq<ScaleIn>,
) -> Result<(), OutOfMemory>
    requires frame { IsFrame frame.now }
    requires kept { IsKeptScale scale.now.kept.now }
    ensures { OnOk result (out.new ≡ out.old
        ++ map (scale_in frame.now.width frame.now.height) (filter is_of_plot (scale_seen scale.now ∷ []))) }
{
    if scale.kept.of_chart {
        Ok(())
    } else {
        out.push(scale_in(alloc, frame.width, frame.height, scale)?)
    }
}

// The scales of a plot that aren't of the whole chart.
fn scales_of_plot(alloc: Global, frame: &Frame) -> Result<Seq<ScaleIn>, OutOfMemory>
    requires { IsFrame frame.now }
    ensures { IfOk result (λ scales. scales ≡ scales_of_plot (unlisted frame.now)) }
{
    let mut out = Seq::new(alloc);
    for scale in frame.scales {
        push_plot_scale(alloc, frame, scale, &mut out)?;
    }
    Ok(out)
}

/// The same headers once more.
pub(crate) fn headers_copied(alloc: Global, headers: &[Header]) -> Result<Seq<Header>, OutOfMemory>
    ensures { IfOk result (λ copy. copy ≡ headers.now) }
{
    let mut out = Seq::with_capacity(alloc, headers.len())?;
    for header in headers {
        out.push(Header {
            is_beside: header.is_beside,
            text: header.text.copy()?,
        })?;
    }
    Ok(out)
}

// Nothing inside a plot.
fn no_inside(alloc: Global) -> Inside
    ensures seen { inside_seen result ≡ nothing_inside }
    ensures kept { IsInside result }
{
    Inside {
        axes: Seq::new(alloc),
        legends: Seq::new(alloc),
        items: Seq::new(alloc),
    }
}

// Adds what stands in a plot: the axes of the grids round it before its own, and the items in the order of the text.
fn draw_inside<M: MarkItems>(
    alloc: Global,
    maker: &M,
    frame: &Frame,
    group: &Group,
    found: &[MarkFacts],
    numbers: Numbers,
    out: &mut Inside,
) -> Result<(), EvalError>
    requires sound { M.sound maker.now }
    requires frame { IsFrame frame.now }
    requires marks { MayShow (marks_in (out-Group group.now)) found.now }
    requires object { KeepsObject (object_numbered numbers.number (out-Group group.now)) }
    requires few { AreFew numbers.unit (suc numbers.number) (marks_in (out-Group group.now)) }
    requires empty { inside_seen out.old ≡ nothing_inside }
    ensures value { Evaluates (result_map (λ done. inside_seen out.new) result) (standing_in (M.items maker.now)
        (object_numbered numbers.number (out-Group group.now)) (marks_from numbers.unit (suc numbers.number) (marks_in (out-Group group.now)))
        (found_in_frame (M.lists maker.now) frame.now 0 found.now) (frame_seen (M.lists maker.now) frame.now)) }
    ensures kept { IsInside out.old → OnOk result (IsInside out.new) }
{
    push_all_shown(alloc, frame.width, frame.height, frame.axes, &mut out.axes)?;
    draw_guides(alloc, frame, numbers.number, group, out)?;
    let inside = Numbers {
        unit: numbers.unit,
        number: numbers.number + 1,
    };
    draw_all(alloc, maker, frame, inside, marks_in(group), found, out)
}

// What stands in a plot.
fn inside_of<M: MarkItems>(
    alloc: Global,
    maker: &M,
    frame: &Frame,
    group: &Group,
    found: &[MarkFacts],
    numbers: Numbers,
) -> Result<Inside, EvalError>
    requires sound { M.sound maker.now }
    requires frame { IsFrame frame.now }
    requires marks { MayShow (marks_in (out-Group group.now)) found.now }
    requires object { KeepsObject (object_numbered numbers.number (out-Group group.now)) }
    requires few { AreFew numbers.unit (suc numbers.number) (marks_in (out-Group group.now)) }
    ensures value { Evaluates (result_map inside_seen result) (standing_in (M.items maker.now)
        (object_numbered numbers.number (out-Group group.now)) (marks_from numbers.unit (suc numbers.number) (marks_in (out-Group group.now)))
        (found_in_frame (M.lists maker.now) frame.now 0 found.now) (frame_seen (M.lists maker.now) frame.now)) }
    ensures kept { IfOk result IsInside }
{
    let mut inside = no_inside(alloc);
    match draw_inside(alloc, maker, frame, group, found, numbers, &mut inside) {
        Ok(()) => Ok(inside),
        Err(error) => Err(error),
    }
}

// The plot of a copy with these axes, round what is drawn in it.
fn plot_with(
    alloc: Global,
    frame: &Frame,
    group: &Group,
    unit: u32,
    axes: Axes,
    inside: Inside,
) -> Result<Plot, OutOfMemory>
    requires frame { IsFrame frame.now }
    requires few { count_marks (marks_of (marks_in (out-Group group.now))) < 2 ^ 32 }
    ensures { IfOk result (λ plot. plot ≡ plot_with (object_numbered 0 (out-Group group.now))
        (first_unit (marks_from unit 0 (marks_in (out-Group group.now)))) (unlisted frame.now) axes (inside_seen inside)) }
{
    Ok(Plot {
        width: frame.width,
        height: frame.height,
        title: Copies::copied(&group.title, alloc)?,
        headers: headers_copied(alloc, frame.headers)?,
        axes,
        items: in_unit_order(inside.items)?,
        view: first_unit(marks_in(group), unit),
        cells: cells_copied(alloc, frame.cells)?,
        legends: inside.legends,
        scales: scales_of_plot(alloc, frame)?,
    })
}

// The plot of a copy round what is drawn in it, each axis outside those before it.
fn plot_round(
    alloc: Global,
    frame: &Frame,
    group: &Group,
    unit: u32,
    inside: Inside,
) -> Result<Plot, EvalError>
    requires frame { IsFrame frame.now }
    requires few { count_marks (marks_of (marks_in (out-Group group.now))) < 2 ^ 32 }
    requires kept { IsInside inside }
    ensures value { Evaluates result (plot_round (object_numbered 0 (out-Group group.now))
        (first_unit (marks_from unit 0 (marks_in (out-Group group.now)))) (unlisted frame.now) (inside_seen inside)) }
    ensures legends { IfOk result (λ plot. All IsLegendShown plot.legends) }
{
    match axes_at(alloc, inside.axes.as_slice(), &(frame.width, frame.height)) {
        Ok(axes) => Ok(plot_with(alloc, frame, group, unit, axes, inside)?),
        Err(GuideError::Overflow) => Err(EvalError::Overflow),
        Err(GuideError::Memory) => Err(EvalError::Memory),
    }
}

/// The plot of a copy of an object of whose marks this was found: the axes of the grids round it, its own and those of the groups in it, each
/// where it stands; its items by the numbers of their marks; its own legends and those of the groups in it. The object and its marks are
/// numbered from these numbers on. `Overflow` comes exactly where a number is out of range.
pub(crate) fn plot_of<M: MarkItems>(
    alloc: Global,
    maker: &M,
    frame: &Frame,
    group: &Group,
    found: &[MarkFacts],
    numbers: Numbers,
) -> Result<Plot, EvalError>
    requires sound { M.sound maker.now }
    requires frame { IsFrame frame.now }
    requires marks { MayShow (marks_in (out-Group group.now)) found.now }
    requires object { KeepsObject (object_numbered numbers.number (out-Group group.now)) }
    requires few { AreFew numbers.unit (suc numbers.number) (marks_in (out-Group group.now)) }
    ensures value { Evaluates result (plot_of (M.items maker.now) (object_numbered numbers.number (out-Group group.now))
        (marks_from numbers.unit (suc numbers.number) (marks_in (out-Group group.now))) (found_in_frame (M.lists maker.now) frame.now 0 found.now)
        (frame_seen (M.lists maker.now) frame.now)) }
    ensures legends { IfOk result (λ plot. All IsLegendShown plot.legends) }
{
    match inside_of(alloc, maker, frame, group, found, numbers) {
        Ok(inside) => plot_round(alloc, frame, group, numbers.unit, inside),
        Err(error) => Err(error),
    }
}

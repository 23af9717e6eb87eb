// The points of paths, by the runs of their stops.
ghost use Rattle.std.specs.Prelude.{◌≡◌, [], ◌++◌, map, reverse, IfOk, OnOk};
ghost use Rattle.mark_shapes.specs.Runs.{move_there, line_there, line_back, way_there, way_back, run_points, points_of};
ghost use Rattle.mark_shapes.specs.inner.Begun.{points_behind, GoOn};

use fixed_num::Num;
use scene_tree::Point;
use std::alloc::Global;
use text_kit::{OutOfMemory, Seq};

/// Where a path passes along one direction, in pixels.
#[derive(Clone, Copy, Debug)]
pub struct Pass {
    /// On its way there.
    pub there: Num,
    /// On its way back.
    pub back: Num,
}

/// Where a path passes for a row.
#[derive(Clone, Copy, Debug)]
pub struct PathStop {
    /// Along x.
    pub across: Pass,
    /// Along y.
    pub down: Pass,
}

// The step of a path that moves to a stop on the way there.
fn move_there(stop: &PathStop) -> Point
    ensures { result ≡ move_there stop.now }
{
    Point::Move(stop.across.there, stop.down.there)
}

// The step of a path that draws to a stop on the way there.
fn line_there(stop: &PathStop) -> Point
    ensures { result ≡ line_there stop.now }
{
    Point::Line(stop.across.there, stop.down.there)
}

// The step of a path that draws to a stop on the way back.
fn line_back(stop: &PathStop) -> Point
    ensures { result ≡ line_back stop.now }
{
    Point::Line(stop.across.back, stop.down.back)
}

// Adds the way there over a run.
fn push_way_there(points: &mut Seq<Point>, run: &[PathStop]) -> Result<(), OutOfMemory>
    ensures { OnOk result (points.new ≡ points.old ++ way_there run.now) }
{
    let [first, others @ ..] = run else {
        return Ok(());
    };
    points.push(move_there(first))?;
    for stop in others {
        points.push(line_there(stop))?;
    }
    Ok(())
}

// The lines of the way back over a run.
fn lines_back(alloc: Global, run: &[PathStop]) -> Result<Vec<Point>, OutOfMemory>
    ensures { IfOk result (λ lines. lines.items ≡ map line_back (reverse run.now)) }
{
    Ok(run.iter().rev().map(line_back).collect(alloc)?)
}

// Adds the way back over a run, and closes it.
fn push_way_back(
    alloc: Global,
    points: &mut Seq<Point>,
    run: &[PathStop],
) -> Result<(), OutOfMemory>
    ensures { OnOk result (points.new ≡ points.old ++ way_back run.now) }
{
    points.append(Seq::from_vec(lines_back(alloc, run)?))?;
    points.push(Point::Close)
}

// Adds the points of a run.
fn push_run(
    alloc: Global,
    points: &mut Seq<Point>,
    closed: bool,
    run: &[PathStop],
) -> Result<(), OutOfMemory>
    ensures { OnOk result (points.new ≡ points.old ++ run_points closed run.now) }
{
    push_way_there(points, run)?;
    if closed {
        return push_way_back(alloc, points, run);
    }
    Ok(())
}

// Ends a run: its points are added, where it has a stop.
fn end_run(
    alloc: Global,
    points: &mut Seq<Point>,
    closed: bool,
    run: &mut Seq<PathStop>,
) -> Result<(), OutOfMemory>
    ensures points { OnOk result (points.new ≡ points.old ++ points_behind closed run.old []) }
    ensures run { OnOk result (run.new ≡ []) }
{
    if run.is_empty() {
        return Ok(());
    }
    push_run(alloc, points, closed, run.as_slice())?;
    run.truncate(0);
    Ok(())
}

// Goes on to a stop, or ends the run at a gap.
fn go_on(
    alloc: Global,
    points: &mut Seq<Point>,
    closed: bool,
    run: &mut Seq<PathStop>,
    stop: Option<PathStop>,
) -> Result<(), OutOfMemory>
    ensures { OnOk result (GoOn closed points.old run.old stop points.new run.new) }
{
    match stop {
        Some(stop) => run.push(stop),
        None => end_run(alloc, points, closed, run),
    }
}

/// The points of a path over stops, with a gap where there is none: each run goes there, and where the path is closed also back to its
/// start.
pub fn points_of(
    alloc: Global,
    closed: bool,
    stops: &[Option<PathStop>],
) -> Result<Seq<Point>, OutOfMemory>
    ensures { IfOk result (λ points. points ≡ points_of closed stops.now) }
{
    let mut points = Seq::new(alloc);
    let mut run = Seq::new(alloc);
    for stop in stops {
        go_on(alloc, &mut points, closed, &mut run, *stop)?;
    }
    end_run(alloc, &mut points, closed, &mut run)?;
    Ok(points)
}

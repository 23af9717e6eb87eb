// What the marks in a copy of an object draw in the plot round them.
ghost use Rattle.std.specs.Prelude.{◌≡◌, ◌∷◌, ◌++◌, [], true, All, OnOk};
ghost use Rattle.std.specs.Option.{option_map};
ghost use Rattle.expr_eval.specs.Answers.{Evaluates};
ghost use Rattle.vega_guides.specs.Shown.{IsAxis};
ghost use Rattle.vega_spec.specs.declared.spec.Group.{out-Group};
ghost use Rattle.vega_spec.specs.declared.spec.VgMark.{out-VgMark};
ghost use Rattle.vega_copies.specs.declared.facts.CopyFacts.{out-CopyFacts};
ghost use Rattle.vega_copies.specs.declared.facts.MarkFacts.{out-MarkFacts};
ghost use Rattle.vega_copies.specs.inner.Kept.{KeepsObject, KeepsMarks};
ghost use Rattle.vega_copies.specs.Outlines.{object_here};
ghost use Rattle.vega_copies.specs.inner.Outlined.{marks_from, marks_in, marks_of, plain_of, is_group, AreFew, group_object};
ghost use Rattle.vega_drawing.specs.Insides.{with_guides, items_inside, and_inside, nothing_inside, drawn_in};
ghost use Rattle.vega_drawing.specs.inner.Framed.{frame_seen, unlisted, found_in_frame, IsFrame};
ghost use Rattle.vega_drawing.specs.inner.Drawn.{inside_seen, IsInside, DrawsMore, MayShow, CopyFits, copies_from, copy_in_frame};
ghost use Rattle.vega_drawing.specs.inner.Drawn.{placed_from, drawn_framed, drawn_scaled, drawn_entered, drawn_copy, drawn_group, drawn_one};

use crate::axes::{axes_in, push_own_axes};
use crate::frames::{Entered, Frame, encoded_number, entered_by, more_cells, slice_of};
use crate::items::MarkItems;
use crate::kept::kept_scales;
use crate::legends::push_legends;
use crate::marks::{CopyHere, MarkHere, Numbers};
use crate::scales::{OfChart, and_outer, own_set_of};
use crate::values::{ValuesAt, with_signals, with_step};
use expr_eval::EvalError;
use fixed_num::Num;
use mark_encode::{ChannelName, IndexedSet};
use plot_scenes::{AxisShown, LegendShown};
use scene_tree::Item;
use std::alloc::Global;
use text_kit::{OutOfMemory, Seq};
use vega_copies::{
    MarkFacts, Step, count_groups_of, count_marks_of, is_group, marks_in, scales_in,
};
use vega_spec::{Group, VgMark};

/// What marks draw in the plot round them.
#[derive(Drop)]
pub struct Inside {
    /// The axes that stand there, each over its scale.
    pub axes: Seq<AxisShown>,
    /// The legends.
    pub legends: Seq<LegendShown>,
    /// The items.
    pub items: Seq<Item>,
}

// Adds items behind others. Where there are no others, the list that is added is kept.
fn add_items(items: &mut Seq<Item>, more: Seq<Item>) -> Result<(), OutOfMemory>
    ensures { OnOk result (items.new ≡ items.old ++ more) }
{
    if items.is_empty() {
        *items = more;
        return Ok(());
    }
    items.append(more)
}

// Adds the items of a mark.
fn draw_mark<M: MarkItems>(
    alloc: Global,
    maker: &M,
    frame: &Frame,
    unit: u32,
    mark: &VgMark,
    out: &mut Inside,
) -> Result<(), EvalError>
    requires sound { M.sound maker.now }
    requires frame { IsFrame frame.now }
    ensures value { DrawsMore result out.old out.new (option_map items_inside
        (M.items maker.now unit (plain_of (out-VgMark mark.now)) (frame_seen (M.lists maker.now) frame.now))) }
    ensures kept { IsInside out.old → OnOk result (IsInside out.new) }
{
    let items = match maker.items_of_mark(alloc, frame, unit, mark) {
        Ok(items) => items,
        Err(error) => return Err(error),
    };
    add_items(&mut out.items, items)?;
    Ok(())
}

/// Adds the axes and the legends of a copy of an object that has this number.
pub(crate) fn draw_guides(
    alloc: Global,
    frame: &Frame,
    number: u32,
    group: &Group,
    out: &mut Inside,
) -> Result<(), OutOfMemory>
    requires frame { IsFrame frame.now }
    requires axes { All IsAxis (object_here (out-Group group.now)).axes }
    ensures value { OnOk result (inside_seen out.new ≡ and_inside (inside_seen out.old)
        (with_guides (record (object_here (out-Group group.now)) { number = number }) (unlisted frame.now) nothing_inside)) }
    ensures kept { IsInside out.old → OnOk result (IsInside out.new) }
{
    push_own_axes(
        alloc,
        frame.width,
        frame.height,
        frame.scales,
        axes_in(group),
        &mut out.axes,
    )?;
    push_legends(alloc, frame, number, group, &mut out.legends)?;
    Ok(())
}

// How far the marks of a copy of a group are moved along a channel of its place, where those of the copy round it are moved so far.
fn place_from(
    alloc: Global,
    frame: &Frame,
    mark: &VgMark,
    channel: ChannelName,
    from: Num,
) -> Result<Num, EvalError>
    requires { IsFrame frame.now }
    ensures { Evaluates result (placed_from (unlisted frame.now) (group_object 0 (out-VgMark mark.now)) channel from) }
{
    let by = match encoded_number(alloc, frame, mark, channel) {
        Ok(by) => by,
        Err(error) => return Err(error),
    };
    match from.add(by) {
        Some(place) => Ok(place),
        None => Err(EvalError::Overflow),
    }
}

// What a copy of a group draws whose names and scales are known, before its place is.
#[cycle(drawing)]
fn draw_framed<M: MarkItems>(
    alloc: Global,
    maker: &M,
    frame: &Frame,
    mark: &VgMark,
    here: &CopyHere,
    out: &mut Inside,
) -> Result<(), EvalError>
    requires sound { M.sound maker.now }
    requires frame { IsFrame frame.now }
    requires marks { MayShow (marks_in (out-Group (out-VgMark mark.now).group)) (out-CopyFacts here.now.facts.now).inside }
    requires object { KeepsObject (group_object here.now.numbers.number (out-VgMark mark.now)) }
    requires few { AreFew here.now.numbers.unit here.now.numbers.number (mark.now ∷ []) }
    requires group { is_group (out-VgMark mark.now) ≡ true }
    ensures value { DrawsMore result out.old out.new (drawn_framed (M.items maker.now) (frame_seen (M.lists maker.now) frame.now)
        here.now.numbers.unit here.now.numbers.number
        (out-VgMark mark.now) (found_in_frame (M.lists maker.now) frame.now 0 (out-CopyFacts here.now.facts.now).inside)) }
    ensures kept { IsInside out.old → OnOk result (IsInside out.new) }
{
    let x = match place_from(alloc, frame, mark, ChannelName::X, frame.x) {
        Ok(x) => x,
        Err(error) => return Err(error),
    };
    let y = match place_from(alloc, frame, mark, ChannelName::Y, frame.y) {
        Ok(y) => y,
        Err(error) => return Err(error),
    };
    let moved = Frame { x, y, ..*frame };
    draw_guides(alloc, &moved, here.numbers.number, &mark.group, out)?;
    let inside = Numbers {
        unit: here.numbers.unit,
        number: here.numbers.number + 1,
    };
    draw_all(
        alloc,
        maker,
        &moved,
        inside,
        marks_in(&mark.group),
        here.facts.inside.as_slice(),
        out,
    )
}

// What a copy of a group draws whose names are known.
#[cycle(drawing)]
fn draw_named<M: MarkItems>(
    alloc: Global,
    maker: &M,
    named: &Frame,
    mark: &VgMark,
    here: &CopyHere,
    out: &mut Inside,
) -> Result<(), EvalError>
    requires sound { M.sound maker.now }
    requires frame { IsFrame named.now }
    requires marks { MayShow (marks_in (out-Group (out-VgMark mark.now).group)) (out-CopyFacts here.now.facts.now).inside }
    requires copy { CopyFits (out-VgMark mark.now) here.now.facts.now }
    requires object { KeepsObject (group_object here.now.numbers.number (out-VgMark mark.now)) }
    requires few { AreFew here.now.numbers.unit here.now.numbers.number (mark.now ∷ []) }
    requires group { is_group (out-VgMark mark.now) ≡ true }
    ensures value { DrawsMore result out.old out.new (drawn_scaled (M.items maker.now) (frame_seen (M.lists maker.now) named.now)
        here.now.numbers.unit here.now.numbers.number
        (out-VgMark mark.now) (out-CopyFacts here.now.facts.now).domains
        (found_in_frame (M.lists maker.now) named.now 0 (out-CopyFacts here.now.facts.now).inside)) }
    ensures kept { IsInside out.old → OnOk result (IsInside out.new) }
{
    let own = kept_scales(
        alloc,
        OfChart::Group,
        scales_in(&mark.group),
        here.facts.domains.as_slice(),
    )?;
    if own.is_empty() {
        return draw_framed(alloc, maker, named, mark, here, out);
    }
    let mine = own.as_slice();
    let scales = and_outer(alloc, mine, named.scales)?;
    let seen = scales.as_slice();
    let set = own_set_of(alloc, named.width, named.height, mine)?;
    let indexed = IndexedSet::within(alloc, &set, named.set)?;
    let frame = Frame {
        scales: seen,
        set: &indexed,
        ..*named
    };
    draw_framed(alloc, maker, &frame, mark, here, out)
}

// What a copy of a group draws that is entered in this way.
#[cycle(drawing)]
fn draw_entered<'x, M: MarkItems>(
    alloc: Global,
    maker: &M,
    outer: &Frame<'x, 'x, 'x>,
    entered: &Entered<'x>,
    mark: &VgMark,
    here: &CopyHere,
    out: &mut Inside,
) -> Result<(), EvalError>
    requires sound { M.sound maker.now }
    requires frame { IsFrame outer.now }
    requires marks { MayShow (marks_in (out-Group (out-VgMark mark.now).group)) (out-CopyFacts here.now.facts.now).inside }
    requires copy { CopyFits (out-VgMark mark.now) here.now.facts.now }
    requires object { KeepsObject (group_object here.now.numbers.number (out-VgMark mark.now)) }
    requires few { AreFew here.now.numbers.unit here.now.numbers.number (mark.now ∷ []) }
    requires group { is_group (out-VgMark mark.now) ≡ true }
    ensures value { DrawsMore result out.old out.new (drawn_entered (M.items maker.now) (M.lists maker.now) outer.now
        entered.now.path.now entered.now.levels.now entered.now.cells
        here.now.numbers.unit here.now.numbers.number (out-VgMark mark.now) here.now.facts.now) }
    ensures kept { IsInside out.old → OnOk result (IsInside out.new) }
{
    let named = Frame {
        path: entered.path,
        values: ValuesAt {
            stores: outer.values.stores,
            levels: entered.levels,
        },
        cells: entered.cells,
        ..*outer
    };
    draw_named(alloc, maker, &named, mark, here, out)
}

// What a copy of a group draws.
#[cycle(drawing)]
fn draw_copy<M: MarkItems>(
    alloc: Global,
    maker: &M,
    outer: &Frame,
    mark: &VgMark,
    here: &CopyHere,
    out: &mut Inside,
) -> Result<(), EvalError>
    requires sound { M.sound maker.now }
    requires frame { IsFrame outer.now }
    requires kept { KeepsMarks (marks_of (mark.now ∷ [])) }
    requires copy { CopyFits (out-VgMark mark.now) here.now.facts.now }
    requires few { AreFew here.now.numbers.unit here.now.numbers.number (mark.now ∷ []) }
    requires group { is_group (out-VgMark mark.now) ≡ true }
    ensures value { DrawsMore result out.old out.new (drawn_copy (M.items maker.now) (frame_seen (M.lists maker.now) outer.now)
        here.now.numbers.unit here.now.numbers.number
        (out-VgMark mark.now) (copy_in_frame (M.lists maker.now) outer.now here.now.step here.now.facts.now)) }
    ensures kept { IsInside out.old → OnOk result (IsInside out.new) }
{
    let cells = more_cells(alloc, outer.cells, &here.facts.cells)?;
    let levels = with_signals(alloc, &here.facts.signals, outer.values.levels)?;
    let path = with_step(alloc, here.step, outer.path)?;
    let steps = path.as_slice();
    let signals = levels.as_slice();
    let entered = entered_by(steps, signals, slice_of(&cells));
    draw_entered(alloc, maker, &*outer, &entered, mark, here, out)
}

// What the copies of a group draw.
#[cycle(drawing)]
fn draw_group<M: MarkItems>(
    alloc: Global,
    maker: &M,
    frame: &Frame,
    mark: &VgMark,
    here: &MarkHere,
    out: &mut Inside,
) -> Result<(), EvalError>
    requires sound { M.sound maker.now }
    requires frame { IsFrame frame.now }
    requires marks { MayShow (mark.now ∷ []) (here.now.facts.now ∷ []) }
    requires few { AreFew here.now.numbers.unit here.now.numbers.number (mark.now ∷ []) }
    requires group { is_group (out-VgMark mark.now) ≡ true }
    ensures value { DrawsMore result out.old out.new (drawn_group (M.items maker.now) (frame_seen (M.lists maker.now) frame.now)
        here.now.numbers.unit here.now.numbers.number
        (out-VgMark mark.now) (copies_from (M.lists maker.now) frame.now here.now.place 0 (out-MarkFacts here.now.facts.now).copies)) }
    ensures kept { IsInside out.old → OnOk result (IsInside out.new) }
{
    let copies = here.facts.copies.as_slice();
    for (at, copy) in copies.iter().enumerate() {
        let step = Step {
            mark: here.place,
            copy: at,
        };
        let one = CopyHere {
            facts: copy,
            step,
            numbers: here.numbers,
        };
        match draw_copy(alloc, maker, frame, mark, &one, out) {
            Ok(()) => {}
            Err(error) => return Err(error),
        }
    }
    Ok(())
}

// Adds what a mark draws.
#[cycle(drawing)]
fn draw_one<M: MarkItems>(
    alloc: Global,
    maker: &M,
    frame: &Frame,
    mark: &VgMark,
    here: &MarkHere,
    out: &mut Inside,
) -> Result<(), EvalError>
    requires sound { M.sound maker.now }
    requires frame { IsFrame frame.now }
    requires marks { MayShow (mark.now ∷ []) (here.now.facts.now ∷ []) }
    requires few { AreFew here.now.numbers.unit here.now.numbers.number (mark.now ∷ []) }
    ensures value { DrawsMore result out.old out.new (drawn_one (M.items maker.now) (frame_seen (M.lists maker.now) frame.now)
        here.now.numbers.unit here.now.numbers.number mark.now
        (copies_from (M.lists maker.now) frame.now here.now.place 0 (out-MarkFacts here.now.facts.now).copies)) }
    ensures kept { IsInside out.old → OnOk result (IsInside out.new) }
{
    if is_group(mark) {
        draw_group(alloc, maker, frame, mark, here, out)
    } else {
        draw_mark(alloc, maker, frame, here.numbers.unit, mark, out)
    }
}

/// Adds what marks draw whose groups have the copies that were found, in the order of the text, numbered from these numbers on.
#[cycle(drawing)]
pub(crate) fn draw_all<M: MarkItems>(
    alloc: Global,
    maker: &M,
    frame: &Frame,
    numbers: Numbers,
    marks: &[VgMark],
    found: &[MarkFacts],
    out: &mut Inside,
) -> Result<(), EvalError>
    requires sound { M.sound maker.now }
    requires frame { IsFrame frame.now }
    requires marks { MayShow marks.now found.now }
    requires few { AreFew numbers.unit numbers.number marks.now }
    ensures value { DrawsMore result out.old out.new (drawn_in (M.items maker.now) (marks_from numbers.unit numbers.number marks.now)
        (found_in_frame (M.lists maker.now) frame.now 0 found.now) (frame_seen (M.lists maker.now) frame.now)) }
    ensures kept { IsInside out.old → OnOk result (IsInside out.new) }
{
    let mut next_unit = numbers.unit;
    let mut next_number = numbers.number;
    let mut at = 0;
    for mark in marks {
        let next = Numbers {
            unit: next_unit,
            number: next_number,
        };
        let here = MarkHere {
            facts: &found[at],
            place: at,
            numbers: next,
        };
        match draw_one(alloc, maker, frame, mark, &here, out) {
            Ok(()) => {}
            Err(error) => return Err(error),
        }
        next_unit += count_marks_of(mark);
        next_number += count_groups_of(mark);
        at += 1;
    }
    Ok(())
}

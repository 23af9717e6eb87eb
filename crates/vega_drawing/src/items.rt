// Who makes the items of marks.
ghost use Rattle.expr_eval.specs.Answers.{Evaluates};
ghost use Rattle.vega_spec.specs.declared.spec.VgMark.{out-VgMark};
ghost use Rattle.vega_copies.specs.inner.FactsSeen.{ListsOnPaths};
ghost use Rattle.vega_copies.specs.inner.Outlined.{plain_of};
ghost use Rattle.vega_drawing.specs.Insides.{ItemsOfMarks};
ghost use Rattle.vega_drawing.specs.inner.Framed.{frame_seen, IsFrame};

use crate::frames::Frame;
use expr_eval::EvalError;
use scene_tree::Item;
use std::alloc::Global;
use text_kit::Seq;
use vega_spec::VgMark;

/// Who makes the items of marks. A drawing reads no rows: it says which mark draws in which copy, and puts what it gets in its place.
pub trait MarkItems {
    /// What has to hold of it.
    ghost sound: { Self → Type 0 };

    /// The rows for which names stand in the copy to which steps lead from the top.
    ghost lists: { Self → ListsOnPaths };

    /// The items of marks.
    ghost items: { Self → ItemsOfMarks };

    /// The items of a mark of this number in a copy of the object that has it, each at its place in the plot round it. `Overflow` comes
    /// exactly where a number is out of range. It is called once for each mark other than a group in each copy of its object, in the order
    /// of the text.
    fn items_of_mark(
        &self,
        alloc: Global,
        frame: &Frame,
        unit: u32,
        mark: &VgMark,
    ) -> Result<Seq<Item>, EvalError>
        requires sound { sound self.now }
        requires frame { IsFrame frame.now }
        ensures { Evaluates result (items self.now unit (plain_of (out-VgMark mark.now)) (frame_seen (lists self.now) frame.now)) };
}

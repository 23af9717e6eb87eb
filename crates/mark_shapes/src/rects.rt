// Rects.
ghost use Rattle.std.specs.Prelude.{◌≡◌};
ghost use Rattle.mark_shapes.specs.Rects.{rect_over};

use crate::spans::Span;
use scene_tree::Shape;

/// A rect over a span along x and one along y; None without one of them.
pub fn rect_over(across: Option<Span>, down: Option<Span>) -> Option<Shape>
    ensures { result ≡ rect_over across down }
{
    let x = across?;
    let y = down?;
    Some(Shape::Rect {
        x: x.from,
        y: y.from,
        width: x.size,
        height: y.size,
    })
}

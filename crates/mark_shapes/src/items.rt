// The items of shapes that are painted.
ghost use Rattle.std.specs.Prelude.{◌≡◌};
ghost use Rattle.mark_shapes.specs.Items.{item_with};

use crate::looks::Look;
use cell_value::Key;
use scene_tree::{Item, Shape};

/// A shape that is painted, as an item of this unit with this key; None without a shape, or where it isn't painted.
pub fn item_with(
    unit: u32,
    key: Option<Key>,
    found: Option<Shape>,
    painted: Option<Look>,
) -> Option<Item>
    ensures { result ≡ item_with unit key found painted }
{
    let shape = found?;
    let look = painted?;
    Some(Item {
        shape,
        fill: look.fill,
        stroke: look.stroke,
        stroke_width: look.stroke_width,
        opacity: look.opacity,
        unit: Some(unit),
        key,
    })
}

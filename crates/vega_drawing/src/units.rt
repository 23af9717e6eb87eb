// Items by the numbers of their marks.
ghost use Rattle.std.specs.Prelude.{◌≡◌, IfOk};
ghost use Rattle.vega_drawing.specs.Units.{in_unit_order, unit_of};

use scene_tree::Item;
use text_kit::{OutOfMemory, Seq};

// The number of the mark of an item, 0 where no mark made it.
fn unit_of(item: &Item) -> u32
    ensures { result ≡ unit_of item.now }
{
    match item.unit {
        Some(unit) => unit,
        None => 0,
    }
}

/// Items by the numbers of their marks, those of one mark in their order. It takes no more steps than a sort.
pub(crate) fn in_unit_order(items: Seq<Item>) -> Result<Seq<Item>, OutOfMemory>
    ensures { IfOk result (λ sorted. sorted ≡ in_unit_order items) }
{
    let mut items = items.into_vec();
    items.sort_by_key(|item| unit_of(item))?;
    Ok(Seq::from_vec(items))
}

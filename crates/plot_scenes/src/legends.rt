// The legends of a chart.
ghost use Rattle.std.specs.Cmp.{eq_by_cmp_equiv, partial_equiv_from_equiv, partial_order_from_total};
ghost use Rattle.std.specs.Ordering.{eq_by_cmp, as_partial_cmp};
ghost use Rattle.std.specs.Prelude.{◌≡◌, refl, map, IfOk};
ghost use Rattle.std.specs.List.{All};
ghost use Rattle.fixed_num.specs.Ranges.{all_found};
ghost use Rattle.guide_kit.specs.Answers.{Draws};
ghost use Rattle.plain_orders.specs.Orders.{in_order};
ghost use Rattle.plot_scenes.specs.Legends.{IsLegendShown, legend_order, block_shown, blocks_of};
ghost use Rattle.plot_scenes.specs.inner.Orders.{legend_order_total};

use guide_kit::{Block, GuideError, LegendOf, legend_of};
use scale_kit::Scale;
use std::alloc::Global;
use std::cmp::Ordering;
use text_kit::{OutOfMemory, Seq};

/// A legend with the scale that it shows, and its place among all legends: by its channel, then by its object, then in the order in which
/// the object has its legends. Legends compare by their places.
#[derive(Debug, Drop)]
pub struct LegendShown {
    /// The place of its channel among those that legends show.
    pub channel: u8,
    /// The number of its object.
    pub object: usize,
    /// The place of the legend in its object.
    pub index: usize,
    /// The legend.
    pub legend: LegendOf,
    /// The scale.
    pub scale: Scale,
}

impl PartialEq for LegendShown {
    ghost eq = { eq_by_cmp legend_order };

    ghost laws = { partial_equiv_from_equiv (eq_by_cmp_equiv legend_order_total) };

    fn eq(&self, o: &LegendShown) -> bool {
        self.cmp(o).is_eq()
    }
}

impl Eq for LegendShown {
    ghost laws = { eq_by_cmp_equiv legend_order_total };
}

impl PartialOrd for LegendShown {
    ghost partial_cmp = { as_partial_cmp legend_order };

    ghost laws = { partial_order_from_total legend_order_total };

    fn partial_cmp(&self, o: &LegendShown) -> Option<Ordering> {
        Some(self.cmp(o))
    }
}

impl Ord for LegendShown {
    ghost cmp = { legend_order };

    ghost total = { legend_order_total };

    ghost matches_partial_cmp = { λ a b. refl };

    ghost matches_eq = { λ a b. refl };

    fn cmp(&self, o: &LegendShown) -> Ordering {
        self.channel
            .cmp(&o.channel)
            .then(self.object.cmp(&o.object).then(self.index.cmp(&o.index)))
    }
}

// The legends in their order.
fn sorted(legends: Seq<LegendShown>) -> Result<Vec<LegendShown>, OutOfMemory>
    requires { All IsLegendShown legends }
    ensures value { IfOk result (λ sorted. sorted.items ≡ in_order legend_order legends) }
    ensures asked { IfOk result (λ sorted. All IsLegendShown sorted.items) }
{
    let mut legends = legends.into_vec();
    legends.sort()?;
    Ok(legends)
}

// The block of a legend.
fn block_shown(alloc: Global, shown: &LegendShown) -> Result<Block, GuideError>
    requires { IsLegendShown shown.now }
    ensures { Draws result (block_shown shown.now) }
{
    legend_of(alloc, &shown.legend, &shown.scale)
}

// The blocks of legends, one after the other.
fn blocks_in(alloc: Global, legends: &[LegendShown]) -> Result<Seq<Block>, GuideError>
    requires { All IsLegendShown legends.now }
    ensures { Draws result (all_found (map block_shown legends.now)) }
{
    let mut blocks = Seq::new(alloc);
    for shown in legends {
        match block_shown(alloc, shown) {
            Ok(block) => blocks.push(block)?,
            Err(error) => return Err(error),
        }
    }
    Ok(blocks)
}

/// The blocks of legends in their order: by channel, object and index; those that tie stay as they stand. It takes no more steps than a
/// sort. `Overflow` exactly where a tick or its place is out of range.
pub fn blocks_of(alloc: Global, legends: Seq<LegendShown>) -> Result<Seq<Block>, GuideError>
    requires { All IsLegendShown legends }
    ensures { Draws result (blocks_of legends) }
{
    let legends = sorted(legends)?;
    blocks_in(alloc, &legends)
}

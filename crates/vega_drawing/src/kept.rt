// The scales of objects with the domains that were found.
ghost use Rattle.std.specs.Prelude.{◌≡◌, ◌∷◌, ◌++◌, [], All, IfOk, IsTrue, OnOk, map};
ghost use Rattle.std.specs.List.{AllZip};
ghost use Rattle.vega_scales.specs.Scales.{is_built, FitsScale, KeepsBounds};
ghost use Rattle.vega_drawing.specs.Scales.{own_scale, own_scales};
ghost use Rattle.vega_drawing.specs.inner.Kept.{kept_seen, chart_has, IsKeptScale};

use crate::scales::{OfChart, ScaleKept, chart_has};
use std::alloc::Global;
use text_kit::{OutOfMemory, Seq};
use vega_scales::Scaled;
use vega_spec::Scale;

// Adds a scale of an object with what it scales.
fn push_kept<'s>(
    of: OfChart,
    scale: &'s Scale,
    domain: &'s Scaled,
    out: &mut Seq<ScaleKept<'s>>,
) -> Result<(), OutOfMemory>
    ensures { OnOk result (map kept_seen out.new ≡ map kept_seen out.old ++ own_scale (chart_has of) (scale.now, domain.now) ∷ []) }
{
    out.push(ScaleKept {
        scale,
        domain,
        of_chart: chart_has(of, scale),
    })
}

/// The scales of an object with what was found that they scale.
pub(crate) fn kept_scales<'s>(
    alloc: Global,
    of: OfChart,
    scales: &'s [Scale],
    domains: &'s [Scaled],
) -> Result<Seq<ScaleKept<'s>>, OutOfMemory>
    requires built { All (λ s. IsTrue (is_built s)) scales.now }
    requires bounds { All KeepsBounds scales.now }
    requires fits { AllZip FitsScale scales.now domains.now }
    ensures value { IfOk result (λ kept. map kept_seen kept ≡ own_scales (chart_has of) scales.now domains.now) }
    ensures kept { IfOk result (All IsKeptScale) }
{
    let mut kept = Seq::with_capacity(alloc, scales.len())?;
    for (scale, domain) in scales.iter().zip(domains) {
        push_kept(of, scale, domain, &mut kept)?;
    }
    Ok(kept)
}

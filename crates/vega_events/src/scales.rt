// The scales that drags invert.
ghost use Rattle.std.specs.Prelude.{◌≡◌, ◌==◌, false, find, option_copied};
ghost use Rattle.std.specs.Option.{option_map, option_map_or, option_or};
ghost use Rattle.std.specs.Str.{bytes_eq};
ghost use Rattle.vega_events.specs.Laws.{is_named};
ghost use Rattle.vega_events.specs.Scales.{is_of_panel, is_of_chart, scale_in, scale_name, inverted_by};

use scale_kit::{Scale, ScaleIn, ScaleSet};
use selection_events::{DragOf, DragScales};
use text_kit::Text;
use vega_selections::VgSelection;

// Whether a scale has a name.
fn has_name(s: &ScaleIn, name: &str) -> bool
    ensures { result ≡ bytes_eq s.now.name name.now }
{
    s.name.as_str() == name
}

// Whether a scale belongs to the panel of an index.
fn is_at(index: usize, s: &ScaleIn) -> bool
    ensures { result ≡ option_map_or (λ p. p == index) s.now.panel false }
{
    match s.panel {
        Some(panel) => panel == index,
        None => false,
    }
}

// Whether a scale of this name belongs to the panel of an index.
fn is_of_panel(index: usize, name: &str, s: &ScaleIn) -> bool
    ensures { result ≡ is_of_panel index name.now s.now }
{
    is_at(index, s) && has_name(s, name)
}

// Whether a scale of this name belongs to the whole chart.
fn is_of_chart(name: &str, s: &ScaleIn) -> bool
    ensures { result ≡ is_of_chart name.now s.now }
{
    !s.panel.is_some() && has_name(s, name)
}

// The scale of this name that belongs to the panel of an index.
fn of_panel<'a>(scales: &'a [ScaleIn], index: usize, name: &str) -> Option<&'a ScaleIn>
    ensures { option_copied result ≡ find (is_of_panel index name.now) scales.now }
{
    for s in scales {
        if is_of_panel(index, name, s) {
            return Some(s);
        }
    }
    None
}

// The scale of this name that belongs to the whole chart.
fn of_chart<'a>(scales: &'a [ScaleIn], name: &str) -> Option<&'a ScaleIn>
    ensures { option_copied result ≡ find (is_of_chart name.now) scales.now }
{
    for s in scales {
        if is_of_chart(name, s) {
            return Some(s);
        }
    }
    None
}

// The one found first, else the other.
fn either<'a>(first: Option<&'a ScaleIn>, second: Option<&'a ScaleIn>) -> Option<&'a Scale>
    ensures { option_copied result ≡ option_map (λ s. s.scale) (option_or (option_copied first.entry) (option_copied second.entry)) }
{
    match first {
        Some(s) => Some(&s.scale),
        None => match second {
            Some(s) => Some(&s.scale),
            None => None,
        },
    }
}

/// The scale of a name in the panel of an index: its own, or else that of the whole chart.
pub(crate) fn scale_in<'a>(set: &'a ScaleSet, index: usize, name: &str) -> Option<&'a Scale>
    ensures { option_copied result ≡ scale_in set.now index name.now }
{
    let scales = set.scales.as_slice();
    either(of_panel(scales, index, name), of_chart(scales, name))
}

// Whether a drag goes along a channel.
fn is_along(channel: &str, d: &DragOf) -> bool
    ensures { result ≡ bytes_eq d.now.channel channel.now }
{
    d.channel.as_str() == channel
}

// The name of the scale that the drags of a selection invert along a channel.
fn scale_name<'a>(v: &'a VgSelection, channel: &str) -> Option<&'a Text>
    ensures { option_copied result ≡ scale_name v.now channel.now }
{
    let drag = v.selection.drag.as_slice();
    for (at, d) in drag.iter().enumerate() {
        if is_along(channel, d) {
            return v.scales.get(at);
        }
    }
    None
}

/// The scale that the drags of a selection invert in the panel of an index along a channel.
pub(crate) fn inverted_by<'a>(
    set: &'a ScaleSet,
    v: &VgSelection,
    index: usize,
    channel: &str,
) -> Option<&'a Scale>
    ensures { option_copied result ≡ inverted_by set.now v.now index v.now.selection.name channel.now }
{
    match scale_name(v, channel) {
        Some(name) => scale_in(set, index, name.as_str()),
        None => None,
    }
}

/// The scales that the drags of selections invert in the plots of a chart.
#[derive(Clone, Copy)]
pub struct ChartScales<'a> {
    /// The scales of the whole chart and of its plots.
    pub scales: &'a ScaleSet,
    /// The selections.
    pub selections: &'a [VgSelection],
}

// Whether a selection has a name.
fn is_named(name: &str, v: &VgSelection) -> bool
    ensures { result ≡ is_named name.now v.now }
{
    v.selection.name.as_str() == name
}

// The selection of a name, if there is one.
fn selection_named<'a>(selections: &'a [VgSelection], name: &str) -> Option<&'a VgSelection>
    ensures { option_copied result ≡ find (is_named name.now) selections.now }
{
    for v in selections {
        if is_named(name, v) {
            return Some(v);
        }
    }
    None
}

impl DragScales for ChartScales<'_> {
    ghost use Rattle.scale_kit.specs.Scale.{AreScales};
    ghost use Rattle.vega_events.specs.Laws.{inverted_in};

    ghost inverts = { λ s. inverted_in s.scales.now s.selections.now };

    ghost sound = { λ s. AreScales s.scales.now };

    fn inverted<'a>(&'a self, index: usize, name: &str, channel: &str) -> Option<&'a Scale> {
        match selection_named(self.selections, name) {
            Some(v) => inverted_by(self.scales, v, index, channel),
            None => None,
        }
    }
}

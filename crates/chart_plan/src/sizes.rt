// The sizes of plots.
ghost use Rattle.std.specs.Prelude.{◌≡◌, ◌*◌, pos};
ghost use Rattle.std.specs.Option.{option_and_then, option_map_or};
ghost use Rattle.chart_plan.specs.Sizes.{size_by, said_size, continuous_member, discrete_member};
ghost use Rattle.chart_plan.specs.Sizes.{continuous_size, step_of, discrete_by, steps, discrete_size, default_size, size_of};

use fixed_num::Num;
use plan_kit::SizePlan;
use vl_normalize::X;
use vl_spec::{ConfigView, Size};

// So many whole pixels, fewer than 4,000.
fn pixels(count: u16) -> Num
    ensures { result ≡ pos (count * 1000000) }
{
    match Num::of_millionths(i128::from(count) * 1_000_000) {
        Some(number) => number,
        None => unreachable!(),
    }
}

// A size on a scale of a number.
fn size_by(continuous: bool, scale: usize, size: &Size) -> Option<SizePlan>
    ensures { result ≡ size_by continuous scale size.now }
{
    match size {
        Size::Number(n) => Some(SizePlan::Pixels(*n)),
        Size::Step(n) => {
            if continuous {
                None
            } else {
                Some(SizePlan::Steps(*n, scale))
            }
        }
    }
}

// The first of some sizes that says something.
fn said_size(continuous: bool, scale: usize, sizes: &[Size]) -> Option<SizePlan>
    ensures { result ≡ said_size continuous scale sizes.now }
{
    for size in sizes {
        match size_by(continuous, scale, size) {
            Some(plan) => return Some(plan),
            None => {}
        }
    }
    None
}

// What is said of continuous views that say nothing.
fn continuous_member(channel: u16, config: &ConfigView) -> Option<Num>
    ensures { result ≡ continuous_member channel config.now }
{
    if channel == X {
        config.continuous_width
    } else {
        config.continuous_height
    }
}

// The same where there may be no `config.view`.
fn continuous_said(channel: u16, config: &Option<ConfigView>) -> Option<Num>
    ensures { result ≡ option_and_then (continuous_member channel) config.now }
{
    match config {
        Some(config) => continuous_member(channel, config),
        None => None,
    }
}

// The size on a continuous scale where nothing is said.
fn continuous_size(channel: u16, config: &Option<ConfigView>) -> SizePlan
    ensures { result ≡ continuous_size channel config.now }
{
    match continuous_said(channel, config) {
        Some(n) => SizePlan::Pixels(n),
        None => SizePlan::Pixels(pixels(200)),
    }
}

// The step where there may be no `config.view`.
fn step_said(config: &Option<ConfigView>) -> Option<Num>
    ensures { result ≡ option_and_then (λ c. c.step) config.now }
{
    match config {
        Some(config) => config.step,
        None => None,
    }
}

// The step where nothing is said.
fn step_of(config: &Option<ConfigView>) -> Num
    ensures { result ≡ step_of config.now }
{
    match step_said(config) {
        Some(step) => step,
        None => pixels(20),
    }
}

// The size on a discrete scale by what is said.
fn discrete_by(scale: usize, size: &Size) -> SizePlan
    ensures { result ≡ discrete_by scale size.now }
{
    match size {
        Size::Number(n) => SizePlan::Pixels(*n),
        Size::Step(n) => SizePlan::Steps(*n, scale),
    }
}

// What is said of discrete views that say nothing.
fn discrete_member(channel: u16, config: &ConfigView) -> &Option<Size>
    ensures { result.now ≡ discrete_member channel config.now }
{
    if channel == X {
        &config.discrete_width
    } else {
        &config.discrete_height
    }
}

// The size on a discrete scale of a `config.view`.
fn discrete_in(channel: u16, scale: usize, config: &ConfigView, step: Num) -> SizePlan
    ensures { result ≡ option_map_or (discrete_by scale) (discrete_member channel config.now) (steps step scale) }
{
    match discrete_member(channel, config) {
        Some(size) => discrete_by(scale, size),
        None => SizePlan::Steps(step, scale),
    }
}

// The size on a discrete scale where nothing is said.
fn discrete_size(channel: u16, scale: usize, config: &Option<ConfigView>) -> SizePlan
    ensures { result ≡ discrete_size channel scale config.now }
{
    match config {
        Some(view) => discrete_in(channel, scale, view, step_of(config)),
        None => SizePlan::Steps(step_of(config), scale),
    }
}

// The size where nothing is said.
fn default_size(
    channel: u16,
    continuous: bool,
    scale: usize,
    config: &Option<ConfigView>,
) -> SizePlan
    ensures { result ≡ default_size channel continuous scale config.now }
{
    if continuous {
        continuous_size(channel, config)
    } else {
        discrete_size(channel, scale, config)
    }
}

/// The size of a plot along a channel, x or y, whose scale is continuous or not and has this number, by the sizes that its views say.
pub fn size_of(
    channel: u16,
    continuous: bool,
    scale: usize,
    config: &Option<ConfigView>,
    sizes: &[Size],
) -> SizePlan
    ensures { result ≡ size_of channel continuous scale config.now sizes.now }
{
    match said_size(continuous, scale, sizes) {
        Some(size) => size,
        None => default_size(channel, continuous, scale, config),
    }
}

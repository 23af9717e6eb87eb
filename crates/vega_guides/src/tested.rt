// Whether axes are as callers ask.
ghost use Rattle.std.specs.Prelude.{◌≡◌};
ghost use Rattle.vega_spec.specs.declared.spec.Group.{out-Group};
ghost use Rattle.vega_guides.specs.Tested.{axes_in, is_kept_axis, has_kept_axes, AxesAreTested};

use vega_spec::{Axis, Group};

// The axes of an object.
fn axes_in(group: &Group) -> &[Axis]
    ensures { result.now ≡ axes_in (out-Group group.now) }
{
    match &group.axes {
        Some(axes) => axes.as_slice(),
        None => &[],
    }
}

// Whether the count of ticks of an axis is from 1 to 1,000, if it has one.
fn is_kept_axis(axis: &Axis) -> bool
    ensures { result ≡ is_kept_axis axis.now }
{
    match axis.tick_count {
        Some(count) => {
            let millionths = count.millionths();
            1_000_000 <= millionths && millionths <= 1_000_000_000
        }
        None => true,
    }
}

/// Whether the counts of ticks of all axes of an object are from 1 to 1,000.
pub fn has_kept_axes(group: &Group) -> bool
    ensures { result ≡ has_kept_axes (out-Group group.now) }
{
    axes_in(group).iter().all(is_kept_axis)
}

/// Where the test of the counts holds, an object has kept axes.
pub fn axes_are_tested()
    ensures { AxesAreTested }
{}

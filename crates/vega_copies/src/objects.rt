// The parts of objects.
ghost use Rattle.std.specs.Prelude.{◌≡◌};
ghost use Rattle.vega_spec.specs.declared.spec.Group.{out-Group};
ghost use Rattle.vega_copies.specs.Outlines.{object_here};

use vega_spec::{Group, Scale};

/// The scales of an object.
pub fn scales_in(group: &Group) -> &[Scale]
    ensures { result.now ≡ (object_here (out-Group group.now)).scales }
{
    match &group.scales {
        Some(scales) => scales.as_slice(),
        None => &[],
    }
}

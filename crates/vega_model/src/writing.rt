//! Writing a specification.
ghost use Rattle.std.specs.Prelude.{◌≡◌, IfOk};
ghost use Rattle.vega_writing.specs.Spec.{tree_of};
ghost use Rattle.vega_model.specs.Laws.{WrittenIsRead};

use json_exact::Json;
use std::alloc::Global;
use text_kit::OutOfMemory;
use vega_spec::VgSpec;
use vega_writing::tree_of;

/// A tree that says a specification, its members in the order of the table. Codes are asked that stand in their tables.
pub fn write(alloc: Global, g: &VgSpec) -> Result<Json, OutOfMemory>
    ensures { IfOk result (λ tree. tree ≡ tree_of g.now) }
{
    tree_of(alloc, g)
}

/// A specification that breaks no rule is read of the tree that was written of it, where its codes stand in their tables and its
/// expressions are such as are read of texts.
pub fn what_was_written_is_read()
    ensures { WrittenIsRead }
{}

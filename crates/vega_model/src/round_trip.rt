//! What is built of what was written.
ghost use Rattle.std.specs.Prelude.{◌≡◌};
ghost use Rattle.vega_spec.specs.declared.spec.VgSpec.{VgSpec};
ghost use Rattle.vega_building.specs.Spec.{spec_of};
ghost use Rattle.vega_writing.specs.Spec.{tree_of};
ghost use Rattle.vega_model.specs.RoundTrip.{HasCodes, HasReadings};

/// What is built of the tree of a specification is the specification, where each code in it stands in its table and each expression
/// is what its text reads as.
pub fn what_was_written_is_built_again()
    ensures { (g : VgSpec) → HasCodes g → HasReadings g → spec_of (tree_of g) ≡ g }
{}

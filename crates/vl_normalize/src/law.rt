//! That a normal form is its own.
ghost use Rattle.vl_normalize.specs.Normal.{NormalFormsAreNormal};

/// Each normal form is in normal form.
pub fn normal_forms_are_normal()
    ensures { NormalFormsAreNormal }
{}

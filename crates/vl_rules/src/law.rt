//! What holds of specifications without a fault.
ghost use Rattle.vl_rules.specs.Kept.{WithoutFaultsKept, KeptWithoutFaults};

/// Where there is no first fault, no rule is broken.
pub fn kept_where_faultless()
    ensures { WithoutFaultsKept }
{}

/// Where no rule is broken, there is no fault.
pub fn faultless_where_kept()
    ensures { KeptWithoutFaults }
{}

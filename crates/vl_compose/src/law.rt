// That each unit shares each of its scales once.
ghost use Rattle.vl_compose.specs.Shared.{EachUnitSharesOnce};

/// Of the scales of a specification exactly one is that of a channel and a unit which has a scale for it.
pub fn each_unit_shares_once()
    ensures { EachUnitSharesOnce }
{}

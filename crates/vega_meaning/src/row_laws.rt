// The law of the rows behind items.
ghost use Rattle.vega_meaning.specs.Laws.{ItemsHaveRows};

/// Each item that is drawn of a state with the number of its mark and the key of its row is one of a row that its mark draws.
pub fn law_of_items()
    ensures { ItemsHaveRows }
{}

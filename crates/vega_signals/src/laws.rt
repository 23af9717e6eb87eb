// What holds of the values of signals, beside their definition.
ghost use Rattle.vega_signals.specs.Laws.{SettleInOrder, InnerFirst};

/// Where signals stand in an order, in which each needs only those before it, they are computed from the settled values as these are.
pub fn laws_of_signals()
    ensures { SettleInOrder }
{}

/// In an object inside another, names are read as in one that has the signals of both, the inner ones before the outer ones.
pub fn law_of_inner_values()
    ensures { InnerFirst }
{}

// Laws of the values that the signals of a compiled specification have.
ghost use Rattle.compiled_rows.specs.Lost.{BegunLackAlike, NullSignalIsNull, UnitsLackAlike};
ghost use Rattle.compiled_rows.specs.Values.{CommandsReadAlike, InsideAddsNothing, NamesAtTopAreThese, NothingIsAdded, SignalsAreKeptAlike, SignalsSettleAlike};
ghost use Rattle.compiled_rows.specs.Values.{StoresOfStatesAreApart, ValuesAreAlike};

/// The signals of the top settle at the values of the parameters, and one more at null.
pub fn signals_settle_alike()
    ensures { SignalsSettleAlike }
{}

/// Expressions read at the top what they read of the parameters.
pub fn values_are_alike()
    ensures { ValuesAreAlike }
{}

/// So do those of commands.
pub fn commands_read_alike()
    ensures { CommandsReadAlike }
{}

/// At the top names stand for the lists of the data sets, read with these values.
pub fn names_at_top_are_these()
    ensures { NamesAtTopAreThese }
{}

/// In an object without signals and data sets names stand for what they stand for round it.
pub fn nothing_is_added()
    ensures { NothingIsAdded }
{}

/// All objects inside the top are such.
pub fn inside_adds_nothing()
    ensures { InsideAddsNothing }
{}

/// The stores of a state are those of selections, so none has the name of another parameter.
pub fn stores_of_states_are_apart()
    ensures { StoresOfStatesAreApart }
{}

/// Each signal has a value exactly where no parameter is lost.
pub fn signals_are_kept_alike()
    ensures { SignalsAreKeptAlike }
{}

/// The null signal reads as null.
pub fn null_signal_is_null()
    ensures { NullSignalIsNull }
{}

/// The list of a unit mentions a signal without value exactly where its steps mention a lost parameter.
pub fn units_lack_alike()
    ensures { UnitsLackAlike }
{}

/// So does that of its rows before the aggregate.
pub fn begun_lack_alike()
    ensures { BegunLackAlike }
{}

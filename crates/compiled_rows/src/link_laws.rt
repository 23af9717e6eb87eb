// Laws that link the top of a compiled specification with the chart as a copy.
ghost use Rattle.compiled_rows.specs.Links.{BegunAreLinked, RowsAreLinked};

/// The name of a unit stands for the rows that the copy has of it.
pub fn rows_are_linked()
    ensures { RowsAreLinked }
{}

/// The name of its rows before the aggregate stands for those that the copy has.
pub fn begun_are_linked()
    ensures { BegunAreLinked }
{}

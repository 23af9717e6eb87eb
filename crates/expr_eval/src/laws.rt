// Laws that callers build on.
ghost use Rattle.expr_eval.specs.Laws.{SpellsItsNumber, IfOfValues};
ghost use Rattle.expr_eval.specs.Stores.{StoresReadTheirFields};

/// A text spells a number exactly where it is a JSON number in range; and `if` gives what the table of builtins says where
/// each of its arguments has a value.
pub fn laws_of_values()
    ensures spells_its_number { SpellsItsNumber }
    ensures if_of_values { IfOfValues }
{}

/// Of a row a store reads its fields alone.
pub fn law_of_stores()
    ensures { StoresReadTheirFields }
{}

// Laws that callers build on.
ghost use Rattle.row_keys.specs.Laws.{KeysStandAsTies, OrderIsTotal, OnlyEqualKeysTie, AlikeRowsHaveOneKey, KeysStandAsRows};

/// Maps by a row's `Key` have rows in the order in which those that tie stand. The order of cells in a list is total, and a list ties with
/// itself alone. Rows have one key exactly where they are alike in its fields, and keys stand as rows do by these fields.
pub fn laws_of_keys()
    ensures ids { KeysStandAsTies }
    ensures total { OrderIsTotal }
    ensures ties { OnlyEqualKeysTie }
    ensures alike { AlikeRowsHaveOneKey }
    ensures rows { KeysStandAsRows }
{}

// Laws that callers build on.
ghost use Rattle.cell_value.specs.Laws.{OrderIsTotal, OnlyEqualCellsTie, SameCellsAreEqual, WhatIsSetIsRead, OtherNamesStay};
ghost use Rattle.cell_value.specs.Laws.{AlikeRowsAreEqual};

/// The order of cells is total, and a cell ties with itself alone.
pub fn laws_of_cells()
    ensures total { OrderIsTotal }
    ensures ties { OnlyEqualCellsTie }
    ensures same { SameCellsAreEqual }
{}

/// What is set under a name is read there, and other names stay; rows that read alike are equal.
pub fn laws_of_rows()
    ensures set { WhatIsSetIsRead }
    ensures others { OtherNamesStay }
    ensures alike { AlikeRowsAreEqual }
{}

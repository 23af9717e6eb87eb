//! What the readers of single values keep, and what the table of members takes.
ghost use Rattle.vl_building.specs.Taken.{ValuesAreKept, NumbersAreKept, NamesAreKept, CodesAreKept, ObjectsAreKept};

/// The readers of single values keep exactly what the table takes of their shapes.
pub fn readers_keep_the_table()
    ensures values { ValuesAreKept }
    ensures numbers { NumbersAreKept }
    ensures names { NamesAreKept }
    ensures codes { CodesAreKept }
    ensures objects { ObjectsAreKept }
{}

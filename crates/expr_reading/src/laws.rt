// Laws that callers build on.
ghost use Rattle.expr_reading.specs.Laws.{ExpressionOfIsReading, CallOfIsSpelled};

/// What a text reads as is the tree of which the grammar says so, and the call that it spells is the one whose tokens it has.
pub fn laws_of_readings()
    ensures expression { ExpressionOfIsReading }
    ensures call { CallOfIsSpelled }
{}

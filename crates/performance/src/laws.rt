ghost use Rattle.performance.specs.Laws.{PerformancesInRange};

/// Between which numbers every performance lies. Does nothing: a caller learns it from the clause.
pub fn performance_range()
    ensures { PerformancesInRange }
{}

ghost use Rattle.sheet.specs.Laws.{StreakMeans, PointsAreFew};

/// When a draw falls into a streak of draws, and how much games are worth at most. Does nothing: a caller learns it from the
/// clauses.
pub fn worth_of_games()
    ensures streak { StreakMeans }
    ensures few { PointsAreFew }
{}

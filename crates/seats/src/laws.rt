ghost use Rattle.seats.specs.Laws.{LeaveIsFinal, LastWishHolds, NothingAsked, NoShowPauses};
ghost use Rattle.seats.specs.Laws.{PlaysUntilFreed, FreedUntilSeated, BeforeTheFirstGame};
ghost use Rattle.seats.specs.Laws.{SinceItBegan, ToldOfTheIdle};

/// What a player wishes for after any calls: a leave is for good, and otherwise the last enter, pause or no-show counts.
pub fn wishes_by_calls()
    ensures leave { LeaveIsFinal }
    ensures last { LastWishHolds }
    ensures nothing { NothingAsked }
    ensures no_show { NoShowPauses }
{}

/// Where a player is after any calls: at his game until it ends, whatever he wishes for, and otherwise where his wish has him.
pub fn seats_by_calls()
    ensures plays { PlaysUntilFreed }
    ensures freed { FreedUntilSeated }
    ensures first { BeforeTheFirstGame }
{}

/// Since when a player is idle after any calls: from the number on that was given at the call that last made him so.
pub fn idle_since_by_calls()
    ensures began { SinceItBegan }
    ensures told { ToldOfTheIdle }
{}

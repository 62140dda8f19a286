ghost use Rattle.game_room.specs.Laws.{EndedStays, EndedViewStays, RefusedIsNoEvent, LookChangesNothing, EndedRefuses};
ghost use Rattle.game_room.specs.Laws.{WhichEventEnds, OneEventEnds, OutcomesTell, DueGamesEnd};
ghost use Rattle.game_room.specs.Laws.{MovesAreDone, PliesAreMoves, OneTurn, TurnBegan, BanksAreExact};
ghost use Rattle.game_room.specs.Laws.{BerserkMeans, OfferedMeans, OfferMeans, RoomsCount};

/// Events that change nothing, whatever follows: those after the end of the game, refused actions, and looks at which the
/// game is not due.
pub fn what_changes_nothing()
    ensures ended { EndedStays }
    ensures seen { EndedViewStays }
    ensures over { EndedRefuses }
    ensures refused { RefusedIsNoEvent }
    ensures look { LookChangesNothing }
{}

/// Which event ends a game, that there is one of which the outcome tells, and what it tells.
pub fn what_ends_a_game()
    ensures which { WhichEventEnds }
    ensures due { DueGamesEnd }
    ensures one { OneEventEnds }
    ensures tells { OutcomesTell }
{}

/// The moves of a game, how many there are, when the turn began in which the next one is made, and
/// that no side has spent more time than it was given.
pub fn moves_and_turns()
    ensures made { MovesAreDone }
    ensures plies { PliesAreMoves }
    ensures turn { OneTurn }
    ensures began { TurnBegan }
    ensures banks { BanksAreExact }
{}

/// When a side has berserked, when it has offered a draw since the last move, and when its offer stands.
pub fn berserks_and_offers()
    ensures berserk { BerserkMeans }
    ensures offered { OfferedMeans }
    ensures offer { OfferMeans }
{}

/// What a room keeps of a game tells how often its position has occurred among all positions of the game, and for how many
/// moves no pawn has moved and nothing was captured.
pub fn rooms_count()
    ensures { RoomsCount }
{}

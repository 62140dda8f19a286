ghost use Rattle.arena_games.specs.Laws.{RecordsStay, RecordsShow, RecordsAreMade, RecordsRefuse, IdleLooks, DueIsKept, RoomsAreInTime};
ghost use Rattle.arena_games.specs.Laws.{LooksEnd, OutcomesStay, LooksArePast, ActsGoOn};

use game_room::{berserks_and_offers, moves_and_turns, what_changes_nothing, what_ends_a_game};

// The record of an ended game stays, shows what can be seen of it, and refuses every action.
pub fn records_stay()
    ensures stay { RecordsStay }
    ensures show { RecordsShow }
    ensures made { RecordsAreMade }
    ensures refuse { RecordsRefuse }
{
    what_changes_nothing();
    what_ends_a_game();
    moves_and_turns();
    berserks_and_offers();
}

// All of this, and what is kept of a game tells whether it is due, and stays where it is not; its room may be asked at every later moment.
pub fn kept_games_stay()
    ensures show { RecordsShow }
    ensures made { RecordsAreMade }
    ensures refuse { RecordsRefuse }
    ensures idle { IdleLooks }
    ensures due { DueIsKept }
    ensures rooms { RoomsAreInTime }
{
    records_stay();
    what_changes_nothing();
    moves_and_turns();
}

/// A look ends exactly the games that go on and that are over with it; an outcome stays; and looks are not later than their
/// stamp.
pub fn looks_end()
    ensures ends { LooksEnd }
    ensures stay { OutcomesStay }
    ensures past { LooksArePast }
{
    what_changes_nothing();
}

/// An action that is allowed is one in a game that goes on: no game has a second outcome.
pub fn acts_go_on()
    ensures { ActsGoOn }
{
    what_changes_nothing();
}

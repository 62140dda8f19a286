ghost use Rattle.arena_history.specs.HistoryLaws.{HasItsEntries, BeginningsAreHistories, HistoriesGrow};
ghost use Rattle.arena_history.specs.HistoryLaws.{StartsOfBeginnings, LeftsOfBeginnings, StartsHaveEntries};
ghost use Rattle.arena_history.specs.GameLaws.{GamesAreNumbered, GamesWithOneMore, EventsAreItsOwn, EventsWithOneMore, NewGames, RunningWithOneMore, RunningGamesRun};
ghost use Rattle.arena_history.specs.GameLaws.{EndedGamesStay, EndedGames, EndedRunNoLonger, EndedByEvents, EndedByAct, EndedByLook, OnlyEventsEndGames};
ghost use Rattle.arena_history.specs.GameLaws.{CountedWithOneMore, CountedOnce, CountedEnded, CountedStay, CountedAndRunning};
ghost use Rattle.arena_history.specs.PlayerLaws.{WishWithOneMore, WishesByEntries, AtMostOneGame, RunningGamesArePlayed, PlayedGamesRun, GamesBeginForPlayers};
ghost use Rattle.arena_history.specs.PlayerLaws.{NothingIsKnown, PlaceWithOneMore, PlacesWithOneMore, EndedAreApart, NoShowOfHisGame};
ghost use Rattle.arena_history.specs.PlayerLaws.{SinceIsLeast, SinceWithOneMore, StillIsThroughout, StillByNumber};
ghost use Rattle.arena_history.specs.TableLaws.{TableHasEntered, TableIsOrdered, RowsAreOfPlayers, EnteredWithOneMore, LinesWithOneMore};
ghost use Rattle.arena_history.specs.TableLaws.{ResultsWithOneMore, LinesAreOfEntered, LinesWithOnePlayerMore, NewcomersAreFresh};
ghost use Rattle.arena_history.specs.BoundLaws.{EventsAreEntries, ResultsAreCounted, RowsAreFew, RowsAreInRange, CandidatesAreRanking};
ghost use Rattle.arena_history.specs.BoundLaws.{WavesAreSmall, PlayersOfGames, StartsStandInOrder, WavesAreFew, AloneAreFew, BalancesAreSmall};
ghost use Rattle.arena_history.specs.WaveLaws.{CandidatesAreIdle, IdleArePlanned, WavesBeginStarted, StartedWereIdle, StartedByNumbers};
ghost use Rattle.arena_history.specs.WaveLaws.{LastOpponentWithOneMore, BalanceWithOneMore, AloneWithOneMore, LastWaveWithOneMore};

use game_room::{what_changes_nothing, what_ends_a_game};
use performance::performance_range;
use sheet::worth_of_games;
use wave::each_player_once;

/// A history has the entries of its list; its first entries are the history of the list's first entries, with the games that
/// they began and the players whom they left alone; and it grows entry by entry.
pub fn beginnings_are_histories()
    ensures entries { HasItsEntries }
    ensures beginnings { BeginningsAreHistories }
    ensures grow { HistoriesGrow }
    ensures starts { StartsOfBeginnings }
    ensures lefts { LeftsOfBeginnings }
    ensures belong { StartsHaveEntries }
{}

/// Which games are begun and which run, and what happened in each, with one entry more.
pub fn games_with_one_more()
    ensures numbered { GamesAreNumbered }
    ensures begun { GamesWithOneMore }
    ensures own { EventsAreItsOwn }
    ensures events { EventsWithOneMore }
    ensures new_games { NewGames }
    ensures running { RunningWithOneMore }
    ensures run { RunningGamesRun }
{}

/// Which games an entry ends, and that an ended game stays as it is.
pub fn games_end()
    ensures ended { EndedGames }
    ensures no_longer { EndedRunNoLonger }
    ensures by_events { EndedByEvents }
    ensures by_act { EndedByAct }
    ensures by_look { EndedByLook }
    ensures others { OnlyEventsEndGames }
    ensures stay { EndedGamesStay }
{
    what_changes_nothing();
    what_ends_a_game();
}

/// Each game that ended before the arena's end counts once, no other game does, and it stays counted as it ended.
pub fn games_count_once()
    ensures one_more { CountedWithOneMore }
    ensures once { CountedOnce }
    ensures ended { CountedEnded }
    ensures stay { CountedStay }
    ensures room { CountedAndRunning }
{}

/// What a player's wish is, by his entries and by the games for which he did not appear.
pub fn wishes_of_players()
    ensures one_more { WishWithOneMore }
    ensures by_entries { WishesByEntries }
{}

/// A player is in at most one running game, both players of a running game sit in it, and whoever plays a game is one of its
/// players; and which game a wave begins for whom.
pub fn players_sit_in_their_games()
    ensures at_most_one { AtMostOneGame }
    ensures played { RunningGamesArePlayed }
    ensures run { PlayedGamesRun }
    ensures begin { GamesBeginForPlayers }
{
    each_player_once();
}

/// Where a player is with one entry more.
pub fn places_with_one_more()
    ensures nothing { NothingIsKnown }
    ensures one_more { PlaceWithOneMore }
    ensures all { PlacesWithOneMore }
    ensures apart { EndedAreApart }
    ensures no_show { NoShowOfHisGame }
{
    each_player_once();
}

/// Since when a player has been idle, and who is still idle.
pub fn idle_players()
    ensures least { SinceIsLeast }
    ensures one_more { SinceWithOneMore }
    ensures throughout { StillIsThroughout }
    ensures by_number { StillByNumber }
{}

/// The table has each player who entered, in its order, and nobody else, and each with what his games count for.
pub fn table_is_in_order()
    ensures has { TableHasEntered }
    ensures ordered { TableIsOrdered }
    ensures rows { RowsAreOfPlayers }
{}

/// What one player or one counted game more changes of the lines of the table.
pub fn lines_with_one_more()
    ensures lines { LinesAreOfEntered }
    ensures entered { EnteredWithOneMore }
    ensures player { LinesWithOnePlayerMore }
    ensures game { LinesWithOneMore }
    ensures results { ResultsWithOneMore }
    ensures fresh { NewcomersAreFresh }
{
    each_player_once();
}

/// What a snapshot has, that its plan pairs every idle player or leaves him alone, and which games a wave begins.
pub fn waves_begin_games()
    ensures candidates { CandidatesAreIdle }
    ensures planned { IdleArePlanned }
    ensures begin { WavesBeginStarted }
    ensures started { StartedWereIdle }
    ensures by_numbers { StartedByNumbers }
{
    each_player_once();
}

/// What the next snapshot tells of a player with one entry more.
pub fn candidates_with_one_more()
    ensures last { LastOpponentWithOneMore }
    ensures balance { BalanceWithOneMore }
    ensures alone { AloneWithOneMore }
    ensures wave { LastWaveWithOneMore }
{}

/// What happens in a game is entries, and nothing happens in it later than the latest of them.
pub fn events_are_entries()
    ensures { EventsAreEntries }
{}

/// How many rows and results there are at most, between which numbers the values of rows lie, and that a snapshot's candidates
/// are a ranking, as planning asks.
pub fn rows_are_in_range()
    ensures results { ResultsAreCounted }
    ensures few { RowsAreFew }
    ensures ranges { RowsAreInRange }
    ensures ranking { CandidatesAreRanking }
{
    worth_of_games();
    performance_range();
}

/// How many waves there are at most, and how often one player can be left alone and have one colour more than the other.
pub fn waves_are_few()
    ensures few { WavesAreFew }
    ensures alone { AloneAreFew }
    ensures balance { BalancesAreSmall }
{}

/// The games that waves begin: in the order of the waves, between players of the setup, and no more than 500 a wave.
pub fn waves_list_their_games()
    ensures order { StartsStandInOrder }
    ensures players { PlayersOfGames }
    ensures small { WavesAreSmall }
{
    each_player_once();
}

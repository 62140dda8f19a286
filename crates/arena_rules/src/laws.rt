ghost use Rattle.arena_rules.specs.Below.{LawsOfHistories, LawsOfGames};
ghost use Rattle.arena_rules.specs.CauseLaws.{FullComesLast, ClosedFromTheEnd, ActsNeedTheirGame};
ghost use Rattle.arena_rules.specs.CauseLaws.{EarlyMeans, ClosedMeans, FullMeans, NoAnswerMeans};
ghost use Rattle.arena_rules.specs.RefusalLaws.{OwnRefusalsComeFirst, NotEnteredMeans, AlreadyInMeans, AlreadyPausedMeans, LeftMeans};
ghost use Rattle.arena_rules.specs.RefusalLaws.{ActMeans, NothingDueMeans, LooksEndGames};
ghost use Rattle.arena_rules.specs.FairLaws.{LegalIsFair};
ghost use Rattle.arena_rules.specs.RoomLaws.{HeadersAreInRange, PlayersHaveEntered, GamesAreTimed, RoomsMayBeAsked};
ghost use Rattle.arena_rules.specs.LegalLaws.{NothingIsLegal, OneMoreIsLegal, BeginningsAreLegal, EachIsReached};
ghost use Rattle.arena_rules.specs.LegalLaws.{StampsDoNotFall, StampsHaveTheirBound, LegalLength, LegalGames, GamesAreFew, LegalRanges, EntriesMayBeWritten};
ghost use Rattle.arena_rules.specs.LegalLaws.{StampsStay, StampsMayStand, AllowedIfNotRefused, LegalIfNotRefused};
ghost use Rattle.arena_rules.specs.LegalLaws.{WavesAreAllowed, LegalWaves, CommitsStayLegal, CommandsAreAnswered};
ghost use Rattle.arena_rules.specs.StartLaws.{WavesStartFew, StartsAreInRange, StartsAreOfWaves, LegalIsWritable};
ghost use Rattle.arena_rules.specs.PlanLaws.{PlansAreOfTheirEntries, PlansAreKnown, PlansStay, PlansAreFiltered};
ghost use Rattle.arena_rules.specs.RankingLaws.{EntrantsArePlayers, TablesAreShort, TablesAreInRange, SnapshotsAreRankings};
ghost use Rattle.arena_rules.specs.WishLaws.{LeftIsRefused, NobodyComesBack, PausesEnd, EnteredHaveAsked};

use arena_history::{
    beginnings_are_histories, events_are_entries, games_count_once, games_end, games_with_one_more,
    idle_players, lines_with_one_more, players_sit_in_their_games, rows_are_in_range,
    waves_begin_games, waves_list_their_games, wishes_of_players,
};
use game_room::moves_and_turns;

/// The laws of histories, which those of legal lists rest on.
fn laws_of_histories()
    ensures { LawsOfHistories }
{
    beginnings_are_histories();
    games_with_one_more();
    games_end();
    games_count_once();
    wishes_of_players();
    players_sit_in_their_games();
    idle_players();
    lines_with_one_more();
    waves_begin_games();
    events_are_entries();
    rows_are_in_range();
    waves_list_their_games();
}

/// The laws of single games, which those of rooms rest on.
fn laws_of_games()
    ensures { LawsOfGames }
{
    moves_and_turns();
}

/// Which lists are legal, entry by entry: each is reached from none by allowed entries, one after another.
pub fn legal_lists()
    ensures nothing { NothingIsLegal }
    ensures one_more { OneMoreIsLegal }
    ensures beginnings { BeginningsAreLegal }
    ensures reached { EachIsReached }
{}

/// What each legal list keeps to: its stamps do not fall and have their bound, it has room for its entries and games, and its
/// entries are in range.
pub fn legal_lists_in_range()
    ensures stamps { StampsDoNotFall }
    ensures stamp_most { StampsHaveTheirBound }
    ensures length { LegalLength }
    ensures games { LegalGames }
    ensures few { GamesAreFew }
    ensures ranges { LegalRanges }
    ensures writable { EntriesMayBeWritten }
{
    laws_of_histories();
}

/// A stamp that may stand behind a list of entries is kept, and what is done at a legal list has such a stamp.
pub fn stamps_of_entries()
    ensures stays { StampsStay }
    ensures stands { StampsMayStand }
{
    laws_of_histories();
}

/// An entry is allowed exactly where its command, or the commit of its wave, is not refused; and a command that is not refused
/// has a reply.
pub fn what_is_allowed()
    ensures allowed { AllowedIfNotRefused }
    ensures commands { LegalIfNotRefused }
    ensures allowed_waves { WavesAreAllowed }
    ensures waves { LegalWaves }
    ensures commits { CommitsStayLegal }
    ensures replies { CommandsAreAnswered }
{
    laws_of_histories();
}

/// The plan of a history is one of its entries, stays so while entries follow, and what its commit starts is told by its pairs.
pub fn plans_of_entries()
    ensures own { PlansAreOfTheirEntries }
    ensures within { PlansAreKnown }
    ensures stays { PlansStay }
    ensures starts { PlansAreFiltered }
{
    laws_of_histories();
}

/// Exactly where a command, a commit and a question get which refusal.
pub fn why_refused()
    ensures full_last { FullComesLast }
    ensures own_first { OwnRefusalsComeFirst }
    ensures closed { ClosedFromTheEnd }
    ensures not_entered { NotEnteredMeans }
    ensures already_in { AlreadyInMeans }
    ensures already_paused { AlreadyPausedMeans }
    ensures left { LeftMeans }
    ensures acts { ActsNeedTheirGame }
    ensures by_game { ActMeans }
    ensures nothing_due { NothingDueMeans }
    ensures early { EarlyMeans }
    ensures late { ClosedMeans }
    ensures full { FullMeans }
    ensures no_answer { NoAnswerMeans }
{}

/// A look that is not refused ends at least one game, and where it would end one nothing but the journal's length refuses it.
pub fn looks_end_games()
    ensures { LooksEndGames }
{
    laws_of_histories();
}

/// Whoever left is refused ever after, and nobody comes back behind his leave.
pub fn a_leave_is_final()
    ensures refused { LeftIsRefused }
    ensures no_return { NobodyComesBack }
{
    laws_of_histories();
}

/// Whoever pauses may enter again or leave, and exactly those who entered have asked for something.
pub fn wishes_in_legal_lists()
    ensures pauses { PausesEnd }
    ensures entered { EnteredHaveAsked }
{
    laws_of_histories();
}

/// The games that the waves of a legal list begin: what a journal of version 2 may list.
pub fn games_are_listed()
    ensures few { WavesStartFew }
    ensures ranges { StartsAreInRange }
    ensures waves { StartsAreOfWaves }
    ensures writable { LegalIsWritable }
{
    laws_of_histories();
}

/// In every legal list nobody is in two running games, both players of a running game sit in it, each game that ended before
/// the close counts once and for good, and each wave starts exactly the pairs of its plan that are still idle.
pub fn legal_lists_are_fair()
    ensures { LegalIsFair }
{
    laws_of_histories();
}

/// The games of a legal list: their headers are in range, their players have entered, their events happened in their time, and
/// their rooms may be asked at the last stamp and later.
pub fn games_of_legal_lists()
    ensures headers { HeadersAreInRange }
    ensures entered { PlayersHaveEntered }
    ensures timed { GamesAreTimed }
    ensures rooms { RoomsMayBeAsked }
{
    laws_of_histories();
    laws_of_games();
}

/// The table of a legal list over a good setup has rows in range, and a snapshot's candidates are a ranking.
pub fn tables_of_legal_lists()
    ensures entrants { EntrantsArePlayers }
    ensures short { TablesAreShort }
    ensures ranges { TablesAreInRange }
    ensures rankings { SnapshotsAreRankings }
{
    laws_of_histories();
}

ghost use Rattle.arena_core.specs.Below.{LawsOfHistories};

use arena_history::{
    beginnings_are_histories, candidates_with_one_more, games_count_once, games_end,
    games_with_one_more, lines_with_one_more, places_with_one_more, players_sit_in_their_games,
    waves_begin_games,
};

/// The laws of histories, which what an arena keeps rests on.
pub fn laws_of_histories()
    ensures { LawsOfHistories }
{
    beginnings_are_histories();
    games_with_one_more();
    games_end();
    games_count_once();
    players_sit_in_their_games();
    places_with_one_more();
    lines_with_one_more();
    waves_begin_games();
    candidates_with_one_more();
}

ghost use Rattle.arena_players.specs.Laws.{GamesHaveEntries, WavesAreFew, WavesHaveEntries};

use arena_history::beginnings_are_histories;

/// The waves and the games of a history belong to its entries, and there are no more waves than these. Does nothing: a caller
/// learns it from the clauses.
pub fn waves_are_entries()
    ensures few { WavesAreFew }
    ensures waves { WavesHaveEntries }
    ensures games { GamesHaveEntries }
{
    beginnings_are_histories();
}

ghost use Rattle.games_text.specs.Sent.{MovesWereSent, MovesAreALine};

use arena_history::games_with_one_more;
use game_room::what_ends_a_game;

/// The moves of a game are a legal line from the start, and in a legal list those of an ended game are the first that were sent to
/// it, as many as its outcome tells.
pub fn moves_of_games()
    ensures sent { MovesWereSent }
    ensures line { MovesAreALine }
{
    games_with_one_more();
    what_ends_a_game();
}

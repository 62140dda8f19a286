ghost use Rattle.std.specs.Prelude.{◌≡◌, ◌≢◌, ◌<◌, length, IsTrue};
ghost use Rattle.seats.specs.Places.{place_at, seat_at, is_playing};
ghost use Rattle.arena_history.specs.Changes.{both_freed};
ghost use Rattle.arena_history.specs.Games.{player_on};
ghost use Rattle.arena_history.specs.Wishes.{did_not_appear};
ghost use Rattle.board.specs.Piece.{other};
ghost use Rattle.arena_core.specs.People.{ended_as};

use board::Colour;
use game_room::{Cause, Header, Outcome};
use seats::Seats;

/// Frees both players of a game that ended so, with the entry that makes `n` of them. Who did not appear for it pauses.
pub fn free_players(seats: &mut Seats, header: &Header, outcome: &Outcome, n: u64)
    requires white { header.now.white < length seats.old }
    requires black { header.now.black < length seats.old }
    requires two { header.now.white ≢ header.now.black }
    requires white_plays { IsTrue (is_playing (seat_at (place_at seats.old header.now.white))) }
    requires black_plays { IsTrue (is_playing (seat_at (place_at seats.old header.now.black))) }
    ensures { seats.new ≡ both_freed n (ended_as header.now outcome.now) seats.old }
{
    seats.free(
        header.white,
        n,
        did_not_appear(header.white, header, outcome),
    );
    seats.free(
        header.black,
        n,
        did_not_appear(header.black, header, outcome),
    );
}

// Whether a player did not appear for a game that ended so: that is why he lost it.
fn did_not_appear(p: u32, header: &Header, outcome: &Outcome) -> bool
    ensures { result ≡ did_not_appear p (ended_as header.now outcome.now) }
{
    match outcome.winner {
        Some(winner) => outcome.cause == Cause::NoShow && loser(header, winner) == p,
        None => false,
    }
}

// The player whom the winner of a game beat.
fn loser(header: &Header, winner: Colour) -> u32
    ensures { result ≡ player_on (other winner) header.now }
{
    match winner {
        Colour::White => header.black,
        Colour::Black => header.white,
    }
}

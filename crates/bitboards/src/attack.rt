ghost use Rattle.std.specs.Prelude.{◌≡◌, ◌&&◌, ◌||◌};
ghost use Rattle.board.specs.Attack.{straight, diagonal, on_line, is_clear, strikes_from, attacked, king_attacked};
ghost use Rattle.board.specs.Sets.{IsSetOf};
ghost use Rattle.bitboards.specs.Sight.{sees, seen_by_king};

use crate::lines::{diagonal_reach, straight_reach};
use crate::squares::{first_square, without_first};
use crate::steps::{king_steps, knight_steps, pawn_strikes};
use board::{Colour, Kind, Placement, Square};

/// What a rook on this square strikes: along file and rank up to the first square that is occupied, and that square.
pub fn rook_strikes(board: &Placement, s: Square) -> u64
    ensures { IsSetOf result (λ t. straight s t && is_clear board.now s t) }
{
    board.keeps();
    straight_reach(board.occupied(), s)
}

/// What a bishop on this square strikes: along the diagonals up to the first square that is occupied, and that square.
pub fn bishop_strikes(board: &Placement, s: Square) -> u64
    ensures { IsSetOf result (λ t. diagonal s t && is_clear board.now s t) }
{
    board.keeps();
    diagonal_reach(board.occupied(), s)
}

/// What a queen on this square strikes: all that is seen from it along file, rank and diagonals.
pub fn queen_strikes(board: &Placement, s: Square) -> u64
    ensures { IsSetOf result (sees board.now s) }
{
    rook_strikes(board, s) | bishop_strikes(board, s)
}

/// The squares of this colour's pieces that strike the square.
pub fn attackers(board: &Placement, s: Square, by: Colour) -> u64
    ensures { IsSetOf result (strikes_from board.now by s) }
{
    board.keeps();
    let queens = board.of_kind(Kind::Queen);
    let pawns = board.of_kind(Kind::Pawn) & pawn_strikes(by.other(), s);
    let knights = board.of_kind(Kind::Knight) & knight_steps(s);
    let kings = board.of_kind(Kind::King) & king_steps(s);
    let slanting = (board.of_kind(Kind::Bishop) | queens) & bishop_strikes(board, s);
    let running = (board.of_kind(Kind::Rook) | queens) & rook_strikes(board, s);
    (pawns | knights | kings | slanting | running) & board.of_colour(by)
}

/// Whether a piece of this colour strikes the square.
#[tactic(auto, unfolding(board::specs::Attack::attacked))]
pub fn is_attacked(board: &Placement, s: Square, by: Colour) -> bool
    ensures { result ≡ attacked board.now s by }
{
    attackers(board, s, by) != 0
}

/// Whether a king of this colour stands on a square that the other side attacks.
pub fn is_king_attacked(board: &Placement, colour: Colour) -> bool
    ensures { result ≡ king_attacked board.now colour }
{
    let by = colour.other();
    let mut kings = board.of_kind(Kind::King) & board.of_colour(colour);
    while kings != 0 {
        if is_attacked(board, first_square(kings), by) {
            return true;
        }
        kings = without_first(kings);
    }
    false
}

/// All that the kings of this colour see along files, ranks and diagonals.
pub fn seen_by_king(board: &Placement, colour: Colour) -> u64
    ensures { IsSetOf result (seen_by_king board.now colour) }
{
    let mut kings = board.of_kind(Kind::King) & board.of_colour(colour);
    let mut seen = 0;
    while kings != 0 {
        seen |= queen_strikes(board, first_square(kings));
        kings = without_first(kings);
    }
    seen
}

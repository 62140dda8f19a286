ghost use Rattle.std.specs.Prelude.{◌<◌};
ghost use Rattle.board.specs.Attack.{knight_step, king_step, pawn_strike};
ghost use Rattle.board.specs.Sets.{IsSetOf};

use crate::tables::{BLACK_PAWN, KING, KNIGHT, WHITE_PAWN};
use board::{Colour, Square};

/// Where a knight on this square goes on an empty board (FIDE Laws of Chess, Article 3.6).
pub fn knight_steps(s: Square) -> u64
    ensures is { IsSetOf result (knight_step s) }
    ensures on_board { s < 64 }
{
    KNIGHT[s.index() as usize]
}

/// Where a king on this square steps on an empty board (FIDE Laws of Chess, Article 3.8.1).
pub fn king_steps(s: Square) -> u64
    ensures is { IsSetOf result (king_step s) }
    ensures on_board { s < 64 }
{
    KING[s.index() as usize]
}

/// What a pawn of this colour strikes from this square (FIDE Laws of Chess, Article 3.7.3).
pub fn pawn_strikes(colour: Colour, s: Square) -> u64
    ensures is { IsSetOf result (pawn_strike colour s) }
    ensures on_board { s < 64 }
{
    let s = s.index() as usize;
    match colour {
        Colour::White => WHITE_PAWN[s],
        Colour::Black => BLACK_PAWN[s],
    }
}

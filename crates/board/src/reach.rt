ghost use Rattle.std.specs.Prelude.{◌≡◌};
ghost use Rattle.board.specs.Reach.{king_reaches, kind_reaches, reaches};

use crate::attack::piece_strikes;
use crate::castling::castles;
use crate::cells::is_of;
use crate::parts::Parts;
use crate::pawns::pawn_reaches;
use crate::piece::{Kind, Piece};
use crate::square::Square;

fn king_reaches(p: &Parts, a: Square, b: Square) -> bool
    ensures { result ≡ king_reaches p.now a b }
{
    a.distance(b) == 1 || castles(p, a, b)
}

fn kind_reaches(p: &Parts, kind: Kind, a: Square, b: Square) -> bool
    ensures { result ≡ kind_reaches p.now kind a b }
{
    match kind {
        Kind::Pawn => pawn_reaches(p, a, b),
        Kind::King => king_reaches(p, a, b),
        Kind::Knight | Kind::Bishop | Kind::Rook | Kind::Queen => {
            let piece = Piece {
                colour: p.turn,
                kind,
            };
            piece_strikes(&p.cells, piece, a, b)
        }
    }
}

/// Whether a piece of the side to move stands on `a` and goes to `b` by its way of moving (FIDE Laws of Chess, Articles 3.1 to 3.8).
/// What becomes of the own king is another matter.
#[tactic(auto, unfolding(crate::specs::Reach::reaches))]
pub(crate) fn reaches(p: &Parts, a: Square, b: Square) -> bool
    ensures { result ≡ reaches p.now a b }
{
    match p.at(a) {
        None => false,
        Some(piece) => {
            piece.colour == p.turn && !is_of(p.at(b), p.turn) && kind_reaches(p, piece.kind, a, b)
        }
    }
}

ghost use Rattle.std.specs.Prelude.{◌≡◌, ◌<◌};
ghost use Rattle.board.specs.Pawns.{ahead, pawn_rank, halfway, is_ep, single_step, double_step, pawn_capture, pawn_reaches};

use crate::attack::is_pawn_strike;
use crate::cells::{is_empty, is_of};
use crate::parts::Parts;
use crate::piece::Colour;
use crate::square::Square;

fn is_ahead(colour: Colour, n: u8, a: Square, b: Square) -> bool
    requires { n < 8 }
    ensures { result ≡ ahead colour n a b }
{
    a.file() == b.file()
        && match colour {
            Colour::White => b.rank() == a.rank() + n,
            Colour::Black => a.rank() == b.rank() + n,
        }
}

fn pawn_rank_of(colour: Colour) -> u8
    ensures { result ≡ pawn_rank colour }
{
    match colour {
        Colour::White => 1,
        Colour::Black => 6,
    }
}

/// The square in the middle between two of one file.
fn halfway_to(a: Square, b: Square) -> Square
    ensures { result ≡ halfway a b }
{
    Square::of((a.index() + b.index()) / 2)
}

/// Whether the square is the en passant square.
fn is_ep(s: Square, ep: Option<Square>) -> bool
    ensures { result ≡ is_ep s ep }
{
    match ep {
        None => false,
        Some(e) => s == e,
    }
}

fn steps_once(p: &Parts, a: Square, b: Square) -> bool
    ensures { result ≡ single_step p.now a b }
{
    is_ahead(p.turn, 1, a, b) && is_empty(p, b)
}

fn steps_twice(p: &Parts, a: Square, b: Square) -> bool
    ensures { result ≡ double_step p.now a b }
{
    a.rank() == pawn_rank_of(p.turn)
        && is_ahead(p.turn, 2, a, b)
        && is_empty(p, halfway_to(a, b))
        && is_empty(p, b)
}

fn captures(p: &Parts, a: Square, b: Square) -> bool
    ensures { result ≡ pawn_capture p.now a b }
{
    is_pawn_strike(p.turn, a, b) && (is_of(p.at(b), p.turn.other()) || is_ep(b, p.ep))
}

/// Whether a pawn of the side to move goes from `a` to `b`: one square ahead, two from where it started, or diagonally
/// where it captures, en passant too (FIDE Laws of Chess, Articles 3.7.1 to 3.7.3.2).
pub(crate) fn pawn_reaches(p: &Parts, a: Square, b: Square) -> bool
    ensures { result ≡ pawn_reaches p.now a b }
{
    steps_once(p, a, b) || steps_twice(p, a, b) || captures(p, a, b)
}

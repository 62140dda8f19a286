ghost use Rattle.std.specs.Prelude.{◌≡◌};
ghost use Rattle.board.specs.Pawns.{last_rank, halfway, is_ep};

use board::{Colour, Square};

/// The rank on which a side's pawns become other pieces.
pub(crate) fn last_rank_of(colour: Colour) -> u8
    ensures { result ≡ last_rank colour }
{
    match colour {
        Colour::White => 7,
        Colour::Black => 0,
    }
}

/// The square in the middle between two of one file.
pub(crate) fn halfway_to(a: Square, b: Square) -> Square
    ensures { result ≡ halfway a b }
{
    Square::of((a.index() + b.index()) / 2)
}

/// Whether the square is the en passant square.
pub(crate) fn is_ep(s: Square, ep: Option<Square>) -> bool
    ensures { result ≡ is_ep s ep }
{
    match ep {
        None => false,
        Some(e) => s == e,
    }
}

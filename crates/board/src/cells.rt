ghost use Rattle.std.specs.Prelude.{◌≡◌};
ghost use Rattle.board.specs.Cells.{is_of, is_empty};

use crate::parts::Parts;
use crate::piece::{Colour, Piece};
use crate::square::Square;

/// Whether a piece of this colour stands in the cell.
pub(crate) fn is_of(cell: Option<Piece>, colour: Colour) -> bool
    ensures { result ≡ is_of colour cell }
{
    match cell {
        None => false,
        Some(piece) => piece.colour == colour,
    }
}

/// Whether nothing stands on the square.
pub(crate) fn is_empty(p: &Parts, s: Square) -> bool
    ensures { result ≡ is_empty p.now.cells s }
{
    p.at(s).is_none()
}

ghost use Rattle.std.specs.Prelude.{◌≡◌};
ghost use Rattle.board.specs.Cells.{is_kind, is_empty};

use bitboards::Bits;
use board::{Kind, Piece, Square};

/// Whether a piece of this kind stands in the cell, of either side.
pub(crate) fn is_kind(cell: Option<Piece>, kind: Kind) -> bool
    ensures { result ≡ is_kind kind cell }
{
    match cell {
        None => false,
        Some(piece) => piece.kind == kind,
    }
}

/// Whether nothing stands on the square.
pub(crate) fn is_empty(p: &Bits, s: Square) -> bool
    ensures { result ≡ is_empty p.now.cells s }
{
    p.at(s).is_none()
}

ghost use Rattle.std.specs.Prelude.{◌≡◌, ◌≤◌};
ghost use Rattle.board.specs.Piece.{other, is_piece};
ghost use Rattle.board.specs.Position.{home};

use crate::square::Square;

/// A side.
#[derive(Clone, Copy, Debug, PartialEq, Eq)]
pub enum Colour {
    White,
    Black,
}

impl Colour {
    /// The side against this one.
    pub fn other(self) -> Colour
        ensures { result ≡ other self }
    {
        match self {
            Colour::White => Colour::Black,
            Colour::Black => Colour::White,
        }
    }

    /// The a-file square of this side's first rank: a1 or a8.
    pub fn home(self) -> Square
        ensures is { result ≡ home self }
        ensures low { result ≤ 56 }
    {
        match self {
            Colour::White => Square::of(0),
            Colour::Black => Square::of(56),
        }
    }
}

/// What a piece is.
#[derive(Clone, Copy, Debug, PartialEq, Eq)]
pub enum Kind {
    Pawn,
    Knight,
    Bishop,
    Rook,
    Queen,
    King,
}

/// A piece of a side. Pawns count as pieces here.
#[derive(Clone, Copy, Debug, PartialEq, Eq)]
pub struct Piece {
    pub colour: Colour,
    pub kind: Kind,
}

/// Whether a piece of this colour and kind stands in the cell.
pub fn is_piece(cell: Option<Piece>, colour: Colour, kind: Kind) -> bool
    ensures { result ≡ is_piece colour kind cell }
{
    match cell {
        None => false,
        Some(piece) => piece.colour == colour && piece.kind == kind,
    }
}

ghost use Rattle.std.specs.Prelude.{◌≡◌, ◌↔◌, length, IsTrue};
ghost use Rattle.board.specs.Square.{SomeSquare};
ghost use Rattle.board.specs.Piece.{other, is_piece};
ghost use Rattle.board.specs.Attack.{piece_on, strikes_from, attacked, king_attacked};
ghost use Rattle.board.specs.Reach.{reaches};

use crate::piece::{Colour, Kind, Piece};
use crate::square::Square;
use crate::{attack, reach};

/// The castlings that are left: king and rook have not moved, and the rook was not taken.
#[derive(Clone, Copy, Debug, PartialEq, Eq)]
pub struct Rights {
    pub white_short: bool,
    pub white_long: bool,
    pub black_short: bool,
    pub black_long: bool,
}

/// A board with all that belongs to a position. It need not be one that a game can have: `Position` keeps that.
#[derive(Clone, Copy, Debug, PartialEq, Eq)]
pub struct Parts {
    /// What stands on each square, by the square's number.
    pub cells: [Option<Piece>; 64],
    /// Who is to move.
    pub turn: Colour,
    pub rights: Rights,
    /// The square that a pawn has just crossed by its double step.
    pub ep: Option<Square>,
    /// How many plies have passed without a pawn move or a capture. It stays at 65,535 once there.
    pub half: u16,
    /// The number of the move, which is 1 at the start and rises after each move of Black. It stays at 65,535 once there.
    pub number: u16,
}

impl Parts {
    /// The piece on a square, or None where it is empty.
    pub fn at(&self, s: Square) -> Option<Piece>
        ensures { result ≡ piece_on self.now.cells s }
    {
        self.cells[s.0 as usize]
    }

    /// Whether a piece of this colour strikes the square, also one of its own side's. A piece strikes a square even if its
    /// going there would leave its own king attacked (FIDE Laws of Chess, Article 3.1).
    pub fn attacked(&self, s: Square, by: Colour) -> bool
        ensures is { result ≡ attacked self.now.cells s by }
        ensures means { IsTrue result ↔ SomeSquare (λ a. IsTrue (strikes_from self.now.cells by s a)) }
    {
        attack::is_attacked(&self.cells, s, by)
    }

    /// Whether a king of this colour stands on a square that the other side attacks, and so is in check (FIDE Laws of
    /// Chess, Article 3.9).
    pub fn is_king_attacked(&self, colour: Colour) -> bool
        ensures is { result ≡ king_attacked self.now.cells colour }
        ensures means { IsTrue result ↔ SomeSquare (λ s. IsTrue (is_piece colour Kind.King (piece_on self.now.cells s)) × IsTrue (attacked self.now.cells s (other colour))) }
    {
        attack::is_king_attacked(&self.cells, colour)
    }

    /// Whether a piece of the side to move stands on `from` and goes to `to` by its way of moving: where it strikes and none of
    /// its own side stands, a pawn ahead too, and a king by castling (FIDE Laws of Chess, Articles 3.1 to 3.8). What becomes
    /// of the own king is another matter.
    pub fn reaches(&self, from: Square, to: Square) -> bool
        ensures { result ≡ reaches self.now from to }
    {
        reach::reaches(self, from, to)
    }

    /// Says to a caller that a board has 64 cells, and does nothing.
    pub fn keeps(&self)
        ensures { length self.now.cells ≡ 64 }
    {}
}

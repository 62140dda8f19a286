ghost use Rattle.std.specs.Prelude.{◌≡◌};
ghost use Rattle.board.specs.Attack.{piece_on};
ghost use Rattle.board.specs.Position.{IsPosition, parts_of, without_ep};
ghost use Rattle.board.specs.Start.{start_parts};

use crate::parts::{Parts, Rights};
use crate::piece::{Colour, Piece};
use crate::placement::Placement;
use crate::square::Square;
use crate::start::start_cells;
use std::marker::Model;

/// All that belongs to a position beside what stands on the squares.
#[derive(Clone, Copy, Debug, PartialEq, Eq)]
pub struct Status {
    /// Who is to move.
    pub turn: Colour,
    pub rights: Rights,
    /// The square that a pawn has just crossed by its double step.
    pub ep: Option<Square>,
    /// How many plies have passed without a pawn move or a capture. It stays at 65,535 once there.
    pub half: u16,
    /// The number of the move, which is 1 at the start and rises after each move of Black. It stays at 65,535 once there.
    pub number: u16,
}

/// A position that a game can have as far as one look at it tells: one king on each side, no pawn on the first or last
/// rank, king and rook at home for each right to castle, an en passant square only behind a pawn that can just have made
/// the double step, the side that is not to move not in check, and a move number of at least 1. It takes 48 bytes: the
/// pieces are kept in four sets of squares.
#[derive(Clone, Copy, Debug, PartialEq, Eq)]
pub struct Position {
    placement: Placement,
    status: Status,
}

impl Model for Position {
    ghost use Rattle.board.specs.declared.parts.Parts.{Parts};

    ghost Value = { Parts };

    ghost use Rattle.board.specs.Position.{IsPosition, parts_of};

    ghost view = { λ p. parts_of p.placement p.status };

    ghost invariant = { λ p. IsPosition (parts_of p.placement p.status) };

    ghost inverse = { λ p. record { placement = p.cells; status = record { turn = p.turn; rights = p.rights; ep = p.ep; half = p.half; number = p.number } } };
}

impl Position {
    /// The position that has these parts. It goes over the 64 cells once.
    pub fn of(parts: Parts) -> Position
        requires { IsPosition parts }
        ensures { result ≡ parts }
    {
        let status = Status {
            turn: parts.turn,
            rights: parts.rights,
            ep: parts.ep,
            half: parts.half,
            number: parts.number,
        };
        Position {
            placement: Placement::of(&parts.cells),
            status,
        }
    }

    /// The position with these pieces on the squares and this beside them.
    pub fn of_placement(placement: Placement, status: Status) -> Position
        requires { IsPosition (parts_of placement status) }
        ensures { result ≡ parts_of placement status }
    {
        Position { placement, status }
    }

    /// The usual array, with White to move (FIDE Laws of Chess, Article 2.3).
    pub fn start() -> Position
        ensures { result ≡ start_parts }
    {
        Position {
            placement: Placement::of(&start_cells()),
            status: Status {
                turn: Colour::White,
                rights: Rights {
                    white_short: true,
                    white_long: true,
                    black_short: true,
                    black_long: true,
                },
                ep: None,
                half: 0,
                number: 1,
            },
        }
    }

    /// What stands on the squares.
    pub fn placement(&self) -> Placement
        ensures { result ≡ self.now.cells }
    {
        self.placement
    }

    /// All else that belongs to the position.
    pub fn status(&self) -> Status
        ensures is { parts_of self.now.cells result ≡ self.now }
        ensures keeps { IsPosition self.now }
    {
        self.status
    }

    /// The parts, which meet what every position keeps. It goes over the 64 squares once.
    pub fn parts(&self) -> Parts
        ensures is { result ≡ self.now }
        ensures keeps { IsPosition result }
    {
        Parts {
            cells: self.placement.cells(),
            turn: self.status.turn,
            rights: self.status.rights,
            ep: self.status.ep,
            half: self.status.half,
            number: self.status.number,
        }
    }

    /// The piece on a square, or None where it is empty.
    pub fn at(&self, s: Square) -> Option<Piece>
        ensures { result ≡ piece_on self.now.cells s }
    {
        self.placement.at(s)
    }

    /// Who is to move.
    pub fn turn(&self) -> Colour
        ensures { result ≡ self.now.turn }
    {
        self.status.turn
    }

    /// The castlings that are left.
    pub fn rights(&self) -> Rights
        ensures { result ≡ self.now.rights }
    {
        self.status.rights
    }

    /// The square that a pawn has just crossed by its double step.
    pub fn ep(&self) -> Option<Square>
        ensures { result ≡ self.now.ep }
    {
        self.status.ep
    }

    /// How many plies have passed without a pawn move or a capture.
    pub fn half(&self) -> u16
        ensures { result ≡ self.now.half }
    {
        self.status.half
    }

    /// The number of the move.
    pub fn number(&self) -> u16
        ensures { result ≡ self.now.number }
    {
        self.status.number
    }
}

/// The same position with no en passant square.
pub fn without_ep(p: &Position) -> Position
    ensures { result ≡ without_ep p.now }
{
    let mut status = p.status();
    status.ep = None;
    Position::of_placement(p.placement(), status)
}

impl Default for Position {
    ghost use Rattle.std.specs.Prelude.{◌≡◌};
    ghost use Rattle.board.specs.Start.{start_parts};

    ghost is_default = { λ p. p ≡ start_parts };

    fn default() -> Self {
        Position::start()
    }
}

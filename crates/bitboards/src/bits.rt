ghost use Rattle.std.specs.Prelude.{◌≡◌};
ghost use Rattle.board.specs.Attack.{piece_on, attacked, king_attacked};
ghost use Rattle.board.specs.Position.{parts_of};
ghost use Rattle.board.specs.Sets.{IsSetOf};
ghost use Rattle.board.specs.Reach.{king_reaches, kind_reaches, reaches};

use crate::attack::{bishop_strikes, is_attacked, is_king_attacked, queen_strikes, rook_strikes};
use crate::castling::castling_targets;
use crate::pawns::pawn_targets;
use crate::steps::{king_steps, knight_steps};
use board::{Colour, Kind, Parts, Piece, Placement, Position, Rights, Square, Status};
use std::marker::Model;

/// All that belongs to a position, with the pieces in four sets of squares. It takes 48 bytes. It need not be what a game can
/// have, as `board::Parts` need not.
#[derive(Clone, Copy, Debug)]
pub struct Bits {
    placement: Placement,
    status: Status,
}

impl Model for Bits {
    ghost use Rattle.board.specs.declared.parts.Parts.{Parts};

    ghost Value = { Parts };

    ghost use Rattle.board.specs.Position.{parts_of};

    ghost view = { λ b. parts_of b.placement b.status };

    ghost inverse = { λ p. record { placement = p.cells; status = record { turn = p.turn; rights = p.rights; ep = p.ep; half = p.half; number = p.number } } };
}

impl Bits {
    /// The same parts with their cells in sets. It goes over the 64 cells once.
    pub fn of(p: &Parts) -> Bits
        ensures { result ≡ p.now }
    {
        Bits {
            placement: Placement::of(&p.cells),
            status: Status {
                turn: p.turn,
                rights: p.rights,
                ep: p.ep,
                half: p.half,
                number: p.number,
            },
        }
    }

    /// The parts of a position, whose sets are at hand.
    pub fn of_position(p: &Position) -> Bits
        ensures { result ≡ p.now }
    {
        Bits {
            placement: p.placement(),
            status: p.status(),
        }
    }

    /// What stands on the squares.
    pub fn placement(&self) -> Placement
        ensures { result ≡ self.now.cells }
    {
        self.placement
    }

    /// All else that belongs to a position.
    pub fn status(&self) -> Status
        ensures { parts_of self.now.cells result ≡ self.now }
    {
        self.status
    }

    /// Who is to move.
    pub fn turn(&self) -> Colour
        ensures { result ≡ self.now.turn }
    {
        self.status.turn
    }

    /// The castlings that are left.
    pub fn rights(&self) -> Rights
        ensures { result ≡ self.now.rights }
    {
        self.status.rights
    }

    /// The square that a pawn has just crossed by its double step.
    pub fn ep(&self) -> Option<Square>
        ensures { result ≡ self.now.ep }
    {
        self.status.ep
    }

    /// What stands on a square, or None where it is empty.
    pub fn at(&self, s: Square) -> Option<Piece>
        ensures { result ≡ piece_on self.now.cells s }
    {
        self.placement().at(s)
    }

    /// Whether a piece of this colour strikes the square, also one of its own side's.
    pub fn attacked(&self, s: Square, by: Colour) -> bool
        ensures { result ≡ attacked self.now.cells s by }
    {
        is_attacked(&self.placement(), s, by)
    }

    /// Whether a king of this colour stands on a square that the other side attacks.
    pub fn is_king_attacked(&self, colour: Colour) -> bool
        ensures { result ≡ king_attacked self.now.cells colour }
    {
        is_king_attacked(&self.placement(), colour)
    }

    fn king_targets(&self, from: Square) -> u64
        ensures { IsSetOf result (king_reaches self.now from) }
    {
        king_steps(from) | castling_targets(self, from)
    }

    fn kind_targets(&self, kind: Kind, from: Square) -> u64
        ensures { IsSetOf result (kind_reaches self.now kind from) }
    {
        let placement = self.placement();
        match kind {
            Kind::Pawn => pawn_targets(self, from),
            Kind::Knight => knight_steps(from),
            Kind::Bishop => bishop_strikes(&placement, from),
            Kind::Rook => rook_strikes(&placement, from),
            Kind::Queen => queen_strikes(&placement, from),
            Kind::King => self.king_targets(from),
        }
    }

    /// The squares to which the piece on a square goes, if it is of the side to move, by its way of moving: what
    /// `board::Parts::reaches` says of each of the 64. What becomes of the own king is another matter.
    #[tactic(auto, unfolding(board::specs::Reach::reaches))]
    pub fn targets(&self, from: Square) -> u64
        ensures { IsSetOf result (reaches self.now from) }
    {
        let turn = self.turn();
        match self.placement().at(from) {
            None => 0,
            Some(piece) => {
                if piece.colour == turn {
                    self.kind_targets(piece.kind, from) & !self.placement().of_colour(turn)
                } else {
                    0
                }
            }
        }
    }
}

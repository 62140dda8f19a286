ghost use Rattle.board.specs.Moves.{IsMove};

use crate::piece::Kind;
use crate::square::Square;
use std::marker::Model;

/// A move as it is named: where a piece goes from and to, and what a pawn becomes on the last rank, which is a knight, a
/// bishop, a rook or a queen. Castling is the king's move of two squares. Whether the move is legal is another matter.
#[derive(Clone, Copy, Debug, PartialEq, Eq)]
pub struct Move {
    pub from: Square,
    pub to: Square,
    pub promo: Option<Kind>,
}

impl Model for Move {
    ghost use Rattle.std.specs.Prelude.{IsTrue};
    ghost use Rattle.board.specs.Moves.{MoveWord, can_be_promo};

    ghost Value = { MoveWord };

    ghost view = { λ m. record { from = m.from; to = m.to; promo = m.promo } };

    ghost invariant = { λ m. IsTrue (can_be_promo m.promo) };

    ghost inverse = { λ m. record { from = m.from; to = m.to; promo = m.promo } };
}

impl Move {
    /// Says to a caller what every move keeps, and does nothing.
    pub fn keeps(&self)
        ensures { IsMove self.now }
    {
        let _from = self.from.index();
        let _to = self.to.index();
    }
}

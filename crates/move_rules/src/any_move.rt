ghost use Rattle.std.specs.Prelude.{◌≡◌, IsTrue};
ghost use Rattle.std.specs.List.{list_any};
ghost use Rattle.board.specs.Moves.{can_be_promo};
ghost use Rattle.board.specs.Reach.{reaches};
ghost use Rattle.move_rules.specs.Legal.{legal};
ghost use Rattle.move_rules.specs.Lists.{move_of, moves_between, moves_from, has_legal_move};

use crate::king_safety::occupied_squares;
use crate::legal::is_legal_reached;
use bitboards::{Bits, first_square, without_first};
use board::{Kind, Move, Square};

fn is_legal_as(p: &Bits, from: Square, to: Square, promo: Option<Kind>) -> bool
    requires reached { IsTrue (reaches p.now from to) }
    requires can { IsTrue (can_be_promo promo) }
    ensures { result ≡ legal p.now (move_of from to promo) }
{
    is_legal_reached(p, occupied_squares(p), Move { from, to, promo })
}

fn has_legal_reached(p: &Bits, from: Square, to: Square) -> bool
    requires { IsTrue (reaches p.now from to) }
    ensures { result ≡ list_any (legal p.now) (moves_between from to) }
{
    is_legal_as(p, from, to, None)
        || is_legal_as(p, from, to, Some(Kind::Queen))
        || is_legal_as(p, from, to, Some(Kind::Rook))
        || is_legal_as(p, from, to, Some(Kind::Bishop))
        || is_legal_as(p, from, to, Some(Kind::Knight))
}

fn has_legal_from(p: &Bits, from: Square) -> bool
    ensures { result ≡ list_any (legal p.now) (moves_from from) }
{
    let mut targets = p.targets(from);
    while targets != 0 {
        if has_legal_reached(p, from, first_square(targets)) {
            return true;
        }
        targets = without_first(targets);
    }
    false
}

/// Whether the side to move has a legal move. The search ends at the first.
pub(crate) fn has_legal_move(p: &Bits) -> bool
    ensures { result ≡ has_legal_move p.now }
{
    let mut own = p.placement().of_colour(p.turn());
    while own != 0 {
        if has_legal_from(p, first_square(own)) {
            return true;
        }
        own = without_first(own);
    }
    false
}

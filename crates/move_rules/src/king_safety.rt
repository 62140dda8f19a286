ghost use Rattle.std.specs.Prelude.{◌≡◌, IsTrue};
ghost use Rattle.board.specs.Reach.{reaches};
ghost use Rattle.board.specs.Sets.{IsSetOf};
ghost use Rattle.move_rules.specs.Legal.{leaves_king_safe};
ghost use Rattle.move_rules.specs.Exposed.{strikes_ep, IsSafeOutside};

use crate::board_after::cells_after;
use bitboards::{Bits, has_square, is_king_attacked, pawn_strikes, seen_by_king};
use board::{Colour, Kind, Move, Square};

#[tactic(auto, unfolding(crate::specs::Legal::leaves_king_safe))]
fn leaves_king_safe(p: &Bits, m: Move) -> bool
    ensures { result ≡ leaves_king_safe p.now m }
{
    !is_king_attacked(&cells_after(p, m), p.turn())
}

// The squares from which a pawn of this colour strikes the en passant square.
fn ep_strikers(colour: Colour, ep: Option<Square>) -> u64
    ensures { IsSetOf result (strikes_ep colour ep) }
{
    match ep {
        None => 0,
        Some(s) => pawn_strikes(colour.other(), s),
    }
}

/// The squares from which a piece can leave at all. Whoever asks of one move alone takes these for the exposed ones.
pub(crate) fn occupied_squares(p: &Bits) -> u64
    ensures { IsSafeOutside p.now result }
{
    p.placement().occupied()
}

/// The squares from which a move can leave the own king attacked: in check all that are occupied. Otherwise the squares of
/// kings, those that the own king sees, and those from which a pawn may capture en passant, which takes two pieces off a line.
pub(crate) fn exposed_squares(p: &Bits) -> u64
    ensures { IsSafeOutside p.now result }
{
    let placement = p.placement();
    placement.keeps();
    if is_king_attacked(&placement, p.turn()) {
        occupied_squares(p)
    } else {
        placement.of_kind(Kind::King)
            | seen_by_king(&placement, p.turn())
            | ep_strikers(p.turn(), p.ep())
    }
}

/// Whether a move leaves the own king safe. It is tried out only where the square that it leaves is exposed.
pub(crate) fn is_safe(p: &Bits, exposed: u64, m: Move) -> bool
    requires reached { IsTrue (reaches p.now m.from m.to) }
    requires outside { IsSafeOutside p.now exposed }
    ensures { result ≡ leaves_king_safe p.now m }
{
    m.keeps();
    !has_square(exposed, m.from) || leaves_king_safe(p, m)
}

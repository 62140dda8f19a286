ghost use Rattle.std.specs.Prelude.{◌≡◌, IsTrue, false, None};
ghost use Rattle.board.specs.Position.{IsPosition};
ghost use Rattle.board.specs.Reach.{reaches};
ghost use Rattle.move_rules.specs.After.{after};
ghost use Rattle.move_rules.specs.Legal.{is_promotion, names_promo, legal};
ghost use Rattle.move_rules.specs.Exposed.{IsSafeOutside};

use crate::after::status_after;
use crate::board_after::{cells_after, is_pawn_move};
use crate::king_safety::{is_safe, occupied_squares};
use crate::pawns::last_rank_of;
use bitboards::{Bits, has_square};
use board::{Move, Position, Square};

pub(crate) fn is_promotion(p: &Bits, m: Move) -> bool
    ensures { result ≡ is_promotion p.now m }
{
    m.to.rank() == last_rank_of(p.turn()) && is_pawn_move(p, m)
}

#[tactic(auto, unfolding(crate::specs::Legal::names_promo))]
fn names_promo(p: &Bits, m: Move) -> bool
    ensures { result ≡ names_promo p.now m }
{
    if is_promotion(p, m) {
        m.promo.is_some()
    } else {
        m.promo.is_none()
    }
}

/// Whether a move is legal by which a piece goes where it reaches and none is promoted: the king decides.
#[tactic(auto, using(crate::proofs::MoveLists::legal_where_plain))]
pub(crate) fn is_legal_plain(p: &Bits, exposed: u64, m: Move) -> bool
    requires reached { IsTrue (reaches p.now m.from m.to) }
    requires outside { IsSafeOutside p.now exposed }
    requires plain { is_promotion p.now m ≡ false }
    requires names_none { m.promo ≡ None }
    ensures { result ≡ legal p.now m }
{
    m.keeps();
    is_safe(p, exposed, m)
}

/// Whether a move is legal by which a piece goes where it reaches: promotion and king decide.
#[tactic(auto, using(crate::proofs::MoveLists::legal_where_reached))]
pub(crate) fn is_legal_reached(p: &Bits, exposed: u64, m: Move) -> bool
    requires reached { IsTrue (reaches p.now m.from m.to) }
    requires outside { IsSafeOutside p.now exposed }
    ensures { result ≡ legal p.now m }
{
    m.keeps();
    names_promo(p, m) && is_safe(p, exposed, m)
}

fn reaches(p: &Bits, from: Square, to: Square) -> bool
    ensures { result ≡ reaches p.now from to }
{
    has_square(p.targets(from), to)
}

/// Whether a move is legal, asked of the sets of a position.
#[tactic(auto, using(crate::proofs::MoveLists::illegal_unless_reached))]
pub(crate) fn is_legal_in(p: &Bits, m: Move) -> bool
    ensures { result ≡ legal p.now m }
{
    reaches(p, m.from, m.to) && is_legal_reached(p, occupied_squares(p), m)
}

/// Whether the move is legal in the position: the piece goes there by its way of moving (FIDE Laws of Chess, Articles 3.1 to
/// 3.8), a pawn names what it becomes exactly where it comes to its last rank (3.7.3.3), and the own king is not attacked
/// afterwards (3.9.2).
pub fn is_legal(p: &Position, m: Move) -> bool
    ensures { result ≡ legal p.now m }
{
    is_legal_in(&Bits::of_position(p), m)
}

fn position_after(p: &Bits, m: Move) -> Position
    requires position { IsPosition p.now }
    requires legal { IsTrue (legal p.now m) }
    ensures is { result ≡ after p.now m }
    ensures keeps { IsPosition result }
{
    m.keeps();
    let cells = cells_after(p, m);
    Position::of_placement(cells, status_after(p, m))
}

/// The position after a legal move: the board with what was captured taken off, a promoted pawn as what it has become and
/// the rook of a castling moved too, the castlings that are left, the square that a pawn has crossed by a double step, the
/// other side to move, and the two counts, each of which stays at 65,535 once it is there.
pub fn make(p: &Position, m: Move) -> Position
    requires { IsTrue (legal p.now m) }
    ensures is { result ≡ after p.now m }
    ensures keeps { IsPosition result }
{
    // It is read so that the proof has what every position keeps.
    let _status = p.status();
    position_after(&Bits::of_position(p), m)
}

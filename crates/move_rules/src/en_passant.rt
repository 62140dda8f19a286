ghost use Rattle.std.specs.Prelude.{◌≡◌, ◌↔◌, ℕ, IsTrue};
ghost use Rattle.std.specs.List.{list_any};
ghost use Rattle.board.specs.Position.{IsPosition};
ghost use Rattle.move_rules.specs.After.{is_en_passant};
ghost use Rattle.move_rules.specs.Legal.{legal};
ghost use Rattle.move_rules.specs.Lists.{SomeMove, squares, move_of};
ghost use Rattle.move_rules.specs.EnPassant.{is_legal_en_passant, ep_legal, canonical};

use crate::board_after::is_en_passant;
use crate::legal::is_legal_in;
use bitboards::{Bits, first_square, pawn_strikes, without_first};
use board::{Move, Position, Square, without_ep};

// Whether a pawn on `from` may capture en passant on `to`.
fn captures_from(p: &Bits, to: Square, from: Square) -> bool
    ensures { result ≡ is_legal_en_passant p.now (move_of from to None) }
{
    let m = Move {
        from,
        to,
        promo: None,
    };
    is_en_passant(p, m) && is_legal_in(p, m)
}

fn captures_on(p: &Bits, to: Square) -> bool
    ensures { let captures = λ (a : ℕ). is_legal_en_passant p.now (move_of a to None)
        in result ≡ list_any captures squares }
{
    let mut pawns = pawn_strikes(p.turn().other(), to);
    while pawns != 0 {
        if captures_from(p, to, first_square(pawns)) {
            return true;
        }
        pawns = without_first(pawns);
    }
    false
}

#[tactic(auto, using(crate::proofs::PassingMoves::ep_legal_none, crate::proofs::PassingMoves::ep_legal_some))]
fn has_legal_capture(p: &Bits) -> bool
    requires { IsPosition p.now }
    ensures { result ≡ ep_legal p.now }
{
    match p.ep() {
        None => false,
        Some(to) => captures_on(p, to),
    }
}

/// Whether a pawn may legally capture en passant (FIDE Laws of Chess, Articles 3.7.3.1 and 3.7.3.2).
#[tactic(auto, using(crate::proofs::PassingMoves::ep_legal_means))]
pub fn ep_legal(p: &Position) -> bool
    ensures is { result ≡ ep_legal p.now }
    ensures means { IsTrue result
        ↔ SomeMove (λ m. IsTrue (is_en_passant p.now m) × IsTrue (legal p.now m)) }
{
    // It is read so that the proof has what every position keeps.
    let _status = p.status();
    has_legal_capture(&Bits::of_position(p))
}

/// The same position, with no en passant square where no legal move uses it. Positions count as one that was repeated where
/// these are the same (FIDE Laws of Chess, Article 9.2.3).
pub fn canonical(p: &Position) -> Position
    ensures { result ≡ canonical p.now }
{
    if ep_legal(p) { *p } else { without_ep(p) }
}
